// The settings of a client, after ipxe.org's settings: the grammar of their names, the listed names with
// their kinds and their tags, which are options of DHCP (RFC 2132), and the table of blocks with its
// look-up by priority, with the settings that a lease gives a block. How a value is printed and read from
// text is left to the crate above. Begin with `Name`, then `Table`.
#![tactic(auto)]

mod block;
mod cut;
mod error;
mod key;
mod kind;
mod lease;
mod list;
mod listed;
mod lookup;
mod name;
mod nulls;
mod setting;
mod table;
mod word;

pub use error::SetError;
pub use key::Key;
pub use kind::Kind;
pub use name::Name;
pub use nulls::without_nulls;
pub use setting::Value;
pub use table::{MAX_BLOCKS, MAX_SETTINGS, MAX_VALUE, Table};
