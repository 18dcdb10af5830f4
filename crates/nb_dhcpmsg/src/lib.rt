//! DHCP messages (RFC 2131) and their options (RFC 2132).
//!
//! An option may stand in the options field, and by overload in the fields for a file's and a server's
//! name; values of one tag are joined over all of them (RFC 3396). A value may hold options itself. What a
//! client sends isn't here. Start with `DhcpMsg`; specs/Messages.antt says which bytes are a message, and
//! specs/Fields.antt says it as a function of the bytes.
#![tactic(auto)]

mod collected;
mod cursor;
mod joined;
mod laws;
mod message;
mod option;
mod stream;

pub use collected::{has_tag, joined_value, options_within};
pub use laws::{inner_options_are_read_as_a_field, messages_are_read_by_the_grammar};
pub use message::DhcpMsg;
pub use option::DhcpOption;
