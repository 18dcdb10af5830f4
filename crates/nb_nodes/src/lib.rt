// The objects of opens, as nodes of nb_graph: a Fetch gathers a file, and a Tftp plugged below it carries the transfer
// (RFC 1350), or an Http (RFC 9112) with a Tcp below it (RFC 9293), which are those of nb_webnodes and nb_conns; a
// Resolver looks a name up (RFC 1035), a Dhcp asks for a lease (RFC 2131), and a Ping for an echo (RFC 792). These three
// are one `Asker`, each over its `Core`. What each has done is said over its trace: of a Tftp in terms of nb_tftp's
// history (specs/Conversations.antt), of a Fetch in terms of what it took (specs/Fetches.antt), of an Asker in terms of
// its core's history (specs/Exchanges.antt); a drive's two objects are those of nb_drivenodes. Begin with `Obj`, then `Tag`.
#![tactic(auto)]

mod ask;
mod asker;
mod carrying;
mod cores;
mod fetch;
mod lease_ask;
mod load;
mod lookup_ask;
mod obj;
mod ping_ask;
mod stage;
mod tag;
mod tftp;

pub use ask::{Ask, MAX_PATH};
pub use asker::Asker;
pub use carrying::{ABOVE, BELOW};
pub use cores::{Core, LEASE_SERVER, MAX_BODY, NAME_SERVER};
pub use fetch::Fetch;
pub use lease_ask::LeaseAsk;
pub use load::Load;
pub use lookup_ask::LookupAsk;
pub use obj::Obj;
pub use ping_ask::PingAsk;
pub use tag::{Tag, UnknownTag};
pub use tftp::Tftp;
