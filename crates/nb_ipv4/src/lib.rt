// IPv4 packets (RFC 791), UDP datagrams (RFC 768) and ICMP echoes (RFC 792), read and written, with
// their checksums (RFC 1071). Fragments are not read, options are passed over, and packets are written
// without either. Begin with `Packet`.
#![tactic(auto)]

mod echo;
mod packet;
mod udp;

pub use echo::{ECHO_REPLY, ECHO_REQUEST, Echo};
pub use packet::{PROTO_ICMP, PROTO_TCP, PROTO_UDP, Packet};
pub use udp::Udp;
