// Ethernet frames (RFC 894) and the ARP messages in them (RFC 826), read and written. A frame is
// fourteen bytes and its body; the interface has cut its checksum off. Begin with `EtherFrame`.
#![tactic(auto)]

mod arp;
mod frame;

pub use arp::{ARP_REPLY, ARP_REQUEST, Arp};
pub use frame::{EtherFrame, KIND_ARP, KIND_IPV4};
