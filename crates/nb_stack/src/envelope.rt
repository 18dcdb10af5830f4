//! What of a message isn't its body.

ghost use Rattle.std.specs.Prelude.{◌≡◌, ◌==◌, if◌then◌else◌};

use nb_ipv4::PROTO_TCP;
use nb_terms::SendTo;
use nb_wire::Ip4;

/// A message without its body: its protocol, whom it is for, and the ports at both ends.
#[derive(Clone, Copy)]
pub struct Envelope {
    /// The protocol (RFC 791): 17 for UDP, 1 for an echo request, 6 for a TCP segment.
    pub proto: u8,
    /// The host that it is for.
    pub to: Ip4,
    /// The port that it is for; of an echo the sequence number.
    pub to_port: u16,
    /// The port that sends it; of an echo the identifier.
    pub own_port: u16,
}

impl Envelope {
    ghost use Rattle.std.specs.Prelude.{◌≡◌};
    ghost use Rattle.nb_stack.specs.Envelope.{envelope_of};

    /// What of a message isn't its body.
    #[inline(always)]
    pub fn of(message: &SendTo) -> Envelope
        ensures { result ≡ envelope_of message.now }
    {
        Envelope {
            proto: message.proto,
            to: message.to,
            to_port: message.to_port,
            own_port: message.own_port,
        }
    }
}

// How much of a message's body has to lie in its first part: a segment's header without options (RFC 9293).
#[inline(always)]
pub(crate) fn head_len(proto: u8) -> usize
    ensures { result ≡ if proto == 6 then 20 else 0 }
{
    if proto == PROTO_TCP { 20 } else { 0 }
}
