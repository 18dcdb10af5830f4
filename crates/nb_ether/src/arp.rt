ghost use Rattle.std.specs.Prelude.{◌≡◌, ◌+◌, ◌<◌, ◌++◌, ◌↔◌, Some, IfSome, IsTrue, IsErr, OnOk, OnErr};
ghost use Rattle.nb_ether.specs.ArpText.{IsOperation};
ghost use Rattle.nb_ether.specs.declared.arp.Arp.{Arp};

use nb_wire::{Full, Ip4, Mac, Out};

/// The operation of an ARP request (RFC 826).
pub const ARP_REQUEST: u16 = 1;

/// The operation of an ARP reply (RFC 826).
pub const ARP_REPLY: u16 = 2;

/// Hardware 1, protocol 0x0800, and their lengths of addresses, 6 and 4.
const ETHERNET_AND_IPV4: [u8; 6] = [0, 1, 8, 0, 6, 4];

/// An ARP message for Ethernet and IPv4 (RFC 826).
#[derive(Clone, Copy, Debug, PartialEq, Eq)]
pub struct Arp {
    /// `ARP_REQUEST` or `ARP_REPLY`.
    pub op: u16,
    /// The sender's hardware address.
    pub sha: Mac,
    /// The sender's IPv4 address.
    pub spa: Ip4,
    /// The target's hardware address, 0 in a request.
    pub tha: Mac,
    /// The target's IPv4 address.
    pub tpa: Ip4,
}

impl Arp {
    ghost use Rattle.nb_ether.specs.ArpText.{IsArp, HasForm, arp_text};

    /// The message in a frame's body, if it is one. Padding may follow it.
    pub fn read(bytes: &[u8]) -> Option<Arp>
        ensures sound { IfSome result (λ a. IsArp bytes.now a) }
        ensures complete { (a : Arp) → IsArp bytes.now a → result ≡ Some a }
    {
        let arp = Arp::of_any_operation(bytes)?;
        if is_operation(arp.op) {
            Some(arp)
        } else {
            None
        }
    }

    /// Puts the message's 28 bytes.
    pub fn write(&self, out: &mut Out<'_>) -> Result<(), Full>
        requires { IsOperation self.now.op }
        ensures full { IsErr result ↔ (out.old.left < 28) }
        ensures appended { OnOk result (out.new.written ≡ out.old.written ++ arp_text self.now) }
        ensures room { OnOk result (out.new.left + 28 ≡ out.old.left) }
        ensures refused { OnErr result (out.new ≡ out.old) }
        ensures readable { IsArp (arp_text self.now) self.now }
    {
        out.put(&self.bytes())
    }

    fn of_any_operation(bytes: &[u8]) -> Option<Arp>
        ensures sound { IfSome result (λ a. HasForm bytes.now a) }
        ensures complete { (a : Arp) → HasForm bytes.now a → result ≡ Some a }
    {
        let (kinds, rest) = bytes.split_first_chunk::<6>()?;
        if *kinds != ETHERNET_AND_IPV4 {
            return None;
        }
        let (op, rest) = rest.split_first_chunk::<2>()?;
        let (sha, rest) = rest.split_first_chunk::<6>()?;
        let (spa, rest) = rest.split_first_chunk::<4>()?;
        let (tha, rest) = rest.split_first_chunk::<6>()?;
        let (tpa, _padding) = rest.split_first_chunk::<4>()?;
        Some(Arp {
            op: u16::from_be_bytes(*op),
            sha: Mac(*sha),
            spa: Ip4(u32::from_be_bytes(*spa)),
            tha: Mac(*tha),
            tpa: Ip4(u32::from_be_bytes(*tpa)),
        })
    }

    /// The message's 28 bytes.
    pub fn bytes(&self) -> [u8; 28]
        ensures value { result ≡ arp_text self.now }
        ensures readable { HasForm (arp_text self.now) self.now }
    {
        let [o0, o1] = self.op.to_be_bytes();
        let Mac([s0, s1, s2, s3, s4, s5]) = self.sha;
        let [s6, s7, s8, s9] = self.spa.0.to_be_bytes();
        let Mac([t0, t1, t2, t3, t4, t5]) = self.tha;
        let [t6, t7, t8, t9] = self.tpa.0.to_be_bytes();
        [
            0, 1, 8, 0, 6, 4, o0, o1, s0, s1, s2, s3, s4, s5, s6, s7, s8, s9, t0, t1, t2, t3, t4,
            t5, t6, t7, t8, t9,
        ]
    }
}

fn is_operation(op: u16) -> bool
    ensures { IsTrue result ↔ IsOperation op }
{
    op == ARP_REQUEST || op == ARP_REPLY
}
