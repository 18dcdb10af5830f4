ghost use Rattle.std.specs.Prelude.{◌≡◌, ◌+◌, ◌%◌, ◌<◌, ◌≤◌, ◌^◌, ◌++◌, ◌==◌, ◌↔◌, ◌⊎◌, length, IfSome, IsSomeAnd, IsErr, OnOk, OnErr, MatchBool};
ghost use Rattle.nb_wire.specs.Checksum.{checksum, HasSum};
ghost use Rattle.std.specs.List.{list_all};
ghost use Rattle.nb_ipv4.specs.EchoText.{EchoParts, IsEchoKind, IsIntactEcho, echo_header};

use nb_wire::{Full, Out, sum16, sum16_after};

/// The kind of an echo request.
pub const ECHO_REQUEST: u8 = 8;

/// The kind of an echo reply.
pub const ECHO_REPLY: u8 = 0;

/// The most bytes of an echo, as a packet's total length bounds them.
const MAX_LEN: usize = 65535;

/// An echo request or reply (RFC 792).
#[derive(Clone, Copy, Debug, PartialEq, Eq)]
pub struct Echo<'a> {
    /// `ECHO_REQUEST` or `ECHO_REPLY`.
    pub kind: u8,
    /// The identifier, by which the host that asks knows its requests.
    pub ident: u16,
    /// The sequence number.
    pub seq: u16,
    /// The bytes after the sequence number, which a reply brings back.
    pub body: &'a [u8],
}

impl<'a> Echo<'a> {
    ghost use Rattle.nb_ipv4.specs.EchoText.{IsEcho, echo_parts, echo_of, sent_echo};

    /// The echo that the body of an IPv4 packet is, if it is one. Its code is 0.
    pub fn read(bytes: &'a [u8]) -> Option<Echo<'a>>
        ensures sound { IfSome result (λ e. IsEcho bytes.now (echo_parts e)) }
        ensures complete { (e : EchoParts) → IsEcho bytes.now e
            → IsSomeAnd result (λ f. echo_parts f ≡ e) }
    {
        let (fixed, body) = bytes.split_first_chunk::<8>()?;
        let [kind, code, _, _, i0, i1, s0, s1] = *fixed;
        if !is_echo(kind, code) || !is_intact(bytes) {
            return None;
        }
        Some(Echo {
            kind,
            ident: u16::from_be_bytes([i0, i1]),
            seq: u16::from_be_bytes([s0, s1]),
            body,
        })
    }

    /// Puts the echo's bytes with its checksum.
    pub fn write(&self, out: &mut Out<'_>) -> Result<(), Full>
        requires kind { IsEchoKind self.now.kind }
        requires short { length self.now.body.now ≤ 65527 }
        ensures full { IsErr result ↔ (out.old.left < 8 + length self.now.body.now) }
        ensures appended { OnOk result
            (out.new.written ≡ out.old.written ++ sent_echo (echo_parts self.now)) }
        ensures room { OnOk result (out.new.left + (8 + length self.now.body.now) ≡ out.old.left) }
        ensures refused { OnErr result (out.new ≡ out.old) }
        ensures readable { IsEcho (sent_echo (echo_parts self.now)) (echo_parts self.now) }
    {
        let head = Echo::head(self.kind, self.ident, self.seq, &[], self.body);
        out.put_both(&head, self.body)
    }

    /// The eight bytes before an echo's body, with the checksum, for who puts the body's two parts
    /// after them.
    #[inline(always)]
    pub fn head(kind: u8, ident: u16, seq: u16, first: &[u8], second: &[u8]) -> [u8; 8]
        requires kind { IsEchoKind kind }
        requires even { length first.now % 2 ≡ 0 }
        requires short { length first.now + length second.now ≤ 65527 }
        ensures value { result ++ (first.now ++ second.now)
            ≡ sent_echo (echo_of kind ident seq first.now second.now) }
        ensures readable { IsEcho (sent_echo (echo_of kind ident seq first.now second.now))
            (echo_of kind ident seq first.now second.now) }
    {
        let sum = sum16_after(header_sum(kind, ident, seq), first, second);
        header_bytes(kind, ident, seq, sum)
    }
}

// The sum of the words of a header whose checksum is 0.
#[inline(always)]
fn header_sum(kind: u8, ident: u16, seq: u16) -> u32
    requires { IsEchoKind kind }
    ensures { (e : EchoParts) → e.kind ≡ kind → e.ident ≡ ident → e.seq ≡ seq
        → HasSum (echo_header e 0) result }
{
    256 * u32::from(kind) + u32::from(ident) + u32::from(seq)
}

#[inline(always)]
fn header_bytes(kind: u8, ident: u16, seq: u16, checksum: u16) -> [u8; 8]
    ensures value { (e : EchoParts) → e.kind ≡ kind → e.ident ≡ ident → e.seq ≡ seq
        → result ≡ echo_header e checksum }
    ensures fits { (ident < 2 ^ 16) × (seq < 2 ^ 16) }
{
    let [i0, i1] = ident.to_be_bytes();
    let [s0, s1] = seq.to_be_bytes();
    let [c0, c1] = checksum.to_be_bytes();
    [kind, 0, c0, c1, i0, i1, s0, s1]
}

fn is_echo(kind: u8, code: u8) -> bool
    ensures { MatchBool result (IsEchoKind kind × (code ≡ 0)) (IsEchoKind kind → code ≡ 0 → ⊥) }
{
    match kind {
        ECHO_REQUEST | ECHO_REPLY => code == 0,
        _ => false,
    }
}

fn is_intact(bytes: &[u8]) -> bool
    ensures { MatchBool result ((length bytes.now < 2 ^ 16) × IsIntactEcho bytes.now)
        (length bytes.now < 2 ^ 16 → IsIntactEcho bytes.now → ⊥) }
{
    bytes.len() <= MAX_LEN && (sum16(&[], bytes) == 0 || is_all_zero(bytes))
}

fn is_all_zero(bytes: &[u8]) -> bool
    ensures { result ≡ list_all (λ byte. byte == 0) bytes.now }
{
    bytes.iter().all(|byte| *byte == 0)
}
