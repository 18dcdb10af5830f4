//! A packet.

ghost use Rattle.std.specs.Prelude.{◌≡◌, ◌+◌, ◌^◌, ◌<◌, ◌≤◌, Some, ◌++◌, ◌∷◌, [], ◌↔◌, length, IsErr, IfSome, IsSomeAnd, OnOk, OnErr};
ghost use Rattle.std.specs.Option.{option_map, option_map_or};
ghost use Rattle.arrayvec.specs.ArrayVec.{array_vec_len};
ghost use Rattle.nb_tftpmsg.specs.Packets.{Message, IsTftpPacket, IsWritable, packet_text, request_tail, oack};
ghost use Rattle.nb_tftpmsg.specs.Texts.{decimal_text};
ghost use Rattle.nb_tftpmsg.specs.Reading.{packet_read, body_reading, request_reading, block_reading, ack_reading, error_reading, oack_reading};
ghost use Rattle.nb_tftpmsg.specs.Views.{message};

use crate::decimal::decimal_text;
use crate::options::Options;
use crate::text::{text_at, text_before};
use arrayvec::ArrayVec;
use nb_wire::{Full, Out};

const RRQ: u8 = 1;

const DATA: u8 = 3;

const ACK: u8 = 4;

const ERROR: u8 = 5;

const OACK: u8 = 6;

/// What follows the path in a request without options.
const PLAIN_TAIL: &[u8] = b"\0octet\0";
/// What follows the path in a request with options: blksize 1432 (RFC 2348) and tsize 0 (RFC 2349).
const OPTIONS_TAIL: &[u8] = b"\0octet\0blksize\x001432\0tsize\x000\0";

/// A packet of TFTP.
#[derive(Clone, Copy, Debug, PartialEq, Eq, Drop)]
pub enum Tftp<'a> {
    /// A read request (RFC 1350, section 5). The path holds no zero byte.
    Rrq {
        path: &'a [u8],
        /// blksize and tsize are asked for.
        options: bool,
    },
    /// A block of the file, counted from 1.
    Block {
        n: u16,
        bytes: &'a [u8],
    },
    /// The block of this number was taken; 0 answers an OACK.
    Ack(u16),
    /// The other end gives up. The text holds no zero byte.
    Error {
        code: u16,
        text: &'a [u8],
    },
    /// The options that the server grants (RFC 2347).
    Oack {
        blksize: Option<u16>,
        tsize: Option<u32>,
    },
}

impl<'a> Tftp<'a> {
    /// The packet that the bytes spell, or None where they are no packet.
    pub fn read(bytes: &'a [u8]) -> Option<Tftp<'a>>
        ensures sound { IfSome result (λ packet. IsTftpPacket bytes.now (message packet)) }
        ensures complete { (m : Message) → IsTftpPacket bytes.now m → option_map message result ≡ Some m }
        // The same as one equation, by the function on lists that is proved to be the grammar.
        ensures exact { option_map message result ≡ packet_read bytes.now }
    {
        parsed(bytes)
    }

    /// Puts the packet. Full where the room is too small, and then nothing is put.
    pub fn write(&self, out: &mut Out<'_>) -> Result<(), Full>
        requires { IsWritable (message self.now) }
        ensures full { IsErr result ↔ (out.old.left < length (packet_text (message self.now))) }
        ensures appended { OnOk result (out.new.written ≡ out.old.written ++ packet_text (message self.now)) }
        ensures room { OnOk result (out.new.left + length (packet_text (message self.now)) ≡ out.old.left) }
        ensures refused { OnErr result (out.new ≡ out.old) }
        // What was put is a spelling of the packet, so `read` gives it back.
        ensures read_back { IsTftpPacket (packet_text (message self.now)) (message self.now) }
    {
        match *self {
            Tftp::Rrq { path, options } => put_three(out, &[0, RRQ], path, request_tail(options)),
            Tftp::Block { n, bytes } => {
                let [high, low] = n.to_be_bytes();
                out.put_both(&[0, DATA, high, low], bytes)
            }
            Tftp::Ack(n) => {
                let [high, low] = n.to_be_bytes();
                out.put(&[0, ACK, high, low])
            }
            Tftp::Error { code, text } => {
                let [high, low] = code.to_be_bytes();
                put_three(out, &[0, ERROR, high, low], text, &[0])
            }
            Tftp::Oack { blksize, tsize } => out.put(oack_text(blksize, tsize).as_slice()),
        }
    }
}

/// What follows the path in a request.
fn request_tail(options: bool) -> &'static [u8]
    ensures { result.now ≡ 0 ∷ request_tail options }
{
    if options { OPTIONS_TAIL } else { PLAIN_TAIL }
}

fn parsed(packet: &[u8]) -> Option<Tftp<'_>>
    ensures { option_map message result ≡ packet_read packet.now }
{
    match packet {
        [0, code, body @ ..] => of_kind(*code, body),
        _ => None,
    }
}

fn of_kind(code: u8, body: &[u8]) -> Option<Tftp<'_>>
    ensures { option_map message result ≡ body_reading code body.now }
{
    match code {
        RRQ => request(body),
        DATA => block(body),
        ACK => ack(body),
        ERROR => error(body),
        OACK => oack(body),
        _ => None,
    }
}

fn request(body: &[u8]) -> Option<Tftp<'_>>
    ensures { option_map message result ≡ request_reading body.now }
{
    let (path, tail) = text_at(body)?;
    if tail == &PLAIN_TAIL[1..] {
        return Some(Tftp::Rrq {
            path,
            options: false,
        });
    }
    if tail == &OPTIONS_TAIL[1..] {
        return Some(Tftp::Rrq {
            path,
            options: true,
        });
    }
    None
}

fn block(body: &[u8]) -> Option<Tftp<'_>>
    ensures { option_map message result ≡ block_reading body.now }
{
    match body {
        [high, low, bytes @ ..] => Some(Tftp::Block {
            n: u16::from_be_bytes([*high, *low]),
            bytes,
        }),
        _ => None,
    }
}

fn ack(body: &[u8]) -> Option<Tftp<'_>>
    ensures { option_map message result ≡ ack_reading body.now }
{
    match body {
        [high, low] => Some(Tftp::Ack(u16::from_be_bytes([*high, *low]))),
        _ => None,
    }
}

fn error(body: &[u8]) -> Option<Tftp<'_>>
    ensures { option_map message result ≡ error_reading body.now }
{
    match body {
        [high, low, rest @ ..] => Some(Tftp::Error {
            code: u16::from_be_bytes([*high, *low]),
            text: text_before(rest),
        }),
        _ => None,
    }
}

fn oack(body: &[u8]) -> Option<Tftp<'_>>
    ensures { option_map message result ≡ oack_reading body.now }
{
    let found = Options::read(body)?;
    Some(Tftp::Oack {
        blksize: found.blksize,
        tsize: found.tsize,
    })
}

/// An OACK's text: two names with their zero bytes, and two numbers of at most ten digits with theirs.
fn oack_text(blksize: Option<u16>, tsize: Option<u32>) -> ArrayVec<u8, 38>
    ensures text { result.items ≡ packet_text (oack blksize tsize) }
    ensures read_back { IsTftpPacket (packet_text (oack blksize tsize)) (oack blksize tsize) }
{
    let mut text = ArrayVec::new();
    extend(&mut text, &[0, OACK]);
    push_option(&mut text, b"blksize\0", widened(blksize));
    push_option(&mut text, b"tsize\0", tsize);
    text
}

fn widened(number: Option<u16>) -> Option<u32>
    ensures same { result ≡ number }
    ensures fits { IfSome number (λ n. n < 2 ^ 16) }
{
    match number {
        Some(number) => Some(u32::from(number)),
        None => None,
    }
}

/// Puts an option, where it has a value.
fn push_option(text: &mut ArrayVec<u8, 38>, name: &[u8], value: Option<u32>)
    requires { array_vec_len text.old + length name.now + 10 < 38 }
    ensures items { text.new.items ≡ text.old.items ++ option_map_or (λ n. name.now ++ (decimal_text n ++ 0 ∷ [])) value [] }
    ensures fits { array_vec_len text.new ≤ array_vec_len text.old + length name.now + 11 }
    ensures value_fits { IfSome value (λ n. n < 2 ^ 32) }
{
    if let Some(number) = value {
        let digits = decimal_text(number);
        extend(text, name);
        extend(text, digits.as_slice());
        extend(text, &[0]);
    }
}

fn extend(text: &mut ArrayVec<u8, 38>, bytes: &[u8])
    requires { array_vec_len text.old + length bytes.now ≤ 38 }
    ensures { text.new.items ≡ text.old.items ++ bytes.now }
{
    let _ = text.try_extend_from_slice(bytes);
}

/// Puts three parts one after the other, or none of them.
fn put_three(out: &mut Out<'_>, first: &[u8], second: &[u8], third: &[u8]) -> Result<(), Full>
    requires { length first.now + length third.now < 64 }
    ensures full { IsErr result ↔ (out.old.left < length (first.now ++ (second.now ++ third.now))) }
    ensures appended { OnOk result (out.new.written ≡ out.old.written ++ (first.now ++ (second.now ++ third.now))) }
    ensures room { OnOk result (out.new.left + length (first.now ++ (second.now ++ third.now)) ≡ out.old.left) }
    ensures refused { OnErr result (out.new ≡ out.old) }
{
    if out.room() < second.len() {
        return Err(Full);
    }
    if out.room() - second.len() < first.len() + third.len() {
        return Err(Full);
    }
    out.put(first)?;
    out.put_both(second, third)
}
