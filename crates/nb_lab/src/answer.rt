//! What the servers send.

ghost use Rattle.std.specs.Prelude.{◌≡◌, ◌+◌, ◌≤◌, ◌++◌, length, take};
ghost use Rattle.nb_defs.specs.Records.{IsFrameRecord};
ghost use Rattle.nb_tftpmsg.specs.Packets.{packet_text};
ghost use Rattle.nb_lab.specs.declared.answer.Answer.TheVariants.{Interface, File, Stream};
ghost use Rattle.nb_lab.specs.declared.transfer.FilePart.TheVariants as part;
ghost use Rattle.nb_lab.specs.Images.{image_block};
ghost use Rattle.nb_lab.specs.Files.{size_of_block, file_message};
ghost use Rattle.nb_lab.specs.Streams.{part_sequence_number, part_flags, part_mss, part_body};
ghost use Rattle.nb_lab.specs.Answers.{answer_frame, packet_to};

use crate::connection::{FIRST_BYTE, StreamPart};
use crate::hosts::{Peer, SERVER, SERVER_MAC};
use crate::image::Image;
use crate::page::MOST_BYTES;
use crate::piece::Piece;
use crate::transfer::{BlockSize, FilePart};
use nb_ether::{ARP_REPLY, Arp, EtherFrame, KIND_ARP, KIND_IPV4};
use nb_ipv4::{PROTO_TCP, PROTO_UDP, Packet, Udp};
use nb_tcpseg::{ACK, FIN, PSH, SYN, Segment};
use nb_tftpmsg::Tftp;
use nb_wire::{Ip4, Mac, Out};

/// The port of the HTTP server.
pub const HTTP_PORT: u16 = 80;

/// The port of every transfer of the TFTP server.
pub const TRANSFER_PORT: u16 = 50_000;

/// The most bytes of a segment that the server takes: an Ethernet payload of 1,500 less both headers.
const OWN_MSS: u16 = 1460;

/// How many bytes a peer may send before they are acknowledged.
const WINDOW: u16 = 65_535;

/// The error of TFTP for a file that isn't there (RFC 1350, appendix).
const FILE_NOT_FOUND: u16 = 1;

/// The most bytes of a packet's body.
const MOST_BODY: usize = 1480;

/// What the servers send: a frame.
#[derive(Clone, Copy, Debug, PartialEq, Eq)]
pub enum Answer {
    /// The servers' interface, to a host that asked for it (RFC 826).
    Interface {
        mac: Mac,
        ip: Ip4,
    },
    /// A datagram of the TFTP server.
    File {
        to: Peer,
        part: FilePart,
    },
    /// A segment of the HTTP server, and the number that the peer is expected to send next.
    Stream {
        to: Peer,
        expected: u32,
        part: StreamPart,
    },
}

impl Answer {
    /// Puts the frame.
    pub fn put(&self, out: &mut Out<'_>)
        requires { 1522 ≤ out.old.left }
        ensures put { out.new.written ≡ out.old.written ++ answer_frame self.now }
        ensures legal { IsFrameRecord (answer_frame self.now) }
    {
        match *self {
            Answer::Interface { mac, ip } => put_interface(mac, ip, out),
            Answer::File { to, part } => put_datagram(to, part, out),
            Answer::Stream { to, expected, part } => put_segment(to, expected, part, out),
        }
    }
}

fn put_interface(mac: Mac, ip: Ip4, out: &mut Out<'_>)
    requires { 1522 ≤ out.old.left }
    ensures put { out.new.written ≡ out.old.written ++ answer_frame (Interface mac ip) }
    ensures legal { IsFrameRecord (answer_frame (Interface mac ip)) }
{
    let arp = Arp {
        op: ARP_REPLY,
        sha: SERVER_MAC,
        spa: SERVER,
        tha: mac,
        tpa: ip,
    };
    out.push(&EtherFrame::head(mac, SERVER_MAC, KIND_ARP));
    out.push(&arp.bytes());
}

fn put_datagram(to: Peer, part: FilePart, out: &mut Out<'_>)
    requires { 1522 ≤ out.old.left }
    ensures put { out.new.written ≡ out.old.written ++ answer_frame (File to part) }
    ensures legal { IsFrameRecord (answer_frame (File to part)) }
{
    let mut room = [0; MOST_BODY];
    let mut packet = Out::new(&mut room);
    put_part(part, &mut packet);
    let body = packet.written();
    let head = Udp::head(SERVER, to.ip, TRANSFER_PORT, to.port, &[], body);
    put_packet(to, PROTO_UDP, &head, body, out);
}

/// Puts a packet of TFTP.
fn put_part(part: FilePart, out: &mut Out<'_>)
    requires { 1004 ≤ out.old.left }
    ensures put { out.new.written ≡ out.old.written ++ packet_text (file_message part) }
    ensures short { length (packet_text (file_message part)) ≤ 1004 }
{
    match part {
        FilePart::Options(image) => put_options(image, out),
        FilePart::Block { image, n, size } => put_block(image, n, size, out),
        FilePart::NotFound => put_error(out),
    }
}

fn put_options(image: Image, out: &mut Out<'_>)
    requires { 1004 ≤ out.old.left }
    ensures put { out.new.written ≡ out.old.written ++ packet_text (file_message (part.Options image)) }
    ensures short { length (packet_text (file_message (part.Options image))) ≤ 1004 }
{
    let options = Tftp::Oack {
        blksize: Some(BlockSize::Granted.bytes()),
        tsize: Some(image.len()),
    };
    options.write(out).unwrap();
}

fn put_error(out: &mut Out<'_>)
    requires { 1004 ≤ out.old.left }
    ensures put { out.new.written ≡ out.old.written ++ packet_text (file_message part.NotFound) }
    ensures short { length (packet_text (file_message part.NotFound)) ≤ 1004 }
{
    let error = Tftp::Error {
        code: FILE_NOT_FOUND,
        text: b"File not found",
    };
    error.write(out).unwrap();
}

fn put_block(image: Image, n: u16, size: BlockSize, out: &mut Out<'_>)
    requires { 1004 ≤ out.old.left }
    ensures put { out.new.written ≡ out.old.written ++ packet_text (file_message (part.Block image n size)) }
    ensures short { length (packet_text (file_message (part.Block image n size))) ≤ 1004 }
{
    let mut room = [0; MOST_BYTES as usize];
    let len = fill_block(image, n, size, &mut room);
    let block = Tftp::Block {
        n,
        bytes: &room[..len],
    };
    block.write(out).unwrap();
}

/// Fills the first bytes of a room with a block, and returns how many it has.
fn fill_block(image: Image, n: u16, size: BlockSize, room: &mut [u8; 1000]) -> usize
    ensures within { result ≤ size_of_block size }
    ensures block { take result room.new ≡ image_block image.0 (size_of_block size) n }
{
    let size = u32::from(size.bytes());
    let from = (u32::from(n.saturating_sub(1)) * size).min(image.len());
    let len = size.min(image.len() - from) as usize;
    image.fill(from, &mut room[..len]);
    len
}

fn put_segment(to: Peer, expected: u32, part: StreamPart, out: &mut Out<'_>)
    requires { 1522 ≤ out.old.left }
    ensures put { out.new.written ≡ out.old.written ++ answer_frame (Stream to expected part) }
    ensures legal { IsFrameRecord (answer_frame (Stream to expected part)) }
{
    let mut room = [0; MOST_BYTES as usize];
    let mut body = Out::new(&mut room);
    put_bytes(part, &mut body);
    let segment = Segment {
        src_port: HTTP_PORT,
        dst_port: to.port,
        seq: number(part),
        ack: expected,
        flags: flags(part),
        window: WINDOW,
        mss: mss(part),
        body: body.written(),
    };
    let mut room = [0; MOST_BODY];
    let mut bytes = Out::new(&mut room);
    segment.write(SERVER, to.ip, &mut bytes).unwrap();
    put_packet(to, PROTO_TCP, bytes.written(), &[], out);
}

/// Puts the bytes of the response in a segment.
fn put_bytes(part: StreamPart, out: &mut Out<'_>)
    requires { 1000 ≤ out.old.left }
    ensures put { out.new.written ≡ out.old.written ++ part_body part }
    ensures short { length (part_body part) ≤ 1000 }
{
    if let StreamPart::Bytes(piece) = part {
        piece.page.put(piece.from, piece.len(), out);
    }
}

/// A segment's sequence number.
fn number(part: StreamPart) -> u32
    ensures { result ≡ part_sequence_number part }
{
    match part {
        StreamPart::Opening => FIRST_BYTE.wrapping_sub(1),
        StreamPart::Bytes(piece) => FIRST_BYTE.wrapping_add(piece.from),
        StreamPart::Acknowledgement { place } => FIRST_BYTE.wrapping_add(place),
    }
}

fn flags(part: StreamPart) -> u8
    ensures { result ≡ part_flags part }
{
    match part {
        StreamPart::Opening => SYN + ACK,
        StreamPart::Bytes(piece) if piece.is_last() => FIN + PSH + ACK,
        StreamPart::Bytes(_) => PSH + ACK,
        StreamPart::Acknowledgement { .. } => ACK,
    }
}

/// The maximum segment size stands in the answer to a SYN alone. No window is scaled.
fn mss(part: StreamPart) -> Option<u16>
    ensures { result ≡ part_mss part }
{
    match part {
        StreamPart::Opening => Some(OWN_MSS),
        StreamPart::Bytes(_) | StreamPart::Acknowledgement { .. } => None,
    }
}

/// Puts a packet in its frame. Its body is `head` and then `body`.
fn put_packet(to: Peer, proto: u8, head: &[u8], body: &[u8], out: &mut Out<'_>)
    requires short { length head.now + length body.now ≤ 1480 }
    requires room { 1522 ≤ out.old.left }
    ensures put { out.new.written ≡ out.old.written ++ packet_to to proto (head.now ++ body.now) }
    ensures legal { IsFrameRecord (packet_to to proto (head.now ++ body.now)) }
{
    let len = (head.len() + body.len()) as u16;
    out.push(&EtherFrame::head(to.mac, SERVER_MAC, KIND_IPV4));
    out.push(&Packet::head(SERVER, to.ip, proto, len));
    out.push(head);
    out.push(body);
}
