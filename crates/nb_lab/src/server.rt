//! The servers.

ghost use Rattle.std.specs.Prelude.{◌≡◌, ◌==◌, None, Some, bit_and, option_and_then};
ghost use Rattle.nb_tcpseg.specs.SegmentText.{segment_parts};
ghost use Rattle.nb_tftpmsg.specs.Views.{message};
ghost use Rattle.std.specs.Option.{option_map};
ghost use Rattle.nb_lab.specs.declared.answer.Answer.TheVariants.{Stream};
ghost use Rattle.nb_lab.specs.declared.connection.StreamPart.TheVariants.{Opening};
ghost use Rattle.nb_lab.specs.Connections.{opened};
ghost use Rattle.nb_lab.specs.Requests.{image_in};
ghost use Rattle.nb_lab.specs.Bringing.{packet as packet_from, segment as segment_from, brought};
ghost use Rattle.nb_lab.specs.Servers.{fresh, file_step, requested, IsAcknowledged, IsGivenUp, IsFileStep, IsStreamed, Answers, TakesFrame, server_later, file_again, stream_again, connection_later, transfer_later};

use crate::answer::{Answer, HTTP_PORT, TRANSFER_PORT};
use crate::connection::{Connection, StreamPart};
use crate::hosts::Peer;
use crate::received::{Received, read_frame};
use crate::request::image_in;
use crate::transfer::{Acknowledged, FilePart, Transfer};
use nb_tcpseg::{ACK, RST, SYN, Segment};
use nb_tftpmsg::Tftp;

/// The port of requests to the TFTP server (RFC 1350, section 4).
const REQUEST_PORT: u16 = 69;

/// The servers of so many images: one transfer and one connection at a time, the last ones that were asked for.
#[derive(Drop)]
pub struct Server {
    pub images: u8,
    pub transfer: Option<Transfer>,
    pub connection: Option<Connection>,
}

/// What is sent again after a TICK.
#[derive(Clone, Copy, Debug)]
pub struct Repeats {
    pub file: Option<Answer>,
    pub stream: Option<Answer>,
}

impl Server {
    /// Servers that nobody has asked anything.
    pub fn new(images: u8) -> Server
        ensures { result ≡ fresh images }
    {
        Server {
            images,
            transfer: None,
            connection: None,
        }
    }

    /// Takes a frame of the client, and returns what is sent then.
    pub fn take(&mut self, frame: &[u8]) -> Option<Answer>
        ensures takes { TakesFrame self.old frame.now result self.new }
        ensures images { self.new.images ≡ self.old.images }
    {
        match read_frame(frame) {
            None => None,
            Some(received) => self.answer(received),
        }
    }

    fn answer(&mut self, received: Received<'_>) -> Option<Answer>
        ensures answers { Answers self.old (brought received.entry) result self.new }
        ensures images { self.new.images ≡ self.old.images }
    {
        match received {
            Received::Question { mac, ip } => Some(Answer::Interface { mac, ip }),
            Received::Packet { from, port, packet } => self.take_packet(from, port, packet),
            Received::Segment { from, segment } => self.take_segment(from, &segment),
        }
    }

    /// A TICK passes.
    pub fn tick(&mut self) -> Repeats
        ensures file { result.file ≡ option_and_then file_again self.old.transfer }
        ensures stream { result.stream ≡ option_and_then stream_again self.old.connection }
        ensures after { self.new ≡ server_later self.old }
    {
        Repeats {
            file: self.file_again(),
            stream: self.stream_again(),
        }
    }

    fn take_packet(&mut self, from: Peer, port: u16, packet: Tftp<'_>) -> Option<Answer>
        ensures answers { Answers self.old (packet_from from port (message packet.entry)) result self.new }
        ensures images { self.new.images ≡ self.old.images }
    {
        match self.file_step(from, port, packet) {
            Some(part) => Some(Answer::File { to: from, part }),
            None => None,
        }
    }

    /// What is sent for a packet to a port.
    fn file_step(&mut self, from: Peer, port: u16, packet: Tftp<'_>) -> Option<FilePart>
        ensures step { IsFileStep self.old from port (message packet.entry) (file_step result self.new.transfer) }
        ensures rest { self.new ≡ record self.old { transfer = self.new.transfer } }
    {
        match packet {
            Tftp::Rrq { path, options } => {
                if port != REQUEST_PORT {
                    return None;
                }
                Some(self.begin(from, path, options))
            }
            Tftp::Ack(n) => {
                if port != TRANSFER_PORT {
                    return None;
                }
                self.acknowledge(from, n)
            }
            Tftp::Error { .. } => {
                if port == TRANSFER_PORT {
                    self.end_transfer(from);
                }
                None
            }
            Tftp::Block { .. } | Tftp::Oack { .. } => None,
        }
    }

    /// Begins a transfer in place of the last one.
    fn begin(&mut self, from: Peer, path: &[u8], options: bool) -> FilePart
        ensures begins { file_step (Some result) self.new.transfer
            ≡ requested self.old.transfer from options (image_in self.old.images path.now) }
        ensures rest { self.new ≡ record self.old { transfer = self.new.transfer } }
    {
        match image_in(path, self.images) {
            Some(image) => {
                let transfer = Transfer::start(from, image, options);
                let part = transfer.part();
                self.transfer = Some(transfer);
                part
            }
            None => FilePart::NotFound,
        }
    }

    /// Takes an acknowledgement, which counts from the transfer's peer.
    fn acknowledge(&mut self, from: Peer, n: u16) -> Option<FilePart>
        ensures takes { IsAcknowledged self.old.transfer from n (file_step result self.new.transfer) }
        ensures rest { self.new ≡ record self.old { transfer = self.new.transfer } }
    {
        let mut transfer = self.transfer?;
        if transfer.peer != from {
            return None;
        }
        let acknowledged = transfer.acknowledge(n);
        self.transfer = Some(transfer);
        match acknowledged {
            Acknowledged::Next(part) => Some(part),
            Acknowledged::Other => None,
            Acknowledged::Whole => {
                self.transfer = None;
                None
            }
        }
    }

    /// The peer gives up.
    fn end_transfer(&mut self, from: Peer)
        ensures ends { IsGivenUp self.old.transfer from (file_step None self.new.transfer) }
        ensures rest { self.new ≡ record self.old { transfer = self.new.transfer } }
    {
        if let Some(transfer) = self.transfer
            && transfer.peer == from
        {
            self.transfer = None;
        }
    }

    fn take_segment(&mut self, from: Peer, segment: &Segment<'_>) -> Option<Answer>
        ensures images { self.new.images ≡ self.old.images }
        ensures answers { Answers self.old (segment_from from (segment_parts segment.now)) result self.new }
    {
        if segment.dst_port != HTTP_PORT {
            return None;
        }
        if begins(segment.flags) {
            return Some(self.open(from, segment));
        }
        self.go_on(from, segment)
    }

    /// Opens a connection in place of the last one.
    fn open(&mut self, from: Peer, segment: &Segment<'_>) -> Answer
        ensures sent { result ≡ Stream from (opened from (segment_parts segment.now)).expected Opening }
        ensures after { self.new ≡ record self.old { connection = Some (opened from (segment_parts segment.now)) } }
    {
        let connection = Connection::open(from, segment);
        let answer = Answer::Stream {
            to: from,
            expected: connection.expected,
            part: StreamPart::Opening,
        };
        self.connection = Some(connection);
        answer
    }

    /// Takes a segment of the connection, which counts from its peer.
    fn go_on(&mut self, from: Peer, segment: &Segment<'_>) -> Option<Answer>
        ensures streams { IsStreamed self.old.connection from (segment_parts segment.now) self.old.images result self.new.connection }
        ensures rest { self.new ≡ record self.old { connection = self.new.connection } }
    {
        let images = self.images;
        match self.connection.as_mut() {
            None => None,
            Some(connection) => stream(connection, from, segment, images),
        }
    }

    fn file_again(&mut self) -> Option<Answer>
        ensures sent { result ≡ option_and_then file_again self.old.transfer }
        ensures after { self.new ≡ record self.old { transfer = option_map transfer_later self.old.transfer } }
    {
        let transfer = self.transfer.as_mut()?;
        if !transfer.silence.tick() {
            return None;
        }
        Some(Answer::File {
            to: transfer.peer,
            part: transfer.part(),
        })
    }

    fn stream_again(&mut self) -> Option<Answer>
        ensures sent { result ≡ option_and_then stream_again self.old.connection }
        ensures after { self.new ≡ record self.old { connection = option_map connection_later self.old.connection } }
    {
        let connection = self.connection.as_mut()?;
        if !connection.silence.tick() {
            return None;
        }
        Some(Answer::Stream {
            to: connection.peer,
            expected: connection.expected,
            part: connection.part()?,
        })
    }
}

/// Whether a segment with these flags begins a connection.
fn begins(flags: u8) -> bool
    ensures { result ≡ (bit_and flags 22 == 2) }
{
    flags & (SYN + ACK + RST) == SYN
}

/// Takes a segment of a connection, which counts from its peer, and returns what is sent then.
fn stream(
    connection: &mut Connection,
    from: Peer,
    segment: &Segment<'_>,
    images: u8,
) -> Option<Answer>
    ensures { IsStreamed (Some connection.old) from (segment_parts segment.now) images result (Some connection.new) }
{
    if connection.peer != from {
        return None;
    }
    let part = connection.take(segment, images)?;
    Some(Answer::Stream {
        to: from,
        expected: connection.expected,
        part,
    })
}
