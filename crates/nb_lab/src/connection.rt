//! A connection to the HTTP server (RFC 9293, section 3.10.7).

ghost use Rattle.std.specs.Prelude.{◌≡◌, ◌==◌, ◌++◌, None, if◌then◌else◌};
ghost use Rattle.nb_tcpseg.specs.SegmentText.{segment_parts};
ghost use Rattle.nb_lab.specs.Connections.{carries_flag, waiting_part, opened, piece_from, sends, advances_piece, advanced, after_ack, next_part};
ghost use Rattle.nb_lab.specs.Receptions.{is_closed, place_after_sent, brings_bytes, number_after, with_request_bytes, IsPageOf, IsRequestGathered, IsReceived, IsSegmentTaken};
ghost use Rattle.nb_lab.specs.declared.connection.StreamPart.TheVariants.{Bytes};
ghost use Rattle.nb_lab.specs.declared.connection.State.TheVariants.{Closed};

use crate::hosts::Peer;
use crate::page::Page;
use crate::piece::Piece;
use crate::request::page_for;
use crate::silence::Silence;
use arrayvec::ArrayVec;
use nb_tcpseg::{ACK, FIN, RST, Segment};

/// The sequence number of the first byte of every response, one after the SYN's. The numbers pass 2^32 within it.
pub const FIRST_BYTE: u32 = 0xffff_fe01;

/// The most bytes of a segment to a peer whose SYN names none (RFC 9293, section 3.7.1).
const LEAST_MSS: u16 = 536;

/// What a server sends on a connection.
#[derive(Clone, Copy, Debug, PartialEq, Eq)]
pub enum StreamPart {
    /// The answer to a SYN.
    Opening,
    /// Bytes of a response; with the last ones the server has no more data.
    Bytes(Piece),
    /// An acknowledgement alone, at the place after what was sent.
    Acknowledgement { place: u32 },
}

/// How far a connection is.
#[derive(Clone, Copy, Debug, PartialEq, Eq)]
pub enum State {
    /// A SYN was answered (SYN-RECEIVED).
    Opened,
    /// The request comes (ESTABLISHED).
    Reading,
    /// This piece of the response isn't acknowledged (ESTABLISHED; FIN-WAIT-1 with the last piece).
    Sending(Piece),
    /// All of the response is acknowledged (FIN-WAIT-2); `place` is the one after its FIN.
    Sent { place: u32 },
    /// Nothing is received any more (CLOSED).
    Closed,
}

/// A connection that was opened.
#[derive(Debug, Drop)]
pub struct Connection {
    pub peer: Peer,
    /// The sequence number that the peer sends next.
    pub expected: u32,
    /// The most bytes of a segment to the peer.
    pub most: u16,
    pub request: ArrayVec<u8, 1024>,
    pub state: State,
    pub silence: Silence,
}

impl Connection {
    /// Answers a SYN.
    pub fn open(peer: Peer, syn: &Segment<'_>) -> Connection
        ensures { result ≡ opened peer (segment_parts syn.now) }
    {
        Connection {
            peer,
            expected: syn.seq.wrapping_add(1),
            most: syn.mss.unwrap_or(LEAST_MSS).max(1),
            request: ArrayVec::new(),
            state: State::Opened,
            silence: Silence::new(),
        }
    }

    /// Takes a segment of the peer that begins no connection, and returns what is sent then.
    pub fn take(&mut self, segment: &Segment<'_>, images: u8) -> Option<StreamPart>
        ensures { IsSegmentTaken self.old (segment_parts segment.now) images result self.new }
    {
        if has(segment, RST) {
            self.reset(segment.seq);
            return None;
        }
        if !has(segment, ACK) || self.is_closed() {
            return None;
        }
        let next = self.acknowledge(segment);
        if !brings_more(segment) {
            return next;
        }
        let place = self.place();
        let first = self.receive(segment, images);
        Some(
            first
                .or(next)
                .unwrap_or(StreamPart::Acknowledgement { place }),
        )
    }

    fn is_closed(&self) -> bool
        ensures { result ≡ is_closed self.now.state }
    {
        matches!(self.state, State::Closed)
    }

    /// What waits for its acknowledgement.
    pub fn part(&self) -> Option<StreamPart>
        ensures { result ≡ waiting_part self.now.state }
    {
        match self.state {
            State::Opened => Some(StreamPart::Opening),
            State::Sending(piece) => Some(StreamPart::Bytes(piece)),
            State::Reading | State::Sent { .. } | State::Closed => None,
        }
    }

    /// A reset counts at the number that is expected.
    fn reset(&mut self, number: u32)
        ensures { self.new ≡ (if number == self.old.expected then record self.old { state = Closed } else self.old) }
    {
        if number == self.expected {
            self.state = State::Closed;
        }
    }

    /// Takes an acknowledgement, and returns what is sent next where it advances.
    fn acknowledge(&mut self, segment: &Segment<'_>) -> Option<StreamPart>
        ensures after { self.new ≡ after_ack self.old (segment_parts segment.now) }
        ensures sent { result ≡ next_part self.old (segment_parts segment.now) }
    {
        let place = segment.ack.wrapping_sub(FIRST_BYTE);
        match self.state {
            State::Opened if place == 0 => self.state = State::Reading,
            State::Sending(piece) => return self.advance(piece, place, segment.window),
            _ => {}
        }
        None
    }

    /// Takes the acknowledgement of what stands before a place, while a piece waits for it.
    fn advance(&mut self, piece: Piece, place: u32, window: u16) -> Option<StreamPart>
        ensures after { self.new ≡ advanced self.old piece place window }
        ensures sent { result ≡ (if advances_piece piece place then waiting_part self.new.state else None) }
    {
        if place <= piece.from || place > piece.sent() {
            return None;
        }
        if place > piece.page.len() {
            self.state = State::Sent { place };
            return None;
        }
        Some(self.send(piece.page, place, window))
    }

    /// Sends the response's bytes from a place on: at most what fits into a segment and the peer's window.
    fn send(&mut self, page: Page, from: u32, window: u16) -> StreamPart
        ensures after { self.new ≡ sends self.old (piece_from self.old page from window) }
        ensures sent { result ≡ Bytes (piece_from self.old page from window) }
    {
        let room = self.most.min(window.max(1));
        let piece = Piece { page, from, room };
        self.state = State::Sending(piece);
        self.silence = Silence::new();
        StreamPart::Bytes(piece)
    }

    /// Takes the data and the FIN of a segment, where they are the next, and returns the response's first bytes once
    /// the request is complete.
    fn receive(&mut self, segment: &Segment<'_>, images: u8) -> Option<StreamPart>
        ensures { IsReceived self.old (segment_parts segment.now) images result self.new }
    {
        if segment.seq != self.expected {
            return None;
        }
        self.expected = number_after(segment);
        match self.state {
            State::Reading => self.gather(segment, images),
            State::Sent { .. } if has(segment, FIN) => {
                self.state = State::Closed;
                None
            }
            _ => None,
        }
    }

    /// Gathers the request.
    fn gather(&mut self, segment: &Segment<'_>, images: u8) -> Option<StreamPart>
        ensures { IsRequestGathered self.old (segment_parts segment.now) images result self.new }
    {
        let page = self.read_on(segment.body, images)?;
        Some(self.send(page, 0, segment.window))
    }

    /// The answer to the request with these bytes more, once there is one.
    fn read_on(&mut self, bytes: &[u8], images: u8) -> Option<Page>
        ensures page { IsPageOf images (self.old.request.items ++ bytes.now) result }
        ensures after { self.new ≡ with_request_bytes self.old bytes.now }
    {
        match self.request.try_extend_from_slice(bytes) {
            Ok(()) => page_for(self.request.as_slice(), images),
            Err(_) => Some(Page::BadRequest),
        }
    }

    /// The place after what was sent.
    fn place(&self) -> u32
        ensures { result ≡ place_after_sent self.now.state }
    {
        match self.state {
            State::Opened | State::Reading | State::Closed => 0,
            State::Sending(piece) => piece.sent(),
            State::Sent { place } => place,
        }
    }
}

fn has(segment: &Segment<'_>, flag: u8) -> bool
    ensures { result ≡ carries_flag (segment_parts segment.now) flag }
{
    segment.flags & flag != 0
}

/// Whether bytes or a FIN come with a segment.
fn brings_more(segment: &Segment<'_>) -> bool
    ensures { result ≡ brings_bytes (segment_parts segment.now) }
{
    !segment.body.is_empty() || has(segment, FIN)
}

/// The number after a segment's bytes and its FIN.
fn number_after(segment: &Segment<'_>) -> u32
    ensures { result ≡ number_after (segment_parts segment.now) }
{
    let len = segment.body.len() % 0x1_0000_0000;
    let end = segment.seq.wrapping_add(len as u32);
    if has(segment, FIN) {
        end.wrapping_add(1)
    } else {
        end
    }
}
