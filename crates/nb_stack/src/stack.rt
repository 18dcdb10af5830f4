//! The link and network layer.

use crate::address::{Addr, EVERYONE, is_own};
use crate::envelope::{Envelope, head_len};
use crate::message::Message;
use crate::neighbours::{Neighbour, Neighbours};
use crate::ports::{Port, Ports};
use crate::put::{Endpoints, put_arp, put_echo, put_header, put_message};
use crate::reading::{datagram_of, frame_for, message_in, packet_of, segment_of};
use crate::reset::{is_reset, reset_of};
use crate::route::{Way, datagram_way, packet_way};
use crate::taken::{Fate, Taken, whole_segment};
use nb_ether::{ARP_REPLY, ARP_REQUEST, Arp, EtherFrame};
use nb_ipv4::{ECHO_REPLY, Echo, PROTO_ICMP, PROTO_TCP, PROTO_UDP, Packet, Udp};
use nb_tcpseg::Segment;
use nb_terms::SendTo;
use nb_wire::{Full, Ip4, Mac, Out};
use std::marker::Model;

/// The link and network layer of a client: its addresses, its neighbours and its ports.
#[derive(Drop)]
pub struct Stack {
    pub(crate) mac: Mac,
    address: Option<Addr>,
    up: bool,
    pub(crate) near: Neighbours,
    ports: Ports,
}

impl Model for Stack {
    ghost use Rattle.nb_stack.specs.Client.{Client};

    ghost Value = { Client };

    ghost view = { λ s. record { mac = s.mac; address = s.address; up = s.up; near = s.near; ports = s.ports } };
}

impl Stack {
    ghost use Rattle.std.specs.Prelude.{◌≡◌, ℕ, ◌+◌, ◌%◌, ◌≤◌, List, ◌++◌, ◌↔◌, [], None, false, length, is_some, IfSome, IfNone, IsSomeAnd, IsErr, OnOk, OnErr};
    ghost use Rattle.nb_ether.specs.Frame.{Frame, IsFrame, frame_of};
    ghost use Rattle.nb_ipv4.specs.PacketText.{IsPacket, packet_parts};
    ghost use Rattle.nb_ipv4.specs.UdpText.{udp_parts};
    ghost use Rattle.nb_ipv4.specs.EchoText.{echo_parts};
    ghost use Rattle.nb_tcpseg.specs.SegmentText.{segment_parts};
    ghost use Rattle.nb_stack.specs.Near.{mac_of, after_arp};
    ghost use Rattle.nb_stack.specs.Bound.{owner_of, with_port, without};
    ghost use Rattle.nb_stack.specs.Sends.{fate_of, put_on, way_of, fate_by, put_by, request_for, IsCarried};
    ghost use Rattle.nb_stack.specs.Envelope.{message_of};
    ghost use Rattle.nb_stack.specs.Brings.{IsFrameFor, BringsIn, BringsNone, arp_message, datagram, echo_request, echo_reply, segment, message_brought};
    ghost use Rattle.nb_stack.specs.Takes.{Takes, TakesAddressed, outcome, outcome_of, reply_of, client_after, asks, arp_reply_to, back_to};
    ghost use Rattle.nb_stack.specs.Sizes.{IsFrameSize, IsReplySize};
    ghost use Rattle.nb_stack.specs.declared.taken.Fate.TheVariants.{NoRoute};

    /// A client on the interface with this address. It has no address of its own, its device is down,
    /// and it knows no neighbours.
    pub fn new(mac: Mac) -> Stack
        ensures { result ≡ record { mac = mac; address = None; up = false; near = []; ports = [] } }
    {
        Stack {
            mac,
            address: None,
            up: false,
            near: Neighbours::new(),
            ports: Ports::new(),
        }
    }

    /// The address of the client's interface.
    pub fn mac(&self) -> Mac
        ensures { result ≡ self.now.mac }
    {
        self.mac
    }

    /// The client's address, if it has one.
    pub fn address(&self) -> Option<Addr>
        ensures { result ≡ self.now.address }
    {
        self.address
    }

    /// Gives the client this address, or none.
    pub fn set_address(&mut self, a: Option<Addr>)
        ensures { self.new ≡ record self.old { address = a } }
    {
        self.address = a;
    }

    /// Opens or closes the device. A device that is down takes and sends nothing.
    pub fn set_up(&mut self, up: bool)
        ensures { self.new ≡ record self.old { up = up } }
    {
        self.up = up;
    }

    /// Whether somebody bound this port.
    pub fn is_bound(&self, proto: u8, port: u16) -> bool
        ensures { result ≡ is_some (owner_of proto port self.now.ports) }
    {
        self.ports.owner(proto, port).is_some()
    }

    /// Binds a port that isn't bound: its messages go to `to`.
    pub fn bind(&mut self, proto: u8, port: u16, to: u64) -> Result<(), Full>
        requires { owner_of proto port self.old.ports ≡ None }
        ensures full { IsErr result ↔ (length self.old.ports ≡ 64) }
        ensures bound { OnOk result
            (self.new ≡ record self.old { ports = with_port proto port to self.old.ports }) }
        ensures refused { OnErr result (self.new ≡ self.old) }
    {
        self.ports.bind(Port {
            proto,
            number: port,
            to,
        })
    }

    /// Frees a port. Nothing changes where it isn't bound.
    pub fn unbind(&mut self, proto: u8, port: u16)
        ensures { self.new ≡ record self.old { ports = without proto port self.old.ports } }
    {
        self.ports.unbind(proto, port);
    }

    /// Takes a frame. Its one message for the client, if it brings one, is noted, handed on, replied to
    /// (RFC 826, 792) or reset (RFC 9293).
    #[inline(always)]
    pub fn take<'a>(&mut self, frame: &'a [u8], reply: &mut Out<'_>) -> Taken<'a>
        requires frame { length frame.now ≤ 1522 }
        requires room { 1522 ≤ reply.old.left }
        ensures takes { Takes self.old frame.now
            (outcome result) reply.old.written reply.new.written self.new }
        ensures size { (r : List ℕ) × (reply.new.written ≡ reply.old.written ++ r) × IsReplySize r }
        ensures mac { self.new.mac ≡ self.old.mac }
        ensures address { self.new.address ≡ self.old.address }
        ensures up { self.new.up ≡ self.old.up }
        ensures ports { self.new.ports ≡ self.old.ports }
    {
        let Some(read) = self.frame_for(frame) else {
            return Taken::Drop;
        };
        if let Some(packet) = packet_of(PROTO_UDP, read) {
            return self.take_datagram(read, packet);
        }
        match self.bound_segment(read) {
            Some(taken) => taken,
            None => self.take_any(frame, reply),
        }
    }

    // Takes a frame of any kind. It is read anew, so that the fields of a datagram's needn't be stored for
    // this call.
    #[inline(never)]
    fn take_any<'a>(&mut self, frame: &'a [u8], reply: &mut Out<'_>) -> Taken<'a>
        requires frame { length frame.now ≤ 1522 }
        requires room { 1522 ≤ reply.old.left }
        ensures takes { Takes self.old frame.now
            (outcome result) reply.old.written reply.new.written self.new }
        ensures size { (r : List ℕ) × (reply.new.written ≡ reply.old.written ++ r) × IsReplySize r }
        ensures mac { self.new.mac ≡ self.old.mac }
        ensures address { self.new.address ≡ self.old.address }
        ensures up { self.new.up ≡ self.old.up }
        ensures ports { self.new.ports ≡ self.old.ports }
    {
        match self.frame_for(frame) {
            Some(frame) => self.take_other(frame, reply),
            None => Taken::Drop,
        }
    }

    #[inline(always)]
    fn frame_for<'a>(&self, bytes: &'a [u8]) -> Option<EtherFrame<'a>>
        ensures sound { IfSome result
            (λ f. IsFrameFor self.now.up self.now.mac bytes.now (frame_of f)) }
        ensures complete { (f : Frame) → IsFrameFor self.now.up self.now.mac bytes.now f
            → IsSomeAnd result (λ g. frame_of g ≡ f) }
    {
        frame_for(self.up, self.mac, bytes)
    }

    // Most frames of a transfer are datagrams, so they go by themselves, and no message is made of them.
    #[inline(always)]
    fn take_datagram<'a>(&self, frame: EtherFrame<'a>, packet: Packet<'a>) -> Taken<'a>
        requires kind { frame.kind ≡ 2048 }
        requires packet { IsPacket frame.body.now (packet_parts packet) }
        requires proto { packet.proto ≡ 17 }
        ensures { (put : List ℕ)
            → TakesAddressed self.now (frame_of frame.entry) (outcome result) put put self.now }
    {
        match self.datagram_of(frame, packet) {
            Some(udp) => self.hand_on(packet, udp),
            None => Taken::Drop,
        }
    }

    #[inline(always)]
    fn datagram_of<'a>(&self, frame: EtherFrame<'a>, packet: Packet<'a>) -> Option<Udp<'a>>
        requires kind { frame.kind ≡ 2048 }
        requires packet { IsPacket frame.body.now (packet_parts packet) }
        requires proto { packet.proto ≡ 17 }
        ensures sound { IfSome result (λ d. BringsIn self.now.address (frame_of frame.entry)
            (datagram (packet_parts packet.entry) (udp_parts d))) }
        ensures none { IfNone result (BringsNone self.now.address (frame_of frame.entry)) }
    {
        datagram_of(self.address, frame, packet)
    }

    // A segment for a port that is bound goes by itself too; of every other frame None is returned.
    #[inline(always)]
    fn bound_segment<'a>(&self, frame: EtherFrame<'a>) -> Option<Taken<'a>>
        ensures { (put : List ℕ) → IfSome result
            (λ t. TakesAddressed self.now (frame_of frame.entry) (outcome t) put put self.now) }
    {
        let (packet, tcp) = segment_of(self.address, frame)?;
        let to = self.ports.owner(PROTO_TCP, tcp.dst_port)?;
        Some(whole_segment(to, packet, tcp.src_port))
    }

    // Of every other frame the message is made first.
    fn take_other<'a>(&mut self, frame: EtherFrame<'a>, reply: &mut Out<'_>) -> Taken<'a>
        requires frame { (bytes : List ℕ) × IsFrame bytes (frame_of frame) × (length bytes ≤ 1522) }
        requires room { 1522 ≤ reply.old.left }
        ensures takes { TakesAddressed self.old (frame_of frame.entry)
            (outcome result) reply.old.written reply.new.written self.new }
        ensures size { (r : List ℕ) × (reply.new.written ≡ reply.old.written ++ r) × IsReplySize r }
        ensures mac { self.new.mac ≡ self.old.mac }
        ensures address { self.new.address ≡ self.old.address }
        ensures up { self.new.up ≡ self.old.up }
        ensures ports { self.new.ports ≡ self.old.ports }
    {
        match self.message(frame) {
            Message::Nothing => Taken::Drop,
            Message::HasArp { from, arp } => self.take_arp(from, &arp, reply),
            Message::HasDatagram { packet, datagram } => self.hand_on(packet, datagram),
            Message::HasRequest { from, packet, echo } => {
                self.reply_echo(from, &packet, &echo, reply);
                Taken::Reply
            }
            Message::HasReply { packet, echo } => self.hand_on_reply(packet, echo),
            Message::HasSegment {
                from,
                packet,
                segment,
            } => self.take_segment(from, packet, &segment, reply),
        }
    }

    /// Sends a message to its next hop (RFC 1122, section 3.3.1): a UDP datagram, an echo request, or a
    /// TCP segment, whose checksum is put into its place. The try is lost where the hop is asked for its
    /// hardware address first (RFC 826).
    #[inline(always)]
    pub fn send(&mut self, s: &SendTo, out: &mut Out<'_>) -> Fate
        requires carried { IsCarried s.now.proto s.now.body.items }
        requires room { 1522 ≤ out.old.left }
        ensures fate { result ≡ fate_of self.old (way_of self.old s.now) }
        ensures put { out.new.written ≡
            out.old.written ++ put_on self.old s.now (way_of self.old s.now) }
        ensures size { (result ≡ NoRoute → ⊥)
            → IsFrameSize (length (put_on self.old s.now (way_of self.old s.now))) }
        ensures same { self.new ≡ self.old }
    {
        let (first, second) = s.body.as_slice().split_at(head_len(s.proto));
        self.send_parts(&Envelope::of(s), first, second, out)
    }

    /// Sends the message of this envelope as `send` does. Its body is `first` and then `second`, which
    /// are copied once, into the room. A TCP header lies in `first`.
    #[inline(always)]
    pub fn send_parts(
        &self,
        envelope: &Envelope,
        first: &[u8],
        second: &[u8],
        out: &mut Out<'_>,
    ) -> Fate
        requires carried { IsCarried envelope.now.proto first.now }
        requires even { length first.now % 2 ≡ 0 }
        requires short { length first.now + length second.now ≤ 1480 }
        requires room { 1522 ≤ out.old.left }
        ensures fate { let m = message_of envelope.now first.now second.now in
            result ≡ fate_of self.now (way_of self.now m) }
        ensures put { let m = message_of envelope.now first.now second.now in
            out.new.written ≡ out.old.written ++ put_on self.now m (way_of self.now m) }
        ensures size { let m = message_of envelope.now first.now second.now in
            (result ≡ NoRoute → ⊥) → IsFrameSize (length (put_on self.now m (way_of self.now m))) }
    {
        match self.way(envelope) {
            Way::Nowhere => Fate::NoRoute,
            Way::Everyone => {
                put_message(EVERYONE, self.mac, Ip4(0), envelope, first, second, out);
                Fate::Sent
            }
            Way::Hop { from, hop } => self.send_by(from, hop, envelope, first, second, out),
        }
    }

    #[inline(always)]
    pub(crate) fn way(&self, envelope: &Envelope) -> Way
        ensures { (first second : List ℕ)
            → result ≡ way_of self.now (message_of envelope.now first second) }
    {
        match envelope.proto {
            PROTO_UDP => datagram_way(self.up, self.address, envelope.to, envelope.own_port),
            _ => packet_way(self.up, self.address, envelope.to),
        }
    }

    #[inline(always)]
    fn send_by(
        &self,
        from: Ip4,
        hop: Ip4,
        envelope: &Envelope,
        first: &[u8],
        second: &[u8],
        out: &mut Out<'_>,
    ) -> Fate
        requires carried { IsCarried envelope.now.proto first.now }
        requires even { length first.now % 2 ≡ 0 }
        requires short { length first.now + length second.now ≤ 1480 }
        requires room { 1522 ≤ out.old.left }
        ensures fate { result ≡ fate_by (mac_of hop self.now.near) }
        ensures put { let m = message_of envelope.now first.now second.now in
            out.new.written ≡ out.old.written ++ put_by self.now from hop m (mac_of hop self.now.near) }
        ensures size { let m = message_of envelope.now first.now second.now in
            IsFrameSize (length (put_by self.now from hop m (mac_of hop self.now.near))) }
    {
        match self.near.mac(hop) {
            Some(mac) => {
                put_message(mac, self.mac, from, envelope, first, second, out);
                Fate::Sent
            }
            None => {
                put_arp(EVERYONE, &self.request(from, hop), out);
                Fate::Asked
            }
        }
    }

    fn request(&self, from: Ip4, hop: Ip4) -> Arp
        ensures { result ≡ request_for self.now.mac from hop }
    {
        Arp {
            op: ARP_REQUEST,
            sha: self.mac,
            spa: from,
            tha: Mac([0; 6]),
            tpa: hop,
        }
    }

    fn message<'a>(&self, frame: EtherFrame<'a>) -> Message<'a>
        ensures { BringsIn self.now.address (frame_of frame.entry) (message_brought result) }
    {
        message_in(self.address, frame)
    }

    // The sender is noted, and a request for us is replied to.
    fn take_arp<'a>(&mut self, from: Mac, arp: &Arp, reply: &mut Out<'_>) -> Taken<'a>
        requires { 1522 ≤ reply.old.left }
        ensures outcome { outcome result ≡ outcome_of self.old (arp_message from arp.now) }
        ensures put { reply.new.written ≡
            reply.old.written ++ reply_of self.old (arp_message from arp.now) }
        ensures size { IsReplySize (reply_of self.old (arp_message from arp.now)) }
        ensures after { self.new ≡ client_after self.old (arp_message from arp.now) }
    {
        self.learn(arp);
        if self.is_asked(arp) {
            put_arp(from, &self.reply_to(arp), reply);
            Taken::Reply
        } else {
            Taken::Drop
        }
    }

    fn learn(&mut self, arp: &Arp)
        ensures { self.new ≡ record self.old { near = after_arp self.old.address arp.now self.old.near } }
    {
        let sender = Neighbour {
            ip: arp.spa,
            mac: arp.sha,
        };
        self.near.learn(sender, is_own(self.address, arp.tpa));
    }

    fn is_asked(&self, arp: &Arp) -> bool
        ensures { result ≡ asks self.now.address arp.now }
    {
        arp.op == ARP_REQUEST && is_own(self.address, arp.tpa)
    }

    fn reply_to(&self, arp: &Arp) -> Arp
        ensures { result ≡ arp_reply_to self.now.mac arp.now }
    {
        Arp {
            op: ARP_REPLY,
            sha: self.mac,
            spa: arp.tpa,
            tha: arp.sha,
            tpa: arp.spa,
        }
    }

    #[inline(always)]
    fn hand_on<'a>(&self, packet: Packet<'a>, udp: Udp<'a>) -> Taken<'a>
        ensures { outcome result ≡ outcome_of self.now
            (datagram (packet_parts packet.entry) (udp_parts udp.entry)) }
    {
        match self.ports.owner(PROTO_UDP, udp.dst_port) {
            Some(to) => Taken::To {
                to,
                src: packet.src,
                dst: packet.dst,
                proto: PROTO_UDP,
                src_port: udp.src_port,
                body: udp.body,
            },
            None => Taken::Drop,
        }
    }

    // The port of an echo reply is its identifier.
    fn hand_on_reply<'a>(&self, packet: Packet<'a>, echo: Echo<'a>) -> Taken<'a>
        ensures { outcome result ≡ outcome_of self.now
            (echo_reply (packet_parts packet.entry) (echo_parts echo.entry)) }
    {
        match self.ports.owner(PROTO_ICMP, echo.ident) {
            Some(to) => Taken::To {
                to,
                src: packet.src,
                dst: packet.dst,
                proto: PROTO_ICMP,
                src_port: 0,
                body: echo.body,
            },
            None => Taken::Drop,
        }
    }

    fn reply_echo(&self, from: Mac, packet: &Packet<'_>, echo: &Echo<'_>, reply: &mut Out<'_>)
        requires proto { packet.now.proto ≡ 1 }
        requires short { length echo.now.body.now ≤ 1480 }
        requires room { 1522 ≤ reply.old.left }
        ensures put { reply.new.written ≡ reply.old.written ++ reply_of self.now
            (echo_request from (packet_parts packet.now) (echo_parts echo.now)) }
        ensures size { IsReplySize (reply_of self.now
            (echo_request from (packet_parts packet.now) (echo_parts echo.now))) }
    {
        let ends = self.back(from, packet);
        put_echo(
            ends,
            ECHO_REPLY,
            echo.ident,
            echo.seq,
            &[],
            echo.body,
            reply,
        );
    }

    // A segment is handed on whole. Where nobody bound its port it is reset, but for a reset.
    fn take_segment<'a>(
        &self,
        from: Mac,
        packet: Packet<'a>,
        tcp: &Segment<'_>,
        reply: &mut Out<'_>,
    ) -> Taken<'a>
        requires proto { packet.proto ≡ 6 }
        requires short { length tcp.now.body.now ≤ 1488 }
        requires room { 1522 ≤ reply.old.left }
        ensures outcome { outcome result ≡ outcome_of self.now
            (segment from (packet_parts packet.entry) (segment_parts tcp.now)) }
        ensures put { reply.new.written ≡ reply.old.written ++ reply_of self.now
            (segment from (packet_parts packet.entry) (segment_parts tcp.now)) }
        ensures size { IsReplySize (reply_of self.now
            (segment from (packet_parts packet.entry) (segment_parts tcp.now))) }
    {
        match self.ports.owner(PROTO_TCP, tcp.dst_port) {
            Some(to) => whole_segment(to, packet, tcp.src_port),
            None if is_reset(tcp) => Taken::Drop,
            None => {
                put_header(self.back(from, &packet), &reset_of(tcp), reply);
                Taken::Reply
            }
        }
    }

    // The way back to the interface and the host that a packet came from.
    fn back(&self, from: Mac, packet: &Packet<'_>) -> Endpoints
        ensures { result ≡ back_to from self.now.mac (packet_parts packet.now) }
    {
        Endpoints {
            dst: from,
            src: self.mac,
            from: packet.dst,
            to: packet.src,
        }
    }
}
