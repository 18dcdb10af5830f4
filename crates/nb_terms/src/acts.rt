ghost use Rattle.std.specs.Prelude.{◌≡◌, ◌+◌, ◌<◌, ◌≤◌, ◌++◌, ◌∷◌, [], length, None, false};

use crate::Cause;
use arrayvec::ArrayVec;
use nb_wire::Ip4;
use std::marker::Model;

/// The most bytes of a message's body: an Ethernet payload of 1,500 less an IPv4 header of 20.
pub const MAX_BODY: usize = 1480;

/// A message that a core wants sent. For TCP (protocol 6) the body is the whole segment with
/// checksum 0; for UDP (17) what follows the UDP header; for an echo (1) what follows the identifier,
/// which is `own_port`, and the sequence number, which is `to_port`.
#[derive(Debug, Drop)]
pub struct SendTo {
    pub proto: u8,
    pub to: Ip4,
    pub to_port: u16,
    pub own_port: u16,
    pub body: ArrayVec<u8, 1480>,
}

/// At most two messages, which lie in the value itself and are written where they lie.
#[derive(Drop)]
pub struct Sends {
    places: [SendTo; 2],
    count: usize,
}

impl Model for Sends {
    ghost use Rattle.std.specs.Prelude.{◌≤◌, take};
    ghost use Rattle.arrayvec.specs.ArrayVec.{ArrayVec as Items};
    ghost use Rattle.nb_terms.specs.declared.acts.SendTo.{SendTo as Message};

    ghost Value = { Items Message };

    ghost view = { λ s. record { items = take s.count s.places } };

    ghost invariant = { λ s. s.count ≤ 2 };
}

impl Sends {
    /// No messages.
    pub fn new() -> Sends
        ensures { result.items ≡ [] }
    {
        Sends {
            places: [SendTo::default(), SendTo::default()],
            count: 0,
        }
    }

    /// The messages.
    pub fn as_slice(&self) -> &[SendTo]
        ensures value { result.now ≡ self.now.items }
        ensures few { length self.now.items ≤ 2 }
    {
        &self.places[..self.count]
    }

    /// Leaves no message.
    pub fn clear(&mut self)
        ensures { self.new.items ≡ [] }
    {
        self.count = 0;
    }

    /// Adds a message, whose body is `head` and then `tail`.
    #[inline(always)]
    pub fn add(&mut self, proto: u8, to: Ip4, to_port: u16, own_port: u16, head: &[u8], tail: &[u8])
        requires room { length self.old.items < 2 }
        requires fits { length head.now + length tail.now ≤ 1480 }
        ensures { self.new.items ≡ self.old.items ++ (record { proto = proto; to = to; to_port = to_port; own_port = own_port; body = record { items = head.now ++ tail.now } }) ∷ [] }
    {
        let place = self.count;
        self.count += 1;
        self.places[place].set(proto, to, to_port, own_port, head, tail);
    }
}

impl SendTo {
    /// Becomes this message, whose body is `head` and then `tail`.
    #[inline(always)]
    fn set(&mut self, proto: u8, to: Ip4, to_port: u16, own_port: u16, head: &[u8], tail: &[u8])
        requires { length head.now + length tail.now ≤ 1480 }
        ensures { self.new ≡ record { proto = proto; to = to; to_port = to_port; own_port = own_port; body = record { items = head.now ++ tail.now } } }
    {
        self.proto = proto;
        self.to = to;
        self.to_port = to_port;
        self.own_port = own_port;
        if tail.is_empty() && self.body.len() == head.len() {
            self.body.as_mut_slice().copy_from_slice(head);
        } else {
            self.replace_body(head, tail);
        }
    }

    /// The body becomes this one. Not inlined, as most bodies are of the last one's length.
    #[inline(never)]
    fn replace_body(&mut self, head: &[u8], tail: &[u8])
        requires { length head.now + length tail.now ≤ 1480 }
        ensures { self.new ≡ record self.old { body = record { items = head.now ++ tail.now } } }
    {
        self.body.clear();
        let _ = self.body.try_extend_from_slice(head);
        let _ = self.body.try_extend_from_slice(tail);
    }
}

/// What a core's call asks of its caller.
#[derive(Drop)]
pub struct Acts {
    /// Messages to send, in this order.
    pub sends: Sends,
    /// The number of the try that the last message of `sends` is, where a timer covers it.
    pub tried: Option<u8>,
    /// The new place, where it grew.
    pub advance: Option<u32>,
    /// The range of the message's bytes that goes up: from, to.
    pub give: Option<(u32, u32)>,
    /// Bytes wait in the core to go up.
    pub ready: bool,
    /// The core's end and its cause; Ok is code 0.
    pub over: Option<Cause>,
}

impl Default for SendTo {
    /// An empty message to nobody, which fills the places of a list that aren't used.
    fn default() -> SendTo {
        SendTo {
            proto: 0,
            to: Ip4(0),
            to_port: 0,
            own_port: 0,
            body: ArrayVec::new(),
        }
    }
}

impl Acts {
    /// Nothing is asked any more. The places of the messages stay as they are, unused.
    pub fn clear(&mut self)
        ensures { self.new ≡ record { sends = record { items = [] }; tried = None; advance = None; give = None; ready = false; over = None } }
    {
        self.sends.clear();
        self.tried = None;
        self.advance = None;
        self.give = None;
        self.ready = false;
        self.over = None;
    }

    /// Nothing is asked.
    pub fn none() -> Acts
        ensures sends { result.sends.items ≡ [] }
        ensures tried { result.tried ≡ None }
        ensures advance { result.advance ≡ None }
        ensures give { result.give ≡ None }
        ensures ready { result.ready ≡ false }
        ensures over { result.over ≡ None }
    {
        Acts {
            sends: Sends::new(),
            tried: None,
            advance: None,
            give: None,
            ready: false,
            over: None,
        }
    }
}
