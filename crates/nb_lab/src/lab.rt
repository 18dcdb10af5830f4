//! A lab.

ghost use Rattle.std.specs.Prelude.{◌≡◌, ◌+◌, ◌≤◌, length, IfOk, OnOk, OnErr, option_and_then, vec_capacity};
ghost use Rattle.nb_defs.specs.Records.{IsFrameRecord, IsIn, IsStart};
ghost use Rattle.nb_record.specs.View.{in_of, start_of};
ghost use Rattle.nb_lab.specs.Answers.{answer_frame};
ghost use Rattle.nb_lab.specs.Scripts.{lab_start, script_text};
ghost use Rattle.nb_lab.specs.Servers.{server_later, file_again, stream_again};
ghost use Rattle.nb_lab.specs.Transits.{sent_if};
ghost use Rattle.nb_lab.specs.Labs.{new_lab, IsGiven, after_next, next_record, coming_record};

use crate::answer::Answer;
use crate::delivery::Delivery;
use crate::hosts::{CLIENT, CLIENT_MAC, MASK};
use crate::script::script;
use crate::server::Server;
use nb_record::{InRec, Start};
use nb_terms::NoMemory;
use nb_wire::{Ip4, Out};
use std::alloc::Global;
use std::marker::Model;

/// How many milliseconds a TICK has.
const TICK: u16 = 250;

/// The most bytes of a frame.
const MOST_FRAME: usize = 1522;

/// What comes to the client.
#[derive(Clone, Copy, Debug, PartialEq, Eq)]
pub enum Coming {
    /// A frame, which `frame` lends.
    Frame,
    /// A TICK.
    Tick,
}

/// Servers of images, and what comes from them to the client.
#[derive(Drop)]
pub struct Lab {
    server: Server,
    delivery: Delivery,
    script: Vec<u8>,
    /// The frame that came last.
    frame: Vec<u8>,
}

impl Model for Lab {
    ghost use Rattle.std.specs.Prelude.{◌≡◌, ◌<◌, ◌≤◌, vec_capacity};
    ghost use Rattle.nb_lab.specs.Labs.{LabState};
    ghost use Rattle.nb_lab.specs.Scripts.{script_text};

    ghost Value = { LabState };

    ghost view = { λ l. record { server = l.server; transit = l.delivery.transit; frame = l.frame.items } };

    ghost invariant = { λ l. (1522 ≤ vec_capacity l.frame) × (l.script.items ≡ script_text l.server.images) × (l.server.images < 256) };
}

impl Lab {
    /// A lab with so many images, which nobody has asked anything.
    pub fn new(alloc: Global, n: u8) -> Result<Lab, NoMemory>
        ensures { IfOk result (λ lab. lab ≡ new_lab n) }
    {
        Ok(Lab {
            server: Server::new(n),
            delivery: Delivery::new(alloc)?,
            script: script(alloc, n)?,
            frame: Vec::with_capacity(alloc, MOST_FRAME)?,
        })
    }

    /// What the first record says of the client, and the script that fetches each image.
    pub fn start(&self) -> Start<'_>
        ensures value { start_of result ≡ lab_start self.now.server.images }
        ensures valid { IsStart (lab_start self.now.server.images) }
        ensures short { length (script_text self.now.server.images) ≤ 10212 }
    {
        Start {
            mac: CLIENT_MAC,
            uuid: [0; 16],
            key: [0; 32],
            arch: 0,
            w: 0,
            ip: CLIENT,
            mask: MASK,
            gateway: Ip4(0),
            dns: Ip4(0),
            script: self.script.as_slice(),
        }
    }

    /// Gives the servers a frame of the client.
    pub fn give(&mut self, frame: &[u8]) -> Result<(), NoMemory>
        ensures given { OnOk result (IsGiven self.old frame.now self.new) }
        ensures refused { OnErr result (self.new ≡ self.old) }
    {
        self.delivery.reserve()?;
        let answer = self.server.take(frame);
        send_if(&mut self.delivery, answer);
        Ok(())
    }

    /// The next record for the client: a FRAME where one is waiting, else a TICK. It takes no memory. What the lab is
    /// afterwards is said of `advance`, which does the same and lends nothing.
    pub fn next(&mut self) -> InRec<'_>
        ensures value { in_of result ≡ next_record self.old.transit.waiting }
        ensures valid { IsIn (next_record self.old.transit.waiting) }
    {
        match self.advance() {
            Coming::Frame => InRec::Frame(self.frame()),
            Coming::Tick => InRec::Tick(TICK),
        }
    }

    /// Goes on to the next record for the client. It takes no memory.
    pub fn advance(&mut self) -> Coming
        ensures value { coming_record result self.new ≡ next_record self.old.transit.waiting }
        ensures after { self.new ≡ after_next self.old self.old.transit.waiting }
        ensures valid { IsIn (next_record self.old.transit.waiting) }
    {
        match self.delivery.take() {
            Some(answer) => {
                spell(&answer, &mut self.frame);
                Coming::Frame
            }
            None => {
                pass_time(&mut self.server, &mut self.delivery);
                Coming::Tick
            }
        }
    }

    /// The frame that came last.
    pub fn frame(&self) -> &[u8]
        ensures { result.now ≡ self.now.frame }
    {
        self.frame.as_slice()
    }
}

/// Spells a frame in place of the last one.
fn spell(answer: &Answer, frame: &mut Vec<u8>)
    requires { 1522 ≤ vec_capacity frame.old }
    ensures spelled { frame.new.items ≡ answer_frame answer.now }
    ensures legal { IsFrameRecord (answer_frame answer.now) }
    ensures capacity { 1522 ≤ vec_capacity frame.new }
{
    let mut room = [0; MOST_FRAME];
    let mut out = Out::new(&mut room);
    answer.put(&mut out);
    frame.clear();
    let _ = frame.extend_from_slice(out.written());
}

/// A TICK passes: what waits for an acknowledgement may be sent again.
fn pass_time(server: &mut Server, delivery: &mut Delivery)
    requires { 8 ≤ delivery.old.room }
    ensures server { server.new ≡ server_later server.old }
    ensures sent { delivery.new.transit ≡ sent_if
        (sent_if delivery.old.transit (option_and_then file_again server.old.transfer))
        (option_and_then stream_again server.old.connection) }
{
    let repeats = server.tick();
    send_if(delivery, repeats.file);
    send_if(delivery, repeats.stream);
}

fn send_if(delivery: &mut Delivery, answer: Option<Answer>)
    requires { 4 ≤ delivery.old.room }
    ensures sent { delivery.new.transit ≡ sent_if delivery.old.transit answer }
    ensures room { delivery.old.room ≤ delivery.new.room + 4 }
{
    if let Some(answer) = answer {
        delivery.send(answer);
    }
}
