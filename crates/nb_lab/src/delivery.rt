//! The way of the servers' frames to the client.

ghost use Rattle.std.specs.Prelude.{◌≡◌, ◌+◌, ◌≤◌, [], ◌∷◌, ◌++◌, IfOk, OnOk, IfSome, IfNone};
ghost use Rattle.std.specs.Option.{option_map_or};
ghost use Rattle.nb_lab.specs.Fates.{times};
ghost use Rattle.nb_lab.specs.Transits.{nothing_sent, held_copies, sent};

use crate::answer::Answer;
use crate::fate::Fate;
use nb_terms::NoMemory;
use std::alloc::Global;
use std::collections::VecDeque;
use std::marker::Model;

/// After how many numbers the fates of frames are the same again: 7 times 11 times 13.
const ROUND: u16 = 1001;

/// How many frames come at most when one is sent: it and a late one, each twice.
const MOST_COMING: usize = 4;

/// How many frames there is room for at least while none waits, so that two may be sent.
const ROOM: usize = 8;

/// A frame that is late, and whether it comes twice.
#[derive(Clone, Copy, Debug)]
pub struct Held {
    pub answer: Answer,
    pub twice: bool,
}

/// The frames on their way, and the number of the last one that was sent.
#[derive(Drop)]
pub struct Delivery {
    number: u16,
    late: Option<Held>,
    waiting: VecDeque<Answer>,
}

impl Model for Delivery {
    ghost use Rattle.std.specs.Prelude.{◌-◌, ◌<◌, ◌≤◌};
    ghost use Rattle.std.specs.VecDeque.{deque_len, deque_capacity};
    ghost use Rattle.nb_lab.specs.Ways.{Way};

    ghost Value = { Way };

    ghost view = { λ d. record {
      transit = record { number = d.number; late = d.late; waiting = d.waiting.items };
      room = deque_capacity d.waiting - deque_len d.waiting;
    } };

    ghost invariant = { λ d. (d.number < 1001) × (8 ≤ deque_capacity d.waiting) };
}

impl Delivery {
    /// No frame was sent.
    pub fn new(alloc: Global) -> Result<Delivery, NoMemory>
        ensures { IfOk result (λ d. d.transit ≡ nothing_sent) }
    {
        Ok(Delivery {
            number: 0,
            late: None,
            waiting: VecDeque::with_capacity(alloc, ROOM)?,
        })
    }

    /// Takes memory for the frames that come when one is sent.
    pub fn reserve(&mut self) -> Result<(), NoMemory>
        ensures stays { self.new.transit ≡ self.old.transit }
        ensures room { OnOk result (4 ≤ self.new.room) }
    {
        self.waiting.reserve(MOST_COMING)?;
        Ok(())
    }

    /// Sends a frame, which comes to the client by its number. It takes no memory.
    pub fn send(&mut self, answer: Answer)
        requires { 4 ≤ self.old.room }
        ensures goes { self.new.transit ≡ sent self.old.transit answer }
        ensures room { self.old.room ≤ self.new.room + 4 }
    {
        self.number = (self.number + 1) % ROUND;
        match Fate::of(self.number) {
            Fate::Lost => {}
            Fate::OnTime { twice } => {
                self.add(answer, twice);
                self.add_late();
            }
            Fate::Late { twice } => {
                self.add_late();
                self.late = Some(Held { answer, twice });
            }
        }
    }

    /// The next frame that comes to the client.
    pub fn take(&mut self) -> Option<Answer>
        ensures first { IfSome result (λ answer. self.old.transit.waiting ≡ answer ∷ self.new.transit.waiting) }
        ensures none { IfNone result (self.old.transit.waiting ≡ []) }
        ensures stays { self.new.transit ≡ record self.old.transit { waiting = self.new.transit.waiting } }
        ensures empty { IfNone result (self.new.transit ≡ self.old.transit) }
        ensures room { IfNone result (8 ≤ self.new.room) }
    {
        self.waiting.pop_front()
    }

    /// What was late comes now.
    fn add_late(&mut self)
        requires { 2 ≤ self.old.room }
        ensures comes { self.new.transit ≡ record self.old.transit {
          late = None;
          waiting = self.old.transit.waiting ++ option_map_or held_copies self.old.transit.late [];
        } }
        ensures room { self.old.room ≤ self.new.room + 2 }
    {
        if let Some(held) = self.late.take() {
            self.add(held.answer, held.twice);
        }
    }

    fn add(&mut self, answer: Answer, twice: bool)
        requires { 2 ≤ self.old.room }
        ensures comes { self.new.transit ≡ record self.old.transit { waiting = self.old.transit.waiting ++ times twice answer } }
        ensures room { self.old.room ≤ self.new.room + 2 }
    {
        self.waiting.push_back_reserved(answer);
        if twice {
            self.waiting.push_back_reserved(answer);
        }
    }
}
