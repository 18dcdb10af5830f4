//! The timer.

ghost use Rattle.std.specs.Prelude.{◌≡◌, ◌∷◌, [], ◌++◌, List, None, Some, IsTrue, ◌<◌, length, slice_index, ◌↔◌};
ghost use Rattle.nb_retry.specs.Timer.{started, due_at, after, moment_after, is_due};
ghost use Rattle.nb_retry.specs.Calls.{TimerStands, FollowsPlan};
ghost use Rattle.nb_retry.specs.Plans.{Asked, asked_at, delays};

use crate::plan::Plan;

/// What a timer says at a moment.
#[derive(Clone, Copy, Debug, PartialEq, Eq, Drop)]
pub enum Due {
    /// Nothing is to be done.
    Not,
    /// The try of this number is to be made.
    Again(u8),
    /// The last delay has passed without an answer.
    Over,
}

/// A timer, running or stopped. Times are milliseconds since the start of the run.
#[derive(Clone, Copy, Debug, PartialEq, Eq, Drop)]
pub struct Retry {
    /// When it was started.
    pub since: u64,
    /// The number of the last try made.
    pub fired: u8,
    /// When it fires next. None where it is stopped, or where no `u64` is that late.
    pub next: Option<u64>,
    /// The delays.
    pub plan: Plan,
}

impl Retry {
    /// A timer that doesn't run.
    pub fn stopped() -> Retry
        ensures { result.next ≡ None }
    {
        Retry {
            since: 0,
            fired: 0,
            next: None,
            plan: Plan::Common,
        }
    }

    /// Starts the plan anew at this moment, at which the message's first sending is made.
    pub fn start(&mut self, now: u64, plan: Plan)
        ensures value { self.new ≡ started now plan }
        ensures stands { TimerStands self.new [] }
    {
        self.next = moment(now, plan, 0);
        self.since = now;
        self.fired = plan.first_try();
        self.plan = plan;
    }

    /// Stops the timer.
    pub fn stop(&mut self)
        ensures { self.new ≡ record self.old { next = None } }
    {
        self.next = None;
    }

    /// What is to be done at this moment. An answer other than `Not` counts the try, and starts the next delay.
    pub fn due(&mut self, now: u64) -> Due
        ensures answer { result ≡ due_at self.old now }
        ensures after { self.new ≡ after self.old now }
        // With this call the timer stands for one call more, and its firings are the plan's times.
        ensures stands { (calls : List Asked) → TimerStands self.old calls → TimerStands self.new (calls ++ asked_at now result ∷ []) }
        ensures plan { (calls : List Asked) → TimerStands self.old calls → FollowsPlan self.new (calls ++ asked_at now result ∷ []) }
    {
        self.fire(now)
    }

    fn fire(&mut self, now: u64) -> Due
        ensures answer { result ≡ due_at self.old now }
        ensures after { self.new ≡ after self.old now }
    {
        if !self.is_due(now) {
            return Due::Not;
        }
        let passed = self.fired.saturating_sub(self.plan.first_try()) as usize + 1;
        if passed >= self.plan.delays().len() {
            self.stop();
            return Due::Over;
        }
        self.fired += 1;
        self.next = moment(now, self.plan, passed);
        Due::Again(self.fired)
    }

    fn is_due(&self, now: u64) -> bool
        ensures { result ≡ is_due self.now now }
    {
        match self.next {
            Some(next) => next <= now,
            None => false,
        }
    }
}

/// The moment one delay of the plan later, the delay at this place.
fn moment(now: u64, plan: Plan, place: usize) -> Option<u64>
    requires { place < length (delays plan) }
    ensures { result ≡ moment_after now (slice_index (delays plan) place) }
{
    now.checked_add(plan.delays()[place])
}
