ghost use Rattle.std.specs.Prelude.{◌≡◌, ◌≤◌, ℕ, length, IfOk, OnOk, OnErr};
ghost use Rattle.nb_defs.specs.Causes.{exit_cause};
ghost use Rattle.nb_defs.specs.Commands.{refused, prints_text};
ghost use Rattle.nb_command.specs.Printed.{most_printed, IfText};
ghost use Rattle.nb_machine.specs.Effects.{full_opens, plan_effect, plan_table, plan_up, leaves_with};
ghost use Rattle.nb_runner.specs.World.{state_of};
ghost use Rattle.nb_runner.specs.CommandWords.{done_of, deed_effect, outcome_effect, IsLocal, IsLocalOutcome, PrintsAtMost};

use nb_command::{CommandPlan, Job, Outcome, State, apply};
use nb_record::{Cause, NoMemory};
use nb_terms::{Fullness, Plain, Reason};
use nb_wire::{Text, Word};
use std::alloc::Global;

/// How many opens a run may have.
pub const MAX_OPENS: u16 = 16_384;

/// The cause of a command that asks for an open more.
pub fn full_opens() -> Cause
    ensures { result ≡ full_opens }
{
    Cause::from(Reason::Full(Fullness::Opens))
}

/// What a command came to.
#[derive(Drop)]
pub struct Done {
    /// What it prints.
    pub prints: Option<Text>,
    /// Its result.
    pub cause: Cause,
    /// It leaves the script, whatever its result.
    pub leaves: bool,
}

/// What a command that asks for nothing comes to.
#[derive(Drop)]
pub enum Deed {
    /// It is over.
    Ends(Done),
    /// It goes to the label of this name.
    Goes(Word),
    /// It sleeps for so many seconds.
    Sleeps(u32),
    /// The device went down: what is open there is to be closed, and it is over with Ok.
    Shuts,
}

impl Done {
    /// It printed nothing, has this result, and leaves nothing.
    pub fn with(cause: Cause) -> Done
        ensures { done_of result ≡ refused cause }
    {
        Done {
            prints: None,
            cause,
            leaves: false,
        }
    }

    /// It printed this, and succeeded.
    fn printing(text: Text) -> Done
        ensures { done_of result ≡ prints_text text }
    {
        Done {
            prints: Some(text),
            cause: Plain::Ok.cause(),
            leaves: false,
        }
    }

    /// It leaves the script, with Ok where the number is 0.
    fn leaving(n: u8) -> Done
        ensures { done_of result ≡ leaves_with n }
    {
        Done {
            prints: None,
            cause: exit_result(n),
            leaves: true,
        }
    }
}

/// The result of `exit n`: Ok where n is 0.
fn exit_result(n: u8) -> Cause
    ensures { result ≡ exit_cause n }
{
    if n == 0 {
        return Plain::Ok.cause();
    }
    Cause::from(Reason::Exit(n))
}

/// What an outcome comes to. `sleep 0` is over at once.
fn deed_of(outcome: Outcome) -> Deed
    requires { IsLocalOutcome outcome }
    ensures value { deed_effect result ≡ outcome_effect outcome }
    ensures printed { (most : ℕ) → IfText outcome (λ text. length text ≤ most) → PrintsAtMost result most }
{
    match outcome {
        Outcome::Done | Outcome::Wait(Job::Sleep(0)) => Deed::Ends(Done::with(Plain::Ok.cause())),
        Outcome::Text(text) => Deed::Ends(Done::printing(text)),
        Outcome::Goto(label) => Deed::Goes(label),
        Outcome::Leave(n) => Deed::Ends(Done::leaving(n)),
        Outcome::Wait(Job::Sleep(seconds)) => Deed::Sleeps(seconds),
        Outcome::Down => Deed::Shuts,
        Outcome::Wait(Job::Lease | Job::Ping { .. } | Job::Lookup { .. })
        | Outcome::Images(_)
        | Outcome::Drives(_) => unreachable!(),
    }
}

/// Carries a command out that asks for nothing.
pub fn carry_out(alloc: Global, plan: &CommandPlan, state: &mut State) -> Result<Deed, NoMemory>
    requires { IsLocal plan.now }
    ensures value { IfOk result (λ deed. (opens : ℕ) → plan_effect opens state.old.table plan.now ≡ deed_effect deed) }
    ensures after { OnOk result (state.new ≡ state_of (plan_table plan.now state.old.table) state.old.images state.old.drives (plan_up plan.now state.old.up)) }
    ensures same { OnErr result (state.new ≡ state.old) }
    ensures printed { IfOk result (λ deed. PrintsAtMost deed (most_printed plan.now)) }
{
    match apply(alloc, plan, None, state) {
        Ok(outcome) => Ok(deed_of(outcome)),
        Err(cause) if cause == Plain::NoMemory.cause() => Err(NoMemory),
        Err(cause) => Ok(Deed::Ends(Done::with(cause))),
    }
}
