//! A run of the client against the servers of a lab.

ghost use Rattle.std.specs.Prelude.{◌≡◌, ◌+◌, ◌-◌, ◌<◌, ◌≤◌, ◌^◌, ℕ, [], ◌∷◌, IfOk, OnOk};
ghost use Rattle.nb_defs.specs.Records.{IsIn, IsStart, start};
ghost use Rattle.nb_record.specs.View.{in_of};
ghost use Rattle.nb_client.specs.Progressing.{AwaitsRecord, TurnsBy};
ghost use Rattle.nb_client.specs.declared.client.Turn.TheVariants as turns;
ghost use Rattle.nb_client.specs.declared.stage.Stage.{Stage};
ghost use Rattle.nb_runner.specs.declared.status.Status.TheVariants as statuses;
ghost use Rattle.nb_lab.specs.Scripts.{lab_start};
ghost use Rattle.nb_lab.specs.Labs.{coming_record, new_lab};
ghost use Rattle.nb_lab.specs.Tallies.{Counts};
ghost use Rattle.nb_labrun.specs.Playing.{HasPlayed, InPlay, IsCleared, StepLeaves, TurnGathers, TurnLeaves};
ghost use Rattle.nb_labrun.specs.Shows.{LabRun};

use crate::Status;
use crate::delivering::deliver;
use crate::start::feed_start;
use nb_client::{Client, Turn};
use nb_lab::{Coming, Lab, Summary};
use nb_record::{Front, InRec, Log, NoMemory};
use nb_wire::Text;
use std::alloc::Global;

/// For how many bytes of the client's output room is made at first.
const ROOM: usize = 65_536;

/// How many milliseconds a TICK of the lab has.
const TICK: u16 = 250;

/// How a step of the client ended.
#[derive(Clone, Copy, Debug, PartialEq, Eq)]
pub enum StepEnd {
    /// The next record is waited for.
    Waits,
    /// The run is over.
    Over(Status),
}

/// A run that is over: its status, and its summary.
#[derive(Drop)]
pub struct Played {
    pub status: Status,
    pub text: Text,
}

/// A client that has used START, and how its step ended.
#[derive(Drop)]
struct Begun {
    client: Client,
    end: StepEnd,
}

/// The end of a step with which the run ended, or out of memory.
fn over(status: Status) -> Result<StepEnd, NoMemory>
    ensures leaves { IfOk result (λ end. (st : Stage) → TurnLeaves (turns.Over status) st → StepLeaves end st) }
    ensures memory { OnOk result (status ≡ statuses.NoMemory → ⊥) }
{
    match status {
        Status::NoMemory => Err(NoMemory),
        other => Ok(StepEnd::Over(other)),
    }
}

/// Goes on from the first turn of a step to its end, and delivers what each turn put.
fn end_step(
    first: Turn,
    client: &mut Client,
    log: &mut Log,
    lab: &mut Lab,
    summary: &mut Summary,
) -> Result<StepEnd, NoMemory>
    requires { TurnLeaves first client.old.stage }
    ensures leaves { IfOk result (λ end. StepLeaves end client.new.stage) }
    ensures cleared { OnOk result (IsCleared log.new) }
    ensures plays { OnOk result ((images used : ℕ) → TurnGathers first images used log.old lab.old summary.old client.old
        → InPlay images used lab.new summary.new client.new) }
{
    let mut turn = first;
    'moves: loop {
        deliver(log, lab, summary)?;
        match turn {
            Turn::More => turn = client.more(log),
            Turn::Waiting => return Ok(StepEnd::Waits),
            Turn::Yielded => return Ok(StepEnd::Waits),
            Turn::Over(status) => return over(status),
        }
    }
}

/// Gives the client what has come from the lab.
fn step(client: &mut Client, come: Coming, lab: &Lab, log: &mut Log) -> Turn
    requires valid { IsIn (coming_record come lab.now) }
    requires waits { AwaitsRecord client.old.stage }
    requires few { client.old.used < 2 ^ 32 - 1 }
    ensures { TurnsBy result (coming_record come lab.now ∷ []) client.old client.new log.old log.new }
{
    match come {
        Coming::Frame => client.step(&InRec::Frame(lab.frame()), log),
        Coming::Tick => client.step(&InRec::Tick(TICK), log),
    }
}

/// Uses the next record that comes from the lab, to the end of its step.
fn use_next(
    client: &mut Client,
    log: &mut Log,
    lab: &mut Lab,
    summary: &mut Summary,
) -> Result<StepEnd, NoMemory>
    requires waits { AwaitsRecord client.old.stage }
    requires few { client.old.used < 2 ^ 32 - 1 }
    requires cleared { IsCleared log.old }
    ensures leaves { IfOk result (λ end. StepLeaves end client.new.stage) }
    ensures cleared { OnOk result (IsCleared log.new) }
    ensures plays { OnOk result ((images used : ℕ) → InPlay images used lab.old summary.old client.old
        → InPlay images (used + 1) lab.new summary.new client.new) }
{
    let come = lab.advance();
    summary.count_input();
    let turn = step(client, come, lab, log);
    end_step(turn, client, log, lab, summary)
}

/// Makes a client for this START, and uses it.
fn enter(
    alloc: Global,
    entry: &InRec<'_>,
    log: &mut Log,
    lab: &mut Lab,
    summary: &mut Summary,
) -> Result<Begun, NoMemory>
    requires start { in_of entry.now ≡ start (lab_start lab.old.server.images) }
    requires valid { IsStart (lab_start lab.old.server.images) }
    requires few { lab.old.server.images ≤ 64 }
    requires fresh { lab.old ≡ new_lab lab.old.server.images }
    requires cleared { IsCleared log.old }
    ensures leaves { IfOk result (λ begun. StepLeaves begun.end begun.client.stage) }
    ensures cleared { OnOk result (IsCleared log.new) }
    ensures plays { IfOk result (λ begun. Counts summary.old [] [] → summary.old.images ≡ lab.old.server.images
        → InPlay lab.old.server.images 1 lab.new summary.new begun.client) }
{
    let InRec::Start(record) = entry else {
        unreachable!()
    };
    let mut client = Client::new(alloc, &record.fields())?;
    summary.count_input();
    let turn = client.step(entry, log);
    let end = end_step(turn, &mut client, log, lab, summary)?;
    Ok(Begun { client, end })
}

/// Makes a client for the lab's START, and uses it.
fn begin(
    alloc: Global,
    log: &mut Log,
    lab: &mut Lab,
    summary: &mut Summary,
) -> Result<Begun, NoMemory>
    requires few { lab.old.server.images ≤ 64 }
    requires fresh { lab.old ≡ new_lab lab.old.server.images }
    requires cleared { IsCleared log.old }
    ensures leaves { IfOk result (λ begun. StepLeaves begun.end begun.client.stage) }
    ensures cleared { OnOk result (IsCleared log.new) }
    ensures plays { IfOk result (λ begun. Counts summary.old [] [] → summary.old.images ≡ lab.old.server.images
        → InPlay lab.old.server.images 1 lab.new summary.new begun.client) }
{
    let feed = feed_start(alloc, lab)?;
    match feed.front() {
        Front::Whole(entry, _) => enter(alloc, &entry, log, lab, summary),
        Front::Partial => unreachable!(),
        Front::Broken(_) => unreachable!(),
    }
}

/// Uses record after record, until the run is over.
fn serve(
    begun: &mut Begun,
    log: &mut Log,
    lab: &mut Lab,
    summary: &mut Summary,
) -> Result<Status, NoMemory>
    requires leaves { StepLeaves begun.old.end begun.old.client.stage }
    requires cleared { IsCleared log.old }
    requires plays { InPlay summary.old.images 1 lab.old summary.old begun.old.client }
    ensures cleared { OnOk result (IsCleared log.new) }
    ensures played { IfOk result (λ status. HasPlayed status summary.old.images lab.new summary.new begun.new.client) }
{
    if let StepEnd::Over(status) = begun.end {
        return Ok(status);
    }
    let mut used: u32 = 1;
    'records: while used < u32::MAX {
        match use_next(&mut begun.client, log, lab, summary)? {
            StepEnd::Waits => used += 1,
            StepEnd::Over(status) => return Ok(status),
        }
    }
    Ok(Status::TooManyRecords)
}

/// Ends a run, and sums it up.
fn end(
    alloc: Global,
    status: Status,
    client: &mut Client,
    log: &mut Log,
    lab: &mut Lab,
    summary: &mut Summary,
) -> Result<Text, NoMemory>
    requires cleared { IsCleared log.old }
    requires played { HasPlayed status summary.old.images lab.old summary.old client.old }
    ensures { IfOk result (LabRun summary.old.images status) }
{
    client.finish(status, log)?;
    deliver(log, lab, summary)?;
    summary.text(alloc, status.number())
}

/// Plays the run over so many images to its end.
pub fn play(alloc: Global, images: u8) -> Result<Played, NoMemory>
    requires { images ≤ 64 }
    ensures { IfOk result (λ played. LabRun images played.status played.text) }
{
    let mut lab = Lab::new(alloc, images)?;
    let mut log = Log::new(alloc, ROOM)?;
    let mut summary = Summary::new(images);
    let mut begun = begin(alloc, &mut log, &mut lab, &mut summary)?;
    let status = serve(&mut begun, &mut log, &mut lab, &mut summary)?;
    let text = end(
        alloc,
        status,
        &mut begun.client,
        &mut log,
        &mut lab,
        &mut summary,
    )?;
    Ok(Played { status, text })
}
