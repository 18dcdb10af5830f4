ghost use Rattle.std.specs.Prelude.{◌≡◌, [], false, IfOk, OnErr, OnOk};
ghost use Rattle.nb_defs.specs.Records.{IsStart};
ghost use Rattle.nb_record.specs.Logged.{Puts};
ghost use Rattle.nb_record.specs.View.{start_of};
ghost use Rattle.nb_runner.specs.World.{bare_world};
ghost use Rattle.nb_network.specs.Many.{most_objects};
ghost use Rattle.nb_client.specs.Soundness.{IsClean};

use nb_network::Opens;
use nb_record::{Log, NoMemory, Start};
use nb_runner::World;
use nb_teller::Desk;
use std::alloc::Global;

/// The bytes of records for which a step has room before it takes memory.
const ROOM: usize = 4096;

/// What a client works on, beside where its run stands.
#[derive(Drop)]
pub struct Site {
    pub(crate) alloc: Global,
    /// How many records were used.
    pub(crate) used: u32,
    pub(crate) world: World,
    /// The opens that live.
    pub(crate) opens: Opens,
    /// What the next step works on; None before the first, and while it is lent to one.
    pub(crate) desk: Option<Desk>,
    /// Where the records of a step are gathered until nothing can fail any more; None before, and while it is lent.
    pub(crate) gathered: Option<Log>,
}

impl Site {
    /// Before any record.
    pub(crate) fn new(alloc: Global, start: &Start<'_>) -> Result<Site, NoMemory>
        requires { IsStart (start_of start.now) }
        ensures used { IfOk result (λ c. c.used ≡ 0) }
        ensures world { IfOk result (λ c. c.world ≡ bare_world (start_of start.now)) }
        ensures list { IfOk result (λ c. c.opens.list ≡ []) }
        ensures made { IfOk result (λ c. c.opens.graph.book.made ≡ 0) }
        ensures objects { IfOk result (λ c. c.opens.graph.book.objects ≡ []) }
        ensures room { IfOk result (λ c. c.opens.graph.book.room ≡ most_objects) }
    {
        Ok(Site {
            alloc,
            used: 0,
            world: World::bare(alloc, start),
            opens: Opens::new(alloc)?,
            desk: None,
            gathered: None,
        })
    }

    /// Puts what was gathered. An error where memory ran out.
    pub(crate) fn put_gathered(&mut self, out: Log, log: &mut Log) -> Result<(), NoMemory>
        ensures puts { OnOk result (Puts log.old log.new out.bytes) }
        ensures whole { OnOk result (out.is_short ≡ false) }
        ensures nothing { OnErr result (log.new ≡ log.old) }
        ensures used { self.new.used ≡ self.old.used }
        ensures world { self.new.world ≡ self.old.world }
        ensures opens { self.new.opens ≡ self.old.opens }
    {
        if out.short() {
            return Err(NoMemory);
        }
        log.append(&out);
        self.gathered = Some(out);
        Ok(())
    }
}

/// An empty log: the one that was kept, or a new one.
pub(crate) fn lent_log(alloc: Global, kept: Option<Log>) -> Result<Log, NoMemory>
    ensures { IfOk result IsClean }
{
    match kept {
        Some(log) => cleared(alloc, log),
        None => Log::new(alloc, ROOM),
    }
}

/// A log that was kept, without its records; a new one where that ran short.
fn cleared(alloc: Global, mut log: Log) -> Result<Log, NoMemory>
    ensures { IfOk result IsClean }
{
    if log.short() {
        return Log::new(alloc, ROOM);
    }
    log.clear();
    Ok(log)
}
