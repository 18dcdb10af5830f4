ghost use Rattle.std.specs.Prelude.{◌≡◌, ◌+◌, ◌-◌, ◌<◌, ◌^◌, [], ◌∷◌, IfOk, OnErr};
ghost use Rattle.nb_defs.specs.Records.{IsStart, enter, leave, out_texts, step};
ghost use Rattle.nb_defs.specs.Records as defs;
ghost use Rattle.nb_record.specs.Logged.{Puts};
ghost use Rattle.nb_record.specs.View.{start_of};
ghost use Rattle.nb_client.specs.Soundness.{IsSound, snapshot_at};
ghost use Rattle.nb_client.specs.Turning.{GoesOnBy};
ghost use Rattle.nb_client.specs.declared.stage.Stage.TheVariants as stage;

use crate::Stage;
use crate::nesting::{put_enter, put_leave};
use crate::site::Site;
use nb_record::{Log, NoMemory, Start};
use nb_runner::{Unread, World, read_script};
use nb_teller::put_step;

/// Puts that the step of this record begins, and that the first script is entered.
fn put_entered(number: u32, log: &mut Log)
    ensures { Puts log.old log.new (out_texts (step number ∷ enter 1 ∷ [])) }
{
    put_step(number, log);
    put_enter(1, log);
}

impl Site {
    /// Enters the first script; where its text doesn't run, it is left at once.
    #[inline(never)]
    pub(crate) fn start(&mut self, start: &Start<'_>, log: &mut Log) -> Result<Stage, NoMemory>
        requires valid { IsStart (start_of start.now) }
        requires few { self.old.used < 2 ^ 32 - 1 }
        requires sound { IsSound self.old.used self.old.world self.old.opens stage.Ready }
        ensures goes { IfOk result (λ st. GoesOnBy (defs.start (start_of start.now) ∷ []) (snapshot_at self.old stage.Ready)
            (snapshot_at self.new st) log.old log.new) }
        ensures nothing { OnErr result (log.new ≡ log.old) }
    {
        let world = World::of(self.alloc, start)?;
        match read_script(self.alloc, start.script) {
            Ok(script) => {
                self.enter(world);
                put_entered(self.used, log);
                Ok(Stage::Running(script))
            }
            Err(Unread::Refused(cause)) => {
                self.enter(world);
                put_entered(self.used, log);
                put_leave(1, cause, log);
                Ok(Stage::Left(cause))
            }
            Err(Unread::NoMemory) => Err(NoMemory),
        }
    }

    /// The first record is used, and the run begins in this world.
    fn enter(&mut self, world: World)
        requires { self.old.used < 2 ^ 32 - 1 }
        ensures used { self.new.used ≡ self.old.used + 1 }
        ensures world { self.new.world ≡ world }
        ensures opens { self.new.opens ≡ self.old.opens }
    {
        self.used += 1;
        self.world = world;
    }
}
