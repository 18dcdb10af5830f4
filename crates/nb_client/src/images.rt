//! A command on images: it asks for a file, or is over at once.

ghost use Rattle.std.specs.Prelude.{◌≡◌, Ok, IfOk, OnErr};
ghost use Rattle.nb_command.specs.Planning.{planned};
ghost use Rattle.nb_command.specs.declared.command_plan.CommandPlan.TheVariants as plan;
ghost use Rattle.nb_image.specs.Images.{ImageList};
ghost use Rattle.nb_runner.specs.ImageDeeds.{HasShortArgs, IsConcludedWell};
ghost use Rattle.nb_runner.specs.NextCommand.{HasCommand, IsReady};
ghost use Rattle.nb_runner.specs.declared.world.World.{World as TheWorld};
ghost use Rattle.nb_client.specs.Leading.{ConcludesNow};
ghost use Rattle.nb_client.specs.Snapshots.{snapshot};
ghost use Rattle.nb_client.specs.Soundness.{IsSound, snapshot_at};
ghost use Rattle.nb_client.specs.Turning.{MovesOn};
ghost use Rattle.nb_client.specs.declared.stage.Stage.TheVariants as stage;

use crate::Stage;
use crate::site::{Site, lent_log};
use nb_imagecmd::ImageCommand;
use nb_record::{Log, NoMemory};
use nb_runner::{Conclusion, ImageDeed, RunningScript};
use nb_wire::Word;

impl Site {
    /// Does a command on images.
    pub(crate) fn do_images(
        &mut self,
        script: RunningScript,
        words: &[Word],
        command: &ImageCommand,
        log: &mut Log,
    ) -> Result<Stage, NoMemory>
        requires sound { IsSound self.old.used self.old.world self.old.opens (stage.Running script) }
        requires words { HasCommand script self.old.world.state.table words.now }
        requires value { planned words.now ≡ Ok (plan.Images command.now) }
        requires args { HasShortArgs command.now }
        ensures moves { IfOk result (λ st. MovesOn (snapshot_at self.old (stage.Running script)) (snapshot_at self.new st) log.old log.new) }
        ensures nothing { OnErr result (log.new ≡ log.old) }
    {
        let depth = usize::from(script.depth());
        let deed = self
            .world
            .do_images(self.alloc, command, script.base(), depth)?;
        match deed {
            ImageDeed::Intends(intent) => self.intend(script, words, intent, log),
            ImageDeed::Concludes(conclusion) => {
                self.conclude_there(script, words, conclusion, log)
            }
        }
    }

    /// A command that waits for nothing is put, and what comes of it.
    fn conclude_there(
        &mut self,
        mut script: RunningScript,
        words: &[Word],
        conclusion: Conclusion,
        log: &mut Log,
    ) -> Result<Stage, NoMemory>
        requires sound { IsSound self.old.used self.old.world self.old.opens (stage.Running script) }
        requires words { IsReady script words.now }
        requires well { (before : ImageList) × IsConcludedWell conclusion script.depth before self.old.world.state.images }
        ensures moves { IfOk result (λ st. (w : TheWorld) → ConcludesNow w conclusion script words.now self.old.world
            → MovesOn (snapshot self.old.used w self.old.opens (stage.Running script)) (snapshot_at self.new st) log.old log.new) }
        ensures nothing { OnErr result (log.new ≡ log.old) }
    {
        let mut out = lent_log(self.alloc, self.gathered.take())?;
        script.put_begun(true, words, &mut out);
        script.enter();
        let stage = self.lead(script, conclusion, &mut out)?;
        self.put_gathered(out, log)?;
        Ok(stage)
    }
}
