//! Scripts within one another: one is run within the one that runs or in its place, and is left.

ghost use Rattle.std.specs.Prelude.{◌≡◌, ◌+◌, ◌<◌, ◌≤◌, [], ◌∷◌, false, IfOk};
ghost use Rattle.nb_defs.specs.Records.{enter, leave, out_texts};
ghost use Rattle.nb_record.specs.Logged.{Puts};
ghost use Rattle.nb_scripts.specs.Records.{replace};
ghost use Rattle.nb_client.specs.Leading.{RunsBy, RunsTextWithin, RunsTextInPlace};
ghost use Rattle.nb_client.specs.Turning.{IsLeftAt};

use crate::Stage;
use crate::site::Site;
use nb_imagecmd::ScriptImage;
use nb_record::{Cause, Log, NoMemory, OutRec};
use nb_runner::RunningScript;
use nb_scripts::{TextRead, read_text};
use nb_teller::put_result;
use nb_terms::Plain;
use nb_wire::Text;

/// Puts that a script is entered at this depth.
pub(crate) fn put_enter(depth: u8, log: &mut Log)
    ensures { Puts log.old log.new (out_texts (enter depth ∷ [])) }
{
    log.put(&OutRec::Script {
        what: 0,
        depth,
        cause: Plain::Ok.cause(),
    });
}

/// Puts that the script of this depth is left.
pub(crate) fn put_leave(depth: u8, cause: Cause, log: &mut Log)
    ensures { Puts log.old log.new (out_texts (leave depth cause ∷ [])) }
{
    log.put(&OutRec::Script {
        what: 1,
        depth,
        cause,
    });
}

/// Puts that another script runs at this depth.
fn put_replace(depth: u8, log: &mut Log)
    ensures { Puts log.old log.new (out_texts (replace depth ∷ [])) }
{
    log.put(&OutRec::Script {
        what: 2,
        depth,
        cause: Plain::Ok.cause(),
    });
}

impl Site {
    /// A script runs within the one that runs, or takes its place, which gives its command the result Ok.
    pub(crate) fn run(
        &mut self,
        script: RunningScript,
        image: ScriptImage,
        replace: bool,
        out: &mut Log,
    ) -> Result<Stage, NoMemory>
        requires { replace ≡ false → script.depth < 8 }
        ensures { IfOk result (λ st. RunsBy script image replace self.old self.new st out.old out.new) }
    {
        let ScriptImage { text, uri } = image;
        let read = read_text(self.alloc, text)?;
        if replace {
            put_result(Plain::Ok.cause(), out);
            self.run_in_place(&script, read, uri, out)
        } else {
            self.run_within(script, read, uri, out)
        }
    }

    /// A text runs within this script; where it can't, the script's command has the cause.
    fn run_within(
        &mut self,
        script: RunningScript,
        read: TextRead,
        uri: Text,
        out: &mut Log,
    ) -> Result<Stage, NoMemory>
        requires { script.depth < 8 }
        ensures { IfOk result (λ st. RunsTextWithin script read uri self.old self.new st out.old out.new) }
    {
        let depth = script.depth() + 1;
        put_enter(depth, out);
        match read {
            TextRead::Runs(code) => {
                let inner = script.within(self.alloc, code, uri)?;
                self.world.outer.push(script)?;
                Ok(Stage::Running(inner))
            }
            TextRead::Refused(cause) => {
                put_leave(depth, cause, out);
                Ok(Stage::Returning(script, cause))
            }
        }
    }

    /// A text runs in place of this script; where it can't, that is left with the cause.
    fn run_in_place(
        &mut self,
        script: &RunningScript,
        read: TextRead,
        uri: Text,
        out: &mut Log,
    ) -> Result<Stage, NoMemory>
        ensures { IfOk result (λ st. RunsTextInPlace script.now read uri self.old self.new st out.old out.new) }
    {
        put_replace(script.depth(), out);
        match read {
            TextRead::Runs(code) => Ok(Stage::Running(script.in_place(self.alloc, code, uri)?)),
            TextRead::Refused(cause) => {
                put_leave(script.depth(), cause, out);
                Ok(self.leave(script.commands(), cause))
            }
        }
    }

    /// A script was left with this cause, in which so many commands began: where it ran within another, that has the cause.
    pub(crate) fn leave(&mut self, commands: u16, cause: Cause) -> Stage
        requires { commands ≤ 4096 }
        ensures { IsLeftAt commands cause self.old result self.new }
    {
        match self.world.outer.pop() {
            Some(mut script) => {
                script.count_on(commands);
                Stage::Returning(script, cause)
            }
            None => Stage::Left(cause),
        }
    }
}
