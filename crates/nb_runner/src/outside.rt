ghost use Rattle.std.specs.Prelude.{◌≡◌, ◌∷◌, [], OnOk};
ghost use Rattle.nb_runner.specs.Steps.{IsPopped};

use crate::RunningScript;
use nb_record::NoMemory;
use std::alloc::Global;
use std::collections::VecDeque;
use std::marker::Model;

/// The scripts outside the one that runs, the innermost first: each waits for the one within it.
#[derive(Drop)]
pub struct OuterScripts {
    scripts: VecDeque<RunningScript>,
}

impl Model for OuterScripts {
    ghost use Rattle.std.specs.Prelude.{List};
    ghost use Rattle.nb_machine.specs.Running.{Running};

    ghost Value = { List Running };

    ghost view = { λ o. o.scripts.items };
}

impl OuterScripts {
    /// None is outside.
    pub fn new(alloc: Global) -> OuterScripts
        ensures { result ≡ [] }
    {
        OuterScripts {
            scripts: VecDeque::new(alloc),
        }
    }

    /// One more, which is the innermost of them.
    pub fn push(&mut self, script: RunningScript) -> Result<(), NoMemory>
        ensures { OnOk result (self.new ≡ script ∷ self.old) }
    {
        self.scripts.push_front(script)?;
        Ok(())
    }

    /// The innermost of them, which is no longer outside.
    pub fn pop(&mut self) -> Option<RunningScript>
        ensures { IsPopped result self.old self.new }
    {
        self.scripts.pop_front()
    }
}
