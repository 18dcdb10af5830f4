ghost use Rattle.std.specs.Prelude.{◌≡◌, if◌then◌else◌};
ghost use Rattle.nb_nodes.specs.declared.stage.Stage.TheVariants as stage;
ghost use Rattle.nb_nodes.specs.Exchanges.{stage_is_waiting, stage_is_over};

/// How far an object is that asks and is answered.
#[derive(Drop)]
pub(crate) enum Stage<C> {
    /// Nothing is asked for yet.
    Waiting,
    /// Its core is asking.
    Running(C),
    /// The core has ended, or a port was closed before it began.
    Over,
}

impl<C> Stage<C> {
    pub(crate) fn is_waiting(&self) -> bool
        ensures { result ≡ stage_is_waiting self.now }
    {
        match self {
            Stage::Waiting => true,
            Stage::Running(_) => false,
            Stage::Over => false,
        }
    }

    pub(crate) fn is_over(&self) -> bool
        ensures { result ≡ stage_is_over self.now }
    {
        match self {
            Stage::Waiting => false,
            Stage::Running(_) => false,
            Stage::Over => true,
        }
    }
}

impl<C: Drop> Stage<C> {
    /// It is over where the core has ended.
    pub(crate) fn end_if(&mut self, has_ended: bool)
        ensures { self.new ≡ (if has_ended then stage.Over else self.old) }
    {
        if has_ended {
            *self = Stage::Over;
        }
    }
}
