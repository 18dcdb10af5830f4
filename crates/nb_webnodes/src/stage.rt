//! How far a fetch is.

ghost use Rattle.std.specs.Prelude.{◌≡◌, if◌then◌else◌};
ghost use Rattle.nb_webnodes.specs.declared.stage.WebStage.TheVariants as stage;
ghost use Rattle.nb_webnodes.specs.WebTalks.{stage_is_ended};

use nb_http::Http;

/// How far a fetch is.
#[derive(Drop)]
pub(crate) enum WebStage {
    /// Nothing is asked for yet.
    Unasked,
    /// The request was sent, and its response is read.
    Fetching(Http),
    /// The response is decided, or a port was closed before.
    Ended,
}

impl WebStage {
    pub(crate) fn is_ended(&self) -> bool
        ensures { result ≡ stage_is_ended self.now }
    {
        match self {
            WebStage::Unasked => false,
            WebStage::Fetching(_) => false,
            WebStage::Ended => true,
        }
    }

    /// It has ended where the response is decided.
    pub(crate) fn end_if(&mut self, is_decided: bool)
        ensures { self.new ≡ (if is_decided then stage.Ended else self.old) }
    {
        if is_decided {
            *self = WebStage::Ended;
        }
    }
}
