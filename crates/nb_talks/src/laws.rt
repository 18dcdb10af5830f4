//! Laws of what is said on a connection, each a function that does nothing.

ghost use Rattle.nb_talks.specs.Talking.{AllIsSaid};
ghost use Rattle.nb_talks.specs.TalkPromises.{OneAnswer, SendWhatMayBe};

/// All that is to be said on a connection has been said, in order and once, whatever came; its tasks are of type T.
pub fn all_is_said<T>()
    ensures { AllIsSaid T }
{}

/// What comes to an open on a connection leaves one answer, and all that it sends it may send.
pub fn talks_keep_to_what_came<T>()
    ensures one { OneAnswer T }
    ensures may { SendWhatMayBe T }
{}
