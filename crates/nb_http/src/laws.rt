//! Laws of the core over whole streams, each a function that does nothing.

ghost use Rattle.nb_http.specs.Runs.{CuttingChangesNothing, CuttingChangesNoEnd};
ghost use Rattle.nb_http.specs.Runs.{GivesTheBeginning, EndsAsTheResponse, GoesOnTillDecided, FinishesAsTheResponse};

/// Where a stream is cut changes nothing: two cores that took the same bytes, in whatever pieces, have
/// given the same bytes of the body and have ended alike, and the stream's end ends them alike.
pub fn cutting_changes_nothing()
    ensures bytes { CuttingChangesNothing }
    ensures ends { CuttingChangesNoEnd }
{}

/// A core that took a stream, in whatever pieces, against the response that the stream is read as: it
/// has given the beginning of its body; it ends exactly when the response is decided, with all of the
/// body and the response's cause; and so it does at the stream's end.
pub fn streams_are_read_as_responses()
    ensures beginning { GivesTheBeginning }
    ensures ends { EndsAsTheResponse }
    ensures goes_on { GoesOnTillDecided }
    ensures finishes { FinishesAsTheResponse }
{}
