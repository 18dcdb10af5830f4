//! Laws of opens that fetch by HTTP, each a function that does nothing.

ghost use Rattle.nb_webs.specs.Webs.{SaysItsRequestOnce, PutsByTheResponse, WholeResponsesEndWell};
ghost use Rattle.nb_webs.specs.Entries.{HonestResponsesAreTheirs, HonestBodiesAreFiles};
ghost use Rattle.nb_webs.specs.Stacks.{StacksKeepTheirPromise};

/// Its connection is given the request as it begins, and never anything else.
pub fn says_its_request_once()
    ensures { SaysItsRequestOnce }
{}

/// What a segment puts is one equation over all that came.
pub fn puts_by_the_response()
    ensures { PutsByTheResponse }
{}

/// An exchange ends it in Ok exactly where the response that has come is whole.
pub fn whole_responses_end_well()
    ensures { WholeResponsesEndWell }
{}

/// Of an honest server a response that is decided is that of its entry; a body is the file, byte for byte.
pub fn honest_responses_are_their_entries()
    ensures entry { HonestResponsesAreTheirs }
    ensures file { HonestBodiesAreFiles }
{}

/// A connection, a reader and what gathers the body, each taking a prefix of what the one below gave, together
/// end as the response of the stream does, with its body.
pub fn cores_keep_their_promise()
    ensures { StacksKeepTheirPromise }
{}
