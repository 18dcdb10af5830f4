//! Laws of readings, each a function that does nothing.

ghost use Rattle.nb_responses.specs.ReadingLaws.{IsReadOnce, EachIsRead, DecidedStays, BodyGoesOn};
ghost use Rattle.nb_responses.specs.Requests.{EachIsOneRequest};

/// A stream is read as one response.
pub fn one_response()
    ensures { IsReadOnce }
{}

/// Each stream is read as a response, which may say that more is to come.
pub fn each_is_read()
    ensures { EachIsRead }
{}

/// A response that is decided stays as it is, whatever follows: the least prefix that decides it is enough.
pub fn decided_stays()
    ensures { DecidedStays }
{}

/// The body of a longer stream begins with that of the shorter one.
pub fn body_goes_on()
    ensures { BodyGoesOn }
{}

/// A request of visible texts is one request: a single GET, with nothing before or after it.
pub fn requests_are_single()
    ensures { EachIsOneRequest }
{}
