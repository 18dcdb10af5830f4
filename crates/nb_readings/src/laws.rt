//! Laws of the reading of a stream, each a function that does nothing.

ghost use Rattle.nb_readings.specs.ReadingLaws.{IsTheReading, IsTheChunkedReading, IsReadFromTheFirst, IsReadByChunks, ReadDecidedStays, ReadBodyGoesOn};
ghost use Rattle.nb_readings.specs.Ends.{EndsWellWhereWhole};

/// The function of a stream is what the relation says, and nothing else is.
pub fn one_reading()
    ensures stream { IsTheReading }
    ensures chunks { IsTheChunkedReading }
{}

/// A stream is read from its first byte on: these equations leave one reading.
pub fn read_from_the_first()
    ensures heads { IsReadFromTheFirst }
    ensures chunks { IsReadByChunks }
{}

/// A response that is decided stays as it is, whatever follows: the least prefix that decides it is enough.
pub fn decided_stays()
    ensures { ReadDecidedStays }
{}

/// The body of a longer stream begins with that of the shorter one.
pub fn body_goes_on()
    ensures { ReadBodyGoesOn }
{}

/// The end is Ok exactly where the response is whole: a body or a move.
pub fn ends_well_where_whole()
    ensures { EndsWellWhereWhole }
{}
