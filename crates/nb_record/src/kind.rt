ghost use Rattle.std.specs.Prelude.{◌≡◌};
ghost use Rattle.nb_record.specs.Reading.{record_type, least_length, greatest_length};

/// The kinds of input records.
#[derive(Clone, Copy)]
pub enum Kind {
    Start,
    Frame,
    Tick,
    Off,
}

impl Kind {
    /// The type byte.
    pub fn number(self) -> u8
        ensures { result ≡ record_type self }
    {
        match self {
            Kind::Start => 1,
            Kind::Frame => 2,
            Kind::Tick => 3,
            Kind::Off => 4,
        }
    }

    /// The least length, which counts type and body.
    pub fn least_length(self) -> u32
        ensures { result ≡ least_length self }
    {
        match self {
            Kind::Start => 76,
            Kind::Frame => 15,
            Kind::Tick => 3,
            Kind::Off => 1,
        }
    }

    /// The greatest length, which counts type and body.
    pub fn greatest_length(self) -> u32
        ensures { result ≡ greatest_length self }
    {
        match self {
            Kind::Start => 131_072,
            Kind::Frame => 1523,
            Kind::Tick => 3,
            Kind::Off => 1,
        }
    }
}
