//! The plans, each a list of delays.

ghost use Rattle.std.specs.Prelude.{◌≡◌};
ghost use Rattle.nb_retry.specs.Plans.{delays, first_try};

/// How long to wait after each try.
#[derive(Clone, Copy, Debug, PartialEq, Eq, Drop)]
pub enum Plan {
    /// 6 tries, the message's first sending among them.
    Common,
    /// 4 tries, the message's first sending among them.
    Dhcp,
    /// 4 probes of a quiet connection, the first of them one delay after the start.
    Probe,
}

impl Plan {
    /// The delays in milliseconds. After the last one the plan is over.
    pub fn delays(self) -> &'static [u64]
        ensures { result.now ≡ delays self }
    {
        match self {
            Plan::Common => &[250, 500, 1000, 2000, 4000, 8000],
            Plan::Dhcp => &[1000, 2000, 4000, 8000],
            Plan::Probe => &[15_000, 15_000, 15_000, 15_000, 15_000],
        }
    }

    /// The number of the try that is made at the start, 0 where none is.
    pub fn first_try(self) -> u8
        ensures { result ≡ first_try self }
    {
        match self {
            Plan::Common | Plan::Dhcp => 1,
            Plan::Probe => 0,
        }
    }
}
