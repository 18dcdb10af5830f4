//! What a disk is at.

ghost use Rattle.std.specs.Prelude.{◌≡◌};
ghost use Rattle.nb_disk.specs.Steps.{work_is_over, work_capacity, has_work};

/// The command at work, and what is known of the disk.
#[derive(Clone, Copy)]
pub(crate) enum Work {
    /// TEST UNIT READY, after so many check conditions.
    Testing(u8),
    /// READ CAPACITY.
    Sizing,
    /// None, on a disk of so many blocks.
    Idle(u32),
    /// A read on such a disk, of so many bytes, of which so many have come.
    Reading { capacity: u32, asked: u16, got: u16 },
    /// None any more.
    Over(Option<u32>),
}

impl Work {
    pub(crate) fn is_over(self) -> bool
        ensures { result ≡ work_is_over self }
    {
        matches!(self, Work::Over(_))
    }

    /// Whether a command is at work.
    pub(crate) fn has_task(self) -> bool
        ensures { result ≡ has_work self }
    {
        match self {
            Work::Testing(_) => true,
            Work::Sizing => true,
            Work::Reading {
                capacity: _,
                asked: _,
                got: _,
            } => true,
            Work::Idle(_) => false,
            Work::Over(_) => false,
        }
    }

    /// The number of blocks, once it is known.
    pub(crate) fn capacity(self) -> Option<u32>
        ensures { result ≡ work_capacity self }
    {
        match self {
            Work::Testing(_) => None,
            Work::Sizing => None,
            Work::Idle(capacity) => Some(capacity),
            Work::Reading {
                capacity,
                asked: _,
                got: _,
            } => Some(capacity),
            Work::Over(capacity) => capacity,
        }
    }
}
