//! How long a server waits for an acknowledgement.

ghost use Rattle.std.specs.Prelude.{◌≡◌, ◌+◌, nat_le, if◌then◌else◌};

/// How many TICKs pass without an acknowledgement until what was sent last is sent again.
const PATIENCE: u8 = 3;

/// How many TICKs have passed since something was sent that isn't acknowledged.
#[derive(Clone, Copy, Debug)]
pub struct Silence {
    pub ticks: u8,
}

impl Silence {
    /// Something was sent just now.
    pub fn new() -> Silence
        ensures { result ≡ record { ticks = 0 } }
    {
        Silence { ticks: 0 }
    }

    /// A TICK passes: whether it is to be sent again.
    pub fn tick(&mut self) -> bool
        ensures again { result ≡ nat_le 3 (self.old.ticks + 1) }
        ensures counted { self.new.ticks ≡ (if nat_le 3 (self.old.ticks + 1) then 0 else self.old.ticks + 1) }
    {
        if self.ticks < PATIENCE - 1 {
            self.ticks += 1;
            return false;
        }
        self.ticks = 0;
        true
    }
}
