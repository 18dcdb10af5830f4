//! What becomes of a frame on its way to the client.

ghost use Rattle.std.specs.Prelude.{◌≡◌};
ghost use Rattle.nb_lab.specs.Fates.{fate};

/// What becomes of the servers' frame of a number, counted from 1.
#[derive(Clone, Copy, Debug, PartialEq, Eq)]
pub enum Fate {
    /// It is lost.
    Lost,
    /// It comes at once, once or twice.
    OnTime { twice: bool },
    /// It comes after the next frame that isn't lost, once or twice.
    Late { twice: bool },
}

impl Fate {
    /// The fate of a frame by its number.
    #[tactic(auto, unfolding(crate::specs::Fates::fate))]
    pub fn of(number: u16) -> Fate
        ensures { result ≡ fate number }
    {
        let twice = number % 11 == 0;
        if number % 7 == 0 {
            Fate::Lost
        } else if number % 13 == 0 {
            Fate::Late { twice }
        } else {
            Fate::OnTime { twice }
        }
    }
}
