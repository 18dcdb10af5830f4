//! What a drive has answered.

ghost use Rattle.std.specs.Prelude.{◌≡◌};
ghost use Rattle.nb_drivechains.specs.DriveCalls.{drive_answer_in};

use nb_drivenodes::DriveTag;
use nb_graph::Msg;

/// What a drive's command has brought: how many blocks there are, and the kind of CHAP that the login used.
#[derive(Clone, Copy, Debug, PartialEq, Eq)]
pub struct DriveAnswer {
    pub blocks: u32,
    pub chap: u32,
}

impl DriveAnswer {
    /// What a message says that goes up from a unit. None where it isn't one of an answer.
    pub fn read(msg: &Msg<'_>) -> Option<DriveAnswer>
        ensures { result ≡ drive_answer_in msg.now.tag msg.now.a msg.now.b }
    {
        if msg.tag != u8::from(DriveTag::Answered) {
            return None;
        }
        Some(DriveAnswer {
            blocks: msg.a,
            chap: msg.b,
        })
    }
}
