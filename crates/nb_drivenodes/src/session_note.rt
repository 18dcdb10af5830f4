ghost use Rattle.std.specs.Prelude.{◌≡◌, IfOk};
ghost use Rattle.nb_drivenodes.specs.SessionNotes.{note_in, note_bytes, note_of};

use nb_login::Session;
use nb_terms::NoMemory;
use nb_wire::Text;
use std::alloc::Global;

/// What a session's user needs of it, as the bytes of the message that it is open: the unit, the number of the next
/// command, and the tag of the next task, each with its high byte first.
#[derive(Clone, Copy, Debug, PartialEq, Eq)]
pub struct SessionNote {
    pub lun: [u8; 8],
    pub cmd_sn: u32,
    pub task: u32,
}

impl SessionNote {
    /// What these bytes say. None where they aren't 16.
    pub fn read(bytes: &[u8]) -> Option<SessionNote>
        ensures { result ≡ note_in bytes.now }
    {
        match bytes {
            [
                l0,
                l1,
                l2,
                l3,
                l4,
                l5,
                l6,
                l7,
                n0,
                n1,
                n2,
                n3,
                t0,
                t1,
                t2,
                t3,
            ] => Some(SessionNote {
                lun: [*l0, *l1, *l2, *l3, *l4, *l5, *l6, *l7],
                cmd_sn: u32::from_be_bytes([*n0, *n1, *n2, *n3]),
                task: u32::from_be_bytes([*t0, *t1, *t2, *t3]),
            }),
            _ => None,
        }
    }

    /// The bytes that say this.
    pub fn bytes(&self) -> [u8; 16]
        ensures value { result ≡ note_bytes self.now }
    {
        let [l0, l1, l2, l3, l4, l5, l6, l7] = self.lun;
        let [n0, n1, n2, n3] = self.cmd_sn.to_be_bytes();
        let [t0, t1, t2, t3] = self.task.to_be_bytes();
        [
            l0, l1, l2, l3, l4, l5, l6, l7, n0, n1, n2, n3, t0, t1, t2, t3,
        ]
    }
}

/// The text that says it of an open session.
pub(crate) fn note_text(alloc: Global, session: &Session) -> Result<Text, NoMemory>
    ensures { IfOk result (λ text. text ≡ note_bytes (note_of session.now)) }
{
    let note = SessionNote {
        lun: session.info.lun,
        cmd_sn: session.cmd_sn,
        task: session.task,
    };
    Ok(Text::from_vec(Vec::from_slice(alloc, &note.bytes())?))
}
