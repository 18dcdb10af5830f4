ghost use Rattle.std.specs.Prelude.{◌≡◌, []};

use crate::spelled::Spelled;
use nb_record::NoMemory;
use nb_wire::Out;
use std::alloc::Global;

/// The most bytes of a frame, its check sequence left out.
const MAX_FRAME: usize = 1522;

/// Where frames are put together, one after another. What stands there of earlier ones means nothing.
#[derive(Drop)]
pub struct Room {
    bytes: [u8; MAX_FRAME],
}

/// What a client works on: what the graph told, spelled, and the room for its frames. It is made once, and lent to
/// each record's step.
#[derive(Drop)]
pub struct Desk {
    /// Where its frames are put together.
    pub room: Box<Room>,
    /// What was told of objects that were made.
    pub made: Box<Spelled>,
    /// What was told since.
    pub told: Box<Spelled>,
    /// What was told of what was let go after the end of an open.
    pub freed: Box<Spelled>,
}

impl Room {
    /// An empty writer over the whole room.
    pub fn out(&mut self) -> Out<'_>
        ensures empty { result.written ≡ [] }
        ensures room { result.left ≡ 1522 }
    {
        Out::new(&mut self.bytes)
    }
}

impl Desk {
    /// A new one. That is done once in a run, and stands apart.
    #[inline(never)]
    fn new(alloc: Global) -> Result<Desk, NoMemory> {
        let room = Room {
            bytes: [0; MAX_FRAME],
        };
        Ok(Desk {
            room: Box::new(alloc, room)?,
            made: Spelled::boxed(alloc)?,
            told: Spelled::boxed(alloc)?,
            freed: Spelled::boxed(alloc)?,
        })
    }
}

/// The desk that was kept, or a new one.
#[inline(always)]
pub fn lent(alloc: Global, kept: Option<Desk>) -> Result<Desk, NoMemory> {
    match kept {
        Some(desk) => Ok(desk),
        None => {
            let desk = Desk::new(alloc)?;
            Ok(desk)
        }
    }
}
