ghost use Rattle.std.specs.Prelude.{◌≤◌, IfOk, IfSome, vec_len};

use nb_record::NoMemory;
use std::env::{Env, FillError};
use std::{env, io};

/// For how many bytes of a word there is room at first, where one isn't UTF-8.
const ROOM: usize = 4096;

/// The program's words, without its name.
#[derive(Drop)]
pub struct ProgramWords {
    /// U+FFFD stands for what isn't UTF-8. That makes no words valid or invalid, but no file or peer has such a name.
    pub texts: Vec<String>,
    /// The place, from 0, of the first word that isn't UTF-8.
    pub not_utf8: Option<usize>,
}

/// The program's words.
pub fn words<R: Env + AllocGlobal>(rt: &R) -> Result<ProgramWords, NoMemory> {
    match collected(rt) {
        Ok(texts) => Ok(ProgramWords {
            texts,
            not_utf8: None,
        }),
        Err(error) if error.kind() == io::ErrorKind::InvalidData => replaced(rt),
        Err(_) => Err(NoMemory),
    }
}

fn collected<R: Env + AllocGlobal>(rt: &R) -> io::Result<Vec<String>> {
    let mut words = Vec::new(rt.alloc());
    for word in env::args(rt)?.skip(1) {
        words.push(word)?;
    }
    Ok(words)
}

/// The words, of which one isn't UTF-8.
fn replaced<R: Env + AllocGlobal>(rt: &R) -> Result<ProgramWords, NoMemory> {
    let mut texts = Vec::new(rt.alloc());
    let mut not_utf8 = None;
    let mut room = vec![in rt.alloc(); 0u8; ROOM]?;
    for place in 0..usize::MAX {
        let Some(len) = fill(rt, place + 1, &mut room)? else {
            break;
        };
        let word = &room.as_slice()[..len];
        if not_utf8.is_none() && std::str::from_utf8(word).is_err() {
            not_utf8 = Some(place);
        }
        texts.push(String::from_utf8_lossy(rt.alloc(), word)?)?;
    }
    Ok(ProgramWords { texts, not_utf8 })
}

/// Copies the program's argument of a number to the start of the room, which grows where it must, and returns how many bytes
/// it has. None where there is no such argument.
fn fill<R: Env>(rt: &R, number: usize, room: &mut Vec<u8>) -> Result<Option<usize>, NoMemory>
    ensures { IfOk result (λ found. IfSome found (λ len. len ≤ vec_len room.new)) }
{
    for _ in 0..usize::BITS {
        match rt.arg(number, room.as_mut_slice()) {
            Ok(len) => return Ok(Some(len)),
            Err(FillError::NotPresent) => return Ok(None),
            Err(FillError::TooLong) => room.resize(room.len().saturating_mul(2), 0)?,
        }
    }
    Err(NoMemory)
}
