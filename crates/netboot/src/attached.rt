ghost use Rattle.std.specs.Prelude.{◌≡◌, ◌<◌, ◌≤◌, length, IfOk};

use crate::fault::{Fault, Part, Reason};
use crate::limit::longest_file;
use std::fs;
use std::fs::{Files, OpenFile};
use std::io::{Error, ErrorKind, Read, Write};
use std::net::{Net, OpenStream, Shutdown, TcpStream};
use std::os::unix::fs::MetadataExt;
use std::time::Duration;

/// What a line reads from and writes to.
#[derive(Drop)]
pub enum Attached<F, S> {
    /// Nothing yet.
    Nothing,
    /// A pair of open files, and how many bytes the output may still grow by.
    Files { input: F, output: F, room: u64 },
    /// A connected peer.
    Peer(S),
}

/// Whether a path names an open file, under whatever name.
fn names<R: Files>(rt: &R, path: &str, file: &R::File) -> bool {
    match (fs::metadata(rt, path), file.metadata()) {
        (Ok(a), Ok(b)) => a.dev() == b.dev() && a.ino() == b.ino(),
        _ => false,
    }
}

/// How many bytes an output that was just made may grow by. Pipes and devices have no end.
fn room<R: Files + AllocGlobal>(rt: &R, output: &R::File) -> u64 {
    match output.metadata() {
        Ok(about) if about.is_file() => longest_file(rt),
        _ => u64::MAX,
    }
}

/// Opens the input, and then makes the output, so that a missing input leaves the output as it is.
/// An output that is the input would lose it, and is refused.
pub fn open<R: Files + Net + AllocGlobal>(
    rt: &R,
    input: &str,
    output: &str,
) -> Result<Attached<R::File, R::Stream>, Fault> {
    let from = match fs::open(rt, input) {
        Ok(file) => file,
        Err(error) => return Err(Fault::system(Part::Input, error)),
    };
    if names(rt, output, &from) {
        return Err(Fault {
            part: Part::Output,
            reason: Reason::IsInput,
        });
    }
    match fs::create(rt, output) {
        Ok(to) => {
            let room = room(rt, &to);
            Ok(Attached::Files {
                input: from,
                output: to,
                room,
            })
        }
        Err(error) => Err(Fault::system(Part::Output, error)),
    }
}

/// Connects to a peer, by its host and port.
pub fn connect<R: Files + Net>(rt: &R, peer: &str) -> Result<Attached<R::File, R::Stream>, Fault> {
    match TcpStream::connect(rt, peer) {
        Ok(stream) => {
            // Small records go out at once; where that can't be set they go out a little later.
            let _ = stream.set_nodelay(true);
            Ok(Attached::Peer(stream))
        }
        Err(error) => Err(Fault::system(Part::Peer, error)),
    }
}

/// Reads from a part.
fn read_from<F: Read>(part: Part, input: &mut F, buf: &mut [u8]) -> Result<usize, Fault>
    ensures { IfOk result (λ n. n ≤ length buf.old) }
{
    match input.read(buf) {
        Ok(n) => Ok(n),
        Err(error) => Err(Fault::system(part, error)),
    }
}

/// Writes to a part. A write that takes nothing of a piece that isn't empty has failed.
pub fn write_to<F: Write>(part: Part, output: &mut F, buf: &[u8]) -> Result<usize, Fault>
    ensures within { IfOk result (λ n. n ≤ length buf.now) }
    ensures some { IfOk result (λ n. 0 < length buf.now → 0 < n) }
{
    match output.write(buf) {
        Ok(0) if !buf.is_empty() => Err(Fault {
            part,
            reason: Reason::TookNothing,
        }),
        Ok(n) => Ok(n),
        Err(error) => Err(Fault::system(part, error)),
    }
}

/// Writes to a file that may grow by so many bytes more, and says how many it took.
fn write_within<F: Write>(output: &mut F, room: &mut u64, buf: &[u8]) -> Result<usize, Fault>
    ensures within { IfOk result (λ n. n ≤ length buf.now) }
    ensures some { IfOk result (λ n. 0 < length buf.now → 0 < n) }
{
    let most = usize::try_from(*room).unwrap_or(usize::MAX).min(buf.len());
    if most == 0 && !buf.is_empty() {
        return Err(Fault::system(Part::Output, Error::from(ErrorKind::FileTooLarge)));
    }
    let taken = write_to(Part::Output, output, &buf[..most])?;
    *room = room.saturating_sub(taken as u64);
    Ok(taken)
}

impl<F: Read + Write, S: Read + Write + OpenStream> Attached<F, S> {
    /// Reads what comes next.
    pub fn read(&mut self, buf: &mut [u8]) -> Result<usize, Fault>
        ensures { IfOk result (λ n. n ≤ length buf.old) }
    {
        match self {
            Attached::Nothing => Err(Fault {
                part: Part::Input,
                reason: Reason::Unattached,
            }),
            Attached::Files { input, .. } => read_from(Part::Input, input, buf),
            Attached::Peer(stream) => read_from(Part::Peer, stream, buf),
        }
    }

    /// Writes, and says how many first bytes were taken.
    pub fn write(&mut self, buf: &[u8]) -> Result<usize, Fault>
        ensures within { IfOk result (λ n. n ≤ length buf.now) }
        ensures some { IfOk result (λ n. 0 < length buf.now → 0 < n) }
    {
        match self {
            Attached::Nothing => Err(Fault {
                part: Part::Output,
                reason: Reason::Unattached,
            }),
            Attached::Files { output, room, .. } => write_within(output, room, buf),
            Attached::Peer(stream) => write_to(Part::Peer, stream, buf),
        }
    }

    /// Ends what is written to a peer, and reads to the end of what it sends: a socket that is closed
    /// with unread input is reset, and the peer loses what it hasn't read. At most 16 MiB are read, and
    /// no longer than the peer sends: where nothing comes for two seconds, that is the end too.
    pub fn drain(&mut self) {
        if let Attached::Peer(stream) = self {
            let _ = stream.shutdown(Shutdown::Write);
            if stream
                .set_read_timeout(Some(Duration::from_secs(2)))
                .is_ok()
            {
                read_out(stream);
            }
        }
    }
}

/// The most that is read of a peer after a run, in pieces of 4,096 bytes: 16 MiB.
const PIECES: usize = 4096;

/// Reads and drops what comes, to its end.
fn read_out<S: Read>(stream: &mut S) {
    let mut piece = [0u8; 4096];
    for _ in 0..PIECES {
        match stream.read(&mut piece) {
            Ok(0) | Err(_) => break,
            Ok(_) => {}
        }
    }
}
