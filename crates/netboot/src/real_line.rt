ghost use Rattle.std.specs.Prelude.{◌≡◌, ◌+◌, ◌-◌, ◌^◌, ◌<◌, ◌≤◌, length, min, None, IfOk};

use crate::attached::{Attached, connect, open};
use crate::fault::{Fault, Part, Reason};
use crate::trail::{Place, Trail};
use nb_record::{Failed, Line, Target};
use std::fs::Files;
use std::net::Net;

/// A line over a pair of files, or over a connection to a peer. It counts each error of the system, keeps
/// the last for who asks, and tells nothing of content.
#[derive(Drop)]
pub struct RealLine<'r, R: Files + Net> {
    rt: &'r R,
    /// The part whose name isn't UTF-8, where one isn't: then nothing can be attached.
    not_utf8: Option<Part>,
    attached: Attached<R::File, R::Stream>,
    trail: Option<Trail>,
    fault: Option<Fault>,
    attach_faults: u64,
    read_faults: u64,
    write_faults: u64,
}

/// One fault more; a count that stands at its end stays there.
pub fn risen(count: u64) -> u64
    ensures { result ≡ min (count + 1) (2 ^ 64 - 1) }
{
    count.saturating_add(1)
}

/// These bytes were read next.
fn note(trail: &mut Option<Trail>, piece: &[u8]) {
    if let Some(trail) = trail {
        trail.note(piece);
    }
}

impl<'r, R: Files + Net + AllocGlobal> RealLine<'r, R> {
    /// A line that nothing is attached to. `not_utf8` is a part whose name isn't UTF-8.
    pub fn new(rt: &'r R, not_utf8: Option<Part>) -> RealLine<'r, R> {
        RealLine {
            rt,
            not_utf8,
            attached: Attached::Nothing,
            trail: Trail::new(rt.alloc()),
            fault: None,
            attach_faults: 0,
            read_faults: 0,
            write_faults: 0,
        }
    }

    /// Opens or connects what a target names.
    fn open(&self, target: &Target<'_>) -> Result<Attached<R::File, R::Stream>, Fault> {
        if let Some(part) = self.not_utf8 {
            return Err(Fault {
                part,
                reason: Reason::NotUtf8,
            });
        }
        match target {
            Target::Files { input, output } => open(self.rt, input, output),
            Target::Peer(peer) => connect(self.rt, peer),
        }
    }

    /// Ends what goes to a peer, and reads what it still sends, so that it loses nothing.
    pub fn drain(&mut self) {
        self.attached.drain();
    }

    /// The last fault.
    pub fn fault(&self) -> Option<Fault> {
        self.fault
    }

    /// Where the record stands that no run may use, if it is known.
    pub fn refused(&self) -> Option<Place> {
        match &self.trail {
            Some(trail) => trail.refused(self.rt.alloc()),
            None => None,
        }
    }
}

impl<R: Files + Net + AllocGlobal> Line for RealLine<'_, R> {
    ghost outside = { λ l. record { left = None; taken = None; reads = None; attach_faults = l.attach_faults; read_faults = l.read_faults; write_faults = l.write_faults } };

    fn attach(&mut self, target: &Target<'_>) -> Result<(), Failed> {
        match self.open(target) {
            Ok(attached) => {
                self.attached = attached;
                Ok(())
            }
            Err(fault) => {
                self.fault = Some(fault);
                self.attach_faults = risen(self.attach_faults);
                Err(Failed)
            }
        }
    }

    fn read(&mut self, buf: &mut [u8]) -> Result<usize, Failed> {
        match self.attached.read(buf) {
            Ok(n) => {
                note(&mut self.trail, &buf[..n]);
                Ok(n)
            }
            Err(fault) => {
                self.fault = Some(fault);
                self.read_faults = risen(self.read_faults);
                Err(Failed)
            }
        }
    }

    fn write(&mut self, buf: &[u8]) -> Result<usize, Failed> {
        match self.attached.write(buf) {
            Ok(n) => Ok(n),
            Err(fault) => {
                self.fault = Some(fault);
                self.write_faults = risen(self.write_faults);
                Err(Failed)
            }
        }
    }
}
