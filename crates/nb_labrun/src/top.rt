ghost use Rattle.std.specs.Prelude.{◌≡◌, ◌↔◌, ◌≤◌, ℕ, map};
ghost use Rattle.std.specs.String.{string_bytes};
ghost use Rattle.nb_boot.specs.Complete.{Completes, IsBadWords};
ghost use Rattle.nb_boot.specs.Determined.{IsDetermined};
ghost use Rattle.nb_boot.specs.Shown.{ShowsCourse};
ghost use Rattle.nb_boot.specs.Words.{AreWords};
ghost use Rattle.nb_labrun.specs.Words.{AreLabWords, AreProgramWords, NamesLab};
ghost use Rattle.nb_labrun.specs.Shows.{LabRun, ShowsLab};

use crate::Status;
use crate::run::{Played, play};
use crate::words::images;
use nb_boot::{netboot, write_all};
use nb_record::{Failed, Line, NoMemory};
use std::alloc::Global;

/// Writes the summary of a run that is over.
fn print<L: Line>(played: &Played, line: &mut L) -> Status
    ensures { (images : ℕ) → LabRun images played.now.status played.now.text
        → ShowsLab images result (L.outside line.old) (L.outside line.new) }
{
    match write_all(played.text.as_slice(), line) {
        Ok(()) => played.status,
        Err(Failed) => Status::WriteFault,
    }
}

/// Plays a run over so many images, and writes its summary.
fn run<L: Line>(alloc: Global, images: u8, line: &mut L) -> Status
    requires { images ≤ 64 }
    ensures { ShowsLab images result (L.outside line.old) (L.outside line.new) }
{
    match play(alloc, images) {
        Ok(played) => print(&played, line),
        Err(NoMemory) => Status::NoMemory,
    }
}

/// Runs the words (without the program's name) `lab N`: a run of the client against the servers of N images, 1 to 64, and
/// its summary. Nothing is attached or read. The words are invalid exactly where the answer is BadWords. Else what was
/// written is the summary of a run in the lab, of which what `netboot` shows of a run is true: all of it, where the status is
/// the run's; a prefix, where a write failed; nothing, where memory ran out.
pub fn lab<L: Line>(alloc: Global, words: &[String], line: &mut L) -> Status
    ensures bad_words { IsBadWords result ↔ (AreLabWords (map string_bytes words.now) → ⊥) }
    ensures untouched { IsBadWords result → line.new ≡ line.old }
    ensures shows { (n : ℕ) → NamesLab (map string_bytes words.now) n
        → ShowsLab n result (L.outside line.old) (L.outside line.new) }
{
    match images(words) {
        Some(n) => run(alloc, n, line),
        None => Status::BadWords,
    }
}

/// Runs the program's words (without its name), whichever of its three forms they have. `replay IN OUT` and `live PEER` are what
/// `netboot` runs, over `line`; for `lab N` a run in a lab is played, as by `lab`, and its summary is written to `printed`.
pub fn call<L: Line, P: Line>(
    alloc: Global,
    words: &[String],
    line: &mut L,
    printed: &mut P,
) -> Status
    // The words are invalid exactly where the answer is BadWords, and then nothing was attached or written.
    ensures bad_words { IsBadWords result ↔ (AreProgramWords (map string_bytes words.now) → ⊥) }
    ensures untouched { IsBadWords result → (line.new ≡ line.old) × (printed.new ≡ printed.old) }
    // Of `replay` and `live` all that `netboot` promises holds.
    ensures course { AreWords (map string_bytes words.now) → ShowsCourse result (L.outside line.old) (L.outside line.new) }
    ensures complete { AreWords (map string_bytes words.now) → Completes result (L.outside line.old) (L.outside line.new) }
    ensures determined { AreWords (map string_bytes words.now) → IsDetermined result (L.outside line.old) (L.outside line.new) }
    // What `lab N` wrote is the summary of a run in a lab of N images.
    ensures shows { (n : ℕ) → NamesLab (map string_bytes words.now) n
        → ShowsLab n result (P.outside printed.old) (P.outside printed.new) }
    // Each form leaves alone what the others use.
    ensures apart { (AreWords (map string_bytes words.now) → printed.new ≡ printed.old)
        × (AreLabWords (map string_bytes words.now) → line.new ≡ line.old) }
{
    match images(words) {
        Some(n) => run(alloc, n, printed),
        None => netboot(alloc, words, line),
    }
}
