ghost use Rattle.std.specs.Prelude.{◌≡◌, ◌<◌, ◌≤◌, length, take, [], IfOk, OnOk, OnErr};
ghost use Rattle.nb_record.specs.Outside.{Outside, Attaches, Reads, NotesRead, Writes, IsAtEnd, Rose};

/// What a call reads from and writes to.
#[derive(Clone, Copy, Debug)]
pub enum Target<'a> {
    /// A pair of files, by their paths.
    Files { input: &'a str, output: &'a str },
    /// A host and port, with a colon between them: a peer that sends the input and takes the output.
    Peer(&'a str),
}

/// A call of a line failed; its count of faults rose.
#[derive(Clone, Copy, Debug, PartialEq, Eq)]
pub struct Failed;

/// The outside: bytes to read, bytes written, the reads asked, and three counts of faults that never fall.
pub trait Line {
    /// What is left to read, what was taken and the reads that were asked, each where it is told, and the counts.
    ghost outside: { Self → Outside };

    /// Opens what is read from and written to. `Failed` where it can't be opened.
    fn attach(&mut self, target: &Target<'_>) -> Result<(), Failed>
        ensures attached { Attaches (outside self.old) (outside self.new) }
        ensures failed { OnErr result (Rose (outside self.old).attach_faults (outside self.new).attach_faults) };

    /// Reads, and says how many bytes it put at the start of `buf`. 0 for a buffer that isn't empty is the
    /// end of the input. `Failed` reads nothing.
    fn read(&mut self, buf: &mut [u8]) -> Result<usize, Failed>
        ensures within { IfOk result (λ n. n ≤ length buf.old) }
        ensures ok { IfOk result (λ n. Reads (outside self.old) (outside self.new) (take n buf.new)) }
        ensures end { IfOk result (λ n. n ≡ 0 → 0 < length buf.old → IsAtEnd (outside self.old)) }
        ensures noted { NotesRead (length buf.old) (outside self.old) (outside self.new) }
        ensures failed { OnErr result (Reads (outside self.old) (outside self.new) []
            × Rose (outside self.old).read_faults (outside self.new).read_faults) };

    /// Writes, and says how many first bytes of `buf` it took: at least one where there are any. `Failed`
    /// takes nothing.
    fn write(&mut self, buf: &[u8]) -> Result<usize, Failed>
        ensures within { IfOk result (λ n. n ≤ length buf.now) }
        ensures some { IfOk result (λ n. 0 < length buf.now → 0 < n) }
        ensures ok { IfOk result (λ n. Writes (outside self.old) (outside self.new) (take n buf.now)) }
        ensures failed { OnErr result (Writes (outside self.old) (outside self.new) []
            × Rose (outside self.old).write_faults (outside self.new).write_faults) };
}
