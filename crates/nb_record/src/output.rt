use nb_terms::{Cause, Event};
use nb_wire::{Ip4, Word};

/// A record of the output.
#[derive(Clone, Copy, Debug)]
pub enum OutRec<'a> {
    /// The output of the input record of this number begins.
    Step(u32),
    /// A frame that is sent, 14 to 1,522 bytes without its check sequence.
    Frame(&'a [u8]),
    /// What is printed, a line feed included.
    Text(&'a [u8]),
    /// A command begins: its script's depth, its line from 1, its place in the list from 0, whether its
    /// words were expanded, and the words.
    Command {
        depth: u8,
        line: u32,
        place: u8,
        expanded: bool,
        words: &'a [Word],
    },
    /// The command's result.
    Result(Cause),
    /// A script is entered (`what` is 0) or left (1).
    Script {
        what: u8,
        depth: u8,
        cause: Cause,
    },
    /// An open begins: its number from 0, its kind, the server and its port, the own port, and what is
    /// asked for.
    Opened {
        number: u16,
        kind: u8,
        server: Ip4,
        port: u16,
        own: u16,
        target: &'a [u8],
    },
    /// A message of this open is sent for the `n`th time, from 1.
    Try {
        number: u16,
        n: u8,
    },
    /// This open has come to this place: for TFTP the block that was taken last.
    Advance {
        number: u16,
        place: u32,
    },
    /// This open has ended.
    Over {
        number: u16,
        cause: Cause,
    },
    /// What happened to an object of the graph.
    Graph(Event),
    /// A piece of a part of the hand-off, at most 65,536 bytes, and how many bytes of the part come before it.
    Part {
        kind: u8,
        index: u16,
        offset: u32,
        bytes: &'a [u8],
    },
    /// The run's status; the last record.
    Done(u8),
}
