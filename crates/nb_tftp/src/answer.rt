//! What a packet calls for.

ghost use Rattle.std.specs.Prelude.{◌≡◌, ◌≤◌, ℕ, Option, IfSome, IsTrue, true};
ghost use Rattle.nb_tftp.specs.Decisions.{awaits_full, packet_decided, block_decided, grant_decided, end_of_block, is_block_size, from_server, fixed_of, block_size_of, last_of, transfer_has_ended};
ghost use Rattle.nb_tftpmsg.specs.Views.{message};
ghost use Rattle.nb_tftp.specs.declared.answer.Phase.TheVariants.{Taking};

use nb_terms::{Cause, Long, Plain, Reason};
use nb_tftpmsg::Tftp;

/// The size of blocks where no option was granted (RFC 1350, section 2).
const BLOCK_SIZE: u16 = 512;
/// The least size of blocks (RFC 2348).
const LEAST_SIZE: u16 = 8;
/// The size that is asked for, and the most that is taken (RFC 2348).
const MOST_SIZE: u16 = 1432;

/// How far a transfer is.
#[derive(Clone, Copy, Drop)]
pub(crate) enum Phase {
    /// The request is out.
    Asking,
    /// Blocks of this size come from this port; the last one taken has this number, 0 where none is.
    Taking { port: u16, size: u16, last: u16 },
    /// It has ended.
    Over,
}

/// What a packet calls for.
#[derive(Clone, Copy, Drop)]
pub(crate) enum Answer {
    /// Nothing.
    Ignored,
    /// It comes from another port than the server's: error 5.
    Stranger,
    /// It is the last block again: its acknowledgement again.
    Again {
        block: u16,
    },
    /// It grants the options that were asked for, with blocks of this size: acknowledgement 0 (RFC 2347).
    Agreed {
        size: u16,
    },
    /// It grants a size that is none to agree on: error 8, and the end (RFC 2347).
    Declined {
        rec: u32,
    },
    /// It is the next block, with this many bytes, and the end that it makes, if it makes one.
    Taken {
        block: u16,
        len: u16,
        over: Option<Cause>,
    },
    /// The transfer ends.
    Ended(Cause),
}

impl Phase {
    pub(crate) fn is_over(self) -> bool
        ensures { result ≡ transfer_has_ended self }
    {
        match self {
            Phase::Over => true,
            _ => false,
        }
    }

    /// The next block comes from this port in its full size, and more can follow it.
    pub(crate) fn awaits_full(self, from: u16, block: u16, len: usize) -> bool
        ensures value { result ≡ awaits_full self from block len }
        ensures fits { IsTrue result → len ≤ 65535 }
    {
        match self {
            Phase::Taking { port, size, last } => {
                port == from
                    && usize::from(size) == len
                    && block < u16::MAX
                    && u32::from(block) == u32::from(last) + 1
            }
            _ => false,
        }
    }

    /// The block that it awaited was taken.
    pub(crate) fn take(&mut self, block: u16)
        ensures { (port size : ℕ) → awaits_full self.old port block size ≡ true → self.new ≡ Taking port size block }
    {
        if let Phase::Taking { last, .. } = self {
            *last = block;
        }
    }

    /// What a packet of this port calls for in this phase, which isn't the end, with or without options.
    pub(crate) fn decide(self, options: bool, rec: u32, from: u16, packet: &Tftp<'_>) -> Answer
        ensures { result ≡ packet_decided options (fixed_of self) (block_size_of self) (last_of self) rec from (message packet.now) }
    {
        match packet {
            Tftp::Oack { .. } if !options => Answer::Ignored,
            Tftp::Oack { blksize, .. } if self.is_from_server(from) => {
                self.decide_grant(rec, blksize.unwrap_or(BLOCK_SIZE))
            }
            Tftp::Error { code, .. } if self.is_from_server(from) => {
                Answer::Ended(Cause::from(Reason::Refused { rec, code: *code }))
            }
            Tftp::Block { n, bytes } if self.is_from_server(from) => {
                self.decide_block(rec, *n, bytes)
            }
            _ if self.is_from_server(from) => Answer::Ignored,
            _ => Answer::Stranger,
        }
    }

    /// Before a port is fixed, each is the server's.
    fn is_from_server(self, from: u16) -> bool
        ensures { result ≡ from_server (fixed_of self) from }
    {
        match self {
            Phase::Taking { port, .. } => port == from,
            _ => true,
        }
    }

    fn decide_block(self, rec: u32, block: u16, bytes: &[u8]) -> Answer
        ensures { result ≡ block_decided (fixed_of self) (block_size_of self) (last_of self) rec block bytes.now }
    {
        if u32::from(block) == u32::from(self.last()) + 1 {
            let size = self.block_size();
            if bytes.len() > usize::from(size) {
                return Answer::Ended(Cause::from(Reason::Broken { rec }));
            }
            let len = bytes.len() as u16;
            return Answer::Taken {
                block,
                len,
                over: end_of_block(size, block, len),
            };
        }
        match self {
            Phase::Taking { last, .. } if block != 0 && last == block => Answer::Again { block },
            _ => Answer::Ignored,
        }
    }

    /// What an OACK from the server calls for that grants this size.
    fn decide_grant(self, rec: u32, size: u16) -> Answer
        ensures { result ≡ grant_decided (fixed_of self) (last_of self) rec size }
    {
        match self {
            Phase::Taking { last: 0, .. } => Answer::Again { block: 0 },
            Phase::Taking { .. } => Answer::Ignored,
            _ if is_block_size(size) => Answer::Agreed { size },
            _ => Answer::Declined { rec },
        }
    }

    /// The size of blocks: what was agreed, 512 before.
    pub(crate) fn block_size(self) -> u16
        ensures { result ≡ block_size_of self }
    {
        match self {
            Phase::Taking { size, .. } => size,
            _ => BLOCK_SIZE,
        }
    }

    /// The number of the last block taken, 0 where there is none.
    fn last(self) -> u16
        ensures { result ≡ last_of self }
    {
        match self {
            Phase::Taking { last, .. } => last,
            _ => 0,
        }
    }
}

/// The sizes of blocks that a transfer agrees to.
fn is_block_size(size: u16) -> bool
    ensures { result ≡ is_block_size size }
{
    LEAST_SIZE <= size && size <= MOST_SIZE
}

/// The end that a block makes where blocks have this size, if it makes one.
fn end_of_block(size: u16, block: u16, len: u16) -> Option<Cause>
    ensures { result ≡ end_of_block size block len }
{
    if len < size {
        return Some(Cause::from(Reason::Plain(Plain::Ok)));
    }
    if block == u16::MAX {
        return Some(Cause::from(Reason::TooLong(Long::Blocks)));
    }
    None
}
