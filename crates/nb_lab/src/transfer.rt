//! The transfer of an image by TFTP (RFC 1350, section 2), with the options of RFC 2347 to 2349.

ghost use Rattle.std.specs.Prelude.{◌≡◌, ◌+◌, ◌*◌, ◌<◌, ◌≤◌, false};
ghost use Rattle.nb_lab.specs.Images.{image_len};
ghost use Rattle.nb_lab.specs.Files.{size_of_block, number_of_last, last_file_part, ends_in, transfer_begun, acknowledged, after_acknowledged};

use crate::hosts::Peer;
use crate::image::Image;
use crate::silence::Silence;

/// The size of a block: 512 without options (RFC 1350, section 2), else what is granted (RFC 2348).
#[derive(Clone, Copy, Debug, PartialEq, Eq)]
pub enum BlockSize {
    Plain,
    Granted,
}

impl BlockSize {
    /// The size in bytes.
    pub fn bytes(self) -> u16
        ensures value { result ≡ size_of_block self }
        ensures fits { result ≤ 1000 }
    {
        match self {
            BlockSize::Plain => 512,
            BlockSize::Granted => 1000,
        }
    }
}

/// What a server sends for a file.
#[derive(Clone, Copy, Debug, PartialEq, Eq)]
pub enum FilePart {
    /// The options that are granted for an image: the size of its blocks, and its own.
    Options(Image),
    /// A block of an image, counted from 1.
    Block {
        image: Image,
        n: u16,
        size: BlockSize,
    },
    /// There is no such file.
    NotFound,
}

/// What was sent last, and waits for its acknowledgement.
#[derive(Clone, Copy, Debug, PartialEq, Eq)]
pub enum Last {
    Options,
    Block(u16),
}

impl Last {
    /// The number that acknowledges it.
    fn number(self) -> u16
        ensures { result ≡ number_of_last self }
    {
        match self {
            Last::Options => 0,
            Last::Block(n) => n,
        }
    }
}

/// What an acknowledgement comes to.
#[derive(Clone, Copy, Debug, PartialEq, Eq)]
pub enum Acknowledged {
    /// It isn't that of what was sent last.
    Other,
    /// This is sent next.
    Next(FilePart),
    /// The last block was taken.
    Whole,
}

/// A transfer that goes on.
#[derive(Clone, Copy, Debug)]
pub struct Transfer {
    pub peer: Peer,
    pub image: Image,
    pub size: BlockSize,
    pub last: Last,
    pub silence: Silence,
}

impl Transfer {
    /// Begins with the options, where they are asked for, or else with the first block.
    pub fn start(peer: Peer, image: Image, options: bool) -> Transfer
        ensures { result ≡ transfer_begun peer image options }
    {
        let (size, last) = if options {
            (BlockSize::Granted, Last::Options)
        } else {
            (BlockSize::Plain, Last::Block(1))
        };
        Transfer {
            peer,
            image,
            size,
            last,
            silence: Silence::new(),
        }
    }

    /// What was sent last.
    pub fn part(&self) -> FilePart
        ensures { result ≡ last_file_part self.now }
    {
        match self.last {
            Last::Options => FilePart::Options(self.image),
            Last::Block(n) => FilePart::Block {
                image: self.image,
                n,
                size: self.size,
            },
        }
    }

    /// Takes the acknowledgement of a number. The next block is sent for that of what was sent last alone, so that a
    /// doubled one doesn't double all that follows (RFC 1123, section 4.2.3.1).
    pub fn acknowledge(&mut self, n: u16) -> Acknowledged
        ensures answer { result ≡ acknowledged self.old n }
        ensures after { self.new ≡ after_acknowledged self.old n result }
    {
        if n != self.last.number() {
            return Acknowledged::Other;
        }
        if self.is_whole() {
            return Acknowledged::Whole;
        }
        self.last = Last::Block(n + 1);
        self.silence = Silence::new();
        Acknowledged::Next(self.part())
    }

    /// Whether what was sent last is the last block: one that is shorter than the size, as the image ends in it.
    fn is_whole(&self) -> bool
        ensures value { result ≡ ends_in (image_len self.now.image.0) (size_of_block self.now.size) self.now.last }
        ensures few { result ≡ false → number_of_last self.now.last ≤ 488 }
    {
        match self.last {
            Last::Options => false,
            Last::Block(n) => self.image.len() < u32::from(n) * u32::from(self.size.bytes()),
        }
    }
}
