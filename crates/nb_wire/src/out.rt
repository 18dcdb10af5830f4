ghost use Rattle.std.specs.Prelude.{◌≡◌, ◌+◌, ◌<◌, ◌≤◌, ◌++◌, ◌↔◌, [], length, IsErr, OnOk, OnErr};

use std::marker::Model;

/// There is less room than the bytes need.
#[derive(Clone, Copy, Debug, PartialEq, Eq, Drop)]
pub struct Full;

/// Bytes that are put one after another into a buffer.
#[derive(Drop)]
pub struct Out<'b> {
    buffer: &'b mut [u8],
    len: usize,
}

impl<'b> Model for Out<'b> {
    ghost use Rattle.std.specs.Prelude.{◌-◌, ◌≤◌, take, length};
    ghost use Rattle.nb_wire.specs.Room.{Room};

    ghost Value = { Room };

    ghost view = { λ o. record { written = take o.len o.buffer.now; left = length o.buffer.now - o.len } };

    ghost invariant = { λ o. o.len ≤ length o.buffer.now };
}

impl<'b> Out<'b> {
    /// An empty one, with the whole of `buffer` as its room.
    #[inline(always)]
    pub fn new(buffer: &'b mut [u8]) -> Out<'b>
        ensures empty { result.written ≡ [] }
        ensures room { result.left ≡ length buffer.old }
    {
        Out { buffer, len: 0 }
    }

    /// Puts the bytes after those that stand there.
    #[inline(always)]
    pub fn put(&mut self, bytes: &[u8]) -> Result<(), Full>
        ensures full { IsErr result ↔ (self.old.left < length bytes.now) }
        ensures appended { OnOk result (self.new.written ≡ self.old.written ++ bytes.now) }
        ensures room { OnOk result (self.new.left + length bytes.now ≡ self.old.left) }
        ensures refused { OnErr result (self.new ≡ self.old) }
    {
        if self.buffer.len() - self.len < bytes.len() {
            return Err(Full);
        }
        self.push(bytes);
        Ok(())
    }

    /// Puts the bytes after those that stand there, where their room is known.
    #[inline(always)]
    pub fn push(&mut self, bytes: &[u8])
        requires { length bytes.now ≤ self.old.left }
        ensures appended { self.new.written ≡ self.old.written ++ bytes.now }
        ensures room { self.new.left + length bytes.now ≡ self.old.left }
    {
        let end = self.len + bytes.len();
        self.buffer[self.len..end].copy_from_slice(bytes);
        self.len = end;
    }

    /// Puts the bytes of both, one after the other, or none of them.
    pub fn put_both(&mut self, first: &[u8], second: &[u8]) -> Result<(), Full>
        ensures full { IsErr result ↔ (self.old.left < length first.now + length second.now) }
        ensures appended { OnOk result (self.new.written ≡ self.old.written ++ (first.now ++ second.now)) }
        ensures room { OnOk result (self.new.left + (length first.now + length second.now) ≡ self.old.left) }
        ensures refused { OnErr result (self.new ≡ self.old) }
    {
        if self.room() < first.len() + second.len() {
            return Err(Full);
        }
        self.put(first)?;
        self.put(second)
    }

    /// The bytes that were put.
    #[inline(always)]
    pub fn written(&self) -> &[u8]
        ensures { result.now ≡ self.now.written }
    {
        &self.buffer[..self.len]
    }

    /// For how many bytes there is still room.
    #[inline(always)]
    pub fn room(&self) -> usize
        ensures { result ≡ self.now.left }
    {
        self.buffer.len() - self.len
    }
}
