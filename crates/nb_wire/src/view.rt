ghost use Rattle.std.specs.Prelude.{◌≡◌, ◌+◌, ◌≤◌, ◌↔◌, length, drop, take, slice_index, IsSome, IfSome, OnSome, IfNone};
ghost use Rattle.std.specs.Int.{w16, w32, from_be_bytes};

/// A place in bytes, at which numbers and parts are read one after another.
#[derive(Drop)]
pub struct View<'a> {
    /// The bytes that are read.
    pub bytes: &'a [u8],
    /// How many of them have been read.
    pub at: usize,
    ghost within: { at ≤ length bytes.now },
}

impl<'a> View<'a> {
    /// A view that has read nothing yet.
    pub fn new(bytes: &'a [u8]) -> View<'a>
        ensures bytes { result.bytes.now ≡ bytes.now }
        ensures start { result.at ≡ 0 }
    {
        View { bytes, at: 0 }
    }

    /// The next byte. Nothing is read where none is left.
    pub fn u8(&mut self) -> Option<u8>
        ensures enough { IsSome result ↔ (self.old.at + 1 ≤ length self.old.bytes.now) }
        ensures value { IfSome result (λ n. n ≡ slice_index self.old.bytes.now self.old.at) }
        ensures read { OnSome result (self.new.at ≡ self.old.at + 1) }
        ensures stays { IfNone result (self.new.at ≡ self.old.at) }
        ensures same { self.new.bytes.now ≡ self.old.bytes.now }
    {
        let byte = *self.bytes.get(self.at)?;
        self.at += 1;
        Some(byte)
    }

    /// The next two bytes as a big-endian number. Nothing is read where fewer are left.
    pub fn u16(&mut self) -> Option<u16>
        ensures enough { IsSome result ↔ (self.old.at + 2 ≤ length self.old.bytes.now) }
        ensures value { IfSome result (λ n. n ≡ from_be_bytes w16 (take 2 (drop self.old.at self.old.bytes.now))) }
        ensures read { OnSome result (self.new.at ≡ self.old.at + 2) }
        ensures stays { IfNone result (self.new.at ≡ self.old.at) }
        ensures same { self.new.bytes.now ≡ self.old.bytes.now }
    {
        let part = self.take(2)?;
        Some(u16::from_be_bytes([part[0], part[1]]))
    }

    /// The next four bytes as a big-endian number. Nothing is read where fewer are left.
    pub fn u32(&mut self) -> Option<u32>
        ensures enough { IsSome result ↔ (self.old.at + 4 ≤ length self.old.bytes.now) }
        ensures value { IfSome result (λ n. n ≡ from_be_bytes w32 (take 4 (drop self.old.at self.old.bytes.now))) }
        ensures read { OnSome result (self.new.at ≡ self.old.at + 4) }
        ensures stays { IfNone result (self.new.at ≡ self.old.at) }
        ensures same { self.new.bytes.now ≡ self.old.bytes.now }
    {
        let part = self.take(4)?;
        Some(u32::from_be_bytes([part[0], part[1], part[2], part[3]]))
    }

    /// The next `n` bytes. Nothing is read where fewer are left.
    pub fn take(&mut self, n: usize) -> Option<&'a [u8]>
        ensures enough { IsSome result ↔ (self.old.at + n ≤ length self.old.bytes.now) }
        ensures part { IfSome result (λ part. part.now ≡ take n (drop self.old.at self.old.bytes.now)) }
        ensures read { OnSome result (self.new.at ≡ self.old.at + n) }
        ensures stays { IfNone result (self.new.at ≡ self.old.at) }
        ensures same { self.new.bytes.now ≡ self.old.bytes.now }
    {
        if n > self.bytes.len() - self.at {
            return None;
        }
        let part = &self.bytes[self.at..self.at + n];
        self.at += n;
        Some(part)
    }
}
