ghost use Rattle.std.specs.Prelude.{◌≡◌, ◌≤◌, ◌++◌, length};
ghost use Rattle.nb_defs.specs.Records.{out_text};
ghost use Rattle.nb_runner.specs.Handings.{record_of};

/// The type of a PART.
const PART: u8 = 0x8c;

/// The record of a piece of a hand-off. The bytes stay where they are kept.
#[derive(Clone, Copy, Drop)]
pub struct PieceRecord<'a> {
    /// The number of the part's kind.
    pub kind: u8,
    /// Which of the other images the part is of.
    pub index: u16,
    /// Where in the part the piece begins, in bytes.
    pub offset: u32,
    /// At most 65,536 bytes.
    pub bytes: &'a [u8],
}

impl PieceRecord<'_> {
    /// What stands before the bytes as the record is spelled: its length, its type, and which piece it is.
    #[tactic(auto, unfolding(nb_defs::specs::Records::out_text, nb_defs::specs::Records::record_text))]
    pub fn head(&self) -> [u8; 12]
        requires { length self.now.bytes.now ≤ 65536 }
        ensures { out_text (record_of self.now) ≡ result ++ self.now.bytes.now }
    {
        let [l0, l1, l2, l3] = (self.bytes.len() as u32 + 8).to_be_bytes();
        let [i0, i1] = self.index.to_be_bytes();
        let [o0, o1, o2, o3] = self.offset.to_be_bytes();
        [l0, l1, l2, l3, PART, self.kind, i0, i1, o0, o1, o2, o3]
    }
}
