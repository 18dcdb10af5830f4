ghost use Rattle.std.specs.Prelude.{◌≡◌};
ghost use Rattle.nb_drivenodes.specs.DriveTags.{drive_tag_number};

/// What a message of a drive's objects is, beside those of a connection (`StreamTag`). Its number is the message's tag.
#[derive(Clone, Copy, Debug, PartialEq, Eq)]
pub enum DriveTag {
    /// Up: the session is open. The bytes are a `SessionNote`, `a` is the number of the next answer, and `b` the kind
    /// of CHAP that the login used.
    Opened,
    /// Up: a PDU of the open session: its head, and its data segment without padding.
    Pdu,
    /// Down: so many blocks, `b`, from the block `a` on are asked for.
    Read,
    /// Up: the unit's command was answered, and it waits for the next. `a` is the number of its blocks.
    Answered,
}

impl From<DriveTag> for u8 {
    ghost from_gives = { λ tag n. n ≡ drive_tag_number tag };

    fn from(tag: DriveTag) -> u8 {
        match tag {
            DriveTag::Opened => 11,
            DriveTag::Pdu => 12,
            DriveTag::Read => 13,
            DriveTag::Answered => 14,
        }
    }
}
