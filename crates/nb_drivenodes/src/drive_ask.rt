ghost use Rattle.std.specs.Prelude.{◌≡◌, ◌+◌, ◌≤◌, length, option_map, IfOk, IsSome};
ghost use Rattle.nb_iscsipdu.specs.Heads.{word_at};
ghost use Rattle.nb_drivenodes.specs.DriveAsks.{drive_ask_in, ask_parts_of, info_of, words_of, names_in, name_list, next_text};

use nb_conns::ConnAsk;
use nb_login::LoginInfo;
use nb_terms::NoMemory;
use nb_wire::Text;
use std::alloc::Global;

/// The names and secrets of a login (RFC 7143, section 12.1). One that isn't set is empty.
#[derive(Clone, Copy)]
pub struct DriveNames<'a> {
    pub initiator: &'a [u8],
    pub target: &'a [u8],
    pub user: &'a [u8],
    pub secret: &'a [u8],
    /// The target's name for CHAP, where it is to answer ours.
    pub reverse_user: &'a [u8],
    pub reverse_secret: &'a [u8],
}

/// Which unit of which target is asked for, and by which connection. As the bytes of the message that begins it: those
/// of the connection, the unit, eight random words, and the names, each after two bytes with its length. A number has
/// its high byte first.
#[derive(Clone, Copy)]
pub struct DriveAsk<'a> {
    pub conn: ConnAsk,
    pub lun: [u8; 8],
    pub words: [u32; 8],
    pub names: DriveNames<'a>,
}

impl<'a> DriveAsk<'a> {
    /// What these bytes ask for. None where they are too few.
    pub fn read(bytes: &'a [u8]) -> Option<DriveAsk<'a>>
        ensures value { option_map ask_parts_of result ≡ drive_ask_in bytes.now }
        ensures enough { IsSome result → 16 ≤ length bytes.now }
    {
        let (conn, rest) = bytes.split_first_chunk::<16>()?;
        let (lun, rest) = rest.split_first_chunk::<8>()?;
        let (words, rest) = rest.split_first_chunk::<32>()?;
        let conn = ConnAsk::read(conn)?;
        let names = DriveNames::read(rest)?;
        Some(DriveAsk {
            conn,
            lun: *lun,
            words: words_of(words),
            names,
        })
    }

    /// What a login is begun with.
    pub fn info(&self, alloc: Global) -> Result<LoginInfo, NoMemory>
        ensures { IfOk result (λ i. i ≡ info_of self.now) }
    {
        let names = &self.names;
        Ok(LoginInfo {
            initiator: copied(alloc, names.initiator)?,
            target: copied(alloc, names.target)?,
            lun: self.lun,
            user: copied(alloc, names.user)?,
            secret: copied(alloc, names.secret)?,
            reverse_user: copied(alloc, names.reverse_user)?,
            reverse_secret: copied(alloc, names.reverse_secret)?,
            words: self.words,
        })
    }
}

impl<'a> DriveNames<'a> {
    /// The names that these bytes begin with. None where they are too few.
    fn read(bytes: &'a [u8]) -> Option<DriveNames<'a>>
        ensures { option_map name_list result ≡ names_in 6 bytes.now }
    {
        let (initiator, rest) = next_text(bytes)?;
        let (target, rest) = next_text(rest)?;
        let (user, rest) = next_text(rest)?;
        let (secret, rest) = next_text(rest)?;
        let (reverse_user, rest) = next_text(rest)?;
        let (reverse_secret, _) = next_text(rest)?;
        Some(DriveNames {
            initiator,
            target,
            user,
            secret,
            reverse_user,
            reverse_secret,
        })
    }
}

/// The text that stands after two bytes with its length, and what follows it.
fn next_text(bytes: &[u8]) -> Option<(&[u8], &[u8])>
    ensures { option_map (λ cut. (cut.0.now, cut.1.now)) result ≡ next_text bytes.now }
{
    let [high, low, rest @ ..] = bytes else {
        return None;
    };
    let len = usize::from(u16::from_be_bytes([*high, *low]));
    if len > rest.len() {
        return None;
    }
    Some(rest.split_at(len))
}

fn words_of(bytes: &[u8; 32]) -> [u32; 8]
    ensures { result ≡ words_of bytes.now }
{
    [
        word_at(bytes, 0),
        word_at(bytes, 4),
        word_at(bytes, 8),
        word_at(bytes, 12),
        word_at(bytes, 16),
        word_at(bytes, 20),
        word_at(bytes, 24),
        word_at(bytes, 28),
    ]
}

/// The number in the four bytes from this one on.
fn word_at(bytes: &[u8; 32], place: usize) -> u32
    requires { place + 4 ≤ 32 }
    ensures { result ≡ word_at place bytes.now }
{
    u32::from_be_bytes([
        bytes[place],
        bytes[place + 1],
        bytes[place + 2],
        bytes[place + 3],
    ])
}

fn copied(alloc: Global, bytes: &[u8]) -> Result<Text, NoMemory>
    ensures { IfOk result (λ text. text ≡ bytes.now) }
{
    Ok(Text::from_vec(Vec::from_slice(alloc, bytes)?))
}
