//! An open that lives, with what is kept of a drive.

ghost use Rattle.std.specs.Prelude.{◌≡◌, ◌++◌, true, option_copied, option_map, IfOk, IfSome, OnOk};
ghost use Rattle.std.specs.Option.{is_some};
ghost use Rattle.nb_drivelogin.specs.DriveLogins.{FitsTable};
ghost use Rattle.nb_drivelogin.specs.DriveOpens.{drive_open};
ghost use Rattle.nb_ibft.specs.Infos.{IsShortText};
ghost use Rattle.nb_network.specs.Drives.{brings, drive_by, has_answered, news_of, noted, last_read_by, with_news, with_read};
ghost use Rattle.nb_network.specs.Hooked.{hooked_by, hooked_with};
ghost use Rattle.nb_network.specs.Many.{bare_open};
ghost use Rattle.nb_open.specs.DriveAnswers.{would_take};

use nb_drivechains::DriveAnswer;
use nb_drivelogin::HookedOpen;
use nb_login::LoginInfo;
use nb_open::{Open, OpenObjects, Opening};
use nb_teller::{Speaker, Spelled};
use nb_terms::NoMemory;
use nb_wire::Text;
use std::alloc::Global;

/// The most bytes of a login's text in a boot table.
const MOST_TEXT: usize = 1088;

/// The most blocks that are asked of a drive at once.
const MOST_BLOCKS: u16 = 64;

/// What is kept of a drive that lives.
#[derive(Drop)]
pub struct KeptDrive {
    /// What its login was begun with.
    pub login: LoginInfo,
    /// Which kind of CHAP that used (RFC 1994), once the drive has answered.
    pub chap: Option<u32>,
    /// How many blocks the disk has, likewise.
    pub capacity: Option<u32>,
    /// The bytes that have come of the read at work, if one is.
    pub coming: Option<Text>,
    /// The bytes of the read that it took last, once all of them have come.
    pub read: Option<Text>,
}

/// So many blocks of a drive, from this one on, are asked for.
#[derive(Clone, Copy, Debug)]
pub(crate) struct BlocksAsked {
    pub(crate) block: u32,
    pub(crate) count: u16,
}

/// An open that lives.
#[derive(Drop)]
pub struct Living {
    /// Its number and server, and the client's port.
    pub speaker: Speaker,
    /// Its objects on the graph.
    pub objects: OpenObjects,
    /// What is kept of it, where it is a drive's.
    pub drive: Option<KeptDrive>,
}

impl Living {
    /// An open that begins so.
    pub(crate) fn of(alloc: Global, begun: Open, opening: &Opening<'_>) -> Result<Living, NoMemory>
        ensures bare { IfOk result (λ o. bare_open o ≡ begun) }
        ensures drive { IfOk result (λ o. o.drive ≡ drive_by opening.now) }
    {
        let Open { speaker, objects } = begun;
        Ok(Living {
            speaker,
            objects,
            drive: kept(alloc, opening)?,
        })
    }

    /// The open alone.
    #[inline(always)]
    pub(crate) fn bare(&self) -> Open
        ensures { result ≡ bare_open self.now }
    {
        Open {
            speaker: self.speaker,
            objects: self.objects,
        }
    }

    /// Whether it is a drive that has answered.
    pub(crate) fn has_answered(&self) -> bool
        ensures { result ≡ has_answered self.now }
    {
        match &self.drive {
            Some(drive) => drive.chap.is_some(),
            None => false,
        }
    }

    /// What it has read last as a drive.
    pub(crate) fn read(&self) -> Option<&Text>
        ensures { option_copied result ≡ last_read_by self.now }
    {
        match &self.drive {
            Some(drive) => drive.read.as_ref(),
            None => None,
        }
    }

    /// Notes what was told of a drive, or that this is asked of it. An error where memory runs out.
    #[inline(always)]
    pub(crate) fn note(
        &mut self,
        alloc: Global,
        asked: Option<BlocksAsked>,
        told: &Spelled,
    ) -> Result<(), NoMemory>
        ensures { OnOk result (self.new ≡ noted (news_of asked told.now) self.old) }
    {
        match &mut self.drive {
            Some(drive) => drive.note(alloc, asked, told),
            None => Ok(()),
        }
    }

    /// What a boot table may say of it, where it is a drive's. An error where a text is too long for that, as none is.
    pub(crate) fn hooked(&self) -> Result<Option<HookedOpen<'_>>, NoMemory>
        ensures value { IfOk result (λ h. option_map drive_open h ≡ hooked_by self.now) }
        ensures fits { IfOk result (λ h. IfSome h (λ x. FitsTable x.login.now)) }
    {
        let OpenObjects::Drive { port, .. } = self.objects else {
            return Ok(None);
        };
        match &self.drive {
            Some(drive) => Ok(Some(hooked_with(&self.speaker, port, drive)?)),
            None => Ok(None),
        }
    }
}

impl KeptDrive {
    /// Notes what was told of it, or that this is asked of it.
    fn note(
        &mut self,
        alloc: Global,
        asked: Option<BlocksAsked>,
        told: &Spelled,
    ) -> Result<(), NoMemory>
        ensures { OnOk result (self.new ≡ with_news (news_of asked told.now) self.old) }
    {
        match asked {
            Some(asked) => {
                self.ask(alloc, asked);
                Ok(())
            }
            None => self.keep(told.answer(), told.blocks()),
        }
    }

    /// Keeps these bytes of the read at work, and what was answered after them.
    fn keep(&mut self, answer: Option<DriveAnswer>, blocks: &[u8]) -> Result<(), NoMemory>
        ensures { OnOk result (self.new ≡ with_news (brings answer blocks.now) self.old) }
    {
        let bytes = with_blocks(self.coming.take(), blocks)?;
        match answer {
            Some(answer) => {
                self.chap = Some(answer.chap);
                self.capacity = Some(answer.blocks);
                self.read = bytes;
            }
            None => self.coming = bytes,
        }
        Ok(())
    }

    /// This read is at work, if the drive takes it.
    fn ask(&mut self, alloc: Global, asked: BlocksAsked)
        ensures { self.new ≡ with_read (record { lba = asked.block; blocks = asked.count }) self.old }
    {
        if self.takes(asked) {
            self.coming = Some(Text::from_vec(Vec::new(alloc)));
            self.read = None;
        }
    }

    /// Whether the drive takes this read: within the disk, while none is at work.
    fn takes(&self, asked: BlocksAsked) -> bool
        ensures { result ≡ would_take (is_some self.now.coming) (record { lba = asked.block; blocks = asked.count }) self.now.capacity }
    {
        match self.capacity {
            Some(capacity) => {
                let end = u64::from(asked.block) + u64::from(asked.count);
                (0 < asked.count && asked.count <= MOST_BLOCKS)
                    && (end <= u64::from(capacity) && self.coming.is_none())
            }
            None => false,
        }
    }
}

/// These bytes, if there are any, with more of them.
fn with_blocks(bytes: Option<Text>, blocks: &[u8]) -> Result<Option<Text>, NoMemory>
    ensures { IfOk result (λ all. all ≡ option_map (λ b. b ++ blocks.now) bytes) }
{
    let Some(text) = bytes else {
        return Ok(None);
    };
    let mut all = text.into_vec();
    all.extend_from_slice(blocks)?;
    Ok(Some(Text::from_vec(all)))
}

/// What a boot table may say of a drive that this speaks for, at this port of its target.
fn hooked_with<'a>(
    who: &Speaker,
    port: u16,
    drive: &'a KeptDrive,
) -> Result<HookedOpen<'a>, NoMemory>
    ensures value { IfOk result (λ h. drive_open h ≡ hooked_with who.now port drive.now) }
    ensures fits { IfOk result (λ h. FitsTable h.login.now) }
{
    if !fits_table(&drive.login) {
        return Err(NoMemory);
    }
    let chap = drive.chap.unwrap_or(0);
    if chap > 255 {
        return Err(NoMemory);
    }
    Ok(HookedOpen {
        number: who.number,
        server: who.server,
        port,
        chap: chap as u8,
        login: &drive.login,
    })
}

/// Whether a boot table may have each text of a login.
fn fits_table(login: &LoginInfo) -> bool
    ensures { result ≡ true → FitsTable login.now }
{
    is_short(&login.initiator)
        && is_short(&login.target)
        && is_short(&login.user)
        && is_short(&login.secret)
        && is_short(&login.reverse_user)
        && is_short(&login.reverse_secret)
}

/// Whether a boot table may have this text.
fn is_short(text: &Text) -> bool
    ensures { result ≡ true → IsShortText text.now }
{
    text.len() <= MOST_TEXT
}

/// What is kept of an open that begins so.
fn kept(alloc: Global, opening: &Opening<'_>) -> Result<Option<KeptDrive>, NoMemory>
    ensures { IfOk result (λ d. d ≡ drive_by opening.now) }
{
    match opening {
        Opening::Drive(drive) => Ok(Some(KeptDrive {
            login: drive.ask.info(alloc)?,
            chap: None,
            capacity: None,
            coming: None,
            read: None,
        })),
        Opening::File(_)
        | Opening::Web(_)
        | Opening::Name(_)
        | Opening::Lease(_)
        | Opening::Echo(_) => Ok(None),
    }
}
