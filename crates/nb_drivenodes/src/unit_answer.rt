//! What a call of a drive's core comes to.

ghost use Rattle.std.specs.Prelude.{◌≡◌, List, false, IfOk};
ghost use Rattle.nb_iscsipdu.specs.PduTexts.{pdu_parts};
ghost use Rattle.nb_disk.specs.Histories.{SessionNumbers, DiskCall, came, stream_ended};
ghost use Rattle.nb_disk.specs.DiskAnswers.{session_has_ended};
ghost use Rattle.nb_disk.specs.DiskStands.{DiskStands};
ghost use Rattle.nb_drivenodes.specs.UnitAnswers.{AnswersUnit, unit_opened, StartsUnit, answered_so};
ghost use Rattle.nb_disk.specs.Steps.{has_work, work_capacity};

use crate::session_note::SessionNote;
use nb_disk::Disk;
use nb_iscsipdu::Pdu;
use nb_login::{LoginInfo, Session};
use nb_terms::{Acts, Cause, NoMemory};
use nb_wire::Text;
use std::alloc::Global;

/// What a call of a drive's core comes to.
#[derive(Drop)]
pub(crate) struct UnitAnswer {
    /// The request that is sent.
    pub(crate) text: Option<Text>,
    /// Whether the PDU's data go up.
    pub(crate) gives: bool,
    /// The number of blocks, where the command at work was answered.
    pub(crate) answered: Option<u32>,
    pub(crate) over: Option<Cause>,
}

/// Begins the commands of a session, of which this is known.
pub(crate) fn start_unit(
    alloc: Global,
    note: SessionNote,
    exp_stat_sn: u32,
) -> Result<(Disk, Text), NoMemory>
    ensures { IfOk result (λ r. StartsUnit (unit_opened note exp_stat_sn) r.0 r.1) }
{
    Disk::start(
        alloc,
        Session {
            info: unnamed(alloc, note.lun),
            cmd_sn: note.cmd_sn,
            exp_stat_sn,
            task: note.task,
            chap: 0,
        },
    )
}

/// What a session was begun with, of which its commands need the unit alone.
fn unnamed(alloc: Global, lun: [u8; 8]) -> LoginInfo
    ensures { result.lun ≡ lun }
{
    LoginInfo {
        initiator: Text::from_vec(Vec::new(alloc)),
        target: Text::from_vec(Vec::new(alloc)),
        lun,
        user: Text::from_vec(Vec::new(alloc)),
        secret: Text::from_vec(Vec::new(alloc)),
        reverse_user: Text::from_vec(Vec::new(alloc)),
        reverse_secret: Text::from_vec(Vec::new(alloc)),
        words: [0; 8],
    }
}

/// A PDU comes, which this record completed.
pub(crate) fn serve_pdu(
    alloc: Global,
    disk: &mut Disk,
    rec: u32,
    pdu: &Pdu<'_>,
    acts: &mut Acts,
) -> Result<UnitAnswer, NoMemory>
    ensures { IfOk result (λ a. (o : SessionNumbers) (calls : List DiskCall) → DiskStands o calls disk.old → session_has_ended o calls ≡ false
        → AnswersUnit o calls (came rec (pdu_parts pdu.now)) disk.new a) }
{
    let was_busy = disk.is_busy();
    let text = disk.pdu(alloc, rec, pdu, acts)?;
    Ok(UnitAnswer {
        text,
        gives: acts.give.is_some(),
        answered: answered(disk, was_busy, acts.over.is_some()),
        over: acts.over,
    })
}

/// The number of blocks, where a command was at work, was answered, and the session goes on.
fn answered(disk: &Disk, was_busy: bool, is_over: bool) -> Option<u32>
    ensures { result ≡ answered_so is_over was_busy (has_work disk.now.work) (work_capacity disk.now.work) }
{
    if !is_over && was_busy && !disk.is_busy() {
        disk.capacity()
    } else {
        None
    }
}

/// No further PDU comes, as this record showed.
pub(crate) fn serve_end(disk: &mut Disk, rec: u32, acts: &mut Acts) -> UnitAnswer
    ensures { (o : SessionNumbers) (calls : List DiskCall) → DiskStands o calls disk.old → session_has_ended o calls ≡ false
        → AnswersUnit o calls (stream_ended rec) disk.new result }
{
    disk.finish(rec, acts);
    UnitAnswer {
        text: None,
        gives: false,
        answered: None,
        over: acts.over,
    }
}
