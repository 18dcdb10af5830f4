//! The steps of a disk's session, by what comes.

ghost use Rattle.std.specs.Prelude.{◌≡◌, ◌≤◌, ◌<◌, ◌+◌, ◌*◌, ◌^◌, ◌++◌, [], true, length, nat_le, IfOk, OnErr, None, Some};
ghost use Rattle.nb_iscsipdu.specs.PduTexts.{pdu_parts};
ghost use Rattle.nb_iscsipdu.specs.Answers.{answer_read, data_in_parts};
ghost use Rattle.nb_disk.specs.DiskAnswers.{disk_acts, disk_asks_nothing, ends, data_range};
ghost use Rattle.nb_disk.specs.Steps.{IsDiskStep, HasRoom, HasMore, kept_of, step_ends, step_grown, step_tested, step_sized, step_read, step_answered, step_data, step_response, step_nop, step_pdu, fits_work, kept_sized, kept_idle};

use crate::causes::{broken, refused};
use crate::kept::State;
use crate::sizing::capacity_of;
use crate::work::Work;
use nb_iscsipdu::{
    Answer, Command, DataIn, HEAD_LEN, NopIn, NopOut, Pdu, ScsiResponse, TaskStatus,
};
use nb_terms::{Acts, Cause, NoMemory};
use nb_wire::Text;
use std::alloc::Global;

/// The status of a task that went well.
const GOOD: u8 = 0;
/// A check condition: the unit has something to say first.
const CHECK_CONDITION: u8 = 2;
/// How many check conditions are answered by another TEST UNIT READY.
const MOST_CHECKS: u8 = 3;
/// A NOP-In's tag that asks for no answer.
const NO_TAG: u32 = 0xffff_ffff;
/// The bytes that READ CAPACITY(10) asks for.
const CAPACITY_LEN: u16 = 8;

/// The range of a PDU's bytes that has so many bytes of data.
fn data_range(len: u16) -> Option<(u32, u32)>
    ensures { result ≡ data_range len }
{
    if len == 0 {
        None
    } else {
        Some((HEAD_LEN as u32, HEAD_LEN as u32 + u32::from(len)))
    }
}

/// Whether so many bytes more are no more than were asked for.
fn has_room(asked: u16, got: u16, len: usize) -> bool
    ensures { result ≡ nat_le (got + len) asked }
{
    got <= asked && len <= usize::from(asked - got)
}

impl State {
    /// A PDU comes.
    pub(crate) fn on_pdu(
        &mut self,
        alloc: Global,
        rec: u32,
        p: &Pdu<'_>,
        acts: &mut Acts,
    ) -> Result<Option<Text>, NoMemory>
        requires { acts.old ≡ disk_asks_nothing }
        ensures ok { IfOk result (λ text. IsDiskStep (step_pdu (kept_of self.old) rec (answer_read (pdu_parts p.now))) (kept_of self.new) text acts.new) }
        ensures err { OnErr result ((self.new ≡ self.old) × (acts.new ≡ disk_asks_nothing)) }
    {
        if let Some(part) = DataIn::of(p) {
            return self.on_data(alloc, rec, &part, acts);
        }
        self.on_other(alloc, rec, p, acts)
    }

    /// A PDU comes, of any kind.
    #[inline(never)]
    fn on_other(
        &mut self,
        alloc: Global,
        rec: u32,
        p: &Pdu<'_>,
        acts: &mut Acts,
    ) -> Result<Option<Text>, NoMemory>
        requires { acts.old ≡ disk_asks_nothing }
        ensures ok { IfOk result (λ text. IsDiskStep (step_pdu (kept_of self.old) rec (answer_read (pdu_parts p.now))) (kept_of self.new) text acts.new) }
        ensures err { OnErr result ((self.new ≡ self.old) × (acts.new ≡ disk_asks_nothing)) }
    {
        match Answer::read(p) {
            Answer::Nop(nop) => self.on_nop(alloc, &nop),
            Answer::Data(part) => self.on_data(alloc, rec, &part, acts),
            Answer::Scsi(response) => self.on_response(alloc, rec, &response, acts),
            Answer::Login(_) => Ok(self.end(broken(rec), acts)),
            Answer::Other => Ok(self.end(broken(rec), acts)),
        }
    }

    /// It ends.
    pub(crate) fn end(&mut self, cause: Cause, acts: &mut Acts) -> Option<Text>
        requires { acts.old ≡ disk_asks_nothing }
        ensures { IsDiskStep (step_ends (kept_of self.old) cause) (kept_of self.new) result acts.new }
    {
        self.work = Work::Over(self.work.capacity());
        acts.over = Some(cause);
        None
    }

    /// A NOP-In comes. The answer is immediate: it doesn't count the next command's number on.
    fn on_nop(&mut self, alloc: Global, nop: &NopIn) -> Result<Option<Text>, NoMemory>
        ensures ok { IfOk result (λ text. IsDiskStep (step_nop (kept_of self.old) nop.now) (kept_of self.new) text disk_asks_nothing) }
        ensures same { self.new ≡ self.old }
    {
        if nop.target_tag == NO_TAG {
            return Ok(None);
        }
        let answer = NopOut {
            lun: nop.lun,
            target_tag: nop.target_tag,
            cmd_sn: self.cmd_sn,
            exp_stat_sn: self.exp_stat_sn,
        };
        let text = answer.pdu().text(alloc)?;
        Ok(Some(text))
    }

    /// A SCSI Response comes.
    fn on_response(
        &mut self,
        alloc: Global,
        rec: u32,
        response: &ScsiResponse,
        acts: &mut Acts,
    ) -> Result<Option<Text>, NoMemory>
        requires { acts.old ≡ disk_asks_nothing }
        ensures ok { IfOk result (λ text. IsDiskStep (step_response (kept_of self.old) rec self.old.work response.now) (kept_of self.new) text acts.new) }
        ensures err { OnErr result ((self.new ≡ self.old) × (acts.new ≡ disk_asks_nothing)) }
    {
        let _size = self.sized.len();
        if self.work.has_task() && response.task_tag == self.task && response.response == 0 {
            self.on_status(alloc, rec, b"", response.status, acts)
        } else {
            Ok(self.end(broken(rec), acts))
        }
    }

    /// A Data-In comes.
    #[inline(always)]
    fn on_data(
        &mut self,
        alloc: Global,
        rec: u32,
        part: &DataIn<'_>,
        acts: &mut Acts,
    ) -> Result<Option<Text>, NoMemory>
        requires { acts.old ≡ disk_asks_nothing }
        ensures ok { IfOk result (λ text. IsDiskStep (step_data (kept_of self.old) rec self.old.work (data_in_parts part.now)) (kept_of self.new) text acts.new) }
        ensures err { OnErr result ((self.new ≡ self.old) × (acts.new ≡ disk_asks_nothing)) }
    {
        if part.task_tag != self.task || !self.fits(part) {
            return Ok(self.end(broken(rec), acts));
        }
        match part.status {
            None => Ok(self.grow(part.bytes, acts)),
            Some(status) => self.on_status(alloc, rec, part.bytes, status, acts),
        }
    }

    /// Whether data is the next of the task at work, and no more than was asked for.
    fn fits(&self, part: &DataIn<'_>) -> bool
        ensures value { result ≡ fits_work (kept_of self.now) self.now.work (data_in_parts part.now) }
        ensures room { result ≡ true → HasRoom self.now.work self.now.sized.items part.now.bytes.now }
        ensures more { result ≡ true → HasMore self.now.work self.now.sized.items part.now.bytes.now }
    {
        match self.work {
            Work::Testing(_) => part.offset == 0 && has_room(0, 0, part.bytes.len()),
            Work::Sizing => {
                let got = self.sized.len() as u16;
                part.offset == u32::from(got) && has_room(CAPACITY_LEN, got, part.bytes.len())
            }
            Work::Reading {
                capacity: _,
                asked,
                got,
            } => part.offset == u32::from(got) && has_room(asked, got, part.bytes.len()),
            Work::Idle(_) => false,
            Work::Over(_) => false,
        }
    }

    /// Data comes without a status.
    fn grow(&mut self, bytes: &[u8], acts: &mut Acts) -> Option<Text>
        requires nothing { acts.old ≡ disk_asks_nothing }
        requires more { HasMore self.old.work self.old.sized.items bytes.now }
        ensures { IsDiskStep (step_grown (kept_of self.old) self.old.work bytes.now) (kept_of self.new) result acts.new }
    {
        match self.work {
            Work::Sizing => self.gather(bytes),
            Work::Reading {
                capacity,
                asked,
                got,
            } => {
                let len = bytes.len() as u16;
                self.work = Work::Reading {
                    capacity,
                    asked,
                    got: got + len,
                };
                acts.give = data_range(len);
            }
            _ => {}
        }
        None
    }

    /// Keeps what READ CAPACITY brings.
    fn gather(&mut self, bytes: &[u8])
        requires { length self.old.sized.items + length bytes.now ≤ 8 }
        ensures { kept_of self.new ≡ kept_sized (kept_of self.old) (self.old.sized.items ++ bytes.now) }
    {
        let _ = self.sized.try_extend_from_slice(bytes);
    }

    /// The status of the task at work comes, with these bytes at last.
    #[inline(always)]
    fn on_status(
        &mut self,
        alloc: Global,
        rec: u32,
        bytes: &[u8],
        status: TaskStatus,
        acts: &mut Acts,
    ) -> Result<Option<Text>, NoMemory>
        requires nothing { acts.old ≡ disk_asks_nothing }
        requires room { HasRoom self.old.work self.old.sized.items bytes.now }
        ensures ok { IfOk result (λ text. IsDiskStep (step_answered (kept_of self.old) rec self.old.work bytes.now status) (kept_of self.new) text acts.new) }
        ensures err { OnErr result ((self.new ≡ self.old) × (acts.new ≡ disk_asks_nothing)) }
    {
        match self.work {
            Work::Testing(checks) => self.on_tested(alloc, rec, checks, status, acts),
            Work::Sizing => Ok(self.on_sized(rec, bytes, status, acts)),
            Work::Reading {
                capacity,
                asked,
                got,
            } => Ok(self.on_read(rec, capacity, asked, got, bytes, status, acts)),
            Work::Idle(_) => Ok(self.end(broken(rec), acts)),
            Work::Over(_) => Ok(self.end(broken(rec), acts)),
        }
    }

    /// TEST UNIT READY was answered.
    fn on_tested(
        &mut self,
        alloc: Global,
        rec: u32,
        checks: u8,
        status: TaskStatus,
        acts: &mut Acts,
    ) -> Result<Option<Text>, NoMemory>
        requires { acts.old ≡ disk_asks_nothing }
        ensures ok { IfOk result (λ text. IsDiskStep (step_tested (kept_of self.old) rec checks status) (kept_of self.new) text acts.new) }
        ensures err { OnErr result ((self.new ≡ self.old) × (acts.new ≡ disk_asks_nothing)) }
    {
        let next = status.stat_sn.wrapping_add(1);
        if status.status == GOOD {
            let text = self.put(alloc, next, Command::ReadCapacity, Work::Sizing)?;
            return Ok(Some(text));
        }
        if status.status == CHECK_CONDITION && checks < MOST_CHECKS {
            let text = self.put(
                alloc,
                next,
                Command::TestUnitReady,
                Work::Testing(checks + 1),
            )?;
            return Ok(Some(text));
        }
        Ok(self.end(refused(rec, status.status), acts))
    }

    /// READ CAPACITY was answered.
    fn on_sized(
        &mut self,
        rec: u32,
        bytes: &[u8],
        status: TaskStatus,
        acts: &mut Acts,
    ) -> Option<Text>
        requires nothing { acts.old ≡ disk_asks_nothing }
        requires room { length self.old.sized.items + length bytes.now ≤ 8 }
        ensures { IsDiskStep (step_sized (kept_of self.old) rec bytes.now status) (kept_of self.new) result acts.new }
    {
        if status.status != GOOD {
            return self.end(refused(rec, status.status), acts);
        }
        self.gather(bytes);
        match capacity_of(self.sized.as_slice()) {
            Some(capacity) => self.rest(capacity, status),
            None => self.end(broken(rec), acts),
        }
    }

    /// A read was answered.
    fn on_read(
        &mut self,
        rec: u32,
        capacity: u32,
        asked: u16,
        got: u16,
        bytes: &[u8],
        status: TaskStatus,
        acts: &mut Acts,
    ) -> Option<Text>
        requires nothing { acts.old ≡ disk_asks_nothing }
        requires room { length bytes.now < 2 ^ 16 }
        ensures { IsDiskStep (step_read (kept_of self.old) rec capacity asked got bytes.now status) (kept_of self.new) result acts.new }
    {
        if status.status != GOOD {
            return self.end(refused(rec, status.status), acts);
        }
        if usize::from(got) + bytes.len() != usize::from(asked) {
            return self.end(broken(rec), acts);
        }
        acts.give = data_range(bytes.len() as u16);
        self.rest(capacity, status)
    }

    /// Nothing is at work after this answer, on a disk of so many blocks.
    fn rest(&mut self, capacity: u32, status: TaskStatus) -> Option<Text>
        ensures kept { kept_of self.new ≡ kept_idle (kept_of self.old) status capacity }
        ensures none { result ≡ None }
    {
        self.work = Work::Idle(capacity);
        self.exp_stat_sn = status.stat_sn.wrapping_add(1);
        None
    }
}
