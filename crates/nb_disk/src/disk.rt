//! The core of a drive.

ghost use Rattle.std.specs.Prelude.{◌≡◌};
ghost use Rattle.nb_disk.specs.DiskStands.{is_out_of};

use crate::blocks::{BLOCK, BlockSource, ReadRefusal};
use crate::causes::broken;
use crate::kept::{State, command_text};
use crate::work::Work;
use arrayvec::ArrayVec;
use nb_iscsipdu::{Command, Pdu, ScsiCommand};
use nb_login::Session;
use nb_terms::{Acts, NoMemory};
use nb_wire::Text;
use std::alloc::Global;
use std::marker::Model;

/// Whether so many blocks from this one on go beyond the capacity, where it is known.
fn is_out(capacity: Option<u32>, lba: u32, n: u16) -> bool
    ensures { result ≡ is_out_of capacity lba n }
{
    match capacity {
        None => false,
        Some(capacity) => u64::from(lba) + u64::from(n) > u64::from(capacity),
    }
}

/// The commands of one session, one at a time.
#[derive(Drop)]
pub struct Disk {
    state: State,
}

impl Model for Disk {
    ghost use Rattle.nb_disk.specs.Steps.{KeptNumbers, kept_of};

    ghost Value = { KeptNumbers };

    ghost view = { λ d. kept_of d.state };
}

impl Disk {
    ghost use Rattle.std.specs.Prelude.{◌≡◌, ◌<◌, ◌≤◌, ◌+◌, ◌∷◌, ◌++◌, ◌↔◌, [], ℕ, List, IfOk, OnOk, OnErr, IsErrOf, Some, None, true, false, option_map, length, slice_range};
    ghost use Rattle.std.specs.Option.{is_some};
    ghost use Rattle.nb_iscsipdu.specs.PduTexts.{pdu_parts, pdu_text};
    ghost use Rattle.nb_iscsipdu.specs.declared.command.Command.TheVariants.{TestUnitReady};
    ghost use Rattle.nb_disk.specs.Histories.{DiskCall, came, asked, stream_ended, nothing_read, SessionNumbers, reading, at_work, capacity_read};
    ghost use Rattle.nb_disk.specs.DiskAnswers.{opened_of, disk_answer, command_after, disk_acts, disk_asks_nothing, session_has_ended};
    ghost use Rattle.nb_disk.specs.DiskStands.{DiskStands, IsDiskAnswer, RefusesRead};
    ghost use Rattle.nb_disk.specs.Steps.{work_is_over, work_capacity, has_work, read_text, kept_asked};
    ghost use Rattle.nb_disk.specs.BlockReads.{TakesRead, WaitsForRead};

    /// Begins with TEST UNIT READY.
    pub fn start(alloc: Global, session: Session) -> Result<(Disk, Text), NoMemory>
        ensures stands { IfOk result (λ r. DiskStands (opened_of session) [] r.0) }
        ensures request { IfOk result (λ r. r.1 ≡ pdu_text (command_after (opened_of session) nothing_read 0 TestUnitReady)) }
    {
        let lun = session.info.lun;
        let request = ScsiCommand {
            lun,
            task_tag: session.task,
            cmd_sn: session.cmd_sn,
            exp_stat_sn: session.exp_stat_sn,
            command: Command::TestUnitReady,
        };
        let text = command_text(alloc, &request)?;
        let state = State {
            lun,
            cmd_sn: session.cmd_sn.wrapping_add(1),
            exp_stat_sn: session.exp_stat_sn,
            task: session.task,
            work: Work::Testing(0),
            sized: ArrayVec::new(),
        };
        Ok((Disk { state }, text))
    }

    /// A PDU comes, which this record brought; returns the text of the request that answers it. The data of a
    /// read are handed up as a range of the PDU's bytes, its head and its data segment.
    pub fn pdu(
        &mut self,
        alloc: Global,
        rec: u32,
        p: &Pdu<'_>,
        acts: &mut Acts,
    ) -> Result<Option<Text>, NoMemory>
        // With this PDU the disk stands for one call more, and answers it as all of them together call for.
        ensures stands { IfOk result (λ text. (o : SessionNumbers) (calls : List DiskCall) → DiskStands o calls self.old → session_has_ended o calls ≡ false
            → DiskStands o (calls ++ came rec (pdu_parts p.now) ∷ []) self.new × IsDiskAnswer (disk_answer o (reading o calls) (came rec (pdu_parts p.now))) text acts.new) }
        // After its end it ignores every PDU.
        ensures ended { (o : SessionNumbers) (calls : List DiskCall) → DiskStands o calls self.old → session_has_ended o calls ≡ true
            → (result ≡ Ok None) × (self.new ≡ self.old) × (acts.new ≡ disk_asks_nothing) }
        ensures err { OnErr result ((self.new ≡ self.old) × (acts.new ≡ disk_asks_nothing)) }
    {
        acts.clear();
        if self.state.work.is_over() {
            return Ok(None);
        }
        self.state.on_pdu(alloc, rec, p, acts)
    }

    /// The stream has ended, or can't be read on: it ends, as this record brought it.
    pub fn finish(&mut self, rec: u32, acts: &mut Acts)
        ensures stands { (o : SessionNumbers) (calls : List DiskCall) → DiskStands o calls self.old → session_has_ended o calls ≡ false
            → DiskStands o (calls ++ stream_ended rec ∷ []) self.new × (acts.new ≡ disk_acts (disk_answer o (reading o calls) (stream_ended rec))) }
        // After its end it ignores that.
        ensures ended { (o : SessionNumbers) (calls : List DiskCall) → DiskStands o calls self.old → session_has_ended o calls ≡ true
            → (self.new ≡ self.old) × (acts.new ≡ disk_asks_nothing) }
    {
        acts.clear();
        if self.state.work.is_over() {
            return;
        }
        let _ = self.state.end(broken(rec), acts);
    }

    /// Asks for so many blocks, from this one on; returns the text of the request. The disk may not have ended.
    pub fn read(&mut self, alloc: Global, lba: u32, n: u16) -> Result<Text, ReadRefusal>
        requires some { 1 ≤ n }
        requires few { n ≤ 64 }
        requires live { work_is_over self.old.work ≡ false }
        ensures stands { IfOk result (λ text. (o : SessionNumbers) (calls : List DiskCall) → DiskStands o calls self.old
            → DiskStands o (calls ++ asked lba n ∷ []) self.new × (Some text ≡ option_map pdu_text (disk_answer o (reading o calls) (asked lba n)).put)) }
        // It is refused where it goes beyond the capacity that was read, and else where a command isn't answered.
        ensures refused { (o : SessionNumbers) (calls : List DiskCall) → DiskStands o calls self.old → RefusesRead (reading o calls) lba n result }
        ensures takes { TakesRead (work_capacity self.old.work) (has_work self.old.work) lba n result }
        // Its text and what it keeps are functions of what it kept and of what is asked for.
        ensures text { IfOk result (λ text. text ≡ read_text self.old lba n) }
        ensures left { OnOk result (self.new ≡ kept_asked self.old lba n) }
        ensures out { OnOk result (WaitsForRead (work_capacity self.old.work) (work_capacity self.new.work) (has_work self.new.work) (work_is_over self.new.work)) }
        ensures err { OnErr result (self.new ≡ self.old) }
    {
        if is_out(self.state.work.capacity(), lba, n) {
            return Err(ReadRefusal::OutOfDisk);
        }
        match self.state.work {
            Work::Idle(capacity) => {
                let work = Work::Reading {
                    capacity,
                    asked: BLOCK * n,
                    got: 0,
                };
                let exp_stat_sn = self.state.exp_stat_sn;
                let command = Command::Read { lba, blocks: n };
                let text = self.state.put(alloc, exp_stat_sn, command, work)?;
                Ok(text)
            }
            Work::Testing(_) => Err(ReadRefusal::Busy),
            Work::Sizing => Err(ReadRefusal::Busy),
            Work::Reading {
                capacity: _,
                asked: _,
                got: _,
            } => Err(ReadRefusal::Busy),
            Work::Over(_) => Err(ReadRefusal::Busy),
        }
    }

    /// The number of blocks, once READ CAPACITY was answered.
    pub fn capacity(&self) -> Option<u32>
        ensures value { result ≡ work_capacity self.now.work }
        ensures read { (o : SessionNumbers) (calls : List DiskCall) → DiskStands o calls self.now → result ≡ capacity_read (reading o calls) }
    {
        self.state.work.capacity()
    }

    /// Whether a command isn't answered.
    pub fn is_busy(&self) -> bool
        ensures value { result ≡ has_work self.now.work }
        ensures at_work { (o : SessionNumbers) (calls : List DiskCall) → DiskStands o calls self.now → session_has_ended o calls ≡ false → result ≡ is_some (at_work (reading o calls)) }
    {
        self.state.work.has_task()
    }

    /// Whether it has ended.
    pub fn has_ended(&self) -> bool
        ensures value { result ≡ work_is_over self.now.work }
        ensures stands { (o : SessionNumbers) (calls : List DiskCall) → DiskStands o calls self.now → result ≡ session_has_ended o calls }
    {
        self.state.work.is_over()
    }
}

/// The blocks of a session's drive.
impl BlockSource for Disk {
    ghost use Rattle.nb_disk.specs.Steps.{work_is_over, work_capacity, has_work, read_text, kept_asked};

    ghost size_of = { λ k. work_capacity k.work };

    ghost waits = { λ k. has_work k.work };

    ghost is_over = { λ k. work_is_over k.work };

    ghost asks = { read_text };

    ghost asked = { kept_asked };

    fn capacity(&self) -> Option<u32> {
        Disk::capacity(self)
    }

    fn is_busy(&self) -> bool {
        Disk::is_busy(self)
    }

    fn has_ended(&self) -> bool {
        Disk::has_ended(self)
    }

    fn read(&mut self, alloc: Global, lba: u32, n: u16) -> Result<Text, ReadRefusal> {
        Disk::read(self, alloc, lba, n)
    }
}
