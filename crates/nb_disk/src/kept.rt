//! What a disk keeps, and the commands that it puts.

ghost use Rattle.std.specs.Prelude.{◌≡◌, ◌*◌, ◌≤◌, IfOk, OnOk, OnErr};
ghost use Rattle.nb_iscsipdu.specs.PduTexts.{pdu_text};
ghost use Rattle.nb_iscsipdu.specs.Requests.{command_pdu};
ghost use Rattle.nb_disk.specs.Steps.{kept_of, next_command, kept_putting};

use crate::work::Work;
use arrayvec::ArrayVec;
use nb_iscsipdu::{Command, ScsiCommand};
use nb_terms::NoMemory;
use nb_wire::Text;
use std::alloc::Global;

/// The numbers of a session, and what it is at.
#[derive(Drop)]
pub(crate) struct State {
    pub(crate) lun: [u8; 8],
    /// The number of the next command.
    pub(crate) cmd_sn: u32,
    /// The number of the next answer.
    pub(crate) exp_stat_sn: u32,
    /// The tag of the last command.
    pub(crate) task: u32,
    pub(crate) work: Work,
    /// What READ CAPACITY has brought.
    pub(crate) sized: ArrayVec<u8, 8>,
}

/// A command's text.
#[inline(always)]
pub(crate) fn command_text(alloc: Global, request: &ScsiCommand) -> Result<Text, NoMemory>
    ensures { IfOk result (λ text. text ≡ pdu_text (command_pdu request.now)) }
{
    request.pdu().text(alloc)
}

impl State {
    /// Puts the next command, after an answer before the one of this number, and is at this work then.
    #[inline(always)]
    pub(crate) fn put(
        &mut self,
        alloc: Global,
        exp_stat_sn: u32,
        command: Command,
        work: Work,
    ) -> Result<Text, NoMemory>
        ensures text { IfOk result (λ text. text ≡ pdu_text (next_command (kept_of self.old) exp_stat_sn command)) }
        ensures ok { OnOk result (kept_of self.new ≡ kept_putting (kept_of self.old) exp_stat_sn work) }
        ensures err { OnErr result (self.new ≡ self.old) }
    {
        let task_tag = self.task.wrapping_add(1);
        let request = ScsiCommand {
            lun: self.lun,
            task_tag,
            cmd_sn: self.cmd_sn,
            exp_stat_sn,
            command,
        };
        let text = command_text(alloc, &request)?;
        self.task = task_tag;
        self.cmd_sn = self.cmd_sn.wrapping_add(1);
        self.exp_stat_sn = exp_stat_sn;
        self.work = work;
        Ok(text)
    }
}
