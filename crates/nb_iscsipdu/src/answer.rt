//! What a target sends, read into its fields.

ghost use Rattle.std.specs.Prelude.{◌≡◌, IfSome, IsSome};
ghost use Rattle.nb_iscsipdu.specs.PduTexts.{pdu_parts};
ghost use Rattle.nb_iscsipdu.specs.Answers.{AnswerParts, DataInParts, data_in, answer_parts, answer_read, login_response_parts, login_response, data_in_parts, data_in_read, task_status, status_with_data, scsi_response, nop_in_read};

use crate::keys::Keys;
use crate::opcode::{DATA_IN, LOGIN_RESPONSE, NOP_IN, OPCODES, SCSI_RESPONSE};
use crate::pdu::{Pdu, word_at};
use crate::stage::Stage;

/// The places of the fields in a head.
const TASK_TAG: usize = 16;

const TARGET_TAG: usize = 20;

const STAT_SN: usize = 24;

const LOGIN_STATUS: usize = 36;

const OFFSET: usize = 40;

/// The bit T of a login's flags: on to the next stage.
const TRANSIT: u8 = 0x80;
/// The next stage is the remainder of a login's flags by this.
const STAGES: u8 = 4;

/// How a task ended, and the number of the answer that brings it.
#[derive(Clone, Copy, Drop)]
pub struct TaskStatus {
    /// The SCSI status; 0 is good, 2 a check condition.
    pub status: u8,
    pub stat_sn: u32,
}

/// A Login Response (RFC 7143, section 11.13).
#[derive(Clone, Copy, Drop)]
pub struct LoginResponse<'a> {
    /// The target goes on to the next stage.
    pub transit: bool,
    /// The next stage, which counts where `transit` is set. None is the reserved number.
    pub next: Option<Stage>,
    pub stat_sn: u32,
    /// The class of the status; 0 is success.
    pub class: u8,
    pub detail: u8,
    pub keys: Keys<'a>,
}

/// A SCSI Response (RFC 7143, section 11.4).
#[derive(Clone, Copy, Drop)]
pub struct ScsiResponse {
    pub task_tag: u32,
    /// 0 where the target completed the command.
    pub response: u8,
    pub status: TaskStatus,
}

/// A Data-In (RFC 7143, section 11.7).
#[derive(Clone, Copy, Drop)]
pub struct DataIn<'a> {
    pub task_tag: u32,
    /// The place of the data among those that were asked for.
    pub offset: u32,
    /// The task's status, where the flag S is set.
    pub status: Option<TaskStatus>,
    pub bytes: &'a [u8],
}

/// A NOP-In (RFC 7143, section 11.19).
#[derive(Clone, Copy, Drop)]
pub struct NopIn {
    pub lun: [u8; 8],
    /// FFFFFFFF where no answer is asked for.
    pub target_tag: u32,
}

/// A target's PDU.
#[derive(Clone, Copy, Drop)]
pub enum Answer<'a> {
    Login(LoginResponse<'a>),
    Scsi(ScsiResponse),
    Data(DataIn<'a>),
    Nop(NopIn),
    /// A PDU of another opcode, a Reject among them.
    Other,
}

impl<'a> Answer<'a> {
    /// What the PDU is.
    #[tactic(auto, unfolding(crate::specs::Answers::answer_read))]
    pub fn read(pdu: &Pdu<'a>) -> Answer<'a>
        ensures { answer_parts result ≡ answer_read (pdu_parts pdu.now) }
    {
        match pdu.head[0] % OPCODES {
            NOP_IN => Answer::Nop(nop_in(&pdu.head)),
            SCSI_RESPONSE => Answer::Scsi(scsi_response(&pdu.head)),
            LOGIN_RESPONSE => Answer::Login(login_response(pdu)),
            DATA_IN => Answer::Data(data_in(pdu)),
            _ => Answer::Other,
        }
    }
}

impl<'a> DataIn<'a> {
    /// The Data-In that the PDU is, if it is one: most of what a drive is sent is.
    #[tactic(auto, unfolding(crate::specs::Answers::answer_read))]
    #[inline(always)]
    pub fn of(pdu: &Pdu<'a>) -> Option<DataIn<'a>>
        ensures sound { IfSome result (λ d. answer_read (pdu_parts pdu.now) ≡ data_in (data_in_parts d)) }
        ensures complete { (d : DataInParts) → answer_read (pdu_parts pdu.now) ≡ data_in d → IsSome result }
    {
        if pdu.head[0] % OPCODES == DATA_IN {
            Some(data_in(pdu))
        } else {
            None
        }
    }
}

fn nop_in(head: &[u8; 48]) -> NopIn
    ensures { result ≡ nop_in_read head.now }
{
    let [_, _, _, _, _, _, _, _, l0, l1, l2, l3, l4, l5, l6, l7, ..] = *head;
    NopIn {
        lun: [l0, l1, l2, l3, l4, l5, l6, l7],
        target_tag: word_at(head, TARGET_TAG),
    }
}

fn task_status(head: &[u8; 48]) -> TaskStatus
    ensures { result ≡ task_status head.now }
{
    TaskStatus {
        status: head[3],
        stat_sn: word_at(head, STAT_SN),
    }
}

fn scsi_response(head: &[u8; 48]) -> ScsiResponse
    ensures { result ≡ scsi_response head.now }
{
    ScsiResponse {
        task_tag: word_at(head, TASK_TAG),
        response: head[2],
        status: task_status(head),
    }
}

fn login_response<'a>(pdu: &Pdu<'a>) -> LoginResponse<'a>
    ensures { login_response_parts result ≡ login_response (pdu_parts pdu.now) }
{
    let head = &pdu.head;
    LoginResponse {
        transit: head[1] >= TRANSIT,
        next: Stage::numbered(head[1] % STAGES),
        stat_sn: word_at(head, STAT_SN),
        class: head[LOGIN_STATUS],
        detail: head[LOGIN_STATUS + 1],
        keys: Keys { bytes: pdu.seg },
    }
}

fn data_in<'a>(pdu: &Pdu<'a>) -> DataIn<'a>
    ensures { data_in_parts result ≡ data_in_read (pdu_parts pdu.now) }
{
    let head = &pdu.head;
    DataIn {
        task_tag: word_at(head, TASK_TAG),
        offset: word_at(head, OFFSET),
        status: status_with_data(head),
        bytes: pdu.seg,
    }
}

/// The status that comes with data, where the flag S is set.
fn status_with_data(head: &[u8; 48]) -> Option<TaskStatus>
    ensures { result ≡ status_with_data head.now }
{
    if head[1] % 2 == 1 {
        Some(task_status(head))
    } else {
        None
    }
}
