//! What is sent to a target, made of its fields.

ghost use Rattle.std.specs.Prelude.{◌≡◌, ◌≤◌, ◌<◌, ◌^◌, length};
ghost use Rattle.nb_iscsipdu.specs.PduTexts.{IsPdu, pdu_parts};
ghost use Rattle.nb_iscsipdu.specs.Requests.{login_flags, login_parts, login_pdu, command_pdu, nop_pdu};

use crate::command::Command;
use crate::opcode::{IMMEDIATE, LOGIN_REQUEST, NOP_OUT, SCSI_COMMAND};
use crate::pdu::Pdu;
use crate::stage::Stage;

/// The bit T of a login's flags: on to the next stage.
const TRANSIT: u8 = 0x80;
/// The bit that each NOP-Out has set.
const NOP_FLAG: u8 = 0x80;

/// A Login Request (RFC 7143, section 11.12): immediate, of the first connection of a new session.
#[derive(Clone, Copy, Drop)]
pub struct LoginRequest<'a> {
    pub current: Stage,
    /// The stage to go on to, where the bit T is set.
    pub next: Option<Stage>,
    pub isid: [u8; 6],
    pub task_tag: u32,
    pub cmd_sn: u32,
    pub exp_stat_sn: u32,
    /// Key texts, each with its zero byte.
    pub keys: &'a [u8],
}

/// A SCSI Command (RFC 7143, section 11.3).
#[derive(Clone, Copy, Drop)]
pub struct ScsiCommand {
    pub lun: [u8; 8],
    pub task_tag: u32,
    pub cmd_sn: u32,
    pub exp_stat_sn: u32,
    pub command: Command,
}

/// A NOP-Out that answers a NOP-In (RFC 7143, section 11.18): immediate, without a task of its own.
#[derive(Clone, Copy, Drop)]
pub struct NopOut {
    pub lun: [u8; 8],
    pub target_tag: u32,
    pub cmd_sn: u32,
    pub exp_stat_sn: u32,
}

impl<'a> LoginRequest<'a> {
    /// The request as a PDU.
    pub fn pdu(&self) -> Pdu<'a>
        requires { length self.now.keys.now ≤ 8192 }
        ensures value { pdu_parts result ≡ login_pdu (login_parts self.now) }
        ensures is { IsPdu (login_pdu (login_parts self.now)) }
    {
        let [l0, l1, l2, l3] = (self.keys.len() as u32).to_be_bytes();
        let [i0, i1, i2, i3, i4, i5] = self.isid;
        let [t0, t1, t2, t3] = self.task_tag.to_be_bytes();
        let [c0, c1, c2, c3] = self.cmd_sn.to_be_bytes();
        let [e0, e1, e2, e3] = self.exp_stat_sn.to_be_bytes();
        let code = LOGIN_REQUEST + IMMEDIATE;
        let flags = login_flags(self.current, self.next);
        Pdu {
            head: [
                code, flags, 0, 0, l0, l1, l2, l3, i0, i1, i2, i3, i4, i5, 0, 0, t0, t1, t2, t3, 0,
                0, 0, 0, c0, c1, c2, c3, e0, e1, e2, e3, 0, 0, 0, 0, 0, 0, 0, 0, 0, 0, 0, 0, 0, 0,
                0, 0,
            ],
            seg: self.keys,
        }
    }
}

fn login_flags(current: Stage, next: Option<Stage>) -> u8
    ensures { result ≡ login_flags current next }
{
    match next {
        None => 4 * current.number(),
        Some(next) => TRANSIT + 4 * current.number() + next.number(),
    }
}

impl ScsiCommand {
    /// The request as a PDU.
    pub fn pdu(&self) -> Pdu<'static>
        ensures value { pdu_parts result ≡ command_pdu self.now }
        ensures is { IsPdu (command_pdu self.now) }
    {
        let [l0, l1, l2, l3, l4, l5, l6, l7] = self.lun;
        let [t0, t1, t2, t3] = self.task_tag.to_be_bytes();
        let [n0, n1, n2, n3] = self.command.asked_len().to_be_bytes();
        let [c0, c1, c2, c3] = self.cmd_sn.to_be_bytes();
        let [e0, e1, e2, e3] = self.exp_stat_sn.to_be_bytes();
        let [
            b0,
            b1,
            b2,
            b3,
            b4,
            b5,
            b6,
            b7,
            b8,
            b9,
            b10,
            b11,
            b12,
            b13,
            b14,
            b15,
        ] = self.command.block();
        let code = SCSI_COMMAND;
        let flags = self.command.flags();
        Pdu {
            head: [
                code, flags, 0, 0, 0, 0, 0, 0, l0, l1, l2, l3, l4, l5, l6, l7, t0, t1, t2, t3, n0,
                n1, n2, n3, c0, c1, c2, c3, e0, e1, e2, e3, b0, b1, b2, b3, b4, b5, b6, b7, b8, b9,
                b10, b11, b12, b13, b14, b15,
            ],
            seg: &[],
        }
    }
}

impl NopOut {
    /// The answer as a PDU.
    pub fn pdu(&self) -> Pdu<'static>
        ensures value { pdu_parts result ≡ nop_pdu self.now }
        ensures is { IsPdu (nop_pdu self.now) }
    {
        let [l0, l1, l2, l3, l4, l5, l6, l7] = self.lun;
        let [t0, t1, t2, t3] = self.target_tag.to_be_bytes();
        let [c0, c1, c2, c3] = self.cmd_sn.to_be_bytes();
        let [e0, e1, e2, e3] = self.exp_stat_sn.to_be_bytes();
        let code = NOP_OUT + IMMEDIATE;
        let flags = NOP_FLAG;
        Pdu {
            head: [
                code, flags, 0, 0, 0, 0, 0, 0, l0, l1, l2, l3, l4, l5, l6, l7, 0xff, 0xff, 0xff,
                0xff, t0, t1, t2, t3, c0, c1, c2, c3, e0, e1, e2, e3, 0, 0, 0, 0, 0, 0, 0, 0, 0, 0,
                0, 0, 0, 0, 0, 0,
            ],
            seg: &[],
        }
    }
}
