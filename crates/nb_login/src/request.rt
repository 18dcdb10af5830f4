//! The text of each request (RFC 7143, section 11.12).

ghost use Rattle.std.specs.Prelude.{◌≡◌, ◌≤◌, length, IfOk};
ghost use Rattle.nb_login.specs.Asking.{carried_keys, login_text, request_parts};

use crate::info::LoginInfo;
use crate::step::NextRequest;
use nb_iscsipdu::{LoginRequest, MAX_SEGMENT};
use nb_terms::NoMemory;
use nb_wire::Text;
use std::alloc::Global;

/// The tag of the login's task.
const LOGIN_TASK: u32 = 1;
/// The number of the first command. The requests of a login are immediate, so they don't count it on (RFC
/// 7143, section 4.2.2.1).
pub(crate) const FIRST_COMMAND: u32 = 1;
/// The tag of the first command's task.
pub(crate) const FIRST_TASK: u32 = 2;

impl LoginInfo {
    /// The text of a request.
    #[tactic(auto, unfolding(crate::specs::Asking::request_parts, crate::specs::Asking::login_text))]
    pub(crate) fn request(
        &self,
        alloc: Global,
        request: &NextRequest,
        exp_stat_sn: u32,
    ) -> Result<Text, NoMemory>
        ensures { IfOk result (λ text. text ≡ login_text self.now request.now exp_stat_sn) }
    {
        let keys = self.keys(alloc, request)?;
        let step = request.step();
        let login = LoginRequest {
            current: step.stage(),
            next: step.next_stage(),
            isid: self.isid(),
            task_tag: LOGIN_TASK,
            cmd_sn: FIRST_COMMAND,
            exp_stat_sn,
            keys: carried(keys.as_slice()),
        };
        login.pdu().text(alloc)
    }
}

/// The keys, or none where no PDU can carry them.
fn carried(keys: &[u8]) -> &[u8]
    ensures value { result.now ≡ carried_keys keys.now }
    ensures few { length result.now ≤ 8192 }
{
    if keys.len() <= MAX_SEGMENT { keys } else { &[] }
}
