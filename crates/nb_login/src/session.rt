//! An opened session.

use crate::info::LoginInfo;

/// A session in its full feature phase: what it was begun with, and where its numbers stand.
#[derive(Drop)]
pub struct Session {
    pub info: LoginInfo,
    /// The number of the next command. The login's requests were immediate and don't count.
    pub cmd_sn: u32,
    /// The number of the next answer.
    pub exp_stat_sn: u32,
    /// The tag of the next task.
    pub task: u32,
    /// 0 without CHAP, 1 where we answered the target's challenge, 2 where it also answered ours.
    pub chap: u8,
}
