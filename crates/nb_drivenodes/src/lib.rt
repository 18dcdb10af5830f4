// A drive of an iSCSI target as objects of nb_graph (RFC 7143): a session over the cores `Pdus` of nb_iscsipdu and
// `Login` of nb_login, with a connection below its slot 1, and a logical unit over the core `Disk` of nb_disk, with a
// session below its slot 1. They aren't nodes by themselves: a kind of node that has drives calls them, and its loads
// carry a text (`CarriesText`). What each has done is said over its trace, in terms of its core's promise
// (specs/SessionTalks.antt, specs/UnitTalks.antt). Begin with `Iscsi`, then `LogicalUnit` and `DriveTag`.
#![tactic(auto)]

mod asking;
mod drive_ask;
mod drive_tag;
mod iscsi;
mod logical_unit;
mod login_answer;
mod session_note;
mod session_stage;
mod text_load;
mod unit_answer;
mod unit_stage;

pub use drive_ask::{DriveAsk, DriveNames};
pub use drive_tag::DriveTag;
pub use iscsi::Iscsi;
pub use logical_unit::LogicalUnit;
pub use session_note::SessionNote;
pub use text_load::CarriesText;
