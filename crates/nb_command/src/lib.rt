// The commands of a script, after ipxe.org's references: `plan` reads the words of a command, which
// are expanded already, and `apply` carries the plan out on the client's state. What ends at once
// has its outcome; what takes time is a `Job` for the client. Here are echo, exit, goto, isset, iseq,
// set, clear, show, inc, ifopen, ifclose, dhcp, ping, nslookup and sleep; the commands on images are those of
// nb_imagecmd. Left out are all other commands, and each option of these that begins with `--`. Begin with
// `CommandPlan`, `plan` and `apply`.
#![tactic(auto)]

mod address;
mod applying;
mod base;
mod clear;
mod command_name;
mod command_plan;
mod device;
mod dhcp;
mod echo;
mod error;
mod exit;
mod goto;
mod ifclose;
mod ifopen;
mod inc;
mod iseq;
mod isset;
mod nslookup;
mod outcome;
mod ping;
mod planning;
mod set;
mod setting;
mod setting_addresses;
mod show;
mod sleep;
mod state;
mod words;

pub use address::{put_address, refuses_address};
pub use applying::apply;
pub use base::script_base;
pub use command_name::CommandName;
pub use command_plan::CommandPlan;
pub use error::ApplyError;
pub use nb_imagecmd::PlanError;
pub use outcome::{Job, Outcome};
pub use planning::plan;
pub use setting_addresses::{nonzero, setting_address};
pub use state::State;
