// What settings make of a drive's login, after ipxe.org's settings for iSCSI, and what a boot table is to say of the
// client and of its hooked drives (RFC 7143, RFC 4173; iBFT 1.03). Left out are the login itself, the table's bytes, and
// who keeps the opens. Begin with `login_info`, then `HookedOpen` and `drive_info`.
#![tactic(auto)]

mod described;
mod hooked;
mod info;
mod laws;
mod login;
mod net;
mod target;
mod texts;

pub use hooked::HookedOpen;
pub use info::drive_info;
pub use laws::{
    named_disks_are_short, prefixes_are_ones, sent_names_hold_no_zero, unused_secrets_are_left_out,
};
pub use login::login_info;
