//! What a table says, its texts lent.

ghost use Rattle.std.specs.Prelude.{◌≡◌, ◌<◌, ◌≤◌, ◌^◌, length};
ghost use Rattle.nb_ibft.specs.Views.{lent_info, lent_target, lent_targets, boot_info, boot_target, boot_targets};

use crate::info::{BootInfo, BootTarget};
use nb_wire::{Ip4, Mac};

/// The texts of a disk, lent.
#[derive(Clone, Copy, Drop)]
pub(crate) struct LentTexts<'a> {
    pub(crate) name: &'a [u8],
    pub(crate) user: &'a [u8],
    pub(crate) secret: &'a [u8],
    pub(crate) reverse_user: &'a [u8],
    pub(crate) reverse_secret: &'a [u8],
}

/// A disk, its texts lent.
#[derive(Clone, Copy, Drop)]
pub(crate) struct LentTarget<'a> {
    pub(crate) address: Ip4,
    pub(crate) port: u16,
    pub(crate) lun: [u8; 8],
    pub(crate) chap: u8,
    pub(crate) texts: LentTexts<'a>,
}

/// The disks.
#[derive(Clone, Copy, Drop)]
pub(crate) enum LentTargets<'a> {
    Neither,
    One(LentTarget<'a>),
    Two(LentTarget<'a>, LentTarget<'a>),
}

/// All that a table says, its texts lent.
#[derive(Clone, Copy, Drop)]
pub(crate) struct LentInfo<'a> {
    pub(crate) initiator: &'a [u8],
    pub(crate) host: &'a [u8],
    pub(crate) mac: Mac,
    pub(crate) address: Ip4,
    pub(crate) prefix: u8,
    pub(crate) gateway: Ip4,
    pub(crate) first_dns: Ip4,
    pub(crate) second_dns: Ip4,
    pub(crate) dhcp_server: Ip4,
    pub(crate) targets: LentTargets<'a>,
}

impl<'a> LentTarget<'a> {
    /// Lends a disk's texts.
    fn of(target: &'a BootTarget) -> LentTarget<'a>
        ensures { lent_target result ≡ boot_target target.now }
    {
        LentTarget {
            address: target.address,
            port: target.port,
            lun: target.lun,
            chap: target.chap,
            texts: LentTexts {
                name: target.name.as_slice(),
                user: target.user.as_slice(),
                secret: target.secret.as_slice(),
                reverse_user: target.reverse_user.as_slice(),
                reverse_secret: target.reverse_secret.as_slice(),
            },
        }
    }
}

impl<'a> LentInfo<'a> {
    /// Lends the texts.
    pub(crate) fn of(info: &'a BootInfo) -> LentInfo<'a>
        ensures { lent_info result ≡ boot_info info.now }
    {
        let [first_dns, second_dns] = info.dns;
        LentInfo {
            initiator: info.initiator.as_slice(),
            host: info.host.as_slice(),
            mac: info.mac,
            address: info.address,
            prefix: info.prefix,
            gateway: info.gateway,
            first_dns,
            second_dns,
            dhcp_server: info.dhcp_server,
            targets: targets_of(info.targets.as_slice()),
        }
    }
}

/// Lends the disks, of which at most two are there.
fn targets_of(targets: &[BootTarget]) -> LentTargets<'_>
    requires { length targets.now ≤ 2 }
    ensures { lent_targets result ≡ boot_targets targets.now }
{
    match targets {
        [] => LentTargets::Neither,
        [one] => LentTargets::One(LentTarget::of(one)),
        [one, two, ..] => LentTargets::Two(LentTarget::of(one), LentTarget::of(two)),
    }
}
