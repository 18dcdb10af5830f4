//! What a boot table is to say.

ghost use Rattle.std.specs.Prelude.{◌≡◌, ◌≤◌, [], None, Ok, length, map, option_map, IfOk, IfSome};
ghost use Rattle.nb_ibft.specs.Infos.{HasShortTexts};
ghost use Rattle.nb_ibft.specs.Views.{boot_info, boot_targets};
ghost use Rattle.nb_drivelogin.specs.Described.{described_list};
ghost use Rattle.nb_drivelogin.specs.DriveInfos.{LoginsFit, drive_info, drive_target, info_with};
ghost use Rattle.nb_drivelogin.specs.DriveOpens.{described_opens, drive_open};

use crate::HookedOpen;
use crate::described::{Described, described_opens};
use crate::net::{
    DHCP_SERVER, GATEWAY, IP, NAME_SERVERS, NET0, own_prefix, second_name_server, setting_host,
};
use crate::target::drive_target;
use crate::texts::{HOST_NAME, setting_text};
use arrayvec::ArrayVec;
use nb_drivecmd::Drives;
use nb_ibft::{BootInfo, BootTarget};
use nb_imagecmd::copy_text;
use nb_settings::Table;
use nb_terms::NoMemory;
use nb_wire::Mac;
use std::alloc::Global;

/// What a boot table is to say, by the client's hardware address, its settings, its hooked drives and their opens. None
/// where no described drive is hooked.
#[tactic(auto, unfolding(crate::specs::DriveInfos::drive_info))]
pub fn drive_info(
    alloc: Global,
    mac: Mac,
    table: &Table,
    drives: &Drives,
    opens: &[HookedOpen<'_>],
) -> Result<Option<BootInfo>, NoMemory>
    ensures value { IfOk result (λ info. option_map boot_info info
        ≡ drive_info mac table.now (described_opens drives.now (map drive_open opens.now))) }
    ensures absent { described_opens drives.now (map drive_open opens.now) ≡ [] → result ≡ Ok None }
    // `table` of nb_ibft may be called with it.
    ensures short { LoginsFit (map drive_open opens.now)
        → IfOk result (λ info. IfSome info (λ i. HasShortTexts (boot_info i))) }
{
    let described = described_opens(drives, opens);
    match described {
        Described::Neither => Ok(None),
        Described::One(lowest) => Ok(Some(info_with(alloc, mac, table, lowest, described)?)),
        Described::Two(lowest, _) => Ok(Some(info_with(alloc, mac, table, lowest, described)?)),
    }
}

/// What it says where these drives are described.
fn info_with(
    alloc: Global,
    mac: Mac,
    table: &Table,
    lowest: HookedOpen<'_>,
    described: Described<'_>,
) -> Result<BootInfo, NoMemory>
    ensures value { IfOk result (λ info. boot_info info
        ≡ info_with mac table.now (drive_open lowest.entry) (described_list described.entry)) }
    ensures host { IfOk result (λ info. length info.host ≤ 1024) }
{
    Ok(BootInfo {
        initiator: copy_text(alloc, lowest.login.initiator.as_slice())?,
        host: setting_text(alloc, &HOST_NAME, table)?,
        mac,
        address: setting_host(table, Some(NET0), &IP),
        prefix: own_prefix(table),
        gateway: setting_host(table, Some(NET0), &GATEWAY),
        dns: [
            setting_host(table, None, &NAME_SERVERS),
            second_name_server(table),
        ],
        dhcp_server: setting_host(table, None, &DHCP_SERVER),
        targets: drive_targets(alloc, described)?,
    })
}

/// What it says of each of them.
fn drive_targets(
    alloc: Global,
    described: Described<'_>,
) -> Result<ArrayVec<BootTarget, 2, Global>, NoMemory>
    ensures { IfOk result (λ targets. boot_targets targets.items
        ≡ map drive_target (described_list described.entry)) }
{
    let mut targets = ArrayVec::new_in(alloc);
    match described {
        Described::Neither => {}
        Described::One(hooked) => targets.push(drive_target(alloc, hooked)?),
        Described::Two(hooked, other) => {
            targets.push(drive_target(alloc, hooked)?);
            targets.push(drive_target(alloc, other)?);
        }
    }
    Ok(targets)
}
