//! What a boot table says of a drive.

ghost use Rattle.std.specs.Prelude.{◌≡◌, IfOk};
ghost use Rattle.nb_ibft.specs.Views.{boot_target};
ghost use Rattle.nb_drivelogin.specs.DriveInfos.{drive_target, used};
ghost use Rattle.nb_drivelogin.specs.DriveOpens.{drive_open};

use crate::HookedOpen;
use crate::texts::no_text;
use nb_ibft::BootTarget;
use nb_imagecmd::copy_text;
use nb_terms::NoMemory;
use nb_wire::Text;
use std::alloc::Global;

/// What a boot table says of the drive of an open: our name and secret where CHAP was used at all, the target's where it
/// was used both ways.
pub(crate) fn drive_target(alloc: Global, hooked: HookedOpen<'_>) -> Result<BootTarget, NoMemory>
    ensures { IfOk result (λ target. boot_target target ≡ drive_target (drive_open hooked.entry)) }
{
    let (login, one_way, both_ways) = (hooked.login, hooked.chap != 0, hooked.chap == 2);
    Ok(BootTarget {
        address: hooked.server,
        port: hooked.port,
        lun: login.lun,
        chap: hooked.chap,
        name: copy_text(alloc, login.target.as_slice())?,
        user: used(alloc, one_way, &login.user)?,
        secret: used(alloc, one_way, &login.secret)?,
        reverse_user: used(alloc, both_ways, &login.reverse_user)?,
        reverse_secret: used(alloc, both_ways, &login.reverse_secret)?,
    })
}

/// A copy of a text where it was used, or else a text without bytes.
fn used(alloc: Global, is_used: bool, text: &Text) -> Result<Text, NoMemory>
    ensures { IfOk result (λ copy. copy ≡ used is_used text.now) }
{
    if is_used {
        copy_text(alloc, text.as_slice())
    } else {
        no_text(alloc)
    }
}
