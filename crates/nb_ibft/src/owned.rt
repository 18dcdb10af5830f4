//! What a table says, its texts copied.

ghost use Rattle.std.specs.Prelude.{◌≡◌, length, IfOk};
ghost use Rattle.nb_ibft.specs.Views.{boot_info, boot_target, boot_targets, lent_info, lent_target, lent_targets};

use crate::info::{BootInfo, BootTarget};
use crate::lent::{LentInfo, LentTarget, LentTargets};
use arrayvec::ArrayVec;
use nb_terms::NoMemory;
use nb_wire::Text;
use std::alloc::Global;

impl LentInfo<'_> {
    /// The same with texts of its own.
    pub(crate) fn owned(&self, alloc: Global) -> Result<BootInfo, NoMemory>
        ensures { IfOk result (λ b. boot_info b ≡ lent_info self.now) }
    {
        Ok(BootInfo {
            initiator: copy(alloc, self.initiator)?,
            host: copy(alloc, self.host)?,
            mac: self.mac,
            address: self.address,
            prefix: self.prefix,
            gateway: self.gateway,
            dns: [self.first_dns, self.second_dns],
            dhcp_server: self.dhcp_server,
            targets: self.targets.owned(alloc)?,
        })
    }
}

impl LentTargets<'_> {
    /// The same with texts of their own.
    fn owned(&self, alloc: Global) -> Result<ArrayVec<BootTarget, 2, Global>, NoMemory>
        ensures { IfOk result (λ ts. boot_targets ts.items ≡ lent_targets self.now) }
    {
        let mut targets = ArrayVec::new_in(alloc);
        match self {
            LentTargets::Neither => {}
            LentTargets::One(one) => targets.push(one.owned(alloc)?),
            LentTargets::Two(one, two) => {
                targets.push(one.owned(alloc)?);
                targets.push(two.owned(alloc)?);
            }
        }
        Ok(targets)
    }
}

impl LentTarget<'_> {
    /// The same with texts of its own.
    fn owned(&self, alloc: Global) -> Result<BootTarget, NoMemory>
        ensures { IfOk result (λ t. boot_target t ≡ lent_target self.now) }
    {
        Ok(BootTarget {
            address: self.address,
            port: self.port,
            lun: self.lun,
            chap: self.chap,
            name: copy(alloc, self.texts.name)?,
            user: copy(alloc, self.texts.user)?,
            secret: copy(alloc, self.texts.secret)?,
            reverse_user: copy(alloc, self.texts.reverse_user)?,
            reverse_secret: copy(alloc, self.texts.reverse_secret)?,
        })
    }
}

/// The bytes, copied.
fn copy(alloc: Global, bytes: &[u8]) -> Result<Text, NoMemory>
    ensures { IfOk result (λ t. t ≡ bytes.now) }
{
    let mut copied = Vec::new(alloc);
    copied.extend_from_slice(bytes)?;
    Ok(Text::from_vec(copied))
}
