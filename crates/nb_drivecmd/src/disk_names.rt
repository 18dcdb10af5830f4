//! The disks that URIs name.

ghost use Rattle.std.specs.Prelude.{◌≡◌, ◌⊎◌, Ok, Err, IfOk, IfErr, if◌then◌else◌};
ghost use Rattle.std.specs.Option.{option_copied};
ghost use Rattle.nb_drivecmd.specs.DiskNames.{named_disk, disk_in};
ghost use Rattle.nb_drivecmd.specs.declared.error.DriveFailure.TheVariants as failure;
ghost use Rattle.nb_uri.specs.Resolutions.{has_zero};

use crate::DriveFailure;
use nb_uri::{UriTarget, resolve};
use nb_wire::{Text, Word};
use std::alloc::Global;

/// A disk of an iSCSI target, as a URI names it (RFC 4173, section 5).
#[derive(Drop)]
pub struct NamedDisk {
    /// The server's address or name.
    pub host: Text,
    pub port: u16,
    /// The logical unit.
    pub lun: [u8; 8],
    /// The target's name.
    pub name: Text,
}

/// The disk that a word names, joined to a base.
pub(crate) fn named_disk(
    alloc: Global,
    base: Option<&[u8]>,
    uri: &Word,
) -> Result<NamedDisk, DriveFailure>
    ensures value { IfOk result (λ disk. named_disk (option_copied base.entry) uri.now ≡ Ok disk) }
    ensures cause { IfErr result (λ why. (why ≡ failure.NoMemory)
        ⊎ (named_disk (option_copied base.entry) uri.now ≡ Err why)) }
{
    disk_in(resolve(alloc, base, uri.as_slice())?)
}

/// A disk of the target of this name. A zero byte would end the name where it is sent (RFC 7143, section 6.1).
fn disk_at(host: Text, port: u16, lun: [u8; 8], name: Text) -> Result<NamedDisk, DriveFailure>
    ensures { result ≡ (if has_zero name then Err failure.BadUri
        else Ok (record { host = host; port = port; lun = lun; name = name })) }
{
    if has_zero(&name) {
        return Err(DriveFailure::BadUri);
    }
    Ok(NamedDisk {
        host,
        port,
        lun,
        name,
    })
}

fn has_zero(name: &Text) -> bool
    ensures { result ≡ has_zero name.now }
{
    name.as_slice().contains(&0)
}

/// The disk that a target is. Files are none.
fn disk_in(target: UriTarget) -> Result<NamedDisk, DriveFailure>
    ensures { result ≡ disk_in target }
{
    match target {
        UriTarget::Iscsi {
            host,
            port,
            lun,
            name,
            ..
        } => disk_at(host, port, lun, name),
        UriTarget::Tftp { .. } => Err(DriveFailure::NoScheme),
        UriTarget::Http { .. } => Err(DriveFailure::NoScheme),
    }
}
