//! Laws of the definitions: each is a function that does nothing, whose contract is the law.

ghost use Rattle.std.specs.Prelude.{◌≡◌, ◌≤◌, ℕ, List, map, None, Option, Ok, length};
ghost use Rattle.nb_drivecmd.specs.DiskNames.{named_disk};
ghost use Rattle.nb_drivecmd.specs.declared.disk_names.NamedDisk.{NamedDisk};
ghost use Rattle.nb_drivelogin.specs.DriveInfos.{drive_info, without_unused};
ghost use Rattle.nb_drivelogin.specs.DriveLogins.{login_by};
ghost use Rattle.nb_login.specs.Refusals.{zero_name};
ghost use Rattle.nb_drivelogin.specs.DriveOpens.{DriveOpen};
ghost use Rattle.nb_drivelogin.specs.OwnNets.{HasOnes, prefix_of};
ghost use Rattle.nb_settings.specs.Tables.{TableLists};
ghost use Rattle.nb_wire.specs.declared.address.Ip4.{Ip4};
ghost use Rattle.nb_wire.specs.declared.address.Mac.{Mac};

use nb_uri::iscsi_names_are_spelled;

/// The name of a target that a URI names has at most 223 bytes (RFC 7143, section 4.2.7.1), so a boot table may have it.
pub fn named_disks_are_short()
    ensures { (base : Option (List ℕ)) (uri : List ℕ) (disk : NamedDisk) → named_disk base uri ≡ Ok disk
        → length disk.name ≤ 223 }
{
    iscsi_names_are_spelled();
}

/// No name that a login sends holds a zero byte, so each key's text is what it says (RFC 7143, section 6.1).
pub fn sent_names_hold_no_zero()
    ensures { (base : Option (List ℕ)) (uri : List ℕ) (disk : NamedDisk) (words : List ℕ) (table : TableLists)
        → named_disk base uri ≡ Ok disk → zero_name (login_by disk words table) ≡ None }
{}

/// A mask's prefix counts its highest bits up to the first that isn't one: so many are ones, and no more of them.
pub fn prefixes_are_ones()
    ensures ones { (mask : Ip4) → HasOnes mask (prefix_of mask) }
    ensures most { (mask : Ip4) (n : ℕ) → n ≤ 32 → HasOnes mask n → n ≤ prefix_of mask }
{}

/// A boot table says nothing of names and secrets that a login didn't use: without them it says the same.
pub fn unused_secrets_are_left_out()
    ensures { (mac : Mac) (table : TableLists) (opens : List DriveOpen)
        → drive_info mac table (map without_unused opens) ≡ drive_info mac table opens }
{}
