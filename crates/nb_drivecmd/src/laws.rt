//! Laws of the definitions: each is a function that does nothing, whose contract is the law.

ghost use Rattle.std.specs.Prelude.{◌≡◌, ◌≢◌, ◌≤◌, ℕ, List, Option, Some, None, Ok, Err, IfSome, length};
ghost use Rattle.nb_drivecmd.specs.DriveEffect.{given_drive};
ghost use Rattle.nb_drivecmd.specs.DriveNumbers.{IsDriveNumber};
ghost use Rattle.nb_drivecmd.specs.DriveOptions.{drive_options_read};
ghost use Rattle.nb_drivecmd.specs.DriveOptionWords.{GivenDriveOption, drive_options_spelled, drive_options_meant, BeginsNoOption};
ghost use Rattle.nb_drivecmd.specs.DriveReading.{drive_command};
ghost use Rattle.nb_drivecmd.specs.HookedDrives.{drive_numbered, with_hooked, without_drive};
ghost use Rattle.nb_drivecmd.specs.declared.commands.DriveCommand.{DriveCommand};
ghost use Rattle.nb_drivecmd.specs.declared.drive.Drive.{Drive};
ghost use Rattle.nb_uri.specs.IscsiNames.{is_iscsi};
ghost use Rattle.nb_uri.specs.Resolutions.{resolution};
ghost use Rattle.nb_uri.specs.declared.target.UriError.TheVariants as uri_error;
ghost use Rattle.std.specs.Prelude.{false};

/// Options in any order before other words are read as what they say together, none of them twice.
pub fn spelled_drive_options_are_read()
    ensures { (options : List GivenDriveOption) (rest : List (List ℕ)) → BeginsNoOption rest
        → drive_options_read (drive_options_spelled options rest) ≡ drive_options_meant options rest }
{}

/// The number that a command gives a drive is from 128 to 255.
pub fn drives_are_numbered()
    ensures { (words : List (List ℕ)) (command : DriveCommand) → drive_command words ≡ Ok command
        → IfSome (given_drive command) IsDriveNumber }
{}

/// A drive that was hooked is found by its number, all others as before; one that was dropped isn't found, and all
/// others are.
pub fn hooked_drives_are_found()
    ensures hooked { (drive : Drive) (drives : List Drive)
        → drive_numbered drive.number (with_hooked drive drives) ≡ Some drive }
    ensures beside { (drive : Drive) (drives : List Drive) (number : ℕ) → number ≢ drive.number
        → drive_numbered number (with_hooked drive drives) ≡ drive_numbered number drives }
    ensures dropped { (number : ℕ) (drives : List Drive)
        → drive_numbered number (without_drive number drives) ≡ None }
    ensures kept { (number other : ℕ) (drives : List Drive) → other ≢ number
        → drive_numbered other (without_drive number drives) ≡ drive_numbered other drives }
{}

/// A URI that is too long, once it is joined, is no disk's, where its own text has at most 16,384 bytes. A word has
/// at most 4,096.
pub fn long_uris_name_no_disks()
    ensures { (base : Option (List ℕ)) (text : List ℕ) → length text ≤ 16384
        → resolution base text ≡ Err uri_error.TooLong → is_iscsi text ≡ false }
{}
