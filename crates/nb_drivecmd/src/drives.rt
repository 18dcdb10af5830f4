ghost use Rattle.std.specs.Prelude.{◌≡◌, ◌<◌, ◌≤◌, nat_le, [], Ok, Err, length, slice_get, option_map, if◌then◌else◌};
ghost use Rattle.nb_drivecmd.specs.HookedDrives.{AreRisingDrives, drive_numbered, with_hooked, without_drive, without_open};
ghost use Rattle.nb_drivecmd.specs.Slots.{slot_drives, slots_rise};
ghost use Rattle.nb_drivecmd.specs.declared.drives.Slots.TheVariants as slots;
ghost use Rattle.nb_drivecmd.specs.declared.error.DriveFailure.TheVariants as failure;

use crate::{Drive, DriveFailure};
use std::marker::Model;

/// The most drives that are hooked.
pub const MAX_DRIVES: usize = 2;

#[derive(Clone, Copy, Drop)]
enum Slots {
    Neither,
    One(Drive),
    Two(Drive, Drive),
}

/// The hooked drives, by rising number.
#[derive(Drop)]
pub struct Drives {
    slots: Slots,
}

impl Model for Drives {
    ghost use Rattle.std.specs.Prelude.{List};
    ghost use Rattle.nb_drivecmd.specs.Slots.{slot_drives, slots_rise};
    ghost use Rattle.nb_drivecmd.specs.declared.drive.Drive.{Drive};

    ghost Value = { List Drive };

    ghost view = { λ d. slot_drives d.slots };

    ghost invariant = { λ d. slots_rise d.slots };
}

impl Drives {
    /// None is hooked.
    pub fn new() -> Drives
        ensures { result ≡ [] }
    {
        Drives {
            slots: Slots::Neither,
        }
    }

    /// How many are hooked.
    pub fn len(&self) -> usize
        ensures value { result ≡ length self.now }
        ensures few { length self.now ≤ 2 }
        ensures rising { AreRisingDrives self.now }
    {
        match &self.slots {
            Slots::Neither => 0,
            Slots::One(_) => 1,
            Slots::Two(_, _) => 2,
        }
    }

    /// The drive at a place, by rising number. None where there are fewer.
    pub fn get(&self, place: usize) -> Option<&Drive>
        ensures { option_map (λ drive. drive.now) result ≡ slice_get self.now place }
    {
        match (&self.slots, place) {
            (Slots::One(drive), 0) => Some(drive),
            (Slots::Two(drive, _), 0) => Some(drive),
            (Slots::Two(_, drive), 1) => Some(drive),
            _ => None,
        }
    }

    /// The drive of a number. None where it isn't hooked.
    pub fn find(&self, number: u8) -> Option<&Drive>
        ensures { option_map (λ drive. drive.now) result ≡ drive_numbered number self.now }
    {
        match &self.slots {
            Slots::One(drive) if drive.number == number => Some(drive),
            Slots::Two(drive, _) if drive.number == number => Some(drive),
            Slots::Two(_, drive) if drive.number == number => Some(drive),
            _ => None,
        }
    }

    /// Whether a drive more may be hooked.
    pub fn room(&self) -> Result<(), DriveFailure>
        ensures { result ≡ (if nat_le 2 (length self.now) then Err failure.ManyDrives else Ok tt) }
    {
        if self.len() >= MAX_DRIVES {
            Err(DriveFailure::ManyDrives)
        } else {
            Ok(())
        }
    }

    /// Adds a drive, in place of the one of its number.
    pub fn hook(&mut self, drive: Drive)
        requires { length self.old < 2 }
        ensures { self.new ≡ with_hooked drive self.old }
    {
        self.slots = match self.slots {
            Slots::Neither => Slots::One(drive),
            Slots::One(other) => beside(other, drive),
            slots => slots,
        };
    }

    /// Drops the drive of a number, where it is hooked.
    pub fn unhook(&mut self, number: u8)
        ensures { self.new ≡ without_drive number self.old }
    {
        self.slots = match self.slots {
            Slots::One(drive) if drive.number == number => Slots::Neither,
            Slots::Two(one, other) if one.number == number => Slots::One(other),
            Slots::Two(one, other) if other.number == number => Slots::One(one),
            slots => slots,
        };
    }

    /// Drops what is hooked by an open, which has ended.
    pub fn end_open(&mut self, ended: u16)
        ensures { self.new ≡ without_open ended self.old }
    {
        self.slots = match self.slots {
            Slots::Neither => Slots::Neither,
            Slots::One(drive) => alone(drive, ended),
            Slots::Two(one, other) if one.open_number == ended => alone(other, ended),
            Slots::Two(one, other) if other.open_number == ended => Slots::One(one),
            slots => slots,
        };
    }
}

/// A drive and one more, which takes its place where they have one number.
fn beside(other: Drive, drive: Drive) -> Slots
    ensures value { slot_drives result ≡ with_hooked drive (slot_drives (slots.One other)) }
    ensures rise { slots_rise result }
{
    if other.number < drive.number {
        Slots::Two(other, drive)
    } else if drive.number < other.number {
        Slots::Two(drive, other)
    } else {
        Slots::One(drive)
    }
}

/// A drive, unless it is hooked by this open.
fn alone(drive: Drive, ended: u16) -> Slots
    ensures value { slot_drives result ≡ without_open ended (slot_drives (slots.One drive)) }
    ensures rise { slots_rise result }
{
    if drive.open_number == ended {
        Slots::Neither
    } else {
        Slots::One(drive)
    }
}
