//! What drives have answered and read, and their opens as a boot table has them.

ghost use Rattle.std.specs.Prelude.{◌≡◌, ◌∷◌, ◌++◌, [], ℕ, IfOk, OnOk, find, map, filter_map, option_copied, option_map};
ghost use Rattle.std.specs.Option.{is_some, option_and_then};
ghost use Rattle.nb_drivelogin.specs.DriveInfos.{LoginsFit};
ghost use Rattle.nb_drivelogin.specs.DriveOpens.{drive_open};
ghost use Rattle.nb_machine.specs.BootTables.{drive_open_of};
ghost use Rattle.nb_machine.specs.Kinds.{answered, read_last};
ghost use Rattle.nb_machine.specs.Scripts.{has_number};
ghost use Rattle.nb_machine.specs.States.{State};
ghost use Rattle.nb_network.specs.Hooked.{hooked_by};
ghost use Rattle.nb_network.specs.Many.{IsStateOf};
ghost use Rattle.nb_stack.specs.Client.{Client};

use crate::{Living, Opens};
use nb_drivelogin::HookedOpen;
use nb_terms::NoMemory;
use nb_wire::Text;
use std::alloc::Global;

impl Opens {
    /// Whether the open of this number is a drive that has answered.
    pub fn answered(&self, number: u16) -> bool
        ensures { (net : Client) (now : ℕ) (s : State) → IsStateOf self.now net now s
            → result ≡ is_some (option_and_then answered (find (has_number number) s.live)) }
    {
        match self.list.iter().find(|o| o.speaker.number == number) {
            Some(living) => living.has_answered(),
            None => false,
        }
    }

    /// The bytes of the blocks that the open of this number has read last, if all of them have come.
    pub fn read(&self, number: u16) -> Option<&[u8]>
        ensures { (net : Client) (now : ℕ) (s : State) → IsStateOf self.now net now s
            → option_map (λ bytes. bytes.now) result ≡ option_and_then read_last (find (has_number number) s.live) }
    {
        match self.list.iter().find(|o| o.speaker.number == number) {
            Some(living) => bytes_of(living.read()),
            None => None,
        }
    }

    /// The opens of the drives, by rising number, as a boot table may have them.
    pub fn drive_opens(&self, alloc: Global) -> Result<Vec<HookedOpen<'_>>, NoMemory>
        ensures opens { IfOk result (λ opens. (net : Client) (now : ℕ) (s : State) → IsStateOf self.now net now s
            → map drive_open opens.items ≡ filter_map drive_open_of s.live) }
        ensures fits { IfOk result (λ opens. LoginsFit (map drive_open opens.items)) }
    {
        hooked_among(alloc, self.list.as_slice())
    }
}

/// The bytes of this text, if there is one.
fn bytes_of(text: Option<&Text>) -> Option<&[u8]>
    ensures { option_map (λ bytes. bytes.now) result ≡ option_copied text.entry }
{
    match text {
        Some(text) => Some(text.as_slice()),
        None => None,
    }
}

/// What a boot table may say of those of these opens that are drives.
fn hooked_among(alloc: Global, list: &[Living]) -> Result<Vec<HookedOpen<'_>>, NoMemory>
    ensures opens { IfOk result (λ opens. map drive_open opens.items ≡ filter_map hooked_by list.now) }
    ensures fits { IfOk result (λ opens. LoginsFit (map drive_open opens.items)) }
{
    let mut opens = Vec::new(alloc);
    for living in list {
        push_hooked(living, &mut opens)?;
    }
    Ok(opens)
}

/// Adds what a boot table may say of this open, if it is a drive.
fn push_hooked<'a>(living: &'a Living, opens: &mut Vec<HookedOpen<'a>>) -> Result<(), NoMemory>
    ensures opens { OnOk result (map drive_open opens.new.items ≡ map drive_open opens.old.items ++ filter_map hooked_by (living.now ∷ [])) }
    ensures fits { OnOk result (LoginsFit (map drive_open opens.old.items) → LoginsFit (map drive_open opens.new.items)) }
{
    if let Some(hooked) = living.hooked()? {
        opens.push(hooked)?;
    }
    Ok(())
}
