//! The device that `ifopen` and `ifclose` name. There is one: net0.

ghost use Rattle.std.specs.Prelude.{◌≡◌, Ok, Err, OnOk, OnErr, IfErr};
ghost use Rattle.nb_command.specs.Device.{is_net0, device_change};

use crate::error::ApplyError;
use nb_wire::Word;

/// Whether this is the one device, which needs no word.
fn is_net0(device: &Option<Word>) -> bool
    ensures { result ≡ is_net0 device.now }
{
    match device {
        Some(word) => word.as_slice() == b"net0".as_slice(),
        None => true,
    }
}

/// Sets the device up or down. Another device than net0 is BadName.
pub(crate) fn set_device(
    device: &Option<Word>,
    is_up: bool,
    up: &mut bool,
) -> Result<(), ApplyError>
    ensures ok { OnOk result (device_change device.now is_up ≡ Ok up.new) }
    ensures cause { IfErr result (λ why. device_change device.now is_up ≡ Err why) }
    ensures refused { OnErr result (up.new ≡ up.old) }
{
    if !is_net0(device) {
        return Err(ApplyError::BadName);
    }
    *up = is_up;
    Ok(())
}
