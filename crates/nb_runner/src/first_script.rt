//! How the first script's text is read.

ghost use Rattle.std.specs.Prelude.{◌≡◌, IfOk, IfErr};
ghost use Rattle.nb_machine.specs.FirstText.{first_text};
ghost use Rattle.nb_runner.specs.FirstScript.{RunsFirst, IsRefusalOf};

use crate::RunningScript;
use nb_record::{Cause, NoMemory};
use nb_scripts::{TextRead, read_text};
use nb_wire::Text;
use std::alloc::Global;

/// The script that runs where START gives none.
const BUILT_IN: &[u8] = b"#!ipxe
dhcp || exit 1
isset ${filename} || goto san
chain ${filename} && exit 0 || goto san
:san
isset ${root-path} || exit 1
sanboot ${root-path}
";

/// Why the first script's text doesn't run.
pub enum Unread {
    /// It is refused with this cause.
    Refused(Cause),
    /// Memory ran out.
    NoMemory,
}

/// The first script's text: START's, or where that is empty the one that is built in.
fn first_text<'a>(given: &'a [u8]) -> &'a [u8]
    ensures { result.now ≡ first_text given.now }
{
    if given.is_empty() { BUILT_IN } else { given }
}

/// The first script, its text copied, before its first line.
pub fn read_script(alloc: Global, given: &[u8]) -> Result<RunningScript, Unread>
    ensures runs { IfOk result (RunsFirst given.now) }
    ensures refused { IfErr result (IsRefusalOf given.now) }
{
    let Ok(copy) = Vec::from_slice(alloc, first_text(given)) else {
        return Err(Unread::NoMemory);
    };
    match read_text(alloc, Text::from_vec(copy)) {
        Ok(TextRead::Runs(script)) => match RunningScript::first(alloc, script) {
            Ok(script) => Ok(script),
            Err(NoMemory) => Err(Unread::NoMemory),
        },
        Ok(TextRead::Refused(cause)) => Err(Unread::Refused(cause)),
        Err(NoMemory) => Err(Unread::NoMemory),
    }
}
