ghost use Rattle.std.specs.Prelude.{◌≡◌, IfOk};
ghost use Rattle.nb_script.specs.Errors.{IsOfText};
ghost use Rattle.nb_scripts.specs.Texts.{IsTextRead, IsCauseOf};

use nb_script::{Script, ScriptError};
use nb_terms::{Cause, Long, NoMemory, Plain, Reason};
use nb_wire::Text;
use std::alloc::Global;

/// A text that was read.
#[derive(Drop)]
pub enum TextRead {
    Runs(Script),
    /// It is no script, for this cause.
    Refused(Cause),
}

/// The script of a text, or why it is none.
pub fn read_text(alloc: Global, text: Text) -> Result<TextRead, NoMemory>
    ensures { IfOk result (IsTextRead text) }
{
    match Script::read(alloc, text) {
        Ok(script) => Ok(TextRead::Runs(script)),
        Err(error) => Ok(TextRead::Refused(cause_of(error)?)),
    }
}

/// Why a text is no script. An error where memory ran out.
fn cause_of(error: ScriptError) -> Result<Cause, NoMemory>
    requires { IsOfText error }
    ensures { IfOk result (IsCauseOf error) }
{
    match error {
        ScriptError::NotScript => Ok(Plain::NotScript.cause()),
        ScriptError::ScriptTooLong => Ok(Cause::from(Reason::TooLong(Long::Script))),
        ScriptError::LineTooLong => Ok(Cause::from(Reason::TooLong(Long::Line))),
        _ => Err(NoMemory),
    }
}
