ghost use Rattle.std.specs.Prelude.{◌≡◌, ◌≢◌, ◌≤◌, Some, None, Err, IfOk, IsErrOf, length};
ghost use Rattle.nb_settings.specs.Names.{name_of};
ghost use Rattle.nb_expand.specs.Values.{named_text, text_of_name};

use crate::ExpandError;
use crate::printing::print;
use nb_settings::{Name, Table};
use nb_terms::NoMemory;
use nb_wire::Text;
use std::alloc::Global;

/// The text that a name stands for. An unset setting, and an absent block, give nothing.
#[tactic(auto, unfolding(crate::specs::Values::named_text))]
pub(crate) fn named_text(alloc: Global, bytes: &[u8], table: &Table) -> Result<Text, ExpandError>
    ensures value { IfOk result (λ text. named_text table.now bytes.now ≡ Some text) }
    ensures bad_name { IsErrOf result ExpandError.BadName → named_text table.now bytes.now ≡ None }
    ensures any_length { result ≢ Err ExpandError.TooLong }
{
    match Name::read(bytes) {
        Some(name) => Ok(text_of_name(alloc, &name, table)?),
        None => Err(ExpandError::BadName),
    }
}

/// The value of the setting that a name finds, as text by the kind that the name gives, or else by its own. An
/// unset setting, and an absent block, give nothing.
pub fn text_of_name(alloc: Global, name: &Name<'_>, table: &Table) -> Result<Text, NoMemory>
    ensures value { IfOk result (λ text. text ≡ text_of_name table.now (name_of name.now)) }
    // A value has at most 1,024 bytes, and prints as three for each and 36 more.
    ensures short { IfOk result (λ text. length text ≤ 3108) }
{
    match table.find(name.block, &name.key) {
        Some(value) => print(alloc, name.kind.unwrap_or(value.kind), value.bytes),
        None => Ok(Text::from_vec(Vec::new(alloc))),
    }
}
