ghost use Rattle.std.specs.Prelude.{◌≡◌, Some, IfSome, option_map};
ghost use Rattle.std.specs.Option.{option_copied};
ghost use Rattle.std.specs.List.{Contains};
ghost use Rattle.nb_settings.specs.Keys.{key_of};
ghost use Rattle.nb_settings.specs.Listed.{Listed, listed, IsByTag};
ghost use Rattle.nb_settings.specs.Names.{SettingName, IsName, key_alone, name_of, name_read, tail_read};

use crate::cut::cut_at;
use crate::word::is_block_name;
use crate::{Key, Kind};

/// The name of a setting, as a script writes it: `[block/]name[:kind]`.
#[derive(Clone, Copy, Debug, PartialEq, Eq, Drop)]
pub struct Name<'a> {
    pub block: Option<&'a [u8]>,
    pub key: Key<'a>,
    pub kind: Option<Kind>,
}

impl<'a> Name<'a> {
    /// The name that the bytes spell. None where they are outside the grammar.
    pub fn read(text: &'a [u8]) -> Option<Name<'a>>
        ensures sound { IfSome result (λ name. IsName text.now (name_of name)) }
        ensures complete { (name : SettingName) → IsName text.now name
            → option_map name_of result ≡ Some name }
        // The same as one equation, by the function on lists that is proved to be the grammar.
        ensures exact { option_map name_of result ≡ name_read text.now }
        ensures listed { (row : Listed) → Contains listed row → text.now ≡ row.name
            → option_map name_of result ≡ Some (key_alone row.key) }
        ensures by_tag { IfSome result (λ name. IsByTag (key_of name.key)) }
    {
        parsed(text)
    }
}

#[tactic(auto, unfolding(crate::specs::Names::name_read))]
fn parsed(text: &[u8]) -> Option<Name<'_>>
    ensures { option_map name_of result ≡ name_read text.now }
{
    match cut_at(b'/', text) {
        Some((block, rest)) => {
            if !is_block_name(block) {
                return None;
            }
            tail(Some(block), rest)
        }
        None => tail(None, text),
    }
}

/// The name after its block.
#[tactic(auto, unfolding(crate::specs::Names::tail_read))]
fn tail<'a>(block: Option<&'a [u8]>, text: &'a [u8]) -> Option<Name<'a>>
    ensures { option_map name_of result ≡ tail_read (option_copied block.entry) text.now }
{
    match cut_at(b':', text) {
        Some((key, kind)) => {
            let key = crate::word::key(key)?;
            let kind = Kind::named(kind)?;
            Some(Name {
                block,
                key,
                kind: Some(kind),
            })
        }
        None => {
            let key = crate::word::key(text)?;
            Some(Name {
                block,
                key,
                kind: None,
            })
        }
    }
}
