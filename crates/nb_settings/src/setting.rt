ghost use Rattle.std.specs.Prelude.{◌≡◌, IfOk};
ghost use Rattle.nb_settings.specs.Keys.{key_of, same_key};
ghost use Rattle.nb_settings.specs.Tables.{setting_of, is_of, is_setting, value_of, setting_value};

use crate::{Key, Kind};
use nb_terms::NoMemory;
use nb_wire::Text;
use std::alloc::Global;

/// A key that owns its name.
#[derive(Drop)]
pub enum OwnedKey {
    Tag(u8),
    Sub(u8, u8),
    Free(Text),
}

/// A setting of a block: its key, and its value with the kind by which it was set.
#[derive(Drop)]
pub struct Setting {
    pub block: Text,
    pub key: OwnedKey,
    pub kind: Kind,
    pub bytes: Text,
}

/// The value of a setting: its bytes, and the kind by which it was set.
#[derive(Clone, Copy, Debug, PartialEq, Eq, Drop)]
pub struct Value<'a> {
    pub kind: Kind,
    pub bytes: &'a [u8],
}

impl OwnedKey {
    fn new(alloc: Global, key: &Key<'_>) -> Result<OwnedKey, NoMemory>
        ensures { IfOk result (λ owned. owned ≡ key_of key.now) }
    {
        match *key {
            Key::Tag(number) => Ok(OwnedKey::Tag(number)),
            Key::Sub(outer, inner) => Ok(OwnedKey::Sub(outer, inner)),
            Key::Free(name) => Ok(OwnedKey::Free(copy(alloc, name)?)),
        }
    }

    fn is(&self, key: &Key<'_>) -> bool
        ensures { result ≡ same_key self.now (key_of key.now) }
    {
        match self {
            OwnedKey::Tag(number) => key.is(&Key::Tag(*number)),
            OwnedKey::Sub(outer, inner) => key.is(&Key::Sub(*outer, *inner)),
            OwnedKey::Free(name) => key.is(&Key::Free(name.as_slice())),
        }
    }
}

impl Setting {
    /// A setting with copies of its block's name, its key and its bytes.
    pub(crate) fn new(
        alloc: Global,
        block: &[u8],
        key: &Key<'_>,
        kind: Kind,
        bytes: &[u8],
    ) -> Result<Setting, NoMemory>
        ensures { IfOk result
            (λ setting. setting ≡ setting_of block.now (key_of key.now) kind bytes.now) }
    {
        Ok(Setting {
            block: copy(alloc, block)?,
            key: OwnedKey::new(alloc, key)?,
            kind,
            bytes: copy(alloc, bytes)?,
        })
    }

    pub(crate) fn is_of(&self, block: &[u8]) -> bool
        ensures { result ≡ is_of block.now self.now }
    {
        self.block.as_slice() == block
    }

    /// Whether it is the setting of this block with this key.
    pub(crate) fn is(&self, block: &[u8], key: &Key<'_>) -> bool
        ensures { result ≡ is_setting block.now (key_of key.now) self.now }
    {
        self.is_of(block) && self.key.is(key)
    }

    pub(crate) fn value(&self) -> Value<'_>
        ensures { value_of result ≡ setting_value self.now }
    {
        Value {
            kind: self.kind,
            bytes: self.bytes.as_slice(),
        }
    }
}

/// A copy of these bytes.
pub fn copy(alloc: Global, bytes: &[u8]) -> Result<Text, NoMemory>
    ensures { IfOk result (λ text. text ≡ bytes.now) }
{
    Ok(Text::from_vec(Vec::from_slice(alloc, bytes)?))
}
