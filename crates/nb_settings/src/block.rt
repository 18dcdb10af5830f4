ghost use Rattle.std.specs.Prelude.{◌≡◌, IfOk};
ghost use Rattle.nb_settings.specs.Tables.{block_of, is_named, is_below};

use crate::setting::copy;
use nb_terms::NoMemory;
use nb_wire::Text;
use std::alloc::Global;

/// A block of settings, beside the root.
#[derive(Drop)]
pub struct Block {
    /// It isn't empty: the root alone has no name.
    pub name: Text,
    pub priority: i8,
}

impl Block {
    pub(crate) fn new(alloc: Global, name: &[u8], priority: i8) -> Result<Block, NoMemory>
        ensures { IfOk result (λ block. block ≡ block_of name.now priority) }
    {
        Ok(Block {
            name: copy(alloc, name)?,
            priority,
        })
    }

    pub(crate) fn is_named(&self, name: &[u8]) -> bool
        ensures { result ≡ is_named name.now self.now }
    {
        self.name.as_slice() == name
    }

    /// Whether its name is this one, a dot and more.
    pub(crate) fn is_below(&self, name: &[u8]) -> bool
        ensures { result ≡ is_below name.now self.now }
    {
        let own = self.name.as_slice();
        own.len() > name.len() + 1 && own.starts_with(name) && own[name.len()] == b'.'
    }
}
