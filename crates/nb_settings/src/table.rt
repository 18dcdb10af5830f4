ghost use Rattle.std.specs.Prelude.{◌≡◌, ◌≤◌, ◌⊎◌, None, Some, true, false, length, OnOk, OnErr, IfErr, IfSome, IsSome, option_map};
ghost use Rattle.std.specs.Option.{option_copied};
ghost use Rattle.std.specs.Result.{MatchResult};
ghost use Rattle.nb_settings.specs.Keys.{key_of};
ghost use Rattle.nb_settings.specs.Listed.{IsByTag};
ghost use Rattle.nb_settings.specs.Tables.{IsTable, KeepsByTag, root_alone, value_of, block_of, setting_of, look, own_value, count_in, registered, register_refusal, with_value, put_refusal, cleared, has_block};
ghost use Rattle.nb_dhcpmsg.specs.Fields.{message_in};
ghost use Rattle.nb_settings.specs.LeaseSettings.{leased, lease_refusal, fill_refusal};
ghost use Rattle.nb_settings.specs.Order.{value_behind};
ghost use Rattle.nb_settings.specs.declared.error.SetError.TheVariants as error;

use crate::block::Block;
use crate::lease::{lease_priority, lease_settings};
use crate::list::{
    count_of, drop_setting, empty_block, has_block, is_full, place_of, put, put_block,
    replace_settings, setting_of,
};
use crate::lookup::first_behind;
use crate::setting::Setting;
use crate::{Key, Kind, SetError, Value};
use nb_dhcpmsg::DhcpMsg;
use std::alloc::Global;
use std::marker::Model;

/// The most blocks that a table may have, the root counted.
pub const MAX_BLOCKS: usize = 16;

/// The most settings that a block may have.
pub const MAX_SETTINGS: usize = 128;

/// The most bytes that a value may have.
pub const MAX_VALUE: usize = 1024;

/// The name of the root.
const ROOT: &[u8] = b"";

/// The settings of a client, in blocks. The root is the block with the empty name, and is always there.
#[derive(Drop)]
pub struct Table {
    blocks: Vec<Block>,
    settings: Vec<Setting>,
}

impl Model for Table {
    ghost use Rattle.nb_settings.specs.Tables.{TableLists, IsTable};

    ghost Value = { TableLists };

    ghost view = { λ t. record { blocks = t.blocks.items; settings = t.settings.items } };

    ghost invariant = { λ t. IsTable (record { blocks = t.blocks.items; settings = t.settings.items }) };
}

impl Table {
    /// The root alone, without settings.
    pub fn new(alloc: Global) -> Table
        ensures value { result ≡ root_alone }
        ensures by_tag { KeepsByTag result }
    {
        Table {
            blocks: Vec::new(alloc),
            settings: Vec::new(alloc),
        }
    }

    /// What holds of every table, whatever calls were made on it: it is within the limits, no two blocks have one
    /// name, no two settings of one block have one key, and each setting's block is there.
    pub fn well_formed(&self)
        ensures { IsTable self.now }
    {
        let _ = &self.blocks;
    }

    /// Adds a block without settings, as the latest. One that is there is emptied, and gets this priority;
    /// the root, whose name is empty, is looked up first whatever its priority.
    pub fn register(&mut self, alloc: Global, block: &[u8], priority: i8) -> Result<(), SetError>
        ensures ok { OnOk result (self.new ≡ registered (block_of block.now priority) self.old) }
        ensures fits { OnOk result (register_refusal block.now self.old ≡ None) }
        ensures cause { IfErr result (λ e. ((e ≡ error.NoMemory) × (register_refusal block.now self.old ≡ None))
            ⊎ (register_refusal block.now self.old ≡ Some e)) }
        ensures refused { OnErr result (self.new ≡ self.old) }
        ensures emptied { OnOk result (count_in block.now self.new ≡ Some 0) }
        ensures by_tag { KeepsByTag self.old → KeepsByTag self.new }
    {
        self.check_register(block)?;
        put_block(&mut self.blocks, alloc, block, priority)?;
        empty_block(&mut self.settings, block);
        Ok(())
    }

    /// Sets a value, in place of the one of its block and key where there is one. The key of a name that is listed
    /// with a tag is to be the tag, as `Name::read` gives it: one given as a free word is another setting.
    pub fn put(
        &mut self,
        alloc: Global,
        block: &[u8],
        key: &Key<'_>,
        kind: Kind,
        bytes: &[u8],
    ) -> Result<(), SetError>
        ensures ok { OnOk result
            (self.new ≡ with_value (setting_of block.now (key_of key.now) kind bytes.now) self.old) }
        ensures fits { OnOk result (put_refusal block.now (key_of key.now) bytes.now self.old ≡ None) }
        ensures cause { IfErr result
            (λ e. ((e ≡ error.NoMemory) × (put_refusal block.now (key_of key.now) bytes.now self.old ≡ None))
            ⊎ (put_refusal block.now (key_of key.now) bytes.now self.old ≡ Some e)) }
        ensures refused { OnErr result (self.new ≡ self.old) }
        ensures by_tag { IsByTag (key_of key.now) → KeepsByTag self.old → KeepsByTag self.new }
    {
        self.check_put(block, key, bytes)?;
        let place = place_of(self.settings.as_slice(), block, key);
        let setting = Setting::new(alloc, block, key, kind, bytes)?;
        put(&mut self.settings, place, setting)
    }

    /// Registers a block with the settings of a lease, all of them or none: those that its acknowledgement, a
    /// DHCP message, gives (RFC 2131). A block that is there loses its own settings.
    pub fn lease(&mut self, alloc: Global, block: &[u8], ack: &[u8]) -> Result<(), SetError>
        requires { IsSome (message_in ack.now) }
        ensures ok { OnOk result (self.new ≡ leased block.now ack.now self.old) }
        ensures fits { OnOk result (lease_refusal block.now ack.now self.old ≡ None) }
        ensures cause { IfErr result (λ e. (e ≡ error.NoMemory)
            ⊎ (lease_refusal block.now ack.now self.old ≡ Some e)) }
        ensures refused { OnErr result (self.new ≡ self.old) }
        ensures by_tag { KeepsByTag self.old → KeepsByTag self.new }
    {
        let Some(message) = DhcpMsg::read(ack) else {
            unreachable!()
        };
        let lease = lease_settings(alloc, block, &message)?;
        self.check_fill(block, lease.as_slice())?;
        self.settings.reserve(lease.len())?;
        put_block(&mut self.blocks, alloc, block, lease_priority(&message))?;
        replace_settings(&mut self.settings, block, lease);
        Ok(())
    }

    /// Drops a setting, where there is one. It takes no memory.
    pub fn clear(&mut self, block: &[u8], key: &Key<'_>) -> Result<(), SetError>
        ensures ok { OnOk result (self.new ≡ cleared block.now (key_of key.now) self.old) }
        ensures cause { MatchResult result (λ _. has_block block.now self.old.blocks ≡ true)
            (λ e. (e ≡ error.BadName) × (has_block block.now self.old.blocks ≡ false)) }
        ensures refused { OnErr result (self.new ≡ self.old) }
        ensures by_tag { KeepsByTag self.old → KeepsByTag self.new }
    {
        if !has_block(self.blocks.as_slice(), block) {
            return Err(SetError::BadName);
        }
        drop_setting(&mut self.settings, block, key);
        Ok(())
    }

    /// The value of a key. Without a block the root is looked up, then the other blocks by falling priority,
    /// of equal ones the earlier-registered first; with one that block, then those whose name is its name, a
    /// dot and more, in the same order. The first that has the key gives the value. None where none has it.
    pub fn find(&self, block: Option<&[u8]>, key: &Key<'_>) -> Option<Value<'_>>
        ensures value { option_map value_of result
            ≡ look (option_copied block.entry) (key_of key.now) self.now }
        ensures fits { IfSome result (λ value. length value.bytes.now ≤ 1024) }
    {
        match self.own(block.unwrap_or(ROOT), key) {
            Some(value) => Some(value),
            None => self.find_behind(block, key),
        }
    }

    /// The value of a key in one block alone. None where the block isn't there, or has no such setting.
    pub fn own(&self, block: &[u8], key: &Key<'_>) -> Option<Value<'_>>
        ensures value { option_map value_of result ≡ own_value block.now (key_of key.now) self.now }
        ensures absent { has_block block.now self.now.blocks ≡ false → result ≡ None }
        ensures fits { IfSome result (λ value. length value.bytes.now ≤ 1024) }
    {
        let setting = setting_of(self.settings.as_slice(), block, key)?;
        Some(setting.value())
    }

    /// How many settings a block has. None where it isn't there.
    pub fn count(&self, block: &[u8]) -> Option<usize>
        ensures value { result ≡ count_in block.now self.now }
        ensures fits { IfSome result (λ count. count ≤ 128) }
    {
        if has_block(self.blocks.as_slice(), block) {
            Some(count_of(self.settings.as_slice(), block))
        } else {
            None
        }
    }

    fn check_register(&self, block: &[u8]) -> Result<(), SetError>
        ensures { MatchResult result (λ _. register_refusal block.now self.now ≡ None)
            (λ e. register_refusal block.now self.now ≡ Some e) }
    {
        if self.blocks.len() + 1 >= MAX_BLOCKS && !has_block(self.blocks.as_slice(), block) {
            return Err(SetError::TooMany);
        }
        Ok(())
    }

    fn check_fill(&self, block: &[u8], settings: &[Setting]) -> Result<(), SetError>
        ensures { MatchResult result (λ _. fill_refusal block.now settings.now self.now ≡ None)
            (λ e. fill_refusal block.now settings.now self.now ≡ Some e) }
    {
        if settings.len() > MAX_SETTINGS {
            return Err(SetError::TooMany);
        }
        self.check_register(block)
    }

    fn check_put(&self, block: &[u8], key: &Key<'_>, bytes: &[u8]) -> Result<(), SetError>
        ensures { MatchResult result
            (λ _. put_refusal block.now (key_of key.now) bytes.now self.now ≡ None)
            (λ e. put_refusal block.now (key_of key.now) bytes.now self.now ≡ Some e) }
    {
        if !has_block(self.blocks.as_slice(), block) {
            return Err(SetError::BadName);
        }
        if bytes.len() > MAX_VALUE {
            return Err(SetError::TooLong);
        }
        if is_full(self.settings.as_slice(), block, key) {
            return Err(SetError::TooMany);
        }
        Ok(())
    }

    /// The value of a key in the first block that has it, of those after a block or after the root.
    fn find_behind(&self, block: Option<&[u8]>, key: &Key<'_>) -> Option<Value<'_>>
        ensures value { option_map value_of result
            ≡ value_behind (option_copied block.entry) (key_of key.now) self.now }
        ensures fits { IfSome result (λ value. length value.bytes.now ≤ 1024) }
    {
        let first = first_behind(self.blocks.as_slice(), self.settings.as_slice(), block, key)?;
        self.own(first.name.as_slice(), key)
    }
}
