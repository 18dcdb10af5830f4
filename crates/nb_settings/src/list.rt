ghost use Rattle.std.specs.Prelude.{◌≡◌, ◌<◌, ◌≤◌, ◌+◌, ◌++◌, find, length, vec_len, vec_capacity, IfErr, IfSome, OnOk, OnErr};
ghost use Rattle.std.specs.List.{list_any};
ghost use Rattle.std.specs.Option.{ForSome, option_copied};
ghost use Rattle.nb_settings.specs.Keys.{key_of};
ghost use Rattle.nb_settings.specs.Tables.{block_of, has_block, is_named, count_of, is_setting, is_full, place_of, put_at, with_block, without_block, without_setting};
ghost use Rattle.nb_settings.specs.declared.error.SetError.TheVariants as error;

use crate::block::Block;
use crate::setting::Setting;
use crate::{Key, MAX_SETTINGS, SetError};
use std::alloc::Global;

/// Whether a block is there; the root always is.
pub fn has_block(blocks: &[Block], name: &[u8]) -> bool
    ensures { result ≡ has_block name.now blocks.now }
{
    name.is_empty() || is_registered(blocks, name)
}

fn is_registered(blocks: &[Block], name: &[u8]) -> bool
    ensures { result ≡ list_any (is_named name.now) blocks.now }
{
    blocks.iter().any(|block| block.is_named(name))
}

/// How many settings a block has.
pub fn count_of(settings: &[Setting], block: &[u8]) -> usize
    ensures { result ≡ count_of block.now settings.now }
{
    settings
        .iter()
        .filter(|setting| setting.is_of(block))
        .count()
}

/// The setting of a block with a key.
pub fn setting_of<'a>(settings: &'a [Setting], block: &[u8], key: &Key<'_>) -> Option<&'a Setting>
    ensures { option_copied result ≡ find (is_setting block.now (key_of key.now)) settings.now }
{
    settings.iter().find(|setting| setting.is(block, key))
}

/// Where the setting of a block with a key stands.
pub fn place_of(settings: &[Setting], block: &[u8], key: &Key<'_>) -> Option<usize>
    ensures value { result ≡ place_of block.now (key_of key.now) settings.now }
    ensures within { IfSome result (λ i. i < length settings.now) }
{
    settings.iter().position(|setting| setting.is(block, key))
}

/// Whether a block has 128 settings, and none of them has the key.
pub fn is_full(settings: &[Setting], block: &[u8], key: &Key<'_>) -> bool
    ensures { result ≡ is_full block.now (key_of key.now) settings.now }
{
    count_of(settings, block) >= MAX_SETTINGS && place_of(settings, block, key).is_none()
}

/// Puts a setting in place of another, or after all.
pub fn put(
    settings: &mut Vec<Setting>,
    place: Option<usize>,
    setting: Setting,
) -> Result<(), SetError>
    requires { ForSome place (λ i. i < vec_len settings.old) }
    ensures ok { OnOk result (settings.new.items ≡ put_at place setting settings.old.items) }
    ensures refused { OnErr result (settings.new.items ≡ settings.old.items) }
    ensures memory { IfErr result (λ e. e ≡ error.NoMemory) }
{
    match place {
        Some(i) => settings[i] = setting,
        None => settings.push(setting)?,
    }
    Ok(())
}

/// Makes a block the latest. The root is there already.
pub fn put_block(
    blocks: &mut Vec<Block>,
    alloc: Global,
    name: &[u8],
    priority: i8,
) -> Result<(), SetError>
    ensures ok { OnOk result
        (blocks.new.items ≡ with_block (block_of name.now priority) blocks.old.items) }
    ensures refused { OnErr result (blocks.new.items ≡ blocks.old.items) }
    ensures memory { IfErr result (λ e. e ≡ error.NoMemory) }
{
    if name.is_empty() {
        return Ok(());
    }
    let block = Block::new(alloc, name, priority)?;
    blocks.reserve(1)?;
    blocks.retain(|other| !other.is_named(name));
    blocks.push(block)?;
    Ok(())
}

/// Drops the settings of a block.
pub fn empty_block(settings: &mut Vec<Setting>, block: &[u8])
    ensures { settings.new.items ≡ without_block block.now settings.old.items }
{
    settings.retain(|setting| !setting.is_of(block));
}

/// Drops the setting of a block with a key.
pub fn drop_setting(settings: &mut Vec<Setting>, block: &[u8], key: &Key<'_>)
    ensures { settings.new.items ≡ without_setting block.now (key_of key.now) settings.old.items }
{
    settings.retain(|setting| !setting.is(block, key));
}

/// Puts these settings after those of the other blocks, in place of the block's own.
pub fn replace_settings(settings: &mut Vec<Setting>, block: &[u8], new: Vec<Setting>)
    requires { vec_len settings.old + vec_len new ≤ vec_capacity settings.old }
    ensures { settings.new.items ≡ without_block block.now settings.old.items ++ new.items }
{
    let mut new = new;
    settings.retain(|setting| !setting.is_of(block));
    let _ = settings.append(&mut new);
}
