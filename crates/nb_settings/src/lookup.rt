ghost use Rattle.std.specs.Prelude.{◌≡◌, find};
ghost use Rattle.std.specs.List.{list_any};
ghost use Rattle.std.specs.Option.{option_copied};
ghost use Rattle.nb_settings.specs.Keys.{key_of};
ghost use Rattle.nb_settings.specs.Tables.{by_priority, is_behind, is_setting};
ghost use Rattle.nb_settings.specs.Order.{sooner, has_behind};

use crate::Key;
use crate::block::Block;
use crate::setting::Setting;

/// The first block by priority of those after a block, or after the root, that have the key.
pub fn first_behind<'a>(
    blocks: &'a [Block],
    settings: &[Setting],
    block: Option<&[u8]>,
    key: &Key<'_>,
) -> Option<&'a Block>
    ensures { option_copied result
        ≡ find (has_behind (option_copied block.entry) (key_of key.now) settings.now)
        (by_priority blocks.now) }
{
    let mut first = None;
    for candidate in blocks {
        if has_behind(candidate, settings, block, key) {
            first = Some(sooner(first, candidate));
        }
    }
    first
}

/// Whether a block is looked up after another, and has the key.
fn has_behind(candidate: &Block, settings: &[Setting], block: Option<&[u8]>, key: &Key<'_>) -> bool
    ensures { result
        ≡ has_behind (option_copied block.entry) (key_of key.now) settings.now candidate.now }
{
    is_behind(candidate, block) && has_key(settings, candidate.name.as_slice(), key)
}

/// Whether a block is looked up after the one that is named, or after the root where none is.
fn is_behind(candidate: &Block, block: Option<&[u8]>) -> bool
    ensures { result ≡ is_behind (option_copied block.entry) candidate.now }
{
    match block {
        Some(name) => candidate.is_below(name),
        None => true,
    }
}

fn has_key(settings: &[Setting], block: &[u8], key: &Key<'_>) -> bool
    ensures { result ≡ list_any (is_setting block.now (key_of key.now)) settings.now }
{
    settings.iter().any(|setting| setting.is(block, key))
}

/// Which of two blocks is looked up sooner: the earlier one, unless the later has the higher priority.
fn sooner<'a>(earlier: Option<&'a Block>, later: &'a Block) -> &'a Block
    ensures { result.now ≡ sooner (option_copied earlier.entry) later.now }
{
    match earlier {
        Some(earlier) if earlier.priority >= later.priority => earlier,
        _ => later,
    }
}
