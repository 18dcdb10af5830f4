//! A file that its server has moved to another place.

ghost use Rattle.std.specs.Prelude.{◌≡◌, ◌⊎◌, true, false, Ok, Err, IfOk, IfErr};
ghost use Rattle.nb_uri.specs.Resolutions.{HasCleanPath, MayBeAsked, NamesItself};
ghost use Rattle.nb_imagecmd.specs.Asking.{has_long_path, is_file, MayBeFetched};
ghost use Rattle.nb_imagecmd.specs.Moving.{moved_file, place_of_move};
ghost use Rattle.nb_imagecmd.specs.declared.error.ImageFailure.TheVariants as failure;

use crate::asking::{has_long_path, is_file};
use crate::{Asking, ImageFailure};
use nb_uri::{UriTarget, resolve};
use std::alloc::Global;

/// The most moves of one file.
pub const MAX_MOVES: u8 = 5;

/// The same file where its server has moved it: this text, joined to its URI, names the place. The image keeps its name, its
/// arguments, and what is done with it.
pub fn moved_file(alloc: Global, asking: Asking, text: &[u8]) -> Result<Asking, ImageFailure>
    requires { MayBeFetched asking }
    ensures value { IfOk result (λ a. moved_file asking text.now ≡ Ok a) }
    ensures cause { IfErr result (λ why. (why ≡ failure.NoMemory) ⊎ (moved_file asking text.now ≡ Err why)) }
    ensures fetched { IfOk result MayBeFetched }
{
    if asking.moves >= MAX_MOVES {
        return Err(ImageFailure::ManyMoves);
    }
    let target = place_of_move(alloc, &asking.target, text)?;
    let Asking {
        name,
        args,
        after,
        moves,
        ..
    } = asking;
    Ok(Asking {
        target,
        name,
        args,
        after,
        moves: moves + 1,
    })
}

/// The file that a text names which is joined to the URI of the file before.
fn place_of_move(alloc: Global, before: &UriTarget, text: &[u8]) -> Result<UriTarget, ImageFailure>
    ensures value { IfOk result (λ t. place_of_move before.now text.now ≡ Ok t) }
    ensures cause { IfErr result (λ why. (why ≡ failure.NoMemory) ⊎ (place_of_move before.now text.now ≡ Err why)) }
    ensures file { IfOk result (λ t. is_file t ≡ true) }
    ensures path { IfOk result (λ t. has_long_path t ≡ false) }
    ensures clean { IfOk result HasCleanPath }
    ensures sendable { IfOk result MayBeAsked }
    ensures itself { IfOk result NamesItself }
{
    let target = resolve(alloc, Some(before.whole()), text)?;
    if !is_file(&target) {
        return Err(ImageFailure::NoScheme);
    }
    if has_long_path(&target) {
        return Err(ImageFailure::LongPath);
    }
    Ok(target)
}
