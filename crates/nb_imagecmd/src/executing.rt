//! What is selected, and what is executed.

ghost use Rattle.std.specs.Prelude.{◌≡◌, ◌⊎◌, ◌<◌, Ok, Err, length, IfOk, IfErr, OnOk, OnErr};
ghost use Rattle.nb_imagecmd.specs.Executing.{selected_with, executed, executed_selected};
ghost use Rattle.nb_imagecmd.specs.Executing.{is_too_deep, script_taken};
ghost use Rattle.nb_imagecmd.specs.declared.error.ImageFailure.TheVariants as failure;
ghost use Rattle.nb_imagecmd.specs.declared.outcome.ImageOutcome.TheVariants as outcome;

use crate::copies::{copy_text, joined};
use crate::{ImageFailure, ImageOutcome, ScriptImage};
use nb_image::{ImageKind, Images};
use nb_scripts::MOST_SCRIPTS;
use nb_terms::NoMemory;
use nb_wire::Words;
use std::alloc::Global;

/// Selects the image at a place, with these arguments.
pub(crate) fn select_with(
    alloc: Global,
    i: usize,
    args: &Words,
    images: &mut Images,
) -> Result<(), NoMemory>
    requires { i < length images.old.images }
    ensures ok { OnOk result (images.new ≡ selected_with i args.now images.old) }
    ensures refused { OnErr result (images.new ≡ images.old) }
{
    let args = joined(alloc, args.as_slice())?;
    images.set_args(alloc, i, args.as_slice())?;
    images.select(i);
    Ok(())
}

/// Executes the image at a place with these arguments.
pub(crate) fn execute(
    alloc: Global,
    i: usize,
    args: &Words,
    replace: bool,
    images: &mut Images,
) -> Result<ImageOutcome, ImageFailure>
    requires { i < length images.old.images }
    ensures value { IfOk result
        (λ outcome. executed i args.now replace images.old ≡ Ok (outcome, images.new)) }
    ensures cause { IfErr result (λ why. (why ≡ failure.NoMemory)
        ⊎ (executed i args.now replace images.old ≡ Err why)) }
    ensures refused { OnErr result (images.new ≡ images.old) }
{
    match images.kind(i) {
        ImageKind::Script => Ok(ImageOutcome::Run { image: i, replace }),
        ImageKind::Other => Err(ImageFailure::NotBootable),
        ImageKind::BzImage => boot_with(alloc, i, args, images),
        ImageKind::Elf => boot_with(alloc, i, args, images),
        ImageKind::Efi => boot_with(alloc, i, args, images),
    }
}

fn boot_with(
    alloc: Global,
    i: usize,
    args: &Words,
    images: &mut Images,
) -> Result<ImageOutcome, ImageFailure>
    requires { i < length images.old.images }
    ensures ok { IfOk result (λ o. (o ≡ outcome.Boot) × (images.new ≡ selected_with i args.now images.old)) }
    ensures memory { IfErr result (λ why. why ≡ failure.NoMemory) }
    ensures refused { OnErr result (images.new ≡ images.old) }
{
    select_with(alloc, i, args, images)?;
    Ok(ImageOutcome::Boot)
}

/// Executes the selected image with the arguments that it has.
pub(crate) fn execute_selected(replace: bool, images: &Images) -> Result<ImageOutcome, ImageFailure>
    ensures value { IfOk result
        (λ outcome. executed_selected images.now.selected replace images.now ≡ Ok (outcome, images.now)) }
    ensures cause { IfErr result
        (λ why. executed_selected images.now.selected replace images.now ≡ Err why) }
{
    let Some(i) = images.selected() else {
        return Err(ImageFailure::NoImage);
    };
    match images.kind(i) {
        ImageKind::Script => Ok(ImageOutcome::Run { image: i, replace }),
        ImageKind::Other => Err(ImageFailure::NotBootable),
        ImageKind::BzImage => Ok(ImageOutcome::Boot),
        ImageKind::Elf => Ok(ImageOutcome::Boot),
        ImageKind::Efi => Ok(ImageOutcome::Boot),
    }
}

/// Whether a script can't run within so many, the one that runs included, and takes no one's place.
pub(crate) fn is_too_deep(replace: bool, depth: usize) -> bool
    ensures { result ≡ is_too_deep replace depth }
{
    !replace && depth >= MOST_SCRIPTS
}

/// Takes a script that is to run from the list, where so many are within one another. None is selected then.
#[tactic(auto, unfolding(crate::specs::Executing::script_taken))]
pub fn take_script(
    alloc: Global,
    images: &mut Images,
    image: usize,
    replace: bool,
    depth: usize,
) -> Result<ScriptImage, ImageFailure>
    requires { image < length images.old.images }
    ensures value { IfOk result
        (λ script. script_taken image replace depth images.old ≡ Ok (script, images.new)) }
    ensures cause { IfErr result (λ why. (why ≡ failure.NoMemory)
        ⊎ (script_taken image replace depth images.old ≡ Err why)) }
    ensures refused { OnErr result (images.new ≡ images.old) }
{
    if is_too_deep(replace, depth) {
        return Err(ImageFailure::ManyScripts);
    }
    let text = images.body(image).text(alloc)?;
    let uri = copy_text(alloc, images.uri(image))?;
    images.select(image);
    images.free(image);
    Ok(ScriptImage { text, uri })
}
