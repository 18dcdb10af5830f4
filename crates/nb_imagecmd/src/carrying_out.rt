ghost use Rattle.std.specs.Prelude.{◌≡◌, ◌⊎◌, Ok, Err, IfOk, IfErr, OnErr};
ghost use Rattle.std.specs.Option.{option_copied};
ghost use Rattle.nb_imagecmd.specs.Asking.{asked_file, MayBeFetched};
ghost use Rattle.nb_imagecmd.specs.CarryingOut.{waits_for_asked, selects, executes, sets_args, images_freed};
ghost use Rattle.nb_imagecmd.specs.CarryingOut.{image_effect, IfAsks};
ghost use Rattle.nb_imagecmd.specs.declared.error.ImageFailure.TheVariants as failure;
ghost use Rattle.nb_imagecmd.specs.declared.asking.After.TheVariants as after;

use crate::asking::asked_file;
use crate::copies::joined;
use crate::executing::{execute, execute_selected, select_with};
use crate::freeing::{are_all_listed, free};
use crate::stat::stat;
use crate::{After, ImageCommand, ImageFailure, ImageOutcome};
use nb_image::Images;
use nb_wire::{Word, Words};
use std::alloc::Global;

/// Carries an image command out, whose URI is joined to this base. It changes the list of images, or returns
/// the file that it waits for.
#[tactic(auto, unfolding(crate::specs::CarryingOut::image_effect))]
pub fn carry_out(
    alloc: Global,
    command: &ImageCommand,
    base: Option<&[u8]>,
    images: &mut Images,
) -> Result<ImageOutcome, ImageFailure>
    // What it comes to, and the list that it leaves.
    ensures value { IfOk result (λ outcome.
        image_effect command.now (option_copied base.entry) images.old ≡ Ok (outcome, images.new)) }
    ensures cause { IfErr result (λ why. (why ≡ failure.NoMemory)
        ⊎ (image_effect command.now (option_copied base.entry) images.old ≡ Err why)) }
    ensures refused { OnErr result (images.new ≡ images.old) }
    // What it waits for may be fetched, under a name that an image may have.
    ensures fetched { IfOk result (λ outcome. IfAsks outcome MayBeFetched) }
{
    match command {
        ImageCommand::Fetch { name, uri, args } => ask(alloc, base, name, uri, args, After::Keep),
        ImageCommand::Select { name, uri, args } => select(alloc, base, name, uri, args, images),
        ImageCommand::Exec {
            name,
            autofree: _,
            replace,
            uri: Some(uri),
            args,
        } => execute_or_ask(alloc, base, name, uri, args, *replace, images),
        ImageCommand::Exec {
            name: _,
            autofree: _,
            replace,
            uri: None,
            args: _,
        } => execute_selected(*replace, images),
        ImageCommand::Imgargs { name, args } => set_args(alloc, name, args, images),
        ImageCommand::Imgfree(names) => free_named(names, images),
        ImageCommand::Imgstat => Ok(ImageOutcome::Print(stat(alloc, images)?)),
    }
}

/// Waits for a file.
fn ask(
    alloc: Global,
    base: Option<&[u8]>,
    name: &Option<Word>,
    uri: &Word,
    args: &Words,
    after: After,
) -> Result<ImageOutcome, ImageFailure>
    ensures value { IfOk result (λ outcome.
        waits_for_asked (asked_file (option_copied base.entry) name.now uri.now args.now after) ≡ Ok outcome) }
    ensures cause { IfErr result (λ why. (why ≡ failure.NoMemory)
        ⊎ (asked_file (option_copied base.entry) name.now uri.now args.now after ≡ Err why)) }
    ensures fetched { IfOk result (λ outcome. IfAsks outcome MayBeFetched) }
{
    Ok(ImageOutcome::Ask(asked_file(alloc, base, name, uri, args, after)?))
}

/// Selects the image of a name, or waits for a file.
fn select(
    alloc: Global,
    base: Option<&[u8]>,
    name: &Option<Word>,
    uri: &Word,
    args: &Words,
    images: &mut Images,
) -> Result<ImageOutcome, ImageFailure>
    ensures value { IfOk result (λ outcome. selects (option_copied base.entry) name.now uri.now args.now
        images.old ≡ Ok (outcome, images.new)) }
    ensures cause { IfErr result (λ why. (why ≡ failure.NoMemory)
        ⊎ (selects (option_copied base.entry) name.now uri.now args.now images.old ≡ Err why)) }
    ensures refused { OnErr result (images.new ≡ images.old) }
    ensures fetched { IfOk result (λ outcome. IfAsks outcome MayBeFetched) }
{
    match images.find(uri.as_slice()) {
        Some(i) => {
            select_with(alloc, i, args, images)?;
            Ok(ImageOutcome::Done)
        }
        None => ask(alloc, base, name, uri, args, After::Select),
    }
}

/// Executes the image of a name, or waits for a file.
fn execute_or_ask(
    alloc: Global,
    base: Option<&[u8]>,
    name: &Option<Word>,
    uri: &Word,
    args: &Words,
    replace: bool,
    images: &mut Images,
) -> Result<ImageOutcome, ImageFailure>
    ensures value { IfOk result (λ outcome. executes (option_copied base.entry) name.now uri.now args.now
        replace images.old ≡ Ok (outcome, images.new)) }
    ensures cause { IfErr result (λ why. (why ≡ failure.NoMemory)
        ⊎ (executes (option_copied base.entry) name.now uri.now args.now replace images.old ≡ Err why)) }
    ensures refused { OnErr result (images.new ≡ images.old) }
    ensures fetched { IfOk result (λ outcome. IfAsks outcome MayBeFetched) }
{
    match images.find(uri.as_slice()) {
        Some(i) => execute(alloc, i, args, replace, images),
        None => ask(alloc, base, name, uri, args, After::Run { replace }),
    }
}

/// Sets the arguments of the image of a name.
fn set_args(
    alloc: Global,
    name: &Word,
    args: &Words,
    images: &mut Images,
) -> Result<ImageOutcome, ImageFailure>
    ensures value { IfOk result
        (λ outcome. sets_args name.now args.now images.old ≡ Ok (outcome, images.new)) }
    ensures cause { IfErr result (λ why. (why ≡ failure.NoMemory)
        ⊎ (sets_args name.now args.now images.old ≡ Err why)) }
    ensures refused { OnErr result (images.new ≡ images.old) }
    ensures fetched { IfOk result (λ outcome. IfAsks outcome MayBeFetched) }
{
    let Some(i) = images.find(name.as_slice()) else {
        return Err(ImageFailure::NoImage);
    };
    let args = joined(alloc, args.as_slice())?;
    images.set_args(alloc, i, args.as_slice())?;
    Ok(ImageOutcome::Done)
}

/// Frees the images of these names, where each is there.
fn free_named(names: &Words, images: &mut Images) -> Result<ImageOutcome, ImageFailure>
    ensures value { IfOk result (λ outcome. images_freed names.now images.old ≡ Ok (outcome, images.new)) }
    ensures cause { IfErr result (λ why. images_freed names.now images.old ≡ Err why) }
    ensures refused { OnErr result (images.new ≡ images.old) }
    ensures fetched { IfOk result (λ outcome. IfAsks outcome MayBeFetched) }
{
    if !are_all_listed(names.as_slice(), images) {
        return Err(ImageFailure::NoImage);
    }
    free(names.as_slice(), images);
    Ok(ImageOutcome::Done)
}
