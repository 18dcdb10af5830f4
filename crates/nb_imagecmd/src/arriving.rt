ghost use Rattle.std.specs.Prelude.{◌≡◌, ◌⊎◌, Ok, Err, None, IfOk, IfErr, OnErr};
ghost use Rattle.nb_image.specs.Images.{refusal};
ghost use Rattle.nb_imagecmd.specs.Arriving.{arrived, arrived_image, arrives_as, script_runs};
ghost use Rattle.nb_imagecmd.specs.Arriving.{listed_with, selected_listed};
ghost use Rattle.nb_imagecmd.specs.declared.arriving.Arrival.TheVariants as arrival;
ghost use Rattle.nb_imagecmd.specs.declared.asking.After.TheVariants as after;
ghost use Rattle.nb_imagecmd.specs.declared.error.ImageFailure.TheVariants as failure;

use crate::copies::copy_text;
use crate::executing::is_too_deep;
use crate::{After, Asking, ImageFailure, ScriptImage};
use nb_image::{Body, ImageKind, Images};
use std::alloc::Global;

/// What comes of a command whose file has come.
#[derive(Drop)]
pub enum Arrival {
    /// Its image is in the list, and the result is Ok.
    Kept,
    /// It is a script, which is to run. It isn't in the list, and none is selected.
    Run {
        script: ScriptImage,
        /// It takes the place of the script that runs.
        replace: bool,
    },
    /// Its image is in the list and selected. It is booted, and the result is Ok.
    Boot,
}

/// The file has come that a command asked for, by an open of this URI. `depth` scripts are within one another,
/// the one that runs included. Where the command fails, nothing of the file is kept.
#[tactic(auto, unfolding(crate::specs::Arriving::arrived))]
pub fn arrive(
    alloc: Global,
    images: &mut Images,
    asking: &Asking,
    body: Body,
    uri: &[u8],
    depth: usize,
) -> Result<Arrival, ImageFailure>
    // What it comes to, and the list that it leaves.
    ensures value { IfOk result
        (λ arrival. arrived asking.now body uri.now depth images.old ≡ Ok (arrival, images.new)) }
    ensures cause { IfErr result (λ why. (why ≡ failure.NoMemory)
        ⊎ (arrived asking.now body uri.now depth images.old ≡ Err why)) }
    ensures refused { OnErr result (images.new ≡ images.old) }
{
    if let Some(why) = images.refuses(asking.name.as_slice(), &body) {
        return Err(ImageFailure::from(why));
    }
    match asking.after {
        After::Keep => keep(alloc, images, asking, body, uri),
        After::Select => select(alloc, images, asking, body, uri, Arrival::Kept),
        After::Run { replace } => run(alloc, images, asking, body, uri, replace, depth),
    }
}

/// Puts the image into the list, which has room for it.
fn keep(
    alloc: Global,
    images: &mut Images,
    asking: &Asking,
    body: Body,
    uri: &[u8],
) -> Result<Arrival, ImageFailure>
    requires { refusal (arrived_image asking.now body uri.now) images.old.images ≡ None }
    ensures ok { IfOk result (λ a. (a ≡ arrival.Kept)
        × (images.new ≡ listed_with (arrived_image asking.now body uri.now) images.old)) }
    ensures memory { IfErr result (λ why. why ≡ failure.NoMemory) }
    ensures refused { OnErr result (images.new ≡ images.old) }
{
    images.add(
        alloc,
        asking.name.as_slice(),
        body,
        asking.args.as_slice(),
        uri,
    )?;
    Ok(Arrival::Kept)
}

/// The same, and selects it.
fn select(
    alloc: Global,
    images: &mut Images,
    asking: &Asking,
    body: Body,
    uri: &[u8],
    arrival: Arrival,
) -> Result<Arrival, ImageFailure>
    requires { refusal (arrived_image asking.now body uri.now) images.old.images ≡ None }
    ensures ok { IfOk result (λ a. (a ≡ arrival)
        × (images.new ≡ selected_listed (arrived_image asking.now body uri.now) images.old)) }
    ensures memory { IfErr result (λ why. why ≡ failure.NoMemory) }
    ensures refused { OnErr result (images.new ≡ images.old) }
{
    let place = images.add(
        alloc,
        asking.name.as_slice(),
        body,
        asking.args.as_slice(),
        uri,
    )?;
    images.select(place);
    Ok(arrival)
}

/// Executes the image, for which the list has room.
fn run(
    alloc: Global,
    images: &mut Images,
    asking: &Asking,
    body: Body,
    uri: &[u8],
    replace: bool,
    depth: usize,
) -> Result<Arrival, ImageFailure>
    requires { refusal (arrived_image asking.now body uri.now) images.old.images ≡ None }
    ensures value { IfOk result (λ a. arrives_as (after.Run replace) (arrived_image asking.now body uri.now) depth
        images.old ≡ Ok (a, images.new)) }
    ensures cause { IfErr result (λ why. (why ≡ failure.NoMemory)
        ⊎ (arrives_as (after.Run replace) (arrived_image asking.now body uri.now) depth images.old
        ≡ Err why)) }
    ensures refused { OnErr result (images.new ≡ images.old) }
{
    match body.kind() {
        ImageKind::Script => run_script(alloc, images, asking, body, uri, replace, depth),
        ImageKind::BzImage => select(alloc, images, asking, body, uri, Arrival::Boot),
        ImageKind::Elf => select(alloc, images, asking, body, uri, Arrival::Boot),
        ImageKind::Efi => select(alloc, images, asking, body, uri, Arrival::Boot),
        ImageKind::Other => Err(ImageFailure::NotBootable),
    }
}

/// Runs the script, which was in the list as long as it took to leave it.
fn run_script(
    alloc: Global,
    images: &mut Images,
    asking: &Asking,
    body: Body,
    uri: &[u8],
    replace: bool,
    depth: usize,
) -> Result<Arrival, ImageFailure>
    requires { refusal (arrived_image asking.now body uri.now) images.old.images ≡ None }
    ensures value { IfOk result (λ a. script_runs (arrived_image asking.now body uri.now) replace depth
        images.old ≡ Ok (a, images.new)) }
    ensures cause { IfErr result (λ why. (why ≡ failure.NoMemory)
        ⊎ (script_runs (arrived_image asking.now body uri.now) replace depth images.old ≡ Err why)) }
    ensures refused { OnErr result (images.new ≡ images.old) }
{
    if is_too_deep(replace, depth) {
        return Err(ImageFailure::ManyScripts);
    }
    let script = ScriptImage {
        text: body.text(alloc)?,
        uri: copy_text(alloc, uri)?,
    };
    let place = images.add(
        alloc,
        asking.name.as_slice(),
        body,
        asking.args.as_slice(),
        uri,
    )?;
    images.select(place);
    images.free(place);
    Ok(Arrival::Run { script, replace })
}
