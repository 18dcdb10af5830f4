//! What a command on images comes to, by the world and its script.

ghost use Rattle.std.specs.Prelude.{◌≡◌, ◌⊎◌, ◌<◌, ◌≤◌, ℕ, Some, Ok, Err, IfOk, IfErr, OnOk, OnErr, length, unwrap_or};
ghost use Rattle.std.specs.Option.{option_copied};
ghost use Rattle.nb_command.specs.Bases.{base_by};
ghost use Rattle.nb_image.specs.Images.{ImageList};
ghost use Rattle.nb_imagecmd.specs.Asking.{MayBeFetched};
ghost use Rattle.nb_imagecmd.specs.CarryingOut.{image_effect, IfAsks};
ghost use Rattle.nb_imagecmd.specs.Promises.{HasShortNames};
ghost use Rattle.nb_imagecmd.specs.declared.error.ImageFailure.TheVariants as failure;
ghost use Rattle.nb_machine.specs.Effects.{Surroundings, image_outcome_effect, images_effect, taken_effect};
ghost use Rattle.nb_imagecmd.specs.Executing.{script_taken};
ghost use Rattle.nb_runner.specs.Handings.{AreShortImages};
ghost use Rattle.nb_runner.specs.ImageDeeds.{FitsOutcome, HasShortArgs, image_deed_effect, IsDeedWell, IsUnmoved, MayFollow};
ghost use Rattle.nb_runner.specs.World.{surroundings_in_world, world_with_images};

use crate::World;
use crate::intent::{Intent, intend_file};
use nb_command::script_base;
use nb_image::Images;
use nb_imagecmd::{
    ImageCommand, ImageFailure, ImageOutcome, Lines, ScriptImage, carry_out, take_script,
};
use nb_record::{Cause, NoMemory};
use nb_settings::Table;
use std::alloc::Global;

/// What comes of a command on images, at once or when its file has come.
#[derive(Drop)]
pub enum Conclusion {
    /// Its result is Ok, and the script goes on.
    Keeps,
    /// The same, and it prints these lines.
    Tells(Lines),
    /// It fails.
    Fails(Cause),
    /// The image at this place of the list is handed off.
    Boots(usize),
    /// This script runs.
    Runs {
        script: ScriptImage,
        /// It takes the place of the one that runs.
        replace: bool,
    },
}

/// What a command on images comes to.
#[derive(Drop)]
pub enum ImageDeed {
    /// It asks for a file, or is over with a cause.
    Intends(Intent),
    /// It waits for nothing, and this comes of it.
    Concludes(Conclusion),
}

/// Carries a command on images out, whose script was fetched from this URI, if it was.
fn carry_out_images(
    alloc: Global,
    command: &ImageCommand,
    own: Option<&[u8]>,
    table: &Table,
    images: &mut Images,
) -> Result<ImageOutcome, ImageFailure>
    ensures value { IfOk result (λ o. image_effect command.now (base_by (option_copied own.entry) table.now) images.old ≡ Ok (o, images.new)) }
    ensures cause { IfErr result (λ why. (why ≡ failure.NoMemory)
        ⊎ (image_effect command.now (base_by (option_copied own.entry) table.now) images.old ≡ Err why)) }
    ensures refused { OnErr result (images.new ≡ images.old) }
    ensures fetched { IfOk result (λ o. IfAsks o MayBeFetched) }
{
    let base = script_base(alloc, own, table)?;
    match base {
        Some(ref uri) => carry_out(alloc, command, Some(uri.as_slice()), images),
        None => carry_out(alloc, command, None, images),
    }
}

impl World {
    /// Does a command on images of a script that was fetched from this URI, if it was, and within which so many are.
    pub fn do_images(
        &mut self,
        alloc: Global,
        command: &ImageCommand,
        own: Option<&[u8]>,
        depth: usize,
    ) -> Result<ImageDeed, NoMemory>
        requires few { self.old.opens ≤ 16384 }
        requires named { HasShortNames self.old.state.images }
        requires short { AreShortImages self.old.state.images.images }
        requires args { HasShortArgs command.now }
        ensures value { IfOk result (λ d. images_effect (surroundings_in_world self.old (option_copied own.entry) depth) command.now
            ≡ image_deed_effect d self.new.state.images) }
        ensures after { OnOk result (self.new ≡ world_with_images self.old self.new.state.images) }
        ensures well { IfOk result (λ d. IsDeedWell d depth self.old.opens self.old.state.images self.new.state.images) }
    {
        match carry_out_images(
            alloc,
            command,
            own,
            &self.state.table,
            &mut self.state.images,
        ) {
            Ok(outcome) => self.deed_of(alloc, outcome, depth),
            Err(ImageFailure::NoMemory) => Err(NoMemory),
            Err(why) => Ok(ImageDeed::Intends(Intent::Over(why.cause()))),
        }
    }

    /// What an outcome comes to.
    fn deed_of(
        &mut self,
        alloc: Global,
        outcome: ImageOutcome,
        depth: usize,
    ) -> Result<ImageDeed, NoMemory>
        requires few { self.old.opens ≤ 16384 }
        requires fits { FitsOutcome outcome self.old.state.images }
        requires may { MayFollow self.old.state.images }
        ensures value { (x : Surroundings) → x.opens ≡ self.old.opens → x.table ≡ self.old.state.table → x.depth ≡ depth
            → IfOk result (λ d. image_outcome_effect x outcome self.old.state.images ≡ image_deed_effect d self.new.state.images) }
        ensures after { OnOk result (self.new ≡ world_with_images self.old self.new.state.images) }
        ensures well { (before : ImageList) → IsUnmoved outcome before self.old.state.images
            → IfOk result (λ d. IsDeedWell d depth self.old.opens before self.new.state.images) }
    {
        match outcome {
            ImageOutcome::Done => Ok(ImageDeed::Concludes(Conclusion::Keeps)),
            ImageOutcome::Print(lines) => Ok(ImageDeed::Concludes(Conclusion::Tells(lines))),
            ImageOutcome::Ask(asking) => Ok(ImageDeed::Intends(intend_file(
                alloc,
                self.opens,
                &self.state.table,
                asking,
            )?)),
            ImageOutcome::Run { image, replace } => {
                take(alloc, &mut self.state.images, image, replace, depth)
            }
            ImageOutcome::Boot => {
                let kernel = selected(&self.state.images);
                Ok(ImageDeed::Concludes(Conclusion::Boots(kernel)))
            }
        }
    }
}

/// The place of the selected image.
pub fn selected(images: &Images) -> usize
    ensures value { result ≡ unwrap_or images.now.selected 0 }
    ensures within { (i : ℕ) → images.now.selected ≡ Some i → result < length images.now.images }
    ensures few { length images.now.images ≤ 32 }
{
    // That a hand-off ends within its step rests on it that the images are few.
    let _len = images.len();
    match images.selected() {
        Some(place) => place,
        None => 0,
    }
}

/// Takes the script at this place of the list, which is to run; it is refused where too many are within one another.
fn take(
    alloc: Global,
    images: &mut Images,
    image: usize,
    replace: bool,
    depth: usize,
) -> Result<ImageDeed, NoMemory>
    requires within { image < length images.old.images }
    requires may { MayFollow images.old }
    ensures value { IfOk result (λ d. taken_effect replace (script_taken image replace depth images.old) ≡ image_deed_effect d images.new) }
    ensures well { (opens : ℕ) → IfOk result (λ d. IsDeedWell d depth opens images.old images.new) }
{
    match take_script(alloc, images, image, replace, depth) {
        Ok(script) => Ok(ImageDeed::Concludes(Conclusion::Runs { script, replace })),
        Err(ImageFailure::NoMemory) => Err(NoMemory),
        Err(why) => Ok(ImageDeed::Intends(Intent::Over(why.cause()))),
    }
}
