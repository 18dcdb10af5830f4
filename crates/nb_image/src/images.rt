ghost use Rattle.std.specs.Prelude.{◌≡◌, ◌<◌, ◌≤◌, ℕ, List, [], None, Some, length, slice_get, unwrap_or, IfOk, OnOk, OnErr, IfErr, IfSome, ◌⊎◌, option_map};
ghost use Rattle.std.specs.Option.{MatchOption};
ghost use Rattle.nb_image.specs.Images.{image_of, image_place, with_image, with_args_at, without_image, selected_image, refusal};
ghost use Rattle.nb_image.specs.declared.error.ImageError.TheVariants as error;
ghost use Rattle.nb_image.specs.Kinds.{kind_of};

use crate::image::copy;
use crate::list::{place_of, put, refusal, selection_without};
use crate::{Body, Handoff, Image, ImageError, ImageKind};
use nb_terms::NoMemory;
use std::alloc::Global;
use std::marker::Model;

/// The list of images and which one is selected: at most 32 images, whose bodies have at most
/// 536,870,912 bytes together. A place is a number from 0, below `len`.
#[derive(Drop)]
pub struct Images {
    images: Vec<Image>,
    selected: Option<usize>,
}

impl Model for Images {
    ghost use Rattle.nb_image.specs.Images.{ImageList, IsList};

    ghost Value = { ImageList };

    ghost view = { λ i. record { images = i.images.items; selected = i.selected } };

    ghost invariant = { λ i. IsList (record { images = i.images.items; selected = i.selected }) };
}

impl Images {
    /// No images.
    pub fn new(alloc: Global) -> Images
        ensures { result ≡ record { images = []; selected = None } }
    {
        Images {
            images: Vec::new(alloc),
            selected: None,
        }
    }

    /// Adds an image, in place of the one of its name where there is one, and says where it stands. The
    /// selection stays at its place.
    pub fn add(
        &mut self,
        alloc: Global,
        name: &[u8],
        body: Body,
        args: &[u8],
        uri: &[u8],
    ) -> Result<usize, ImageError>
        ensures ok { OnOk result (self.new ≡ record {
          images = with_image (image_of name.now body args.now uri.now) self.old.images;
          selected = self.old.selected;
        }) }
        ensures place { IfOk result (λ i. i ≡ unwrap_or (image_place name.now self.old.images) (length self.old.images)) }
        ensures within { IfOk result (λ i. i < length self.new.images) }
        ensures fits { OnOk result (refusal (image_of name.now body args.now uri.now) self.old.images ≡ None) }
        ensures cause { IfErr result
            (λ e. (e ≡ error.NoMemory) ⊎ (refusal (image_of name.now body args.now uri.now) self.old.images ≡ Some e)) }
        ensures refused { OnErr result (self.new ≡ self.old) }
    {
        if let Some(cause) = self.refuses(name, &body) {
            return Err(cause);
        }
        let image = Image::new(alloc, name, body, args, uri)?;
        let place = place_of(self.images.as_slice(), name);
        put(&mut self.images, place, image)
    }

    /// Why an image of this name and body isn't taken, whatever its arguments and its URI are. None where
    /// there is room for it.
    pub fn refuses(&self, name: &[u8], body: &Body) -> Option<ImageError>
        ensures { (args uri : List ℕ) → result ≡ refusal (image_of name.now body.now args uri) self.now.images }
    {
        let images = self.images.as_slice();
        refusal(images, place_of(images, name), body)
    }

    /// Where the image of a name stands. None where there is none.
    pub fn find(&self, name: &[u8]) -> Option<usize>
        ensures value { result ≡ image_place name.now self.now.images }
        ensures within { IfSome result (λ i. i < length self.now.images) }
    {
        place_of(self.images.as_slice(), name)
    }

    /// Selects the image at a place.
    pub fn select(&mut self, i: usize)
        requires { i < length self.old.images }
        ensures { self.new ≡ record { images = self.old.images; selected = Some i } }
    {
        self.selected = Some(i);
    }

    /// Gives the image at a place other arguments.
    pub fn set_args(&mut self, alloc: Global, i: usize, args: &[u8]) -> Result<(), NoMemory>
        requires { i < length self.old.images }
        ensures ok { OnOk result (self.new ≡ record {
          images = with_args_at i args.now self.old.images;
          selected = self.old.selected;
        }) }
        ensures len { length self.new.images ≡ length self.old.images }
        ensures refused { OnErr result (self.new ≡ self.old) }
    {
        let args = copy(alloc, args)?;
        self.images[i].args = args;
        Ok(())
    }

    /// Drops the image at a place. The others keep their order.
    pub fn free(&mut self, i: usize)
        requires { i < length self.old.images }
        ensures list { self.new ≡ without_image i self.old }
        ensures stays { (self.old.selected ≡ Some i → ⊥) → selected_image self.new ≡ selected_image self.old }
    {
        self.images.remove(i);
        self.selected = selection_without(i, self.selected);
    }

    /// Takes the image at a place from the list, and gives its body. The others keep their order.
    pub fn take_out(&mut self, i: usize) -> Body
        requires { i < length self.old.images }
        ensures body { option_map (λ image. image.body) (slice_get self.old.images i) ≡ Some result }
        ensures list { self.new ≡ without_image i self.old }
        ensures stays { (self.old.selected ≡ Some i → ⊥) → selected_image self.new ≡ selected_image self.old }
    {
        let image = self.images.remove(i);
        self.selected = selection_without(i, self.selected);
        image.body
    }

    /// What the image at a place is.
    pub fn kind(&self, i: usize) -> ImageKind
        requires { i < length self.now.images }
        ensures { option_map (λ image. kind_of image.body) (slice_get self.now.images i) ≡ Some result }
    {
        self.images[i].body.kind()
    }

    /// The selected image and all others, for the hand-off. None where none is selected.
    pub fn handoff(&self) -> Option<Handoff<'_>>
        ensures value { MatchOption result (self.now.selected ≡ None)
            (λ handoff. (self.now.selected ≡ Some handoff.kernel) × (handoff.images.now ≡ self.now)) }
        ensures within { IfSome result (λ handoff. handoff.kernel < length self.now.images) }
    {
        let kernel = self.selected?;
        Some(Handoff {
            kernel,
            images: self,
        })
    }

    /// How many images there are.
    pub fn len(&self) -> usize
        ensures value { result ≡ length self.now.images }
        ensures fits { result ≤ 32 }
    {
        self.images.len()
    }

    /// The name of the image at a place.
    pub fn name(&self, i: usize) -> &[u8]
        requires { i < length self.now.images }
        ensures { option_map (λ image. image.name) (slice_get self.now.images i) ≡ Some result.now }
    {
        self.images[i].name.as_slice()
    }

    /// The URI of its fetch's last open.
    pub fn uri(&self, i: usize) -> &[u8]
        requires { i < length self.now.images }
        ensures { option_map (λ image. image.uri) (slice_get self.now.images i) ≡ Some result.now }
    {
        self.images[i].uri.as_slice()
    }

    /// Its arguments, which are its command line.
    pub fn args(&self, i: usize) -> &[u8]
        requires { i < length self.now.images }
        ensures { option_map (λ image. image.args) (slice_get self.now.images i) ≡ Some result.now }
    {
        self.images[i].args.as_slice()
    }

    /// Its bytes.
    pub fn body(&self, i: usize) -> &Body
        requires { i < length self.now.images }
        ensures { option_map (λ image. image.body) (slice_get self.now.images i) ≡ Some result.now }
    {
        &self.images[i].body
    }

    /// The place of the selected image.
    pub fn selected(&self) -> Option<usize>
        ensures value { result ≡ self.now.selected }
        ensures within { IfSome result (λ i. i < length self.now.images) }
    {
        self.selected
    }
}
