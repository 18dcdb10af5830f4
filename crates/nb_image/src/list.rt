ghost use Rattle.std.specs.Prelude.{◌≡◌, ◌<◌, ◌≤◌, None, Some, length, vec_len, unwrap_or, IfOk, IfErr, OnOk, OnErr};
ghost use Rattle.std.specs.Option.{ForSome};
ghost use Rattle.nb_image.specs.declared.image.Image.{Image};
ghost use Rattle.nb_image.specs.Images.{image_place, has_name, put_image, total_len, len_at, is_too_many, is_too_large, refusal, selection_without};
ghost use Rattle.nb_image.specs.declared.error.ImageError.TheVariants as error;

use crate::{Body, Image, ImageError};

/// The most images that a list may have.
pub const MAX_IMAGES: usize = 32;

/// The most bytes that the bodies of a list may have together.
pub const MAX_TOTAL_LEN: usize = 536_870_912;

/// Where the image of a name stands.
pub fn place_of(images: &[Image], name: &[u8]) -> Option<usize>
    ensures { result ≡ image_place name.now images.now }
{
    images.iter().position(|image| has_name(image, name))
}

fn has_name(image: &Image, name: &[u8]) -> bool
    ensures { result ≡ has_name name.now image.now }
{
    image.name.as_slice() == name
}

/// How many bytes the bodies have together.
pub fn total_len(images: &[Image]) -> usize
    requires { total_len images.now ≤ 536870912 }
    ensures { result ≡ total_len images.now }
{
    let mut total = 0;
    for image in images {
        total += image.body.len();
    }
    total
}

/// How many bytes the body has that stands at a place.
fn len_at(images: &[Image], place: Option<usize>) -> usize
    requires { ForSome place (λ i. i < length images.now) }
    ensures { result ≡ len_at place images.now }
{
    match place {
        Some(i) => images[i].body.len(),
        None => 0,
    }
}

/// Whether there would be a 33rd image, if one of the name that stands at this place were put.
fn is_too_many(images: &[Image], place: Option<usize>) -> bool
    requires { length images.now ≤ 32 }
    ensures { (image : Image) → place ≡ image_place image.name images.now → result ≡ is_too_many image images.now }
{
    place.is_none() && images.len() >= MAX_IMAGES
}

/// Whether all bodies together would have more than 536,870,912 bytes, with this body put there.
fn is_too_large(images: &[Image], place: Option<usize>, body: &Body) -> bool
    requires place { ForSome place (λ i. i < length images.now) }
    requires total { total_len images.now ≤ 536870912 }
    ensures { (image : Image) → place ≡ image_place image.name images.now → image.body ≡ body.now
        → result ≡ is_too_large image images.now }
{
    total_len(images) - len_at(images, place) + body.len() > MAX_TOTAL_LEN
}

/// Why an image of this body, whose name stands at this place, isn't taken into the list.
pub fn refusal(images: &[Image], place: Option<usize>, body: &Body) -> Option<ImageError>
    requires place { ForSome place (λ i. i < length images.now) }
    requires len { length images.now ≤ 32 }
    requires total { total_len images.now ≤ 536870912 }
    ensures { (image : Image) → place ≡ image_place image.name images.now → image.body ≡ body.now
        → result ≡ refusal image images.now }
{
    if is_too_many(images, place) {
        return Some(ImageError::TooMany);
    }
    if is_too_large(images, place, body) {
        return Some(ImageError::TooLarge);
    }
    None
}

/// Puts an image in place of another, or after all, and says where.
pub fn put(images: &mut Vec<Image>, place: Option<usize>, image: Image) -> Result<usize, ImageError>
    requires { ForSome place (λ i. i < vec_len images.old) }
    ensures ok { OnOk result (images.new.items ≡ put_image place image images.old.items) }
    ensures place { IfOk result (λ i. i ≡ unwrap_or place (vec_len images.old)) }
    ensures within { IfOk result (λ i. i < vec_len images.new) }
    ensures refused { OnErr result (images.new.items ≡ images.old.items) }
    ensures memory { IfErr result (λ e. e ≡ error.NoMemory) }
{
    match place {
        Some(i) => {
            images[i] = image;
            Ok(i)
        }
        None => {
            images.push(image)?;
            Ok(images.len() - 1)
        }
    }
}

/// The selection, once the image at a place is gone.
pub fn selection_without(i: usize, selected: Option<usize>) -> Option<usize>
    ensures { result ≡ selection_without i selected }
{
    match selected {
        Some(place) if place == i => None,
        Some(place) if place > i => Some(place - 1),
        _ => selected,
    }
}
