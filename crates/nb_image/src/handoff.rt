ghost use Rattle.std.specs.Prelude.{◌≡◌, ◌+◌, ◌<◌, ◌≤◌, Some, length, slice_get, option_map};
ghost use Rattle.std.specs.List.{remove};
ghost use Rattle.nb_image.specs.Parts.{part, part_text, parts, others_parts};
ghost use Rattle.nb_image.specs.declared.part.PartKind.TheVariants.{CommandLine};

use crate::{Images, Part, PartBytes, PartKind};

/// What is handed off: the image to boot, and all images, which stay in the list.
#[derive(Clone, Copy, Drop)]
pub struct Handoff<'a> {
    /// The place of the image to boot.
    pub kernel: usize,
    pub images: &'a Images,
}

impl<'a> Handoff<'a> {
    /// Part `k`, from 0: of the image to boot its name, its bytes and its arguments, and then name and
    /// bytes of each other image in list order. None after the last.
    pub fn part(&self, k: usize) -> Option<Part<'a>>
        requires { self.now.kernel < length self.now.images.now.images }
        ensures { option_map part_text result ≡ slice_get (parts self.now.kernel self.now.images.now.images) k }
    {
        match k {
            0 => Some(name_part(self.images, self.kernel, PartKind::KernelName, 0)),
            1 => Some(body_part(self.images, self.kernel, PartKind::Kernel, 0)),
            2 => Some(command_line(self.images, self.kernel)),
            _ => other_part(self.images, self.kernel, k - 3),
        }
    }

    /// How many parts there are: three of the image to boot, and two of each other image.
    pub fn part_count(&self) -> usize
        requires { self.now.kernel < length self.now.images.now.images }
        ensures value { result ≡ length (parts self.now.kernel self.now.images.now.images) }
        ensures fits { result ≤ 65 }
    {
        1 + 2 * self.images.len()
    }
}

/// Part `k` of the images other than the one at the place `kernel`.
fn other_part(images: &Images, kernel: usize, k: usize) -> Option<Part<'_>>
    requires { kernel < length images.now.images }
    ensures { option_map part_text result ≡ slice_get (others_parts (remove images.now.images kernel)) k }
{
    let other = k / 2;
    if other >= images.len() - 1 {
        return None;
    }
    let place = other_place(kernel, other);
    if k % 2 == 0 {
        Some(name_part(images, place, PartKind::InitrdName, other as u16))
    } else {
        Some(body_part(images, place, PartKind::Initrd, other as u16))
    }
}

/// Where the image stands that is number `other` of those that aren't at the place `kernel`.
fn other_place(kernel: usize, other: usize) -> usize
    requires { other < 32 }
    ensures before { other < kernel → result ≡ other }
    ensures behind { kernel ≤ other → result ≡ other + 1 }
{
    if other < kernel { other } else { other + 1 }
}

/// The name of the image at a place, as a part.
fn name_part(images: &Images, place: usize, kind: PartKind, index: u16) -> Part<'_>
    requires { place < length images.now.images }
    ensures { option_map (λ image. part kind index image.name) (slice_get images.now.images place) ≡ Some (part_text result) }
{
    Part {
        kind,
        index,
        bytes: PartBytes::Text(images.name(place)),
    }
}

/// The bytes of the image at a place, as a part.
fn body_part(images: &Images, place: usize, kind: PartKind, index: u16) -> Part<'_>
    requires { place < length images.now.images }
    ensures { option_map (λ image. part kind index image.body) (slice_get images.now.images place) ≡ Some (part_text result) }
{
    Part {
        kind,
        index,
        bytes: PartBytes::Pages(images.body(place)),
    }
}

/// The arguments of the image at a place, as the command line.
fn command_line(images: &Images, place: usize) -> Part<'_>
    requires { place < length images.now.images }
    ensures { option_map (λ image. part CommandLine 0 image.args) (slice_get images.now.images place) ≡ Some (part_text result) }
{
    Part {
        kind: PartKind::CommandLine,
        index: 0,
        bytes: PartBytes::Text(images.args(place)),
    }
}
