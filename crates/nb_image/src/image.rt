ghost use Rattle.std.specs.Prelude.{◌≡◌, IfOk};
ghost use Rattle.nb_image.specs.Images.{image_of};

use crate::Body;
use nb_terms::NoMemory;
use nb_wire::Text;
use std::alloc::Global;

/// An image as it was fetched.
#[derive(Drop)]
pub struct Image {
    /// By which it is found, and which a hand-off tells.
    pub name: Text,
    pub body: Body,
    /// What a hand-off gives as its command line.
    pub args: Text,
    /// The URI of its fetch's last open.
    pub uri: Text,
}

impl Image {
    /// The image of a body, with copies of its name, its arguments and its URI.
    pub(crate) fn new(
        alloc: Global,
        name: &[u8],
        body: Body,
        args: &[u8],
        uri: &[u8],
    ) -> Result<Image, NoMemory>
        ensures { IfOk result (λ image. image ≡ image_of name.now body args.now uri.now) }
    {
        Ok(Image {
            name: copy(alloc, name)?,
            body,
            args: copy(alloc, args)?,
            uri: copy(alloc, uri)?,
        })
    }
}

/// A copy of these bytes.
pub fn copy(alloc: Global, bytes: &[u8]) -> Result<Text, NoMemory>
    ensures { IfOk result (λ text. text ≡ bytes.now) }
{
    Ok(Text::from_vec(Vec::from_slice(alloc, bytes)?))
}
