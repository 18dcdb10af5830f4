//! Which file a command asks for, and what is done with its image.

ghost use Rattle.std.specs.Prelude.{◌≡◌, ◌⊎◌, Ok, Err, IfOk, IfErr};
ghost use Rattle.std.specs.Option.{option_copied};
ghost use Rattle.nb_uri.specs.Resolutions.{HasCleanPath, MayBeAsked, NamesItself};
ghost use Rattle.nb_imagecmd.specs.Asking.{is_file, target_name, asked_name, has_long_path};
ghost use Rattle.nb_imagecmd.specs.Asking.{asked_file, MayBeFetched};
ghost use Rattle.nb_imagecmd.specs.declared.error.ImageFailure.TheVariants as failure;

use crate::ImageFailure;
use crate::copies::{copy_text, joined};
use nb_terms::NoMemory;
use nb_uri::{UriTarget, image_name, resolve};
use nb_wire::{Text, Word, Words};
use std::alloc::Global;

/// The most bytes of the path of a TFTP server's file.
pub const MAX_PATH: usize = 1024;

/// The most bytes of an image's name.
pub const MAX_NAME: usize = 255;

/// What is done with an image that was fetched.
#[derive(Clone, Copy, Debug, PartialEq, Eq)]
pub enum After {
    /// It is put into the list.
    Keep,
    /// It is put into the list and selected.
    Select,
    /// It is executed; it is in the list where it is booted.
    Run {
        /// A script takes the place of the one that runs.
        replace: bool,
    },
}

/// A file that a command asks for, and its image.
#[derive(Drop)]
pub struct Asking {
    pub target: UriTarget,
    /// The image's name.
    pub name: Text,
    /// The image's arguments.
    pub args: Text,
    pub after: After,
    /// How often its server has moved it to another place.
    pub moves: u8,
}

/// What a command asks for whose URI is joined to this base.
pub(crate) fn asked_file(
    alloc: Global,
    base: Option<&[u8]>,
    name: &Option<Word>,
    uri: &Word,
    args: &Words,
    after: After,
) -> Result<Asking, ImageFailure>
    ensures value { IfOk result
        (λ asking. asked_file (option_copied base.entry) name.now uri.now args.now after ≡ Ok asking) }
    ensures cause { IfErr result (λ why. (why ≡ failure.NoMemory)
        ⊎ (asked_file (option_copied base.entry) name.now uri.now args.now after ≡ Err why)) }
    ensures fetched { IfOk result MayBeFetched }
{
    let target = resolve(alloc, base, uri.as_slice())?;
    if !is_file(&target) {
        return Err(ImageFailure::NoScheme);
    }
    let name = asked_name(alloc, name, &target)?;
    if has_long_path(&target) || name.len() > MAX_NAME {
        return Err(ImageFailure::LongPath);
    }
    Ok(Asking {
        target,
        name,
        args: Text::from_vec(joined(alloc, args.as_slice())?),
        after,
        moves: 0,
    })
}

/// Whether it is a file, which is fetched, and not a disk.
pub(crate) fn is_file(target: &UriTarget) -> bool
    ensures { result ≡ is_file target.now }
{
    match target {
        UriTarget::Tftp { .. } => true,
        UriTarget::Http { .. } => true,
        UriTarget::Iscsi { .. } => false,
    }
}

pub(crate) fn has_long_path(target: &UriTarget) -> bool
    ensures { result ≡ has_long_path target.now }
{
    match target {
        UriTarget::Tftp { path, .. } => path.len() > MAX_PATH,
        UriTarget::Http { .. } => false,
        UriTarget::Iscsi { .. } => false,
    }
}

/// The name of the image of a file: the one given, or else the one that its URI gives it.
fn asked_name(alloc: Global, given: &Option<Word>, target: &UriTarget) -> Result<Text, NoMemory>
    ensures { IfOk result (λ name. name ≡ asked_name given.now target.now) }
{
    match given {
        Some(name) => copy_text(alloc, name.as_slice()),
        None => target_name(alloc, target),
    }
}

fn target_name(alloc: Global, target: &UriTarget) -> Result<Text, NoMemory>
    ensures { IfOk result (λ name. name ≡ target_name target.now) }
{
    match target {
        UriTarget::Tftp { host, whole, .. } => image_name(alloc, whole.as_slice(), host.as_slice()),
        UriTarget::Http { host, whole, .. } => image_name(alloc, whole.as_slice(), host.as_slice()),
        UriTarget::Iscsi { host, whole, .. } => {
            image_name(alloc, whole.as_slice(), host.as_slice())
        }
    }
}
