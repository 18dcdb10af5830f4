ghost use Rattle.std.specs.Prelude.{◌≡◌, take};
ghost use Rattle.nb_image.specs.Kinds.{kind_of, is_bzimage, is_elf, is_efi};

use crate::Body;
use crate::first_line::is_script;

/// What an image is, by its content.
#[derive(Clone, Copy, Debug, PartialEq, Eq)]
pub enum ImageKind {
    /// A text whose first line is `#!ipxe`.
    Script,
    /// A Linux kernel for x86, with its setup header.
    BzImage,
    /// An ELF file.
    Elf,
    /// An EFI program.
    Efi,
    /// What can't be booted.
    Other,
}

/// Where the setup header of a Linux kernel has its name.
const SETUP_HEADER: usize = 514;

/// The first page of a body. All that tells its kind stands there, but a script's first line may be longer.
pub fn start_of(body: &Body) -> &[u8]
    ensures { result.now ≡ take 65536 body.now }
{
    match body.page(0) {
        Some(page) => page,
        None => &[],
    }
}

/// The first kind that fits a body.
pub fn kind_of(body: &Body) -> ImageKind
    ensures { result ≡ kind_of body.now }
{
    if is_script(body) {
        ImageKind::Script
    } else if is_bzimage(body) {
        ImageKind::BzImage
    } else if is_elf(body) {
        ImageKind::Elf
    } else if is_efi(body) {
        ImageKind::Efi
    } else {
        ImageKind::Other
    }
}

fn is_bzimage(body: &Body) -> bool
    ensures { result ≡ is_bzimage body.now }
{
    match start_of(body).get(SETUP_HEADER..) {
        Some(header) => header.starts_with(b"HdrS"),
        None => false,
    }
}

fn is_elf(body: &Body) -> bool
    ensures { result ≡ is_elf body.now }
{
    start_of(body).starts_with(b"\x7fELF")
}

fn is_efi(body: &Body) -> bool
    ensures { result ≡ is_efi body.now }
{
    start_of(body).starts_with(b"MZ")
}
