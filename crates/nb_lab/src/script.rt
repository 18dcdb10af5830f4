//! The script that fetches all images.

ghost use Rattle.std.specs.Prelude.{◌≡◌, ◌%◌, ◌==◌, ◌++◌, [], codes, IfOk, OnOk, if◌then◌else◌};
ghost use Rattle.nb_lab.specs.Scripts.{scheme_of, fetch_lines, script_text};

use crate::image::Image;
use nb_terms::NoMemory;
use std::alloc::Global;

/// After how many images all are let go.
const IMAGES_KEPT: u8 = 4;

/// The script that fetches so many images, by TFTP those of even numbers and by HTTP the others.
pub fn script(alloc: Global, images: u8) -> Result<Vec<u8>, NoMemory>
    ensures { IfOk result (λ text. text.items ≡ script_text images) }
{
    let mut text = Vec::from_slice(alloc, b"#!ipxe\n")?;
    for i in 0..images {
        put_fetch(alloc, Image(i), &mut text)?;
    }
    text.extend_from_slice(b"exit\n")?;
    Ok(text)
}

fn put_fetch(alloc: Global, image: Image, text: &mut Vec<u8>) -> Result<(), NoMemory>
    ensures { OnOk result (text.new.items ≡ text.old.items ++ fetch_lines image.0) }
{
    let number = image.0;
    let line = format!(in alloc; "imgfetch {}://10.0.0.1/{}\n", scheme(number), number)?;
    text.extend_from_slice(line.as_bytes())?;
    text.extend_from_slice(freeing(number))?;
    Ok(())
}

fn scheme(number: u8) -> &'static str
    ensures { result.now ≡ scheme_of number }
{
    if number % 2 == 0 { "tftp" } else { "http" }
}

/// The line that lets go all images, after every fourth.
fn freeing(number: u8) -> &'static [u8]
    ensures { result.now ≡ (if number % 4 == 3 then codes "imgfree\n" else []) }
{
    if number % IMAGES_KEPT == IMAGES_KEPT - 1 {
        b"imgfree\n"
    } else {
        b""
    }
}
