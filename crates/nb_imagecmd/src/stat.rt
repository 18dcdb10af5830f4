//! `imgstat`: prints a line for each image.

ghost use Rattle.std.specs.Prelude.{◌≡◌, ◌<◌, Some, length, slice_get, option_map, IfOk};
ghost use Rattle.nb_imagecmd.specs.Stat.{is_at, line_text, stat_line, stat_lines, selected_mark};

use nb_image::Images;
use nb_terms::NoMemory;
use nb_wire::Text;
use std::alloc::Global;
use std::marker::Model;

/// Lines that are printed, one after another.
#[derive(Drop)]
pub struct Lines {
    lines: Vec<Text>,
}

impl Model for Lines {
    ghost use Rattle.std.specs.Prelude.{ℕ, List};

    ghost Value = { List (List ℕ) };

    ghost view = { λ l. l.lines.items };
}

impl Lines {
    /// The lines, each with its line feed.
    pub fn as_slice(&self) -> &[Text]
        ensures { result.now ≡ self.now }
    {
        self.lines.as_slice()
    }
}

/// The lines, in the order of the images.
#[tactic(auto, using(crate::proofs::StatLemmas::lines_next))]
pub(crate) fn stat(alloc: Global, images: &Images) -> Result<Lines, NoMemory>
    ensures { IfOk result (λ lines. lines ≡ stat_lines images.now) }
{
    let mut lines = Vec::new(alloc);
    for i in 0..images.len() {
        lines.push(stat_line(alloc, images, i)?)?;
    }
    Ok(Lines { lines })
}

/// The line of the image at a place.
fn stat_line(alloc: Global, images: &Images, i: usize) -> Result<Text, NoMemory>
    requires { i < length images.now.images }
    ensures { IfOk result (λ line.
        option_map (λ image. stat_line images.now.selected (i, image)) (slice_get images.now.images i)
        ≡ Some line) }
{
    let name = images.name(i);
    let size = images.body(i).len();
    let is_selected = is_selected(images, i);
    let text = line_text(alloc, name, size, is_selected)?;
    Ok(text)
}

/// The line of an image of this name and size.
fn line_text(alloc: Global, name: &[u8], size: usize, is_selected: bool) -> Result<Text, NoMemory>
    ensures { IfOk result (λ line. line ≡ line_text name.now size is_selected) }
{
    let size = format!(in alloc; "{size}")?;
    let mut line = Vec::from_slice(alloc, name)?;
    line.extend_from_slice(b" : ".as_slice())?;
    line.extend_from_slice(size.as_bytes())?;
    line.extend_from_slice(b" bytes".as_slice())?;
    line.extend_from_slice(selected_mark(is_selected))?;
    line.push(b'\n')?;
    Ok(Text::from_vec(line))
}

fn is_selected(images: &Images, i: usize) -> bool
    ensures { result ≡ is_at images.now.selected i }
{
    match images.selected() {
        Some(selected) => selected == i,
        None => false,
    }
}

/// What stands after the size.
fn selected_mark(is_selected: bool) -> &'static [u8]
    ensures { result.now ≡ selected_mark is_selected }
{
    if is_selected { b" [SELECTED]" } else { b"" }
}
