//! `imgfree [names]`: frees the images of these names, or all.

ghost use Rattle.std.specs.Prelude.{◌≡◌};
ghost use Rattle.std.specs.Str.{bytes_eq};
ghost use Rattle.nb_imagecmd.specs.Freeing.{is_listed, are_all_listed, is_among, is_freed, kept_list};

use nb_image::Images;
use nb_wire::Word;

/// Whether each name is that of an image.
pub(crate) fn are_all_listed(names: &[Word], images: &Images) -> bool
    ensures { result ≡ are_all_listed names.now images.now.images }
{
    names.iter().all(|name| is_listed(name, images))
}

fn is_listed(name: &Word, images: &Images) -> bool
    ensures { result ≡ is_listed images.now.images name.now }
{
    images.find(name.as_slice()).is_some()
}

/// Frees the images of these names, or all where there are none. The last one goes first, so that those still
/// to be looked at stay where they are.
pub(crate) fn free(names: &[Word], images: &mut Images)
    ensures { images.new ≡ kept_list names.now images.old }
{
    let len = images.len();
    for seen in 0..len {
        let i = len - 1 - seen;
        if is_freed(names, images.name(i)) {
            images.free(i);
        }
    }
}

/// Whether an image of this name is freed.
fn is_freed(names: &[Word], name: &[u8]) -> bool
    ensures { result ≡ is_freed names.now name.now }
{
    names.is_empty() || is_among(names, name)
}

fn is_among(names: &[Word], name: &[u8]) -> bool
    ensures { result ≡ is_among names.now name.now }
{
    names.iter().any(|other| is_same(other, name))
}

fn is_same(word: &Word, name: &[u8]) -> bool
    ensures { result ≡ bytes_eq word.now name.now }
{
    word.as_slice() == name
}
