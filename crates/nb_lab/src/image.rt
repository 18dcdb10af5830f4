//! The images that the servers have.

ghost use Rattle.std.specs.Prelude.{◌≡◌, ◌+◌, ◌<◌, ◌≤◌, ◌^◌, length};
ghost use Rattle.std.specs.Option.{option_map};
ghost use Rattle.nb_numerals.specs.Addresses.{decimal_byte};
ghost use Rattle.nb_lab.specs.Images.{image_len, image_byte, image_piece};

use nb_numerals::decimal;

/// An image, by its number from 0.
#[derive(Clone, Copy, Debug, PartialEq, Eq)]
pub struct Image(pub u8);

impl Image {
    /// The image whose number a text writes, in decimal digits without leading zeros.
    pub fn named(text: &[u8]) -> Option<Image>
        ensures { option_map (λ image. image.0) result ≡ decimal_byte text.now }
    {
        Some(Image(u8::try_from(decimal(text)?).ok()?))
    }

    /// How many bytes it has.
    pub fn len(self) -> u32
        ensures value { result ≡ image_len self.0 }
        ensures fits { result ≤ 250135 }
    {
        1000 + 977 * u32::from(self.0)
    }

    /// Fills a piece with its bytes from a place on.
    pub fn fill(self, from: u32, piece: &mut [u8])
        requires { from + length piece.old ≤ 2 ^ 20 }
        ensures { piece.new ≡ image_piece self.0 from (length piece.old) }
    {
        for at in 0..piece.len() {
            piece[at] = self.byte(from + at as u32);
        }
    }

    fn byte(self, at: u32) -> u8
        requires { at < 2 ^ 20 }
        ensures { result ≡ image_byte self.0 at }
    {
        ((31 * u32::from(self.0) + 7 * at) % 256) as u8
    }
}
