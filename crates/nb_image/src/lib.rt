// The images that a client keeps and hands off: their bytes, their list with a selection, their kinds
// by content, and the parts of a hand-off. Images are kept as they came: no archive is read and no
// header checked past what tells the kind. Begin with `Images`, then `Handoff`.
#![tactic(auto)]

mod body;
mod error;
mod first_line;
mod handoff;
mod image;
mod images;
mod kind;
mod list;
mod pages;
mod part;

pub use body::{Body, MAX_BODY_LEN};
pub use error::{ImageError, PushError};
pub use handoff::Handoff;
pub use image::Image;
pub use images::Images;
pub use kind::ImageKind;
pub use list::{MAX_IMAGES, MAX_TOTAL_LEN};
pub use pages::PAGE_LEN;
pub use part::{Part, PartBytes, PartKind, Piece};
