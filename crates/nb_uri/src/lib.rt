//! Which server, and which file or disk of it, a URI names.
//!
//! `resolve` reads the URIs of TFTP and HTTP files by the URL Standard, joined to a base, and the names of
//! iSCSI disks (RFC 4173); what it gives is a `UriTarget` or a `UriError`. `image_name`
//! names the image of such a file, and `number` reads an IPv4 address. Other schemes are left out.
#![tactic(auto)]

mod address;
mod digits;
mod image_names;
mod iscsi;
mod laws;
mod lun;
mod pieces;
mod resolution;
mod target;

pub use address::number;
pub use image_names::image_name;
pub use iscsi::{ISCSI_PORT, MAX_TARGET_NAME};
pub use laws::{hosts_are_short, iscsi_names_are_spelled};
pub use resolution::{HTTP_PORT, TFTP_PORT, resolve};
pub use target::{UriError, UriTarget};
