use nb_drivecmd::Drives;
use nb_image::Images;
use nb_settings::Table;

/// What commands read and change.
#[derive(Drop)]
pub struct State {
    pub table: Table,
    pub images: Images,
    /// The drives that are hooked.
    pub drives: Drives,
    /// Whether the device net0 is up.
    pub up: bool,
}
