use nb_login::LoginInfo;
use nb_wire::Ip4;

/// An open by which a drive is hooked.
#[derive(Clone, Copy, Drop)]
pub struct HookedOpen<'a> {
    /// By this number the drive names it.
    pub number: u16,
    /// The target's address.
    pub server: Ip4,
    pub port: u16,
    /// How its login went: 0 without CHAP, 1 one way, 2 both ways (RFC 1994).
    pub chap: u8,
    /// What its login was begun with.
    pub login: &'a LoginInfo,
}
