ghost use Rattle.std.specs.Prelude.{◌≡◌, map, find, option_map};
ghost use Rattle.std.specs.Str.{bytes_eq};
ghost use Rattle.nb_settings.specs.Keys.{key_of, same_key};
ghost use Rattle.nb_settings.specs.Listed.{key_named, line, listed_kind, listed};
ghost use Rattle.nb_settings.specs.Lines.{line_of};

use crate::{Key, Kind};

/// A name that is listed, with its tag where it has one, and its kind.
#[derive(Clone, Copy, Drop)]
struct Listed {
    name: &'static [u8],
    key: Key<'static>,
    kind: Kind,
}

/// One line of the list.
macro_rules! line {
    ($name:expr, $key:expr, $kind:expr) => {
        Listed {
            name: $name,
            key: $key,
            kind: $kind,
        }
    };
}

/// The names that are listed, with the tags of RFC 2132 and the inner options of 175.
fn lines() -> [Listed; 25]
    ensures { map line_of result ≡ listed }
{
    [
        line!(b"netmask", Key::Tag(1), Kind::Ipv4),
        line!(b"gateway", Key::Tag(3), Kind::Ipv4),
        line!(b"dns", Key::Tag(6), Kind::Ipv4),
        line!(b"hostname", Key::Tag(12), Kind::Str),
        line!(b"domain", Key::Tag(15), Kind::Str),
        line!(b"root-path", Key::Tag(17), Kind::Str),
        line!(b"dhcp-server", Key::Tag(54), Kind::Ipv4),
        line!(b"filename", Key::Tag(67), Kind::Str),
        line!(b"user-class", Key::Tag(77), Kind::Str),
        line!(b"initiator-iqn", Key::Tag(203), Kind::Str),
        line!(b"priority", Key::Sub(175, 1), Kind::Int8),
        line!(b"keep-san", Key::Sub(175, 8), Kind::Int8),
        line!(b"skip-san-boot", Key::Sub(175, 9), Kind::Int8),
        line!(b"no-pxedhcp", Key::Sub(175, 176), Kind::Uint8),
        line!(b"busid", Key::Sub(175, 177), Kind::Hex),
        line!(b"san-drive", Key::Sub(175, 189), Kind::Uint8),
        line!(b"username", Key::Sub(175, 190), Kind::Str),
        line!(b"password", Key::Sub(175, 191), Kind::Str),
        line!(b"reverse-username", Key::Sub(175, 192), Kind::Str),
        line!(b"reverse-password", Key::Sub(175, 193), Kind::Str),
        line!(b"version", Key::Sub(175, 235), Kind::Str),
        line!(b"ip", Key::Free(b"ip"), Kind::Ipv4),
        line!(b"next-server", Key::Free(b"next-server"), Kind::Ipv4),
        line!(b"uuid", Key::Free(b"uuid"), Kind::Uuid),
        line!(b"mac", Key::Free(b"mac"), Kind::Hex),
    ]
}

impl Listed {
    fn has_name(&self, name: &[u8]) -> bool
        ensures { result ≡ bytes_eq name.now self.now.name.now }
    {
        name == self.name
    }

    fn has_key(&self, key: &Key<'_>) -> bool
        ensures { result ≡ same_key (key_of key.now) (key_of self.now.key) }
    {
        key.is(&self.key)
    }
}

fn line_named(name: &[u8]) -> Option<Listed>
    ensures { option_map line_of result ≡ find (λ row. bytes_eq name.now row.name) listed }
{
    lines().iter().find(|listed| listed.has_name(name)).copied()
}

fn line_with(key: &Key<'_>) -> Option<Listed>
    ensures { option_map line_of result ≡ find (λ row. same_key (key_of key.now) row.key) listed }
{
    lines().iter().find(|listed| listed.has_key(key)).copied()
}

/// The key of a word: its tag where it is listed with one, else the word itself.
pub fn key_named(name: &[u8]) -> Key<'_>
    ensures { key_of result ≡ key_named name.now }
{
    match line_named(name) {
        Some(listed) => listed.key,
        None => Key::Free(name),
    }
}

/// The kind that the list gives a key.
pub fn kind_of(key: &Key<'_>) -> Option<Kind>
    ensures { result ≡ listed_kind (key_of key.now) }
{
    line_with(key).map(|listed| listed.kind)
}
