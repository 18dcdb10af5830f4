//! Logins by settings.

use nb_drivecmd::NamedDisk;
use nb_drivelogin::login_info;
use nb_settings::{Key, Kind, Table};
use nb_wire::Text;
use std::test::Fail;

/// What is set, in order, and the initiator's name by all of it so far. One that is set and empty is used as it is, and
/// a UUID is printed as one also where it was set as a text.
const NAMES: [(Key<'_>, Kind, &[u8], &[u8]); 6] = [
    (Key::Sub(175, 193), Kind::Str, b"", b"iqn.2010-04.org.ipxe:"),
    (
        Key::Free(b"uuid"),
        Kind::Str,
        b"0123456789abcdef",
        b"iqn.2010-04.org.ipxe:30313233-3435-3637-3839-616263646566",
    ),
    (Key::Tag(12), Kind::Str, b"", b"iqn.2010-04.org.ipxe:"),
    (Key::Tag(12), Kind::Str, b"pc", b"iqn.2010-04.org.ipxe:pc"),
    (Key::Tag(203), Kind::Hex, b"iqn.x:i", b"iqn.x:i"),
    (Key::Tag(203), Kind::Str, b"", b""),
];

#[test]
fn names_by_settings(rt: HostRuntime) -> Result<(), Fail> {
    let alloc = rt.alloc();
    let disk = NamedDisk {
        host: Text::from_vec(Vec::new(alloc)),
        port: 3260,
        lun: [0, 1, 0, 0, 0, 0, 0, 0],
        name: Text::from_vec(Vec::from_slice(alloc, b"iqn.x:t")?),
    };
    let mut table = Table::new(alloc);
    for (inner, value) in [
        (190, b"user".as_slice()),
        (191, b"secret"),
        (192, b"target"),
    ] {
        table.put(alloc, b"", &Key::Sub(175, inner), Kind::Str, value)?;
    }
    for (key, kind, value, expected) in NAMES {
        table.put(alloc, b"", &key, kind, value)?;
        let login = login_info(alloc, &disk, [7; 8], &table)?;
        assert_eq!(rt; login.initiator.as_slice(), expected);
        assert_eq!(rt; login.target.as_slice(), b"iqn.x:t".as_slice());
        assert_eq!(rt; login.user.as_slice(), b"user".as_slice());
        assert_eq!(rt; login.secret.as_slice(), b"secret".as_slice());
        assert_eq!(rt; login.reverse_user.as_slice(), b"target".as_slice());
        assert_eq!(rt; login.reverse_secret.len(), 0);
        assert!(rt; login.lun == disk.lun && login.words == [7; 8]);
    }
    Ok(())
}
