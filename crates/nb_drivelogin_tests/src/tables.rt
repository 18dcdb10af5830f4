//! What a boot table is to say.

use nb_drivecmd::{Drive, Drives, MAX_DRIVES};
use nb_drivelogin::{HookedOpen, drive_info};
use nb_ibft::BootInfo;
use nb_login::LoginInfo;
use nb_settings::{Key, Kind, Table};
use nb_wire::{Ip4, Mac, Text};
use std::alloc::Global;
use std::test::Fail;

const LUN: [u8; 8] = [0, 1, 0, 0, 0, 0, 0, 0];

/// A login whose texts are a letter each and these bytes.
fn login(alloc: Global, of: u8) -> Result<LoginInfo, Fail> {
    Ok(LoginInfo {
        initiator: Text::from_vec(Vec::from_slice(alloc, &[b'i', of])?),
        target: Text::from_vec(Vec::from_slice(alloc, &[b't', of])?),
        lun: LUN,
        user: Text::from_vec(Vec::from_slice(alloc, &[b'u', of])?),
        secret: Text::from_vec(Vec::from_slice(alloc, &[b's', of])?),
        reverse_user: Text::from_vec(Vec::from_slice(alloc, &[b'v', of])?),
        reverse_secret: Text::from_vec(Vec::from_slice(alloc, &[b'r', of])?),
        words: [0; 8],
    })
}

/// What is said of these drives, as (number, described, open), where open 4 is one of login 1 with CHAP one way, and open 9
/// one of login 2 with this kind of it.
fn info(
    alloc: Global,
    table: &Table,
    hooked: &[(u8, bool, u16)],
    chap: u8,
) -> Result<Option<BootInfo>, Fail> {
    let mut drives = Drives::new();
    for (number, described, open_number) in hooked.iter().copied() {
        if drives.len() < MAX_DRIVES {
            drives.hook(Drive {
                number,
                described,
                open_number,
            });
        }
    }
    let (one, two) = (login(alloc, b'1')?, login(alloc, b'2')?);
    let of = |number, server, chap, login| HookedOpen {
        number,
        server: Ip4(server),
        port: 3260,
        chap,
        login,
    };
    let opens = [of(4, 5, 1, &one), of(9, 7, chap, &two)];
    Ok(drive_info(alloc, Mac([2; 6]), table, &drives, &opens)?)
}

/// Hooked drives and the kind of CHAP, and all texts that are said of them: the initiator's name, and after a hyphen those of
/// each target.
const HOOKED: [(&[(u8, bool, u16)], u8, &[u8]); 6] = [
    (&[], 0, b""),
    (&[(128, true, 5), (129, false, 4)], 0, b""),
    (&[(255, true, 9)], 0, b"i2-t2"),
    (&[(200, true, 4), (128, true, 9)], 1, b"i2-t2u2s2-t1u1s1"),
    (&[(128, false, 9), (129, true, 4)], 2, b"i1-t1u1s1"),
    (&[(128, true, 9), (129, false, 4)], 2, b"i2-t2u2s2v2r2"),
];

#[test]
fn described_drives(rt: HostRuntime) -> Result<(), Fail> {
    let alloc = rt.alloc();
    for (hooked, chap, expected) in HOOKED {
        let mut said = Vec::new(alloc);
        if let Some(info) = info(alloc, &Table::new(alloc), hooked, chap)? {
            said.extend_from_slice(info.initiator.as_slice())?;
            for disk in info.targets.as_slice() {
                said.push(b'-')?;
                for text in [
                    &disk.name,
                    &disk.user,
                    &disk.secret,
                    &disk.reverse_user,
                    &disk.reverse_secret,
                ] {
                    said.extend_from_slice(text.as_slice())?;
                }
                let is = (disk.address.0, disk.chap);
                assert!(rt; is == (5, 1) || is == (7, chap));
                assert!(rt; disk.port == 3260 && disk.lun == LUN);
            }
        }
        assert_eq!(rt; said.as_slice(), expected);
    }
    Ok(())
}

/// A setting, and what is said by it alone, as its place among address, prefix, gateway, name servers and DHCP server.
const NETS: [(Key<'_>, &[u8], usize, u32); 11] = [
    (Key::Free(b"ip"), b"\0\0\0\x02", 0, 2),
    (Key::Free(b"ip"), b"\0\0\x02", 0, 0),
    (Key::Free(b"ip"), b"\0\0\0\x02", 1, 24),
    (Key::Tag(1), b"\xff\xfe\0\0", 1, 15),
    (Key::Tag(1), b"\xff\0\xff\0", 1, 8),
    (Key::Tag(1), b"\xff\xff\xff\xff", 1, 32),
    (Key::Tag(3), b"\0\0\0\x01", 2, 1),
    (Key::Tag(6), b"\0\0\0\x01\0\0\0\x02\0\0\0\x03", 3, 1),
    (Key::Tag(6), b"\0\0\0\0\0\0\0\x02", 4, 2),
    (Key::Tag(6), b"\0\0\0\x01\0\0\0", 4, 0),
    (Key::Tag(54), b"\0\0\0\x05\x06", 5, 5),
];

#[test]
fn nets(rt: HostRuntime) -> Result<(), Fail> {
    let alloc = rt.alloc();
    for (key, value, place, expected) in NETS {
        let mut table = Table::new(alloc);
        table.register(alloc, b"net0", 0)?;
        table.put(alloc, b"net0", &key, Kind::Ipv4, value)?;
        table.put(alloc, b"", &Key::Tag(12), Kind::Str, b"pc")?;
        let Some(info) = info(alloc, &table, &[(128, true, 4)], 0)? else {
            return Err(Fail::new("no info"));
        };
        let (prefix, dns, server) = (u32::from(info.prefix), info.dns, info.dhcp_server);
        let said = [
            info.address.0,
            prefix,
            info.gateway.0,
            dns[0].0,
            dns[1].0,
            server.0,
        ];
        assert_eq!(rt; said.get(place).copied(), Some(expected));
        assert!(rt; info.host.len() == 2 && info.mac == Mac([2; 6]));
    }
    Ok(())
}
