//! Settings that say which drive is meant, and the list of drives.

use nb_drivecmd::{Drive, Drives, FIRST_DRIVE, MAX_DRIVES, chosen_drive};
use nb_settings::{Key, Kind, Table};
use std::test::Fail;

/// The setting `san-drive` of a kind with these bytes, and the drive that is meant: what it prints is read as a number.
const NUMBERS: [(Kind, &[u8], u8); 14] = [
    (Kind::Uint8, b"\x90", 144),
    (Kind::Uint8, b"\x7f", 128),
    (Kind::Uint16, b"\x00\xff", 255),
    (Kind::Uint16, b"\x01\x00", 128),
    (Kind::Int16, b"\x00\xc8", 200),
    (Kind::Int8, b"\xc8", 128),
    (Kind::Str, b"200", 200),
    (Kind::Str, b"0xfF", 255),
    (Kind::Str, b"0x000c8", 200),
    (Kind::Str, b"0200", 128),
    (Kind::Str, b"256", 128),
    (Kind::Str, b"127", 128),
    (Kind::Str, b"", 128),
    (Kind::Hex, b"\xc8", 128),
];

#[test]
fn drives_by_setting(rt: HostRuntime) -> Result<(), Fail> {
    let alloc = rt.alloc();
    for (kind, bytes, expected) in NUMBERS {
        let mut table = Table::new(alloc);
        table.put(alloc, b"", &Key::Sub(175, 189), kind, bytes)?;
        let found = chosen_drive(alloc, None, &table)?;
        assert_eq!(rt; found, expected, "{kind:?} {bytes:?}");
        assert_eq!(rt; chosen_drive(alloc, Some(201), &table)?, 201);
    }
    let none = chosen_drive(alloc, None, &Table::new(alloc))?;
    assert_eq!(rt; none, FIRST_DRIVE);
    Ok(())
}

/// A drive leaves the list with its open.
#[test]
fn opens_that_end(rt: HostRuntime) {
    for (ends, left) in [(200, [128, 0]), (128, [200, 0]), (129, [128, 200])] {
        let mut drives = Drives::new();
        for number in [200, 128] {
            if drives.len() < MAX_DRIVES {
                drives.hook(Drive {
                    number,
                    described: true,
                    open_number: u16::from(number),
                });
            }
        }
        drives.end_open(ends);
        let mut found = [0; 2];
        for place in 0..2 {
            if let Some(drive) = drives.get(place) {
                found[place] = drive.number;
            }
        }
        assert!(rt; found == left, "{ends}");
        let is_left = drives.find(200).is_some();
        assert_eq!(rt; is_left, ends != 200);
    }
}
