ghost use Rattle.std.specs.Prelude.{◌≡◌, ◌≤◌, [], length, IfOk};
ghost use Rattle.nb_ibft.specs.Infos.{AreShortTexts, HasShortTexts, target_texts};
ghost use Rattle.nb_ibft.specs.Views.{boot_info, boot_target};

use arrayvec::ArrayVec;
use nb_ibft::*;
use nb_terms::NoMemory;
use nb_wire::{Ip4, Mac, Text};
use std::alloc::Global;

/// A text of these bytes.
fn text(alloc: Global, bytes: &[u8]) -> Result<Text, NoMemory>
    ensures { IfOk result (λ t. t ≡ bytes.now) }
{
    let mut copied = Vec::new(alloc);
    copied.extend_from_slice(bytes)?;
    Ok(Text::from_vec(copied))
}

/// A disk of a target with this name, whose user and secret are this one.
fn disk(alloc: Global, name: &[u8], user: &[u8]) -> Result<BootTarget, NoMemory>
    requires name { length name.now ≤ 1088 }
    requires user { length user.now ≤ 1088 }
    ensures { IfOk result (λ t. AreShortTexts (target_texts (boot_target t))) }
{
    Ok(BootTarget {
        address: Ip4(0x0a000001),
        port: 3260,
        lun: [0, 1, 0, 0, 0, 0, 0, 0],
        chap: 1,
        name: text(alloc, name)?,
        user: text(alloc, user)?,
        secret: text(alloc, user)?,
        reverse_user: text(alloc, &[])?,
        reverse_secret: text(alloc, &[])?,
    })
}

/// What a machine with the initiator's name iqn.x:i and the host name h says of this disk.
fn info(alloc: Global, disk: BootTarget) -> Result<BootInfo, NoMemory>
    requires { AreShortTexts (target_texts (boot_target disk)) }
    ensures { IfOk result (λ b. HasShortTexts (boot_info b)) }
{
    let mut targets = ArrayVec::new_in(alloc);
    targets.push(disk);
    Ok(BootInfo {
        initiator: text(alloc, b"iqn.x:i")?,
        host: text(alloc, b"h")?,
        mac: Mac([0x52, 0x54, 0, 0, 0, 1]),
        address: Ip4(0x0a000002),
        prefix: 24,
        gateway: Ip4(0),
        dns: [Ip4(0x0a000003), Ip4(0)],
        dhcp_server: Ip4(0),
        targets,
    })
}

/// The bytes of iBFT 1.03's parts at their places, by hand.
const ROWS: [(usize, &[u8]); 7] = [
    (0, b"iBFT\x62\x01\x00\x00\x01"),
    (
        48,
        &[
            1, 1, 0x12, 0, 0, 0, 0, 0, 0x50, 0, 0xa0, 0, 0x10, 1, 0, 0, 0, 0,
        ],
    ),
    (150, &[7, 0, 0x50, 1, 0, 0, 0, 0, 0, 0, 3, 1, 0x66]),
    (176, &[0xff, 0xff, 10, 0, 0, 2, 24, 0, 0]),
    (250, &[0x52, 0x54, 0, 0, 0, 1, 0, 0, 1, 0, 0x58, 1]),
    (272, &[4, 1, 54, 0, 0, 3]),
    (336, b"iqn.x:i\0h\0iqn.x:t\0"),
];

/// The table of one disk.
fn written(alloc: Global) -> Result<Text, NoMemory> {
    let said = info(alloc, disk(alloc, b"iqn.x:t", &[])?)?;
    table(alloc, &said)
}

/// The initiator's name by a table, where it is one.
fn initiator(alloc: Global, bytes: &[u8]) -> Result<Option<Text>, NoMemory> {
    match read_table(bytes) {
        Some(view) => Ok(Some(view.info(alloc)?.initiator)),
        None => Ok(None),
    }
}

/// The bytes, each of them one more.
fn changed(alloc: Global, bytes: &[u8]) -> Result<Vec<u8>, NoMemory> {
    let mut changed = Vec::from_slice(alloc, bytes)?;
    for byte in changed.iter_mut() {
        *byte = byte.wrapping_add(1);
    }
    Ok(changed)
}

// It is read back; a table of which a byte is changed, or the last is missing, is none.
#[test]
fn one_disk(rt: HostRuntime) -> Result<(), NoMemory> {
    let written = written(rt.alloc())?;
    let bytes = written.as_slice();
    assert_eq!(rt; bytes.len(), 354);
    for (at, wanted) in ROWS {
        assert!(rt;
            bytes.get(at..).is_some_and(|rest| rest.starts_with(wanted)),
            "at {at}"
        );
    }
    let read = initiator(rt.alloc(), bytes)?.expect(&rt, "a table");
    assert_eq!(rt; read.as_slice(), b"iqn.x:i".as_slice());
    let changed = changed(rt.alloc(), bytes)?;
    assert!(rt; read_table(changed.as_slice()).is_none());
    assert!(rt; read_table(bytes.split_at(bytes.len() / 2).0).is_none());
    Ok(())
}
