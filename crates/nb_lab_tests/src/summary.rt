use nb_lab::{Lab, Shown, Summary};
use nb_terms::NoMemory;
use nb_wire::{Ip4, Mac};
use std::test::Fail;

/// The script for five images.
const FIVE: &[u8] = b"#!ipxe
imgfetch tftp://10.0.0.1/0
imgfetch http://10.0.0.1/1
imgfetch tftp://10.0.0.1/2
imgfetch http://10.0.0.1/3
imgfree
imgfetch tftp://10.0.0.1/4
exit
";

/// The end of the script for 64.
const LAST_OF_64: &[u8] = b"
imgfetch tftp://10.0.0.1/62
imgfetch http://10.0.0.1/63
imgfree
exit
";

#[test]
fn starts_with_the_script(rt: HostRuntime) -> Result<(), Fail> {
    let lab = Lab::new(rt.alloc(), 5)?;
    let start = lab.start();
    assert_eq!(rt; start.mac, Mac([0x52, 0x54, 0, 0, 0, 1]));
    assert_eq!(rt;
        [start.ip, start.mask, start.gateway, start.dns],
        [Ip4(0x0a00_0002), Ip4(0xffff_ff00), Ip4(0), Ip4(0)]
    );
    assert_eq!(rt; start.uuid, [0; 16]);
    assert_eq!(rt; start.key, [0; 32]);
    assert_eq!(rt; (start.arch, start.w), (0, 0));
    assert_eq!(rt; start.script, FIVE);
    let lab = Lab::new(rt.alloc(), 64)?;
    // Each of the 64 lines has 27 bytes, and one more where its number has two digits; 16 times all images are let go.
    assert_eq!(rt; lab.start().script.len(), 7 + 64 * 27 + 54 + 16 * 8 + 5);
    assert!(rt; lab.start().script.ends_with(LAST_OF_64));
    Ok(())
}

/// The records of a run: opens 0 and 1 for the images 0 and 1, of which the first fetch ends in Ok and the other fails;
/// open 2 for image 1 again, which ends in Ok, and a command without an open.
const RECORDS: &[u8] = b"\x00\x00\x00\x05\x81\x00\x00\x00\x01\
    \x00\x00\x00\x0f\x87\x00\x00\x01\x0a\x00\x00\x01\x00\x45\xc0\x00\x00\x010\
    \x00\x00\x00\x04\x88\x00\x00\x01\
    \x00\x00\x00\x0f\x82abcdefghijklmn\
    \x00\x00\x00\x0a\x85\x00\x00\x00\x00\x00\x00\x00\x00\x00\
    \x00\x00\x00\x1f\x87\x00\x01\x02\x0a\x00\x00\x01\x00\x50\xc0\x01\x00\x11http://10.0.0.1/1\
    \x00\x00\x00\x04\x88\x00\x01\x01\
    \x00\x00\x00\x0a\x85\x02\x00\x00\x00\x06\x00\x00\x00\x00\
    \x00\x00\x00\x1f\x87\x00\x02\x02\x0a\x00\x00\x01\x00\x50\xc0\x02\x00\x11http://10.0.0.1/1\
    \x00\x00\x00\x0a\x85\x00\x00\x00\x00\x00\x00\x00\x00\x00\
    \x00\x00\x00\x0a\x85\x00\x00\x00\x00\x00\x00\x00\x00\x00\
    \x00\x00\x00\x02\x8d\x03";

#[test]
fn sums_up_a_run(rt: HostRuntime) -> Result<(), Fail> {
    let mut summary = Summary::new(2);
    summary.count_input();
    let mut rest = RECORDS;
    for _ in 0..12 {
        let (shown, after) = Shown::read(rest).ok_or("a record")?;
        summary.count(&shown);
        rest = after;
    }
    assert!(rt; rest.is_empty() && Shown::read(rest).is_none());
    let text = summary.text(rt.alloc(), 3)?;
    let lines: &[u8] = b"images 2\nbytes 2977\nrecords 1\nframes 1\ntries 2\nstatus 3\n";
    assert_eq!(rt; text.as_slice(), lines);
    Ok(())
}
