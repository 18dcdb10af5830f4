use nb_wire::{Ip4, sum_of_address, sum16, sum16_of, sum16_of_20};

/// RFC 1071, section 3: the sum of the first row's words is 0xddf2. The IPv4 header of the next two
/// is a common example, with the checksum 0xb861; a header with its checksum has the checksum 0. The
/// last rows are the padding rule of section 4.1, by hand.
#[test]
fn checksums(rt: HostRuntime) {
    let words: &[u8] = &[0x00, 0x01, 0xf2, 0x03, 0xf4, 0xf5, 0xf6, 0xf7];
    let front: &[u8] = &[0x45, 0x00, 0x00, 0x73, 0x00, 0x00, 0x40, 0x00, 0x40, 0x11];
    let open: &[u8] = &[0x00, 0x00, 0xc0, 0xa8, 0x00, 0x01, 0xc0, 0xa8, 0x00, 0xc7];
    let closed: &[u8] = &[0xb8, 0x61, 0xc0, 0xa8, 0x00, 0x01, 0xc0, 0xa8, 0x00, 0xc7];
    let rows: [(&[u8], &[u8], u16); 7] = [
        (words, &[], 0xffff - 0xddf2),
        (
            &[0x00, 0x01, 0xf2, 0x03],
            &[0xf4, 0xf5, 0xf6, 0xf7],
            0xffff - 0xddf2,
        ),
        (front, open, 0xb861),
        (front, closed, 0),
        (&[], &[], 0xffff),
        (&[], &[0x12], 0xedff),
        (&[0xff, 0xff], &[0x00, 0x01, 0x02], 0xfdfe),
    ];
    for (number, (first, second, expected)) in rows.iter().enumerate() {
        assert!(rt; first.len() % 2 == 0 && first.len() + second.len() <= 131072);
        assert_eq!(rt; sum16(first, second), *expected, "row {number}");
    }
}

/// A header's fields as a sum of numbers: the common example of the first test.
#[test]
fn header_sums(rt: HostRuntime) {
    let header: [u8; 20] = [
        0x45, 0x00, 0x00, 0x73, 0x00, 0x00, 0x40, 0x00, 0x40, 0x11, 0x00, 0x00, 0xc0, 0xa8, 0x00,
        0x01, 0xc0, 0xa8, 0x00, 0xc7,
    ];
    assert_eq!(rt; sum16_of_20(&header), 0xb861);
    let addresses = sum_of_address(Ip4(0xc0a8_0001)) + sum_of_address(Ip4(0xc0a8_00c7));
    assert_eq!(rt;
        sum16_of(0x4500 + 0x0073 + 0x4000 + 0x4011 + addresses),
        0xb861
    );
}
