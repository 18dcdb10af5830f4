use nb_numerals::{number, read_address};
use std::test::Fail;

// The largest value of 32 bits and the next, and what script writers might expect to be read.
#[test]
fn numbers(rt: HostRuntime) -> Result<(), Fail> {
    for (text, value) in [
        (b"0".as_slice(), Some(0)),
        (b"4294967295", Some(4_294_967_295)),
        (b"4294967296", None),
        (b"0xffffffff", Some(4_294_967_295)),
        (b"0x100000000", None),
        (b"0x00fF", Some(255)),
        (b"", None),
        (b"0x", None),
        (b"00", None),
        (b"010", None),
        (b"+1", None),
        (b"-1", None),
        (b"0x+1", None),
        (b"0X10", None),
        (b"1 ", None),
        (b"a", None),
    ] {
        assert_eq!(rt; number(text), value, "{text:?}");
    }
    Ok(())
}

#[test]
fn addresses(rt: HostRuntime) -> Result<(), Fail> {
    for (text, bytes) in [
        (b"10.0.0.1".as_slice(), Some([10, 0, 0, 1])),
        (b"255.255.255.255", Some([255; 4])),
        (b"256.0.0.1", None),
        (b"10.0.0.01", None),
        (b"10.0.0", None),
        (b"10.0.0.1.2", None),
        (b"10.0.0.", None),
        (b"10..0.1", None),
        (b"0x10.0.0.1", None),
        (b"host", None),
        (b"", None),
    ] {
        assert_eq!(rt; read_address(text), bytes, "{text:?}");
    }
    Ok(())
}
