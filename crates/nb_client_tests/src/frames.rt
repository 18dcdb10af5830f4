//! Frames of the server 10.0.0.1, at 52:54:00:00:00:02, to the client 10.0.0.2, at 52:54:00:00:00:01, each padded to the
//! 60 bytes that a wire asks for at least (IEEE 802.3).

/// A frame.
pub(crate) type Frame = [u8; 60];

/// An ARP reply (RFC 826): where the server is.
pub(crate) const ARP: &Frame =
    b"RT\0\0\0\x01RT\0\0\0\x02\x08\x06\0\x01\x08\0\x06\x04\0\x02RT\0\0\0\x02\
\x0a\0\0\x01RT\0\0\0\x01\x0a\0\0\x02\0\0\0\0\0\0\0\0\0\0\0\0\0\0\0\0\0\0";

/// An OACK of blocks of 8 bytes (RFC 2348), from port 2000 to 49152.
pub(crate) const OACK_0: &Frame =
    b"RT\0\0\0\x01RT\0\0\0\x02\x08\0E\0\0(\0\0@\0@\x11&\xc3\x0a\0\0\x01\x0a\0\0\x02\
\x07\xd0\xc0\0\0\x14O\x92\0\x06blksize\08\0\0\0\0\0\0\0";

/// The same, from port 2001 to 49153.
pub(crate) const OACK_1: &Frame =
    b"RT\0\0\0\x01RT\0\0\0\x02\x08\0E\0\0(\0\0@\0@\x11&\xc3\x0a\0\0\x01\x0a\0\0\x02\
\x07\xd1\xc0\x01\0\x14O\x90\0\x06blksize\08\0\0\0\0\0\0\0";

/// Block 1 of 8 bytes (RFC 1350), from port 2001 to 49153.
pub(crate) const FULL_1: &Frame =
    b"RT\0\0\0\x01RT\0\0\0\x02\x08\0E\0\0(\0\0@\0@\x11&\xc3\x0a\0\0\x01\x0a\0\0\x02\
\x07\xd1\xc0\x01\0\x14S\x18\0\x03\0\x0112345678\0\0\0\0\0\0";

/// Block 2 of one byte, from port 2001 to 49153.
pub(crate) const LAST_1: &Frame =
    b"RT\0\0\0\x01RT\0\0\0\x02\x08\0E\0\0!\0\0@\0@\x11&\xca\x0a\0\0\x01\x0a\0\0\x02\
\x07\xd1\xc0\x01\0\x0d\xea\xf9\0\x03\0\x029\0\0\0\0\0\0\0\0\0\0\0\0\0";

/// Block 1 of one byte, from port 2000 to 49152.
pub(crate) const LAST_0: &Frame =
    b"RT\0\0\0\x01RT\0\0\0\x02\x08\0E\0\0!\0\0@\0@\x11&\xca\x0a\0\0\x01\x0a\0\0\x02\
\x07\xd0\xc0\0\0\x0d\xc2\xfc\0\x03\0\x01a\0\0\0\0\0\0\0\0\0\0\0\0\0";

/// An echo reply (RFC 792) with the identifier 2.
pub(crate) const ECHO_2: &Frame =
    b"RT\0\0\0\x01RT\0\0\0\x02\x08\0E\0\0\x1c\0\0@\0@\x01&\xdf\x0a\0\0\x01\x0a\0\0\x02\
\0\0\xff\xfd\0\x02\0\0\0\0\0\0\0\0\0\0\0\0\0\0\0\0\0\0\0\0";
