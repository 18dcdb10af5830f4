ghost use Rattle.std.specs.Prelude.{◌≡◌, ◌<◌, true, length};
ghost use Rattle.nb_settings.specs.Nulls.{without_nulls, ends_in_null};

/// The bytes without the zero bytes at their end, which servers end texts with (RFC 2132, section 2).
pub fn without_nulls(bytes: &[u8]) -> &[u8]
    ensures { result.now ≡ without_nulls bytes.now }
{
    let mut kept = bytes;
    while ends_in_null(kept) {
        kept = &kept[..kept.len() - 1];
    }
    kept
}

fn ends_in_null(bytes: &[u8]) -> bool
    ensures value { result ≡ ends_in_null bytes.now }
    ensures some { result ≡ true → 0 < length bytes.now }
{
    match bytes {
        [.., last] => *last == 0,
        [] => false,
    }
}
