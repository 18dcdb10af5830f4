ghost use Rattle.std.specs.Prelude.{◌≡◌, ◌-◌, ◌<◌, ◌≤◌, length, take, drop, min};
ghost use Rattle.nb_record.specs.Memory.{cut_of_read};

/// How many bytes a read gives of at most `most`: the read of this number, from 0, gives at most its cut,
/// where one is given that isn't 0.
pub fn cut_len(cuts: &[usize], number: u64, most: usize) -> usize
    ensures value { result ≡ cut_of_read cuts.now number most }
    ensures within { result ≤ most }
    ensures some { 0 < most → 0 < result }
{
    match cuts.get(number as usize) {
        Some(cut) if *cut != 0 => most.min(*cut),
        _ => most,
    }
}

/// Copies the first bytes of `from` to the start of `into`: this many.
pub fn copy_front(from: &[u8], into: &mut [u8], len: usize)
    requires given { len ≤ length from.now }
    requires fits { len ≤ length into.old }
    ensures front { take len into.new ≡ take len from.now }
    ensures len { length into.new ≡ length into.old }
{
    into[..len].copy_from_slice(&from[..len]);
}
