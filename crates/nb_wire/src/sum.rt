ghost use Rattle.std.specs.Prelude.{◌≡◌, ℕ, ◌+◌, ◌-◌, ◌*◌, ◌%◌, ◌^◌, ◌<◌, ◌≤◌, List, ◌++◌, length, slice_index, sum, MatchBool};
ghost use Rattle.std.specs.Int.{w32, to_be_bytes, from_bool};
ghost use Rattle.nb_wire.specs.Checksum.{words, checksum, SameSum, HasSum, sum_word};

use crate::Ip4;

/// The internet checksum of `first` and then `second`, with a zero byte after them where their
/// number is odd (RFC 1071).
pub fn sum16(first: &[u8], second: &[u8]) -> u16
    requires even { length first.now % 2 ≡ 0 }
    requires room { length first.now + length second.now ≤ 131072 }
    ensures { result ≡ checksum (first.now ++ second.now) }
{
    complement(total(first) + total(second))
}

/// The internet checksum of bytes whose 16-bit words have the sum `before`, then `first`, and then
/// `second`. So what stands before them, as a pseudo-header, needn't be written out.
#[inline(always)]
pub fn sum16_after(before: u32, first: &[u8], second: &[u8]) -> u16
    requires even { length first.now % 2 ≡ 0 }
    requires room { length first.now + length second.now ≤ 131072 }
    ensures { (front : List ℕ) → HasSum front before
        → result ≡ checksum (front ++ (first.now ++ second.now)) }
{
    complement(u64::from(before) + (total(first) + total(second)))
}

/// Whether the internet checksum of bytes whose 16-bit words have the sum `before`, and then `bytes`, is
/// 0, as it is where they hold their own checksum.
#[inline(always)]
pub fn is_intact_after(before: u64, bytes: &[u8]) -> bool
    requires before { before < 2 ^ 40 }
    requires room { length bytes.now ≤ 131072 }
    ensures { (front : List ℕ) → HasSum front before → let sum = checksum (front ++ bytes.now) in
        MatchBool result (sum ≡ 0) (0 < sum) }
{
    let (turned, rest) = both_sums(bytes);
    let (total, carry) = carried(turned, 256 * (before + rest), false);
    is_full(total + u64::from(carry))
}

/// The internet checksum of bytes whose 16-bit words have this sum.
#[inline(always)]
pub fn sum16_of(sum_of_words: u32) -> u16
    ensures { (bytes : List ℕ) → HasSum bytes sum_of_words → result ≡ checksum bytes }
{
    complement(u64::from(sum_of_words))
}

/// The internet checksum of 20 bytes, as an IPv4 header without options has.
#[inline(always)]
pub fn sum16_of_20(bytes: &[u8; 20]) -> u16
    ensures { result ≡ checksum bytes.now }
{
    complement(total(bytes))
}

/// The sum of an address's two 16-bit words.
#[inline(always)]
pub fn sum_of_address(ip: Ip4) -> u32
    ensures value { result ≡ sum (words (to_be_bytes w32 ip.0)) }
    ensures room { result ≤ 131070 }
{
    ip.0 / 0x1_0000 + ip.0 % 0x1_0000
}

// The sum of the bytes' words.
#[inline(always)]
fn total(bytes: &[u8]) -> u64
    requires { length bytes.now ≤ 131072 }
    ensures same { SameSum result (sum (words bytes.now)) }
    ensures room { result < 2 ^ 50 }
    ensures bytes { (i : ℕ) → slice_index bytes.now i < 256 }
{
    let (turned, rest) = both_sums(bytes);
    256 * folded(turned) + rest
}

// The sum of the words of all whole eights of bytes, their bytes turned round, and that of the words of
// what is left. In a sum of 16-bit words a carry counts as 1, so eight bytes may be added as one number;
// and 256 times a word is the word with its bytes turned round, so the sum may be taken in the other
// order of bytes.
#[inline(always)]
fn both_sums(bytes: &[u8]) -> (u64, u64)
    requires { length bytes.now ≤ 131072 }
    ensures same { SameSum (256 * result.0 + result.1) (sum (words bytes.now)) }
    ensures room { result.1 < 2 ^ 40 }
    ensures bytes { (i : ℕ) → slice_index bytes.now i < 256 }
{
    let mut total: u64 = 0;
    let mut rest = bytes;
    'widest: while let Some((block, after)) = rest.split_first_chunk::<256>() {
        total = turned_sum(total, block);
        rest = after;
    }
    'wide: while let Some((block, after)) = rest.split_first_chunk::<64>() {
        total = turned_sum(total, block);
        rest = after;
    }
    let (front, last) = rest.split_at(rest.len() / 8 * 8);
    (turned_sum(total, front), rest_words(last))
}

// The sum `before` and that of words with their bytes turned round, four at a time. The carry of each
// addition goes into the next one, which the processor does by itself.
#[inline(always)]
fn turned_sum(before: u64, bytes: &[u8]) -> u64
    requires eights { length bytes.now % 8 ≡ 0 }
    ensures { SameSum (256 * result) (256 * before + sum (words bytes.now)) }
{
    let mut total = before;
    let mut carry = false;
    let mut rest = bytes;
    'eights: while let Some((chunk, after)) = rest.split_first_chunk::<8>() {
        (total, carry) = carried(total, turned(chunk), carry);
        rest = after;
    }
    total + u64::from(carry)
}

// The sum of both numbers and a carry, and the carry that it leaves.
#[inline(always)]
fn carried(left: u64, right: u64, carry: bool) -> (u64, bool)
    ensures { result.0 + 2 ^ 64 * from_bool result.1 ≡ left + right + from_bool carry }
{
    let both = left.wrapping_add(right);
    let total = both.wrapping_add(u64::from(carry));
    (total, (both < right) | (total < both))
}

// The sum of the four words of eight bytes, their bytes turned round.
#[inline(always)]
fn turned(chunk: &[u8; 8]) -> u64
    ensures { SameSum (256 * result) (sum (words chunk.now)) }
{
    u64::from_le_bytes(*chunk)
}

#[inline(always)]
fn folded(total: u64) -> u64
    ensures same { result % 65535 ≡ total % 65535 }
    ensures zero { result ≡ 0 → total ≡ 0 }
    ensures none { total ≡ 0 → result ≡ 0 }
    ensures room { result < 2 ^ 33 }
{
    total % 0x1_0000_0000 + total / 0x1_0000_0000
}

#[inline(always)]
fn rest_words(rest: &[u8]) -> u64
    requires { length rest.now < 8 }
    ensures room { result < 2 ^ 40 }
    ensures same { SameSum result (sum (words rest.now)) }
{
    match rest {
        [] => 0,
        [a, b, c, d] => u64::from(u32::from_be_bytes([*a, *b, *c, *d])),
        _ => other_words(rest),
    }
}

#[inline(never)]
fn other_words(rest: &[u8]) -> u64
    requires { length rest.now < 8 }
    ensures room { result < 2 ^ 40 }
    ensures same { SameSum result (sum (words rest.now)) }
{
    match rest {
        [a, b, c, d, after @ ..] => {
            u64::from(u32::from_be_bytes([*a, *b, *c, *d])) + u64::from(last_words(after))
        }
        _ => u64::from(last_words(rest)),
    }
}

fn last_words(rest: &[u8]) -> u32
    requires { length rest.now < 4 }
    ensures { result ≡ sum (words rest.now) }
{
    match rest {
        [a, b, c] => u32::from(u16::from_be_bytes([*a, *b]))
            + u32::from(u16::from_be_bytes([*c, 0])),
        [a, b] => u32::from(u16::from_be_bytes([*a, *b])),
        [a] => u32::from(u16::from_be_bytes([*a, 0])),
        _ => 0,
    }
}

// Whether the one word that stands for a sum with its bytes turned round is all ones, so that its
// complement is 0: the sum is a multiple of 0xffff, and not 0.
#[inline(always)]
fn is_full(turned: u64) -> bool
    ensures { let sum = 65535 - sum_word (256 * turned) in MatchBool result (sum ≡ 0) (0 < sum) }
{
    turned.wrapping_sub(1) % 0xffff == 0xfffe
}

#[inline(always)]
fn complement(total: u64) -> u16
    ensures { result ≡ 65535 - sum_word total }
{
    if total == 0 {
        0xffff
    } else {
        0xfffe - ((total - 1) % 0xffff) as u16
    }
}
