//! The fields of a table, read at their places.

ghost use Rattle.std.specs.Prelude.{◌≡◌, ℕ, ◌+◌, ◌*◌, ◌≤◌, ◌<◌, ◌^◌, ◌++◌, ◌∷◌, List, [], length, slice_index, IfSome, IsSomeAnd};
ghost use Rattle.std.specs.Int.{w16, w32, from_be_bytes, from_le_bytes};
ghost use Rattle.nb_ibft.specs.Infos.{Info, Target, IsInfo, IsTarget, AreTargets, IsShortText, AreShortTexts, target_texts, targets_texts};
ghost use Rattle.nb_ibft.specs.Tables.{ibft, reference, control_text, portal_text, target_login_text, targets_text};
ghost use Rattle.nb_ibft.specs.Places.{IsTextKeptAt, AllStandAt, slots};
ghost use Rattle.nb_ibft.specs.Views.{lent_info, lent_texts, lent_target, lent_targets};

use crate::info::MAX_TEXT;
use crate::lent::{LentInfo, LentTarget, LentTargets, LentTexts};
use nb_wire::{Ip4, Mac};

/// Where addresses of four bytes stand in the interface's part.
const ADDRESS: usize = 18;

const PREFIX: usize = 22;

const GATEWAY: usize = 36;

const FIRST_DNS: usize = 52;

const SECOND_DNS: usize = 68;

const DHCP_SERVER: usize = 84;

impl<'a> LentInfo<'a> {
    /// What a table says in its fields. Whether the bytes are a table isn't asked here.
    pub(crate) fn read(bytes: &'a [u8]) -> Option<LentInfo<'a>>
        ensures valid { IfSome result (λ l. IsInfo (lent_info l)) }
        ensures complete { (i : Info) → IsInfo i → bytes.now ≡ ibft i → IsSomeAnd result (λ l. lent_info l ≡ i) }
    {
        let (_header, after_header) = cut(bytes, 48)?;
        let (control, after_control) = cut(after_header, 32)?;
        let (initiator, after_initiator) = cut(after_control, 80)?;
        let (addresses, after_addresses) = cut(after_initiator, 90)?;
        let (mac, after_mac) = after_addresses.split_first_chunk::<6>()?;
        let (host, parts) = cut(after_mac, 16)?;
        let name = text_at(bytes, initiator, 70)?;
        let host_name = text_at(bytes, host, 2)?;
        let targets = targets_of(bytes, control, parts)?;
        Some(LentInfo {
            initiator: name,
            host: host_name,
            mac: Mac(*mac),
            address: address_at(addresses, ADDRESS),
            prefix: byte_at(addresses, PREFIX),
            gateway: address_at(addresses, GATEWAY),
            first_dns: address_at(addresses, FIRST_DNS),
            second_dns: address_at(addresses, SECOND_DNS),
            dhcp_server: address_at(addresses, DHCP_SERVER),
            targets,
        })
    }
}

/// The disks whose parts begin here.
fn targets_of<'a>(bytes: &'a [u8], control: &'a [u8], parts: &'a [u8]) -> Option<LentTargets<'a>>
    requires { length control.now ≡ 32 }
    ensures valid { IfSome result (λ ts. AreTargets (lent_targets ts)) }
    ensures short { IfSome result (λ ts. AreShortTexts (targets_texts (lent_targets ts))) }
    ensures few { IfSome result (λ ts. length (lent_targets ts) ≤ 2) }
    ensures complete { (targets : List Target) (at : ℕ) (after : List ℕ) → AreTargets targets → length targets ≤ 2
        → AreShortTexts (targets_texts targets) → control.now ≡ control_text targets
        → AllStandAt bytes.now at (targets_texts targets) → at ≤ 2578
        → parts.now ≡ targets_text 0 at targets ++ after → IsSomeAnd result (λ ts. lent_targets ts ≡ targets) }
{
    let (first, second) = (control[12], control[16]);
    if first == 0 {
        return Some(LentTargets::Neither);
    }
    let (one, rest) = LentTarget::read(bytes, parts)?;
    if second == 0 {
        return Some(LentTargets::One(one));
    }
    let (two, _texts) = LentTarget::read(bytes, rest)?;
    Some(LentTargets::Two(one, two))
}

impl<'a> LentTarget<'a> {
    /// A disk whose part begins here, and what stands after it.
    fn read(bytes: &'a [u8], parts: &'a [u8]) -> Option<(LentTarget<'a>, &'a [u8])>
        ensures valid { IfSome result (λ r. IsTarget (lent_target r.0)) }
        ensures short { IfSome result (λ r. AreShortTexts (target_texts (lent_target r.0))) }
        ensures complete { (index at : ℕ) (t : Target) (after : List ℕ) → IsTarget t → AreShortTexts (target_texts t)
            → AllStandAt bytes.now at (target_texts t) → at ≤ 8023
            → parts.now ≡ portal_text index t ++ (t.lun ++ (target_login_text at t ++ after))
            → IsSomeAnd result (λ r. (lent_target r.0 ≡ t) × (r.1.now ≡ after)) }
    {
        let (portal, after_portal) = cut(parts, 24)?;
        let (lun, after_lun) = after_portal.split_first_chunk::<8>()?;
        let (login, rest) = cut(after_lun, 32)?;
        let texts = texts_at(bytes, login)?;
        let target = LentTarget {
            address: address_at(portal, 18),
            port: number_at(portal, 22),
            lun: *lun,
            chap: byte_at(login, 0),
            texts,
        };
        Some((target, rest))
    }
}

/// The texts of a disk, of whose part these are the last 32 bytes.
fn texts_at<'a>(bytes: &'a [u8], login: &[u8]) -> Option<LentTexts<'a>>
    requires { length login.now ≡ 32 }
    ensures short { IfSome result (λ x. AreShortTexts (lent_texts x)) }
    ensures complete { (at : ℕ) (t : Target) → AreShortTexts (target_texts t) → AllStandAt bytes.now at (target_texts t)
        → at ≤ 8023 → login.now ≡ target_login_text at t → IsSomeAnd result (λ x. lent_texts x ≡ target_texts t) }
{
    let name = text_at(bytes, login, 2)?;
    let user = text_at(bytes, login, 6)?;
    let secret = text_at(bytes, login, 10)?;
    let reverse_user = text_at(bytes, login, 14)?;
    let reverse_secret = text_at(bytes, login, 18)?;
    Some(LentTexts {
        name,
        user,
        secret,
        reverse_user,
        reverse_secret,
    })
}

/// So many bytes, and those after them, if there are so many.
fn cut(bytes: &[u8], n: usize) -> Option<(&[u8], &[u8])>
    ensures size { IfSome result (λ r. length r.0.now ≡ n) }
    ensures complete { (first rest : List ℕ) → length first ≡ n → bytes.now ≡ first ++ rest
        → IsSomeAnd result (λ r. (r.0.now ≡ first) × (r.1.now ≡ rest)) }
{
    if bytes.len() < n {
        return None;
    }
    Some(bytes.split_at(n))
}

/// The text whose length and place stand here, if it is short and there.
fn text_at<'a>(bytes: &'a [u8], part: &[u8], at: usize) -> Option<&'a [u8]>
    requires { at + 4 ≤ length part.now }
    ensures short { IfSome result (λ t. IsShortText t.now) }
    ensures complete { (place : ℕ) (text : List ℕ) → IsShortText text → IsTextKeptAt bytes.now place text → place < 2 ^ 16
        → slots part.now at ≡ reference place text → IsSomeAnd result (λ t. t.now ≡ text) }
{
    let len = usize::from(number_at(part, at));
    if len > MAX_TEXT {
        return None;
    }
    let from = usize::from(number_at(part, at + 2));
    bytes.get(from..from + len)
}

/// The byte that stands here.
fn byte_at(part: &[u8], at: usize) -> u8
    requires { at < length part.now }
    ensures fits { result < 2 ^ 8 }
    ensures value { result ≡ slice_index part.now at }
{
    part[at]
}

/// The number of two bytes that stands here.
fn number_at(part: &[u8], at: usize) -> u16
    requires { at + 2 ≤ length part.now }
    ensures fits { result < 2 ^ 16 }
    ensures value { result ≡ from_le_bytes w16 (slice_index part.now at ∷ slice_index part.now (at + 1) ∷ []) }
{
    u16::from_le_bytes([part[at], part[at + 1]])
}

/// The address of four bytes that stands here.
fn address_at(part: &[u8], at: usize) -> Ip4
    requires { at + 4 ≤ length part.now }
    ensures fits { result.0 < 2 ^ 32 }
    ensures value { result.0 ≡ from_be_bytes w32 (slice_index part.now at ∷ slice_index part.now (at + 1) ∷ slice_index part.now (at + 2) ∷ slice_index part.now (at + 3) ∷ []) }
{
    Ip4(u32::from_be_bytes([part[at], part[at + 1], part[at + 2], part[at + 3]]))
}
