//! The texts that stand after a table's parts.

ghost use Rattle.std.specs.Prelude.{◌≡◌, ◌+◌, ◌≤◌, ◌++◌, ℕ, List, [], length, IfSome, IsSomeAnd, IsTrue, OnOk, ◌↔◌};
ghost use Rattle.nb_ibft.specs.Tables.{kept, texts_joined, texts_text};
ghost use Rattle.nb_ibft.specs.Infos.{target_texts, targets_texts};
ghost use Rattle.nb_ibft.specs.Views.{lent_info, lent_target, lent_targets};

use crate::lent::{LentInfo, LentTarget, LentTargets};
use nb_terms::NoMemory;

/// How many bytes a text takes: none where it is empty, else one more for the zero after it.
pub(crate) fn kept_len(text: &[u8]) -> usize
    requires { length text.now ≤ 65535 }
    ensures { result ≡ length (kept text.now) }
{
    if text.is_empty() { 0 } else { text.len() + 1 }
}

/// Puts a text and the zero after it, or nothing where it is empty.
fn put_text(text: &[u8], to: &mut Vec<u8>) -> Result<(), NoMemory>
    ensures { OnOk result (to.new.items ≡ to.old.items ++ kept text.now) }
{
    if text.is_empty() {
        return Ok(());
    }
    to.extend_from_slice(text)?;
    Ok(to.push(0)?)
}

impl LentTarget<'_> {
    /// Puts a disk's texts.
    fn put_texts(&self, to: &mut Vec<u8>) -> Result<(), NoMemory>
        ensures { OnOk result (to.new.items ≡ to.old.items ++ texts_joined (target_texts (lent_target self.now))) }
    {
        put_text(self.texts.name, to)?;
        put_text(self.texts.user, to)?;
        put_text(self.texts.secret, to)?;
        put_text(self.texts.reverse_user, to)?;
        put_text(self.texts.reverse_secret, to)
    }

    /// What stands after a disk's texts, if the bytes begin with them.
    fn after_texts<'b>(&self, bytes: &'b [u8]) -> Option<&'b [u8]>
        ensures sound { IfSome result (λ rest. bytes.now ≡ texts_joined (target_texts (lent_target self.now)) ++ rest.now) }
        ensures complete { (rest : List ℕ) → bytes.now ≡ texts_joined (target_texts (lent_target self.now)) ++ rest
            → IsSomeAnd result (λ r. r.now ≡ rest) }
    {
        let bytes = after_text(self.texts.name, bytes)?;
        let bytes = after_text(self.texts.user, bytes)?;
        let bytes = after_text(self.texts.secret, bytes)?;
        let bytes = after_text(self.texts.reverse_user, bytes)?;
        after_text(self.texts.reverse_secret, bytes)
    }
}

impl LentTargets<'_> {
    /// Puts the disks' texts.
    fn put_texts(&self, to: &mut Vec<u8>) -> Result<(), NoMemory>
        ensures { OnOk result (to.new.items ≡ to.old.items ++ texts_joined (targets_texts (lent_targets self.now))) }
    {
        match self {
            LentTargets::Neither => Ok(()),
            LentTargets::One(one) => one.put_texts(to),
            LentTargets::Two(one, two) => {
                one.put_texts(to)?;
                two.put_texts(to)
            }
        }
    }

    /// Whether the bytes are the disks' texts.
    fn are_texts(&self, bytes: &[u8]) -> bool
        ensures { IsTrue result ↔ (bytes.now ≡ texts_joined (targets_texts (lent_targets self.now))) }
    {
        match self {
            LentTargets::Neither => bytes.is_empty(),
            LentTargets::One(one) => is_end(one.after_texts(bytes)),
            LentTargets::Two(one, two) => match one.after_texts(bytes) {
                Some(rest) => is_end(two.after_texts(rest)),
                None => false,
            },
        }
    }
}

impl LentInfo<'_> {
    /// Puts all texts.
    pub(crate) fn put_texts(&self, to: &mut Vec<u8>) -> Result<(), NoMemory>
        ensures { OnOk result (to.new.items ≡ to.old.items ++ texts_text (lent_info self.now)) }
    {
        put_text(self.initiator, to)?;
        put_text(self.host, to)?;
        self.targets.put_texts(to)
    }

    /// Whether the bytes are all texts.
    pub(crate) fn are_texts(&self, bytes: &[u8]) -> bool
        ensures { IsTrue result ↔ (bytes.now ≡ texts_text (lent_info self.now)) }
    {
        let Some(rest) = after_text(self.initiator, bytes) else {
            return false;
        };
        match after_text(self.host, rest) {
            Some(rest) => self.targets.are_texts(rest),
            None => false,
        }
    }
}

/// What stands after a text and its zero, if the bytes begin with them.
#[tactic(auto, using(crate::proofs::TextLemmas::kept_rest))]
fn after_text<'b>(text: &[u8], bytes: &'b [u8]) -> Option<&'b [u8]>
    ensures sound { IfSome result (λ rest. bytes.now ≡ kept text.now ++ rest.now) }
    ensures complete { (rest : List ℕ) → bytes.now ≡ kept text.now ++ rest → IsSomeAnd result (λ r. r.now ≡ rest) }
{
    if text.is_empty() {
        return Some(bytes);
    }
    let rest = after(text, bytes)?;
    after(&[0], rest)
}

/// What stands after these first bytes, if they are the first.
fn after<'b>(first: &[u8], bytes: &'b [u8]) -> Option<&'b [u8]>
    ensures sound { IfSome result (λ rest. bytes.now ≡ first.now ++ rest.now) }
    ensures complete { (rest : List ℕ) → bytes.now ≡ first.now ++ rest → IsSomeAnd result (λ r. r.now ≡ rest) }
{
    bytes.strip_prefix(first)
}

/// Whether there is a rest, and nothing in it.
fn is_end(rest: Option<&[u8]>) -> bool
    ensures { IsTrue result ↔ IsSomeAnd rest.entry (λ r. r.now ≡ []) }
{
    match rest {
        Some(rest) => rest.is_empty(),
        None => false,
    }
}
