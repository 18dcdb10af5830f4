//! The query for a name's addresses.

ghost use Rattle.std.specs.Prelude.{◌≡◌, ◌<◌, ◌+◌, ◌++◌, ◌↔◌, ℕ, List, length, IfSome, IsSomeAnd, IsErr, OnOk, OnErr, MatchBool, MatchOption};
ghost use Rattle.nb_dnsmsg.specs.Names.{IsDnsName};
ghost use Rattle.nb_dnsmsg.specs.Messages.{IsQuestion, question_text};
ghost use Rattle.nb_dnsmsg.specs.Views.{IsAroundName, IsNoQuery};

use crate::name::read_name;
use crate::record::number_at;
use arrayvec::ArrayVec;
use nb_wire::{Full, Out};

/// What stands before the question's name, the number aside: recursion is desired, and one question follows.
const QUERY: [u8; 10] = [1, 0, 0, 1, 0, 0, 0, 0, 0, 0];

/// What stands after the question's name: type A and class IN.
const ADDRESS: [u8; 4] = [0, 1, 0, 1];

/// The query for the addresses of a name (RFC 1035, section 4.1).
#[derive(Clone, Copy, Debug, PartialEq, Eq)]
pub struct Question<'a> {
    /// The number that its answer has too.
    pub id: u16,
    /// The text of the name: each label after its length, and a zero byte (RFC 1035, section 3.1).
    pub name: &'a [u8],
}

impl<'a> Question<'a> {
    /// The query that the bytes are, or None where they are none.
    pub fn read(bytes: &'a [u8]) -> Option<Question<'a>>
        ensures sound { IfSome result (λ q. IsQuestion bytes.now q.id q.name.now) }
        ensures complete { (id : ℕ) (name : List ℕ) → IsQuestion bytes.now id name
            → IsSomeAnd result (λ q. (q.id ≡ id) × (q.name.now ≡ name)) }
    {
        let Some(name) = name_in(bytes) else {
            return None;
        };
        if !is_name(name) {
            return None;
        }
        Some(Question {
            id: number_at(bytes, 0),
            name,
        })
    }

    /// Puts the query. Full where the room is too small, and then nothing is put.
    pub fn write(&self, out: &mut Out<'_>) -> Result<(), Full>
        requires { IsDnsName self.now.name.now }
        ensures full { IsErr result ↔ (out.old.left < length (question_text self.now.id self.now.name.now)) }
        ensures appended { OnOk result (out.new.written ≡ out.old.written ++ question_text self.now.id self.now.name.now) }
        ensures room { OnOk result (out.new.left + length (question_text self.now.id self.now.name.now) ≡ out.old.left) }
        ensures refused { OnErr result (out.new ≡ out.old) }
        // What was put is a query, so `read` gives it back.
        ensures read_back { IsQuestion (question_text self.now.id self.now.name.now) self.now.id self.now.name.now }
    {
        let Question { id, name } = *self;
        if out.room() < 2 + QUERY.len() + name.len() + ADDRESS.len() {
            return Err(Full);
        }
        out.put_both(&id.to_be_bytes(), &QUERY)?;
        out.put_both(name, &ADDRESS)
    }
}

/// What stands where a query has its name. None where what stands around it isn't a query's.
fn name_in(bytes: &[u8]) -> Option<&[u8]>
    ensures { MatchOption result (IsNoQuery bytes.now) (λ name. IsAroundName bytes.now name.now) }
{
    if bytes.len() < 2 + QUERY.len() + ADDRESS.len() {
        return None;
    }
    let (_, rest) = bytes.split_at(2);
    let (query, rest) = rest.split_at(QUERY.len());
    let (name, address) = rest.split_at(rest.len() - ADDRESS.len());
    if query != QUERY.as_slice() {
        return None;
    }
    if address != ADDRESS.as_slice() {
        return None;
    }
    Some(name)
}

/// The bytes are the text of a name within its limits.
fn is_name(bytes: &[u8]) -> bool
    ensures { MatchBool result (IsDnsName bytes.now) (IsDnsName bytes.now → ⊥) }
{
    let mut text = ArrayVec::new();
    let Some(end) = read_name(bytes, 0, &mut text) else {
        return false;
    };
    if end != bytes.len() {
        return false;
    }
    true
}
