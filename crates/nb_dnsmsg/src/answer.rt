//! The answer to a question.

ghost use Rattle.std.specs.Prelude.{◌≡◌, ◌≤◌, List, length, IfSome, IsSomeAnd, MatchBool};
ghost use Rattle.nb_dnsmsg.specs.declared.answer.Answer.{Answer};
ghost use Rattle.nb_dnsmsg.specs.Records.{ResourceRecord};
ghost use Rattle.nb_dnsmsg.specs.Messages.{IsAnswer};
ghost use Rattle.nb_dnsmsg.specs.Views.{IsResponse, IsOurQuestion, HasSections};

use crate::name::read_name;
use crate::record::{A, IN, has, number_at};
use crate::section::Section;
use arrayvec::ArrayVec;
use nb_wire::Ip4;

/// The bytes of a message's header (RFC 1035, section 4.1.1).
const HEADER: usize = 12;

/// The flags of a response are this number or more: their highest bit is set.
const RESPONSE: u16 = 0x8000;

/// So many values has a response code, in the lowest bits of the flags.
const RCODES: u16 = 16;

/// The bytes of a question after its name: type and class.
const QUESTION_FIELDS: usize = 4;

/// An answer to the question for a name's addresses (RFC 1035, section 4).
#[derive(Clone, Copy, Debug, PartialEq, Eq, Drop)]
pub struct Answer {
    /// The response code: 0 is no error, 3 no such name.
    pub rcode: u8,
    /// The first address of the name that is reached by at most eight aliases.
    pub address: Option<Ip4>,
}

impl Answer {
    /// The answer to the question with this number for this name, which is the text of one. None where the
    /// bytes are another message or none: another number, no response, another question, a name past its
    /// limits or with a pointer that doesn't go backwards, or fewer records than are counted.
    pub fn read(bytes: &[u8], id: u16, name: &[u8]) -> Option<Answer>
        ensures sound { IfSome result (λ answer. IsAnswer bytes.now id name.now answer) }
        ensures complete { (answer : Answer) → IsAnswer bytes.now id name.now answer
            → IsSomeAnd result (λ read. read ≡ answer) }
    {
        if !is_response(bytes, id) {
            return None;
        }
        let mut reached = ArrayVec::new();
        let Some(question) = read_name(bytes, HEADER, &mut reached) else {
            return None;
        };
        if !is_our_question(bytes, question, reached.as_slice(), name) {
            return None;
        }
        let answers = Section {
            start: question + QUESTION_FIELDS,
            count: number_at(bytes, 6),
        };
        if !has_sections(bytes, answers) {
            return None;
        }
        answers.follow(bytes, &mut reached);
        Some(Answer {
            rcode: (number_at(bytes, 2) % RCODES) as u8,
            address: answers.address(bytes, reached.as_slice()),
        })
    }
}

/// The bytes begin with the header of a response with this number and one question.
fn is_response(bytes: &[u8], id: u16) -> bool
    ensures { MatchBool result (IsResponse bytes.now id) (IsResponse bytes.now id → ⊥) }
{
    if bytes.len() < HEADER {
        return false;
    }
    number_at(bytes, 0) == id && number_at(bytes, 2) >= RESPONSE && number_at(bytes, 4) == 1
}

/// The question whose name ends at this place is the one for the addresses of this name.
fn is_our_question(bytes: &[u8], place: usize, asked: &[u8], name: &[u8]) -> bool
    ensures { MatchBool result (IsOurQuestion bytes.now place asked.now name.now) (IsOurQuestion bytes.now place asked.now name.now → ⊥) }
{
    if !has(bytes, place, QUESTION_FIELDS) {
        return false;
    }
    number_at(bytes, place) == A
        && number_at(bytes, place + 2) == IN
        && asked.eq_ignore_ascii_case(name)
}

/// The records of all three sections stand in the message, after its question.
fn has_sections(bytes: &[u8], answers: Section) -> bool
    requires { 12 ≤ length bytes.now }
    ensures { MatchBool result ((rs : List ResourceRecord) × HasSections bytes.now answers rs) ((rs : List ResourceRecord) → HasSections bytes.now answers rs → ⊥) }
{
    let Some(answered) = answers.end(bytes) else {
        return false;
    };
    let authority = Section {
        start: answered,
        count: number_at(bytes, 8),
    };
    let Some(authorized) = authority.end(bytes) else {
        return false;
    };
    let additional = Section {
        start: authorized,
        count: number_at(bytes, 10),
    };
    match additional.end(bytes) {
        Some(_) => true,
        None => false,
    }
}
