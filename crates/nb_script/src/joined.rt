ghost use Rattle.std.specs.Prelude.{◌≡◌, ◌+◌, ◌-◌, ◌<◌, ◌≤◌, ◌^◌, ℕ, List, [], ◌∷◌, ◌++◌, length, slice_get, IfOk, IfSome, OnOk};
ghost use Rattle.std.specs.List.{list_all};
ghost use Rattle.std.specs.Option.{option_copied};
ghost use Rattle.nb_defs.specs.ScriptText.{is_short_line};
ghost use Rattle.nb_defs.specs.ScriptLines.{line_before, joined_lines};
ghost use Rattle.nb_script.specs.Joined.{Joined, no_lines, size_of, closed, lines_before, last_line, IsBegun};

use crate::line::{ends_in_backslash, line_feed, without_cr};
use crate::span::{Span, are_short};
use nb_terms::NoMemory;
use std::alloc::Global;
use std::marker::Model;

/// The lines of a text after joining, one after the other in a memory of their own. While a text is
/// read, the last line may be open: further lines are joined to it.
#[derive(Drop)]
pub struct JoinedLines {
    bytes: Vec<u8>,
    spans: Vec<Span>,
    /// Where the open line begins.
    from: usize,
    /// How many lines of the text the open line has, all to be numbered; 0 where none is open.
    held: usize,
}

impl Model for JoinedLines {
    ghost use Rattle.std.specs.Prelude.{◌≤◌, map, drop, vec_len};
    ghost use Rattle.nb_script.specs.Joined.{Joined};
    ghost use Rattle.nb_script.specs.Spans.{spanned, IsWithin};

    ghost Value = { Joined };

    ghost view = { λ j. record {
      lines = map (spanned j.bytes.items) j.spans.items;
      front = drop j.from j.bytes.items;
      held = j.held;
    } };

    ghost invariant = { λ j. IsWithin j.bytes.items j.spans.items × (j.from ≤ vec_len j.bytes) };
}

impl JoinedLines {
    fn new(alloc: Global) -> JoinedLines
        ensures { result ≡ no_lines }
    {
        JoinedLines {
            bytes: Vec::new(alloc),
            spans: Vec::new(alloc),
            from: 0,
            held: 0,
        }
    }

    /// How many lines there are.
    pub fn len(&self) -> usize
        ensures { result ≡ length self.now.lines }
    {
        self.spans.len()
    }

    /// Line `i`, from 0. None after the last.
    pub fn get(&self, i: usize) -> Option<&[u8]>
        ensures { option_copied result ≡ slice_get self.now.lines i }
    {
        if i >= self.spans.len() {
            return None;
        }
        let span = self.spans[i];
        Some(&self.bytes[span.from..span.to])
    }

    /// Whether no line has more than 4,096 bytes.
    pub fn are_short(&self) -> bool
        ensures { result ≡ list_all is_short_line self.now.lines }
    {
        are_short(self.spans.as_slice())
    }

    /// Adds to the open line.
    fn hold(&mut self, front: &[u8]) -> Result<(), NoMemory>
        requires { self.old.held < 2 ^ 63 }
        ensures lines { OnOk result (self.new.lines ≡ self.old.lines) }
        ensures front { OnOk result (self.new.front ≡ self.old.front ++ front.now) }
        ensures held { OnOk result (self.new.held ≡ self.old.held + 1) }
    {
        self.bytes.extend_from_slice(front)?;
        self.held += 1;
        Ok(())
    }

    /// Puts what the open line has as a line. An empty one is open then.
    fn put(&mut self) -> Result<(), NoMemory>
        requires { 0 < self.old.held }
        ensures lines { OnOk result (self.new.lines ≡ self.old.lines ++ self.old.front ∷ []) }
        ensures front { OnOk result (self.new.front ≡ []) }
        ensures held { OnOk result (self.new.held + 1 ≡ self.old.held) }
    {
        let to = self.bytes.len();
        self.spans.push(Span {
            from: self.from,
            to,
        })?;
        self.from = to;
        self.held -= 1;
        Ok(())
    }

    /// Puts the open line, and an empty one for each further line that was joined to it.
    fn close(&mut self) -> Result<(), NoMemory>
        ensures lines { OnOk result
            (self.new.lines ≡ self.old.lines ++ closed self.old.held self.old.front) }
        ensures front { OnOk result (IsBegun self.old → self.new.front ≡ []) }
        ensures held { OnOk result (self.new.held ≡ 0) }
    {
        while self.held > 0 {
            self.put()?;
        }
        Ok(())
    }

    /// Takes a line that ends: it is joined to the next, or closes the open one.
    fn add(&mut self, line: &[u8]) -> Result<(), NoMemory>
        requires begun { IsBegun self.old }
        requires room { self.old.held < 2 ^ 63 }
        ensures lines { OnOk result ((behind : List (List ℕ)) →
            lines_before self.new behind ≡ lines_before self.old (line_before line.now behind)) }
        ensures begun { OnOk result (IsBegun self.new) }
        ensures size { OnOk result (size_of self.new ≡ size_of self.old + 1) }
    {
        if ends_in_backslash(line) {
            return self.hold(&line[..line.len() - 1]);
        }
        self.hold(line)?;
        self.close()
    }

    /// Takes what stands after the last line feed, and closes the open line.
    fn end(&mut self, rest: &[u8]) -> Result<(), NoMemory>
        requires begun { IsBegun self.old }
        requires room { self.old.held < 2 ^ 63 }
        ensures lines { OnOk result (self.new.lines ≡ lines_before self.old (last_line rest.now)) }
        ensures size { OnOk result (length self.new.lines ≤ size_of self.old + length rest.now) }
    {
        if !rest.is_empty() {
            self.hold(rest)?;
        }
        self.close()
    }
}

/// The first line that a line feed ends, and what stands after it.
fn next_line(text: &[u8]) -> Option<(&[u8], &[u8])>
    ensures none { result ≡ None → joined_lines text.now ≡ last_line text.now }
    ensures some { IfSome result
        (λ cut. joined_lines text.now ≡ line_before cut.0.now (joined_lines cut.1.now)) }
    ensures sizes { IfSome result (λ cut. length cut.1.now < length text.now) }
{
    let count = line_feed(text)?;
    Some((without_cr(&text[..count]), &text[count + 1..]))
}

/// The lines of a text after joining.
pub fn join_lines(alloc: Global, text: &[u8]) -> Result<JoinedLines, NoMemory>
    ensures lines { IfOk result (λ j. j.lines ≡ joined_lines text.now) }
    ensures size { IfOk result (λ j. length j.lines ≤ length text.now) }
{
    let mut joined = JoinedLines::new(alloc);
    let mut rest = text;
    while let Some((line, behind)) = next_line(rest) {
        joined.add(line)?;
        rest = behind;
    }
    joined.end(rest)?;
    Ok(joined)
}
