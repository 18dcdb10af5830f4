ghost use Rattle.std.specs.Prelude.{◌≡◌, ◌≤◌, ◌<◌, ◌↔◌, ℕ, true, false, length, map, slice_get, IfOk, IfErr, IfSome, IsErrOf};
ghost use Rattle.std.specs.Option.{option_map};
ghost use Rattle.nb_defs.specs.ScriptLines.{script_reading, script, no_script, script_too_long, line_too_long, label_place, items, is_idle_line, AreCutFrom};
ghost use Rattle.nb_defs.specs.ScriptText.{lines, line_words};
ghost use Rattle.nb_script.specs.ShownLine.{shown_line, HasAtMost, is_label_at};
ghost use Rattle.nb_script.specs.Shown.{shown_item, FitList};
ghost use Rattle.nb_script.specs.Errors.{IsOfText, IsOfList};

use crate::ScriptError;
use crate::busy::{BusyLines, busy_of};
use crate::item::{Item, cut_items, has_few_words};
use crate::joined::{JoinedLines, join_lines};
use crate::kind::{ScriptLine, line_of};
use crate::labels::{Labels, labels_of};
use crate::line::begins_script;
use nb_wire::Text;
use std::alloc::Global;
use std::marker::Model;

/// The most bytes that a text may have.
const MAX_SCRIPT: usize = 1_048_576;

/// A script, its text cut into lines once. Contracts see its lines as numbered: the line at place `i`
/// has the number `i + 1`. A line that was joined to the one before it is nothing at its own number.
#[derive(Drop)]
pub struct Script {
    lines: JoinedLines,
    labels: Labels,
    busy: BusyLines,
}

impl Model for Script {
    ghost use Rattle.std.specs.Prelude.{◌≡◌, ◌≤◌, List, length, map, true};
    ghost use Rattle.std.specs.List.{list_all};
    ghost use Rattle.nb_defs.specs.ScriptText.{is_short_line};
    ghost use Rattle.nb_defs.specs.ScriptLines.{Line, script_line};
    ghost use Rattle.nb_script.specs.Labels.{FindsLabels};
    ghost use Rattle.nb_script.specs.Busy.{HasBusyLines};

    ghost Value = { List Line };

    ghost view = { λ s. map script_line s.lines.lines };

    ghost invariant = { λ s. (list_all is_short_line s.lines.lines ≡ true)
        × (length s.lines.lines ≤ 1048576)
        × FindsLabels s.labels (map script_line s.lines.lines)
        × HasBusyLines (map script_line s.lines.lines) (length s.lines.lines) s.busy };
}

impl Script {
    /// The script of a text. A text whose first line isn't `#!ipxe` is NotScript, whatever its length,
    /// and one that is too long is ScriptTooLong, whatever its lines.
    pub fn read(alloc: Global, text: Text) -> Result<Script, ScriptError>
        ensures reads { IfOk result (λ code. script_reading text ≡ script code) }
        ensures numbered { IfOk result (λ code. length code ≡ length (lines text)) }
        ensures not_script { IsErrOf result ScriptError.NotScript ↔ script_reading text ≡ no_script }
        ensures script_too_long { IsErrOf result ScriptError.ScriptTooLong ↔
            script_reading text ≡ script_too_long }
        ensures line_too_long { IsErrOf result ScriptError.LineTooLong ↔
            (script_reading text ≡ line_too_long) × ¬ IsErrOf result ScriptError.NoMemory }
        ensures kind { IfErr result IsOfText }
    {
        if !begins_script(text.as_slice()) {
            return Err(ScriptError::NotScript);
        }
        if text.len() > MAX_SCRIPT {
            return Err(ScriptError::ScriptTooLong);
        }
        let lines = join_lines(alloc, text.as_slice())?;
        if !lines.are_short() {
            return Err(ScriptError::LineTooLong);
        }
        let labels = labels_of(alloc, &lines)?;
        let busy = busy_of(alloc, &lines)?;
        Ok(Script {
            lines,
            labels,
            busy,
        })
    }

    /// How many lines it has, the first line included.
    pub fn len(&self) -> usize
        ensures value { result ≡ length self.now }
        ensures fits { result ≤ 1048576 }
    {
        self.lines.len()
    }

    /// What stands on line `i`, from 0; the first is `#!ipxe`. None after the last.
    pub fn line(&self, i: usize) -> Option<ScriptLine<'_>>
        ensures value { option_map shown_line result ≡ slice_get self.now i }
        ensures fits { IfSome result (λ line. HasAtMost 4096 line) }
    {
        match self.lines.get(i) {
            Some(line) => Some(line_of(line)),
            None => None,
        }
    }

    /// The place of the first line that is the label of this name.
    pub fn label(&self, name: &[u8]) -> Option<usize>
        ensures { result ≡ label_place name.now self.now }
    {
        self.labels.find(name)
    }

    /// The place of the first line at or after this one on which something is to be done: a list that has
    /// a command to run, or is refused. The count of lines where there is none. The lines between change
    /// nothing, and are passed without a look at them.
    pub fn next_busy(&self, from: usize) -> usize
        requires { from ≤ length self.now }
        ensures reached { from ≤ result }
        ensures within { result ≤ length self.now }
        ensures idle { (k : ℕ) → from ≤ k → k < result →
            IfSome (slice_get self.now k) (λ line. is_idle_line line ≡ true) }
        ensures busy { IfSome (slice_get self.now result) (λ line. is_idle_line line ≡ false) }
    {
        match self.busy.first_from(from) {
            Some(place) => place,
            None => self.len(),
        }
    }

    /// The commands of a list, its comment dropped. TooManyWords where it has more than 64 words or more
    /// than 64 joins; a join isn't counted as a word.
    pub fn list(alloc: Global, line: &[u8]) -> Result<Vec<Item>, ScriptError>
        requires { length line.now ≤ 4096 }
        ensures value { IfOk result (λ list. items line.now ≡ Some (map shown_item list.items)) }
        ensures cut { IfOk result (λ list. AreCutFrom (line_words line.now) (map shown_item list.items)) }
        ensures fits { IfOk result (λ list. FitList list.items) }
        ensures too_many { IsErrOf result ScriptError.TooManyWords ↔ items line.now ≡ None }
        ensures kind { IfErr result IsOfList }
    {
        if !has_few_words(line) {
            return Err(ScriptError::TooManyWords);
        }
        Ok(cut_items(alloc, line)?)
    }
}
