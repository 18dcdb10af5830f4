ghost use Rattle.std.specs.Prelude.{◌≡◌, ◌+◌, ◌-◌, ◌<◌, ◌≤◌, length, map, sum_by, drop, slice_get, IfOk, IfSome, [], ◌∷◌, ◌++◌, true, false};
ghost use Rattle.std.specs.Option.{option_copied};
ghost use Rattle.nb_defs.specs.Records.{out_texts, leave};
ghost use Rattle.nb_defs.specs.Causes.{ok};
ghost use Rattle.nb_defs.specs.ScriptLines.{label_place};
ghost use Rattle.nb_record.specs.Logged.{Puts};
ghost use Rattle.nb_settings.specs.Tables.{TableLists};
ghost use Rattle.nb_script.specs.Shown.{shown_item, FitList};
ghost use Rattle.nb_script.specs.ShownJoin.{shown_join};
ghost use Rattle.nb_script.specs.ShownLine.{shown_line, HasAtMost};
ghost use Rattle.nb_machine.specs.Running.{Running, first_script, script_within, script_in_place, lets_run, onto_line, behind_lines, behind_command, entered, further, with_result, behind_line, anew};
ghost use Rattle.nb_runner.specs.declared.running.Next.TheVariants as next;
ghost use Rattle.nb_machine.specs.Effects.{shown_as};
ghost use Rattle.nb_machine.specs.CommandRecords.{command_record, command_records, prints};
ghost use Rattle.nb_runner.specs.Steps.{Does, GoesToLabel, script_begun};
ghost use Rattle.nb_runner.specs.NextCommand.{IsReady, IsNext, IsExpansion, list_of};
ghost use Rattle.nb_runner.specs.CommandWords.{done_of};

use crate::command::Done;
use nb_expand::{ExpandError, expand_words};
use nb_record::{Cause, Log, NoMemory, OutRec};
use nb_script::{Item, Join, Script, ScriptError, ScriptLine};
use nb_scripts::kept_result;
use nb_settings::Table;
use nb_terms::{Long, Many, Plain, Reason};
use nb_wire::{Text, Word, Words};
use std::alloc::Global;
use std::collections::VecDeque;
use std::marker::Model;

/// How many commands may begin in one step.
const MOST_COMMANDS: u16 = 4096;

/// How far a script is: how many of its lines were passed, the commands of the last one that are still to
/// come, and the place of the first of them.
#[derive(Drop)]
struct Progress {
    depth: u8,
    /// The URI that it was fetched from.
    base: Option<Text>,
    script: Script,
    passed: usize,
    rest: VecDeque<Item>,
    place: u8,
    /// The last result.
    last: Cause,
    /// How many commands began in this step.
    begun: u16,
}

/// A script that runs. It stays at one place of memory: moving it moves its address alone.
#[derive(Drop)]
pub struct RunningScript {
    place: Box<Progress>,
}

impl Model for RunningScript {
    ghost use Rattle.std.specs.Prelude.{◌≡◌, ◌≤◌, ◌+◌, length, map, true};
    ghost use Rattle.nb_script.specs.Shown.{shown_item, FitList};
    ghost use Rattle.nb_defs.specs.Causes.{ok, is_ok_cause};
    ghost use Rattle.nb_machine.specs.Running.{Running};

    ghost Value = { Running };

    ghost view = { λ s. record { depth = s.place.value.depth; base = s.place.value.base; code = s.place.value.script; passed = s.place.value.passed; rest = map shown_item s.place.value.rest.items; place = s.place.value.place; last = s.place.value.last; begun = s.place.value.begun } };

    ghost invariant = { λ s. (s.place.value.begun ≤ 4096)
        × (s.place.value.passed ≤ length s.place.value.script)
        × (length s.place.value.script ≤ 1048576)
        × (s.place.value.place + length s.place.value.rest.items ≤ 65)
        × (is_ok_cause s.place.value.last ≡ true → s.place.value.last ≡ ok)
        × FitList s.place.value.rest.items };
}

/// What a script comes to next.
#[derive(Drop)]
pub enum Next {
    /// A line or a command was passed.
    Passed,
    /// It is left with this cause.
    Left(Cause),
    /// A command begins, with these words, which were expanded.
    Begins(Words),
    /// A command begins with these words, and they aren't expanded, for this cause.
    Refused(Words, Cause),
    /// A command is to begin, and 4,096 began in this step.
    Full,
}

/// Whether a command that is joined so runs after this result.
fn lets_run(join: Join, last: Cause) -> bool
    ensures { result ≡ lets_run (shown_join join) last }
{
    match join {
        Join::First | Join::Then => true,
        Join::And => last.code == 0,
        Join::Or => last.code != 0,
    }
}

/// The list that stands on a line, as it is written, if one does.
fn list_on(line: ScriptLine<'_>) -> Option<&[u8]>
    ensures value { option_copied result ≡ list_of (shown_line line.entry) }
    ensures fits { HasAtMost 4096 line.entry → IfSome result (λ text. length text.now ≤ 4096) }
{
    match line {
        ScriptLine::List(text) => Some(text),
        _ => None,
    }
}

/// A copy of words.
fn copy_words(alloc: Global, words: &[Word]) -> Result<Words, NoMemory>
    ensures { IfOk result (λ copy. copy ≡ words.now) }
{
    let mut copy = Vec::new(alloc);
    for word in words {
        copy.push(Word::from_vec(Vec::from_slice(alloc, word.as_slice())?))?;
    }
    Ok(Words::from_vec(copy))
}

/// A command of these words begins, once they are expanded by these settings.
fn expanded(alloc: Global, words: &[Word], table: &Table) -> Result<Next, NoMemory>
    requires { length words.now ≤ 64 }
    ensures { IfOk result (λ next. IsExpansion next table.now words.now) }
{
    let cause = match expand_words(alloc, words, table) {
        Ok(list) => return Ok(Next::Begins(list)),
        Err(ExpandError::BadName) => Plain::BadName.cause(),
        Err(ExpandError::TooLong) => Cause::from(Reason::TooLong(Long::Line)),
        Err(ExpandError::NoMemory) => return Err(NoMemory),
    };
    Ok(Next::Refused(copy_words(alloc, words)?, cause))
}

/// Puts what a command prints.
fn put_prints(printed: &Option<Text>, log: &mut Log)
    requires { IfSome printed.now (λ text. length text ≤ 4160) }
    ensures { Puts log.old log.new (out_texts (prints printed.now)) }
{
    if let Some(text) = printed {
        log.put(&OutRec::Text(text.as_slice()));
    }
}

impl RunningScript {
    /// The first script, before its first line, which is a comment.
    pub fn first(alloc: Global, script: Script) -> Result<RunningScript, NoMemory>
        requires { length script ≤ 1048576 }
        ensures { IfOk result (λ s. s ≡ first_script script) }
    {
        RunningScript::begun(alloc, 1, None, script, 0)
    }

    /// A script of this depth, before its first line, where so many commands began in this step.
    fn begun(
        alloc: Global,
        depth: u8,
        base: Option<Text>,
        script: Script,
        begun: u16,
    ) -> Result<RunningScript, NoMemory>
        requires short { length script ≤ 1048576 }
        requires few { begun ≤ 4096 }
        ensures { IfOk result (λ s. s ≡ script_begun depth base script begun) }
    {
        let start = Progress {
            depth,
            base,
            script,
            passed: 0,
            rest: VecDeque::new(alloc),
            place: 0,
            last: Plain::Ok.cause(),
            begun,
        };
        Ok(RunningScript {
            place: Box::new(alloc, start)?,
        })
    }

    /// A script that was fetched from this URI, before its first line, within this one. It counts this one's commands on.
    pub fn within(
        &self,
        alloc: Global,
        script: Script,
        uri: Text,
    ) -> Result<RunningScript, NoMemory>
        requires short { length script ≤ 1048576 }
        requires few { self.now.depth < 8 }
        ensures same { IfOk result (λ s. s ≡ script_within self.now uri script) }
        ensures counts { IfOk result (λ s. s.begun ≤ 4096) }
    {
        let place: &Progress = &self.place;
        RunningScript::begun(alloc, place.depth + 1, Some(uri), script, place.begun)
    }

    /// And in its place.
    pub fn in_place(
        &self,
        alloc: Global,
        script: Script,
        uri: Text,
    ) -> Result<RunningScript, NoMemory>
        requires { length script ≤ 1048576 }
        ensures same { IfOk result (λ s. s ≡ script_in_place self.now uri script) }
        ensures counts { IfOk result (λ s. s.begun ≤ 4096) }
    {
        let place: &Progress = &self.place;
        RunningScript::begun(alloc, place.depth, Some(uri), script, place.begun)
    }

    /// How many scripts are within one another, with this one.
    pub fn depth(&self) -> u8
        ensures { result ≡ self.now.depth }
    {
        self.place.depth
    }

    /// The URI that it was fetched from; the first script has none.
    pub fn base(&self) -> Option<&[u8]>
        ensures { option_copied result ≡ self.now.base }
    {
        match self.place.base {
            Some(ref base) => Some(base.as_slice()),
            None => None,
        }
    }

    /// How many commands began in this step.
    pub fn commands(&self) -> u16
        ensures value { result ≡ self.now.begun }
        ensures few { result ≤ 4096 }
    {
        self.place.begun
    }

    /// So many commands began in this step, with those of a script within it.
    pub fn count_on(&mut self, commands: u16)
        requires { commands ≤ 4096 }
        ensures { self.new ≡ record self.old { begun = commands } }
    {
        self.place.begun = commands;
    }

    /// What the script comes to next, with these settings. A line, or a command that doesn't run or has no words, is
    /// passed.
    pub fn next(&mut self, alloc: Global, table: &Table) -> Result<Next, NoMemory>
        ensures { IfOk result (λ next. IsNext next table.now self.old self.new) }
    {
        let place: &Progress = &self.place;
        let Some(item) = place.rest.front() else {
            return self.next_line(alloc);
        };
        if !lets_run(item.join, place.last) {
            return Ok(self.skip());
        }
        if item.words.as_slice().is_empty() {
            return Ok(self.succeed());
        }
        if place.begun == MOST_COMMANDS {
            return Ok(Next::Full);
        }
        expanded(alloc, item.words.as_slice(), table)
    }

    /// Passes lines on which nothing is to be done and the one after them, and cuts its list. The list before them is
    /// over: where it ended in failure, the script is left.
    fn next_line(&mut self, alloc: Global) -> Result<Next, NoMemory>
        requires { self.old.rest ≡ [] }
        ensures { (table : TableLists) → IfOk result (λ next. IsNext next table self.old self.new) }
    {
        let place: &Progress = &self.place;
        if place.last.code != 0 {
            return Ok(Next::Left(place.last));
        }
        let busy = place.script.next_busy(place.passed);
        let Some(line) = place.script.line(busy) else {
            return Ok(Next::Left(Plain::Ok.cause()));
        };
        match list_on(line) {
            None => Ok(self.pass(busy, VecDeque::new(alloc))),
            Some(text) => match Script::list(alloc, text) {
                Ok(list) => Ok(self.pass(busy, VecDeque::from(list))),
                Err(ScriptError::TooManyWords) => {
                    Ok(Next::Left(Cause::from(Reason::TooMany(Many::Words))))
                }
                Err(_) => Err(NoMemory),
            },
        }
    }

    /// Passes the lines up to this one, which has these commands. The list before them succeeded.
    fn pass(&mut self, line: usize, list: VecDeque<Item>) -> Next
        requires there { line < length self.old.code }
        requires fits { FitList list.items }
        ensures result { result ≡ next.Passed }
        ensures after { self.new ≡ with_result (onto_line (behind_lines self.old line) (map shown_item list.items)) ok }
    {
        self.place.place = 0;
        self.place.passed = line + 1;
        self.place.rest = list;
        self.end_with(Plain::Ok.cause());
        Next::Passed
    }

    /// Passes a command that doesn't run.
    fn skip(&mut self) -> Next
        requires { 0 < length self.old.rest }
        ensures result { result ≡ next.Passed }
        ensures after { self.new ≡ behind_command self.old }
    {
        self.place.rest.pop_front();
        self.place.place += 1;
        Next::Passed
    }

    /// Passes a command without words, which succeeds.
    fn succeed(&mut self) -> Next
        requires { 0 < length self.old.rest }
        ensures result { result ≡ next.Passed }
        ensures after { self.new ≡ with_result (behind_command self.old) ok }
    {
        self.skip();
        self.end_with(Plain::Ok.cause());
        Next::Passed
    }

    /// A command begins.
    pub fn enter(&mut self)
        requires early { self.old.begun < 4096 }
        requires there { 0 < length self.old.rest }
        ensures { self.new ≡ entered self.old }
    {
        self.skip();
        self.place.begun += 1;
    }

    /// The command that began last has this result.
    pub fn end_with(&mut self, cause: Cause)
        ensures { self.new ≡ with_result self.old cause }
    {
        self.place.last = kept_result(cause);
    }

    /// A step begins.
    pub fn begin_step(&mut self)
        ensures { self.new ≡ anew self.old }
    {
        self.place.begun = 0;
    }

    /// The place of the first line that is the label of this name.
    pub fn label(&self, name: &[u8]) -> Option<usize>
        ensures value { result ≡ label_place name.now self.now.code }
        ensures within { IfSome result (λ line. line < length self.now.code) }
        ensures small { IfSome result (λ line. line < 1048576) }
    {
        self.place.script.label(name)
    }

    /// Goes on after the line at this place.
    pub fn jump(&mut self, line: usize)
        requires early { self.old.begun < 4096 }
        requires there { line < length self.old.code }
        requires small { line < 1048576 }
        requires some { 0 < length self.old.rest }
        ensures { self.new ≡ behind_line self.old line }
    {
        let behind = line + 1;
        self.enter();
        self.place.passed = behind;
        self.place.rest.clear();
        self.place.place = 0;
        self.end_with(Plain::Ok.cause());
    }

    /// Puts that a command begins, whose words were expanded or stand as they are written.
    pub fn put_begun(&self, expanded: bool, words: &[Word], log: &mut Log)
        requires few { length words.now ≤ 64 }
        requires total { sum_by length words.now ≤ 4096 }
        ensures { Puts log.old log.new (out_texts (command_record self.now (shown_as expanded words.now) ∷ [])) }
    {
        log.put(&OutRec::Command {
            depth: self.place.depth,
            line: self.place.passed as u32,
            place: self.place.place,
            expanded,
            words,
        });
    }

    /// Puts COMMAND, what the command prints, and its result.
    fn put_command(&self, expanded: bool, words: &[Word], done: &Done, log: &mut Log)
        requires few { length words.now ≤ 64 }
        requires total { sum_by length words.now ≤ 4096 }
        requires printed { IfSome done.now.prints (λ text. length text ≤ 4160) }
        ensures { Puts log.old log.new (out_texts (command_records self.now (shown_as expanded words.now) (done_of done.now))) }
    {
        self.put_begun(expanded, words, log);
        put_prints(&done.prints, log);
        log.put(&OutRec::Result(done.cause));
    }

    /// Puts that the script is left with a cause.
    pub fn put_leave(&self, cause: Cause, log: &mut Log)
        ensures { Puts log.old log.new (out_texts (leave self.now.depth cause ∷ [])) }
    {
        log.put(&OutRec::Script {
            what: 1,
            depth: self.place.depth,
            cause,
        });
    }

    /// Does `goto` of this label: goes on after it, or fails where there is none.
    pub fn go_to(&mut self, words: &[Word], label: &[u8], log: &mut Log)
        requires { IsReady self.old words.now }
        ensures { GoesToLabel (shown_as true words.now) (label_place label.now self.old.code) self.old self.new log.old log.new }
    {
        match self.label(label) {
            Some(line) => {
                self.put_command(true, words, &Done::with(Plain::Ok.cause()), log);
                self.jump(line);
            }
            None => {
                self.finish(true, words, &Done::with(Plain::NoLabel.cause()), log);
            }
        }
    }

    /// Puts a command that is over. Some cause where the script is left with it.
    pub fn finish(
        &mut self,
        expanded: bool,
        words: &[Word],
        done: &Done,
        log: &mut Log,
    ) -> Option<Cause>
        requires command { IsReady self.old words.now }
        requires printed { IfSome done.now.prints (λ text. length text ≤ 4160) }
        ensures { Does (shown_as expanded words.now) (done_of done.now) result self.old self.new log.old log.new }
    {
        self.put_command(expanded, words, done, log);
        self.enter();
        if done.leaves {
            self.put_leave(done.cause, log);
            return Some(done.cause);
        }
        self.end_with(done.cause);
        None
    }
}
