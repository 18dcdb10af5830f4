ghost use Rattle.std.specs.Prelude.{◌≡◌, ℕ, ◌≤◌, List, [], ◌∷◌, ◌++◌, length, map, count_by, IfOk, OnOk};
ghost use Rattle.nb_defs.specs.ScriptText.{line_words};
ghost use Rattle.nb_defs.specs.ScriptLines.{first_join, cut_words, are_few};
ghost use Rattle.nb_script.specs.Shown.{shown_item};
ghost use Rattle.nb_script.specs.Cutting.{commands_before, is_join_as};

use crate::join::{Join, is_join, join_of};
use crate::word::{MAX_WORDS, next_word};
use nb_terms::NoMemory;
use nb_wire::{Word, Words};
use std::alloc::Global;
use std::mem;

/// A command of a list: how it is joined, and its words, which may be none.
#[derive(Debug, Drop)]
pub struct Item {
    pub join: Join,
    pub words: Words,
}

/// Commands while they are cut: those that are whole, and what the last one has.
#[derive(Drop)]
struct Cutting {
    done: Vec<Item>,
    join: Join,
    words: Vec<Word>,
}

/// How many words of a line are joins, or how many are none.
fn count_words(line: &[u8], joins: bool) -> usize
    ensures { result ≡ count_by (is_join_as joins) (line_words line.now) }
{
    let mut count = 0;
    let mut rest = line;
    while let Some((word, behind)) = next_word(rest) {
        if is_join(word) == joins {
            count += 1;
        }
        rest = behind;
    }
    count
}

/// Whether a line has at most 64 words and at most 64 joins.
pub fn has_few_words(line: &[u8]) -> bool
    ensures { result ≡ are_few (line_words line.now) }
{
    count_words(line, false) <= MAX_WORDS && count_words(line, true) <= MAX_WORDS
}

impl Cutting {
    /// Adds a word to the last command.
    fn add(&mut self, alloc: Global, word: &[u8]) -> Result<(), NoMemory>
        requires { length word.now ≤ 4096 }
        ensures done { OnOk result (self.new.done ≡ self.old.done) }
        ensures join { OnOk result (self.new.join ≡ self.old.join) }
        ensures words { OnOk result (self.new.words.items ≡ self.old.words.items ++ word.now ∷ []) }
    {
        self.words
            .push(Word::from_vec(Vec::from_slice(alloc, word)?))?;
        Ok(())
    }

    /// Ends the last command. The next one is joined so, and has no words yet.
    fn next(&mut self, alloc: Global, join: Join) -> Result<(), NoMemory>
        ensures done { OnOk result (self.new.done.items ≡
            self.old.done.items ++ record { join = self.old.join; words = self.old.words.items } ∷ []) }
        ensures join { OnOk result (self.new.join ≡ join) }
        ensures words { OnOk result (self.new.words.items ≡ []) }
    {
        let words = mem::replace(&mut self.words, Vec::new(alloc));
        self.done.push(Item {
            join: self.join,
            words: Words::from_vec(words),
        })?;
        self.join = join;
        Ok(())
    }

    /// Takes the next word of the list.
    fn take(&mut self, alloc: Global, word: &[u8]) -> Result<(), NoMemory>
        requires { length word.now ≤ 4096 }
        ensures { OnOk result ((behind : List (List ℕ)) →
            commands_before self.new behind ≡ commands_before self.old (word.now ∷ behind)) }
    {
        match join_of(word) {
            Some(join) => self.next(alloc, join),
            None => self.add(alloc, word),
        }
    }

    /// All commands, the last one ended.
    fn finish(self) -> Result<Vec<Item>, NoMemory>
        ensures { IfOk result (λ list. map shown_item list.items ≡ commands_before self []) }
    {
        let Cutting {
            mut done,
            join,
            words,
        } = self;
        done.push(Item {
            join,
            words: Words::from_vec(words),
        })?;
        Ok(done)
    }
}

/// The commands of a list, its comment dropped.
pub fn cut_items(alloc: Global, line: &[u8]) -> Result<Vec<Item>, NoMemory>
    requires { length line.now ≤ 4096 }
    ensures { IfOk result (λ list. map shown_item list.items ≡ cut_words first_join (line_words line.now)) }
{
    let mut cutting = Cutting {
        done: Vec::new(alloc),
        join: Join::First,
        words: Vec::new(alloc),
    };
    let mut rest = line;
    while let Some((word, behind)) = next_word(rest) {
        cutting.take(alloc, word)?;
        rest = behind;
    }
    cutting.finish()
}
