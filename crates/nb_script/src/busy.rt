ghost use Rattle.std.specs.Prelude.{◌≡◌, ◌<◌, ◌≤◌, [], ◌∷◌, ◌++◌, length, map, All, IfOk, OnOk, if◌then◌else◌};
ghost use Rattle.nb_defs.specs.ScriptLines.{script_line, is_idle_line};
ghost use Rattle.nb_script.specs.Busy.{HasBusyLines, IsFirstFrom};
ghost use Rattle.nb_script.specs.ShownLine.{shown_line};

use crate::idle::is_idle_line;
use crate::joined::JoinedLines;
use crate::kind::{ScriptLine, line_of};
use nb_terms::NoMemory;
use std::alloc::Global;
use std::marker::Model;

/// The places of the lines that aren't idle, in order.
#[derive(Drop)]
pub struct BusyLines {
    places: Vec<u32>,
}

impl Model for BusyLines {
    ghost use Rattle.std.specs.Prelude.{ℕ, List};
    ghost use Rattle.std.specs.List.Sorted.{IsNonDecreasing};

    ghost Value = { List ℕ };

    ghost view = { λ b. b.places.items };

    ghost invariant = { λ b. IsNonDecreasing b.places.items };
}

impl BusyLines {
    fn new(alloc: Global) -> BusyLines
        ensures { result ≡ [] }
    {
        BusyLines {
            places: Vec::new(alloc),
        }
    }

    /// The first place at or after this one.
    pub fn first_from(&self, from: usize) -> Option<usize>
        ensures { IsFirstFrom from self.now result }
    {
        let before = self
            .places
            .partition_point(|place| (*place as usize) < from);
        if before == self.places.len() {
            return None;
        }
        Some(self.places[before] as usize)
    }

    /// Adds a place after all others.
    fn add(&mut self, place: u32) -> Result<(), NoMemory>
        requires { All (λ other. other < place) self.old }
        ensures { OnOk result (self.new ≡ self.old ++ place ∷ []) }
    {
        self.places.push(place)?;
        Ok(())
    }

    /// Adds the place of a line after all others, where the line isn't idle.
    fn add_line(&mut self, line: ScriptLine<'_>, place: u32) -> Result<(), NoMemory>
        requires { All (λ other. other < place) self.old }
        ensures { OnOk result (self.new ≡
            (if is_idle_line (shown_line line.entry) then self.old else (self.old ++ place ∷ []))) }
    {
        if is_idle_line(line) {
            return Ok(());
        }
        self.add(place)
    }
}

/// The places of the busy lines among these.
pub fn busy_of(alloc: Global, lines: &JoinedLines) -> Result<BusyLines, NoMemory>
    requires { length lines.now.lines ≤ 1048576 }
    ensures { IfOk result (λ busy.
        HasBusyLines (map script_line lines.now.lines) (length lines.now.lines) busy) }
{
    let mut busy = BusyLines::new(alloc);
    for place in 0..lines.len() {
        if let Some(line) = lines.get(place) {
            busy.add_line(line_of(line), place as u32)?;
        }
    }
    Ok(busy)
}
