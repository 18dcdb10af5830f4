ghost use Rattle.std.specs.Prelude.{◌≡◌, ℕ, List, map, bytes_eq, OnOk, IfOk, Some, None};
ghost use Rattle.std.specs.Option.{option_or};
ghost use Rattle.nb_defs.specs.ScriptLines.{label_place, script_line};
ghost use Rattle.nb_script.specs.Labels.{place_under, place_if, FindsLabels};
ghost use Rattle.nb_script.specs.ShownLine.{shown_line, is_label_at};

use crate::joined::JoinedLines;
use crate::kind::{ScriptLine, line_of};
use nb_terms::NoMemory;
use std::alloc::Global;
use std::collections::BTreeMap;

/// The place of the first line of each label, found by its name.
#[derive(Drop)]
pub struct Labels {
    places: BTreeMap<Vec<u8>, usize>,
}

impl Labels {
    fn new(alloc: Global) -> Labels
        ensures { (name : List ℕ) → place_under result name ≡ None }
    {
        Labels {
            places: BTreeMap::new(alloc),
        }
    }

    /// The place of the first line that is the label of this name.
    pub fn find(&self, name: &[u8]) -> Option<usize>
        ensures { result ≡ place_under self.now name.now }
    {
        self.places.get(name).copied()
    }

    /// Adds a label at a place, where none of its name was added before.
    fn add(&mut self, alloc: Global, name: &[u8], place: usize) -> Result<(), NoMemory>
        ensures { OnOk result ((other : List ℕ) → place_under self.new other
            ≡ option_or (place_under self.old other) (place_if (bytes_eq name.now other) place)) }
    {
        if !self.places.contains_key(name) {
            let mut key = Vec::new(alloc);
            key.extend_from_slice(name)?;
            self.places.insert(key, place)?;
        }
        Ok(())
    }

    /// Adds what stands on a line, where it is a label.
    fn add_line(
        &mut self,
        alloc: Global,
        line: ScriptLine<'_>,
        place: usize,
    ) -> Result<(), NoMemory>
        ensures { OnOk result ((name : List ℕ) → place_under self.new name
            ≡ option_or (place_under self.old name)
            (place_if (is_label_at name (Some (shown_line line.entry))) place)) }
    {
        match line {
            ScriptLine::Label(name) => self.add(alloc, name, place),
            _ => Ok(()),
        }
    }
}

/// The labels of these lines.
pub fn labels_of(alloc: Global, lines: &JoinedLines) -> Result<Labels, NoMemory>
    ensures { IfOk result (λ labels. FindsLabels labels (map script_line lines.now.lines)) }
{
    let mut labels = Labels::new(alloc);
    for place in 0..lines.len() {
        if let Some(line) = lines.get(place) {
            labels.add_line(alloc, line_of(line), place)?;
        }
    }
    Ok(labels)
}
