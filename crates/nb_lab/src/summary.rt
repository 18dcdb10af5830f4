//! The summary of a run.

ghost use Rattle.std.specs.Prelude.{◌≡◌, ◌+◌, ◌++◌, ◌∷◌, [], List, IfOk, OnOk};
ghost use Rattle.nb_defs.specs.Records.{In, Out};
ghost use Rattle.nb_lab.specs.Shows.{seen, seen_of};
ghost use Rattle.nb_lab.specs.Summaries.{capped_count, summary_line, summary};
ghost use Rattle.nb_lab.specs.Tallies.{no_tally, with_seen, with_fetched_image, Counts, tally_text};

use crate::image::Image;
use crate::shown::Shown;
use nb_terms::NoMemory;
use nb_wire::Text;
use std::alloc::Global;
use std::marker::Model;

/// What is counted of a run while its records pass. A count stands still at its type's end.
#[derive(Debug, Drop)]
pub struct Summary {
    images: u8,
    bytes: u64,
    records: u64,
    frames: u64,
    tries: u64,
    /// The image that the last open is for, until a command's result.
    asked: Option<Image>,
}

impl Model for Summary {
    ghost use Rattle.nb_lab.specs.Tallies.{Tally};

    ghost Value = { Tally };

    ghost view = { λ s. record { images = s.images; bytes = s.bytes; records = s.records; frames = s.frames; tries = s.tries; asked = s.asked } };
}

impl Summary {
    /// Nothing of a run over so many images has passed.
    pub fn new(images: u8) -> Summary
        ensures value { result ≡ no_tally images }
        ensures none { Counts result [] [] }
    {
        Summary {
            images,
            bytes: 0,
            records: 0,
            frames: 0,
            tries: 0,
            asked: None,
        }
    }

    /// Counts an input record that is used.
    pub fn count_input(&mut self)
        ensures counts { (ins : List In) (outs : List Out) (r : In) → Counts self.old ins outs → Counts self.new (ins ++ r ∷ []) outs }
        ensures images { self.new.images ≡ self.old.images }
    {
        self.add_input();
    }

    /// Counts an output record that was put.
    pub fn count(&mut self, shown: &Shown<'_>)
        ensures counts { (ins : List In) (outs : List Out) (o : Out) → seen_of shown.now ≡ seen o
            → Counts self.old ins outs → Counts self.new ins (outs ++ o ∷ []) }
        ensures images { self.new.images ≡ self.old.images }
    {
        self.add(shown);
    }

    /// The text of the whole run, which ended with this status.
    pub fn text(&self, alloc: Global, status: u8) -> Result<Text, NoMemory>
        ensures { IfOk result (λ text. (ins : List In) (outs : List Out) → Counts self.now ins outs
            → text ≡ summary self.now.images ins outs status) }
    {
        self.lines(alloc, status)
    }

    fn add_input(&mut self)
        ensures counted { self.new ≡ record self.old { records = capped_count (self.old.records + 1) } }
    {
        self.records = self.records.saturating_add(1);
    }

    fn add(&mut self, shown: &Shown<'_>)
        ensures counted { self.new ≡ with_seen self.old (seen_of shown.now) }
        ensures images { self.new.images ≡ self.old.images }
    {
        match *shown {
            Shown::Frame(_) => self.frames = self.frames.saturating_add(1),
            Shown::Try => self.tries = self.tries.saturating_add(1),
            Shown::Open(image) => self.asked = image,
            Shown::Result { ok } => self.end_command(ok),
            Shown::Other => {}
        }
    }

    /// A command has its result: where it is Ok, the image of its open is there.
    fn end_command(&mut self, ok: bool)
        ensures { self.new ≡ with_fetched_image self.old ok self.old.asked }
    {
        let asked = self.asked.take();
        if let Some(image) = asked
            && ok
        {
            self.bytes = self.bytes.saturating_add(u64::from(image.len()));
        }
    }

    fn lines(&self, alloc: Global, status: u8) -> Result<Text, NoMemory>
        ensures { IfOk result (λ text. text ≡ tally_text self.now status) }
    {
        let mut text = Vec::new(alloc);
        put_line(alloc, b"images ", u64::from(self.images), &mut text)?;
        put_line(alloc, b"bytes ", self.bytes, &mut text)?;
        put_line(alloc, b"records ", self.records, &mut text)?;
        put_line(alloc, b"frames ", self.frames, &mut text)?;
        put_line(alloc, b"tries ", self.tries, &mut text)?;
        put_line(alloc, b"status ", u64::from(status), &mut text)?;
        Ok(Text::from_vec(text))
    }
}

fn put_line(alloc: Global, name: &[u8], number: u64, text: &mut Vec<u8>) -> Result<(), NoMemory>
    ensures { OnOk result (text.new.items ≡ text.old.items ++ summary_line name.now number) }
{
    text.extend_from_slice(name)?;
    let number = format!(in alloc; "{number}\n")?;
    text.extend_from_slice(number.as_bytes())?;
    Ok(())
}
