// The program `netboot`: reads its words, makes the one call over files or a connection and over standard output, says to
// standard error why a run could not be made, and ends with the run's status. Begin with `main`; `RealLine` is the trusted
// edge.
#![tactic(auto)]

ghost use Rattle.std.specs.Prelude.{◌↔◌, map};
ghost use Rattle.std.specs.String.{string_bytes};
ghost use Rattle.nb_boot.specs.Complete.{IsBadWords};
ghost use Rattle.nb_labrun.specs.Words.{AreProgramWords};

mod attached;
mod fault;
mod limit;
mod messages;
mod printer;
mod real_line;
mod trail;
mod words;

use fault::Part;
use messages::{HELP, VERSION, explain};
use nb_boot::Status;
use nb_labrun::call;
use nb_record::NoMemory;
use printer::Printer;
use real_line::RealLine;
use std::fs::Files;
use std::net::Net;
use std::process::ExitCode;
use trail::Place;
use words::words;

/// The text that a single word asks for.
fn asked(words: &[String]) -> Option<&'static str> {
    match words {
        [word] if word.as_str() == "--help" => Some(HELP),
        [word] if word.as_str() == "--version" => Some(VERSION),
        _ => None,
    }
}

/// The part of a line that the word at a place, from 0, is the name of.
fn named_part(place: usize) -> Part {
    if place == 2 {
        Part::Output
    } else {
        Part::Input
    }
}

/// Makes the one call with these words, and says how that went. Nothing can be attached where the name of a part isn't UTF-8.
fn run<R: Files + Net + Print + Eprint + AllocGlobal>(
    rt: &R,
    words: &[String],
    not_utf8: Option<Part>,
) -> Status
    ensures { IsBadWords result ↔ (AreProgramWords (map string_bytes words.now) → ⊥) }
{
    let mut line = RealLine::new(rt, not_utf8);
    let mut printed = Printer::new(rt);
    let status = call(rt.alloc(), words, &mut line, &mut printed);
    line.drain();
    let fault = line.fault().or(printed.fault());
    explain(rt, status, words, fault, refused(status, &line));
    status
}

/// The record that was refused, where one was.
fn refused<R: Files + Net + AllocGlobal>(status: Status, line: &RealLine<'_, R>) -> Option<Place> {
    if status != Status::BadRecord {
        return None;
    }
    line.refused()
}

/// Prints a text, and says how that went.
fn print<R: Print>(rt: &R, text: &str) -> ExitCode {
    match rt.println(text) {
        Ok(()) => ExitCode::SUCCESS,
        Err(_) => ExitCode::from(Status::WriteFault.number()),
    }
}

fn main(rt: HostRuntime) -> ExitCode {
    let words = match words(&rt) {
        Ok(words) => words,
        Err(NoMemory) => {
            explain(&rt, Status::NoMemory, &[], None, None);
            return ExitCode::from(Status::NoMemory.number());
        }
    };
    let texts = words.texts.as_slice();
    match asked(texts) {
        Some(text) => print(&rt, text),
        None => ExitCode::from(run(&rt, texts, words.not_utf8.map(named_part)).number()),
    }
}
