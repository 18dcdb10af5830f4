// Tests of what reads and writes texts and records, by public calls: numerals, URIs, scripts, settings, expansion,
// commands, images and their commands, and the records of a run. A crate with tests is proved twice, so they stand
// in a crate that has nothing else: what is proved here is that each test keeps to the contracts of what it calls.
// Each module is named for the crate that it tests.
#![tactic(auto)]

#[cfg(test)]
mod command;
#[cfg(test)]
mod expand;
#[cfg(test)]
mod image;
#[cfg(test)]
mod imagecmd;
#[cfg(test)]
mod numerals;
#[cfg(test)]
mod record;
#[cfg(test)]
mod script;
#[cfg(test)]
mod scripts;
#[cfg(test)]
mod settings;
#[cfg(test)]
mod uri;
