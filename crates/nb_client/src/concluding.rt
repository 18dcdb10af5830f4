ghost use Rattle.std.specs.Prelude.{◌≡◌, ◌<◌, ◌≤◌, ℕ, List, [], ◌∷◌, Option, None, Some, All, length, map, unwrap_or, IfOk, OnOk};
ghost use Rattle.std.specs.Option.{option_copied};
ghost use Rattle.nb_defs.specs.Causes.{ok};
ghost use Rattle.nb_defs.specs.Records.{out_texts};
ghost use Rattle.nb_defs.specs.Records as defs;
ghost use Rattle.nb_record.specs.Logged.{Puts};
ghost use Rattle.nb_machine.specs.Running.{with_result};
ghost use Rattle.nb_network.specs.Many.{AreSound};
ghost use Rattle.nb_image.specs.Images.{ImageList};
ghost use Rattle.nb_imagecmd.specs.Promises.{HasShortNames, IsShortLine};
ghost use Rattle.nb_machine.specs.Conclusions.{arrival_conclusion, conclusion};
ghost use Rattle.nb_network.specs.declared.over.HasEnded.{HasEnded as TheEnd};
ghost use Rattle.nb_runner.specs.CommandWords.{IsAskedWell};
ghost use Rattle.nb_runner.specs.ImageDeeds.{IsConcludedWell, MayFollow, conclusion_of};
ghost use Rattle.nb_client.specs.Closings.{ShutsAll};
ghost use Rattle.nb_client.specs.Concluding.{ArrivesWell, IsBootTable, handing_of, moved_place};
ghost use Rattle.nb_client.specs.Leading.{LeadsOnBy};
ghost use Rattle.nb_client.specs.Drives.{drive_hooked_by};
ghost use Rattle.nb_client.specs.Serving.{Concludes, ConcludesEnd, FitsAnswer, IsFittingAnswer, asks_still, hook_failure};
ghost use Rattle.nb_client.specs.Soundness.{IsSound, IsSoundBut, snapshot_at};
ghost use Rattle.nb_client.specs.declared.pending.Pending.{Pending as ThePending};
ghost use Rattle.nb_client.specs.declared.asked.Asked.TheVariants as asked;
ghost use Rattle.nb_client.specs.declared.stage.Stage.TheVariants as stage;

use crate::opening::kind_beside;
use crate::site::Site;
use crate::{Answer, Asked, AskedDisk, KeptNext, Next, Pending, Stage};
use nb_chains::ChainKind;
use nb_drivecmd::{AfterHook, Drive, Hooking};
use nb_image::{Body, Images};
use nb_imagecmd::{Arrival, Asking, ImageFailure, arrive};
use nb_network::HasEnded;
use nb_record::{Cause, Log, NoMemory, OutRec};
use nb_runner::{Booted, Conclusion, Following, Handing, RunningScript, Wanted, selected};
use nb_teller::put_result;
use nb_terms::Plain;
use nb_wire::Text;
use std::alloc::Global;

/// What comes of a file that has come.
fn arrived(arrival: Arrival, images: &Images) -> Conclusion
    ensures same { conclusion_of result images.now ≡ arrival_conclusion arrival images.now }
    ensures well { (depth : ℕ) (before : ImageList) → ArrivesWell depth arrival images.now → HasShortNames images.now
        → IsConcludedWell result depth before images.now }
{
    match arrival {
        Arrival::Kept => Conclusion::Keeps,
        Arrival::Run { script, replace } => Conclusion::Runs { script, replace },
        Arrival::Boot => Conclusion::Boots(selected(images)),
    }
}

/// What comes of a file whose open has ended, for a command of a script of this depth. A command that fails leaves the list of
/// images as it is.
fn conclude(
    alloc: Global,
    images: &mut Images,
    asking: &Asking,
    body: Body,
    cause: Cause,
    depth: usize,
) -> Result<Conclusion, NoMemory>
    requires fits { IsAskedWell asking.now }
    requires may { MayFollow images.old }
    ensures same { IfOk result (λ c. conclusion cause asking.now body depth images.old ≡ conclusion_of c images.new) }
    ensures well { IfOk result (λ c. IsConcludedWell c depth images.old images.new) }
{
    if cause.code != 0 {
        return Ok(Conclusion::Fails(cause));
    }
    // The hand-off rests on it that no image is longer than a body can be.
    let _len = body.len();
    match arrive(alloc, images, asking, body, asking.target.whole(), depth) {
        Ok(arrival) => Ok(arrived(arrival, images)),
        Err(ImageFailure::NoMemory) => Err(NoMemory),
        Err(why) => Ok(Conclusion::Fails(why.cause())),
    }
}

/// The file that an open has fetched; an empty one where it has none.
fn file_of(alloc: Global, body: Option<Body>) -> Body
    ensures { result ≡ unwrap_or body [] }
{
    match body {
        Some(body) => body,
        None => Body::new(alloc),
    }
}

/// The place to which the file was moved whose open has ended so, if it was.
fn moved_place(ended: &HasEnded) -> Option<&Text>
    ensures { option_copied result ≡ moved_place ended.now }
{
    if ended.cause.code != 0 {
        return None;
    }
    ended.moved.as_ref()
}

/// Why a disk isn't hooked that has answered so; where it is, None. One that is to be booted has to live on.
fn failure_of(answer: Answer, after: AfterHook) -> Option<Cause>
    ensures { result ≡ hook_failure after answer }
{
    match answer {
        Answer::Drive => None,
        Answer::End(ended) => {
            let ended = ended.into_inner();
            match after {
                AfterHook::Keep if ended.answered => None,
                AfterHook::Keep | AfterHook::Boot { .. } => Some(ended.cause),
            }
        }
    }
}

/// The drive as which a disk is hooked by this open.
fn drive_by(hooking: &Hooking, open_number: u16) -> Drive
    ensures { result ≡ drive_hooked_by hooking.now open_number }
{
    Drive {
        number: hooking.number,
        described: hooking.described,
        open_number,
    }
}

/// Puts these lines.
fn put_lines(lines: &[Text], out: &mut Log)
    requires { All IsShortLine lines.now }
    ensures { Puts out.old out.new (out_texts (map defs.text lines.now)) }
{
    for line in lines {
        out.put(&OutRec::Text(line.as_slice()));
    }
}

/// The script's command has this result, and the script goes on.
pub(crate) fn go_on_with(mut script: RunningScript, cause: Cause, out: &mut Log) -> Stage
    ensures stage { result ≡ stage.Running (with_result script cause) }
    ensures puts { Puts out.old out.new (out_texts (defs.result cause ∷ [])) }
{
    put_result(cause, out);
    script.end_with(cause);
    Stage::Running(script)
}

impl Site {
    /// What the script's command has waited for has come: puts what comes of that. Where memory runs out, what was
    /// put counts for nothing.
    #[inline(never)]
    pub(crate) fn conclude(
        &mut self,
        script: RunningScript,
        pending: Pending,
        answer: Answer,
        out: &mut Log,
    ) -> Result<Stage, NoMemory>
        requires sound { IsSoundBut (asks_still answer pending.asked pending.number) self.old.used self.old.world self.old.opens }
        requires well { IsFittingAnswer answer pending self.old }
        ensures { IfOk result (λ st. Concludes pending answer script self.old (snapshot_at self.new st) out.old out.new) }
    {
        let Pending {
            number,
            asked,
            waits,
        } = pending;
        let kind = kind_beside(&asked);
        match (asked, answer) {
            (Asked::File(wanted), Answer::End(ended)) => {
                self.take_file(script, wanted, ended.into_inner(), out)
            }
            (Asked::Query(query), Answer::End(ended)) => {
                self.take_found(script, query, kind, waits, ended.into_inner(), out)
            }
            (Asked::Disk(disk), answer) => self.take_drive(script, number, &disk, answer, out),
            (Asked::Block(drive), answer) => self.take_block(script, number, drive, answer, out),
            (Asked::File(_) | Asked::Query(_), Answer::Drive) => unreachable!(),
        }
    }

    /// A disk has answered, and is hooked, or asked for its first block before; or its open has ended before that.
    fn take_drive(
        &mut self,
        script: RunningScript,
        number: u16,
        disk: &AskedDisk,
        answer: Answer,
        out: &mut Log,
    ) -> Result<Stage, NoMemory>
        requires sound { IsSound self.old.used self.old.world self.old.opens (stage.Running script) }
        requires room { length self.old.world.state.drives < 2 }
        requires fits { FitsAnswer answer (asked.Disk disk.now) number self.old.opens }
        ensures { IfOk result (λ st. (p : ThePending) → p.asked ≡ asked.Disk disk.now → p.number ≡ number → p.waits ≡ None
            → Concludes p answer script self.old (snapshot_at self.new st) out.old out.new) }
    {
        if let Some(cause) = failure_of(answer, disk.hooking.after) {
            return Ok(go_on_with(script, cause, out));
        }
        let drive = drive_by(&disk.hooking, number);
        match disk.hooking.after {
            AfterHook::Keep => {
                self.hook(drive);
                Ok(go_on_with(script, Plain::Ok.cause(), out))
            }
            AfterHook::Boot { .. } => self.ask_block(script, number, Some(drive), out),
        }
    }

    /// What comes of a file whose open has ended.
    fn take_file(
        &mut self,
        script: RunningScript,
        wanted: Wanted,
        ended: HasEnded,
        out: &mut Log,
    ) -> Result<Stage, NoMemory>
        requires sound { IsSound self.old.used self.old.world self.old.opens (stage.Running script) }
        requires fits { IsAskedWell wanted.asking }
        ensures { IfOk result (λ st. (p : ThePending) → p.asked ≡ asked.File wanted → p.waits ≡ None
            → ConcludesEnd p ended script self.old (snapshot_at self.new st) out.old out.new) }
    {
        match moved_place(&ended) {
            Some(text) => self.follow_move(script, wanted, text.as_slice(), out),
            None => self.take_body(script, &wanted, ended, out),
        }
    }

    /// The file has come, or its open has failed.
    fn take_body(
        &mut self,
        script: RunningScript,
        wanted: &Wanted,
        ended: HasEnded,
        out: &mut Log,
    ) -> Result<Stage, NoMemory>
        requires sound { IsSound self.old.used self.old.world self.old.opens (stage.Running script) }
        requires fits { IsAskedWell wanted.now.asking }
        requires stays { moved_place ended ≡ None }
        ensures { IfOk result (λ st. (p : ThePending) → p.asked ≡ asked.File wanted.now → p.waits ≡ None
            → ConcludesEnd p ended script self.old (snapshot_at self.new st) out.old out.new) }
    {
        let body = file_of(self.alloc, ended.body);
        let depth = usize::from(script.depth());
        let images = &mut self.world.state.images;
        let conclusion = conclude(self.alloc, images, &wanted.asking, body, ended.cause, depth)?;
        self.lead(script, conclusion, out)
    }

    /// The server has moved the file: it is asked for where this text says, or the command is over.
    fn follow_move(
        &mut self,
        script: RunningScript,
        wanted: Wanted,
        text: &[u8],
        out: &mut Log,
    ) -> Result<Stage, NoMemory>
        requires sound { IsSound self.old.used self.old.world self.old.opens (stage.Running script) }
        requires fits { IsAskedWell wanted.asking }
        ensures { IfOk result (λ st. (p : ThePending) (e : TheEnd) → p.asked ≡ asked.File wanted → p.waits ≡ None
            → moved_place e ≡ Some text.now → ConcludesEnd p e script self.old (snapshot_at self.new st) out.old out.new) }
    {
        match self.world.move_file(self.alloc, wanted.asking, text)? {
            Following::Over(cause) => Ok(go_on_with(script, cause, out)),
            Following::Next(onward) => {
                let waits = None;
                let next = KeptNext::of(self.alloc, Next { onward, waits })?;
                Ok(Stage::Reaching(script, next))
            }
        }
    }

    /// What comes of a command on images, whose COMMAND was put: puts its records, and leads on from there. Where memory runs
    /// out, what was put counts for nothing.
    pub(crate) fn lead(
        &mut self,
        script: RunningScript,
        conclusion: Conclusion,
        out: &mut Log,
    ) -> Result<Stage, NoMemory>
        requires sound { IsSound self.old.used self.old.world self.old.opens (stage.Running script) }
        requires well { (before : ImageList) × IsConcludedWell conclusion script.depth before self.old.world.state.images }
        ensures { IfOk result (λ st. LeadsOnBy script conclusion self.old (snapshot_at self.new st) out.old out.new) }
    {
        match conclusion {
            Conclusion::Keeps => Ok(go_on_with(script, Plain::Ok.cause(), out)),
            Conclusion::Tells(lines) => {
                put_lines(lines.as_slice(), out);
                Ok(go_on_with(script, Plain::Ok.cause(), out))
            }
            Conclusion::Fails(cause) => Ok(go_on_with(script, cause, out)),
            Conclusion::Boots(kernel) => self.begin_handing(Booted::Image(kernel), out),
            Conclusion::Runs {
                script: image,
                replace,
            } => self.run(script, image, replace, out),
        }
    }

    /// This is to be handed off: all that lives is closed first.
    pub(crate) fn begin_handing(&mut self, booted: Booted, out: &mut Log) -> Result<Stage, NoMemory>
        requires { AreSound self.old.world.w self.old.world.opens self.old.world.net self.old.opens }
        ensures stage { IfOk result (λ st. (table : Option (List ℕ)) × (st ≡ stage.HandingOff (handing_of booted table)) × IsBootTable self.old table) }
        ensures used { OnOk result (self.new.used ≡ self.old.used) }
        ensures shuts { OnOk result (ShutsAll [] (defs.result ok ∷ []) self.old self.new out.old out.new) }
    {
        put_result(Plain::Ok.cause(), out);
        let table = self.boot_table()?;
        self.shut_down(ChainKind::File, None, 0, out)?;
        Ok(Stage::HandingOff(Handing::of(booted, table)))
    }
}
