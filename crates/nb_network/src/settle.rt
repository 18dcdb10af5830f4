ghost use Rattle.std.specs.Prelude.{◌≡◌, ◌<◌, ℕ, List, ◌∷◌, ◌++◌, [], length, option_copied, Some, IfOk, OnErr};
ghost use Rattle.nb_defs.specs.Records.{out_texts, ended};
ghost use Rattle.nb_network.specs.Drives.{news_of};
ghost use Rattle.nb_network.specs.Steps.{EndIsPut, EndIsSettled, IsOpenAt, answer_for, freed_of, step_records};
ghost use Rattle.nb_open.specs.DriveAnswers.{found_bytes};
ghost use Rattle.nb_network.specs.declared.living.Living.{Living as TheLiving};
ghost use Rattle.nb_record.specs.Logged.{Puts};

use crate::living::BlocksAsked;
use crate::{HasEnded, KeptEnd, Living, Opens};
use nb_open::{Ended, KeptEnded, OpenObjects};
use nb_record::Log;
use nb_runner::copy;
use nb_stack::Stack;
use nb_teller::{Desk, Spelled, put_over, put_step, put_told};
use nb_terms::NoMemory;
use nb_wire::Text;
use std::alloc::Global;

impl Opens {
    /// Puts what was told of the open at this place, of which this is asked or else that is noted, after the STEP of this
    /// record, if it begins one. Where the open has ended, its end is put too, it is taken from the list, and its port is
    /// freed. Returns what it has found, if it is awaited.
    #[inline(always)]
    pub(crate) fn settle(
        &mut self,
        alloc: Global,
        net: &mut Stack,
        place: usize,
        begun: Option<u32>,
        ended: Option<KeptEnded>,
        awaited: Option<u16>,
        asked: Option<BlocksAsked>,
        desk: &Desk,
        log: &mut Log,
    ) -> Result<Option<KeptEnd>, NoMemory>
        requires place { place < length self.old.list }
        ensures graph { self.new.graph ≡ self.old.graph }
        ensures settles { IfOk result (λ answer. (o : TheLiving) → (at : IsOpenAt self.old.list place o) → EndIsSettled ended at.before o at.behind
            net.old begun awaited (news_of asked desk.now.told.value) desk.now.told.value self.new.list net.new answer log.old log.new) }
        ensures nothing { OnErr result (log.new ≡ log.old) }
        ensures mac { net.new.mac ≡ net.old.mac }
        ensures address { net.new.address ≡ net.old.address }
        ensures up { net.new.up ≡ net.old.up }
    {
        self.list[place].note(alloc, asked, &desk.told)?;
        match ended {
            Some(ended) => self.end(alloc, net, place, begun, ended, awaited, desk, log),
            None => {
                put_begin(begun, log);
                put_told(&desk.told, log);
                Ok(None)
            }
        }
    }

    /// The open at this place has ended.
    #[inline(never)]
    fn end(
        &mut self,
        alloc: Global,
        net: &mut Stack,
        place: usize,
        begun: Option<u32>,
        ended: KeptEnded,
        awaited: Option<u16>,
        desk: &Desk,
        log: &mut Log,
    ) -> Result<Option<KeptEnd>, NoMemory>
        requires place { place < length self.old.list }
        ensures graph { self.new.graph ≡ self.old.graph }
        ensures settles { IfOk result (λ answer. (o : TheLiving) → (at : IsOpenAt self.old.list place o) → EndIsPut ended at.before o
            at.behind net.old begun awaited desk.now.told.value self.new.list net.new answer log.old log.new) }
        ensures nothing { OnErr result (log.new ≡ log.old) }
        ensures mac { net.new.mac ≡ net.old.mac }
        ensures address { net.new.address ≡ net.old.address }
        ensures up { net.new.up ≡ net.old.up }
    {
        let why = ended.cause();
        let open = self.list[place].bare();
        let answer = found_by(alloc, awaited, &self.list[place], ended, &desk.told)?;
        self.list.remove(place);
        net.unbind(open.speaker.carrier.number(), open.speaker.own_port);
        put_begin(begun, log);
        put_told(&desk.told, log);
        put_over(open.speaker.number, why, log);
        Ok(answer)
    }
}

/// Puts that a step begins, if this is its number.
#[inline(always)]
fn put_begin(begun: Option<u32>, log: &mut Log)
    ensures { Puts log.old log.new (out_texts (step_records begun)) }
{
    if let Some(rec) = begun {
        put_step(rec, log);
    }
}

/// What an open has found that has ended, where it is awaited.
fn found_by(
    alloc: Global,
    awaited: Option<u16>,
    finished: &Living,
    ended: KeptEnded,
    told: &Spelled,
) -> Result<Option<KeptEnd>, NoMemory>
    ensures { IfOk result (λ answer. answer ≡ answer_for awaited finished.now ended told.now) }
{
    let number = finished.speaker.number;
    match awaited {
        Some(k) if number == k => {
            let Ended { cause, body, moved } = ended.into_inner();
            let bytes = copied(alloc, bytes_of(finished, told))?;
            let address = told.address();
            let found = HasEnded {
                number,
                cause,
                body,
                moved,
                bytes,
                address,
                answered: finished.has_answered(),
                read: copied(alloc, finished.read())?,
            };
            let kept = KeptEnd::of(alloc, found)?;
            Ok(Some(kept))
        }
        _ => Ok(None),
    }
}

/// What was delivered as one message; of a drive none is.
fn bytes_of<'a>(finished: &Living, told: &'a Spelled) -> Option<&'a Text>
    ensures { option_copied result ≡ found_bytes finished.now.objects told.now.bytes }
{
    match finished.objects {
        OpenObjects::Chain { .. } | OpenObjects::Web { .. } => told.bytes(),
        OpenObjects::Drive { .. } => None,
    }
}

/// A copy of these bytes, if there are any.
fn copied(alloc: Global, bytes: Option<&Text>) -> Result<Option<Text>, NoMemory>
    ensures { IfOk result (λ copy. copy ≡ option_copied bytes.entry) }
{
    match bytes {
        Some(text) => Ok(Some(copy(alloc, text.as_slice())?)),
        None => Ok(None),
    }
}
