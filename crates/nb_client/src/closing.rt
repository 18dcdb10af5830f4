ghost use Rattle.std.specs.Prelude.{◌≡◌, ◌-◌, ◌<◌, ◌^◌, [], ◌∷◌, Some, IfOk, OnErr, OnOk};
ghost use Rattle.nb_chains.specs.declared.chain.Chain.{Chain as TheChain};
ghost use Rattle.nb_defs.specs.Records.{off};
ghost use Rattle.nb_network.specs.Many.{AreSound, WaitsBeside};
ghost use Rattle.nb_open.specs.Begins.{waiting_pieces};
ghost use Rattle.nb_machine.specs.Running.{Running};
ghost use Rattle.nb_runner.specs.NextCommand.{IsReady};
ghost use Rattle.nb_runner.specs.StatusNumber.{status_number};
ghost use Rattle.nb_runner.specs.declared.command.Deed.TheVariants as deed;
ghost use Rattle.nb_runner.specs.declared.world.World.{World as TheWorld};
ghost use Rattle.nb_client.specs.Closings.{ClosesDown, IsWaitingAt, ShutsAll};
ghost use Rattle.nb_client.specs.Progressing.{AwaitsRecord, FinishesBy};
ghost use Rattle.nb_client.specs.Snapshots.{snapshot};
ghost use Rattle.nb_client.specs.Soundness.{IsSound, snapshot_at};
ghost use Rattle.nb_client.specs.Turning.{GoesOnBy, IsCarriedOutBy, MovesOn};
ghost use Rattle.nb_client.specs.declared.stage.Stage.TheVariants as stage;

use crate::asking::kind_onward;
use crate::opening::kind_beside;
use crate::site::{Site, lent_log};
use crate::{Expected, Stage};
use nb_chains::{Chain, ChainKind};
use nb_record::{Log, NoMemory, OutRec};
use nb_runner::{RunningScript, Status};
use nb_teller::{lent, put_result, put_step};
use nb_terms::Plain;
use nb_wire::Word;

/// What waits for an open: its kind, and beside which open.
#[derive(Clone, Copy)]
pub struct WaitingChain {
    kind: ChainKind,
    chain: Option<Chain>,
    beside: u16,
}

/// Nothing waits.
const NOTHING: WaitingChain = WaitingChain {
    kind: ChainKind::File,
    chain: None,
    beside: 0,
};

/// What waits where the run stands so. Beside no open that lives, where the look-up has ended.
fn waiting_at(stage: &Stage) -> WaitingChain
    ensures { IsWaitingAt stage.now result }
{
    match stage {
        Stage::Waiting(_, Expected::Open(pending)) => {
            let pending = pending.get();
            WaitingChain {
                kind: kind_beside(&pending.asked),
                chain: pending.waits,
                beside: pending.number,
            }
        }
        Stage::Reaching(_, next) => WaitingChain {
            kind: kind_onward(next.onward()),
            chain: next.waits(),
            beside: u16::MAX,
        },
        Stage::Ready
        | Stage::Running(_)
        | Stage::Waiting(_, Expected::Moment(_))
        | Stage::Yielded(_)
        | Stage::Returning(..)
        | Stage::HandingOff(_)
        | Stage::Left(_)
        | Stage::HandedOff
        | Stage::Stopped => NOTHING,
    }
}

impl Site {
    /// The power is switched off: all that lives is closed, and the command that waits gives no result.
    #[inline(never)]
    pub(crate) fn switch_off(&mut self, stage: &Stage, log: &mut Log) -> Result<Stage, NoMemory>
        requires waits { AwaitsRecord stage.now }
        requires few { self.old.used < 2 ^ 32 - 1 }
        requires sound { IsSound self.old.used self.old.world self.old.opens stage.now }
        ensures goes { IfOk result (λ st. GoesOnBy (off ∷ []) (snapshot_at self.old stage.now) (snapshot_at self.new st) log.old log.new) }
        ensures nothing { OnErr result (log.new ≡ log.old) }
    {
        let mut out = lent_log(self.alloc, self.gathered.take())?;
        self.used += 1;
        put_step(self.used, &mut out);
        let waiting = waiting_at(stage);
        self.shut_down(waiting.kind, waiting.chain, waiting.beside, &mut out)?;
        self.put_gathered(out, log)?;
        Ok(Stage::Stopped)
    }

    /// The run ends: all that lives is closed, and this status is put.
    pub(crate) fn end(&mut self, at: &Stage, status: Status, log: &mut Log) -> Result<(), NoMemory>
        requires { IsSound self.old.used self.old.world self.old.opens at.now }
        ensures sound { OnOk result (IsSound self.new.used self.new.world self.new.opens stage.Stopped) }
        ensures finishes { OnOk result (FinishesBy (status_number status) (snapshot_at self.old at.now) log.old log.new) }
        ensures nothing { OnErr result (log.new ≡ log.old) }
    {
        let mut out = lent_log(self.alloc, self.gathered.take())?;
        let waiting = waiting_at(at);
        self.shut_down(waiting.kind, waiting.chain, waiting.beside, &mut out)?;
        out.put(&OutRec::Done(status.number()));
        self.put_gathered(out, log)
    }

    /// Closes all that lives since the run stops or hands off, and what waits, of this kind, beside the open of that number.
    pub(crate) fn shut_down(
        &mut self,
        kind: ChainKind,
        waits: Option<Chain>,
        beside: u16,
        out: &mut Log,
    ) -> Result<(), NoMemory>
        requires sound { AreSound self.old.world.w self.old.world.opens self.old.world.net self.old.opens }
        requires waits { (c : TheChain) → waits ≡ Some c → WaitsBeside kind c self.old.opens }
        ensures used { OnOk result (self.new.used ≡ self.old.used) }
        ensures shuts { OnOk result (ShutsAll (waiting_pieces kind waits) [] self.old self.new out.old out.new) }
    {
        let desk = lent(self.alloc, self.desk.take())?;
        let (now, stopped, net) = (self.world.time, Plain::Stopped.cause(), &mut self.world.net);
        let desk = self
            .opens
            .shut_all(net, waits, kind, beside, &stopped, now, desk, out)?;
        self.desk = Some(desk);
        self.forget_ended();
        Ok(())
    }

    /// `ifclose`: the device went down, and all that lives is closed.
    pub(crate) fn close_device(
        &mut self,
        mut script: RunningScript,
        words: &[Word],
        log: &mut Log,
    ) -> Result<Stage, NoMemory>
        requires sound { IsSound self.old.used self.old.world self.old.opens (stage.Running script) }
        requires words { IsReady script words.now }
        ensures moves { IfOk result (λ st. (w : TheWorld) → IsCarriedOutBy w deed.Shuts script words.now self.old.world
            → MovesOn (snapshot self.old.used w self.old.opens (stage.Running script)) (snapshot_at self.new st) log.old log.new) }
        ensures nothing { OnErr result (log.new ≡ log.old) }
    {
        let mut out = lent_log(self.alloc, self.gathered.take())?;
        script.put_begun(true, words, &mut out);
        self.close_all(&mut out)?;
        put_result(Plain::Ok.cause(), &mut out);
        self.put_gathered(out, log)?;
        script.enter();
        script.end_with(Plain::Ok.cause());
        Ok(Stage::Running(script))
    }

    /// Closes all that lives, since the device went down: the drives first, by rising number.
    fn close_all(&mut self, out: &mut Log) -> Result<(), NoMemory>
        requires { (s : Running) × IsSound self.old.used self.old.world self.old.opens (stage.Running s) }
        ensures used { OnOk result (self.new.used ≡ self.old.used) }
        ensures closes { OnOk result (ClosesDown self.old self.new out.old out.new) }
    {
        let down = Plain::Down.cause();
        self.close_drives(&down, out)?;
        let desk = lent(self.alloc, self.desk.take())?;
        let (now, net) = (self.world.time, &mut self.world.net);
        let desk = self.opens.close_all(net, &down, now, desk, out)?;
        self.desk = Some(desk);
        self.forget_ended();
        Ok(())
    }
}
