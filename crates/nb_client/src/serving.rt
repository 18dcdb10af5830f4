ghost use Rattle.std.specs.Prelude.{◌≡◌, ◌+◌, ◌-◌, ◌<◌, ◌^◌, IfOk, OnErr};
ghost use Rattle.nb_defs.specs.Records.{IsFrameRecord, IsIn, IsTick};
ghost use Rattle.nb_defs.specs.Records as defs;
ghost use Rattle.nb_record.specs.View.{in_of};
ghost use Rattle.nb_client.specs.Serving.{Serves};
ghost use Rattle.nb_client.specs.Soundness.{IsSound};
ghost use Rattle.nb_client.specs.Turning.{IsServed};
ghost use Rattle.nb_client.specs.declared.stage.Stage.{Stage as TheStage};

use crate::site::Site;
use nb_network::KeptEnd;
use nb_record::{InRec, Log, NoMemory};
use nb_teller::lent;

impl Site {
    /// A frame or a time is used: what it brings the opens that live, and the device. Returns the open of the number that is
    /// awaited, where it has ended. Where memory runs out nothing is put.
    #[inline(always)]
    pub(crate) fn serve(
        &mut self,
        entry: &InRec<'_>,
        awaited: Option<u16>,
        log: &mut Log,
    ) -> Result<Option<KeptEnd>, NoMemory>
        requires valid { IsIn (in_of entry.now) }
        requires served { IsServed (in_of entry.now) }
        requires few { self.old.used < 2 ^ 32 - 1 }
        requires sound { (st : TheStage) × IsSound self.old.used self.old.world self.old.opens st }
        ensures serves { IfOk result (λ e. Serves (in_of entry.now) awaited e self.old self.new log.old log.new) }
        ensures nothing { OnErr result (log.new ≡ log.old) }
    {
        match entry {
            InRec::Frame(bytes) => self.serve_frame(bytes, awaited, log),
            InRec::Tick(ms) => self.serve_tick(*ms, awaited, log),
            InRec::Start(_) | InRec::Off => unreachable!(),
        }
    }

    /// A frame is used.
    #[inline(always)]
    fn serve_frame(
        &mut self,
        bytes: &[u8],
        awaited: Option<u16>,
        log: &mut Log,
    ) -> Result<Option<KeptEnd>, NoMemory>
        requires valid { IsFrameRecord bytes.now }
        requires few { self.old.used < 2 ^ 32 - 1 }
        requires sound { (st : TheStage) × IsSound self.old.used self.old.world self.old.opens st }
        ensures serves { IfOk result (λ e. Serves (defs.frame bytes.now) awaited e self.old self.new log.old log.new) }
        ensures nothing { OnErr result (log.new ≡ log.old) }
    {
        let desk = lent(self.alloc, self.desk.take())?;
        self.used += 1;
        let (rec, now, net) = (self.used, self.world.time, &mut self.world.net);
        let (ended, desk) = self
            .opens
            .take_frame(self.alloc, net, rec, now, bytes, awaited, desk, log)?;
        self.desk = Some(desk);
        self.forget_ended();
        Ok(ended)
    }

    /// So many milliseconds pass.
    #[inline(never)]
    fn serve_tick(
        &mut self,
        ms: u16,
        awaited: Option<u16>,
        log: &mut Log,
    ) -> Result<Option<KeptEnd>, NoMemory>
        requires valid { IsTick ms }
        requires few { self.old.used < 2 ^ 32 - 1 }
        requires sound { (st : TheStage) × IsSound self.old.used self.old.world self.old.opens st }
        ensures serves { IfOk result (λ e. Serves (defs.tick ms) awaited e self.old self.new log.old log.new) }
        ensures nothing { OnErr result (log.new ≡ log.old) }
    {
        let desk = lent(self.alloc, self.desk.take())?;
        self.used += 1;
        self.world.time += u64::from(ms);
        let (rec, now, net) = (self.used, self.world.time, &mut self.world.net);
        let (ended, desk) = self
            .opens
            .pass_time(self.alloc, net, rec, ms, now, awaited, desk, log)?;
        self.desk = Some(desk);
        self.forget_ended();
        Ok(ended)
    }
}
