ghost use Rattle.std.specs.Prelude.{IfSome};
ghost use Rattle.nb_client.specs.Progressing.{ComesNearer, HandsNext, HasNextPiece, PassesPiece};
ghost use Rattle.nb_client.specs.Soundness.{IsSound, snapshot_at};
ghost use Rattle.nb_client.specs.Turning.{MovesOn};
ghost use Rattle.nb_client.specs.declared.client.Turn.TheVariants as turn;
ghost use Rattle.nb_client.specs.declared.stage.Stage.TheVariants as stage;

use crate::site::Site;
use crate::{Client, Stage};
use nb_record::Log;
use nb_runner::{Handing, PieceRecord};

impl Client {
    /// The record of the hand-off's next piece. None where no hand-off is under way, or all was put.
    pub fn next_piece(&self) -> Option<PieceRecord<'_>>
        ensures { IfSome result (λ p. HandsNext p self.now) }
    {
        match &self.stage {
            Stage::HandingOff(handing) => handing.next_piece(&self.site.world.state.images),
            _ => None,
        }
    }

    /// Goes on as `more` does, where the record of the next piece was put by the caller.
    pub fn pass_piece(&mut self)
        requires { HasNextPiece self.old }
        ensures does { PassesPiece self.old self.new }
        ensures nearer { ComesNearer turn.More self.old self.new }
    {
        let Stage::HandingOff(handing) = &mut self.stage else {
            unreachable!()
        };
        handing.pass_piece(&self.site.world.state.images);
    }
}

impl Site {
    /// Puts the next piece of the hand-off.
    pub(crate) fn hand_on(&self, mut handing: Handing, log: &mut Log) -> Stage
        requires { IsSound self.now.used self.now.world self.now.opens (stage.HandingOff handing) }
        ensures { MovesOn (snapshot_at self.now (stage.HandingOff handing)) (snapshot_at self.now result) log.old log.new }
    {
        if handing.put_piece(&self.world.state.images, log) {
            Stage::HandingOff(handing)
        } else {
            Stage::HandedOff
        }
    }
}
