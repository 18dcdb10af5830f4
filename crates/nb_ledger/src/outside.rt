ghost use Rattle.std.specs.Prelude.{List, [], ◌∷◌, ◌++◌};
ghost use Rattle.nb_terms.specs.declared.event.Event.{Event};
ghost use Rattle.nb_ledger.specs.Flat.{Given, Heard};
ghost use Rattle.nb_ledger.specs.Flat as notice;

use crate::{Msg, Port};
use nb_terms::Event;

/// What lies outside a graph: it is given each event, and each message that leaves an open port
/// without a link.
pub trait Outside {
    /// What is known of what it was given so far.
    ghost events: { Self → Heard };

    /// Gives an event.
    fn event(&mut self, e: &Event)
        ensures given { Given (events self.old) (events self.new) (notice.event e.now ∷ []) };

    /// Gives a message that leaves by `from`.
    fn send(&mut self, from: Port, msg: &Msg<'_>)
        ensures given { Given (events self.old) (events self.new) (notice.message from msg.now.tag
            msg.now.rec msg.now.a msg.now.b (msg.now.first.now ++ msg.now.second.now) ∷ []) };
}
