//! Laws of how an open's objects end, functions that do nothing.

ghost use Rattle.nb_closings.specs.Chained.{ChainsAreShut, ChainsEndWhole};
ghost use Rattle.nb_closings.specs.Passing.{ObjectsPassOn};

/// An entry of an object that hasn't ended closes both its ports or none, and passes a close on.
pub fn objects_pass_on()
    ensures { ObjectsPassOn }
{}

/// Of objects of which each is plugged to the next, a message or a time closes all ports between the user and the network,
/// or none.
pub fn chains_end_whole()
    ensures { ChainsEndWhole }
{}

/// Where the user closes both ports of the top one, all are closed.
pub fn chains_are_shut()
    ensures { ChainsAreShut }
{}
