//! Laws of a lab, each a function that does nothing.

ghost use Rattle.nb_lab.specs.Blocks.{BlocksJoin, LastIsShort, EndsInLast};
ghost use Rattle.nb_lab.specs.OneResponse.{SendsInOrder};
ghost use Rattle.nb_lab.specs.Transits.{ComeByNumbers, GoInOrder, NothingHasCome};

/// Which frames come to the client, how often and in which order is a function of their numbers: at first nothing has come,
/// and so it stays as each further frame is sent.
pub fn frames_come_by_their_numbers()
    ensures first { NothingHasCome }
    ensures send { ComeByNumbers }
    ensures take { GoInOrder }
{}

/// On a connection the pieces of one response are sent, in order, and no byte is left out; the FIN goes with the last byte.
pub fn responses_are_sent_in_order()
    ensures { SendsInOrder }
{}

/// An image's blocks by TFTP, joined in order, are the image, whatever size of 1 or more they have; the last alone isn't full,
/// and the image ends in it alone.
pub fn blocks_join_to_the_image()
    ensures joined { BlocksJoin }
    ensures short { LastIsShort }
    ensures ends { EndsInLast }
{}
