//! Laws of drives, functions that do nothing.

ghost use Rattle.nb_drivetalks.specs.Calls.{DriveBeginsCome, DriveClosesCome, DriveSegmentsCome, StayAsTheyWere, DriveTasksCome, DriveTimesCome};
ghost use Rattle.nb_drivetalks.specs.Orders.{CloseInOrder, StandInOrderEach};

/// Where the three are as they were, they stand for the same talk.
pub fn drives_as_they_were()
    ensures { StayAsTheyWere }
{}

/// A begin sends the SYN, and the three stand for a talk that was given its login's first request.
pub fn begins_come()
    ensures { DriveBeginsCome }
{}

/// A segment puts what its promise says, and hands up what the target has answered by it; the three go on, or have
/// ended so.
pub fn segments_come()
    ensures { DriveSegmentsCome }
{}

/// A time puts what the plan fires that runs; the three go on, or have ended.
pub fn times_come()
    ensures { DriveTimesCome }
{}

/// A task that is asked for puts what its promise says: its command, where the drive takes it.
pub fn tasks_come()
    ensures { DriveTasksCome }
{}

/// Where the user closes them the connection says what a close calls for, once.
pub fn closes_come()
    ensures { DriveClosesCome }
{}

/// What a call tells the network stands directly after an entry of the connection.
pub fn drives_stand_in_order()
    ensures { StandInOrderEach }
{}

/// So does what a close tells it.
pub fn closes_stand_in_order()
    ensures { CloseInOrder }
{}
