//! Laws of sessions with a target, each a function that does nothing.

ghost use Rattle.nb_sans.specs.SessionLaws.{SessionsOnlyAdd, AllOfASessionIsSaid};
ghost use Rattle.nb_sans.specs.SessionLaws.{OnlyTheLoginSpeaksFirst, OnlyRequestsComeFirst};
ghost use Rattle.nb_sans.specs.SessionLaws.{SessionsEndForACause, EndsStay, ReadingsStay};
ghost use Rattle.nb_sans.specs.SessionSteps.{PartsFollowTheCut, CallsFollowWhatComes, BytesAloneSayNothing};
ghost use Rattle.nb_sans.specs.SessionSteps.{LoginsAnswerAtOnce, PartsAreAnsweredAtOnce};
ghost use Rattle.nb_sans.specs.SessionSteps.{PartsEndAtOnce, TasksArePutAtOnce};
ghost use Rattle.nb_sans.specs.RecordNumbers.{OnlyEndsShowRecords};
ghost use Rattle.nb_sans.specs.Targets.{HonestAnswersAreTheDisks, HonestCapacitiesAreTheDisks};

/// A longer stream and the next task only add to what is to be said in a session.
pub fn sessions_only_add()
    ensures { SessionsOnlyAdd }
{}

/// Whatever comes, all that is to be said in a session has been said, in order and once.
pub fn says_all_of_a_session()
    ensures { AllOfASessionIsSaid }
{}

/// Before the login has opened a session, what is said is what the login says: Login Requests alone.
pub fn only_the_login_speaks_first()
    ensures login { OnlyTheLoginSpeaksFirst }
    ensures requests { OnlyRequestsComeFirst }
{}

/// A session ends only where its login or its drive does, by its last PDU, or where no further PDU comes.
pub fn sessions_end_for_a_cause()
    ensures { SessionsEndForACause }
{}

/// What comes is the next answer of a login that goes on, or the next call of a drive that does, if it takes
/// it.
pub fn what_comes_is_the_next_call()
    ensures cut { PartsFollowTheCut }
    ensures calls { CallsFollowWhatComes }
{}

/// What one thing more adds to what is said, and how it ends an open session, follows from all that came
/// before: bytes alone, a PDU to a login, a part of the stream to an open session, and a task.
pub fn each_is_answered_at_once()
    ensures bytes { BytesAloneSayNothing }
    ensures login { LoginsAnswerAtOnce }
    ensures parts { PartsAreAnsweredAtOnce }
    ensures ends { PartsEndAtOnce }
    ensures task { TasksArePutAtOnce }
{}

/// Which records brought what comes to a session shows in the cause of its end alone.
pub fn only_ends_show_records()
    ensures { OnlyEndsShowRecords }
{}

/// An end, the capacity that was read and the answers of tasks stay, whatever follows.
pub fn what_was_decided_stays()
    ensures ends { EndsStay }
    ensures readings { ReadingsStay }
{}

/// Of an honest target each good answer to a read is its blocks of the disk, byte for byte, and the capacity
/// is the disk's.
pub fn honest_answers_are_the_disks()
    ensures answers { HonestAnswersAreTheDisks }
    ensures capacity { HonestCapacitiesAreTheDisks }
{}
