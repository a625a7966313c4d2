//! Laws of the definitions, as functions that do nothing: what follows from a report that agrees. No
//! code lives here.

ghost use Rattle.running_house.specs.Alone.{FilledAloneIsAll};
ghost use Rattle.running_house.specs.Tells.{AccountsAreOfLines, StoredWasAccepted, TakenIsAProducers};

/// Of each worker: its connections were dialogues over the whole lines of their whole strings, its log
/// has one verdict for each copy of their messages, and what was taken of it from each lane is copies of
/// those messages. Of each copy that a log has as stored, a worker's or a session's: it was taken from its
/// mailbox's lane, and the mailbox accepted it under that UID. And whatever was taken from a lane is some
/// worker's or session's.
pub fn reports_tell_of_each_copy()
    // Of each worker: connections, replies, log and what was taken of it are an account by the whole lines that came.
    ensures accounts { AccountsAreOfLines }

    // In a house with a shard: a copy that a log has as stored, in a mailbox that is there, was taken from its lane and accepted under that UID.
    ensures stored { StoredWasAccepted }

    // A copy that was taken from a lane is a producer's, and is in what was taken of that one.
    ensures taken { TakenIsAProducers }
{}

/// What Full can tell the producer that finds its lane full, by the lane's room, the producer's number
/// and what it had put there: the lane's only producer had put as many copies as have room
/// (`FilledAlone` of `lane_work`), and nothing else. Where that is so, and of any lane with other
/// producers, there is a history by which the lane was full.
pub fn full_tells_no_more()
    // For copies that a producer of the lane has put, `FilledAlone` holds just where the lane can have been full.
    ensures { FilledAloneIsAll }
{}
