//! Laws of the definitions, as functions that do nothing: what a worker's account says of its
//! connections and of its log.

ghost use Rattle.running_house.specs.Laws.{AccountIsOfLines, ClosedGetNothing, ConnectionsHaveTalked, EachIsADialogue, LinesAreATalk, LinesAreTold, HeardAreFirst, LogHasEachVerdict, PutWasSubmitted, StoredIsOnItsLane, TalkIsOfLines, TalksAreOfLines};

/// A connection that was heard piece by piece is one dialogue over the whole lines of all its bytes, each
/// line heard in its turn and each message answered before the next line, and the other way round. The bytes
/// begin with those lines, and all their whole lines are among them, or the dialogue ended before. And so is
/// each connection of a worker, one after the other; none of its messages is for a mailbox of a shard that
/// the worker closed before it.
pub fn connections_are_of_lines()
    // A connection that was heard piece by piece is a dialogue over its whole lines, and each of these may be heard piece by piece.
    ensures lines { TalkIsOfLines }
    ensures back { LinesAreATalk }

    // The lines that were heard are those with which the bytes begin.
    ensures first { HeardAreFirst }

    // So it is of all connections of a worker, one after the other, and the other way round.
    ensures talks { TalksAreOfLines }
    ensures talks_back { ConnectionsHaveTalked }

    // The i-th of them has the i-th replies, and its own part of what was judged.
    ensures each { EachIsADialogue }

    // In a house with a shard no message of a connection is for a mailbox of a shard that its worker has closed by then.
    ensures closed { ClosedGetNothing }
{}

/// Of lines that were heard none was dropped, and nothing else happened but the answers: each stands behind
/// the line that submitted its message, where just so many verdicts are awaited, and before the next line.
pub fn lines_are_told()
    ensures { LinesAreTold }
{}

/// What a worker's log has as stored was put on the lane of its mailbox's shard, and the verdict was
/// heard; what was put on a lane is a copy of a message that was submitted; and the log has exactly one
/// verdict for each copy of each message, in their order. All of it holds of one list of messages, those that
/// its connections submitted.
pub fn logs_meet_lanes()
    // A copy that the log has as stored was put on its mailbox's lane, and its verdict was heard.
    ensures stored { StoredIsOnItsLane }

    // What the worker put on a lane is its own: a copy of a message that its connections submitted, with a verdict in the log.
    ensures put { PutWasSubmitted }

    // The log has exactly one verdict for each copy, in their order.
    ensures verdicts { LogHasEachVerdict }

    // All of it holds of one list of messages, those that its connections submitted.
    ensures account { AccountIsOfLines }
{}
