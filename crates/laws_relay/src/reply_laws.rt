//! Laws of what a relay reads, as functions that do nothing.

ghost use Rattle.laws_relay.specs.Conclusions.{FrontsAreCut, MessagesAreKnown, MessagesAreKnownByBytes, MessagesAreKnownWhileShardsAreShut, RelaysMayForget, RelaysMayForgetWhileShardsAreShut, TakenAreStored, WhatIsReadStays};
ghost use Rattle.laws_relay.specs.Connections.{Begins, Concludes, NumbersMessages, ShutsDown, TakesBytes, TellsVerdicts};
ghost use Rattle.laws_relay.specs.Numbers.{MessagesAreNumbered};
ghost use Rattle.laws_relay.specs.ReplyLaws.{CommandsHaveOneReply, DataHasItsReplies, DeliveredAloneIsTaken, FrontsAreRead, RepliesAreRead};

/// A relay that cuts what it is told at each CRLF, and joins lines by the hyphen behind the code alone, reads just the
/// replies that were written, each by its last line and none twice (RFC 5321, 4.2). Of replies that didn't all come it
/// reads the first ones, and never a part of one. Behind the data only the verdict that a copy is stored has the code 250.
/// A command has one reply, whatever it is and wherever it comes; a line of data has none, and the dot has at once one for each
/// recipient, or none before the verdicts, of which each has one (RFC 2033, 4.2).
pub fn replies_are_read()
    // Of a server whose name has no LF: just the replies that were written are read, in their order, and by a front the first, only whole.
    ensures replies { RepliesAreRead }
    ensures fronts { FrontsAreRead }

    // Of the replies to verdicts just those have the code 250 that say that the copy is stored.
    ensures taken { DeliveredAloneIsTaken }

    // A command has one reply, whatever it is.
    ensures command { CommandsHaveOneReply }

    // A line of data has none; the dot one for each recipient, at once, or none before the verdicts, of which each has one.
    ensures data { DataHasItsReplies }
{}

/// A relay that knows RFC 5321's lines and codes alone (which word a line of its own begins with, the code of each reply, the dot)
/// knows just the messages that the server submitted and those that it refused as a whole, in their order: the i-th RCPT line that was
/// answered 250 names the i-th mailbox of the submission, the text is that of the MAIL line's path and of the lines that it sent, and the
/// replies are those to the verdicts on it, one each. So the i-th reply to the k-th message is 250 if and only if that copy is stored. Where
/// what it was told ends early it knows the first of all that, and nothing that isn't so.
pub fn messages_are_known()
    // The messages that a relay knows are those that were submitted or refused as a whole, and perhaps one that wasn't heard to its end.
    ensures known { MessagesAreKnown }

    // The same while shards are shut; and the same by the bytes that were sent and told, where the server's name has no LF.
    ensures shut { MessagesAreKnownWhileShardsAreShut }
    ensures bytes { MessagesAreKnownByBytes }

    // The i-th reply to the k-th message is 250 just where that was submitted and its i-th copy is stored.
    ensures taken { TakenAreStored }

    // Which message is of which submission: those that weren't submitted aren't counted.
    ensures numbers { MessagesAreNumbered }

    // By a front of the replies it knows the first of these messages, the last perhaps with fewer replies; and what is read stays.
    ensures fronts { FrontsAreCut }
    ensures stays { WhatIsReadStays }

    // By what was told so far, a recipient's reply that was read is 250 just where its copy is stored; also while shards are shut.
    ensures forget { RelaysMayForget }
    ensures forget_shut { RelaysMayForgetWhileShardsAreShut }
{}

/// All this of a connection as it goes on, call by call, whichever shards are shut at each: it begins, takes bytes in whatever pieces, is
/// told the verdicts that it awaits, and may be shut down while it listens. At each point a relay that sent what was taken, and perhaps more,
/// and was told a front of what was said, may forget the copies that it takes for stored. Its submissions are numbered from 0 on, which says
/// the keys of their copies.
pub fn connections_are_known()
    // So a connection begins, and so it goes on: with bytes in whatever pieces, with the verdicts that it awaits, shut down while it listens.
    ensures begins { Begins }
    ensures bytes { TakesBytes }
    ensures verdicts { TellsVerdicts }
    ensures shut { ShutsDown }

    // At each point a relay that sent what was taken, perhaps more, and was told a front of what was said, may forget what it takes for stored.
    ensures concludes { Concludes }

    // Its n-th submission, from 0 on, is its message of that number, which is in the keys of its copies.
    ensures numbers { NumbersMessages }
{}
