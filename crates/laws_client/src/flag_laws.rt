//! Laws of what a client believes of flags, as functions that do nothing. In a house they ask that the numbers can be printed
//! (`HasSmallNumbers` of the settings) and that texts are short (`HasShortTexts` of the world), which settings without a fault see to.

ghost use Rattle.laws_client.specs.FlagLaws.{AnswerTellsFlags, ChangeIsHeard, FetchIsHeard, FlagsAreByUid, FlagsAreCurrent, FlagsOutlast, IdleTellsFlags, LinesTellFlags, RowTellsFlags, StoreIsHeard, StoreTellsFlags, VerdictTellsFlags};
ghost use Rattle.laws_client.specs.FlagLife.{OneLifeKnowsFlags};
ghost use Rattle.laws_client.specs.FlagRecords.{ClientsKnowFlags, ClientsOfHousesKnowFlags, ClientsOfScriptsKnowFlags};
ghost use Rattle.laws_client.specs.HouseClients.{ClientsAreRight, OksCountAll};
ghost use Rattle.laws_client.specs.Worlds.{CallsTellFlags, DoneTellsFlags, LivesTellFlags, NoopTellsFlags, NothingPendingTellsFlags, OthersLeaveFlags, TurnsTellFlags};

/// Flags that a message had at some moment not before the cursor are such whatever is logged later, and where nothing is
/// pending they are those that it has now. A client that is right about UIDs and about flags is right about the flags under
/// each UID.
pub fn flags_have_moments()
    // Flags of a moment not before the cursor are such whatever is logged later.
    ensures outlast { FlagsOutlast }

    // Where the cursor is at the log's end, they are those that the message has now.
    ensures current { FlagsAreCurrent }

    // Who is right about UIDs and about flags is right about the flags under each UID.
    ensures by_uid { FlagsAreByUid }
{}

/// A client is right about flags where each that it knows were those of the message at some moment not before its session's
/// cursor. It stays so when it reads the lines of changes that the cursor moves over, the answer to a FETCH with the flags that
/// the message has, also where reading it set `\Seen`, and the flags after a STORE (RFC 9051, 6.4.6, 7.5.2).
pub fn flags_are_told()
    // By the lines of the changes behind the cursor who was right about flags is right about them where the cursor is then.
    ensures lines { LinesTellFlags }

    // The answer about a row, and the flags after a STORE, leave a client as right, where they are those that the message has.
    ensures row { RowTellsFlags }
    ensures store { StoreTellsFlags }
{}

/// What is told is heard: whatever a client knew, when it has read the line of a change of flags, the flags after a STORE, or
/// the answer to a FETCH that asked for FLAGS or has set `\Seen`, it knows these flags of that message (7.5.2).
pub fn flags_are_heard()
    // Once a client whose list is as long as the view has read such a text it knows these flags of that message, whatever it knew before.
    ensures change { ChangeIsHeard }
    ensures store { StoreIsHeard }

    // So it is of a FETCH that asked for FLAGS, or that has set \Seen.
    ensures fetch { FetchIsHeard }
{}

/// Over any store, whatever it answers: so it is of the answer to any line but SELECT, EXAMINE, CLOSE and UNSELECT, of the
/// answer to the verdict on a message, and of a turn while the session idles. Of the store it is asked that what it shows are
/// the changes that were pending, in their order, and the flags that it answers are the message's (`SeesAllFlags`).
pub fn turns_tell_flags()
    // By each of these turns who was right about flags before is right about them then.
    ensures answer { AnswerTellsFlags }
    ensures verdict { VerdictTellsFlags }
    ensures idle { IdleTellsFlags }
{}

/// In every world of a house: what a call of a session shows are the changes that were pending, in their order; the flags of a
/// row that is read, also where reading sets `\Seen`, and those that a STORE answers are what the message has then. What others
/// do leaves a client as right about flags as it was.
pub fn houses_tell_flags()
    ensures calls { CallsTellFlags }
    ensures others { OthersLeaveFlags }
{}

/// In a house a client that knows which of its lines were SELECT, EXAMINE, CLOSE or UNSELECT is right about flags after each
/// turn, whatever it sent, whatever is answered, and wherever the store or memory refuses; and so at each moment of its
/// session's life, with all that others do between the turns.
pub fn lives_tell_flags()
    ensures turn { TurnsTellFlags }
    ensures life { LivesTellFlags }
{}

/// Where nothing is pending all that the client knows of flags is what they are in the mailbox. So it is when it has read that
/// a NOOP is OK, or the IDLE that its DONE ends (RFC 9051, 6.1.2; RFC 2177).
pub fn flags_become_current()
    // At a moment of a session's life at which nothing is pending, all that its client knows of flags is what they are.
    ensures pending { NothingPendingTellsFlags }

    // So it is when it has read that a NOOP is OK, or the IDLE that its DONE ends.
    ensures noop { NoopTellsFlags }
    ensures done { DoneTellsFlags }
{}

/// Over any record of a house that was new, of whatever events: the client of each session that is there is right about flags,
/// by all that was printed to it since it was let in; and where nothing is pending all that it knows of flags is what they are.
/// Of the house it is asked that numbers and names can be printed and messages have less than 2 GiB, which settings that are
/// right see to.
pub fn clients_know_flags()
    // Over any record of a new house that is printable: the client of a session there is right about flags; if nothing is pending, as they are.
    ensures record { ClientsKnowFlags }

    // So it is of the record that exactly-once delivery has, of whatever events.
    ensures house { ClientsOfHousesKnowFlags }
{}

/// What a client of a house on one thread may conclude of its list, in the fewest words (`IsToldRight`): by the record of all that happened there, whatever
/// others did, and wherever memory was refused. Of what it sent each line was answered, and it was told the greeting and these answers. Where it knows by them
/// that it is in a mailbox, its list is what its session counts, UID by UID, and the flags that it knows the message had at some moment which isn't before the
/// session's cursor (RFC 9051, 2.3.1.2, 7.4.1, 7.5.1 and 7.5.2). Where an answer ends in `OK [APPENDUID `, behind a tag, it has sent an APPEND under that tag, and the
/// message stands under the UID that is told there (6.3.12; RFC 4315, 3). Behind the OK of a NOOP or DONE the session counts all that is there (6.1.2; RFC 2177).
pub fn clients_are_right()
    // Of each session that is there, by all that its client sent and was told.
    ensures right { ClientsAreRight }

    // Behind the OK of a NOOP, or one that ends what came to no command, a session counts all that is in its mailbox at that moment.
    ensures counts { OksCountAll }
{}

/// So it is of all that the lines of a script did.
pub fn clients_of_scripts_know_flags()
    ensures { ClientsOfScriptsKnowFlags }
{}

/// One life, by computing: a session selects an empty mailbox, a copy comes there, a NOOP shows it, and its client sets a flag of
/// it. The client then knows flags that are newer than those that its session was shown.
pub fn one_life_knows_flags()
    ensures { OneLifeKnowsFlags }
{}
