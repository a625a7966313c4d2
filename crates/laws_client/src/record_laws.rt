//! Laws of what a client reads of a house, as functions that do nothing: what its session counts in every world, what its calls
//! come to, its turns, and its whole life. Laws of what a client reads ask that the numbers can be printed (`HasSmallNumbers` of
//! the settings) and that texts are short (`HasShortTexts` of the world): settings without a fault see to both (`houses_can_be_printed`, `clients_keep_up`).

ghost use Rattle.laws_client.specs.Appends.{AppendsAreKept, AppendsAreTold, AppendsWereKept, AppendsWereTold};
ghost use Rattle.laws_client.specs.AtEntries.{AnswersMakeCurrent, VerdictsMakeCurrent};
ghost use Rattle.laws_client.specs.Clients.{KnowsWhereItIs};
ghost use Rattle.laws_client.specs.Current.{DoneCommandsMakeCurrent, DoneMakesCurrent, FeedsMakeCurrent, ListsAreCurrent, NoopMakesCurrent};
ghost use Rattle.laws_client.specs.Cuts.{AnswersAreCut, AnswersWereCut};
ghost use Rattle.laws_client.specs.RecordLaws.{CallsAreSeen, CountedAreGiven, EntriesAreCounted, GoneStayGone, LeaversCountNothing, OthersLeaveViews, UidsStay, ViewsAreNumbered};
ghost use Rattle.laws_client.specs.HouseClients.{UidsNameOneCopy};
ghost use Rattle.laws_client.specs.Lives.{LivesAreKnown};
ghost use Rattle.laws_client.specs.RecordLife.{OneLifeIsLived};
ghost use Rattle.laws_client.specs.ClientRecords.{ClientsKeepUp, ClientsKeptUp, ClientsOfHousesKeepUp, RecordsMoveOn, SettingsCanBePrinted, TextsStayShort};
ghost use Rattle.laws_client.specs.Selecting.{KnowingIsSelected, LoginComesFirst, RefusedSelectsNone};
ghost use Rattle.laws_client.specs.RecordTurns.{StandsStill, TurnIsKnown};

/// In every world that came from the empty one: the UIDs and the positions of what a session counts can be printed, and what
/// others do leaves it as it was. What a call of the session shows may be shown to its client, what is read is the row of the
/// UID that was asked for, and what is counted can be printed. A session that enters a mailbox counts all that is there, as
/// many as it tells, and one that leaves counts nothing.
pub fn calls_are_seen()
    // Where the settings' numbers are small, the UIDs and the positions of what a session counts can be printed.
    ensures numbered { ViewsAreNumbered }

    // What others do leaves what a session counts as it was.
    ensures others { OthersLeaveViews }

    // Where texts are short too, what a call shows may be shown, what it reads was asked for, and what it counts can be printed.
    ensures calls { CallsAreSeen }

    // A session that enters a mailbox counts all that is there, as many as it is told; one that leaves counts nothing.
    ensures entries { EntriesAreCounted }
    ensures leavers { LeaversCountNothing }
{}

/// A client that comes again, and compares by UID: a UID that its session counted is the name of one copy for good, with one
/// text, whatever happened since; and what is gone doesn't come back (RFC 9051, 2.3.1.1). Each UID that a session counts was
/// given, and over a record of a house the world moves on by its events, so this is so from any moment to any later one.
pub fn uids_stay()
    // Over any record of a house that was new: the copy that stands under a UID in a mailbox's history stands there at each later moment, and no other does.
    ensures named { UidsNameOneCopy }

    // A UID that a session counts names the same copy at any later moment.
    ensures same { UidsStay }

    // A message that is there later, under a UID that was given, was there already; and each UID that a session counts was given.
    ensures gone { GoneStayGone }
    ensures given { CountedAreGiven }

    // From one moment of a house's record to a later one the world moves on by its events, so all this holds between them.
    ensures records { RecordsMoveOn }
{}

/// A client that knows which of its lines were SELECT, EXAMINE, CLOSE or UNSELECT, and was right about what its session counts
/// before a turn, hears what is said in it, and is right about what the session counts then; whatever it sent, whatever is
/// answered, and wherever the store or memory refuses. Of the session it is asked that its mailboxes' names stand in lines,
/// and that its tags are tags; it stays so. A SELECT or EXAMINE that isn't answered OK leaves no mailbox selected (RFC 9051,
/// 6.3.2), wherever memory is refused, or the session has ended. Of the session it is asked there that none is selected before its
/// client has logged in, which is so all its life (`lives_are_known`).
pub fn turns_are_known()
    // A client that was right about what its session counts hears a turn, and is right about what the session counts then.
    ensures turn { TurnIsKnown }

    // What that asks of a session, of its tags and its mailboxes' names, stays so.
    ensures stands { StandsStill }

    // After a SELECT or EXAMINE that isn't answered OK no mailbox is selected, or the session has ended.
    ensures unselected { RefusedSelectsNone }
{}

/// So it is at each moment of a session's life, with all that others do between its turns: since a SELECT or EXAMINE was
/// answered OK, the client's list is as long as what the session counts, each UID that it knows is the one at that position, and
/// no number was out of its list. It knows where it is from that answer on, for as long as it asks for none of SELECT, EXAMINE, CLOSE
/// and UNSELECT. Where it knows where it is, its session has selected a mailbox. In the compatible profile a client logs in first:
/// till then no mailbox is selected.
pub fn lives_are_known()
    // At each moment of a session's life its client is right about what the session counts, where it knows where it is.
    ensures life { LivesAreKnown }

    // It does from a SELECT or EXAMINE that was answered OK on, as long as it asks for none of SELECT, EXAMINE, CLOSE and UNSELECT.
    ensures knows { KnowsWhereItIs }

    // Where it knows where it is, its session has selected a mailbox.
    ensures selected { KnowingIsSelected }

    // However a session begins, none is selected before its client has logged in.
    ensures login { LoginComesFirst }
{}

/// One life, by computing: a session selects an empty mailbox, a copy comes there meanwhile, and a NOOP shows it. Its client then
/// has a list of one message, and the session counts one.
pub fn one_life_happens()
    ensures { OneLifeIsLived }
{}

/// Where all that was pending was shown in a session's last call, what it counts is all that is there at that moment. So it is
/// where NOOP, CHECK, LIST, LSUB, STATUS, EXPUNGE, UID EXPUNGE, UID FETCH, UID STORE, UID SEARCH or the DONE of an IDLE is answered OK in a
/// mailbox that is selected (RFC 9051, 5.2 and 6.1.2; RFC 2177; RFC 3501, 6.3.9 and 6.4.1). A client that knows where it is, and has read such a command's answer to its end,
/// has a list of the mailbox as it is.
pub fn lists_are_current()
    // Where the last call of a turn was for all that is pending, and was answered, the session counts all that is in its mailbox.
    ensures fed { FeedsMakeCurrent }

    // So it does after a command that `shows_all` names and whose last line says that it is completed, and after a NOOP or DONE that is OK.
    ensures commands { DoneCommandsMakeCurrent }
    ensures noop { NoopMakesCurrent }
    ensures done { DoneMakesCurrent }

    // Who knows where it is and has read the answer to such a command to its end has a list of the mailbox as it is.
    ensures list { ListsAreCurrent }

    // So it is at each entry of a record with which a client's bytes came: where that is the last that it is told, its list is the mailbox behind the entry.
    // DONE ends an IDLE with such an OK, too.
    ensures entries { AnswersMakeCurrent }

    // And at each entry at which a session puts a message that its client appended or had copied, or hears the verdict on it: behind the OK of that.
    ensures verdicts { VerdictsMakeCurrent }
{}

/// Over any record of a house that was new, of whatever events: the client of each session that is there, by all that it sent
/// since it was let in and all that was printed to it since, is right about what its session counts, wherever it is in a mailbox
/// that it knows: since a SELECT or EXAMINE was answered OK. The world in which it was let in is the one before that entry. So it is,
/// too, of a session that was let in and has ended by itself, up to its end. Of the house it is asked that numbers and names can be printed
/// and messages have less than 2 GiB (`houses_can_be_printed`); then no text was accepted that is too long to be told of.
pub fn clients_keep_up()
    // Over any record of a new house that is printable: the client of a session there keeps up with what it counts, by what it was told.
    ensures record { ClientsKeepUp }

    // So did that of one that has ended by itself, as by LOGOUT, to its end, by all that it was told.
    ensures ended { ClientsKeptUp }

    // So it is of the record that exactly-once delivery has, of whatever events.
    ensures house { ClientsOfHousesKeepUp }

    // Where a message has less than 2 GiB, no text was accepted that is too long to be told of.
    ensures texts { TextsStayShort }
{}

/// A house whose settings are in range and have no fault is printable, which `clients_keep_up` asks for: its numbers and names stand in lines, and its messages
/// have less than 2 GiB.
pub fn houses_can_be_printed()
    ensures { SettingsCanBePrinted }
{}

/// What a client may conclude of the messages that it appended or had copied, by the answers that its session gave it, over any record of a house
/// that was new. Where the last line of an answer begins `OK [APPENDUID ` behind a tag, that is the tag of an APPEND that it sent, and
/// the line tells the house's UIDVALIDITY and the UID under which one copy of this very session stands in the history of the mailbox
/// that this APPEND named, exactly once, with the text that was sent as its literal: its seat has heard so (RFC 9051, 6.3.12; RFC 4315,
/// 3). Such answers are about different messages, in the order in which they were appended; and to each verdict that says that the
/// message is stored the session answers that OK, unless the store refuses. Where all messages are copied that a COPY named (6.4.7; RFC 6851), the OK tells
/// their UIDs and those of the copies, and each copy stands so too.
pub fn appends_are_told()
    // Beside each answer of a session that is there stands the verdict that it was said to, or none; and it says what is said to that.
    ensures there { AppendsAreTold }

    // So it is of one that has ended by itself, as by LOGOUT, behind all that happened since.
    ensures ended { AppendsWereTold }

    // So its client knows what became of its messages, by the last lines of its answers alone.
    ensures kept { AppendsAreKept }
    ensures were_kept { AppendsWereKept }
{}

/// The answers into which a record cuts what was printed to a client are those that the bytes allow: each has one tagged line at
/// most, outside of literals, and it is its last (RFC 9051, 2.2.2 and 4.3). So a client that cuts what it reads behind each tagged
/// line, and knows nothing else, cuts between these answers and nowhere else.
pub fn answers_are_cut()
    // Whoever is there: what is printed to it, and is still to be printed, is cut so.
    ensures there { AnswersAreCut }

    // So is all that was printed to one that has ended by itself, as by LOGOUT.
    ensures ended { AnswersWereCut }
{}
