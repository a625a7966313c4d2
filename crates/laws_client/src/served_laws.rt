//! Laws of what a client reads of a session over mailboxes behind locks, as a server's or one of a running house: between two of
//! its calls other threads may do anything. They are functions that do nothing. They stand on what `session_thread` proves of
//! every such session, that each of its calls is what the one history says (`shown_since_select`, clause `history`).

ghost use Rattle.laws_client.specs.ServedFlags.{ServedFlagsAreCurrent, ServedFlagsAreFound, ServedFlagsHaveMoments, ServedLivesTellFlags, ServedTurnTellsFlags};
ghost use Rattle.laws_client.specs.ServedStays.{ServedSessionsStay};
ghost use Rattle.laws_client.specs.ServedVisits.{AttendedClientsLive, CallsGoOn, VisitorsKeepUp, VisitorsStand, VisitsAreByHistory, VisitsBegin, VisitsGoOn};
ghost use Rattle.laws_client.specs.Served.{CursorsStaySmall, FeedsReachTheEnd, ServedCommandsMakeCurrent, ServedCommandsReachTheEnd, ServedDoneReachesTheEnd, ServedListsAreCurrent, ServedLivesAreKnown, ServedTextsStay, ServedTurnIsKnown, VisitorsAreRight, VisitorsCountAll};

/// Between a SELECT and what ends it such a session stays in that mailbox, with the handle that it was given there: of that only the cursor's
/// number moves on, by as many changes as were shown.
pub fn served_sessions_stay()
    ensures { ServedSessionsStay }
{}

/// A client that knows which of its lines were SELECT, EXAMINE, CLOSE or UNSELECT keeps up with what its session counts, whatever
/// it sends, whatever is refused, and whatever others do between two holds of a lock. Since a SELECT or EXAMINE was answered
/// OK its list is as long as what the session counts, each UID that it knows is the one at that position, and no number was out
/// of its list (RFC 9051, 2.3.1.2 and 7.5.1).
pub fn served_clients_keep_up()
    // A client that was right about what its session counts hears a turn, and is right about what the session counts then.
    ensures turn { ServedTurnIsKnown }

    // What that asks of the session's cursor stays so.
    ensures cursor { CursorsStaySmall }

    // From where it was in no mailbox, it is right at each moment of the session's life.
    ensures life { ServedLivesAreKnown }
{}

/// Where the cursor of such a session is at the end of the mailbox's log, as far as the session has seen it, what it counts is all
/// that is there: so the list of a client that keeps up is the mailbox as the session found it last. The cursor is there behind a call that
/// showed fewer changes than were asked for, or asked for all that were pending: where NOOP, LIST, STATUS, EXPUNGE, UID EXPUNGE, UID
/// FETCH, UID STORE or the DONE of an IDLE is answered OK (RFC 9051, 5.2 and 6.1.2; RFC 2177).
pub fn served_lists_are_current()
    // At the end of the log the session counts the messages that the history leaves.
    ensures all { ServedListsAreCurrent }

    // A call that showed all that was pending leaves the cursor at the end of the log; so do a command that `shows_all` names and
    // whose last line says that it is completed, and a DONE whose IDLE is OK.
    ensures fed { FeedsReachTheEnd }
    ensures commands { ServedCommandsReachTheEnd }
    ensures done { ServedDoneReachesTheEnd }

    // In a session's life: who knows where it is and has read the answer to such a command to its end has a list of the mailbox.
    ensures list { ServedCommandsMakeCurrent }
{}

/// A client of such a session may keep the text that it was told under a UID, also when it comes again: the text is that of the
/// copy which was stored under the UID, and no other copy ever has it (RFC 9051, 2.3.1.1).
pub fn served_texts_stay()
    // Two texts that were told under one UID of one mailbox, at whatever moments, are the same.
    ensures { ServedTextsStay }
{}

/// Such a client is right about flags, too: what it knows of a message's flags is what the message had at some moment that isn't before
/// its session's cursor, whatever others have changed since. What a FETCH or a STORE tells are the flags that the message has when
/// the mailbox's lock is let go (RFC 9051, 6.4.5, 6.4.6 and 7.5.2). Where the cursor is at the end of the log all that it knows of
/// flags is what they are.
pub fn served_clients_know_flags()
    // The flags that a call tells are the message's when the lock is let go, so by any later history of a moment not before the cursor.
    ensures found { ServedFlagsAreFound }
    ensures moments { ServedFlagsHaveMoments }

    // A client that was right about flags hears a turn, and is right about flags then; so it is at each moment of a session's life.
    ensures turn { ServedTurnTellsFlags }
    ensures life { ServedLivesTellFlags }

    // At the end of the log all that it knows of flags is what they are.
    ensures current { ServedFlagsAreCurrent }
{}

/// So it is of each visit of a server's clients (`Visit` of `imap_stream`): what its calls do is such a life. Whoever makes the next call, `hear` or
/// `look`, and whatever others did since the last, the client was told the greeting and then a life of a session over the one history; the
/// output took all of that, or the first bytes of it where it failed. Of a client that is dismissed nothing is said behind its `BYE`.
pub fn served_visits_are_lives()
    // A visit whose client was greeted begins such a life, and each call of a visit that isn't over goes on with it.
    ensures begin { VisitsBegin }
    ensures go_on { VisitsGoOn }

    // So do all calls of a visit together, one after another: those by which a client slot attends a client that was greeted, from the first byte on.
    ensures calls { CallsGoOn }
    ensures attended { AttendedClientsLive }

    // Each hold of a lock in it is what the history says of it.
    ensures by_history { VisitsAreByHistory }
{}

/// So the client of such a visit is right about what its session counts, and about flags, at each moment (`HasLived` of `imap_stream`; a client
/// slot's `attend` gives that of each client that it attends).
pub fn served_visitors_keep_up()
    // At each moment of it, whoever knows which of its lines were SELECT, EXAMINE, CLOSE or UNSELECT is right.
    ensures right { VisitorsAreRight }

    // Behind the OK of a NOOP, or one that ends what came to no command, as that of a DONE, its session counts all that is in its mailbox.
    ensures counts { VisitorsCountAll }

    // So it is wherever the session began, with tags that are tags and with names of mailboxes that stand in lines. Those of a house do where nothing is
    // wrong with the settings.
    ensures begun { VisitorsKeepUp }
    ensures stand { VisitorsStand }
{}
