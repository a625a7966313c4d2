//! Laws of what a relay may conclude, as functions that do nothing.

ghost use Rattle.laws_relay.specs.RecordLaws.{AreStill, ByTheRecord, OfAllEvents, OfScripts, RelaysConcludeByRecords, Sessions, SettingsAreInLine, imap_sessions};

/// What the sessions of a house speak whose connections speak LMTP, and all that a relay asks of these: what they ask of mailboxes changes no lane.
pub trait StillSessions {
    ghost sessions: { Sessions };

    ghost still: { AreStill sessions };
}

/// Whatever happened in a house, whatever its sessions speak, and whatever memory was wanting: of each connection that was opened, a relay that sent
/// the bytes that came for it, and perhaps more, and was told a front of what was said to it, may conclude this by RFC
/// 5321's lines and codes alone. A recipient whose reply it has read as 250 has its copy in the mailbox which that RCPT line
/// names, at one position and under one UID, with the text that it sent; where it has read another reply, no copy of that message
/// stands for that recipient, in any mailbox. Different messages and recipients have different copies, in their order. And
/// nothing else stands: each copy of the connection is one of these, or one whose reply it hasn't read; and there are none of
/// connections that weren't opened.
pub fn relays_may_conclude_over_any<S: StillSessions>()
    // So of every record of a house, in the words in which it is said of a server too.
    ensures concluded { RelaysConcludeByRecords S.sessions }

    // And by what became of each message, with what is still to be printed, and of a relay that was told all: so of every record of a house, of each
    // connection that was opened; and its seats have no copies of one that wasn't.
    ensures recorded { ByTheRecord S.sessions }

    // So of all events of a new house and what they printed.
    ensures played { OfAllEvents S.sessions }
{}

/// Sessions that speak IMAP are such.
pub fn imap_sessions_may_visit()
    ensures { AreStill imap_sessions }
{}

/// So it is where sessions speak IMAP, and of all that a script has written. The name of a house that has settings is one that can stand in a line.
pub fn relays_may_conclude()
    // So of every record of a house, in the words in which it is said of a server too.
    ensures concluded { RelaysConcludeByRecords imap_sessions }

    // And by what became of each message: so of every record of a house, of each connection that was opened; and its seats have no copies of one that wasn't.
    ensures recorded { ByTheRecord imap_sessions }

    // So of all events of a new house and what they printed, and of a script's lines that were played.
    ensures played { OfAllEvents imap_sessions }
    ensures scripted { OfScripts }

    // The name of a house whose settings have no fault has no LF.
    ensures settings { SettingsAreInLine }
{}
