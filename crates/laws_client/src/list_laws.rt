//! Laws of what a client reads, as functions that do nothing: bytes and literals, the lines of changes, and the
//! turns of a session.

ghost use Rattle.laws_client.specs.ListLaws.{AnswerIsFollowed, ByeTellsNothing, ChangeTellsUid, FetchTellsUid, FlagsAreTold, FlagsKeepUids, GreetingTellsNothing, IdleTurnIsFollowed, KeptTagsAreTags, LinesAreFollowed, LinesKeepUids, ListIsAsLong, LiteralLeavesItsCount, LiteralsAreAlike, LongLineTellsNothing, OpeningIsFollowed, PiecesAreTheWhole, RefusalTellsNothing, RowIsTold, RowKeepsUids, StoreTellsUid, TaggedTellsNothing, TagsAreTags, TalkIsFollowed, TurnIsFollowed, VerdictIsFollowed};

/// It makes no difference in which pieces bytes come, and a literal leaves nothing but its count in the line in which it
/// stands, whatever its bytes (RFC 9051, 4.3). So a message's text can't be taken for lines.
pub fn literals_are_passed_over()
    // It makes no difference in which pieces bytes come.
    ensures pieces { PiecesAreTheWhole }

    // Within a line a literal leaves its count alone, as if that stood there without its bytes.
    ensures count { LiteralLeavesItsCount }

    // So two texts of one length can't be told apart, whatever lines they have.
    ensures alike { LiteralsAreAlike }
{}

/// A client whose list is as long as its session's view, and right about the UIDs that it knows, reads the lines of any
/// changes that may be shown to that view. Its list is then as long as the view that they leave, and right about UIDs,
/// and no number was out of its list (7.4.1, 7.5).
pub fn lines_are_followed()
    ensures lines { LinesAreFollowed }
    ensures length { ListIsAsLong }
{}

/// Tagged lines, BYE, the greeting and what is said where the store or memory refuses tell a client nothing of messages:
/// its list stays as it was (2.2.2, 7.1).
pub fn ends_tell_nothing()
    // Each of these leaves what a client knows of messages as it was, whatever that is.
    ensures tagged { TaggedTellsNothing }
    ensures bye { ByeTellsNothing }
    ensures refusal { RefusalTellsNothing }
    ensures greeting { GreetingTellsNothing }
{}

/// Over any store, whatever it answers, and wherever it or memory refuses: a client that is right about the session's view
/// before a turn reads the turn's bytes, and is right about its view after it. So it is of a turn while the session idles.
/// Of the turn it is asked that each text beside the lines of changes leaves a client as right as before (`Says`), and of
/// the answers that what they show may be shown (`SeesAll`).
pub fn turns_are_followed()
    ensures turn { TurnIsFollowed }
    ensures idle { IdleTurnIsFollowed }
{}

/// The answer to a FETCH about a message at its position, with any items and the literals of any text, and the flags after a
/// STORE leave a client as right as it was (7.5.2). What SELECT and EXAMINE say of a mailbox before their tagged line
/// leads a client with no messages to a list as long as the mailbox (6.3.2).
pub fn messages_are_told()
    // The answer about a row that was read, whatever was asked of it, and the flags after a STORE leave a client as right as it was.
    ensures row { RowIsTold }
    ensures flags { FlagsAreTold }

    // What SELECT or EXAMINE says before its tagged line leads a client with no messages to a list as long as the mailbox is told to be.
    ensures opening { OpeningIsFollowed }
{}

/// What is told of UIDs is heard: whatever a client knew, when it has read the line of a change of flags, the flags after a STORE
/// by UID, or the answer to a FETCH by UID or for UID, it knows the UID of that message (7.5.2). And what it knows of UIDs it
/// doesn't forget: neither by these texts, nor by the lines of changes, as long as the message is there.
pub fn uids_are_heard()
    // Once a client whose list is as long as the view has read such a text it knows that message by its UID, whatever it knew before.
    ensures change { ChangeTellsUid }
    ensures store { StoreTellsUid }
    ensures fetch { FetchTellsUid }

    // Each message that it knows by its UID it knows so behind the answer about any row, and behind the flags after a STORE.
    ensures row { RowKeepsUids }
    ensures flags { FlagsKeepUids }

    // So it does behind the lines of changes, but for those messages that go.
    ensures lines { LinesKeepUids }
{}

/// The tag of each command that is read begins with no star and has no LF, and so does that of an IDLE or an APPEND while it lasts. Over any store,
/// whatever it answers: after the answer to any line but SELECT, EXAMINE, CLOSE and UNSELECT, a client that was right about the session's view is
/// right about its view then. So it is of a line that is no command, of the line that ends an IDLE, of what stands behind a literal and of
/// the verdict on a message; a line that is too long leaves the list as it was. What the store shows and answers is to fit the view (`SeesAll`), and
/// the numbers of the view and of the command, and the names of mailboxes, are to be such as can be printed (`MayAsk`).
pub fn answers_are_followed()
    // What is read as a command's tag is a tag, and those that a session keeps stay tags.
    ensures tags { TagsAreTags }
    ensures kept_tags { KeptTagsAreTags }

    // By the answer to any line but SELECT, EXAMINE, CLOSE and UNSELECT who was right about the view before is right about the view then.
    ensures answer { AnswerIsFollowed }

    // The answer to a line that is too long tells nothing of messages.
    ensures long_line { LongLineTellsNothing }

    // By the answer to a verdict who was right about the view before is right about the view then.
    ensures verdict { VerdictIsFollowed }
{}

/// So it is of a whole talk in one mailbox: lines, lines that are too long, turns of an IDLE, literals and verdicts, one behind the other, over any
/// store. A client that was right about the session's view reads all that is written, however it is cut into pieces, and
/// is right about the view to which it all leads.
pub fn talks_are_followed()
    ensures { TalkIsFollowed }
{}
