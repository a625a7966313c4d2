//! What a session answers to whoever calls it, beside what it says: what its client may send next, which mailbox is selected, the message that it submits, and
//! that it has ended. What it says is shown by scripts, but where no message is taken, and where its store or memory refuses.

use crate::stores::{deliver, store};
use budget::Budget;
use change_ring::{Flags, NO_FLAGS};
use delivery_token::{Refusal, Verdict};
use house::CoreStore;
use imap_session::{
    Admission, After, Folder, Profile, Selected, Session, SessionFault, admission_of,
};
use std::alloc::{AllocError, Global};

/// The mailboxes of a user with one, the second of the store's.
pub fn folders(alloc: Global) -> Result<Vec<Folder>, AllocError> {
    let name = Vec::from_slice(alloc, b"INBOX")?;
    let mut folders = Vec::new(alloc);
    folders.push(Folder::new(name, 1))?;
    Ok(folders)
}

/// How a client of the standard profile comes in, which appends messages of at most so many bytes, or none.
pub fn standard(most: Option<u32>) -> Admission {
    Admission {
        max_message: most,
        profile: Profile::Standard,
        login: None,
        budget: Budget::unlimited(),
    }
}

// A session that takes messages of at most so many bytes, or none.
fn session(alloc: Global, most: Option<u32>) -> Result<Session, AllocError> {
    Ok(Session::new(folders(alloc)?, standard(most)))
}

// What is done with a session and its store, and what is wanted of it.
#[derive(Clone, Copy)]
enum Step {
    Greets,
    // A message comes to the mailbox.
    Delivered,
    // From now on the store takes the session for another one, which has entered no mailbox.
    Sits(u8),
    // A line, and what comes of it.
    Line(&'static [u8], Result<After, SessionFault>),
    LongLine(Result<After, SessionFault>),
    // A piece of which so many bytes are taken, and how many are due then.
    Literal(&'static [u8], usize, usize),
    // The number of the message that was submitted, its text and its flags.
    Submitted(u32, &'static [u8], Flags),
    Hears(Verdict),
    IdleTurn(Result<usize, SessionFault>),
    // What was said since this was last asked.
    Said(&'static [u8]),
    // What was said by now is no matter.
    Forget,
    Idling(Option<&'static [u8]>),
    IsIdling(bool),
    Selected(Option<Selected>),
    Ended(bool),
}

// Whether the message that was submitted is this, for the user's mailbox.
fn is_submitted(session: &Session, message: u32, text: &[u8], flags: Flags) -> bool {
    match session.submission() {
        None => false,
        Some(append) => {
            append.message == message
                && append.mailbox == 1
                && append.text.as_slice() == text
                && append.flags == flags
        }
    }
}

// Whether what was said is this; from here on it is asked of what comes after.
fn said(out: &mut Vec<u8>, wanted: &[u8]) -> bool {
    let is_said = out.as_slice() == wanted;
    out.clear();
    is_said
}

// Whether a step comes to what is wanted.
fn goes(
    alloc: Global,
    session: &mut Session,
    store: &mut CoreStore,
    step: Step,
    out: &mut Vec<u8>,
) -> bool {
    match step {
        Step::Greets => session.greet(out).is_ok(),
        Step::Delivered => deliver(alloc, &mut store.core, 1),
        Step::Sits(position) => {
            store.session = position;
            true
        }
        Step::Line(line, wanted) => {
            !session.awaits_verdict() && session.line(alloc, line, store, out) == wanted
        }
        Step::LongLine(wanted) => session.long_line(out) == wanted,
        Step::Literal(piece, taken, due) => {
            session.literal(piece) == taken && session.literal_due() == due
        }
        Step::Submitted(message, text, flags) => is_submitted(session, message, text, flags),
        Step::Hears(verdict) => {
            session.awaits_verdict() && session.appended(verdict, store, out) == Ok(After::Go)
        }
        Step::IdleTurn(wanted) => session.idle_turn(store, out) == wanted,
        Step::Said(wanted) => said(out, wanted),
        Step::Forget => {
            out.clear();
            true
        }
        Step::Idling(tag) => session.idling() == tag,
        Step::IsIdling(wanted) => session.is_idling() == wanted,
        Step::Selected(wanted) => session.selected() == wanted,
        Step::Ended(wanted) => session.ended() == wanted,
    }
}

// The first step that doesn't come to what is wanted.
fn first_unlike(
    alloc: Global,
    session: &mut Session,
    store: &mut CoreStore,
    steps: &[Step],
    out: &mut Vec<u8>,
) -> Option<usize> {
    for (position, step) in steps.iter().enumerate() {
        if !goes(alloc, session, store, *step, out) {
            return Some(position);
        }
    }
    None
}

// Goes through these steps with a session and an empty store, and gives the position of the first that doesn't come to what is wanted.
fn played_with(
    alloc: Global,
    session: &mut Session,
    steps: &[Step],
) -> Result<Option<usize>, AllocError> {
    let mut store = store(alloc)?;
    Ok(first_unlike(alloc, session, &mut store, steps, &mut Vec::new(alloc)))
}

fn played(alloc: Global, most: Option<u32>, steps: &[Step]) -> Result<Option<usize>, AllocError> {
    let mut session = session(alloc, most)?;
    played_with(alloc, &mut session, steps)
}

const SELECT: Step = Step::Line(b"a1 SELECT inbox", Ok(After::Go));

const SEEN: Step = Step::Line(b"s1 STORE 1 FLAGS.SILENT (\\Seen)", Ok(After::Go));

const UNSEEN: Step = Step::Line(b"s2 STORE 1 FLAGS.SILENT ()", Ok(After::Go));

const ENTERED: Step = Step::Selected(Some(Selected {
    mailbox: 1,
    read_only: false,
}));

const EXAMINED: Step = Step::Selected(Some(Selected {
    mailbox: 1,
    read_only: true,
}));

const ENDS: &[Step] = &[
    Step::Selected(None),
    SELECT,
    ENTERED,
    Step::Line(b"a2 EXAMINE INBOX", Ok(After::Go)),
    EXAMINED,
    Step::Line(b"a3 UNSELECT", Ok(After::Go)),
    Step::Selected(None),
    Step::Ended(false),
    Step::Line(b"a4 LOGOUT", Ok(After::Bye)),
    Step::Ended(true),
    Step::Forget,
    Step::Line(b"b1 NOOP", Err(SessionFault::Ended)),
    Step::LongLine(Err(SessionFault::Ended)),
    Step::IdleTurn(Err(SessionFault::Ended)),
    Step::Said(b""),
];

// A tag of 32 bytes is kept in place, and one of 33 is not.
const IDLES: &[Step] = &[
    Step::Delivered,
    SELECT,
    SEEN,
    Step::IdleTurn(Ok(0)),
    Step::Line(b"a2 IDLE", Ok(After::Idle)),
    Step::IsIdling(true),
    Step::Idling(Some(b"a2")),
    Step::Forget,
    Step::IdleTurn(Ok(1)),
    Step::IdleTurn(Ok(0)),
    Step::Said(b"* 1 FETCH (UID 1 FLAGS (\\Seen))\r\n"),
    Step::Line(b"done ", Ok(After::Go)),
    Step::IsIdling(false),
    Step::Idling(None),
    Step::LongLine(Ok(After::Go)),
    Step::Line(b"a1234567890123456789012345678901 IDLE", Ok(After::Idle)),
    Step::Idling(Some(b"a1234567890123456789012345678901")),
    Step::LongLine(Ok(After::Go)),
    Step::Line(b"a12345678901234567890123456789012 IDLE", Ok(After::Idle)),
    Step::Idling(Some(b"a12345678901234567890123456789012")),
];

// A session that missed changes ends, also in its turn while it idles. The mailbox stays noted as selected.
const MISSES: &[Step] = &[
    Step::Delivered,
    SELECT,
    SEEN,
    UNSEEN,
    SEEN,
    UNSEEN,
    SEEN,
    Step::Line(b"a2 IDLE", Ok(After::Idle)),
    Step::Forget,
    Step::IdleTurn(Ok(0)),
    Step::Said(b"* BYE Too many changes were missed\r\n"),
    Step::Ended(true),
    Step::IsIdling(false),
    ENTERED,
    Step::IdleTurn(Err(SessionFault::Ended)),
    Step::Said(b""),
];

// So does one that its store doesn't know.
const IS_STRANGE: &[Step] = &[
    SELECT,
    Step::Sits(1),
    Step::Forget,
    Step::Line(b"a2 NOOP", Ok(After::Bye)),
    Step::Said(b"* BYE Internal fault\r\n"),
    Step::Ended(true),
    ENTERED,
];

const SEEN_AND_FLAGGED: Flags = Flags {
    seen: true,
    flagged: true,
    ..NO_FLAGS
};

const APPENDS: &[Step] = &[
    Step::Line(
        b"a1 APPEND INBOX (\\Seen \\Flagged) {2+}",
        Ok(After::Literal(2)),
    ),
    Step::Literal(b"o", 1, 1),
    Step::Literal(b"", 0, 1),
    Step::Literal(b"k\r\na2 NOOP\r\n", 1, 0),
    Step::Literal(b"\r\n", 0, 0),
    Step::Said(b""),
    Step::Line(b"", Ok(After::Submit)),
    Step::Submitted(0, b"ok", SEEN_AND_FLAGGED),
    Step::Hears(Verdict::Refused(Refusal::NoMemory)),
    Step::Said(b"a1 NO Out of memory\r\n"),
    Step::Line(b"a2 APPEND inbox {0}", Ok(After::Literal(0))),
    Step::Said(b"+ ready\r\n"),
    Step::Line(b"", Ok(After::Submit)),
    Step::Submitted(1, b"", NO_FLAGS),
    Step::Hears(Verdict::Stored { uid: 9 }),
    Step::Said(b"a2 OK [APPENDUID 7 9] APPEND completed\r\n"),
    Step::Line(b"a3 APPEND INBOX {1+}", Ok(After::Literal(1))),
    Step::Literal(b"xy", 1, 0),
    Step::LongLine(Ok(After::Go)),
    Step::Line(b"a4 APPEND INBOX {3+} x", Ok(After::Go)),
    Step::Literal(b"abc", 0, 0),
    Step::Line(b"a5 APPEND INBOX {4097+}", Ok(After::Bye)),
];

// No message is taken: that is said before one is asked for, and behind one that came unasked.
const TAKES_NONE: &[Step] = &[
    Step::Line(b"a1 APPEND Nope {1}", Ok(After::Go)),
    Step::Said(b"a1 NO [TRYCREATE] No such mailbox\r\n"),
    Step::Line(b"a2 APPEND INBOX {1}", Ok(After::Go)),
    Step::Said(b"a2 NO [CANNOT] Not offered here\r\n"),
    Step::Line(b"a3 APPEND INBOX {4+}", Ok(After::Literal(4))),
    Step::Literal(b"a4 N", 4, 0),
    Step::Line(b"", Ok(After::Go)),
    Step::Said(b"a3 NO [CANNOT] Not offered here\r\n"),
    Step::Line(b"a4 APPEND INBOX {4097+}", Ok(After::Bye)),
    Step::Said(b"* BYE Literal too big\r\n"),
];

// A client of the compatible profile logs in before all else, and is offered what IMAP4rev1 has besides.
const IS_COMPATIBLE: &[Step] = &[
    Step::Greets,
    Step::Said(
        b"* OK [CAPABILITY IMAP4rev2 IMAP4rev1 AUTH=PLAIN ENABLE ESEARCH ID IDLE LITERAL- MOVE NAMESPACE SASL-IR UIDPLUS UNSELECT] \
IMAP4rev2 server ready\r\n",
    ),
    Step::Line(b"a1 CAPABILITY", Ok(After::Go)),
    Step::Said(
        b"* CAPABILITY IMAP4rev2 IMAP4rev1 AUTH=PLAIN ENABLE ESEARCH ID IDLE LITERAL- MOVE NAMESPACE SASL-IR UIDPLUS UNSELECT\r\n\
a1 OK CAPABILITY completed\r\n",
    ),
    Step::Line(b"a2 SELECT INBOX", Ok(After::Go)),
    Step::Said(b"a2 BAD Wrong state\r\n"),
    Step::Selected(None),
    Step::Line(b"a3 LOGIN alice SESAME", Ok(After::Go)),
    Step::Said(b"a3 NO [AUTHENTICATIONFAILED] Another user's port\r\n"),
    Step::Line(b"a4 LOGIN \"SMITH\" SESAME", Ok(After::Go)),
    Step::Said(b"a4 OK LOGIN completed\r\n"),
    Step::Line(b"a5 LOGIN SMITH SESAME", Ok(After::Go)),
    Step::Said(b"a5 BAD Wrong state\r\n"),
    Step::Line(b"a6 CHECK", Ok(After::Go)),
    Step::Said(b"a6 OK CHECK completed\r\n"),
    Step::Line(b"a7 LSUB \"\" *", Ok(After::Go)),
    Step::Said(b"* LSUB () \"/\" INBOX\r\na7 OK LSUB completed\r\n"),
    Step::Line(b"a8 SUBSCRIBE Inbox", Ok(After::Go)),
    Step::Said(b"a8 OK SUBSCRIBE completed\r\n"),
    Step::Line(b"a9 SUBSCRIBE Play", Ok(After::Go)),
    Step::Said(b"a9 NO [NONEXISTENT] No such mailbox\r\n"),
    Step::Delivered,
    Step::Line(b"b1 STATUS INBOX (RECENT UNSEEN)", Ok(After::Go)),
    Step::Said(b"* STATUS INBOX (RECENT 0 UNSEEN 1)\r\nb1 OK STATUS completed\r\n"),
    Step::Line(b"b2 SELECT INBOX", Ok(After::Go)),
    ENTERED,
    Step::Said(
        b"* FLAGS (\\Answered \\Flagged \\Deleted \\Seen \\Draft)\r\n* 1 EXISTS\r\n\
* OK [UIDVALIDITY 7] UIDs valid\r\n* OK [UIDNEXT 2] Predicted next UID\r\n\
* OK [PERMANENTFLAGS (\\Answered \\Flagged \\Deleted \\Seen \\Draft)] Flags kept\r\n\
* LIST () \"/\" INBOX\r\n* 0 RECENT\r\nb2 OK [READ-WRITE] SELECT completed\r\n",
    ),
];

// The same in the session of a client that is to log in first.
fn played_compatible(alloc: Global, steps: &[Step]) -> Result<Option<usize>, AllocError> {
    let admission = admission_of(alloc, true, Some(10), b"SMITH", Budget::unlimited())?;
    let mut session = Session::new(folders(alloc)?, admission);
    played_with(alloc, &mut session, steps)
}

#[test]
fn a_client_of_the_compatible_profile_logs_in(rt: HostRuntime) {
    assert_eq!(rt; played_compatible(rt.alloc(), IS_COMPATIBLE), Ok(None));
}

#[test]
fn a_session_selects_and_ends(rt: HostRuntime) {
    assert_eq!(rt; played(rt.alloc(), Some(10), ENDS), Ok(None));
    assert_eq!(rt; played(rt.alloc(), Some(10), MISSES), Ok(None));
    assert_eq!(rt; played(rt.alloc(), Some(10), IS_STRANGE), Ok(None));
}

#[test]
fn a_session_idles(rt: HostRuntime) {
    assert_eq!(rt; played(rt.alloc(), Some(10), IDLES), Ok(None));
}

#[test]
fn a_session_takes_messages_or_none(rt: HostRuntime) {
    assert_eq!(rt; played(rt.alloc(), Some(10), APPENDS), Ok(None));
    assert_eq!(rt; played(rt.alloc(), None, TAKES_NONE), Ok(None));
}

// Whether the line is answered, and where memory is refused nothing is said and it is answered the next time.
fn is_answered_again(
    alloc: Global,
    session: &mut Session,
    store: &mut CoreStore,
    out: &mut Vec<u8>,
) -> bool {
    if session.awaits_verdict() {
        return false;
    }
    let mut after = session.line(alloc, b"a1 LOGOUT", store, out);
    if after == Err(SessionFault::NoMemory) && out.is_empty() && !session.ended() {
        after = session.line(alloc, b"a1 LOGOUT", store, out);
    }
    after == Ok(After::Bye)
        && out.as_slice() == b"* BYE Logging out\r\na1 OK LOGOUT completed\r\n".as_slice()
}

fn answers_again(alloc: Global, session: &mut Session) -> Result<bool, AllocError> {
    let mut store = store(alloc)?;
    Ok(is_answered_again(alloc, session, &mut store, &mut Vec::new(alloc)))
}

// To be run with each allocation refused in turn, too.
#[test]
fn a_refused_line_can_be_sent_again(rt: HostRuntime) -> Result<(), AllocError> {
    let mut session = session(rt.alloc(), None)?;
    assert_eq!(rt; answers_again(rt.alloc(), &mut session), Ok(true));
    Ok(())
}
