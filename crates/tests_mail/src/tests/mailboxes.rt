//! What a mailbox does with a few copies and clients, as tables: each line is a call with what it is
//! to answer. One function makes the calls, since a test with many of them takes long to prove.

ghost use Rattle.std.specs.Prelude.{◌<◌};

use super::support::{
    DELETED, EXAMPLE_DATE, ONE_SEEN, SEEN, SMALL, example_date, flags_read, lines_are,
};
use change_ring::{Change, FlagOp, Flags, NO_FLAGS};
use cursor_set::{CursorHandle, FeedFault, Stranger};
use delivery_token::{CopyKey, Job, Refusal, Text, Verdict};
use mail_date::{Stamp, read_internal_date};
use mailbox::{
    History, Limits, MailFault, Mailbox, Opening, Status, every_mailbox_keeps, verdict_of,
};
use std::alloc::{AllocError, Global};

const GROWING: Limits = Limits {
    ring_max: 32,
    ..SMALL
};

// A call, and what it is to answer.
enum Act {
    // A copy for a recipient: the mailbox's number, the UID and the position.
    Deliver(u8, &'static [u8], Result<(u8, u32, usize), Refusal>),
    // The same, of a copy that has flags.
    Bring(u8, Flags, Result<(u8, u32, usize), Refusal>),
    Count(Status),
    Accepted(&'static [(CopyKey, u32)]),
    // Where the window begins, and its changes in one run.
    Window(u64, &'static [Change]),
    // Where the window begins, and how many changes it has.
    Kept(u64, usize),
    // The UIDs that the client counts.
    View(&'static [u32]),
    // The client is a stranger, who counts none.
    NoView,
    // Whether \Seen is set: the flags, and whether they became others.
    Read(u32, bool, Result<Option<(Flags, bool)>, MailFault>),
    Store(u32, FlagOp, Result<Option<Flags>, MailFault>),
    // The same for so many UIDs, the multiples of the first number.
    StoreEach(u32, u32, FlagOp, Flags),
    Feed(Result<usize, FeedFault>),
    Expunge(Option<&'static [u32]>, Result<usize, MailFault>),
    // These UIDs; it is never refused.
    Discard(&'static [u32]),
    // The lines since the last such act.
    Lines(&'static [u8]),
}

const KEY: CopyKey = CopyKey {
    seat: 2,
    serial: 5,
    message: 0,
    recipient: 0,
};

fn job(alloc: Global, recipient: u8, bytes: &[u8], flags: Flags) -> Result<Job, AllocError> {
    Ok(Job {
        key: CopyKey { recipient, ..KEY },
        mailbox: 3,
        text: Text::new(Vec::from_slice(alloc, bytes)?)?,
        flags,
    })
}

// Whether a copy is delivered as it should be.
fn delivers(
    alloc: Global,
    mailbox: &mut Mailbox,
    recipient: u8,
    bytes: &[u8],
    flags: Flags,
    wanted: Result<(u8, u32, usize), Refusal>,
) -> Result<bool, AllocError> {
    let copy = job(alloc, recipient, bytes, flags)?;
    let delivered = mailbox.deliver(&copy);
    let is_so = match &delivered {
        Ok(r) => r.key() == copy.key && wanted == Ok((r.mailbox(), r.uid(), r.position())),
        Err(refusal) => wanted == Err(*refusal),
    };
    let _ = verdict_of(delivered);
    Ok(is_so)
}

fn has_accepted(mailbox: &Mailbox, copies: &[(CopyKey, u32)]) -> bool {
    mailbox.accepted() == copies
}

fn has_window(mailbox: &Mailbox, wanted: u64, changes: &[Change]) -> bool {
    let (base, older, newer) = mailbox.tail();
    base == wanted && older == changes && newer.is_empty()
}

// Where the window begins, and how many changes it has.
fn kept(mailbox: &Mailbox) -> (u64, usize) {
    let (base, older, newer) = mailbox.tail();
    (base, older.len().saturating_add(newer.len()))
}

fn counts(mailbox: &Mailbox, handle: &CursorHandle, uids: &[u32]) -> bool {
    match mailbox.view(handle) {
        Ok(view) => view.uids() == uids,
        Err(_stranger) => false,
    }
}

fn stores_each(
    mailbox: &mut Mailbox,
    handle: &CursorHandle,
    every: u32,
    count: u32,
    op: FlagOp,
    wanted: Flags,
) -> bool {
    for k in 1..=count {
        if mailbox.store(handle, every.saturating_mul(k), op) != Ok(Some(wanted)) {
            return false;
        }
    }
    true
}

// Whether a call that is no client's answers as it should.
fn tells(alloc: Global, mailbox: &mut Mailbox, act: &Act) -> Result<bool, AllocError> {
    match act {
        Act::Deliver(recipient, bytes, wanted) => {
            delivers(alloc, mailbox, *recipient, bytes, NO_FLAGS, *wanted)
        }
        Act::Bring(recipient, flags, wanted) => {
            delivers(alloc, mailbox, *recipient, b"hi\r\n", *flags, *wanted)
        }
        Act::Count(status) => Ok(mailbox.status() == *status),
        Act::Accepted(copies) => Ok(has_accepted(mailbox, copies)),
        Act::Window(base, changes) => Ok(has_window(mailbox, *base, changes)),
        Act::Kept(base, count) => Ok(kept(mailbox) == (*base, *count)),
        Act::Discard(uids) => Ok(mailbox.discard(uids).is_ok()),
        _ => Ok(false),
    }
}

// Whether an act answers as it should.
fn step(
    alloc: Global,
    mailbox: &mut Mailbox,
    handle: &mut CursorHandle,
    out: &mut Vec<u8>,
    act: &Act,
) -> Result<bool, AllocError> {
    match act {
        Act::View(uids) => Ok(counts(mailbox, handle, uids)),
        Act::NoView => Ok(mailbox.view(handle).is_err()),
        Act::Read(uid, mark, wanted) => Ok(
            flags_read(mailbox.read(handle, *uid, *mark), *uid) == *wanted,
        ),
        Act::Store(uid, op, wanted) => Ok(mailbox.store(handle, *uid, *op) == *wanted),
        Act::StoreEach(every, count, op, wanted) => {
            Ok(stores_each(mailbox, handle, *every, *count, *op, *wanted))
        }
        Act::Feed(wanted) => Ok(mailbox.feed(handle, 64, 0, out) == *wanted),
        Act::Expunge(set, wanted) => Ok(mailbox.expunge(handle, *set, 0, out) == *wanted),
        Act::Lines(wanted) => Ok(lines_are(out, wanted)),
        _ => tells(alloc, mailbox, act),
    }
}

// The position of the first act that answers otherwise, where there is one.
fn play(
    alloc: Global,
    mailbox: &mut Mailbox,
    handle: &mut CursorHandle,
    acts: &[Act],
) -> Result<Option<usize>, AllocError> {
    let mut out = Vec::new(alloc);
    for k in 0..acts.len() {
        if !step(alloc, mailbox, handle, &mut out, &acts[k])? {
            return Ok(Some(k));
        }
    }
    every_mailbox_keeps(mailbox);
    Ok(None)
}

// So many messages more.
fn fill(alloc: Global, mailbox: &mut Mailbox, messages: u32) -> Result<(), AllocError> {
    let copy = job(alloc, 0, b"hi\r\n", NO_FLAGS)?;
    for _message in 0..messages {
        let Verdict::Stored { uid: _ } = verdict_of(mailbox.deliver(&copy)) else {
            return Err(AllocError);
        };
    }
    Ok(())
}

// A mailbox with so many messages, whose UIDs begin at 1.
fn filled(alloc: Global, number: u8, limits: Limits, messages: u32) -> Result<Mailbox, AllocError>
    requires { 0 < limits.ring }
{
    let mut mailbox = Mailbox::new(alloc, number, 7, 1, limits, History::Kept)?;
    fill(alloc, &mut mailbox, messages)?;
    Ok(mailbox)
}

// A client's handle, where one can be had.
fn opened(mailbox: &mut Mailbox) -> Result<(CursorHandle, Opening), AllocError> {
    if !mailbox.can_open() {
        return Err(AllocError);
    }
    let Ok(both) = mailbox.open_cursor() else {
        return Err(AllocError);
    };
    Ok(both)
}

// How many messages go where a client leaves.
fn leaves(mailbox: &mut Mailbox, handle: CursorHandle, remove: bool) -> Result<usize, MailFault> {
    match mailbox.close_cursor(handle, remove) {
        Ok(gone) => Ok(gone),
        Err((_handle, fault)) => Err(fault),
    }
}

// What a client sees that opens its cursor, and what then happens until it leaves.
struct Case {
    name: &'static str,
    limits: Limits,
    history: History,
    first_uid: u32,
    messages: u32,
    opening: Opening,
    acts: &'static [Act],
    // Whether messages with \Deleted go as it leaves.
    remove: bool,
    // How many go then, and what the window has.
    left: (usize, (u64, usize)),
}

// An empty mailbox whose UIDs begin at 10.
const NONE_BEFORE_TEN: Opening = Opening {
    count: 0,
    uidnext: 10,
    uidvalidity: 77,
};

const CASES: &[Case] = &[
    Case {
        name: "two copies fill a mailbox",
        limits: Limits {
            messages: 2,
            ring: 4,
            ring_max: 0,
        },
        history: History::Kept,
        first_uid: 10,
        messages: 0,
        opening: NONE_BEFORE_TEN,
        acts: TWO_COPIES,
        remove: false,
        left: (0, (0, 2)),
    },
    Case {
        name: "copies that are not kept are none",
        limits: SMALL,
        history: History::Unkept,
        first_uid: 10,
        messages: 0,
        opening: NONE_BEFORE_TEN,
        acts: UNKEPT,
        remove: false,
        left: (0, (0, 2)),
    },
    Case {
        name: "a mailbox without UIDs refuses first for that",
        limits: Limits {
            messages: 0,
            ring: 1,
            ring_max: 0,
        },
        history: History::Kept,
        first_uid: u32::MAX,
        messages: 0,
        opening: Opening {
            count: 0,
            uidnext: u32::MAX,
            uidvalidity: 1,
        },
        acts: &[Act::Deliver(0, b"hi\r\n", Err(Refusal::UidSpent))],
        remove: false,
        left: (0, (0, 0)),
    },
    Case {
        name: "a client reads and sets flags",
        limits: SMALL,
        history: History::Kept,
        first_uid: 1,
        messages: 2,
        opening: Opening {
            count: 2,
            uidnext: 3,
            uidvalidity: 7,
        },
        acts: FLAGS,
        remove: false,
        left: (0, (0, 4)),
    },
    Case {
        name: "a copy comes with its flags",
        limits: SMALL,
        history: History::Kept,
        first_uid: 1,
        messages: 0,
        opening: Opening {
            count: 0,
            uidnext: 1,
            uidvalidity: 7,
        },
        acts: BROUGHT,
        remove: false,
        left: (0, (0, 6)),
    },
    Case {
        name: "an expunge shows what was pending and not its own",
        limits: SMALL,
        history: History::Kept,
        first_uid: 1,
        messages: 3,
        opening: Opening {
            count: 3,
            uidnext: 4,
            uidvalidity: 7,
        },
        acts: EXPUNGES,
        remove: true,
        left: (0, (0, 9)),
    },
    Case {
        name: "messages are discarded whatever their flags, and shown later",
        limits: SMALL,
        history: History::Kept,
        first_uid: 1,
        messages: 6,
        opening: Opening {
            count: 6,
            uidnext: 7,
            uidvalidity: 7,
        },
        acts: DISCARDS,
        remove: true,
        left: (1, (0, 14)),
    },
    Case {
        name: "half of a large mailbox goes",
        limits: Limits {
            messages: 32_768,
            ring: 65_536,
            ring_max: 0,
        },
        history: History::Kept,
        first_uid: 1,
        messages: 32_768,
        opening: Opening {
            count: 32_768,
            uidnext: 32_769,
            uidvalidity: 7,
        },
        acts: HALF_GOES,
        remove: false,
        left: (0, (1, 65_536)),
    },
    Case {
        name: "a client that leaves keeps nothing of what goes with it",
        limits: GROWING,
        history: History::Kept,
        first_uid: 1,
        messages: 8,
        opening: Opening {
            count: 8,
            uidnext: 9,
            uidvalidity: 7,
        },
        acts: LEAVES,
        remove: true,
        left: (8, (16, 16)),
    },
];

const BOTH: Flags = Flags {
    deleted: true,
    ..SEEN
};

const LEAVES: &[Act] = &[
    Act::StoreEach(1, 8, FlagOp::Set(DELETED), DELETED),
    Act::StoreEach(1, 8, FlagOp::Insert(SEEN), BOTH),
    Act::Kept(8, 16),
];

const TWO_COPIES: &[Act] = &[
    Act::Deliver(0, b"one\r\n", Ok((3, 10, 0))),
    Act::Deliver(1, b"three\r\n", Ok((3, 11, 1))),
    Act::Deliver(1, b"three\r\n", Err(Refusal::MailboxFull)),
    Act::Count(Status {
        messages: 2,
        uidnext: 12,
        uidvalidity: 77,
        unseen: 2,
        deleted: 0,
        size: 12,
    }),
    Act::Accepted(&[
        (KEY, 10),
        (
            CopyKey {
                recipient: 1,
                ..KEY
            },
            11,
        ),
    ]),
    Act::Window(0, &[Change::Add(10), Change::Add(11)]),
];

const FLAGS: &[Act] = &[
    Act::View(&[1, 2]),
    Act::Read(2, true, Ok(Some((SEEN, true)))),
    Act::Read(2, true, Ok(Some((SEEN, false)))),
    Act::Read(3, false, Ok(None)),
    Act::Store(1, FlagOp::Insert(DELETED), Ok(Some(DELETED))),
    // Flags that stay as they are aren't logged.
    Act::Store(1, FlagOp::Set(DELETED), Ok(Some(DELETED))),
    Act::Store(9, FlagOp::Set(NO_FLAGS), Ok(None)),
    Act::Feed(Ok(2)),
    Act::Lines(b"* 2 FETCH (UID 2 FLAGS (\\Seen))\r\n* 1 FETCH (UID 1 FLAGS (\\Deleted))\r\n"),
];

// A message that was read and has \Flagged.
const STARRED: Flags = Flags {
    flagged: true,
    ..SEEN
};

// That the message is there, and then its flags: what a client is shown of it, and what is counted.
const BROUGHT: &[Act] = &[
    Act::Bring(0, STARRED, Ok((3, 1, 0))),
    Act::Window(0, &[Change::Add(1), Change::Flags(1, STARRED)]),
    Act::Count(ONE_SEEN),
    Act::Feed(Ok(2)),
    Act::Lines(b"* 1 EXISTS\r\n* 1 FETCH (UID 1 FLAGS (\\Flagged \\Seen))\r\n"),
    Act::Bring(1, DELETED, Ok((3, 2, 1))),
    // A copy without a flag is one change.
    Act::Bring(2, NO_FLAGS, Ok((3, 3, 2))),
    Act::Kept(0, 5),
    Act::Count(Status {
        messages: 3,
        uidnext: 4,
        uidvalidity: 7,
        unseen: 2,
        deleted: 1,
        size: 12,
    }),
    // It has \Seen already, so that reading it logs nothing.
    Act::Read(1, true, Ok(Some((STARRED, false)))),
    Act::Read(2, false, Ok(Some((DELETED, false)))),
    Act::Feed(Ok(3)),
    Act::Lines(b"* 2 EXISTS\r\n* 2 FETCH (UID 2 FLAGS (\\Deleted))\r\n* 3 EXISTS\r\n"),
    Act::Expunge(None, Ok(1)),
    Act::Feed(Ok(1)),
    Act::Lines(b"* 2 EXPUNGE\r\n"),
    Act::View(&[1, 3]),
];

const EXPUNGES: &[Act] = &[
    Act::StoreEach(1, 3, FlagOp::Insert(DELETED), DELETED),
    Act::Expunge(Some(&[2, 5]), Ok(1)),
    Act::Lines(
        b"* 1 FETCH (UID 1 FLAGS (\\Deleted))\r\n* 2 FETCH (UID 2 FLAGS (\\Deleted))\r\n* 3 FETCH (UID 3 FLAGS (\\Deleted))\r\n",
    ),
    // A set in another order, with a UID twice.
    Act::Expunge(Some(&[3, 1, 3]), Ok(2)),
    Act::Lines(b"* 2 EXPUNGE\r\n"),
    Act::Feed(Ok(2)),
    Act::Lines(b"* 1 EXPUNGE\r\n* 1 EXPUNGE\r\n"),
    Act::View(&[]),
];

const DISCARDS: &[Act] = &[
    Act::Store(2, FlagOp::Set(BOTH), Ok(Some(BOTH))),
    Act::Store(6, FlagOp::Set(DELETED), Ok(Some(DELETED))),
    Act::Feed(Ok(2)),
    Act::Lines(
        b"* 2 FETCH (UID 2 FLAGS (\\Deleted \\Seen))\r\n* 6 FETCH (UID 6 FLAGS (\\Deleted))\r\n",
    ),
    // No message has the last UID. The one that has \Deleted and isn't named stays.
    Act::Discard(&[1, 2, 9]),
    Act::Window(0, DISCARDED),
    Act::Read(1, false, Ok(None)),
    Act::Read(3, false, Ok(Some((NO_FLAGS, false)))),
    Act::Count(Status {
        messages: 4,
        uidnext: 7,
        uidvalidity: 7,
        unseen: 4,
        deleted: 1,
        size: 16,
    }),
    // Nothing was shown of it so far.
    Act::View(&[1, 2, 3, 4, 5, 6]),
    Act::Lines(b""),
    // In another order, with a UID twice and one that is gone: they go in the order of the messages.
    Act::Discard(&[5, 1, 3, 5]),
    // None of these is there, nor is any UID named.
    Act::Discard(&[1, 7]),
    Act::Discard(&[]),
    Act::Feed(Ok(4)),
    Act::Lines(b"* 1 EXPUNGE\r\n* 1 EXPUNGE\r\n* 1 EXPUNGE\r\n* 2 EXPUNGE\r\n"),
    Act::View(&[4, 6]),
    Act::Read(4, true, Ok(Some((SEEN, true)))),
];

// What is logged up to the first discard.
const DISCARDED: &[Change] = &[
    Change::Add(1),
    Change::Add(2),
    Change::Add(3),
    Change::Add(4),
    Change::Add(5),
    Change::Add(6),
    Change::Flags(2, BOTH),
    Change::Flags(6, DELETED),
    Change::Gone(1),
    Change::Gone(2),
];

const UNKEPT: &[Act] = &[
    Act::Deliver(0, b"hi\r\n", Ok((3, 10, 0))),
    Act::Deliver(1, b"hi\r\n", Ok((3, 11, 1))),
    Act::Accepted(&[]),
];

const HALF_GOES: &[Act] = &[
    Act::StoreEach(2, 16_384, FlagOp::Insert(DELETED), DELETED),
    Act::Expunge(None, Ok(16_384)),
    Act::Read(32_767, false, Ok(Some((NO_FLAGS, false)))),
    Act::Read(32_768, false, Ok(None)),
    Act::Deliver(0, b"hi\r\n", Ok((3, 32_769, 32_768))),
    Act::Count(Status {
        messages: 16_385,
        uidnext: 32_770,
        uidvalidity: 7,
        unseen: 16_385,
        deleted: 0,
        size: 65_540,
    }),
];

// Whether all is answered as a case tells, in this mailbox.
fn goes(alloc: Global, mailbox: &mut Mailbox, case: &Case) -> Result<bool, AllocError> {
    fill(alloc, mailbox, case.messages)?;
    let (mut handle, opening) = opened(mailbox)?;
    let at = play(alloc, mailbox, &mut handle, case.acts)?;
    let gone = leaves(mailbox, handle, case.remove);
    let (count, window) = case.left;
    let left = gone == Ok(count) && kept(mailbox) == window;
    Ok(opening == case.opening && at.is_none() && left)
}

fn plays(alloc: Global, case: &Case) -> Result<bool, AllocError> {
    if case.limits.ring == 0 {
        return Ok(false);
    }
    let (uidvalidity, first_uid) = (case.opening.uidvalidity, case.first_uid);
    let mut mailbox = Mailbox::new(alloc, 3, uidvalidity, first_uid, case.limits, case.history)?;
    goes(alloc, &mut mailbox, case)
}

#[test]
fn each_call_answers_as_its_table_tells(rt: HostRuntime) -> Result<(), AllocError> {
    for case in CASES {
        assert!(rt; plays(rt.alloc(), case)?, "{}", case.name);
    }
    Ok(())
}

const STRANGER: &[Act] = &[
    Act::NoView,
    Act::Feed(Err(FeedFault::Stranger)),
    Act::Read(1, true, Err(MailFault::Stranger)),
    Act::Store(1, FlagOp::Set(DELETED), Err(MailFault::Stranger)),
    Act::Expunge(None, Err(MailFault::Stranger)),
    Act::Lines(b""),
];

// A handle of another mailbox is refused by this one, which keeps all that it had: the handle as it was given back.
fn refused_by(
    alloc: Global,
    mailbox: &mut Mailbox,
    own: CursorHandle,
) -> Result<CursorHandle, AllocError> {
    let mut handle = own;
    let before = mailbox.status();
    let at = play(alloc, mailbox, &mut handle, STRANGER)?;
    let Err((back, fault)) = mailbox.close_cursor(handle, true) else {
        return Err(AllocError);
    };
    let same = mailbox.status() == before && kept(mailbox) == (0, 1);
    if at.is_none() && fault == MailFault::Stranger && same {
        Ok(back)
    } else {
        Err(AllocError)
    }
}

fn is_refused(alloc: Global, own: &mut Mailbox, other: &mut Mailbox) -> bool {
    let Ok((handle, _opening)) = opened(own) else {
        return false;
    };
    match refused_by(alloc, other, handle) {
        Ok(back) => leaves(own, back, true) == Ok(0),
        Err(_) => false,
    }
}

fn refuses(alloc: Global) -> Result<bool, AllocError> {
    let mut own = filled(alloc, 0, SMALL, 1)?;
    let mut other = filled(alloc, 1, SMALL, 1)?;
    Ok(is_refused(alloc, &mut own, &mut other))
}

#[test]
fn a_handle_of_another_mailbox_is_a_stranger(rt: HostRuntime) -> Result<(), AllocError> {
    assert!(rt; refuses(rt.alloc())?);
    Ok(())
}

const GROWS: &[Act] = &[
    Act::StoreEach(1, 8, FlagOp::Insert(SEEN), SEEN),
    Act::StoreEach(1, 8, FlagOp::Remove(SEEN), NO_FLAGS),
    Act::StoreEach(1, 8, FlagOp::Insert(SEEN), SEEN),
    Act::StoreEach(1, 8, FlagOp::Remove(SEEN), NO_FLAGS),
    // 40 changes, of which both are to be shown the last 32.
    Act::Kept(8, 32),
    Act::Feed(Ok(32)),
    Act::Store(1, FlagOp::Set(SEEN), Ok(Some(SEEN))),
    Act::Kept(9, 32),
];

const LAPPED: &[Act] = &[
    Act::Read(1, false, Err(MailFault::Lapped)),
    Act::Store(1, FlagOp::Set(NO_FLAGS), Err(MailFault::Lapped)),
];

// Whether two clients are told what their tables say, of whom the second is shown nothing.
fn falls_behind(alloc: Global, mailbox: &mut Mailbox) -> Result<bool, AllocError> {
    let (mut handle, _opening) = opened(mailbox)?;
    let (mut behind, _opening) = opened(mailbox)?;
    let ahead = play(alloc, mailbox, &mut handle, GROWS)?;
    let lapped = play(alloc, mailbox, &mut behind, LAPPED)?;
    let gone = leaves(mailbox, behind, true) == Ok(0);
    Ok(ahead.is_none() && lapped.is_none() && gone && leaves(mailbox, handle, false) == Ok(0))
}

#[test]
fn a_window_grows_for_a_client_that_falls_behind(rt: HostRuntime) -> Result<(), AllocError> {
    let mut mailbox = filled(rt.alloc(), 0, GROWING, 8)?;
    assert!(rt; falls_behind(rt.alloc(), &mut mailbox)?);
    Ok(())
}

// A copy that came with the date of the example.
fn dated(alloc: Global) -> Result<Job, AllocError> {
    let copy = job(alloc, 0, b"hi\r\n", NO_FLAGS)?;
    let date = read_internal_date(EXAMPLE_DATE);
    let text = Text::with_date(Vec::from_slice(alloc, b"hi\r\n")?, date)?;
    Ok(Job { text, ..copy })
}

// What date the message of this UID is read with.
fn date_read(mailbox: &mut Mailbox, handle: &CursorHandle, uid: u32) -> Option<Stamp> {
    match mailbox.read(handle, uid, false) {
        Ok(Some(row)) => Some(row.text.date()),
        _ => None,
    }
}

fn keeps_its_date(alloc: Global) -> Result<bool, AllocError> {
    let mut mailbox = filled(alloc, 0, SMALL, 1)?;
    let is_stored = verdict_of(mailbox.deliver(&dated(alloc)?)) == Verdict::Stored { uid: 2 };
    let (handle, _opening) = opened(&mut mailbox)?;
    let date = date_read(&mut mailbox, &handle, 2);
    Ok(leaves(&mut mailbox, handle, false) == Ok(0) && is_stored && date == Some(example_date()))
}

#[test]
fn a_message_is_read_with_the_date_that_came_with_it(rt: HostRuntime) -> Result<(), AllocError> {
    assert!(rt; keeps_its_date(rt.alloc())?);
    Ok(())
}
