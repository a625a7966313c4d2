//! What the calls on a mailbox that is held do, as tables: each line is a call with what it is to
//! answer. One function owns the mailbox and its client's handle, and lends them to the others.

use super::support::{DELETED, SEEN, SMALL, flags_read, lines_are};
use change_ring::{FlagOp, Flags, NO_FLAGS};
use cursor_set::{CursorHandle, Stranger};
use delivery_token::{CopyKey, Job, Refusal, Text};
use mailbox::{History, Limits, MailFault, Mailbox, Opening, Status, verdict_of};
use std::alloc::{AllocError, Global};
use workers_sync::{alter, count, deliver, discard, enter, expunge, feed, leave, read, view};

pub(crate) const LIMITS: Limits = Limits {
    messages: 2,
    ..SMALL
};

const KEY: CopyKey = CopyKey {
    seat: 2,
    serial: 5,
    message: 0,
    recipient: 0,
};

// A call, and what it is to answer.
enum Act {
    // A copy for a recipient: the UID and the position.
    Deliver(u8, Result<(u32, usize), Refusal>),
    Count(Status),
    // The UIDs that the client counts.
    View(Result<&'static [u32], MailFault>),
    // Whether \Seen is set: the flags, and whether they became others.
    Read(u32, bool, Result<Option<(Flags, bool)>, MailFault>),
    Alter(u32, FlagOp, Result<Option<Flags>, MailFault>),
    // How many at most, and how many were shown.
    Feed(usize, Result<usize, MailFault>),
    Expunge(Option<&'static [u32]>, Result<usize, MailFault>),
    Discard(&'static [u32]),
    // The lines since the last such act.
    Lines(&'static [u8]),
}

fn copy_for(alloc: Global, recipient: u8) -> Result<Job, AllocError> {
    Ok(Job {
        key: CopyKey { recipient, ..KEY },
        mailbox: 3,
        text: Text::new(Vec::from_slice(alloc, b"hi\r\n")?)?,
        flags: NO_FLAGS,
    })
}

// Whether a copy is delivered as it should be.
fn delivers(
    alloc: Global,
    mailbox: &mut Mailbox,
    recipient: u8,
    wanted: Result<(u32, usize), Refusal>,
) -> bool {
    let Ok(copy) = copy_for(alloc, recipient) else {
        return false;
    };
    let delivered = deliver(mailbox, &copy);
    let is_so = match &delivered {
        Ok(r) => r.key() == copy.key && r.mailbox() == 3 && wanted == Ok((r.uid(), r.position())),
        Err(refusal) => wanted == Err(*refusal),
    };
    let _ = verdict_of(delivered);
    is_so
}

fn same_uids(counted: &[u32], wanted: &[u32]) -> bool {
    counted == wanted
}

// Whether the client counts these UIDs.
fn counts(mailbox: &Mailbox, handle: &CursorHandle, wanted: Result<&[u32], MailFault>) -> bool {
    match view(mailbox, handle) {
        Ok(counted) => match wanted {
            Ok(uids) => same_uids(counted.uids(), uids),
            Err(_fault) => false,
        },
        Err(Stranger) => wanted.err() == Some(MailFault::Stranger),
    }
}

// Whether an act answers as it should.
fn step(
    alloc: Global,
    mailbox: &mut Mailbox,
    handle: &mut CursorHandle,
    out: &mut Vec<u8>,
    act: &Act,
) -> bool {
    match act {
        Act::Deliver(recipient, wanted) => delivers(alloc, mailbox, *recipient, *wanted),
        Act::Count(status) => count(mailbox) == *status,
        Act::View(wanted) => counts(mailbox, handle, *wanted),
        Act::Read(uid, mark, wanted) => flags_read(read(mailbox, handle, *uid, *mark), *uid)
            == *wanted,
        Act::Alter(uid, op, wanted) => alter(mailbox, handle, *uid, *op) == *wanted,
        Act::Feed(limit, wanted) => feed(mailbox, handle, *limit, 0, out) == *wanted,
        Act::Expunge(set, wanted) => expunge(mailbox, handle, *set, 0, out) == *wanted,
        Act::Discard(uids) => discard(mailbox, uids).is_ok(),
        Act::Lines(wanted) => lines_are(out, wanted),
    }
}

// The position of the first act that answers otherwise, where there is one.
fn play(
    alloc: Global,
    mailbox: &mut Mailbox,
    handle: &mut CursorHandle,
    out: &mut Vec<u8>,
    acts: &[Act],
) -> Option<usize> {
    for (position, act) in acts.iter().enumerate() {
        if !step(alloc, mailbox, handle, out, act) {
            return Some(position);
        }
    }
    None
}

// A client's handle, where one can be had and the mailbox is told as it should be.
fn opened(mailbox: &mut Mailbox, wanted: Opening) -> Result<CursorHandle, AllocError> {
    match enter(mailbox) {
        Ok((handle, opening)) if opening == wanted => Ok(handle),
        _ => Err(AllocError),
    }
}

// How many messages go where a client leaves.
fn leaves(mailbox: &mut Mailbox, handle: CursorHandle, remove: bool) -> Result<usize, MailFault> {
    match leave(mailbox, handle, remove) {
        Ok(gone) => Ok(gone),
        Err((_handle, fault)) => Err(fault),
    }
}

const EMPTY: Opening = Opening {
    count: 0,
    uidnext: 1,
    uidvalidity: 7,
};

const ACTS: &[Act] = &[
    Act::Deliver(0, Ok((1, 0))),
    Act::Deliver(1, Ok((2, 1))),
    Act::Deliver(2, Err(Refusal::MailboxFull)),
    Act::View(Ok(&[])),
    Act::Feed(1, Ok(1)),
    Act::Lines(b"* 1 EXISTS\r\n"),
    Act::View(Ok(&[1])),
    Act::Read(1, true, Ok(Some((SEEN, true)))),
    Act::Read(9, true, Ok(None)),
    Act::Alter(2, FlagOp::Insert(DELETED), Ok(Some(DELETED))),
    Act::Count(Status {
        messages: 2,
        uidnext: 3,
        uidvalidity: 7,
        unseen: 1,
        deleted: 1,
        size: 8,
    }),
    Act::Expunge(Some(&[2]), Ok(1)),
    Act::Lines(
        b"* 2 EXISTS\r\n* 1 FETCH (UID 1 FLAGS (\\Seen))\r\n* 2 FETCH (UID 2 FLAGS (\\Deleted))\r\n",
    ),
    Act::View(Ok(&[1, 2])),
    Act::Feed(64, Ok(1)),
    Act::Lines(b"* 2 EXPUNGE\r\n"),
    Act::Deliver(2, Ok((3, 2))),
    // A message goes that the client wasn't shown yet.
    Act::Discard(&[3, 9]),
    Act::View(Ok(&[1])),
    Act::Feed(64, Ok(2)),
    Act::Lines(b"* 2 EXISTS\r\n* 2 EXPUNGE\r\n"),
    Act::Alter(1, FlagOp::Set(DELETED), Ok(Some(DELETED))),
];

// Whether each call answers as the table tells, and one message goes as the client leaves.
fn answers(alloc: Global, mailbox: &mut Mailbox) -> bool {
    let Ok(mut handle) = opened(mailbox, EMPTY) else {
        return false;
    };
    let at = play(alloc, mailbox, &mut handle, &mut Vec::new(alloc), ACTS);
    at.is_none() && leaves(mailbox, handle, true) == Ok(1)
}

fn plays(alloc: Global) -> Result<bool, AllocError> {
    let mut mailbox = Mailbox::new(alloc, 3, 7, 1, LIMITS, History::Kept)?;
    Ok(answers(alloc, &mut mailbox))
}

#[test]
fn each_call_on_a_held_mailbox_answers_as_its_table_tells(
    rt: HostRuntime,
) -> Result<(), AllocError> {
    assert!(rt; plays(rt.alloc())?);
    Ok(())
}

const STRANGER: &[Act] = &[
    Act::View(Err(MailFault::Stranger)),
    Act::Read(1, true, Err(MailFault::Stranger)),
    Act::Alter(1, FlagOp::Set(DELETED), Err(MailFault::Stranger)),
    Act::Feed(64, Err(MailFault::Stranger)),
    Act::Expunge(None, Err(MailFault::Stranger)),
    Act::Lines(b""),
];

// Whether a mailbox of another number refuses each call of a client's handle.
fn refuses_each(alloc: Global, own: &mut Mailbox, other: &mut Mailbox) -> bool {
    let Ok(mut handle) = opened(own, EMPTY) else {
        return false;
    };
    let at = play(alloc, other, &mut handle, &mut Vec::new(alloc), STRANGER);
    at.is_none() && leaves(other, handle, true) == Err(MailFault::Stranger)
}

fn refuses(alloc: Global) -> Result<bool, AllocError> {
    let mut own = Mailbox::new(alloc, 3, 7, 1, LIMITS, History::Kept)?;
    let mut other = Mailbox::new(alloc, 4, 7, 1, LIMITS, History::Kept)?;
    Ok(refuses_each(alloc, &mut own, &mut other))
}

#[test]
fn a_held_mailbox_refuses_the_handle_of_another(rt: HostRuntime) -> Result<(), AllocError> {
    assert!(rt; refuses(rt.alloc())?);
    Ok(())
}
