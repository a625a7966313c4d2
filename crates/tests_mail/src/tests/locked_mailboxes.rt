//! A mailbox under its lock, which tells the history of a house: copies that seats send, one that is for another mailbox, one that is withdrawn, and a client. Each
//! line of the table is a call with what it is to answer.
ghost use Rattle.std.specs.Prelude.{◌≡◌};

use super::holds::LIMITS;
use super::support::{DELETED, SEEN, flags_read, lines_are};
use change_ring::{FlagOp, Flags, NO_FLAGS};
use cursor_set::CursorHandle;
use delivery_token::{CopyKey, Job, Text, Verdict};
use house_history::{Answer, Front, Letter, Naming, Opened, Seats, Tickets};
use locked_mailbox::LockedMailbox;
use mailbox::{History, MailFault, Mailbox};
use std::alloc::{AllocError, Global};
use std::marker::Brand;

// What those who send have of the history.
#[derive(Drop)]
struct Senders<B: Naming> {
    front: Front<B>,
    seats: Seats<B>,
    tickets: Tickets<B>,
}

// A call, and what it is to answer.
enum Act {
    // A copy for a mailbox: the UID, or that it is refused.
    Deliver(u8, Option<u32>),
    // A copy that its seat has back.
    Withdraw,
    // How many at most, and how many were shown.
    Feed(usize, Result<usize, MailFault>),
    // The flags that the message has then.
    Read(u32, bool, Result<Option<Flags>, MailFault>),
    Alter(u32, FlagOp, Result<Option<Flags>, MailFault>),
    Expunge(Option<&'static [u32]>, Result<usize, MailFault>),
    Discard(&'static [u32]),
    // How many messages the client counts, and how many there are.
    Counts(usize, usize),
    // The lines since the last such act.
    Lines(&'static [u8]),
}

// The next seat's letter.
fn letter_for<B: Naming>(senders: &mut Senders<B>, mailbox: u8, text: Text) -> Option<Letter<B>> {
    let mut seat = senders.seats.take()?;
    let mut ticket = senders.tickets.take()?;
    let job = Job {
        key: CopyKey {
            seat: seat.number(),
            serial: 5,
            message: 0,
            recipient: 0,
        },
        mailbox,
        text,
        flags: NO_FLAGS,
    };
    seat.send(&mut ticket, &mut senders.front, &job);
    Some(Letter::new(job, ticket))
}

fn text_in(alloc: Global) -> Result<Text, AllocError> {
    Text::new(Vec::from_slice(alloc, b"hi\r\n")?)
}

fn uid_of(verdict: Verdict) -> Option<u32> {
    match verdict {
        Verdict::Stored { uid } => Some(uid),
        Verdict::Refused(_) => None,
    }
}

// Whether a copy is answered as it should be.
fn delivers<B: Naming>(
    alloc: Global,
    senders: &mut Senders<B>,
    locked: &mut LockedMailbox<B>,
    mailbox: u8,
    wanted: Option<u32>,
) -> bool {
    let Ok(text) = text_in(alloc) else {
        return false;
    };
    let Some(letter) = letter_for(senders, mailbox, text) else {
        return false;
    };
    let answer = locked.deliver(letter);
    answer.teach(&mut senders.front);
    uid_of(answer.noted().verdict) == wanted
}

// Whether a copy can be had back.
fn withdraws<B: Naming>(alloc: Global, senders: &mut Senders<B>) -> bool {
    let Ok(text) = text_in(alloc) else {
        return false;
    };
    let Some(letter) = letter_for(senders, 0, text) else {
        return false;
    };
    let (_job, mut ticket) = letter.open();
    ticket.withdraw(&mut senders.front);
    true
}

// What a read answers of flags; another text is told as a fault that no act wants.
fn reads<B: Naming>(
    locked: &mut LockedMailbox<B>,
    front: &mut Front<B>,
    handle: &CursorHandle,
    uid: u32,
    mark_seen: bool,
) -> Result<Option<Flags>, MailFault> {
    match flags_read(locked.read(front, handle, uid, mark_seen), uid)? {
        Some((flags, _newly_seen)) => Ok(Some(flags)),
        None => Ok(None),
    }
}

fn counts<B: Naming>(
    locked: &LockedMailbox<B>,
    handle: &CursorHandle,
    shown: usize,
    there: usize,
) -> bool {
    let Ok(view) = locked.view(handle) else {
        return false;
    };
    view.uids().len() == shown && locked.count().messages == there
}

// Whether an act answers as it should.
fn step<B: Naming>(
    alloc: Global,
    senders: &mut Senders<B>,
    locked: &mut LockedMailbox<B>,
    handle: &mut CursorHandle,
    out: &mut Vec<u8>,
    act: &Act,
) -> bool {
    match act {
        Act::Deliver(m, wanted) => delivers(alloc, senders, locked, *m, *wanted),
        Act::Withdraw => withdraws(alloc, senders),
        Act::Feed(limit, wanted) => {
            locked.feed(&mut senders.front, handle, *limit, 0, out) == *wanted
        }
        Act::Read(uid, mark, wanted) => {
            reads(locked, &mut senders.front, handle, *uid, *mark) == *wanted
        }
        Act::Alter(uid, op, wanted) => {
            locked.alter(&mut senders.front, handle, *uid, *op) == *wanted
        }
        Act::Expunge(set, wanted) => {
            locked.expunge(&mut senders.front, handle, *set, 0, out) == *wanted
        }
        Act::Discard(uids) => locked.discard(&mut senders.front, uids).is_ok(),
        Act::Counts(shown, there) => counts(locked, handle, *shown, *there),
        Act::Lines(wanted) => lines_are(out, wanted),
    }
}

// The position of the first act that answers otherwise, where there is one.
fn play<B: Naming>(
    alloc: Global,
    senders: &mut Senders<B>,
    locked: &mut LockedMailbox<B>,
    handle: &mut CursorHandle,
    out: &mut Vec<u8>,
    acts: &[Act],
) -> Option<usize> {
    for (position, act) in acts.iter().enumerate() {
        if !step(alloc, senders, locked, handle, out, act) {
            return Some(position);
        }
    }
    None
}

const ACTS: &[Act] = &[
    Act::Deliver(0, Some(1)),
    Act::Deliver(1, None),
    Act::Withdraw,
    Act::Deliver(0, Some(2)),
    Act::Deliver(0, None),
    Act::Counts(0, 2),
    Act::Feed(1, Ok(1)),
    Act::Lines(b"* 1 EXISTS\r\n"),
    Act::Read(1, true, Ok(Some(SEEN))),
    Act::Read(9, true, Ok(None)),
    Act::Alter(2, FlagOp::Insert(DELETED), Ok(Some(DELETED))),
    Act::Expunge(None, Ok(1)),
    Act::Lines(
        b"* 2 EXISTS\r\n* 1 FETCH (UID 1 FLAGS (\\Seen))\r\n* 2 FETCH (UID 2 FLAGS (\\Deleted))\r\n",
    ),
    Act::Counts(2, 1),
    Act::Feed(64, Ok(1)),
    Act::Lines(b"* 2 EXPUNGE\r\n"),
    Act::Deliver(0, Some(3)),
    Act::Discard(&[3, 9]),
    Act::Counts(1, 1),
    Act::Feed(64, Ok(2)),
    Act::Lines(b"* 2 EXISTS\r\n* 2 EXPUNGE\r\n"),
    Act::Alter(1, FlagOp::Set(DELETED), Ok(Some(DELETED))),
];

// Whether each call answers as the table tells, and one message goes as the client leaves.
fn answers<B: Naming>(
    alloc: Global,
    senders: &mut Senders<B>,
    locked: &mut LockedMailbox<B>,
) -> bool {
    let Ok((mut handle, _opening)) = locked.enter(&mut senders.front) else {
        return false;
    };
    if play(
        alloc,
        senders,
        locked,
        &mut handle,
        &mut Vec::new(alloc),
        ACTS,
    )
    .is_some()
    {
        return false;
    }
    let Ok(gone) = locked.leave(&mut senders.front, handle, true) else {
        return false;
    };
    senders.front.is_legal();
    gone == 1
}

// The same in a history that was just opened.
fn plays<B: Naming>(alloc: Global, opened: Opened, in_order: bool) -> Result<bool, AllocError>
    requires { opened ≡ B.book }
{
    let (front, mut parts, seats, tickets) = opened.named::<B>();
    let Some(part) = parts.take() else {
        return Ok(false);
    };
    let mailbox = Mailbox::new(alloc, 0, 7, 1, LIMITS, History::Kept)?;
    let mut locked = LockedMailbox::new(alloc, mailbox, part, front.again(), 8)?;
    let mut senders = Senders {
        front,
        seats,
        tickets,
    };
    Ok(plays_both(alloc, &mut senders, &mut locked, in_order))
}

// The copies of one seat, in the order in which it sent them.
fn two_letters<B: Naming>(
    alloc: Global,
    senders: &mut Senders<B>,
) -> Option<(Letter<B>, Letter<B>)> {
    let first = text_in(alloc).ok()?;
    let second = text_in(alloc).ok()?;
    let mut seat = senders.seats.take()?;
    let mut ticket = senders.tickets.take()?;
    let mut other = senders.tickets.take()?;
    let job = copy_of(seat.number(), 0, first);
    let next = copy_of(seat.number(), 1, second);
    seat.send(&mut ticket, &mut senders.front, &job);
    seat.send(&mut other, &mut senders.front, &next);
    Some((Letter::new(job, ticket), Letter::new(next, other)))
}

fn copy_of(seat: u8, message: u32, text: Text) -> Job
    ensures { (result.key.seat ≡ seat) × (result.key.serial ≡ 5) × (result.key.message ≡ message) }
{
    Job {
        key: CopyKey {
            seat,
            serial: 5,
            message,
            recipient: 0,
        },
        mailbox: 0,
        text,
        flags: NO_FLAGS,
    }
}

// Whether the later copy is stored, and the earlier one refused behind it.
fn keeps_the_order<B: Naming>(
    alloc: Global,
    senders: &mut Senders<B>,
    locked: &mut LockedMailbox<B>,
) -> bool {
    let Some((first, second)) = two_letters(alloc, senders) else {
        return false;
    };
    let stored = locked.deliver(second);
    let refused = locked.deliver(first);
    refused.teach(&mut senders.front);
    uid_of(stored.noted().verdict) == Some(1) && uid_of(refused.noted().verdict).is_none()
}

// Whether all that is checked of a history that was just opened is so.
fn plays_both<B: Naming>(
    alloc: Global,
    senders: &mut Senders<B>,
    locked: &mut LockedMailbox<B>,
    in_order: bool,
) -> bool {
    if in_order {
        answers(alloc, senders, locked)
    } else {
        keeps_the_order(alloc, senders, locked)
    }
}

// What crosses threads may.
fn crosses<B: Naming + Send + Sync>() {
    is_send::<LockedMailbox<B>>();
    is_send::<Letter<B>>();
    is_send::<Answer<B>>();
    is_shared::<Front<B>>();
}

fn is_send<T: Send>() {}

fn is_shared<T: Send + Sync>() {}

#[test]
fn a_copy_behind_a_later_one_of_its_seat_is_refused(rt: HostRuntime) -> Result<(), AllocError> {
    crosses::<Brand>();
    assert!(rt; plays::<Brand>(rt.alloc(), Opened::new(), false)?);
    Ok(())
}

#[test]
fn each_call_on_a_locked_mailbox_answers_as_its_table_tells(
    rt: HostRuntime,
) -> Result<(), AllocError> {
    assert!(rt; plays::<Brand>(rt.alloc(), Opened::new(), true)?);
    Ok(())
}
