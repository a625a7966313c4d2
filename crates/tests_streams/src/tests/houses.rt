//! What sessions and connections are tried over: mailboxes behind locks, with their parts of a history that was just opened, and a seat
//! that sends copies to them.

ghost use Rattle.std.specs.Prelude.{◌≡◌, ◌<◌, ◌≤◌};

use change_ring::Flags;
use delivery_token::{CopyKey, Job, Refusal, Text, Verdict};
use house_history::{Answer, Front, Letter, MailboxParts, Naming, Opened};
use imap_stream::Rows;
use lane_work::Dispatch;
use locked_mailbox::LockedMailbox;
use mailbox::{History, Limits, Mailbox};
use std::alloc::{AllocError, Global};
use std::sync::{Mutex, Wait};

/// The mailboxes of a house, by their numbers from 0, and how its history began.
#[derive(Drop)]
pub(crate) struct Shelf<B: Naming> {
    pub(crate) mailboxes: Vec<Mutex<LockedMailbox<B>>>,
    pub(crate) front: Front<B>,
}

/// So many empty mailboxes, whose UIDVALIDITY is 7 for the first and one more for each other; and what the one seat sends with.
pub(crate) fn open_shelf<B: Naming>(
    alloc: Global,
    history: Opened,
    count: u8,
    limits: Limits,
) -> Result<(Shelf<B>, Dispatch<B>), AllocError>
    requires history { history ≡ B.book }
    requires few { count ≤ 64 }
    requires ring { 0 < limits.ring }
{
    let (front, parts, mut seats, tickets) = history.named::<B>();
    let mailboxes = make_mailboxes(alloc, parts, &front, count, limits)?;
    let Some(seat) = seats.take() else {
        unreachable!()
    };
    let dispatch = Dispatch::new(seat, tickets, front.again());
    Ok((Shelf { mailboxes, front }, dispatch))
}

fn make_mailboxes<B: Naming>(
    alloc: Global,
    mut parts: MailboxParts<B>,
    front: &Front<B>,
    count: u8,
    limits: Limits,
) -> Result<Vec<Mutex<LockedMailbox<B>>>, AllocError>
    requires parts { parts ≡ 0 }
    requires few { count ≤ 64 }
    requires ring { 0 < limits.ring }
{
    let mut mailboxes = Vec::new(alloc);
    for number in 0..count {
        let validity = 7 + u32::from(number);
        let mailbox = Mailbox::new(alloc, number, validity, 1, limits, History::Kept)?;
        let Some(part) = parts.take() else {
            unreachable!()
        };
        let locked = LockedMailbox::new(alloc, mailbox, part, front.again(), 1)?;
        mailboxes.push(Mutex::new(locked))?;
    }
    Ok(mailboxes)
}

impl<B: Naming> Shelf<B> {
    /// Delivers a letter into its mailbox. None where that isn't there.
    pub(crate) fn judge<R: Wait>(&self, rt: &R, letter: Letter<B>) -> Option<Answer<B>> {
        let lock = self.mailboxes.get(usize::from(letter.job().mailbox))?;
        Some(lock.lock(rt).deliver(letter))
    }
}

// What copies are sent with, and the serial of the next one.
#[derive(Drop)]
struct Sender<B: Naming> {
    dispatch: Dispatch<B>,
    next: u64,
}

/// The same with somebody who sends.
#[derive(Drop)]
pub(crate) struct TestHouse<B: Naming> {
    pub(crate) shelf: Shelf<B>,
    /// What its clients are told waits there.
    pub(crate) rows: Rows,
    sender: Mutex<Sender<B>>,
}

/// A house of so many mailboxes.
pub(crate) fn open_house<B: Naming>(
    alloc: Global,
    history: Opened,
    count: u8,
    limits: Limits,
) -> Result<TestHouse<B>, AllocError>
    requires history { history ≡ B.book }
    requires few { count ≤ 64 }
    requires ring { 0 < limits.ring }
{
    let (shelf, dispatch) = open_shelf(alloc, history, count, limits)?;
    let sender = Mutex::new(Sender { dispatch, next: 0 });
    let rows = Rows::new(alloc)?;
    Ok(TestHouse {
        shelf,
        rows,
        sender,
    })
}

impl<B: Naming> TestHouse<B> {
    // The letter of the next copy.
    fn letter<R: Wait>(&self, rt: &R, mailbox: u8, text: Text, flags: Flags) -> Option<Letter<B>> {
        let mut sender = self.sender.lock(rt);
        let key = CopyKey {
            seat: 0,
            serial: sender.next,
            message: 0,
            recipient: 0,
        };
        sender.next = sender.next.saturating_add(1);
        sender
            .dispatch
            .send(Job {
                key,
                mailbox,
                text,
                flags,
            })
            .ok()
    }

    /// Sends the next copy, and delivers it. None where its mailbox isn't there.
    pub(crate) fn deliver<R: Wait>(
        &self,
        rt: &R,
        mailbox: u8,
        text: Text,
        flags: Flags,
    ) -> Option<Verdict> {
        let Some(letter) = self.letter(rt, mailbox, text, flags) else {
            return Some(Verdict::Refused(Refusal::NoMemory));
        };
        let answer = self.shelf.judge(rt, letter)?;
        Some(answer.noted().verdict)
    }
}
