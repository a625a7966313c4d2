//! The messages that one COPY or MOVE copies, while they are on their way (RFC 9051, 6.4.7 to 6.4.9; RFC 6851), and how the next of them is submitted. How
//! they are found stands in `copying`, and what is said of them in `copied`.

ghost use Rattle.std.specs.Prelude.{◌≡◌, ◌≤◌, nat_le};
ghost use Rattle.imap_session.specs.Commands.{last_number, most_in_batch};
ghost use Rattle.imap_session.specs.Store.{room_of_sets};
ghost use Rattle.imap_session.specs.inner.Seen.{IsRoomy, origin_of};

use crate::mailing::{LAST_NUMBER, Sent};
use crate::session::Session;
use crate::standing::Append;
use crate::tag::Tag;
use mailbox::Row;

/// So many messages are copied by one command at most.
pub(crate) const MOST_IN_BATCH: usize = 32_768;

/// So much room the numbers of a message and its copy want in the sets that tell of them: ten digits each, and what stands behind them.
pub(crate) const ROOM_IN_SETS: usize = 22;

/// The messages of the selected mailbox that one command copies, one after another.
#[derive(Drop)]
pub(crate) struct Batch {
    // It was UID COPY or UID MOVE.
    pub(crate) by_uid: bool,
    // It was MOVE or UID MOVE: the messages are removed, once all copies are stored.
    pub(crate) moves: bool,
    // The messages' UIDs, in the order in which they are copied.
    pub(crate) uids: Vec<u32>,
    // Those that are still to be submitted, the next last, each as it was read before the first was.
    pub(crate) left: Vec<Row>,
    // The UIDs of the copies that are stored: of the first messages, in their order.
    pub(crate) copies: Vec<u32>,
}

/// Where a message comes from that a session submits.
#[derive(Drop)]
pub(crate) enum Origin {
    /// Its client appended it (RFC 9051, 6.3.12).
    Client,
    /// It is one of these messages that is copied.
    Copied(Batch),
}

impl Origin {
    // How much room the sets of UIDs want that tell of them.
    pub(crate) fn room(&self) -> usize
        requires { IsRoomy self.now }
        ensures { result ≡ room_of_sets (origin_of self.now) }
    {
        match self {
            Origin::Client => 0,
            Origin::Copied(batch) => ROOM_IN_SETS * batch.uids.len(),
        }
    }
}

impl Batch {
    ghost use Rattle.std.specs.Prelude.{◌≡◌, ◌==◌, ◌+◌, ◌∷◌, false, length};
    ghost use Rattle.imap_session.specs.inner.Seen.{batch_of};

    // Takes out the next message that is to be submitted.
    fn take_next(self) -> (Row, Batch)
        requires some { (length self.left.items == 0) ≡ false }
        ensures taken { (batch_of self).left ≡ result.0 ∷ (batch_of result.1).left }
        ensures rest { batch_of result.1
            ≡ record (batch_of self) { left = (batch_of result.1).left } }
        ensures fewer { length result.1.left.items + 1 ≡ length self.left.items }
        ensures kept { (result.1.copies ≡ self.copies) × (result.1.uids ≡ self.uids) }
    {
        let mut batch = self;
        match batch.left.pop() {
            Some(row) => (row, batch),
            None => unreachable!(),
        }
    }
}

// Whether no number is left for a message.
fn is_spent(number: u32) -> bool
    ensures { result ≡ nat_le last_number number }
{
    LAST_NUMBER <= number
}

/// A batch of which no message was submitted, with its tag.
#[derive(Drop)]
pub(crate) struct Unsent {
    pub(crate) tag: Tag,
    pub(crate) batch: Batch,
    // No number is left for a message. Else none of the batch is left.
    pub(crate) spent: bool,
}

impl Session {
    ghost use Rattle.std.specs.Prelude.{◌≡◌, ◌+◌, ◌≤◌, List, ℕ, IfErr, OnOk, None, false, length, vec_capacity};
    ghost use Rattle.imap_session.specs.declared.standing.After.{After};
    ghost use Rattle.imap_session.specs.Commands.{most_in_batch, submitting};
    ghost use Rattle.imap_session.specs.Exchange.{Exchange, may_send};
    ghost use Rattle.imap_session.specs.inner.Appends.{Leads};
    ghost use Rattle.imap_session.specs.inner.Copies.{unsent_next};
    ghost use Rattle.imap_session.specs.inner.Seen.{batch_of};

    // Submits the next message of a batch, or gives the batch back where none goes.
    pub(crate) fn submit_next(&mut self, mailbox: u8, tag: Tag, batch: Batch) -> Result<(), Unsent>
        requires going { self.old.ended ≡ false }
        requires awake { self.old.idling ≡ None }
        requires alone { self.old.mailing.begun ≡ None }
        requires unsent { self.old.mailing.sent ≡ None }
        requires all { length batch.copies.items + length batch.left.items
            ≡ length batch.uids.items }
        requires room { length batch.uids.items ≤ vec_capacity batch.copies }
        requires few { length batch.uids.items ≤ most_in_batch }
        ensures sent { OnOk result ((done : Exchange) (before : List ℕ)
            → Leads tag self.old (submitting self.old.mailing (batch_of batch) mailbox done) before
            before After.Submit self.new) }
        ensures unsent { IfErr result (λ back. (done : Exchange)
            → submitting self.old.mailing (batch_of batch) mailbox done
            ≡ unsent_next back.spent mailbox batch.copies.items done) }
        ensures back { IfErr result (λ back. (back.tag ≡ tag) × (back.batch ≡ batch)) }
        ensures last { IfErr result (λ back. back.spent ≡ false
            → length batch.copies.items ≡ length batch.uids.items) }
        ensures same { IfErr result (λ _. self.new ≡ self.old) }
        ensures folders { self.new.folders ≡ self.old.folders }
        ensures waits { OnOk result (may_send self.new ≡ After.Submit) }
        ensures alone { self.new.mailing.begun ≡ self.old.mailing.begun }
    {
        let message = self.mailing.number;
        if batch.left.as_slice().is_empty() {
            return Err(Unsent {
                tag,
                batch,
                spent: false,
            });
        }
        if is_spent(message) {
            return Err(Unsent {
                tag,
                batch,
                spent: true,
            });
        }
        let (row, batch) = batch.take_next();
        let Row {
            uid: _,
            flags,
            newly_seen: _,
            text,
        } = row;
        self.mailing.number = message + 1;
        self.mailing.sent = Some(Sent {
            tag,
            append: Append {
                message,
                mailbox,
                text,
                flags,
            },
            origin: Origin::Copied(batch),
        });
        Ok(())
    }
}
