//! The mailbox, and what is delivered to it. Each call that changes it is one event on every log for
//! which it stands; the log itself is kept nowhere. What its clients do is told in `clients`.

ghost use Rattle.std.specs.Prelude.{◌≡◌, ◌^◌, ◌⊎◌, ◌<◌, ◌↔◌, [], ◌∷◌, ◌++◌, length, map, max, true, false, Err, OnOk, OnErr, IfOk, IfErr};
ghost use Rattle.change_ring.specs.Log.{no_flags, arrival, total};
ghost use Rattle.mailbox.specs.Accepted.{kept_of};
ghost use Rattle.mailbox.specs.Counts.{unseen_count, deleted_count, bytes_in_all};
ghost use Rattle.mailbox.specs.Events.{Logs, Moves};
ghost use Rattle.mailbox.specs.Mailbox.{SameMailbox, next_uid, is_spent, is_full, texts_of, uids_of, Stands};
ghost use Rattle.std.specs.List.Sorted.{IsStrictlyIncreasing};

use crate::history::{Accepted, History};
use crate::logging::log_change;
use crate::messages::Messages;
use change_ring::{Change, ChangeRing, FlagOp, Flags, Lapped, MOST_CHANGES, NO_FLAGS};
use cursor_set::CursorSet;
use delivery_token::{CopyKey, Job, Refusal, Text};
use std::alloc::{AllocError, Global};
use std::marker::Model;

/// How much a mailbox keeps.
#[derive(Clone, Copy, Debug, PartialEq, Eq)]
pub struct Limits {
    /// So many messages may be there.
    pub messages: usize,
    /// So many of the last changes are kept; not 0.
    pub ring: usize,
    /// So many are kept at most, where a client is still to be shown them; where it is less than
    /// `ring`, as 0 is, no more are kept than that.
    pub ring_max: usize,
}

/// That a copy was delivered: to which mailbox, under which UID. `deliver` alone makes one; it can't be
/// copied, and must be spent, by `verdict_of`: so whoever tells that a copy was stored has delivered one,
/// and of each copy that was delivered something is told.
pub struct Receipt {
    mailbox: u8,
    key: CopyKey,
    uid: u32,
    position: usize,
}

/// What STATUS tells of a mailbox (RFC 9051, 6.3.11).
#[derive(Clone, Copy, Debug, PartialEq, Eq)]
pub struct Status {
    /// How many messages are there.
    pub messages: usize,
    /// The UID of the next message.
    pub uidnext: u32,
    /// The mailbox's UIDVALIDITY, which no call changes.
    pub uidvalidity: u32,
    /// How many of them are without \Seen.
    pub unseen: usize,
    /// How many of them have \Deleted.
    pub deleted: usize,
    /// The bytes of all texts. The sum of as many lengths as a list has fits 128 bits, and not 64.
    pub size: u128,
}

/// A mailbox.
#[derive(Drop)]
pub struct Mailbox {
    number: u8,
    pub(crate) uidvalidity: u32,
    first_uid: u32,
    pub(crate) next: u32,
    limit: usize,
    pub(crate) messages: Messages,
    pub(crate) ring: ChangeRing,
    accepted: Accepted,
    pub(crate) cursors: CursorSet,
}

impl Model for Mailbox {
    ghost use Rattle.std.specs.Prelude.{◌≡◌, ◌≤◌, ◌<◌, length};
    ghost use Rattle.mailbox.specs.Mailbox.{Mailbox, next_uid};
    ghost use Rattle.mailbox.specs.inner.Stands.{IsSound};

    ghost Value = { Mailbox };

    ghost use Rattle.mailbox.specs.inner.Seen.{mail_of};

    ghost view = { mail_of };

    ghost invariant = { λ b. (b.next ≡ next_uid (mail_of b)) × (length b.messages ≤ b.limit) × IsSound (mail_of b) × (b.cursors.number ≡ b.number) };
}

impl Receipt {
    /// The number of the mailbox.
    pub fn mailbox(&self) -> u8
        ensures { result ≡ self.now.mailbox }
    {
        self.mailbox
    }

    /// The copy's key.
    pub fn key(&self) -> CopyKey
        ensures { result ≡ self.now.key }
    {
        self.key
    }

    /// The message's UID.
    pub fn uid(&self) -> u32
        ensures { result ≡ self.now.uid }
    {
        self.uid
    }

    /// The position of the copy among those that were accepted, from 0.
    pub fn position(&self) -> usize
        ensures { result ≡ self.now.position }
    {
        self.position
    }

    // Spends it, and tells the message's UID.
    pub(crate) fn into_uid(self) -> u32
        ensures { result ≡ self.uid }
    {
        let Receipt {
            mailbox: _,
            key: _,
            uid,
            position: _,
        } = self;
        uid
    }
}

impl Mailbox {
    /// The empty mailbox of this number, at the start of its log. Its messages get the UIDs from
    /// `first_uid` on, it has no client, and it keeps the copies that it takes as `history` says. An
    /// error where memory is refused.
    pub fn new(
        alloc: Global,
        number: u8,
        uidvalidity: u32,
        first_uid: u32,
        limits: Limits,
        history: History,
    ) -> Result<Mailbox, AllocError>
        // The window has room for one change at least.
        requires { 0 < limits.ring }
        // It stands for the empty log: nothing has happened yet.
        ensures stands { IfOk result (λ m. Stands m []) }
        // It has what it was given, no message, and no client.
        ensures settings { IfOk result (λ m. (m.number ≡ number) × (m.uidvalidity ≡ uidvalidity)
            × (m.first_uid ≡ first_uid) ×
            (m.limit ≡ limits.messages) × (m.history ≡ history)) }
        ensures empty { IfOk result (λ m. (m.messages ≡ []) × (m.accepted ≡ [])
            × (m.cursors ≡ record { number = number; next = 0; slots = [] })) }
        // Its window is empty, with room for `limits.ring` changes, and may grow to `limits.ring_max` where that is more.
        ensures window { IfOk result (λ m. m.window ≡ record {
          base = 0;
          changes = [];
          capacity = limits.ring;
          max = max limits.ring limits.ring_max;
        }) }
    {
        let most = limits.ring.max(limits.ring_max);
        let ring = ChangeRing::new(alloc, limits.ring, most)?;
        Ok(Mailbox {
            number,
            uidvalidity,
            first_uid,
            next: first_uid,
            limit: limits.messages,
            messages: Messages::new(alloc),
            ring,
            accepted: Accepted::new(alloc, history),
            cursors: CursorSet::new(alloc, number),
        })
    }

    /// The mailbox's number.
    pub fn number(&self) -> u8
        ensures { result ≡ self.now.number }
    {
        self.number
    }

    // Whether no UID is left, or the log has no room for all that a message with these flags brings.
    fn is_spent(&self, flags: Flags) -> bool
        ensures { result ≡ is_spent flags self.now }
    {
        if self.next >= u32::MAX {
            return true;
        }
        let left = MOST_CHANGES - self.ring.total();
        if NO_FLAGS.differ_from(flags) {
            left < 2
        } else {
            left < 1
        }
    }

    // Adds a copy's message without flags: one change. MailboxFull or NoMemory; nothing is then changed.
    // All room is made first, also for a mark of \Deleted.
    fn add(&mut self, job: &Job) -> Result<Receipt, Refusal>
        requires uid { next_uid self.old < 4294967295 }
        requires room { total self.old.window < 2 ^ 62 }
        ensures full { (result ≡ Err Refusal.MailboxFull) ↔ (is_full self.old ≡ true) }
        ensures refused { IfErr result (λ why. (why ≡ Refusal.MailboxFull)
            ⊎ (why ≡ Refusal.NoMemory)) }
        ensures err { OnErr result (self.new ≡ self.old) }
        ensures logged { OnOk result (Logs self.old self.new (Change.Add (next_uid self.old)
            ∷ [])) }
        ensures message { OnOk result (self.new.messages ≡ self.old.messages ++
            record { uid = next_uid self.old; flags = no_flags; text = job.now.text } ∷ []) }
        ensures rising { OnOk result (IsStrictlyIncreasing (uids_of self.new.messages)) }
        ensures window { OnOk result
            (Moves self.old.cursors self.old.window self.new.window (Change.Add (next_uid self.old)
            ∷ [])) }
        ensures rest { OnOk result (self.new ≡ record self.old {
          messages = self.new.messages;
          window = self.new.window;
          accepted = self.old.accepted ++ (job.now.key, next_uid self.old) ∷ [];
        }) }
        ensures receipt { IfOk result (λ r. r ≡ record {
          mailbox = self.old.number;
          key = job.now.key;
          uid = next_uid self.old;
          position = length self.old.accepted;
        }) }
    {
        if self.messages.len() >= self.limit {
            return Err(Refusal::MailboxFull);
        }
        let uid = self.next;
        let position = (uid - self.first_uid) as usize;
        let text = job.text.copy()?;
        self.accepted.reserve()?;
        self.messages.add(uid, text)?;
        let Ok(()) = log_change(&mut self.ring, &self.cursors, Change::Add(uid)) else {
            return Err(Refusal::UidSpent);
        };
        self.accepted.accept(job.key, uid);
        self.next += 1;
        Ok(Receipt {
            mailbox: self.number,
            key: job.key,
            uid,
            position,
        })
    }

    /// Delivers a copy: adds a message with the copy's text and the next UID, and gives it the copy's
    /// flags (RFC 9051, 2.3.1.1 and 6.3.12). That it is there, and its flags where it has any, are
    /// logged as one event.
    ///
    /// Refused, in this order, as UidSpent where the next UID would be 4,294,967,295 or the log, of
    /// 2^62 changes at most, has no room for all of them, as MailboxFull where as many messages are
    /// there as may be, and as NoMemory where memory is refused. The mailbox is then unchanged.
    pub fn deliver(&mut self, job: &Job) -> Result<Receipt, Refusal>
        // UidSpent exactly where no UID is left or the log lacks room for the arrival; else MailboxFull exactly where it is full.
        ensures spent { (result ≡ Err Refusal.UidSpent) ↔ (is_spent job.now.flags self.old ≡ true) }
        ensures full { (result ≡ Err Refusal.MailboxFull)
            ↔ ((is_spent job.now.flags self.old ≡ false) × (is_full self.old ≡ true)) }
        // The refusals of a lane never come. After a refusal nothing has changed.
        ensures not_queued { (result ≡ Err Refusal.Full) → ⊥ }
        ensures not_shut { (result ≡ Err Refusal.Shut) → ⊥ }
        ensures err { OnErr result (self.new ≡ self.old) }

        // One event more, on every log for which the mailbox stood.
        ensures logged { OnOk result
            (Logs self.old self.new (arrival (next_uid self.old) job.now.flags)) }
        // The copy is noted under the next UID, and its message is the last one, with this UID, its flags and its text.
        ensures accepted { OnOk result (self.new.accepted
            ≡ self.old.accepted ++ (job.now.key, next_uid self.old) ∷ []) }
        ensures message { OnOk result (self.new.messages ≡ self.old.messages ++
            record { uid = next_uid self.old; flags = job.now.flags; text = job.now.text } ∷ []) }
        // What is logged goes into the window; a full one drops its oldest change, or grows where a client is still to be shown it.
        ensures window { OnOk result
            (Moves self.old.cursors self.old.window self.new.window
            (arrival (next_uid self.old) job.now.flags)) }
        // Cursors stay, and so does what no call changes: number, UIDVALIDITY, first UID, limit, and whether copies are kept.
        ensures cursors { OnOk result (self.new.cursors ≡ self.old.cursors) }
        ensures same { OnOk result (SameMailbox self.old self.new) }
        // The receipt tells the mailbox, the key, the UID, and the position among the copies that were accepted.
        ensures receipt { IfOk result (λ r. r ≡ record {
          mailbox = self.old.number;
          key = job.now.key;
          uid = next_uid self.old;
          position = length self.old.accepted;
        }) }
    {
        if self.is_spent(job.flags) {
            return Err(Refusal::UidSpent);
        }
        let receipt = self.add(job)?;
        // The message is there, and the log has room for its flags: this takes no memory.
        let _ = self.set_flags(receipt.uid, NO_FLAGS, FlagOp::Set(job.flags));
        Ok(receipt)
    }

    /// What STATUS tells of it now. It takes no memory.
    pub fn status(&self) -> Status
        ensures { result ≡ record {
          messages = length self.now.messages;
          uidnext = next_uid self.now;
          uidvalidity = self.now.uidvalidity;
          unseen = unseen_count self.now.messages;
          deleted = deleted_count self.now.messages;
          size = bytes_in_all self.now.messages;
        } }
    {
        Status {
            messages: self.messages.len(),
            uidnext: self.next,
            uidvalidity: self.uidvalidity,
            unseen: self.messages.unseen(),
            deleted: self.messages.deleted(),
            size: self.messages.bytes(),
        }
    }

    /// Whether it keeps which copies it took.
    pub fn history(&self) -> History
        ensures { result ≡ self.now.history }
    {
        self.accepted.history()
    }

    /// The copies that were accepted, each with its UID, in the order of the deliveries; none where
    /// the mailbox doesn't keep them.
    pub fn accepted(&self) -> &[(CopyKey, u32)]
        ensures { result.now ≡ kept_of self.now.history self.now.accepted }
    {
        self.accepted.kept()
    }

    /// The UID and the text of each message that is there, by rising UIDs. An error where memory is
    /// refused.
    pub fn texts(&self, alloc: Global) -> Result<Vec<(u32, Text)>, AllocError>
        ensures all { IfOk result (λ texts. texts.items ≡ texts_of self.now.messages) }
        ensures rising { IfOk result (λ texts. IsStrictlyIncreasing (map (λ t. t.0) texts.items)) }
    {
        self.messages.texts(alloc)
    }

    /// The last changes: the number of the first of them, and the changes from that number to the
    /// end of the log, in two slices that follow one another.
    pub fn tail(&self) -> (u64, &[Change], &[Change])
        ensures base { result.0 ≡ self.now.window.base }
        ensures changes { result.1.now ++ result.2.now ≡ self.now.window.changes }
    {
        let base = self.ring.base();
        match self.ring.lend(base) {
            Ok((first, rest)) => (base, first, rest),
            Err(Lapped) => unreachable!(),
        }
    }
}
