//! What a mailbox's clients do: each holds a cursor, is shown changes by it, reads messages and sets
//! their flags. Which messages go, and how a client leaves, is told in `removal`.

ghost use Rattle.std.specs.Prelude.{◌≡◌, ◌≢◌, ◌+◌, ◌-◌, ◌^◌, ◌<◌, ◌≤◌, ◌↔◌, ◌⊎◌, List, ◌++◌, length, min, Some, None, Err, OnOk, OnErr, IfOk, IfErr, IfSome, IsErr, IsSome, IsTrue, option_map, if◌then◌else◌, vec_capacity, vec_len};
ghost use Rattle.std.specs.List.Sorted.{IsStrictlyIncreasing};
ghost use Rattle.change_ring.specs.Log.{view_at, flags_logged, seen_logged, total};
ghost use Rattle.cursor_set.specs.Cursors.{Updates, after_showing, held, in_slot, next_changes};
ghost use Rattle.cursor_set.specs.Lines.{lines};
ghost use Rattle.mailbox.specs.Events.{IsCurrent, IsLapped, IsStranger, IsTooMany, KeepsLog, Logs, Moves, seen_after, was_logged};
ghost use Rattle.mailbox.specs.inner.Letters.{message_of};
ghost use Rattle.mailbox.specs.Mailbox.{Message as Kept, flagged, message_with, next_uid, rows, uids_of, Stands, next_of};

use crate::logging::log_change;
use crate::mailbox::Mailbox;
use change_ring::{Change, FlagOp, Flags, MOST_CHANGES, Spent, View};
use cursor_set::{CursorHandle, FeedFault, Stranger};
use delivery_token::Text;
use std::alloc::AllocError;

/// Why a client's call did nothing.
#[derive(Clone, Copy, Debug, PartialEq, Eq)]
pub enum MailFault {
    /// The handle is of another mailbox, or its slot doesn't hold its cursor.
    Stranger,
    /// The change that the client is to be shown next was overwritten.
    Lapped,
    /// The log has no room for what the call would log: it numbers 2^62 changes.
    Spent,
    /// Memory was refused.
    NoMemory,
}

impl From<Stranger> for MailFault {
    ghost use Rattle.mailbox.specs.declared.clients.MailFault.{MailFault};

    ghost from_gives = { λ _ fault. fault ≡ MailFault.Stranger };

    fn from(_stranger: Stranger) -> MailFault {
        MailFault::Stranger
    }
}

impl From<Spent> for MailFault {
    ghost use Rattle.mailbox.specs.declared.clients.MailFault.{MailFault};

    ghost from_gives = { λ _ fault. fault ≡ MailFault.Spent };

    fn from(_spent: Spent) -> MailFault {
        MailFault::Spent
    }
}

impl From<AllocError> for MailFault {
    ghost use Rattle.mailbox.specs.declared.clients.MailFault.{MailFault};

    ghost from_gives = { λ _ fault. fault ≡ MailFault.NoMemory };

    fn from(_error: AllocError) -> MailFault {
        MailFault::NoMemory
    }
}

/// A message as it was read.
#[derive(Drop)]
pub struct Row {
    /// The UID of the message.
    pub uid: u32,
    /// Its flags, after \Seen was set where that was asked for.
    pub flags: Flags,
    /// Whether this read set \Seen.
    pub newly_seen: bool,
    /// The text of the message, whose bytes are shared.
    pub text: Text,
}

/// What a mailbox had as a client opened its cursor (RFC 9051, 6.3.2).
#[derive(Clone, Copy, Debug, PartialEq, Eq)]
pub struct Opening {
    /// How many messages were there.
    pub count: usize,
    /// The UID of the next message.
    pub uidnext: u32,
    /// The mailbox's UIDVALIDITY.
    pub uidvalidity: u32,
}

// Setting \Seen.
const MARK: FlagOp = FlagOp::Insert(Flags {
    answered: false,
    flagged: false,
    deleted: false,
    seen: true,
    draft: false,
});

impl Mailbox {
    /// Whether a cursor can be opened: a serial is left for it. It takes no memory.
    pub fn can_open(&self) -> bool
        ensures { IsTrue result ↔ (self.now.cursors.next < 2 ^ 64 - 1) }
    {
        self.cursors.can_open()
    }

    /// Opens a cursor for a client at the end of the log: the client counts the messages that are
    /// there, and is to be shown what happens from now on (RFC 9051, 6.3.2). An error where memory is
    /// refused; nothing is then changed.
    pub fn open_cursor(&mut self) -> Result<(CursorHandle, Opening), AllocError>
        // A serial is left for the cursor, as `can_open` tells.
        requires { self.old.cursors.next < 2 ^ 64 - 1 }
        // After an error nothing has changed. Nothing is logged, and of the mailbox nothing but its cursors changes.
        ensures err { OnErr result (self.new ≡ self.old) }
        ensures logged { KeepsLog self.old self.new }
        ensures rest { self.new ≡ record self.old { cursors = self.new.cursors } }

        // The handle is new, and its slot was vacant.
        ensures handle { IfOk result (λ r. r.0 ≡ record {
          number = self.old.number;
          slot = r.0.slot;
          serial = self.old.cursors.next;
          at = total self.old.window;
        }) }
        ensures vacant { IfOk result (λ r. in_slot self.old.cursors r.0.slot ≡ None) }
        ensures known { IfOk result (λ r. IsSome (held self.new.cursors r.0)) }

        // Its client counts the messages that are there, and is to be shown what comes next; no other slot has changed.
        ensures opened { IfOk result (λ r. Updates self.old.cursors self.new.cursors r.0.slot
            (Some (record {
              serial = self.old.cursors.next;
              at = total self.old.window;
              view = uids_of self.old.messages;
            }))) }
        ensures next { OnOk result (self.new.cursors.next ≡ self.old.cursors.next + 1) }

        // The client is told how many messages are there, the UID of the next one, and the UIDVALIDITY.
        ensures opening { IfOk result (λ r. r.1 ≡ record {
          count = length self.old.messages;
          uidnext = next_uid self.old;
          uidvalidity = self.old.uidvalidity;
        }) }
    {
        let uids = self.messages.uids()?;
        let at = self.ring.total();
        let handle = self.cursors.enter(&uids, at)?;
        let opening = Opening {
            count: self.messages.len(),
            uidnext: self.next,
            uidvalidity: self.uidvalidity,
        };
        Ok((handle, opening))
    }

    /// The UIDs that a client counts, in their order, which rise: what it was shown of the log.
    /// Stranger where the handle has no cursor here. It takes no memory.
    pub fn view(&self, handle: &CursorHandle) -> Result<View<'_>, Stranger>
        // Stranger exactly where the handle has no cursor here.
        ensures stranger { IsErr result ↔ IsStranger self.now handle.now }
        // The view is what the handle's client counts, and its UIDs rise.
        ensures shown { IfOk result (λ view.
            option_map (λ o. o.view) (held self.now.cursors handle.now) ≡ Some view) }
        ensures rising { IfOk result (λ view. IsStrictlyIncreasing view) }
    {
        let uids = self.cursors.view(handle)?;
        Ok(View::rising(uids))
    }

    /// Shows a client its next changes, at most `limit`, as `CursorSet::feed` does: a line for each
    /// behind `out` (RFC 9051, 7.4 and 7.5), and answers how many. Nothing is logged. Stranger where
    /// the handle has no cursor here; else Lapped where the next change was overwritten; else NoMemory
    /// where memory is refused. After each the mailbox, the handle and what `out` says are unchanged.
    /// Room for `spare` more bytes behind what `out` says, where it stood there, stands there still.
    pub fn feed(
        &mut self,
        handle: &mut CursorHandle,
        limit: usize,
        spare: usize,
        out: &mut Vec<u8>,
    ) -> Result<usize, FeedFault>
        // Stranger exactly where the handle has no cursor here, Lapped exactly where it has and the next change was overwritten.
        ensures stranger { (result ≡ Err FeedFault.Stranger) ↔ IsStranger self.old handle.old }
        ensures lapped { (result ≡ Err FeedFault.Lapped) ↔ IsLapped self.old handle.old }
        // NoMemory only where there is something to show. After an error nothing has changed, nor was anything written.
        ensures memory { (result ≡ Err FeedFault.NoMemory)
            → 0 < min limit (total self.old.window - handle.old.at) }
        ensures err { OnErr result ((self.new ≡ self.old) × (handle.new ≡ handle.old)
            × (out.new.items ≡ out.old.items)) }

        // The next changes of each log for which the mailbox stands.
        ensures count { IfOk result (λ n. n ≡ min limit (total self.old.window - handle.old.at)) }
        ensures shown { IfOk result (λ n. (log : List Change) → Stands self.old log →
            out.new.items ≡ out.old.items
            ++ lines (view_at log handle.old.at) (next_of log handle.old.at n)) }
        // The handle goes on by as many. Nothing is logged, and of the mailbox nothing but its cursors changes.
        ensures handle { IfOk result (λ n.
            handle.new ≡ record handle.old { at = handle.old.at + n }) }
        ensures logged { KeepsLog self.old self.new }
        ensures rest { self.new ≡ record self.old { cursors = self.new.cursors } }
        // Its cursor goes on by as many, and its view with them; no other slot has changed.
        ensures moved { IfOk result (λ n. Updates self.old.cursors self.new.cursors handle.old.slot
            (option_map (after_showing (next_changes self.old.window handle.old.at n))
            (held self.old.cursors handle.old))) }
        ensures next { self.new.cursors.next ≡ self.old.cursors.next }

        // The lines as the client counts.
        ensures written { IfOk result (λ n. IfSome (held self.old.cursors handle.old) (λ o.
            out.new.items ≡ out.old.items
            ++ lines o.view (next_changes self.old.window handle.old.at n))) }
        // `out` keeps its room or has more.
        ensures room { vec_capacity out.old ≤ vec_capacity out.new }
        // Where room for `spare` more bytes stood behind `out`, it stands there still.
        ensures spare { vec_len out.old + spare ≤ vec_capacity out.old
            → vec_len out.new + spare ≤ vec_capacity out.new }
    {
        let count = self.cursors.feed(&self.ring, handle, limit, spare, out)?;
        Ok(count)
    }

    // Whether a handle may look at the messages and change them.
    pub(crate) fn admit(&self, handle: &CursorHandle) -> Result<(), MailFault>
        ensures stranger { (result ≡ Err MailFault.Stranger) ↔ IsStranger self.now handle.now }
        ensures lapped { (result ≡ Err MailFault.Lapped) ↔ IsLapped self.now handle.now }
        ensures admitted { OnOk result (IsCurrent self.now handle.now) }
        ensures only { IfErr result (λ fault. (fault ≡ MailFault.Stranger)
            ⊎ (fault ≡ MailFault.Lapped)) }
        ensures within { OnOk result (handle.now.at ≤ total self.now.window) }
        ensures small { total self.now.window ≤ 2 ^ 62 }
    {
        // Read for its bound: no log has more than 2^62 changes.
        let _total = self.ring.total();
        let _view = self.cursors.view(handle)?;
        if handle.at() < self.ring.base() {
            return Err(MailFault::Lapped);
        }
        Ok(())
    }

    // Flags and text of the message of a UID.
    fn letter(&self, uid: u32) -> Option<(Flags, &Text)>
        ensures { option_map (λ p. message_of uid p.0 p.1.now) result
            ≡ message_with uid self.now.messages }
    {
        self.messages.get(uid)
    }

    // The flags of the message of a UID.
    fn flags_of(&self, uid: u32) -> Option<Flags>
        ensures { result ≡ option_map (λ (m : Kept). m.flags) (message_with uid self.now.messages) }
    {
        Some(self.letter(uid)?.0)
    }

    // Sets the flags of a message that has these flags, and logs that where they become others:
    // answers whether they did. Spent where the log has no room for it; nothing is then changed.
    pub(crate) fn set_flags(&mut self, uid: u32, old: Flags, op: FlagOp) -> Result<bool, Spent>
        requires there { option_map (λ (m : Kept). m.flags) (message_with uid self.old.messages)
            ≡ Some old }
        requires small { total self.old.window ≤ 2 ^ 62 }
        ensures spent { IsErr result ↔ IsTooMany self.old (flags_logged (rows self.old) uid op) }
        ensures err { OnErr result (self.new ≡ self.old) }
        ensures logged { OnOk result
            (Logs self.old self.new (flags_logged (rows self.old) uid op)) }
        ensures window { OnOk result
            (Moves self.old.cursors self.old.window self.new.window
            (flags_logged (rows self.old) uid op)) }
        ensures messages { OnOk result (self.new.messages ≡ flagged uid op self.old.messages) }
        ensures rest { self.new ≡ record self.old {
          messages = self.new.messages;
          window = self.new.window;
        } }
        ensures changed { IfOk result (λ changed. was_logged (flags_logged (rows self.old) uid op)
            ≡ changed) }
    {
        // What the type keeps is known where a field is used: the UIDs rise.
        let _ = &self.messages;
        let flags = op.after(old);
        if !old.differ_from(flags) {
            return Ok(false);
        }
        log_change(&mut self.ring, &self.cursors, Change::Flags(uid, flags))?;
        self.messages.set_flags(uid, flags);
        Ok(true)
    }

    /// Changes the flags of the message of a UID (RFC 9051, 6.4.6), and answers them as they are
    /// then; None where no message has the UID. It is logged where they become others. Stranger,
    /// Lapped or Spent, in this order; nothing is then changed. It takes no memory.
    pub fn store(
        &mut self,
        handle: &CursorHandle,
        uid: u32,
        op: FlagOp,
    ) -> Result<Option<Flags>, MailFault>
        // Stranger, Lapped and Spent come exactly where they hold, in this order, and NoMemory never.
        ensures stranger { (result ≡ Err MailFault.Stranger) ↔ IsStranger self.old handle.now }
        ensures lapped { (result ≡ Err MailFault.Lapped) ↔ IsLapped self.old handle.now }
        ensures spent { (result ≡ Err MailFault.Spent)
            ↔ (IsCurrent self.old handle.now
            × IsTooMany self.old (flags_logged (rows self.old) uid op)) }
        ensures memory { result ≢ Err MailFault.NoMemory }
        // After an error nothing has changed.
        ensures err { OnErr result (self.new ≡ self.old) }

        // The new flags are logged, on every log for which the mailbox stood, where a message has the UID and they are others.
        ensures logged { OnOk result
            (Logs self.old self.new (flags_logged (rows self.old) uid op)) }
        // What is logged goes into the window; a full one drops its oldest change, or grows where a client is still to be shown it.
        ensures window { OnOk result
            (Moves self.old.cursors self.old.window self.new.window
            (flags_logged (rows self.old) uid op)) }
        // The message of this UID has the new flags; nothing but the messages and the window changes.
        ensures messages { OnOk result (self.new.messages ≡ flagged uid op self.old.messages) }
        ensures rest { self.new ≡ record self.old {
          messages = self.new.messages;
          window = self.new.window;
        } }
        // The answer is the flags that the message has now, or None where no message has the UID.
        ensures flags { IfOk result (λ flags.
            flags ≡ option_map (λ m. m.flags) (message_with uid self.new.messages)) }
    {
        self.admit(handle)?;
        let Some(old) = self.flags_of(uid) else {
            return Ok(None);
        };
        let _changed = self.set_flags(uid, old, op)?;
        Ok(Some(op.after(old)))
    }

    // Whether setting \Seen, where that is asked for, is more than the log has room for.
    fn cannot_mark(&self, uid: u32, old: Flags, mark_seen: bool) -> bool
        requires there { option_map (λ (m : Kept). m.flags) (message_with uid self.now.messages)
            ≡ Some old }
        requires small { total self.now.window ≤ 2 ^ 62 }
        ensures { IsTrue result ↔ IsTooMany self.now (seen_logged mark_seen (rows self.now) uid) }
    {
        if !mark_seen {
            return false;
        }
        if !old.differ_from(MARK.after(old)) {
            return false;
        }
        self.ring.total() >= MOST_CHANGES
    }

    // Sets \Seen, where that is asked for: answers whether that changed the flags.
    fn mark(&mut self, uid: u32, old: Flags, mark_seen: bool) -> Result<bool, Spent>
        requires there { option_map (λ (m : Kept). m.flags) (message_with uid self.old.messages)
            ≡ Some old }
        requires small { total self.old.window ≤ 2 ^ 62 }
        ensures spent { IsErr result
            ↔ IsTooMany self.old (seen_logged mark_seen (rows self.old) uid) }
        ensures err { OnErr result (self.new ≡ self.old) }
        ensures logged { OnOk result
            (Logs self.old self.new (seen_logged mark_seen (rows self.old) uid)) }
        ensures window { OnOk result
            (Moves self.old.cursors self.old.window self.new.window
            (seen_logged mark_seen (rows self.old) uid)) }
        ensures messages { OnOk result (self.new.messages
            ≡ seen_after mark_seen uid self.old.messages) }
        ensures rest { self.new ≡ record self.old {
          messages = self.new.messages;
          window = self.new.window;
        } }
        ensures changed { IfOk result (λ changed.
            was_logged (seen_logged mark_seen (rows self.old) uid) ≡ changed) }
    {
        if !mark_seen {
            return Ok(false);
        }
        self.set_flags(uid, old, MARK)
    }

    /// Reads the message of a UID, with its text, which is shared; where `mark_seen`, it has \Seen from now
    /// on (RFC 9051, 6.4.5), which is logged where it had not. None where no message has the UID.
    /// Stranger, Lapped, Spent or NoMemory, in this order; nothing is then changed.
    pub fn read(
        &mut self,
        handle: &CursorHandle,
        uid: u32,
        mark_seen: bool,
    ) -> Result<Option<Row>, MailFault>
        // Stranger, Lapped and Spent come exactly where they hold, in this order; NoMemory only where a message has the UID.
        ensures stranger { (result ≡ Err MailFault.Stranger) ↔ IsStranger self.old handle.now }
        ensures lapped { (result ≡ Err MailFault.Lapped) ↔ IsLapped self.old handle.now }
        ensures spent { (result ≡ Err MailFault.Spent) ↔ (IsCurrent self.old handle.now ×
            IsTooMany self.old (seen_logged mark_seen (rows self.old) uid)) }
        ensures memory { (result ≡ Err MailFault.NoMemory)
            → IsSome (message_with uid self.old.messages) }
        // After an error nothing has changed.
        ensures err { OnErr result (self.new ≡ self.old) }

        // \Seen is logged, on every log for which the mailbox stood, where it is asked for and the message is there without it.
        ensures logged { OnOk result
            (Logs self.old self.new (seen_logged mark_seen (rows self.old) uid)) }
        // What is logged goes into the window; a full one drops its oldest change, or grows where a client is still to be shown it.
        ensures window { OnOk result
            (Moves self.old.cursors self.old.window self.new.window
            (seen_logged mark_seen (rows self.old) uid)) }
        // Where it is asked for, the message has \Seen now; nothing but the messages and the window changes.
        ensures messages { OnOk result (self.new.messages
            ≡ seen_after mark_seen uid self.old.messages) }
        ensures rest { self.new ≡ record self.old {
          messages = self.new.messages;
          window = self.new.window;
        } }
        // The answer is the message as it is now, and whether this call set \Seen; None where no message has the UID.
        ensures row { IfOk result (λ row. row ≡ option_map (λ m. record {
          uid = m.uid;
          flags = m.flags;
          newly_seen = was_logged (seen_logged mark_seen (rows self.old) uid);
          text = m.text;
        }) (message_with uid self.new.messages)) }
    {
        self.admit(handle)?;
        let Some((old, shared)) = self.letter(uid) else {
            return Ok(None);
        };
        let Ok(text) = shared.copy() else {
            return Err(self.refuse_copy(uid, old, mark_seen));
        };
        let newly_seen = self.mark(uid, old, mark_seen)?;
        let flags = if mark_seen { MARK.after(old) } else { old };
        Ok(Some(Row {
            uid,
            flags,
            newly_seen,
            text,
        }))
    }

    // Why a message isn't read whose text could not be copied: a log without room comes first.
    fn refuse_copy(&self, uid: u32, old: Flags, mark_seen: bool) -> MailFault
        requires there { option_map (λ (m : Kept). m.flags) (message_with uid self.now.messages)
            ≡ Some old }
        requires small { total self.now.window ≤ 2 ^ 62 }
        ensures spent { (result ≡ MailFault.Spent)
            ↔ IsTooMany self.now (seen_logged mark_seen (rows self.now) uid) }
        ensures only { (result ≡ MailFault.Spent) ⊎ (result ≡ MailFault.NoMemory) }
    {
        if self.cannot_mark(uid, old, mark_seen) {
            MailFault::Spent
        } else {
            MailFault::NoMemory
        }
    }
}
