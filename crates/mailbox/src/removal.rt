//! Which messages go: those with \Deleted, at an expunge or as a client leaves, or those of some UIDs.
//! All of a call's removals are one event, logged in the order of the UIDs. Those with \Deleted alone
//! are passed: whatever else is to go is given it first, which is neither logged nor shown.

ghost use Rattle.std.specs.Prelude.{◌≡◌, ◌+◌, ◌^◌, ◌≤◌, ◌<◌, ◌↔◌, ◌⊎◌, ◌==◌, true, List, ◌++◌, length, count_by, None, Err, OnOk, OnErr, IfOk, IfErr, IsTrue, option_map, drop, Some, IsSome, IfSome, if◌then◌else◌, vec_capacity, vec_len};
ghost use Rattle.change_ring.specs.Log.{view_at, discards, removals, removals_if, changes_from, total};
ghost use Rattle.cursor_set.specs.Cursors.{Updates, after_showing, held};
ghost use Rattle.cursor_set.specs.Lines.{lines};
ghost use Rattle.mailbox.specs.inner.Choices.{IsFound, passes};
ghost use Rattle.mailbox.specs.Events.{IsCurrent, IsLapped, IsStranger, IsTooMany, KeepsLog, Logs, Moves, in_set};
ghost use Rattle.mailbox.specs.inner.Events.{GoesOn};
ghost use Rattle.mailbox.specs.Mailbox.{remaining, rows, without, Stands};
ghost use Rattle.mailbox.specs.inner.Marks.{gone_of};

use crate::choice::Choice;
use crate::clients::MailFault;
use crate::logging::log_change;
use crate::mailbox::Mailbox;
use crate::messages::doom_each;
use change_ring::{Change, ChangeRing, MOST_CHANGES};
use cursor_set::{CursorHandle, CursorSet};

// How many of the UIDs the choice has.
fn count_taken(uids: &[u32], choice: Choice) -> usize
    requires { IsFound choice }
    ensures { result ≡ count_by (passes choice.entry) uids.now }
{
    uids.iter().filter(|uid| choice.has(**uid)).count()
}

// Logs that messages are gone, those of the UIDs that the choice has, in their order.
fn log_removals(ring: &mut ChangeRing, cursors: &CursorSet, uids: &[u32], choice: Choice)
    requires found { IsFound choice }
    requires room { total ring.old + length (gone_of (passes choice) uids.now) ≤ 2 ^ 62 }
    ensures goes_on { GoesOn ring.old ring.new (gone_of (passes choice.entry) uids.now) }
    ensures moves { Moves cursors.now ring.old ring.new (gone_of (passes choice.entry) uids.now) }
{
    for uid in uids {
        if choice.has(*uid) {
            let _ = log_change(ring, cursors, Change::Gone(*uid));
        }
    }
}

impl Mailbox {
    // Whether the log has room for so many changes more.
    fn has_room(&self, count: usize) -> bool
        ensures { IsTrue result ↔ (total self.now.window + count ≤ 2 ^ 62) }
    {
        let left = MOST_CHANGES - self.ring.total();
        count as u64 <= left
    }

    // How many messages go.
    fn count_removals(&self, choice: Choice) -> usize
        requires { IsFound choice }
        ensures { result ≡ length (removals (passes choice.entry) (rows self.now)) }
    {
        count_taken(self.messages.marked(), choice)
    }

    // Takes out the messages that go.
    fn remove(&mut self, choice: Choice)
        requires found { IsFound choice }
        requires room { total self.old.window + length (removals (passes choice) (rows self.old))
            ≤ 2 ^ 62 }
        ensures logged { Logs self.old self.new (removals (passes choice.entry) (rows self.old)) }
        ensures window { Moves self.old.cursors self.old.window self.new.window
            (removals (passes choice.entry) (rows self.old)) }
        ensures messages { self.new.messages ≡ remaining (passes choice.entry) self.old.messages }
        ensures rest { self.new ≡ record self.old {
          messages = self.new.messages;
          window = self.new.window;
        } }
    {
        log_removals(
            &mut self.ring,
            &self.cursors,
            self.messages.marked(),
            choice,
        );
        self.messages.remove(choice);
    }

    /// Shows a client all that is pending, then removes the messages that have \Deleted, of a set
    /// of UIDs where there is one (RFC 9051, 6.4.3 and 6.4.9): answers how many went. They are
    /// logged in the order of their UIDs, and the client is to be shown them later. Stranger,
    /// Lapped, Spent or NoMemory, in this order; the mailbox, the handle and what `out` says are then
    /// unchanged. Room for `spare` more bytes behind what `out` says, where it stood there, stands
    /// there still. The set may have UIDs in any order, and such as no message has; one that rises
    /// costs least.
    pub fn expunge(
        &mut self,
        handle: &mut CursorHandle,
        set: Option<&[u32]>,
        spare: usize,
        out: &mut Vec<u8>,
    ) -> Result<usize, MailFault>
        // Stranger, Lapped and Spent come exactly where they hold, in this order; NoMemory only where something is pending.
        ensures stranger { (result ≡ Err MailFault.Stranger) ↔ IsStranger self.old handle.old }
        ensures lapped { (result ≡ Err MailFault.Lapped) ↔ IsLapped self.old handle.old }
        ensures spent { (result ≡ Err MailFault.Spent) ↔ (IsCurrent self.old handle.old ×
            IsTooMany self.old (removals (in_set (option_map (λ uids.
            uids.now) set.entry)) (rows self.old))) }
        ensures memory { (result ≡ Err MailFault.NoMemory) → handle.old.at < total self.old.window }
        // After an error nothing has changed, nor was anything written.
        ensures err { OnErr result ((self.new ≡ self.old) × (handle.new ≡ handle.old)
            × (out.new.items ≡ out.old.items)) }

        // All that was pending is shown, and nothing of what goes now.
        ensures shown { OnOk result ((log : List Change) → Stands self.old log →
            out.new.items ≡ out.old.items
            ++ lines (view_at log handle.old.at) (drop handle.old.at log)) }
        // Handle and cursor stand where the log ended before the removals; no other slot has changed.
        ensures handle { OnOk result (handle.new
            ≡ record handle.old { at = total self.old.window }) }
        ensures within { OnOk result (handle.old.at ≤ total self.old.window) }
        ensures moved { OnOk result (Updates self.old.cursors self.new.cursors handle.old.slot
            (option_map (after_showing (changes_from handle.old.at self.old.window))
            (held self.old.cursors handle.old))) }

        // That they are gone is logged, in the order of the messages, on every log for which the mailbox stood.
        ensures logged { OnOk result (Logs self.old self.new (removals (in_set (option_map (λ uids.
            uids.now) set.entry)) (rows self.old))) }
        // What is logged goes into the window; a full one drops its oldest change, or grows where a client is still to be shown it.
        ensures window { OnOk result (Moves self.new.cursors self.old.window self.new.window
            (removals (in_set (option_map (λ uids. uids.now) set.entry)) (rows self.old))) }
        // The messages with \Deleted go, of the set where there is one; nothing but messages, window and cursors changes.
        ensures messages { OnOk result (self.new.messages
            ≡ remaining (in_set (option_map (λ uids. uids.now) set.entry)) self.old.messages) }
        ensures rest { OnOk result (self.new ≡ record self.old {
          messages = self.new.messages;
          window = self.new.window;
          cursors = self.new.cursors;
        }) }
        // The serial of the next cursor stays, and the answer is how many messages went.
        ensures next { self.new.cursors.next ≡ self.old.cursors.next }
        ensures count { IfOk result (λ n.
            n ≡ length (removals (in_set (option_map (λ uids.
            uids.now) set.entry)) (rows self.old))) }

        // The lines as the client counts.
        ensures written { OnOk result (IfSome (held self.old.cursors handle.old) (λ o.
            out.new.items ≡ out.old.items
            ++ lines o.view (changes_from handle.old.at self.old.window))) }
        // `out` keeps its room or has more.
        ensures room { vec_capacity out.old ≤ vec_capacity out.new }
        // Where room for `spare` more bytes stood behind `out`, it stands there still.
        ensures spare { vec_len out.old + spare ≤ vec_capacity out.old
            → vec_len out.new + spare ≤ vec_capacity out.new }
    {
        self.admit(handle)?;
        let choice = Choice::of(set);
        let count = self.count_removals(choice);
        if !self.has_room(count) {
            return Err(MailFault::Spent);
        }
        // Whoever is admitted is no stranger and has missed nothing: only memory can be wanting.
        let Ok(_shown) = self.feed(handle, usize::MAX, spare, out) else {
            return Err(MailFault::NoMemory);
        };
        self.remove(choice);
        Ok(count)
    }

    // Closes a cursor. A handle that has none here is handed back.
    fn close(&mut self, handle: CursorHandle) -> Result<(), CursorHandle>
        ensures logged { KeepsLog self.old self.new }
        ensures rest { self.new ≡ record self.old { cursors = self.new.cursors } }
        ensures closed { OnOk result (Updates self.old.cursors self.new.cursors handle.slot None) }
        ensures held { OnOk result (IsSome (held self.old.cursors handle)) }
        ensures next { self.new.cursors.next ≡ self.old.cursors.next }
        ensures stranger { IfErr result (λ back. (back ≡ handle) × IsStranger self.old handle
            × (self.new ≡ self.old)) }
    {
        self.cursors.close(handle)
    }

    // How many messages go as a client leaves.
    fn count_leaving(&self, remove: bool) -> usize
        ensures { result ≡ length (removals_if remove (rows self.now)) }
    {
        if remove {
            self.count_removals(Choice::Any)
        } else {
            0
        }
    }

    // Takes out the messages that go as a client leaves.
    fn remove_leaving(&mut self, remove: bool)
        requires room { total self.old.window + length (removals_if remove (rows self.old))
            ≤ 2 ^ 62 }
        ensures logged { Logs self.old self.new (removals_if remove (rows self.old)) }
        ensures window { Moves self.old.cursors self.old.window self.new.window
            (removals_if remove (rows self.old)) }
        ensures messages { self.new.messages
            ≡ (if remove then remaining (λ uid. true) self.old.messages else self.old.messages) }
        ensures rest { self.new ≡ record self.old {
          messages = self.new.messages;
          window = self.new.window;
        } }
    {
        if remove {
            self.remove(Choice::Any);
        }
    }

    /// Closes a client's cursor; where `remove`, every message that has \Deleted goes with it (RFC
    /// 9051, 6.4.1 and 6.4.2), logged in the order of the UIDs: answers how many went. The client
    /// may have fallen behind the window. What goes is kept for other clients alone: the cursor is
    /// closed first.
    ///
    /// Stranger where the handle has no cursor here, else Spent where the log has no room for the
    /// removals; the handle is then handed back and the mailbox unchanged. It takes no memory.
    pub fn close_cursor(
        &mut self,
        handle: CursorHandle,
        remove: bool,
    ) -> Result<usize, (CursorHandle, MailFault)>
        // Stranger exactly where the handle has no cursor here; Spent exactly where it has and the log has no room for what goes.
        ensures stranger { (result ≡ Err (handle, MailFault.Stranger))
            ↔ IsStranger self.old handle }
        ensures spent { (result ≡ Err (handle, MailFault.Spent))
            ↔ (IsSome (held self.old.cursors handle) ×
            IsTooMany self.old (removals_if remove (rows self.old))) }
        // After an error the handle comes back, it is one of these two, and nothing has changed.
        ensures only { IfErr result (λ e. (e.0 ≡ handle)
            × ((e.1 ≡ MailFault.Stranger) ⊎ (e.1 ≡ MailFault.Spent)) × (self.new ≡ self.old)) }

        // Where `remove`, what goes is logged, in the order of the messages, on every log for which the mailbox stood.
        ensures logged { OnOk result (Logs self.old self.new (removals_if remove (rows self.old))) }
        // What is logged goes into the window, which grows only for clients that stay: the cursor is closed first.
        ensures window { OnOk result
            (Moves self.new.cursors self.old.window self.new.window
            (removals_if remove (rows self.old))) }
        // Where `remove`, the messages with \Deleted go; else all stay.
        ensures messages { OnOk result (self.new.messages
            ≡ (if remove then remaining (λ uid. true) self.old.messages else self.old.messages)) }
        // The slot is vacant, and no other slot has changed; nothing but messages, window and cursors changes.
        ensures closed { OnOk result (Updates self.old.cursors self.new.cursors handle.slot None) }
        ensures rest { OnOk result (self.new ≡ record self.old {
          messages = self.new.messages;
          window = self.new.window;
          cursors = self.new.cursors;
        }) }
        // The serial of the next cursor stays, and the answer is how many messages went.
        ensures next { self.new.cursors.next ≡ self.old.cursors.next }
        ensures count { IfOk result (λ n. n ≡ length (removals_if remove (rows self.old))) }
    {
        if self.cursors.view(&handle).is_err() {
            return Err((handle, MailFault::Stranger));
        }
        let count = self.count_leaving(remove);
        if !self.has_room(count) {
            return Err((handle, MailFault::Spent));
        }
        if let Err(handle) = self.close(handle) {
            return Err((handle, MailFault::Stranger));
        }
        self.remove_leaving(remove);
        Ok(count)
    }

    // Whether the log has room for it that the messages go whose UIDs the choice has.
    fn can_discard(&self, choice: Choice) -> bool
        requires { IsFound choice }
        ensures { IsTrue result ↔ (total self.now.window
            + length (discards (passes choice.entry) (rows self.now)) ≤ 2 ^ 62) }
    {
        // No more go than are there, so these are counted only as the log comes near its end.
        if self.has_room(self.messages.len()) {
            return true;
        }
        self.has_room(self.messages.count(choice))
    }

    // Takes out the messages of these UIDs, which are those that are named.
    fn take_out(&mut self, uids: &[u32], named: Choice)
        requires found { IsFound named }
        requires test { passes named ≡ in_set (Some uids.now) }
        requires room { total self.old.window + length (discards (passes named) (rows self.old))
            ≤ 2 ^ 62 }
        ensures logged { Logs self.old self.new (discards (passes named.entry) (rows self.old)) }
        ensures window { Moves self.old.cursors self.old.window self.new.window
            (discards (passes named.entry) (rows self.old)) }
        ensures messages { self.new.messages ≡ without (passes named.entry) self.old.messages }
        ensures rest { self.new ≡ record self.old {
          messages = self.new.messages;
          window = self.new.window;
        } }
    {
        doom_each(&mut self.messages, uids);
        log_removals(&mut self.ring, &self.cursors, self.messages.marked(), named);
        self.messages.remove(named);
    }

    /// Removes the messages of these UIDs, whatever their flags, as a message that was moved goes from
    /// where it was (RFC 6851, and RFC 9051, 6.4.8). They are logged in the order of their UIDs, so
    /// each client is shown later that they went. UIDs that no message has are passed over; the UIDs
    /// may have any order, and such as rise cost least.
    ///
    /// Spent where the log has no room for that; the mailbox is then unchanged. It takes no memory.
    pub fn discard(&mut self, uids: &[u32]) -> Result<(), MailFault>
        // Spent exactly where the log has no room for what goes, and nothing else is refused; nothing has changed then.
        ensures spent { (result ≡ Err MailFault.Spent)
            ↔ IsTooMany self.old (discards (in_set (Some uids.now)) (rows self.old)) }
        ensures only { IfErr result (λ f. (f ≡ MailFault.Spent) × (self.new ≡ self.old)) }

        // That they are gone is logged, in the order of the messages, on every log for which the mailbox stood.
        ensures logged { OnOk result (Logs self.old self.new
            (discards (in_set (Some uids.now)) (rows self.old))) }
        // What is logged goes into the window; a full one drops its oldest change, or grows where a client is still to be shown it.
        ensures window { OnOk result (Moves self.old.cursors self.old.window self.new.window
            (discards (in_set (Some uids.now)) (rows self.old))) }
        // The messages of these UIDs go, and no others; nothing but messages and window changes.
        ensures messages { OnOk result (self.new.messages
            ≡ without (in_set (Some uids.now)) self.old.messages) }
        ensures rest { OnOk result (self.new ≡ record self.old {
          messages = self.new.messages;
          window = self.new.window;
        }) }
    {
        let choice = Choice::of(Some(uids));
        if !self.can_discard(choice) {
            return Err(MailFault::Spent);
        }
        self.take_out(uids, choice);
        Ok(())
    }
}
