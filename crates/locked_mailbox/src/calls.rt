//! What a client does to the mailbox. After each call it knows how the history begins, with all that has happened here.
ghost use Rattle.std.specs.Prelude.{◌≡◌, ◌≢◌, ◌+◌, ◌≤◌, ◌++◌, List, [], Ok, Err, IfErr, IfOk, IfSome, OnErr, vec_len};
ghost use Rattle.std.specs.List.Sorted.{IsStrictlyIncreasing};
ghost use Rattle.std.specs.Option.{option_copied};
ghost use Rattle.std.specs.Vec.{vec_capacity};
ghost use mathlib.Core.List.{IsPrefix};
ghost use Rattle.change_ring.specs.Log.{view_at};
ghost use Rattle.cursor_set.specs.Lines.{lines};
ghost use Rattle.mailbox.specs.Mailbox.{next_of};
ghost use Rattle.workers_sync.specs.Holds.{Counts, DoesAlter, DoesDiscard, DoesEnter, DoesExpunge, DoesFeed, DoesLeave, DoesLook, DoesRead};
ghost use Rattle.house_history.specs.declared.event.Event.{Event};
ghost use Rattle.house_history.specs.declared.event.Event.TheVariants as events;
ghost use Rattle.house_history.specs.declared.event.Step.TheVariants as steps;
ghost use Rattle.house_history.specs.Events.{changes_in};
ghost use Rattle.house_history.specs.Legal.{HasText};
ghost use Rattle.locked_mailbox.specs.Locking.{Knows, on_ok};

use crate::locked::LockedMailbox;
use change_ring::{FlagOp, Flags, View};
use cursor_set::{CursorHandle, Stranger};
use house_history::{Front, Naming};
use mailbox::{MailFault, Opening, Row, Status};

impl<B: Naming> LockedMailbox<B> {
    /// What a client counts, as `workers_sync::view` has it.
    pub fn view<'a>(&'a self, handle: &CursorHandle) -> Result<View<'a>, Stranger>
        ensures looks { IfOk result (λ view. DoesLook self.now.mailbox handle.now (Ok view)) }
        ensures rising { IfOk result (λ view. IsStrictlyIncreasing view) }
        ensures stranger { OnErr result
            (DoesLook self.now.mailbox handle.now (Err MailFault.Stranger)) }
    {
        workers_sync::view(&self.mailbox, handle)
    }

    /// What STATUS tells of the mailbox, as `workers_sync::count` has it.
    pub fn count(&self) -> Status
        ensures { Counts self.now.mailbox result }
    {
        workers_sync::count(&self.mailbox)
    }

    /// What was seen of the history has then all that has happened here.
    pub fn look(&mut self, front: &mut Front<B>)
        ensures same { self.new.mailbox ≡ self.old.mailbox }
        ensures history { Knows self.old self.new [] front.old front.new }
    {
        self.part.look(front);
    }

    /// A handle for a client at the end of the log, as `workers_sync::enter` has it.
    pub fn enter(&mut self, front: &mut Front<B>) -> Result<(CursorHandle, Opening), MailFault>
        ensures event { DoesEnter self.old.mailbox result self.new.mailbox }
        ensures history { Knows self.old self.new [] front.old front.new }
    {
        self.part.look(front);
        workers_sync::enter(&mut self.mailbox)
    }

    /// Shows a client its next changes, as `workers_sync::feed` has it, also with room to `spare`.
    pub fn feed(
        &mut self,
        front: &mut Front<B>,
        handle: &mut CursorHandle,
        limit: usize,
        spare: usize,
        out: &mut Vec<u8>,
    ) -> Result<usize, MailFault>
        ensures event { DoesFeed self.old.mailbox handle.old limit out.old.items out.new.items
            result self.new.mailbox handle.new }
        ensures few { IfOk result (λ n. n ≤ limit) }
        ensures faults { IfErr result (λ f. f ≢ MailFault.Spent) }
        ensures room { vec_capacity out.old ≤ vec_capacity out.new }
        // Where room for `spare` more bytes stood behind `out`, it stands there still.
        ensures spare { vec_len out.old + spare ≤ vec_capacity out.old
            → vec_len out.new + spare ≤ vec_capacity out.new }
        ensures history { Knows self.old self.new [] front.old front.new }
        // Just what this mailbox's log has next in the house's history is written, however the history goes on.
        ensures shown { IfOk result (λ n. (h : List Event) → IsPrefix front.new h
            → out.new.items ≡ out.old.items
            ++ lines (view_at (changes_in self.old.mailbox.number h) handle.old.at)
            (next_of (changes_in self.old.mailbox.number h) handle.old.at n)) }
    {
        self.part.look(front);
        workers_sync::feed(&mut self.mailbox, handle, limit, spare, out)
    }

    /// Reads a message, as `workers_sync::read` has it. Its text is that of the copy which was stored under this UID.
    pub fn read(
        &mut self,
        front: &mut Front<B>,
        handle: &CursorHandle,
        uid: u32,
        mark_seen: bool,
    ) -> Result<Option<Row>, MailFault>
        ensures event { DoesRead self.old.mailbox handle.now uid mark_seen result self.new.mailbox }
        ensures history { Knows self.old self.new
            (on_ok result (events.Changed self.old.mailbox.number (steps.Read uid mark_seen)))
            front.old front.new }
        ensures text { IfOk result (λ answer. IfSome answer (λ row.
            HasText front.new self.old.mailbox.number row.uid row.text)) }
    {
        self.part.look(front);
        let row = workers_sync::read(&mut self.mailbox, handle, uid, mark_seen)?;
        self.part.read(front, uid, mark_seen);
        Ok(row)
    }

    /// Changes the flags of a message, as `workers_sync::alter` has it.
    pub fn alter(
        &mut self,
        front: &mut Front<B>,
        handle: &CursorHandle,
        uid: u32,
        op: FlagOp,
    ) -> Result<Option<Flags>, MailFault>
        ensures event { DoesAlter self.old.mailbox handle.now uid op result self.new.mailbox }
        ensures history { Knows self.old self.new
            (on_ok result (events.Changed self.old.mailbox.number (steps.Alter uid op)))
            front.old front.new }
    {
        self.part.look(front);
        let flags = workers_sync::alter(&mut self.mailbox, handle, uid, op)?;
        self.part.alter(front, uid, op);
        Ok(flags)
    }

    /// Shows a client all that is pending, and removes messages, as `workers_sync::expunge` has it, also
    /// with room to `spare`.
    pub fn expunge(
        &mut self,
        front: &mut Front<B>,
        handle: &mut CursorHandle,
        uids: Option<&[u32]>,
        spare: usize,
        out: &mut Vec<u8>,
    ) -> Result<usize, MailFault>
        ensures event { DoesExpunge self.old.mailbox handle.old (option_copied uids.entry)
            out.old.items out.new.items result self.new.mailbox handle.new }
        ensures room { vec_capacity out.old ≤ vec_capacity out.new }
        // Where room for `spare` more bytes stood behind `out`, it stands there still.
        ensures spare { vec_len out.old + spare ≤ vec_capacity out.old
            → vec_len out.new + spare ≤ vec_capacity out.new }
        ensures history { Knows self.old self.new
            (on_ok result
            (events.Changed self.old.mailbox.number (steps.Expunge (option_copied uids.entry))))
            front.old front.new }
    {
        self.part.look(front);
        let gone = workers_sync::expunge(&mut self.mailbox, handle, uids, spare, out)?;
        self.part.expunge(front, uids);
        Ok(gone)
    }

    /// Closes a client's handle, as `workers_sync::leave` has it.
    pub fn leave(
        &mut self,
        front: &mut Front<B>,
        handle: CursorHandle,
        remove: bool,
    ) -> Result<usize, (CursorHandle, MailFault)>
        ensures event { DoesLeave self.old.mailbox handle remove result self.new.mailbox }
        ensures history { Knows self.old self.new
            (on_ok result (events.Changed self.old.mailbox.number (steps.Leave remove)))
            front.old front.new }
    {
        self.part.look(front);
        let gone = workers_sync::leave(&mut self.mailbox, handle, remove)?;
        self.part.leave(front, remove);
        Ok(gone)
    }

    /// Removes the messages of these UIDs, whatever their flags, as `workers_sync::discard` has it.
    pub fn discard(&mut self, front: &mut Front<B>, uids: &[u32]) -> Result<(), MailFault>
        ensures event { DoesDiscard self.old.mailbox uids.now result self.new.mailbox }
        ensures history { Knows self.old self.new
            (on_ok result (events.Changed self.old.mailbox.number (steps.Discard uids.now)))
            front.old front.new }
    {
        self.part.look(front);
        workers_sync::discard(&mut self.mailbox, uids)?;
        self.part.discard(front, uids);
        Ok(())
    }
}
