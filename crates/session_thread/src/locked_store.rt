//! The store of a session of the running house: mailboxes behind locks. Which lock a call takes, and
//! whose bells ring behind it, stands here; what is done to the mailbox that is found doesn't.

ghost use Rattle.std.specs.Prelude.{◌≡◌, ◌∷◌, ◌++◌, [], List, IfOk, None, is_some, length};
ghost use Rattle.workers_sync.specs.Carried.{Carried};
ghost use Rattle.session_thread.specs.Life.{carried_of};
ghost use Rattle.session_thread.specs.Locks.{Holds, shown_in};
ghost use Rattle.session_thread.specs.inner.Entering.{seen_behind};

use crate::locked;
use change_ring::{FlagOp, Flags};
use cursor_set::CursorHandle;
use delivery_token::Verdict;
use house_history::{Front, Naming};
use imap_grammar::{Named, SeqSet};
use imap_session::{Append, Store};
use locked_mailbox::LockedMailbox;
use mailbox::{MailFault, Opening, Row, Status};
use std::alloc::Global;
use std::marker::Model;
use std::sync::{Mutex, Wait};
use workers_sync::{Actor, Courier, Gate, Lost, SessionBell, SyncPoint, ring_each};

// Whether a read logged that the message was seen.
fn has_marked(row: &Result<Option<Row>, MailFault>) -> bool {
    match row {
        Ok(Some(row)) => row.newly_seen,
        _ => false,
    }
}

// Whether a store found its message, and so may have logged its flags.
fn has_stored(flags: &Result<Option<Flags>, MailFault>) -> bool {
    match flags {
        Ok(flags) => flags.is_some(),
        Err(_) => false,
    }
}

// Whether an expunge logged that messages went.
fn has_removed(gone: &Result<usize, MailFault>) -> bool {
    match gone {
        Ok(count) => *count > 0,
        Err(_) => false,
    }
}

// What a session has seen of the history behind a hold: a call that is refused leaves it as it was.
fn seen_behind<B: Naming, T>(
    answer: &Result<T, MailFault>,
    before: Front<B>,
    after: Front<B>,
) -> Front<B>
    ensures { result ≡ seen_behind answer.now before after }
{
    match answer {
        Ok(_) => after,
        Err(_) => before,
    }
}

// The mailbox that a session entered, the number of the log's next change when it did, and its handle
// there.
#[derive(Drop)]
struct Entry {
    mailbox: u8,
    start: u64,
    handle: CursorHandle,
}

/// The mailboxes of the house as one session gets at them: each call takes the lock of one mailbox,
/// makes one event of it, or looks at the view, and lets go. Between two calls nothing is known of a
/// mailbox, but the session's handle, and how the house's history begins.
///
/// The session asks its gate to pass before each hold that is an event, also one that is refused under
/// the lock; a look at the view is none, and a call that takes no lock doesn't ask. Behind a hold that
/// logged a change the bells of the user's sessions are rung.
#[derive(Drop)]
pub struct LockedStore<'a, B: Naming, R: Wait, G: Gate> {
    rt: &'a R,
    sync_point: SyncPoint<'a, G>,
    mailboxes: &'a [Mutex<LockedMailbox<B>>],
    // How the house's history begins, as far as the session knows it.
    front: Front<B>,
    // Those of its user's sessions.
    bells: &'a [SessionBell],
    entered: Option<Entry>,
}

impl<'a, B: Naming, R: Wait, G: Gate> Model for LockedStore<'a, B, R, G> {
    ghost use Rattle.std.specs.Prelude.{◌<◌, length, IfSome};
    ghost use Rattle.session_thread.specs.Locks.{LockedStore};

    ghost Value = { LockedStore };

    ghost view = { λ d. record {
      mailboxes = length d.mailboxes.now;
      entered = d.entered;
      history = d.front;
    } };

    ghost invariant = { λ d. IfSome d.entered (λ here. here.mailbox < length d.mailboxes.now) };
}

impl<'a, B: Naming, R: Wait, G: Gate> LockedStore<'a, B, R, G> {
    /// The store of the session of this number among all sessions of the house, from 0, which has
    /// entered no mailbox. `mailboxes` are all of the house, by their numbers from 0, `front` is how its history
    /// began, and `bells` are those of its user's sessions.
    pub fn new(
        rt: &'a R,
        gate: &'a G,
        session: u8,
        mailboxes: &'a [Mutex<LockedMailbox<B>>],
        front: Front<B>,
        bells: &'a [SessionBell],
    ) -> LockedStore<'a, B, R, G>
        ensures { result ≡ record {
          mailboxes = length mailboxes.now;
          entered = None;
          history = front;
        } }
    {
        LockedStore {
            rt,
            sync_point: SyncPoint::new(gate, Actor::Session(session)),
            mailboxes,
            front,
            bells,
            entered: None,
        }
    }

    /// Gives the message that the session submitted to a courier, who makes its events at the session's
    /// sync point. No lock is held meanwhile.
    pub(crate) fn carry<C: Courier>(
        &mut self,
        courier: &mut C,
        append: &Append,
    ) -> Result<Verdict, Lost>
        requires ready { C.ready courier.old }
        ensures ready { C.ready courier.new }
        ensures kept { (first : C) → C.kept first courier.old → C.kept first courier.new }

        // Without an error the courier carried one message more: this one, with the verdict that is answered.
        ensures carried { IfOk result (λ verdict. (done : List Carried)
            → C.carried courier.old done →
            C.carried courier.new (done ++ carried_of append.now verdict ∷ [])) }
        ensures same { self.new ≡ self.old }
    {
        courier.carry(
            &mut self.sync_point,
            append.message,
            append.mailbox,
            &append.text,
            append.flags,
        )
    }

    /// The session's sync point, for events that are no hold of a mailbox.
    pub fn into_sync_point(self) -> SyncPoint<'a, G> {
        let LockedStore {
            rt: _,
            sync_point,
            mailboxes: _,
            front: _,
            bells: _,
            entered: _,
        } = self;
        sync_point
    }

    // Whether the session is in a mailbox.
    pub(crate) fn is_inside(&self) -> bool
        ensures { result ≡ is_some self.now.entered }
    {
        self.entered.is_some()
    }

    /// How many changes the session was shown since it entered its mailbox; 0 in none.
    pub fn shown(&self) -> u64
        ensures { result ≡ shown_in self.now.entered }
    {
        match &self.entered {
            None => 0,
            Some(here) => here.handle.at().saturating_sub(here.start),
        }
    }
}

impl<'a, B: Naming, R: Wait, G: Gate> Store for LockedStore<'a, B, R, G> {
    ghost step = { λ old call answered new. Holds old call answered new };

    fn enter(&mut self, mailbox: u8) -> Result<Opening, MailFault> {
        if self.entered.is_some() {
            return Err(MailFault::Stranger);
        }
        if usize::from(mailbox) >= self.mailboxes.len() {
            return Err(MailFault::Stranger);
        }
        self.sync_point.pass();
        let lock = &self.mailboxes[usize::from(mailbox)];
        let mut front = self.front.again();
        let (handle, opening) = locked::enter(self.rt, lock, &mut front, mailbox)?;
        self.front = front;
        self.entered = Some(Entry {
            mailbox,
            start: handle.at(),
            handle,
        });
        Ok(opening)
    }

    fn choose(
        &self,
        alloc: Global,
        set: &SeqSet<'_>,
        by_uid: bool,
    ) -> Result<Option<Vec<Named>>, MailFault> {
        let Some(here) = &self.entered else {
            return Err(MailFault::Stranger);
        };
        let lock = &self.mailboxes[usize::from(here.mailbox)];
        locked::choose(self.rt, alloc, lock, &self.front, &here.handle, set, by_uid)
    }

    fn read(&mut self, uid: u32, mark_seen: bool) -> Result<Option<Row>, MailFault> {
        let mailboxes = self.mailboxes;
        let Some(here) = &self.entered else {
            return Err(MailFault::Stranger);
        };
        self.sync_point.pass();
        let lock = &mailboxes[usize::from(here.mailbox)];
        let mut front = self.front.again();
        let row = locked::read(self.rt, lock, &mut front, &here.handle, uid, mark_seen);
        self.front = seen_behind(&row, self.front.again(), front);
        if has_marked(&row) {
            ring_each(self.bells);
        }
        row
    }

    fn status(&mut self, mailbox: u8) -> Result<Status, MailFault> {
        if usize::from(mailbox) >= self.mailboxes.len() {
            return Err(MailFault::Stranger);
        }
        self.sync_point.pass();
        let lock = &self.mailboxes[usize::from(mailbox)];
        let mut front = self.front.again();
        let status = locked::count(self.rt, lock, &mut front, mailbox);
        self.front = seen_behind(&status, self.front.again(), front);
        status
    }

    fn store(&mut self, uid: u32, op: FlagOp) -> Result<Option<Flags>, MailFault> {
        let mailboxes = self.mailboxes;
        let Some(here) = &self.entered else {
            return Err(MailFault::Stranger);
        };
        self.sync_point.pass();
        let lock = &mailboxes[usize::from(here.mailbox)];
        let mut front = self.front.again();
        let flags = locked::alter(self.rt, lock, &mut front, &here.handle, uid, op);
        self.front = seen_behind(&flags, self.front.again(), front);
        // Also where the flags were so before: the mailbox doesn't tell, and a ring too many costs
        // a turn.
        if has_stored(&flags) {
            ring_each(self.bells);
        }
        flags
    }

    fn expunge(
        &mut self,
        uids: Option<&[u32]>,
        spare: usize,
        out: &mut Vec<u8>,
    ) -> Result<usize, MailFault> {
        let Some(here) = self.entered.take() else {
            return Err(MailFault::Stranger);
        };
        self.sync_point.pass();
        let lock = &self.mailboxes[usize::from(here.mailbox)];
        let mut front = self.front.again();
        let (gone, handle) = locked::expunge(
            self.rt,
            lock,
            &mut front,
            here.handle,
            uids,
            spare,
            out,
        );
        self.entered = Some(Entry {
            mailbox: here.mailbox,
            start: here.start,
            handle,
        });
        self.front = seen_behind(&gone, self.front.again(), front);
        if has_removed(&gone) {
            ring_each(self.bells);
        }
        gone
    }

    fn feed(&mut self, limit: usize, spare: usize, out: &mut Vec<u8>) -> Result<usize, MailFault> {
        let Some(here) = self.entered.take() else {
            return Err(MailFault::Stranger);
        };
        self.sync_point.pass();
        let lock = &self.mailboxes[usize::from(here.mailbox)];
        let mut front = self.front.again();
        let (fed, handle) = locked::feed(self.rt, lock, &mut front, here.handle, limit, spare, out);
        self.entered = Some(Entry {
            mailbox: here.mailbox,
            start: here.start,
            handle,
        });
        self.front = seen_behind(&fed, self.front.again(), front);
        fed
    }

    fn leave(&mut self, remove: bool) -> Result<usize, MailFault> {
        let Some(here) = self.entered.take() else {
            return Err(MailFault::Stranger);
        };
        self.sync_point.pass();
        let lock = &self.mailboxes[usize::from(here.mailbox)];
        let mut front = self.front.again();
        match locked::leave(self.rt, lock, &mut front, here.handle, remove) {
            Ok(gone) => {
                self.front = front;
                if gone > 0 {
                    ring_each(self.bells);
                }
                Ok(gone)
            }
            Err((handle, fault)) => {
                self.entered = Some(Entry {
                    mailbox: here.mailbox,
                    start: here.start,
                    handle,
                });
                Err(fault)
            }
        }
    }

    fn discard(&mut self, mailbox: u8, uids: &[u32]) -> Result<(), MailFault> {
        if usize::from(mailbox) >= self.mailboxes.len() {
            return Err(MailFault::Stranger);
        }
        self.sync_point.pass();
        let lock = &self.mailboxes[usize::from(mailbox)];
        let mut front = self.front.again();
        let done = locked::discard(self.rt, lock, &mut front, mailbox, uids);
        self.front = seen_behind(&done, self.front.again(), front);
        // Also where no message had such a UID: the mailbox doesn't tell, and a ring too many costs
        // a turn.
        if done.is_ok() {
            ring_each(self.bells);
        }
        done
    }
}
