//! One hold of a mailbox's lock for each call: through the acceptor of `locked_mailbox` one thing is done to the mailbox that is found, and the
//! house's history is told of it. Which lock, and for whose handle, is told above.

ghost use Rattle.std.specs.Prelude.{◌≡◌, ◌≢◌, ◌+◌, ◌≤◌, ◌⊎◌, ℕ, List, [], None, Some, Ok, Err, IfErr, IfOk, option_map, vec_len};
ghost use Rattle.imap_grammar.specs.Sets.{messages_in};
ghost use Rattle.std.specs.Option.{option_copied};
ghost use Rattle.std.specs.Vec.{vec_capacity};
ghost use Rattle.house_history.specs.declared.event.Event.TheVariants as events;
ghost use Rattle.house_history.specs.declared.event.Event.{Event};
ghost use Rattle.house_history.specs.declared.event.Step.TheVariants as steps;
ghost use Rattle.locked_mailbox.specs.Locking.{Knows, on_ok};
ghost use Rattle.workers_sync.specs.Holds.{DoesAlter, DoesExpunge, DoesFeed, DoesLeave, DoesLook, DoesRead, UnderLock};
ghost use Rattle.session_thread.specs.Locks.{DoesCountAt, DoesDiscardAt, HasItsText, HasOpening, HasRow, HasStatus, Held, LooksNot, says_nothing};
ghost use Rattle.session_thread.specs.inner.Entering.{DoesEnterAt};

use change_ring::{FlagOp, Flags};
use cursor_set::CursorHandle;
use house_history::{Front, Naming};
use imap_grammar::{Named, SeqSet, SetFault};
use locked_mailbox::{LockedMailbox, under, under_with};
use mailbox::{MailFault, Opening, Row, Status};
use std::alloc::Global;
use std::sync::{Mutex, Wait};

// What is answered, whose numbers are of the code's types.
fn opening_fits(opening: Opening) -> Opening
    ensures same { result ≡ opening }
    ensures fits { HasOpening result }
{
    opening
}

fn row_fits(row: Option<Row>) -> Option<Row>
    ensures same { result ≡ row }
    ensures fits { HasRow result }
{
    match row {
        Some(row) => Some(row),
        None => None,
    }
}

fn each_fits(row: Result<Option<Row>, MailFault>) -> Result<Option<Row>, MailFault>
    ensures same { result ≡ row }
    ensures fits { IfOk result HasRow }
{
    match row {
        Ok(row) => Ok(row_fits(row)),
        Err(fault) => Err(fault),
    }
}

fn counted(status: Status) -> Status
    ensures same { result ≡ status }
    ensures fits { HasStatus result }
{
    status
}

fn status_fits(status: Result<Status, MailFault>) -> Result<Status, MailFault>
    ensures same { result ≡ status }
    ensures fits { IfOk result HasStatus }
{
    match status {
        Ok(status) => Ok(counted(status)),
        Err(fault) => Err(fault),
    }
}

fn entered_fits(
    entered: Result<(CursorHandle, Opening), MailFault>,
) -> Result<(CursorHandle, Opening), MailFault>
    ensures same { result ≡ entered }
    ensures fits { IfOk result (λ entered. HasOpening entered.1) }
{
    match entered {
        Ok((handle, opening)) => Ok((handle, opening_fits(opening))),
        Err(fault) => Err(fault),
    }
}

// Lets a client into the mailbox that is held, where it has this number.
fn enter_at<B: Naming>(
    locked: &mut LockedMailbox<B>,
    front: &mut Front<B>,
    number: u8,
) -> Result<(CursorHandle, Opening), MailFault>
    ensures event { DoesEnterAt number locked.old.mailbox result locked.new.mailbox }
    ensures history { Knows locked.old locked.new [] front.old front.new }
{
    if locked.mailbox().number() != number {
        locked.look(front);
        return Err(MailFault::Stranger);
    }
    locked.enter(front)
}

pub(crate) fn enter<B: Naming, R: Wait>(
    rt: &R,
    lock: &Mutex<LockedMailbox<B>>,
    front: &mut Front<B>,
    number: u8,
) -> Result<(CursorHandle, Opening), MailFault>
    ensures held { Held front.old front.new says_nothing
        (λ found left. DoesEnterAt number found result left) }
    ensures fits { IfOk result (λ entered. HasOpening entered.1) }
{
    let mut seen = front.again();
    let (entered, seen) = under(
        rt,
        lock,
        move |locked: &mut LockedMailbox<B>| -> (
            Result<(CursorHandle, Opening), MailFault>,
            Front<B>,
        )
            ensures event { DoesEnterAt number locked.old.mailbox result.0 locked.new.mailbox }
            ensures history { Knows locked.old locked.new [] seen result.1 }
        {
            let entered = enter_at(locked, &mut seen, number);
            (entered, seen)
        },
    );
    *front = seen;
    entered_fits(entered)
}

// The messages that a set names, as the handle's client counts them, and what is seen of the history. Memory is wanted only where there is one.
fn choose_in<B: Naming>(
    alloc: Global,
    locked: &mut LockedMailbox<B>,
    front: &mut Front<B>,
    handle: &CursorHandle,
    set: &SeqSet<'_>,
    by_uid: bool,
) -> Result<Option<Vec<Named>>, MailFault>
    ensures same { locked.new.mailbox ≡ locked.old.mailbox }
    ensures history { Knows locked.old locked.new [] front.old front.new }
    ensures chosen { IfOk result (λ chosen. (view : List ℕ)
        × DoesLook locked.old.mailbox handle.now (Ok view)
        × (option_map (λ named. named.items) chosen ≡ messages_in by_uid set.now view)) }
    ensures not { IfErr result (λ fault.
        LooksNot by_uid set.now fault locked.old.mailbox handle.now) }
    ensures faults { IfErr result (λ f. (f ≡ MailFault.Stranger) ⊎ (f ≡ MailFault.NoMemory)) }
{
    locked.look(front);
    let view = locked.view(handle)?;
    match set.resolve(alloc, &view, by_uid) {
        Err(SetFault::TooHigh) => Ok(None),
        Err(SetFault::NoMemory) => Err(MailFault::NoMemory),
        Ok(messages) => Ok(Some(messages)),
    }
}

pub(crate) fn choose<B: Naming, R: Wait>(
    rt: &R,
    alloc: Global,
    lock: &Mutex<LockedMailbox<B>>,
    front: &Front<B>,
    handle: &CursorHandle,
    set: &SeqSet<'_>,
    by_uid: bool,
) -> Result<Option<Vec<Named>>, MailFault>
    ensures chosen { IfOk result (λ chosen. (view : List ℕ) × (seen : List Event)
        × Held front.now seen says_nothing
        (λ found left. (left ≡ found) × DoesLook found handle.now (Ok view))
        × (option_map (λ named. named.items) chosen ≡ messages_in by_uid set.now view)) }
    ensures not { IfErr result (λ fault.
        UnderLock (λ found left. (left ≡ found) × LooksNot by_uid set.now fault found handle.now)) }
    ensures faults { IfErr result (λ f. (f ≡ MailFault.Stranger) ⊎ (f ≡ MailFault.NoMemory)) }
{
    // The set is lent, since a closure that captured it would lose its clauses.
    let mut set = set;
    let mut seen = front.again();
    let (chosen, _) = under_with(
        rt,
        lock,
        &mut set,
        move |locked: &mut LockedMailbox<B>, set: &mut &SeqSet<'_>| -> (
            Result<Option<Vec<Named>>, MailFault>,
            Front<B>,
        )
            ensures same { locked.new.mailbox ≡ locked.old.mailbox }
            ensures history { Knows locked.old locked.new [] seen result.1 }
            ensures chosen { IfOk result.0 (λ chosen. (view : List ℕ)
                × DoesLook locked.old.mailbox handle.entry.now (Ok view)
                × (option_map (λ named. named.items) chosen
                ≡ messages_in by_uid set.old.now view)) }
            ensures not { IfErr result.0 (λ fault.
                LooksNot by_uid set.old.now fault locked.old.mailbox handle.entry.now) }
            ensures faults { IfErr result.0 (λ f. (f ≡ MailFault.Stranger)
                ⊎ (f ≡ MailFault.NoMemory)) }
        {
            let chosen = choose_in(alloc, locked, &mut seen, handle, set, by_uid);
            (chosen, seen)
        },
    );
    chosen
}

pub(crate) fn read<B: Naming, R: Wait>(
    rt: &R,
    lock: &Mutex<LockedMailbox<B>>,
    front: &mut Front<B>,
    handle: &CursorHandle,
    uid: u32,
    mark_seen: bool,
) -> Result<Option<Row>, MailFault>
    ensures held { Held front.old front.new
        (λ m. on_ok result (events.Changed m (steps.Read uid mark_seen)))
        (λ found left. DoesRead found handle.now uid mark_seen result left
        × IfOk result (HasItsText front.new found.number)) }
    ensures fits { IfOk result HasRow }
{
    let mut seen = front.again();
    let (row, seen) = under(
        rt,
        lock,
        move |locked: &mut LockedMailbox<B>| -> (Result<Option<Row>, MailFault>, Front<B>)
            ensures event { DoesRead locked.old.mailbox handle.entry.now uid mark_seen result.0
                locked.new.mailbox }
            ensures text { IfOk result.0 (HasItsText result.1 locked.old.mailbox.number) }
            ensures history { Knows locked.old locked.new
                (on_ok result.0
                (events.Changed locked.old.mailbox.number (steps.Read uid mark_seen)))
                seen result.1 }
        {
            let row = locked.read(&mut seen, handle, uid, mark_seen);
            (row, seen)
        },
    );
    *front = seen;
    each_fits(row)
}

// Counts the mailbox that is held, where it has this number.
fn count_at<B: Naming>(
    locked: &mut LockedMailbox<B>,
    front: &mut Front<B>,
    number: u8,
) -> Result<Status, MailFault>
    ensures event { DoesCountAt number locked.old.mailbox result locked.new.mailbox }
    ensures history { Knows locked.old locked.new [] front.old front.new }
{
    locked.look(front);
    if locked.mailbox().number() != number {
        return Err(MailFault::Stranger);
    }
    Ok(locked.count())
}

pub(crate) fn count<B: Naming, R: Wait>(
    rt: &R,
    lock: &Mutex<LockedMailbox<B>>,
    front: &mut Front<B>,
    number: u8,
) -> Result<Status, MailFault>
    ensures held { Held front.old front.new says_nothing
        (λ found left. DoesCountAt number found result left) }
    ensures fits { IfOk result HasStatus }
{
    let mut seen = front.again();
    let (status, seen) = under(
        rt,
        lock,
        move |locked: &mut LockedMailbox<B>| -> (Result<Status, MailFault>, Front<B>)
            ensures event { DoesCountAt number locked.old.mailbox result.0 locked.new.mailbox }
            ensures history { Knows locked.old locked.new [] seen result.1 }
        {
            let status = count_at(locked, &mut seen, number);
            (status, seen)
        },
    );
    *front = seen;
    status_fits(status)
}

pub(crate) fn alter<B: Naming, R: Wait>(
    rt: &R,
    lock: &Mutex<LockedMailbox<B>>,
    front: &mut Front<B>,
    handle: &CursorHandle,
    uid: u32,
    op: FlagOp,
) -> Result<Option<Flags>, MailFault>
    ensures { Held front.old front.new (λ m. on_ok result (events.Changed m (steps.Alter uid op)))
        (λ found left. DoesAlter found handle.now uid op result left) }
{
    let mut seen = front.again();
    let (flags, seen) = under(
        rt,
        lock,
        move |locked: &mut LockedMailbox<B>| -> (Result<Option<Flags>, MailFault>, Front<B>)
            ensures event { DoesAlter locked.old.mailbox handle.entry.now uid op result.0
                locked.new.mailbox }
            ensures history { Knows locked.old locked.new
                (on_ok result.0 (events.Changed locked.old.mailbox.number (steps.Alter uid op)))
                seen result.1 }
        {
            let flags = locked.alter(&mut seen, handle, uid, op);
            (flags, seen)
        },
    );
    *front = seen;
    flags
}

// Every message that is marked as deleted.
fn expunge_all<B: Naming, R: Wait>(
    rt: &R,
    lock: &Mutex<LockedMailbox<B>>,
    front: &mut Front<B>,
    mut handle: CursorHandle,
    spare: usize,
    out: &mut Vec<u8>,
) -> (Result<usize, MailFault>, CursorHandle)
    ensures event { Held front.old front.new
        (λ m. on_ok result.0 (events.Changed m (steps.Expunge None)))
        (λ found left.
        DoesExpunge found handle None out.old.items out.new.items result.0 left result.1) }
    ensures room { vec_capacity out.old ≤ vec_capacity out.new }
    // Where room for `spare` more bytes stood behind `out`, it stands there still.
    ensures spare { vec_len out.old + spare ≤ vec_capacity out.old
        → vec_len out.new + spare ≤ vec_capacity out.new }
{
    let mut seen = front.again();
    let (gone, handle, seen) = under_with(
        rt,
        lock,
        out,
        move |locked: &mut LockedMailbox<B>, out: &mut Vec<u8>| -> (
            Result<usize, MailFault>,
            CursorHandle,
            Front<B>,
        )
            ensures event { DoesExpunge locked.old.mailbox handle None out.old.items
                out.new.items result.0 locked.new.mailbox result.1 }
            ensures history { Knows locked.old locked.new
                (on_ok result.0 (events.Changed locked.old.mailbox.number (steps.Expunge None)))
                seen result.2 }
            ensures room { vec_capacity out.old ≤ vec_capacity out.new }
            ensures spare { vec_len out.old + spare ≤ vec_capacity out.old
                → vec_len out.new + spare ≤ vec_capacity out.new }
        {
            let gone = locked.expunge(&mut seen, &mut handle, None, spare, out);
            (gone, handle, seen)
        },
    );
    *front = seen;
    (gone, handle)
}

// Of those with these UIDs.
fn expunge_named<B: Naming, R: Wait>(
    rt: &R,
    lock: &Mutex<LockedMailbox<B>>,
    front: &mut Front<B>,
    mut handle: CursorHandle,
    uids: &[u32],
    spare: usize,
    out: &mut Vec<u8>,
) -> (Result<usize, MailFault>, CursorHandle)
    ensures event { Held front.old front.new
        (λ m. on_ok result.0 (events.Changed m (steps.Expunge (Some uids.now))))
        (λ found left. DoesExpunge found handle (Some uids.now) out.old.items out.new.items
        result.0 left result.1) }
    ensures room { vec_capacity out.old ≤ vec_capacity out.new }
    // Where room for `spare` more bytes stood behind `out`, it stands there still.
    ensures spare { vec_len out.old + spare ≤ vec_capacity out.old
        → vec_len out.new + spare ≤ vec_capacity out.new }
{
    let mut seen = front.again();
    let (gone, handle, seen) = under_with(
        rt,
        lock,
        out,
        move |locked: &mut LockedMailbox<B>, out: &mut Vec<u8>| -> (
            Result<usize, MailFault>,
            CursorHandle,
            Front<B>,
        )
            ensures event { DoesExpunge locked.old.mailbox handle (Some uids.entry.now)
                out.old.items out.new.items result.0 locked.new.mailbox result.1 }
            ensures history { Knows locked.old locked.new
                (on_ok result.0
                (events.Changed locked.old.mailbox.number (steps.Expunge (Some uids.entry.now))))
                seen result.2 }
            ensures room { vec_capacity out.old ≤ vec_capacity out.new }
            ensures spare { vec_len out.old + spare ≤ vec_capacity out.old
                → vec_len out.new + spare ≤ vec_capacity out.new }
        {
            let gone = locked.expunge(&mut seen, &mut handle, Some(uids), spare, out);
            (gone, handle, seen)
        },
    );
    *front = seen;
    (gone, handle)
}

pub(crate) fn expunge<B: Naming, R: Wait>(
    rt: &R,
    lock: &Mutex<LockedMailbox<B>>,
    front: &mut Front<B>,
    handle: CursorHandle,
    uids: Option<&[u32]>,
    spare: usize,
    out: &mut Vec<u8>,
) -> (Result<usize, MailFault>, CursorHandle)
    ensures event { Held front.old front.new
        (λ m. on_ok result.0 (events.Changed m (steps.Expunge (option_copied uids.entry))))
        (λ found left. DoesExpunge found handle (option_copied uids.entry) out.old.items
        out.new.items result.0 left result.1) }
    ensures room { vec_capacity out.old ≤ vec_capacity out.new }
    // Where room for `spare` more bytes stood behind `out`, it stands there still.
    ensures spare { vec_len out.old + spare ≤ vec_capacity out.old
        → vec_len out.new + spare ≤ vec_capacity out.new }
{
    match uids {
        None => expunge_all(rt, lock, front, handle, spare, out),
        Some(uids) => expunge_named(rt, lock, front, handle, uids, spare, out),
    }
}

pub(crate) fn feed<B: Naming, R: Wait>(
    rt: &R,
    lock: &Mutex<LockedMailbox<B>>,
    front: &mut Front<B>,
    mut handle: CursorHandle,
    limit: usize,
    spare: usize,
    out: &mut Vec<u8>,
) -> (Result<usize, MailFault>, CursorHandle)
    ensures event { Held front.old front.new says_nothing (λ found left.
        DoesFeed found handle limit out.old.items out.new.items result.0 left result.1) }
    ensures few { IfOk result.0 (λ n. n ≤ limit) }
    ensures faults { IfErr result.0 (λ f. f ≢ MailFault.Spent) }
    ensures room { vec_capacity out.old ≤ vec_capacity out.new }
    // Where room for `spare` more bytes stood behind `out`, it stands there still.
    ensures spare { vec_len out.old + spare ≤ vec_capacity out.old
        → vec_len out.new + spare ≤ vec_capacity out.new }
{
    let mut seen = front.again();
    let (fed, handle, seen) = under_with(
        rt,
        lock,
        out,
        move |locked: &mut LockedMailbox<B>, out: &mut Vec<u8>| -> (
            Result<usize, MailFault>,
            CursorHandle,
            Front<B>,
        )
            ensures event { DoesFeed locked.old.mailbox handle limit out.old.items out.new.items
                result.0 locked.new.mailbox result.1 }
            ensures few { IfOk result.0 (λ n. n ≤ limit) }
            ensures faults { IfErr result.0 (λ f. f ≢ MailFault.Spent) }
            ensures room { vec_capacity out.old ≤ vec_capacity out.new }
            ensures spare { vec_len out.old + spare ≤ vec_capacity out.old
                → vec_len out.new + spare ≤ vec_capacity out.new }
            ensures history { Knows locked.old locked.new [] seen result.2 }
        {
            let fed = locked.feed(&mut seen, &mut handle, limit, spare, out);
            (fed, handle, seen)
        },
    );
    *front = seen;
    (fed, handle)
}

pub(crate) fn leave<B: Naming, R: Wait>(
    rt: &R,
    lock: &Mutex<LockedMailbox<B>>,
    front: &mut Front<B>,
    handle: CursorHandle,
    remove: bool,
) -> Result<usize, (CursorHandle, MailFault)>
    ensures { Held front.old front.new
        (λ m. on_ok result (events.Changed m (steps.Leave remove)))
        (λ found left. DoesLeave found handle remove result left) }
{
    let mut seen = front.again();
    let (left, seen) = under(
        rt,
        lock,
        move |locked: &mut LockedMailbox<B>| -> (Result<usize, (CursorHandle, MailFault)>, Front<B>)
            ensures event { DoesLeave locked.old.mailbox handle remove result.0 locked.new.mailbox }
            ensures history { Knows locked.old locked.new
                (on_ok result.0 (events.Changed locked.old.mailbox.number (steps.Leave remove)))
                seen result.1 }
        {
            let left = locked.leave(&mut seen, handle, remove);
            (left, seen)
        },
    );
    *front = seen;
    left
}

// Removes the messages of these UIDs from the mailbox that is held, where it has this number.
fn discard_at<B: Naming>(
    locked: &mut LockedMailbox<B>,
    front: &mut Front<B>,
    number: u8,
    uids: &[u32],
) -> Result<(), MailFault>
    ensures event { DoesDiscardAt number uids.now locked.old.mailbox result locked.new.mailbox }
    ensures history { Knows locked.old locked.new
        (on_ok result (events.Changed locked.old.mailbox.number (steps.Discard uids.now)))
        front.old front.new }
{
    if locked.mailbox().number() != number {
        locked.look(front);
        return Err(MailFault::Stranger);
    }
    locked.discard(front, uids)
}

pub(crate) fn discard<B: Naming, R: Wait>(
    rt: &R,
    lock: &Mutex<LockedMailbox<B>>,
    front: &mut Front<B>,
    number: u8,
    uids: &[u32],
) -> Result<(), MailFault>
    ensures { Held front.old front.new
        (λ m. on_ok result (events.Changed m (steps.Discard uids.now)))
        (λ found left. DoesDiscardAt number uids.now found result left) }
{
    let mut seen = front.again();
    let (done, seen) = under(
        rt,
        lock,
        move |locked: &mut LockedMailbox<B>| -> (Result<(), MailFault>, Front<B>)
            ensures event { DoesDiscardAt number uids.entry.now locked.old.mailbox result.0
                locked.new.mailbox }
            ensures history { Knows locked.old locked.new
                (on_ok result.0
                (events.Changed locked.old.mailbox.number (steps.Discard uids.entry.now)))
                seen result.1 }
        {
            let done = discard_at(locked, &mut seen, number, uids);
            (done, seen)
        },
    );
    *front = seen;
    done
}
