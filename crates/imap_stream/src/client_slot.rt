//! What the thread of a client slot does with its client: it reads and answers, and while the session idles it waits for its bell too, and shows what
//! there is. What it does at once is one call of the visit; who starts the thread stands above.

ghost use Rattle.std.specs.Prelude.{◌≡◌, ◌<◌, ◌≤◌, [], None, IfOk, IfSome, OnErr, Option, List, ℕ, false, length, max, take, true};
ghost use Rattle.std.specs.Io.KnownBytes.{Consumes, IsAtEnd, Keeps};
ghost use Rattle.house_history.specs.Legal.{Legal};
ghost use Rattle.imap_session.specs.Exchange.{Admission, Folder, begun_with};
ghost use Rattle.session_thread.specs.Locks.{LockedStore};
ghost use Rattle.imap_stream.specs.Attending.{Attended, Ends, HasCalled, IsDismissed};
ghost use Rattle.imap_stream.specs.Visits.{HasAttended, IsGreeted, takes_bytes};
ghost use Rattle.imap_stream.specs.inner.Attending.{HearsOn, HearsOut};

use crate::visit::Visit;
use house_history::Naming;
use imap_session::After;
use line_io::Sink;
use std::alloc::Global;
use std::io::{ErrorKind, Read};
use std::sync::Wait;
use std::sync::atomic::{AtomicBool, AtomicU64, Ordering};
use std::time::Duration;
use workers_sync::{Courier, Gate};

/// So many microseconds the thread rests behind a look. A message that comes alone is shown at once; of many that follow one another
/// several are shown by one look and one send.
const REST: u64 = 200;

/// So many bytes of a client that sends much are read at once.
const MUCH: usize = 4_096;

/// So many of one that idles, or sends short commands: each client slot has a buffer of that size, also while its client is silent.
const FEW: usize = 256;

/// What ended a wait for a client.
#[derive(Clone, Copy, Debug, PartialEq, Eq)]
pub enum Woken {
    /// The client: a read finds bytes, or the end.
    Peer,
    /// The bell of its session.
    Bell,
}

/// What comes of a client, and of the bell of its session.
pub trait Wakes: Read {
    /// Waits until a read finds bytes or the end, or until the bell was rung since the last wait. Nothing is read.
    fn wait(&mut self) -> Woken
        ensures { Keeps (Self.remaining self.old) (Self.remaining self.new) };
}

/// How it ended that a client was attended.
#[derive(Clone, Copy, Debug, PartialEq, Eq)]
pub enum Parting {
    /// The client sends nothing more.
    Gone,
    /// A read failed, and not because it was interrupted.
    Broken,
    /// The visit takes nothing more: its session has ended, its output failed, memory was refused, or no verdict came on a message.
    Over,
    /// The house stops.
    Stopped,
}

// Fits the buffer to a client of which a read brought so many bytes, and which may send this next. Where memory is refused it stays as it is. Between
// the line that announces a literal and the literal it stays too, so that who appends one message after another isn't read in small pieces.
fn fit(count: usize, after: After, buffer: &mut Vec<u8>)
    ensures some { 0 < length buffer.old.items → 0 < length buffer.new.items }
    ensures most { length buffer.new.items ≤ max (length buffer.old.items) 4_096 }
    ensures few { after ≡ After.Idle → count ≤ 256 → count < length buffer.old.items
        → length buffer.new.items ≤ 256 }
{
    if count == buffer.len() && count < MUCH {
        let _ = buffer.resize(MUCH, 0);
        return;
    }
    let is_due = matches!(after, After::Literal(_));
    if buffer.len() > FEW && count <= FEW && !is_due {
        buffer.truncate(FEW);
        let _ = buffer.shrink_to_fit();
    }
}

// Reads once, to the front of the buffer, and answers how many bytes came, or why none did.
fn read_once<I: Read>(input: &mut I, buffer: &mut Vec<u8>) -> Result<usize, ErrorKind>
    ensures len { length buffer.new.items ≡ length buffer.old.items }
    ensures bound { IfOk result (λ n. n ≤ length buffer.new.items) }
    ensures came { IfOk result (λ n.
        Consumes (I.remaining input.old) (I.remaining input.new) (take n buffer.new.items)) }
    ensures end { IfOk result (λ n. n ≡ 0 → 0 < length buffer.old.items
        → IsAtEnd (I.remaining input.new)) }
    ensures none { OnErr result (Keeps (I.remaining input.old) (I.remaining input.new)) }
{
    match input.read(buffer.as_mut_slice()) {
        Ok(count) => Ok(count),
        Err(fault) => Err(fault.kind()),
    }
}

// How it ends where a read failed so, if it does.
fn parting_by(fault: ErrorKind) -> Option<Parting>
    ensures { IfSome result (λ how. how ≡ Parting.Broken) }
{
    match fault {
        ErrorKind::Interrupted => None,
        _ => Some(Parting::Broken),
    }
}

/// What the thread of a client slot shares with others about its client.
#[derive(Clone, Copy, Drop)]
pub struct ClientSlot<'a> {
    /// Whether the session idles, for those who log changes. It is set before the session's first turn.
    pub idles: &'a AtomicBool,
    /// Whether the house stops.
    pub stop: &'a AtomicBool,
}

impl ClientSlot<'_> {
    /// Reads what the client sends and answers it, until it goes or reading fails, its session ends, its
    /// output fails, memory is refused, no verdict comes on a message that it submitted, or `stop` is
    /// set: then it is dismissed. The messages that it submits are given to `courier`, whose verdicts are
    /// awaited. At the end its session leaves its mailbox. While the session idles its bell is heard too, and the client is shown what there is.
    /// Behind each look the thread rests for a fifth of a millisecond, so that changes which follow one another are shown together.
    /// `stop` is looked at before each read and behind it, so who sets it has to end a read that
    /// waits, as by shutting the stream down. What is answered is how it ended.
    ///
    /// `buffer` is what a read may fill, and is not empty. It grows to 4,096 bytes where a read filled it, unless memory is refused, and
    /// is 256 again once its client idles, or sent less than that and no literal is due.
    pub fn attend<'v, B: Naming, R: Wait, G: Gate, W: Sink + Drop, I: Read + Wakes, C: Courier>(
        &self,
        rt: &R,
        alloc: Global,
        visit: &mut Visit<'v, B, R, G, W>,
        courier: &mut C,
        input: &mut I,
        buffer: &mut Vec<u8>,
    ) -> Parting
        // The courier may carry a message; it may after, and is what it may have become by carrying.
        requires ready { C.ready courier.old }
        ensures ready { C.ready courier.new }
        ensures kept { (first : C) → C.kept first courier.old → C.kept first courier.new }

        // What came was heard, call by call of the visit, and its session left; `Gone` is at the end of what came.
        ensures attended { Attended (I.remaining input.old) (I.remaining input.new) result visit.old
            visit.new }
        ensures gone { 0 < length buffer.old.items → result ≡ Parting.Gone
            → IsAtEnd (I.remaining input.new) }

        // So where the client had just been greeted, this is the life of its session, by the history that all threads share.
        ensures lived { (admission : Admission) (folders : List Folder) (store : LockedStore)
            (taken : Option (List ℕ)) → Legal store.history → store.entered ≡ None
            → IsGreeted admission folders store taken visit.old
            → HasAttended (I.remaining input.old) (I.remaining input.new) result
            (record { first = begun_with admission folders; store = store; taken = taken })
            visit.new }

        // The buffer grows to 4,096 bytes at most.
        ensures most { length buffer.new.items ≤ max (length buffer.old.items) 4_096 }
    {
        let parting = self.serve(rt, alloc, visit, courier, input, buffer);
        self.idles.store(false, Ordering::SeqCst);
        // A mailbox that doesn't know the session has no cursor of it.
        let _ = visit.leave();
        parting
    }

    // Reads and hears the client until it is stopped, its line is at its end, or it may send no more.
    fn serve<'v, B: Naming, R: Wait, G: Gate, W: Sink + Drop, I: Read + Wakes, C: Courier>(
        &self,
        rt: &R,
        alloc: Global,
        visit: &mut Visit<'v, B, R, G, W>,
        courier: &mut C,
        input: &mut I,
        buffer: &mut Vec<u8>,
    ) -> Parting
        requires ready { C.ready courier.old }
        ensures ready { C.ready courier.new }
        ensures kept { (first : C) → C.kept first courier.old → C.kept first courier.new }
        ensures out { HearsOut (I.remaining input.old) (I.remaining input.new) result visit.old
            visit.new }
        ensures gone { 0 < length buffer.old.items → result ≡ Parting.Gone
            → IsAtEnd (I.remaining input.new) }
        ensures most { length buffer.new.items ≤ max (length buffer.old.items) 4_096 }
    {
        for _ in rt.forever() {
            if !visit.takes_bytes() {
                return Parting::Over;
            }
            if let Some(parting) = self.go_on(rt, alloc, visit, courier, input, buffer) {
                return parting;
            }
        }
        unreachable!()
    }

    // Shows the client what there is, where its session idles and its bell rings first; else reads once, and hears what came. How it ended,
    // where it did.
    fn go_on<'v, B: Naming, R: Wait, G: Gate, W: Sink + Drop, I: Read + Wakes, C: Courier>(
        &self,
        rt: &R,
        alloc: Global,
        visit: &mut Visit<'v, B, R, G, W>,
        courier: &mut C,
        input: &mut I,
        buffer: &mut Vec<u8>,
    ) -> Option<Parting>
        requires ready { C.ready courier.old }
        requires takes { takes_bytes visit.old ≡ true }
        ensures ready { C.ready courier.new }
        ensures kept { (first : C) → C.kept first courier.old → C.kept first courier.new }
        ensures on { result ≡ None → HearsOn (I.remaining input.old) (I.remaining input.new)
            visit.old visit.new }
        ensures out { IfSome result (λ how. (dropped : List ℕ)
            × Consumes (I.remaining input.old) (I.remaining input.new) dropped
            × Ends how dropped visit.old visit.new) }
        ensures gone { 0 < length buffer.old.items → IfSome result (λ how. how ≡ Parting.Gone
            → IsAtEnd (I.remaining input.new)) }
        ensures some { 0 < length buffer.old.items → 0 < length buffer.new.items }
        ensures most { length buffer.new.items ≤ max (length buffer.old.items) 4_096 }
    {
        if self.is_stopped(visit) {
            return Some(Parting::Stopped);
        }
        if visit.awaited() == After::Idle && input.wait() == Woken::Bell {
            self.show(rt, visit);
            return None;
        }
        self.serve_read(alloc, visit, courier, input, buffer)
    }

    // Shows the client what there is, where it idles, and rests.
    fn show<'v, B: Naming, R: Wait, G: Gate, W: Sink + Drop>(
        &self,
        rt: &R,
        visit: &mut Visit<'v, B, R, G, W>,
    )
        requires takes { takes_bytes visit.old ≡ true }
        ensures { HasCalled [] visit.old visit.new }
    {
        // Where memory was refused the session still idles, and the next bell tries again.
        let _ = visit.look();
        self.idles
            .store(visit.awaited() == After::Idle, Ordering::SeqCst);
        // It stays 0, and nobody wakes who waits there.
        let quiet = AtomicU64::new(0);
        quiet.park_timeout(rt, 0, Duration::from_micros(REST));
    }

    // Reads once, and hears what came. How it ended, where it did.
    fn serve_read<'v, B: Naming, R: Wait, G: Gate, W: Sink + Drop, I: Read, C: Courier>(
        &self,
        alloc: Global,
        visit: &mut Visit<'v, B, R, G, W>,
        courier: &mut C,
        input: &mut I,
        buffer: &mut Vec<u8>,
    ) -> Option<Parting>
        requires ready { C.ready courier.old }
        requires takes { takes_bytes visit.old ≡ true }
        ensures ready { C.ready courier.new }
        ensures kept { (first : C) → C.kept first courier.old → C.kept first courier.new }
        ensures on { result ≡ None → HearsOn (I.remaining input.old) (I.remaining input.new)
            visit.old visit.new }
        ensures out { IfSome result (λ how. (dropped : List ℕ)
            × Consumes (I.remaining input.old) (I.remaining input.new) dropped
            × Ends how dropped visit.old visit.new) }
        ensures gone { 0 < length buffer.old.items → IfSome result (λ how. how ≡ Parting.Gone
            → IsAtEnd (I.remaining input.new)) }
        ensures some { 0 < length buffer.old.items → 0 < length buffer.new.items }
        ensures most { length buffer.new.items ≤ max (length buffer.old.items) 4_096 }
    {
        let read = read_once(input, buffer);
        if self.is_stopped(visit) {
            return Some(Parting::Stopped);
        }
        match read {
            Ok(0) => Some(Parting::Gone),
            Ok(count) => {
                self.hear(alloc, visit, courier, count, buffer);
                None
            }
            Err(fault) => parting_by(fault),
        }
    }

    // Hears what a read brought, the first so many bytes of the buffer, and fits the buffer to the client.
    fn hear<'v, B: Naming, R: Wait, G: Gate, W: Sink + Drop, C: Courier>(
        &self,
        alloc: Global,
        visit: &mut Visit<'v, B, R, G, W>,
        courier: &mut C,
        count: usize,
        buffer: &mut Vec<u8>,
    )
        requires ready { C.ready courier.old }
        requires takes { takes_bytes visit.old ≡ true }
        requires bound { count ≤ length buffer.old.items }
        ensures ready { C.ready courier.new }
        ensures kept { (first : C) → C.kept first courier.old → C.kept first courier.new }
        ensures called { HasCalled (take count buffer.old.items) visit.old visit.new }
        ensures some { 0 < length buffer.old.items → 0 < length buffer.new.items }
        ensures most { length buffer.new.items ≤ max (length buffer.old.items) 4_096 }
    {
        if let Ok(after) = visit.hear(alloc, courier, &buffer[..count], self.idles) {
            fit(count, after, buffer);
        }
    }

    // Whether the house stops: then the client was dismissed.
    fn is_stopped<'v, B: Naming, R: Wait, G: Gate, W: Sink + Drop>(
        &self,
        visit: &mut Visit<'v, B, R, G, W>,
    ) -> bool
        ensures goes_on { result ≡ false → visit.new ≡ visit.old }
        ensures stops { result ≡ true → IsDismissed visit.old visit.new }
    {
        if !self.stop.load(Ordering::SeqCst) {
            return false;
        }
        // A client that can't be told is gone.
        let _ = visit.dismiss();
        true
    }
}
