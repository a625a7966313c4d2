//! The cursors of a mailbox's clients: which changes each was shown, and the UIDs that it counts.
//! What a change looks like is told in `lines`.

ghost use Rattle.std.specs.Prelude.{◌≡◌, ◌≢◌, ℕ, ◌+◌, ◌-◌, ◌^◌, ◌<◌, ◌≤◌, ◌↔◌, [], ◌++◌, length, Some, None, OnOk, OnErr, IfOk, IfErr, IfSome, IfNone, IsTrue, IsSome, IsErr, IsOk, All, map, min, option_map, option_copied, Err, vec_len, vec_capacity, ◌*◌};
ghost use Rattle.std.specs.Option.{option_map_or};
ghost use Rattle.change_ring.specs.Log.{total, changes_from};
ghost use Rattle.slab.specs.Slab.{get, values};
ghost use Rattle.cursor_set.specs.Legal.{IsLegalOn};
ghost use Rattle.cursor_set.specs.Lines.{lines};
ghost use Rattle.cursor_set.specs.Opened.{open_of, opened};
ghost use Rattle.cursor_set.specs.Cursors.{Open, IsLeastFrom, Updates, after_showing, held, in_slot, next_changes, open_numbers};

use crate::lines::{LINE_ROOM, show_changes};
use change_ring::{Change, ChangeRing, Lapped};
use slab::Slab;
use std::alloc::{AllocError, Global};
use std::marker::Model;

/// The handle is of another set, or its slot doesn't hold its cursor.
#[derive(Clone, Copy, Debug, PartialEq, Eq)]
pub struct Stranger;

/// Why a client was shown nothing.
#[derive(Clone, Copy, Debug, PartialEq, Eq)]
pub enum FeedFault {
    /// The handle is of another set, or its slot doesn't hold its cursor.
    Stranger,
    /// The next change to show was overwritten.
    Lapped,
    /// Memory was refused, for the lines or for what the client counts.
    NoMemory,
}

/// A client's hold of its cursor: the number of its set, the slot, the serial it was opened under
/// and the number of the next change to show. It can't be copied. Where it is dropped its slot stays
/// open.
#[derive(Drop)]
pub struct CursorHandle {
    number: u8,
    slot: usize,
    serial: u64,
    at: u64,
}

impl Model for CursorHandle {
    ghost use Rattle.cursor_set.specs.Cursors.{CursorHandle};

    ghost Value = { CursorHandle };

    ghost view = { λ s. record { number = s.number; slot = s.slot; serial = s.serial; at = s.at } };
}

impl CursorHandle {
    /// The number of the next change to show.
    pub fn at(&self) -> u64
        ensures { result ≡ self.now.at }
    {
        self.at
    }
}

#[derive(Drop)]
struct Cursor {
    serial: u64,
    at: u64,
    view: Vec<u32>,
}

// How much room is reserved behind what is there for so many lines, with so much to spare. Nothing is shown in the room that there is. None where
// no number says it.
fn room_for(count: usize, spare: usize) -> Option<usize>
    ensures none { IfNone result (0 < count) }
    ensures nothing { count ≡ 0 → result ≡ Some 0 }
    ensures room { IfSome result (λ n. 0 < count → count * LINE_ROOM + spare ≤ n) }
{
    if count == 0 {
        return Some(0);
    }
    count.checked_mul(LINE_ROOM)?.checked_add(spare)
}

impl Cursor {
    // Shows changes, or changes nothing where memory is refused: all room is reserved first.
    fn show(
        &mut self,
        first: &[Change],
        rest: &[Change],
        spare: usize,
        out: &mut Vec<u8>,
    ) -> Result<(), AllocError>
        requires legal { IsLegalOn self.old.view.items (first.now ++ rest.now) }
        requires small { self.old.at + length (first.now ++ rest.now) < 2 ^ 64 }
        requires counted { length first.now + length rest.now < 2 ^ 64 }
        ensures cursor { OnOk result (open_of self.new
            ≡ after_showing (first.now ++ rest.now) (open_of self.old)) }
        ensures text { OnOk result (out.new.items
            ≡ out.old.items ++ lines self.old.view.items (first.now ++ rest.now)) }
        ensures err { OnErr result (open_of self.new ≡ open_of self.old) }
        ensures err_text { OnErr result (out.new.items ≡ out.old.items) }
        ensures nothing { length (first.now ++ rest.now) ≡ 0 → IsOk result }
        ensures room { vec_capacity out.old ≤ vec_capacity out.new }
        // Where room for `spare` more bytes stood behind `out`, it stands there still.
        ensures spare { vec_len out.old + spare ≤ vec_capacity out.old
            → vec_len out.new + spare ≤ vec_capacity out.new }
    {
        let count = first.len() + rest.len();
        let Some(room) = room_for(count, spare) else {
            return Err(AllocError);
        };
        self.view.reserve(count)?;
        out.reserve(room)?;
        show_changes(first, &mut self.view, out);
        show_changes(rest, &mut self.view, out);
        self.at += count as u64;
        Ok(())
    }
}

// Shows changes to the cursor in a slot.
fn show_in(
    slots: &mut Slab<Cursor>,
    slot: usize,
    first: &[Change],
    rest: &[Change],
    spare: usize,
    out: &mut Vec<u8>,
) -> Result<(), AllocError>
    requires legal { (c : Cursor) → get slots.old slot ≡ Some c
        → IsLegalOn c.view.items (first.now ++ rest.now) }
    requires small { (c : Cursor) → get slots.old slot ≡ Some c
        → c.at + length (first.now ++ rest.now) < 2 ^ 64 }
    requires counted { length first.now + length rest.now < 2 ^ 64 }
    ensures cursor { OnOk result (option_map open_of (get slots.new slot)
        ≡ option_map (λ c. after_showing (first.now
        ++ rest.now) (open_of c)) (get slots.old slot)) }
    ensures others { (other : ℕ) → other ≢ slot → get slots.new other ≡ get slots.old other }
    ensures text { OnOk result (IfSome (get slots.old slot) (λ c.
        out.new.items ≡ out.old.items ++ lines c.view.items (first.now ++ rest.now))) }
    ensures err { OnErr result (opened slots.new.slots ≡ opened slots.old.slots) }
    ensures err_text { OnErr result (out.new.items ≡ out.old.items) }
    ensures nothing { length (first.now ++ rest.now) ≡ 0 → IsOk result }
    ensures room { vec_capacity out.old ≤ vec_capacity out.new }
    // Where room for `spare` more bytes stood behind `out`, it stands there still.
    ensures spare { vec_len out.old + spare ≤ vec_capacity out.old
        → vec_len out.new + spare ≤ vec_capacity out.new }
{
    match slots.get_mut(slot) {
        Some(cursor) => cursor.show(first, rest, spare, out),
        None => Ok(()),
    }
}

// The next changes from a number on, at most `limit`, in two slices that follow one another.
fn lend_next(ring: &ChangeRing, at: u64, limit: usize) -> (&[Change], &[Change])
    requires kept { ring.now.base ≤ at }
    requires logged { at ≤ total ring.now }
    ensures changes { result.0.now ++ result.1.now
        ≡ next_changes ring.now at (min limit (total ring.now - at)) }
    ensures count { length result.0.now + length result.1.now ≡ min limit (total ring.now - at) }
    ensures small { at + (length result.0.now + length result.1.now) ≤ 2 ^ 62 }
{
    // Read for its bound: no log has more than 2^62 changes.
    let _total = ring.total();
    match ring.lend(at) {
        Ok((first, rest)) => {
            let taken = limit.min(first.len());
            let more = (limit - taken).min(rest.len());
            (&first[..taken], &rest[..more])
        }
        Err(Lapped) => unreachable!(),
    }
}

// The lower of a number and the least so far.
fn lower(least: Option<u64>, number: u64) -> u64
    ensures { result ≡ option_map_or (min number) least number }
{
    match least {
        Some(least) => number.min(least),
        None => number,
    }
}

// The least number of a cursor in these slots that isn't below base.
fn least_in(slots: &Slab<Cursor>, base: u64) -> Option<u64>
    ensures none { IfNone result (All (λ number.
        number < base) (map (λ c. c.at) (values slots.now))) }
    ensures least { IfSome result (IsLeastFrom base (map (λ c. c.at) (values slots.now))) }
{
    let mut least = None;
    for (_slot, cursor) in slots.iter() {
        if cursor.at >= base {
            least = Some(lower(least, cursor.at));
        }
    }
    least
}

/// The cursors of one mailbox's clients.
#[derive(Drop)]
pub struct CursorSet {
    number: u8,
    next: u64,
    alloc: Global,
    slots: Slab<Cursor>,
}

impl Model for CursorSet {
    ghost use Rattle.cursor_set.specs.Cursors.{CursorSet};

    ghost Value = { CursorSet };

    ghost use Rattle.cursor_set.specs.Opened.{opened};

    ghost view = { λ s. record { number = s.number; next = s.next; slots = opened s.slots.slots } };
}

impl CursorSet {
    /// The set of the mailbox of this number, with no cursor. It allocates nothing.
    pub fn new(alloc: Global, number: u8) -> Self
        ensures { result ≡ record { number = number; next = 0; slots = [] } }
    {
        CursorSet {
            number,
            next: 0,
            alloc,
            slots: Slab::new(alloc),
        }
    }

    /// Whether a serial is left to open a cursor under.
    pub fn can_open(&self) -> bool
        ensures { IsTrue result ↔ (self.now.next < 2 ^ 64 - 1) }
    {
        self.next < u64::MAX
    }

    /// Opens a cursor for a client that counts these UIDs, and is to be shown the change of number
    /// `at` next. An error where memory is refused; the set is then unchanged.
    pub fn enter(&mut self, uids: &[u32], at: u64) -> Result<CursorHandle, AllocError>
        // A serial is left for it, as `can_open` tells.
        requires { self.old.next < 2 ^ 64 - 1 }
        // The handle has the serial that was due and stands at the number `at`; the slot was vacant.
        ensures handle { IfOk result (λ handle. (handle.number ≡ self.old.number)
            × (handle.serial ≡ self.old.next) × (handle.at ≡ at)) }
        ensures vacant { IfOk result (λ handle. in_slot self.old handle.slot ≡ None) }

        // The new cursor is in its slot, and no other slot has changed; the next cursor gets the next serial.
        ensures opened { IfOk result (λ handle. Updates self.old self.new handle.slot
            (Some (record { serial = self.old.next; at = at; view = uids.now }))) }
        ensures next { OnOk result (self.new.next ≡ self.old.next + 1) }

        // After an error nothing has changed.
        ensures err { OnErr result (self.new ≡ self.old) }
    {
        let view = Vec::from_slice(self.alloc, uids)?;
        let serial = self.next;
        let slot = self.slots.insert(Cursor { serial, at, view })?;
        self.next += 1;
        Ok(CursorHandle {
            number: self.number,
            slot,
            serial,
            at,
        })
    }

    // The cursor of a handle.
    fn find<'a>(&'a self, handle: &CursorHandle) -> Option<&'a Cursor>
        ensures { option_map open_of (option_copied result) ≡ held self.now handle.now }
    {
        if self.number != handle.number {
            return None;
        }
        let cursor = self.slots.get(handle.slot)?;
        if cursor.serial == handle.serial && cursor.at == handle.at {
            Some(cursor)
        } else {
            None
        }
    }

    /// The UIDs that a client counts, in their order. Stranger where the handle has no cursor here.
    pub fn view(&self, handle: &CursorHandle) -> Result<&[u32], Stranger>
        ensures ok { IfOk result (λ view. option_map (λ o. o.view) (held self.now handle.now)
            ≡ Some view.now) }
        ensures stranger { IsErr result ↔ (held self.now handle.now ≡ None) }
    {
        match self.find(handle) {
            Some(cursor) => Ok(&cursor.view),
            None => Err(Stranger),
        }
    }

    /// Closes a cursor. A handle that has no cursor here is handed back, and the set is unchanged.
    pub fn close(&mut self, handle: CursorHandle) -> Result<(), CursorHandle>
        // After Ok the handle had its cursor here and its slot is vacant; no other slot has changed.
        ensures ok { OnOk result (Updates self.old self.new handle.slot None) }
        ensures held { OnOk result (IsSome (held self.old handle)) }

        // The serial of the next cursor stays.
        ensures next { self.new.next ≡ self.old.next }

        // After an error the handle comes back, it had no cursor here, and nothing has changed.
        ensures stranger { IfErr result (λ back. (back ≡ handle) × (held self.old handle ≡ None)
            × (self.new ≡ self.old)) }
    {
        if self.find(&handle).is_none() {
            return Err(handle);
        }
        self.slots.try_remove(handle.slot);
        Ok(())
    }

    /// The least number of an open cursor that isn't below `base`: from there on the changes are
    /// still wanted.
    pub fn least(&self, base: u64) -> Option<u64>
        ensures none { IfNone result (All (λ number. number < base) (open_numbers self.now)) }
        ensures least { IfSome result (IsLeastFrom base (open_numbers self.now)) }
    {
        least_in(&self.slots, base)
    }

    /// Shows a client its next changes, at most `limit`: writes a line for each behind `out`, moves
    /// the cursor by as many, and answers how many. An EXISTS for a message that was added, an
    /// EXPUNGE for one that is gone and a FETCH for changed flags (RFC 9051, 7.4 and 7.5), each
    /// counted as the change before left the client's view. Stranger where the handle has no cursor
    /// here; else Lapped where the next change was overwritten; else NoMemory where memory is
    /// refused, which isn't asked for where nothing is to be shown. After each the set, the handle and
    /// what `out` says are unchanged. Room for `spare` more bytes behind what `out` says, where it
    /// stood there, stands there still.
    pub fn feed(
        &mut self,
        ring: &ChangeRing,
        handle: &mut CursorHandle,
        limit: usize,
        spare: usize,
        out: &mut Vec<u8>,
    ) -> Result<usize, FeedFault>
        // What is pending for the handle's cursor, if it isn't lapped, is within the log and legal on what its client counts.
        requires known { (o : Open) → held self.old handle.old ≡ Some o
            → ring.now.base ≤ handle.old.at →
            (handle.old.at ≤ total ring.now)
            × IsLegalOn o.view (changes_from handle.old.at ring.now) }

        // Stranger exactly where the handle has no cursor here, Lapped exactly where it has and the next change was overwritten.
        ensures stranger { (result ≡ Err FeedFault.Stranger) ↔ (held self.old handle.old ≡ None) }
        ensures lapped { (result ≡ Err FeedFault.Lapped)
            ↔ (IsSome (held self.old handle.old) × (handle.old.at < ring.now.base)) }
        // NoMemory comes only where there is something to show. After an error nothing has changed, nor was anything written.
        ensures memory { (result ≡ Err FeedFault.NoMemory)
            → 0 < min limit (total ring.now - handle.old.at) }
        ensures err { OnErr result ((self.new ≡ self.old) × (handle.new ≡ handle.old)
            × (out.new.items ≡ out.old.items)) }

        // It shows as many as are pending, up to `limit`: their lines, as the client counts, go behind `out`.
        ensures count { IfOk result (λ n. n ≡ min limit (total ring.now - handle.old.at)) }
        ensures shown { IfOk result (λ n. IfSome (held self.old handle.old) (λ o.
            out.new.items ≡ out.old.items
            ++ lines o.view (next_changes ring.now handle.old.at n))) }

        // Handle and cursor go on by as many, the view is what the changes make of it, and no other slot has changed.
        ensures handle { IfOk result (λ n.
            handle.new ≡ record handle.old { at = handle.old.at + n }) }
        ensures moved { IfOk result (λ n. Updates self.old self.new handle.old.slot
            (option_map (after_showing (next_changes ring.now handle.old.at n))
            (held self.old handle.old))) }
        // The serial of the next cursor stays, and `out` keeps its room or has more.
        ensures next { self.new.next ≡ self.old.next }
        ensures room { vec_capacity out.old ≤ vec_capacity out.new }
        // Where room for `spare` more bytes stood behind `out`, it stands there still.
        ensures spare { vec_len out.old + spare ≤ vec_capacity out.old
            → vec_len out.new + spare ≤ vec_capacity out.new }
    {
        let Some(_cursor) = self.find(handle) else {
            return Err(FeedFault::Stranger);
        };
        if handle.at < ring.base() {
            return Err(FeedFault::Lapped);
        }
        let (first, rest) = lend_next(ring, handle.at, limit);
        let Ok(()) = show_in(&mut self.slots, handle.slot, first, rest, spare, out) else {
            return Err(FeedFault::NoMemory);
        };
        let count = first.len() + rest.len();
        handle.at += count as u64;
        Ok(count)
    }
}
