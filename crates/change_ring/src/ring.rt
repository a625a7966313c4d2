//! A ring of the last changes of a log: it drops the oldest, or grows up to its most where they are
//! still wanted. Who wants them is not told here.
//!
//! The ring's changes begin in the cell `start` of its block, and go on in the first cell: `start` is
//! the first cell until the block is full.

ghost use Rattle.std.specs.Prelude.{◌≡◌, ◌+◌, ◌*◌, ◌^◌, ◌<◌, ◌≤◌, ◌↔◌, [], ◌∷◌, ◌++◌, length, IfOk, OnOk, OnErr, IsSome, is_some, IsErr, option_to_list, min, ◌==◌, ◌⊎◌};
ghost use Rattle.change_ring.specs.inner.Filled.{around};
ghost use Rattle.change_ring.specs.Log.{total, changes_from, capacity_after};

use crate::block::Block;
use crate::change::Change;
use std::alloc::{AllocError, Global};
use std::marker::Model;

/// The log has as many changes as can be numbered: 2^62.
#[derive(Clone, Copy, Debug, PartialEq, Eq)]
pub struct Spent;

/// Some of the changes asked for were overwritten.
#[derive(Clone, Copy, Debug, PartialEq, Eq)]
pub struct Lapped;

/// So many changes a log numbers at most.
pub const MOST_CHANGES: u64 = 1 << 62;

/// The last changes of a log, each under its number, which counts from 0.
#[derive(Drop)]
pub struct ChangeRing {
    block: Block,
    start: usize,
    base: u64,
    max: usize,
}

impl Model for ChangeRing {
    ghost use Rattle.std.specs.Prelude.{◌≡◌, ◌+◌, ◌<◌, ◌≤◌, ◌^◌, length};
    ghost use Rattle.change_ring.specs.inner.Filled.{around};
    ghost use Rattle.change_ring.specs.Log.{Window};

    ghost Value = { Window };

    ghost view = { λ r. record { base = r.base; changes = around r.start r.block.written; capacity = r.block.capacity; max = r.max } };

    ghost invariant = { λ r. (r.base + length r.block.written ≤ 2 ^ 62) × (length r.block.written ≤ r.block.capacity) × (r.start < r.block.capacity)
        × (0 < r.start → length r.block.written ≡ r.block.capacity) × (r.block.capacity ≤ r.max) };
}

impl ChangeRing {
    /// An empty ring at the start of a log: it has room for `capacity` changes, and may grow to
    /// `max`. An error where memory is refused.
    pub fn new(alloc: Global, capacity: usize, max: usize) -> Result<Self, AllocError>
        // There is room for one change at least, and no more than it may grow to.
        requires nonempty { 0 < capacity }
        requires within { capacity ≤ max }
        ensures { IfOk result (λ r.
            r ≡ record { base = 0; changes = []; capacity = capacity; max = max }) }
    {
        ChangeRing::starting_at(alloc, 0, capacity, max)
    }

    /// The same after `base` changes, of which it has none. No cell is written before a change
    /// comes, so a large ring is made as soon as a small one.
    pub fn starting_at(
        alloc: Global,
        base: u64,
        capacity: usize,
        max: usize,
    ) -> Result<Self, AllocError>
        // There is room for one change at least, and no more than it may grow to.
        requires nonempty { 0 < capacity }
        requires within { capacity ≤ max }
        // No log numbers more than 2^62 changes.
        requires small { base ≤ 2 ^ 62 }
        ensures { IfOk result (λ r.
            r ≡ record { base = base; changes = []; capacity = capacity; max = max }) }
    {
        let block = Block::make(alloc, capacity)?;
        Ok(ChangeRing {
            block,
            start: 0,
            base,
            max,
        })
    }

    /// The number of the oldest change that is kept.
    pub fn base(&self) -> u64
        ensures { result ≡ self.now.base }
    {
        self.base
    }

    /// How many changes were logged.
    pub fn total(&self) -> u64
        ensures total { result ≡ total self.now }
        ensures small { result ≤ 2 ^ 62 }
    {
        self.base + self.block.used() as u64
    }

    /// How many changes fit now.
    pub fn capacity(&self) -> usize
        ensures capacity { result ≡ self.now.capacity }
        // The ring has no more changes than fit, no more fit than its most, and one fits always.
        ensures within { length self.now.changes ≤ self.now.capacity }
        ensures most { self.now.capacity ≤ self.now.max }
        ensures some { 0 < self.now.capacity }
    {
        self.block.capacity()
    }

    /// Logs a change. A full ring overwrites its oldest change and hands it back, unless that is
    /// wanted, since `keep_from` is at most its number, and the ring can grow: then it has twice the
    /// room, up to its most. It hands the change back too where memory for that is refused. Spent
    /// where 2^62 changes were logged; the ring is then unchanged.
    pub fn push(&mut self, change: Change, keep_from: u64) -> Result<Option<Change>, Spent>
        // Spent exactly where 2^62 changes were logged; nothing has changed then.
        ensures spent { IsErr result ↔ (total self.old ≡ 2 ^ 62) }
        ensures err { OnErr result (self.new ≡ self.old) }

        // What is handed back comes first, and the change goes last.
        ensures window { IfOk result (λ lost. option_to_list lost ++ self.new.changes
            ≡ self.old.changes ++ change ∷ []) }
        ensures base { IfOk result (λ lost.
            self.new.base ≡ self.old.base + length (option_to_list lost)) }
        // It has the room that it had, or, where it was full and handed nothing back, twice as much, up to its most.
        ensures capacity { IfOk result (λ lost. self.new.capacity ≡ capacity_after self.old lost) }
        ensures max { self.new.max ≡ self.old.max }

        // Only a full ring hands a change back, and it grows only to keep what is wanted.
        ensures full { IfOk result (λ lost. IsSome lost
            → length self.old.changes ≡ self.old.capacity) }
        ensures wanted { OnOk result (self.old.capacity < self.new.capacity
            → keep_from ≤ self.old.base) }

        // It has no more changes than fit.
        ensures within { OnOk result (length self.new.changes ≤ self.new.capacity) }
    {
        if self.total() >= MOST_CHANGES {
            return Err(Spent);
        }
        self.make_room(keep_from);
        Ok(self.put(change))
    }

    // Grows a full ring that is to keep all that it has.
    fn make_room(&mut self, keep_from: u64)
        ensures same { self.new ≡ record self.old { capacity = self.new.capacity } }
        ensures capacity { (self.new.capacity ≡ self.old.capacity)
            ⊎ ((length self.old.changes ≡ self.old.capacity) × (keep_from ≤ self.old.base)
            × (self.old.capacity < self.new.capacity)
            × (self.new.capacity ≡ min (2 * self.old.capacity) self.old.max)) }
    {
        let held = self.block.used();
        let capacity = self.block.capacity();
        if held == capacity && keep_from <= self.base && capacity < self.max {
            self.grow();
        }
    }

    // Logs a change with no growth.
    fn put(&mut self, change: Change) -> Option<Change>
        requires { total self.old < 2 ^ 62 }
        ensures window { option_to_list result ++ self.new.changes
            ≡ self.old.changes ++ change ∷ [] }
        ensures base { self.new.base ≡ self.old.base + length (option_to_list result) }
        ensures capacity { self.new.capacity ≡ self.old.capacity }
        ensures max { self.new.max ≡ self.old.max }
        ensures full { is_some result ≡ (length self.old.changes == self.old.capacity) }
        ensures within { length self.new.changes ≤ self.new.capacity }
    {
        let capacity = self.block.capacity();
        if self.block.used() < capacity {
            self.block.push(change);
            return None;
        }
        let start = self.start;
        let oldest = self.block.get(start);
        self.block.set(start, change);
        self.start = if start + 1 < capacity { start + 1 } else { 0 };
        self.base += 1;
        Some(oldest)
    }

    // Doubles the capacity, up to the most, or leaves it where memory is refused. What begins in the
    // first cell stays where it is in the block.
    fn grow(&mut self)
        requires { self.old.capacity < self.old.max }
        ensures same { self.new ≡ record self.old { capacity = self.new.capacity } }
        ensures capacity { (self.new.capacity ≡ self.old.capacity)
            ⊎ ((self.old.capacity < self.new.capacity)
            × (self.new.capacity ≡ min (2 * self.old.capacity) self.old.max)) }
    {
        let held = self.block.capacity();
        let capacity = if held <= self.max - held {
            2 * held
        } else {
            self.max
        };
        if self.start == 0 {
            let _ = self.block.grow(capacity);
        } else {
            self.lay_anew(capacity);
        }
    }

    // Lays the changes into a block of so many cells, the oldest into the first, or leaves them where
    // memory is refused.
    fn lay_anew(&mut self, capacity: usize)
        requires more { self.old.capacity < capacity }
        requires most { capacity ≤ self.old.max }
        ensures same { self.new ≡ record self.old { capacity = self.new.capacity } }
        ensures capacity { (self.new.capacity ≡ self.old.capacity)
            ⊎ (self.new.capacity ≡ capacity) }
    {
        let Ok(block) = self.block.laid_from(self.start, capacity) else {
            return;
        };
        self.block = block;
        self.start = 0;
    }

    /// The changes from number `from` on, in two slices that follow one another. Lapped where the
    /// change of that number was overwritten.
    pub fn lend(&self, from: u64) -> Result<(&[Change], &[Change]), Lapped>
        // The number is of a change that was logged, or of the next one.
        requires { from ≤ total self.now }
        // Lapped exactly where the change of that number was overwritten.
        ensures lapped { IsErr result ↔ (from < self.now.base) }
        // The two slices, one behind the other, are all changes from that number on.
        ensures lent { IfOk result (λ s. s.0.now ++ s.1.now ≡ changes_from from self.now) }
    {
        if from < self.base {
            return Err(Lapped);
        }
        let skipped = (from - self.base) as usize;
        let (older, newer) = self.block.slices(self.start);
        if skipped <= older.len() {
            Ok((&older[skipped..], newer))
        } else {
            Ok((&newer[skipped - older.len()..], &[]))
        }
    }
}
