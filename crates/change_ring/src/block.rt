//! A block of cells for changes, which are written from the first cell on. No pointer is touched
//! here, and no cell is written before a change comes.

ghost use Rattle.std.specs.Prelude.{◌≡◌, ◌+◌, ◌<◌, ◌≤◌, [], ◌∷◌, ◌++◌, length, take, drop, slice_index_or, IfOk, OnOk, OnErr};
ghost use Rattle.change_ring.specs.declared.change.Change.{Change};
ghost use Rattle.change_ring.specs.inner.Filled.{around};

use crate::cells::{Base, Cells, allocate, deallocate, grow};
use crate::change::Change;
use std::alloc::{AllocError, Global};
use std::marker::Model;
use std_alloc::room::may_hold;

/// A block of `capacity` cells, of which the first hold `written`.
pub struct Block {
    base: Base<Change>,
    cells: Cells<Change, Global>,
    used: usize,
    capacity: usize,
    alloc: Global,
}

impl Model for Block {
    ghost use Rattle.std.specs.Prelude.{◌≡◌, ◌≤◌, length};
    ghost use Rattle.change_ring.specs.Filled.{Filled};

    ghost Value = { Filled };

    ghost view = { λ b. record { written = b.cells.written; capacity = b.capacity } };

    ghost invariant = { λ b. (b.cells.at ≡ b.base.ptr) × (b.cells.capacity ≡ b.capacity) × (b.cells.alloc ≡ b.alloc)
        × (length b.cells.written ≡ b.used) × (b.used ≤ b.capacity) };
}

impl Drop for Block {
    fn drop(self) {
        let Block {
            base,
            cells,
            used: _,
            capacity,
            alloc,
        } = self;
        deallocate(&alloc, base, capacity, cells);
    }
}

impl Block {
    /// A block of so many cells, none of them written.
    pub(crate) fn make(alloc: Global, capacity: usize) -> Result<Block, AllocError>
        ensures { IfOk result (λ b. b ≡ record { written = []; capacity = capacity }) }
    {
        if !may_hold::<Change>(capacity) {
            return Err(AllocError);
        }
        let (base, cells) = allocate(&alloc, capacity)?;
        Ok(Block {
            base,
            cells,
            used: 0,
            capacity,
            alloc,
        })
    }

    /// How many cells are written.
    pub(crate) fn used(&self) -> usize
        ensures used { result ≡ length self.now.written }
        ensures within { result ≤ self.now.capacity }
    {
        self.used
    }

    /// How many cells there are.
    pub(crate) fn capacity(&self) -> usize
        ensures { result ≡ self.now.capacity }
    {
        self.capacity
    }

    /// Writes the change behind the others.
    pub(crate) fn push(&mut self, change: Change)
        requires { length self.old.written < self.old.capacity }
        ensures { self.new ≡ record self.old { written = self.old.written ++ change ∷ [] } }
    {
        self.cells.write(self.base, self.used, change);
        self.used += 1;
    }

    /// Writes the change in the cell of another.
    pub(crate) fn set(&mut self, index: usize, change: Change)
        requires { index < length self.old.written }
        ensures { self.new ≡ record self.old {
          written = take index self.old.written ++ change
              ∷ drop (index + 1) self.old.written;
        } }
    {
        self.cells.write(self.base, index, change);
    }

    /// The changes from the cell `from` on, and those before it.
    pub(crate) fn slices(&self, from: usize) -> (&[Change], &[Change])
        requires { from ≤ length self.now.written }
        ensures from { result.0.now ≡ drop from self.now.written }
        ensures before { result.1.now ≡ take from self.now.written }
    {
        self.cells.slices(self.base, self.used, from)
    }

    /// The change in a cell.
    pub(crate) fn get(&self, index: usize) -> Change
        requires { index < length self.now.written }
        ensures { (d : Change) → result ≡ slice_index_or self.now.written index d }
    {
        let (from, _) = self.slices(index);
        from[0]
    }

    /// Makes it a block of so many cells, with the same changes. Where memory is refused nothing
    /// changes.
    pub(crate) fn grow(&mut self, capacity: usize) -> Result<(), AllocError>
        requires { self.old.capacity ≤ capacity }
        ensures ok { OnOk result (self.new ≡ record self.old { capacity = capacity }) }
        ensures err { OnErr result (self.new ≡ self.old) }
    {
        if !may_hold::<Change>(capacity) {
            return Err(AllocError);
        }
        let base = grow(
            &self.alloc,
            self.base,
            self.used,
            self.capacity,
            capacity,
            &mut self.cells,
        )?;
        self.base = base;
        self.capacity = capacity;
        Ok(())
    }

    /// Another block, of so many cells, with the changes from the cell `start` on and then those
    /// before it.
    pub(crate) fn laid_from(&self, start: usize, capacity: usize) -> Result<Block, AllocError>
        requires start { start ≤ length self.now.written }
        requires capacity { length self.now.written ≤ capacity }
        ensures { IfOk result (λ b.
            b ≡ record { written = around start self.now.written; capacity = capacity }) }
    {
        let mut laid = Block::make(self.alloc, capacity)?;
        let (from, before) = self.slices(start);
        laid.extend(from);
        laid.extend(before);
        Ok(laid)
    }

    // Writes the changes behind the others.
    fn extend(&mut self, changes: &[Change])
        requires { length self.old.written + length changes.now ≤ self.old.capacity }
        ensures { self.new ≡ record self.old { written = self.old.written ++ changes.now } }
    {
        for change in changes {
            self.push(*change);
        }
    }
}
