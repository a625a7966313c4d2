//! Which ends a receiver has had. The marks stand in a place of their own, so that whoever moves a permit doesn't move them.

ghost use Rattle.std.specs.Prelude.{ℕ, ◌≡◌, ◌<◌, IfOk, length, true, false, set, slice_index_or};

use crate::shared::no_marks;
use std::alloc::{AllocError, Global};
use std::marker::Model;

/// Of each number that a sender can have, whether its end was received.
#[derive(Drop)]
pub struct Marks {
    all: Box<[bool; 256]>,
}

impl Model for Marks {
    ghost use Rattle.std.specs.Prelude.{List, Bool, ◌≡◌, length};

    ghost Value = { List Bool };

    ghost view = { λ m. m.all.value };

    ghost invariant = { λ m. length m.all.value ≡ 256 };
}

impl Marks {
    /// No end was received yet.
    ///
    /// Errors: `AllocError` where memory is refused.
    pub(crate) fn new(alloc: Global) -> Result<Marks, AllocError>
        ensures { IfOk result (λ marks. (p : ℕ) → slice_index_or marks p false ≡ false) }
    {
        Ok(Marks {
            all: Box::new(alloc, no_marks())?,
        })
    }

    /// Whether the end of the sender with this number was received.
    pub(crate) fn has(&self, number: u8) -> bool
        ensures { result ≡ slice_index_or self.now number false }
    {
        self.all[usize::from(number)]
    }

    /// The end of the sender with this number was received.
    pub(crate) fn mark(&mut self, number: u8)
        ensures marks { self.new ≡ set self.old number true }
        // There is a mark for each number.
        ensures within { number < length self.old }
    {
        self.all[usize::from(number)] = true;
    }
}
