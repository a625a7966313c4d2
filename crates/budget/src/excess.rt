//! What is told where bytes are refused.

ghost use Rattle.std.specs.Prelude.{◌≡◌, ◌%◌, ◌^◌, []};
ghost use Rattle.budget.specs.Counting.{gone};

use crate::counting::Stay;
use atomic_table::Seat;
use std::marker::Model;

/// How many bytes were held already when more were refused, those of charges among them that were being refused too. A seat of the budget's table knows it,
/// which has given back what it took: so that was found there.
#[derive(Drop)]
pub struct Excess {
    held: u64,
    seat: Seat<u8, Stay>,
    ghost given: { seat.me ≡ (gone seat.me.0, []) },
    ghost known: { held ≡ seat.me.0.before % 2 ^ 64 },
}

impl Model for Excess {
    ghost use Rattle.budget.specs.Limits.{Found};

    ghost Value = { Found };

    ghost view = { λ e. record { table = e.seat.table_id; before = e.seat.me.0.before } };
}

impl Excess {
    /// The seat found so many bytes, and has given back what it took.
    pub(crate) fn new(held: u64, seat: Seat<u8, Stay>) -> Excess
        requires given { seat.me ≡ (gone seat.me.0, []) }
        requires known { held ≡ seat.me.0.before % 2 ^ 64 }
        ensures { result ≡ record { table = seat.table_id; before = seat.me.0.before } }
    {
        Excess { held, seat }
    }

    /// How many bytes were held already, modulo 2^64.
    pub fn held(&self) -> u64
        ensures { result ≡ self.now.before % 2 ^ 64 }
    {
        self.held
    }
}
