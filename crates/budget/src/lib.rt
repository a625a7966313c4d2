//! A limit on the bytes that many threads hold at once, and charges on it, which are given back where they are dropped. What is charged for, and what becomes
//! of a refusal, is for the crates above.
#![tactic(auto)]

mod counting;
mod excess;
mod hold;
mod ticket;

ghost use Rattle.std.specs.Prelude.{◌≡◌, None, Some, IfErr, IfOk, IsOk};
ghost use Rattle.budget.specs.Charging.{IsCharged, IsRefused};
ghost use Rattle.budget.specs.Limits.{limit_of};

use counting::Pool;
pub use excess::Excess;
use hold::Hold;
use std::alloc::{AllocError, Global};
use std::marker::Model;
use std::sync::Arc;

/// Why no bytes were charged.
#[derive(Drop)]
pub enum ChargeFault {
    /// More than the limit would be held.
    Over(Excess),
    /// Memory was refused.
    NoMemory,
}

impl From<AllocError> for ChargeFault {
    ghost use Rattle.budget.specs.declared.ChargeFault.{ChargeFault};

    ghost from_gives = { λ _ fault. fault ≡ ChargeFault.NoMemory };

    fn from(_error: AllocError) -> ChargeFault {
        ChargeFault::NoMemory
    }
}

/// A limit on the bytes that are charged and not given back, or none. All that `again` gives share it.
#[derive(Drop)]
pub struct Budget {
    pool: Option<Arc<Pool>>,
}

impl Model for Budget {
    ghost use Rattle.std.specs.Prelude.{Option, option_map};
    ghost use Rattle.std.specs.Arc.{arc_value};
    ghost use Rattle.budget.specs.declared.counting.Pool.{Pool};
    ghost use Rattle.budget.specs.Limits.{Limited};

    ghost Value = { Option Limited };

    ghost view = { λ b. option_map (λ pool. record { limit = (arc_value {X = Pool} pool).limit; table = (arc_value {X = Pool} pool).table.shared.table_id }) b.pool };
}

/// Bytes that are charged to a budget. They are given back where it is dropped.
pub struct Charge {
    bytes: u64,
    hold: Option<Hold>,
}

impl Model for Charge {
    ghost use Rattle.std.specs.Prelude.{◌≡◌, IfSome, option_map};
    ghost use Rattle.budget.specs.declared.hold.Hold.{Hold};
    ghost use Rattle.budget.specs.Limits.{Charged};

    ghost Value = { Charged };

    ghost view = { λ c. record { bytes = c.bytes; counted = option_map (λ (h : Hold). record { table = h.ticket.seat.table_id; before = h.ticket.seat.me.0.before }) c.hold } };

    ghost invariant = { λ c. IfSome c.hold (λ h. h.bytes ≡ c.bytes) };
}

impl Drop for Charge {
    fn drop(self) {
        let Charge { bytes: _, hold } = self;
        if let Some(hold) = hold {
            drop(hold.give());
        }
    }
}

impl Budget {
    /// No limit: what is charged is not counted.
    pub fn unlimited() -> Budget
        ensures { result ≡ None }
    {
        Budget { pool: None }
    }

    /// A limit of so many bytes, of which none is charged.
    ///
    /// Errors: `AllocError` where memory was refused.
    pub fn new(alloc: Global, limit: u64) -> Result<Budget, AllocError>
        ensures { IfOk result (λ b. limit_of b ≡ Some limit) }
    {
        let pool = Arc::new(alloc, Pool::new(alloc, limit)?)?;
        Ok(Budget { pool: Some(pool) })
    }

    /// The same budget, for somebody else.
    ///
    /// Errors: `AllocError` where there are too many of it. Where it has no limit there is none.
    pub fn again(&self) -> Result<Budget, AllocError>
        ensures same { IfOk result (λ b. b ≡ self.now) }
        ensures unlimited { self.now ≡ None → IsOk result }
    {
        match &self.pool {
            Some(pool) => {
                let pool = Arc::try_clone(pool)?;
                Ok(Budget { pool: Some(pool) })
            }
            None => Ok(Budget { pool: None }),
        }
    }

    /// Charges so many bytes, which are counted until what it answers is dropped.
    ///
    /// Errors: `Over` where more than the limit would be held with them; `NoMemory` where there are too many charges. Nothing is counted then.
    pub fn charge(&self, bytes: u64) -> Result<Charge, ChargeFault>
        ensures charged { IfOk result (IsCharged self.now bytes) }
        ensures refused { IfErr result (IsRefused self.now bytes) }
        ensures unlimited { self.now ≡ None → IsOk result }
    {
        let Some(pool) = &self.pool else {
            return Ok(Charge { bytes, hold: None });
        };
        match Hold::take(Arc::try_clone(pool)?, bytes) {
            Ok(hold) => Ok(Charge {
                bytes,
                hold: Some(hold),
            }),
            Err(excess) => Err(ChargeFault::Over(excess)),
        }
    }
}
