//! The word that counts, and what those know who hold some of it.

ghost use Rattle.std.specs.Prelude.{◌≡◌, IfOk};

use atomic_table::{Table, TableRule};
use std::alloc::{AllocError, Global};
use std::marker::Model;

/// What a seat knows. It is never made: proofs alone speak of it.
pub(crate) struct Stay {
    /// How many bytes all charges may have together.
    limit: u64,
    /// How many it holds for a charge that stands.
    charged: u64,
    /// How many it holds that are being refused.
    refused: u64,
    /// How many were held, by all seats together, when it took its own.
    before: u64,
}

/// The word counts what all seats hold.
pub(crate) struct Counted;

impl TableRule<u8, Stay, u64> for Counted {
    ghost use Rattle.budget.specs.Counting.{IsCounted, newcomer};

    ghost holds = { λ limit s. IsCounted limit s };

    ghost first = { λ limit. newcomer limit };
}

/// The word, and how many bytes may be held.
pub(crate) struct Pool {
    pub(crate) table: Table<u8, Stay, u64, Counted, Global>,
    limit: u64,
    ghost one: { table.shared.table_id.words ≡ 1 },
    ghost told: { table.shared.key ≡ limit },
}

impl Drop for Pool {
    fn drop(self) {
        let Pool { table, limit: _ } = self;
        drop(table);
    }
}

impl Pool {
    /// Nothing is held.
    pub(crate) fn new(alloc: Global, limit: u64) -> Result<Pool, AllocError>
        ensures { IfOk result (λ p. p.limit ≡ limit) }
    {
        let (table, seat) = Table::of_words(alloc, &[0], &limit)?;
        drop(seat);
        Ok(Pool { table, limit })
    }

    /// How many bytes may be held.
    pub(crate) fn limit(&self) -> u64
        ensures { result ≡ self.now.limit }
    {
        self.limit
    }
}
