//! Who holds what of the word that counts. A hold can't be let go: it has to be given back.

ghost use Rattle.std.specs.Prelude.{◌≡◌, ◌↔◌, ◌+◌, ◌%◌, ◌^◌, ◌<◌, ◌≤◌, [], IfErr, IfOk, IsTrue};
ghost use Rattle.std.specs.Arc.{arc_value};
ghost use Rattle.budget.specs.Counting.{gone, IsTaken, newcomer};

use crate::counting::{Pool, Stay};
use crate::excess::Excess;
use crate::ticket::Ticket;
use atomic_table::{Play, Seat};
use std::marker::Model;
use std::sync::Arc;

// A seat that comes holds nothing.
struct Comes;

impl Play<u8, Stay> for Comes {
    ghost use Rattle.std.specs.Prelude.{◌≡◌};

    ghost then = { λ _ before _ after. after.0 ≡ before.0 };
}

// A seat that takes keeps what was held before.
struct Takes;

impl Play<u8, Stay> for Takes {
    ghost use Rattle.std.specs.Prelude.{◌≡◌};
    ghost use Rattle.budget.specs.Counting.{IsTaken};

    ghost then = { λ step before shown after. (after.1 ≡ before.1) × IsTaken before.0 step.first shown after.0 };
}

// A seat that gives holds nothing, and still knows what was held before.
struct Gives;

impl Play<u8, Stay> for Gives {
    ghost use Rattle.std.specs.Prelude.{◌≡◌};
    ghost use Rattle.budget.specs.Counting.{gone};

    ghost then = { λ _ before _ after. after ≡ (gone before.0, before.1) };
}

/// So many bytes of a pool are held for a charge.
pub(crate) struct Hold {
    pool: Arc<Pool>,
    ticket: Ticket,
    bytes: u64,
    ghost fits: { ticket.seat.table_id ≡ (arc_value pool).table.shared.table_id },
    ghost holds: { ticket.seat.me ≡ (record { limit = ticket.seat.me.0.limit; charged = bytes; refused = 0; before = ticket.seat.me.0.before }, []) },
}

impl Hold {
    /// Holds so many bytes more, where no more than the limit is held with them.
    pub(crate) fn take(pool: Arc<Pool>, bytes: u64) -> Result<Hold, Excess>
        ensures bytes { IfOk result (λ h. h.bytes ≡ bytes) }
        ensures table { IfOk result (λ h. h.ticket.seat.table_id ≡ (arc_value pool).table.shared.table_id) }
        ensures fits { IfOk result (λ h. h.ticket.seat.me.0.before % 2 ^ 64 + bytes ≤ (arc_value pool).limit) }
        ensures over { IfErr result (λ e. (e.table ≡ (arc_value pool).table.shared.table_id) × ((arc_value pool).limit < e.before % 2 ^ 64 + bytes)) }
    {
        let limit = pool.limit();
        let (shown, seat) = taken(&pool, bytes);
        if fits(shown, bytes, limit) {
            Ok(Hold {
                pool,
                ticket: Ticket::new(seat),
                bytes,
            })
        } else {
            Err(Excess::new(shown, returned(&pool, seat, bytes)))
        }
    }

    /// Gives them back, and answers the seat, which still knows what was held before.
    pub(crate) fn give(self) -> Seat<u8, Stay>
        ensures { (result.table_id ≡ self.ticket.seat.table_id) × (result.id ≡ self.ticket.seat.id) × (result.me ≡ (gone self.ticket.seat.me.0, [])) }
    {
        let Hold {
            pool,
            ticket,
            bytes,
        } = self;
        returned(&pool, ticket.into_seat(), bytes)
    }
}

// A new seat takes so many bytes. Answers what the word showed before.
fn taken(pool: &Pool, bytes: u64) -> (u64, Seat<u8, Stay>)
    ensures table { result.1.table_id ≡ pool.now.table.shared.table_id }
    ensures slots { result.1.me.1 ≡ [] }
    ensures taken { IsTaken (newcomer pool.now.limit) bytes result.0 result.1.me.0 }
{
    let (_now, mut seat) = pool.table.shared.load_new_seat::<Comes>(0);
    let shown = pool.table.shared.fetch_add::<Takes>(&mut seat, 0, bytes);
    (shown, seat)
}

// The seat gives back the bytes that it took.
fn returned(pool: &Pool, mut seat: Seat<u8, Stay>, bytes: u64) -> Seat<u8, Stay>
    requires table { seat.table_id ≡ pool.now.table.shared.table_id }
    requires holds { seat.me.0.charged + seat.me.0.refused ≡ bytes }
    ensures { (result.table_id ≡ seat.table_id) × (result.id ≡ seat.id) × (result.me ≡ (gone seat.me.0, seat.me.1)) }
{
    pool.table.shared.fetch_sub::<Gives>(&mut seat, 0, bytes);
    seat
}

// Whether no more than the limit is held with these bytes.
fn fits(held: u64, bytes: u64, limit: u64) -> bool
    ensures { IsTrue result ↔ (held + bytes ≤ limit) }
{
    match held.checked_add(bytes) {
        Some(all) => all <= limit,
        None => false,
    }
}
