//! What the house's history deals to its producers: a seat with tickets for each. What it deals to the mailboxes stands in `fittings`.

ghost use Rattle.std.specs.Prelude.{◌≡◌, ◌+◌, ◌<◌, ◌≤◌, []};

use house_history::{Front, Naming, Seats, Tickets};
use lane_work::Dispatch;

// So many copies a producer may send at most.
const TICKETS: u64 = 1_099_511_627_776;

/// The seats and the tickets that aren't dealt yet, and how the history began.
#[derive(Drop)]
pub(crate) struct Seating<B: Naming> {
    pub(crate) seats: Seats<B>,
    pub(crate) tickets: Tickets<B>,
    pub(crate) front: Front<B>,
}

/// What the next seat sends with.
pub(crate) fn seat_next<B: Naming>(seating: &mut Seating<B>) -> Dispatch<B>
    requires seats { seating.old.seats < 256 }
    requires tickets { 1099511627776 ≤ seating.old.tickets }
    ensures seat { (result.number ≡ seating.old.seats) × (result.sent ≡ []) }
    ensures left { (seating.new.seats ≡ seating.old.seats + 1)
        × (seating.new.tickets + 1099511627776 ≡ seating.old.tickets) }
{
    let Some(seat) = seating.seats.take() else {
        unreachable!()
    };
    let Some(tickets) = seating.tickets.divide(TICKETS) else {
        unreachable!()
    };
    Dispatch::new(seat, tickets, seating.front.again())
}
