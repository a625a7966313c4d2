//! A seat in what threads share.

ghost use Rattle.std.specs.Prelude.{◌≡◌};

use crate::counting::Stay;
use atomic_table::Seat;
use std::marker::Model;

/// A seat of a budget's table that lies where threads share it. Who has the ticket alone takes the seat out again, and only then steps by it.
pub(crate) struct Ticket {
    seat: Seat<u8, Stay>,
}

impl Model for Ticket {
    ghost use Rattle.budget.specs.inner.Nothing.{nothing};

    ghost also_owns = { λ _. nothing };
}

impl Ticket {
    /// The seat is put away.
    pub(crate) fn new(seat: Seat<u8, Stay>) -> Ticket
        ensures { result.seat ≡ seat }
    {
        Ticket { seat }
    }

    /// The seat is taken out.
    pub(crate) fn into_seat(self) -> Seat<u8, Stay>
        ensures { result ≡ self.seat }
    {
        let Ticket { seat } = self;
        seat
    }
}

// A `&Ticket` lends no more than a `&Seat`. A seat has no bytes, and each step by one wants it alone.
unsafe impl Send for Ticket {}

unsafe impl Sync for Ticket {}
