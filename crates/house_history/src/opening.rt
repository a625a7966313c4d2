//! How a history is opened, and how its rights are dealt.
ghost use Rattle.std.specs.Prelude.{◌≡◌, ◌+◌, ◌-◌, ◌<◌, ◌^◌, [], IfSome, IsSome};

use crate::event::Event;
use crate::front::{Front, HouseRule, Naming};
use crate::mailbox_part::MailboxPart;
use crate::seat::{Seat, Tickets};
use shared_history::{Rights, Seen};
use std::marker::{Model, PhantomData};

// How many owners a history has: 256 mailboxes, 256 seats, and the copies.
const OWNERS: usize = 1 << 50;

/// A history that was just opened, with the rights of all its owners. Contracts see it as which history it is.
#[derive(Drop)]
pub struct Opened {
    seen: Seen<Event, HouseRule>,
    rights: Rights<Event, HouseRule>,
}

impl Model for Opened {
    ghost use Rattle.std.specs.Prelude.{◌≡◌, ◌^◌, []};
    ghost use Rattle.shared_history.specs.Pages.{Book};

    ghost Value = { Book };

    ghost view = { λ o. o.seen.book };

    ghost invariant = { λ o. (o.rights.book ≡ o.seen.book) × (o.seen.log ≡ [])
        × (o.rights.next ≡ 0) × (o.rights.left ≡ 2 ^ 50) };
}

impl Opened {
    /// A new history, in which nothing has happened.
    pub fn new() -> Opened {
        let (seen, rights) = Seen::open(OWNERS);
        Opened { seen, rights }
    }

    /// The history under the name `B`, which the proof of a call picks: a front, which is empty, and
    /// what mailbox parts, seats and tickets are taken from.
    pub fn named<B: Naming>(self) -> (Front<B>, MailboxParts<B>, Seats<B>, Tickets<B>)
        requires { self ≡ B.book }
        ensures front { result.0 ≡ [] }
        ensures mailboxes { result.1 ≡ 0 }
        ensures seats { result.2 ≡ 0 }
        ensures tickets { result.3 ≡ 2 ^ 50 - 512 }
    {
        let Opened { seen, mut rights } = self;
        let mailboxes = rights.divide(256);
        let seats = rights.divide(256);
        (
            Front {
                seen,
                of: PhantomData,
            },
            MailboxParts {
                rights: mailboxes,
                next: 0,
                of: PhantomData,
            },
            Seats {
                rights: seats,
                next: 0,
                of: PhantomData,
            },
            Tickets {
                rights,
                next: 0,
                left: (1 << 50) - 512,
                of: PhantomData,
            },
        )
    }
}

/// The parts of the mailboxes from a number on. Contracts see it as that number.
#[derive(Drop)]
pub struct MailboxParts<B: Naming> {
    rights: Rights<Event, HouseRule>,
    next: u16,
    of: PhantomData<B>,
}

impl<B: Naming> Model for MailboxParts<B> {
    ghost use Rattle.std.specs.Prelude.{◌≡◌, ◌+◌, ℕ};

    ghost Value = { ℕ };

    ghost view = { λ p. p.next };

    ghost invariant = { λ p. (p.rights.book ≡ B.book) × (p.rights.next ≡ p.next)
        × (p.next + p.rights.left ≡ 256) };
}

impl<B: Naming> MailboxParts<B> {
    /// The next mailbox's part: nothing has happened there. None where all 256 were taken.
    pub fn take(&mut self) -> Option<MailboxPart<B>>
        ensures part { IfSome result (λ p. (p.number ≡ self.old) × (p.events ≡ [])) }
        ensures next { IfSome result (λ _. self.new ≡ self.old + 1) }
        ensures some { self.old < 256 → IsSome result }
    {
        if self.next >= 256 {
            return None;
        }
        let owner = self.rights.take();
        let number = self.next as u8;
        self.next += 1;
        Some(MailboxPart {
            owner,
            number,
            of: PhantomData,
        })
    }
}

/// The seats from a number on. Contracts see it as that number.
#[derive(Drop)]
pub struct Seats<B: Naming> {
    rights: Rights<Event, HouseRule>,
    next: u16,
    of: PhantomData<B>,
}

impl<B: Naming> Model for Seats<B> {
    ghost use Rattle.std.specs.Prelude.{◌≡◌, ◌+◌, ℕ};
    ghost use Rattle.house_history.specs.Events.{seat_key};

    ghost Value = { ℕ };

    ghost view = { λ s. s.next };

    ghost invariant = { λ s. (s.rights.book ≡ B.book) × (s.rights.next ≡ seat_key s.next)
        × (s.next + s.rights.left ≡ 256) };
}

impl<B: Naming> Seats<B> {
    /// The next seat: it has sent nothing. None where all 256 were taken.
    pub fn take(&mut self) -> Option<Seat<B>>
        ensures seat { IfSome result (λ s. (s.number ≡ self.old) × (s.sent ≡ [])) }
        ensures next { IfSome result (λ _. self.new ≡ self.old + 1) }
        ensures some { self.old < 256 → IsSome result }
    {
        if self.next >= 256 {
            return None;
        }
        let owner = self.rights.take();
        let number = self.next as u8;
        self.next += 1;
        Some(Seat {
            owner,
            number,
            of: PhantomData,
        })
    }
}
