//! The right of a seat to say what it sends, and of whoever has a copy to say what becomes of it.
ghost use Rattle.std.specs.Prelude.{◌≡◌, ◌+◌, ◌<◌, ◌∷◌, [], ◌++◌, All, Contains, IfNone, IfSome, IsSome};
ghost use mathlib.Core.List.{IsPrefix};
ghost use Rattle.delivery_token.specs.declared.Job.{Job};
ghost use Rattle.house_history.specs.declared.event.Event.TheVariants as events;
ghost use Rattle.house_history.specs.Events.{sent_by};
ghost use Rattle.house_history.specs.Legal.{IsBefore, Legal, WasWithdrawn};

use crate::event::Event;
use crate::front::{Front, HouseRule, Naming};
use delivery_token::Job;
use shared_history::{Entry, Owner, Rights};
use std::marker::{Model, PhantomData};

// A copy is sent.
#[derive(Drop)]
struct Sending<'a> {
    job: &'a Job,
    ticket: u64,
}

struct Sends;

impl<'a> Entry<Sending<'a>, Event> for Sends {
    ghost use Rattle.house_history.specs.declared.event.Event.TheVariants as events;

    ghost entry = { λ x. events.Sent x.job.now x.ticket };
}

struct Withdraws;

impl Entry<u64, Event> for Withdraws {
    ghost use Rattle.house_history.specs.declared.event.Event.TheVariants as events;

    ghost entry = { λ t. events.Withdrawn t };
}

/// The right to say what becomes of one copy.
#[derive(Drop)]
pub struct Ticket<B: Naming> {
    pub(crate) owner: Owner<Event, HouseRule>,
    pub(crate) number: u64,
    of: PhantomData<B>,
}

impl<B: Naming> Model for Ticket<B> {
    ghost use Rattle.std.specs.Prelude.{◌≡◌};
    ghost use Rattle.house_history.specs.Events.{life, ticket_key};
    ghost use Rattle.house_history.specs.Views.{Ticket};

    ghost Value = { Ticket };

    ghost view = { λ t. record { number = t.number; life = life t.number t.owner.own } };

    ghost invariant = { λ t. (t.owner.book ≡ B.book) × (t.owner.key ≡ ticket_key t.number) };
}

impl<B: Naming> Ticket<B> {
    /// Says that its copy, which is under way no more, will never be judged.
    pub fn withdraw(&mut self, front: &mut Front<B>)
        requires { (j : Job) × (self.old.life ≡ events.Sent j self.old.number ∷ []) }
        ensures life { (self.new.number ≡ self.old.number)
            × (self.new.life ≡ self.old.life ++ events.Withdrawn self.old.number ∷ []) }
        ensures seen { IsPrefix front.old front.new × Legal front.new }
        ensures copy { (j : Job) → self.old.life ≡ events.Sent j self.old.number ∷ []
            → WasWithdrawn front.new j }
    {
        let number = self.number;
        self.owner.add::<u64, Withdraws>(&mut front.seen, &number);
    }
}

/// Tickets that nobody has used. Contracts see them as how many there are.
#[derive(Drop)]
pub struct Tickets<B: Naming> {
    pub(crate) rights: Rights<Event, HouseRule>,
    pub(crate) next: u64,
    pub(crate) left: u64,
    pub(crate) of: PhantomData<B>,
}

impl<B: Naming> Model for Tickets<B> {
    ghost use Rattle.std.specs.Prelude.{◌≡◌, ℕ, ◌+◌, ◌<◌, ◌^◌};
    ghost use Rattle.house_history.specs.Events.{ticket_key};

    ghost Value = { ℕ };

    ghost view = { λ t. t.left };

    ghost invariant = { λ t. (t.rights.book ≡ B.book) × (t.rights.next ≡ ticket_key t.next)
        × (t.rights.left ≡ t.left) × (t.next + t.left < 2 ^ 63) };
}

impl<B: Naming> Tickets<B> {
    /// The next one. None where there is none.
    pub fn take(&mut self) -> Option<Ticket<B>>
        ensures ticket { IfSome result (λ t. t.life ≡ []) }
        ensures left { IfSome result (λ _. self.new + 1 ≡ self.old) }
        ensures some { 0 < self.old → IsSome result }
    {
        if self.left == 0 {
            return None;
        }
        let owner = self.rights.take();
        let number = self.next;
        self.next = number + 1;
        self.left -= 1;
        Some(Ticket {
            owner,
            number,
            of: PhantomData,
        })
    }

    /// So many of them, for somebody else. None where there are fewer, and nothing has changed then.
    pub fn divide(&mut self, count: u64) -> Option<Tickets<B>>
        ensures divided { IfSome result (λ t. (t ≡ count) × (self.new + count ≡ self.old)) }
        ensures none { IfNone result ((self.old < count) × (self.new ≡ self.old)) }
    {
        if self.left < count {
            return None;
        }
        let rights = self.rights.divide(count);
        let next = self.next;
        self.next = next + count;
        self.left -= count;
        Some(Tickets {
            rights,
            next,
            left: count,
            of: PhantomData,
        })
    }
}

/// The right of a seat to say what it sends.
#[derive(Drop)]
pub struct Seat<B: Naming> {
    pub(crate) owner: Owner<Event, HouseRule>,
    pub(crate) number: u8,
    pub(crate) of: PhantomData<B>,
}

impl<B: Naming> Model for Seat<B> {
    ghost use Rattle.std.specs.Prelude.{◌≡◌, ◌<◌};
    ghost use Rattle.house_history.specs.Events.{seat_key, sent_by};
    ghost use Rattle.house_history.specs.Views.{Seat};

    ghost Value = { Seat };

    ghost view = { λ s. record { number = s.number; sent = sent_by s.number s.owner.own } };

    ghost invariant = { λ s. (s.owner.book ≡ B.book)
        × (s.owner.key ≡ seat_key s.number) × (s.number < 256) };
}

impl<B: Naming> Seat<B> {
    /// The seat's number.
    pub fn number(&self) -> u8
        ensures { result ≡ self.now.number }
    {
        self.number
    }

    /// Says that it sends a copy, which has this ticket from now on.
    pub fn send(&mut self, ticket: &mut Ticket<B>, front: &mut Front<B>, job: &Job)
        requires own { job.now.key.seat ≡ self.old.number }
        requires above { All (λ i. IsBefore i.0 job.now) self.old.sent }
        requires unused { ticket.old.life ≡ [] }
        ensures sent { (self.new.number ≡ self.old.number)
            × (self.new.sent ≡ self.old.sent ++ (job.now, ticket.old.number) ∷ []) }
        ensures life { (ticket.new.number ≡ ticket.old.number)
            × (ticket.new.life ≡ events.Sent job.now ticket.old.number ∷ []) }
        ensures seen { IsPrefix front.old front.new × Legal front.new
            × Contains (sent_by job.now.key.seat front.new) (job.now, ticket.old.number) }
    {
        let about = Sending {
            job,
            ticket: ticket.number,
        };
        self.owner
            .add_both::<Sending<'_>, Sends>(&mut ticket.owner, &mut front.seen, &about);
    }

    /// What was seen has then all that this seat sent.
    pub fn look(&mut self, front: &mut Front<B>)
        ensures same { self.new ≡ self.old }
        ensures seen { IsPrefix front.old front.new × Legal front.new
            × (sent_by self.old.number front.new ≡ self.old.sent) }
    {
        self.owner.look(&mut front.seen);
    }
}
