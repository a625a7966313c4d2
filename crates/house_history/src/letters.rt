//! What passes between threads, as what it is to contracts: a copy, and what is noted of one. Each brings what was known of the
//! history when it was made.
ghost use Rattle.std.specs.Prelude.{◌≡◌, ◌≢◌, ℕ, ◌∷◌, []};
ghost use mathlib.Core.List.{IsPrefix};
ghost use Rattle.house_history.specs.Legal.{Legal};
ghost use Rattle.delivery_token.specs.declared.Job.{Job};
ghost use Rattle.house_history.specs.Views.{IsNotedIn, IsSettledIn};
ghost use Rattle.delivery_token.specs.declared.Verdict.TheVariants.{Stored};
ghost use Rattle.house_history.specs.declared.event.Event.TheVariants as events;

use crate::front::{Front, Naming};
use crate::seat::Ticket;
use delivery_token::{Job, Noted};
use std::marker::Model;

/// A copy that its seat has sent, and nobody has judged.
#[derive(Drop)]
pub struct Letter<B: Naming> {
    job: Job,
    ticket: Ticket<B>,
}

impl<B: Naming> Model for Letter<B> {
    ghost use Rattle.std.specs.Prelude.{◌≡◌, ◌∷◌, []};
    ghost use Rattle.delivery_token.specs.declared.Job.{Job};
    ghost use Rattle.house_history.specs.declared.event.Event.TheVariants as events;

    ghost Value = { Job };

    ghost view = { λ l. l.job };

    ghost invariant = { λ l. l.ticket.life ≡ events.Sent l.job l.ticket.number ∷ [] };
}

impl<B: Naming> Letter<B> {
    /// The letter of a copy that was sent with this ticket.
    pub fn new(job: Job, ticket: Ticket<B>) -> Letter<B>
        requires { ticket.life ≡ events.Sent job ticket.number ∷ [] }
        ensures { result ≡ job }
    {
        Letter { job, ticket }
    }

    /// The copy.
    pub fn job(&self) -> &Job
        ensures { result.now ≡ self.now }
    {
        &self.job
    }

    /// The copy, and the right to say what becomes of it.
    pub fn open(self) -> (Job, Ticket<B>)
        ensures { (result.0 ≡ self) × (result.1.life ≡ events.Sent self result.1.number ∷ []) }
    {
        let Letter { job, ticket } = self;
        (job, ticket)
    }
}

/// What is noted of a copy, which is the last word on it: the history has this verdict, or the copy wasn't stored and was withdrawn, so that
/// there never is a verdict.
#[derive(Drop)]
pub struct Answer<B: Naming> {
    noted: Noted,
    front: Front<B>,
}

impl<B: Naming> Model for Answer<B> {
    ghost use Rattle.delivery_token.specs.declared.log.Noted.{Noted};
    ghost use Rattle.house_history.specs.Views.{IsSettledIn};

    ghost Value = { Noted };

    ghost view = { λ a. a.noted };

    ghost invariant = { λ a. IsSettledIn a.front a.noted };
}

impl<B: Naming> Answer<B> {
    /// What is noted of a copy that was judged so.
    pub fn told(noted: Noted, front: Front<B>) -> Answer<B>
        requires { IsNotedIn front noted }
        ensures { result ≡ noted }
    {
        Answer { noted, front }
    }

    /// What is noted of a copy that wasn't stored and never will be: this withdraws it.
    pub fn withdrawn(noted: Noted, mut ticket: Ticket<B>, mut front: Front<B>) -> Answer<B>
        requires refused { (u : ℕ) → noted.verdict ≢ Stored u }
        requires copy { (j : Job) × (j.key ≡ noted.key)
            × (ticket.life ≡ events.Sent j ticket.number ∷ []) }
        ensures { result ≡ noted }
    {
        ticket.withdraw(&mut front);
        Answer { noted, front }
    }

    /// What is noted.
    pub fn noted(&self) -> Noted
        ensures { result ≡ self.now }
    {
        self.noted
    }

    /// Whoever hears it knows that it is the last word on the copy.
    pub fn teach(&self, front: &mut Front<B>)
        ensures seen { IsPrefix front.old front.new × Legal front.new }
        ensures settled { IsSettledIn front.new self.now }
    {
        front.learn(&self.front);
    }
}
