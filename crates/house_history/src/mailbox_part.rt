//! The right of whoever holds a mailbox to say what happens there.
ghost use Rattle.std.specs.Prelude.{◌≡◌, ℕ, ◌∷◌, [], ◌++◌, All};
ghost use Rattle.std.specs.Option.{option_copied};
ghost use mathlib.Core.List.{IsPrefix};
ghost use Rattle.shared_history.specs.Pages.{part};
ghost use Rattle.change_ring.specs.Log.{IsLegalLog};
ghost use Rattle.house_history.specs.declared.event.Event.TheVariants as events;
ghost use Rattle.house_history.specs.declared.event.Step.TheVariants as steps;
ghost use Rattle.house_history.specs.Events.{arrives, changes_in, concerns, judged_in};
ghost use Rattle.house_history.specs.Legal.{IsBefore, Legal, WasJudged};

use crate::event::Event;
use crate::front::{Front, HouseRule, Naming};
use crate::laws::uid_fits;
use crate::seat::Ticket;
use change_ring::FlagOp;
use delivery_token::{Job, Verdict};
use shared_history::{Entry, Owner};
use std::marker::{Model, PhantomData};

#[derive(Drop)]
struct Judgement<'a> {
    job: &'a Job,
    verdict: Verdict,
    ticket: u64,
}

struct Judges;

impl<'a> Entry<Judgement<'a>, Event> for Judges {
    ghost use Rattle.house_history.specs.declared.event.Event.TheVariants as events;

    ghost entry = { λ x. events.Judged x.job.now x.verdict x.ticket };
}

#[derive(Clone, Copy)]
struct ReadCall {
    mailbox: u8,
    uid: u32,
    mark_seen: bool,
}

struct Reading;

impl Entry<ReadCall, Event> for Reading {
    ghost use Rattle.house_history.specs.declared.event.Event.TheVariants as events;
    ghost use Rattle.house_history.specs.declared.event.Step.TheVariants as steps;

    ghost entry = { λ x. events.Changed x.mailbox (steps.Read x.uid x.mark_seen) };
}

#[derive(Clone, Copy)]
struct AlterCall {
    mailbox: u8,
    uid: u32,
    op: FlagOp,
}

struct Altering;

impl Entry<AlterCall, Event> for Altering {
    ghost use Rattle.house_history.specs.declared.event.Event.TheVariants as events;
    ghost use Rattle.house_history.specs.declared.event.Step.TheVariants as steps;

    ghost entry = { λ x. events.Changed x.mailbox (steps.Alter x.uid x.op) };
}

#[derive(Drop)]
struct ExpungeCall<'a> {
    mailbox: u8,
    uids: Option<&'a [u32]>,
}

struct Expunging;

impl<'a> Entry<ExpungeCall<'a>, Event> for Expunging {
    ghost use Rattle.std.specs.Option.{option_copied};
    ghost use Rattle.house_history.specs.declared.event.Event.TheVariants as events;
    ghost use Rattle.house_history.specs.declared.event.Step.TheVariants as steps;

    ghost entry = { λ x. events.Changed x.mailbox (steps.Expunge (option_copied x.uids)) };
}

#[derive(Clone, Copy)]
struct LeaveCall {
    mailbox: u8,
    remove: bool,
}

struct Leaving;

impl Entry<LeaveCall, Event> for Leaving {
    ghost use Rattle.house_history.specs.declared.event.Event.TheVariants as events;
    ghost use Rattle.house_history.specs.declared.event.Step.TheVariants as steps;

    ghost entry = { λ x. events.Changed x.mailbox (steps.Leave x.remove) };
}

#[derive(Drop)]
struct DiscardCall<'a> {
    mailbox: u8,
    gone: &'a [u32],
}

struct Discarding;

impl<'a> Entry<DiscardCall<'a>, Event> for Discarding {
    ghost use Rattle.house_history.specs.declared.event.Event.TheVariants as events;
    ghost use Rattle.house_history.specs.declared.event.Step.TheVariants as steps;

    ghost entry = { λ x. events.Changed x.mailbox (steps.Discard x.gone.now) };
}

/// The right of whoever holds a mailbox.
#[derive(Drop)]
pub struct MailboxPart<B: Naming> {
    pub(crate) owner: Owner<Event, HouseRule>,
    pub(crate) number: u8,
    pub(crate) of: PhantomData<B>,
}

impl<B: Naming> Model for MailboxPart<B> {
    ghost use Rattle.std.specs.Prelude.{◌≡◌, ◌<◌};
    ghost use Rattle.house_history.specs.Views.{MailboxPart};

    ghost Value = { MailboxPart };

    ghost view = { λ r. record { number = r.number; events = r.owner.own } };

    ghost invariant = { λ r. (r.owner.book ≡ B.book)
        × (r.owner.key ≡ r.number) × (r.number < 256) };
}

impl<B: Naming> MailboxPart<B> {
    /// The mailbox's number.
    pub fn number(&self) -> u8
        ensures { result ≡ self.now.number }
    {
        self.number
    }

    /// What was seen has then all that happened in this mailbox.
    pub fn look(&mut self, front: &mut Front<B>)
        ensures same { self.new ≡ self.old }
        ensures seen { IsPrefix front.old front.new × Legal front.new
            × (part concerns self.old.number front.new ≡ self.old.events) }
    {
        self.owner.look(&mut front.seen);
    }

    /// Says what became of a copy that is under way.
    pub fn judge(
        &mut self,
        ticket: &mut Ticket<B>,
        front: &mut Front<B>,
        job: &Job,
        verdict: Verdict,
    )
        requires here { job.now.mailbox ≡ self.old.number }
        requires sent { ticket.old.life ≡ events.Sent job.now ticket.old.number ∷ [] }
        requires above { All (λ i. IsBefore i job.now)
            (judged_in self.old.number job.now.key.seat self.old.events) }
        requires fits { IsLegalLog
            (changes_in self.old.number self.old.events ++ arrives job.now verdict) }
        ensures part { (self.new.number ≡ self.old.number)
            × (self.new.events ≡ self.old.events
            ++ events.Judged job.now verdict ticket.old.number ∷ []) }
        ensures life { (ticket.new.number ≡ ticket.old.number) × (ticket.new.life
            ≡ ticket.old.life ++ events.Judged job.now verdict ticket.old.number ∷ []) }
        ensures seen { IsPrefix front.old front.new × Legal front.new
            × WasJudged front.new job.now verdict }
        ensures all { part concerns self.old.number front.new ≡ self.new.events }
    {
        uid_fits(verdict);
        let about = Judgement {
            job,
            verdict,
            ticket: ticket.number,
        };
        self.owner
            .add_both::<Judgement<'_>, Judges>(&mut ticket.owner, &mut front.seen, &about);
    }

    /// Says that a message was read.
    pub fn read(&mut self, front: &mut Front<B>, uid: u32, mark_seen: bool)
        ensures part { (self.new.number ≡ self.old.number)
            × (self.new.events ≡ self.old.events
            ++ events.Changed self.old.number (steps.Read uid mark_seen) ∷ []) }
        ensures seen { IsPrefix front.old front.new × Legal front.new }
        ensures all { part concerns self.old.number front.new ≡ self.new.events }
    {
        let about = ReadCall {
            mailbox: self.number,
            uid,
            mark_seen,
        };
        self.owner.add::<ReadCall, Reading>(&mut front.seen, &about);
    }

    /// Says that flags were changed.
    pub fn alter(&mut self, front: &mut Front<B>, uid: u32, op: FlagOp)
        ensures part { (self.new.number ≡ self.old.number)
            × (self.new.events ≡ self.old.events
            ++ events.Changed self.old.number (steps.Alter uid op) ∷ []) }
        ensures seen { IsPrefix front.old front.new × Legal front.new }
        ensures all { part concerns self.old.number front.new ≡ self.new.events }
    {
        let about = AlterCall {
            mailbox: self.number,
            uid,
            op,
        };
        self.owner
            .add::<AlterCall, Altering>(&mut front.seen, &about);
    }

    /// Says that messages were removed.
    pub fn expunge(&mut self, front: &mut Front<B>, uids: Option<&[u32]>)
        ensures part { (self.new.number ≡ self.old.number)
            × (self.new.events ≡ self.old.events
            ++ events.Changed self.old.number (steps.Expunge (option_copied uids.entry)) ∷ []) }
        ensures seen { IsPrefix front.old front.new × Legal front.new }
        ensures all { part concerns self.old.number front.new ≡ self.new.events }
    {
        let about = ExpungeCall {
            mailbox: self.number,
            uids,
        };
        self.owner
            .add::<ExpungeCall<'_>, Expunging>(&mut front.seen, &about);
    }

    /// Says that a client left.
    pub fn leave(&mut self, front: &mut Front<B>, remove: bool)
        ensures part { (self.new.number ≡ self.old.number)
            × (self.new.events ≡ self.old.events
            ++ events.Changed self.old.number (steps.Leave remove) ∷ []) }
        ensures seen { IsPrefix front.old front.new × Legal front.new }
        ensures all { part concerns self.old.number front.new ≡ self.new.events }
    {
        let about = LeaveCall {
            mailbox: self.number,
            remove,
        };
        self.owner
            .add::<LeaveCall, Leaving>(&mut front.seen, &about);
    }

    /// Says that the messages of these UIDs were removed, whatever their flags.
    pub fn discard(&mut self, front: &mut Front<B>, uids: &[u32])
        ensures part { (self.new.number ≡ self.old.number)
            × (self.new.events ≡ self.old.events
            ++ events.Changed self.old.number (steps.Discard uids.now) ∷ []) }
        ensures seen { IsPrefix front.old front.new × Legal front.new }
        ensures all { part concerns self.old.number front.new ≡ self.new.events }
    {
        let about = DiscardCall {
            mailbox: self.number,
            gone: uids,
        };
        self.owner
            .add::<DiscardCall<'_>, Discarding>(&mut front.seen, &about);
    }
}
