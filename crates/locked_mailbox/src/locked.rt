//! What lies under a mailbox's lock, and the delivery of a copy.
ghost use Rattle.std.specs.Prelude.{◌≡◌, ◌↔◌, ◌∷◌, [], IfOk, IsTrue, None, replicate};
ghost use Rattle.mailbox.specs.Mailbox.{Stands};
ghost use Rattle.house_history.specs.declared.event.Event.TheVariants as events;
ghost use mathlib.Core.List.{IsPrefix};
ghost use Rattle.shared_history.specs.Pages.{part};
ghost use Rattle.house_history.specs.Events.{concerns};
ghost use Rattle.house_history.specs.Legal.{Legal};
ghost use Rattle.locked_mailbox.specs.Locking.{Answers, IsNext, Judges, Keeps};

use delivery_token::{CopyKey, Job, Noted, Refusal, Verdict, precedes};
use house_history::{Answer, Front, Letter, MailboxPart, Naming, Ticket};
use mailbox::{Mailbox, verdict_of};
use std::alloc::{AllocError, Global};
use std::marker::Model;
use workers_sync::deliver;

/// A mailbox, with the right to say what happens there, and of each seat the last key on which there was a verdict.
#[derive(Drop)]
pub struct LockedMailbox<B: Naming> {
    pub(crate) mailbox: Mailbox,
    pub(crate) part: MailboxPart<B>,
    pub(crate) front: Front<B>,
    pub(crate) last: Vec<Option<CopyKey>>,
}

impl<B: Naming> Model for LockedMailbox<B> {
    ghost use Rattle.locked_mailbox.specs.Locking.{Keeps, LockedMailbox};

    ghost Value = { LockedMailbox };

    ghost view = { λ l. record {
      mailbox = l.mailbox;
      events = l.part.events;
      last = l.last.items;
      history = l.front;
    } };

    ghost invariant = { λ l. Keeps l.mailbox l.part.number l.part.events l.last.items };
}

impl<B: Naming> LockedMailbox<B> {
    /// A new mailbox, in which nothing has happened, in a house of so many seats. An error where memory is refused.
    pub fn new(
        alloc: Global,
        mailbox: Mailbox,
        part: MailboxPart<B>,
        front: Front<B>,
        seats: usize,
    ) -> Result<LockedMailbox<B>, AllocError>
        requires part { (part.number ≡ mailbox.number) × (part.events ≡ []) }
        requires mailbox { Stands mailbox [] × (mailbox.accepted ≡ []) }
        ensures { IfOk result (λ l. l ≡ record {
          mailbox = mailbox;
          events = [];
          last = replicate seats None;
          history = front;
        }) }
    {
        Ok(LockedMailbox {
            mailbox,
            part,
            front,
            last: vec![in alloc; None; seats]?,
        })
    }

    /// The mailbox.
    pub fn mailbox(&self) -> &Mailbox
        ensures { result.now ≡ self.now.mailbox }
    {
        &self.mailbox
    }

    /// The mailbox, taken out. Nothing more can be said of it in the history.
    pub fn into_mailbox(self) -> Mailbox
        ensures { result ≡ self.mailbox }
    {
        let LockedMailbox {
            mailbox,
            part: _,
            front: _,
            last: _,
        } = self;
        mailbox
    }

    /// All that is known here of the history is taught to a front, with all that has happened in this mailbox.
    pub fn teach(&mut self, front: &mut Front<B>)
        ensures same { self.new ≡ (record self.old { history = self.new.history }) }
        ensures own { part concerns self.old.mailbox.number self.new.history ≡ self.old.events }
        ensures mine { IsPrefix self.new.history front.new }
        ensures before { IsPrefix front.old front.new }
        ensures legal { Legal front.new }
    {
        self.part.look(&mut self.front);
        front.learn(&self.front);
    }

    /// Where all is known that is known here, and that has all that has happened in this mailbox, nothing more has happened there.
    pub fn has_all(&mut self, front: &Front<B>)
        ensures same { self.new ≡ self.old }
        ensures own { part concerns self.old.mailbox.number self.old.history ≡ self.old.events
            → IsPrefix self.old.history front.now
            → part concerns self.old.mailbox.number front.now ≡ self.old.events }
    {
        let mut later = front.again();
        self.part.look(&mut later);
    }

    /// It is as what has happened here leaves it.
    pub fn is_kept(&self)
        ensures { Keeps self.now.mailbox self.now.mailbox.number self.now.events self.now.last }
    {
        let _ = &self.mailbox;
    }

    // Whether the copy is for this mailbox, and behind all that it had of its seat.
    fn is_next(&self, job: &Job) -> bool
        ensures { IsTrue result ↔ IsNext self.now job.now }
    {
        if job.mailbox != self.part.number() {
            return false;
        }
        match self.last.get(usize::from(job.key.seat)) {
            Some(Some(last)) => precedes(last, &job.key),
            Some(None) => true,
            None => false,
        }
    }

    // Delivers it, and says so.
    fn judge(&mut self, ticket: &mut Ticket<B>, job: &Job) -> Verdict
        requires next { IsNext self.old job.now }
        requires sent { ticket.old.life ≡ events.Sent job.now ticket.old.number ∷ [] }
        ensures { Judges job.now result self.old self.new }
    {
        let delivered = deliver(&mut self.mailbox, job);
        let verdict = verdict_of(delivered);
        self.part.judge(ticket, &mut self.front, job, verdict);
        self.last[usize::from(job.key.seat)] = Some(job.key);
        verdict
    }

    /// Delivers a copy, and answers what is noted of it.
    ///
    /// One that isn't for this mailbox, or not behind all that it had of its seat, is refused as
    /// NoMemory; nothing is done then, and it is withdrawn, so that there is never a verdict on it.
    pub fn deliver(&mut self, letter: Letter<B>) -> Answer<B>
        ensures copy { (result.key ≡ letter.key) × (result.mailbox ≡ letter.mailbox) }
        ensures answers { Answers letter result.verdict self.old self.new }
    {
        let (job, mut ticket) = letter.open();
        if !self.is_next(&job) {
            let noted = Noted {
                key: job.key,
                mailbox: job.mailbox,
                verdict: Verdict::Refused(Refusal::NoMemory),
            };
            return Answer::withdrawn(noted, ticket, self.front.again());
        }
        let verdict = self.judge(&mut ticket, &job);
        let noted = Noted {
            key: job.key,
            mailbox: job.mailbox,
            verdict,
        };
        Answer::told(noted, self.front.again())
    }
}
