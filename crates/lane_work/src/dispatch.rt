//! What a producer says of its copies in the house's history: that each is sent, and of one that comes back that nobody will judge
//! it. On which lane a copy is put stands in `putting`.

ghost use Rattle.std.specs.Prelude.{◌≡◌, ◌↔◌, [], IfOk, IsTrue};
ghost use mathlib.Core.List.{IsPrefix};
ghost use Rattle.house_history.specs.Events.{sent_by};
ghost use Rattle.house_history.specs.Legal.{Legal, WasWithdrawn};
ghost use Rattle.house_history.specs.Views.{IsSettledIn};
ghost use Rattle.lane_work.specs.Dispatching.{HasLearned, SendsOrKeeps};
ghost use Rattle.lane_work.specs.inner.Dispatching.{IsBehind};

use delivery_token::{CopyKey, Job, precedes};
use house_history::{Answer, Front, Letter, Naming, Seat, Tickets};
use std::marker::Model;

/// What a seat sends its copies with: the right to say so, a ticket for each, and how the house's history begins, as far as it is known here.
#[derive(Drop)]
pub struct Dispatch<B: Naming> {
    seat: Seat<B>,
    tickets: Tickets<B>,
    front: Front<B>,
    last: Option<CopyKey>,
}

impl<B: Naming> Model for Dispatch<B> {
    ghost use Rattle.std.specs.Prelude.{◌≡◌};
    ghost use Rattle.house_history.specs.Events.{sent_by};
    ghost use Rattle.lane_work.specs.Dispatching.{Dispatch};
    ghost use Rattle.lane_work.specs.inner.Dispatching.{IsLast};

    ghost Value = { Dispatch };

    ghost view = { λ d. record {
      number = d.seat.number;
      sent = d.seat.sent;
      tickets = d.tickets;
      history = d.front;
    } };

    ghost invariant = { λ d. IsLast d.seat.number d.last d.seat.sent
        × (sent_by d.seat.number d.front ≡ d.seat.sent) };
}

// Whether the key is of the seat of this number, and behind the last one that it sent.
fn is_behind(number: u8, last: &Option<CopyKey>, key: &CopyKey) -> bool
    ensures { IsTrue result ↔ IsBehind number last.now key.now }
{
    if key.seat != number {
        return false;
    }
    match last {
        Some(last) => precedes(last, key),
        None => true,
    }
}

impl<B: Naming> Dispatch<B> {
    /// What a seat that has sent nothing sends with.
    pub fn new(mut seat: Seat<B>, tickets: Tickets<B>, front: Front<B>) -> Dispatch<B>
        requires { seat.sent ≡ [] }
        ensures { result ≡ record {
          number = seat.number;
          sent = [];
          tickets = tickets;
          history = front;
        } }
    {
        let mut later = front.again();
        seat.look(&mut later);
        Dispatch {
            seat,
            tickets,
            front,
            last: None,
        }
    }

    /// What is known of the history is legal, and has just what this seat has sent.
    pub fn is_kept(&self)
        ensures legal { Legal self.now.history }
        ensures own { sent_by self.now.number self.now.history ≡ self.now.sent }
    {
        self.front.is_legal();
    }

    /// Where all is known that is known here, it is known that this seat has sent no more.
    pub fn has_sent_all(&mut self, front: &Front<B>)
        ensures same { self.new ≡ self.old }
        ensures own { IsPrefix self.old.history front.now
            → sent_by self.old.number front.now ≡ sent_by self.old.number self.old.history }
    {
        let mut later = front.again();
        self.seat.look(&mut later);
    }

    /// Says that a copy is sent: it is a letter from then on.
    ///
    /// The copy comes back where it isn't this seat's, or not above all that the seat has sent, or where no ticket is left. Nothing is
    /// said then, and nothing is changed.
    pub fn send(&mut self, job: Job) -> Result<Letter<B>, Job>
        ensures sends { SendsOrKeeps job result self.old self.new }
        ensures letter { IfOk result (λ letter. letter ≡ job) }
    {
        if !is_behind(self.seat.number(), &self.last, &job.key) {
            return Err(job);
        }
        let Some(mut one) = self.tickets.divide(1) else {
            return Err(job);
        };
        let Some(mut ticket) = one.take() else {
            unreachable!()
        };
        self.seat.send(&mut ticket, &mut self.front, &job);
        self.seat.look(&mut self.front);
        self.last = Some(job.key);
        Ok(Letter::new(job, ticket))
    }

    /// Takes back a copy that is under way no more: there will never be a verdict on it.
    pub fn take_back(&mut self, letter: Letter<B>)
        ensures withdrawn { WasWithdrawn self.new.history letter }
        ensures learned { HasLearned self.old self.new }
    {
        let (_, mut ticket) = letter.open();
        ticket.withdraw(&mut self.front);
        self.seat.look(&mut self.front);
    }

    /// A front has then what is known of the history here, too.
    pub fn teach(&self, front: &mut Front<B>)
        ensures mine { IsPrefix self.now.history front.new }
        ensures before { IsPrefix front.old front.new }
        ensures legal { Legal front.new }
    {
        front.learn(&self.front);
    }

    /// Learns what an answer brings: that it is the last word on its copy.
    pub fn learn(&mut self, answer: &Answer<B>)
        ensures learned { HasLearned self.old self.new }
        ensures settled { IsSettledIn self.new.history answer.now }
    {
        answer.teach(&mut self.front);
        self.seat.look(&mut self.front);
    }
}
