//! How the history begins, as a thread knows it.
ghost use Rattle.std.specs.Prelude.{◌≡◌};
ghost use mathlib.Core.List.{IsPrefix};
ghost use Rattle.house_history.specs.Legal.{Legal};

use crate::event::Event;
use shared_history::{Rule, Seen};
use std::marker::{Brand, Model, PhantomData};

/// The rule of the history.
pub struct HouseRule;

impl Rule<Event> for HouseRule {
    ghost use Rattle.house_history.specs.Events.{concerns};
    ghost use Rattle.house_history.specs.Legal.{Legal};

    ghost holds = { λ log. Legal log };

    ghost concerns = { concerns };
}

/// Which history it is. Each call of a program picks it.
pub trait Naming {
    ghost use Rattle.shared_history.specs.Pages.{Book};

    ghost book: { Book };
}

impl Naming for Brand {
    ghost use Rattle.std.specs.Prelude.{[]};

    ghost book = { record { number = 0; log_name = 0; owner_names = [] } };
}

/// A beginning of the history that was seen. Contracts see it as its events.
#[derive(Drop)]
pub struct Front<B: Naming> {
    pub(crate) seen: Seen<Event, HouseRule>,
    pub(crate) of: PhantomData<B>,
}

impl<B: Naming> Model for Front<B> {
    ghost use Rattle.std.specs.Prelude.{◌≡◌, List};
    ghost use Rattle.house_history.specs.declared.event.Event.{Event};
    ghost use Rattle.house_history.specs.Legal.{Legal};

    ghost Value = { List Event };

    ghost view = { λ f. f.seen.log };

    ghost invariant = { λ f. (f.seen.book ≡ B.book) × Legal f.seen.log };
}

impl<B: Naming> Front<B> {
    /// It is legal.
    pub fn is_legal(&self)
        ensures { Legal self.now }
    {
        let _ = &self.seen;
    }

    /// A copy.
    pub fn again(&self) -> Front<B>
        ensures { result ≡ self.now }
    {
        Front {
            seen: self.seen.again(),
            of: PhantomData,
        }
    }

    /// Afterwards it knows what both knew.
    pub fn learn(&mut self, other: &Front<B>)
        ensures mine { IsPrefix self.old self.new }
        ensures theirs { IsPrefix other.now self.new }
        ensures legal { Legal self.new }
    {
        self.seen.learn(&other.seen);
    }
}
