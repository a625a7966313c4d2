//! A gate that makes threads meet: passes of one actor are held until another actor asks for one of its own. Nobody is held for good.

use std::alloc::{AllocError, Global};
use std::sync::atomic::{AtomicBool, AtomicU64, Ordering};
use std::thread;
use workers_sync::{Actor, Gate};

/// So many turns an actor waits for another where it is to come.
pub const PATIENCE: u64 = 10_000_000;

/// Which passes of an actor are held.
#[derive(Clone, Copy, PartialEq, Eq)]
pub enum Passes {
    /// Its first alone.
    First,
    /// Each.
    All,
}

// Passes that are held, and whether the other actor came.
#[derive(Drop)]
struct Hold {
    who: Actor,
    passes: Passes,
    until: Actor,
    number: u64,
    came: AtomicBool,
}

impl Hold {
    // Whether this pass is held.
    fn holds(&self, who: Actor, number: u64) -> bool {
        if who != self.who {
            return false;
        }
        match self.passes {
            Passes::First => number == 0,
            Passes::All => true,
        }
    }

    // Notes that an actor asks for this pass.
    fn note(&self, who: Actor, number: u64) {
        if who == self.until && number >= self.number {
            self.came.store(true, Ordering::SeqCst);
        }
    }

    // Waits for the other actor, so many turns at most. Whether it came.
    fn wait(&self, patience: u64) -> bool {
        for _ in 0..patience {
            if self.came.load(Ordering::SeqCst) {
                return true;
            }
            thread::yield_now();
        }
        false
    }
}

/// Holds actors up, each for so many turns at most. With no hold it lets all pass.
#[derive(Drop)]
pub struct Turnstile {
    holds: Vec<Hold>,
    patience: u64,
    given_up: AtomicU64,
}

impl Turnstile {
    /// A gate that lets all pass. An actor that it is told to hold it lets pass after so many turns.
    pub fn new(alloc: Global, patience: u64) -> Turnstile {
        Turnstile {
            holds: Vec::new(alloc),
            patience,
            given_up: AtomicU64::new(0),
        }
    }

    /// Holds these passes of `who` until `until` asks for the pass of this number, or a later one. An error where memory is refused;
    /// nothing changed then.
    pub fn hold(
        &mut self,
        who: Actor,
        passes: Passes,
        until: Actor,
        number: u64,
    ) -> Result<(), AllocError> {
        self.holds.push(Hold {
            who,
            passes,
            until,
            number,
            came: AtomicBool::new(false),
        })?;
        Ok(())
    }

    /// How often an actor was let pass though the other hadn't come.
    pub fn given_up(&self) -> u64 {
        self.given_up.load(Ordering::SeqCst)
    }

    // All who wait for this pass are told.
    fn note(&self, who: Actor, number: u64) {
        for hold in &self.holds {
            hold.note(who, number);
        }
    }
}

impl Gate for Turnstile {
    fn pass(&self, who: Actor, number: u64) {
        self.note(who, number);
        for hold in &self.holds {
            if hold.holds(who, number) && !hold.wait(self.patience) {
                self.given_up.fetch_add(1, Ordering::SeqCst);
            }
        }
    }
}
