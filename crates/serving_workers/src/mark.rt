//! The mark of a house that serves: whether it stops, and whether all of its threads stand yet. What a thread does then stands elsewhere.

use std::sync::atomic::{AtomicBool, Ordering};
use std::sync::{Mutex, Wait};

/// What each thread of a server looks at before it accepts anybody.
#[derive(Drop)]
pub struct Mark {
    /// Set once the house stops: before a listener is shut, and where it fails to start before `start` is let go.
    pub stop: AtomicBool,
    /// Held from before the first thread is made until the last one was and the listeners were told of: so nobody is served by a house that
    /// fails to start.
    pub start: Mutex<()>,
}

impl Mark {
    /// The mark of a house that doesn't stop yet, and of which no thread is made yet.
    pub fn new() -> Mark {
        Mark {
            stop: AtomicBool::new(false),
            start: Mutex::new(()),
        }
    }

    /// Whether the house stops.
    pub fn is_set(&self) -> bool {
        self.stop.load(Ordering::SeqCst)
    }

    /// From now on the house stops.
    pub fn set(&self) {
        self.stop.store(true, Ordering::SeqCst);
    }

    /// Waits until each thread was made and that was told, or the house failed to start: then it stops. Where it stops already nobody is
    /// waited for: so whoever holds the start may do the work of a thread that it couldn't make.
    pub fn await_start<R: Wait>(&self, rt: &R) {
        if !self.is_set() {
            let _all_stand = self.start.lock(rt);
        }
    }
}
