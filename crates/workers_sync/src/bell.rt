//! One bell and its two ends. A ring is kept until it is heard, so none is lost, and one too many costs a look.

use crossbeam_utils::sync::{Parker, Unparker};
use std::alloc::{AllocError, Global};
use std::sync::atomic::{AtomicBool, Ordering};
use std::sync::{Arc, Wait};

/// A session's own end of its bell, on which one thread sleeps.
#[derive(Drop)]
pub struct SessionParker {
    parker: Parker,
    // Whether the session idles, for those who ring: to wake a thread costs more than to deliver a message.
    idles: Arc<AtomicBool>,
}

/// What rings a session's bell.
#[derive(Drop)]
pub struct SessionBell {
    unparker: Unparker,
    idles: Arc<AtomicBool>,
}

impl SessionParker {
    /// A new bell, of a session that doesn't idle. An error where memory is refused.
    pub fn new(alloc: Global) -> Result<SessionParker, AllocError> {
        Ok(SessionParker {
            parker: Parker::new(alloc)?,
            idles: Arc::new(alloc, AtomicBool::new(false))?,
        })
    }

    /// One thing more that rings it. An error where memory is refused.
    pub fn bell(&self) -> Result<SessionBell, AllocError> {
        Ok(SessionBell {
            unparker: self.parker.unparker().clone()?,
            idles: self.idles.clone()?,
        })
    }

    /// The mark that the session idles. Whoever serves the session sets it before it looks for changes, so that a change is either met by
    /// that look or its logger finds the mark. An error where memory is refused.
    pub fn idling(&self) -> Result<Arc<AtomicBool>, AllocError> {
        self.idles.clone()
    }

    /// Sleeps until the bell was rung since the last time.
    pub fn sleep<R: Wait>(&self, rt: &R) {
        self.parker.park(rt);
    }
}

impl SessionBell {
    /// For whoever logged a change: wakes the parker where its session idles.
    pub fn ring(&self) {
        if self.idles.load(Ordering::SeqCst) {
            self.unparker.unpark();
        }
    }

    /// Wakes the parker, whatever its session does.
    pub fn wake(&self) {
        self.unparker.unpark();
    }
}

/// Rings each of these bells.
pub fn ring_each(bells: &[SessionBell]) {
    for bell in bells {
        bell.ring();
    }
}
