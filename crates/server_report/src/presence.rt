//! Whether a thread has a call at hand, and which, for those who ask what a server is doing now. Nobody waits for anybody here.

use crate::figures::PeerState;
use std::sync::atomic::{AtomicBool, AtomicU64, Ordering};

/// What a thread shows of the call that it has at hand.
#[derive(Drop)]
pub struct Presence {
    // One more than the call's serial, or 0 where there is none.
    at_hand: AtomicU64,
    // Whether the call's last word was said.
    is_leaving: AtomicBool,
}

impl Presence {
    /// No call is at hand.
    pub fn new() -> Presence {
        Presence {
            at_hand: AtomicU64::new(0),
            is_leaving: AtomicBool::new(false),
        }
    }

    /// The call with this serial is at hand from now on.
    pub fn come(&self, serial: u64) {
        self.is_leaving.store(false, Ordering::SeqCst);
        self.at_hand
            .store(serial.saturating_add(1), Ordering::SeqCst);
    }

    /// The last word was said to the call at hand, and its end is waited for.
    pub fn leave(&self) {
        self.is_leaving.store(true, Ordering::SeqCst);
    }

    /// No call is at hand any more.
    pub fn go(&self) {
        self.at_hand.store(0, Ordering::SeqCst);
    }

    /// The serial of the call at hand, where there is one.
    pub fn serial(&self) -> Option<u64> {
        match self.at_hand.load(Ordering::SeqCst) {
            0 => None,
            one_more => Some(one_more - 1),
        }
    }

    /// What the call at hand is doing, where it is seen to idle or not.
    pub fn state(&self, idles: bool) -> PeerState {
        if self.is_leaving.load(Ordering::SeqCst) {
            return PeerState::Leaving;
        }
        if idles {
            return PeerState::Idling;
        }
        PeerState::Talking
    }
}
