//! Who takes a message that a client appended to its mailbox, and brings back the verdict on it. What a
//! session says of that stands in `imap_session`, how a copy goes through its shard's lane in `lane_work`:
//! here is only what either may rest on.

ghost use Rattle.std.specs.Prelude.{◌≡◌, ◌∷◌, ◌++◌, [], List, IfOk};
ghost use Rattle.workers_sync.specs.Carried.{Carried};

use crate::sync_point::{Gate, SyncPoint};
use change_ring::Flags;
use delivery_token::{Text, Verdict};
use std::alloc::AllocError;

/// Why a courier brings no verdict.
#[derive(Clone, Copy, Debug, PartialEq, Eq)]
pub enum Lost {
    /// Memory was refused before the message was on its way: nothing was done.
    NoMemory,
    /// Something came that was no verdict on the message. What became of it isn't known.
    Torn,
}

impl From<AllocError> for Lost {
    ghost use Rattle.workers_sync.specs.declared.courier.Lost.{Lost};

    ghost from_gives = { λ _ lost. lost ≡ Lost.NoMemory };

    fn from(_error: AllocError) -> Lost {
        Lost::NoMemory
    }
}

/// Who takes messages to their mailboxes, one at a time, and brings back the verdict on each: stored
/// under a UID, or refused and why.
pub trait Courier {
    // It may carry a message.
    ghost ready: { Self → Type 0 };
    // It carried these messages, in this order and no others, and brought these verdicts.
    ghost carried: { Self → List Carried → Type 0 };
    // The second is what the first may have become, whatever it was given to carry.
    ghost kept: { Self → Self → Type 0 };

    /// Takes a message to its mailbox, waits for the verdict on it, and brings that. Before each of the
    /// events that it makes it asks to pass. `message` counts the messages of one session from 0,
    /// `mailbox` is the mailbox's number.
    ///
    /// Errors: see `Lost`.
    fn carry<G: Gate>(
        &mut self,
        sync_point: &mut SyncPoint<'_, G>,
        message: u32,
        mailbox: u8,
        text: &Text,
        flags: Flags,
    ) -> Result<Verdict, Lost>
        // It may carry a message, and so it may afterwards, whatever it answers.
        requires ready { ready self.old }
        ensures ready { ready self.new }
        // What it may have come from before, it may have come from still.
        ensures kept { (first : Self) → kept first self.old → kept first self.new }
        // After Ok it has carried this message behind those before, and the answer is the verdict that it brought on it.
        ensures carried { IfOk result (λ verdict. (done : List Carried) → carried self.old done
            → carried self.new (done
            ++ record {
              message = message;
              mailbox = mailbox;
              text = text.now;
              flags = flags;
              verdict = verdict;
            } ∷ [])) };
}
