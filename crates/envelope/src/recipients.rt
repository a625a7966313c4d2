//! The accepted recipients of a transaction, in the order of their RCPT commands.
//! Mailboxes are numbers here; which path names which is the directory's matter.

ghost use Rattle.std.specs.Prelude.{◌≡◌, ◌++◌, ◌∷◌, [], ◌<◌, ◌≤◌, ◌↔◌, length, IfOk, IsOk, OnOk, OnErr};

use std::alloc::{AllocError, Global};
use std::marker::Model;

/// There are as many recipients as a transaction may have.
#[derive(Clone, Copy, Debug, PartialEq, Eq)]
pub struct TooMany;

/// The mailboxes of a transaction's accepted recipients, at most 100 (RFC 5321, section 4.5.3.1.8).
/// A mailbox that is named twice stands there twice.
#[derive(Drop)]
pub struct Recipients {
    mailboxes: Vec<u8>,
}

/// The most recipients that a transaction may have.
pub const MOST_RECIPIENTS: usize = 100;

impl Model for Recipients {
    ghost use Rattle.std.specs.Prelude.{List, ℕ, ◌≤◌, vec_len, vec_capacity};

    ghost Value = { List ℕ };

    ghost view = { λ r. r.mailboxes.items };

    ghost invariant = { λ r. (vec_len r.mailboxes ≤ 100) × (100 ≤ vec_capacity r.mailboxes) };
}

impl Recipients {
    /// No recipients yet, with room for the most that there may be.
    ///
    /// Errors: `AllocError` where memory for 100 numbers was refused.
    pub fn new(alloc: Global) -> Result<Recipients, AllocError>
        ensures { IfOk result (λ r. r ≡ []) }
    {
        Ok(Recipients {
            mailboxes: Vec::with_capacity(alloc, MOST_RECIPIENTS)?,
        })
    }

    /// Adds a mailbox at the end. Takes no memory.
    ///
    /// Errors: `TooMany` where there are 100 already; then nothing changes.
    pub fn add(&mut self, mailbox: u8) -> Result<(), TooMany>
        // After Ok the mailbox is the last; after an error nothing has changed.
        ensures ok { OnOk result (self.new ≡ self.old ++ mailbox ∷ []) }
        ensures full { OnErr result (self.new ≡ self.old) }
        // Ok exactly where there were fewer than 100; there were never more.
        ensures cases { IsOk result ↔ (length self.old < 100) }
        ensures most { length self.old ≤ 100 }
    {
        if self.mailboxes.len() == MOST_RECIPIENTS {
            return Err(TooMany);
        }
        self.mailboxes.push_reserved(mailbox);
        Ok(())
    }

    /// The mailboxes, the first accepted first.
    pub fn list(&self) -> &[u8]
        ensures value { result.now ≡ self.now }
        ensures most { length self.now ≤ 100 }
    {
        self.mailboxes.as_slice()
    }

    /// Forgets all of them and keeps the room.
    pub fn clear(&mut self)
        ensures { self.new ≡ [] }
    {
        self.mailboxes.clear();
    }
}
