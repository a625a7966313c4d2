//! The log of one worker: the verdicts that it heard, and what they say of a mailbox. How a
//! verdict comes about does not belong here.

ghost use Rattle.std.specs.Prelude.{◌≡◌, ◌+◌, ◌≤◌, ◌++◌, ◌∷◌, [], IfOk, IsOk, OnOk, OnErr};
ghost use Rattle.delivery_token.specs.Copies.{stored_for, stored_in};

use crate::{CopyKey, Verdict};
use std::alloc::{AllocError, Global};
use std::marker::Model;

/// A verdict, with the key and the mailbox of its copy.
#[derive(Clone, Copy, Debug, PartialEq, Eq)]
pub struct Noted {
    /// The key of the copy that the verdict is on.
    pub key: CopyKey,
    /// The number of the mailbox that the copy was for.
    pub mailbox: u8,
    /// What became of the copy.
    pub verdict: Verdict,
}

/// The verdicts that one worker heard, in the order in which it heard them, and room for more.
#[derive(Drop)]
pub struct WorkerLog {
    seat: u8,
    notes: Vec<Noted>,
}

impl Model for WorkerLog {
    ghost use Rattle.std.specs.Prelude.{◌-◌, vec_len, vec_capacity};
    ghost use Rattle.delivery_token.specs.WorkerLog.{WorkerLog};

    ghost Value = { WorkerLog };

    ghost view = { λ l. record {
      seat = l.seat;
      notes = l.notes.items;
      spare = vec_capacity l.notes - vec_len l.notes;
    } };
}

impl WorkerLog {
    /// The empty log of the worker at `seat`. It takes no memory.
    pub fn new(alloc: Global, seat: u8) -> WorkerLog
        ensures seat { result.seat ≡ seat }
        ensures notes { result.notes ≡ [] }
    {
        WorkerLog {
            seat,
            notes: Vec::new(alloc),
        }
    }

    /// Makes room for `n` notes beyond those that are there. Where memory is refused the log is
    /// unchanged.
    pub fn reserve(&mut self, n: usize) -> Result<(), AllocError>
        // Whose log it is and what was noted stays, also after an error.
        ensures seat { self.new.seat ≡ self.old.seat }
        ensures notes { self.new.notes ≡ self.old.notes }

        // After Ok there is room for `n` notes; where there was already, it is Ok.
        ensures ok { OnOk result (n ≤ self.new.spare) }
        ensures succeeds { n ≤ self.old.spare → IsOk result }

        // After an error nothing has changed, the room neither.
        ensures err { OnErr result (self.new ≡ self.old) }
    {
        self.notes.reserve(n)
    }

    /// Notes a verdict, in room that was reserved.
    pub fn note(&mut self, key: CopyKey, mailbox: u8, verdict: Verdict)
        // The room for it was reserved, as by `reserve`.
        requires { 1 ≤ self.old.spare }
        // The note goes last, behind all others, and takes one place of the room.
        ensures seat { self.new.seat ≡ self.old.seat }
        ensures notes { self.new.notes
            ≡ self.old.notes ++ record { key = key; mailbox = mailbox; verdict = verdict } ∷ [] }
        ensures spare { self.new.spare + 1 ≡ self.old.spare }
    {
        self.notes.push_reserved(Noted {
            key,
            mailbox,
            verdict,
        });
    }

    /// The verdicts that were noted, in the order in which they were.
    pub fn notes(&self) -> &[Noted]
        ensures { result.now ≡ self.now.notes }
    {
        self.notes.as_slice()
    }

    /// Key and UID of the copies stored in a mailbox, in the order in which they were noted, or an
    /// error where memory is refused.
    pub fn stored_in(&self, alloc: Global, mailbox: u8) -> Result<Vec<(CopyKey, u32)>, AllocError>
        ensures { IfOk result (λ v. v.items ≡ stored_in mailbox self.now.notes) }
    {
        self.notes
            .iter()
            .filter_map(|noted| stored(noted, mailbox))
            .collect(alloc)
    }
}

fn stored(noted: &Noted, mailbox: u8) -> Option<(CopyKey, u32)>
    ensures { result ≡ stored_for mailbox noted.now }
{
    match noted.verdict {
        Verdict::Stored { uid } if noted.mailbox == mailbox => Some((noted.key, uid)),
        _ => None,
    }
}
