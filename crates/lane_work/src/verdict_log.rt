//! What a worker notes of the copies that it has put: all of it, or nothing. How a verdict comes
//! about does not belong here.

ghost use Rattle.std.specs.Prelude.{◌≡◌, ◌≤◌, ◌++◌, ◌∷◌, [], ℕ, List, length, map, zip, IsOk, OnOk, OnErr, vec_len};
ghost use Rattle.delivery_token.specs.declared.Job.{Job};
ghost use Rattle.delivery_token.specs.declared.Verdict.{Verdict};
ghost use Rattle.lmtp_machine.specs.Calls.{submission_of};
ghost use Rattle.lane_work.specs.Account.{notes_tell, copies_of, note_of};

use delivery_token::{CopyKey, Verdict, WorkerLog};
use lmtp_machine::Submission;
use std::alloc::AllocError;

/// What a worker notes of its copies and of the verdicts on them.
pub trait VerdictLog {
    // It tells of these copies and their verdicts, and of no others.
    ghost tells: { Self → List (Job × Verdict) → Type 0 };
    // the number of the worker whose it is
    ghost owner: { Self → ℕ };
    // there is room for so many more notes
    ghost has_room: { Self → ℕ → Type 0 };

    /// Makes room for `count` more notes. What it tells stays.
    ///
    /// Errors: `AllocError` where there was no room and memory was refused; then nothing is changed.
    fn reserve(&mut self, count: usize) -> Result<(), AllocError>
        // It stays the same worker's, and tells of all copies of which it told.
        ensures owner { owner self.new ≡ owner self.old }
        ensures tells { (copies : List (Job × Verdict)) → tells self.old copies
            → tells self.new copies }

        // Without an error there is room for `count` more; where there was before, it succeeds.
        ensures ok { OnOk result (has_room self.new count) }
        ensures succeeds { has_room self.old count → IsOk result }

        // After an error nothing is changed.
        ensures err { OnErr result (self.new ≡ self.old) };

    /// Notes the verdict on each copy of a message, in the order of its recipients, in room that was
    /// reserved.
    fn note_all(&mut self, message: &Submission, verdicts: &[Verdict])
        // There is a mailbox, and a verdict, for each of the message's recipients.
        requires mailboxes { vec_len message.now.mailboxes ≡ vec_len message.now.keys }
        requires verdicts { length verdicts.now ≡ vec_len message.now.keys }
        requires room { has_room self.old (length verdicts.now) }

        // It tells of the message's copies too, each with its verdict, behind those of which it told.
        ensures owner { owner self.new ≡ owner self.old }
        ensures tells { (copies : List (Job × Verdict)) → tells self.old copies →
            tells self.new (copies ++ zip (copies_of (submission_of message.now)) verdicts.now) };

    /// Notes the verdict on one copy, whose text has so many bytes, in room that was reserved.
    fn note_one(&mut self, key: CopyKey, mailbox: u8, bytes: usize, verdict: Verdict)
        requires room { has_room self.old 1 }

        // It tells of the copy of this key and mailbox too, with its verdict, behind those of which it told. Its text doesn't matter.
        ensures owner { owner self.new ≡ owner self.old }
        ensures tells { (copy : Job) (copies : List (Job × Verdict)) → copy.key ≡ key
            → copy.mailbox ≡ mailbox → tells self.old copies →
            tells self.new (copies ++ (copy, verdict) ∷ []) };
}

/// A log notes each verdict.
impl VerdictLog for WorkerLog {
    ghost tells = { λ log. notes_tell log.notes };

    ghost owner = { λ log. log.seat };

    ghost has_room = { λ log count. count ≤ log.spare };

    fn reserve(&mut self, count: usize) -> Result<(), AllocError> {
        WorkerLog::reserve(self, count)
    }

    fn note_all(&mut self, message: &Submission, verdicts: &[Verdict]) {
        log_all(self, message, verdicts);
    }

    fn note_one(&mut self, key: CopyKey, mailbox: u8, _bytes: usize, verdict: Verdict) {
        self.note(key, mailbox, verdict);
    }
}

/// Where nobody asks for the verdicts afterwards: it notes nothing, and takes no memory.
#[derive(Clone, Copy, Debug, PartialEq, Eq)]
pub struct Unkept;

impl VerdictLog for Unkept {
    ghost tells = { λ _ _. Unit {0} };

    ghost owner = { λ _. 0 };

    ghost has_room = { λ _ _. Unit {0} };

    fn reserve(&mut self, _count: usize) -> Result<(), AllocError> {
        Ok(())
    }

    fn note_all(&mut self, _message: &Submission, _verdicts: &[Verdict]) {}

    fn note_one(&mut self, _key: CopyKey, _mailbox: u8, _bytes: usize, _verdict: Verdict) {}
}

fn log_all(log: &mut WorkerLog, message: &Submission, verdicts: &[Verdict])
    requires mailboxes { vec_len message.now.mailboxes ≡ vec_len message.now.keys }
    requires verdicts { length verdicts.now ≡ vec_len message.now.keys }
    requires room { length verdicts.now ≤ log.old.spare }
    ensures seat { log.new.seat ≡ log.old.seat }
    ensures notes { log.new.notes
        ≡ log.old.notes ++ map note_of (zip (copies_of (submission_of message.now)) verdicts.now) }
{
    for i in 0..verdicts.len() {
        log.note(message.keys[i], message.mailboxes[i], verdicts[i]);
    }
}
