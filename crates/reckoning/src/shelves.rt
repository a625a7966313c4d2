//! The mailboxes of a run, out of their locks: what each accepted, and what is there. Each teaches a front of the house's history what has
//! happened there. What the threads said of it stands elsewhere.

ghost use Rattle.std.specs.Prelude.{◌≡◌, ◌+◌, ◌≤◌, [], All, IfOk, OnOk, length, true, vec_capacity, vec_len};
ghost use mathlib.Core.List.{IsPrefix};
ghost use Rattle.house_shared.specs.Crew.{AllAt};
ghost use Rattle.house_history.specs.Legal.{Legal};
ghost use Rattle.reckoning.specs.Shelves.{AreNumbered, AreToldOnce, HasAccepted, IsRecorded, IsTaught};
ghost use Rattle.mailbox.specs.Accepted.{kept_of};
ghost use Rattle.reckoning.specs.inner.Shelves.{Adds};

use crate::gather::Fault;
use delivery_token::{CopyKey, Text};
use house_history::{Front, Naming};
use locked_mailbox::LockedMailbox;
use mailbox::{History, Mailbox, every_mailbox_keeps};
use std::alloc::{AllocError, Global};
use std::sync::Mutex;

/// What the mailboxes hold, by their numbers.
#[derive(Drop)]
pub struct Shelves {
    /// The copies that each accepted, with their UIDs, in the order of the deliveries.
    pub accepted: Vec<Vec<(CopyKey, u32)>>,
    /// The messages that are there: UID and text, by rising UIDs.
    pub texts: Vec<Vec<(u32, Text)>>,
}

// Takes a mailbox out of its lock. The front has then all that happened there.
fn unlock<B: Naming>(behind: Mutex<LockedMailbox<B>>, front: &mut Front<B>) -> LockedMailbox<B>
    ensures taught { IsTaught front.new result }
    ensures before { IsPrefix front.old front.new }
    ensures legal { Legal front.new }
{
    let mut locked = behind.into_inner();
    locked.teach(front);
    locked
}

/// Takes all mailboxes out of their locks, in their order. The front has then all that happened in them. `unlocked`, which is empty, has
/// room for all.
pub fn unlock_into<B: Naming>(
    mailboxes: Vec<Mutex<LockedMailbox<B>>>,
    mut unlocked: Vec<LockedMailbox<B>>,
    front: &mut Front<B>,
) -> Vec<LockedMailbox<B>>
    requires room { (unlocked.items ≡ []) × (vec_len mailboxes ≤ vec_capacity unlocked) }

    // All that has happened in each of them is known to the front.
    ensures taught { All (IsTaught front.new) result.items }
    ensures count { vec_len result ≡ vec_len mailboxes }
    ensures before { IsPrefix front.old front.new }
    ensures legal { Legal front.new }
{
    front.is_legal();
    for behind in mailboxes {
        unlocked.push_reserved(unlock(behind, front));
    }
    unlocked
}

/// The same, where there is no room for them yet.
///
/// The only error is that memory is refused; the front has learned nothing then.
pub fn unlock_all<B: Naming>(
    alloc: Global,
    mailboxes: Vec<Mutex<LockedMailbox<B>>>,
    front: &mut Front<B>,
) -> Result<Vec<LockedMailbox<B>>, AllocError>
    // All that has happened in each of them is known to the front.
    ensures taught { IfOk result (λ all. All (IsTaught front.new) all.items) }
    ensures count { IfOk result (λ all. vec_len all ≡ vec_len mailboxes) }
    ensures before { IsPrefix front.old front.new }
    ensures legal { Legal front.new }
{
    front.is_legal();
    let unlocked = Vec::with_capacity(alloc, mailboxes.len())?;
    Ok(unlock_into(mailboxes, unlocked, front))
}

// Whether this is the mailbox of that number. Of what the front has nothing else happened there.
fn is_recorded<B: Naming>(locked: &mut LockedMailbox<B>, number: usize, front: &Front<B>) -> bool
    requires taught { IsTaught front.now locked.old }
    ensures same { locked.new ≡ locked.old }
    ensures recorded { result ≡ true → IsRecorded front.now number locked.old }
{
    locked.has_all(front);
    locked.is_kept();
    usize::from(locked.mailbox().number()) == number
}

/// Whether each is the mailbox of its position. All that has happened in them is then just what the front has of them. They stay as they
/// were.
pub fn are_recorded<B: Naming>(unlocked: &mut Vec<LockedMailbox<B>>, front: &Front<B>) -> bool
    // All that has happened in each of them is known to the front.
    requires taught { All (IsTaught front.now) unlocked.old.items }
    ensures same { (unlocked.new.items ≡ unlocked.old.items)
        × (vec_len unlocked.new ≡ vec_len unlocked.old) }

    // The history has of each mailbox what happened there, and it is as that leaves it.
    ensures recorded { result ≡ true → AllAt (IsRecorded front.now) 0 unlocked.old.items }
{
    for number in 0..unlocked.len() {
        if !is_recorded(&mut unlocked[number], number, front) {
            return false;
        }
    }
    true
}

// Puts what one mailbox accepted and what is there behind those of the mailboxes before it.
fn add_to(alloc: Global, mailbox: &Mailbox, shelves: &mut Shelves) -> Result<(), AllocError>
    requires numbered { All (λ v. AreNumbered v.items) shelves.old.accepted.items }
    requires once { All (λ v. AreToldOnce v.items) shelves.old.texts.items }
    ensures counts { OnOk result ((vec_len shelves.new.accepted
        ≡ vec_len shelves.old.accepted + 1) ×
        (vec_len shelves.new.texts ≡ vec_len shelves.old.texts + 1)) }
    ensures added { OnOk result (Adds (kept_of mailbox.now.history mailbox.now.accepted)
        shelves.old.accepted.items
        shelves.new.accepted.items) }
    ensures numbered { OnOk result (All (λ v. AreNumbered v.items) shelves.new.accepted.items) }
    ensures once { OnOk result (All (λ v. AreToldOnce v.items) shelves.new.texts.items) }
{
    every_mailbox_keeps(mailbox);
    let kept = Vec::from_slice(alloc, mailbox.accepted())?;
    shelves.accepted.push(kept)?;
    let texts = mailbox.texts(alloc)?;
    shelves.texts.push(texts)?;
    Ok(())
}

// The same of a mailbox that has taught the front. Torn where it isn't the next one, or doesn't keep what it accepted.
fn add_taught<B: Naming>(
    alloc: Global,
    mut locked: LockedMailbox<B>,
    front: &Front<B>,
    shelves: &mut Shelves,
) -> Result<(), Fault>
    requires taught { IsTaught front.now locked }
    requires accepted { AllAt (HasAccepted front.now) 0 shelves.old.accepted.items }
    requires numbered { All (λ v. AreNumbered v.items) shelves.old.accepted.items }
    requires once { All (λ v. AreToldOnce v.items) shelves.old.texts.items }
    ensures counts { OnOk result ((vec_len shelves.new.accepted
        ≡ vec_len shelves.old.accepted + 1) ×
        (vec_len shelves.new.texts ≡ vec_len shelves.old.texts + 1)) }
    ensures accepted { OnOk result (AllAt (HasAccepted front.now) 0 shelves.new.accepted.items) }
    ensures numbered { OnOk result (All (λ v. AreNumbered v.items) shelves.new.accepted.items) }
    ensures once { OnOk result (All (λ v. AreToldOnce v.items) shelves.new.texts.items) }
{
    locked.has_all(front);
    locked.is_kept();
    let mailbox = locked.into_mailbox();
    if usize::from(mailbox.number()) != shelves.accepted.len() {
        return Err(Fault::Torn);
    }
    if mailbox.history() != History::Kept {
        return Err(Fault::Torn);
    }
    add_to(alloc, &mailbox, shelves)?;
    Ok(())
}

/// What each mailbox accepted, and what is there.
///
/// Errors: `NoMemory` where memory is refused; `Torn` where one isn't the mailbox of its position, or doesn't keep what it accepted.
pub fn take_out<B: Naming>(
    alloc: Global,
    unlocked: Vec<LockedMailbox<B>>,
    front: &Front<B>,
) -> Result<Shelves, Fault>
    // All that has happened in each of them is known to the front.
    requires taught { All (IsTaught front.now) unlocked.items }

    // There is a list of each for each mailbox.
    ensures counts { IfOk result (λ s. (vec_len s.accepted ≡ vec_len unlocked)
        × (vec_len s.texts ≡ vec_len unlocked)) }

    // What each accepted is what the history says that it accepted.
    ensures accepted { IfOk result (λ s. AllAt (HasAccepted front.now) 0 s.accepted.items) }

    // UIDs were given one after another, with no gap; and each message that is there is told once.
    ensures numbered { IfOk result (λ s. All (λ v. AreNumbered v.items) s.accepted.items) }
    ensures once { IfOk result (λ s. All (λ v. AreToldOnce v.items) s.texts.items) }
{
    let mut shelves = Shelves {
        accepted: Vec::with_capacity(alloc, unlocked.len())?,
        texts: Vec::with_capacity(alloc, unlocked.len())?,
    };
    for locked in unlocked {
        add_taught(alloc, locked, front, &mut shelves)?;
    }
    Ok(shelves)
}
