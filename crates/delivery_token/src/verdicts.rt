//! A message that was submitted, where it lies, and the verdicts on its copies. No reply, no lane and no session is known here.

ghost use Rattle.std.specs.Prelude.{◌≡◌, ◌<◌, ◌≤◌, ◌∷◌, [], List, length, true, false, None, Some, Ok, OnErr, IfOk, IfSome, vec_capacity};
ghost use Rattle.std.specs.List.{list_all};
ghost use Rattle.std.specs.Option.{is_some};
ghost use Rattle.delivery_token.specs.declared.Job.{Job};
ghost use Rattle.delivery_token.specs.declared.Verdict.{Verdict};
ghost use Rattle.delivery_token.specs.Copies.{copies, due};
ghost use Rattle.delivery_token.specs.Verdicts.{AreKnown, Fills, FillsIn, Hears, IsStillAwaited, no_verdicts, noted_put, with_slots};

use crate::log::Noted;
use crate::{CopyKey, Text, Verdict};
use change_ring::Flags;
use std::alloc::{AllocError, Global};
use std::marker::Model;

/// A message that was submitted for its recipients. Its text lies where the message does; its keys and mailboxes may be lent for one call:
/// the i-th key and the i-th mailbox are those of its i-th copy, and all have this text and these flags.
#[derive(Clone, Copy)]
pub struct Submitted<'k, 'a> {
    /// The key of each copy, in the order of the recipients.
    pub keys: &'k [CopyKey],
    /// The number of the mailbox that each copy is for, at the position of its key.
    pub mailboxes: &'k [u8],
    /// The text of all copies.
    pub text: &'a Text,
    /// The flags that all copies are to have as they arrive.
    pub flags: Flags,
}

/// The next copy of a message, whose text lies where the message does.
#[derive(Clone, Copy)]
pub struct NextCopy<'a> {
    /// The key of the copy.
    pub key: CopyKey,
    /// The number of the mailbox that it is for.
    pub mailbox: u8,
    /// The text of the message.
    pub text: &'a Text,
    /// The flags that it is to have as it arrives.
    pub flags: Flags,
}

/// Of the copies of one message that were put, in their order, the verdict on each, or None while it is awaited.
#[derive(Drop)]
pub struct Verdicts {
    slots: Vec<Option<Verdict>>,
    // The most copies for which there is room.
    most: usize,
}

impl Model for Verdicts {
    ghost use Rattle.std.specs.Prelude.{◌≤◌, vec_capacity};
    ghost use Rattle.delivery_token.specs.Verdicts.{Verdicts};

    ghost Value = { Verdicts };

    ghost view = { λ v. record { slots = v.slots.items; most = v.most } };

    ghost invariant = { λ v. v.most ≤ vec_capacity v.slots };
}

// Whether each verdict is there.
fn are_all_there(slots: &[Option<Verdict>]) -> bool
    ensures { result ≡ list_all is_some slots.now }
{
    slots.iter().all(|slot| slot.is_some())
}

impl Verdicts {
    /// No copy was put yet, and there is room for the verdicts on so many.
    ///
    /// Errors: `AllocError` where memory for that room was refused.
    pub fn with_room(alloc: Global, most: usize) -> Result<Verdicts, AllocError>
        ensures { IfOk result (λ v. v ≡ no_verdicts most) }
    {
        let slots = Vec::with_capacity(alloc, most)?;
        Ok(Verdicts { slots, most })
    }

    /// The next copy of the message that is to be put. None where each was put.
    pub fn next_copy<'k, 'a>(&self, message: Submitted<'k, 'a>) -> Option<NextCopy<'a>>
        // None only where no copy is due: each was put. Else the answer is the first that is.
        ensures none { result ≡ None → due
            (copies message.entry.keys.now message.entry.mailboxes.now message.entry.text.now
            message.entry.flags) self.now.slots ≡ [] }
        ensures some { IfSome result (λ c. (others : List Job)
            × (due (copies message.entry.keys.now message.entry.mailboxes.now message.entry.text.now
            message.entry.flags) self.now.slots
            ≡ record { key = c.key; mailbox = c.mailbox; text = c.text.now; flags = c.flags }
            ∷ others)) }
    {
        let position = self.slots.len();
        if position >= message.keys.len() || position >= message.mailboxes.len() {
            return None;
        }
        Some(NextCopy {
            key: message.keys[position],
            mailbox: message.mailboxes[position],
            text: message.text,
            flags: message.flags,
        })
    }

    /// Notes that the next copy was put: with its verdict, where that was heard at once. It takes no memory.
    pub fn note_put(&mut self, verdict: Option<Verdict>)
        // There is room for one copy more.
        requires { length self.old.slots < self.old.most }
        ensures { self.new ≡ with_slots (noted_put verdict self.old.slots) self.old }
    {
        self.slots.push_reserved(verdict);
    }

    /// Notes a verdict that was heard at the position of its copy, where the message has a copy with that key there and it was put. Any other
    /// changes nothing.
    pub fn hear(&mut self, keys: &[CopyKey], noted: &Noted)
        // It is noted at the position of its copy, where that is one of the message and was put; nothing else has changed.
        ensures hears { Hears keys.now self.old.slots noted.now self.new.slots }
        ensures room { self.new.most ≡ self.old.most }
    {
        let position = usize::from(noted.key.recipient);
        if position >= self.slots.len() || position >= keys.len() || keys[position] != noted.key {
            return;
        }
        self.slots[position] = Some(noted.verdict);
    }

    /// The strict form of `hear`, for whoever awaits nothing else: notes a verdict that was heard only where it is on a copy of the message, with
    /// its key and its mailbox, that was put and is still awaited, and tells whether it did. Any other changes nothing. It takes no memory.
    pub fn hear_awaited(&mut self, keys: &[CopyKey], mailboxes: &[u8], noted: &Noted) -> bool
        // No verdict that was known has changed.
        ensures fills { Fills self.old.slots self.new.slots }
        // After true the verdict is filled in, at the position of its copy, where none was known; after false nothing has changed.
        ensures noted { result ≡ true
            → FillsIn keys.now mailboxes.now noted.now self.old.slots self.new.slots }
        ensures same { result ≡ false → self.new.slots ≡ self.old.slots }
        // False only where the verdict is on no copy that was put and is still awaited.
        ensures passes { result ≡ false
            → IsStillAwaited keys.now mailboxes.now self.old.slots noted.now → ⊥ }
        // There is room for as many copies as before.
        ensures room { self.new.most ≡ self.old.most }
    {
        let position = usize::from(noted.key.recipient);
        if position >= self.slots.len() || position >= keys.len() || position >= mailboxes.len() {
            return false;
        }
        if noted.key != keys[position] {
            return false;
        }
        if noted.mailbox != mailboxes[position] {
            return false;
        }
        let slot = &mut self.slots[position];
        if slot.is_some() {
            return false;
        }
        *slot = Some(noted.verdict);
        true
    }

    /// Whether so many copies were put, and the verdict on each is known. It takes no memory.
    pub fn are_known(&self, count: usize) -> bool
        // True exactly where so many copies were put and the verdict on each is known.
        ensures known { result ≡ true → (vs : List Verdict) × AreKnown count self.now.slots vs }
        ensures unknown { result ≡ false → (vs : List Verdict) → AreKnown count self.now.slots vs
            → ⊥ }
    {
        self.slots.len() == count && are_all_there(&self.slots)
    }

    /// The verdicts on so many copies, in their order. None where fewer or more were put, or one is still awaited.
    ///
    /// Errors: `AllocError` where memory was refused, and only where each verdict is known.
    pub fn known(&self, count: usize) -> Result<Option<Vec<Verdict>>, AllocError>
        // Some has the verdict on each copy, of which so many were put; None only where there are no such verdicts.
        ensures known { IfOk result (λ o. IfSome o (λ vs. AreKnown count self.now.slots vs.items)) }
        ensures unknown { result ≡ Ok None → (vs : List Verdict) → AreKnown count self.now.slots vs
            → ⊥ }
        // An error only where each verdict is known.
        ensures asks { OnErr result ((vs : List Verdict) × AreKnown count self.now.slots vs) }
    {
        // Only then memory is asked for: this is called after each verdict that was heard.
        if !self.are_known(count) {
            return Ok(None);
        }
        let room = Vec::with_capacity(*self.slots.allocator(), self.slots.len())?;
        Ok(Some(self.known_in(room)))
    }

    /// The verdicts, in the order of their copies, where each is known, in `room`, which is empty and has room for them. It takes no memory, for
    /// whoever must ask for none once a copy was put.
    pub fn known_in(&self, room: Vec<Verdict>) -> Vec<Verdict>
        // The verdict on each copy that was put is known.
        requires known { list_all is_some self.now.slots ≡ true }
        // `room` is empty, and has room for as many verdicts as copies were put.
        requires room { (room.items ≡ []) × (length self.now.slots ≤ vec_capacity room) }
        // The answer has the verdict on each of them, in their order.
        ensures { AreKnown (length self.now.slots) self.now.slots result.items }
    {
        let mut known = room;
        for slot in &self.slots {
            let Some(verdict) = slot else { unreachable!() };
            known.push_reserved(*verdict);
        }
        known
    }

    /// The verdict on the only copy, where it was put and the verdict is known. It takes no memory.
    pub fn only(&self) -> Option<Verdict>
        // The answer is the verdict on the only copy that was put; None only where there is no such verdict.
        ensures known { IfSome result (λ v. AreKnown 1 self.now.slots (v ∷ [])) }
        ensures unknown { result ≡ None → (vs : List Verdict) → AreKnown 1 self.now.slots vs → ⊥ }
    {
        if self.slots.len() != 1 {
            return None;
        }
        self.slots[0]
    }

    /// The message is done with: none of its copies is known any more. The room is kept.
    pub fn clear(&mut self)
        ensures { self.new ≡ with_slots [] self.old }
    {
        self.slots.clear();
    }
}
