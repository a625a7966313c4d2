//! The messages that are in a mailbox, beside what it accepted and what was taken from its shard's
//! lane. All three lists are in one order where the house did its work: so each is gone over once,
//! and a message is looked for behind the one before. What the workers heard does not belong here.

ghost use Rattle.std.specs.Prelude.{◌≡◌, ◌↔◌, IsTrue, Some, option_map};
ghost use Rattle.running_house.specs.Lists.{IsEachThere};
ghost use Rattle.running_house.specs.Walk.{are_met, copy_with, is_text, pair_with};

use delivery_token::{CopyKey, Job, Text};

/// The key of the first accepted copy with this UID, and what stands behind it.
fn pair_with(accepted: &[(CopyKey, u32)], uid: u32) -> Option<(CopyKey, &[(CopyKey, u32)])>
    ensures { option_map (λ found. (found.0, found.1.now)) result ≡ pair_with uid accepted.now }
{
    for position in 0..accepted.len() {
        if accepted[position].1 == uid {
            return Some((accepted[position].0, &accepted[position + 1..]));
        }
    }
    None
}

/// The text of the first copy for this mailbox with this key, and what stands behind it.
fn copy_with(mailbox: u8, copies: &[Job], key: CopyKey) -> Option<(&Text, &[Job])>
    ensures { option_map (λ found. (found.0.now, found.1.now)) result
        ≡ copy_with mailbox key copies.now }
{
    for position in 0..copies.len() {
        if copies[position].mailbox == mailbox && copies[position].key == key {
            return Some((&copies[position].text, &copies[position + 1..]));
        }
    }
    None
}

/// Whether the bytes are the same, and the date that came with them.
fn is_same_text(some: &Text, other: &Text) -> bool
    ensures { result ≡ is_text some.now other.now }
{
    some.as_slice() == other.as_slice() && some.given_date() == other.given_date()
}

/// Whether each message is met, in order: with an accepted copy under its UID, and with the text with
/// which that copy was taken.
pub(crate) fn are_met(
    mailbox: u8,
    accepted: &[(CopyKey, u32)],
    copies: &[Job],
    texts: &[(u32, Text)],
) -> bool
    ensures { result ≡ are_met mailbox (Some (accepted.now, copies.now)) texts.now }
{
    let mut pairs = accepted;
    let mut jobs = copies;
    for message in texts {
        let Some((key, other_pairs)) = pair_with(pairs, message.0) else {
            return false;
        };
        let Some((text, other_jobs)) = copy_with(mailbox, jobs, key) else {
            return false;
        };
        if !is_same_text(&message.1, text) {
            return false;
        }
        pairs = other_pairs;
        jobs = other_jobs;
    }
    true
}

/// Whether there is a message of each accepted copy, in the same order.
pub(crate) fn is_each_there(accepted: &[(CopyKey, u32)], texts: &[(u32, Text)]) -> bool
    ensures { IsTrue result ↔ IsEachThere accepted.now texts.now }
{
    let mut left = texts;
    for pair in accepted {
        let Some((message, rest)) = left.split_first() else {
            return false;
        };
        if message.0 != pair.1 {
            return false;
        }
        left = rest;
    }
    left.is_empty()
}
