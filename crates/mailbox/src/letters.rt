//! The messages that are there, by their UIDs, and what is counted of them. Which of them have
//! \Deleted is told in `messages`; changes and cursors are not told here.
//!
//! Their UIDs stand in a vector, rising, and what else is known of each at the same position of another:
//! so all UIDs are one run of numbers, which is searched by itself and copied whole where no position was
//! given up. One that is taken out loses its text at once, and its position in both as soon as more than
//! half of all positions are such: so neither a removal nor what is added moves others, and a message
//! mostly stands as far from the first one as its UID is above that one's.

ghost use Rattle.std.specs.Prelude.{◌≡◌, ◌^◌, ◌<◌, ◌-◌, ◌&&◌, false, true, [], ◌∷◌, ◌++◌, List, length, All, Contains, IfOk, OnOk, OnErr, IfSome, IfNone, Some, None, option_map, slice_get, slice_index_or, is_some};
ghost use Rattle.std.specs.List.Sorted.{IsStrictlyIncreasing};
ghost use Rattle.change_ring.specs.Log.{no_flags};
ghost use Rattle.mailbox.specs.Counts.{unseen_count, bytes_in_all};
ghost use Rattle.mailbox.specs.inner.Letters.{count_of, filed, message_of, messages_of, reflagged, without_message};
ghost use Rattle.mailbox.specs.Mailbox.{message_with, texts_of, uids_of};
ghost use Rattle.mailbox.specs.inner.Choices.{IsFound, passes};

use crate::choice::Choice;
use change_ring::{Flags, NO_FLAGS};
use delivery_token::Text;
use std::alloc::{AllocError, Global};
use std::marker::Model;

// A message but for its UID, or the position of one that was taken out: that has no text any more.
#[derive(Drop)]
pub(crate) struct Letter {
    flags: Flags,
    text: Option<Text>,
}

// The letters' UIDs, which rise, and at the same positions the letters; how many of them are messages,
// how many of these are without \Seen, and the bytes of their texts.
#[derive(Drop)]
pub(crate) struct Letters {
    uids: Vec<u32>,
    letters: Vec<Letter>,
    count: usize,
    unseen: usize,
    bytes: u128,
}

impl Model for Letters {
    ghost use Rattle.std.specs.Prelude.{List};
    ghost use Rattle.mailbox.specs.inner.Letters.{AreCounted, filed, messages_of};
    ghost use Rattle.mailbox.specs.Mailbox.{Message};

    ghost Value = { List Message };

    ghost view = { λ b. messages_of (filed b.uids.items b.letters.items) };

    ghost invariant = { AreCounted };
}

// How far a UID is above the first one: its position, where no UID is missing before it.
fn distance(uids: &[u32], uid: u32) -> usize
    ensures { result ≡ uid - slice_index_or uids.now 0 uid }
{
    match uids.first() {
        Some(first) => uid.saturating_sub(*first) as usize,
        None => 0,
    }
}

// The position of a UID. None only where no position has it.
fn position_of(uids: &[u32], uid: u32) -> Option<usize>
    requires { IsStrictlyIncreasing uids.now }
    ensures found { IfSome result (λ position. slice_get uids.now position ≡ Some uid) }
    ensures none { IfNone result (Contains uids.now uid → ⊥) }
{
    let near = distance(uids, uid);
    if uids.get(near).copied() == Some(uid) {
        return Some(near);
    }
    let position = uids.partition_point(|other| *other < uid);
    if uids.get(position).copied() == Some(uid) {
        Some(position)
    } else {
        None
    }
}

// Sets the flags of the message of a UID. None where there is none; else the flags that it had.
fn replace_flags(uids: &[u32], letters: &mut Vec<Letter>, uid: u32, flags: Flags) -> Option<Flags>
    requires rising { IsStrictlyIncreasing uids.now }
    requires beside { length letters.old.items ≡ length uids.now }
    ensures was { result ≡ option_map (λ m.
        m.flags) (message_with uid (messages_of (filed uids.now letters.old.items))) }
    ensures messages { messages_of (filed uids.now letters.new.items)
        ≡ reflagged uid flags (messages_of (filed uids.now letters.old.items)) }
    ensures beside { length letters.new.items ≡ length uids.now }
{
    let position = position_of(uids, uid)?;
    let letter = &mut letters[position];
    if letter.text.is_none() {
        return None;
    }
    let old = letter.flags;
    letter.flags = flags;
    Some(old)
}

// Takes the text of the message of a UID. None where there is none; else its flags and its text.
fn take_text(uids: &[u32], letters: &mut Vec<Letter>, uid: u32) -> Option<(Flags, Text)>
    requires rising { IsStrictlyIncreasing uids.now }
    requires beside { length letters.old.items ≡ length uids.now }
    ensures was { option_map (λ p. message_of uid p.0 p.1) result
        ≡ message_with uid (messages_of (filed uids.now letters.old.items)) }
    ensures messages { messages_of (filed uids.now letters.new.items)
        ≡ without_message uid (messages_of (filed uids.now letters.old.items)) }
    ensures beside { length letters.new.items ≡ length uids.now }
{
    let position = position_of(uids, uid)?;
    let letter = &mut letters[position];
    let text = letter.text.take()?;
    Some((letter.flags, text))
}

// Closes up the UIDs of those that are messages.
fn close_uids(uids: &mut Vec<u32>, letters: &[Letter])
    requires { length letters.now ≡ length uids.old.items }
    ensures { uids.new.items ≡ uids_of (messages_of (filed uids.old.items letters.now)) }
{
    let mut kept = 0;
    for position in 0..uids.len() {
        if letters[position].text.is_some() {
            uids[kept] = uids[position];
            kept += 1;
        }
    }
    uids.truncate(kept);
}

// Gives up the positions of those that were taken out.
fn close_up(uids: &mut Vec<u32>, letters: &mut Vec<Letter>)
    requires { length letters.old.items ≡ length uids.old.items }
    ensures messages { messages_of (filed uids.new.items letters.new.items)
        ≡ messages_of (filed uids.old.items letters.old.items) }
    ensures uids { uids.new.items ≡ uids_of (messages_of (filed uids.old.items letters.old.items)) }
    ensures beside { length letters.new.items ≡ length uids.new.items }
{
    close_uids(uids, letters);
    letters.retain(|letter| letter.text.is_some());
}

// Whether the last position has a UID that is not below this one.
fn is_behind(uids: &[u32], uid: u32) -> bool
    ensures above { result ≡ false → IsStrictlyIncreasing uids.now
        → IsStrictlyIncreasing (uids.now ++ uid ∷ []) }
    ensures needed { result ≡ true → All (λ u. u < uid) uids.now → ⊥ }
{
    match uids.last() {
        Some(last) => *last >= uid,
        None => false,
    }
}

// Makes way for a UID above all messages': no position that was given up is at or above it.
fn make_way(uids: &mut Vec<u32>, letters: &mut Vec<Letter>, uid: u32)
    requires rising { IsStrictlyIncreasing uids.old.items }
    requires beside { length letters.old.items ≡ length uids.old.items }
    requires above { All (λ u.
        u < uid) (uids_of (messages_of (filed uids.old.items letters.old.items))) }
    ensures messages { messages_of (filed uids.new.items letters.new.items)
        ≡ messages_of (filed uids.old.items letters.old.items) }
    ensures rising { IsStrictlyIncreasing (uids.new.items ++ uid ∷ []) }
    ensures beside { length letters.new.items ≡ length uids.new.items }
{
    if is_behind(uids, uid) {
        close_up(uids, letters);
    }
}

// The UIDs of those that are messages, of which there are so many.
fn uids_in(
    uids: &[u32],
    letters: &[Letter],
    count: usize,
    alloc: Global,
) -> Result<Vec<u32>, AllocError>
    requires beside { length letters.now ≡ length uids.now }
    requires count { count ≡ length (messages_of (filed uids.now letters.now)) }
    ensures { IfOk result (λ found.
        found.items ≡ uids_of (messages_of (filed uids.now letters.now))) }
{
    let mut found = Vec::with_capacity(alloc, count)?;
    for position in 0..uids.len() {
        if letters[position].text.is_some() {
            found.push_reserved(uids[position]);
        }
    }
    Ok(found)
}

// UID and text of those that are messages, of which there are so many.
fn texts_in(
    uids: &[u32],
    letters: &[Letter],
    count: usize,
    alloc: Global,
) -> Result<Vec<(u32, Text)>, AllocError>
    requires beside { length letters.now ≡ length uids.now }
    requires count { count ≡ length (messages_of (filed uids.now letters.now)) }
    ensures { IfOk result (λ texts.
        texts.items ≡ texts_of (messages_of (filed uids.now letters.now))) }
{
    let mut texts = Vec::with_capacity(alloc, count)?;
    for position in 0..uids.len() {
        if let Some(text) = &letters[position].text {
            texts.push_reserved((uids[position], text.copy()?));
        }
    }
    Ok(texts)
}

// Whether a letter is a message whose UID the choice has.
fn is_chosen(letter: &Letter, uid: u32, choice: Choice) -> bool
    requires { IsFound choice }
    ensures { result ≡ (is_some letter.now.text && passes choice.entry uid) }
{
    letter.text.is_some() && choice.has(uid)
}

// How many messages have UIDs that the choice has.
fn count_chosen(uids: &[u32], letters: &[Letter], choice: Choice) -> usize
    requires found { IsFound choice }
    requires beside { length letters.now ≡ length uids.now }
    ensures { result ≡ count_of (passes choice.entry) (messages_of (filed uids.now letters.now)) }
{
    let mut count = 0;
    for position in 0..uids.len() {
        if is_chosen(&letters[position], uids[position], choice) {
            count += 1;
        }
    }
    count
}

impl Letters {
    // None is there.
    pub(crate) fn new(alloc: Global) -> Letters
        ensures { result ≡ [] }
    {
        Letters {
            uids: Vec::new(alloc),
            letters: Vec::new(alloc),
            count: 0,
            unseen: 0,
            bytes: 0,
        }
    }

    // How many are there.
    pub(crate) fn len(&self) -> usize
        ensures len { result ≡ length self.now }
        ensures small { result < 2 ^ 63 }
        ensures rising { IsStrictlyIncreasing (uids_of self.now) }
    {
        // Read for its bound: fewer than 2^63 are there.
        let _len = self.uids.len();
        self.count
    }

    // How many of them are without \Seen.
    pub(crate) fn unseen(&self) -> usize
        ensures { result ≡ unseen_count self.now }
    {
        self.unseen
    }

    // The bytes of all texts.
    pub(crate) fn bytes(&self) -> u128
        ensures { result ≡ bytes_in_all self.now }
    {
        self.bytes
    }

    // How many of them have UIDs that the choice has.
    pub(crate) fn count(&self, choice: Choice) -> usize
        requires { IsFound choice }
        ensures { result ≡ count_of (passes choice.entry) self.now }
    {
        count_chosen(&self.uids, &self.letters, choice)
    }

    // Flags and text of the message of a UID.
    pub(crate) fn get(&self, uid: u32) -> Option<(Flags, &Text)>
        ensures { option_map (λ p. message_of uid p.0 p.1.now) result ≡ message_with uid self.now }
    {
        let position = position_of(&self.uids, uid)?;
        let letter = &self.letters[position];
        Some((letter.flags, letter.text.as_ref()?))
    }

    // Their UIDs, which rise.
    pub(crate) fn uids(&self, alloc: Global) -> Result<Vec<u32>, AllocError>
        ensures { IfOk result (λ uids. uids.items ≡ uids_of self.now) }
    {
        if self.count == self.uids.len() {
            return Vec::from_slice(alloc, &self.uids);
        }
        uids_in(&self.uids, &self.letters, self.count, alloc)
    }

    // UID and text of each.
    pub(crate) fn texts(&self, alloc: Global) -> Result<Vec<(u32, Text)>, AllocError>
        ensures { IfOk result (λ texts. texts.items ≡ texts_of self.now) }
    {
        texts_in(&self.uids, &self.letters, self.count, alloc)
    }

    // One more, whose UID is above all others. An error where memory is refused; nothing is then
    // changed.
    pub(crate) fn add(&mut self, uid: u32, text: Text) -> Result<(), AllocError>
        requires { All (λ u. u < uid) (uids_of self.old) }
        ensures ok { OnOk result (self.new
            ≡ self.old ++ record { uid = uid; flags = no_flags; text = text } ∷ []) }
        ensures err { OnErr result (self.new ≡ self.old) }
    {
        let size = text.as_slice().len() as u128;
        make_way(&mut self.uids, &mut self.letters, uid);
        self.uids.reserve(1)?;
        self.letters.reserve(1)?;
        self.uids.push_reserved(uid);
        self.letters.push_reserved(Letter {
            flags: NO_FLAGS,
            text: Some(text),
        });
        self.count += 1;
        self.unseen += 1;
        self.bytes += size;
        Ok(())
    }

    // Sets the flags of the message of a UID. None where there is none; else the flags that it had.
    pub(crate) fn set_flags(&mut self, uid: u32, flags: Flags) -> Option<Flags>
        ensures was { result ≡ option_map (λ m. m.flags) (message_with uid self.old) }
        ensures messages { self.new ≡ reflagged uid flags self.old }
    {
        // Read for its bound: fewer than 2^63 are there.
        let _len = self.uids.len();
        let Some(old) = replace_flags(&self.uids, &mut self.letters, uid, flags) else {
            return None;
        };
        self.unseen = self.unseen + usize::from(!flags.seen) - usize::from(!old.seen);
        Some(old)
    }

    // Takes out the message of a UID, where there is one.
    pub(crate) fn remove(&mut self, uid: u32)
        ensures { self.new ≡ without_message uid self.old }
    {
        let Some((flags, text)) = take_text(&self.uids, &mut self.letters, uid) else {
            return;
        };
        self.count -= 1;
        self.unseen -= usize::from(!flags.seen);
        self.bytes -= text.as_slice().len() as u128;
    }

    // Gives up the positions of those that were taken out, where these are the most.
    pub(crate) fn tidy(&mut self)
        ensures { self.new ≡ self.old }
    {
        if self.count < self.uids.len() / 2 {
            close_up(&mut self.uids, &mut self.letters);
        }
    }
}
