//! The messages that are there, and which of them have \Deleted, so that an expunge passes these
//! alone. Changes and cursors are not told here.

ghost use Rattle.std.specs.Prelude.{◌≡◌, ◌<◌, false, [], ◌∷◌, ◌++◌, length, All, IfOk, OnOk, OnErr, option_map, vec_len, vec_capacity};
ghost use Rattle.std.specs.List.Sorted.{IsStrictlyIncreasing};
ghost use Rattle.change_ring.specs.Log.{no_flags, without};
ghost use Rattle.mailbox.specs.inner.Choices.{IsFound, passes};
ghost use Rattle.mailbox.specs.Counts.{unseen_count, deleted_count, bytes_in_all};
ghost use Rattle.mailbox.specs.inner.Letters.{count_of, message_of, reflagged};
ghost use Rattle.mailbox.specs.Mailbox.{flagged, message_with, remaining, texts_of, uids_of};
ghost use Rattle.mailbox.specs.inner.Marks.{doom, doomed, marked_of, put_in, remarked, without_each};

use crate::choice::Choice;
use crate::letters::Letters;
use change_ring::{FlagOp, Flags};
use delivery_token::Text;
use std::alloc::{AllocError, Global};
use std::marker::Model;

// Setting \Deleted.
const DOOM: FlagOp = FlagOp::Insert(Flags {
    answered: false,
    flagged: false,
    deleted: true,
    seen: false,
    draft: false,
});

// The messages, and the UIDs of those with \Deleted, which rise.
#[derive(Drop)]
pub(crate) struct Messages {
    letters: Letters,
    // There is room for each message's, so that setting \Deleted takes no memory.
    marked: Vec<u32>,
}

impl Model for Messages {
    ghost use Rattle.std.specs.Prelude.{List};
    ghost use Rattle.mailbox.specs.Mailbox.{Message};
    ghost use Rattle.mailbox.specs.inner.Marks.{AreMarked};

    ghost Value = { List Message };

    ghost view = { λ b. b.letters };

    ghost invariant = { AreMarked };
}

// Puts a UID among others that rise; there is room for it.
fn mark(marked: &mut Vec<u32>, uid: u32)
    requires room { vec_len marked.old < vec_capacity marked.old }
    requires rising { IsStrictlyIncreasing marked.old.items }
    ensures items { marked.new.items ≡ put_in uid marked.old.items }
    ensures room { vec_capacity marked.new ≡ vec_capacity marked.old }
{
    let position = marked.partition_point(|other| *other < uid);
    let _ = marked.insert(position, uid);
}

// Takes a UID away from others that rise.
fn unmark(marked: &mut Vec<u32>, uid: u32)
    requires rising { IsStrictlyIncreasing marked.old.items }
    ensures items { marked.new.items ≡ without uid marked.old.items }
    ensures room { vec_capacity marked.new ≡ vec_capacity marked.old }
{
    if let Ok(position) = marked.binary_search(&uid) {
        marked.remove(position);
    }
}

// Notes whether a message has \Deleted now, where it had it or not before.
fn remark(marked: &mut Vec<u32>, uid: u32, before: bool, now: bool)
    requires room { before ≡ false → vec_len marked.old < vec_capacity marked.old }
    requires rising { IsStrictlyIncreasing marked.old.items }
    ensures items { marked.new.items ≡ remarked uid before now marked.old.items }
    ensures room { vec_capacity marked.new ≡ vec_capacity marked.old }
{
    if !before && now {
        mark(marked, uid);
    } else if before && !now {
        unmark(marked, uid);
    }
}

// Takes out the messages of those UIDs that the choice has.
fn remove_each(letters: &mut Letters, uids: &[u32], choice: Choice)
    requires { IsFound choice }
    ensures { letters.new ≡ without_each (passes choice.entry) uids.now letters.old }
{
    for uid in uids {
        if choice.has(*uid) {
            letters.remove(*uid);
        }
    }
}

// Sets \Deleted of the messages of these UIDs.
pub(crate) fn doom_each(messages: &mut Messages, uids: &[u32])
    ensures { messages.new ≡ doomed uids.now messages.old }
{
    for uid in uids {
        messages.doom(*uid);
    }
}

impl Messages {
    // None is there.
    pub(crate) fn new(alloc: Global) -> Messages
        ensures { result ≡ [] }
    {
        Messages {
            letters: Letters::new(alloc),
            marked: Vec::new(alloc),
        }
    }

    // How many are there.
    pub(crate) fn len(&self) -> usize
        ensures { result ≡ length self.now }
    {
        self.letters.len()
    }

    // How many of them are without \Seen.
    pub(crate) fn unseen(&self) -> usize
        ensures { result ≡ unseen_count self.now }
    {
        self.letters.unseen()
    }

    // How many of them have \Deleted.
    pub(crate) fn deleted(&self) -> usize
        ensures { result ≡ deleted_count self.now }
    {
        self.marked.len()
    }

    // The bytes of all texts.
    pub(crate) fn bytes(&self) -> u128
        ensures { result ≡ bytes_in_all self.now }
    {
        self.letters.bytes()
    }

    // How many of them have UIDs that the choice has.
    pub(crate) fn count(&self, choice: Choice) -> usize
        requires { IsFound choice }
        ensures { result ≡ count_of (passes choice.entry) self.now }
    {
        self.letters.count(choice)
    }

    // Flags and text of the message of a UID.
    pub(crate) fn get(&self, uid: u32) -> Option<(Flags, &Text)>
        ensures { option_map (λ p. message_of uid p.0 p.1.now) result ≡ message_with uid self.now }
    {
        self.letters.get(uid)
    }

    // The UIDs of those with \Deleted, which rise.
    pub(crate) fn marked(&self) -> &[u32]
        ensures { result.now ≡ marked_of self.now }
    {
        &self.marked
    }

    // The UIDs of all, which rise.
    pub(crate) fn uids(&self) -> Result<Vec<u32>, AllocError>
        ensures { IfOk result (λ uids. uids.items ≡ uids_of self.now) }
    {
        self.letters.uids(*self.marked.allocator())
    }

    // UID and text of each.
    pub(crate) fn texts(&self, alloc: Global) -> Result<Vec<(u32, Text)>, AllocError>
        ensures { IfOk result (λ texts. texts.items ≡ texts_of self.now) }
    {
        self.letters.texts(alloc)
    }

    // One more, whose UID is above all others, without flags. An error where memory is refused;
    // nothing is then changed.
    pub(crate) fn add(&mut self, uid: u32, text: Text) -> Result<(), AllocError>
        requires { All (λ u. u < uid) (uids_of self.old) }
        ensures ok { OnOk result (self.new
            ≡ self.old ++ record { uid = uid; flags = no_flags; text = text } ∷ []) }
        ensures err { OnErr result (self.new ≡ self.old) }
    {
        let more = self.letters.len() + 1 - self.marked.len();
        self.marked.reserve(more)?;
        self.letters.add(uid, text)
    }

    // Sets the flags of the message of a UID, where there is one.
    pub(crate) fn set_flags(&mut self, uid: u32, flags: Flags)
        ensures { self.new ≡ reflagged uid flags self.old }
    {
        // Read for its bound: the UIDs rise.
        let _len = self.letters.len();
        let Some(old) = self.letters.set_flags(uid, flags) else {
            return;
        };
        remark(&mut self.marked, uid, old.deleted, flags.deleted);
    }

    // Sets \Deleted of the message of a UID, where there is one.
    fn doom(&mut self, uid: u32)
        ensures { self.new ≡ flagged uid doom self.old }
    {
        // Read for its bound: the UIDs rise.
        let _len = self.letters.len();
        let Some((old, _)) = self.letters.get(uid) else {
            return;
        };
        self.set_flags(uid, DOOM.after(old));
    }

    // Takes out those with \Deleted that the choice has.
    pub(crate) fn remove(&mut self, choice: Choice)
        requires { IsFound choice }
        ensures { self.new ≡ remaining (passes choice.entry) self.old }
    {
        // Read for its bound: the UIDs rise.
        let _len = self.letters.len();
        remove_each(&mut self.letters, &self.marked, choice);
        self.letters.tidy();
        self.marked.retain(|uid| !choice.has(*uid));
    }
}
