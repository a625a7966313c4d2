//! What the history is made of. No value of these is made.

use change_ring::FlagOp;
use delivery_token::{Job, Verdict};
use std::collections::LinkedList;

/// What a client did to a mailbox. What that logs the log before it says.
pub enum Step {
    /// The message of a UID was read; \Seen was to be set, or not.
    Read(u32, bool),
    /// The flags of the message of a UID were changed.
    Alter(u32, FlagOp),
    /// The messages with \Deleted were removed, of these UIDs where some are named.
    Expunge(Option<LinkedList<u32>>),
    /// A client left; those with \Deleted were to be removed, or not.
    Leave(bool),
    /// The messages of these UIDs were removed, whatever their flags.
    Discard(LinkedList<u32>),
}

/// What happened. The last number of each is the copy's ticket.
pub enum Event {
    /// Its seat put a copy on its way.
    Sent(Job, u64),
    /// Whoever had it gave it up: nobody has it any more.
    Withdrawn(u64),
    /// There was a verdict on the copy, under its mailbox's lock.
    Judged(Job, Verdict, u64),
    /// A client did this, under the mailbox's lock.
    Changed(u8, Step),
}
