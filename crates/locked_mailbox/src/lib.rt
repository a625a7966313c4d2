//! A mailbox under its lock, beside the right to say what happens there: each call is one event of the mailbox and, where it may log
//! something, one of the history.
#![tactic(auto)]

mod calls;
mod door;
mod locked;

pub use door::{under, under_with};
pub use locked::LockedMailbox;
