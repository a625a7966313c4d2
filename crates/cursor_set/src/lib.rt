//! The cursors of a mailbox's clients, and the lines that show them changes (RFC 9051, 7.4 and
//! 7.5). Which changes a mailbox has is told in `change_ring`.
#![tactic(auto)]

pub use lines::{FLAGS_ROOM, put_flags};
pub use set::{CursorHandle, CursorSet, FeedFault, Stranger};

mod gap;
mod leaving;
mod lines;
mod set;
