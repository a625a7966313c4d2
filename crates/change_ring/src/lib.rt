//! A mailbox's changes, what an event logs, the last changes of a log, each under its number, and the
//! views that clients count. No message, no text and no client stands here.
#![tactic(auto)]

pub use change::{Change, Flags, NO_FLAGS};
pub use flag_op::FlagOp;
pub use ring::{ChangeRing, Lapped, MOST_CHANGES, Spent};
pub use view::View;

mod block;
mod cells;
mod change;
mod flag_op;
mod ring;
mod view;
