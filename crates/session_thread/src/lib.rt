//! A session of the running house: its thread's life, over mailboxes behind locks, which consumers and
//! other sessions share. What a call does to a mailbox that is held stands in `workers_sync`, what a
//! client is answered in `imap_session`; who starts the threads stands above.
#![tactic(auto)]

mod laws;
mod life;
mod locked;
mod locked_store;
mod speaking;
mod turns;

pub use laws::shown_since_select;
pub use life::{depart, live, takes_more};
pub use locked_store::LockedStore;
pub use speaking::answer;
pub use turns::idle_turn;
