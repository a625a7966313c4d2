//! What the threads of a running house left is gathered, each queue is closed, and the mailboxes are
//! taken out of their locks: only here is it known what lay between the threads. Nothing runs any more;
//! what a run is told, and what it reports, stands above.
#![tactic(auto)]

mod abandoning;
mod balancing;
mod close;
mod gather;
mod learning;
mod remains;
mod shelves;

pub use abandoning::abandon;
pub use balancing::{Books, Closes, Closings, Gathered, balance, close_queues, gather_all};
pub use close::close_all;
pub use gather::{Fault, FromConsumers, FromWorkers};
pub use learning::learn_all;
pub use remains::{Remains, remains_of};
pub use shelves::{Shelves, are_recorded, take_out, unlock_all, unlock_into};
