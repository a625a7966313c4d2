//! Where the threads of a house wait, for one another or for a peer. The gate that each actor passes before its events, the courier that takes a
//! session's message to its mailbox, the bell that wakes a session, what one call does to a mailbox that is held, and the sockets of a server are
//! here. No thread is started here.
#![tactic(auto)]

mod bell;
mod calls;
mod courier;
mod listening;
mod parting;
mod shutdown_handle;
mod sync_point;
mod timely;
mod waiting;

pub use bell::{SessionBell, SessionParker, ring_each};
pub use calls::{alter, count, deliver, discard, enter, expunge, feed, leave, read, view};
pub use courier::{Courier, Lost};
pub use listening::Listening;
pub use parting::{Patience, farewell, prepare};
pub use shutdown_handle::ShutdownHandle;
pub use sync_point::{Actor, Gate, SyncPoint};
pub use timely::Timely;
pub use waiting::Pause;
