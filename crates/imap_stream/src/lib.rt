//! One IMAP client over a stream: its visit, whose answers are sent as they are made, and the client slot where
//! it is served by one thread, which waits for its bytes, and for a bell while its session idles. What is answered stands in
//! `imap_session`, what a call does to a mailbox in `session_thread`; sockets stand above.
#![tactic(auto)]

mod client_slot;
mod rows;
mod turns;
mod visit;

pub use client_slot::{ClientSlot, Parting, Wakes, Woken};
pub use rows::Rows;
pub use visit::{Visit, VisitFault};
