//! The tests, each module by what it is of, and what several of them share.

mod answers;
mod couriers;
mod houses;
mod imap;
mod lmtp;
mod permits;
mod sessions;
mod stream_couriers;
mod thread_couriers;
mod wires;
