//! The house on one thread: connections and sessions over the delivery core, and what is printed of both. One call is one
//! event; nothing here knows of scripts, threads, sockets or locks.
//! The delivery core as the store of one session is here too: each call is one event of that session in the world.
#![tactic(auto)]

mod core_store;
mod event;
mod house;
mod idling;
mod make;
mod peer;
mod printing;
mod sessions;
mod settle;
mod tail;

pub use core_store::CoreStore;
pub use event::{Event, HouseFault};
pub use house::House;
