//! A shard's consumer behind a lock, whose steps are made by whoever has put a copy on its lane. What
//! becomes of one copy stands in `lane_work`; no thread is started here.
#![tactic(auto)]

mod consumer_set;
mod helping;
mod shared_consumer;
mod turn;

pub use consumer_set::{ConsumerSet, Dismissed, dismiss_all, make_all, stand_down};
pub use helping::{SharedConsumers, Unhindered, copies_at_once};
pub use shared_consumer::{LaneGroup, SharedConsumer};
