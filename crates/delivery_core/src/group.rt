//! A shard and a seat, as the delivery side keeps them: what belongs to one of them stands together.
//! What they do is told in `steps`.

use delivery_token::{CopyKey, Job, Noted, WorkerLog};
use shard_queue::PlainLane;
use world::hand::Hand;

/// What a shard has.
#[derive(Drop)]
pub struct Shard {
    /// The copies and the ends that wait for its consumer. Each seat may put into it.
    pub lane: PlainLane<Job>,
    /// What its consumer has in its hand.
    pub hand: Hand,
}

/// What a seat has.
#[derive(Drop)]
pub struct Seat {
    /// The verdicts that wait for it. Each shard's consumer may put into it.
    pub replies: PlainLane<Noted>,
    /// The verdicts that it has heard, in order.
    pub heard: WorkerLog,
    /// The least key that it may use next.
    pub next: CopyKey,
}
