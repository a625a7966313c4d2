//! What the threads share, and what is dealt to each of them. How it is made stands in `opening`.

use crossbeam_utils::sync::Unparker;
use house_history::{Answer, Letter, Naming};
use lane_work::{Consumed, Delivery, Desk, Intake, Stall, Worked};
use settings::Step;
use shard_queue::{Ended, SenderEnded};
use std::alloc::Global;

/// What all threads share. It owns what it holds: a closure that captures a reference to a struct with
/// borrows in it loses what is proved of its result.
pub struct HouseShared<B: Naming> {
    /// What the producers share.
    pub intake: Intake<B>,
    /// What the consumers share.
    pub delivery: Delivery<B>,
    /// The bell of each shard's consumer, which the producers ring.
    pub bells: Vec<Unparker>,
    /// So many turns a session has at most where it awaits changes.
    pub turns: u64,
    /// Where its threads take memory from.
    pub alloc: Global,
}

/// One session: the number of its user among the users of the directory, from 0, and what its client
/// does.
#[derive(Drop)]
pub struct Guest {
    /// The number of its user among the users of the directory, from 0.
    pub user: u8,
    /// What its client does, in order.
    pub steps: Vec<Step>,
}

/// A producer's desk, and room for what is left of its permits.
pub struct Post<B: Naming> {
    /// What the producer holds.
    pub desk: Desk<B>,
    /// Room for what is left of its permit on each lane.
    pub room: Vec<Ended<Letter<B>>>,
}

/// A consumer's stall, and room for what is left of its senders.
pub struct Stand<B: Naming> {
    /// What the consumer holds.
    pub stall: Stall<B>,
    /// Room for what is left of its permit on each reply channel.
    pub room: Vec<SenderEnded<Answer<B>>>,
}

/// A stand for each shard and a post for each producer, first the workers' and then the sessions', and
/// empty lists with room for what comes of them: nothing grows once a thread runs.
pub struct Crew<B: Naming> {
    /// The stand of each shard, at its number.
    pub stands: Vec<Stand<B>>,
    /// The post of each producer, at its number.
    pub posts: Vec<Post<B>>,
    /// For what each consumer leaves.
    pub consumed: Vec<Consumed<B>>,
    /// For what each producer leaves.
    pub worked: Vec<Worked<B>>,
    /// For posts that are never handed to a thread.
    pub unmanned: Vec<Post<B>>,
}
