//! A bounded lane from several producers to one consumer: what it is by its history, a lane on one
//! thread, and the queue and the reply channel that threads share. What the items are for is told by
//! the crates above.
#![tactic(auto)]

mod calls;
mod carrier;
mod ends;
mod lane;
mod laws;
mod marks;
mod permits;
mod queue;
mod reply;
mod shared;

pub use carrier::Carrier;
pub use ends::BothEnds;
pub use lane::{Entry, Full, PlainLane, Taken};
pub use laws::{each_lane_is_a_merge, shared_lanes_merge};
pub use permits::{ClosedLane, ConsumersPermit, EndedPermit, Permit, SharedLane, Unclosed};
pub use queue::{Closed, ConsumerPermit, Ended, EntryQueue, NotAll, ProducerPermit, ShardQueue};
pub use reply::{
    ReceiverPermit, ReplyChannel, ReplyClosed, ReplyNotAll, SenderEnded, SenderPermit,
};
