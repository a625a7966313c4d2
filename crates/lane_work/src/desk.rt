//! What a worker holds, and what all workers share. What they do with it stands in the modules
//! beside this one.

use crate::dispatch::Dispatch;
use crate::lanes::Held;
use budget::Budget;
use envelope::Directory;
use house_history::{Answer, Letter, Naming};
use shard_queue::{
    BothEnds, Ended, EntryQueue, ProducerPermit, ReceiverPermit, SenderPermit, ShardQueue,
};

/// What all workers share.
pub struct Intake<B: Naming> {
    /// Which mailbox a path names, and which shard keeps it.
    pub directory: Directory,
    /// The house's name in the replies, of 255 bytes at most.
    pub host: Vec<u8>,
    /// The most bytes of a message's data.
    pub max_message: usize,
    /// What the texts of messages are charged to.
    pub budget: Budget,
    /// The lane of each shard, as many as the directory has shards.
    pub lanes: Vec<ShardQueue<Letter<B>>>,
    /// For each worker, by its number, the shards that it closes. A worker that isn't there closes none.
    pub closings: Vec<Vec<Closing>>,
}

/// A worker closes a shard before one of its connections, by its number from 0: from then on it takes no
/// mail for the shard's mailboxes, and its permit on the shard's lane is over. One for a connection that
/// never comes, for a shard that it has closed, or for one that isn't there does nothing.
#[derive(Clone, Copy, Debug, PartialEq, Eq)]
pub struct Closing {
    /// Before which of its connections, by that one's number from 0.
    pub connection: usize,
    /// Which shard, by its number from 0.
    pub shard: u8,
}

/// A producer's permit on one lane.
pub enum LanePermit<T> {
    /// It may put copies there.
    Live(ProducerPermit<T>),
    /// It has ended, and puts nothing there any more.
    Over(Ended<T>),
}

// A worker's permits may end one by one.
impl<T: Drop> Held<EntryQueue<T>> for LanePermit<T> {
    ghost use Rattle.std.specs.Prelude.{◌≡◌};
    ghost use Rattle.lane_work.specs.declared.desk.LanePermit.TheVariants as permits;

    ghost held = { λ permit. permits.Live permit };

    fn hold(permit: ProducerPermit<T>) -> LanePermit<T>
        ensures { result ≡ permits.Live permit }
    {
        LanePermit::Live(permit)
    }
}

// A consumer's end all at once.
impl<T: Drop> Held<BothEnds<T>> for SenderPermit<T> {
    ghost use Rattle.std.specs.Prelude.{◌≡◌};

    ghost held = { λ permit. permit };

    fn hold(permit: SenderPermit<T>) -> SenderPermit<T>
        ensures { result ≡ permit }
    {
        permit
    }
}

/// What one worker holds.
pub struct Desk<B: Naming> {
    /// The worker's number, which is that of its permits and of the keys of its copies.
    pub number: u8,
    /// Its permit on each lane.
    pub permits: Vec<LanePermit<Letter<B>>>,
    /// Its end of its reply channel.
    pub receiver: ReceiverPermit<Answer<B>>,
    /// How many shards' ends it has heard there.
    pub ends: usize,
    /// What it sends its copies with.
    pub dispatch: Dispatch<B>,
}
