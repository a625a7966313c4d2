//! The reckoning as a whole: what the threads left is gathered, and all queues are closed with it. What
//! the mailboxes hold, and how it all agrees, stands above.

ghost use Rattle.std.specs.Prelude.{◌≡◌, IfErr, IfOk, map, vec_len};
ghost use Rattle.house_shared.specs.Opening.{AreBaskets};
ghost use Rattle.lane_work.specs.LanePermits.{AreConsumers, AreEndedHands};
ghost use Rattle.lane_work.specs.ChannelPermits.{AreReceivers, AreSenderEndedHands};
ghost use Rattle.reckoning.specs.Balancing.{IsClosing, IsGathered, IsBalanced, IsWhyNot};

use crate::close::close_all;
use crate::gather::{Fault, FromConsumers, FromWorkers, gather_consumers, gather_workers, graver};
use delivery_token::{Job, WorkerLog};
use house_history::{Answer, Letter, Naming};
use house_shared::Baskets;
use lane_work::{Consumed, Worked};
use shard_queue::{Closed, Ended, Entry, ReplyChannel, ReplyClosed, SenderEnded, ShardQueue};
use std::alloc::Global;

/// What was taken of each queue, to its end.
#[derive(Drop)]
pub struct Closes<B: Naming> {
    /// Of each shard's lane.
    pub lanes: Vec<Closed<Letter<B>>>,
    /// Of each producer's reply channel.
    pub channels: Vec<ReplyClosed<Answer<B>>>,
}

/// What the threads of a run left, by their numbers, and what passed between them.
#[derive(Drop)]
pub struct Books<B: Naming> {
    /// For each producer, what it said: of a worker the replies to each connection, of a session one
    /// text.
    pub replies: Vec<Vec<Vec<u8>>>,
    /// For each producer, the verdicts on its copies, in the order in which they were submitted.
    pub logs: Vec<WorkerLog>,
    /// For each consumer, the entries that it took, in order.
    pub taken: Vec<Vec<Entry<Job>>>,
    /// What was taken of each queue.
    pub closed: Closes<B>,
}

/// What the threads left, taken apart, and room for what comes of the queues.
pub struct Gathered<B: Naming> {
    /// What the producers left, by their numbers.
    pub workers: FromWorkers<B>,
    /// What the consumers left, by their shards.
    pub consumers: FromConsumers<B>,
    /// For what is left of all producers' permits on each lane.
    pub lists: Vec<Vec<Ended<Letter<B>>>>,
    /// For what is left of all consumers' permits on each channel.
    pub sender_lists: Vec<Vec<SenderEnded<Answer<B>>>>,
    /// For what is taken of each queue.
    pub closed: Closes<B>,
    /// The gravest fault of a producer or a consumer.
    pub worst: Option<Fault>,
}

/// Takes apart what all threads left, for each queue to be closed.
pub fn gather_all<B: Naming>(
    worked: Vec<Worked<B>>,
    consumed: Vec<Consumed<B>>,
    baskets: Baskets<B>,
) -> Gathered<B>
    requires baskets { AreBaskets (vec_len worked) (vec_len consumed) baskets }
    ensures { IsGathered worked.items consumed.items result }
{
    let Baskets {
        hands,
        lists,
        sender_hands,
        sender_lists,
        consumers: permits,
        receivers,
        replies,
        logs,
        taken,
        lanes,
        channels,
        spares,
    } = baskets;
    spares.spend();
    let mut workers = FromWorkers {
        hands,
        receivers,
        replies,
        logs,
    };
    let mut consumers = FromConsumers {
        permits,
        hands: sender_hands,
        taken,
    };
    let of_workers = gather_workers(worked, &mut workers);
    let of_consumers = gather_consumers(consumed, &mut consumers);
    let worst = graver(of_workers, of_consumers);
    Gathered {
        workers,
        consumers,
        lists,
        sender_lists,
        closed: Closes { lanes, channels },
        worst,
    }
}

/// What came of all queues, and the rest of what the threads left, by their numbers.
#[derive(Drop)]
pub struct Closings<B: Naming> {
    /// What was taken of each shard's lane; None only where some lane is torn.
    pub lanes: Option<Vec<Closed<Letter<B>>>>,
    /// What was taken of each producer's reply channel; None only where some channel is torn.
    pub channels: Option<Vec<ReplyClosed<Answer<B>>>>,
    /// For each producer, what it said.
    pub replies: Vec<Vec<Vec<u8>>>,
    /// For each producer, the verdicts on its copies.
    pub logs: Vec<WorkerLog>,
    /// For each consumer, the entries that it took, in order.
    pub taken: Vec<Vec<Entry<Job>>>,
    /// The gravest fault of a producer or a consumer.
    pub worst: Option<Fault>,
}

/// Closes each lane and each reply channel with what the producers and consumers left, one of each for
/// each of their own, and hands over the rest of what they left. All queues are spent, also where some
/// couldn't be closed.
pub fn close_queues<B: Naming>(
    alloc: Global,
    lanes: Vec<ShardQueue<Letter<B>>>,
    channels: Vec<ReplyChannel<Answer<B>>>,
    worked: Vec<Worked<B>>,
    consumed: Vec<Consumed<B>>,
    baskets: Baskets<B>,
) -> Closings<B>
    // There is a producer for each channel, and a consumer for each lane.
    requires counts { (vec_len worked ≡ vec_len channels) × (vec_len consumed ≡ vec_len lanes) }

    // Producer p left its ended permits, one on each lane, and its channel's receiver; consumer s its lane's permit and its ended senders.
    requires hands { AreEndedHands lanes.items 0 (map (λ w. w.ended.items) worked.items) }
    requires receivers { AreReceivers channels.items (map (λ w. w.receiver) worked.items) }
    requires consumers { AreConsumers lanes.items (map (λ c. c.permit) consumed.items) }
    requires senders { AreSenderEndedHands channels.items 0 (map (λ c.
        c.senders.items) consumed.items) }

    // Nothing lies in the baskets, which have room for all of that.
    requires baskets { AreBaskets (vec_len channels) (vec_len lanes) baskets }

    // What came of each queue, the rest of what the threads left, in their order, and the gravest of their faults.
    ensures { IsClosing lanes.items channels.items worked.items consumed.items result }
{
    let Gathered {
        workers,
        consumers,
        lists,
        sender_lists,
        closed,
        worst,
    } = gather_all(worked, consumed, baskets);
    let FromWorkers {
        hands,
        receivers,
        replies,
        logs,
    } = workers;
    let FromConsumers {
        permits,
        hands: sender_hands,
        taken,
    } = consumers;
    let lanes = close_all(alloc, lanes, hands, permits, lists, closed.lanes);
    let channels = close_all(
        alloc,
        channels,
        sender_hands,
        receivers,
        sender_lists,
        closed.channels,
    );
    Closings {
        lanes,
        channels,
        replies,
        logs,
        taken,
        worst,
    }
}

/// Closes each lane and each reply channel with what the producers and consumers left, one of each for
/// each of their own.
///
/// Errors: the gravest of the faults that the threads had, `Spawn` before `NoMemory` before `Torn`;
/// where there is none, `Torn` if some queue couldn't be closed. All that was given is spent then.
pub fn balance<B: Naming>(
    alloc: Global,
    lanes: Vec<ShardQueue<Letter<B>>>,
    channels: Vec<ReplyChannel<Answer<B>>>,
    worked: Vec<Worked<B>>,
    consumed: Vec<Consumed<B>>,
    baskets: Baskets<B>,
) -> Result<Books<B>, Fault>
    // There is a producer for each channel, and a consumer for each lane.
    requires counts { (vec_len worked ≡ vec_len channels) × (vec_len consumed ≡ vec_len lanes) }

    // Producer p left its ended permits, one on each lane, and its channel's receiver; consumer s its lane's permit and its ended senders.
    requires hands { AreEndedHands lanes.items 0 (map (λ w. w.ended.items) worked.items) }
    requires receivers { AreReceivers channels.items (map (λ w. w.receiver) worked.items) }
    requires consumers { AreConsumers lanes.items (map (λ c. c.permit) consumed.items) }
    requires senders { AreSenderEndedHands channels.items 0 (map (λ c.
        c.senders.items) consumed.items) }

    // Nothing lies in the baskets, which have room for all of that.
    requires baskets { AreBaskets (vec_len channels) (vec_len lanes) baskets }

    // Without an error no thread had a fault, each queue was closed, and the books have the rest of what they left, in their order.
    ensures balanced { IfOk result (λ books.
        IsBalanced lanes.items channels.items worked.items consumed.items books) }

    // An error is the gravest fault of a thread; or there was none, it is `Torn`, and some queue couldn't be closed.
    ensures fault { IfErr result (IsWhyNot lanes.items channels.items worked.items consumed.items) }
{
    let Closings {
        lanes,
        channels,
        replies,
        logs,
        taken,
        worst,
    } = close_queues(alloc, lanes, channels, worked, consumed, baskets);
    if let Some(fault) = worst {
        return Err(fault);
    }
    let Some(lanes) = lanes else {
        return Err(Fault::Torn);
    };
    let Some(channels) = channels else {
        return Err(Fault::Torn);
    };
    Ok(Books {
        replies,
        logs,
        taken,
        closed: Closes { lanes, channels },
    })
}
