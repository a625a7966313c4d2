//! One turn of a consumer over its stall: what stands first on its lane is taken and served. Whose the
//! stall is, and how often it turns, does not belong here.

ghost use Rattle.std.specs.Prelude.{◌≡◌, [], length, map};
ghost use Rattle.shard_queue.specs.Reply.{sent_on};
ghost use Rattle.shard_queue.specs.Permits.{IsConsumer, got};
ghost use Rattle.lane_work.specs.inner.Answering.{HaveAnswered};
ghost use Rattle.lane_work.specs.Permits.{AreSenders};
ghost use Rattle.shared_consumers.specs.inner.Turns.{Turned};

use house_history::{Letter, Naming};
use lane_work::{Delivery, Stall, serve_copy};
use shard_queue::{ShardQueue, Taken};
use std::sync::Wait;
use workers_sync::{Gate, SyncPoint};

/// What one turn met.
#[derive(Clone, Copy)]
pub(crate) enum Turn {
    /// A copy, and whether it was one of this house.
    Copy(bool),
    /// A producer's end.
    End,
    /// Nothing waited.
    Empty,
}

/// Takes what stands first on the lane. A copy is delivered and its producer is told.
pub(crate) fn take_turn<B: Naming, R: Wait, G: Gate>(
    rt: &R,
    sync_point: &mut SyncPoint<'_, G>,
    delivery: &Delivery<B>,
    lane: &ShardQueue<Letter<B>>,
    stall: &mut Stall<B>,
) -> Turn
    requires permit { IsConsumer lane.now stall.old.permit }
    requires senders { AreSenders delivery.now.channels.items stall.old.shard
        stall.old.senders.items }
    requires answered { HaveAnswered (length delivery.now.mailboxes.items)
        (length delivery.now.channels.items) stall.old.shard
        (got stall.old.permit) [] (map sent_on stall.old.senders.items) }
    ensures shard { stall.new.shard ≡ stall.old.shard }
    ensures permit { IsConsumer lane.now stall.new.permit }
    ensures senders { AreSenders delivery.now.channels.items stall.old.shard
        stall.new.senders.items }
    ensures answered { HaveAnswered (length delivery.now.mailboxes.items)
        (length delivery.now.channels.items) stall.old.shard
        (got stall.new.permit) [] (map sent_on stall.new.senders.items) }
    ensures turned { Turned (length delivery.now.mailboxes.items)
        (length delivery.now.channels.items)
        lane.now stall.old.permit result stall.new.permit }
{
    sync_point.pass();
    match lane.take_as(rt, &mut stall.permit) {
        Taken::Item(producer, letter) => {
            let shard = stall.shard;
            let senders = &mut stall.senders;
            Turn::Copy(serve_copy(rt, sync_point, delivery, shard, senders, producer, letter))
        }
        Taken::End(_) => Turn::End,
        Taken::Empty => Turn::Empty,
    }
}
