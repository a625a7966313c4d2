//! Actors for whom no thread could be made: what of theirs other threads wait for is ended. Nothing is
//! started here, and no life is led.

ghost use Rattle.std.specs.Prelude.{◌≡◌, ◌≤◌, [], length, map, vec_capacity};
ghost use Rattle.delivery_token.specs.declared.Job.{Job};
ghost use Rattle.shard_queue.specs.Permits.{ShardQueue};
ghost use Rattle.shard_queue.specs.Reply.{sent_on};
ghost use Rattle.shard_queue.specs.Permits.{IsConsumer, got};
ghost use Rattle.lane_work.specs.Consuming.{IsConsumed};
ghost use Rattle.lane_work.specs.Permits.{AreEnded, ArePermits, AreSenders};
ghost use Rattle.house_shared.specs.Left.{IsPostLeft};

use delivery_token::WorkerLog;
use house_history::Naming;
use house_shared::{Post, Stand};
use lane_work::{
    Consumed, Delivery, Desk, Fate, Intake, Notifier, Stall, Worked, end_all, end_permit,
    end_senders,
};
use std::alloc::Global;
use std::sync::Wait;
use workers_sync::{Gate, SyncPoint};

/// A producer that has no thread: it ends its permit on each lane, and hears nothing. To wait for the ends
/// of its channel would be to wait for ever: they come when each producer's permits have ended, and this
/// thread ends those of the producers behind it.
pub(crate) fn stand_down<B: Naming, R: Wait, G: Gate, S: Notifier>(
    rt: &R,
    alloc: Global,
    sync_point: &mut SyncPoint<'_, G>,
    intake: &Intake<B>,
    notifier: &S,
    post: Post<B>,
) -> Worked<B>
    requires permits { ArePermits intake.now.lanes.items post.desk.number post.desk.permits.items }
    requires room { (post.room.items ≡ [])
        × (length intake.now.lanes.items ≤ vec_capacity post.room) }
    ensures permits { AreEnded intake.now.lanes.items post.desk.number result.ended.items }
    ensures receiver { result.receiver ≡ post.desk.receiver }
    ensures log { result.log.seat ≡ post.desk.number }
    ensures fate { result.fate ≡ Fate.NotBegun }
{
    let Post { desk, room } = post;
    let Desk {
        number,
        permits,
        receiver,
        ends: _,
        dispatch,
    } = desk;
    let log = WorkerLog::new(alloc, number);
    let ended = end_all(rt, sync_point, intake, notifier, number, permits, room);
    Worked {
        ended,
        receiver,
        replies: Vec::new(alloc),
        log,
        dispatch,
        fate: Fate::NotBegun,
    }
}

/// A consumer that has no thread: it takes nothing, and ends its sender on each channel.
pub(crate) fn step_aside<B: Naming, R: Wait, G: Gate>(
    rt: &R,
    alloc: Global,
    sync_point: &mut SyncPoint<'_, G>,
    delivery: &Delivery<B>,
    stand: Stand<B>,
) -> Consumed<B>
    requires senders { AreSenders delivery.now.channels.items stand.stall.shard
        stand.stall.senders.items }
    requires room { (stand.room.items ≡ [])
        × (length delivery.now.channels.items ≤ vec_capacity stand.room) }
    requires fresh { got stand.stall.permit ≡ [] }
    ensures { (lane : ShardQueue Job) → IsConsumer lane stand.stall.permit →
        IsConsumed lane delivery.now stand.stall.shard
        (map sent_on stand.stall.senders.items) result }
{
    let Stand { stall, room } = stand;
    let Stall {
        shard,
        permit,
        senders,
        bell: _,
    } = stall;
    let senders = end_senders(rt, sync_point, &delivery.channels, shard, senders, room);
    Consumed {
        permit,
        senders,
        taken: Vec::new(alloc),
        kept: false,
        torn: false,
    }
}

/// A producer that isn't to begin: it ends its permits on the first lanes, whose consumers run, and keeps
/// the others.
pub(crate) fn end_first<B: Naming, R: Wait, G: Gate, S: Notifier>(
    rt: &R,
    sync_point: &mut SyncPoint<'_, G>,
    intake: &Intake<B>,
    notifier: &S,
    post: Post<B>,
    manned: usize,
) -> Post<B>
    requires permits { ArePermits intake.now.lanes.items post.desk.number post.desk.permits.items }
    requires room { (post.room.items ≡ [])
        × (length intake.now.lanes.items ≤ vec_capacity post.room) }
    requires manned { manned ≤ length intake.now.lanes.items }
    ensures { IsPostLeft (length intake.now.lanes.items) result }
{
    let Post { desk, mut room } = post;
    let Desk {
        number,
        mut permits,
        receiver,
        ends,
        dispatch,
    } = desk;
    for lane in 0..manned {
        let permit = permits.remove(0);
        room.push_reserved(end_permit(rt, sync_point, &intake.lanes[lane], permit));
        notifier.notify(rt, lane);
    }
    Post {
        desk: Desk {
            number,
            permits,
            receiver,
            ends,
            dispatch,
        },
        room,
    }
}
