//! A worker closes shards before its connections: it marks them in its own directory, and its permits
//! there are over. What is said of a closed shard is the conversation's, and stands below.

ghost use Rattle.std.specs.Prelude.{◌≡◌, ◌<◌, ◌||◌, ◌∷◌, [], ℕ, true, false, length, slice_index_or};
ghost use Rattle.envelope.specs.Names.{is_shut};
ghost use Rattle.lane_work.specs.Permits.{AreInForce, IsPermit, is_over, overs, permit_number, put_by};
ghost use Rattle.lane_work.specs.inner.Closing.{KeepsDesk, Marks, closings_at};

use crate::bells::Notifier;
use crate::desk::{Closing, Desk, Intake, LanePermit};
use crate::ending::end_one;
use crate::producer::Context;
use envelope::Directory;
use house_history::{Letter, Naming};
use shard_queue::ShardQueue;
use std::sync::Wait;
use workers_sync::{Gate, SyncPoint};

// What the worker of this number closes.
fn closings_of<B: Naming>(intake: &Intake<B>, number: u8) -> &[Closing]
    ensures { result.now ≡ closings_at intake.now number }
{
    match intake.closings.get(usize::from(number)) {
        Some(closings) => closings.as_slice(),
        None => &[],
    }
}

// Marks a closing's shard, where it is for this connection and the shard is there.
fn mark_one(closing: &Closing, connection: usize, directory: &mut Directory)
    requires { length directory.old.shut ≡ directory.old.shards }
    ensures { Marks connection (closing.now ∷ []) directory.old directory.new }
{
    if closing.connection != connection {
        return;
    }
    if closing.shard >= directory.shards() {
        return;
    }
    directory.shut(closing.shard);
}

// Marks the shards that are closed before this connection.
fn mark_due(closings: &[Closing], connection: usize, directory: &mut Directory)
    requires { length directory.old.shut ≡ directory.old.shards }
    ensures { Marks connection closings.now directory.old directory.new }
{
    for closing in closings {
        mark_one(closing, connection, directory);
    }
}

// A permit as it is left: where the shard is shut it is over, and whoever is to take its end is notified.
fn left_at<B: Naming, R: Wait, G: Gate, S: Notifier>(
    rt: &R,
    sync_point: &mut SyncPoint<'_, G>,
    lane: &ShardQueue<Letter<B>>,
    notifier: &S,
    shard: usize,
    permit: LanePermit<Letter<B>>,
    shut: bool,
) -> LanePermit<Letter<B>>
    requires { IsPermit lane.now permit }
    ensures permit { IsPermit lane.now result × (permit_number result ≡ permit_number permit) }
    ensures put { put_by result ≡ put_by permit }
    ensures over { is_over result ≡ (shut || is_over permit) }
{
    if !shut {
        return permit;
    }
    match permit {
        LanePermit::Over(ended) => LanePermit::Over(ended),
        LanePermit::Live(live) => {
            let ended = end_one(rt, sync_point, lane, live);
            notifier.notify(rt, shard);
            LanePermit::Over(ended)
        }
    }
}

// Ends the permits that aren't over on shards that are shut. Each permit is taken from the front and put
// back behind the others, so that they stand as before when all have gone round.
fn end_where_shut<B: Naming, R: Wait, G: Gate, S: Notifier>(
    context: &Context<'_, B, R, S>,
    sync_point: &mut SyncPoint<'_, G>,
    desk: &mut Desk<B>,
    directory: &Directory,
)
    requires { AreInForce directory.now context.now.intake.now.lanes.items desk.old.number
        desk.old.permits.items }
    ensures permits { AreInForce directory.now context.now.intake.now.lanes.items desk.old.number
        desk.new.permits.items }
    ensures kept { KeepsDesk desk.old desk.new }
    ensures over { (lane : ℕ) → lane < length context.now.intake.now.lanes.items
        → is_shut directory.now lane ≡ true →
        slice_index_or (overs desk.new.permits.items) lane false ≡ true }
{
    for lane in 0..context.intake.lanes.len() {
        let permit = desk.permits.remove(0);
        let shut = directory.is_shut(lane);
        let at = &context.intake.lanes[lane];
        let left = left_at(
            context.rt,
            sync_point,
            at,
            context.notifier,
            lane,
            permit,
            shut,
        );
        desk.permits.push_reserved(left);
    }
}

/// Closes the shards that the desk's worker is to close before this connection: they are marked in its
/// own directory, and its permits there are over. Where a lane is full it tries again until there is room
/// for the end.
pub(crate) fn close_due<B: Naming, R: Wait, G: Gate, S: Notifier>(
    context: &Context<'_, B, R, S>,
    sync_point: &mut SyncPoint<'_, G>,
    desk: &mut Desk<B>,
    directory: &mut Directory,
    connection: usize,
)
    // The desk has its own permit on each lane, over only where `directory` marks the shard as shut.
    requires permits { AreInForce directory.old context.now.intake.now.lanes.items desk.old.number
        desk.old.permits.items }
    requires lanes { directory.old.shards ≡ length context.now.intake.now.lanes.items }
    requires marks { length directory.old.shut ≡ directory.old.shards }

    // The same holds after, with the new marks; nothing is put or heard.
    ensures permits { AreInForce directory.new context.now.intake.now.lanes.items desk.old.number
        desk.new.permits.items }
    ensures kept { KeepsDesk desk.old desk.new }

    // Just the shards are marked in addition that this worker closes before this connection, and on each marked one the permit is over.
    ensures marks { Marks connection (closings_at context.now.intake.now desk.old.number)
        directory.old
        directory.new }
    ensures over { (lane : ℕ) → lane < length context.now.intake.now.lanes.items
        → is_shut directory.new lane ≡ true →
        slice_index_or (overs desk.new.permits.items) lane false ≡ true }
{
    mark_due(
        closings_of(context.intake, desk.number),
        connection,
        directory,
    );
    end_where_shut(context, sync_point, desk, directory);
}
