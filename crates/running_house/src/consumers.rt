//! The consumers' threads: started in order, and joined. What a consumer does stands in `lane_work`.

ghost use Rattle.std.specs.Prelude.{ℕ, ◌≡◌, ◌≤◌, ◌<◌, [], length, vec_len, vec_capacity};
ghost use Rattle.std.specs.Mem.{manually_drop_value};
ghost use Rattle.house_shared.specs.Crew.{AllAt, IsStand};
ghost use Rattle.house_shared.specs.Left.{IsServiceOf};
ghost use Rattle.running_house.specs.inner.Crew.{IsKept};

use crate::aside::step_aside;
use crate::common::Common;
use crate::parcels::{mark, packed};
use house_history::Naming;
use house_shared::{HouseShared, Stand};
use lane_work::{Consumed, consume};
use std::mem::ManuallyDrop;
use std::sync::Wait;
use std::sync::atomic::Ordering;
use std::thread;
use std::thread::{Promise, Threads};
use workers_sync::{Actor, Gate, SyncPoint};

/// What the thread of this shard's consumer is to return: what a consumer's life there leaves.
#[derive_where(Clone, Copy)]
pub(crate) struct Serves<'a, B: Naming> {
    /// What all threads share.
    pub shared: &'a HouseShared<B>,
    /// The number of its shard, from 0.
    pub shard: u8,
}

impl<'a, B: Naming> Promise<ManuallyDrop<Consumed<B>>> for Serves<'a, B> {
    ghost use Rattle.std.specs.Mem.{manually_drop_value};
    ghost use Rattle.house_shared.specs.Left.{IsServiceOf};

    ghost kept_by = { λ p r. IsServiceOf p.shared.now p.shard (manually_drop_value r) };
}

/// A consumer's thread, or what came of its consumer where there is none.
#[derive(Drop)]
pub(crate) enum Kept<'a, B: Naming> {
    There(thread::PromisedHandle<ManuallyDrop<Consumed<B>>, Serves<'a, B>>),
    Here(ManuallyDrop<Consumed<B>>),
}

// A consumer's life, in a thread of its own; where no thread is to be had it steps aside.
fn consume_there<B: Naming, R: Wait, G: Gate>(
    rt: &R,
    common: Common<'_, B, G>,
    shard: u8,
    stand: ManuallyDrop<Stand<B>>,
) -> ManuallyDrop<Consumed<B>>
    requires shard { shard < length common.shared.now.intake.lanes.items }
    requires stand { IsStand common.shared.now shard (manually_drop_value stand) }
    ensures { IsServiceOf common.entry.shared.now shard (manually_drop_value result) }
{
    let shared = common.shared;
    let position = usize::from(shard);
    let stand = ManuallyDrop::into_inner(stand);
    let mut sync_point = SyncPoint::new(common.gate, Actor::Consumer(shard));
    if common.manned.shards.load(Ordering::SeqCst) <= u64::from(shard) {
        let aside = step_aside(rt, shared.alloc, &mut sync_point, &shared.delivery, stand);
        return packed(aside);
    }
    let Stand { stall, room } = stand;
    packed(consume(
        rt,
        &mut sync_point,
        &shared.delivery,
        &shared.intake.lanes[position],
        stall,
        room,
        Vec::new(shared.alloc),
        shared.delivery.channels.len(),
    ))
}

// Starts a consumer's thread. Where none can be made, no consumer from here on begins, and its senders
// are ended here.
fn start_consumer<'s, E, B: Naming + Send + Sync, R: Threads + Wait + Sync, G: Gate + Sync>(
    scope: &thread::Scope<'s, E>,
    rt: &'s R,
    common: Common<'s, B, G>,
    shard: u8,
    stand: Stand<B>,
) -> Kept<'s, B>
    requires shard { shard < length common.shared.now.intake.lanes.items }
    requires stand { IsStand common.shared.now shard stand }
    ensures { IsKept common.entry.shared.now shard result }
{
    let parcel = packed(stand);
    let promise = Serves {
        shared: common.shared,
        shard,
    };
    match scope.spawn_with(promise, move || consume_there(rt, common, shard, parcel)) {
        Ok(child) => Kept::There(child),
        Err(refused) => {
            mark(&common.manned.shards, shard);
            Kept::Here((refused.value)())
        }
    }
}

// The first that has no thread, after one more was tried.
fn first_without(first: usize, position: usize, is_there: bool) -> usize
    ensures { result ≤ first }
{
    if !is_there && position < first {
        position
    } else {
        first
    }
}

/// Starts a thread for each consumer, in their order, and says how many have one before the first that
/// has none.
pub(crate) fn start_consumers<
    's,
    E,
    B: Naming + Send + Sync,
    R: Threads + Wait + Sync,
    G: Gate + Sync,
>(
    scope: &thread::Scope<'s, E>,
    rt: &'s R,
    common: Common<'s, B, G>,
    mut stands: Vec<Stand<B>>,
    mut kept: Vec<Kept<'s, B>>,
) -> (Vec<Kept<'s, B>>, usize)
    requires few { length common.shared.now.intake.lanes.items < 256 }
    requires stands { AllAt (IsStand common.shared.now) 0 stands.items
        × (vec_len stands ≡ length common.shared.now.intake.lanes.items) }
    requires room { (kept.items ≡ [])
        × (length common.shared.now.intake.lanes.items ≤ vec_capacity kept) }
    ensures kept { AllAt (IsKept common.entry.shared.now) 0 result.0.items }
    ensures count { vec_len result.0 ≡ length common.entry.shared.now.intake.lanes.items }
    ensures first { result.1 ≤ length common.entry.shared.now.intake.lanes.items }
{
    let mut first = common.shared.intake.lanes.len();
    for position in 0..common.shared.intake.lanes.len() {
        let stand = stands.remove(0);
        let one = start_consumer(scope, rt, common, position as u8, stand);
        let is_there = matches!(one, Kept::There(_));
        first = first_without(first, position, is_there);
        kept.push_reserved(one);
    }
    stands.destroy_empty();
    (kept, first)
}

fn join_consumer<B: Naming, R: Threads>(
    rt: &R,
    shared: &HouseShared<B>,
    kept: Kept<'_, B>,
) -> Consumed<B>
    ensures { (n : ℕ) → IsKept shared.now n kept.entry → IsServiceOf shared.now n result }
{
    match kept {
        Kept::There(child) => ManuallyDrop::into_inner(child.join(rt)),
        Kept::Here(consumed) => ManuallyDrop::into_inner(consumed),
    }
}

/// Waits for each consumer's end.
pub(crate) fn join_consumers<B: Naming, R: Threads>(
    rt: &R,
    shared: &HouseShared<B>,
    kept: Vec<Kept<'_, B>>,
    mut consumed: Vec<Consumed<B>>,
) -> Vec<Consumed<B>>
    requires kept { AllAt (IsKept shared.now) 0 kept.items }
    requires room { (consumed.items ≡ []) × (vec_len kept ≤ vec_capacity consumed) }
    ensures consumed { AllAt (IsServiceOf shared.now) 0 result.items }
    ensures count { vec_len result ≡ vec_len kept.entry }
{
    for one in kept {
        consumed.push_reserved(join_consumer(rt, shared, one));
    }
    consumed
}
