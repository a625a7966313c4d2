//! The producers' threads, first the workers' and then the sessions': started in order, and joined. What a worker does stands in
//! `lane_work`, what a session does in `sessions`.

ghost use Rattle.std.specs.Prelude.{ℕ, ◌≡◌, ◌≤◌, ◌<◌, ◌+◌, [], length, vec_len, vec_capacity};
ghost use Rattle.std.specs.Mem.{manually_drop_value};
ghost use Rattle.house_shared.specs.Crew.{AllAt, AreGuests, IsHouse, IsPost};
ghost use Rattle.running_house.specs.Produced.{IsProduceOf};
ghost use Rattle.running_house.specs.inner.Crew.{IsSpawned};

use crate::aside::stand_down;
use crate::common::Common;
use crate::parcels::{mark, packed};
use crate::sessions::attend;
use house_history::Naming;
use house_shared::{Guest, HouseShared, Post};
use lane_work::{Context, Worked, work};
use std::mem::ManuallyDrop;
use std::sync::Wait;
use std::sync::atomic::Ordering;
use std::thread;
use std::thread::{Promise, Threads};
use workers_sync::{Actor, Gate, SyncPoint};

/// What the thread of this producer is to return: what a worker's life with its connections leaves, or, behind the workers, what a
/// session's life with its steps does.
#[derive_where(Clone, Copy)]
pub(crate) struct Produces<'a, B: Naming> {
    /// What all threads share.
    pub shared: &'a HouseShared<B>,
    /// For each worker, for each of its connections, the bytes that come.
    pub plans: &'a [Vec<Vec<u8>>],
    /// The sessions, whose numbers follow the workers'.
    pub guests: &'a [Guest],
    /// The producer's number, from 0: first the workers', then the sessions'.
    pub number: u8,
}

impl<'a, B: Naming> Promise<ManuallyDrop<Worked<B>>> for Produces<'a, B> {
    ghost use Rattle.std.specs.Mem.{manually_drop_value};
    ghost use Rattle.running_house.specs.Produced.{IsProduceOf};

    ghost kept_by = { λ p r. IsProduceOf p.shared.now p.plans.now p.guests.now p.number (manually_drop_value r) };
}

/// A producer's thread, or what came of it where there is none.
#[derive(Drop)]
pub(crate) enum Spawned<'a, B: Naming> {
    There(thread::PromisedHandle<ManuallyDrop<Worked<B>>, Produces<'a, B>>),
    Here(ManuallyDrop<Worked<B>>),
}

/// Who a producer is at the gate, behind so many workers.
pub(crate) fn actor_of(workers: usize, number: u8) -> Actor {
    let position = usize::from(number);
    if position < workers {
        Actor::Worker(number)
    } else {
        Actor::Session((position - workers) as u8)
    }
}

// A worker's life.
fn work_at<B: Naming, R: Wait, G: Gate>(
    rt: &R,
    common: Common<'_, B, G>,
    number: u8,
    post: Post<B>,
) -> Worked<B>
    requires house { IsHouse common.shared.now
        (length common.plans.now + length common.guests.now) }
    requires number { number < length common.plans.now }
    requires post { IsPost common.shared.now number post }
    ensures { IsProduceOf common.entry.shared.now common.entry.plans.now
        common.entry.guests.now number result }
{
    let shared = common.shared;
    let position = usize::from(number);
    let context = Context {
        rt,
        alloc: shared.alloc,
        intake: &shared.intake,
        notifier: &shared.bells,
        channel: &shared.delivery.channels[position],
    };
    let sync_point = SyncPoint::new(common.gate, Actor::Worker(number));
    let Post { desk, room } = post;
    let plan = common.plans[position].as_slice();
    work(&context, sync_point, desk, room, plan)
}

// A session's life.
fn attend_at<B: Naming, R: Wait, G: Gate>(
    rt: &R,
    common: Common<'_, B, G>,
    number: u8,
    post: Post<B>,
) -> Worked<B>
    requires house { IsHouse common.shared.now
        (length common.plans.now + length common.guests.now) }
    requires guests { AreGuests common.shared.now common.guests.now }
    requires behind { length common.plans.now ≤ number }
    requires number { number < length common.plans.now + length common.guests.now }
    requires post { IsPost common.shared.now number post }
    ensures { IsProduceOf common.entry.shared.now common.entry.plans.now
        common.entry.guests.now number result }
{
    let session = usize::from(number) - common.plans.len();
    let channel = &common.shared.delivery.channels[usize::from(number)];
    attend(
        rt,
        common.shared,
        common.gate,
        channel,
        &common.guests[session],
        session as u8,
        post,
    )
}

// A producer's life, in a thread of its own; where no thread is to be had it stands down.
fn produce_there<B: Naming, R: Wait, G: Gate>(
    rt: &R,
    common: Common<'_, B, G>,
    number: u8,
    post: ManuallyDrop<Post<B>>,
) -> ManuallyDrop<Worked<B>>
    requires house { IsHouse common.shared.now
        (length common.plans.now + length common.guests.now) }
    requires guests { AreGuests common.shared.now common.guests.now }
    requires number { number < length common.plans.now + length common.guests.now }
    requires post { IsPost common.shared.now number (manually_drop_value post) }
    ensures { IsProduceOf common.entry.shared.now common.entry.plans.now
        common.entry.guests.now number (manually_drop_value result) }
{
    let post = ManuallyDrop::into_inner(post);
    if common.manned.producers.load(Ordering::SeqCst) <= u64::from(number) {
        let shared = common.shared;
        let mut sync_point = SyncPoint::new(common.gate, actor_of(common.plans.len(), number));
        let (intake, bells) = (&shared.intake, &shared.bells);
        return packed(stand_down(rt, shared.alloc, &mut sync_point, intake, bells, post));
    }
    if usize::from(number) < common.plans.len() {
        packed(work_at(rt, common, number, post))
    } else {
        packed(attend_at(rt, common, number, post))
    }
}

// Starts a producer's thread. Where none can be made, no producer from here on begins, and its permits are
// ended here.
fn start_producer<'s, E, B: Naming + Send + Sync, R: Threads + Wait + Sync, G: Gate + Sync>(
    scope: &thread::Scope<'s, E>,
    rt: &'s R,
    common: Common<'s, B, G>,
    number: u8,
    post: Post<B>,
) -> Spawned<'s, B>
    requires house { IsHouse common.shared.now
        (length common.plans.now + length common.guests.now) }
    requires guests { AreGuests common.shared.now common.guests.now }
    requires number { number < length common.plans.now + length common.guests.now }
    requires post { IsPost common.shared.now number post }
    ensures { IsSpawned common.entry.shared.now common.entry.plans.now
        common.entry.guests.now number result }
{
    let parcel = packed(post);
    let promise = Produces {
        shared: common.shared,
        plans: common.plans,
        guests: common.guests,
        number,
    };
    match scope.spawn_with(promise, move || produce_there(rt, common, number, parcel)) {
        Ok(child) => Spawned::There(child),
        Err(refused) => {
            mark(&common.manned.producers, number);
            Spawned::Here((refused.value)())
        }
    }
}

/// Starts a thread for each producer, in their order, and says whether all could be made.
pub(crate) fn start_producers<
    's,
    E,
    B: Naming + Send + Sync,
    R: Threads + Wait + Sync,
    G: Gate + Sync,
>(
    scope: &thread::Scope<'s, E>,
    rt: &'s R,
    common: Common<'s, B, G>,
    mut posts: Vec<Post<B>>,
    mut spawned: Vec<Spawned<'s, B>>,
) -> (Vec<Spawned<'s, B>>, bool)
    requires house { IsHouse common.shared.now
        (length common.plans.now + length common.guests.now) }
    requires guests { AreGuests common.shared.now common.guests.now }
    requires posts { AllAt (IsPost common.shared.now) 0 posts.items
        × (vec_len posts ≡ length common.plans.now + length common.guests.now) }
    requires room { (spawned.items ≡ [])
        × (length common.plans.now + length common.guests.now ≤ vec_capacity spawned) }
    ensures spawned { AllAt (IsSpawned common.entry.shared.now common.entry.plans.now
        common.entry.guests.now) 0 result.0.items }
    ensures count { vec_len result.0 ≡ length common.entry.plans.now
        + length common.entry.guests.now }
{
    let mut all = true;
    for position in 0..common.plans.len() + common.guests.len() {
        let post = posts.remove(0);
        let number = position as u8;
        let one = start_producer(scope, rt, common, number, post);
        all = all && matches!(one, Spawned::There(_));
        spawned.push_reserved(one);
    }
    posts.destroy_empty();
    (spawned, all)
}

fn join_producer<B: Naming, R: Threads, G: Gate>(
    rt: &R,
    common: Common<'_, B, G>,
    spawned: Spawned<'_, B>,
) -> Worked<B>
    ensures { (n : ℕ) → IsSpawned common.entry.shared.now common.entry.plans.now
        common.entry.guests.now n spawned.entry
        → IsProduceOf common.entry.shared.now common.entry.plans.now
        common.entry.guests.now n result }
{
    match spawned {
        Spawned::There(child) => ManuallyDrop::into_inner(child.join(rt)),
        Spawned::Here(worked) => ManuallyDrop::into_inner(worked),
    }
}

/// Waits for each producer's end.
pub(crate) fn join_producers<B: Naming, R: Threads, G: Gate>(
    rt: &R,
    common: Common<'_, B, G>,
    spawned: Vec<Spawned<'_, B>>,
    mut worked: Vec<Worked<B>>,
) -> Vec<Worked<B>>
    requires spawned { AllAt (IsSpawned common.shared.now common.plans.now common.guests.now) 0
        spawned.items }
    requires room { (worked.items ≡ []) × (vec_len spawned ≤ vec_capacity worked) }
    ensures worked { AllAt (IsProduceOf common.entry.shared.now common.entry.plans.now
        common.entry.guests.now) 0 result.items }
    ensures count { vec_len result ≡ vec_len spawned.entry }
{
    for one in spawned {
        worked.push_reserved(join_producer(rt, common, one));
    }
    worked
}
