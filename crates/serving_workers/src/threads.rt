//! The workers' threads, started in order, and the producers' joined: the workers, and behind them whoever else has a post. What a worker
//! does stands in `accepting`.

ghost use Rattle.std.specs.Prelude.{ℕ, ◌≡◌, ◌≤◌, ◌<◌, ◌+◌, All, Some, [], length, map, true, vec_len, vec_capacity};
ghost use Rattle.std.specs.Mem.{manually_drop_value};
ghost use Rattle.std.specs.Thread.{IsSend};
ghost use Rattle.house_shared.specs.Crew.{AllAt, IsHouse, IsPost};
ghost use Rattle.std.specs.List.{list_all};
ghost use Rattle.shared_consumers.specs.Keeping.{parts_of};
ghost use Rattle.serving_workers.specs.Leaving.{IsSpawned, IsOutfit, IsServed, has_thread, serves_mail, IsFresh};

use crate::accepting::{Outfit, Served, serve_until_stopped};
use crate::line::Line;
use crate::parcels::packed;
use crate::workplace::Workplace;
use house_history::Naming;
use house_shared::{HouseShared, Post};
use lane_work::Context;
use shared_consumers::{LaneGroup, Unhindered};
use std::mem::ManuallyDrop;
use std::sync::Wait;
use std::thread;
use std::thread::{Promise, Threads};
use workers_sync::{Actor, ShutdownHandle, SyncPoint};

/// What the thread of this producer is to return: what is left of its permits.
#[derive_where(Clone, Copy)]
pub struct Serves<'a, B: Naming> {
    /// The house that it serves in.
    pub shared: &'a HouseShared<B>,
    /// Its number among the producers, from 0: the workers', and behind them the others'.
    pub number: u8,
    /// Whether it is a worker, and takes mail.
    pub mail: bool,
}

impl<'a, B: Naming, L: Line> Promise<ManuallyDrop<Served<B, L>>> for Serves<'a, B> {
    ghost use Rattle.std.specs.Prelude.{◌≡◌};
    ghost use Rattle.std.specs.Mem.{manually_drop_value};
    ghost use Rattle.serving_workers.specs.Leaving.{IsServed};

    ghost kept_by = { λ p r. IsServed L.told p.shared.now p.number (manually_drop_value r) × ((manually_drop_value r).mail ≡ p.mail) };
}

/// A producer's thread, or what came of it where there is none.
#[derive(Drop)]
pub enum Spawned<'a, B: Naming, L: Line> {
    /// Its thread, which leaves what the producer does.
    There(thread::PromisedHandle<ManuallyDrop<Served<B, L>>, Serves<'a, B>>),
    /// No thread could be made: what it leaves, that served nobody.
    Here(ManuallyDrop<Served<B, L>>),
}

/// Whether each of these producers has a thread.
pub fn have_threads<B: Naming, L: Line>(spawned: &[Spawned<'_, B, L>]) -> bool
    ensures { result ≡ list_all has_thread spawned.now }
{
    spawned.iter().all(|one| matches!(one, Spawned::There(_)))
}

// A worker's life.
fn serve_there<'a, B: Naming, H: LaneGroup, R: Wait, L: Line>(
    rt: &R,
    workplace: &'a Workplace<B, H>,
    shutdown_handle: &'a ShutdownHandle,
    number: u8,
    post: ManuallyDrop<Post<B>>,
    outfit: Outfit<L>,
) -> ManuallyDrop<Served<B, L>>
    requires lanes { H.lanes ≡ Some workplace.now.shared.intake.lanes.items }
    requires delivery { H.delivery ≡ Some (parts_of workplace.now.shared.delivery) }
    requires house { IsHouse workplace.now.shared
        (length workplace.now.shared.delivery.channels.items) }
    requires number { number < length workplace.now.shared.delivery.channels.items }
    requires post { IsPost workplace.now.shared number (manually_drop_value post) }
    requires input { 0 < length outfit.buffers.input.items }
    requires fresh { IsFresh (L.told outfit.line) }
    ensures served { IsServed L.told workplace.now.shared number (manually_drop_value result) }
    ensures mail { (manually_drop_value result).mail ≡ true }
{
    let Post { desk, room } = ManuallyDrop::into_inner(post);
    let (shared, gate) = (&workplace.shared, Unhindered);
    let sync_point = SyncPoint::new(&gate, Actor::Worker(number));
    let notifier = workplace.notifier(&gate);
    let context = Context {
        rt,
        alloc: shared.alloc,
        intake: &shared.intake,
        notifier: &notifier,
        channel: &shared.delivery.channels[usize::from(number)],
    };
    let acceptor = workplace.acceptor(number, shutdown_handle);
    packed(serve_until_stopped(&context, sync_point, desk, room, &acceptor, outfit))
}

// Starts a worker's thread. Where none can be made the house's mark has to be set before what came of it can be had: so the worker serves
// nobody, and its permits are ended here.
fn start_worker<
    's,
    E,
    B: Naming + Send + Sync,
    H: LaneGroup + Send,
    R: Threads + Wait + Sync,
    L: Line + Send + 's,
>(
    scope: &thread::Scope<'s, E>,
    rt: &'s R,
    workplace: &'s Workplace<B, H>,
    shutdown_handle: &'s ShutdownHandle,
    number: u8,
    post: Post<B>,
    outfit: Outfit<L>,
) -> Spawned<'s, B, L>
    requires lanes { H.lanes ≡ Some workplace.now.shared.intake.lanes.items }
    requires delivery { H.delivery ≡ Some (parts_of workplace.now.shared.delivery) }
    requires house { IsHouse workplace.now.shared
        (length workplace.now.shared.delivery.channels.items) }
    requires number { number < length workplace.now.shared.delivery.channels.items }
    requires post { IsPost workplace.now.shared number post }
    requires input { 0 < length outfit.buffers.input.items }
    requires fresh { IsFresh (L.told outfit.line) }
    ensures spawned { IsSpawned L.told workplace.now.shared number result }
    ensures mail { serves_mail result ≡ true }
{
    let parcel = packed(post);
    let promise = Serves {
        shared: &workplace.shared,
        number,
        mail: true,
    };
    match scope.spawn_with(
        promise,
        move || -> ManuallyDrop<Served<B, L>>
            requires sends { IsSend L.Input.row × IsSend L.Output.row }
            requires lanes { H.lanes ≡ Some workplace.now.shared.intake.lanes.items }
            requires delivery { H.delivery ≡ Some (parts_of workplace.now.shared.delivery) }
            requires house { IsHouse workplace.now.shared
                (length workplace.now.shared.delivery.channels.items) }
            requires number { number < length workplace.now.shared.delivery.channels.items }
            requires post { IsPost workplace.now.shared number (manually_drop_value parcel) }
            requires input { 0 < length outfit.buffers.input.items }
            requires fresh { IsFresh (L.told outfit.line) }
            ensures served { IsServed L.told workplace.entry.now.shared number
                (manually_drop_value result) }
            ensures mail { (manually_drop_value result).mail ≡ true }
        { serve_there::<B, H, R, L>(rt, workplace, shutdown_handle, number, parcel, outfit) },
    ) {
        Ok(child) => Spawned::There(child),
        Err(refused) => {
            workplace.mark.set();
            Spawned::Here((refused.value)())
        }
    }
}

// Starts the thread of the next worker, with the first of these posts and of these outfits, and puts it behind those in `spawned`, which has
// room for it.
fn start_next<
    's,
    E,
    B: Naming + Send + Sync,
    H: LaneGroup + Send,
    R: Threads + Wait + Sync,
    L: Line + Send + 's,
>(
    scope: &thread::Scope<'s, E>,
    rt: &'s R,
    workplace: &'s Workplace<B, H>,
    shutdown_handle: &'s ShutdownHandle,
    number: u8,
    posts: &mut Vec<Post<B>>,
    outfits: &mut Vec<Outfit<L>>,
    spawned: &mut Vec<Spawned<'s, B, L>>,
)
    requires lanes { H.lanes ≡ Some workplace.now.shared.intake.lanes.items }
    requires delivery { H.delivery ≡ Some (parts_of workplace.now.shared.delivery) }
    requires house { IsHouse workplace.now.shared
        (length workplace.now.shared.delivery.channels.items) }
    requires number { number < length workplace.now.shared.delivery.channels.items }
    requires posts { AllAt (IsPost workplace.now.shared) number posts.old.items
        × (0 < vec_len posts.old) }
    requires outfits { All (λ o. IsOutfit L.told o) outfits.old.items
        × (0 < vec_len outfits.old) }
    requires spawned { AllAt (IsSpawned L.told workplace.now.shared) 0 spawned.old.items
        × (vec_len spawned.old ≡ number) }
    requires mail { All (λ h. serves_mail h ≡ true) spawned.old.items }
    requires room { vec_len spawned.old < vec_capacity spawned.old }
    ensures posts { AllAt (IsPost workplace.now.shared) (number + 1) posts.new.items
        × (vec_len posts.new + 1 ≡ vec_len posts.old) }
    ensures outfits { All (λ o. IsOutfit L.told o) outfits.new.items
        × (vec_len outfits.new + 1 ≡ vec_len outfits.old) }
    ensures spawned { AllAt (IsSpawned L.told workplace.now.shared) 0 spawned.new.items
        × (vec_len spawned.new ≡ number + 1) }
    ensures mail { All (λ h. serves_mail h ≡ true) spawned.new.items }
    ensures room { vec_capacity spawned.new ≡ vec_capacity spawned.old }
{
    let post = posts.remove(0);
    let own = outfits.remove(0);
    spawned.push_reserved(start_worker(scope, rt, workplace, shutdown_handle, number, post, own));
}

/// The workers' threads, and what is left of the posts.
pub struct Begun<'a, B: Naming, L: Line> {
    /// For each worker its thread, or what came of it: in their order, with room for all producers.
    pub spawned: Vec<Spawned<'a, B, L>>,
    /// The posts of the other producers, in their order.
    pub posts: Vec<Post<B>>,
}

/// Starts a thread for each worker, a shutdown handle for each, in their order, with the first of these posts. The others are given back, and so is
/// the list of threads, in which there is room for all posts. None of them accepts anybody while the start of the workplace's mark is held, as whoever
/// calls it does. Where a thread can't be made the mark is set, so no worker serves anybody.
pub fn start_workers<
    's,
    E,
    B: Naming + Send + Sync,
    H: LaneGroup + Send,
    R: Threads + Wait + Sync,
    L: Line + Send + 's,
>(
    scope: &thread::Scope<'s, E>,
    rt: &'s R,
    workplace: &'s Workplace<B, H>,
    shutdown_handles: &'s [ShutdownHandle],
    mut posts: Vec<Post<B>>,
    mut outfits: Vec<Outfit<L>>,
    mut spawned: Vec<Spawned<'s, B, L>>,
) -> Begun<'s, B, L>
    // The workplace's shared state is a house, and that of its shared consumers' lane group.
    requires lanes { H.lanes ≡ Some workplace.now.shared.intake.lanes.items }
    requires delivery { H.delivery ≡ Some (parts_of workplace.now.shared.delivery) }
    requires house { IsHouse workplace.now.shared
        (length workplace.now.shared.delivery.channels.items) }

    // There are no more workers than producers.
    requires shutdown_handles { length shutdown_handles.now ≤ length
        workplace.now.shared.delivery.channels.items }

    // Each producer has its post, by its number, with nothing put or heard yet; and each worker has room to read into, and its line, where nobody came yet.
    requires posts { AllAt (IsPost workplace.now.shared) 0 posts.items
        × (vec_len posts ≡ length workplace.now.shared.delivery.channels.items) }
    requires outfits { All (λ o. IsOutfit L.told o) outfits.items
        × (vec_len outfits ≡ length shutdown_handles.now) }
    requires room { (spawned.items ≡ [])
        × (length workplace.now.shared.delivery.channels.items ≤ vec_capacity spawned) }

    // For each worker, by its number: its thread, which will leave what that producer leaves, or what it has left without one.
    // Each is a worker's, who leaves what its connections submitted, one connection after another with serials from 0 on.
    ensures spawned { AllAt (IsSpawned L.told workplace.now.shared) 0 result.spawned.items }
    ensures count { vec_len result.spawned ≡ length shutdown_handles.now }
    ensures mail { All (λ h. serves_mail h ≡ true) result.spawned.items }
    ensures room { length workplace.now.shared.delivery.channels.items
        ≤ vec_capacity result.spawned }

    // The posts of the producers behind the workers are given back, in their order, with nothing put or heard yet.
    ensures posts { AllAt (IsPost workplace.now.shared)
        (length shutdown_handles.now) result.posts.items }
    ensures others { vec_len result.posts + length shutdown_handles.now
        ≡ length workplace.now.shared.delivery.channels.items }
{
    for position in 0..shutdown_handles.len() {
        start_next(
            scope,
            rt,
            workplace,
            &shutdown_handles[position],
            position as u8,
            &mut posts,
            &mut outfits,
            &mut spawned,
        );
    }
    Begun { spawned, posts }
}

fn join_producer<B: Naming, R: Threads, L: Line>(
    rt: &R,
    shared: &HouseShared<B>,
    spawned: Spawned<'_, B, L>,
) -> Served<B, L>
    ensures served { (n : ℕ) → IsSpawned L.told shared.now n spawned.entry
        → IsServed L.told shared.now n result }
    ensures mail { result.mail ≡ serves_mail spawned.entry }
{
    match spawned {
        Spawned::There(child) => ManuallyDrop::into_inner(child.join(rt)),
        Spawned::Here(served) => ManuallyDrop::into_inner(served),
    }
}

/// Waits for each producer's end. `served`, which is empty, has room for all.
pub fn join_producers<B: Naming, R: Threads, L: Line>(
    rt: &R,
    shared: &HouseShared<B>,
    spawned: Vec<Spawned<'_, B, L>>,
    mut served: Vec<Served<B, L>>,
) -> Vec<Served<B, L>>
    // Each is a producer's thread, by its number, or what that has left without one.
    requires spawned { AllAt (IsSpawned L.told shared.now) 0 spawned.items }
    requires room { (served.items ≡ []) × (vec_len spawned ≤ vec_capacity served) }

    // Each producer left, by its number, its ended permits on all lanes, and its end of its own reply channel; a worker left what it
    // said on each lane.
    ensures served { AllAt (IsServed L.told shared.now) 0 result.items }
    ensures mail { map (λ s. s.mail) result.items ≡ map serves_mail spawned.entry.items }
    ensures count { vec_len result ≡ vec_len spawned.entry }
{
    for one in spawned {
        served.push_reserved(join_producer(rt, shared, one));
    }
    served
}
