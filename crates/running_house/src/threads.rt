//! The scope of all threads: consumers first, then workers, then sessions; each is joined. What is to
//! be run, and what is compared afterwards, stands above.

ghost use Rattle.std.specs.Prelude.{ℕ, ◌≡◌, ◌≤◌, ◌<◌, ◌+◌, [], All, IfOk, length, vec_len, vec_capacity};
ghost use Rattle.std.specs.Mem.{manually_drop_value};
ghost use Rattle.std.specs.Thread.{IsSend, IsSync};
ghost use Rattle.house_shared.specs.Crew.{AllAt, AreGuests, IsCrew, IsHouse, IsPost};
ghost use Rattle.house_shared.specs.declared.shared.HouseShared.{HouseShared};
ghost use Rattle.house_shared.specs.Left.{IsPostLeft, IsServiceOf, IsSpendable};
ghost use Rattle.running_house.specs.Produced.{IsProduceOf};
ghost use Rattle.running_house.specs.inner.Produced.{LeavesAll};

use crate::aside::end_first;
use crate::common::Common;
use crate::consumers::{Kept, join_consumers, start_consumers};
use crate::parcels::{Manned, packed};
use crate::producers::{Spawned, actor_of, join_producers, start_producers};
use house_history::Naming;
use house_shared::{Crew, Guest, HouseShared, Post, Ran, Stand, Started};
use lane_work::{Consumed, Worked};
use std::alloc::{AllocError, Global};
use std::mem::ManuallyDrop;
use std::sync::Wait;
use std::sync::atomic::AtomicU64;
use std::thread;
use std::thread::Threads;
use workers_sync::{Gate, SyncPoint};

// No producer is to begin: ends their permits on the lanes whose consumers run.
fn end_posts<B: Naming, R: Wait, G: Gate>(
    rt: &R,
    common: Common<'_, B, G>,
    mut posts: Vec<Post<B>>,
    mut unmanned: Vec<Post<B>>,
    manned: usize,
) -> Vec<Post<B>>
    requires posts { AllAt (IsPost common.shared.now) 0 posts.items }
    requires room { (unmanned.items ≡ []) × (vec_len posts ≤ vec_capacity unmanned) }
    requires manned { manned ≤ length common.shared.now.intake.lanes.items }
    ensures count { vec_len result ≡ vec_len posts }
    ensures left { All (IsPostLeft (length common.entry.shared.now.intake.lanes.items))
        result.items }
{
    for done in 0..posts.len() {
        let post = posts.remove(0);
        let shared = common.shared;
        let mut sync_point = SyncPoint::new(
            common.gate,
            actor_of(common.plans.len(), post.desk.number),
        );
        unmanned.push_reserved(end_first(
            rt,
            &mut sync_point,
            &shared.intake,
            &shared.bells,
            post,
            manned,
        ));
    }
    posts.destroy_empty();
    unmanned
}

// Room for the handles of all threads, so that none is lost for want of it once a thread runs.
struct Handles<'a, B: Naming> {
    kept: Vec<Kept<'a, B>>,
    spawned: Vec<Spawned<'a, B>>,
}

fn handles_for<'a, B: Naming>(
    alloc: Global,
    consumers: usize,
    producers: usize,
) -> Result<Handles<'a, B>, AllocError>
    ensures kept { IfOk result (λ h. (h.kept.items ≡ []) × (consumers ≤ vec_capacity h.kept)) }
    ensures spawned { IfOk result (λ h. (h.spawned.items ≡ [])
        × (producers ≤ vec_capacity h.spawned)) }
{
    Ok(Handles {
        kept: Vec::with_capacity(alloc, consumers)?,
        spawned: Vec::with_capacity(alloc, producers)?,
    })
}

// No thread is started, for want of memory: all is left as it was dealt.
fn none_started<B: Naming>(crew: Crew<B>) -> Ran<B>
    requires none { (crew.worked.items ≡ []) × (crew.consumed.items ≡ [])
        × (crew.unmanned.items ≡ []) }
    ensures none { (result.worked.items ≡ []) × (result.consumed.items ≡ []) }
    ensures left { (shared : HouseShared B) (producers : ℕ)
        → length shared.delivery.channels.items ≡ producers
        → IsCrew shared producers crew →
        IsSpendable shared producers result }
    ensures started { result.started ≡ Started.NoMemory }
{
    let Crew {
        stands,
        posts,
        consumed,
        worked,
        unmanned,
    } = crew;
    unmanned.destroy_empty();
    Ran {
        worked,
        consumed,
        stands,
        posts,
        started: Started::NoMemory,
    }
}

// All that is done in the scope. Where a consumer has no thread no worker begins, and the workers' permits
// are ended on the lanes whose consumers run.
fn in_scope<'s, E, B: Naming + Send + Sync, R: Threads + Wait + Sync, G: Gate + Sync>(
    scope: &thread::Scope<'s, E>,
    rt: &'s R,
    common: Common<'s, B, G>,
    crew: ManuallyDrop<Crew<B>>,
) -> Ran<B>
    requires house { IsHouse common.shared.now
        (length common.plans.now + length common.guests.now) }
    requires guests { AreGuests common.shared.now common.guests.now }
    requires crew { IsCrew common.shared.now (length common.plans.now
        + length common.guests.now) (manually_drop_value crew) }
    ensures consumed { AllAt (IsServiceOf common.entry.shared.now) 0 result.consumed.items }
    ensures worked { AllAt (IsProduceOf common.entry.shared.now common.entry.plans.now
        common.entry.guests.now) 0 result.worked.items }
    ensures all { result.started ≡ Started.All
        → LeavesAll common.entry.shared.now common.entry.plans.now common.entry.guests.now result }
    ensures left { IsSpendable common.entry.shared.now (length common.entry.plans.now
        + length common.entry.guests.now) result }
{
    let alloc = common.shared.alloc;
    let shards = common.shared.intake.lanes.len();
    let crew = ManuallyDrop::into_inner(crew);
    let Ok(handles) = handles_for(alloc, shards, common.plans.len() + common.guests.len()) else {
        return none_started(crew);
    };
    let Handles { kept, spawned } = handles;
    let Crew {
        stands,
        posts,
        consumed,
        worked,
        unmanned,
    } = crew;
    let (kept, first) = start_consumers(scope, rt, common, stands, kept);
    let stands = Vec::new(alloc);
    if first < shards {
        let posts = end_posts(rt, common, posts, unmanned, first);
        let consumed = join_consumers(rt, common.shared, kept, consumed);
        let started = Started::Spawn;
        return Ran {
            worked,
            consumed,
            stands,
            posts,
            started,
        };
    }
    let (spawned, all) = start_producers(scope, rt, common, posts, spawned);
    let worked = join_producers(rt, common, spawned, worked);
    let consumed = join_consumers(rt, common.shared, kept, consumed);
    let started = if all { Started::All } else { Started::Spawn };
    Ran {
        worked,
        consumed,
        stands,
        posts: unmanned,
        started,
    }
}

/// Runs each consumer, each worker and each session in a thread of its own, consumers first and
/// sessions last, and joins them all. What the i-th of a kind left is what its life promises, of its own
/// lane, of its own channel and connections, of its own user and steps.
///
/// Where a thread can't be made `started` is `Spawn`: no producer begins behind a consumer that has none,
/// none behind a producer that has none, and what is left is to be abandoned. `NoMemory` comes before
/// anything is started.
pub(crate) fn run_threads<B: Naming + Send + Sync, R: Threads + Wait + Sync, G: Gate + Sync>(
    rt: &R,
    shared: &HouseShared<B>,
    gate: &G,
    plans: &[Vec<Vec<u8>>],
    guests: &[Guest],
    crew: Crew<B>,
) -> Ran<B>
    requires house { IsHouse shared.now (length plans.now + length guests.now) }
    requires guests { AreGuests shared.now guests.now }
    requires crew { IsCrew shared.now (length plans.now + length guests.now) crew }
    ensures consumed { AllAt (IsServiceOf shared.now) 0 result.consumed.items }
    ensures worked { AllAt (IsProduceOf shared.now plans.now guests.now) 0 result.worked.items }
    ensures all { result.started ≡ Started.All → LeavesAll shared.now plans.now guests.now result }
    ensures left { IsSpendable shared.now (length plans.now + length guests.now) result }
{
    let manned = Manned {
        shards: AtomicU64::new(u64::MAX),
        producers: AtomicU64::new(u64::MAX),
    };
    let marks = &manned;
    let crew = packed(crew);
    thread::scope(
        thread::scope_env(),
        rt,
        |scope| -> Ran<B>
            requires { IsSend B.row × IsSync B.row × IsSync R.row × IsSync G.row
                × IsHouse shared.now (length plans.now + length guests.now) ×
                AreGuests shared.now guests.now
                × IsCrew shared.now (length plans.now
                + length guests.now) (manually_drop_value crew) }
            ensures consumed { AllAt (IsServiceOf shared.entry.now) 0 result.consumed.items }
            ensures worked { AllAt (IsProduceOf shared.entry.now plans.entry.now guests.entry.now) 0
                result.worked.items }
            ensures all { result.started ≡ Started.All
                → LeavesAll shared.entry.now plans.entry.now guests.entry.now result }
            ensures left { IsSpendable shared.entry.now (length plans.entry.now
                + length guests.entry.now) result }
        {
            let common = Common {
                shared,
                gate,
                plans,
                guests,
                manned: marks,
            };
            in_scope(scope, rt, common, crew)
        },
    )
}
