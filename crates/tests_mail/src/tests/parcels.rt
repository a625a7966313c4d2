//! What the tests of lanes between threads share: a producer's life in a thread, how a permit is handed there, and whether what comes is
//! in its order.

ghost use Rattle.std.specs.Prelude.{◌≡◌, ◌+◌, ◌≤◌, [], All, vec_len, vec_capacity};
ghost use Rattle.std.specs.Mem.{manually_drop_value};
ghost use Rattle.shard_queue.specs.SharedLane.{IsEndedPermit, IsPermit};

use shard_queue::{Carrier, EndedPermit, Full, Permit, SharedLane};
use std::mem::ManuallyDrop;
use std::process::Abort;
use std::sync::Wait;
use std::thread;

/// What each thread puts before its end.
pub(crate) const ITEMS: u32 = 50;

/// A permit for a closure to hold or a thread to return. Whoever gets it takes it out.
pub(crate) fn packed<T>(value: T) -> ManuallyDrop<T>
    ensures { manually_drop_value result ≡ value }
{
    unsafe { ManuallyDrop::new_unchecked(value) }
}

/// Whether this is the next number of that producer.
pub(crate) fn is_next(next: &mut [u32], p: u8, item: u32) -> bool {
    match next.get_mut(usize::from(p)) {
        Some(next) if *next == item => {
            *next = item.wrapping_add(1);
            true
        }
        _ => false,
    }
}

/// Whether that is the number behind the last item of each.
pub(crate) fn are_all(next: &[u32]) -> bool {
    next.iter().all(|one| *one == ITEMS + 1)
}

/// Puts an item: it comes back where it had no room.
pub(crate) fn put<C: Carrier, R: Wait>(
    rt: &R,
    lane: &SharedLane<C>,
    permit: &mut Permit<C::Pass>,
    item: C::Item,
) -> Option<C::Item>
    requires { IsPermit C.view C.is_of lane.now permit.old }
    ensures { IsPermit C.view C.is_of lane.now permit.new }
{
    match lane.put_as(rt, permit, item) {
        Ok(()) => None,
        Err(Full(back)) => Some(back),
    }
}

// Puts the numbers from 0, each where there is room.
fn put_all<C: Carrier<Item = u32>, R: Wait>(
    rt: &R,
    lane: &SharedLane<C>,
    permit: &mut Permit<C::Pass>,
)
    requires { IsPermit C.view C.is_of lane.now permit.old }
    ensures { IsPermit C.view C.is_of lane.now permit.new }
{
    for item in 0..ITEMS {
        let _ = put(rt, lane, permit, item);
    }
}

// Ends the permit, as soon as there is room.
fn end<C: Carrier, R: Wait>(
    rt: &R,
    lane: &SharedLane<C>,
    mut permit: Permit<C::Pass>,
) -> EndedPermit<C::Pass>
    requires { IsPermit C.view C.is_of lane.now permit }
    ensures { IsEndedPermit C.view C.is_of lane.now result }
{
    for _ in rt.forever() {
        match lane.end_as(rt, permit) {
            Ok(ended) => return ended,
            Err(back) => permit = back,
        }
        thread::yield_now();
    }
    unreachable!()
}

/// A producer's whole life: it puts what it has, and ends.
pub(crate) fn work<C: Carrier<Item = u32>, R: Wait>(
    rt: &R,
    lane: &SharedLane<C>,
    parcel: ManuallyDrop<Permit<C::Pass>>,
) -> ManuallyDrop<EndedPermit<C::Pass>>
    requires { IsPermit C.view C.is_of lane.now (manually_drop_value parcel) }
    ensures { IsEndedPermit C.view C.is_of lane.now (manually_drop_value result) }
{
    let mut permit = ManuallyDrop::into_inner(parcel);
    put_all(rt, lane, &mut permit);
    packed(end(rt, lane, permit))
}

/// The permits, for a closure to hold each.
pub(crate) fn pack_all<C: Carrier>(
    lane: &SharedLane<C>,
    mut permits: Vec<Permit<C::Pass>>,
    mut parcels: Vec<ManuallyDrop<Permit<C::Pass>>>,
) -> Vec<ManuallyDrop<Permit<C::Pass>>>
    requires permits { All (IsPermit C.view C.is_of lane.now) permits.items }
    requires room { (vec_len permits ≤ vec_capacity parcels) × (parcels.items ≡ []) }
    ensures permits { All (λ s. IsPermit C.view C.is_of lane.now (manually_drop_value s)) result.items }
    ensures len { vec_len result ≡ vec_len permits }
{
    while let Some(permit) = permits.pop() {
        parcels.push_reserved(packed(permit));
    }
    permits.destroy_empty();
    parcels
}

/// What is left of the permits, as the threads returned it.
pub(crate) fn unpack_all<C: Carrier>(
    lane: &SharedLane<C>,
    mut parcels: Vec<ManuallyDrop<EndedPermit<C::Pass>>>,
    mut ended: Vec<EndedPermit<C::Pass>>,
) -> Vec<EndedPermit<C::Pass>>
    requires parcels { All (λ e. IsEndedPermit C.view C.is_of lane.now (manually_drop_value e)) parcels.items }
    requires room { (vec_len parcels ≤ vec_capacity ended) × (ended.items ≡ []) }
    ensures { All (IsEndedPermit C.view C.is_of lane.now) result.items }
{
    while let Some(parcel) = parcels.pop() {
        ended.push_reserved(ManuallyDrop::into_inner(parcel));
    }
    ended
}

/// The last of the permits.
pub(crate) fn last_permit<C: Carrier, R: Abort>(
    rt: &R,
    lane: &SharedLane<C>,
    permits: &mut Vec<Permit<C::Pass>>,
) -> Permit<C::Pass>
    requires { All (IsPermit C.view C.is_of lane.now) permits.old.items }
    ensures permit { IsPermit C.view C.is_of lane.now result }
    ensures others { All (IsPermit C.view C.is_of lane.now) permits.new.items }
    ensures len { vec_len permits.old ≡ vec_len permits.new + 1 }
    ensures capacity { vec_capacity permits.new ≡ vec_capacity permits.old }
{
    permits.pop().expect(rt, "a permit")
}

/// The permit, whose end has no room.
pub(crate) fn handed_back<C: Carrier, R: Wait + Abort>(
    rt: &R,
    lane: &SharedLane<C>,
    permit: Permit<C::Pass>,
) -> Permit<C::Pass>
    requires { IsPermit C.view C.is_of lane.now permit }
    ensures { IsPermit C.view C.is_of lane.now result }
{
    match lane.end_as(rt, permit) {
        Err(permit) => permit,
        Ok(ended) => {
            packed(ended);
            panic!(rt; "there was room")
        }
    }
}

/// What is left of the permit, whose end has room.
pub(crate) fn at_end<C: Carrier, R: Wait + Abort>(
    rt: &R,
    lane: &SharedLane<C>,
    permit: Permit<C::Pass>,
) -> EndedPermit<C::Pass>
    requires { IsPermit C.view C.is_of lane.now permit }
    ensures { IsEndedPermit C.view C.is_of lane.now result }
{
    match lane.end_as(rt, permit) {
        Ok(ended) => ended,
        Err(permit) => {
            packed(permit);
            panic!(rt; "there was no room")
        }
    }
}
