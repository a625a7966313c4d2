//! Several lanes that threads share, whatever carries their entries: made with their permits, dealt to
//! those who put on them, and, after all have ended, collected and closed. A house has two kinds: a lane
//! for each shard, on which workers put copies, and a reply channel for each worker, on which the shards
//! answer. What is put on a lane and taken from it does not belong here.

ghost use Rattle.std.specs.Prelude.{◌≡◌, ◌<◌, ◌≤◌, ◌+◌, ℕ, suc, [], length, map, All, IfOk, MatchOption, vec_len, vec_capacity};
ghost use Rattle.shard_queue.specs.SharedLane.{taken};
ghost use Rattle.lane_work.specs.SharedLanes.{Rows, AreNew, AreHands, AreConsumers, EndedRows, with_each, with_all, AreClosed, IsTorn};
ghost use Rattle.lane_work.specs.Rooms.{AreRooms};

use crate::rooms::spend_lists;
use shard_queue::{
    Carrier, ClosedLane, ConsumersPermit, EndedPermit, Permit, SharedLane, Unclosed,
};
use std::alloc::{AllocError, Global};

/// Several lanes, with all their permits.
pub struct Lanes<C: Carrier> {
    /// The lanes, by their positions.
    pub lanes: Vec<SharedLane<C>>,
    /// For each lane the permits of its producers, in the order of their numbers.
    pub permits: Vec<Vec<Permit<C::Pass>>>,
    /// For each lane its consumer's permit.
    pub consumers: Vec<ConsumersPermit<C::Pass>>,
}

/// What whoever has a permit on each of several lanes holds one of them as.
pub trait Held<C: Carrier> {
    ghost use Rattle.std.specs.Prelude.{◌≡◌};
    ghost use Rattle.shard_queue.specs.declared.permits.Permit.{Permit};

    /// What a permit is held as.
    ghost held: { Permit C.Pass → Self };

    /// Takes this permit.
    fn hold(permit: Permit<C::Pass>) -> Self
        ensures { result ≡ held permit };
}

// No lanes, with room for so many.
fn no_lanes<C: Carrier>(alloc: Global, count: usize) -> Result<Lanes<C>, AllocError>
    ensures { IfOk result (λ r. (r.lanes.items ≡ []) × (r.permits.items ≡ [])
        × (r.consumers.items ≡ [])
        × (count ≤ vec_capacity r.lanes) × (count ≤ vec_capacity r.permits)
        × (count ≤ vec_capacity r.consumers)) }
{
    let lanes = Vec::with_capacity(alloc, count)?;
    let permits = match Vec::with_capacity(alloc, count) {
        Ok(permits) => permits,
        Err(e) => {
            lanes.destroy_empty();
            return Err(e);
        }
    };
    let consumers = match Vec::with_capacity(alloc, count) {
        Ok(consumers) => consumers,
        Err(e) => {
            lanes.destroy_empty();
            permits.destroy_empty();
            return Err(e);
        }
    };
    Ok(Lanes {
        lanes,
        permits,
        consumers,
    })
}

/// An empty lane at each position, with room for so many entries as `rooms` says there, one at least, and
/// the permits of `producers` producers, 0 to 255 each. An error where memory is refused; nothing is left
/// then.
pub fn make_lanes<C: Carrier>(
    alloc: Global,
    rooms: &[usize],
    producers: u8,
) -> Result<Lanes<C>, AllocError>
    requires { All (λ room. 0 < room) rooms.now }
    ensures rooms { IfOk result (λ r. map (λ l. C.room l.carrier) r.lanes.items ≡ rooms.now) }
    ensures producers { IfOk result (λ r. All (λ l. l.producers ≡ producers) r.lanes.items) }

    // Without an error each lane has its producers' permits, by their numbers, which put nothing, and its consumer's, which took nothing.
    ensures permits { IfOk result (λ r.
        Rows C.view C.is_of r.lanes.items 0 (map (λ v. v.items) r.permits.items)) }
    ensures consumers { IfOk result (λ r.
        AreConsumers C.view C.is_of r.lanes.items r.consumers.items × All (λ s. taken C.view s ≡ []) r.consumers.items) }
{
    let mut lanes = no_lanes(alloc, rooms.len())?;
    for position in 0..rooms.len() {
        match SharedLane::new(alloc, rooms[position], producers) {
            Ok((lane, permits, consumer)) => {
                lanes.lanes.push_reserved(lane);
                lanes.permits.push_reserved(permits);
                lanes.consumers.push_reserved(consumer);
            }
            Err(e) => {
                abandon_lanes(alloc, lanes);
                return Err(e);
            }
        }
    }
    Ok(lanes)
}

/// Spends lanes that are not to be used, with the permits that are there. It takes no memory.
pub fn abandon_lanes<C: Carrier>(alloc: Global, lanes: Lanes<C>)
    requires { (vec_len lanes.permits ≡ vec_len lanes.lanes)
        × (vec_len lanes.consumers ≡ vec_len lanes.lanes) }
{
    let Lanes {
        mut lanes,
        mut permits,
        mut consumers,
    } = lanes;
    for _ in 0..lanes.len() {
        let lane = lanes.remove(0);
        lane.abandon(permits.remove(0), Vec::new(alloc), consumers.remove(0));
    }
    lanes.destroy_empty();
    permits.destroy_empty();
    consumers.destroy_empty();
}

/// Producer `number` takes its permit on each lane, the first that is left there, into `hand`, which is
/// empty and has room for all.
pub fn deal<C: Carrier, H: Held<C>>(
    lanes: &[SharedLane<C>],
    permits: &mut Vec<Vec<Permit<C::Pass>>>,
    number: u8,
    mut hand: Vec<H>,
) -> Vec<H>
    // On each lane the permits from producer `number`'s on are left, in their order, and put nothing; that one's is among them.
    requires left { Rows C.view C.is_of lanes.now number (map (λ v. v.items) permits.old.items) }
    requires more { All (λ l. number < l.producers) lanes.now }
    requires room { (hand.items ≡ []) × (length lanes.now ≤ vec_capacity hand) }

    // The hand has this producer's permit on each lane, which put nothing; those of the producers behind it are left.
    ensures hand { AreNew C.view C.is_of H.held lanes.now number result.items }
    ensures left { Rows C.view C.is_of lanes.now (suc number) (map (λ v.
        v.items) permits.new.items) }
{
    for lane in 0..lanes.len() {
        hand.push_reserved(H::hold(permits[lane].remove(0)));
    }
    hand
}

/// Each of the producers takes its permit on each lane, after which none is left: the i-th hand is that
/// of producer i. `rooms` has an empty list for each, with room for all lanes, and `hands`, which is
/// empty, has room for all hands.
pub fn deal_all<C: Carrier, H: Held<C>>(
    lanes: &[SharedLane<C>],
    mut permits: Vec<Vec<Permit<C::Pass>>>,
    producers: u8,
    mut rooms: Vec<Vec<H>>,
    mut hands: Vec<Vec<H>>,
) -> Vec<Vec<H>>
    // On each lane the permits of all producers are left, in their order, and put nothing.
    requires left { Rows C.view C.is_of lanes.now 0 (map (λ v. v.items) permits.items) }
    requires producers { All (λ l. l.producers ≡ producers) lanes.now }
    requires rooms { AreRooms producers (length lanes.now) rooms }
    requires hands { (hands.items ≡ []) × (producers ≤ vec_capacity hands) }

    // There is a hand for each producer, by its number, with its permit on each lane, which put nothing.
    ensures count { vec_len result ≡ producers }
    ensures hands { AreHands C.view C.is_of H.held lanes.now 0 (map (λ v. v.items) result.items) }
{
    for number in 0..producers {
        let room = rooms.remove(0);
        hands.push_reserved(deal(lanes, &mut permits, number, room));
    }
    rooms.destroy_empty();
    spend_lists(permits);
    hands
}

/// Each of these values goes to the list at its position, behind what stands there. Each list has room for
/// one more.
pub fn collect<E>(lists: &mut Vec<Vec<E>>, mut values: Vec<E>)
    // There is one for each list, and each list has room for one more.
    requires each { vec_len values ≡ vec_len lists.old }
    requires room { All (λ v. vec_len v < vec_capacity v) lists.old.items }

    // Each list has its value last, and none has lost room for more than one.
    ensures lists { map (λ v. v.items) lists.new.items
        ≡ with_each (map (λ v. v.items) lists.old.items) values.items }
    ensures room { (n : ℕ) → All (λ v. vec_len v + suc n ≤ vec_capacity v) lists.old.items
        → All (λ v. vec_len v + n ≤ vec_capacity v) lists.new.items }
{
    for position in 0..lists.len() {
        lists[position].push_reserved(values.remove(0));
    }
    values.destroy_empty();
}

/// The values of each hand go to the lists at their positions, one hand after another. Each list has room
/// for one of each.
pub fn collect_all<E>(lists: &mut Vec<Vec<E>>, mut hands: Vec<Vec<E>>)
    // Each hand has one for each list, and each list has room for all hands'.
    requires each { All (λ v. vec_len v ≡ vec_len lists.old) hands.items }
    requires room { All (λ v. vec_len v + vec_len hands ≤ vec_capacity v) lists.old.items }

    // Each list has its values behind what stood there, in the order of the hands.
    ensures { map (λ v. v.items) lists.new.items
        ≡ with_all (map (λ v. v.items) lists.old.items) (map (λ v. v.items) hands.items) }
{
    for _ in 0..hands.len() {
        collect(lists, hands.remove(0));
    }
    hands.destroy_empty();
}

/// Closes each lane with the ended permits of its producers and with its consumer's. None only where
/// some lane is torn: one of its producers' ended permits is missing, or that one's end wasn't taken.
/// It spends all that it was given then too. `closed`, which is empty, has room for all.
pub fn close_lanes<C: Carrier>(
    alloc: Global,
    mut lanes: Vec<SharedLane<C>>,
    mut ended: Vec<Vec<EndedPermit<C::Pass>>>,
    mut consumers: Vec<ConsumersPermit<C::Pass>>,
    mut closed: Vec<ClosedLane<C::Pass>>,
) -> Option<Vec<ClosedLane<C::Pass>>>
    // The i-th list has ended permits of the i-th lane, and the i-th consumer's permit is of that lane.
    requires ended { EndedRows C.view C.is_of lanes.items (map (λ v. v.items) ended.items) }
    requires consumers { AreConsumers C.view C.is_of lanes.items consumers.items }
    requires room { (closed.items ≡ []) × (vec_len lanes ≤ vec_capacity closed) }

    // `None`: of some lane an ended permit is missing, or an end wasn't taken. Else all that was put was taken, as each said it.
    ensures { MatchOption result (IsTorn C.view lanes.items (map (λ v.
        v.items) ended.items) consumers.items)
        (λ cs. AreClosed C.view (λ l. C.room l.carrier) lanes.items (map (λ v.
        v.items) ended.items) consumers.items cs.items) }
{
    let mut torn = false;
    for _ in 0..lanes.len() {
        let lane = lanes.remove(0);
        match lane.close(ended.remove(0), consumers.remove(0)) {
            Ok(one) => closed.push_reserved(one),
            Err(
                Unclosed {
                    lane,
                    ended,
                    permit,
                },
            ) => {
                torn = true;
                lane.abandon(Vec::new(alloc), ended, permit);
            }
        }
    }
    lanes.destroy_empty();
    ended.destroy_empty();
    consumers.destroy_empty();
    if torn { None } else { Some(closed) }
}
