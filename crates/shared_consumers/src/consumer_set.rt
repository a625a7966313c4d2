//! The shared consumers of all shards: spawned from the stands that were dealt, and dismissed when all is done, or
//! stood down where a run comes to nothing. What one shared consumer does does not belong here.

ghost use Rattle.std.specs.Prelude.{◌≡◌, ◌≤◌, ◌<◌, [], All, IfOk, Some, true, false, length, map, vec_len, vec_capacity};
ghost use Rattle.lane_work.specs.Rooms.{AreRooms};
ghost use Rattle.lane_work.specs.LanePermits.{AreConsumers};
ghost use Rattle.lane_work.specs.ChannelPermits.{AreSenderEndedHands};
ghost use Rattle.house_shared.specs.Crew.{AllAt, IsStand};
ghost use Rattle.shared_consumers.specs.Keeping.{Parts, parts_of};
ghost use Rattle.shared_consumers.specs.ConsumerSet.{IsService};

use crate::shared_consumer::{LaneGroup, SharedConsumer};
use house_history::{Answer, Naming};
use house_shared::{HouseShared, Stand};
use lane_work::Consumed;
use shard_queue::SenderEnded;
use std::alloc::{AllocError, Global};
use std::sync::{Mutex, Wait};
use workers_sync::{Actor, Gate, SyncPoint};

/// The shared consumers of all shards.
pub struct ConsumerSet<B: Naming, H: LaneGroup> {
    /// Each behind its lock, at the position of its shard.
    pub shared_consumers: Vec<Mutex<SharedConsumer<B, H>>>,
    /// For each, room for what is left of its senders.
    pub rooms: Vec<Vec<SenderEnded<Answer<B>>>>,
    /// Room for their stands, where they are stood down.
    pub stands: Vec<Stand<B>>,
}

/// What all shared consumers left.
pub struct Dismissed<B: Naming> {
    /// What each left, in their order.
    pub consumed: Vec<Consumed<B>>,
    /// Whether each shared consumer stood at the position of its shard. It always does, but a lock doesn't tell.
    pub in_order: bool,
}

impl<B: Naming, H: LaneGroup> ConsumerSet<B, H> {
    /// Nobody, with room for so many. An error where memory is refused; nothing is left then.
    pub fn with_room(alloc: Global, shards: usize) -> Result<ConsumerSet<B, H>, AllocError>
        ensures shared_consumers { IfOk result (λ s. (s.shared_consumers.items ≡ [])
            × (shards ≤ vec_capacity s.shared_consumers)) }
        ensures rooms { IfOk result (λ s. (s.rooms.items ≡ []) × (shards ≤ vec_capacity s.rooms)) }
        ensures stands { IfOk result (λ s. (s.stands.items ≡ [])
            × (shards ≤ vec_capacity s.stands)) }
    {
        let shared_consumers = Vec::with_capacity(alloc, shards)?;
        let Ok(rooms) = Vec::with_capacity(alloc, shards) else {
            shared_consumers.destroy_empty();
            return Err(AllocError);
        };
        let Ok(stands) = Vec::with_capacity(alloc, shards) else {
            shared_consumers.destroy_empty();
            rooms.destroy_empty();
            return Err(AllocError);
        };
        Ok(ConsumerSet {
            shared_consumers,
            rooms,
            stands,
        })
    }
}

// The shared consumer of the stand at this position, behind a lock, and the room that was there.
fn make<B: Naming, H: LaneGroup>(
    shared: &HouseShared<B>,
    stand: Stand<B>,
    position: usize,
) -> (Mutex<SharedConsumer<B, H>>, Vec<SenderEnded<Answer<B>>>)
    requires lanes { H.lanes ≡ Some shared.now.intake.lanes.items }
    requires delivery { H.delivery ≡ Some (parts_of shared.now.delivery) }
    requires there { position < length shared.now.intake.lanes.items }
    requires stand { IsStand shared.now position stand }
    ensures { (result.1.items ≡ [])
        × (length shared.now.delivery.channels.items ≤ vec_capacity result.1) }
{
    let Stand { stall, room } = stand;
    (Mutex::new(SharedConsumer::new(stall)), room)
}

/// A shared consumer for each stand, in their order. `consumer_set`, which is empty, has room for all.
pub fn make_all<B: Naming, H: LaneGroup>(
    shared: &HouseShared<B>,
    mut stands: Vec<Stand<B>>,
    mut consumer_set: ConsumerSet<B, H>,
) -> ConsumerSet<B, H>
    // The shared state is that of the set of consumers's lane group.
    requires lanes { H.lanes ≡ Some shared.now.intake.lanes.items }
    requires delivery { H.delivery ≡ Some (parts_of shared.now.delivery) }

    // There is a stand for each shard, at its number, which has taken nothing and sent nothing.
    requires stands { AllAt (IsStand shared.now) 0 stands.items
        × (vec_len stands ≡ length shared.now.intake.lanes.items) }

    // Nobody is spawned yet, and there is room for all.
    requires shared_consumers { (consumer_set.shared_consumers.items ≡ [])
        × (length shared.now.intake.lanes.items ≤ vec_capacity consumer_set.shared_consumers) }
    requires rooms { (consumer_set.rooms.items ≡ [])
        × (length shared.now.intake.lanes.items ≤ vec_capacity consumer_set.rooms) }

    // There is a shared consumer for each lane, and for each an empty list with room for what is left of all its senders.
    ensures shared_consumers { vec_len result.shared_consumers
        ≡ length shared.now.intake.lanes.items }
    ensures rooms { AreRooms (length shared.now.intake.lanes.items)
        (length shared.now.delivery.channels.items) result.rooms }
    ensures stands { result.stands ≡ consumer_set.stands }
{
    for position in 0..shared.intake.lanes.len() {
        let (shared_consumer, room) = make(shared, stands.remove(0), position);
        consumer_set.shared_consumers.push_reserved(shared_consumer);
        consumer_set.rooms.push_reserved(room);
    }
    stands.destroy_empty();
    consumer_set
}

// What the shared consumer behind a lock leaves, and the number of its shard.
fn dismiss<B: Naming, H: LaneGroup, R: Wait, G: Gate>(
    rt: &R,
    gate: &G,
    shared: &HouseShared<B>,
    shared_consumer: Mutex<SharedConsumer<B, H>>,
    room: Vec<SenderEnded<Answer<B>>>,
) -> (u8, Consumed<B>)
    requires lanes { H.lanes ≡ Some shared.now.intake.lanes.items }
    requires delivery { H.delivery ≡ Some (parts_of shared.now.delivery) }
    requires room { (room.items ≡ [])
        × (length shared.now.delivery.channels.items ≤ vec_capacity room) }
    ensures service { IsService shared.now.intake.lanes.items shared.now.delivery
        result.0 result.1 }
    ensures count { vec_len result.1.senders ≡ length shared.now.delivery.channels.items }
    ensures none { (result.1.taken.items ≡ []) × (result.1.kept ≡ false) }
{
    let mut shared_consumer = shared_consumer.into_inner();
    let shard = shared_consumer.shard();
    let mut sync_point = SyncPoint::new(gate, Actor::Consumer(shard));
    shared_consumer.clear(rt, &mut sync_point, &shared.intake.lanes, &shared.delivery);
    let consumed = shared_consumer.into_consumed(
        rt,
        &mut sync_point,
        &shared.delivery,
        room,
        shared.alloc,
    );
    (shard, consumed)
}

/// Clears each lane a last time, and ends each shared consumer's permit on each reply channel: what all of them
/// leave. No copy was kept. `consumed`, which is empty, has room for all.
pub fn dismiss_all<B: Naming, H: LaneGroup, R: Wait, G: Gate>(
    rt: &R,
    gate: &G,
    shared: &HouseShared<B>,
    consumer_set: ConsumerSet<B, H>,
    mut consumed: Vec<Consumed<B>>,
) -> Dismissed<B>
    // The shared state is that of the set of consumers's lane group.
    requires lanes { H.lanes ≡ Some shared.now.intake.lanes.items }
    requires delivery { H.delivery ≡ Some (parts_of shared.now.delivery) }

    // There is a shared consumer for each lane, and for each an empty list with room for what is left of all its senders.
    requires shared_consumers { vec_len consumer_set.shared_consumers
        ≡ length shared.now.intake.lanes.items }
    requires rooms { AreRooms (length shared.now.intake.lanes.items)
        (length shared.now.delivery.channels.items) consumer_set.rooms }
    requires stands { consumer_set.stands.items ≡ [] }
    requires consumed { (consumed.items ≡ [])
        × (length shared.now.intake.lanes.items ≤ vec_capacity consumed) }
    ensures count { vec_len result.consumed ≡ length shared.now.intake.lanes.items }

    // Where they stood in order: the i-th left what a consumer of shard i leaves, and at one moment nothing waited on its lane.
    ensures services { result.in_order ≡ true
        → AllAt (IsService shared.now.intake.lanes.items shared.now.delivery) 0
        result.consumed.items }
    ensures permits { result.in_order ≡ true
        → AreConsumers shared.now.intake.lanes.items (map (λ c. c.permit) result.consumed.items) }
    ensures hands { result.in_order ≡ true
        → AreSenderEndedHands shared.now.delivery.channels.items 0 (map (λ c.
        c.senders.items) result.consumed.items) }

    // In whatever order, each left what is left of a sender for each channel, and kept no copy.
    ensures senders { All (λ c. vec_len c.senders
        ≡ length shared.now.delivery.channels.items) result.consumed.items }
    ensures none { All (λ c. (c.taken.items ≡ []) × (c.kept ≡ false)) result.consumed.items }
{
    let ConsumerSet {
        mut shared_consumers,
        mut rooms,
        stands,
    } = consumer_set;
    stands.destroy_empty();
    let mut in_order = true;
    for position in 0..shared.intake.lanes.len() {
        let (shard, one) = dismiss(
            rt,
            gate,
            shared,
            shared_consumers.remove(0),
            rooms.remove(0),
        );
        in_order &= usize::from(shard) == position;
        consumed.push_reserved(one);
    }
    shared_consumers.destroy_empty();
    rooms.destroy_empty();
    Dismissed { consumed, in_order }
}

// The stand of the shared consumer behind a lock, with the room that was there.
fn leave_stand<B: Naming, H: LaneGroup>(
    shared_consumer: Mutex<SharedConsumer<B, H>>,
    room: Vec<SenderEnded<Answer<B>>>,
) -> Stand<B>
    requires room { room.items ≡ [] }
    ensures senders { (delivery : Parts) → H.delivery ≡ Some delivery
        → vec_len result.stall.senders ≡ length delivery.channels }
    ensures room { result.room.items ≡ [] }
{
    let shared_consumer = shared_consumer.into_inner();
    Stand {
        stall: shared_consumer.into_stall(),
        room,
    }
}

/// Each shared consumer's stand, in their order, whether it has worked there or not: for a run that comes to
/// nothing. None of its senders has ended.
pub fn stand_down<B: Naming, H: LaneGroup>(
    shared: &HouseShared<B>,
    consumer_set: ConsumerSet<B, H>,
) -> Vec<Stand<B>>
    // The delivery side is that of the set of consumers's lane group.
    requires delivery { H.delivery ≡ Some (parts_of shared.now.delivery) }

    // There is a shared consumer for each lane, and for each an empty list with room for what is left of all its senders.
    requires shared_consumers { vec_len consumer_set.shared_consumers
        ≡ length shared.now.intake.lanes.items }
    requires rooms { AreRooms (length shared.now.intake.lanes.items)
        (length shared.now.delivery.channels.items) consumer_set.rooms }
    requires stands { (consumer_set.stands.items ≡ [])
        × (length shared.now.intake.lanes.items ≤ vec_capacity consumer_set.stands) }
    ensures count { vec_len result ≡ length shared.now.intake.lanes.items }

    // Each has a sender for each channel, and nothing lies in its room.
    ensures stands { All (λ s. (vec_len s.stall.senders ≡ length shared.now.delivery.channels.items)
        × (s.room.items ≡ [])) result.items }
{
    let ConsumerSet {
        mut shared_consumers,
        mut rooms,
        mut stands,
    } = consumer_set;
    for done in 0..shared.intake.lanes.len() {
        stands.push_reserved(leave_stand(shared_consumers.remove(0), rooms.remove(0)));
    }
    shared_consumers.destroy_empty();
    rooms.destroy_empty();
    stands
}
