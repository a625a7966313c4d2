//! Three workers' permits on two lanes, without threads: the lanes close where each end was taken, and
//! not where one is left.

ghost use Rattle.std.specs.Prelude.{◌≡◌, ◌≤◌, [], length, map, All, vec_len, vec_capacity};
ghost use Rattle.shard_queue.specs.Permits.{IsConsumer, IsEnded, IsProducer, ended_number, number_of};
ghost use Rattle.lane_work.specs.Permits.{AreEnded, ArePermits, IsPermit, permit_number};
ghost use Rattle.lane_work.specs.Rooms.{AreHandRooms};
ghost use Rattle.lane_work.specs.LanePermits.{AreConsumers, AreEndedHands, AreHands};

use house_history::{Letter, Naming};
use lane_work::{
    Hands, LanePermit, Lanes, PermitRooms, Rooms, close_lanes, collect_all, deal_all, make_lanes,
    make_rooms, spend_permit_rooms, spend_rooms,
};
use shard_queue::{ConsumerPermit, Ended, EntryQueue, ProducerPermit, ShardQueue};
use std::alloc::{AllocError, Global};
use std::marker::Brand;
use std::sync::Wait;

// Ends a permit; each lane here has room for all ends.
fn end_live<B: Naming, R: Wait>(
    rt: &R,
    lane: &ShardQueue<Letter<B>>,
    mut permit: ProducerPermit<Letter<B>>,
) -> Ended<Letter<B>>
    requires { IsProducer lane.now permit }
    ensures { IsEnded lane.now result × (ended_number result ≡ number_of permit) }
{
    for _ in rt.forever() {
        match lane.end_as(rt, permit) {
            Ok(ended) => return ended,
            Err(back) => permit = back,
        }
    }
    unreachable!()
}

// The same of one that may be over.
fn end_permit<B: Naming, R: Wait>(
    rt: &R,
    lane: &ShardQueue<Letter<B>>,
    permit: LanePermit<Letter<B>>,
) -> Ended<Letter<B>>
    requires { IsPermit lane.now permit }
    ensures { IsEnded lane.now result × (ended_number result ≡ permit_number permit) }
{
    match permit {
        LanePermit::Live(live) => end_live(rt, lane, live),
        LanePermit::Over(ended) => ended,
    }
}

// Ends one producer's permits.
fn end_hand<B: Naming, R: Wait>(
    rt: &R,
    lanes: &[ShardQueue<Letter<B>>],
    number: u8,
    mut hand: Vec<LanePermit<Letter<B>>>,
    mut ended: Vec<Ended<Letter<B>>>,
) -> Vec<Ended<Letter<B>>>
    requires permits { ArePermits lanes.now number hand.items }
    requires room { (ended.items ≡ []) × (length lanes.now ≤ vec_capacity ended) }
    ensures ended { AreEnded lanes.now number result.items }
    ensures len { vec_len result ≡ length lanes.now }
{
    for lane in 0..lanes.len() {
        let permit = hand.remove(0);
        ended.push_reserved(end_permit(rt, &lanes[lane], permit));
    }
    hand.destroy_empty();
    ended
}

// Ends all producers' permits.
fn end_hands<B: Naming, R: Wait>(
    rt: &R,
    lanes: &[ShardQueue<Letter<B>>],
    producers: u8,
    mut hands: Vec<Vec<LanePermit<Letter<B>>>>,
    rooms: Hands<Ended<Letter<B>>>,
) -> Vec<Vec<Ended<Letter<B>>>>
    requires count { vec_len hands ≡ producers }
    requires hands { AreHands lanes.now 0 (map (λ v. v.items) hands.items) }
    requires rooms { AreHandRooms producers (length lanes.now) rooms }
    ensures count { vec_len result ≡ producers }
    ensures each { All (λ v. vec_len v ≡ length lanes.now) result.items }
    ensures hands { AreEndedHands lanes.now 0 (map (λ v. v.items) result.items) }
{
    let Hands { mut each, mut all } = rooms;
    for number in 0..producers {
        let hand = hands.remove(0);
        let room = each.remove(0);
        all.push_reserved(end_hand(rt, lanes, number, hand, room));
    }
    hands.destroy_empty();
    each.destroy_empty();
    all
}

// Takes so many times from a lane.
fn take_from<B: Naming, R: Wait>(
    rt: &R,
    lane: &ShardQueue<Letter<B>>,
    permit: &mut ConsumerPermit<Letter<B>>,
    times: usize,
)
    requires { IsConsumer lane.now permit.old }
    ensures { IsConsumer lane.now permit.new }
{
    for _ in 0..times {
        let _taken = lane.take_as(rt, permit);
    }
}

// Takes so many times from each lane.
fn take_from_all<B: Naming, R: Wait>(
    rt: &R,
    lanes: &[ShardQueue<Letter<B>>],
    consumers: &mut Vec<ConsumerPermit<Letter<B>>>,
    times: usize,
)
    requires { AreConsumers lanes.now consumers.old.items }
    ensures { AreConsumers lanes.now consumers.new.items }
{
    for lane in 0..lanes.len() {
        take_from(rt, &lanes[lane], &mut consumers[lane], times);
    }
}

// Whether two lanes close whose three producers have ended, after so many takes from each.
fn close_after<B: Naming, R: Wait>(
    rt: &R,
    alloc: Global,
    takes: usize,
) -> Result<bool, AllocError> {
    let closed = Vec::with_capacity(alloc, 2)?;
    let rooms = make_rooms(alloc, 3, 2)?;
    let lanes = match make_lanes::<EntryQueue<Letter<B>>>(alloc, &[4, 4], 3) {
        Ok(lanes) => lanes,
        Err(e) => {
            spend_rooms(rooms);
            return Err(e);
        }
    };
    let Rooms {
        producers,
        consumers: unused,
    } = rooms;
    spend_permit_rooms(unused);
    let PermitRooms {
        permits: rooms,
        ended,
        mut lists,
    } = producers;
    let Hands { each, all } = rooms;
    let Lanes {
        lanes: queues,
        permits,
        mut consumers,
    } = lanes;
    let hands = deal_all(queues.as_slice(), permits, 3, each, all);
    let ended = end_hands(rt, queues.as_slice(), 3, hands, ended);
    take_from_all(rt, queues.as_slice(), &mut consumers, takes);
    collect_all(&mut lists, ended);
    Ok(close_lanes(alloc, queues, lists, consumers, closed).is_some())
}

#[test]
fn lanes_close_where_each_end_was_taken(rt: HostRuntime) -> Result<(), AllocError> {
    assert!(&rt; close_after::<Brand, _>(&rt, rt.alloc(), 3)?);
    assert!(&rt; !close_after::<Brand, _>(&rt, rt.alloc(), 2)?);
    Ok(())
}
