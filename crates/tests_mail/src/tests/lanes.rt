//! A lane on one thread by its worked cases, as tables: what goes in comes out in its order, until its producers have ended.

use shard_queue::{Full, PlainLane, Taken};
use std::alloc::{AllocError, Global};

// A call, and what it is to answer.
enum Act {
    // A producer puts an item: the item, where it has no room.
    Put(u8, u8, Option<u8>),
    // A producer ends: whether there is room.
    End(u8, bool),
    // Whose entry is taken, where one waits, and its item, which an end has not.
    Take(Option<(u8, Option<u8>)>),
    IsLive(u8, bool),
    HasItem(bool),
    IsFull(bool),
}

// Whether a producer may put, and the item comes back as it should.
fn puts(lane: &mut PlainLane<u8>, p: u8, item: u8, back: Option<u8>) -> bool {
    if !lane.is_live(p) {
        return false;
    }
    match lane.put(p, item) {
        Ok(()) => back.is_none(),
        Err(Full(item)) => back == Some(item),
    }
}

// Whether a producer may end, and has room for it as it should.
fn ends(lane: &mut PlainLane<u8>, p: u8, has_room: bool) -> bool {
    lane.is_live(p) && lane.end(p).is_ok() == has_room
}

fn taken(lane: &mut PlainLane<u8>) -> Option<(u8, Option<u8>)> {
    match lane.take() {
        Taken::Item(p, item) => Some((p, Some(item))),
        Taken::End(p) => Some((p, None)),
        Taken::Empty => None,
    }
}

// Whether an act answers as it should.
fn step(lane: &mut PlainLane<u8>, act: &Act) -> bool {
    match act {
        Act::Put(p, item, back) => puts(lane, *p, *item, *back),
        Act::End(p, has_room) => ends(lane, *p, *has_room),
        Act::Take(wanted) => taken(lane) == *wanted,
        Act::IsLive(p, wanted) => lane.is_live(*p) == *wanted,
        Act::HasItem(wanted) => lane.has_item() == *wanted,
        Act::IsFull(wanted) => lane.is_full() == *wanted,
    }
}

// The position of the first act that answers otherwise, where there is one.
fn play(
    alloc: Global,
    capacity: usize,
    producers: u8,
    acts: &[Act],
) -> Result<Option<usize>, AllocError> {
    let mut lane = PlainLane::new(alloc, capacity, producers)?;
    for k in 0..acts.len() {
        if !step(&mut lane, &acts[k]) {
            return Ok(Some(k));
        }
    }
    Ok(None)
}

const ONE_PRODUCER: &[Act] = &[
    Act::IsLive(0, true),
    Act::IsLive(1, false),
    Act::HasItem(false),
    Act::Put(0, 7, None),
    Act::End(0, true),
    Act::HasItem(true),
    Act::IsLive(0, false),
    Act::Take(Some((0, Some(7)))),
    Act::Take(Some((0, None))),
    Act::Take(None),
];

#[test]
fn entries_come_in_their_order_until_the_end(rt: HostRuntime) -> Result<(), AllocError> {
    assert_eq!(rt; play(rt.alloc(), 2, 1, ONE_PRODUCER)?, None);
    Ok(())
}

const TWO_PRODUCERS: &[Act] = &[
    Act::Put(0, b'a', None),
    Act::Put(1, b'b', None),
    Act::End(0, false),
    Act::Take(Some((0, Some(b'a')))),
    Act::End(0, true),
    Act::Take(Some((1, Some(b'b')))),
    Act::Take(Some((0, None))),
    Act::Take(None),
];

#[test]
fn two_producers_share_a_lane(rt: HostRuntime) -> Result<(), AllocError> {
    assert_eq!(rt; play(rt.alloc(), 2, 2, TWO_PRODUCERS)?, None);
    Ok(())
}

const FULL: &[Act] = &[
    Act::IsFull(false),
    Act::Put(0, 7, None),
    Act::IsFull(true),
    Act::Put(0, 8, Some(8)),
    Act::End(0, false),
];

#[test]
fn a_full_lane_hands_the_item_back(rt: HostRuntime) -> Result<(), AllocError> {
    assert_eq!(rt; play(rt.alloc(), 1, 1, FULL)?, None);
    Ok(())
}
