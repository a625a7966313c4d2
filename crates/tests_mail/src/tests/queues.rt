//! A shard queue by its worked case, and shared by sixteen threads.

ghost use Rattle.std.specs.Prelude.{◌≡◌, All};
ghost use Rattle.shard_queue.specs.Permits.{IsEnded, IsConsumer};

use super::parcels::{
    ITEMS, are_all, at_end, handed_back, is_next, last_permit, pack_all, put, unpack_all, work,
};
use shard_queue::{ConsumerPermit, Ended, NotAll, ShardQueue, Taken};
use std::alloc::Global;
use std::process::Abort;
use std::sync::Wait;
use std::test::Fail;
use std::thread;

// Takes so many entries, and says whether each producer's items came in order, each before its end.
fn take_all(
    rt: &impl Wait,
    queue: &ShardQueue<u32>,
    permit: &mut ConsumerPermit<u32>,
    next: &mut [u32],
    entries: u32,
) -> bool
    requires { IsConsumer queue.now permit.old }
    ensures { IsConsumer queue.now permit.new }
{
    let mut in_order = true;
    for _ in 0..entries {
        let is_right = match queue.take_as(rt, permit) {
            Taken::Item(p, item) => is_next(next, p, item),
            Taken::End(p) => is_next(next, p, ITEMS),
            Taken::Empty => false,
        };
        in_order = in_order && is_right;
    }
    in_order
}

// Whose entry is taken, where one waits, and its item, which an end has not.
fn taken(
    rt: &impl Wait,
    queue: &ShardQueue<u32>,
    permit: &mut ConsumerPermit<u32>,
) -> Option<(u8, Option<u32>)>
    requires { IsConsumer queue.now permit.old }
    ensures { IsConsumer queue.now permit.new }
{
    match queue.take_as(rt, permit) {
        Taken::Item(p, item) => Some((p, Some(item))),
        Taken::End(p) => Some((p, None)),
        Taken::Empty => None,
    }
}

// All that was given to a queue that can't be closed yet.
fn not_yet(
    rt: &impl Abort,
    queue: ShardQueue<u32>,
    ended: Vec<Ended<u32>>,
    permit: ConsumerPermit<u32>,
) -> NotAll<u32>
    requires permit { IsConsumer queue permit }
    requires ended { All (IsEnded queue) ended.items }
    ensures { (result.lane ≡ queue) × (result.ended ≡ ended) × (result.permit ≡ permit) }
{
    match queue.close(ended, permit) {
        Err(all) => all,
        Ok(_) => panic!(rt; "it was closed"),
    }
}

// Whether the queue could be closed.
fn closes(
    alloc: Global,
    queue: ShardQueue<u32>,
    ended: Vec<Ended<u32>>,
    permit: ConsumerPermit<u32>,
) -> bool
    requires permit { IsConsumer queue permit }
    requires ended { All (IsEnded queue) ended.items }
{
    match queue.close(ended, permit) {
        Ok(_) => true,
        Err(
            NotAll {
                lane: queue,
                ended,
                permit,
            },
        ) => {
            queue.abandon(Vec::new(alloc), ended, permit);
            false
        }
    }
}

#[test]
fn a_full_queue_hands_back(rt: HostRuntime) {
    let alloc = rt.alloc();
    let mut ended = Vec::with_capacity(alloc, 1).expect(&rt, "memory");
    let (queue, mut permits, mut consumer) = ShardQueue::<u32>::new(alloc, 2, 2).expect(
        &rt, "memory",
    );
    let mut second = last_permit(&rt, &queue, &mut permits);
    let mut first = last_permit(&rt, &queue, &mut permits);
    let numbers = [first.number(), second.number()];
    let one = put(&rt, &queue, &mut first, 7);
    let two = put(&rt, &queue, &mut second, 8);
    let three = put(&rt, &queue, &mut first, 9);
    let first = handed_back(&rt, &queue, first);
    let back = first.number();
    let one_taken = taken(&rt, &queue, &mut consumer);
    let first = at_end(&rt, &queue, first);
    let over = first.number();
    let two_taken = taken(&rt, &queue, &mut consumer);
    let end_taken = taken(&rt, &queue, &mut consumer);
    let none_taken = taken(&rt, &queue, &mut consumer);
    ended.push_reserved(first);
    permits.push_reserved(second);
    queue.abandon(permits, ended, consumer);
    assert_eq!(rt; (numbers, back, over), ([0, 1], 0, 0));
    assert_eq!(rt; [one, two, three], [None, None, Some(9)]);
    assert_eq!(rt;
        [one_taken, two_taken, end_taken, none_taken],
        [
            Some((0, Some(7))),
            Some((1, Some(8))),
            Some((0, None)),
            None
        ]
    );
}

#[test]
fn a_queue_is_closed_after_all_ends(rt: HostRuntime) {
    let alloc = rt.alloc();
    let mut ended = Vec::with_capacity(alloc, 2).expect(&rt, "memory");
    let (queue, mut permits, mut consumer) = ShardQueue::<u32>::new(alloc, 2, 2).expect(
        &rt, "memory",
    );
    let second = last_permit(&rt, &queue, &mut permits);
    let first = last_permit(&rt, &queue, &mut permits);
    permits.destroy_empty();
    ended.push_reserved(at_end(&rt, &queue, first));
    let first_end = taken(&rt, &queue, &mut consumer);
    let NotAll {
        lane: queue,
        mut ended,
        permit,
    } = not_yet(&rt, queue, ended, consumer);
    ended.push_reserved(at_end(&rt, &queue, second));
    let NotAll {
        lane: queue,
        ended,
        mut permit,
    } = not_yet(&rt, queue, ended, permit);
    let second_end = taken(&rt, &queue, &mut permit);
    let closed = closes(alloc, queue, ended, permit);
    assert_eq!(rt; (first_end, second_end), (Some((0, None)), Some((1, None))));
    assert!(rt; closed);
}

#[test]
fn sixteen_threads_share_a_queue(rt: HostRuntime) -> Result<(), Fail> {
    let alloc = rt.alloc();
    let parcels = Vec::with_capacity(alloc, 16)?;
    let room = Vec::with_capacity(alloc, 16).expect(&rt, "memory");
    let (queue, permits, mut permit) = ShardQueue::<u32>::new(alloc, 1024, 16).expect(
        &rt, "memory",
    );
    let parcels = pack_all(&queue, permits, parcels);
    let parcels = thread::map_vec(&rt, parcels, &|parcel| work(&rt, &queue, parcel)).expect(
        &rt, "memory",
    );
    let ended = unpack_all(&queue, parcels, room);
    let mut next = [0; 16];
    let in_order = take_all(&rt, &queue, &mut permit, &mut next, 816);
    let none_taken = taken(&rt, &queue, &mut permit);
    let closed = closes(alloc, queue, ended, permit);
    assert!(rt; in_order, "in order");
    assert!(rt; are_all(&next), "all of them");
    assert_eq!(rt; none_taken, None);
    assert!(rt; closed);
    Ok(())
}
