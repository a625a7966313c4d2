//! A reply channel by its worked case, and shared by eight threads.

ghost use Rattle.std.specs.Prelude.{◌≡◌, All};
ghost use Rattle.shard_queue.specs.Reply.{IsSenderEnded, IsReceiver};

use super::parcels::{
    ITEMS, are_all, at_end, handed_back, is_next, last_permit, pack_all, put, unpack_all, work,
};
use shard_queue::{Entry, ReceiverPermit, ReplyChannel, ReplyNotAll, SenderEnded};
use std::alloc::Global;
use std::process::Abort;
use std::sync::Wait;
use std::test::Fail;
use std::thread;

// Takes so many entries, and says whether each producer's items came in order, each before its end.
fn receive_all(
    rt: &impl Wait,
    channel: &ReplyChannel<u32>,
    permit: &mut ReceiverPermit<u32>,
    next: &mut [u32],
    entries: u32,
) -> bool
    requires { IsReceiver channel.now permit.old }
    ensures { IsReceiver channel.now permit.new }
{
    let mut in_order = true;
    for _ in 0..entries {
        let is_right = match channel.recv_as(rt, permit) {
            Entry::Item(p, item) => is_next(next, p, item),
            Entry::End(p) => is_next(next, p, ITEMS),
        };
        in_order = in_order && is_right;
    }
    in_order
}

// Whose entry is received, and its item, which an end has not.
fn received(
    rt: &impl Wait,
    channel: &ReplyChannel<u32>,
    permit: &mut ReceiverPermit<u32>,
) -> (u8, Option<u32>)
    requires { IsReceiver channel.now permit.old }
    ensures { IsReceiver channel.now permit.new }
{
    match channel.recv_as(rt, permit) {
        Entry::Item(p, item) => (p, Some(item)),
        Entry::End(p) => (p, None),
    }
}

// All that was given to a channel that can't be closed yet.
fn not_yet(
    rt: &impl Abort,
    channel: ReplyChannel<u32>,
    ended: Vec<SenderEnded<u32>>,
    permit: ReceiverPermit<u32>,
) -> ReplyNotAll<u32>
    requires permit { IsReceiver channel permit }
    requires ended { All (IsSenderEnded channel) ended.items }
    ensures { (result.lane ≡ channel) × (result.ended ≡ ended) × (result.permit ≡ permit) }
{
    match channel.close(ended, permit) {
        Err(all) => all,
        Ok(_) => panic!(rt; "it was closed"),
    }
}

// Whether the channel could be closed.
fn closes(
    alloc: Global,
    channel: ReplyChannel<u32>,
    ended: Vec<SenderEnded<u32>>,
    permit: ReceiverPermit<u32>,
) -> bool
    requires permit { IsReceiver channel permit }
    requires ended { All (IsSenderEnded channel) ended.items }
{
    match channel.close(ended, permit) {
        Ok(_) => true,
        Err(
            ReplyNotAll {
                lane: channel,
                ended,
                permit,
            },
        ) => {
            channel.abandon(Vec::new(alloc), ended, permit);
            false
        }
    }
}

#[test]
fn a_full_channel_hands_back(rt: HostRuntime) {
    let alloc = rt.alloc();
    let mut ended = Vec::with_capacity(alloc, 1).expect(&rt, "memory");
    let (channel, mut permits, mut receiver) = ReplyChannel::<u32>::new(alloc, 2, 2).expect(
        &rt, "memory",
    );
    let mut second = last_permit(&rt, &channel, &mut permits);
    let mut first = last_permit(&rt, &channel, &mut permits);
    let numbers = [first.number(), second.number()];
    let one = put(&rt, &channel, &mut first, 7);
    let two = put(&rt, &channel, &mut second, 8);
    let three = put(&rt, &channel, &mut first, 9);
    let first = handed_back(&rt, &channel, first);
    let back = first.number();
    let one_received = received(&rt, &channel, &mut receiver);
    let first = at_end(&rt, &channel, first);
    let over = first.number();
    let two_received = received(&rt, &channel, &mut receiver);
    let end_received = received(&rt, &channel, &mut receiver);
    ended.push_reserved(first);
    permits.push_reserved(second);
    channel.abandon(permits, ended, receiver);
    assert_eq!(rt; (numbers, back, over), ([0, 1], 0, 0));
    assert_eq!(rt; [one, two, three], [None, None, Some(9)]);
    assert_eq!(rt;
        [one_received, two_received, end_received],
        [(0, Some(7)), (1, Some(8)), (0, None)]
    );
}

#[test]
fn a_channel_is_closed_after_all_ends(rt: HostRuntime) {
    let alloc = rt.alloc();
    let mut ended = Vec::with_capacity(alloc, 2).expect(&rt, "memory");
    let (channel, mut permits, mut receiver) = ReplyChannel::<u32>::new(alloc, 2, 2).expect(
        &rt, "memory",
    );
    let second = last_permit(&rt, &channel, &mut permits);
    let first = last_permit(&rt, &channel, &mut permits);
    permits.destroy_empty();
    ended.push_reserved(at_end(&rt, &channel, first));
    let first_end = received(&rt, &channel, &mut receiver);
    let ReplyNotAll {
        lane: channel,
        mut ended,
        permit,
    } = not_yet(&rt, channel, ended, receiver);
    ended.push_reserved(at_end(&rt, &channel, second));
    let ReplyNotAll {
        lane: channel,
        ended,
        mut permit,
    } = not_yet(&rt, channel, ended, permit);
    let second_end = received(&rt, &channel, &mut permit);
    let closed = closes(alloc, channel, ended, permit);
    assert_eq!(rt; (first_end, second_end), ((0, None), (1, None)));
    assert!(rt; closed);
}

#[test]
fn eight_threads_share_a_channel(rt: HostRuntime) -> Result<(), Fail> {
    let alloc = rt.alloc();
    let parcels = Vec::with_capacity(alloc, 8)?;
    let room = Vec::with_capacity(alloc, 8).expect(&rt, "memory");
    let (channel, permits, mut permit) = ReplyChannel::<u32>::new(alloc, 1024, 8).expect(
        &rt, "memory",
    );
    let parcels = pack_all(&channel, permits, parcels);
    let parcels = thread::map_vec(&rt, parcels, &|parcel| work(&rt, &channel, parcel)).expect(
        &rt, "memory",
    );
    let ended = unpack_all(&channel, parcels, room);
    let mut next = [0; 8];
    let in_order = receive_all(&rt, &channel, &mut permit, &mut next, 408);
    let closed = closes(alloc, channel, ended, permit);
    assert!(rt; in_order, "in order");
    assert!(rt; are_all(&next), "all of them");
    assert!(rt; closed);
    Ok(())
}
