//! A worker's permits and a consumer's senders are ended, and a worker hears the ends of its reply
//! channel. What stood on them before does not matter here.

ghost use Rattle.std.specs.Prelude.{true, false, ◌≡◌, ◌↔◌, ◌≤◌, ◌+◌, ◌-◌, ◌++◌, ◌∷◌, [], length, map, vec_capacity};
ghost use Rattle.shard_queue.specs.declared.lane.Entry.TheVariants as entries;
ghost use Rattle.shard_queue.specs.SharedLane as lanes;
ghost use Rattle.shard_queue.specs.Permits.{IsEnded, said, number_of, ended_number};
ghost use Rattle.shard_queue.specs.Reply.{IsReceiver, received, sent_on, said_on};
ghost use Rattle.shard_queue.specs.Shared.{IsStartOf};
ghost use Rattle.lane_work.specs.Permits.{AreEnded, ArePermits, AreSenders, AreSendersEnded, IsPermit, permit_number, put_by};
ghost use Rattle.lane_work.specs.Account.{HaveEnded};
ghost use Rattle.lane_work.specs.Answering.{HaveClosed};
ghost use Rattle.lane_work.specs.Ends.{ends_in};

use crate::bells::Notifier;
use crate::desk::{Intake, LanePermit};
use house_history::{Answer, Letter, Naming};
use shard_queue::{
    Carrier, Ended, EndedPermit, Entry, Permit, ReceiverPermit, ReplyChannel, SenderEnded,
    SenderPermit, ShardQueue, SharedLane,
};
use std::sync::Wait;
use std::thread;
use workers_sync::{Gate, SyncPoint};

/// Ends a permit: its end goes behind all that it has put. Where the lane is full it tries again until
/// there is room.
pub fn end_one<C: Carrier, R: Wait, G: Gate>(
    rt: &R,
    sync_point: &mut SyncPoint<'_, G>,
    lane: &SharedLane<C>,
    mut permit: Permit<C::Pass>,
) -> EndedPermit<C::Pass>
    requires { lanes.IsPermit C.view C.is_of lane.now permit }
    ensures { lanes.IsEndedPermit C.view C.is_of lane.now result
        × (ended_number result ≡ number_of permit)
        × (lanes.said C.view result
        ≡ lanes.sent C.view permit ++ entries.End (number_of permit) ∷ []) }
{
    for _ in rt.forever() {
        sync_point.pass();
        match lane.end_as(rt, permit) {
            Ok(ended) => return ended,
            Err(back) => permit = back,
        }
        thread::yield_now();
    }
    unreachable!()
}

/// The same of a permit that may be over: then it stays as it is.
pub fn end_permit<B: Naming, R: Wait, G: Gate>(
    rt: &R,
    sync_point: &mut SyncPoint<'_, G>,
    lane: &ShardQueue<Letter<B>>,
    permit: LanePermit<Letter<B>>,
) -> Ended<Letter<B>>
    requires { IsPermit lane.now permit }
    ensures { IsEnded lane.now result × (ended_number result ≡ permit_number permit) ×
        (said result ≡ put_by permit ++ entries.End (permit_number permit) ∷ []) }
{
    match permit {
        LanePermit::Live(live) => end_one(rt, sync_point, lane, live),
        LanePermit::Over(ended) => ended,
    }
}

/// Ends a worker's permit on each lane, from the first on, and notifies whoever is to take it there. One
/// that is over stays as it is. `ended`, which is empty, has room for all.
pub fn end_all<B: Naming, R: Wait, G: Gate, S: Notifier>(
    rt: &R,
    sync_point: &mut SyncPoint<'_, G>,
    intake: &Intake<B>,
    notifier: &S,
    number: u8,
    mut permits: Vec<LanePermit<Letter<B>>>,
    mut ended: Vec<Ended<Letter<B>>>,
) -> Vec<Ended<Letter<B>>>
    // There is a permit of this producer on each lane, over or not.
    requires permits { ArePermits intake.now.lanes.items number permits.items }
    requires room { (ended.items ≡ []) × (length intake.now.lanes.items ≤ vec_capacity ended) }

    // Each has ended: on its lane was said what had been put there, then the producer's end, and nothing else.
    ensures ended { AreEnded intake.now.lanes.items number result.items }
    ensures said { HaveEnded number (map put_by permits.items) (map said result.items) }
{
    for lane in 0..intake.lanes.len() {
        let permit = permits.remove(0);
        ended.push_reserved(end_permit(rt, sync_point, &intake.lanes[lane], permit));
        notifier.notify(rt, lane);
    }
    permits.destroy_empty();
    ended
}

// Whether an end came. What else came is let go.
fn is_end<B: Naming>(entry: Entry<Answer<B>>) -> bool
    ensures end { result ≡ true → ends_in (entry ∷ []) ≡ 1 }
    ensures other { result ≡ false → ends_in (entry ∷ []) ≡ 0 }
{
    match entry {
        Entry::Item(_, _) => false,
        Entry::End(_) => true,
    }
}

/// Receives until the ends of so many shards came, of which `heard` came before. Answers whether nothing
/// else came.
pub fn hear_ends<B: Naming, R: Wait, G: Gate>(
    rt: &R,
    sync_point: &mut SyncPoint<'_, G>,
    channel: &ReplyChannel<Answer<B>>,
    receiver: &mut ReceiverPermit<Answer<B>>,
    mut heard: usize,
    shards: usize,
) -> bool
    requires { IsReceiver channel.now receiver.old }

    // The receiver stays the channel's, and what it had received stands in front of what it received since.
    ensures receiver { IsReceiver channel.now receiver.new }
    ensures grew { IsStartOf (received receiver.old) (received receiver.new) }

    // `true` is answered exactly where nothing but ends came: as many more were received as ends.
    ensures quiet { (result ≡ true)
        ↔ (length (received receiver.new) + ends_in (received receiver.old)
        ≡ length (received receiver.old) + ends_in (received receiver.new)) }

    // The ends that were heard before (`heard`) and those that came now are as many as `shards`, or more.
    ensures ends { shards + ends_in (received receiver.old)
        ≤ heard + ends_in (received receiver.new) }
    // As many ends came now as were missing, and no more: none where those before were enough.
    ensures missing { ends_in (received receiver.new)
        ≡ ends_in (received receiver.old) + (shards - heard) }
{
    let mut quiet = true;
    for _ in rt.forever() {
        if heard >= shards {
            return quiet;
        }
        sync_point.pass();
        if is_end(channel.recv_as(rt, receiver)) {
            heard += 1;
        } else {
            quiet = false;
        }
    }
    unreachable!()
}

/// Ends a consumer's permit on each reply channel, from the first on. `ended`, which is empty, has room
/// for all.
pub fn end_senders<B: Naming, R: Wait, G: Gate>(
    rt: &R,
    sync_point: &mut SyncPoint<'_, G>,
    channels: &[ReplyChannel<Answer<B>>],
    shard: u8,
    mut senders: Vec<SenderPermit<Answer<B>>>,
    mut ended: Vec<SenderEnded<Answer<B>>>,
) -> Vec<SenderEnded<Answer<B>>>
    // There is a sender's permit on each channel, of this shard's number.
    requires senders { AreSenders channels.now shard senders.items }
    requires room { (ended.items ≡ []) × (length channels.now ≤ vec_capacity ended) }

    // Each has ended: on its channel was said what had been sent there, then the sender's end, and nothing else.
    ensures ended { AreSendersEnded channels.now shard result.items }
    ensures said { HaveClosed shard (map sent_on senders.items) (map said_on result.items) }
{
    for channel in 0..channels.len() {
        let sender = senders.remove(0);
        ended.push_reserved(end_one(rt, sync_point, &channels[channel], sender));
    }
    senders.destroy_empty();
    ended
}
