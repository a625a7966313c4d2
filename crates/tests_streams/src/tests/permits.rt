//! The permits of one lane and one channel, and the lists of a house of one, which connections of a test are served over.

ghost use Rattle.std.specs.Prelude.{◌≡◌, ◌<◌, ◌≤◌, [], IfOk, OnOk, vec_len, vec_capacity};
ghost use Rattle.shard_queue.specs.Permits.{IsConsumer, IsProducer, number_of};
ghost use Rattle.shard_queue.specs.Reply.{IsReceiver, IsSender};

use house_history::{Answer, Letter, Naming};
use lane_work::LanePermit;
use shard_queue::{
    ConsumerPermit, Ended, ProducerPermit, ReceiverPermit, ReplyChannel, SenderPermit, ShardQueue,
};
use std::alloc::{AllocError, Global};

// The permits of one lane and one channel, each with one that puts and one that takes.
pub(crate) struct Permits<B: Naming> {
    pub(crate) lane: ShardQueue<Letter<B>>,
    pub(crate) producer: ProducerPermit<Letter<B>>,
    pub(crate) permit: ConsumerPermit<Letter<B>>,
    pub(crate) channel: ReplyChannel<Answer<B>>,
    pub(crate) sender: SenderPermit<Answer<B>>,
    pub(crate) receiver: ReceiverPermit<Answer<B>>,
}

pub(crate) fn make_permits<B: Naming>(alloc: Global) -> Result<Permits<B>, AllocError>
    ensures producer { IfOk result (λ s. IsProducer s.lane s.producer
        × (number_of s.producer ≡ 0)) }
    ensures permit { IfOk result (λ s. IsConsumer s.lane s.permit) }
    ensures sender { IfOk result (λ s. IsSender s.channel s.sender) }
    ensures receiver { IfOk result (λ s. IsReceiver s.channel s.receiver) }
{
    let (lane, mut hand, permit) = ShardQueue::new(alloc, 4, 1)?;
    let (channel, mut senders, receiver) = match ReplyChannel::new(alloc, 4, 1) {
        Ok(made) => made,
        Err(e) => {
            lane.abandon(hand, Vec::new(alloc), permit);
            return Err(e);
        }
    };
    let sender = senders.remove(0);
    senders.destroy_empty();
    let producer = hand.remove(0);
    hand.destroy_empty();
    Ok(Permits {
        lane,
        producer,
        permit,
        channel,
        sender,
        receiver,
    })
}

// Lists with room for one, of the lanes and of the permits, before and after.
pub(crate) struct Room<B: Naming> {
    pub(crate) lanes: Vec<ShardQueue<Letter<B>>>,
    pub(crate) hand: Vec<LanePermit<Letter<B>>>,
    pub(crate) live: Vec<ProducerPermit<Letter<B>>>,
    pub(crate) ended: Vec<Ended<Letter<B>>>,
    pub(crate) back: Vec<SenderPermit<Answer<B>>>,
}

fn no_room<B: Naming>(alloc: Global) -> Room<B>
    ensures { (result.lanes.items ≡ []) × (result.hand.items ≡ []) × (result.live.items ≡ [])
        × (result.ended.items ≡ []) × (result.back.items ≡ []) }
{
    Room {
        lanes: Vec::new(alloc),
        hand: Vec::new(alloc),
        live: Vec::new(alloc),
        ended: Vec::new(alloc),
        back: Vec::new(alloc),
    }
}

pub(crate) fn spend_room<B: Naming>(room: Room<B>)
    requires { (room.lanes.items ≡ []) × (room.hand.items ≡ []) × (room.live.items ≡ [])
        × (room.ended.items ≡ []) × (room.back.items ≡ []) }
{
    let Room {
        lanes,
        hand,
        live,
        ended,
        back,
    } = room;
    lanes.destroy_empty();
    hand.destroy_empty();
    live.destroy_empty();
    ended.destroy_empty();
    back.destroy_empty();
}

fn reserve<B: Naming>(room: &mut Room<B>) -> Result<(), AllocError>
    requires { (room.old.lanes.items ≡ []) × (room.old.hand.items ≡ []) × (room.old.live.items ≡ [])
        × (room.old.ended.items ≡ []) ×
        (room.old.back.items ≡ []) }
    ensures empty { (room.new.lanes.items ≡ []) × (room.new.hand.items ≡ [])
        × (room.new.live.items ≡ []) × (room.new.ended.items ≡ []) ×
        (room.new.back.items ≡ []) }
    ensures room { OnOk result ((1 ≤ vec_capacity room.new.lanes) × (1 ≤ vec_capacity room.new.hand)
        × (1 ≤ vec_capacity room.new.live) ×
        (1 ≤ vec_capacity room.new.ended) × (1 ≤ vec_capacity room.new.back)) }
{
    room.lanes.reserve(1)?;
    room.hand.reserve(1)?;
    room.live.reserve(1)?;
    room.ended.reserve(1)?;
    room.back.reserve(1)?;
    Ok(())
}

pub(crate) fn make_room<B: Naming>(alloc: Global) -> Result<Room<B>, AllocError>
    ensures empty { IfOk result (λ r. (r.lanes.items ≡ []) × (r.hand.items ≡ [])
        × (r.live.items ≡ []) × (r.ended.items ≡ []) × (r.back.items ≡ [])) }
    ensures room { IfOk result (λ r. (1 ≤ vec_capacity r.lanes) × (1 ≤ vec_capacity r.hand)
        × (1 ≤ vec_capacity r.live) ×
        (1 ≤ vec_capacity r.ended) × (1 ≤ vec_capacity r.back)) }
{
    let mut room = no_room(alloc);
    match reserve(&mut room) {
        Ok(()) => Ok(room),
        Err(e) => {
            spend_room(room);
            Err(e)
        }
    }
}

// The permit of a desk goes to those that may put still, or to what is left of the others.
pub(crate) fn sort<B: Naming>(
    desk_permits: Vec<LanePermit<Letter<B>>>,
    live: &mut Vec<ProducerPermit<Letter<B>>>,
    ended: &mut Vec<Ended<Letter<B>>>,
)
    requires permits { vec_len desk_permits ≡ 1 }
    requires live { vec_len live.old < vec_capacity live.old }
    requires ended { vec_len ended.old < vec_capacity ended.old }
{
    let mut permits = desk_permits;
    match permits.remove(0) {
        LanePermit::Live(permit) => live.push_reserved(permit),
        LanePermit::Over(left) => ended.push_reserved(left),
    }
    permits.destroy_empty();
}
