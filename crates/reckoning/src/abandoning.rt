//! A run that came to nothing is spent: all permits, whatever became of them, with their queues. No report
//! is made of it.

ghost use Rattle.std.specs.Prelude.{◌≡◌, ◌<◌, ◌≤◌, ◌+◌, [], All, length, sum_by, vec_len, vec_capacity};
ghost use Rattle.house_shared.specs.Opening.{AreBaskets};
ghost use Rattle.house_shared.specs.Left.{IsSpendable};
ghost use Rattle.reckoning.specs.inner.Spending.{HasGrown, HasGrownAtMost};

use crate::remains::{Remains, remains_of};
use house_history::{Answer, Letter, Naming};
use house_shared::{Baskets, HouseShared, Post, Ran, Spares, Stand};
use lane_work::{Consumed, Desk, LanePermit, Stall, Worked, spend_lists};
use shard_queue::{
    Carrier, ConsumerPermit, ConsumersPermit, Ended, EndedPermit, Permit, ProducerPermit,
    ReceiverPermit, SenderEnded, SenderPermit, SharedLane,
};
use std::alloc::Global;

// Moves all of a list into another, which has room for it.
fn pour<T>(mut from: Vec<T>, into: &mut Vec<T>)
    requires { vec_len into.old + vec_len from ≤ vec_capacity into.old }
    ensures { HasGrown (vec_len from) into.old into.new }
{
    while let Some(one) = from.pop() {
        into.push_reserved(one);
    }
    from.destroy_empty();
}

// Sorts a producer's permits: those that may put still, and what is left of those that are over.
fn sort<B: Naming>(
    mut from: Vec<LanePermit<Letter<B>>>,
    permits: &mut Vec<ProducerPermit<Letter<B>>>,
    ended: &mut Vec<Ended<Letter<B>>>,
)
    requires permits { vec_len permits.old + vec_len from ≤ vec_capacity permits.old }
    requires ended { vec_len ended.old + vec_len from ≤ vec_capacity ended.old }
    ensures permits { HasGrownAtMost (vec_len from) permits.old permits.new }
    ensures ended { HasGrownAtMost (vec_len from) ended.old ended.new }
{
    while let Some(one) = from.pop() {
        match one {
            LanePermit::Live(permit) => permits.push_reserved(permit),
            LanePermit::Over(left) => ended.push_reserved(left),
        }
    }
    from.destroy_empty();
}

// Takes apart a post that never had a thread.
fn clear_post<B: Naming>(
    post: Post<B>,
    receivers: &mut Vec<ReceiverPermit<Answer<B>>>,
    permits: &mut Vec<ProducerPermit<Letter<B>>>,
    ended: &mut Vec<Ended<Letter<B>>>,
)
    requires receivers { vec_len receivers.old < vec_capacity receivers.old }
    requires permits { vec_len permits.old + vec_len post.desk.permits ≤ vec_capacity permits.old }
    requires ended { vec_len ended.old + (vec_len post.desk.permits + vec_len post.room)
        ≤ vec_capacity ended.old }
    ensures receivers { HasGrown 1 receivers.old receivers.new }
    ensures permits { HasGrownAtMost (vec_len post.desk.permits) permits.old permits.new }
    ensures ended { HasGrownAtMost (vec_len post.desk.permits
        + vec_len post.room) ended.old ended.new }
{
    let Post { desk, room } = post;
    let Desk {
        number: _,
        permits: own,
        receiver,
        ends: _,
        dispatch: _,
    } = desk;
    receivers.push_reserved(receiver);
    sort(own, permits, ended);
    pour(room, ended);
}

// The same of all of them.
fn clear_posts<B: Naming>(
    mut posts: Vec<Post<B>>,
    receivers: &mut Vec<ReceiverPermit<Answer<B>>>,
    permits: &mut Vec<ProducerPermit<Letter<B>>>,
    ended: &mut Vec<Ended<Letter<B>>>,
)
    requires receivers { vec_len receivers.old + vec_len posts ≤ vec_capacity receivers.old }
    requires permits { vec_len permits.old + sum_by (λ p. vec_len p.desk.permits) posts.items
        ≤ vec_capacity permits.old }
    requires ended { vec_len ended.old
        + sum_by (λ p. vec_len p.desk.permits + vec_len p.room) posts.items
        ≤ vec_capacity ended.old }
    ensures receivers { HasGrown (vec_len posts) receivers.old receivers.new }
    ensures ended { HasGrownAtMost (sum_by (λ p.
        vec_len p.desk.permits + vec_len p.room) posts.items) ended.old ended.new }
{
    while let Some(post) = posts.pop() {
        clear_post(post, receivers, permits, ended);
    }
    posts.destroy_empty();
}

// Takes apart what a producer left.
fn clear_worker<B: Naming>(
    worked: Worked<B>,
    receivers: &mut Vec<ReceiverPermit<Answer<B>>>,
    ended: &mut Vec<Ended<Letter<B>>>,
)
    requires receivers { vec_len receivers.old < vec_capacity receivers.old }
    requires ended { vec_len ended.old + vec_len worked.ended ≤ vec_capacity ended.old }
    ensures receivers { HasGrown 1 receivers.old receivers.new }
    ensures ended { HasGrown (vec_len worked.ended) ended.old ended.new }
{
    let Worked {
        ended: own,
        receiver,
        replies: _,
        log: _,
        dispatch: _,
        fate: _,
    } = worked;
    receivers.push_reserved(receiver);
    pour(own, ended);
}

// The same of all of them.
fn clear_workers<B: Naming>(
    mut worked: Vec<Worked<B>>,
    receivers: &mut Vec<ReceiverPermit<Answer<B>>>,
    ended: &mut Vec<Ended<Letter<B>>>,
)
    requires receivers { vec_len receivers.old + vec_len worked ≤ vec_capacity receivers.old }
    requires ended { vec_len ended.old + sum_by (λ w. vec_len w.ended) worked.items
        ≤ vec_capacity ended.old }
    ensures receivers { HasGrown (vec_len worked) receivers.old receivers.new }
{
    while let Some(one) = worked.pop() {
        clear_worker(one, receivers, ended);
    }
    worked.destroy_empty();
}

// Takes apart a stand that never had a thread.
fn clear_stand<B: Naming>(
    stand: Stand<B>,
    permits: &mut Vec<ConsumerPermit<Letter<B>>>,
    senders: &mut Vec<SenderPermit<Answer<B>>>,
)
    requires permits { vec_len permits.old < vec_capacity permits.old }
    requires senders { vec_len senders.old + vec_len stand.stall.senders
        ≤ vec_capacity senders.old }
    requires room { stand.room.items ≡ [] }
    ensures permits { HasGrown 1 permits.old permits.new }
    ensures senders { HasGrown (vec_len stand.stall.senders) senders.old senders.new }
{
    let Stand { stall, room } = stand;
    let Stall {
        shard: _,
        permit,
        senders: live,
        bell: _,
    } = stall;
    permits.push_reserved(permit);
    pour(live, senders);
    room.destroy_empty();
}

// The same of all of them.
fn clear_stands<B: Naming>(
    mut stands: Vec<Stand<B>>,
    permits: &mut Vec<ConsumerPermit<Letter<B>>>,
    senders: &mut Vec<SenderPermit<Answer<B>>>,
)
    requires permits { vec_len permits.old + vec_len stands ≤ vec_capacity permits.old }
    requires senders { vec_len senders.old + sum_by (λ s. vec_len s.stall.senders) stands.items
        ≤ vec_capacity senders.old }
    requires rooms { All (λ s. s.room.items ≡ []) stands.items }
    ensures permits { HasGrown (vec_len stands) permits.old permits.new }
{
    while let Some(stand) = stands.pop() {
        clear_stand(stand, permits, senders);
    }
    stands.destroy_empty();
}

// Takes apart what a consumer left.
fn clear_consumer<B: Naming>(
    consumed: Consumed<B>,
    permits: &mut Vec<ConsumerPermit<Letter<B>>>,
    ended: &mut Vec<SenderEnded<Answer<B>>>,
)
    requires permits { vec_len permits.old < vec_capacity permits.old }
    requires ended { vec_len ended.old + vec_len consumed.senders ≤ vec_capacity ended.old }
    ensures permits { HasGrown 1 permits.old permits.new }
    ensures ended { HasGrown (vec_len consumed.senders) ended.old ended.new }
{
    let Consumed {
        permit,
        senders,
        taken: _,
        kept: _,
        torn: _,
    } = consumed;
    permits.push_reserved(permit);
    pour(senders, ended);
}

// The same of all of them.
fn clear_consumers<B: Naming>(
    mut consumed: Vec<Consumed<B>>,
    permits: &mut Vec<ConsumerPermit<Letter<B>>>,
    ended: &mut Vec<SenderEnded<Answer<B>>>,
)
    requires permits { vec_len permits.old + vec_len consumed ≤ vec_capacity permits.old }
    requires ended { vec_len ended.old + sum_by (λ c. vec_len c.senders) consumed.items
        ≤ vec_capacity ended.old }
    ensures permits { HasGrown (vec_len consumed) permits.old permits.new }
{
    while let Some(one) = consumed.pop() {
        clear_consumer(one, permits, ended);
    }
    consumed.destroy_empty();
}

// Spends all lanes, with one consumer's end for each and with all permits that are there. A lane that is
// abandoned asks no permit whose it is, so the first takes them all.
fn abandon_lanes<C: Carrier>(
    alloc: Global,
    mut lanes: Vec<SharedLane<C>>,
    mut consumers: Vec<ConsumersPermit<C::Pass>>,
    permits: Vec<Permit<C::Pass>>,
    ended: Vec<EndedPermit<C::Pass>>,
)
    requires some { 0 < vec_len lanes }
    requires consumers { vec_len consumers ≡ vec_len lanes }
{
    let first = lanes.remove(0);
    first.abandon(permits, ended, consumers.remove(0));
    while let Some(lane) = lanes.pop() {
        lane.abandon(Vec::new(alloc), Vec::new(alloc), consumers.remove(0));
    }
    lanes.destroy_empty();
    consumers.destroy_empty();
}

// Room for the permits of all queues.
struct Ends<B: Naming> {
    consumers: Vec<ConsumerPermit<Letter<B>>>,
    receivers: Vec<ReceiverPermit<Answer<B>>>,
    spares: Spares<B>,
}

// The room that is needed here; the other baskets are empty, and are spent.
fn ends_of<B: Naming>(baskets: Baskets<B>) -> Ends<B>
    requires hands { (baskets.hands.items ≡ []) × (baskets.sender_hands.items ≡ []) }
    requires lists { All (λ v. v.items ≡ []) baskets.lists.items
        × All (λ v. v.items ≡ []) baskets.sender_lists.items }
    ensures consumers { result.consumers ≡ baskets.consumers }
    ensures receivers { result.receivers ≡ baskets.receivers }
    ensures spares { result.spares ≡ baskets.spares }
{
    let Baskets {
        hands,
        lists,
        sender_hands,
        sender_lists,
        consumers,
        receivers,
        replies: _,
        logs: _,
        taken: _,
        lanes: _,
        channels: _,
        spares,
    } = baskets;
    hands.destroy_empty();
    spend_lists(lists);
    sender_hands.destroy_empty();
    spend_lists(sender_lists);
    Ends {
        consumers,
        receivers,
        spares,
    }
}

/// Spends all that is left of a run that came to nothing, whichever of its actors have had a thread.
/// What waits in a queue is dropped. It takes no memory.
pub fn abandon<B: Naming>(alloc: Global, shared: HouseShared<B>, ran: Ran<B>, baskets: Baskets<B>)
    requires lanes { 0 < length shared.intake.lanes.items }
    requires channels { 0 < length shared.delivery.channels.items }

    // Nothing lies in the baskets, which have room for what so many producers and consumers leave.
    requires baskets { AreBaskets (length shared.delivery.channels.items)
        (length shared.intake.lanes.items) baskets }

    // Of each producer there is its post or what it left, of each consumer its stand or what it left.
    requires left { IsSpendable shared (length shared.delivery.channels.items) ran }

    // Who left something left what is left of its permit on each lane, or of its sender on each channel.
    requires worked { All (λ w. vec_len w.ended
        ≡ length shared.intake.lanes.items) ran.worked.items }
    requires consumed { All (λ c. vec_len c.senders
        ≡ length shared.delivery.channels.items) ran.consumed.items }
{
    let Remains {
        directory: _,
        lanes,
        channels,
        mailboxes: _,
    } = remains_of(shared);
    let Ran {
        worked,
        consumed,
        stands,
        posts,
        started: _,
    } = ran;
    let Ends {
        mut consumers,
        mut receivers,
        spares,
    } = ends_of(baskets);
    let Spares {
        mut permits,
        mut ended,
        mut senders,
        mut senders_ended,
    } = spares;
    clear_posts(posts, &mut receivers, &mut permits, &mut ended);
    clear_workers(worked, &mut receivers, &mut ended);
    clear_stands(stands, &mut consumers, &mut senders);
    clear_consumers(consumed, &mut consumers, &mut senders_ended);
    abandon_lanes(alloc, lanes, consumers, permits, ended);
    abandon_lanes(alloc, channels, receivers, senders, senders_ended);
}
