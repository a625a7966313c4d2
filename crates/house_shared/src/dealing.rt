//! What is dealt to the threads of a house: its permits, lane by lane and channel by channel, become a
//! post for each producer and a stand for each consumer. Nothing is made here, so nothing is refused.

ghost use Rattle.std.specs.Prelude.{◌≡◌, ◌≤◌, [], All, length, map, vec_len, vec_capacity};
ghost use Rattle.house_shared.specs.Crew.{AllAt, IsPost, IsStand};
ghost use Rattle.house_shared.specs.inner.Making.{AreUndealt, IsWholeSeating};
ghost use Rattle.lane_work.specs.Rooms.{AreRooms};
ghost use Rattle.lane_work.specs.LanePermits.{AreConsumers, AreHands};
ghost use Rattle.lane_work.specs.ChannelPermits.{AreReceivers, AreSenderHands};
ghost use Rattle.shard_queue.specs.Reply.{received, senders_of};
ghost use Rattle.shard_queue.specs.Permits.{got, producers_of};

use crate::seating::{Seating, seat_next};
use crate::shared::{HouseShared, Post, Stand};
use crossbeam_utils::sync::Parker;
use house_history::{Answer, Letter, Naming};
use lane_work::{Desk, Hands, LanePermit, Stall, deal_all};
use shard_queue::{
    ConsumerPermit, Ended, ProducerPermit, ReceiverPermit, SenderEnded, SenderPermit,
};

// A post for each of so many producers, from the hands that were dealt to them, from the receivers'
// ends of their channels, from the seats of the house's history, and from empty lists with room for what is left of their permits. `posts`,
// which is empty, has room for all.
fn set_posts<B: Naming>(
    shared: &HouseShared<B>,
    producers: u8,
    mut hands: Vec<Vec<LanePermit<Letter<B>>>>,
    mut receivers: Vec<ReceiverPermit<Answer<B>>>,
    mut seating: Seating<B>,
    mut rooms: Vec<Vec<Ended<Letter<B>>>>,
    mut posts: Vec<Post<B>>,
) -> Vec<Post<B>>
    requires hands { (vec_len hands ≡ producers)
        × AreHands shared.now.intake.lanes.items 0 (map (λ v. v.items) hands.items) }
    requires receivers { (vec_len receivers ≡ producers)
        × AreReceivers shared.now.delivery.channels.items receivers.items }
    requires unheard { All (λ s. received s ≡ []) receivers.items }
    requires seating { IsWholeSeating seating }
    requires rooms { AreRooms producers (length shared.now.intake.lanes.items) rooms }
    requires posts { (posts.items ≡ []) × (producers ≤ vec_capacity posts) }
    ensures count { vec_len result ≡ producers }
    ensures posts { AllAt (IsPost shared.now) 0 result.items }
{
    for number in 0..producers {
        let desk = Desk {
            number,
            permits: hands.remove(0),
            receiver: receivers.remove(0),
            ends: 0,
            dispatch: seat_next(&mut seating),
        };
        posts.push_reserved(Post {
            desk,
            room: rooms.remove(0),
        });
    }
    hands.destroy_empty();
    receivers.destroy_empty();
    rooms.destroy_empty();
    posts
}

// A stand for each of so many consumers, from the hands that were dealt to them, from their ends of
// their lanes and of their bells, and from empty lists with room for what is left of their permits.
// `stands`, which is empty, has room for all.
fn set_stands<B: Naming>(
    shared: &HouseShared<B>,
    shards: u8,
    mut hands: Vec<Vec<SenderPermit<Answer<B>>>>,
    mut consumers: Vec<ConsumerPermit<Letter<B>>>,
    mut parkers: Vec<Parker>,
    mut rooms: Vec<Vec<SenderEnded<Answer<B>>>>,
    mut stands: Vec<Stand<B>>,
) -> Vec<Stand<B>>
    requires hands { (vec_len hands ≡ shards)
        × AreSenderHands shared.now.delivery.channels.items 0 (map (λ v. v.items) hands.items) }
    requires consumers { (vec_len consumers ≡ shards)
        × AreConsumers shared.now.intake.lanes.items consumers.items }
    requires fresh { All (λ s. got s ≡ []) consumers.items }
    requires parkers { vec_len parkers ≡ shards }
    requires rooms { AreRooms shards (length shared.now.delivery.channels.items) rooms }
    requires stands { (stands.items ≡ []) × (shards ≤ vec_capacity stands) }
    ensures count { vec_len result ≡ shards }
    ensures stands { AllAt (IsStand shared.now) 0 result.items }
{
    for shard in 0..shards {
        let stall = Stall {
            shard,
            permit: consumers.remove(0),
            senders: hands.remove(0),
            bell: parkers.remove(0),
        };
        stands.push_reserved(Stand {
            stall,
            room: rooms.remove(0),
        });
    }
    hands.destroy_empty();
    consumers.destroy_empty();
    rooms.destroy_empty();
    stands
}

/// What is to be dealt, and the empty lists that it goes into.
pub(crate) struct Undealt<B: Naming> {
    /// For each lane the producers' permits.
    pub(crate) lane_permits: Vec<Vec<ProducerPermit<Letter<B>>>>,
    /// For each producer its end of its reply channel.
    pub(crate) receivers: Vec<ReceiverPermit<Answer<B>>>,
    /// For each reply channel the consumers' permits.
    pub(crate) channel_permits: Vec<Vec<SenderPermit<Answer<B>>>>,
    /// For each consumer its end of its lane.
    pub(crate) consumers: Vec<ConsumerPermit<Letter<B>>>,
    /// For each consumer its own end of its bell.
    pub(crate) parkers: Vec<Parker>,
    /// For each producer a seat with tickets.
    pub(crate) seating: Seating<B>,
    /// For each producer's permits.
    pub(crate) hands: Hands<LanePermit<Letter<B>>>,
    /// For what is left of each producer's permits.
    pub(crate) rooms: Vec<Vec<Ended<Letter<B>>>>,
    /// For each consumer's permits.
    pub(crate) sender_hands: Hands<SenderPermit<Answer<B>>>,
    /// For what is left of each consumer's permits.
    pub(crate) sender_rooms: Vec<Vec<SenderEnded<Answer<B>>>>,
}

/// Deals the permits of all lanes and channels, none of which has put, taken or sent anything: a stand
/// for each of so many consumers and a post for each of so many producers, in the order of their
/// numbers. The two lists, which are empty, have room for all.
pub(crate) fn deal_out<B: Naming>(
    shared: &HouseShared<B>,
    producers: u8,
    shards: u8,
    undealt: Undealt<B>,
    stands: Vec<Stand<B>>,
    posts: Vec<Post<B>>,
) -> (Vec<Stand<B>>, Vec<Post<B>>)
    requires lanes { (length shared.now.intake.lanes.items ≡ shards)
        × All (λ q. producers_of q ≡ producers) shared.now.intake.lanes.items }
    requires channels { (length shared.now.delivery.channels.items ≡ producers)
        × All (λ c. senders_of c ≡ shards) shared.now.delivery.channels.items }
    requires undealt { AreUndealt producers shards shared.now.intake.lanes.items
        shared.now.delivery.channels.items undealt }
    requires room { (stands.items ≡ []) × (posts.items ≡ []) × (shards ≤ vec_capacity stands)
        × (producers ≤ vec_capacity posts) }
    ensures count { (vec_len result.0 ≡ shards) × (vec_len result.1 ≡ producers) }
    ensures stands { AllAt (IsStand shared.now) 0 result.0.items }
    ensures posts { AllAt (IsPost shared.now) 0 result.1.items }
{
    let Undealt {
        lane_permits,
        receivers,
        channel_permits,
        consumers,
        parkers,
        seating,
        hands,
        rooms,
        sender_hands,
        sender_rooms,
    } = undealt;
    let Hands { each, all } = hands;
    let hands = deal_all(&shared.intake.lanes, lane_permits, producers, each, all);
    let Hands { each, all } = sender_hands;
    let sender_hands = deal_all(
        &shared.delivery.channels,
        channel_permits,
        shards,
        each,
        all,
    );
    let stands = set_stands(
        shared,
        shards,
        sender_hands,
        consumers,
        parkers,
        sender_rooms,
        stands,
    );
    let posts = set_posts(shared, producers, hands, receivers, seating, rooms, posts);
    (stands, posts)
}
