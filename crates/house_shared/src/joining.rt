//! A house is put together of what was made for it. Nothing is made here, so nothing is refused.

ghost use Rattle.std.specs.Prelude.{◌≡◌, ◌<◌, All, length, vec_len};
ghost use Rattle.shard_queue.specs.Reply.{senders_of};
ghost use Rattle.shard_queue.specs.Permits.{capacity_of, producers_of};
ghost use Rattle.house_shared.specs.Crew.{IsCrew};
ghost use Rattle.house_shared.specs.inner.Making.{AreCrewLists, AreFittings, AreStock, AreUndealt, IsLaneGroup, IsWholeSeating};
ghost use Rattle.house_shared.specs.Opening.{AreBaskets, IsHouseShared};

use crate::dealing::{Undealt, deal_out};
use crate::fittings::{Fittings, Interior, Papers};
use crate::opening::{Baskets, Opened, Sizes};
use crate::seating::Seating;
use crate::shared::{Crew, HouseShared};
use crate::stock::{CrewLists, EndLists, Lists, Stock};
use crossbeam_utils::sync::Parker;
use envelope::Directory;
use house_history::{Answer, Letter, Naming};
use lane_work::{Delivery, Hands, Intake, Lanes, PermitRooms, Rooms};
use shard_queue::{BothEnds, Ended, EntryQueue, ReplyChannel, SenderEnded, ShardQueue};
use std::alloc::Global;

// The shared state of a house with this directory and of these sizes.
fn lay_shared<B: Naming>(
    alloc: Global,
    directory: Directory,
    sizes: Sizes<'_>,
    interior: Interior<B>,
    lanes: Vec<ShardQueue<Letter<B>>>,
    channels: Vec<ReplyChannel<Answer<B>>>,
) -> HouseShared<B>
    requires host { length sizes.host.now < 256 }
    requires interior { IsLaneGroup directory sizes interior }
    requires lanes { (vec_len lanes ≡ directory.shards)
        × All (λ q. (capacity_of q ≡ sizes.depth)
        × (producers_of q ≡ sizes.producers)) lanes.items }
    requires channels { (vec_len channels ≡ sizes.producers) ×
        All (λ c. senders_of c ≡ directory.shards) channels.items }
    ensures shared { IsHouseShared directory sizes.entry result }
    ensures sessions { length result.delivery.sessions.items ≡ length directory.homes }
    ensures lanes { result.intake.lanes ≡ lanes }
    ensures channels { result.delivery.channels ≡ channels }
{
    let intake = Intake {
        directory,
        host: interior.host,
        max_message: sizes.max_message,
        budget: interior.budget,
        lanes,
        closings: interior.closings,
    };
    let delivery = Delivery {
        mailboxes: interior.mailboxes,
        channels,
        sessions: interior.sessions,
        front: interior.front,
    };
    HouseShared {
        intake,
        delivery,
        bells: interior.consumers,
        turns: sizes.turns,
        alloc,
    }
}

// What is dealt to so many producers and consumers, and room for what comes of it.
fn man<B: Naming>(
    shared: &HouseShared<B>,
    producers: u8,
    shards: u8,
    undealt: Undealt<B>,
    lists: CrewLists<B>,
) -> Crew<B>
    requires lanes { (length shared.now.intake.lanes.items ≡ shards)
        × All (λ q. producers_of q ≡ producers) shared.now.intake.lanes.items }
    requires channels { (length shared.now.delivery.channels.items ≡ producers)
        × All (λ c. senders_of c ≡ shards) shared.now.delivery.channels.items }
    requires undealt { AreUndealt producers shards shared.now.intake.lanes.items
        shared.now.delivery.channels.items undealt }
    requires lists { AreCrewLists producers shards lists }
    ensures { IsCrew shared.now producers result }
{
    let CrewLists {
        stands,
        posts,
        consumed,
        worked,
        unmanned,
    } = lists;
    let (stands, posts) = deal_out(shared, producers, shards, undealt, stands, posts);
    Crew {
        stands,
        posts,
        consumed,
        worked,
        unmanned,
    }
}

// Empty lists for what is left of permits after their ends.
struct Leavings<E> {
    // For each actor's.
    hands: Vec<Vec<E>>,
    // For each position a list, for what is left there of all actors' permits.
    lists: Vec<Vec<E>>,
}

// The rooms that are needed for the dealing, for each actor's permits and for what is left of them, and those
// that are needed behind it.
fn parted<S, E>(rooms: PermitRooms<S, E>) -> (Hands<S>, Vec<Vec<E>>, Leavings<E>)
    ensures dealt { (result.0 ≡ rooms.permits) × (result.1 ≡ rooms.ended.each) }
    ensures left { (result.2.hands ≡ rooms.ended.all) × (result.2.lists ≡ rooms.lists) }
{
    let PermitRooms {
        permits,
        ended,
        lists,
    } = rooms;
    let Hands { each, all } = ended;
    (permits, each, Leavings { hands: all, lists })
}

// The queues, what is to be dealt of their permits, and room for what is left of these.
struct Sorted<B: Naming> {
    lanes: Vec<ShardQueue<Letter<B>>>,
    channels: Vec<ReplyChannel<Answer<B>>>,
    undealt: Undealt<B>,
    of_producers: Leavings<Ended<Letter<B>>>,
    of_consumers: Leavings<SenderEnded<Answer<B>>>,
}

// Sorts what was made.
fn sort_out<B: Naming>(
    rooms: Rooms<B>,
    lanes: Lanes<EntryQueue<Letter<B>>>,
    channels: Lanes<BothEnds<Answer<B>>>,
    parkers: Vec<Parker>,
    seating: Seating<B>,
) -> Sorted<B>
    ensures lanes { (result.lanes ≡ lanes.lanes) × (result.undealt.lane_permits ≡ lanes.permits)
        × (result.undealt.consumers ≡ lanes.consumers) }
    ensures channels { (result.channels ≡ channels.lanes)
        × (result.undealt.channel_permits ≡ channels.permits)
        × (result.undealt.receivers ≡ channels.consumers) }
    ensures parkers { (result.undealt.parkers ≡ parkers) × (result.undealt.seating ≡ seating) }
    ensures rooms { (result.undealt.hands ≡ rooms.producers.permits)
        × (result.undealt.rooms ≡ rooms.producers.ended.each)
        × (result.undealt.sender_hands ≡ rooms.consumers.permits)
        × (result.undealt.sender_rooms ≡ rooms.consumers.ended.each) }
    ensures left { (result.of_producers.hands ≡ rooms.producers.ended.all)
        × (result.of_producers.lists ≡ rooms.producers.lists)
        × (result.of_consumers.hands ≡ rooms.consumers.ended.all)
        × (result.of_consumers.lists ≡ rooms.consumers.lists) }
{
    let Rooms {
        producers,
        consumers,
    } = rooms;
    let (hands, rooms, of_producers) = parted(producers);
    let (sender_hands, sender_rooms, of_consumers) = parted(consumers);
    let Lanes {
        lanes,
        permits: lane_permits,
        consumers,
    } = lanes;
    let Lanes {
        lanes: channels,
        permits: channel_permits,
        consumers: receivers,
    } = channels;
    let undealt = Undealt {
        lane_permits,
        receivers,
        channel_permits,
        consumers,
        parkers,
        seating,
        hands,
        rooms,
        sender_hands,
        sender_rooms,
    };
    Sorted {
        lanes,
        channels,
        undealt,
        of_producers,
        of_consumers,
    }
}

// Room for what the threads leave.
fn baskets_of<B: Naming>(
    producers: Leavings<Ended<Letter<B>>>,
    consumers: Leavings<SenderEnded<Answer<B>>>,
    ends: EndLists<B>,
    papers: Papers<B>,
) -> Baskets<B>
    ensures producers { (result.hands ≡ producers.hands) × (result.lists ≡ producers.lists) }
    ensures consumers { (result.sender_hands ≡ consumers.hands)
        × (result.sender_lists ≡ consumers.lists) }
    ensures ends { (result.consumers ≡ ends.consumers) × (result.receivers ≡ ends.receivers)
        × (result.spares ≡ ends.spares) }
    ensures papers { (result.replies ≡ papers.replies) × (result.logs ≡ papers.logs)
        × (result.taken ≡ papers.taken)
        × (result.lanes ≡ papers.lanes) × (result.channels ≡ papers.channels) }
{
    let Leavings { hands, lists } = producers;
    let Leavings {
        hands: sender_hands,
        lists: sender_lists,
    } = consumers;
    let EndLists {
        consumers,
        receivers,
        spares,
    } = ends;
    Baskets {
        hands,
        lists,
        sender_hands,
        sender_lists,
        consumers,
        receivers,
        replies: papers.replies,
        logs: papers.logs,
        taken: papers.taken,
        lanes: papers.lanes,
        channels: papers.channels,
        spares,
    }
}

/// A house of all that was made for it. It takes no memory.
pub(crate) fn put_together<B: Naming>(
    alloc: Global,
    directory: Directory,
    sizes: Sizes<'_>,
    fittings: Fittings<B>,
    stock: Stock<B>,
    seating: Seating<B>,
) -> Opened<B>
    requires host { length sizes.host.now < 256 }
    requires fittings { AreFittings directory sizes fittings }
    requires stock { AreStock sizes.producers directory.shards sizes.depth stock }
    requires seating { IsWholeSeating seating }
    ensures shared { IsHouseShared directory sizes.entry result.shared }
    ensures sessions { length result.shared.delivery.sessions.items ≡ length directory.homes }
    ensures crew { IsCrew result.shared sizes.entry.producers result.crew }
    ensures baskets { AreBaskets sizes.entry.producers directory.shards result.baskets }
    ensures session_parkers { result.session_parkers ≡ fittings.session_parkers }
    ensures channels { result.shared.delivery.channels ≡ stock.channels.lanes }
{
    let (producers, shards) = (sizes.producers, directory.shards());
    let Stock {
        rooms,
        lists,
        lanes,
        channels,
    } = stock;
    let Lists { crew, ends } = lists;
    let Sorted {
        lanes,
        channels,
        undealt,
        of_producers,
        of_consumers,
    } = sort_out(rooms, lanes, channels, fittings.parkers, seating);
    let shared = lay_shared(alloc, directory, sizes, fittings.interior, lanes, channels);
    let crew = man(&shared, producers, shards, undealt, crew);
    let baskets = baskets_of(of_producers, of_consumers, ends, fittings.papers);
    Opened {
        shared,
        crew,
        baskets,
        session_parkers: fittings.session_parkers,
    }
}
