//! Empty lists with room, of values that can't be let go: all that is needed to deal the permits of a
//! house's lanes and channels, and to collect them. They are made before the first permit is, so that
//! behind the dealing nothing can be refused. What goes into them stands in the modules beside this.

ghost use Rattle.std.specs.Prelude.{◌≡◌, [], All, IfOk};
ghost use Rattle.lane_work.specs.Rooms.{AreEmptyHands, AreEmptyPermitRooms, AreHandRooms, ArePermitRooms, AreRooms};

use crate::desk::LanePermit;
use house_history::{Answer, Letter, Naming};
use shard_queue::{Ended, SenderEnded, SenderPermit};
use std::alloc::{AllocError, Global};

/// `count` empty lists, each with room for `each` elements. An error where memory is refused; nothing
/// is left then.
pub fn make_lists<T>(alloc: Global, count: usize, each: usize) -> Result<Vec<Vec<T>>, AllocError>
    ensures { IfOk result (λ lists. AreRooms count each lists) }
{
    let mut lists = Vec::with_capacity(alloc, count)?;
    for _ in 0..count {
        match Vec::with_capacity(alloc, each) {
            Ok(list) => lists.push_reserved(list),
            Err(e) => {
                spend_lists(lists);
                return Err(e);
            }
        }
    }
    Ok(lists)
}

/// Spends lists that are empty.
pub fn spend_lists<T>(mut lists: Vec<Vec<T>>)
    requires { All (λ v. v.items ≡ []) lists.items }
{
    while let Some(list) = lists.pop() {
        list.destroy_empty();
    }
    lists.destroy_empty();
}

/// Room for what several actors hold, a list for each.
pub struct Hands<T> {
    /// For each actor an empty list, with room for one element at each position.
    pub each: Vec<Vec<T>>,
    /// No list yet, with room for one of each actor.
    pub all: Vec<Vec<T>>,
}

/// Room for `actors` lists, and as many empty lists with room for `positions` elements. An error where
/// memory is refused; nothing is left then.
pub fn make_hands<T>(alloc: Global, actors: usize, positions: usize) -> Result<Hands<T>, AllocError>
    ensures { IfOk result (λ hands. AreHandRooms actors positions hands) }
{
    let each = make_lists(alloc, actors, positions)?;
    match Vec::with_capacity(alloc, actors) {
        Ok(all) => Ok(Hands { each, all }),
        Err(e) => {
            spend_lists(each);
            Err(e)
        }
    }
}

/// Spends room that is not to be used.
pub fn spend_hands<T>(hands: Hands<T>)
    requires { AreEmptyHands hands }
{
    let Hands { each, all } = hands;
    spend_lists(each);
    all.destroy_empty();
}

/// Room for the permits of actors that have one at each of several positions, as workers on lanes and
/// consumers on channels, and for what is left of the permits after their ends.
pub struct PermitRooms<S, E> {
    /// For each actor's permits.
    pub permits: Hands<S>,
    /// For what is left of each actor's permits.
    pub ended: Hands<E>,
    /// For each position an empty list, with room for what is left of all actors' permits there.
    pub lists: Vec<Vec<E>>,
}

/// Room for the permits of `actors` actors at `positions` positions. An error where memory is refused;
/// nothing is left then.
pub fn make_permit_rooms<S, E>(
    alloc: Global,
    actors: usize,
    positions: usize,
) -> Result<PermitRooms<S, E>, AllocError>
    ensures { IfOk result (λ rooms. ArePermitRooms actors positions rooms) }
{
    let permits = make_hands(alloc, actors, positions)?;
    let ended = match make_hands(alloc, actors, positions) {
        Ok(ended) => ended,
        Err(e) => {
            spend_hands(permits);
            return Err(e);
        }
    };
    match make_lists(alloc, positions, actors) {
        Ok(lists) => Ok(PermitRooms {
            permits,
            ended,
            lists,
        }),
        Err(e) => {
            spend_hands(permits);
            spend_hands(ended);
            Err(e)
        }
    }
}

/// Spends room that is not to be used.
pub fn spend_permit_rooms<S, E>(rooms: PermitRooms<S, E>)
    requires { AreEmptyPermitRooms rooms }
{
    let PermitRooms {
        permits,
        ended,
        lists,
    } = rooms;
    spend_hands(permits);
    spend_hands(ended);
    spend_lists(lists);
}

/// Room for all permits of a house.
pub struct Rooms<B: Naming> {
    /// For the producers' permits on the lanes.
    pub producers: PermitRooms<LanePermit<Letter<B>>, Ended<Letter<B>>>,
    /// For the consumers' permits on the producers' reply channels.
    pub consumers: PermitRooms<SenderPermit<Answer<B>>, SenderEnded<Answer<B>>>,
}

/// Room for all permits of a house with so many producers, who have a reply channel each, and so many
/// shards, which have a lane and a consumer each. An error where memory is refused; nothing is left
/// then.
pub fn make_rooms<B: Naming>(
    alloc: Global,
    producers: u8,
    shards: u8,
) -> Result<Rooms<B>, AllocError>
    ensures producers { IfOk result (λ rooms. ArePermitRooms producers shards rooms.producers) }
    ensures consumers { IfOk result (λ rooms. ArePermitRooms shards producers rooms.consumers) }
{
    let (producers, shards) = (usize::from(producers), usize::from(shards));
    let on_lanes = make_permit_rooms(alloc, producers, shards)?;
    match make_permit_rooms(alloc, shards, producers) {
        Ok(on_channels) => Ok(Rooms {
            producers: on_lanes,
            consumers: on_channels,
        }),
        Err(e) => {
            spend_permit_rooms(on_lanes);
            Err(e)
        }
    }
}

/// Spends room that is not to be used.
pub fn spend_rooms<B: Naming>(rooms: Rooms<B>)
    requires { AreEmptyPermitRooms rooms.producers × AreEmptyPermitRooms rooms.consumers }
{
    let Rooms {
        producers,
        consumers,
    } = rooms;
    spend_permit_rooms(producers);
    spend_permit_rooms(consumers);
}
