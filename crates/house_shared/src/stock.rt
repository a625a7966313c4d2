//! What a house is made of that can't be let go: its lanes and channels with all their permits, and empty
//! lists for what is dealt of them and for what the threads leave. Where memory is refused on the way,
//! all that was made by then is spent. What may be let go stands in `fittings`.

ghost use Rattle.std.specs.Prelude.{◌≡◌, ◌<◌, All, IfOk, OnOk, map, replicate, vec_len};
ghost use Rattle.shard_queue.specs.Reply.{room_of};
ghost use Rattle.house_shared.specs.inner.Making.{AreEmptyLists, AreLists, AreStock};
ghost use Rattle.house_shared.specs.Opening.{AreNoSpares, AreSpares, reply_rooms};

use crate::shared::{Post, Stand};
use delivery_token::REPLY_ROOM;
use house_history::{Answer, Letter, Naming};
use lane_work::{
    Consumed, Lanes, Rooms, Worked, abandon_lanes, make_lanes, make_rooms, spend_rooms,
};
use shard_queue::{
    BothEnds, ConsumerPermit, Ended, EntryQueue, ProducerPermit, ReceiverPermit, SenderEnded,
    SenderPermit,
};
use std::alloc::{AllocError, Global};

/// Empty lists for what the threads are given, and for what comes of them.
pub(crate) struct CrewLists<B: Naming> {
    /// For a stand for each consumer.
    pub(crate) stands: Vec<Stand<B>>,
    /// For a post for each producer.
    pub(crate) posts: Vec<Post<B>>,
    /// For what each consumer leaves.
    pub(crate) consumed: Vec<Consumed<B>>,
    /// For what each producer leaves.
    pub(crate) worked: Vec<Worked<B>>,
    /// For posts that are never handed to a thread.
    pub(crate) unmanned: Vec<Post<B>>,
}

/// Empty lists for the ends of the queues.
pub(crate) struct EndLists<B: Naming> {
    /// For each consumer's end of its lane.
    pub(crate) consumers: Vec<ConsumerPermit<Letter<B>>>,
    /// For each producer's end of its reply channel.
    pub(crate) receivers: Vec<ReceiverPermit<Answer<B>>>,
    pub(crate) spares: Spares<B>,
}

/// Room for all permits of a house at once, and for what is left of them: a run that comes to nothing
/// gives them back in whatever state they are.
pub struct Spares<B: Naming> {
    /// For the producers' permits on all lanes.
    pub permits: Vec<ProducerPermit<Letter<B>>>,
    /// For what is left of them.
    pub ended: Vec<Ended<Letter<B>>>,
    /// For the consumers' permits on all reply channels.
    pub senders: Vec<SenderPermit<Answer<B>>>,
    /// For what is left of them.
    pub senders_ended: Vec<SenderEnded<Answer<B>>>,
}

impl<B: Naming> Spares<B> {
    // No room. It takes no memory.
    fn new(alloc: Global) -> Spares<B>
        ensures { AreNoSpares result }
    {
        Spares {
            permits: Vec::new(alloc),
            ended: Vec::new(alloc),
            senders: Vec::new(alloc),
            senders_ended: Vec::new(alloc),
        }
    }

    // Makes room for so many permits of each kind.
    fn reserve(&mut self, permits: usize) -> Result<(), AllocError>
        requires { AreNoSpares self.old }
        ensures empty { AreNoSpares self.new }
        ensures room { OnOk result (AreSpares permits self.new) }
    {
        self.permits.reserve(permits)?;
        self.ended.reserve(permits)?;
        self.senders.reserve(permits)?;
        self.senders_ended.reserve(permits)?;
        Ok(())
    }

    /// Spends room that nothing was laid into.
    pub fn spend(self)
        requires { AreNoSpares self }
    {
        let Spares {
            permits,
            ended,
            senders,
            senders_ended,
        } = self;
        permits.destroy_empty();
        ended.destroy_empty();
        senders.destroy_empty();
        senders_ended.destroy_empty();
    }
}

/// All of them.
pub(crate) struct Lists<B: Naming> {
    pub(crate) crew: CrewLists<B>,
    pub(crate) ends: EndLists<B>,
}

impl<B: Naming> Lists<B> {
    // Lists with no room. It takes no memory.
    fn new(alloc: Global) -> Lists<B>
        ensures { AreEmptyLists result }
    {
        let crew = CrewLists {
            stands: Vec::new(alloc),
            posts: Vec::new(alloc),
            consumed: Vec::new(alloc),
            worked: Vec::new(alloc),
            unmanned: Vec::new(alloc),
        };
        let ends = EndLists {
            consumers: Vec::new(alloc),
            receivers: Vec::new(alloc),
            spares: Spares::new(alloc),
        };
        Lists { crew, ends }
    }

    // Makes room in each list for what so many producers or consumers have to put there.
    fn reserve(&mut self, producers: usize, shards: usize) -> Result<(), AllocError>
        requires empty { AreEmptyLists self.old }
        requires few { (producers < 256) × (shards < 256) }
        ensures empty { AreEmptyLists self.new }
        ensures room { OnOk result (AreLists producers shards self.new) }
    {
        self.crew.stands.reserve(shards)?;
        self.crew.posts.reserve(producers)?;
        self.crew.consumed.reserve(shards)?;
        self.crew.worked.reserve(producers)?;
        self.crew.unmanned.reserve(producers)?;
        self.ends.consumers.reserve(shards)?;
        self.ends.receivers.reserve(producers)?;
        self.ends.spares.reserve(producers * shards)?;
        Ok(())
    }

    // Spends lists that are not to be used.
    fn spend(self)
        requires { AreEmptyLists self }
    {
        let Lists { crew, ends } = self;
        let CrewLists {
            stands,
            posts,
            consumed,
            worked,
            unmanned,
        } = crew;
        let EndLists {
            consumers,
            receivers,
            spares,
        } = ends;
        spares.spend();
        stands.destroy_empty();
        posts.destroy_empty();
        consumed.destroy_empty();
        worked.destroy_empty();
        unmanned.destroy_empty();
        consumers.destroy_empty();
        receivers.destroy_empty();
    }
}

// The lists for so many producers and consumers. An error where memory is refused; nothing is left
// then.
fn make_lists<B: Naming>(alloc: Global, producers: u8, shards: u8) -> Result<Lists<B>, AllocError>
    ensures { IfOk result (λ lists. AreLists producers shards lists) }
{
    let mut lists = Lists::new(alloc);
    match lists.reserve(usize::from(producers), usize::from(shards)) {
        Ok(()) => Ok(lists),
        Err(e) => {
            lists.spend();
            Err(e)
        }
    }
}

/// All of a house that can't be let go, before anything is dealt.
pub(crate) struct Stock<B: Naming> {
    pub(crate) rooms: Rooms<B>,
    pub(crate) lists: Lists<B>,
    pub(crate) lanes: Lanes<EntryQueue<Letter<B>>>,
    pub(crate) channels: Lanes<BothEnds<Answer<B>>>,
}

// How much room the lane of each shard has.
fn lane_rooms(alloc: Global, shards: u8, depth: usize) -> Result<Vec<usize>, AllocError>
    requires { 0 < depth }
    ensures rooms { IfOk result (λ r. r.items ≡ replicate shards depth) }
    ensures some { IfOk result (λ r. All (λ room. 0 < room) r.items) }
{
    vec![in alloc; depth; usize::from(shards)]
}

// How much room the reply channel of each producer has, of which the last are sessions. A session awaits one verdict at a time.
fn reply_rooms(
    alloc: Global,
    producers: u8,
    sessions: usize,
    shards: u8,
) -> Result<Vec<usize>, AllocError>
    ensures rooms { IfOk result (λ r. r.items ≡ reply_rooms producers sessions shards) }
    ensures count { IfOk result (λ r. vec_len r ≡ producers) }
    ensures some { IfOk result (λ r. All (λ room. 0 < room) r.items) }
{
    let all = usize::from(producers);
    let workers = all.saturating_sub(sessions);
    let mut rooms = vec![in alloc; REPLY_ROOM; workers]?;
    rooms.resize(all, usize::from(shards) + 1)?;
    Ok(rooms)
}

/// All that can't be let go of a house with so many producers and shards, whose lanes have room for
/// `depth` entries. So many of the producers are sessions, the last. An error where memory is refused; nothing is left then.
pub(crate) fn make_stock<B: Naming>(
    alloc: Global,
    producers: u8,
    sessions: usize,
    shards: u8,
    depth: usize,
) -> Result<Stock<B>, AllocError>
    requires { 0 < depth }
    ensures stock { IfOk result (λ stock. AreStock producers shards depth stock) }
    ensures rooms { IfOk result (λ stock. map room_of stock.channels.lanes.items
        ≡ reply_rooms producers sessions shards) }
{
    let lane_rooms = lane_rooms(alloc, shards, depth)?;
    let reply_rooms = reply_rooms(alloc, producers, sessions, shards)?;
    let rooms = make_rooms(alloc, producers, shards)?;
    let lists = match make_lists(alloc, producers, shards) {
        Ok(lists) => lists,
        Err(e) => {
            spend_rooms(rooms);
            return Err(e);
        }
    };
    let lanes = match make_lanes(alloc, &lane_rooms, producers) {
        Ok(lanes) => lanes,
        Err(e) => {
            spend_rooms(rooms);
            lists.spend();
            return Err(e);
        }
    };
    match make_lanes(alloc, &reply_rooms, shards) {
        Ok(channels) => Ok(Stock {
            rooms,
            lists,
            lanes,
            channels,
        }),
        Err(e) => {
            spend_rooms(rooms);
            lists.spend();
            abandon_lanes(alloc, lanes);
            Err(e)
        }
    }
}
