//! What is made before the first thread runs: the mailboxes, the queues with their permits dealt, the
//! bells, and room for all that the threads will leave, so that behind the start nothing is refused but
//! a thread. No thread is started here.

ghost use Rattle.std.specs.Prelude.{◌≡◌, ◌≢◌, ◌<◌, ◌≤◌, All, IfOk, None, length, map, vec_len};
ghost use Rattle.house_shared.specs.Crew.{AreGuests, IsCrew};
ghost use Rattle.shard_queue.specs.Reply.{room_of};
ghost use Rattle.house_shared.specs.Opening.{AreBaskets, IsHouseShared, reply_rooms};
ghost use Rattle.house_shared.specs.Users.{user_numbered};

use crate::fittings::make_fittings;
use crate::joining::put_together;
use crate::seating::Seating;
use crate::shared::{Crew, Guest, HouseShared};
use crate::stock::{Spares, make_stock};
use delivery_token::{Job, WorkerLog};
use envelope::Directory;
use house_history::{Answer, Letter, Naming};
use lane_work::Closing;
use mailbox::{History, Limits};
use shard_queue::{Closed, ConsumerPermit, Ended, Entry, ReceiverPermit, ReplyClosed, SenderEnded};
use std::alloc::{AllocError, Global};
use workers_sync::SessionParker;

/// How large the parts of a house are.
#[derive(Clone, Copy)]
pub struct Sizes<'a> {
    /// The house's name in replies, of 255 bytes at most.
    pub host: &'a [u8],
    /// The most bytes of a message's data.
    pub max_message: usize,
    /// The most bytes that the texts of messages may have together. None: there is no limit.
    pub memory: Option<u64>,
    /// So many producers, workers and behind them sessions, up to 255.
    pub producers: u8,
    /// So many entries have room in a shard's lane, 1 at least.
    pub depth: usize,
    /// What each mailbox tells as its UIDVALIDITY.
    pub uidvalidity: u32,
    /// The UID of a mailbox's first message.
    pub first_uid: u32,
    /// How many messages and changes a mailbox has room for.
    pub limits: Limits,
    /// Whether a mailbox keeps which copies it took.
    pub history: History,
    /// So many turns a session has at most where it awaits changes.
    pub turns: u64,
    /// For each worker, by its number, the shards that it closes before its connections.
    pub closings: &'a [Vec<Closing>],
}

/// The most producers of a house: workers, and behind them sessions, whose seats a lane tells apart by a byte.
pub const MOST_PRODUCERS: usize = 255;

/// Room for what the threads leave.
pub struct Baskets<B: Naming> {
    /// For each producer, what is left of its permits on the lanes.
    pub hands: Vec<Vec<Ended<Letter<B>>>>,
    /// For each lane, the same.
    pub lists: Vec<Vec<Ended<Letter<B>>>>,
    /// For each consumer, what is left of its permits on the reply channels.
    pub sender_hands: Vec<Vec<SenderEnded<Answer<B>>>>,
    /// For each channel, the same.
    pub sender_lists: Vec<Vec<SenderEnded<Answer<B>>>>,
    /// Each lane's consumer's end.
    pub consumers: Vec<ConsumerPermit<Letter<B>>>,
    /// Each producer's end of its reply channel.
    pub receivers: Vec<ReceiverPermit<Answer<B>>>,
    /// For each producer, what it said: of a worker the replies to each connection, of a session one
    /// text.
    pub replies: Vec<Vec<Vec<u8>>>,
    /// For each producer, the verdicts that it heard.
    pub logs: Vec<WorkerLog>,
    /// For each consumer, the entries that it took.
    pub taken: Vec<Vec<Entry<Job>>>,
    /// For each lane, what was taken of it.
    pub lanes: Vec<Closed<Letter<B>>>,
    /// For each reply channel, the same.
    pub channels: Vec<ReplyClosed<Answer<B>>>,
    /// For all permits, where the run comes to nothing.
    pub spares: Spares<B>,
}

/// A house that is ready to run.
pub struct Opened<B: Naming> {
    /// What all its threads share.
    pub shared: HouseShared<B>,
    /// What is dealt to each of them.
    pub crew: Crew<B>,
    /// Room for what they leave.
    pub baskets: Baskets<B>,
    /// The sessions' own ends of their bells, on which nobody waits yet.
    pub session_parkers: Vec<SessionParker>,
}

/// Makes all that a run needs, in a house with this directory and of these sizes, whose history was just opened: each mailbox has its
/// part of it, and each producer a seat. The bells of a mailbox are those of its user's sessions.
///
/// Errors: `AllocError` where memory is refused; nothing is left then.
pub fn open<B: Naming>(
    alloc: Global,
    history: house_history::Opened,
    directory: Directory,
    sizes: Sizes<'_>,
    guests: &[Guest],
) -> Result<Opened<B>, AllocError>
    // The history is the one that goes by this name.
    requires history { history ≡ B.book }
    requires depth { 0 < sizes.depth }
    requires host { length sizes.host.now < 256 }
    requires ring { 0 < sizes.limits.ring }
    requires shards { 0 < directory.shards }

    // Each session's user is one of the directory.
    requires guests { All (λ v. user_numbered v.user directory.homes ≢ None) guests.now }
    requires few { length guests.now ≤ 256 }

    // Without an error the shared state is a house with this directory and of these sizes, with each session's user and bells for each mailbox.
    ensures shared { IfOk result (λ o. IsHouseShared directory sizes.entry o.shared) }
    ensures guests { IfOk result (λ o. AreGuests o.shared guests.now) }

    // The last producers are the sessions: their reply channels have less room.
    ensures rooms { IfOk result (λ o. map room_of o.shared.delivery.channels.items
        ≡ reply_rooms sizes.entry.producers (length guests.now) directory.shards) }

    // There is then a post for each producer and a stand for each shard, and nothing is put, taken, sent or heard yet.
    ensures crew { IfOk result (λ o. IsCrew o.shared sizes.entry.producers o.crew) }

    // Nothing lies then in the baskets, which have room for what all leave; and each session has its end of a bell.
    ensures baskets { IfOk result (λ o.
        AreBaskets sizes.entry.producers directory.shards o.baskets) }
    ensures session_parkers { IfOk result (λ o. vec_len o.session_parkers ≡ length guests.now) }
{
    let (front, parts, seats, tickets) = history.named::<B>();
    let fittings = make_fittings(alloc, &directory, sizes, guests, parts, &front)?;
    let (producers, sessions) = (sizes.producers, guests.len());
    let stock = make_stock(alloc, producers, sessions, directory.shards(), sizes.depth)?;
    let seating = Seating {
        seats,
        tickets,
        front,
    };
    Ok(put_together(alloc, directory, sizes, fittings, stock, seating))
}
