//! A consumer's life: each copy of its lane is taken, delivered and answered, until the end of every
//! producer came; then its own permits are ended. What becomes of one copy stands in `answering`.

ghost use Rattle.std.specs.Prelude.{◌≡◌, ◌≤◌, ◌++◌, ◌∷◌, [], IfSome, MatchOption, true, false, length, map, vec_capacity};
ghost use Rattle.std.specs.List.{list_any};
ghost use Rattle.shard_queue.specs.declared.lane.Entry.TheVariants as entries;
ghost use Rattle.shard_queue.specs.Permits.{IsConsumer, got};
ghost use Rattle.shard_queue.specs.Reply.{sent_on};
ghost use Rattle.lane_work.specs.Permits.{AreSenders};
ghost use Rattle.lane_work.specs.Answering.{is_nobodys};
ghost use Rattle.lane_work.specs.inner.Answering.{HaveAnswered};
ghost use Rattle.lane_work.specs.Consuming.{IsConsumed};
ghost use Rattle.lane_work.specs.Ends.{ends_in};

use crate::answering::serve_copy;
use crate::bells::wait_for;
use crate::ending::end_senders;
use crossbeam_utils::sync::Parker;
use delivery_token::Job;
use house_history::{Answer, Front, Letter, Naming};
use locked_mailbox::LockedMailbox;
use shard_queue::{
    ConsumerPermit, Entry, ReplyChannel, SenderEnded, SenderPermit, ShardQueue, Taken,
};
use std::sync::{Mutex, Wait};
use workers_sync::{Gate, SessionBell, SyncPoint};

/// What all consumers share.
pub struct Delivery<B: Naming> {
    /// The mailboxes, by their numbers.
    pub mailboxes: Vec<Mutex<LockedMailbox<B>>>,
    /// The producers' reply channels, by their numbers.
    pub channels: Vec<ReplyChannel<Answer<B>>>,
    /// The bells of the sessions that may look at a mailbox, by its number: they are rung after a
    /// delivery to it. Where a mailbox has none nothing is rung.
    pub sessions: Vec<Vec<SessionBell>>,
    /// How the history of these mailboxes began, as an answer has it that says nothing of a copy.
    pub front: Front<B>,
}

/// What one consumer holds.
pub struct Stall<B: Naming> {
    /// The number of its shard, which is that of its senders.
    pub shard: u8,
    /// Its end of its lane.
    pub permit: ConsumerPermit<Letter<B>>,
    /// Its permit on each reply channel.
    pub senders: Vec<SenderPermit<Answer<B>>>,
    /// The bell that wakes it: whoever puts on its lane, or ends there, rings it.
    pub bell: Parker,
}

/// What a consumer leaves.
pub struct Consumed<B: Naming> {
    /// Its end of its lane.
    pub permit: ConsumerPermit<Letter<B>>,
    /// What is left of its permit on each reply channel.
    pub senders: Vec<SenderEnded<Answer<B>>>,
    /// The entries that it took, copies and ends, in order, up to the first that there was no memory for.
    pub taken: Vec<Entry<Job>>,
    /// Whether these are all that it took.
    pub kept: bool,
    /// Whether it took one that was nobody's: of a producer without a channel, or for a mailbox that
    /// isn't there.
    pub torn: bool,
}

// Whether all entries were kept, and whether one was nobody's copy.
#[derive(Clone, Copy)]
struct Tally {
    kept: bool,
    torn: bool,
}

// An entry that is to be kept of a copy, before that is given away. None where no more are kept, or its text can't be shared.
fn entry_of(kept: bool, producer: u8, job: &Job) -> Option<Entry<Job>>
    ensures { IfSome result (λ entry. (kept ≡ true) × (entry ≡ entries.Item producer job.now)) }
{
    if !kept {
        return None;
    }
    let Ok(text) = job.text.copy() else {
        return None;
    };
    let copy = Job {
        key: job.key,
        mailbox: job.mailbox,
        text,
        flags: job.flags,
    };
    Some(Entry::Item(producer, copy))
}

// Adds what is to be kept of a copy, where there is memory.
fn keep_copy(taken: &mut Vec<Entry<Job>>, entry: Option<Entry<Job>>) -> bool
    ensures { MatchOption entry (result ≡ false)
        (λ e. result ≡ true → taken.new.items ≡ taken.old.items ++ e ∷ []) }
{
    match entry {
        Some(entry) => keep(taken, true, entry),
        None => false,
    }
}

// Adds an entry, where all before it were kept and there is memory.
fn keep(taken: &mut Vec<Entry<Job>>, kept: bool, entry: Entry<Job>) -> bool
    ensures { result ≡ true → (kept ≡ true) × (taken.new.items ≡ taken.old.items ++ entry ∷ []) }
{
    if !kept {
        return false;
    }
    match taken.push(entry) {
        Ok(()) => true,
        Err(_) => false,
    }
}

// Takes until the end of each of so many producers came: each copy is delivered and answered. What was
// taken is kept as long as there is memory.
fn serve_all<B: Naming, R: Wait, G: Gate>(
    rt: &R,
    sync_point: &mut SyncPoint<'_, G>,
    delivery: &Delivery<B>,
    lane: &ShardQueue<Letter<B>>,
    stall: &mut Stall<B>,
    taken: &mut Vec<Entry<Job>>,
    producers: usize,
) -> Tally
    requires permit { IsConsumer lane.now stall.old.permit × (got stall.old.permit ≡ []) }
    requires senders { AreSenders delivery.now.channels.items stall.old.shard
        stall.old.senders.items }
    requires none { taken.old.items ≡ [] }
    ensures shard { stall.new.shard ≡ stall.old.shard }
    ensures permit { IsConsumer lane.now stall.new.permit }
    ensures senders { AreSenders delivery.now.channels.items stall.old.shard
        stall.new.senders.items }
    ensures answered { HaveAnswered (length delivery.now.mailboxes.items)
        (length delivery.now.channels.items) stall.old.shard
        (got stall.new.permit) (map sent_on stall.old.senders.items)
        (map sent_on stall.new.senders.items) }
    ensures ends { producers ≤ ends_in (got stall.new.permit) }
    ensures torn { result.torn
        ≡ list_any (is_nobodys (length delivery.now.mailboxes.items)
        (length delivery.now.channels.items))
        (got stall.new.permit) }
    ensures kept { result.kept ≡ true → taken.new.items ≡ got stall.new.permit }
{
    let mut tally = Tally {
        kept: true,
        torn: false,
    };
    let shard = stall.shard;
    let mut ends = 0usize;
    let mut pauses = 0u32;
    for _ in rt.forever() {
        if ends >= producers {
            return tally;
        }
        sync_point.pass();
        match lane.take_as(rt, &mut stall.permit) {
            Taken::Item(p, letter) => {
                pauses = 0;
                let entry = entry_of(tally.kept, p, letter.job());
                let known = serve_copy(
                    rt,
                    sync_point,
                    delivery,
                    shard,
                    &mut stall.senders,
                    p,
                    letter,
                );
                tally.torn |= !known;
                tally.kept = keep_copy(taken, entry);
            }
            Taken::End(p) => {
                pauses = 0;
                tally.kept = keep(taken, tally.kept, Entry::End(p));
                ends = ends.saturating_add(1);
            }
            Taken::Empty => pauses = wait_for(rt, &stall.bell, pauses),
        }
    }
    unreachable!()
}

/// A consumer's whole life: it takes until the end of each of so many producers came, and then ends its
/// permit on each reply channel. Each copy is delivered under its mailbox's lock and answered on its
/// producer's channel. Each entry is kept; where the list of those that are kept can't grow, or a copy's text
/// can't be shared, it goes on without keeping.
///
/// `ended` is empty and has room for all channels, and `taken` is empty. It sleeps where nothing waits, so whoever
/// puts on the lane, or ends there, has to ring its bell.
pub fn consume<B: Naming, R: Wait, G: Gate>(
    rt: &R,
    sync_point: &mut SyncPoint<'_, G>,
    delivery: &Delivery<B>,
    lane: &ShardQueue<Letter<B>>,
    mut stall: Stall<B>,
    ended: Vec<SenderEnded<Answer<B>>>,
    mut taken: Vec<Entry<Job>>,
    producers: usize,
) -> Consumed<B>
    // The stall has its lane's consumer's permit, which took nothing yet, and on each channel a sender's of its shard's number.
    requires permit { IsConsumer lane.now stall.permit × (got stall.permit ≡ []) }
    requires senders { AreSenders delivery.now.channels.items stall.shard stall.senders.items }
    requires room { (ended.items ≡ []) × (length delivery.now.channels.items ≤ vec_capacity ended) }
    requires none { taken.items ≡ [] }

    // Each channel got one verdict on each copy taken of its producer, in order, then the end; where `kept`, `taken` is all that was taken.
    ensures consumed { IsConsumed lane.now delivery.now stall.shard
        (map sent_on stall.senders.items)
        result }

    // As many producers' ends were taken as `producers` says, or more.
    ensures ends { producers ≤ ends_in (got result.permit) }
{
    let tally = serve_all(
        rt, sync_point, delivery, lane, &mut stall, &mut taken, producers,
    );
    let Stall {
        shard,
        permit,
        senders,
        bell: _,
    } = stall;
    let senders = end_senders(rt, sync_point, &delivery.channels, shard, senders, ended);
    Consumed {
        permit,
        senders,
        taken,
        kept: tally.kept,
        torn: tally.torn,
    }
}
