//! The house that the producers of a server leave: the shards' ends are heard, and each queue is closed with what all producers and shared consumers
//! left. No thread runs any more.

ghost use Rattle.std.specs.Prelude.{◌≡◌, ◌<◌, ◌≤◌, [], All, IfSome, Some, false, length, map, true, vec_len, vec_capacity};
ghost use Rattle.std.specs.List.{list_all, list_any};
ghost use Rattle.shard_queue.specs.Reply.{received};
ghost use Rattle.shard_queue.specs.Shared.{IsStartOf};
ghost use Rattle.lane_work.specs.LanePermits.{AreConsumers};
ghost use Rattle.lane_work.specs.ChannelPermits.{AreSenderEndedHands};
ghost use Rattle.house_shared.specs.Crew.{AllAt, IsHouse};
ghost use Rattle.house_shared.specs.Opening.{AreBaskets};
ghost use Rattle.serving_workers.specs.Closing.{GoOn, WasClosed};
ghost use Rattle.serving_workers.specs.Leaving.{IsServed};
ghost use Rattle.serving_workers.specs.Finished.{told_of};
ghost use Rattle.serving_workers.specs.inner.Leaving.{HasHeard, is_whole};

use crate::accepting::Served;
use crate::line::Line;
use delivery_token::WorkerLog;
use house_history::{Answer, Front, Letter, Naming};
use house_shared::{Baskets, HouseShared, Ran, Started};
use lane_work::{Consumed, Fate, Worked, hear_ends};
use locked_mailbox::LockedMailbox;
use reckoning::{
    Closes, Remains, abandon, are_recorded, close_queues, learn_all, remains_of, unlock_into,
};
use shard_queue::{Closed, ReplyClosed};
use shared_consumers::{Dismissed, Unhindered};
use std::marker::Model;
use std::sync::Wait;
use workers_sync::{Actor, SyncPoint};

/// What a house came to in which nothing went amiss.
#[derive(Drop)]
pub struct Finished<B: Naming, L: Line> {
    /// What was taken of each queue, to its end.
    pub closes: Closes<B>,
    /// The mailboxes, by their numbers.
    pub mailboxes: Vec<LockedMailbox<B>>,
    /// Of each producer where its connections came in, if it is a worker.
    pub lines: Vec<Option<L>>,
    /// How the house's history begins, with all that a producer put and heard.
    pub front: Front<B>,
}

impl<B: Naming, L: Line> Model for Finished<B, L> {
    ghost use Rattle.std.specs.Prelude.{map};
    ghost use Rattle.serving_workers.specs.Finished.{Finished, told_of};

    ghost Value = { Finished };

    ghost view = { λ f. record {
      lanes = f.closes.lanes;
      channels = f.closes.channels;
      front = f.front;
      mailboxes = f.mailboxes;
      lines = map (told_of L.told) f.lines.items;
    } };
}

// How it went for a producer that heard the shards' ends.
fn fate_of(quiet: bool) -> Fate
    ensures { result ≡ Fate.Whole → quiet ≡ true }
{
    if quiet { Fate::Whole } else { Fate::Torn }
}

// A producer that has heard the end of each shard, and where its connections came in, if it is a worker.
struct HeardOut<B: Naming, L> {
    worked: Worked<B>,
    line: Option<L>,
}

// A producer hears the end of each shard, which each shared consumer has sent it. Of its replies and verdicts nothing was kept. Its fate says whether
// it heard these ends alone.
fn hear_out<B: Naming, R: Wait, L: Line>(
    rt: &R,
    shared: &HouseShared<B>,
    number: u8,
    served: Served<B, L>,
) -> HeardOut<B, L>
    requires there { number < length shared.now.delivery.channels.items }
    requires served { IsServed L.told shared.now number served }
    ensures heard { HasHeard shared.now number result.worked }
    ensures ended { result.worked.ended ≡ served.ended }
    ensures grew { IsStartOf (received served.receiver) (received result.worked.receiver) }
    ensures line { result.line ≡ served.line }
{
    let Served {
        ended,
        mut receiver,
        ends,
        dispatch,
        torn: _,
        mail: _,
        line,
    } = served;
    let gate = Unhindered;
    let mut sync_point = SyncPoint::new(&gate, Actor::Worker(number));
    let channel = &shared.delivery.channels[usize::from(number)];
    let shards = shared.intake.lanes.len();
    let quiet = hear_ends(rt, &mut sync_point, channel, &mut receiver, ends, shards);
    let worked = Worked {
        ended,
        receiver,
        replies: Vec::new(shared.alloc),
        log: WorkerLog::new(shared.alloc, number),
        dispatch,
        fate: fate_of(quiet),
    };
    HeardOut { worked, line }
}

// The same of all producers. `worked` and `lines`, which are empty, have room for all.
fn hear_all_out<B: Naming, R: Wait, L: Line>(
    rt: &R,
    shared: &HouseShared<B>,
    served: Vec<Served<B, L>>,
    mut worked: Vec<Worked<B>>,
    lines: &mut Vec<Option<L>>,
) -> Vec<Worked<B>>
    requires house { IsHouse shared.now (vec_len served) }
    requires served { AllAt (IsServed L.told shared.now) 0 served.items }
    requires room { (worked.items ≡ []) × (vec_len served ≤ vec_capacity worked) }
    requires lines { (lines.old.items ≡ []) × (vec_len served ≤ vec_capacity lines.old) }
    ensures lines { lines.new.items ≡ map (λ s. s.line) served.items }
    ensures worked { AllAt (HasHeard shared.now) 0 result.items }
    ensures count { vec_len result ≡ vec_len served }
    ensures ended { map (λ w. w.ended.items) result.items ≡ map (λ s. s.ended.items) served.items }
    ensures grew { GoOn (map (λ s. received s.receiver) served.items) (map (λ w.
        received w.receiver) result.items) }
{
    let mut left = served;
    for number in 0..left.len() {
        let one = left.remove(0);
        let HeardOut {
            worked: heard,
            line,
        } = hear_out(rt, shared, number as u8, one);
        worked.push_reserved(heard);
        lines.push_reserved(line);
    }
    left.destroy_empty();
    worked
}

// Whether a producer heard a verdict that it didn't await.
fn is_producer_torn<B: Naming, L: Line>(served: &[Served<B, L>]) -> bool
    ensures { result ≡ list_any (λ s. s.torn) served.now }
{
    served.iter().any(|one| one.torn)
}

// Whether a shared consumer met a copy that was nobody's.
fn is_shared_consumer_torn<B: Naming>(consumed: &[Consumed<B>]) -> bool
    ensures { result ≡ list_any (λ c. c.torn) consumed.now }
{
    consumed.iter().any(|one| one.torn)
}

// Whether a producer heard nothing but the shards' ends at last.
fn is_quiet<B: Naming>(worked: &Worked<B>) -> bool
    ensures { result ≡ is_whole worked.now.fate }
{
    matches!(worked.fate, Fate::Whole)
}

// Whether each of them did.
fn are_quiet<B: Naming>(worked: &[Worked<B>]) -> bool
    ensures { result ≡ list_all (λ w. is_whole w.fate) worked.now }
{
    worked.iter().all(|one| is_quiet(one))
}

// Spends a house of which a shared consumer stood at another's position, so that no lane and no channel can be closed.
fn spend_house<B: Naming>(
    shared: HouseShared<B>,
    worked: Vec<Worked<B>>,
    consumed: Vec<Consumed<B>>,
    baskets: Baskets<B>,
)
    requires some { (0 < length shared.delivery.channels.items)
        × (0 < length shared.intake.lanes.items) }
    requires each { (vec_len worked ≡ length shared.delivery.channels.items)
        × (vec_len consumed ≡ length shared.intake.lanes.items) }
    requires ended { All (λ w. vec_len w.ended ≡ length shared.intake.lanes.items) worked.items }
    requires senders { All (λ c. vec_len c.senders
        ≡ length shared.delivery.channels.items) consumed.items }
    requires baskets { AreBaskets (length shared.delivery.channels.items)
        (length shared.intake.lanes.items) baskets }
{
    let alloc = shared.alloc;
    let ran = Ran {
        worked,
        consumed,
        stands: Vec::new(alloc),
        posts: Vec::new(alloc),
        started: Started::All,
    };
    abandon(alloc, shared, ran, baskets);
}

/// Room for what is handed out of a house: for as many as there are of each, and empty.
pub struct Rest<B: Naming, L> {
    /// For each producer.
    pub worked: Vec<Worked<B>>,
    /// For each mailbox.
    pub unlocked: Vec<LockedMailbox<B>>,
    /// For each producer.
    pub lines: Vec<Option<L>>,
}

// Whether nothing was amiss.
fn is_well(
    is_producer_torn: bool,
    is_shared_consumer_torn: bool,
    quiet: bool,
    recorded: bool,
) -> bool
    ensures { result ≡ true → (is_producer_torn ≡ false) × (is_shared_consumer_torn ≡ false)
        × (quiet ≡ true) × (recorded ≡ true) }
{
    !is_producer_torn && !is_shared_consumer_torn && quiet && recorded
}

// What is handed out, where nothing was amiss and each queue could be closed.
fn finish<B: Naming, L: Line>(
    well: bool,
    lanes: Option<Vec<Closed<Letter<B>>>>,
    channels: Option<Vec<ReplyClosed<Answer<B>>>>,
    mailboxes: Vec<LockedMailbox<B>>,
    lines: Vec<Option<L>>,
    front: Front<B>,
) -> Option<Finished<B, L>>
    ensures well { IfSome result (λ f. well ≡ true) }
    ensures closes { IfSome result (λ f. (lanes ≡ Some f.lanes) × (channels ≡ Some f.channels)) }
    ensures rest { IfSome result (λ f. (f.mailboxes ≡ mailboxes) × (f.front ≡ front)
        × (f.lines ≡ map (told_of L.told) lines.items)) }
{
    if !well {
        return None;
    }
    let lanes = lanes?;
    let channels = channels?;
    Some(Finished {
        closes: Closes { lanes, channels },
        mailboxes,
        lines,
        front,
    })
}

/// Closes the house that the producers and the shared consumers have left: each producer hears the end of each shard, and each queue is closed with what
/// is left of all permits. What was taken of each queue is handed out where all went well: each shared consumer stood in its place, nobody met what he
/// didn't await, behind each lock lay the mailbox of that number, and each queue could be closed; and with it the mailboxes, the lines, and how
/// the house's history begins, which has what each producer put and heard and what happened in each mailbox. Where it didn't, all of the house
/// is spent all the same.
///
/// `rest` has room for all that is handed out.
pub fn close_all<B: Naming, R: Wait, L: Line>(
    rt: &R,
    shared: HouseShared<B>,
    served: Vec<Served<B, L>>,
    rest: Rest<B, L>,
    dismissed: Dismissed<B>,
    baskets: Baskets<B>,
) -> Option<Finished<B, L>>
    requires house { IsHouse shared (vec_len served) }
    requires some { (0 < vec_len served) × (0 < length shared.intake.lanes.items) }
    requires served { AllAt (IsServed L.told shared) 0 served.items }
    requires worked { (rest.worked.items ≡ []) × (vec_len served ≤ vec_capacity rest.worked) }
    requires unlocked { (rest.unlocked.items ≡ [])
        × (vec_len shared.delivery.mailboxes ≤ vec_capacity rest.unlocked) }
    requires lines { (rest.lines.items ≡ []) × (vec_len served ≤ vec_capacity rest.lines) }
    requires consumed { vec_len dismissed.consumed ≡ length shared.intake.lanes.items }
    requires permits { dismissed.in_order ≡ true
        → AreConsumers shared.intake.lanes.items (map (λ c. c.permit) dismissed.consumed.items) }
    requires hands { dismissed.in_order ≡ true
        → AreSenderEndedHands shared.delivery.channels.items 0
        (map (λ c. c.senders.items) dismissed.consumed.items) }
    requires senders { All (λ c. vec_len c.senders
        ≡ length shared.delivery.channels.items) dismissed.consumed.items }
    requires baskets { AreBaskets (vec_len served) (length shared.intake.lanes.items) baskets }
    ensures { IfSome result (WasClosed L.told shared served.items dismissed) }
{
    let alloc = shared.alloc;
    let is_producer_torn = is_producer_torn(&served);
    let Rest {
        worked,
        unlocked,
        mut lines,
    } = rest;
    let mut worked = hear_all_out(rt, &shared, served, worked, &mut lines);
    let Dismissed { consumed, in_order } = dismissed;
    if !in_order {
        spend_house(shared, worked, consumed, baskets);
        return None;
    }
    let is_shared_consumer_torn = is_shared_consumer_torn(&consumed);
    let quiet = are_quiet(&worked);
    let mut front = shared.delivery.front.again();
    let Remains {
        directory: _,
        lanes,
        channels,
        mailboxes,
    } = remains_of(shared);
    let mut mailboxes = unlock_into(mailboxes, unlocked, &mut front);
    learn_all(&mut worked, &mut front);
    let recorded = are_recorded(&mut mailboxes, &front);
    let closings = close_queues(alloc, lanes, channels, worked, consumed, baskets);
    finish(
        is_well(is_producer_torn, is_shared_consumer_torn, quiet, recorded),
        closings.lanes,
        closings.channels,
        mailboxes,
        lines,
        front,
    )
}
