//! A house's end: it is closed once its threads are joined, and hands out what it has left; or it is spent, where no producer ran. How
//! the threads are started and stopped stands in `run`.

ghost use Rattle.std.specs.Prelude.{ℕ, ◌≡◌, ◌≢◌, ◌≤◌, ◌<◌, ◌+◌, All, Err, None, Ok, OnOk, Option, IfOk, IfSome, [], false, true, length, map, vec_len, vec_capacity};
ghost use Rattle.settings.specs.declared.config.ConfigFault.{ConfigFault};
ghost use Rattle.house_shared.specs.Left.{IsPostLeft, IsStandLeft};
ghost use Rattle.house_shared.specs.Crew.{AllAt, IsHouse, IsPost};
ghost use Rattle.house_shared.specs.Opening.{AreBaskets};
ghost use Rattle.lane_work.specs.Rooms.{AreRooms};
ghost use Rattle.shared_consumers.specs.Keeping.{parts_of};
ghost use Rattle.serving_workers.specs.Leaving.{IsServed};
ghost use Rattle.serving.specs.inner.Ending.{CameTo, FirstTakeMail};

use crate::fault::ServeFault;
use crate::site::Site;
use house_history::{Answer, Naming};
use house_shared::{Baskets, HouseShared, Post, Ran, Stand, Started};
use lane_work::{Consumed, Worked};
use reckoning::abandon;
use serving_workers::{Finished, Line, Rest, Served, Workplace, close_all};
use shard_queue::SenderEnded;
use shared_consumers::{ConsumerSet, LaneGroup, dismiss_all, stand_down};
use std::sync::Wait;

/// What the threads of the producers leave; or their posts, where there was no memory to note the threads in, or no thread for the log, and
/// none of them was started.
pub(crate) struct Over<B: Naming, L> {
    /// What each thread of a producer has left, in their order.
    pub(crate) served: Vec<Served<B, L>>,
    /// The posts of producers that were not started.
    pub(crate) posts: Vec<Post<B>>,
    /// Whether each thread that was tried could be made.
    pub(crate) all_started: bool,
    /// Whether no producer was started.
    pub(crate) none_started: bool,
    /// Whether all was said of the listeners.
    pub(crate) is_told: bool,
}

/// Spends a house in which nothing ran. Its fault is `NoMemory`.
pub(crate) fn give_up<B: Naming>(
    shared: HouseShared<B>,
    worked: Vec<Worked<B>>,
    consumed: Vec<Consumed<B>>,
    stands: Vec<Stand<B>>,
    posts: Vec<Post<B>>,
    baskets: Baskets<B>,
) -> ServeFault
    requires some { (0 < length shared.delivery.channels.items)
        × (0 < length shared.intake.lanes.items) }
    requires none { (worked.items ≡ []) × (consumed.items ≡ []) }
    requires stands { (vec_len stands ≡ length shared.intake.lanes.items)
        × All (IsStandLeft (length shared.delivery.channels.items)) stands.items }
    requires posts { (vec_len posts ≡ length shared.delivery.channels.items)
        × All (IsPostLeft (length shared.intake.lanes.items)) posts.items }
    requires baskets { AreBaskets (length shared.delivery.channels.items)
        (length shared.intake.lanes.items) baskets }
    ensures { result ≡ ServeFault.NoMemory }
{
    let alloc = shared.alloc;
    let ran = Ran {
        worked,
        consumed,
        stands,
        posts,
        started: Started::NoMemory,
    };
    abandon(alloc, shared, ran, baskets);
    ServeFault::NoMemory
}

// What the end of a house comes to: what it has left, where nothing was amiss.
fn told<B: Naming, L: Line>(
    all_started: bool,
    is_told: bool,
    finished: Option<Finished<B, L>>,
) -> Result<Finished<B, L>, ServeFault>
    ensures spawn { all_started ≡ false → result ≡ Err ServeFault.Spawn }
    ensures device { all_started ≡ true → is_told ≡ false → result ≡ Err ServeFault.Device }
    ensures torn { all_started ≡ true → is_told ≡ true → finished ≡ None
        → result ≡ Err ServeFault.Torn }
    ensures done { IfSome finished (λ left. all_started ≡ true → is_told ≡ true
        → result ≡ Ok left) }
{
    if !all_started {
        return Err(ServeFault::Spawn);
    }
    if !is_told {
        return Err(ServeFault::Device);
    }
    let Some(left) = finished else {
        return Err(ServeFault::Torn);
    };
    Ok(left)
}

// Spends a house of which no producer was started.
fn spend<B: Naming, H: LaneGroup, L: Drop>(
    shared: HouseShared<B>,
    consumer_set: ConsumerSet<B, H>,
    posts: Vec<Post<B>>,
    rest: Rest<B, L>,
    consumed: Vec<Consumed<B>>,
    baskets: Baskets<B>,
) -> ServeFault
    requires lanes { H.lanes ≡ Some shared.intake.lanes.items }
    requires delivery { H.delivery ≡ Some (parts_of shared.delivery) }
    requires house { IsHouse shared (length shared.delivery.channels.items) }
    requires some { (0 < length shared.delivery.channels.items)
        × (0 < length shared.intake.lanes.items) }
    requires shared_consumers { vec_len consumer_set.shared_consumers
        ≡ length shared.intake.lanes.items }
    requires rooms { AreRooms (length shared.intake.lanes.items)
        (length shared.delivery.channels.items) consumer_set.rooms }
    requires stands { (consumer_set.stands.items ≡ [])
        × (length shared.intake.lanes.items ≤ vec_capacity consumer_set.stands) }
    requires posts { AllAt (IsPost shared) 0 posts.items
        × (vec_len posts ≡ length shared.delivery.channels.items) }
    requires none { (rest.worked.items ≡ []) × (consumed.items ≡ []) }
    requires baskets { AreBaskets (length shared.delivery.channels.items)
        (length shared.intake.lanes.items) baskets }
    ensures { result ≡ ServeFault.NoMemory }
{
    let Rest {
        worked,
        unlocked: _,
        lines: _,
    } = rest;
    let stands = stand_down(&shared, consumer_set);
    give_up(shared, worked, consumed, stands, posts, baskets)
}

/// Room for what the shared consumers of all shards leave.
pub(crate) struct SharedConsumerRooms<B: Naming> {
    /// For each, what is left of its senders.
    pub(crate) rooms: Vec<Vec<SenderEnded<Answer<B>>>>,
    /// Their stands, where they are stood down.
    pub(crate) stands: Vec<Stand<B>>,
}

/// Closes the house that the threads have left, and hands out what it has left, or spends it where none was started. Ok says that nothing was
/// amiss.
///
/// Errors, the first that holds: `NoMemory` where no producer was started, for want of memory, and `Spawn` where a thread could not be made;
/// `Device` where not all lines could be written; `Torn` where a queue could not be closed. All of the house is spent then too.
pub(crate) fn close_or_spend<B: Naming, H: LaneGroup, R: Wait, L: Line>(
    rt: &R,
    site: Site<B, H>,
    shared_consumer_rooms: SharedConsumerRooms<B>,
    over: Over<B, L>,
    rest: Rest<B, L>,
    consumed: Vec<Consumed<B>>,
    baskets: Baskets<B>,
) -> Result<Finished<B, L>, ServeFault>
    requires lanes { H.lanes ≡ Some site.workplace.shared.intake.lanes.items }
    requires delivery { H.delivery ≡ Some (parts_of site.workplace.shared.delivery) }
    requires house { IsHouse site.workplace.shared
        (length site.workplace.shared.delivery.channels.items) }
    requires some { (0 < length site.workplace.shared.delivery.channels.items)
        × (0 < length site.workplace.shared.intake.lanes.items) }
    requires shared_consumers { vec_len site.workplace.shared_consumers
        ≡ length site.workplace.shared.intake.lanes.items }
    requires rooms { AreRooms (length site.workplace.shared.intake.lanes.items)
        (length site.workplace.shared.delivery.channels.items) shared_consumer_rooms.rooms }
    requires stands { (shared_consumer_rooms.stands.items ≡ [])
        × (length site.workplace.shared.intake.lanes.items ≤ vec_capacity
        shared_consumer_rooms.stands) }
    requires served { over.none_started ≡ false
        → AllAt (IsServed L.told site.workplace.shared) 0 over.served.items ×
        (vec_len over.served ≡ length site.workplace.shared.delivery.channels.items)
        × (over.posts.items ≡ []) }
    requires mail { over.none_started ≡ false
        → FirstTakeMail (length site.shutdown_handles.mail.items)
        (map (λ s. s.mail) over.served.items) }
    requires none_started { over.none_started ≡ true
        → AllAt (IsPost site.workplace.shared) 0 over.posts.items ×
        (vec_len over.posts ≡ length site.workplace.shared.delivery.channels.items)
        × (over.served.items ≡ []) }
    requires worked { (rest.worked.items ≡ [])
        × (length site.workplace.shared.delivery.channels.items ≤ vec_capacity rest.worked) }
    requires unlocked { (rest.unlocked.items ≡ [])
        × (vec_len site.workplace.shared.delivery.mailboxes ≤ vec_capacity rest.unlocked) }
    requires lines { (rest.lines.items ≡ [])
        × (length site.workplace.shared.delivery.channels.items ≤ vec_capacity rest.lines) }
    requires consumed { (consumed.items ≡ [])
        × (length site.workplace.shared.intake.lanes.items ≤ vec_capacity consumed) }
    requires baskets { AreBaskets (length site.workplace.shared.delivery.channels.items)
        (length site.workplace.shared.intake.lanes.items) baskets }
    ensures setting { (fault : ConfigFault) → result ≢ Err (ServeFault.Config fault) }
    ensures whole { IfOk result (CameTo site.workplace.shared
        (length site.shutdown_handles.mail.items)) }
    ensures told { OnOk result (over.is_told ≡ true) }
    ensures unsaid { result ≡ Err ServeFault.Spawn → over.all_started ≡ false }
    ensures untried { result ≡ Err ServeFault.NoMemory → over.none_started ≡ true }
{
    let Site {
        workplace,
        gate,
        guests: _,
        compatible: _,
        limits: _,
        imap: _,
        shutdown_handles: _,
        signs: _,
        page: _,
        watch: _,
        rows: _,
    } = site;
    let Workplace {
        shared,
        shared_consumers,
        at_once: _,
        lmtp: _,
        mark: _,
        pause: _,
        log: _,
        workers: _,
        sessions: _,
        presences: _,
    } = workplace;
    let SharedConsumerRooms { rooms, stands } = shared_consumer_rooms;
    let consumer_set = ConsumerSet {
        shared_consumers,
        rooms,
        stands,
    };
    let Over {
        served,
        posts,
        all_started,
        none_started,
        is_told,
    } = over;
    if none_started {
        served.destroy_empty();
        let fault = spend(shared, consumer_set, posts, rest, consumed, baskets);
        return Err(if all_started {
            fault
        } else {
            ServeFault::Spawn
        });
    }
    posts.destroy_empty();
    let dismissed = dismiss_all(rt, &gate, &shared, consumer_set, consumed);
    let finished = close_all(rt, shared, served, rest, dismissed, baskets);
    told(all_started, is_told, finished)
}
