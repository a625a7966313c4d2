//! The threads of a server: workers first, then one for each client slot of a session; it is waited for the end, all are stopped and joined, and
//! the house is closed. What the threads do stands in `serving_workers` and `sessions`, the house's end in `closing`.

ghost use Rattle.std.specs.Prelude.{ℕ, ◌≡◌, ◌≢◌, ◌≤◌, ◌<◌, ◌+◌, All, Err, Ok, OnOk, Some, IfOk, [], false, true, length, map, take, vec_len, vec_capacity};
ghost use Rattle.std.specs.Io.KnownBytes.{Appends};
ghost use Rattle.std.specs.List.{list_all};
ghost use Rattle.settings.specs.declared.config.ConfigFault.{ConfigFault};
ghost use Rattle.std.specs.Mem.{manually_drop_value};
ghost use Rattle.std.specs.Thread.{IsSend, IsSync};
ghost use Rattle.house_shared.specs.Crew.{AllAt, IsCrew, IsHouse, IsPost};
ghost use Rattle.house_shared.specs.Opening.{AreBaskets};
ghost use Rattle.shared_consumers.specs.Keeping.{parts_of};
ghost use Rattle.serving_workers.specs.Leaving.{IsSpawned, IsServed, has_thread, serves_mail};
ghost use Rattle.serving.specs.inner.Dealing.{AreSupplies, IsDealt};
ghost use Rattle.serving.specs.inner.Ending.{CameTo, FirstTakeMail};

use crate::announcing::Announcer;
use crate::closing::{Over, SharedConsumerRooms, close_or_spend, give_up};
use crate::equipment::{Equipment, Rooms, make_rooms};
use crate::fault::ServeFault;
use crate::limit::ClientLimit;
use crate::reporting::{Writing, start_writing};
use crate::sessions::{Ear, Furnishings, start_client_slots};
use crate::site::Site;
use crate::sockets::Sockets;
use crate::stopping::{await_end, bytes_held, longest_lane, stop_all};
use crate::telling::start_telling;
use crate::watch::Lookout;
use house_history::Naming;
use house_shared::{Crew, Guest, Opened, Post};
use line_io::Sink;
use server_report::{Held, Log};
use serving_workers::{
    Begun, Finished, Line, Lines, Mark, Rest, Served, Spawned, Workplace, join_producers, packed,
    start_workers,
};
use shared_consumers::{ConsumerSet, LaneGroup, Unhindered, make_all};
use std::io::{Read, Write};
use std::mem::ManuallyDrop;
use std::sync::Wait;
use std::thread;
use std::thread::Threads;

// The threads of the producers once all stand, and whoever said so.
struct Begin<'s, 'o, B: Naming, L: Line, W: Sink> {
    spawned: Vec<Spawned<'s, B, L>>,
    // Whether each thread could be made.
    all_started: bool,
    // Whether all was said of the listeners.
    is_told: bool,
    announcer: Announcer<'o, W>,
}

// What the threads of the producers leave, and whoever said that they stood.
struct Left<'o, B: Naming, L, W: Sink> {
    over: Over<B, L>,
    announcer: Announcer<'o, W>,
}

// What the threads are started with.
struct Supplies<B: Naming, L> {
    // For each producer.
    posts: Vec<Post<B>>,
    // What the client slots' threads take in with, and the watch's.
    ears: Vec<Ear>,
    lookout: Lookout,
    equipment: Equipment<L>,
}

// What is dealt to the threads, and room for what the producers leave.
struct Dealt<B: Naming, L> {
    supplies: Supplies<B, L>,
    served: Vec<Served<B, L>>,
}

// Starts all threads, and says whether each could be made. Nobody is accepted while the start is held, as the caller does. Where one couldn't
// be made the mark is set, so nobody is served.
fn start_all<
    's,
    E,
    B: Naming + Send + Sync,
    H: LaneGroup + Send,
    R: Threads + Wait + Sync,
    L: Line + Send + 's,
>(
    scope: &thread::Scope<'s, E>,
    rt: &'s R,
    site: &'s Site<B, H>,
    supplies: Supplies<B, L>,
    spawned: Vec<Spawned<'s, B, L>>,
) -> (Vec<Spawned<'s, B, L>>, bool)
    requires lanes { H.lanes ≡ Some site.now.workplace.shared.intake.lanes.items }
    requires delivery { H.delivery ≡ Some (parts_of site.now.workplace.shared.delivery) }
    requires house { IsHouse site.now.workplace.shared
        (length site.now.workplace.shared.delivery.channels.items) }
    requires shutdown_handles { length site.now.shutdown_handles.mail.items + length
        site.now.guests.items
        ≡ length site.now.workplace.shared.delivery.channels.items }
    requires supplies { AreSupplies L.told site.now.workplace.shared
        (length site.now.shutdown_handles.mail.items) (length site.now.guests.items) supplies }
    requires client_shutdown_handles { length site.now.shutdown_handles.clients.items
        ≡ length site.now.guests.items }
    requires room { (spawned.items ≡ [])
        × (length site.now.workplace.shared.delivery.channels.items ≤ vec_capacity spawned) }
    requires imap { All (λ v. v.user < vec_len site.now.imap) site.now.guests.items }
    ensures spawned { AllAt (IsSpawned L.told site.now.workplace.shared) 0 result.0.items }
    ensures mail { FirstTakeMail (length site.now.shutdown_handles.mail.items)
        (map serves_mail result.0.items) }
    ensures count { vec_len result.0 ≡ length site.now.workplace.shared.delivery.channels.items }
    ensures all { result.1 ≡ true → list_all has_thread result.0.items ≡ true }
{
    let Supplies {
        posts,
        ears,
        lookout,
        equipment,
    } = supplies;
    let Equipment {
        outfits,
        client_buffers,
    } = equipment;
    let furnishings = Furnishings {
        ears,
        buffers: client_buffers,
        lookout,
    };
    let Begun { spawned, posts } = start_workers::<E, B, H, R, L>(
        scope,
        rt,
        &site.workplace,
        &site.shutdown_handles.mail,
        posts,
        outfits,
        spawned,
    );
    start_client_slots::<E, B, H, R, L>(scope, rt, site, furnishings, posts, spawned)
}

// Starts all threads, and writes the lines that tell of the listeners. Nobody is accepted before that: all threads wait for the start,
// which is held here. Where a thread couldn't be made nothing is written. There, and where the lines couldn't be written, the mark is set by
// then, so nobody is served.
fn start_and_tell<
    's,
    'o,
    E,
    B: Naming + Send + Sync,
    H: LaneGroup + Send,
    R: Threads + Wait + Sync,
    L: Line + Send + 's,
    W: Sink,
>(
    scope: &thread::Scope<'s, E>,
    rt: &'s R,
    site: &'s Site<B, H>,
    supplies: Supplies<B, L>,
    spawned: Vec<Spawned<'s, B, L>>,
    announcer: Announcer<'o, W>,
) -> Begin<'s, 'o, B, L, W>
    requires lanes { H.lanes ≡ Some site.now.workplace.shared.intake.lanes.items }
    requires delivery { H.delivery ≡ Some (parts_of site.now.workplace.shared.delivery) }
    requires house { IsHouse site.now.workplace.shared
        (length site.now.workplace.shared.delivery.channels.items) }
    requires shutdown_handles { length site.now.shutdown_handles.mail.items + length
        site.now.guests.items
        ≡ length site.now.workplace.shared.delivery.channels.items }
    requires supplies { AreSupplies L.told site.now.workplace.shared
        (length site.now.shutdown_handles.mail.items) (length site.now.guests.items) supplies }
    requires client_shutdown_handles { length site.now.shutdown_handles.clients.items
        ≡ length site.now.guests.items }
    requires room { (spawned.items ≡ [])
        × (length site.now.workplace.shared.delivery.channels.items ≤ vec_capacity spawned) }
    requires imap { All (λ v. v.user < vec_len site.now.imap) site.now.guests.items }
    requires live { W.failed announcer.output.now ≡ false }
    ensures spawned { AllAt (IsSpawned L.told site.now.workplace.shared) 0 result.spawned.items }
    ensures mail { FirstTakeMail (length site.now.shutdown_handles.mail.items)
        (map serves_mail result.spawned.items) }
    ensures count { vec_len result.spawned
        ≡ length site.now.workplace.shared.delivery.channels.items }
    ensures there { result.all_started ≡ true → list_all has_thread result.spawned.items ≡ true }
    ensures same { result.announcer.output.ghost_name ≡ announcer.entry.output.ghost_name }
    ensures unsaid { result.all_started ≡ false
        → result.announcer.output.now ≡ announcer.entry.output.now }
    ensures told { (n : ℕ) × Appends (W.taken announcer.entry.output.now)
        (W.taken result.announcer.output.now) (take n announcer.entry.lines.now) }
    ensures all { result.is_told ≡ true
        → Appends (W.taken announcer.entry.output.now) (W.taken result.announcer.output.now)
        announcer.entry.lines.now }
{
    let _not_yet = site.workplace.mark.start.lock(rt);
    let (spawned, all_started) = start_all::<E, B, H, R, L>(scope, rt, site, supplies, spawned);
    if !all_started {
        return Begin {
            spawned,
            all_started,
            is_told: false,
            announcer,
        };
    }
    if !start_telling::<E, B, H, R>(scope, rt, site) {
        return Begin {
            spawned,
            all_started: false,
            is_told: false,
            announcer,
        };
    }
    let (announcer, is_told) = announcer.tell();
    if !is_told {
        site.workplace.mark.set();
    }
    Begin {
        spawned,
        all_started,
        is_told,
        announcer,
    }
}

// What is left where no thread of a producer was tried: for want of memory, or since a thread before them could not be made.
fn untried<B: Naming, L: Drop>(
    served: Vec<Served<B, L>>,
    supplies: Supplies<B, L>,
    all_started: bool,
) -> Over<B, L>
    ensures left { (result.served ≡ served) × (result.posts ≡ supplies.posts) }
    ensures none { (result.none_started ≡ true) × (result.all_started ≡ all_started)
        × (result.is_told ≡ false) }
{
    let Supplies {
        posts,
        ears: _,
        lookout: _,
        equipment: _,
    } = supplies;
    Over {
        served,
        posts,
        all_started,
        none_started: true,
        is_told: false,
    }
}

// The log ends: whoever writes it tells what was counted, and what the server held.
fn end_log<B: Naming, H: LaneGroup, R: Wait>(rt: &R, site: &Site<B, H>) {
    let workplace = &site.workplace;
    if workplace.log.is_on() {
        let held = Held {
            bytes: bytes_held(rt, &workplace.shared.delivery.mailboxes),
            longest_lane: longest_lane(rt, &workplace.shared_consumers),
        };
        workplace.log.end(rt, held);
    }
}

// The end is awaited, if it was said that the house serves; all threads are stopped, and the producers are joined.
fn stop_and_join<
    's,
    'o,
    B: Naming,
    H: LaneGroup,
    R: Threads + Wait,
    L: Line,
    I: Read + Drop,
    W: Sink,
>(
    rt: &R,
    site: &'s Site<B, H>,
    begin: Begin<'s, 'o, B, L, W>,
    served: Vec<Served<B, L>>,
    stop: I,
) -> Left<'o, B, L, W>
    requires spawned { AllAt (IsSpawned L.told site.now.workplace.shared) 0 begin.spawned.items
        × (vec_len begin.spawned ≡ length site.now.workplace.shared.delivery.channels.items) }
    requires mail { FirstTakeMail (length site.now.shutdown_handles.mail.items)
        (map serves_mail begin.spawned.items) }
    requires room { (served.items ≡ [])
        × (length site.now.workplace.shared.delivery.channels.items ≤ vec_capacity served) }
    ensures served { AllAt (IsServed L.told site.now.workplace.shared) 0 result.over.served.items ×
        (vec_len result.over.served ≡ length site.now.workplace.shared.delivery.channels.items)
        × (result.over.posts.items ≡ []) }
    ensures mail { FirstTakeMail (length site.now.shutdown_handles.mail.items) (map (λ s.
        s.mail) result.over.served.items) }
    ensures some { result.over.none_started ≡ false }
    ensures all { (result.over.all_started ≡ begin.entry.all_started)
        × (result.over.is_told ≡ begin.entry.is_told) }
    ensures same { result.announcer.output.ghost_name ≡ begin.entry.announcer.output.ghost_name }
    ensures written { result.announcer.output.now ≡ begin.entry.announcer.output.now }
{
    let Begin {
        spawned,
        all_started,
        is_told,
        announcer,
    } = begin;
    if is_told {
        await_end(rt, stop);
    }
    stop_all(rt, site);
    let over = Over {
        served: join_producers(rt, &site.workplace.shared, spawned, served),
        posts: Vec::new(site.workplace.shared.alloc),
        all_started,
        none_started: false,
        is_told,
    };
    end_log(rt, site);
    Left { over, announcer }
}

// All that is done in the scope: whoever writes the log is started first; the threads are started and that is said, the end is awaited, all are
// stopped, and the producers are joined.
fn in_scope<
    's,
    'o,
    E,
    B: Naming + Send + Sync,
    H: LaneGroup + Send,
    R: Threads + Wait + Sync,
    L: Line + Send + 's,
    I: Read + Drop,
    W: Sink,
    F: Write + Drop + Send + 's,
>(
    scope: &thread::Scope<'s, E>,
    rt: &'s R,
    site: &'s Site<B, H>,
    dealt: ManuallyDrop<Dealt<B, L>>,
    writing: Writing<F>,
    stop: I,
    announcer: Announcer<'o, W>,
) -> Left<'o, B, L, W>
    requires lanes { H.lanes ≡ Some site.now.workplace.shared.intake.lanes.items }
    requires delivery { H.delivery ≡ Some (parts_of site.now.workplace.shared.delivery) }
    requires house { IsHouse site.now.workplace.shared
        (length site.now.workplace.shared.delivery.channels.items) }
    requires shutdown_handles { length site.now.shutdown_handles.mail.items + length
        site.now.guests.items
        ≡ length site.now.workplace.shared.delivery.channels.items }
    requires client_shutdown_handles { length site.now.shutdown_handles.clients.items
        ≡ length site.now.guests.items }
    requires imap { All (λ v. v.user < vec_len site.now.imap) site.now.guests.items }
    requires dealt { IsDealt L.told site.now.workplace.shared
        (length site.now.shutdown_handles.mail.items)
        (length site.now.guests.items) (manually_drop_value dealt) }
    requires live { W.failed announcer.output.now ≡ false }
    ensures served { result.over.none_started ≡ false
        → AllAt (IsServed L.told site.now.workplace.shared) 0 result.over.served.items ×
        (vec_len result.over.served ≡ length site.now.workplace.shared.delivery.channels.items)
        × (result.over.posts.items ≡ []) }
    ensures mail { result.over.none_started ≡ false
        → FirstTakeMail (length site.now.shutdown_handles.mail.items) (map (λ s.
        s.mail) result.over.served.items) }
    ensures none_started { result.over.none_started ≡ true
        → AllAt (IsPost site.now.workplace.shared) 0 result.over.posts.items ×
        (vec_len result.over.posts ≡ length site.now.workplace.shared.delivery.channels.items)
        × (result.over.served.items ≡ []) }
    ensures same { result.announcer.output.ghost_name ≡ announcer.entry.output.ghost_name }
    ensures untried { result.over.none_started ≡ true
        → result.announcer.output.now ≡ announcer.entry.output.now }
    ensures unsaid { result.over.all_started ≡ false
        → result.announcer.output.now ≡ announcer.entry.output.now }
    ensures told { (n : ℕ) × Appends (W.taken announcer.entry.output.now)
        (W.taken result.announcer.output.now) (take n announcer.entry.lines.now) }
    ensures all { result.over.is_told ≡ true
        → Appends (W.taken announcer.entry.output.now) (W.taken result.announcer.output.now)
        announcer.entry.lines.now }
{
    let Dealt { supplies, served } = ManuallyDrop::into_inner(dealt);
    let (alloc, producers) = (
        site.workplace.shared.alloc,
        site.workplace.shared.delivery.channels.len(),
    );
    let Ok(spawned) = Vec::with_capacity(alloc, producers) else {
        let over = untried(served, supplies, true);
        return Left { over, announcer };
    };
    if !start_writing::<E, B, H, R, F>(scope, rt, site, writing) {
        let over = untried(served, supplies, false);
        return Left { over, announcer };
    }
    let begin = start_and_tell::<E, B, H, R, L, W>(scope, rt, site, supplies, spawned, announcer);
    stop_and_join(rt, site, begin, served, stop)
}

// What is dealt to the threads, for a closure to hold.
fn parcel_of<B: Naming, H: LaneGroup, L: Line>(
    site: &Site<B, H>,
    dealt: Dealt<B, L>,
) -> ManuallyDrop<Dealt<B, L>>
    requires { IsDealt L.told site.now.workplace.shared
        (length site.now.shutdown_handles.mail.items)
        (length site.now.guests.items) dealt }
    ensures { IsDealt L.told site.now.workplace.shared (length site.now.shutdown_handles.mail.items)
        (length site.now.guests.items) (manually_drop_value result) }
{
    let _ = site;
    packed(dealt)
}

// The scope of all threads, in which it is said that they stand.
fn serve_in_threads<
    'o,
    B: Naming + Send + Sync,
    H: LaneGroup + Send,
    R: Threads + Wait + Sync,
    L: Line + Send,
    I: Read + Drop,
    W: Sink,
    F: Write + Drop + Send,
>(
    rt: &R,
    site: &Site<B, H>,
    dealt: Dealt<B, L>,
    writing: Writing<F>,
    stop: I,
    lines: &'o [u8],
    output: &'o mut W,
) -> Over<B, L>
    requires lanes { H.lanes ≡ Some site.now.workplace.shared.intake.lanes.items }
    requires delivery { H.delivery ≡ Some (parts_of site.now.workplace.shared.delivery) }
    requires house { IsHouse site.now.workplace.shared
        (length site.now.workplace.shared.delivery.channels.items) }
    requires shutdown_handles { length site.now.shutdown_handles.mail.items + length
        site.now.guests.items
        ≡ length site.now.workplace.shared.delivery.channels.items }
    requires client_shutdown_handles { length site.now.shutdown_handles.clients.items
        ≡ length site.now.guests.items }
    requires imap { All (λ v. v.user < vec_len site.now.imap) site.now.guests.items }
    requires dealt { IsDealt L.told site.now.workplace.shared
        (length site.now.shutdown_handles.mail.items)
        (length site.now.guests.items) dealt }
    requires live { W.failed output.old ≡ false }
    ensures served { result.none_started ≡ false
        → AllAt (IsServed L.told site.now.workplace.shared) 0 result.served.items ×
        (vec_len result.served ≡ length site.now.workplace.shared.delivery.channels.items)
        × (result.posts.items ≡ []) }
    ensures mail { result.none_started ≡ false
        → FirstTakeMail (length site.now.shutdown_handles.mail.items)
        (map (λ s. s.mail) result.served.items) }
    ensures none_started { result.none_started ≡ true
        → AllAt (IsPost site.now.workplace.shared) 0 result.posts.items ×
        (vec_len result.posts ≡ length site.now.workplace.shared.delivery.channels.items)
        × (result.served.items ≡ []) }
    ensures untried { result.none_started ≡ true → output.new ≡ output.old }
    ensures unsaid { result.all_started ≡ false → output.new ≡ output.old }
    ensures told { (n : ℕ) × Appends (W.taken output.old) (W.taken output.new) (take n lines.now) }
    ensures all { result.is_told ≡ true
        → Appends (W.taken output.old) (W.taken output.new) lines.now }
{
    let dealt = parcel_of(site, dealt);
    let announcer = Announcer { lines, output };
    let Left { over, announcer } = thread::scope(
        thread::scope_env(),
        rt,
        |scope| -> Left<'_, B, L, W>
            requires sends { IsSend L.row × IsSend L.Input.row × IsSend L.Output.row }
            requires lane_group { IsSend B.row × IsSync B.row × IsSync R.row × (H.lanes
                ≡ Some site.now.workplace.shared.intake.lanes.items)
                × (H.delivery ≡ Some (parts_of site.now.workplace.shared.delivery)) }
            requires house { IsHouse site.now.workplace.shared
                (length site.now.workplace.shared.delivery.channels.items) }
            requires shutdown_handles { length site.now.shutdown_handles.mail.items + length site.now.guests.items
                ≡ length site.now.workplace.shared.delivery.channels.items }
            requires client_shutdown_handles { length site.now.shutdown_handles.clients.items
                ≡ length site.now.guests.items }
            requires imap { All (λ v.
                v.user < vec_len site.now.imap) site.now.guests.items }
            requires dealt { IsDealt L.told site.now.workplace.shared
                (length site.now.shutdown_handles.mail.items) (length site.now.guests.items)
                (manually_drop_value dealt) }
            requires live { W.failed announcer.output.now ≡ false }
            ensures served { result.over.none_started ≡ false
                → AllAt (IsServed L.told site.entry.now.workplace.shared) 0 result.over.served.items
                ×
                (vec_len result.over.served
                ≡ length site.entry.now.workplace.shared.delivery.channels.items)
                × (result.over.posts.items ≡ []) }
            ensures mail { result.over.none_started ≡ false
                → FirstTakeMail (length site.entry.now.shutdown_handles.mail.items) (map (λ s.
                s.mail) result.over.served.items) }
            ensures none_started { result.over.none_started ≡ true
                → AllAt (IsPost site.entry.now.workplace.shared) 0 result.over.posts.items ×
                (vec_len result.over.posts
                ≡ length site.entry.now.workplace.shared.delivery.channels.items)
                × (result.over.served.items ≡ []) }
            ensures same { result.announcer.output.ghost_name ≡ announcer.entry.output.ghost_name }
            ensures untried { result.over.none_started ≡ true
                → result.announcer.output.now ≡ announcer.entry.output.now }
            ensures unsaid { result.over.all_started ≡ false
                → result.announcer.output.now ≡ announcer.entry.output.now }
            ensures told { (n : ℕ) × Appends (W.taken announcer.entry.output.now)
                (W.taken result.announcer.output.now) (take n announcer.entry.lines.now) }
            ensures all { result.over.is_told ≡ true
                → Appends (W.taken announcer.entry.output.now) (W.taken result.announcer.output.now)
                announcer.entry.lines.now }
        { in_scope(scope, rt, site, dealt, writing, stop, announcer) },
    );
    let Announcer {
        lines: _,
        output: _told,
    } = announcer;
    over
}

/// Who is to serve in a house.
pub(crate) struct Manning<F, D> {
    /// So many workers, the first of the producers.
    pub(crate) workers: usize,
    /// So many copies of a message each of them puts at once.
    pub(crate) at_once: usize,
    /// The client slots of sessions, the other producers.
    pub(crate) guests: Vec<Guest>,
    /// Sessions have the compatible profile: their clients log in.
    pub(crate) compatible: bool,
    /// How many clients of each user are served at a time, in the compatible profile.
    pub(crate) limits: Vec<ClientLimit>,
    /// How many client slots each user has.
    pub(crate) sessions: u8,
    /// Who gives each worker its line.
    pub(crate) mail: D,
    /// What happens is told there.
    pub(crate) log: Log,
    /// Who writes that, and where to.
    pub(crate) writing: Writing<F>,
}

/// The listeners of a server, and what is to be said of them.
#[derive(Drop)]
pub(crate) struct Listeners {
    pub(crate) sockets: Sockets,
    pub(crate) lines: Vec<u8>,
}

/// Serves the house until `stop` is at its end, closes it, and hands out what it has left. Its producers are
/// those of `manning`. Once each thread stands the lines of `listeners` are written to `output`, and nobody is served before.
///
/// Errors, the first that holds: `NoMemory` where memory is refused before the first thread, and `Spawn` where a thread can't be made: then
/// nothing was written; `Device` where the lines can't be written: after these three nobody was served. `Torn` where somebody met what he
/// didn't await, or a queue could not be closed. All of the house is spent then too.
pub(crate) fn run_house_in<
    B: Naming + Send + Sync,
    H: LaneGroup + Send,
    R: Threads + Wait + Sync,
    L: Line + Send,
    D: Lines<L> + Drop,
    I: Read + Drop,
    W: Sink,
    F: Write + Drop + Send,
>(
    rt: &R,
    opened: Opened<B>,
    manning: Manning<F, D>,
    listeners: Listeners,
    stop: I,
    output: &mut W,
) -> Result<Finished<B, L>, ServeFault>
    requires lanes { H.lanes ≡ Some opened.shared.intake.lanes.items }
    requires delivery { H.delivery ≡ Some (parts_of opened.shared.delivery) }
    requires house { IsHouse opened.shared (length opened.shared.delivery.channels.items) }
    requires some { (0 < length opened.shared.delivery.channels.items)
        × (0 < length opened.shared.intake.lanes.items) }
    requires producers { manning.workers + vec_len manning.guests
        ≡ length opened.shared.delivery.channels.items }
    requires guests { vec_len opened.session_parkers ≡ vec_len manning.guests }
    requires imap { All (λ v. v.user < vec_len listeners.sockets.imap) manning.guests.items }
    requires crew { IsCrew opened.shared
        (length opened.shared.delivery.channels.items) opened.crew }
    requires baskets { AreBaskets (length opened.shared.delivery.channels.items)
        (length opened.shared.intake.lanes.items) opened.baskets }
    requires live { W.failed output.old ≡ false }
    ensures setting { (fault : ConfigFault) → result ≢ Err (ServeFault.Config fault) }
    ensures whole { IfOk result (CameTo opened.shared manning.workers) }
    ensures untried { result ≡ Err ServeFault.NoMemory → output.new ≡ output.old }
    ensures unsaid { result ≡ Err ServeFault.Spawn → output.new ≡ output.old }
    ensures told { (n : ℕ) × Appends (W.taken output.old) (W.taken output.new)
        (take n listeners.lines.items) }
    ensures all { OnOk result (Appends (W.taken output.old) (W.taken output.new)
        listeners.lines.items) }
{
    let Manning {
        workers,
        at_once,
        guests,
        compatible,
        limits,
        sessions,
        mail,
        log,
        writing,
    } = manning;
    let Opened {
        shared,
        crew,
        baskets,
        session_parkers,
    } = opened;
    let Crew {
        stands,
        posts,
        consumed,
        worked,
        unmanned,
    } = crew;
    unmanned.destroy_empty();
    let Listeners { sockets, lines } = listeners;
    let Sockets {
        lmtp,
        imap,
        pause,
        page,
        lookout,
    } = sockets;
    let Ok(rooms) = make_rooms::<B, H, L, D>(
        &shared,
        mail,
        &lmtp,
        workers,
        session_parkers,
        &lookout,
    ) else {
        return Err(give_up(shared, worked, consumed, stands, posts, baskets));
    };
    let Rooms {
        shutdown_handles,
        watch,
        rows,
        ears,
        equipment,
        served,
        consumer_set,
        signs,
        presences,
        unlocked,
        lines: room,
    } = rooms;
    let ConsumerSet {
        shared_consumers,
        rooms,
        stands,
    } = make_all(&shared, stands, consumer_set);
    let workplace = Workplace {
        shared,
        shared_consumers,
        at_once,
        lmtp,
        mark: Mark::new(),
        pause,
        log,
        workers: workers as u8,
        sessions,
        presences,
    };
    let site = Site {
        workplace,
        gate: Unhindered,
        guests,
        compatible,
        limits,
        imap,
        shutdown_handles,
        signs,
        page,
        watch,
        rows,
    };
    let supplies = Supplies {
        posts,
        ears,
        lookout,
        equipment,
    };
    let dealt = Dealt { supplies, served };
    let over = serve_in_threads(rt, &site, dealt, writing, stop, &lines, output);
    let shared_consumer_rooms = SharedConsumerRooms { rooms, stands };
    let rest = Rest {
        worked,
        unlocked,
        lines: room,
    };
    close_or_spend(
        rt,
        site,
        shared_consumer_rooms,
        over,
        rest,
        consumed,
        baskets,
    )
}
