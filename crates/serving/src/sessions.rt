//! The thread of a client slot: it accepts a user's clients, one at a time, and answers them, and what they append goes by way of the lanes. While its
//! client idles it waits for changes too. What is answered stands in `imap_stream`.

ghost use Rattle.std.specs.Prelude.{◌≡◌, ◌≤◌, ◌<◌, ◌+◌, ℕ, [], All, IfSome, List, Option, Some, false, length, map, slice_get, true, vec_len, vec_capacity};
ghost use Rattle.std.specs.List.{list_all};
ghost use Rattle.std.specs.Mem.{manually_drop_value};
ghost use Rattle.std.specs.Thread.{IsSend};
ghost use Rattle.house_shared.specs.Crew.{AllAt, IsHouse, IsPost};
ghost use Rattle.lane_work.specs.Couriers.{IsReady, IsSameDesk};
ghost use Rattle.shard_queue.specs.Permits.{said};
ghost use Rattle.shard_queue.specs.Reply.{received};
ghost use Rattle.lane_work.specs.Account.{HaveEnded};
ghost use Rattle.lane_work.specs.Permits.{AreEnded, ArePermits, put_by};
ghost use Rattle.lane_work.specs.Speaking.{premises_of};
ghost use Rattle.serving.specs.inner.Ending.{FirstTakeMail};
ghost use Rattle.serving.specs.inner.Visiting.{IsVisitOf};
ghost use Rattle.shared_consumers.specs.Keeping.{parts_of};
ghost use Rattle.serving_workers.specs.Leaving.{AreAttended, IsSpawned, IsServed, has_thread, serves_mail};

use crate::limit::{ClientLimit, turn_away};
use crate::site::Site;
use crate::visiting::{Incoming, Sign, Signed, Visitor};
use crate::watch::{Lookout, Watch, start_watch};
use envelope::Directory;
use house_history::{Letter, Naming};
use house_shared::{HouseShared, Post, inbox_numbered, most_of};
use imap_session::{admission_of, folders_of};
use imap_stream::{ClientSlot, Parting, Rows, Visit};
use lane_work::{Context, Desk, LaneCourier, Notifier, end_all};
use line_io::{Sink, Watched};
use server_report::{Happened, LogBook, Presence};
use serving_workers::{
    Acceptor, Call, Line, Mark, Served, Serves, SocketLine, Spawned, have_threads, packed,
};
use session_thread::LockedStore;
use shard_queue::Ended;
use shared_consumers::{LaneGroup, Unhindered};
use std::mem::ManuallyDrop;
use std::net::TcpStream;
use std::sync::atomic::AtomicBool;
use std::sync::{Arc, Wait};
use std::thread;
use std::thread::Threads;
use workers_sync::{Actor, Courier, Listening, Patience, SessionParker, SyncPoint, Timely};

/// Where a client's answers go.
type ClientOutput<'a> = Signed<'a, Watched<Timely<TcpStream>>>;

// The visit of a client.
type ClientVisit<'a, B, R> = Visit<'a, B, R, Unhindered, ClientOutput<'a>>;

/// Where a client slot's clients come in, which client slot it is, and what they find there.
#[derive_where(Clone, Copy)]
pub(crate) struct Gateway<'s, B: Naming> {
    pub(crate) shared: &'s HouseShared<B>,
    pub(crate) gate: &'s Unhindered,
    /// Where the clients of its user come in.
    pub(crate) listening: &'s Listening,
    /// What its thread goes by.
    pub(crate) acceptor: Acceptor<'s>,
    /// The client slot's number among all of the house, from 0.
    pub(crate) session: u8,
    /// The number of its user.
    pub(crate) user: u8,
    /// Its session has the compatible profile: the client logs in.
    pub(crate) compatible: bool,
    /// How many clients of its user are served at a time, where one too many is told so.
    pub(crate) limit: Option<&'s ClientLimit>,
    /// What its client's session is seen to do.
    pub(crate) sign: Option<&'s Sign>,
    /// The watch over clients whose sessions idle.
    pub(crate) watch: &'s Watch,
    /// What its client is told waits there.
    pub(crate) rows: &'s Rows,
    /// How many clients it has had before the one that it serves.
    pub(crate) serial: u64,
}

// What this client slot shows of the client that it has at hand.
fn presence_in<B: Naming, H: LaneGroup>(
    site: &Site<B, H>,
    client_slot: usize,
) -> Option<&Presence> {
    match site.signs.get(client_slot) {
        Some(sign) => Some(sign.presence()),
        None => None,
    }
}

// The gateway of this client slot.
fn gateway_of<B: Naming, H: LaneGroup>(site: &Site<B, H>, session: u8) -> Gateway<'_, B>
    requires session { session < length site.now.guests.items }
    requires shutdown_handles { length site.now.shutdown_handles.clients.items
        ≡ length site.now.guests.items }
    requires imap { All (λ v. v.user < vec_len site.now.imap) site.now.guests.items }
    ensures shared { result.shared.now ≡ site.now.workplace.shared }
    ensures user { IfSome (slice_get site.now.guests.items session) (λ guest.
        result.user ≡ guest.user) }
{
    let client_slot = usize::from(session);
    let user = site.guests[client_slot].user;
    let listening = &site.imap[usize::from(user)];
    let acceptor = Acceptor {
        shutdown_handle: &site.shutdown_handles.clients[client_slot],
        mark: &site.workplace.mark,
        pause: &site.workplace.pause,
        log: &site.workplace.log,
        names: site.workplace.names(),
        presence: presence_in(site, client_slot),
    };
    Gateway {
        shared: &site.workplace.shared,
        gate: &site.gate,
        listening,
        acceptor,
        session,
        user,
        compatible: site.compatible,
        limit: site.limits.get(usize::from(user)),
        sign: site.signs.get(client_slot),
        watch: &site.watch,
        rows: &site.rows,
        serial: 0,
    }
}

/// The name of the user of this number.
pub(crate) fn name_of_user(directory: &Directory, user: u8) -> &[u8] {
    match inbox_numbered(directory, user) {
        Some(inbox) => directory.user_of(inbox),
        None => b"?",
    }
}

// The client that this client slot serves, for the log.
fn visitor_of<'s, B: Naming>(gateway: &Gateway<'s, B>) -> Visitor<'s> {
    let user = name_of_user(&gateway.shared.intake.directory, gateway.user);
    let acceptor = gateway.acceptor;
    Visitor {
        log: acceptor.log,
        alloc: gateway.shared.alloc,
        caller: acceptor
            .names
            .session(user, gateway.session, gateway.serial),
        sign: gateway.sign,
    }
}

// Opens the visit of a client of this client slot's user, who is greeted on `output` and has that user's folders. None where memory is refused, or the
// client has gone.
fn open_visit<'a, B: Naming, R: Wait, W: Sink + Drop>(
    rt: &'a R,
    gateway: &Gateway<'a, B>,
    output: W,
) -> Option<Visit<'a, B, R, Unhindered, W>>
    requires live { W.failed output ≡ false }
    ensures { IfSome result (IsVisitOf gateway.now.shared.now gateway.now.compatible
        gateway.now.user (W.taken output)) }
{
    let (shared, gate) = (gateway.shared, gateway.gate);
    let directory = &shared.intake.directory;
    let inbox = inbox_numbered(directory, gateway.user)?;
    let bells = shared.delivery.sessions.get(usize::from(inbox))?;
    let user = directory.user_of(inbox);
    let Ok(folders) = folders_of(shared.alloc, directory, user) else {
        return None;
    };
    let limit = most_of(shared.intake.max_message);
    let Ok(budget) = shared.intake.budget.again() else {
        return None;
    };
    let compatible = gateway.compatible;
    let Ok(admission) = admission_of(shared.alloc, compatible, Some(limit), user, budget) else {
        return None;
    };
    let store = LockedStore::new(
        rt,
        gate,
        gateway.session,
        &shared.delivery.mailboxes,
        shared.delivery.front.again(),
        bells,
    );
    let (alloc, rows) = (shared.alloc, gateway.rows);
    let Ok(visit) = Visit::open(rt, alloc, rows, store, folders, admission, output) else {
        return None;
    };
    Some(visit)
}

// How a visit ended, for the log, of which the client slot says this.
fn how_it_ended<B: Naming>(
    gateway: &Gateway<'_, B>,
    visitor: Visitor<'_>,
    parting: Parting,
) -> Happened {
    if visitor.has_lapsed() {
        return Happened::Lapsed;
    }
    if gateway.acceptor.is_shut() {
        return Happened::Shut;
    }
    match parting {
        Parting::Gone => Happened::Gone,
        Parting::Broken => Happened::Broken,
        Parting::Over => Happened::Quit,
        Parting::Stopped => Happened::Shut,
    }
}

// Room for a visit; None where memory is refused. The visit is opened once that is there, so that it is moved once.
#[inline(never)]
fn room_for_visit<'a, B: Naming, R: Wait>(
    gateway: &Gateway<'a, B>,
) -> Option<Box<Option<ClientVisit<'a, B, R>>>> {
    Box::new(gateway.shared.alloc, None).ok()
}

// Greets a client, and puts its visit into the room, where it could be opened. Its frame is as large as a visit, and is gone while the client is
// served.
#[inline(never)]
fn admit_client<'a, B: Naming, R: Wait>(
    rt: &'a R,
    gateway: &Gateway<'a, B>,
    output: Watched<Timely<TcpStream>>,
    room: &mut Option<ClientVisit<'a, B, R>>,
)
    requires live { ⟦<Watched<Timely<TcpStream>> as Sink>⟧.failed output ≡ false }
    ensures { IfSome room.new (IsVisitOf gateway.now.shared.now gateway.now.compatible
        gateway.now.user (⟦<Watched<Timely<TcpStream>> as Sink>⟧.taken output)) }
{
    let output = Signed::new(output, gateway.sign);
    *room = open_visit(rt, gateway, output);
}

// The client of this visit, which is of the client slot's user, from its first byte to its end; and how it ended.
fn attend_client<'a, B: Naming, R: Wait, C: Courier>(
    rt: &'a R,
    ear: &mut Ear,
    courier: &mut C,
    gateway: &Gateway<'a, B>,
    stream: &TcpStream,
    visit: &mut ClientVisit<'a, B, R>,
    buffer: &mut Vec<u8>,
) -> Happened
    requires ready { C.ready courier.old }
    requires visit { (before : Option (List ℕ)) × IsVisitOf gateway.now.shared.now
        gateway.now.compatible gateway.now.user before visit.old }
    ensures ready { C.ready courier.new }
    ensures kept { (first : C) → C.kept first courier.old → C.kept first courier.new }
{
    let visitor = visitor_of(gateway);
    let client_slot = ClientSlot {
        idles: &*ear.idles,
        stop: &gateway.acceptor.mark.stop,
    };
    let mut input = Incoming::new(
        rt,
        stream,
        visitor,
        gateway.watch,
        ear.client_slot,
        &ear.bell,
        &mut ear.waits,
    );
    let parting = client_slot.attend(rt, gateway.shared.alloc, visit, courier, &mut input, buffer);
    input.end();
    how_it_ended(gateway, visitor, parting)
}

// One client, from the greeting to its end; and how it ended.
fn serve_client<'a, B: Naming, R: Wait, C: Courier>(
    rt: &'a R,
    ear: &mut Ear,
    courier: &mut C,
    gateway: &Gateway<'a, B>,
    stream: &TcpStream,
    output: Watched<Timely<TcpStream>>,
    buffer: &mut Vec<u8>,
) -> Happened
    requires ready { C.ready courier.old }
    requires live { ⟦<Watched<Timely<TcpStream>> as Sink>⟧.failed output ≡ false }
    ensures ready { C.ready courier.new }
    ensures kept { (first : C) → C.kept first courier.old → C.kept first courier.new }
{
    let Some(mut room) = room_for_visit(gateway) else {
        return Happened::OutOfMemory;
    };
    admit_client(rt, gateway, output, &mut *room);
    let Some(visit) = &mut *room else {
        return Happened::OutOfMemory;
    };
    attend_client(rt, ear, courier, gateway, stream, visit, buffer)
}

// A client that is one too many is told so, unless the house stops; and how it ended.
fn send_away(acceptor: Acceptor<'_>, mut output: Watched<Timely<TcpStream>>) -> Happened
    requires { ⟦<Watched<Timely<TcpStream>> as Sink>⟧.failed output ≡ false }
{
    if acceptor.is_shut() {
        return Happened::Shut;
    }
    // Where it can't be told there is nobody who waits.
    let _ = turn_away(&mut output);
    Happened::TurnedAway
}

// One client, served in its turn where there is a limit, or sent away; and how it ended.
fn serve_in_turn<'a, B: Naming, R: Wait, C: Courier>(
    rt: &'a R,
    ear: &mut Ear,
    courier: &mut C,
    gateway: &Gateway<'a, B>,
    stream: &TcpStream,
    output: Watched<Timely<TcpStream>>,
    buffer: &mut Vec<u8>,
) -> Happened
    requires ready { C.ready courier.old }
    requires live { ⟦<Watched<Timely<TcpStream>> as Sink>⟧.failed output ≡ false }
    ensures ready { C.ready courier.new }
    ensures kept { (first : C) → C.kept first courier.old → C.kept first courier.new }
{
    let Some(limit) = gateway.limit else {
        return serve_client(rt, ear, courier, gateway, stream, output, buffer);
    };
    if !limit.wait_for_turn(rt, &gateway.acceptor) {
        return send_away(gateway.acceptor, output);
    }
    let end = serve_client(rt, ear, courier, gateway, stream, output, buffer);
    limit.release(rt);
    end
}

// The client that was accepted is at hand while it is served. Whoever stops the house sets its mark first and then looks for what is at
// hand, so the mark is looked at behind that.
fn receive<'a, B: Naming, R: Wait, C: Courier>(
    rt: &'a R,
    ear: &mut Ear,
    courier: &mut C,
    gateway: &Gateway<'a, B>,
    line: &SocketLine<&'a Listening>,
    call: Call<TcpStream, Watched<Timely<TcpStream>>>,
    buffer: &mut Vec<u8>,
)
    requires ready { C.ready courier.old }
    requires live { ⟦<Watched<Timely<TcpStream>> as Sink>⟧.failed call.output ≡ false }
    ensures ready { C.ready courier.new }
    ensures kept { (first : C) → C.kept first courier.old → C.kept first courier.new }
{
    let Call { input, output } = call;
    if line.hold(rt, gateway.acceptor.shutdown_handle, &input) && !gateway.acceptor.is_shut() {
        let visitor = visitor_of(gateway);
        visitor.open(rt);
        gateway.acceptor.show(gateway.serial);
        let end = serve_in_turn(rt, ear, courier, gateway, &input, output, buffer);
        visitor.tell(rt, end);
        gateway.acceptor.part(line, &input, buffer.as_mut_slice());
        gateway.acceptor.hide();
    }
    gateway.acceptor.shutdown_handle.clear(rt);
}

// One client after another, each with the next serial from 0 on, the first once all threads stand, until the house stops, or something came
// that wasn't the verdict on a message, or the serials are spent: then nobody is served any more.
fn answer_clients<'a, B: Naming, R: Wait, S: Notifier>(
    rt: &'a R,
    mut ear: Ear,
    mut buffer: Vec<u8>,
    courier: &mut LaneCourier<'_, B, R, S, LogBook<'_, R>>,
    gateway: Gateway<'a, B>,
)
    requires ready { IsReady courier.old.context.intake.now courier.old.context.channel.now
        courier.old.desk }
    ensures ready { IsReady courier.new.context.intake.now courier.new.context.channel.now
        courier.new.desk }
    ensures same { IsSameDesk courier.old.context.intake.now courier.new.context.intake.now
        courier.old.context.channel.now
        courier.new.context.channel.now
        courier.old.desk courier.new.desk }
    ensures clients { courier.new.is_torn ≡ false
        → AreAttended (premises_of courier.old.context.intake.now) courier.old.desk.number 0
        (received courier.old.desk.receiver) (map put_by courier.old.desk.permits.items)
        → (clients : ℕ)
        × AreAttended (premises_of courier.old.context.intake.now) courier.old.desk.number
        clients (received courier.new.desk.receiver)
        (map put_by courier.new.desk.permits.items) }
{
    let acceptor = gateway.acceptor;
    let mut line = SocketLine::new(gateway.listening, Patience::Endless);
    acceptor.mark.await_start(rt);
    for serial in 0..u64::MAX {
        if courier.is_torn {
            return;
        }
        let Some(call) = acceptor.next(rt, &mut line) else {
            return;
        };
        courier.serial = serial;
        let gateway = Gateway { serial, ..gateway };
        receive(rt, &mut ear, courier, &gateway, &line, call, &mut buffer);
    }
}

// Ends the permits of a client slot that serves nobody any more. It hears no end of its channel: those come when all have ended.
// Its frame isn't wanted while clients are served.
#[inline(never)]
fn leave<B: Naming, R: Wait, S: Notifier, L>(
    courier: LaneCourier<'_, B, R, S, LogBook<'_, R>>,
    gate: &Unhindered,
    session: u8,
    room: Vec<Ended<Letter<B>>>,
) -> Served<B, L>
    requires permits { ArePermits courier.context.intake.now.lanes.items courier.desk.number
        courier.desk.permits.items }
    requires room { (room.items ≡ [])
        × (length courier.context.intake.now.lanes.items ≤ vec_capacity room) }
    ensures ended { AreEnded courier.entry.context.intake.now.lanes.items courier.entry.desk.number
        result.ended.items }
    ensures said { HaveEnded courier.entry.desk.number (map put_by courier.entry.desk.permits.items)
        (map said result.ended.items) }
    ensures receiver { result.receiver ≡ courier.entry.desk.receiver }
    ensures dispatch { result.dispatch ≡ courier.entry.desk.dispatch }
    ensures torn { result.torn ≡ courier.entry.is_torn }
    ensures mail { result.mail ≡ false }
{
    let LaneCourier {
        context,
        desk,
        serial: _,
        book: _,
        is_torn: torn,
    } = courier;
    let Desk {
        number,
        permits,
        receiver,
        ends,
        dispatch,
    } = desk;
    let mut sync_point = SyncPoint::new(gate, Actor::Session(session));
    let ended = end_all(
        context.rt,
        &mut sync_point,
        context.intake,
        context.notifier,
        number,
        permits,
        room,
    );
    Served {
        ended,
        receiver,
        ends,
        dispatch,
        torn,
        mail: false,
        line: None,
    }
}

// The life of the thread that answers: its clients, who append by way of the lanes, and then the end of its permits.
fn attend_there<'a, B: Naming, H: LaneGroup, R: Wait, L: Line>(
    rt: &'a R,
    site: &'a Site<B, H>,
    ear: Ear,
    buffer: Vec<u8>,
    session: u8,
    number: u8,
    post: ManuallyDrop<Post<B>>,
) -> ManuallyDrop<Served<B, L>>
    requires lanes { H.lanes ≡ Some site.now.workplace.shared.intake.lanes.items }
    requires delivery { H.delivery ≡ Some (parts_of site.now.workplace.shared.delivery) }
    requires house { IsHouse site.now.workplace.shared
        (length site.now.workplace.shared.delivery.channels.items) }
    requires number { number < length site.now.workplace.shared.delivery.channels.items }
    requires post { IsPost site.now.workplace.shared number (manually_drop_value post) }
    requires session { session < length site.now.guests.items }
    requires shutdown_handles { length site.now.shutdown_handles.clients.items
        ≡ length site.now.guests.items }
    requires imap { All (λ v. v.user < vec_len site.now.imap) site.now.guests.items }
    ensures served { IsServed L.told site.now.workplace.shared number (manually_drop_value result) }
    ensures mail { (manually_drop_value result).mail ≡ false }
{
    let (shared, gate) = (&site.workplace.shared, &site.gate);
    let Post { desk, room } = ManuallyDrop::into_inner(post);
    desk.dispatch.is_kept();
    let notifier = site.workplace.notifier(gate);
    let context = Context {
        rt,
        alloc: shared.alloc,
        intake: &shared.intake,
        notifier: &notifier,
        channel: &shared.delivery.channels[usize::from(number)],
    };
    let gateway = gateway_of(site, session);
    let acceptor = gateway.acceptor;
    let mut courier = LaneCourier {
        context,
        desk,
        serial: 0,
        book: LogBook::new(rt, shared.alloc, acceptor.log, acceptor.names),
        is_torn: false,
    };
    answer_clients(rt, ear, buffer, &mut courier, gateway);
    packed(leave(courier, gate, session, room))
}

// Starts the thread of a client slot. Where none can be made the house's mark has to be set before what came of it can be had: so
// nobody is served there, and its permits are ended here.
fn start_answering<
    's,
    E,
    B: Naming + Send + Sync,
    H: LaneGroup + Send,
    R: Threads + Wait + Sync,
    L: Line + Send + 's,
>(
    scope: &thread::Scope<'s, E>,
    rt: &'s R,
    site: &'s Site<B, H>,
    furnishing: Furnishing,
    session: u8,
    number: u8,
    post: Post<B>,
) -> Spawned<'s, B, L>
    requires lanes { H.lanes ≡ Some site.now.workplace.shared.intake.lanes.items }
    requires delivery { H.delivery ≡ Some (parts_of site.now.workplace.shared.delivery) }
    requires house { IsHouse site.now.workplace.shared
        (length site.now.workplace.shared.delivery.channels.items) }
    requires number { number < length site.now.workplace.shared.delivery.channels.items }
    requires post { IsPost site.now.workplace.shared number post }
    requires session { session < length site.now.guests.items }
    requires shutdown_handles { length site.now.shutdown_handles.clients.items
        ≡ length site.now.guests.items }
    requires imap { All (λ v. v.user < vec_len site.now.imap) site.now.guests.items }
    ensures spawned { IsSpawned L.told site.now.workplace.shared number result }
    ensures mail { serves_mail result ≡ false }
{
    let Furnishing { ear, buffer } = furnishing;
    let shared = &site.workplace.shared;
    let parcel = packed(post);
    let promise = Serves {
        shared,
        number,
        mail: false,
    };
    match scope.spawn_with(
        promise,
        move || -> ManuallyDrop<Served<B, L>>
            requires sends { IsSend L.Input.row × IsSend L.Output.row }
            requires lanes { H.lanes ≡ Some site.now.workplace.shared.intake.lanes.items }
            requires delivery { H.delivery ≡ Some (parts_of site.now.workplace.shared.delivery) }
            requires house { IsHouse site.now.workplace.shared
                (length site.now.workplace.shared.delivery.channels.items) }
            requires number { number < length site.now.workplace.shared.delivery.channels.items }
            requires post { IsPost site.now.workplace.shared number (manually_drop_value parcel) }
            requires session { session < length site.now.guests.items }
            requires shutdown_handles { length site.now.shutdown_handles.clients.items
                ≡ length site.now.guests.items }
            requires imap { All (λ v. v.user < vec_len site.now.imap) site.now.guests.items }
            ensures served { IsServed L.told site.entry.now.workplace.shared number
                (manually_drop_value result) }
            ensures mail { (manually_drop_value result).mail ≡ false }
        { attend_there::<B, H, R, L>(rt, site, ear, buffer, session, number, parcel) },
    ) {
        Ok(child) => Spawned::There(child),
        Err(refused) => {
            site.workplace.mark.set();
            Spawned::Here((refused.value)())
        }
    }
}

/// What the thread of a client slot takes in with.
#[derive(Drop)]
pub(crate) struct Ear {
    /// The client slot's number among all of the house.
    pub(crate) client_slot: u8,
    /// Its end of its session's bell.
    pub(crate) bell: SessionParker,
    /// The mark that its session idles.
    pub(crate) idles: Arc<AtomicBool>,
    /// So many waits it has had while its sessions idled.
    pub(crate) waits: u64,
}

// What the thread of one client slot is given.
struct Furnishing {
    ear: Ear,
    // For what comes of its clients.
    buffer: Vec<u8>,
}

/// What the client slots' threads are given: for each client slot one of each, and what the watch's thread waits with.
#[derive(Drop)]
pub(crate) struct Furnishings {
    pub(crate) ears: Vec<Ear>,
    /// For what comes of its clients.
    pub(crate) buffers: Vec<Vec<u8>>,
    pub(crate) lookout: Lookout,
}

/// Starts a thread for each client slot, with these posts, which are those behind the workers'. They go behind those in
/// `spawned`, which has room for them. Says whether each of these has a thread, the workers' too, and the watch. Where a thread
/// can't be made the mark is set; nobody is accepted while its start is held, as the caller does.
pub(crate) fn start_client_slots<
    's,
    E,
    B: Naming + Send + Sync,
    H: LaneGroup + Send,
    R: Threads + Wait + Sync,
    L: Line + Send + 's,
>(
    scope: &thread::Scope<'s, E>,
    rt: &'s R,
    site: &'s Site<B, H>,
    furnishings: Furnishings,
    mut posts: Vec<Post<B>>,
    mut spawned: Vec<Spawned<'s, B, L>>,
) -> (Vec<Spawned<'s, B, L>>, bool)
    requires lanes { H.lanes ≡ Some site.now.workplace.shared.intake.lanes.items }
    requires delivery { H.delivery ≡ Some (parts_of site.now.workplace.shared.delivery) }
    requires house { IsHouse site.now.workplace.shared
        (length site.now.workplace.shared.delivery.channels.items) }
    requires ears { vec_len furnishings.ears ≡ length site.now.guests.items }
    requires buffers { vec_len furnishings.buffers ≡ length site.now.guests.items }
    requires shutdown_handles { length site.now.shutdown_handles.clients.items
        ≡ length site.now.guests.items }
    requires posts { AllAt (IsPost site.now.workplace.shared) (vec_len spawned) posts.items
        × (vec_len posts ≡ length site.now.guests.items) }
    requires all { vec_len spawned + length site.now.guests.items
        ≡ length site.now.workplace.shared.delivery.channels.items }
    requires spawned { AllAt (IsSpawned L.told site.now.workplace.shared) 0 spawned.items
        × (length site.now.workplace.shared.delivery.channels.items ≤ vec_capacity spawned) }
    requires mail { All (λ h. serves_mail h ≡ true) spawned.items }
    requires imap { All (λ v. v.user < vec_len site.now.imap) site.now.guests.items }
    ensures spawned { AllAt (IsSpawned L.told site.now.workplace.shared) 0 result.0.items }
    ensures mail { FirstTakeMail (vec_len spawned.entry) (map serves_mail result.0.items) }
    ensures count { vec_len result.0 ≡ length site.now.workplace.shared.delivery.channels.items }
    ensures all { result.1 ≡ true → list_all has_thread result.0.items ≡ true }
{
    let Furnishings {
        mut ears,
        mut buffers,
        lookout,
    } = furnishings;
    let is_watched = start_watch::<E, B, H, R>(scope, rt, site, lookout);
    if !is_watched {
        site.workplace.mark.set();
    }
    for client_slot in 0..site.guests.len() {
        let (ear, buffer) = (ears.remove(0), buffers.remove(0));
        let furnishing = Furnishing { ear, buffer };
        let number = spawned.len() as u8;
        let post = posts.remove(0);
        let one = start_answering::<E, B, H, R, L>(
            scope,
            rt,
            site,
            furnishing,
            client_slot as u8,
            number,
            post,
        );
        spawned.push_reserved(one);
    }
    posts.destroy_empty();
    let all = have_threads(&spawned) && is_watched;
    (spawned, all)
}
