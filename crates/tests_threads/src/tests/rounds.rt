//! A whole round: three workers in threads of their own, who put copies for three mailboxes on two
//! lanes and make the shared consumers' steps; then all lanes are closed.

ghost use Rattle.std.specs.Prelude.{◌≡◌, ◌<◌, ◌≤◌, ◌+◌, [], All, Some, length, map, vec_len, vec_capacity};
ghost use Rattle.std.specs.Mem.{manually_drop_value};
ghost use Rattle.std.specs.Thread.{IsSend, IsSync};
ghost use Rattle.shard_queue.specs.Reply.{IsReceiver};
ghost use Rattle.shard_queue.specs.Permits.{IsProducer, number_of};
ghost use Rattle.lane_work.specs.Permits.{ArePermits, IsPermit, permit_number};
ghost use Rattle.lane_work.specs.Rooms.{AreRooms};
ghost use Rattle.lane_work.specs.LanePermits.{AreConsumers, EndedRows};
ghost use Rattle.shared_consumers.specs.Keeping.{parts_of};
ghost use Rattle.house_shared.specs.Crew.{AllAt, IsCrew, IsPost, IsStand};
ghost use Rattle.house_shared.specs.Opening.{AreBaskets};
ghost use Rattle.tests_threads.specs.inner.Rounds.{AreSomeones, IsOwnPost};
ghost use Rattle.tests_threads.specs.declared.tests.rounds.Left.{Left};

use super::support::{directory, sizes};
use change_ring::NO_FLAGS;
use delivery_token::{CopyKey, Job, Text, Verdict};
use envelope::Directory;
use house_history::{Answer, Letter, Naming};
use house_shared::{Baskets, Crew, HouseShared, Opened, Post, Stand, open};
use lane_work::{
    Consumed, Delivery, Desk, Dispatch, Intake, LanePermit, close_lanes, collect, end_all,
    spend_lists,
};
use locked_mailbox::LockedMailbox;
use shard_queue::{
    Closed, ConsumerPermit, Ended, Entry, Full, ProducerPermit, ReceiverPermit, ReplyChannel,
    SenderEnded, ShardQueue,
};
use shared_consumers::{
    ConsumerSet, Dismissed, LaneGroup, SharedConsumer, SharedConsumers, Unhindered, dismiss_all,
    make_all, stand_down,
};
use std::alloc::{AllocError, AllocGlobal, Global};
use std::marker::Brand;
use std::mem::{self, ManuallyDrop};
use std::process::Abort;
use std::sync::{Mutex, Wait};
use std::test::Fail;
use std::thread;
use std::thread::Threads;
use workers_sync::{Actor, SyncPoint};

const WORKERS: u8 = 3;

const COPIES: u8 = 16;

const MAILBOXES: u8 = 3;

// What a worker leaves: its ended permits, its end of its channel, and how many copies were stored.
struct Left<B: Naming> {
    ended: Vec<Ended<Letter<B>>>,
    receiver: ReceiverPermit<Answer<B>>,
    stored: usize,
}

fn packed<T>(value: T) -> ManuallyDrop<T>
    ensures { manually_drop_value result ≡ value }
{
    unsafe { ManuallyDrop::new_unchecked(value) }
}

fn job_of(alloc: Global, seat: u8, serial: u8) -> Result<Job, AllocError> {
    let key = CopyKey {
        seat,
        serial: u64::from(serial),
        message: 0,
        recipient: 0,
    };
    Ok(Job {
        key,
        mailbox: serial % MAILBOXES,
        text: Text::new(Vec::new(alloc))?,
        flags: NO_FLAGS,
    })
}

// Puts a copy on a lane. Whether there was room.
fn put_on<B: Naming, R: Wait>(
    rt: &R,
    lane: &ShardQueue<Letter<B>>,
    permit: &mut ProducerPermit<Letter<B>>,
    letter: Letter<B>,
) -> bool
    requires { IsProducer lane.now permit.old }
    ensures { IsProducer lane.now permit.new × (number_of permit.new ≡ number_of permit.old) }
{
    match lane.put_as(rt, permit, letter) {
        Ok(()) => true,
        Err(Full(_)) => false,
    }
}

// The same with a permit that may be over: then nothing is put.
fn put_at<B: Naming, R: Wait>(
    rt: &R,
    lane: &ShardQueue<Letter<B>>,
    permit: &mut LanePermit<Letter<B>>,
    letter: Letter<B>,
) -> bool
    requires { IsPermit lane.now permit.old }
    ensures { IsPermit lane.now permit.new × (permit_number permit.new ≡ permit_number permit.old) }
{
    match permit {
        LanePermit::Live(live) => put_on(rt, lane, live, letter),
        LanePermit::Over(_) => false,
    }
}

// The same, on the lane of the copy's mailbox. The number of its shard, where there was room.
fn put_copy<B: Naming, R: Wait>(
    rt: &R,
    intake: &Intake<B>,
    permits: &mut Vec<LanePermit<Letter<B>>>,
    number: u8,
    letter: Letter<B>,
) -> Option<usize>
    requires permits { ArePermits intake.now.lanes.items number permits.old.items }
    requires lanes { intake.now.directory.shards ≡ length intake.now.lanes.items }
    ensures { ArePermits intake.now.lanes.items number permits.new.items }
{
    let shard = intake.directory.shard_of(letter.job().mailbox);
    let was_put = put_at(rt, &intake.lanes[shard], &mut permits[shard], letter);
    if was_put { Some(shard) } else { None }
}

// Makes a copy, and puts it. The number of its shard, where there was memory and room.
fn put_next<B: Naming, R: Wait>(
    rt: &R,
    shared: &HouseShared<B>,
    permits: &mut Vec<LanePermit<Letter<B>>>,
    dispatch: &mut Dispatch<B>,
    number: u8,
    serial: u8,
) -> Option<usize>
    requires permits { ArePermits shared.now.intake.lanes.items number permits.old.items }
    requires lanes { shared.now.intake.directory.shards ≡ length shared.now.intake.lanes.items }
    ensures { ArePermits shared.now.intake.lanes.items number permits.new.items }
{
    let Ok(job) = job_of(shared.alloc, number, serial) else {
        return None;
    };
    let Ok(letter) = dispatch.send(job) else {
        return None;
    };
    put_copy(rt, &shared.intake, permits, number, letter)
}

// Whether the next verdict that waits tells that a copy was stored.
fn hears_stored<B: Naming, R: Wait>(
    rt: &R,
    channel: &ReplyChannel<Answer<B>>,
    receiver: &mut ReceiverPermit<Answer<B>>,
) -> bool
    requires { IsReceiver channel.now receiver.old }
    ensures { IsReceiver channel.now receiver.new }
{
    match channel.recv_as(rt, receiver) {
        Entry::Item(_, answer) => matches!(answer.noted().verdict, Verdict::Stored { uid: _ }),
        Entry::End(_) => false,
    }
}

// Puts each of its copies, helps, and hears the verdict. How many were stored.
fn put_all<B: Naming, H: LaneGroup, R: Wait>(
    rt: &R,
    shared: &HouseShared<B>,
    shared_consumers: &[Mutex<SharedConsumer<B, H>>],
    channel: &ReplyChannel<Answer<B>>,
    desk: &mut Desk<B>,
) -> usize
    requires lanes { H.lanes ≡ Some shared.now.intake.lanes.items }
    requires delivery { H.delivery ≡ Some (parts_of shared.now.delivery) }
    requires shards { shared.now.intake.directory.shards ≡ length shared.now.intake.lanes.items }
    requires permits { ArePermits shared.now.intake.lanes.items desk.old.number
        desk.old.permits.items }
    requires receiver { IsReceiver channel.now desk.old.receiver }
    ensures number { desk.new.number ≡ desk.old.number }
    ensures permits { ArePermits shared.now.intake.lanes.items desk.old.number
        desk.new.permits.items }
{
    let help = SharedConsumers::new(
        shared_consumers,
        &shared.intake.lanes,
        &shared.delivery,
        &Unhindered,
        8,
    );
    let number = desk.number;
    let mut stored = 0usize;
    for serial in 0..COPIES {
        let (permits, dispatch) = (&mut desk.permits, &mut desk.dispatch);
        if let Some(shard) = put_next(rt, shared, permits, dispatch, number, serial) {
            help.help(rt, shard);
            if hears_stored(rt, channel, &mut desk.receiver) {
                stored = stored.saturating_add(1);
            }
        }
    }
    stored
}

// A worker's whole life.
fn labour<B: Naming, H: LaneGroup, R: Wait + Abort>(
    rt: &R,
    shared: &HouseShared<B>,
    shared_consumers: &[Mutex<SharedConsumer<B, H>>],
    parcel: ManuallyDrop<Post<B>>,
) -> ManuallyDrop<Left<B>>
    requires lanes { H.lanes ≡ Some shared.now.intake.lanes.items }
    requires delivery { H.delivery ≡ Some (parts_of shared.now.delivery) }
    requires shards { shared.now.intake.directory.shards ≡ length shared.now.intake.lanes.items }
    requires post { IsOwnPost shared.now (manually_drop_value parcel) }
    ensures { AreSomeones shared.now.intake.lanes.items
        (manually_drop_value {X = Left B} result).ended.items }
{
    let Post { mut desk, room } = ManuallyDrop::into_inner(parcel);
    let position = usize::from(desk.number);
    let channel = shared
        .delivery
        .channels
        .get(position)
        .expect(rt, "a channel");
    let stored = put_all(rt, shared, shared_consumers, channel, &mut desk);
    let Desk {
        number,
        permits,
        receiver,
        ends: _,
        dispatch: _,
    } = desk;
    let mut sync_point = SyncPoint::new(&Unhindered, Actor::Worker(number));
    let help = SharedConsumers::new(
        shared_consumers,
        &shared.intake.lanes,
        &shared.delivery,
        &Unhindered,
        8,
    );
    let ended = end_all(
        rt,
        &mut sync_point,
        &shared.intake,
        &help,
        number,
        permits,
        room,
    );
    packed(Left {
        ended,
        receiver,
        stored,
    })
}

// The posts, for a closure to hold.
fn pack_all<B: Naming>(
    shared: &HouseShared<B>,
    mut posts: Vec<Post<B>>,
    mut parcels: Vec<ManuallyDrop<Post<B>>>,
) -> Vec<ManuallyDrop<Post<B>>>
    requires posts { AllAt (IsPost shared.now) 0 posts.items }
    requires room { (parcels.items ≡ []) × (vec_len posts ≤ vec_capacity parcels) }
    ensures posts { All (λ p. IsOwnPost shared.now (manually_drop_value p)) result.items }
    ensures count { vec_len result ≡ vec_len posts }
{
    while let Some(post) = posts.pop() {
        parcels.push_reserved(packed(post));
    }
    posts.destroy_empty();
    parcels
}

// The shared consumers' ends of the lanes, in their order; what is left of their senders is spent with the
// channels.
fn part<B: Naming>(
    mut consumed: Vec<Consumed<B>>,
    mut permits: Vec<ConsumerPermit<Letter<B>>>,
    hands: &mut Vec<Vec<SenderEnded<Answer<B>>>>,
) -> Vec<ConsumerPermit<Letter<B>>>
    requires permits { (permits.items ≡ []) × (vec_len consumed ≤ vec_capacity permits) }
    requires hands { vec_len hands.old + vec_len consumed ≤ vec_capacity hands.old }
    ensures permits { result.items ≡ map (λ c. c.permit) consumed.items }
    ensures hands { vec_len hands.new ≡ vec_len hands.old + vec_len consumed }
{
    for done in 0..consumed.len() {
        let Consumed {
            permit,
            senders,
            taken: _,
            kept: _,
            torn: _,
        } = consumed.remove(0);
        permits.push_reserved(permit);
        hands.push_reserved(senders);
    }
    consumed.destroy_empty();
    permits
}

// What a round comes to.
#[derive(Drop)]
struct Round {
    // Whether all lanes could be closed.
    closed: bool,
    // How many copies were told as stored.
    told: usize,
    // The copies that the mailboxes accepted.
    accepted: Vec<CopyKey>,
}

// Collects what is left of the workers' permits, and how many copies were told as stored.
fn collect_all<B: Naming>(
    shared: &HouseShared<B>,
    mut left: Vec<ManuallyDrop<Left<B>>>,
    lists: &mut Vec<Vec<Ended<Letter<B>>>>,
    receivers: &mut Vec<ReceiverPermit<Answer<B>>>,
) -> usize
    requires ended { All (λ l.
        AreSomeones shared.now.intake.lanes.items (manually_drop_value {X = Left B} l).ended.items)
        left.items }
    requires lists { EndedRows shared.now.intake.lanes.items (map (λ v. v.items) lists.old.items) }
    requires count { vec_len lists.old ≡ length shared.now.intake.lanes.items }
    requires room { All (λ v. vec_len v + vec_len left ≤ vec_capacity v) lists.old.items }
    requires receivers { vec_len receivers.old + vec_len left ≤ vec_capacity receivers.old }
    ensures lists { EndedRows shared.now.intake.lanes.items (map (λ v. v.items) lists.new.items) }
    ensures receivers { vec_len receivers.new ≡ vec_len receivers.old + vec_len left }
{
    let mut told = 0usize;
    while let Some(parcel) = left.pop() {
        let Left {
            ended,
            receiver,
            stored,
        } = ManuallyDrop::into_inner(parcel);
        collect(lists, ended);
        receivers.push_reserved(receiver);
        told = told.saturating_add(stored);
    }
    told
}

// Spends the channels with all that is left of their permits.
fn spend_channels<B: Naming>(
    alloc: Global,
    mut channels: Vec<ReplyChannel<Answer<B>>>,
    mut hands: Vec<Vec<SenderEnded<Answer<B>>>>,
    mut receivers: Vec<ReceiverPermit<Answer<B>>>,
)
    requires hands { vec_len hands ≤ vec_len channels }
    requires receivers { vec_len receivers ≡ vec_len channels }
{
    while let Some(channel) = channels.pop() {
        let ended = hands.pop().unwrap_or_else(|| Vec::new(alloc));
        channel.abandon(Vec::new(alloc), ended, receivers.remove(0));
    }
    channels.destroy_empty();
    hands.destroy_empty();
    receivers.destroy_empty();
}

// The keys of all copies that the mailboxes accepted.
fn accepted_by_all<B: Naming>(
    alloc: Global,
    mailboxes: Vec<Mutex<LockedMailbox<B>>>,
) -> Result<Vec<CopyKey>, AllocError> {
    let mut keys = Vec::new(alloc);
    for lock in mailboxes {
        let mailbox = lock.into_inner().into_mailbox();
        for entry in mailbox.accepted() {
            keys.push(entry.0)?;
        }
    }
    Ok(keys)
}

// Each worker's life in a thread of its own.
fn work_all<B: Naming + Send + Sync, H: LaneGroup + Send, T: Threads + Wait + Sync + Abort>(
    rt: &T,
    shared: &HouseShared<B>,
    shared_consumers: &[Mutex<SharedConsumer<B, H>>],
    parcels: Vec<ManuallyDrop<Post<B>>>,
) -> Vec<ManuallyDrop<Left<B>>>
    requires lanes { H.lanes ≡ Some shared.now.intake.lanes.items }
    requires delivery { H.delivery ≡ Some (parts_of shared.now.delivery) }
    requires shards { shared.now.intake.directory.shards ≡ length shared.now.intake.lanes.items }
    requires posts { All (λ p. IsOwnPost shared.now (manually_drop_value p)) parcels.items }
    ensures left { All (λ l.
        AreSomeones shared.now.intake.lanes.items (manually_drop_value {X = Left B} l).ended.items)
        result.items }
    ensures count { vec_len result ≡ vec_len parcels }
{
    thread::map_vec(
        rt,
        parcels,
        &|parcel| labour::<B, H, T>(rt, shared, shared_consumers, parcel),
    )
    .expect(rt, "memory")
}

// A shared consumer is spawned for each stand, and each worker's life is led. The shared consumers, and what the workers leave.
fn work_off<B: Naming + Send + Sync, H: LaneGroup + Send, T: Threads + Wait + Sync + Abort>(
    rt: &T,
    shared: &HouseShared<B>,
    stands: Vec<Stand<B>>,
    posts: Vec<Post<B>>,
) -> (ConsumerSet<B, H>, Vec<ManuallyDrop<Left<B>>>)
    requires lanes { H.lanes ≡ Some shared.now.intake.lanes.items }
    requires delivery { H.delivery ≡ Some (parts_of shared.now.delivery) }
    requires shards { shared.now.intake.directory.shards ≡ length shared.now.intake.lanes.items }
    requires stands { AllAt (IsStand shared.now) 0 stands.items
        × (vec_len stands ≡ length shared.now.intake.lanes.items) }
    requires posts { AllAt (IsPost shared.now) 0 posts.items }
    ensures shared_consumers { vec_len result.0.shared_consumers
        ≡ length shared.now.intake.lanes.items }
    ensures rooms { AreRooms (length shared.now.intake.lanes.items)
        (length shared.now.delivery.channels.items) result.0.rooms }
    ensures stands { result.0.stands.items ≡ [] }
    ensures left { All (λ l.
        AreSomeones shared.now.intake.lanes.items (manually_drop_value {X = Left B} l).ended.items)
        result.1.items }
    ensures count { vec_len result.1 ≡ vec_len posts }
{
    let alloc = shared.alloc;
    let consumer_set = ConsumerSet::<B, H>::with_room(alloc, shared.intake.lanes.len()).expect(
        rt, "memory",
    );
    let consumer_set = make_all(shared, stands, consumer_set);
    let parcels = Vec::with_capacity(alloc, posts.len()).expect(rt, "memory");
    let parcels = pack_all(shared, posts, parcels);
    let left = work_all::<B, H, T>(rt, shared, &consumer_set.shared_consumers, parcels);
    (consumer_set, left)
}

// What the shared consumers leave, each of whom stood in its place.
fn dismiss<B: Naming, H: LaneGroup, T: Wait + Abort>(
    rt: &T,
    shared: &HouseShared<B>,
    consumer_set: ConsumerSet<B, H>,
    room: Vec<Consumed<B>>,
) -> Vec<Consumed<B>>
    requires lanes { H.lanes ≡ Some shared.now.intake.lanes.items }
    requires delivery { H.delivery ≡ Some (parts_of shared.now.delivery) }
    requires shared_consumers { vec_len consumer_set.shared_consumers
        ≡ length shared.now.intake.lanes.items }
    requires rooms { AreRooms (length shared.now.intake.lanes.items)
        (length shared.now.delivery.channels.items) consumer_set.rooms }
    requires stands { consumer_set.stands.items ≡ [] }
    requires room { (room.items ≡ []) × (length shared.now.intake.lanes.items ≤ vec_capacity room) }
    ensures count { vec_len result ≡ length shared.now.intake.lanes.items }
    ensures permits { AreConsumers shared.now.intake.lanes.items
        (map (λ c. c.permit) result.items) }
{
    let Dismissed { consumed, in_order } = dismiss_all(rt, &Unhindered, shared, consumer_set, room);
    if !in_order {
        panic!(rt; "a clerk stood at another's position")
    }
    consumed
}

// Closes the lanes and spends the channels. Whether all lanes could be closed, and the mailboxes.
fn close_all<B: Naming>(
    shared: HouseShared<B>,
    lists: Vec<Vec<Ended<Letter<B>>>>,
    permits: Vec<ConsumerPermit<Letter<B>>>,
    closed: Vec<Closed<Letter<B>>>,
    hands: Vec<Vec<SenderEnded<Answer<B>>>>,
    receivers: Vec<ReceiverPermit<Answer<B>>>,
) -> (bool, Vec<Mutex<LockedMailbox<B>>>)
    requires lists { EndedRows shared.intake.lanes.items (map (λ v. v.items) lists.items) }
    requires permits { AreConsumers shared.intake.lanes.items permits.items }
    requires closed { (closed.items ≡ [])
        × (length shared.intake.lanes.items ≤ vec_capacity closed) }
    requires hands { vec_len hands ≤ length shared.delivery.channels.items }
    requires receivers { vec_len receivers ≡ length shared.delivery.channels.items }
{
    let HouseShared {
        intake,
        delivery,
        bells: _,
        turns: _,
        alloc,
    } = shared;
    let Intake {
        directory: _,
        host: _,
        max_message: _,
        budget: _,
        lanes,
        closings: _,
    } = intake;
    let Delivery {
        mailboxes,
        channels,
        sessions: _,
        front: _,
    } = delivery;
    let are_closed = close_lanes(alloc, lanes, lists, permits, closed).is_some();
    spend_channels(alloc, channels, hands, receivers);
    (are_closed, mailboxes)
}

// The whole round over a house that was opened.
fn run_in<B: Naming + Send + Sync, H: LaneGroup + Send, T: Threads + Wait + Sync + Abort>(
    rt: &T,
    shared: HouseShared<B>,
    crew: Crew<B>,
    baskets: Baskets<B>,
) -> Round
    requires lanes { H.lanes ≡ Some shared.intake.lanes.items }
    requires delivery { H.delivery ≡ Some (parts_of shared.delivery) }
    requires shards { shared.intake.directory.shards ≡ length shared.intake.lanes.items }
    requires few { length shared.intake.lanes.items ≤ length shared.delivery.channels.items }
    requires crew { IsCrew shared (length shared.delivery.channels.items) crew }
    requires baskets { AreBaskets (length shared.delivery.channels.items)
        (length shared.intake.lanes.items) baskets }
{
    let alloc = shared.alloc;
    let Crew {
        stands,
        posts,
        consumed,
        worked,
        unmanned,
    } = crew;
    worked.destroy_empty();
    unmanned.destroy_empty();
    let Baskets {
        hands,
        mut lists,
        mut sender_hands,
        sender_lists,
        consumers,
        mut receivers,
        replies: _,
        logs: _,
        taken: _,
        lanes,
        channels: _,
        spares,
    } = baskets;
    hands.destroy_empty();
    spend_lists(sender_lists);
    spares.spend();
    let (consumer_set, left) = work_off::<B, H, T>(rt, &shared, stands, posts);
    let told = collect_all(&shared, left, &mut lists, &mut receivers);
    let consumed = dismiss(rt, &shared, consumer_set, consumed);
    let permits = part(consumed, consumers, &mut sender_hands);
    let (closed, mailboxes) = close_all(shared, lists, permits, lanes, sender_hands, receivers);
    let accepted = accepted_by_all(alloc, mailboxes).expect(rt, "memory");
    Round {
        closed,
        told,
        accepted,
    }
}

// Whether no key stands there twice.
fn each_once(keys: &[CopyKey]) -> bool {
    for (position, key) in keys.iter().enumerate() {
        if keys[position + 1..].contains(key) {
            return false;
        }
    }
    true
}

// A round in a house whose history was just opened.
fn round_in<B: Naming + Send + Sync, T: Threads + Wait + Sync + Abort + AllocGlobal>(
    rt: &T,
    history: house_history::Opened,
    directory: Directory,
) -> Result<Round, AllocError>
    requires history { history ≡ B.book }
    requires directory { directory.shards ≡ 2 }
{
    let Opened {
        shared,
        crew,
        baskets,
        session_parkers: _,
    } = open::<B>(rt.alloc(), history, directory, sizes(WORKERS, 100), &[])?;
    Ok(run_in::<B, Brand, T>(rt, shared, crew, baskets))
}

#[test]
fn each_copy_is_stored_once_and_all_lanes_close(rt: HostRuntime) -> Result<(), Fail> {
    let alloc = rt.alloc();
    let directory = directory(alloc)?;
    let history = house_history::Opened::new();
    let round = round_in::<Brand, HostRuntime>(&rt, history, directory)?;
    let copies = usize::from(WORKERS) * usize::from(COPIES);
    assert!(&rt; round.closed);
    assert!(&rt; round.told == copies);
    assert!(&rt; round.accepted.len() == copies);
    assert!(&rt; each_once(&round.accepted));
    Ok(())
}

fn help_once<B: Naming, H: LaneGroup, T: Wait>(
    rt: &T,
    shared: &HouseShared<B>,
    shared_consumers: &[Mutex<SharedConsumer<B, H>>],
    shard: usize,
)
    requires lanes { H.lanes ≡ Some shared.now.intake.lanes.items }
    requires delivery { H.delivery ≡ Some (parts_of shared.now.delivery) }
{
    let help = SharedConsumers::new(
        shared_consumers,
        &shared.intake.lanes,
        &shared.delivery,
        &Unhindered,
        8,
    );
    help.help(rt, shard);
}

// Helps on so many shards from the first on, in a thread for each. How many threads there were.
fn help_each<B: Naming + Send + Sync, H: LaneGroup + Send, T: Threads + Wait + Sync>(
    rt: &T,
    shared: &HouseShared<B>,
    shared_consumers: &[Mutex<SharedConsumer<B, H>>],
    shards: usize,
) -> usize
    requires lanes { H.lanes ≡ Some shared.now.intake.lanes.items }
    requires delivery { H.delivery ≡ Some (parts_of shared.now.delivery) }
{
    thread::scope(
        thread::scope_env(),
        rt,
        |scope| -> usize
            requires { IsSend B.row × IsSync B.row × IsSync T.row
                × (H.lanes ≡ Some shared.now.intake.lanes.items)
                × (H.delivery ≡ Some (parts_of shared.now.delivery)) }
        {
            let mut made = 0usize;
            for shard in 0..shards {
                let started = scope.spawn(
                    move || -> ()
                        requires { IsSend B.row × IsSync B.row × IsSync T.row
                            × (H.lanes ≡ Some shared.now.intake.lanes.items)
                            × (H.delivery ≡ Some (parts_of shared.now.delivery)) }
                    { help_once::<B, H, T>(rt, shared, shared_consumers, shard) },
                );
                if started.is_ok() {
                    made = made.saturating_add(1);
                }
            }
            made
        },
    )
}

// Makes shared consumers who find nothing to do, and stands them down: the number of the last one's shard, and
// how many stands there are again.
fn idle_in<B: Naming + Send + Sync, H: LaneGroup + Send, T: Threads + Wait + Sync + Abort>(
    rt: &T,
    shared: &HouseShared<B>,
    stands: Vec<Stand<B>>,
) -> (u8, Vec<Stand<B>>)
    requires lanes { H.lanes ≡ Some shared.now.intake.lanes.items }
    requires delivery { H.delivery ≡ Some (parts_of shared.now.delivery) }
    requires some { 0 < length shared.now.intake.lanes.items }
    requires stands { AllAt (IsStand shared.now) 0 stands.items
        × (vec_len stands ≡ length shared.now.intake.lanes.items) }
{
    let consumer_set = ConsumerSet::<B, H>::with_room(shared.alloc, stands.len()).expect(
        rt, "memory",
    );
    let consumer_set = make_all(shared, stands, consumer_set);
    // The third shard isn't there.
    let threads = help_each(rt, shared, &consumer_set.shared_consumers, 3);
    assert!(rt; threads == 3);
    let shard = shard_behind(
        rt,
        &consumer_set.shared_consumers[consumer_set.shared_consumers.len() - 1],
    );
    (shard, stand_down(shared, consumer_set))
}

fn shard_behind<B: Naming, H: LaneGroup, T: Wait>(
    rt: &T,
    lock: &Mutex<SharedConsumer<B, H>>,
) -> u8 {
    let shared_consumer = lock.lock(rt);
    shared_consumer.shard()
}

// The number of the last shared consumer's shard, and how many stands there are, in a house whose history was just opened, after nothing was done there.
fn idle_once<B: Naming + Send + Sync, T: Threads + Wait + Sync + Abort + AllocGlobal>(
    rt: &T,
    history: house_history::Opened,
    directory: Directory,
) -> Result<(u8, usize), AllocError>
    requires history { history ≡ B.book }
    requires directory { directory.shards ≡ 2 }
{
    let alloc = rt.alloc();
    let mut opened = open::<B>(alloc, history, directory, sizes(WORKERS, 100), &[])?;
    let stands = mem::replace(&mut opened.crew.stands, Vec::new(alloc));
    let (shard, stands) = idle_in::<B, Brand, T>(rt, &opened.shared, stands);
    let count = stands.len();
    // A house whose permits haven't ended can't be closed, and is left where it is.
    let _opened = packed(opened);
    let _stands = packed(stands);
    Ok((shard, count))
}

#[test]
fn shared_consumers_with_nothing_to_do_are_stood_down(rt: HostRuntime) -> Result<(), Fail> {
    let alloc = rt.alloc();
    let directory = directory(alloc)?;
    let history = house_history::Opened::new();
    let found = idle_once::<Brand, HostRuntime>(&rt, history, directory)?;
    assert!(&rt; found == (1, 2));
    Ok(())
}
