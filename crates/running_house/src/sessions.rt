//! A session's whole life in a house with threads: its steps, over mailboxes behind locks, its messages by way of the lanes, and then
//! the end of its permits. What it is answered stands in `session_thread`, who starts its thread in `producers`.

ghost use Rattle.std.specs.Prelude.{ℕ, ◌≡◌, ◌≢◌, ◌∷◌, ◌++◌, ◌≤◌, [], List, None, false, length, map};
ghost use Rattle.workers_sync.specs.Carried.{Carried};
ghost use Rattle.shard_queue.specs.Reply.{IsReceiver};
ghost use Rattle.house_shared.specs.Crew.{IsHouse, IsPost};
ghost use Rattle.house_shared.specs.Users.{user_numbered};
ghost use Rattle.lane_work.specs.Account.{notes_tell};
ghost use Rattle.lane_work.specs.Awaiting.{HearsItsOwn};
ghost use Rattle.lane_work.specs.Couriers.{HasCarried, IsReady, IsSameDesk};
ghost use Rattle.running_house.specs.inner.Crew.{HasLived, IsAttended};

use crossbeam_utils::sync::Unparker;
use delivery_token::WorkerLog;
use house_history::{Answer, Naming};
use house_shared::{Guest, HouseShared, Post, inbox_numbered, most_of};
use imap_session::folders_of;
use lane_work::{Context, Fate, LaneCourier, Producer, Worked, finish};
use session_thread::{LockedStore, live};
use shard_queue::ReplyChannel;
use std::sync::Wait;
use workers_sync::{Gate, Lost};

// The session of the user with this name makes its steps. What it said is laid into `replies`, which is empty, unless memory is
// refused before it begins.
fn live_through<B: Naming, R: Wait, G: Gate>(
    shared: &HouseShared<B>,
    user: &[u8],
    guest: &Guest,
    locked: &mut LockedStore<'_, B, R, G>,
    courier: &mut LaneCourier<'_, B, R, Vec<Unparker>, WorkerLog>,
    replies: &mut Vec<Vec<u8>>,
) -> Fate
    requires ready { IsReady courier.old.context.intake.now courier.old.context.channel.now
        courier.old.desk }
    requires empty { replies.old.items ≡ [] }
    ensures ready { IsReady courier.new.context.intake.now courier.new.context.channel.now
        courier.new.desk }
    ensures same { IsSameDesk courier.old.context.intake.now courier.new.context.intake.now
        courier.old.context.channel.now
        courier.new.context.channel.now courier.old.desk
        courier.new.desk }
    ensures serial { courier.new.serial ≡ courier.old.serial }
    ensures only { courier.new.is_torn ≡ false
        → (courier.old.is_torn ≡ false) × HearsItsOwn courier.old.desk courier.new.desk }
    ensures book { courier.new.book.seat ≡ courier.old.book.seat }
    ensures began { result ≢ Fate.NotBegun }
    ensures whole { result ≡ Fate.Whole → (carried : List Carried)
        × ((done : List Carried)
        → HasCarried courier.old.context.intake.now courier.old.desk courier.old.serial
        (notes_tell courier.old.book.notes) done
        → HasCarried courier.new.context.intake.now courier.new.desk courier.new.serial
        (notes_tell courier.new.book.notes) (done ++ carried))
        × ((text : List ℕ) × HasLived shared.now user.now locked.old guest.now carried text
        × (map (λ b. b.items) replies.new.items ≡ text ∷ [])) }
{
    let Ok(()) = replies.reserve(1) else {
        return Fate::NoMemory;
    };
    let Ok(folders) = folders_of(shared.alloc, &shared.intake.directory, user) else {
        return Fate::NoMemory;
    };
    let most = Some(most_of(shared.intake.max_message));
    let steps = guest.steps.as_slice();
    let mut said = Vec::new(shared.alloc);
    let (alloc, turns) = (shared.alloc, shared.turns);
    let lived = live(
        alloc, locked, courier, folders, most, steps, turns, &mut said,
    );
    replies.push_reserved(said);
    match lived {
        Ok(()) => Fate::Whole,
        Err(Lost::NoMemory) => Fate::NoMemory,
        Err(Lost::Torn) => Fate::Torn,
    }
}

// How a session came to its end whose courier may have met what it didn't await.
fn unless_torn(fate: Fate, is_torn: bool) -> Fate
    ensures whole { result ≡ Fate.Whole → (fate ≡ Fate.Whole) × (is_torn ≡ false) }
{
    if is_torn { Fate::Torn } else { fate }
}

/// A session's whole life: its client is greeted, makes its steps, and leaves the mailbox that it is in; the messages that it appends
/// go by way of the lanes, as a worker's do. Then comes the session's end on each lane, from shard 0 on, and it receives until each
/// shard's end came on its reply channel. So it is too where it stops early, by `Fate`.
///
/// `session` is its number among the sessions, from 0, and `channel` is that of its post.
pub(crate) fn attend<B: Naming, R: Wait, G: Gate>(
    rt: &R,
    shared: &HouseShared<B>,
    gate: &G,
    channel: &ReplyChannel<Answer<B>>,
    guest: &Guest,
    session: u8,
    post: Post<B>,
) -> Worked<B>
    requires house { (producers : ℕ) × IsHouse shared.now producers }
    requires post { IsPost shared.now post.desk.number post }
    requires channel { IsReceiver channel.now post.desk.receiver }
    requires named { user_numbered guest.now.user shared.now.intake.directory.homes ≢ None }
    requires bells { length shared.now.intake.directory.homes
        ≤ length shared.now.delivery.sessions.items }
    ensures { IsAttended shared.now channel.now post.desk.number guest.now result }
{
    let directory = &shared.intake.directory;
    let Some(inbox) = inbox_numbered(directory, guest.user) else {
        unreachable!();
    };
    let Post { desk, room } = post;
    desk.dispatch.is_kept();
    let mailboxes = &shared.delivery.mailboxes;
    let bells = &shared.delivery.sessions[usize::from(inbox)];
    let mut locked = LockedStore::new(
        rt,
        gate,
        session,
        mailboxes,
        shared.delivery.front.again(),
        bells,
    );
    let context = Context {
        rt,
        alloc: shared.alloc,
        intake: &shared.intake,
        notifier: &shared.bells,
        channel,
    };
    let mut courier = LaneCourier {
        context,
        serial: 0,
        book: WorkerLog::new(shared.alloc, desk.number),
        desk,
        is_torn: false,
    };
    let user = directory.user_of(inbox);
    let mut replies = Vec::new(shared.alloc);
    let fate = live_through(shared, user, guest, &mut locked, &mut courier, &mut replies);
    let LaneCourier {
        context,
        desk,
        serial: _,
        book,
        is_torn,
    } = courier;
    let fate = unless_torn(fate, is_torn);
    let sync_point = locked.into_sync_point();
    let producer = Producer {
        sync_point,
        desk,
        book,
    };
    finish(&context, producer, room, replies, fate)
}
