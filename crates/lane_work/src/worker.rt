//! A worker's connections, from the first greeting to the end of its permit on each lane. How copies are
//! put and verdicts are heard stands in `putting` and `hearing`.

ghost use Rattle.std.specs.Prelude.{◌≡◌, ◌≢◌, ◌≤◌, ◌<◌, ◌+◌, ℕ, ◌++◌, ◌∷◌, [], take, true, false, length, map, All, List, Ok, Err, OnOk, OnErr, IfOk, vec_len, vec_capacity};
ghost use Rattle.std.specs.Io.{StartsWith};
ghost use Rattle.delivery_token.specs.declared.Job.{Job};
ghost use Rattle.delivery_token.specs.declared.Verdict.{Verdict};
ghost use Rattle.envelope.specs.Names.{marked};
ghost use Rattle.shard_queue.specs.Permits.{said};
ghost use Rattle.shard_queue.specs.Reply.{IsReceiver, received};
ghost use Rattle.shard_queue.specs.Shared.{IsStartOf};
ghost use Rattle.lmtp_machine.specs.Calls.{Moves, submission_of};
ghost use Rattle.lane_work.specs.Talk.{Judged};
ghost use Rattle.lane_work.specs.Permits.{AreEnded, AreInForce, ArePermits, IsNew, overs, put_by};
ghost use Rattle.lane_work.specs.inner.Permits.{AreOpenTo};
ghost use Rattle.lane_work.specs.Account.{AreBooks, HaveEnded, notes_tell, setting_at, rooms_of};
ghost use Rattle.lane_work.specs.inner.Account.{HasServed};
ghost use Rattle.lane_work.specs.Awaiting.{HearsItsOwn, copies_in, verdicts_in};
ghost use Rattle.lane_work.specs.Ends.{CountsEnds, ends_in};
ghost use Rattle.lane_work.specs.Backing.{IsBackedBy, IsBackedDesk, KeepsBacked};
ghost use Rattle.lane_work.specs.Working.{IsWorked};
ghost use Rattle.lane_work.specs.Speaking.{Stands, is_quit, premises_of};
ghost use Rattle.lane_work.specs.inner.Speaking.{Spoke};

use crate::bells::Notifier;
use crate::closing::close_due;
use crate::desk::Desk;
use crate::dispatch::Dispatch;
use crate::ending::{end_all, hear_ends};
use crate::hearing::hear_all;
use crate::producer::{Context, Producer};
use crate::putting::put_all;
use crate::verdict_log::VerdictLog;
use delivery_token::{Verdict, Verdicts, WorkerLog};
use envelope::Directory;
use house_history::{Answer, Letter, Naming};
use lmtp_machine::{ANSWER_ROOM, Fed, Limits, LmtpMachine, Submission, What};
use shard_queue::{Ended, ReceiverPermit};
use std::alloc::AllocError;
use std::sync::Wait;
use workers_sync::{Gate, SyncPoint};

/// Why a worker submits no more.
#[derive(Clone, Copy, Debug, PartialEq, Eq)]
pub enum Stop {
    /// Memory was refused.
    NoMemory,
    /// A verdict came that wasn't awaited, or the end of a shard that isn't closed.
    Torn,
}

impl From<AllocError> for Stop {
    ghost use Rattle.lane_work.specs.declared.worker.Stop.{Stop};

    ghost from_gives = { λ _ stop. stop ≡ Stop.NoMemory };

    fn from(_error: AllocError) -> Stop {
        Stop::NoMemory
    }
}

/// How a worker came to its end.
#[derive(Clone, Copy, Debug, PartialEq, Eq)]
pub enum Fate {
    /// It went through all its connections, or all its steps.
    Whole,
    /// It never had a thread, and its permits were ended for it.
    NotBegun,
    /// Memory was refused, for more than a copy's text; it submitted nothing after that.
    NoMemory,
    /// A verdict came that it didn't await, or a shard ended before it had; it submitted nothing after
    /// that.
    Torn,
}

// Puts the copies of a message, hears the verdict on each, and notes them. All memory that this takes is asked for before the first copy is put.
fn put_and_hear<B: Naming, R: Wait, G: Gate, S: Notifier, N: VerdictLog>(
    context: &Context<'_, B, R, S>,
    producer: &mut Producer<'_, B, G, N>,
    message: &Submission,
) -> Result<Vec<Verdict>, Stop>
    requires permits { ArePermits context.now.intake.now.lanes.items producer.old.desk.number
        producer.old.desk.permits.items }
    requires receiver { IsReceiver context.now.channel.now producer.old.desk.receiver }
    requires lanes { context.now.intake.now.directory.shards
        ≡ length context.now.intake.now.lanes.items }
    requires mailboxes { vec_len message.now.mailboxes ≡ vec_len message.now.keys }
    ensures permits { ArePermits context.now.intake.now.lanes.items producer.old.desk.number
        producer.new.desk.permits.items }
    ensures receiver { IsReceiver context.now.channel.now producer.new.desk.receiver }
    ensures number { producer.new.desk.number ≡ producer.old.desk.number }
    ensures ends { CountsEnds producer.old.desk producer.new.desk }
    ensures overs { overs producer.new.desk.permits.items ≡ overs producer.old.desk.permits.items }
    ensures owner { N.owner producer.new.book ≡ N.owner producer.old.book }
    ensures only { OnOk result (HearsItsOwn producer.old.desk producer.new.desk) }
    ensures verdicts { IfOk result (λ vs. vec_len vs ≡ vec_len message.now.keys) }
    // Where no permit is over that a copy is for.
    ensures books { IfOk result (λ vs.
        AreOpenTo context.now.intake.now.directory message.now.mailboxes.items
        producer.old.desk.permits.items →
        (judged : List Judged) → AreBooks context.now.intake.now.directory
        (rooms_of context.now.intake.now.lanes.items)
        producer.old.desk.number judged (N.tells producer.old.book)
        (received producer.old.desk.receiver) (map put_by producer.old.desk.permits.items)
        → AreBooks context.now.intake.now.directory (rooms_of context.now.intake.now.lanes.items)
        producer.old.desk.number (judged
        ++ record { message = submission_of message.now; verdicts = vs.items }
        ∷ []) (N.tells producer.new.book) (received producer.new.desk.receiver)
        (map put_by producer.new.desk.permits.items)) }
    ensures err { result ≡ Err Stop.NoMemory
        → (map put_by producer.new.desk.permits.items ≡ map put_by producer.old.desk.permits.items)
        ×
        (received producer.new.desk.receiver ≡ received producer.old.desk.receiver) }
    ensures noted { result ≡ Err Stop.NoMemory → (copies : List (Job × Verdict))
        → N.tells producer.old.book copies → N.tells producer.new.book copies }
    ensures torn { result ≡ Err Stop.Torn
        → length (received producer.old.desk.receiver) < length (received
        producer.new.desk.receiver) }
    ensures grew { IsStartOf (received producer.old.desk.receiver) (received
        producer.new.desk.receiver) }
    ensures backed { KeepsBacked producer.old.desk producer.new.desk }
{
    let count = message.keys.len();
    producer.book.reserve(count)?;
    let mut heard = Verdicts::with_room(context.alloc, count)?;
    let room = Vec::with_capacity(context.alloc, count)?;
    let (sync_point, desk) = (&mut producer.sync_point, &mut producer.desk);
    put_all(context, sync_point, desk, message, &mut heard);
    let Ok(()) = hear_all(context, sync_point, desk, message, &mut heard) else {
        return Err(Stop::Torn);
    };
    let verdicts = heard.known_in(room);
    producer.book.note_all(message, verdicts.as_slice());
    Ok(verdicts)
}

/// Takes bytes from the front of a piece: one line, or one end of data. A message that is submitted by
/// it is put and heard of before anything more is taken: its copies are put, each into the lane of its mailbox's
/// shard, whose consumer is notified; the verdict on each is awaited, and noted in the producer's book; and then
/// they are said. Replies go to `out`, behind what stands there; what was said before may have been
/// sent. `directory` is the producer's own, which may have more marks than the intake's.
///
/// Errors: `NoMemory` where memory was refused; then no copy was put and nothing was heard. `Torn` where
/// something came that wasn't awaited, a verdict or a shard's end; copies may be under way then. After
/// either, bytes may have been taken and replies written, and what stood in `out` stands there still.
pub fn turn<B: Naming, R: Wait, G: Gate, S: Notifier, N: VerdictLog>(
    context: &Context<'_, B, R, S>,
    producer: &mut Producer<'_, B, G, N>,
    directory: &Directory,
    machine: &mut LmtpMachine,
    piece: &[u8],
    out: &mut Vec<u8>,
) -> Result<Fed, Stop>
    // The desk has its own permit on each lane, over only where `directory` marks the shard as shut; its receiver is of `channel`.
    requires permits { AreInForce directory.now context.now.intake.now.lanes.items
        producer.old.desk.number
        producer.old.desk.permits.items }
    requires receiver { IsReceiver context.now.channel.now producer.old.desk.receiver }

    // There is a lane for each shard, and but for its marks `directory` is the intake's.
    requires lanes { context.now.intake.now.directory.shards
        ≡ length context.now.intake.now.lanes.items }
    requires marks { directory.now ≡ marked directory.now.shut context.now.intake.now.directory }

    // No message of the connection waits for its verdicts.
    requires quiet { machine.old.pending ≡ [] }

    // The permits are as required still; desk and book stay whose they were, and no end was counted that wasn't heard.
    ensures permits { AreInForce directory.now context.now.intake.now.lanes.items
        producer.old.desk.number
        producer.new.desk.permits.items }
    ensures receiver { IsReceiver context.now.channel.now producer.new.desk.receiver }
    ensures number { producer.new.desk.number ≡ producer.old.desk.number }
    ensures ends { CountsEnds producer.old.desk producer.new.desk }
    ensures owner { N.owner producer.new.book ≡ N.owner producer.old.book }

    // Without an error as many verdicts were heard as copies were put.
    ensures only { OnOk result (HearsItsOwn producer.old.desk producer.new.desk) }

    // Without an error the next turn may follow: no message waits, and the connection's setting and host are the same.
    ensures quiet { OnOk result (machine.new.pending ≡ []) }
    ensures same { OnOk result ((machine.new.setting ≡ machine.old.setting)
        × (machine.new.host ≡ machine.old.host)) }

    // Without an error no more was taken than the piece has, and at least one byte, where it has any, unless the dialogue ended.
    ensures used { IfOk result (λ fed. fed.used ≤ length piece.now) }
    ensures moves { IfOk result (λ fed. Moves fed.used fed.what piece.now) }

    // Without an error: if `told`, then `out`, was the replies to `bytes`, with their messages booked behind `done`, so it is with what was taken.
    ensures stands { IfOk result (λ fed. (done : List Judged) (bytes told : List ℕ)
        → Stands directory.now context.now.intake.now.directory (rooms_of
        context.now.intake.now.lanes.items)
        producer.old.desk.number done bytes false machine.old (told
        ++ out.old.items) (N.tells producer.old.book) (received producer.old.desk.receiver)
        (map put_by producer.old.desk.permits.items)
        → Stands directory.now context.now.intake.now.directory (rooms_of
        context.now.intake.now.lanes.items)
        producer.old.desk.number done (bytes ++ take fed.used piece.now)
        (is_quit fed.what) machine.new (told
        ++ out.new.items) (N.tells producer.new.book) (received producer.new.desk.receiver)
        (map put_by producer.new.desk.permits.items)) }

    // After an error, where it stood so before: what was in `out` stands there still, in front.
    ensures kept { OnErr result ((done : List Judged) (bytes told : List ℕ)
        → Stands directory.now context.now.intake.now.directory (rooms_of
        context.now.intake.now.lanes.items)
        producer.old.desk.number done bytes false machine.old (told
        ++ out.old.items) (N.tells producer.old.book) (received producer.old.desk.receiver)
        (map put_by producer.old.desk.permits.items)
        → StartsWith out.new.items out.old.items) }

    // After `NoMemory` nothing was put or heard, and the book tells of all copies of which it told.
    ensures err { result ≡ Err Stop.NoMemory
        → (map put_by producer.new.desk.permits.items ≡ map put_by producer.old.desk.permits.items)
        ×
        (received producer.new.desk.receiver ≡ received producer.old.desk.receiver) }
    ensures noted { result ≡ Err Stop.NoMemory → (copies : List (Job × Verdict))
        → N.tells producer.old.book copies → N.tells producer.new.book copies }

    // After `Torn` something was heard; and after any result, what was heard before stands in front of what was heard since.
    ensures torn { result ≡ Err Stop.Torn
        → length (received producer.old.desk.receiver) < length (received
        producer.new.desk.receiver) }
    ensures grew { IsStartOf (received producer.old.desk.receiver) (received
        producer.new.desk.receiver) }

    // What the house's history had of all that the desk has put and heard, it has of what was put and heard since.
    ensures backed { KeepsBacked producer.old.desk producer.new.desk }
{
    let fed = machine.feed(piece, directory, out)?;
    match fed.what {
        What::More => return Ok(fed),
        What::Quit => return Ok(fed),
        What::Submit => {}
    }
    out.reserve(ANSWER_ROOM)?;
    let verdicts = put_and_hear(context, producer, machine.submission())?;
    let Ok(()) = machine.answer(verdicts.as_slice(), out) else {
        unreachable!()
    };
    Ok(fed)
}

// Goes on turn by turn, until all bytes are taken or the connection has ended.
fn speak<B: Naming, R: Wait, G: Gate, S: Notifier>(
    context: &Context<'_, B, R, S>,
    producer: &mut Producer<'_, B, G, WorkerLog>,
    directory: &Directory,
    machine: &mut LmtpMachine,
    bytes: &[u8],
    out: &mut Vec<u8>,
) -> Result<(), Stop>
    requires permits { AreInForce directory.now context.now.intake.now.lanes.items
        producer.old.desk.number
        producer.old.desk.permits.items }
    requires receiver { IsReceiver context.now.channel.now producer.old.desk.receiver }
    requires lanes { context.now.intake.now.directory.shards
        ≡ length context.now.intake.now.lanes.items }
    requires marks { directory.now ≡ marked directory.now.shut context.now.intake.now.directory }
    requires quiet { machine.old.pending ≡ [] }
    ensures permits { AreInForce directory.now context.now.intake.now.lanes.items
        producer.old.desk.number
        producer.new.desk.permits.items }
    ensures receiver { IsReceiver context.now.channel.now producer.new.desk.receiver }
    ensures number { producer.new.desk.number ≡ producer.old.desk.number }
    ensures ends { CountsEnds producer.old.desk producer.new.desk }
    ensures seat { producer.new.book.seat ≡ producer.old.book.seat }
    ensures backed { KeepsBacked producer.old.desk producer.new.desk }
    ensures only { OnOk result (HearsItsOwn producer.old.desk producer.new.desk) }
    ensures spoke { OnOk result ((done : List Judged)
        → Stands directory.now context.now.intake.now.directory (rooms_of
        context.now.intake.now.lanes.items)
        producer.old.desk.number done [] false machine.old out.old.items
        (notes_tell producer.old.book.notes) (received producer.old.desk.receiver)
        (map put_by producer.old.desk.permits.items)
        → Spoke directory.now context.now.intake.now.directory
        (rooms_of context.now.intake.now.lanes.items) producer.old.desk.number done bytes.now
        machine.old.setting
        machine.old.host out.new.items
        (notes_tell producer.new.book.notes) (received producer.new.desk.receiver)
        (map put_by producer.new.desk.permits.items)) }
{
    let mut used = 0;
    loop {
        let fed = turn(context, producer, directory, machine, &bytes[used..], out)?;
        used += fed.used;
        match fed.what {
            What::Quit => return Ok(()),
            What::Submit => {}
            What::More => {
                if used == bytes.len() {
                    return Ok(());
                }
            }
        }
    }
}

// One connection: the replies to these bytes.
fn converse<B: Naming, R: Wait, G: Gate, S: Notifier>(
    context: &Context<'_, B, R, S>,
    producer: &mut Producer<'_, B, G, WorkerLog>,
    directory: &Directory,
    serial: u64,
    bytes: &[u8],
) -> Result<Vec<u8>, Stop>
    requires permits { AreInForce directory.now context.now.intake.now.lanes.items
        producer.old.desk.number
        producer.old.desk.permits.items }
    requires receiver { IsReceiver context.now.channel.now producer.old.desk.receiver }
    requires lanes { context.now.intake.now.directory.shards
        ≡ length context.now.intake.now.lanes.items }
    requires marks { directory.now ≡ marked directory.now.shut context.now.intake.now.directory }
    requires host { length context.now.intake.now.host.items < 256 }
    ensures permits { AreInForce directory.now context.now.intake.now.lanes.items
        producer.old.desk.number
        producer.new.desk.permits.items }
    ensures receiver { IsReceiver context.now.channel.now producer.new.desk.receiver }
    ensures number { producer.new.desk.number ≡ producer.old.desk.number }
    ensures ends { CountsEnds producer.old.desk producer.new.desk }
    ensures seat { producer.new.book.seat ≡ producer.old.book.seat }
    ensures backed { KeepsBacked producer.old.desk producer.new.desk }
    ensures only { OnOk result (HearsItsOwn producer.old.desk producer.new.desk) }
    ensures spoke { IfOk result (λ reply. (done : List Judged)
        → AreBooks context.now.intake.now.directory (rooms_of context.now.intake.now.lanes.items)
        producer.old.desk.number done
        (notes_tell producer.old.book.notes)
        (received producer.old.desk.receiver) (map put_by producer.old.desk.permits.items)
        → Spoke directory.now context.now.intake.now.directory (rooms_of
        context.now.intake.now.lanes.items) producer.old.desk.number
        done bytes.now
        (setting_at (premises_of context.now.intake.now) producer.old.desk.number serial)
        context.now.intake.now.host.items
        reply.items (notes_tell producer.new.book.notes)
        (received producer.new.desk.receiver) (map put_by producer.new.desk.permits.items)) }
{
    let limits = Limits {
        host: context.intake.host.as_slice(),
        max_message: context.intake.max_message,
        budget: &context.intake.budget,
    };
    let mut machine = LmtpMachine::new(context.alloc, producer.desk.number, serial, limits)?;
    let mut out = Vec::new(context.alloc);
    machine.greet(&mut out)?;
    speak(context, producer, directory, &mut machine, bytes, &mut out)?;
    Ok(out)
}

/// What a producer leaves: a worker, or a session.
pub struct Worked<B: Naming> {
    /// What is left of its permit on each lane.
    pub ended: Vec<Ended<Letter<B>>>,
    /// Its end of its reply channel.
    pub receiver: ReceiverPermit<Answer<B>>,
    /// The replies to each of its connections, up to the one in which it stopped; of a session what it said.
    pub replies: Vec<Vec<u8>>,
    /// The verdicts on its copies.
    pub log: WorkerLog,
    /// What it sent its copies with.
    pub dispatch: Dispatch<B>,
    /// How it came to its end.
    pub fate: Fate,
}

// The connections, one after another.
fn go_through<B: Naming, R: Wait, G: Gate, S: Notifier>(
    context: &Context<'_, B, R, S>,
    producer: &mut Producer<'_, B, G, WorkerLog>,
    replies: &mut Vec<Vec<u8>>,
    connections: &[Vec<u8>],
) -> Fate
    requires permits { ArePermits context.now.intake.now.lanes.items producer.old.desk.number
        producer.old.desk.permits.items
        × All IsNew producer.old.desk.permits.items }
    requires receiver { IsReceiver context.now.channel.now producer.old.desk.receiver }
    requires lanes { context.now.intake.now.directory.shards
        ≡ length context.now.intake.now.lanes.items }
    requires host { length context.now.intake.now.host.items < 256 }
    requires begun { (replies.old.items ≡ [])
        × AreBooks context.now.intake.now.directory (rooms_of context.now.intake.now.lanes.items)
        producer.old.desk.number []
        (notes_tell producer.old.book.notes) (received producer.old.desk.receiver)
        (map put_by producer.old.desk.permits.items) }
    ensures permits { ArePermits context.now.intake.now.lanes.items producer.old.desk.number
        producer.new.desk.permits.items }
    ensures receiver { IsReceiver context.now.channel.now producer.new.desk.receiver }
    ensures number { producer.new.desk.number ≡ producer.old.desk.number }
    ensures ends { CountsEnds producer.old.desk producer.new.desk }
    ensures seat { producer.new.book.seat ≡ producer.old.book.seat }
    ensures began { result ≢ Fate.NotBegun }
    ensures backed { KeepsBacked producer.old.desk producer.new.desk }
    ensures only { result ≡ Fate.Whole → HearsItsOwn producer.old.desk producer.new.desk }
    ensures whole { result ≡ Fate.Whole
        → HasServed (premises_of context.now.intake.now) producer.old.desk.number (map (λ b.
        b.items) connections.now)
        (map (λ b. b.items) replies.new.items) (notes_tell producer.new.book.notes)
        (received producer.new.desk.receiver) (map put_by producer.new.desk.permits.items) }
{
    let Ok(mut directory) = context.intake.directory.copy(context.alloc) else {
        return Fate::NoMemory;
    };
    for i in 0..connections.len() {
        let (sync_point, desk) = (&mut producer.sync_point, &mut producer.desk);
        close_due(context, sync_point, desk, &mut directory, i);
        let reply = match converse(
            context,
            producer,
            &directory,
            i as u64,
            connections[i].as_slice(),
        ) {
            Ok(reply) => reply,
            Err(Stop::NoMemory) => return Fate::NoMemory,
            Err(Stop::Torn) => return Fate::Torn,
        };
        let Ok(()) = replies.push(reply) else {
            return Fate::NoMemory;
        };
    }
    Fate::Whole
}

/// A worker's whole life: its connections, one after another; then its end on each lane, from shard 0
/// on; then it receives until each shard's end came on its reply channel.
///
/// Connection i has the worker's number for its seat and i for its serial; these bytes come from its
/// peer, which then goes. Before it the worker closes the shards that it is to close then (`Closing`).
/// The copies of a message are put in the order of its recipients, each into
/// its shard's queue: one that finds no room is refused as Full at once, and one whose text can't be
/// shared as NoMemory. All verdicts are awaited before the replies. A worker that stops, by `Fate`,
/// still ends its permits and hears all ends.
///
/// `room`, which is empty, has room for what is left of each permit.
pub fn work<B: Naming, R: Wait, G: Gate, S: Notifier>(
    context: &Context<'_, B, R, S>,
    sync_point: SyncPoint<'_, G>,
    desk: Desk<B>,
    room: Vec<Ended<Letter<B>>>,
    connections: &[Vec<u8>],
) -> Worked<B>
    // The desk has its own permit on each lane, none of them over, and put nothing yet; its receiver is of `channel`.
    requires permits { ArePermits context.now.intake.now.lanes.items desk.number desk.permits.items
        × All IsNew desk.permits.items }
    requires receiver { IsReceiver context.now.channel.now desk.receiver }
    requires lanes { context.now.intake.now.directory.shards
        ≡ length context.now.intake.now.lanes.items }
    requires host { length context.now.intake.now.host.items < 256 }
    requires room { (room.items ≡ []) × (length context.now.intake.now.lanes.items
        ≤ vec_capacity room) }

    // It did begin, however it came to its end.
    ensures began { result.fate ≢ Fate.NotBegun }

    // It heard as many shards' ends as there are lanes, or more, of which `desk.ends` were counted before.
    ensures heard { length context.now.intake.now.lanes.items + ends_in (received desk.receiver)
        ≤ desk.ends + ends_in (received result.receiver) }

    // Where it is `Whole`, as many verdicts were heard as copies were put on all lanes: each was awaited, and nothing else came.
    ensures only { result.fate ≡ Fate.Whole
        → verdicts_in (received result.receiver) ≡ verdicts_in (received desk.receiver) +
        copies_in (map said result.ended.items) }

    // Where it is `Whole`, and its seat had sent nothing before, the house's history has what it put and heard, and nothing else of its seat.
    ensures backed { result.fate ≡ Fate.Whole → received desk.receiver ≡ []
        → desk.dispatch.sent ≡ []
        → IsBackedBy desk.dispatch.number result.dispatch (received result.receiver) (map said
        result.ended.items) }

    // The permits, the receiver and the log are its own; where it is `Whole`, this is its account: of replies, notes and what it put.
    ensures worked { IsWorked context.now.intake.now context.now.channel.now desk.number (map (λ b.
        b.items) connections.now) result }
{
    desk.dispatch.is_kept();
    let log = WorkerLog::new(context.alloc, desk.number);
    let mut producer = Producer {
        sync_point,
        desk,
        book: log,
    };
    let mut replies = Vec::new(context.alloc);
    let fate = go_through(context, &mut producer, &mut replies, connections);
    finish(context, producer, room, replies, fate)
}

/// The end of a producer's life: its end on each lane, from shard 0 on, and then it receives until each
/// shard's end came on its reply channel. What it has said and noted by then goes with it, and so does how
/// it came there; where all had gone well and something else than an end comes now, it is torn.
///
/// `room`, which is empty, has room for what is left of each permit.
pub fn finish<B: Naming, R: Wait, G: Gate, S: Notifier>(
    context: &Context<'_, B, R, S>,
    producer: Producer<'_, B, G, WorkerLog>,
    room: Vec<Ended<Letter<B>>>,
    replies: Vec<Vec<u8>>,
    fate: Fate,
) -> Worked<B>
    // The desk has its own permit on each lane, over or not; its receiver is of `channel`.
    requires permits { ArePermits context.now.intake.now.lanes.items producer.desk.number
        producer.desk.permits.items }
    requires receiver { IsReceiver context.now.channel.now producer.desk.receiver }
    requires room { (room.items ≡ []) × (length context.now.intake.now.lanes.items
        ≤ vec_capacity room) }

    // Its permit on each lane has ended: there it has said what it had put, then its end, and nothing else.
    ensures ended { AreEnded context.now.intake.now.lanes.items producer.entry.desk.number
        result.ended.items }
    ensures said { HaveEnded producer.entry.desk.number (map put_by
        producer.entry.desk.permits.items)
        (map said result.ended.items) }

    // It heard as many shards' ends as there are lanes, or more, of which `producer.desk.ends` were counted before.
    ensures receiver { IsReceiver context.now.channel.now result.receiver }
    ensures grew { IsStartOf (received producer.entry.desk.receiver) (received result.receiver) }
    ensures heard { length context.now.intake.now.lanes.items + ends_in (received
        producer.entry.desk.receiver)
        ≤ producer.entry.desk.ends + ends_in (received result.receiver) }

    // Log and replies are those that were given, and what it sent with is the desk's.
    ensures kept { (result.log ≡ producer.entry.book) × (result.replies ≡ replies) }
    ensures dispatch { result.dispatch ≡ producer.entry.desk.dispatch }

    // It is `Whole` only where it was given as `Whole`, and nothing but ends was heard since.
    ensures whole { result.fate ≡ Fate.Whole → fate ≡ Fate.Whole }
    ensures quiet { result.fate ≡ Fate.Whole
        → length (received result.receiver) + ends_in (received producer.entry.desk.receiver)
        ≡ length
        (received producer.entry.desk.receiver) + ends_in (received result.receiver) }

    // Where it is `Whole`, the house's history has what it put and heard, as it had it before.
    ensures backed { result.fate ≡ Fate.Whole → (seat : ℕ)
        → IsBackedDesk seat producer.entry.desk
        → IsBackedBy seat result.dispatch (received result.receiver) (map said result.ended.items) }

    // It is `NotBegun` only where it was given as that.
    ensures began { fate ≢ Fate.NotBegun → result.fate ≢ Fate.NotBegun }
{
    let Producer {
        mut sync_point,
        desk,
        book: log,
    } = producer;
    let Desk {
        number,
        permits,
        mut receiver,
        ends,
        dispatch,
    } = desk;
    let ended = end_all(
        context.rt,
        &mut sync_point,
        context.intake,
        context.notifier,
        number,
        permits,
        room,
    );
    let quiet = hear_ends(
        context.rt,
        &mut sync_point,
        context.channel,
        &mut receiver,
        ends,
        context.intake.lanes.len(),
    );
    Worked {
        ended,
        receiver,
        replies,
        log,
        dispatch,
        fate: fate_after(fate, quiet),
    }
}

// A producer that went through all, and then heard what it didn't await, is torn.
fn fate_after(fate: Fate, quiet: bool) -> Fate
    ensures whole { result ≡ Fate.Whole → (fate ≡ Fate.Whole) × (quiet ≡ true) }
    ensures began { fate ≢ Fate.NotBegun → result ≢ Fate.NotBegun }
{
    match fate {
        Fate::Whole if !quiet => Fate::Torn,
        other => other,
    }
}
