//! A worker's life in a server: one connection after another, until the house stops, and then the end of its permit on each lane. What is
//! said on a connection stands in `lane_work`.

ghost use Rattle.std.specs.Prelude.{◌≡◌, ◌≢◌, Err, ◌≤◌, ◌<◌, ◌+◌, ℕ, [], Some, true, false, All, length, map, vec_capacity};
ghost use Rattle.shard_queue.specs.Permits.{said};
ghost use Rattle.shard_queue.specs.Reply.{IsReceiver, received};
ghost use Rattle.lane_work.specs.Backing.{IsBackedBy, KeepsBacked};
ghost use Rattle.lane_work.specs.Permits.{AreEnded, AreInForce, IsNew, put_by};
ghost use Rattle.lane_work.specs.Speaking.{premises_of};
ghost use Rattle.serving_workers.specs.Leaving.{AreServed, HasServedMail, Closed, IsFresh, IsUnwritten, Told, Took};

use crate::acceptor::Acceptor;
use crate::line::{Call, Line};
use house_history::{Answer, Letter, Naming};
use lane_work::{
    Buffers, Context, Desk, Dispatch, Ending, Notifier, Producer, TalkFault, converse, end_all,
};
use line_io::Sink;
use server_report::{Happened, LogBook};
use shard_queue::{Ended, ReceiverPermit};
use std::io::Read;
use std::sync::Wait;
use workers_sync::{Gate, SyncPoint};

/// What a producer of a server leaves: a worker, or whoever else has a post.
pub struct Served<B: Naming, L> {
    /// What is left of its permit on each lane.
    pub ended: Vec<Ended<Letter<B>>>,
    /// Its end of its reply channel.
    pub receiver: ReceiverPermit<Answer<B>>,
    /// How many shards' ends it has heard there.
    pub ends: usize,
    /// What it sent its copies with.
    pub dispatch: Dispatch<B>,
    /// Whether it heard a verdict that it didn't await, after which it served nobody.
    pub torn: bool,
    /// Whether it is a worker, and took mail.
    pub mail: bool,
    /// Where its connections came in, if it is a worker.
    pub line: Option<L>,
}

/// What a worker takes mail in with.
#[derive(Drop)]
pub struct Outfit<L> {
    /// Where its connections come in.
    pub line: L,
    /// For each connection anew.
    pub buffers: Buffers,
}

// Whether a connection ended with what the worker didn't await.
fn is_torn(ending: Result<Ending, TalkFault>) -> bool
    ensures { result ≡ false → ending ≢ Err TalkFault.Torn }
{
    matches!(ending, Err(TalkFault::Torn))
}

// How a connection ended, as the log tells it.
fn how_it_ended(ending: Result<Ending, TalkFault>) -> Happened {
    match ending {
        Ok(Ending::Quit) => Happened::Quit,
        Ok(Ending::Gone) => Happened::Gone,
        Ok(Ending::Stopped) => Happened::Shut,
        Err(TalkFault::Read | TalkFault::Write) => Happened::Broken,
        Err(TalkFault::NoMemory) => Happened::OutOfMemory,
        Err(TalkFault::Torn) => Happened::Torn,
    }
}

// One connection, from its greeting to its end, and whether a verdict came that the worker didn't await.
fn serve_one<B: Naming, R: Wait, G: Gate, S: Notifier, I: Read, O: Sink>(
    context: &Context<'_, B, R, S>,
    producer: &mut Producer<'_, B, G, LogBook<'_, R>>,
    serial: u64,
    acceptor: &Acceptor<'_>,
    call: &mut Call<I, O>,
    buffers: &mut Buffers,
) -> bool
    requires permits { AreInForce context.now.intake.now.directory
        context.now.intake.now.lanes.items producer.old.desk.number
        producer.old.desk.permits.items }
    requires receiver { IsReceiver context.now.channel.now producer.old.desk.receiver }
    requires lanes { context.now.intake.now.directory.shards
        ≡ length context.now.intake.now.lanes.items }
    requires host { length context.now.intake.now.host.items < 256 }
    requires room { 0 < length buffers.old.input.items }
    requires live { O.failed call.old.output ≡ false }
    ensures permits { AreInForce context.now.intake.now.directory
        context.now.intake.now.lanes.items producer.old.desk.number
        producer.new.desk.permits.items }
    ensures receiver { IsReceiver context.now.channel.now producer.new.desk.receiver }
    ensures number { producer.new.desk.number ≡ producer.old.desk.number }
    ensures room { 0 < length buffers.new.input.items }

    // What a line tells before this connection came, since then, and since it is over; nothing was written to it yet.
    ensures mail { result ≡ false → (before since after : Told)
        → Took before since (I.remaining call.old.input)
        → IsUnwritten since (O.taken call.old.output)
        → Closed since after (O.taken call.new.output) (O.failed call.new.output)
        → AreServed (premises_of context.now.intake.now) producer.old.desk.number before serial
        (received producer.old.desk.receiver) (map put_by producer.old.desk.permits.items)
        → AreServed (premises_of context.now.intake.now) producer.old.desk.number after (serial
        + 1) (received producer.new.desk.receiver) (map put_by producer.new.desk.permits.items) }
    ensures backed { KeepsBacked producer.old.desk producer.new.desk }
{
    let number = producer.desk.number;
    producer
        .book
        .tell_connection(number, serial, Happened::Open);
    let ending = converse(
        context,
        producer,
        serial,
        &mut call.input,
        &mut call.output,
        &acceptor.mark.stop,
        buffers,
    );
    let how = how_it_ended(ending);
    producer.book.tell_connection(number, serial, how);
    is_torn(ending)
}

// The connection that was accepted is at hand while it is served. Whoever stops the house sets its mark first and then looks for what is
// at hand, so a thread has to look at the mark behind that.
fn attend<B: Naming, R: Wait, G: Gate, S: Notifier, L: Line>(
    context: &Context<'_, B, R, S>,
    producer: &mut Producer<'_, B, G, LogBook<'_, R>>,
    serial: u64,
    acceptor: &Acceptor<'_>,
    line: &L,
    call: &mut Call<L::Input, L::Output>,
    buffers: &mut Buffers,
) -> bool
    requires permits { AreInForce context.now.intake.now.directory
        context.now.intake.now.lanes.items producer.old.desk.number
        producer.old.desk.permits.items }
    requires receiver { IsReceiver context.now.channel.now producer.old.desk.receiver }
    requires lanes { context.now.intake.now.directory.shards
        ≡ length context.now.intake.now.lanes.items }
    requires host { length context.now.intake.now.host.items < 256 }
    requires room { 0 < length buffers.old.input.items }
    requires live { L.Output.failed call.old.output ≡ false }
    ensures permits { AreInForce context.now.intake.now.directory
        context.now.intake.now.lanes.items producer.old.desk.number
        producer.new.desk.permits.items }
    ensures receiver { IsReceiver context.now.channel.now producer.new.desk.receiver }
    ensures number { producer.new.desk.number ≡ producer.old.desk.number }
    ensures room { 0 < length buffers.new.input.items }
    ensures mail { result ≡ false → (before since after : Told)
        → Took before since (L.Input.remaining call.old.input)
        → IsUnwritten since (L.Output.taken call.old.output)
        → Closed since after (L.Output.taken call.new.output)
        (L.Output.failed call.new.output)
        → AreServed (premises_of context.now.intake.now) producer.old.desk.number before serial
        (received producer.old.desk.receiver) (map put_by producer.old.desk.permits.items)
        → AreServed (premises_of context.now.intake.now) producer.old.desk.number after (serial
        + 1) (received producer.new.desk.receiver) (map put_by producer.new.desk.permits.items) }
    ensures backed { KeepsBacked producer.old.desk producer.new.desk }
{
    if !line.hold(context.rt, acceptor.shutdown_handle, &call.input) {
        return false;
    }
    if acceptor.is_shut() {
        acceptor.shutdown_handle.clear(context.rt);
        return false;
    }
    acceptor.show(serial);
    let torn = serve_one(context, producer, serial, acceptor, call, buffers);
    acceptor.part(line, &call.input, buffers.input.as_mut_slice());
    acceptor.hide();
    acceptor.shutdown_handle.clear(context.rt);
    torn
}

// The same of the next connection that comes in at the line; and then it is over. None once the house stops.
fn attend_next<B: Naming, R: Wait, G: Gate, S: Notifier, L: Line>(
    context: &Context<'_, B, R, S>,
    producer: &mut Producer<'_, B, G, LogBook<'_, R>>,
    serial: u64,
    acceptor: &Acceptor<'_>,
    line: &mut L,
    buffers: &mut Buffers,
) -> Option<bool>
    requires permits { AreInForce context.now.intake.now.directory
        context.now.intake.now.lanes.items producer.old.desk.number
        producer.old.desk.permits.items }
    requires receiver { IsReceiver context.now.channel.now producer.old.desk.receiver }
    requires lanes { context.now.intake.now.directory.shards
        ≡ length context.now.intake.now.lanes.items }
    requires host { length context.now.intake.now.host.items < 256 }
    requires room { 0 < length buffers.old.input.items }
    ensures permits { AreInForce context.now.intake.now.directory
        context.now.intake.now.lanes.items producer.old.desk.number
        producer.new.desk.permits.items }
    ensures receiver { IsReceiver context.now.channel.now producer.new.desk.receiver }
    ensures number { producer.new.desk.number ≡ producer.old.desk.number }
    ensures room { 0 < length buffers.new.input.items }
    ensures none { result ≡ None → (producer.new ≡ producer.old)
        × (L.told line.new ≡ L.told line.old) }
    ensures mail { result ≡ Some false
        → AreServed (premises_of context.now.intake.now) producer.old.desk.number
        (L.told line.old) serial (received producer.old.desk.receiver)
        (map put_by producer.old.desk.permits.items)
        → AreServed (premises_of context.now.intake.now) producer.old.desk.number
        (L.told line.new) (serial + 1) (received producer.new.desk.receiver)
        (map put_by producer.new.desk.permits.items) }
    ensures backed { KeepsBacked producer.old.desk producer.new.desk }
{
    let mut call = acceptor.next(context.rt, line)?;
    let torn = attend(
        context, producer, serial, acceptor, line, &mut call, buffers,
    );
    let Call { input: _, output } = call;
    line.close(output);
    Some(torn)
}

// Serves one connection after another until the house stops, the first once all threads stand, each with the next serial, and answers whether a verdict came that it
// didn't await: then it serves nobody any more.
fn serve_all<B: Naming, R: Wait, G: Gate, S: Notifier, L: Line>(
    context: &Context<'_, B, R, S>,
    producer: &mut Producer<'_, B, G, LogBook<'_, R>>,
    acceptor: &Acceptor<'_>,
    line: &mut L,
    buffers: &mut Buffers,
) -> bool
    requires permits { AreInForce context.now.intake.now.directory
        context.now.intake.now.lanes.items producer.old.desk.number
        producer.old.desk.permits.items }
    requires receiver { IsReceiver context.now.channel.now producer.old.desk.receiver }
    requires lanes { context.now.intake.now.directory.shards
        ≡ length context.now.intake.now.lanes.items }
    requires host { length context.now.intake.now.host.items < 256 }
    requires room { 0 < length buffers.old.input.items }
    ensures permits { AreInForce context.now.intake.now.directory
        context.now.intake.now.lanes.items producer.old.desk.number
        producer.new.desk.permits.items }
    ensures receiver { IsReceiver context.now.channel.now producer.new.desk.receiver }
    ensures number { producer.new.desk.number ≡ producer.old.desk.number }
    ensures mail { result ≡ false
        → AreServed (premises_of context.now.intake.now) producer.old.desk.number
        (L.told line.old) 0 (received producer.old.desk.receiver)
        (map put_by producer.old.desk.permits.items)
        → (connections : ℕ)
        × AreServed (premises_of context.now.intake.now) producer.old.desk.number
        (L.told line.new) connections (received producer.new.desk.receiver)
        (map put_by producer.new.desk.permits.items) }
    ensures backed { KeepsBacked producer.old.desk producer.new.desk }
{
    acceptor.mark.await_start(context.rt);
    for serial in 0..u64::MAX {
        let Some(torn) = attend_next(context, producer, serial, acceptor, line, buffers) else {
            return false;
        };
        if torn {
            return true;
        }
    }
    false
}

/// A worker's whole life in a server: once all threads stand, one connection after another until the house stops, each with the worker's
/// number for its seat and with the next serial from 0 on; then its end on each lane, from shard 0 on. What it leaves has heard no end of
/// its channel: those come when all workers have ended. What becomes of the copies, and of the connections, is told to the acceptor's log.
///
/// `room`, which is empty, has room for what is left of each permit.
pub(crate) fn serve_until_stopped<B: Naming, R: Wait, G: Gate, S: Notifier, L: Line>(
    context: &Context<'_, B, R, S>,
    sync_point: SyncPoint<'_, G>,
    desk: Desk<B>,
    room: Vec<Ended<Letter<B>>>,
    acceptor: &Acceptor<'_>,
    outfit: Outfit<L>,
) -> Served<B, L>
    requires permits { AreInForce context.now.intake.now.directory
        context.now.intake.now.lanes.items desk.number
        desk.permits.items }
    requires receiver { IsReceiver context.now.channel.now desk.receiver }
    requires lanes { context.now.intake.now.directory.shards
        ≡ length context.now.intake.now.lanes.items }
    requires host { length context.now.intake.now.host.items < 256 }
    requires room { (room.items ≡ []) × (length context.now.intake.now.lanes.items
        ≤ vec_capacity room) }
    requires input { 0 < length outfit.buffers.input.items }
    requires fresh { IsFresh (L.told outfit.line) }
    ensures ended { AreEnded context.now.intake.now.lanes.items desk.number result.ended.items }
    ensures receiver { IsReceiver context.now.channel.now result.receiver }
    ensures mail { result.mail ≡ true }
    ensures served { All IsNew desk.permits.items → result.torn ≡ false
        → (line : L) × (result.line ≡ Some line)
        × HasServedMail (premises_of context.now.intake.now) desk.number (L.told line) (received
        result.receiver) (map said result.ended.items) }
    ensures backed { All IsNew desk.permits.items → received desk.receiver ≡ []
        → desk.dispatch.sent ≡ []
        → IsBackedBy desk.dispatch.number result.dispatch (received result.receiver)
        (map said result.ended.items) }
{
    desk.dispatch.is_kept();
    let Outfit {
        mut line,
        mut buffers,
    } = outfit;
    let book = LogBook::new(context.rt, context.alloc, acceptor.log, acceptor.names);
    let mut producer = Producer {
        sync_point,
        desk,
        book,
    };
    let torn = serve_all(context, &mut producer, acceptor, &mut line, &mut buffers);
    let Producer {
        mut sync_point,
        desk,
        book: _,
    } = producer;
    let Desk {
        number,
        permits,
        receiver,
        ends,
        dispatch,
    } = desk;
    let ended = end_all(
        context.rt,
        &mut sync_point,
        context.intake,
        context.notifier,
        number,
        permits,
        room,
    );
    Served {
        ended,
        receiver,
        ends,
        dispatch,
        torn,
        mail: true,
        line: Some(line),
    }
}
