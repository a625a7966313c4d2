//! One connection over a reader and a sink, from its greeting to its end. What is done with the bytes of
//! one read stands in `piece`, what is said last in `shutting`.

ghost use Rattle.std.specs.Prelude.{◌≡◌, ◌<◌, ◌≤◌, ◌∷◌, List, [], map, length, Err, IfOk, OnOk, false, max, true};
ghost use Rattle.lmtp_machine.specs.declared.reply.Reply.TheVariants.{Greeting};
ghost use Rattle.lmtp_machine.specs.Conversation.{opened};
ghost use Rattle.lmtp_machine.specs.LmtpMachine.{StandsFor};
ghost use Rattle.lmtp_machine.specs.Dialogue.{wire};
ghost use Rattle.shard_queue.specs.Reply.{IsReceiver, received};
ghost use Rattle.shard_queue.specs.Shared.{IsStartOf};
ghost use Rattle.lane_work.specs.Talk.{Judged};
ghost use Rattle.lane_work.specs.Permits.{AreInForce, put_by};
ghost use Rattle.lane_work.specs.Account.{AreBooks, setting_at, rooms_of};
ghost use Rattle.lane_work.specs.Backing.{KeepsBacked};
ghost use Rattle.lane_work.specs.Ends.{CountsEnds};
ghost use Rattle.lane_work.specs.Speaking.{Stands, premises_of};
ghost use Rattle.lane_work.specs.Streaming.{IsPlayed};

use crate::bells::Notifier;
use crate::desk::Intake;
use crate::outcome::{Ending, TalkFault};
use crate::piece::{Next, take_piece};
use crate::producer::{Context, Producer};
use crate::reading::{Buffers, read_piece, widen};
use crate::shutting::{give_up, shut_down};
use crate::verdict_log::VerdictLog;
use crate::worker::Stop;
use house_history::Naming;
use line_io::{Sink, send};
use lmtp_machine::{Limits, LmtpMachine};
use std::alloc::{AllocError, Global};
use std::io::Read;
use std::sync::Wait;
use std::sync::atomic::{AtomicBool, Ordering};
use workers_sync::Gate;

// A new connection of this worker, and its greeting in `out`, which is empty.
fn open<B: Naming>(
    alloc: Global,
    intake: &Intake<B>,
    seat: u8,
    serial: u64,
    out: &mut Vec<u8>,
) -> Result<LmtpMachine, AllocError>
    requires host { length intake.now.host.items < 256 }
    requires none { out.old.items ≡ [] }
    ensures setting { IfOk result (λ m.
        m.setting ≡ setting_at (premises_of intake.now) seat serial) }
    ensures host { IfOk result (λ m. m.host ≡ intake.now.host.items) }
    ensures quiet { IfOk result (λ m. m.pending ≡ []) }
    ensures stands { IfOk result (λ m. StandsFor m opened) }
    ensures greeted { IfOk result (λ m. out.new.items ≡ wire m.host (Greeting ∷ [])) }
{
    let limits = Limits {
        host: intake.host.as_slice(),
        max_message: intake.max_message,
        budget: &intake.budget,
    };
    let mut machine = LmtpMachine::new(alloc, seat, serial, limits)?;
    machine.greet(out)?;
    Ok(machine)
}

// Sends what was said, reads, and takes what came, over and over.
fn go_on<B: Naming, R: Wait, G: Gate, S: Notifier, N: VerdictLog, I: Read, O: Sink>(
    context: &Context<'_, B, R, S>,
    producer: &mut Producer<'_, B, G, N>,
    machine: &mut LmtpMachine,
    input: &mut I,
    output: &mut O,
    stop: &AtomicBool,
    buffers: &mut Buffers,
) -> Result<Ending, TalkFault>
    requires permits { AreInForce context.now.intake.now.directory
        context.now.intake.now.lanes.items producer.old.desk.number
        producer.old.desk.permits.items }
    requires receiver { IsReceiver context.now.channel.now producer.old.desk.receiver }
    requires lanes { context.now.intake.now.directory.shards
        ≡ length context.now.intake.now.lanes.items }
    requires quiet { machine.old.pending ≡ [] }
    requires host { machine.old.host ≡ context.now.intake.now.host.items }
    requires live { O.failed output.old ≡ false }
    requires room { 0 < length buffers.old.input.items }
    ensures permits { AreInForce context.now.intake.now.directory
        context.now.intake.now.lanes.items producer.old.desk.number
        producer.new.desk.permits.items }
    ensures receiver { IsReceiver context.now.channel.now producer.new.desk.receiver }
    ensures number { producer.new.desk.number ≡ producer.old.desk.number }
    ensures ends { CountsEnds producer.old.desk producer.new.desk }
    ensures grew { IsStartOf (received producer.old.desk.receiver) (received
        producer.new.desk.receiver) }
    ensures torn { result ≡ Err TalkFault.Torn
        → length (received producer.old.desk.receiver) < length (received
        producer.new.desk.receiver) }
    ensures owner { N.owner producer.new.book ≡ N.owner producer.old.book }
    ensures longer { length buffers.old.input.items ≤ length buffers.new.input.items }
    ensures most { length buffers.new.input.items
        ≤ max (length buffers.old.input.items) 131_072 }
    ensures live { OnOk result (O.failed output.new ≡ false) }
    ensures failed { result ≡ Err TalkFault.Write → O.failed output.new ≡ true }
    ensures played { (done : List Judged)
        → Stands context.now.intake.now.directory context.now.intake.now.directory
        (rooms_of context.now.intake.now.lanes.items) producer.old.desk.number done [] false
        machine.old buffers.old.output.items
        (N.tells producer.old.book) (received producer.old.desk.receiver)
        (map put_by producer.old.desk.permits.items)
        → IsPlayed (premises_of context.now.intake.now) machine.old.setting
        producer.old.desk.number done
        (I.remaining input.old) (I.remaining input.new)
        (O.taken output.old) (O.taken output.new) (O.failed output.new)
        (N.tells producer.new.book) (received producer.new.desk.receiver)
        (map put_by producer.new.desk.permits.items) result }
    ensures backed { KeepsBacked producer.old.desk producer.new.desk }
{
    for _ in context.rt.forever() {
        let Ok(()) = send(output, buffers.output.as_slice()) else {
            return Err(TalkFault::Write);
        };
        buffers.output.clear();
        if machine.has_ended() {
            return Ok(Ending::Quit);
        }
        let Ok(count) = read_piece(context.rt, input, &mut buffers.input) else {
            return Err(TalkFault::Read);
        };
        // Who stops the house shuts the side that is read, so that a peer's end may be the house's.
        if count == 0 && !stop.load(Ordering::SeqCst) {
            return Ok(Ending::Gone);
        }
        match take_piece(
            context,
            producer,
            machine,
            &buffers.input[..count],
            stop,
            &mut buffers.output,
        ) {
            Ok(Next::Read) => widen(count, &mut buffers.input),
            Ok(Next::Shut) => return shut_down(machine, output, &mut buffers.output),
            Err(Stop::NoMemory) => return Err(give_up(output, buffers.output.as_slice())),
            Err(Stop::Torn) => return Err(TalkFault::Torn),
        }
    }
    unreachable!()
}

/// Plays one connection of a worker over a stream, from the greeting to its end: what was said is sent,
/// bytes are read into `buffers.input` and taken turn by turn, over and over. Replies are collected in `buffers.output`, and
/// all that one read leads to are sent together. Both are lent by whoever calls it, to be used for
/// the next connection too. The first has one byte or more, and a read that fills it makes it twice as long, up to 131,072, unless memory is
/// refused; what the second has is dropped. The sink, which hasn't failed, is flushed by nobody here.
///
/// The messages that are submitted are put on the worker's lanes, and nothing behind a message is taken
/// before its verdicts were said (`lane_work`).
///
/// `stop` is looked at after each read, and behind each turn that submitted a message. Where it is set the
/// connection is shut: with `421 4.3.2 Shutting down` (RFC 5321, section 3.8), and within a message's data
/// with no word and no copy made. What is left of the bytes that were read is dropped.
///
/// Errors: `Read` where the reader fails, for another reason than that it was interrupted, and `Write` where
/// the sink fails; each message that was submitted by then has its verdicts. `NoMemory` where memory is
/// refused; what was said by then was offered to the sink, and no copy was put that has no verdict. `Torn`
/// where something came that was not awaited, a verdict or a shard's end; copies may be under way then.
pub fn converse<B: Naming, R: Wait, G: Gate, S: Notifier, N: VerdictLog, I: Read, O: Sink>(
    context: &Context<'_, B, R, S>,
    producer: &mut Producer<'_, B, G, N>,
    serial: u64,
    input: &mut I,
    output: &mut O,
    stop: &AtomicBool,
    buffers: &mut Buffers,
) -> Result<Ending, TalkFault>
    // The desk has its own permit on each lane, over only where the intake marks the shard as shut; its receiver is of `channel`.
    requires permits { AreInForce context.now.intake.now.directory
        context.now.intake.now.lanes.items producer.old.desk.number
        producer.old.desk.permits.items }
    requires receiver { IsReceiver context.now.channel.now producer.old.desk.receiver }
    requires lanes { context.now.intake.now.directory.shards
        ≡ length context.now.intake.now.lanes.items }
    requires host { length context.now.intake.now.host.items < 256 }
    requires live { O.failed output.old ≡ false }
    requires room { 0 < length buffers.old.input.items }

    // The same holds after, so that the next connection may follow; no end was counted that wasn't heard.
    ensures permits { AreInForce context.now.intake.now.directory
        context.now.intake.now.lanes.items producer.old.desk.number
        producer.new.desk.permits.items }
    ensures receiver { IsReceiver context.now.channel.now producer.new.desk.receiver }
    ensures number { producer.new.desk.number ≡ producer.old.desk.number }
    ensures ends { CountsEnds producer.old.desk producer.new.desk }

    // What was heard before stands in front of what was heard since; after `Torn` something was.
    ensures grew { IsStartOf (received producer.old.desk.receiver) (received
        producer.new.desk.receiver) }
    ensures torn { result ≡ Err TalkFault.Torn
        → length (received producer.old.desk.receiver) < length (received
        producer.new.desk.receiver) }

    // The book stays its owner's. The buffer for what comes doesn't get shorter, and grows to 131,072 bytes at most.
    ensures owner { N.owner producer.new.book ≡ N.owner producer.old.book }
    ensures longer { length buffers.old.input.items ≤ length buffers.new.input.items }
    ensures most { length buffers.new.input.items
        ≤ max (length buffers.old.input.items) 131_072 }

    // Without an error the sink hasn't failed; after `Write` it has.
    ensures live { OnOk result (O.failed output.new ≡ false) }
    ensures failed { result ≡ Err TalkFault.Write → O.failed output.new ≡ true }

    // If the books told of `done`: what was taken is a conversation, its replies were sent as `result` says, and, unless `Torn`, it is booked.
    ensures played { (done : List Judged)
        → AreBooks context.now.intake.now.directory (rooms_of context.now.intake.now.lanes.items)
        producer.old.desk.number done
        (N.tells producer.old.book) (received producer.old.desk.receiver)
        (map put_by producer.old.desk.permits.items)
        → IsPlayed (premises_of context.now.intake.now)
        (setting_at (premises_of context.now.intake.now) producer.old.desk.number serial)
        producer.old.desk.number done
        (I.remaining input.old) (I.remaining input.new) (O.taken output.old) (O.taken output.new)
        (O.failed output.new)
        (N.tells producer.new.book) (received producer.new.desk.receiver)
        (map put_by producer.new.desk.permits.items) result }

    // What the house's history had of all that the desk has put and heard, it has of what was put and heard since: so by `books_stand` each
    // copy of which the books tell Stored stands there, in the mailbox that its RCPT line named, with the text that came.
    ensures backed { KeepsBacked producer.old.desk producer.new.desk }
{
    buffers.output.clear();
    let Ok(mut machine) = open(
        context.alloc,
        context.intake,
        producer.desk.number,
        serial,
        &mut buffers.output,
    ) else {
        return Err(TalkFault::NoMemory);
    };
    go_on(
        context,
        producer,
        &mut machine,
        input,
        output,
        stop,
        buffers,
    )
}
