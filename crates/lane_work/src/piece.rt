//! The bytes of one read, taken turn by turn until they are used up, the dialogue has ended or the house
//! stops. What a turn does stands in `lane_work`.

ghost use Rattle.std.specs.Prelude.{◌≡◌, ◌<◌, ◌++◌, ℕ, List, [], map, length, false, Err, IfOk, OnOk};
ghost use Rattle.shard_queue.specs.Reply.{IsReceiver, received};
ghost use Rattle.shard_queue.specs.Shared.{IsStartOf};
ghost use Rattle.lane_work.specs.Talk.{Judged};
ghost use Rattle.lane_work.specs.Permits.{AreInForce, put_by};
ghost use Rattle.lane_work.specs.Backing.{KeepsBacked};
ghost use Rattle.lane_work.specs.Ends.{CountsEnds};
ghost use Rattle.lane_work.specs.Speaking.{Stands};
ghost use Rattle.lane_work.specs.Account.{rooms_of};
ghost use Rattle.lane_work.specs.inner.Pieces.{TookPiece, SaidByThen};

use crate::bells::Notifier;
use crate::producer::{Context, Producer};
use crate::verdict_log::VerdictLog;
use crate::worker::{Stop, turn};
use house_history::Naming;
use lmtp_machine::{LmtpMachine, What};
use std::sync::Wait;
use std::sync::atomic::{AtomicBool, Ordering};
use workers_sync::Gate;

// What is to be done behind a piece, once its replies are sent.
#[derive(Clone, Copy, Debug, PartialEq, Eq)]
pub(crate) enum Next {
    // The next bytes may be read, where the dialogue hasn't ended.
    Read,
    // The house stops: the connection is to be shut, and what is left of the piece is dropped.
    Shut,
}

// Takes a piece turn by turn. `stop` is looked at before the first turn, and behind each that submitted a message.
pub(crate) fn take_piece<B: Naming, R: Wait, G: Gate, S: Notifier, N: VerdictLog>(
    context: &Context<'_, B, R, S>,
    producer: &mut Producer<'_, B, G, N>,
    machine: &mut LmtpMachine,
    piece: &[u8],
    stop: &AtomicBool,
    out: &mut Vec<u8>,
) -> Result<Next, Stop>
    // The desk has its own permit on each lane, over only where the intake marks the shard as shut; its receiver is of `channel`.
    requires permits { AreInForce context.now.intake.now.directory
        context.now.intake.now.lanes.items producer.old.desk.number
        producer.old.desk.permits.items }
    requires receiver { IsReceiver context.now.channel.now producer.old.desk.receiver }
    requires lanes { context.now.intake.now.directory.shards
        ≡ length context.now.intake.now.lanes.items }

    // No message of the connection waits for its verdicts.
    requires quiet { machine.old.pending ≡ [] }

    // The same holds after; no end was counted that wasn't heard.
    ensures permits { AreInForce context.now.intake.now.directory
        context.now.intake.now.lanes.items producer.old.desk.number
        producer.new.desk.permits.items }
    ensures receiver { IsReceiver context.now.channel.now producer.new.desk.receiver }
    ensures number { producer.new.desk.number ≡ producer.old.desk.number }
    ensures ends { CountsEnds producer.old.desk producer.new.desk }

    // What was heard before stands in front of what was heard since; after `Torn` something was.
    ensures grew { IsStartOf (received producer.old.desk.receiver) (received
        producer.new.desk.receiver) }
    ensures torn { result ≡ Err Stop.Torn
        → length (received producer.old.desk.receiver) < length (received
        producer.new.desk.receiver) }

    // The book stays its owner's; without an error no message waits, and the connection's setting and host are the same.
    ensures owner { N.owner producer.new.book ≡ N.owner producer.old.book }
    ensures quiet { OnOk result (machine.new.pending ≡ []) }
    ensures same { OnOk result ((machine.new.setting ≡ machine.old.setting)
        × (machine.new.host ≡ machine.old.host)) }

    // Without an error: as it stood for `bytes`, so it does with a front of the piece, which is all of it at `Read` unless the dialogue ended.
    ensures took { IfOk result (λ next. (done : List Judged) (bytes told : List ℕ)
        → Stands context.now.intake.now.directory context.now.intake.now.directory (rooms_of
        context.now.intake.now.lanes.items)
        producer.old.desk.number done bytes false machine.old (told
        ++ out.old.items) (N.tells producer.old.book) (received producer.old.desk.receiver)
        (map put_by producer.old.desk.permits.items)
        → TookPiece context.now.intake.now.directory (rooms_of context.now.intake.now.lanes.items)
        producer.old.desk.number done
        bytes piece.now next machine.new (told
        ++ out.new.items) (N.tells producer.new.book) (received producer.new.desk.receiver)
        (map put_by producer.new.desk.permits.items)) }

    // After `NoMemory`: `told`, then `out`, is the replies to `bytes` and a front of the piece, whose messages are in the books.
    ensures no_memory { result ≡ Err Stop.NoMemory → (done : List Judged) (bytes told : List ℕ)
        → Stands context.now.intake.now.directory context.now.intake.now.directory (rooms_of
        context.now.intake.now.lanes.items)
        producer.old.desk.number done bytes false machine.old (told
        ++ out.old.items) (N.tells producer.old.book) (received producer.old.desk.receiver)
        (map put_by producer.old.desk.permits.items)
        → SaidByThen machine.old.setting machine.old.host context.now.intake.now.directory
        (rooms_of context.now.intake.now.lanes.items) producer.old.desk.number done bytes piece.now
        (told
        ++ out.new.items) (N.tells producer.new.book)
        (received producer.new.desk.receiver) (map put_by producer.new.desk.permits.items) }
    ensures backed { KeepsBacked producer.old.desk producer.new.desk }
{
    if stop.load(Ordering::SeqCst) {
        return Ok(Next::Shut);
    }
    let mut used = 0;
    while used < piece.len() {
        let said = out.len();
        let fed = match turn(
            context,
            producer,
            &context.intake.directory,
            machine,
            &piece[used..],
            out,
        ) {
            Ok(fed) => fed,
            Err(why) => {
                out.truncate(said);
                return Err(why);
            }
        };
        used += fed.used;
        match fed.what {
            What::More => {}
            What::Quit => return Ok(Next::Read),
            What::Submit => {
                if stop.load(Ordering::SeqCst) {
                    return Ok(Next::Shut);
                }
            }
        }
    }
    Ok(Next::Read)
}
