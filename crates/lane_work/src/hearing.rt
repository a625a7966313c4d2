//! The verdicts on a message are heard, until each is there. What is done with them stands in
//! `worker`.

ghost use Rattle.std.specs.Prelude.{◌≡◌, ◌<◌, ◌+◌, true, false, length, IfOk, OnOk, OnErr, slice_index_or};
ghost use Rattle.std.specs.List.{list_all};
ghost use Rattle.std.specs.Option.{is_some};
ghost use Rattle.shard_queue.specs.Reply.{IsReceiver, received};
ghost use Rattle.shard_queue.specs.Shared.{IsStartOf};
ghost use Rattle.lmtp_machine.specs.Calls.{submission_of};
ghost use Rattle.delivery_token.specs.Verdicts.{Fills, unknown};
ghost use Rattle.lane_work.specs.Account.{IsHeard, copies_of};
ghost use Rattle.lane_work.specs.Backing.{KeepsBacked};
ghost use Rattle.lane_work.specs.inner.Copies.{WereHeard};
ghost use Rattle.lane_work.specs.inner.Desk.{SameButReceiver};
ghost use Rattle.lane_work.specs.Awaiting.{verdicts_in};
ghost use Rattle.lane_work.specs.Ends.{CountsEnds, ends_in};
ghost use Rattle.lane_work.specs.Permits.{AreLive, overs};

use crate::bells::Notifier;
use crate::desk::{Desk, LanePermit};
use crate::producer::Context;
use delivery_token::{CopyKey, Verdict, Verdicts};
use house_history::{Letter, Naming};
use lmtp_machine::Submission;
use shard_queue::Entry;
use std::sync::Wait;
use workers_sync::{Gate, SyncPoint};

/// Something came that wasn't awaited, or not what was.
#[derive(Clone, Copy)]
pub(crate) struct Torn;

// Whether the permit on this shard's lane is over, so that the shard's end may come.
fn is_over_at<B: Naming>(permits: &[LanePermit<Letter<B>>], shard: u8) -> bool
    ensures { result ≡ slice_index_or (overs permits.now) shard false }
{
    match permits.get(usize::from(shard)) {
        Some(LanePermit::Over(_)) => true,
        _ => false,
    }
}

/// Hears verdicts until each of the message's is known; Torn where what comes isn't awaited. The end of
/// a shard on whose lane the permit is over is counted, and no more.
pub(crate) fn hear_all<B: Naming, R: Wait, G: Gate, S: Notifier>(
    context: &Context<'_, B, R, S>,
    sync_point: &mut SyncPoint<'_, G>,
    desk: &mut Desk<B>,
    message: &Submission,
    verdicts: &mut Verdicts,
) -> Result<(), Torn>
    requires { IsReceiver context.now.channel.now desk.old.receiver }
    ensures receiver { IsReceiver context.now.channel.now desk.new.receiver }
    ensures same { SameButReceiver desk.old desk.new }
    ensures ends { CountsEnds desk.old desk.new }

    // Only empty slots were filled, each with a verdict that was heard on its copy; what was heard before stands in front.
    ensures fills { Fills verdicts.old.slots verdicts.new.slots }
    ensures grew { IsStartOf (received desk.old.receiver) (received desk.new.receiver) }
    ensures heard { WereHeard (received desk.new.receiver) (copies_of (submission_of message.now))
        verdicts.old.slots verdicts.new.slots }

    // Without an error each slot is full, as many verdicts came as were unknown, and no end where no permit is over.
    ensures awaited { OnOk result (length (received desk.new.receiver)
        + ends_in (received desk.old.receiver)
        ≡ length (received desk.old.receiver) + unknown verdicts.old.slots
        + ends_in (received desk.new.receiver)) }
    ensures live { OnOk result (AreLive desk.old.permits.items
        → ends_in (received desk.new.receiver) ≡ ends_in (received desk.old.receiver)) }
    ensures known { OnOk result (list_all is_some verdicts.new.slots ≡ true) }

    // What the history had of the desk it has still, and what was heard as stored too.
    ensures backed { KeepsBacked desk.old desk.new }

    // After an error something was heard.
    ensures torn { OnErr result (length (received desk.old.receiver)
        < length (received desk.new.receiver)) }
{
    let keys = message.keys.as_slice();
    let mailboxes = message.mailboxes.as_slice();
    for _ in context.rt.forever() {
        if verdicts.are_known(keys.len()) {
            return Ok(());
        }
        sync_point.pass();
        match context.channel.recv_as(context.rt, &mut desk.receiver) {
            Entry::Item(_, answer) => {
                desk.dispatch.learn(&answer);
                if !verdicts.hear_awaited(keys, mailboxes, &answer.noted()) {
                    return Err(Torn);
                }
            }
            Entry::End(shard) => {
                desk.ends = desk.ends.saturating_add(1);
                if !is_over_at(desk.permits.as_slice(), shard) {
                    return Err(Torn);
                }
            }
        }
    }
    unreachable!()
}

/// Hears the verdict on the only copy that is under way; Torn where something else comes.
pub(crate) fn hear_one<B: Naming, R: Wait, G: Gate, S: Notifier>(
    context: &Context<'_, B, R, S>,
    sync_point: &mut SyncPoint<'_, G>,
    desk: &mut Desk<B>,
    key: CopyKey,
    mailbox: u8,
) -> Result<Verdict, Torn>
    requires { IsReceiver context.now.channel.now desk.old.receiver }
    ensures receiver { IsReceiver context.now.channel.now desk.new.receiver }
    ensures same { SameButReceiver desk.old desk.new }
    ensures ends { CountsEnds desk.old desk.new }

    // Without an error the verdict was heard, of just this key and mailbox; after one, something was heard.
    ensures grew { IsStartOf (received desk.old.receiver) (received desk.new.receiver) }
    ensures only { OnOk result (verdicts_in (received desk.new.receiver)
        ≡ verdicts_in (received desk.old.receiver) + 1) }
    ensures heard { IfOk result (λ verdict.
        IsHeard (received desk.new.receiver) (record {
          key = key;
          mailbox = mailbox;
          verdict = verdict;
        })) }
    ensures torn { OnErr result (length (received desk.old.receiver)
        < length (received desk.new.receiver)) }
    ensures backed { KeepsBacked desk.old desk.new }
{
    sync_point.pass();
    match context.channel.recv_as(context.rt, &mut desk.receiver) {
        Entry::Item(_, answer) => {
            desk.dispatch.learn(&answer);
            let noted = answer.noted();
            if noted.key != key {
                return Err(Torn);
            }
            if noted.mailbox != mailbox {
                return Err(Torn);
            }
            Ok(noted.verdict)
        }
        Entry::End(_) => {
            desk.ends = desk.ends.saturating_add(1);
            Err(Torn)
        }
    }
}
