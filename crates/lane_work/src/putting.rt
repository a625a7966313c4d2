//! A message's copies are put, each into the lane of its mailbox's shard. What is heard of them does
//! not belong here.

ghost use Rattle.std.specs.Prelude.{◌≡◌, ◌≤◌, ◌<◌, ◌+◌, ◌++◌, ◌∷◌, ◌||◌, ℕ, [], drop, length, map, Some, None, IfSome, MatchOption, true, false, not, ◌==◌, slice_get, slice_index_or, slice_set, vec_len};
ghost use Rattle.std.specs.List.{list_all};
ghost use Rattle.shard_queue.specs.declared.lane.Entry.TheVariants as entries;
ghost use Rattle.delivery_token.specs.declared.Refusal.TheVariants as refusals;
ghost use Rattle.delivery_token.specs.declared.Verdict.TheVariants as verdicts;
ghost use Rattle.shard_queue.specs.Permits.{IsProducer, sent, number_of};
ghost use Rattle.envelope.specs.Names.{shard_of};
ghost use Rattle.lmtp_machine.specs.Calls.{submission_of};
ghost use Rattle.lane_work.specs.Permits.{ArePermits, IsPermit, is_over, overs, permit_number, put_by};
ghost use Rattle.lane_work.specs.inner.Permits.{AreOpenTo};
ghost use Rattle.lane_work.specs.inner.Desk.{SameButPermits};
ghost use Rattle.delivery_token.specs.Verdicts.{unknown};
ghost use Rattle.lane_work.specs.Awaiting.{copies_in};
ghost use Rattle.lane_work.specs.Account.{FilledAlone, IsAtOnce, copies_of, room_at, room_of, rooms_of};
ghost use Rattle.lane_work.specs.Backing.{KeepsBacked};
ghost use Rattle.lane_work.specs.inner.Backing.{GoesOnWith};
ghost use Rattle.lane_work.specs.inner.Copies.{HavePut, WereTried};
ghost use Rattle.lane_work.specs.inner.Summoning.{is_last_at};

use crate::bells::Notifier;
use crate::desk::{Desk, Intake, LanePermit};
use crate::dispatch::Dispatch;
use crate::producer::Context;
use change_ring::{Flags, NO_FLAGS};
use delivery_token::{CopyKey, Job, Refusal, Text, Verdict, Verdicts};
use envelope::Directory;
use house_history::{Letter, Naming};
use lmtp_machine::Submission;
use shard_queue::{Full, ProducerPermit, ShardQueue};
use std::sync::Wait;
use workers_sync::{Gate, SyncPoint};

// A copy that is to be put, as its message lends it.
#[derive(Drop)]
struct Lent<'a> {
    key: CopyKey,
    mailbox: u8,
    text: &'a Text,
    flags: Flags,
}

// Notifies whoever takes this mailbox's copies.
fn notify_for<B: Naming, R: Wait, S: Notifier>(context: &Context<'_, B, R, S>, mailbox: u8) {
    let shard = context.intake.directory.shard_of(mailbox);
    context.notifier.notify(context.rt, shard);
}

// So often a copy is tried before it is refused for want of room: others may fill a short lane as soon as it was emptied.
const TRIES: u32 = 16;

// Puts a letter on a lane; where there is no room its consumer is notified, and it is tried again. None where it is under way, else it
// comes back.
fn put_letter<B: Naming, R: Wait, S: Notifier>(
    context: &Context<'_, B, R, S>,
    lane: &ShardQueue<Letter<B>>,
    permit: &mut ProducerPermit<Letter<B>>,
    mut letter: Letter<B>,
) -> Option<Letter<B>>
    requires { IsProducer lane.now permit.old }
    ensures permit { IsProducer lane.now permit.new
        × (number_of permit.new ≡ number_of permit.old) }
    ensures put { MatchOption result
        (sent permit.new ≡ sent permit.old ++ entries.Item (number_of permit.old) letter ∷ [])
        (λ back. (back ≡ letter) × (sent permit.new ≡ sent permit.old)
        × FilledAlone (room_of lane.now) (number_of permit.old) (sent permit.old)) }
{
    for _ in 1..TRIES {
        match lane.put_as(context.rt, permit, letter) {
            Ok(()) => return None,
            Err(Full(back)) => letter = back,
        }
        notify_for(context, letter.job().mailbox);
    }
    match lane.put_as(context.rt, permit, letter) {
        Ok(()) => None,
        Err(Full(back)) => Some(back),
    }
}

// Says that a copy is sent, and puts it on a lane: None where it is under way, else what is known of it at once. One that finds no room is
// taken back.
#[tactic(auto, using(crate::proofs::BackingLaws::kept_on, crate::proofs::BackingLaws::refused_on, crate::proofs::BackingLaws::put_on))]
fn put_on<B: Naming, R: Wait, S: Notifier>(
    context: &Context<'_, B, R, S>,
    lane: &ShardQueue<Letter<B>>,
    permit: &mut ProducerPermit<Letter<B>>,
    dispatch: &mut Dispatch<B>,
    copy: Lent<'_>,
) -> Option<Verdict>
    requires { IsProducer lane.now permit.old }
    ensures permit { IsProducer lane.now permit.new
        × (number_of permit.new ≡ number_of permit.old) }
    ensures put { MatchOption result
        (sent permit.new ≡ sent permit.old ++ entries.Item (number_of permit.old) (record {
          key = copy.entry.key;
          mailbox = copy.entry.mailbox;
          text = copy.entry.text.now;
          flags = copy.entry.flags;
        }) ∷ [])
        (λ v. (sent permit.new ≡ sent permit.old)
        × IsAtOnce (FilledAlone (room_of lane.now) (number_of permit.old) (sent permit.old)) v) }
    ensures backed { GoesOnWith dispatch.old dispatch.new (sent permit.old) (sent permit.new) }
{
    let Ok(text) = copy.text.copy() else {
        return Some(Verdict::Refused(Refusal::NoMemory));
    };
    let job = Job {
        key: copy.key,
        mailbox: copy.mailbox,
        text,
        flags: copy.flags,
    };
    let Ok(letter) = dispatch.send(job) else {
        return Some(Verdict::Refused(Refusal::NoMemory));
    };
    let Some(back) = put_letter(context, lane, permit, letter) else {
        return None;
    };
    dispatch.take_back(back);
    Some(Verdict::Refused(Refusal::Full))
}

// The same with a permit that may be over: there nothing is put, and the copy is refused at once.
fn put_at<B: Naming, R: Wait, S: Notifier>(
    context: &Context<'_, B, R, S>,
    lane: &ShardQueue<Letter<B>>,
    permit: &mut LanePermit<Letter<B>>,
    dispatch: &mut Dispatch<B>,
    copy: Lent<'_>,
) -> Option<Verdict>
    requires { IsPermit lane.now permit.old }
    ensures permit { IsPermit lane.now permit.new
        × (permit_number permit.new ≡ permit_number permit.old)
        × (is_over permit.new ≡ is_over permit.old) }
    ensures put { is_over permit.old ≡ false → MatchOption result
        (put_by permit.new ≡ put_by permit.old ++ entries.Item (permit_number permit.old) (record {
          key = copy.entry.key;
          mailbox = copy.entry.mailbox;
          text = copy.entry.text.now;
          flags = copy.entry.flags;
        }) ∷ [])
        (λ v. (put_by permit.new ≡ put_by permit.old)
        × IsAtOnce (FilledAlone (room_of lane.now) (permit_number permit.old) (put_by permit.old))
        v) }
    ensures over { is_over permit.old ≡ true
        → (result ≡ Some (verdicts.Refused refusals.Shut)) × (permit.new ≡ permit.old) }
    ensures backed { GoesOnWith dispatch.old dispatch.new (put_by permit.old) (put_by permit.new) }
{
    match permit {
        LanePermit::Live(live) => put_on(context, lane, live, dispatch, copy),
        LanePermit::Over(_) => Some(Verdict::Refused(Refusal::Shut)),
    }
}

// The same, at the lane of the copy's mailbox: where there is no room the consumer is notified, and the copy is tried again.
fn put_or_make_room<B: Naming, R: Wait, G: Gate, S: Notifier>(
    context: &Context<'_, B, R, S>,
    sync_point: &mut SyncPoint<'_, G>,
    desk: &mut Desk<B>,
    key: CopyKey,
    mailbox: u8,
    text: &Text,
    flags: Flags,
) -> Option<Verdict>
    requires permits { ArePermits context.now.intake.now.lanes.items desk.old.number
        desk.old.permits.items }
    requires lanes { context.now.intake.now.directory.shards
        ≡ length context.now.intake.now.lanes.items }
    ensures permits { ArePermits context.now.intake.now.lanes.items desk.old.number
        desk.new.permits.items }
    ensures same { SameButPermits desk.old desk.new }
    ensures within { shard_of context.now.intake.now.directory mailbox < length
        context.now.intake.now.lanes.items }

    // Where the mailbox's permit isn't over: just the copy was put, on its lane; or it is refused, for want of room or memory, and nothing put.
    ensures put { slice_index_or (overs desk.old.permits.items)
        (shard_of context.now.intake.now.directory mailbox) false ≡ false → MatchOption result
        (map put_by desk.new.permits.items
        ≡ slice_set (map put_by desk.old.permits.items) (shard_of context.now.intake.now.directory
        mailbox)
        (slice_index_or (map put_by desk.old.permits.items)
        (shard_of context.now.intake.now.directory mailbox)
        []
        ++ entries.Item desk.old.number (record {
          key = key;
          mailbox = mailbox;
          text = text.now;
          flags = flags;
        }) ∷ []))
        (λ v. (map put_by desk.new.permits.items ≡ map put_by desk.old.permits.items)
        × IsAtOnce (FilledAlone (room_at (rooms_of context.now.intake.now.lanes.items)
        (shard_of context.now.intake.now.directory mailbox)) desk.old.number
        (slice_index_or (map put_by desk.old.permits.items)
        (shard_of context.now.intake.now.directory mailbox)
        [])) v) }

    // Where it is over, the copy is refused as `Shut`, and nothing is put.
    ensures over { slice_index_or (overs desk.old.permits.items)
        (shard_of context.now.intake.now.directory mailbox) false ≡ true
        → (result ≡ Some (verdicts.Refused refusals.Shut))
        × (map put_by desk.new.permits.items ≡ map put_by desk.old.permits.items) }
    ensures backed { KeepsBacked desk.old desk.new }
{
    sync_point.pass();
    let shard = context.intake.directory.shard_of(mailbox);
    put_at(
        context,
        &context.intake.lanes[shard],
        &mut desk.permits[shard],
        &mut desk.dispatch,
        Lent {
            key,
            mailbox,
            text,
            flags,
        },
    )
}

/// The same, and the consumer is notified for it.
pub(crate) fn put_copy<B: Naming, R: Wait, G: Gate, S: Notifier>(
    context: &Context<'_, B, R, S>,
    sync_point: &mut SyncPoint<'_, G>,
    desk: &mut Desk<B>,
    key: CopyKey,
    mailbox: u8,
    text: &Text,
    flags: Flags,
) -> Option<Verdict>
    requires permits { ArePermits context.now.intake.now.lanes.items desk.old.number
        desk.old.permits.items }
    requires lanes { context.now.intake.now.directory.shards
        ≡ length context.now.intake.now.lanes.items }
    ensures permits { ArePermits context.now.intake.now.lanes.items desk.old.number
        desk.new.permits.items }
    ensures same { SameButPermits desk.old desk.new }
    ensures within { shard_of context.now.intake.now.directory mailbox < length
        context.now.intake.now.lanes.items }

    // Where the mailbox's permit isn't over: just the copy was put, on its lane; or it is refused, for want of room or memory, and nothing put.
    ensures put { slice_index_or (overs desk.old.permits.items)
        (shard_of context.now.intake.now.directory mailbox) false ≡ false → MatchOption result
        (map put_by desk.new.permits.items
        ≡ slice_set (map put_by desk.old.permits.items) (shard_of context.now.intake.now.directory
        mailbox)
        (slice_index_or (map put_by desk.old.permits.items)
        (shard_of context.now.intake.now.directory mailbox)
        []
        ++ entries.Item desk.old.number (record {
          key = key;
          mailbox = mailbox;
          text = text.now;
          flags = flags;
        }) ∷ []))
        (λ v. (map put_by desk.new.permits.items ≡ map put_by desk.old.permits.items)
        × IsAtOnce (FilledAlone (room_at (rooms_of context.now.intake.now.lanes.items)
        (shard_of context.now.intake.now.directory mailbox)) desk.old.number
        (slice_index_or (map put_by desk.old.permits.items)
        (shard_of context.now.intake.now.directory mailbox)
        [])) v) }

    // Where it is over, the copy is refused as `Shut`, and nothing is put.
    ensures over { slice_index_or (overs desk.old.permits.items)
        (shard_of context.now.intake.now.directory mailbox) false ≡ true
        → (result ≡ Some (verdicts.Refused refusals.Shut))
        × (map put_by desk.new.permits.items ≡ map put_by desk.old.permits.items) }
    ensures backed { KeepsBacked desk.old desk.new }
{
    let verdict = put_or_make_room(context, sync_point, desk, key, mailbox, text, flags);
    notify_for(context, mailbox);
    verdict
}

// So many shards a house has at most.
const MOST_SHARDS: usize = 8;

// Counts one copy more that waits on this shard's lane. Whether so many wait there as are put at once: then they are counted anew.
fn is_group_full(waiting: &mut [usize], shard: usize, at_once: usize) -> bool
    requires { 0 < at_once }
    ensures more { result ≡ false → (count : ℕ) → slice_get waiting.old shard ≡ Some count
        → (count + 1 < at_once) × (waiting.new ≡ slice_set waiting.old shard (count + 1)) }
    ensures full { result ≡ true → (count : ℕ) → slice_get waiting.old shard ≡ Some count
        → (at_once ≤ count + 1) × (waiting.new ≡ slice_set waiting.old shard 0) }
{
    if shard >= waiting.len() {
        return true;
    }
    let count = waiting[shard];
    if count < at_once - 1 {
        waiting[shard] = count + 1;
        return false;
    }
    waiting[shard] = 0;
    true
}

// Whether none of these mailboxes is this shard's.
fn has_none_at(directory: &Directory, shard: usize, mailboxes: &[u8]) -> bool
    ensures { result ≡ list_all (λ mailbox.
        not (shard_of directory.now mailbox == shard)) mailboxes.now }
{
    mailboxes
        .iter()
        .all(|mailbox| directory.shard_of(*mailbox) != shard)
}

// Whether a notification is due behind the copy at this position: as many wait on its lane as are put at once, or it is the last one for its shard.
fn is_due(directory: &Directory, is_full: bool, mailboxes: &[u8], position: usize) -> bool
    requires { position < length mailboxes.now }
    ensures { IfSome (slice_get mailboxes.now position) (λ mailbox.
        result ≡ is_full || is_last_at directory.now mailbox (drop (position + 1) mailboxes.now)) }
{
    let shard = directory.shard_of(mailboxes[position]);
    is_full || has_none_at(directory, shard, &mailboxes[position + 1..])
}

// Notifies whoever takes the copy at this position, where that is due. Of each shard it is counted how many copies wait on its lane.
fn notify_where_due<B: Naming, R: Wait, S: Notifier>(
    context: &Context<'_, B, R, S>,
    waiting: &mut [usize],
    mailboxes: &[u8],
    position: usize,
)
    requires { position < length mailboxes.now }
{
    let shard = context.intake.directory.shard_of(mailboxes[position]);
    let is_full = is_group_full(waiting, shard, context.notifier.at_once());
    if is_due(&context.intake.directory, is_full, mailboxes, position) {
        context.notifier.notify(context.rt, shard);
    }
}

/// Puts each copy of a message, in the order of its recipients; one for a lane on which the permit is over is refused as Shut. In `verdicts`, which
/// has room for as many as there are, is then of each what was known of it at once, or None where it is under way.
pub(crate) fn put_all<B: Naming, R: Wait, G: Gate, S: Notifier>(
    context: &Context<'_, B, R, S>,
    sync_point: &mut SyncPoint<'_, G>,
    desk: &mut Desk<B>,
    message: &Submission,
    verdicts: &mut Verdicts,
)
    requires permits { ArePermits context.now.intake.now.lanes.items desk.old.number
        desk.old.permits.items }
    requires lanes { context.now.intake.now.directory.shards
        ≡ length context.now.intake.now.lanes.items }
    requires mailboxes { vec_len message.now.mailboxes ≡ vec_len message.now.keys }
    requires slots { (verdicts.old.slots ≡ []) × (vec_len message.now.keys ≤ verdicts.old.most) }
    ensures permits { ArePermits context.now.intake.now.lanes.items desk.old.number
        desk.new.permits.items }
    ensures same { SameButPermits desk.old desk.new }
    ensures slots { length verdicts.new.slots ≡ vec_len message.now.keys }
    // So many copies were put as verdicts are unknown.
    ensures counts { copies_in (map put_by desk.new.permits.items)
        ≡ copies_in (map put_by desk.old.permits.items) + unknown verdicts.new.slots }
    // Where no permit is over that a copy is for.
    ensures tried { AreOpenTo context.now.intake.now.directory message.now.mailboxes.items
        desk.old.permits.items
        → WereTried context.now.intake.now.directory (rooms_of context.now.intake.now.lanes.items)
        desk.old.number
        (copies_of (submission_of message.now)) verdicts.new.slots
        (map put_by desk.old.permits.items) }
    ensures put { AreOpenTo context.now.intake.now.directory message.now.mailboxes.items
        desk.old.permits.items
        → HavePut context.now.intake.now.directory desk.old.number (copies_of (submission_of
        message.now))
        verdicts.new.slots (map put_by desk.old.permits.items)
        (map put_by desk.new.permits.items) }
    // What the history had of all that was put, it has of what is put now.
    ensures backed { KeepsBacked desk.old desk.new }
{
    let mut waiting = [0usize; MOST_SHARDS];
    for i in 0..message.keys.len() {
        let verdict = put_or_make_room(
            context,
            sync_point,
            desk,
            message.keys[i],
            message.mailboxes[i],
            &message.text,
            NO_FLAGS,
        );
        verdicts.note_put(verdict);
        notify_where_due(context, &mut waiting, &message.mailboxes, i);
    }
}
