//! What becomes of one copy that a consumer took: it is delivered under its mailbox's lock, which is
//! held for that alone, and its producer is told. Which copy is taken next does not belong here.

ghost use Rattle.std.specs.Prelude.{◌≡◌, ◌++◌, ◌∷◌, [], length, map};
ghost use Rattle.delivery_token.specs.declared.Refusal.TheVariants as refusals;
ghost use Rattle.delivery_token.specs.declared.Verdict.TheVariants as verdicts;
ghost use Rattle.shard_queue.specs.declared.lane.Entry.TheVariants as entries;
ghost use Rattle.shard_queue.specs.Reply.{IsSender, sender_number, sent_on};
ghost use Rattle.lane_work.specs.Permits.{AreSenders};
ghost use Rattle.lane_work.specs.Answering.{IsVerdict, Serves, is_ours};
ghost use Rattle.locked_mailbox.specs.Locking.{Answers, InOneHold};

use crate::bells::ring_sessions;
use crate::consumer::Delivery;
use delivery_token::{Noted, Refusal, Verdict};
use house_history::{Answer, Letter, Naming};
use locked_mailbox::{LockedMailbox, under};
use shard_queue::{Full, ReplyChannel, SenderPermit};
use std::sync::{Mutex, Wait};
use std::thread;
use workers_sync::{Gate, SyncPoint};

// Delivers a copy to the mailbox that is found under a lock: one hold.
fn deliver_under<B: Naming, R: Wait>(
    rt: &R,
    lock: &Mutex<LockedMailbox<B>>,
    letter: Letter<B>,
) -> Answer<B>
    ensures copy { (result.key ≡ letter.key) × (result.mailbox ≡ letter.mailbox) }
    ensures answers { InOneHold (Answers letter result.verdict) }
{
    under(
        rt,
        lock,
        move |locked: &mut LockedMailbox<B>| -> Answer<B>
            ensures copy { (result.key ≡ letter.key) × (result.mailbox ≡ letter.mailbox) }
            ensures answers { Answers letter result.verdict locked.old locked.new }
        { locked.deliver(letter) },
    )
}

// What is noted of a copy whose mailbox isn't there: it is refused, and withdrawn.
fn refused<B: Naming>(delivery: &Delivery<B>, letter: Letter<B>) -> Answer<B>
    ensures { result ≡ record {
      key = letter.key;
      mailbox = letter.mailbox;
      verdict = verdicts.Refused refusals.NoMemory;
    } }
{
    let (job, ticket) = letter.open();
    let noted = Noted {
        key: job.key,
        mailbox: job.mailbox,
        verdict: Verdict::Refused(Refusal::NoMemory),
    };
    Answer::withdrawn(noted, ticket, delivery.front.again())
}

// What is noted of a copy: what its mailbox answers, where that is there.
fn judge<B: Naming, R: Wait>(rt: &R, delivery: &Delivery<B>, letter: Letter<B>) -> Answer<B>
    ensures copy { (result.key ≡ letter.key) × (result.mailbox ≡ letter.mailbox) }
    ensures verdict { IsVerdict (length delivery.now.mailboxes.items) letter result.verdict }
{
    match delivery.mailboxes.get(usize::from(letter.job().mailbox)) {
        Some(lock) => deliver_under(rt, lock, letter),
        None => refused(delivery, letter),
    }
}

// Wakes the sessions that have something to see.
fn tell_sessions<B: Naming>(delivery: &Delivery<B>, noted: &Noted) {
    if let Verdict::Stored { uid: _ } = noted.verdict {
        ring_sessions(&delivery.sessions, noted.mailbox);
    }
}

// Tells what is noted of a copy on a channel; where the channel is full, it tries again until there is room.
fn tell<B: Naming, R: Wait, G: Gate>(
    rt: &R,
    sync_point: &mut SyncPoint<'_, G>,
    channel: &ReplyChannel<Answer<B>>,
    permit: &mut SenderPermit<Answer<B>>,
    mut answer: Answer<B>,
)
    requires { IsSender channel.now permit.old }
    ensures permit { IsSender channel.now permit.new
        × (sender_number permit.new ≡ sender_number permit.old) }
    ensures sent { sent_on permit.new
        ≡ sent_on permit.old ++ entries.Item (sender_number permit.old) answer ∷ [] }
{
    for _ in rt.forever() {
        sync_point.pass();
        match channel.put_as(rt, permit, answer) {
            Ok(()) => return,
            Err(Full(back)) => answer = back,
        }
        thread::yield_now();
    }
    unreachable!()
}

/// What becomes of one copy: it is delivered, and its producer is told. Whether it was a copy of this
/// house: of a producer that has a channel, and for a mailbox that is there. One of a producer without a
/// channel isn't delivered. One whose mailbox isn't there, or isn't the one that is found under its lock,
/// or that doesn't stand above all that this mailbox had of its seat, is refused as NoMemory.
pub fn serve_copy<B: Naming, R: Wait, G: Gate>(
    rt: &R,
    sync_point: &mut SyncPoint<'_, G>,
    delivery: &Delivery<B>,
    shard: u8,
    senders: &mut Vec<SenderPermit<Answer<B>>>,
    producer: u8,
    letter: Letter<B>,
) -> bool
    // There is a sender's permit on each channel, of this shard's number.
    requires senders { AreSenders delivery.now.channels.items shard senders.old.items }
    ensures senders { AreSenders delivery.now.channels.items shard senders.new.items }

    // `true` is said of just the copies whose producer has a channel and whose mailbox is there.
    ensures known { result ≡ is_ours (length delivery.now.mailboxes.items)
        (length delivery.now.channels.items) producer letter }

    // Its producer was told one verdict on it (a refusal, where its mailbox wasn't found), and nobody else anything; without a channel nobody was.
    ensures served { Serves (length delivery.now.mailboxes.items)
        (length delivery.now.channels.items)
        shard producer letter
        (map sent_on senders.old.items) (map sent_on senders.new.items) }
{
    let position = usize::from(producer);
    if position >= delivery.channels.len() {
        return false;
    }
    sync_point.pass();
    let is_there = usize::from(letter.job().mailbox) < delivery.mailboxes.len();
    let answer = judge(rt, delivery, letter);
    tell_sessions(delivery, &answer.noted());
    tell(
        rt,
        sync_point,
        &delivery.channels[position],
        &mut senders[position],
        answer,
    );
    is_there
}
