//! What a connection makes of a message: what its text begins with, the keys that are submitted, and a reply to each recipient. When a
//! message begins and is whole, and what it does to the connection, is for machine.rt.

ghost use Rattle.std.specs.Prelude.{◌≡◌, ◌+◌, ◌*◌, ◌++◌, [], ◌≤◌, ℕ, length, map, replicate, IfOk, None, vec_len, vec_capacity};
ghost use Rattle.dot_stuffing.specs.Unstuffing.{IsBehind, StandsFor};
ghost use Rattle.lmtp_machine.specs.Message.{return_path};
ghost use Rattle.lmtp_machine.specs.Dialogue.{wire, IsBrief, keys_from, verdict_reply, refusal_reply};

use crate::commands::{Commands, Stage};
use crate::reply::{BRIEF_ROOM, Reply, say};
use delivery_token::{CopyKey, Refusal, Verdict};
use dot_stuffing::Unstuffer;
use envelope::MOST_RECIPIENTS;
use std::alloc::{AllocError, Global};

/// The keys of a message's copies, one for each recipient.
///
/// Errors: `AllocError` where memory for them was refused.
pub fn keys_of(
    alloc: Global,
    seat: u8,
    serial: u64,
    message: u32,
    recipients: &[u8],
) -> Result<Vec<CopyKey>, AllocError>
    requires { length recipients.now ≤ MOST_RECIPIENTS }
    ensures { IfOk result (λ v. (most : ℕ)
        → v.items ≡ keys_from (record {
          seat = seat;
          serial = serial;
          max_message = most;
        }) message 0 recipients.now) }
{
    let mut keys = Vec::with_capacity(alloc, recipients.len())?;
    for i in 0..recipients.len() {
        keys.push_reserved(CopyKey {
            seat,
            serial,
            message,
            recipient: i as u8,
        });
    }
    Ok(keys)
}

/// Where DATA was accepted, what comes of the data is to stand behind the line that says who sent it (RFC 5321, section 4.4), and
/// only there is memory taken for it.
pub fn begin_data(commands: &Commands, unstuffer: &mut Unstuffer)
    // Where DATA was not accepted nothing has changed.
    ensures stays { (commands.now.stage ≡ Stage.Data → ⊥) → unstuffer.new ≡ unstuffer.old }
    // The most bytes of a text stay the same; an unstuffer at the start of data, without an outcome, is so still.
    ensures max { unstuffer.new.collected.max ≡ unstuffer.old.collected.max }
    ensures live { unstuffer.old.outcome ≡ None → unstuffer.new.outcome ≡ None }
    ensures stands { StandsFor unstuffer.old [] → StandsFor unstuffer.new [] }
    // Where it was accepted the text is to stand behind the Return-Path line, unless memory for that was refused.
    ensures behind { commands.now.stage ≡ Stage.Data
        → IsBehind unstuffer.new.collected (return_path commands.now.sender) }
{
    if let Stage::Data = commands.stage() {
        unstuffer.begin_behind(&[
            b"Return-Path: <".as_slice(),
            commands.sender(),
            b">\r\n".as_slice(),
        ]);
    }
}

fn refusal_reply(refusal: Refusal) -> Reply
    ensures value { result ≡ refusal_reply refusal }
    ensures brief { IsBrief result }
{
    match refusal {
        Refusal::Full => Reply::ShardFull,
        Refusal::MailboxFull => Reply::MailboxFull,
        Refusal::NoMemory => Reply::OutOfMemory,
        Refusal::UidSpent => Reply::NoUidLeft,
        Refusal::Shut => Reply::ShardClosed,
    }
}

fn verdict_reply(verdict: Verdict) -> Reply
    ensures value { result ≡ verdict_reply verdict }
    ensures brief { IsBrief result }
{
    match verdict {
        Verdict::Stored { .. } => Reply::Delivered,
        Verdict::Refused(refusal) => refusal_reply(refusal),
    }
}

/// Writes a reply to each recipient by the verdict on its copy, in room that was reserved.
#[tactic(auto, using(crate::proofs::Replies::answered_more))]
pub fn say_verdicts(out: &mut Vec<u8>, host: &[u8], verdicts: &[Verdict])
    requires { vec_len out.old + length verdicts.now * BRIEF_ROOM ≤ vec_capacity out.old }
    ensures { out.new.items ≡ out.old.items ++ wire host.now (map verdict_reply verdicts.now) }
{
    for verdict in verdicts {
        say(out, host, verdict_reply(*verdict));
    }
}

/// Writes the same reply to so many recipients, in room that was reserved.
#[tactic(auto, using(crate::proofs::Replies::told_more))]
pub fn say_to_each(out: &mut Vec<u8>, host: &[u8], reply: Reply, recipients: usize)
    // There is room for a brief reply a recipient.
    requires room { vec_len out.old + recipients * BRIEF_ROOM ≤ vec_capacity out.old }
    // The reply doesn't name the server.
    requires brief { IsBrief reply }
    ensures { out.new.items ≡ out.old.items ++ wire host.now (replicate recipients reply) }
{
    for told in 0..recipients {
        say(out, host, reply);
    }
}
