//! One mailbox after another, each compared as a whole. How its lists are gone over does not belong
//! here.

ghost use Rattle.std.specs.Prelude.{◌≤◌, ◌↔◌, IfOk, IsTrue, length, map};
ghost use Rattle.running_house.specs.Lists.{ListsAgree};
ghost use Rattle.running_house.specs.ListOrder.{AreInOrder};
ghost use Rattle.running_house.specs.Walk.{ListsMet, MailboxMet};

use crate::there::{are_met, is_each_there};
use crate::told::are_told;
use delivery_token::{CopyKey, Job, Text, WorkerLog};
use envelope::Directory;
use std::alloc::{AllocError, Global};

/// Whether the lists of one mailbox agree, where `copies` were taken from its shard's lane.
fn mailbox_agrees(
    alloc: Global,
    whole: bool,
    logs: &[WorkerLog],
    copies: &[Job],
    mailbox: u8,
    accepted: &[(CopyKey, u32)],
    texts: &[(u32, Text)],
) -> Result<bool, AllocError>
    ensures { IfOk result (λ agrees. IsTrue agrees
        ↔ MailboxMet whole (map (λ l.
        l.notes) logs.now) copies.now mailbox accepted.now texts.now) }
{
    if !are_told(alloc, logs, mailbox, accepted)? {
        return Ok(false);
    }
    if whole && !is_each_there(accepted, texts) {
        return Ok(false);
    }
    Ok(are_met(mailbox, accepted, copies, texts))
}

/// Whether the lists that a run left agree: `logs` by worker, the `copies` that were taken from each
/// shard's lane, and for each mailbox of `directory` the keys and UIDs that it `accepted` and the
/// UIDs and `texts` of the messages that are there. `whole` says that nobody could have removed a
/// message.
///
/// It is false also where each text is right but the messages do not stand in the order in which
/// their copies were taken: then the house did not deliver in the lane's order. The only error is
/// that memory is refused for one worker's keys in one mailbox; nothing is changed in any case.
pub fn lists_agree(
    alloc: Global,
    directory: &Directory,
    whole: bool,
    logs: &[WorkerLog],
    copies: &[Vec<Job>],
    accepted: &[Vec<(CopyKey, u32)>],
    texts: &[Vec<(u32, Text)>],
) -> Result<bool, AllocError>
    // There is a list of copies for each shard.
    requires { directory.now.shards ≤ length copies.now }

    // Where `true` is answered the lists agree.
    ensures agrees { IfOk result (λ agrees. IsTrue agrees
        → ListsAgree directory.now whole (map (λ l. l.notes) logs.now)
        (map (λ c. c.items) copies.now) (map (λ a. a.items) accepted.now) (map (λ t.
        t.items) texts.now)) }

    // Where they agree, and stand in the order of a house that did its work, `true` is answered.
    ensures found { IfOk result (λ agrees.
        AreInOrder directory.now (map (λ c. c.items) copies.now) (map (λ a. a.items) accepted.now)
        (map (λ t. t.items) texts.now)
        → ListsAgree directory.now whole (map (λ l. l.notes) logs.now) (map (λ c.
        c.items) copies.now)
        (map (λ a. a.items) accepted.now) (map (λ t. t.items) texts.now)
        → IsTrue agrees) }

    // In whatever order: `true` just where the logs tell what was accepted, and each message is met with its copy, one behind the other.
    ensures exact { IfOk result (λ agrees. IsTrue agrees
        ↔ ListsMet directory.now whole (map (λ l. l.notes) logs.now)
        (map (λ c. c.items) copies.now) (map (λ a. a.items) accepted.now) (map (λ t.
        t.items) texts.now)) }
{
    let mailboxes = directory.mailboxes();
    if accepted.len() != mailboxes || texts.len() != mailboxes {
        return Ok(false);
    }
    for position in 0..mailboxes {
        let mailbox = position as u8;
        let shard = directory.shard_of(mailbox);
        if !mailbox_agrees(
            alloc,
            whole,
            logs,
            copies[shard].as_slice(),
            mailbox,
            accepted[position].as_slice(),
            texts[position].as_slice(),
        )? {
            return Ok(false);
        }
    }
    Ok(true)
}
