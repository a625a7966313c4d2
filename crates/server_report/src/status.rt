//! One connection of whoever asks what a server is doing: its request is heard, and answered. Who accepts it, how long its peer has for each read,
//! and how it is closed, is told above.

ghost use Rattle.std.specs.Prelude.{◌≡◌, ◌≢◌, ℕ, List, Option, Some, true, ◌<◌, ◌≤◌, ◌+◌, ◌++◌, IfOk, IfErr, IfSome, IfNone, OnOk, OnErr, false, length, take, drop};
ghost use Rattle.std.specs.Io.KnownBytes.{Appends, Consumes, IsAtEnd, Keeps};
ghost use Rattle.httparse.specs.Grammar.{HasNoRequest};
ghost use Rattle.server_report.specs.Asking.{IsHeard, refusal};
ghost use Rattle.server_report.specs.Http.{IsToldFor, answer_text};

use crate::asking::{Answer, Front, Reply, read_request};
use crate::figures::Snapshot;
use crate::http::{no_memory, write_answer};
use line_io::{Sink, send};
use std::alloc::Global;
use std::io::{ErrorKind, Read};

/// So many bytes the head of a request may have: the room that is lent for it.
pub const HEAD_ROOM: usize = 8_192;

/// So many times the next bytes of a request are read. Whoever needs more is too slow.
pub const MOST_READS: usize = 8;

/// So many times a read is tried that is interrupted.
const MOST_TRIES: usize = 64;

/// A reader failed.
#[derive(Clone, Copy, Debug, PartialEq, Eq, Drop)]
pub struct ReadFault;

/// What was heard of a peer.
#[derive(Clone, Copy, Debug, PartialEq, Eq, Drop)]
pub struct Heard {
    /// How many bytes came.
    pub came: usize,
    /// What they are answered.
    pub reply: Reply,
}

/// An answer that was not sent to its end.
#[derive(Clone, Copy, Debug, PartialEq, Eq, Drop)]
pub struct Unsent {
    /// The answer that was told.
    pub told: Reply,
    /// How many of its bytes went out, fewer than all.
    pub sent: usize,
}

// Reads once, and answers how many bytes came: 0 at the stream's end. A read that is interrupted is tried again.
fn read_once<I: Read>(input: &mut I, buffer: &mut [u8]) -> Result<usize, ReadFault>
    requires { 0 < length buffer.old }
    ensures len { length buffer.new ≡ length buffer.old }
    ensures bound { IfOk result (λ n. n ≤ length buffer.new) }
    ensures came { IfOk result (λ n.
        Consumes (I.remaining input.old) (I.remaining input.new) (take n buffer.new)) }
    ensures end { IfOk result (λ n. n ≡ 0 → IsAtEnd (I.remaining input.new)) }
    ensures none { OnErr result (Keeps (I.remaining input.old) (I.remaining input.new)) }
{
    for _ in 0..MOST_TRIES {
        match input.read(buffer) {
            Ok(count) => return Ok(count),
            Err(e) => {
                if e.kind() != ErrorKind::Interrupted {
                    return Err(ReadFault);
                }
            }
        }
    }
    Err(ReadFault)
}

// Reads once behind so many bytes that came before.
fn read_behind<I: Read>(input: &mut I, buffer: &mut [u8], came: usize) -> Result<usize, ReadFault>
    requires { came < length buffer.old }
    ensures len { length buffer.new ≡ length buffer.old }
    ensures front { take came buffer.new ≡ take came buffer.old }
    ensures bound { IfOk result (λ n. came + n ≤ length buffer.new) }
    ensures came { IfOk result (λ n. Consumes (I.remaining input.old) (I.remaining input.new)
        (take n (drop came buffer.new))) }
    ensures end { IfOk result (λ n. n ≡ 0 → IsAtEnd (I.remaining input.new)) }
{
    read_once(input, &mut buffer[came..])
}

// An answer to what is no request.
fn refusal(answer: Answer) -> Reply
    ensures { result ≡ refusal answer }
{
    Reply {
        answer,
        has_body: true,
    }
}

// What is answered to so many bytes that came into a room, unless more are awaited; and whether the stream ended behind them.
fn judge(came: &[u8], room: usize, has_ended: bool) -> Option<Reply>
    ensures some { (left : Option (List ℕ)) → (has_ended ≡ true → IsAtEnd left)
        → IfSome result (IsHeard room left came.now) }
    ensures more { IfNone result (has_ended ≡ false) }
    ensures room { IfNone result (length came.now ≢ room) }
    ensures none { IfNone result (HasNoRequest came.now) }
{
    match read_request(came) {
        Front::Whole(reply) => return Some(reply),
        Front::Never => return Some(refusal(Answer::Unreadable)),
        Front::Crowded => return Some(refusal(Answer::TooLong)),
        Front::Unfinished => {}
    }
    if has_ended {
        return Some(refusal(Answer::Unreadable));
    }
    if came.len() == room {
        return Some(refusal(Answer::TooLong));
    }
    None
}

/// Hears what a peer asks for: its request is read into `buffer`, up to the end of its head, and no further than the read that brings it. The head
/// has to fit into `buffer`, which has room for a byte at least (`HEAD_ROOM`), and to come in `MOST_READS` reads at most.
///
/// What is answered: a request (`read_request`), or 400 to what is none, also where the stream ends before its head does, 431 where the head is too
/// long or has more than `MOST_FIELDS` fields, 408 where it comes in too many pieces.
///
/// Errors: `ReadFault` where the reader fails, or is interrupted again and again; there is nobody to answer then.
pub fn hear<I: Read>(input: &mut I, buffer: &mut [u8]) -> Result<Heard, ReadFault>
    requires { 0 < length buffer.old }
    // `buffer` stays as long as it was, and what came stands in front of it.
    ensures len { length buffer.new ≡ length buffer.old }
    ensures bound { IfOk result (λ heard. heard.came ≤ length buffer.new) }
    ensures came { IfOk result (λ heard.
        Consumes (I.remaining input.old) (I.remaining input.new) (take heard.came buffer.new)) }
    // What came is answered as HTTP has it.
    ensures heard { IfOk result (λ heard. IsHeard (length buffer.new) (I.remaining input.new)
        (take heard.came buffer.new) heard.reply) }
{
    let room = buffer.len();
    let mut came = 0;
    for _ in 0..MOST_READS {
        let count = read_behind(input, buffer, came)?;
        came += count;
        if let Some(reply) = judge(&buffer[..came], room, count == 0) {
            return Ok(Heard { came, reply });
        }
    }
    Ok(Heard {
        came,
        reply: refusal(Answer::TooSlow),
    })
}

/// Answers a peer. Where memory is refused it is told so (503), which takes none.
///
/// Errors: `Unsent` where the sink fails before it has all of the answer; it took exactly the first `sent` bytes of it.
pub fn tell<O: Sink>(
    alloc: Global,
    reply: Reply,
    snapshot: &Snapshot<'_>,
    output: &mut O,
) -> Result<Reply, Unsent>
    // The sink has not failed.
    requires { O.failed output.old ≡ false }
    // After Ok it took the whole answer, which was the one that was asked for, or that memory was refused; it has not failed.
    ensures ok { IfOk result (λ told. IsToldFor reply told) }
    ensures sent { IfOk result (λ told. Appends (O.taken output.old) (O.taken output.new)
        (answer_text snapshot.now told)) }
    ensures live { OnOk result (O.failed output.new ≡ false) }
    // After an error it took exactly the first `sent` bytes of such an answer, fewer than all, and has failed.
    ensures err { IfErr result (λ unsent. IsToldFor reply unsent.told) }
    ensures part { IfErr result (λ unsent. Appends (O.taken output.old) (O.taken output.new)
        (take unsent.sent (answer_text snapshot.now unsent.told))) }
    ensures fewer { IfErr result (λ unsent. unsent.sent
        < length (answer_text snapshot.now unsent.told)) }
    ensures failed { IfErr result (λ unsent. O.failed output.new ≡ true) }
{
    let Ok(text) = write_answer(alloc, reply, snapshot) else {
        let told = Reply {
            answer: Answer::NoMemory,
            has_body: reply.has_body,
        };
        return send_as(told, no_memory(reply.has_body), output);
    };
    send_as(reply, &text, output)
}

// Sends the bytes of an answer.
fn send_as<O: Sink>(told: Reply, text: &[u8], output: &mut O) -> Result<Reply, Unsent>
    requires { O.failed output.old ≡ false }
    ensures is { IfOk result (λ r. r ≡ told) }
    ensures sent { OnOk result (Appends (O.taken output.old) (O.taken output.new) text.now) }
    ensures live { OnOk result (O.failed output.new ≡ false) }
    ensures told { IfErr result (λ unsent. unsent.told ≡ told) }
    ensures part { IfErr result (λ unsent. Appends (O.taken output.old) (O.taken output.new)
        (take unsent.sent text.now)) }
    ensures fewer { IfErr result (λ unsent. unsent.sent < length text.now) }
    ensures failed { IfErr result (λ unsent. O.failed output.new ≡ true) }
{
    match send(output, text) {
        Ok(()) => Ok(told),
        Err(fault) => Err(Unsent {
            told,
            sent: fault.sent,
        }),
    }
}
