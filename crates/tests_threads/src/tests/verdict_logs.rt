//! What a worker's logs of verdicts keep, and that whoever is to take what waits on a lane is woken.

ghost use Rattle.std.specs.Prelude.{◌≡◌, IfOk, vec_len};

use crossbeam_utils::sync::Parker;
use delivery_token::{CopyKey, Refusal, Text, Verdict, WorkerLog};
use lane_work::{Notifier, Unkept, VerdictLog};
use lmtp_machine::Submission;
use std::alloc::{AllocError, Global};
use std::sync::Wait;
use std::sync::atomic::{AtomicBool, Ordering};
use std::thread;
use std::time::Duration;

fn key(recipient: u8) -> CopyKey {
    CopyKey {
        seat: 1,
        serial: 0,
        message: 0,
        recipient,
    }
}

// A message for the mailboxes 4 and 5.
fn message_for_two(alloc: Global) -> Result<Submission, AllocError>
    ensures { IfOk result (λ m. (vec_len m.keys ≡ 2) × (vec_len m.mailboxes ≡ 2)) }
{
    Ok(Submission {
        keys: Vec::from_slice(alloc, &[key(0), key(1)])?,
        mailboxes: Vec::from_slice(alloc, &[4, 5])?,
        text: Text::new(Vec::from_slice(alloc, b"hi\r\n")?)?,
    })
}

const VERDICTS: [Verdict; 2] = [Verdict::Stored { uid: 7 }, Verdict::Refused(Refusal::Full)];

// Notes a message's two verdicts.
fn note_two<N: VerdictLog>(book: &mut N, message: &Submission) -> Result<(), AllocError>
    requires { (vec_len message.now.keys ≡ 2) × (vec_len message.now.mailboxes ≡ 2) }
{
    book.reserve(VERDICTS.len())?;
    book.note_all(message, &VERDICTS);
    Ok(())
}

#[test]
fn a_log_keeps_each_verdict(rt: HostRuntime) -> Result<(), AllocError> {
    let alloc = rt.alloc();
    let message = message_for_two(alloc)?;
    let mut log = WorkerLog::new(alloc, 1);
    note_two(&mut log, &message)?;
    assert!(rt; log.stored_in(alloc, 4)?.as_slice() == &[(key(0), 7)][..]);
    assert!(rt; log.stored_in(alloc, 5)?.is_empty());
    Ok(())
}

#[test]
fn what_nobody_asks_for_is_not_kept(rt: HostRuntime) -> Result<(), AllocError> {
    let message = message_for_two(rt.alloc())?;
    let mut book = Unkept;
    note_two(&mut book, &message)?;
    assert!(rt; VerdictLog::reserve(&mut book, usize::MAX).is_ok());
    Ok(())
}

// Notifies whoever takes from a shard's lane.
fn call_for<R: Wait, S: Notifier>(rt: &R, notifier: &S, shard: usize) {
    notifier.notify(rt, shard);
}

// The thread would sleep for ever where its bell wasn't rung. It is rung behind the mark, and that of another shard isn't its own.
#[test]
fn the_bell_of_a_shard_is_rung(rt: HostRuntime) -> Result<(), AllocError> {
    let alloc = rt.alloc();
    let bell = Parker::new(alloc)?;
    let mut bells = Vec::new(alloc);
    bells.push(bell.unparker().clone()?)?;
    let mark = AtomicBool::new(false);
    let (runtime, marked) = (&rt, &mark);
    let (found, ()) = thread::join(
        &rt,
        move || {
            bell.park(runtime);
            marked.load(Ordering::SeqCst)
        },
        || {
            call_for(&rt, &bells, 1);
            thread::sleep(&rt, Duration::from_millis(50));
            mark.store(true, Ordering::SeqCst);
            call_for(&rt, &bells, 0);
        },
    );
    assert!(rt; found);
    Ok(())
}
