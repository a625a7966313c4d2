//! What the clients of a test write to, what is seen of them, and the gate that counts their events.

ghost use Rattle.std.specs.Prelude.{◌≡◌, false};

use imap_stream::{Wakes, Woken};
use line_io::Sink;
use std::io::{self, Read};
use std::sync::atomic::{AtomicU64, Ordering};
use std::sync::{Mutex, Wait};
use workers_sync::{Actor, Gate};

// A gate that counts how often it was asked: once for each event of the session.
#[derive(Drop)]
pub(crate) struct Tally {
    pub(crate) asked: AtomicU64,
}

impl Tally {
    pub(crate) fn new() -> Tally {
        Tally {
            asked: AtomicU64::new(0),
        }
    }
}

impl Gate for Tally {
    fn pass(&self, _who: Actor, _number: u64) {
        self.asked.fetch_add(1, Ordering::SeqCst);
    }
}

// A client that a read finds at once, whatever its session does.
#[derive(Drop)]
pub(crate) struct Prompt<'i, I> {
    pub(crate) input: &'i mut I,
}

impl<I: Read> Read for Prompt<'_, I> {
    fn read(&mut self, buf: &mut [u8]) -> io::Result<usize> {
        self.input.read(buf)
    }
}

impl<I: Read> Wakes for Prompt<'_, I> {
    fn wait(&mut self) -> Woken {
        Woken::Peer
    }
}

// Takes what it is offered, and fails once its calls are used up. A struct with a `&mut` couldn't be handed on to
// the visit, so the bytes stand under a lock.
#[derive(Drop)]
pub(crate) struct Wire<'a, R: Wait> {
    rt: &'a R,
    bytes: &'a Mutex<Vec<u8>>,
    calls: usize,
    pub(crate) has_failed: bool,
}

impl<'a, R: Wait> Wire<'a, R> {
    pub(crate) fn new(rt: &'a R, bytes: &'a Mutex<Vec<u8>>, calls: usize) -> Wire<'a, R>
        ensures { result.has_failed ≡ false }
    {
        Wire {
            rt,
            bytes,
            calls,
            has_failed: false,
        }
    }
}

impl<R: Wait> Sink for Wire<'_, R> {
    ghost failed = { λ s. s.has_failed };

    fn offer(&mut self, bytes: &[u8]) -> Option<usize> {
        if self.calls == 0 || !keep(self.rt, self.bytes, bytes) {
            self.has_failed = true;
            return None;
        }
        self.calls -= 1;
        Some(bytes.len())
    }
}

fn keep<R: Wait>(rt: &R, all: &Mutex<Vec<u8>>, bytes: &[u8]) -> bool {
    all.lock(rt).extend_from_slice(bytes).is_ok()
}
