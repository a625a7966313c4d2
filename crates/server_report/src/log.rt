//! The log of a server: lines that wait to be written, and what was counted. Whoever has a line puts it here, under a lock that is held for
//! a copy of bytes, and never waits for the error stream. Who writes the lines stands in `scribe`.

ghost use Rattle.std.specs.Prelude.{◌≡◌, ◌≤◌, ◌<◌, ◌+◌, ◌++◌, [], false, true, length, vec_capacity, vec_len};
ghost use Rattle.server_report.specs.Counting.{more, no_counts};

use crate::counts::Counts;
use crate::line::{Caller, Happened, append_call};
use crate::nap::Nap;
use delivery_token::Verdict;
use line_io::put;
use std::alloc::{AllocError, Global};
use std::net::Net;
use std::sync::atomic::{AtomicBool, Ordering};
use std::sync::{Mutex, Wait};
use std::{io, mem};

/// So many bytes of lines may wait to be written.
pub const LOG_ROOM: usize = 65_536;

/// What a server keeps of what happens.
#[derive(Clone, Copy, Debug, PartialEq, Eq)]
pub enum Keeps {
    /// Nothing.
    Nothing,
    /// How many there were of each thing.
    Counts,
    /// That, and a line for each thing.
    Lines,
}

// Lines that wait to be written, and what was counted.
#[derive(Drop)]
struct Lines {
    // They never take more room than there is from the start.
    bytes: Vec<u8>,
    // How many had no room since those were begun.
    lost: u64,
    // Whether whoever writes them was woken since.
    is_woken: bool,
    counts: Counts,
    // What the server held, from its end on.
    held: Held,
}

impl Lines {
    // No line, in this room, which is empty.
    fn new(bytes: Vec<u8>) -> Lines
        ensures bytes { result.bytes ≡ bytes }
        ensures counts { (result.counts ≡ no_counts) × (result.lost ≡ 0) }
    {
        Lines {
            bytes,
            lost: 0,
            is_woken: false,
            counts: Counts::new(),
            held: Held {
                bytes: 0,
                longest_lane: 0,
            },
        }
    }

    // So many lines had no room.
    fn lose(&mut self, lines: u64)
        ensures { self.new ≡ record self.old {
          lost = more lines self.old.lost;
          counts = record self.old.counts { lost = more lines self.old.counts.lost };
        } }
    {
        self.lost = self.lost.saturating_add(lines);
        self.counts.add_lost(lines);
    }

    // Puts so many lines behind those that wait, where there is room for them, all or none. It takes no memory.
    fn add(&mut self, text: &[u8], lines: u64)
        // Where they fit they stand behind those that wait, and none is lost.
        ensures fits { vec_len self.old.bytes + length text.now ≤ vec_capacity self.old.bytes
            → (self.new.bytes.items ≡ self.old.bytes.items ++ text.now)
            × (self.new.lost ≡ self.old.lost) × (self.new.counts ≡ self.old.counts) }
        // Where they don't, they are counted as lost, and those that wait are as they were.
        ensures full { vec_capacity self.old.bytes < vec_len self.old.bytes + length text.now
            → (self.new.bytes ≡ self.old.bytes) × (self.new.lost ≡ more lines self.old.lost)
            × (self.new.counts ≡ record self.old.counts
            { lost = more lines self.old.counts.lost }) }
    {
        if self.bytes.capacity() - self.bytes.len() < text.len() {
            self.lose(lines);
            return;
        }
        put(text, &mut self.bytes);
    }

    // Whether whoever writes them is to be woken: once the half of the room is taken, and once for each time that they are taken out.
    fn is_to_wake(&mut self) -> bool
        ensures { self.new ≡ record self.old { is_woken = self.new.is_woken } }
    {
        if self.is_woken || self.bytes.len() < self.bytes.capacity() / 2 {
            return false;
        }
        self.is_woken = true;
        true
    }

    // Takes out what waits, and leaves this room in its place. Answers how many lines had no room since the last time.
    fn exchange(&mut self, room: &mut Vec<u8>) -> u64
        ensures lines { (room.new ≡ self.old.bytes) × (self.new.bytes ≡ room.old) }
        ensures lost { (result ≡ self.old.lost) × (self.new.lost ≡ 0) }
        ensures counts { self.new.counts ≡ self.old.counts }
    {
        mem::swap(&mut self.bytes, room);
        self.is_woken = false;
        mem::replace(&mut self.lost, 0)
    }
}

/// What a server held.
#[derive(Clone, Copy, Debug, PartialEq, Eq)]
pub struct Held {
    /// How many bytes the mailboxes hold at the end.
    pub bytes: u64,
    /// The most copies that were taken of one lane in a row, before it was found empty.
    pub longest_lane: u64,
}

/// What is told at a server's end.
#[derive(Clone, Copy, Debug, PartialEq, Eq)]
pub struct Summary {
    /// What was counted.
    pub counts: Counts,
    /// What it held.
    pub held: Held,
}

/// What happened in a server, for those who write it down or show it.
#[derive(Drop)]
pub struct Log {
    keeps: Keeps,
    lines: Mutex<Lines>,
    // For whoever writes lines, where any are kept.
    nap: Option<Nap>,
    // Set when nothing more happens.
    is_over: AtomicBool,
}

impl Log {
    /// A log of which nothing was told yet. Where lines are kept it asks for the memory of all that may wait, once for all.
    ///
    /// Errors: where memory is refused, or the system has no socket.
    pub fn new<R: Net>(rt: &R, alloc: Global, keeps: Keeps) -> io::Result<Log> {
        if keeps != Keeps::Lines {
            return Ok(Log {
                keeps,
                lines: Mutex::new(Lines::new(Vec::new(alloc))),
                nap: None,
                is_over: AtomicBool::new(false),
            });
        }
        let room = Vec::with_capacity(alloc, LOG_ROOM)?;
        Ok(Log {
            keeps,
            lines: Mutex::new(Lines::new(room)),
            nap: Some(Nap::new(rt)?),
            is_over: AtomicBool::new(false),
        })
    }

    /// Whether anything is kept.
    pub fn is_on(&self) -> bool {
        self.keeps != Keeps::Nothing
    }

    /// Whether lines are kept, which somebody has to write then.
    pub fn keeps_lines(&self) -> bool {
        self.keeps == Keeps::Lines
    }

    // Puts lines, and wakes whoever writes them where that is due. The lock is let go before that.
    fn add<R: Wait>(&self, rt: &R, text: &[u8], lines: u64) {
        if self.put_in(rt, text, lines) {
            self.wake();
        }
    }

    // Puts lines. Answers whether whoever writes them is to be woken.
    fn put_in<R: Wait>(&self, rt: &R, text: &[u8], lines: u64) -> bool {
        let mut held = self.lines.lock(rt);
        held.add(text, lines);
        held.is_to_wake()
    }

    fn wake(&self) {
        if let Some(nap) = &self.nap {
            nap.end();
        }
    }

    /// A message's copies had these verdicts: they are counted.
    pub fn count_message<R: Wait>(&self, rt: &R, verdicts: &[Verdict]) {
        let mut held = self.lines.lock(rt);
        held.counts.add_message(verdicts);
    }

    // A call was accepted.
    fn count_call<R: Wait>(&self, rt: &R, caller: Caller<'_>) {
        let mut held = self.lines.lock(rt);
        match caller {
            Caller::Mail(_) => held.counts.add_connection(),
            Caller::Client { user: _, number: _ } => held.counts.add_session(),
        }
    }

    /// This happened to this call: it has its line, and one that was accepted is counted. Where the log is off nothing is done.
    pub fn tell<R: Wait>(&self, rt: &R, alloc: Global, caller: Caller<'_>, what: Happened) {
        if !self.is_on() {
            return;
        }
        if what == Happened::Open {
            self.count_call(rt, caller);
        }
        if !self.keeps_lines() {
            return;
        }
        let mut line = Vec::new(alloc);
        match append_call(caller, what, &mut line) {
            Ok(()) => self.say(rt, &line, 1),
            Err(_) => self.lose(rt, 1),
        }
    }

    /// These lines, of this number, are to be written, where lines are kept: all of them, or, where there is no room, none, and they are
    /// counted as lost. It takes no memory, and nobody is waited for who writes.
    pub fn say<R: Wait>(&self, rt: &R, text: &[u8], lines: u64) {
        if self.keeps_lines() {
            self.add(rt, text, lines);
        }
    }

    /// So many lines couldn't be made, since memory was refused, or couldn't be written.
    pub fn lose<R: Wait>(&self, rt: &R, lines: u64) {
        if self.keeps_lines() {
            let mut held = self.lines.lock(rt);
            held.lose(lines);
        }
    }

    /// What was counted so far.
    pub fn counts<R: Wait>(&self, rt: &R) -> Counts {
        let held = self.lines.lock(rt);
        held.counts
    }

    /// Nothing more happens, and this is what the server held.
    pub fn end<R: Wait>(&self, rt: &R, held: Held) {
        {
            let mut lines = self.lines.lock(rt);
            lines.held = held;
        }
        self.is_over.store(true, Ordering::SeqCst);
        self.wake();
    }

    // Whether nothing more happens.
    pub(crate) fn is_over(&self) -> bool {
        self.is_over.load(Ordering::SeqCst)
    }

    // Takes out the lines that wait, with an empty room for the next ones. Answers how many had no room since the last time.
    pub(crate) fn exchange<R: Wait>(&self, rt: &R, room: &mut Vec<u8>) -> u64 {
        let mut held = self.lines.lock(rt);
        held.exchange(room)
    }

    pub(crate) fn summary<R: Wait>(&self, rt: &R) -> Summary {
        let held = self.lines.lock(rt);
        Summary {
            counts: held.counts,
            held: held.held,
        }
    }

    // Waits for more lines.
    pub(crate) fn rest(&self) {
        if let Some(nap) = &self.nap {
            nap.rest();
        }
    }
}
