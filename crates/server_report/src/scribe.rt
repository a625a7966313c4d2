//! Whoever writes a log to the error stream: what waits is taken out under the log's lock, and written when that is let go. So only the
//! scribe ever waits for that stream.

use crate::log::{LOG_ROOM, Log};
use crate::summary::{append_lost, append_summary};
use std::alloc::{AllocError, Global};
use std::io::Write;
use std::sync::Wait;

/// How many lines end in these bytes.
fn lines_in(bytes: &[u8]) -> u64 {
    bytes.iter().filter(|byte| **byte == b'\n').count() as u64
}

// Writes these lines. What the stream refuses is counted as lost.
fn write<R: Wait, E: Write>(rt: &R, log: &Log, lines: &[u8], errors: &mut E) {
    if lines.is_empty() {
        return;
    }
    if errors.write_all(lines).is_err() {
        log.lose(rt, lines_in(lines));
    }
}

/// The room of whoever writes a log: for what it takes out.
#[derive(Drop)]
pub struct Scribe {
    batch: Vec<u8>,
    // For words of its own: how many lines were lost, and what is told at the end.
    words: Vec<u8>,
}

impl Scribe {
    /// Room for all that may wait. An error where memory is refused.
    pub fn new(alloc: Global) -> Result<Scribe, AllocError> {
        Ok(Scribe {
            batch: Vec::with_capacity(alloc, LOG_ROOM)?,
            words: Vec::new(alloc),
        })
    }

    // Writes what waits, with one write, and behind it how many lines had no room.
    fn write_batch<R: Wait, E: Write>(&mut self, rt: &R, log: &Log, errors: &mut E) {
        self.batch.clear();
        let lost = log.exchange(rt, &mut self.batch);
        write(rt, log, &self.batch, errors);
        self.words.clear();
        // Where there is no memory for that line it is told at the end.
        let _ = append_lost(lost, &mut self.words);
        write(rt, log, &self.words, errors);
    }

    // Writes what is told at the end.
    fn write_summary<R: Wait, E: Write>(&mut self, rt: &R, log: &Log, errors: &mut E) {
        self.words.clear();
        // Where memory is refused its first lines are told.
        let _ = append_summary(log.summary(rt), &mut self.words);
        write(rt, log, &self.words, errors);
    }

    /// Writes the lines of a log as they come, many with one write, and behind the last one what was counted, once nothing more happens.
    /// Where the stream is slow the lines wait, as many as there is room for, and it is told how many had none.
    pub fn write_all<R: Wait, E: Write + Drop>(mut self, rt: &R, log: &Log, mut errors: E) {
        for _ in rt.forever() {
            // It is asked before the lines are taken: so those that came before the end are among them.
            let is_over = log.is_over();
            self.write_batch(rt, log, &mut errors);
            if is_over {
                self.write_summary(rt, log, &mut errors);
                return;
            }
            log.rest();
        }
        unreachable!()
    }
}
