//! Rows of bytes that the sessions of a house share: what is said waits in one, and a client that is silent has none. What is said stands in `visit`.

use crossbeam_queue::ArrayQueue;
use std::alloc::{AllocError, Global};
use std::sync::Wait;

/// The most bytes of what is said that wait to be sent. What is longer, as a message's text, is sent from where it stands.
const ROW: usize = 16 * 1024;

/// So many rows are kept while nobody speaks: for so many sessions that speak at once none is made anew.
const KEPT: usize = 8;

/// Rows of 16,384 bytes, lent to the sessions that speak. At most eight are kept while nobody does, so what idle sessions cost doesn't grow with
/// how many have spoken, and a session that speaks takes no memory of its own.
#[derive(Drop)]
pub struct Rows {
    kept: ArrayQueue<Vec<u8>>,
}

impl Rows {
    /// No row is there yet.
    ///
    /// Errors: `AllocError` where memory was refused.
    pub fn new(alloc: Global) -> Result<Rows, AllocError> {
        Ok(Rows {
            kept: ArrayQueue::new(alloc, KEPT)?,
        })
    }

    // A row. Where none is kept and memory is refused it has no bytes: what is said is sent at once then.
    // Its frame stands apart: the stack of a thread that waits for its client is as deep as what it once said.
    #[inline(never)]
    pub(crate) fn lend<R: Wait>(&self, rt: &R, alloc: Global) -> Vec<u8> {
        if let Some(row) = self.kept.pop(rt) {
            return row;
        }
        let mut row = Vec::new(alloc);
        let _ = row.resize(ROW, 0);
        row
    }

    // A row that was lent is there again. One too many is let go, as is one that has no bytes.
    #[inline(never)]
    pub(crate) fn take_back<R: Wait>(&self, rt: &R, row: Vec<u8>) {
        if !row.is_empty() {
            let _ = self.kept.push(rt, row);
        }
    }
}
