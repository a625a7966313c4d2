//! A line whose connections are lists of bytes: what each peer sends is known beforehand, and what it is told is kept. No socket is here.

ghost use Rattle.std.specs.Prelude.{◌≡◌, [], IfOk};

use line_io::Sink;
use serving_workers::{Call, Line, Lines};
use std::alloc::{AllocError, Global};
use std::collections::VecDeque;
use std::io::Write;
use std::sync::atomic::{AtomicUsize, Ordering};
use std::sync::{Arc, Wait};
use workers_sync::{Listening, ShutdownHandle};

/// What a peer was told, kept in memory.
#[derive(Drop)]
pub struct Paper {
    /// What was written.
    pub bytes: Vec<u8>,
    /// Whether memory was refused for more.
    pub has_failed: bool,
}

impl Sink for Paper {
    ghost use Rattle.std.specs.Prelude.{Some};

    ghost taken = { λ p. Some p.bytes.items };

    ghost failed = { λ p. p.has_failed };

    fn offer(&mut self, bytes: &[u8]) -> Option<usize> {
        if self.bytes.extend_from_slice(bytes).is_err() {
            self.has_failed = true;
            return None;
        }
        Some(bytes.len())
    }
}

/// Connections that come from a list: one peer after another, each of whom sends these bytes and then goes.
#[derive(Drop)]
pub struct ListLine {
    // What those send who didn't come yet.
    calls: Vec<Vec<u8>>,
    // What those sent who came.
    came: Vec<Vec<u8>>,
    // What they were told.
    said: Vec<Paper>,
    // How many lines have nobody left. This one counts once.
    done: Arc<AtomicUsize>,
    is_done: bool,
}

// These bytes, to be read.
fn queue_of(bytes: &Vec<u8>) -> Result<VecDeque<u8>, AllocError>
    ensures { IfOk result (λ queue. queue.items ≡ bytes.now.items) }
{
    let mut queue = VecDeque::new(*bytes.allocator());
    if queue.write(bytes.as_slice()).is_err() {
        return Err(AllocError);
    }
    Ok(queue)
}

impl ListLine {
    // Nobody is left.
    fn rest(&mut self)
        ensures { (self.new.came ≡ self.old.came) × (self.new.said ≡ self.old.said) }
    {
        if !self.is_done {
            self.is_done = true;
            self.done.fetch_add(1, Ordering::SeqCst);
        }
    }

    /// What each of its peers was told, in their order.
    pub fn said(&self) -> &[Paper] {
        &self.said
    }
}

impl Line for ListLine {
    ghost use Rattle.std.specs.Prelude.{◌<◌, Some, map, vec_len, vec_capacity};

    type Input = VecDeque<u8>;

    type Output = Paper;

    ghost told = { λ l. record {
      came = Some (map (λ v. v.items) l.came.items);
      said = Some (map (λ p. (p.bytes.items, p.has_failed)) l.said.items);
    } };

    ghost ready = { λ l. vec_len l.said < vec_capacity l.said };

    fn accept(&mut self) -> Option<Call<VecDeque<u8>, Paper>> {
        if self.calls.is_empty() {
            self.rest();
            return None;
        }
        let Ok(input) = queue_of(&self.calls[0]) else {
            return None;
        };
        if self.came.reserve(1).is_err() {
            return None;
        }
        if self.said.reserve(1).is_err() {
            return None;
        }
        let bytes = self.calls.remove(0);
        let output = Paper {
            bytes: Vec::new(*bytes.allocator()),
            has_failed: false,
        };
        self.came.push_reserved(bytes);
        Some(Call { input, output })
    }

    fn hold<R: Wait>(
        &self,
        _rt: &R,
        _shutdown_handle: &ShutdownHandle,
        _input: &VecDeque<u8>,
    ) -> bool {
        true
    }

    fn part(&self, _input: &VecDeque<u8>, _buffer: &mut [u8]) {}

    fn close(&mut self, output: Paper) {
        self.said.push_reserved(output);
    }
}

/// What one line's peers send, in their order.
pub type Lists = Vec<Vec<u8>>;

/// A line for each of these lists, in their order; whoever asks for more is given lines at which nobody comes.
#[derive(Drop)]
pub struct ListLines {
    /// What each line's peers send.
    pub lists: Vec<Lists>,
    /// How many lines have nobody left.
    pub done: Arc<AtomicUsize>,
}

// A line at which these come.
fn line_of(alloc: Global, calls: Lists, done: &Arc<AtomicUsize>) -> Result<ListLine, AllocError>
    ensures { IfOk result (λ line. (line.came.items ≡ []) × (line.said.items ≡ [])) }
{
    Ok(ListLine {
        calls,
        came: Vec::new(alloc),
        said: Vec::new(alloc),
        done: done.clone()?,
        is_done: false,
    })
}

// The first of these lists, or none.
fn take_first(alloc: Global, lists: &mut Vec<Lists>) -> Lists {
    if lists.is_empty() {
        return Vec::new(alloc);
    }
    lists.remove(0)
}

impl Lines<ListLine> for ListLines {
    fn lines(
        self,
        alloc: Global,
        _listening: &Arc<Listening>,
        count: usize,
    ) -> Result<Vec<ListLine>, AllocError> {
        let ListLines { mut lists, done } = self;
        let mut all = Vec::with_capacity(alloc, count)?;
        for _ in 0..count {
            let calls = take_first(alloc, &mut lists);
            all.push_reserved(line_of(alloc, calls, &done)?);
        }
        Ok(all)
    }
}
