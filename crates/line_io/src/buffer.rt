//! A buffer over a sink: what is said stands in a row of bytes that never grows, and is sent when that is full. Once the sink has failed nothing more is
//! sent, and what is said is dropped; `flush` tells that.

ghost use Rattle.std.specs.Prelude.{◌≡◌, ◌+◌, ◌≤◌, ◌++◌, [], length, take, true, false, OnOk, OnErr, is_err, vec_capacity};
ghost use Rattle.line_io.specs.Outlet.{SentAll, SentFirst};
ghost use Rattle.line_io.specs.inner.Buffer.{logged};

use crate::sink::{Sink, send};
use http_server::Log;
use std::marker::Model;
use std::mem::replace;

/// The sink of a [`Buffer`] has failed: the last of what was said, one byte at least, wasn't sent and never will be.
#[derive(Clone, Copy, Debug, PartialEq, Eq)]
pub struct FlushFault;

/// What is said over a sink waits in a row of bytes until that is full or [`flush`](Buffer::flush) is called. It never takes more memory
/// than the row that it was given. Whoever has many buffers may lend each a row while it is spoken through ([`trade`](Buffer::trade)).
#[derive(Drop)]
pub struct Buffer<W: Sink> {
    sink: W,
    // Its first `filled` bytes wait to be sent.
    row: Vec<u8>,
    filled: usize,
    has_failed: bool,
    // The sink as it was when nothing was said yet, and what was said since, for contracts alone: neither is there when it runs.
    begun: Log<W, ()>,
    said: Log<u8, ()>,
}

impl<W: Sink> Model for Buffer<W> {
    ghost use Rattle.std.specs.Prelude.{◌≡◌, ◌≤◌, length, take};
    ghost use Rattle.std.specs.Vec.{vec_capacity};
    ghost use Rattle.line_io.specs.Outlet.{Buffer};
    ghost use Rattle.line_io.specs.inner.Buffer.{Tied, logged, start_of};

    ghost Value = { Buffer };

    ghost view = { λ b. record {
      said = logged b.said.items;
      start = start_of W.taken b.begun.items;
      taken = W.taken b.sink;
      pending = take b.filled b.row.items;
      failed = W.failed b.sink;
      limit = length b.row.items;
      memory = vec_capacity b.row;
    } };

    ghost invariant = { λ b. (b.has_failed ≡ W.failed b.sink) × (b.filled ≤ length b.row.items)
        × Tied (start_of W.taken b.begun.items) (W.taken b.sink) (logged b.said.items)
        (take b.filled b.row.items) b.has_failed };
}

impl<W: Sink> Buffer<W> {
    ghost use Rattle.line_io.specs.Outlet.{SentAll, SentFirst};

    /// A buffer over this sink, which has not failed, and in this row of bytes. At most as many bytes wait as the row is long, whatever it says now;
    /// in a row of none each piece is sent at once. Nothing was said yet.
    pub fn new(sink: W, row: Vec<u8>) -> Buffer<W>
        requires live { W.failed sink ≡ false }
        ensures { result ≡ record {
          said = [];
          start = W.taken sink;
          taken = W.taken sink;
          pending = [];
          failed = false;
          limit = length row.items;
          memory = vec_capacity row;
        } }
    {
        let begun = Log::new().and(&sink, &());
        Buffer {
            sink,
            row,
            filled: 0,
            has_failed: false,
            begun,
            said: Log::new(),
        }
    }

    /// Whether the sink has failed: the last of what was said wasn't sent.
    pub fn has_failed(&self) -> bool
        ensures { result ≡ self.now.failed }
    {
        self.has_failed
    }

    /// Sends what is pending; nothing is pending behind it, whatever it answers. Nothing is said by it, and its memory stays.
    ///
    /// Errors: `FlushFault` where the sink failed, now or before.
    pub fn flush(&mut self) -> Result<(), FlushFault>
        // After Ok all that was said was sent.
        ensures all { OnOk result (SentAll self.new) }
        // After an error the first bytes of what was said were sent, and not all.
        ensures first { OnErr result (SentFirst self.new) }
        ensures failed { self.new.failed ≡ is_err result }
        // Nothing is pending, also where it never goes out.
        ensures same { self.new ≡ record self.old {
          taken = self.new.taken;
          pending = [];
          failed = self.new.failed;
        } }
    {
        if !self.has_failed {
            self.pour();
        }
        if self.has_failed {
            return Err(FlushFault);
        }
        Ok(())
    }

    /// Begins anew, where all that was said was sent: from here on contracts speak of what is said now. It does nothing when it runs.
    pub fn begin(&mut self)
        requires going { self.old.failed ≡ false }
        requires none { self.old.pending ≡ [] }
        ensures { self.new ≡ record self.old { said = []; start = self.old.taken } }
    {
        self.begun = Log::new().and(&self.sink, &());
        self.said = Log::new();
    }

    /// Waits in this row of bytes from here on, where nothing is pending, and gives back the row that it had. At most as many bytes wait then as the row
    /// is long, whatever it says now.
    pub fn trade(&mut self, row: Vec<u8>) -> Vec<u8>
        requires none { self.old.pending ≡ [] }
        ensures row { (length result.items ≡ self.old.limit) × (vec_capacity result ≡ self.old.memory) }
        ensures trades { self.new ≡ record self.old {
          limit = length row.items;
          memory = vec_capacity row;
        } }
    {
        self.filled = 0;
        replace(&mut self.row, row)
    }

    /// Says these bytes, behind all that was said. They wait where they fit behind what is pending; else that is sent, and what is longer than the row
    /// is sent at once, from where it stands. Nothing is kept or sent once the sink has failed.
    pub fn put(&mut self, bytes: &[u8])
        ensures { self.new ≡ record self.old {
          said = self.old.said ++ bytes.now;
          taken = self.new.taken;
          pending = self.new.pending;
          failed = self.new.failed;
        } }
    {
        if self.has_failed {
            self.lose(bytes);
            return;
        }
        if bytes.len() <= self.spare() {
            self.keep(bytes);
            return;
        }
        self.pour();
        self.say_first(bytes);
    }

    /// Gives the sink back. What is pending is never sent.
    pub fn into_sink(self) -> W
        ensures taken { W.taken result ≡ self.taken }
        ensures failed { W.failed result ≡ self.failed }
    {
        let Buffer {
            sink,
            row: _,
            filled: _,
            has_failed: _,
            begun: _,
            said: _,
        } = self;
        sink
    }

    // So many bytes fit behind what is pending.
    fn spare(&self) -> usize
        ensures { result + length self.now.pending ≡ self.now.limit }
    {
        self.row.len() - self.filled
    }

    // Sends what is pending.
    fn pour(&mut self)
        requires going { self.old.failed ≡ false }
        ensures { self.new ≡ record self.old {
          taken = self.new.taken;
          pending = [];
          failed = self.new.failed;
        } }
    {
        let sent = send(&mut self.sink, &self.row[..self.filled]);
        self.filled = 0;
        self.has_failed = sent.is_err();
    }

    // Says bytes that fit behind what is pending.
    fn keep(&mut self, bytes: &[u8])
        requires going { self.old.failed ≡ false }
        requires fits { length bytes.now + length self.old.pending ≤ self.old.limit }
        ensures { self.new ≡ record self.old {
          said = self.old.said ++ bytes.now;
          pending = self.old.pending ++ bytes.now;
        } }
    {
        note(&mut self.said, bytes);
        lay(&mut self.row, self.filled, bytes);
        self.filled += bytes.len();
    }

    // Says bytes that are sent at once, as nothing is pending: they aren't copied.
    fn pass(&mut self, bytes: &[u8])
        requires going { self.old.failed ≡ false }
        requires none { self.old.pending ≡ [] }
        ensures { self.new ≡ record self.old {
          said = self.old.said ++ bytes.now;
          taken = self.new.taken;
          pending = [];
          failed = self.new.failed;
        } }
    {
        note(&mut self.said, bytes);
        let sent = send(&mut self.sink, bytes);
        self.filled = 0;
        self.has_failed = sent.is_err();
    }

    // Says bytes that nobody gets, as the sink has failed.
    fn lose(&mut self, bytes: &[u8])
        requires failed { self.old.failed ≡ true }
        ensures { self.new ≡ record self.old { said = self.old.said ++ bytes.now } }
    {
        note(&mut self.said, bytes);
    }

    // Says bytes behind what was sent; nothing is pending, or the sink has failed.
    fn say_first(&mut self, bytes: &[u8])
        requires none { self.old.failed ≡ false → self.old.pending ≡ [] }
        ensures { self.new ≡ record self.old {
          said = self.old.said ++ bytes.now;
          taken = self.new.taken;
          pending = self.new.pending;
          failed = self.new.failed;
        } }
    {
        if self.has_failed {
            self.lose(bytes);
        } else if bytes.len() <= self.spare() {
            self.keep(bytes);
        } else {
            self.pass(bytes);
        }
    }
}

// Lays bytes behind the first `at` of a row, which doesn't grow.
fn lay(row: &mut [u8], at: usize, bytes: &[u8])
    requires fits { at + length bytes.now ≤ length row.old }
    ensures first { take (at + length bytes.now) row.new ≡ take at row.old ++ bytes.now }
    ensures len { length row.new ≡ length row.old }
{
    let end = at + bytes.len();
    row[at..end].copy_from_slice(bytes);
}

// These bytes were said too. A log is empty when it runs, so compilers leave the loop out.
fn note(said: &mut Log<u8, ()>, bytes: &[u8])
    ensures { logged said.new.items ≡ logged said.old.items ++ bytes.now }
{
    for byte in bytes {
        *said = said.and(byte, &());
    }
}
