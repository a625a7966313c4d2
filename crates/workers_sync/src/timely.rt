//! What is written to a connection, in the time that its peer has for it. How long that is, `parting` sets.

ghost use Rattle.std.specs.Prelude.{◌≡◌, ◌≢◌, ◌↔◌, ◌<◌, false, true, IfOk, IsErr, length};
ghost use Rattle.std.specs.Io.{WritesAtMost};
ghost use Rattle.std.specs.Io.KnownBytes.{WriteAppends};

use std::io;
use std::io::{ErrorKind, Write};

/// So many bytes the system takes in one call, where there is room and time for them (Linux: 2 GiB less a page of memory, here of 64 KiB).
const MOST_AT_ONCE: usize = 0x7fff_0000;

/// A writer that takes nothing more once a call took less than it was given. Over a socket that waits, with a time-out (`prepare`), that is
/// a call whose time was over, since the system counts the time-out over the whole call: so all that is given in one call has that time, and
/// the rest of it gets no other. A process that was stopped by a signal may be cut short too; and a call that took as much as the system
/// takes at once is not.
#[derive(Drop)]
pub struct Timely<W> {
    writer: W,
    is_late: bool,
}

// Whether a call that was given so many bytes, and took so many, was cut short.
fn is_cut_short(given: usize, taken: usize) -> bool
    ensures { (result ≡ true) ↔ ((taken < given) × (taken < MOST_AT_ONCE)) }
{
    taken < given && taken < MOST_AT_ONCE
}

impl<W: Write> Timely<W> {
    /// The writer, which was not cut short.
    pub fn new(writer: W) -> Timely<W>
        ensures contents { ⟦<Timely<W> as Write>⟧.contents result ≡ W.contents writer }
    {
        Timely {
            writer,
            is_late: false,
        }
    }

    // Gives the writer these bytes, unless it was cut short before. Errors: `TimedOut` where it was, and what the writer answers.
    fn give(&mut self, bytes: &[u8]) -> io::Result<usize>
        ensures bound { WritesAtMost result bytes.now }
        ensures bytes { WriteAppends (W.contents self.old.writer) (W.contents self.new.writer)
            result bytes.now }
        ensures over { self.old.is_late ≡ true → IsErr result × (self.new ≡ self.old) }
        ensures late { IfOk result (λ n. self.new.is_late ≡ true
            ↔ ((n < length bytes.now) × (n < MOST_AT_ONCE))) }
    {
        if self.is_late {
            return Err(io::Error::from(ErrorKind::TimedOut));
        }
        let taken = self.writer.write(bytes)?;
        self.is_late = is_cut_short(bytes.len(), taken);
        Ok(taken)
    }
}

impl<W: Write> Write for Timely<W> {
    ghost contents = { λ t. W.contents t.writer };

    fn write(&mut self, bytes: &[u8]) -> io::Result<usize> {
        self.give(bytes)
    }

    fn flush(&mut self) -> io::Result<()> {
        self.writer.flush()
    }
}
