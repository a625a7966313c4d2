//! One buffer for what stands before a text and for the text behind it, so that no byte is moved to join them. What the bytes say is
//! for the modules above.

ghost use Rattle.std.specs.Prelude.{◌≡◌, ◌++◌, ◌∷◌, [], flat_map, OnOk, OnErr};

use line_io::append_parts;
use std::alloc::{AllocError, Global};
use std::marker::Model;

/// How many bytes there is room for at first, so that a short text with what stands before it is never moved.
const FIRST_ROOM: usize = 4_096;

/// From so much room on a text is long.
const LONG: usize = 262_144;

/// A text as it comes, behind what was put before it.
#[derive(Drop)]
pub(crate) struct Buffer {
    bytes: Vec<u8>,
    /// How many of the bytes stand before the text.
    start: usize,
}

impl Model for Buffer {
    ghost use Rattle.std.specs.Prelude.{◌≤◌, length, take, drop};
    ghost use Rattle.dot_stuffing.specs.Unstuffing.{Buffer};

    ghost Value = { Buffer };

    ghost view = { λ b. record { front = take b.start b.bytes.items; bytes = drop b.start b.bytes.items } };

    ghost invariant = { λ b. b.start ≤ length b.bytes.items };
}

impl Buffer {
    /// Nothing, with nothing before it. Takes no memory.
    pub(crate) fn new(alloc: Global) -> Buffer
        ensures { result ≡ record { front = []; bytes = [] } }
    {
        Buffer {
            bytes: Vec::new(alloc),
            start: 0,
        }
    }

    /// Begins anew behind these parts.
    ///
    /// Errors: `AllocError` where memory for them and for a short text was refused.
    pub(crate) fn begin_behind(&mut self, parts: &[&[u8]]) -> Result<(), AllocError>
        ensures { OnOk result (self.new
            ≡ record { front = flat_map (λ part. part.now) parts.now; bytes = [] }) }
    {
        self.bytes.clear();
        self.start = 0;
        self.bytes.reserve(FIRST_ROOM)?;
        append_parts(parts, &mut self.bytes)?;
        self.start = self.bytes.len();
        Ok(())
    }

    /// Adds a byte to the text.
    ///
    /// Errors: `AllocError` where memory was refused; nothing was added.
    pub(crate) fn push(&mut self, byte: u8) -> Result<(), AllocError>
        ensures ok { OnOk result (self.new
            ≡ record self.old { bytes = self.old.bytes ++ byte ∷ [] }) }
        ensures err { OnErr result (self.new ≡ self.old) }
    {
        self.bytes.push(byte)?;
        Ok(())
    }

    /// Makes room for so many bytes more, as far as memory is given: where there is none, twice as much, and 16 times as much for a long
    /// text; but for no more than may still come. So a long text is moved once more and not for each doubling. Memory that isn't written to
    /// isn't taken from the system, and what is left over is given back at the end.
    fn make_room(&mut self, more: usize, most: usize)
        ensures { self.new ≡ self.old }
    {
        let room = self.bytes.capacity();
        if more > room - self.bytes.len() {
            let wanted = if room < LONG {
                room
            } else {
                room.saturating_mul(15)
            };
            let _ = self.bytes.reserve_exact(wanted.min(most).max(more));
        }
    }

    /// Adds bytes to the text at once, where so many may still come at most.
    ///
    /// Errors: `AllocError` where memory was refused; nothing was added.
    pub(crate) fn extend(&mut self, run: &[u8], most: usize) -> Result<(), AllocError>
        ensures ok { OnOk result (self.new
            ≡ record self.old { bytes = self.old.bytes ++ run.now }) }
        ensures err { OnErr result (self.new ≡ self.old) }
    {
        self.make_room(run.len(), most);
        self.bytes.extend_from_slice(run)
    }

    /// What stands before the text, and the text. A text may be kept for long: room that is left over is given back, unless it is
    /// little. Where that is refused, the room stays.
    pub(crate) fn into_bytes(self) -> Vec<u8>
        ensures { result.items ≡ self.front ++ self.bytes }
    {
        let mut bytes = self.bytes;
        let spare = bytes.capacity() - bytes.len();
        if spare > bytes.len() / 8 {
            bytes.shrink_to_fit();
        }
        bytes
    }
}
