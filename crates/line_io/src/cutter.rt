//! The cutter: it takes a stream of bytes in pieces of any sizes and finds its lines one by one.
//! It reads from nowhere and knows no protocol.

ghost use Rattle.std.specs.Prelude.{◌≡◌, ◌≢◌, ℕ, ◌+◌, ◌<◌, ◌≤◌, List, [], ◌∷◌, ◌++◌, length, take, IfOk, IsSome, Some, None, slice_index, vec_len, vec_capacity};
ghost use Rattle.line_io.specs.Wire.{wire_lines};
ghost use Rattle.line_io.specs.Cutting.{StandsFor, Tells};

use crate::parts::put;
use crate::{Cut, What};
use memchr::memchr;
use std::alloc::{AllocError, Global};
use std::marker::Model;

const CR: u8 = 13;

const LF: u8 = 10;

// How many bytes stand before the first LF.
fn before_lf(piece: &[u8]) -> usize
    ensures within { result ≤ length piece.now }
    ensures none { (k : ℕ) → k < result → slice_index piece.now k ≢ 10 }
{
    match memchr(LF, piece) {
        Some(i) => i,
        None => piece.len(),
    }
}

/// Cuts a stream of bytes that comes in pieces into lines, each ended by CRLF (RFC 5321, section
/// 2.3.8). A CR or an LF alone is a byte of its line like any other.
#[derive(Drop)]
pub struct LineCutter {
    // The most bytes of a line, its CRLF counted.
    max: usize,
    // Of the line that has not ended, the first bytes up to `max`; with `is_ready` the line that
    // the last take gave.
    bytes: Vec<u8>,
    // Whether the line that has not ended ends in CR. It may be longer than `bytes`.
    after_cr: bool,
    is_ready: bool,
}

impl Model for LineCutter {
    ghost use Rattle.std.specs.Prelude.{◌≡◌, ◌<◌, ◌≤◌, [], Some, None, true, false, if◌then◌else◌, vec_len, vec_capacity};
    ghost use Rattle.line_io.specs.Cutting.{LineCutter};

    ghost Value = { LineCutter };

    ghost view = { λ a. record {
      max = a.max;
      kept = (if a.is_ready then [] else a.bytes.items);
      after_cr = a.after_cr;
      line = (if a.is_ready then Some a.bytes.items else None);
    } };

    ghost invariant = { λ a. (3 ≤ a.max) × (a.max ≤ vec_capacity a.bytes) × (vec_len a.bytes ≤ a.max)
        × (a.after_cr ≡ true → 0 < vec_len a.bytes) × (a.is_ready ≡ true → a.after_cr ≡ false) };
}

impl LineCutter {
    /// A cutter at the start of a stream, for lines of at most `max` bytes with their CRLF, at
    /// least 3. It reserves all that it needs.
    ///
    /// Errors: `AllocError` where memory for `max` bytes was refused.
    pub fn new(alloc: Global, max: usize) -> Result<LineCutter, AllocError>
        // A line has room for one byte besides its CRLF.
        requires { 3 ≤ max }
        ensures max { IfOk result (λ cutter. cutter.max ≡ max) }
        // It has taken nothing of a stream yet.
        ensures stands { IfOk result (λ cutter. StandsFor cutter []) }
    {
        Ok(LineCutter {
            max,
            bytes: Vec::with_capacity(alloc, max)?,
            after_cr: false,
            is_ready: false,
        })
    }

    /// Takes bytes of the piece up to the first that ends a line, or else all. Takes no memory.
    ///
    /// A line that is too long is answered once, when it ends; the next take is at the line behind
    /// it. The line that the take before gave is let go of.
    pub fn take(&mut self, piece: &[u8]) -> Cut
        // It uses no more than the piece: all of it where no line ended, and something where one did.
        ensures used { result.used ≤ length piece.now }
        ensures all_used { result.what ≡ What.NeedMore → result.used ≡ length piece.now }
        ensures some_used { result.what ≢ What.NeedMore → 0 < result.used }
        // The most bytes of a line stay the same, and after Line the line is there.
        ensures max { self.new.max ≡ self.old.max }
        ensures line { result.what ≡ What.Line → IsSome self.new.line }
        // Whatever stream came before the call, in whatever pieces.
        ensures stands { (stream : List ℕ) → StandsFor self.old stream →
            StandsFor self.new (stream ++ take result.used piece.now) }
        // Of that stream NeedMore ends no line more, Line one within the most and TooLong a longer one, with the last byte used.
        ensures lines { (stream : List ℕ) → StandsFor self.old stream →
            Tells result.what self.new stream (take result.used piece.now) }
    {
        self.begin();
        let mut used = 0;
        while used < piece.len() {
            used += self.take_run(&piece[used..]);
            if used < piece.len() {
                match self.step(piece[used]) {
                    What::NeedMore => used += 1,
                    what => {
                        return Cut {
                            used: used + 1,
                            what,
                        };
                    }
                }
            }
        }
        Cut {
            used,
            what: What::NeedMore,
        }
    }

    /// The line that the last take found, without its CRLF, where it answered `What::Line`.
    pub fn line(&self) -> &[u8]
        requires { IsSome self.now.line }
        ensures { self.now.line ≡ Some result.now }
    {
        self.bytes.as_slice()
    }

    // Lets go of the line that the last take gave.
    fn begin(&mut self)
        ensures { self.new ≡ record self.old { line = None } }
    {
        if self.is_ready {
            self.bytes.clear();
            self.is_ready = false;
        }
    }

    // Takes the bytes before the first LF at once, since they end no line, and answers how many.
    fn take_run(&mut self, piece: &[u8]) -> usize
        requires { self.old.line ≡ None }
        ensures within { result ≤ length piece.now }
        ensures max { self.new.max ≡ self.old.max }
        ensures line { self.new.line ≡ None }
        ensures stands { (stream : List ℕ) → StandsFor self.old stream →
            StandsFor self.new (stream ++ take result piece.now)
            × (wire_lines (stream ++ take result piece.now) ≡ wire_lines stream) }
    {
        let len = before_lf(piece);
        if len == 0 {
            return 0;
        }
        let room = self.max - self.bytes.len();
        let kept = if len < room { len } else { room };
        put(&piece[..kept], &mut self.bytes);
        self.after_cr = piece[len - 1] == CR;
        len
    }

    // Takes one byte.
    fn step(&mut self, byte: u8) -> What
        requires { self.old.line ≡ None }
        ensures max { self.new.max ≡ self.old.max }
        ensures no_line { result ≡ What.NeedMore → self.new.line ≡ None }
        ensures line { result ≡ What.Line → IsSome self.new.line }
        ensures lines { (stream : List ℕ) → StandsFor self.old stream →
            StandsFor self.new (stream ++ byte ∷ []) × Tells result self.new stream (byte ∷ []) }
    {
        if byte == LF && self.after_cr {
            self.after_cr = false;
            let len = self.bytes.len();
            if len < self.max {
                self.bytes.truncate(len - 1);
                self.is_ready = true;
                What::Line
            } else {
                self.bytes.clear();
                What::TooLong
            }
        } else {
            if self.bytes.len() < self.max {
                self.bytes.push_reserved(byte);
            }
            self.after_cr = byte == CR;
            What::NeedMore
        }
    }
}
