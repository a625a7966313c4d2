//! The text of data as it comes: its bytes while they fit, and what is wrong with it. Nothing here
//! knows lines or dots.

ghost use Rattle.std.specs.Prelude.{◌≡◌, ℕ, List, [], ◌∷◌, ◌++◌, true, false, Contains, flat_map};
ghost use Rattle.dot_stuffing.specs.Unstuffing.{Collects, IsBehind, IsOutcome};
ghost use Rattle.dot_stuffing.specs.inner.Unstuffing.{Keeps};

use crate::buffer::Buffer;
use crate::{NUL, Outcome};
use memchr::memchr;
use std::alloc::Global;
use std::marker::Model;

/// Whether a NUL stands in these bytes.
fn has_nul(bytes: &[u8]) -> bool
    ensures yes { result ≡ true → Contains bytes.now 0 }
    ensures no { result ≡ false → Contains bytes.now 0 → ⊥ }
{
    memchr(NUL, bytes).is_some()
}

/// A text that comes by bytes and runs of bytes. Nothing is answered before its end.
#[derive(Drop)]
pub(crate) struct Collector {
    max: usize,
    buffer: Buffer,
    count: usize,
    has_nul: bool,
    is_big: bool,
    no_memory: bool,
}

impl Model for Collector {
    ghost use Rattle.std.specs.Prelude.{◌≡◌, ◌≤◌, false};
    ghost use Rattle.dot_stuffing.specs.Unstuffing.{Collector};

    ghost Value = { Collector };

    ghost view = { λ a. record {
      max = a.max;
      front = a.buffer.front;
      bytes = a.buffer.bytes;
      count = a.count;
      has_nul = a.has_nul;
      is_big = a.is_big;
      no_memory = a.no_memory;
    } };

    ghost invariant = { λ a. a.count ≤ a.max };
}

impl Collector {
    /// No text yet, of at most `max` bytes, with nothing before it. Takes no memory.
    pub(crate) fn new(alloc: Global, max: usize) -> Collector
        ensures max { result.max ≡ max }
        ensures collects { Collects result [] }
        ensures behind { IsBehind result [] }
    {
        Collector {
            max,
            buffer: Buffer::new(alloc),
            count: 0,
            has_nul: false,
            is_big: false,
            no_memory: false,
        }
    }

    /// No text yet, with these parts before it, or notes that memory for them was refused. They don't count as bytes of the text.
    pub(crate) fn begin_behind(&mut self, parts: &[&[u8]])
        ensures max { self.new.max ≡ self.old.max }
        ensures collects { Collects self.new [] }
        ensures behind { IsBehind self.new (flat_map (λ part. part.now) parts.now) }
    {
        self.count = 0;
        self.has_nul = false;
        self.is_big = false;
        self.no_memory = self.buffer.begin_behind(parts).is_err();
    }

    /// Adds a byte, or notes why it can't.
    pub(crate) fn add(&mut self, byte: u8)
        ensures max { self.new.max ≡ self.old.max }
        ensures collects { (text : List ℕ) → Collects self.old text
            → Collects self.new (text ++ byte ∷ []) }
        ensures behind { (front : List ℕ) → IsBehind self.old front → IsBehind self.new front }
    {
        self.has_nul |= byte == 0;
        if self.count == self.max {
            self.is_big = true;
            return;
        }
        self.count += 1;
        if !self.no_memory {
            self.no_memory = self.buffer.push(byte).is_err();
        }
    }

    /// Adds bytes at once, as [`Collector::add`] adds each.
    pub(crate) fn add_run(&mut self, run: &[u8])
        ensures max { self.new.max ≡ self.old.max }
        ensures collects { (text : List ℕ) → Collects self.old text
            → Collects self.new (text ++ run.now) }
        ensures behind { (front : List ℕ) → IsBehind self.old front → IsBehind self.new front }
    {
        self.has_nul |= has_nul(run);
        self.keep(run);
    }

    /// Keeps and counts these bytes. Of a run that doesn't fit nothing is kept, since no text comes of it.
    fn keep(&mut self, run: &[u8])
        ensures max { self.new.max ≡ self.old.max }
        ensures nul { self.new.has_nul ≡ self.old.has_nul }
        ensures keeps { (text : List ℕ) → Keeps self.old text → Keeps self.new (text ++ run.now) }
        ensures behind { (front : List ℕ) → IsBehind self.old front → IsBehind self.new front }
    {
        if self.max - self.count < run.len() {
            self.is_big = true;
            self.count = self.max;
            return;
        }
        let most = self.max - self.count;
        self.count += run.len();
        if !self.no_memory {
            self.no_memory = self.buffer.extend(run, most).is_err();
        }
    }

    /// What comes of the text, if this is all of it.
    pub(crate) fn outcome(&self) -> Outcome
        ensures cases { (text : List ℕ) → Collects self.now text
            → IsOutcome result self.now.max text }
        ensures whole { result ≡ Outcome.Ok → (text : List ℕ) → Collects self.now text
            → self.now.bytes ≡ text }
        ensures memory { result ≡ Outcome.Ok → self.now.no_memory ≡ false }
    {
        if self.has_nul {
            Outcome::Nul
        } else if self.is_big {
            Outcome::TooBig
        } else if self.no_memory {
            Outcome::NoMemory
        } else {
            Outcome::Ok
        }
    }

    /// What stands before the text, and the bytes, which are the text where the outcome is `Ok`.
    pub(crate) fn into_bytes(self) -> Vec<u8>
        ensures { result.items ≡ self.front ++ self.bytes }
    {
        self.buffer.into_bytes()
    }
}
