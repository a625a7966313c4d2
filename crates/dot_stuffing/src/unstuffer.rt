//! The unstuffer: it takes data from the wire in pieces of any sizes, and gives its text at the end.
//! It reads from nowhere, and decides nothing before the end of the data.

ghost use Rattle.std.specs.Prelude.{◌≡◌, ◌≢◌, ℕ, ◌<◌, ◌≤◌, ◌+◌, List, [], ◌∷◌, ◌++◌, length, take, slice_index, flat_map, Some, None};
ghost use Rattle.dot_stuffing.specs.Unstuffing.{IsBehind, StandsFor, outcome_of, Tells};

use crate::collector::Collector;
use crate::context::{Context, Next, context_behind, step_from};
use crate::{CR, Outcome, Progress, Taken};
use memchr::memmem::Finder;
use std::alloc::Global;
use std::marker::Model;

/// How many bytes stand before the first dot that a line begins with, which is a dot behind a CRLF.
fn before_dot(finder: &Finder<'_>, piece: &[u8]) -> usize
    requires { finder.now ≡ 13 ∷ 10 ∷ 46 ∷ [] }
    ensures within { result ≤ length piece.now }
    ensures none { (k : ℕ) → k + 2 < result → slice_index piece.now k ≡ 13
        → slice_index piece.now (k + 1) ≡ 10
        → slice_index piece.now (k + 2) ≡ 46 → ⊥ }
{
    match finder.find(piece) {
        Some(at) => at + 2,
        None => piece.len(),
    }
}

/// Takes mail data from the wire, in pieces, and gives its text (RFC 5321, section 4.5.2).
#[derive(Drop)]
pub struct Unstuffer {
    context: Context,
    collector: Collector,
    outcome: Option<Outcome>,
}

impl Model for Unstuffer {
    ghost use Rattle.std.specs.Prelude.{◌≡◌, Some, false};
    ghost use Rattle.dot_stuffing.specs.Unstuffing.{Unstuffer};
    ghost use Rattle.dot_stuffing.specs.declared.Outcome.TheVariants as outcomes;

    ghost Value = { Unstuffer };

    ghost view = { λ a. record { context = a.context; collected = a.collector; outcome = a.outcome } };

    ghost invariant = { λ a. a.outcome ≡ Some outcomes.Ok → a.collector.no_memory ≡ false };
}

impl Unstuffer {
    /// An unstuffer at the start of data, for a text of at most `max` bytes with nothing before it. Takes no memory.
    pub fn new(alloc: Global, max: usize) -> Unstuffer
        ensures max { result.collected.max ≡ max }
        // It has taken nothing, has no outcome, and nothing is to stand before the text.
        ensures live { result.outcome ≡ None }
        ensures stands { StandsFor result [] }
        ensures behind { IsBehind result.collected [] }
    {
        Unstuffer {
            context: Context::Start,
            collector: Collector::new(alloc, max),
            outcome: None,
        }
    }

    /// Goes to the start of other data, whose text is to stand behind these parts, in one buffer with them. They don't count as
    /// bytes of the text. Where memory for them is refused, that is told with the outcome, as for the text.
    pub fn begin_behind(&mut self, parts: &[&[u8]])
        // The most bytes of a text stay the same.
        ensures max { self.new.collected.max ≡ self.old.collected.max }
        // It has taken nothing of the data, and has no outcome.
        ensures live { self.new.outcome ≡ None }
        ensures stands { StandsFor self.new [] }
        // The text is to stand behind these parts, unless memory for them was refused.
        ensures behind { IsBehind self.new.collected (flat_map (λ part. part.now) parts.now) }
    {
        self.context = Context::Start;
        self.outcome = None;
        self.collector.begin_behind(parts);
    }

    /// Takes bytes of the piece up to the end of the data, or else all. What is wrong with the text
    /// is told only then, with the outcome; none may be taken afterwards.
    pub fn take(&mut self, piece: &[u8]) -> Taken
        // The data has not ended.
        requires { self.old.outcome ≡ None }
        // It uses no more than the piece: all of it where the data has not ended, and something where it has.
        ensures used { result.used ≤ length piece.now }
        ensures all_used { result.what ≡ Progress.More → result.used ≡ length piece.now }
        ensures some_used { result.what ≢ Progress.More → 0 < result.used }
        ensures max { self.new.collected.max ≡ self.old.collected.max }
        // What the text is to stand behind stays.
        ensures behind { (front : List ℕ) → IsBehind self.old.collected front
            → IsBehind self.new.collected front }
        // It has an outcome exactly where the data ended, and it is the one that is told.
        ensures outcome { self.new.outcome ≡ outcome_of result.what }
        // Whatever came before, in whatever pieces: after Done it is whole data with the bytes used, and the outcome is that of its text.
        ensures data { (wire : List ℕ) → StandsFor self.old wire →
            Tells result.what self.new wire (take result.used piece.now) }
    {
        let finder = Finder::new(b"\r\n.");
        let mut used = 0;
        while used < piece.len() {
            used += self.take_run(&finder, &piece[used..]);
            if used < piece.len() {
                match self.step(piece[used]) {
                    Progress::More => used += 1,
                    what => {
                        return Taken {
                            used: used + 1,
                            what,
                        };
                    }
                }
            }
        }
        Taken {
            used,
            what: Progress::More,
        }
    }

    /// The text, each line without the dot that was put before it, once the outcome is `Ok`: in its buffer, behind what it was to
    /// stand behind.
    pub fn text(self) -> Vec<u8>
        requires { self.outcome ≡ Some Outcome.Ok }
        ensures { (front : List ℕ) → IsBehind self.collected front
            → result.items ≡ front ++ self.collected.bytes }
    {
        self.collector.into_bytes()
    }

    /// Takes the bytes up to the next line that begins with a dot at once, where the wire stands inside a line, and
    /// answers how many. All of them are bytes of the text.
    fn take_run(&mut self, finder: &Finder<'_>, piece: &[u8]) -> usize
        requires live { self.old.outcome ≡ None }
        requires finder { finder.now ≡ 13 ∷ 10 ∷ 46 ∷ [] }
        ensures within { result ≤ length piece.now }
        ensures max { self.new.collected.max ≡ self.old.collected.max }
        ensures behind { (front : List ℕ) → IsBehind self.old.collected front
            → IsBehind self.new.collected front }
        ensures outcome { self.new.outcome ≡ None }
        ensures stands { (wire : List ℕ) → StandsFor self.old wire
            → StandsFor self.new (wire ++ take result piece.now) }
    {
        let Context::Inside = self.context else {
            return 0;
        };
        let len = before_dot(finder, piece);
        self.collector.add_run(&piece[..len]);
        self.context = context_behind(&piece[..len]);
        len
    }

    /// Takes one byte.
    fn step(&mut self, byte: u8) -> Progress
        requires { self.old.outcome ≡ None }
        ensures max { self.new.collected.max ≡ self.old.collected.max }
        ensures behind { (front : List ℕ) → IsBehind self.old.collected front
            → IsBehind self.new.collected front }
        ensures outcome { self.new.outcome ≡ outcome_of result }
        ensures data { (wire : List ℕ) → StandsFor self.old wire
            → Tells result self.new wire (byte ∷ []) }
    {
        match step_from(self.context, byte) {
            Next::Silent(context) => {
                self.context = context;
                Progress::More
            }
            Next::Adds(context) => {
                self.collector.add(byte);
                self.context = context;
                Progress::More
            }
            Next::AddsBoth(context) => {
                self.collector.add(CR);
                self.collector.add(byte);
                self.context = context;
                Progress::More
            }
            Next::Ends => {
                let outcome = self.collector.outcome();
                self.outcome = Some(outcome);
                Progress::Done(outcome)
            }
        }
    }
}
