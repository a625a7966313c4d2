//! In what context of its line the wire stands, and what one byte more does. No text is kept here.

ghost use Rattle.std.specs.Prelude.{◌≡◌, ◌+◌, ℕ, List, length, slice_index};
ghost use Rattle.dot_stuffing.specs.Unstuffing.{IsOpenAt};
ghost use Rattle.dot_stuffing.specs.inner.Unstuffing.{Leads, after, after_two};

use crate::{CR, DOT, LF};

/// What stands in its line before the next byte: that byte's context.
#[derive(Clone, Copy, Debug, PartialEq, Eq)]
pub(crate) enum Context {
    /// Before its first byte.
    Start,
    /// After the dot that a line began with.
    Dot,
    /// After that dot and a CR: the line may be the end, so the CR is held back.
    DotCr,
    /// After other bytes.
    Inside,
    /// After a CR.
    Cr,
}

/// What a byte does to the text, and the context after it.
#[derive(Clone, Copy, Debug, PartialEq, Eq)]
pub(crate) enum Next {
    /// It adds nothing.
    Silent(Context),
    /// It adds itself.
    Adds(Context),
    /// It adds the CR that was held back, and itself.
    AddsBoth(Context),
    /// It ends the data.
    Ends,
}

/// The context after a byte of the text.
fn after(byte: u8) -> Context
    ensures { result ≡ after byte }
{
    if byte == CR {
        Context::Cr
    } else {
        Context::Inside
    }
}

/// The context after two bytes of the text, the second of which is no dot that a line begins with.
fn after_two(first: u8, second: u8) -> Context
    ensures { result ≡ after_two first second }
{
    if second == CR {
        Context::Cr
    } else if first == CR && second == LF {
        Context::Start
    } else {
        Context::Inside
    }
}

/// The context after bytes of the text, where it was inside a line before them and none of them is a dot that a line
/// begins with.
pub(crate) fn context_behind(run: &[u8]) -> Context
    ensures none { length run.now ≡ 0 → result ≡ Context.Inside }
    ensures one { length run.now ≡ 1 → result ≡ after (slice_index run.now 0) }
    ensures more { (n : ℕ) → length run.now ≡ n + 2
        → result ≡ after_two (slice_index run.now n) (slice_index run.now (n + 1)) }
{
    match run.len() {
        0 => Context::Inside,
        1 => after(run[0]),
        len => after_two(run[len - 2], run[len - 1]),
    }
}

/// What a byte does in this context.
pub(crate) fn step_from(context: Context, byte: u8) -> Next
    ensures { (wire : List ℕ) → IsOpenAt context wire → Leads context byte result wire }
{
    match context {
        Context::Start => {
            if byte == DOT {
                Next::Silent(Context::Dot)
            } else {
                Next::Adds(after(byte))
            }
        }
        Context::Dot => {
            if byte == CR {
                Next::Silent(Context::DotCr)
            } else {
                Next::Adds(after(byte))
            }
        }
        Context::DotCr => {
            if byte == LF {
                Next::Ends
            } else {
                Next::AddsBoth(after(byte))
            }
        }
        Context::Inside => Next::Adds(after(byte)),
        Context::Cr => {
            if byte == LF {
                Next::Adds(Context::Start)
            } else {
                Next::Adds(after(byte))
            }
        }
    }
}
