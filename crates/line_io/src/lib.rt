//! Bytes as they come and go: lines of a stream, and a cutter for them; bytes that came and wait to be taken; a sink for what is sent; an outlet for
//! what is said, which is kept in a vector or sent from a buffer over a sink; and the laws of lines. What a line says, where data begins, and what
//! becomes of a text, is for the crates above.
#![tactic(auto)]

mod buffer;
mod cutter;
mod incoming;
mod laws;
mod marks;
mod outgoing;
mod outlet;
mod parts;
mod sink;

pub use buffer::{Buffer, FlushFault};
pub use cutter::LineCutter;
pub use incoming::Incoming;
pub use laws::{each_stream_is_cut_in_one_way, whole_lines_may_be_taken_by_others};
pub use marks::append_marked;
pub use outgoing::Outgoing;
pub use outlet::Outlet;
pub use parts::{append_parts, drop_front, put};
pub use sink::{SendFault, Sink, Watched, send};

/// What a take of a [`LineCutter`] found.
#[derive(Clone, Copy, Debug, PartialEq, Eq)]
pub enum What {
    /// The piece is used up, and no line ended in it.
    NeedMore,
    /// A line ended, and `line` answers it.
    Line,
    /// A line ended that is longer than the most that a line may have. Its bytes are lost.
    TooLong,
}

/// What a take of a [`LineCutter`] used of its piece, and found.
#[derive(Clone, Copy, Debug, PartialEq, Eq)]
pub struct Cut {
    /// How many bytes at the front of the piece were used. The rest is for the next take.
    pub used: usize,
    /// What was found in them.
    pub what: What,
}
