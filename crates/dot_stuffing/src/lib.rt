//! Mail data on the wire (RFC 5321, section 4.5.2): a dot more before each line that begins with
//! one, and a line of one dot at the end. Both ways and their laws stand here; where data begins,
//! and what becomes of a text, is for the crates above.
#![tactic(auto)]

mod buffer;
mod collector;
mod context;
mod dots;
mod laws;
mod unstuffer;

pub use dots::stuff;
pub use laws::{data_ends_once, data_has_one_text, open_data_has_not_ended, stuffed_data_is_plain};
pub use unstuffer::Unstuffer;

const CR: u8 = 13;

const LF: u8 = 10;

const DOT: u8 = 46;

const NUL: u8 = 0;

/// What came of data that has ended. The first that holds is the outcome.
#[derive(Clone, Copy, Debug, PartialEq, Eq)]
pub enum Outcome {
    /// The text has a NUL byte.
    Nul,
    /// The text is longer than it may be.
    TooBig,
    /// Memory for the text was refused.
    NoMemory,
    /// The text is there.
    Ok,
}

/// What a take of an [`Unstuffer`] found.
#[derive(Clone, Copy, Debug, PartialEq, Eq)]
pub enum Progress {
    /// The piece is used up, and the data has not ended.
    More,
    /// The data ended.
    Done(Outcome),
}

/// What a take of an [`Unstuffer`] used of its piece, and found.
#[derive(Clone, Copy, Debug, PartialEq, Eq)]
pub struct Taken {
    /// How many bytes at the front of the piece were used. What is behind the end of the data isn't.
    pub used: usize,
    /// Whether the data ended with them, and what came of it.
    pub what: Progress,
}
