//! What a script and a server are asked for besides the settings of their house: how a script is told, what a server warns of, and what it
//! tells the people who run it.

/// How a run tells what the lines of its script print.
#[derive(Clone, Copy, Debug, PartialEq, Eq)]
pub enum Form {
    /// As it is printed.
    Text,
    /// One JSON object a line of the script, with its number, the line and what it printed. Nothing tells of empty lines and comments,
    /// unless one prints something.
    Json,
}

/// Whether whoever starts a server said which UIDVALIDITY its mailboxes have.
#[derive(Clone, Copy, Debug, PartialEq, Eq)]
pub enum Uidvalidity {
    /// It was said: nothing is told of it.
    Given,
    /// It is the default, and a line warns of that.
    Default,
}

/// What a server is asked to tell, beside its listeners.
#[derive(Clone, Copy, Debug, PartialEq, Eq)]
pub struct Reporting {
    /// Whether a line is written for each thing that happens.
    pub log: bool,
    /// The port of its page, where it is to have one; 0 for a free one. With it what happens is counted.
    pub status: Option<u16>,
}
