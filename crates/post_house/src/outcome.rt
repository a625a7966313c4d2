//! What came of a command: what it was asked for and what came of that, or why it was refused.

use clap::error::ErrorKind;
use command_line::Asked;
use script::ScriptFault;
use serving::ServeFault;

/// What came of what was asked for.
#[derive(Clone, Copy)]
pub enum Done {
    /// A script was played, or why it wasn't, or not to its end.
    Played(Result<(), ScriptFault>),
    /// A server served until it was stopped, or why it didn't.
    Served(Result<(), ServeFault>),
}

/// What came of the words of a command line.
#[derive(Drop)]
pub enum Outcome {
    /// They ask for this, and this came of it.
    Did(Asked, Done),
    /// They ask for nothing that is done: clap's error was of this kind, and was told.
    Refused(ErrorKind),
}

/// What a command came to, and its exit status.
#[derive(Drop)]
pub struct Ran {
    /// What was asked for and done.
    pub outcome: Outcome,
    /// The exit status.
    pub status: u8,
}
