//! What passes between a connection and its server: how far a call of `feed` came, and a message that was submitted. Plain data, with
//! no code.

use budget::Budget;
use delivery_token::{CopyKey, Text};

/// What a call of `feed` came to.
#[derive(Clone, Copy, Debug, PartialEq, Eq)]
pub enum What {
    /// All that was used is heard; the next bytes may come.
    More,
    /// A message was submitted, and its verdicts are awaited.
    Submit,
    /// The connection has ended.
    Quit,
}

/// How many bytes of a piece were used, and what that came to.
#[derive(Clone, Copy, Debug, PartialEq, Eq)]
pub struct Fed {
    /// So many bytes of the piece were used, from its front.
    pub used: usize,
    /// What that came to.
    pub what: What,
}

/// A message for its recipients: key and mailbox of each, in the order of RCPT, and the text that is to be stored.
#[derive(Drop)]
pub struct Submission {
    /// The key of each copy, at most 100 of them.
    pub keys: Vec<CopyKey>,
    /// The number of the mailbox that each copy is for, at the position of its key.
    pub mailboxes: Vec<u8>,
    /// The text that is to be stored, which all copies share.
    pub text: Text,
}

/// What a connection has to know of its server.
#[derive(Clone, Copy)]
pub struct Limits<'a> {
    /// The server's name, of at most 255 bytes.
    pub host: &'a [u8],
    /// The most bytes of a message's unstuffed data.
    pub max_message: usize,
    /// What the texts of messages are charged to.
    pub budget: &'a Budget,
}
