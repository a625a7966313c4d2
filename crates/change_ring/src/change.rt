//! What happens to a mailbox: plain data. How changes are kept is told in `ring`.

/// The flags of a message (RFC 9051, 2.3.2): each is set or not.
#[derive(Clone, Copy, Debug, PartialEq, Eq)]
pub struct Flags {
    /// \Answered: the message has been answered.
    pub answered: bool,
    /// \Flagged: the message is marked for attention.
    pub flagged: bool,
    /// \Deleted: the message may be removed by an expunge.
    pub deleted: bool,
    /// \Seen: the message has been read.
    pub seen: bool,
    /// \Draft: the message is not complete yet.
    pub draft: bool,
}

/// None of the flags: what a copy has that no client gave any.
pub const NO_FLAGS: Flags = Flags {
    answered: false,
    flagged: false,
    deleted: false,
    seen: false,
    draft: false,
};

/// One change of a mailbox.
#[derive(Clone, Copy, Debug, PartialEq, Eq)]
pub enum Change {
    /// A message with this UID was added, with no flags.
    Add(u32),
    /// The message with this UID is gone.
    Gone(u32),
    /// The message with this UID has these flags.
    Flags(u32, Flags),
}
