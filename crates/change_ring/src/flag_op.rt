//! What a client does to a message's flags, and what comes of it. Which changes that logs is said
//! in `specs/Log.antt`; no log is written here.

ghost use Rattle.std.specs.Prelude.{◌≡◌};
ghost use Rattle.change_ring.specs.Log.{flags_after, flags_differ};

use crate::change::Flags;

/// A change of a message's flags (RFC 9051, 6.4.6).
#[derive(Clone, Copy, Debug, PartialEq, Eq)]
pub enum FlagOp {
    /// These flags in place of those that are set.
    Set(Flags),
    /// These flags beside those that are set.
    Insert(Flags),
    /// Those that are set without these.
    Remove(Flags),
}

impl FlagOp {
    /// The flags of a message after this.
    pub fn after(self, flags: Flags) -> Flags
        ensures { result ≡ flags_after self flags }
    {
        match self {
            FlagOp::Set(named) => named,
            FlagOp::Insert(named) => Flags {
                answered: flags.answered || named.answered,
                flagged: flags.flagged || named.flagged,
                deleted: flags.deleted || named.deleted,
                seen: flags.seen || named.seen,
                draft: flags.draft || named.draft,
            },
            FlagOp::Remove(named) => Flags {
                answered: flags.answered && !named.answered,
                flagged: flags.flagged && !named.flagged,
                deleted: flags.deleted && !named.deleted,
                seen: flags.seen && !named.seen,
                draft: flags.draft && !named.draft,
            },
        }
    }
}

impl Flags {
    /// Whether some flag is set in one of them and not in the other.
    pub fn differ_from(self, other: Flags) -> bool
        ensures { result ≡ flags_differ self other }
    {
        self.answered != other.answered
            || self.flagged != other.flagged
            || self.deleted != other.deleted
            || self.seen != other.seen
            || self.draft != other.draft
    }
}
