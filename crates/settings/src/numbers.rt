//! The numbers among the settings: how far each may go, and which stands where none is given. Whoever reads or explains settings takes
//! both from here. What the numbers are for is told in `config`.

ghost use Rattle.std.specs.Prelude.{◌≡◌, true, false};
ghost use Rattle.settings.specs.Settings.{IsFrom, most_sessions};

/// A number among the settings.
#[derive(Clone, Copy, Debug, PartialEq, Eq)]
pub struct Number {
    /// The least that it may be.
    pub least: u64,
    /// The most that it may be.
    pub most: u64,
    /// What it is where none is given.
    pub default: u64,
}

impl Number {
    /// Whether it may be this.
    pub fn allows(self, value: u64) -> bool
        ensures within { result ≡ true → IsFrom self.least self.most value }
        ensures beyond { result ≡ false → IsFrom self.least self.most value → ⊥ }
    {
        self.least <= value && value <= self.most
    }
}

/// Shards that keep the mailboxes.
pub const SHARDS: Number = Number {
    least: 1,
    most: 8,
    default: 1,
};

/// Entries that each shard's lane has room for.
pub const DEPTH: Number = Number {
    least: 1,
    most: 1024,
    default: 64,
};

/// Changes that each mailbox keeps.
pub const RING: Number = Number {
    least: 16,
    most: 65_536,
    default: 2048,
};

/// Changes that each mailbox keeps at most, for clients that fall behind.
pub const RING_MAX: Number = Number {
    least: 0,
    most: 65_536,
    default: 0,
};

/// Messages that each mailbox may hold.
pub const MESSAGES: Number = Number {
    least: 1,
    most: 32_768,
    default: 1024,
};

/// Bytes that a message's data may have.
pub const MAX_MESSAGE: Number = Number {
    least: 1,
    most: 16_777_216,
    default: 1_048_576,
};

/// What each mailbox tells as its UIDVALIDITY (RFC 9051, 2.3.1.1).
pub const UIDVALIDITY: Number = Number {
    least: 1,
    most: 4_294_967_295,
    default: 1,
};

/// The UID of each mailbox's first message.
pub const FIRST_UID: Number = Number {
    least: 1,
    most: 4_294_967_294,
    default: 1,
};

/// Sessions of each user that run or are served at a time, in the standard profile.
pub const SESSIONS: Number = Number {
    least: 1,
    most: 4,
    default: 2,
};

/// Sessions of each user that run or are served at a time, in the compatible profile: its clients open several, and a front one for each
/// of its own.
pub const COMPATIBLE_SESSIONS: Number = Number {
    least: 1,
    most: 16,
    default: 2,
};

/// Sessions of each user, in either profile.
pub fn sessions_of(compatible: bool) -> Number
    ensures least { result.least ≡ 1 }
    ensures most { result.most ≡ most_sessions compatible }
{
    if compatible {
        COMPATIBLE_SESSIONS
    } else {
        SESSIONS
    }
}

/// LMTP connections that are served at a time.
pub const WORKERS: Number = Number {
    least: 1,
    most: 8,
    default: 4,
};

/// The port that mail comes to; 0 for one that the system chooses.
pub const LMTP_PORT: Number = Number {
    least: 0,
    most: 65_535,
    default: 2424,
};

/// The port of the first user's sessions; 0 for ports that the system chooses, one for each user.
pub const IMAP_PORT: Number = Number {
    least: 0,
    most: 65_472,
    default: 14_300,
};

/// The least port of the first user's sessions but for 0.
pub const LEAST_IMAP_PORT: u64 = 1024;
