//! The tag of a command that isn't done yet: of an IDLE, of one that goes on behind a literal, or of a message that waits for its verdict.

use arrayvec::ArrayVec;
use std::alloc::{AllocError, Global};
use std::marker::Model;

/// A tag: in place where it has at most 32 bytes, so that no memory is asked for it.
#[derive(Drop)]
pub(crate) struct Tag {
    // One of the two is empty.
    short: ArrayVec<u8, 32>,
    long: Vec<u8>,
}

impl Model for Tag {
    ghost use Rattle.std.specs.Prelude.{◌≡◌, ◌⊎◌, ℕ, List, [], ◌++◌};

    ghost Value = { List ℕ };

    ghost view = { λ t. t.short.items ++ t.long.items };

    ghost invariant = { λ t. (t.short.items ≡ []) ⊎ (t.long.items ≡ []) };
}

impl Tag {
    ghost use Rattle.std.specs.Prelude.{◌≡◌, ◌<◌, length, IfOk, OnErr};

    /// A tag of these bytes.
    ///
    /// Errors: `AllocError` where it has more than 32 bytes and memory was refused.
    pub(crate) fn new(alloc: Global, bytes: &[u8]) -> Result<Tag, AllocError>
        ensures ok { IfOk result (λ tag. tag ≡ bytes.now) }
        ensures memory { OnErr result (32 < length bytes.now) }
    {
        let mut short = ArrayVec::<u8, 32>::new();
        if short.try_extend_from_slice(bytes).is_ok() {
            return Ok(Tag {
                short,
                long: Vec::new(alloc),
            });
        }
        let long = Vec::from_slice(alloc, bytes)?;
        Ok(Tag { short, long })
    }

    /// Its bytes.
    pub(crate) fn as_slice(&self) -> &[u8]
        ensures { result.now ≡ self.now }
    {
        if self.long.is_empty() {
            self.short.as_slice()
        } else {
            &self.long
        }
    }
}
