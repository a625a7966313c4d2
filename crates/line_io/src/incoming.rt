//! The bytes that came from a peer and wait to be taken, of which a part may be taken at a time. What they mean is its users' matter.

ghost use Rattle.std.specs.Prelude.{◌≡◌, ◌≤◌, ◌<◌, ◌++◌, [], length, drop, OnErr, OnOk};

use crate::parts::drop_front;
use std::alloc::{AllocError, Global};
use std::marker::Model;

/// Bytes that came and aren't taken yet, in their order.
#[derive(Drop)]
pub struct Incoming {
    // What came; the bytes before `taken` were taken.
    came: Vec<u8>,
    taken: usize,
}

impl Model for Incoming {
    ghost use Rattle.std.specs.Prelude.{◌≤◌, List, ℕ, drop, length};

    ghost Value = { List ℕ };

    ghost view = { λ i. drop i.taken i.came.items };

    ghost invariant = { λ i. i.taken ≤ length i.came.items };
}

impl Incoming {
    /// Nothing came yet. It takes no memory.
    pub fn new(alloc: Global) -> Incoming
        ensures { result ≡ [] }
    {
        Incoming {
            came: Vec::new(alloc),
            taken: 0,
        }
    }

    /// These bytes came, and wait behind the others.
    ///
    /// Errors: `AllocError` where memory was refused, and only where there are bytes; nothing is changed then.
    pub fn append(&mut self, piece: &[u8]) -> Result<(), AllocError>
        // After Ok the bytes wait behind all others; after an error nothing has changed, and there were bytes.
        ensures ok { OnOk result (self.new ≡ self.old ++ piece.now) }
        ensures err { OnErr result (self.new ≡ self.old) }
        ensures asks { OnErr result (0 < length piece.now) }
    {
        self.came.extend_from_slice(piece)
    }

    /// All that waits.
    pub fn as_slice(&self) -> &[u8]
        ensures { result.now ≡ self.now }
    {
        &self.came[self.taken..]
    }

    // Lets go of the bytes that were taken, once they are more than what waits behind them. So what is moved up was never
    // more than what is let go, and what is kept is at most twice what waits.
    fn let_go(&mut self)
        ensures { self.new ≡ self.old }
    {
        if self.taken > self.came.len() / 2 {
            drop_front(&mut self.came, self.taken);
            self.taken = 0;
        }
    }

    /// So many bytes were taken from the front. Those wait no more.
    pub fn take(&mut self, used: usize)
        requires { used ≤ length self.old }
        ensures { self.new ≡ drop used self.old }
    {
        self.taken += used;
        self.let_go();
    }

    /// What waits is dropped.
    pub fn clear(&mut self)
        ensures { self.new ≡ [] }
    {
        self.came.clear();
        self.taken = 0;
    }
}
