//! The copies that a mailbox took. Contracts speak of all of them; where they are not kept, none is
//! there at run time. Messages, which come and go, are not told here.

ghost use Rattle.std.specs.Prelude.{◌≡◌, [], ◌∷◌, ◌++◌, OnOk, IsOk};
ghost use Rattle.mailbox.specs.Accepted.{kept_of};
ghost use Rattle.mailbox.specs.inner.Accepted.{HasRoom};

use delivery_token::CopyKey;
use http_server::Log;
use std::alloc::{AllocError, Global};
use std::marker::Model;

/// Whether a mailbox keeps which copies it took. It stays as it was made.
#[derive(Clone, Copy, Debug, PartialEq, Eq)]
pub enum History {
    /// Each copy can be read, with its UID, for as long as the mailbox is there.
    Kept,
    /// None can be read, and none takes memory.
    Unkept,
}

// The copies that were accepted, each with its UID.
#[derive(Drop)]
pub(crate) struct Accepted {
    history: History,
    kept: Vec<(CopyKey, u32)>,
    // All of them, for contracts alone.
    all: Log<CopyKey, u32>,
}

impl Model for Accepted {
    ghost use Rattle.std.specs.Prelude.{◌≡◌, ◌-◌, vec_capacity, vec_len};
    ghost use Rattle.mailbox.specs.Accepted.{Accepted, kept_of};

    ghost Value = { Accepted };

    ghost view = { λ a. record { history = a.history; items = a.all.items; spare = vec_capacity a.kept - vec_len a.kept } };

    ghost invariant = { λ a. a.kept.items ≡ kept_of a.history a.all.items };
}

impl Accepted {
    // Whether they are kept.
    pub(crate) fn history(&self) -> History
        ensures { result ≡ self.now.history }
    {
        self.history
    }

    // None was accepted.
    pub(crate) fn new(alloc: Global, history: History) -> Accepted
        ensures history { result.history ≡ history }
        ensures items { result.items ≡ [] }
    {
        Accepted {
            history,
            kept: Vec::new(alloc),
            all: Log::new(),
        }
    }

    // Makes room for one more. An error where memory is refused, which is wanted only where they are
    // kept. What was accepted stays.
    pub(crate) fn reserve(&mut self) -> Result<(), AllocError>
        ensures same { (self.new.history ≡ self.old.history) × (self.new.items ≡ self.old.items) }
        ensures room { OnOk result (HasRoom self.new) }
        ensures unkept { self.old.history ≡ History.Unkept → IsOk result }
    {
        match self.history {
            History::Kept => self.kept.reserve(1),
            History::Unkept => Ok(()),
        }
    }

    // One more, under this UID; there is room for it.
    pub(crate) fn accept(&mut self, key: CopyKey, uid: u32)
        requires { HasRoom self.old }
        ensures history { self.new.history ≡ self.old.history }
        ensures items { self.new.items ≡ self.old.items ++ (key, uid) ∷ [] }
    {
        if let History::Kept = self.history {
            self.kept.push_reserved((key, uid));
        }
        self.all = self.all.and(&key, &uid);
    }

    // Those that are kept.
    pub(crate) fn kept(&self) -> &[(CopyKey, u32)]
        ensures { result.now ≡ kept_of self.now.history self.now.items }
    {
        &self.kept
    }
}
