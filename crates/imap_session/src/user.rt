//! The name of the user as whom a client is to log in (RFC 9051, 6.2.3).
//! Whether a command has that name is told in `access`.

use std::alloc::{AllocError, Global};
use std::marker::Model;

/// A user's name: in contracts its bytes.
#[derive(Drop)]
pub struct UserName {
    bytes: Vec<u8>,
}

impl Model for UserName {
    ghost use Rattle.std.specs.Prelude.{List, ℕ};

    ghost Value = { List ℕ };

    ghost view = { λ u. u.bytes.items };
}

impl UserName {
    ghost use Rattle.std.specs.Prelude.{◌≡◌, IfOk};

    /// The name of these bytes.
    ///
    /// Errors: `AllocError` where memory was refused.
    pub fn new(alloc: Global, bytes: &[u8]) -> Result<UserName, AllocError>
        ensures { IfOk result (λ name. name ≡ bytes.now) }
    {
        let bytes = Vec::from_slice(alloc, bytes)?;
        Ok(UserName { bytes })
    }

    /// Its bytes.
    pub fn as_bytes(&self) -> &[u8]
        ensures { result.now ≡ self.now }
    {
        &self.bytes
    }
}
