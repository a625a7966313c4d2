//! The plain data that the definitions of the world speak of, and that no crate below has. Nothing
//! here does anything.

use delivery_token::{Job, Noted};

/// What a shard's consumer has in its hand.
#[derive(Drop)]
pub enum Hand {
    /// Nothing.
    Empty,
    /// A copy that is not delivered yet.
    Taken(Job),
    /// A verdict that its seat has not been sent yet.
    Done(Noted),
}
