//! A client of a mailbox, as the delivery side keeps it. What it does is told in `clients`.

use cursor_set::CursorHandle;

/// The mailbox that a session entered, and its handle there.
#[derive(Drop)]
pub struct Client {
    /// The mailbox's number.
    pub mailbox: u8,
    /// The session's hold of its cursor.
    pub handle: CursorHandle,
}
