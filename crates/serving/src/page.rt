//! Where the page of a server is asked for. Who answers there stands in `telling`.

use workers_sync::{Listening, ShutdownHandle};

/// Where the page is asked for.
#[derive(Drop)]
pub(crate) struct Page {
    /// Whoever asks comes in here.
    pub(crate) listening: Listening,
    /// For the connection that is at hand.
    pub(crate) shutdown_handle: ShutdownHandle,
}

impl Page {
    /// The page that is asked for there, with nobody at hand.
    pub(crate) fn new(listening: Listening) -> Page {
        Page {
            listening,
            shutdown_handle: ShutdownHandle::new(),
        }
    }
}
