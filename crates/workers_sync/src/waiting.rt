//! A pause that asks no clock: it waits on a socket on which nothing comes, until the system's own time-out.

use std::io;
use std::net::{Net, UdpSocket};
use std::time::Duration;

/// How many milliseconds a pause is.
const LENGTH: u64 = 100;

/// A socket on which nothing comes.
#[derive(Drop)]
pub struct Pause {
    quiet: UdpSocket,
}

impl Pause {
    /// A socket that hears itself alone, and says nothing.
    ///
    /// Errors: where the system has no socket.
    pub fn new<R: Net>(rt: &R) -> io::Result<Pause> {
        let quiet = UdpSocket::bind(rt, ("127.0.0.1", 0))?;
        let itself = quiet.local_addr()?;
        quiet.connect(itself)?;
        quiet.set_read_timeout(Some(Duration::from_millis(LENGTH)))?;
        Ok(Pause { quiet })
    }

    /// Waits for about a tenth of a second.
    pub fn wait(&self) {
        let mut nothing = [0u8; 1];
        // The time-out is the answer that is wanted.
        let _ = self.quiet.recv(&mut nothing);
    }
}
