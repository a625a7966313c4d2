//! The rest of whoever writes a log, from which it can be woken. It asks no clock: it waits on a socket that hears itself alone, until the
//! system's own time-out.

use std::io;
use std::net::{Net, UdpSocket};
use std::time::Duration;

/// How many milliseconds a nap is, where nobody ends it.
const LENGTH: u64 = 50;

/// A socket on which nothing comes but what it sends itself.
#[derive(Drop)]
pub(crate) struct Nap {
    quiet: UdpSocket,
}

impl Nap {
    /// Such a socket. Errors: where the system has none.
    pub(crate) fn new<R: Net>(rt: &R) -> io::Result<Nap> {
        let quiet = UdpSocket::bind(rt, ("127.0.0.1", 0))?;
        let itself = quiet.local_addr()?;
        quiet.connect(itself)?;
        quiet.set_read_timeout(Some(Duration::from_millis(LENGTH)))?;
        Ok(Nap { quiet })
    }

    /// Rests for about a twentieth of a second, or until it is ended.
    pub(crate) fn rest(&self) {
        let mut byte = [0u8; 1];
        // The time-out is an answer too.
        let _ = self.quiet.recv(&mut byte);
    }

    /// Ends the nap of whoever rests, or the next one.
    pub(crate) fn end(&self) {
        // Where it can't be sent the nap ends by itself.
        let _ = self.quiet.send(b"!");
    }
}
