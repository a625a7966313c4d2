//! How a connection is made ready, and how it is left so that its peer can read what was said last.

use std::io;
use std::io::Read;
use std::net::{Shutdown, TcpStream};
use std::time::Duration;

/// So many seconds a peer may say nothing where it is its turn, or take nothing (RFC 5321, 4.5.3.2.7).
const PATIENCE: u64 = 300;

/// So many milliseconds each of the last reads waits for a peer to close its side.
const LAST_PATIENCE: u64 = 50;

/// So many last reads there are.
const LAST_READS: u32 = 16;

/// For how long a peer may say nothing where it is its turn.
#[derive(Clone, Copy, Debug, PartialEq, Eq)]
pub enum Patience {
    /// For five minutes.
    Limited,
    /// For as long as it wants, as a mail client may.
    Endless,
}

/// Makes a connection ready: what is written goes out at once, a write fails where the peer takes nothing for five minutes, and a read
/// where it says nothing for longer than there is patience.
///
/// Errors: where the system refuses; the connection is then not to be served.
pub fn prepare(stream: &TcpStream, patience: Patience) -> io::Result<()> {
    let limit = Some(Duration::from_secs(PATIENCE));
    stream.set_nodelay(true)?;
    stream.set_write_timeout(limit)?;
    match patience {
        Patience::Limited => stream.set_read_timeout(limit),
        Patience::Endless => stream.set_read_timeout(None),
    }
}

// Shuts the side that writes, and drops what comes until the peer shuts its own.
fn drain(stream: &TcpStream, buffer: &mut [u8]) -> io::Result<()> {
    stream.shutdown(Shutdown::Write)?;
    stream.set_read_timeout(Some(Duration::from_millis(LAST_PATIENCE)))?;
    let mut stream = stream;
    for _ in 0..LAST_READS {
        if stream.read(buffer)? == 0 {
            return Ok(());
        }
    }
    Ok(())
}

/// Lets the peer read what was said last: the side that writes is shut, and what the peer still sends is read and dropped, until it
/// shuts its own side or is silent for a twentieth of a second. A connection that is closed over bytes which nobody read is reset, and
/// the reset takes from the peer what it has not read yet.
pub fn farewell(stream: &TcpStream, buffer: &mut [u8]) {
    // Where the connection is gone, or the peer is silent, there is no more to do.
    let _ = drain(stream, buffer);
}
