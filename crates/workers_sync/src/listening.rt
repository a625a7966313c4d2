//! A listener that another thread can shut while threads wait for connections there.

use std::io;
use std::net::{Net, Shutdown, SocketAddr, TcpListener, TcpStream};
use std::os::fd::OwnedFd;

/// A listening socket on a port of the loopback address. Several threads may accept there at once.
#[derive(Drop)]
pub struct Listening {
    listener: TcpListener,
    // The same socket, since only a stream can be shut.
    closer: TcpStream,
    port: u16,
}

impl Listening {
    /// Listens on this port of 127.0.0.1, or on one that the system chooses, where it is 0.
    ///
    /// Errors: where the port can't be had.
    pub fn bind<R: Net<Listener = TcpListener, Stream = TcpStream>>(
        rt: &R,
        port: u16,
    ) -> io::Result<Listening> {
        let listener = TcpListener::bind(rt, ("127.0.0.1", port))?;
        let closer = TcpStream::from(OwnedFd::from(listener.try_clone()?));
        let port = port_of(listener.local_addr()?);
        Ok(Listening {
            listener,
            closer,
            port,
        })
    }

    /// The port on which it listens.
    pub fn port(&self) -> u16 {
        self.port
    }

    /// Waits for the next connection.
    ///
    /// Errors: where the system has no room for one more, where the peer has gone, and always once it is shut.
    pub fn accept(&self) -> io::Result<TcpStream> {
        let (stream, _) = self.listener.accept()?;
        Ok(stream)
    }

    /// Nothing is accepted any more: who waits for a connection is told an error.
    pub fn shut(&self) {
        // Where it can't be shut it wasn't listening.
        let _ = self.closer.shutdown(Shutdown::Both);
    }
}

fn port_of(address: SocketAddr) -> u16 {
    address.port()
}
