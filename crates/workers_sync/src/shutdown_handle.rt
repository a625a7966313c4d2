//! The connection that a thread has at hand, for whoever stops the thread. Only the socket's ends are touched here; its bytes are the
//! thread's own.

use std::net::{Shutdown, TcpStream};
use std::sync::{Mutex, Wait};

/// Where a thread puts the connection that it serves.
#[derive(Drop)]
pub struct ShutdownHandle {
    stream: Mutex<Option<TcpStream>>,
}

impl ShutdownHandle {
    /// A shutdown handle with no connection.
    pub fn new() -> ShutdownHandle {
        ShutdownHandle {
            stream: Mutex::new(None),
        }
    }

    /// This connection is at hand from now on. Answers whether the shutdown handle could take hold of it: where the system refuses a second handle
    /// nobody could stop it, so it isn't to be served.
    pub fn hold<R: Wait>(&self, rt: &R, stream: &TcpStream) -> bool {
        let Ok(handle) = stream.try_clone() else {
            return false;
        };
        self.set(rt, Some(handle));
        true
    }

    /// No connection is at hand any more.
    pub fn clear<R: Wait>(&self, rt: &R) {
        self.set(rt, None);
    }

    /// Whether no connection is at hand.
    pub fn is_empty<R: Wait>(&self, rt: &R) -> bool {
        self.stream.lock(rt).is_none()
    }

    /// The thread hears its peer no more: a read that waits finds the end. What it says is sent still.
    pub fn shut_read<R: Wait>(&self, rt: &R) {
        self.shutdown(rt, Shutdown::Read);
    }

    /// The connection is cut: a write that waits fails.
    pub fn cut<R: Wait>(&self, rt: &R) {
        self.shutdown(rt, Shutdown::Both);
    }

    fn set<R: Wait>(&self, rt: &R, stream: Option<TcpStream>) {
        let mut held = self.stream.lock(rt);
        *held = stream;
    }

    fn shutdown<R: Wait>(&self, rt: &R, how: Shutdown) {
        let held = self.stream.lock(rt);
        if let Some(stream) = &*held {
            // Where its peer has gone there is nothing to shut.
            let _ = stream.shutdown(how);
        }
    }
}
