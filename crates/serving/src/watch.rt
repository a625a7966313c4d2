//! The watch: one thread waits for the clients of all sessions that idle, and wakes the thread of a client slot whose client has sent something. Each of those
//! sleeps on its session's bell meanwhile. What it does then is its own matter.

use crate::site::Site;
use house_history::Naming;
use mio::unix::SourceFd;
use mio::{Events, Interest, Poll, Registry, Token, Waker};
use shared_consumers::LaneGroup;
use std::alloc::Global;
use std::net::{Net, TcpStream};
use std::os::fd::AsRawFd;
use std::sync::Wait;
use std::sync::atomic::{AtomicU64, Ordering};
use std::thread::Threads;
use std::{io, thread};
use workers_sync::{SessionBell, SessionParker};

/// So many clients are told at once at most.
const AT_ONCE: usize = 64;

/// What the watch is told by, as the house stops: no client slot has this number.
const STOP: Token = Token(255);

/// So many numbers of client slots there are: a token is that of a client slot and the number of its wait.
const CLIENT_SLOTS: u64 = 256;

/// What the watch's thread waits with.
#[derive(Drop)]
pub(crate) struct Lookout {
    poll: Poll,
    events: Events<Global>,
}

/// What the watch and the client slots share.
#[derive(Drop)]
pub(crate) struct Watch {
    registry: Registry,
    waker: Waker,
    // For each client slot the number of the last wait that its client has ended.
    ended: Vec<AtomicU64>,
    // For each client slot what wakes its thread.
    bells: Vec<SessionBell>,
}

// The token of a client slot's wait of this number.
fn token_of(client_slot: u8, wait: u64) -> Token {
    Token((wait.wrapping_mul(CLIENT_SLOTS) | u64::from(client_slot)) as usize)
}

impl Lookout {
    /// Errors: where the system or memory refuses it.
    pub(crate) fn new<R: Net>(rt: &R, alloc: Global) -> io::Result<Lookout> {
        Ok(Lookout {
            poll: Poll::new(rt)?,
            events: Events::with_capacity(alloc, AT_ONCE)?,
        })
    }
}

impl Watch {
    /// The watch over the client slots that have these bells, by whoever has this lookout. Errors: where the system or memory refuses it.
    pub(crate) fn new(
        alloc: Global,
        lookout: &Lookout,
        bells: &[SessionParker],
    ) -> io::Result<Watch> {
        let registry = lookout.poll.registry().try_clone()?;
        let waker = Waker::new(&registry, STOP)?;
        let mut ended = Vec::with_capacity(alloc, bells.len())?;
        let mut woken = Vec::with_capacity(alloc, bells.len())?;
        for bell in bells {
            ended.push(AtomicU64::new(0))?;
            woken.push(bell.bell()?)?;
        }
        Ok(Watch {
            registry,
            waker,
            ended,
            bells: woken,
        })
    }

    /// The client slot's client is looked at from now on, for its wait of this number: what there is of it already is told too. Errors: where the system refuses.
    pub(crate) fn look_at(&self, client_slot: u8, wait: u64, stream: &TcpStream) -> io::Result<()> {
        let socket = stream.as_raw_fd();
        let token = token_of(client_slot, wait);
        self.registry
            .register(&mut SourceFd(&socket), token, Interest::READABLE)
    }

    /// It isn't looked at any more.
    pub(crate) fn let_go(&self, stream: &TcpStream) {
        let socket = stream.as_raw_fd();
        // A socket that has gone isn't looked at.
        let _ = self.registry.deregister(&mut SourceFd(&socket));
    }

    /// Whether the client has ended the client slot's wait of this number.
    pub(crate) fn has_ended(&self, client_slot: u8, wait: u64) -> bool {
        match self.ended.get(usize::from(client_slot)) {
            Some(ended) => ended.load(Ordering::SeqCst) == wait,
            None => true,
        }
    }

    // The client of the client slot that is told of has sent something, or has gone.
    fn tell(&self, token: Token) {
        let number = token.0 as u64;
        let client_slot = (number % CLIENT_SLOTS) as usize;
        let (Some(ended), Some(bell)) = (self.ended.get(client_slot), self.bells.get(client_slot))
        else {
            return;
        };
        ended.store(number / CLIENT_SLOTS, Ordering::SeqCst);
        bell.wake();
    }

    /// The watch is over.
    pub(crate) fn stop(&self) {
        // It fails only where the system has no memory for one number.
        let _ = self.waker.wake();
    }
}

// Waits for the clients that are looked at, and wakes the threads of their client slots, until the house stops.
fn keep_watch<B: Naming, H: LaneGroup, R: Wait>(rt: &R, site: &Site<B, H>, lookout: Lookout) {
    let Lookout {
        mut poll,
        mut events,
    } = lookout;
    for _ in rt.forever() {
        let waited = poll.poll(&mut events, None);
        if site.workplace.mark.stop.load(Ordering::SeqCst) {
            return;
        }
        if waited.is_err() {
            site.workplace.pause.wait();
        }
        for event in events.iter() {
            site.watch.tell(event.token());
        }
    }
    unreachable!()
}

/// Starts the watch, and says whether its thread could be made.
pub(crate) fn start_watch<
    's,
    E,
    B: Naming + Send + Sync,
    H: LaneGroup + Send,
    R: Threads + Wait + Sync,
>(scope: &thread::Scope<'s, E>, rt: &'s R, site: &'s Site<B, H>, lookout: Lookout) -> bool {
    scope.spawn(move || keep_watch(rt, site, lookout)).is_ok()
}
