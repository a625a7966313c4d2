//! What a client's session is seen to do from without, for the log: that it idles, and that it has lapsed. What it is answered
//! stands in `imap_stream`.

ghost use Rattle.std.specs.Prelude.{◌≡◌};

use crate::watch::Watch;
use imap_stream::{Wakes, Woken};
use line_io::Sink;
use server_report::{Caller, Happened, Log, Presence};
use std::alloc::{AllocError, Global};
use std::io;
use std::io::Read;
use std::net::TcpStream;
use std::sync::atomic::{AtomicBool, Ordering};
use std::sync::{Arc, Wait};
use workers_sync::SessionParker;

/// What is said last to a client that missed too many changes (RFC 9051, 7.1.5).
const LAPSED: &[u8] = b"* BYE Too many changes were missed\r\n";

// How much of that line stands at the end of what was said. A line is said in parts, and what waits may be sent between two of them.
#[derive(Clone, Copy)]
enum Begun {
    Not,
    Bye,
    Words,
}

fn begun_in(said: &[u8]) -> Begun {
    if said.ends_with(b"* BYE ") {
        return Begun::Bye;
    }
    if said.ends_with(b"* BYE Too many changes were missed") {
        return Begun::Words;
    }
    Begun::Not
}

// Whether this ends the line, so much of which was said before.
fn ends_line(begun: Begun, said: &[u8]) -> bool {
    match begun {
        Begun::Not => said.ends_with(LAPSED),
        Begun::Bye => said == b"Too many changes were missed\r\n".as_slice(),
        Begun::Words => said == b"\r\n".as_slice(),
    }
}

/// What a client slot shows of its client's session.
#[derive(Drop)]
pub(crate) struct Sign {
    // Whether it idles: the mark of the client slot's bell.
    idles: Arc<AtomicBool>,
    // Whether it was told that it has missed too many changes.
    has_lapsed: AtomicBool,
    // Which client the client slot has at hand.
    presence: Presence,
}

impl Sign {
    /// Which client the client slot has at hand.
    pub(crate) fn presence(&self) -> &Presence {
        &self.presence
    }

    /// Whether the client's session idles.
    pub(crate) fn is_idling(&self) -> bool {
        self.idles.load(Ordering::SeqCst)
    }

    // It was told that it has missed too many changes.
    fn lapse(&self) {
        self.has_lapsed.store(true, Ordering::SeqCst);
    }
}

// The sign of a client slot that has this bell.
fn sign_of(bell: &SessionParker) -> Result<Sign, AllocError> {
    Ok(Sign {
        idles: bell.idling()?,
        has_lapsed: AtomicBool::new(false),
        presence: Presence::new(),
    })
}

/// A sign for each client slot, which have these bells. An error where memory is refused.
pub(crate) fn signs_of(alloc: Global, bells: &[SessionParker]) -> Result<Vec<Sign>, AllocError> {
    let mut signs = Vec::with_capacity(alloc, bells.len())?;
    for bell in bells {
        signs.push(sign_of(bell)?)?;
    }
    Ok(signs)
}

/// Where a client's answers go, past a sign that looks whether its session lapses.
#[derive(Drop)]
pub(crate) struct Signed<'s, W> {
    output: W,
    sign: Option<&'s Sign>,
    begun: Begun,
}

impl<'s, W: Sink> Signed<'s, W> {
    /// The output, past this sign, where there is one.
    pub(crate) fn new(output: W, sign: Option<&'s Sign>) -> Signed<'s, W>
        ensures taken { ⟦<Signed<'s, W> as Sink>⟧.taken result ≡ W.taken output }
        ensures live { ⟦<Signed<'s, W> as Sink>⟧.failed result ≡ W.failed output }
    {
        Signed {
            output,
            sign,
            begun: Begun::Not,
        }
    }

    // Looks whether this ends what a client is told that has lapsed.
    fn see(&mut self, said: &[u8])
        ensures { self.new ≡ record self.old { begun = self.new.begun } }
    {
        let Some(sign) = self.sign else {
            return;
        };
        if ends_line(self.begun, said) {
            sign.lapse();
        }
        self.begun = begun_in(said);
    }
}

impl<'s, W: Sink> Sink for Signed<'s, W> {
    ghost taken = { λ s. W.taken s.output };

    ghost failed = { λ s. W.failed s.output };

    fn offer(&mut self, bytes: &[u8]) -> Option<usize> {
        self.see(bytes);
        self.output.offer(bytes)
    }
}

/// One client, of whom the log is told.
#[derive(Clone, Copy)]
pub(crate) struct Visitor<'s> {
    pub(crate) log: &'s Log,
    pub(crate) alloc: Global,
    pub(crate) caller: Caller<'s>,
    /// The sign of its client slot.
    pub(crate) sign: Option<&'s Sign>,
}

impl<'s> Visitor<'s> {
    /// This happened to it.
    pub(crate) fn tell<R: Wait>(self, rt: &R, what: Happened) {
        self.log.tell(rt, self.alloc, self.caller, what);
    }

    /// It comes: no session of its client slot has lapsed yet.
    pub(crate) fn open<R: Wait>(self, rt: &R) {
        if let Some(sign) = self.sign {
            sign.has_lapsed.store(false, Ordering::SeqCst);
        }
        self.tell(rt, Happened::Open);
    }

    // Whether its session idles.
    fn is_idling(self) -> bool {
        match self.sign {
            Some(sign) => sign.is_idling(),
            None => false,
        }
    }

    /// Whether its session was told that it has missed too many changes.
    pub(crate) fn has_lapsed(self) -> bool {
        match self.sign {
            Some(sign) => sign.has_lapsed.load(Ordering::SeqCst),
            None => false,
        }
    }
}

/// What comes of a client. Before each read the log is told where its session has begun to idle.
#[derive(Drop)]
pub(crate) struct Incoming<'s, 't, R: Wait> {
    rt: &'s R,
    stream: &'t TcpStream,
    visitor: Visitor<'s>,
    watch: &'s Watch,
    // The client slot's number, its end of its bell, and how many waits it has had.
    client_slot: u8,
    bell: &'t SessionParker,
    waits: &'t mut u64,
    // Whether the watch looks at what comes since the last read.
    is_looked_at: bool,
    idled: bool,
}

impl<'s, 't, R: Wait> Incoming<'s, 't, R> {
    /// Nothing was read yet.
    pub(crate) fn new(
        rt: &'s R,
        stream: &'t TcpStream,
        visitor: Visitor<'s>,
        watch: &'s Watch,
        client_slot: u8,
        bell: &'t SessionParker,
        waits: &'t mut u64,
    ) -> Incoming<'s, 't, R> {
        Incoming {
            rt,
            stream,
            visitor,
            watch,
            client_slot,
            bell,
            waits,
            is_looked_at: false,
            idled: false,
        }
    }

    /// Nothing more is read: the watch looks at it no more.
    pub(crate) fn end(&self) {
        if self.is_looked_at {
            self.watch.let_go(self.stream);
        }
    }

    // Tells where the session has begun to idle.
    fn look(&mut self) {
        let idles = self.visitor.is_idling();
        if idles && !self.idled {
            self.visitor.tell(self.rt, Happened::Idle);
        }
        self.idled = idles;
    }
}

impl<'s, 't, R: Wait> Read for Incoming<'s, 't, R> {
    fn read(&mut self, buffer: &mut [u8]) -> io::Result<usize> {
        self.look();
        let mut stream = self.stream;
        stream.read(buffer)
    }
}

impl<'s, 't, R: Wait> Wakes for Incoming<'s, 't, R> {
    fn wait(&mut self) -> Woken {
        self.look();
        if !self.is_looked_at {
            *self.waits = self.waits.wrapping_add(1);
            let wait = *self.waits;
            if self
                .watch
                .look_at(self.client_slot, wait, self.stream)
                .is_err()
            {
                return Woken::Peer;
            }
            self.is_looked_at = true;
        }
        self.bell.sleep(self.rt);
        if !self.watch.has_ended(self.client_slot, *self.waits) {
            return Woken::Bell;
        }
        self.watch.let_go(self.stream);
        self.is_looked_at = false;
        Woken::Peer
    }
}
