//! The thread that tells over HTTP what a server is doing, to one after another. What is asked for, and how it is answered, stands in
//! `server_report`; who comes in is a peer that can reach the loopback address.

ghost use Rattle.std.specs.Prelude.{◌≡◌, ◌<◌, IfOk, false, length};

use crate::gathering::{Gathered, gather};
use crate::page::Page;
use crate::site::Site;
use house_history::Naming;
use line_io::{Sink, Watched};
use server_report::{Answer, HEAD_ROOM, Reply, hear, tell};
use serving_workers::{Acceptor, SocketLine};
use shared_consumers::LaneGroup;
use std::alloc::{AllocError, Global};
use std::net::TcpStream;
use std::sync::Wait;
use std::thread::Threads;
use std::time::Duration;
use std::{io, thread};
use workers_sync::{Listening, Patience, Timely};

/// So many seconds whoever asks may say nothing, or take nothing.
const PATIENCE: u64 = 5;

/// So many bytes are read at once of what a peer sends behind its request.
const LAST_ROOM: usize = 256;

// Makes a connection ready: reads and writes fail where the peer says or takes nothing for some seconds.
fn prepare(stream: &TcpStream) -> io::Result<()> {
    let limit = Some(Duration::from_secs(PATIENCE));
    stream.set_nodelay(true)?;
    stream.set_write_timeout(limit)?;
    stream.set_read_timeout(limit)
}

// Room for the head of a request. The number is a parameter, since a proof would count up to a constant.
fn room_of(alloc: Global, size: usize) -> Result<Vec<u8>, AllocError>
    requires { 0 < size }
    ensures { IfOk result (λ room. 0 < length room.items) }
{
    vec![in alloc; 0; size]
}

// An answer that tells that memory was refused.
fn wanting(has_body: bool) -> Reply {
    Reply {
        answer: Answer::NoMemory,
        has_body,
    }
}

// What an answer tells of: what the server is doing, where it is asked for that, and else nothing.
fn gather_for<'s, B: Naming, H: LaneGroup, R: Wait>(
    rt: &R,
    site: &'s Site<B, H>,
    answer: Answer,
) -> Result<Gathered<'s>, AllocError> {
    match answer {
        Answer::Page | Answer::Metrics => gather(rt, site),
        _ => Ok(Gathered::nothing(site.workplace.shared.alloc)),
    }
}

// Answers a request. Where memory is refused that is told in place of it.
fn reply_with<B: Naming, H: LaneGroup, R: Wait, O: Sink>(
    rt: &R,
    site: &Site<B, H>,
    reply: Reply,
    output: &mut O,
)
    requires { O.failed output.old ≡ false }
{
    let alloc = site.workplace.shared.alloc;
    let Ok(gathered) = gather_for(rt, site, reply.answer) else {
        let nothing = Gathered::nothing(alloc);
        let _ = tell(alloc, wanting(reply.has_body), &nothing.snapshot(), output);
        return;
    };
    // Where it can't be sent there is nobody to be told.
    let _ = tell(alloc, reply, &gathered.snapshot(), output);
}

// Hears a peer's request, and answers it.
fn converse<B: Naming, H: LaneGroup, R: Wait>(rt: &R, site: &Site<B, H>, stream: &TcpStream) {
    let mut output = Watched::new(Timely::new(stream));
    let Ok(mut room) = room_of(site.workplace.shared.alloc, HEAD_ROOM) else {
        reply_with(rt, site, wanting(true), &mut output);
        return;
    };
    let mut input = stream;
    let Ok(heard) = hear(&mut input, room.as_mut_slice()) else {
        return;
    };
    reply_with(rt, site, heard.reply, &mut output);
}

// The connection that was accepted is at hand while it is served. Whoever stops the house sets its mark first and then looks for what is at
// hand, so the mark is looked at behind that.
fn attend<B: Naming, H: LaneGroup, R: Wait>(
    rt: &R,
    site: &Site<B, H>,
    page: &Page,
    acceptor: &Acceptor<'_>,
    line: &SocketLine<&Listening>,
    stream: &TcpStream,
) {
    if page.shutdown_handle.hold(rt, stream) && !acceptor.is_shut() && prepare(stream).is_ok() {
        converse(rt, site, stream);
        let mut dropped = [0u8; LAST_ROOM];
        acceptor.part(line, stream, &mut dropped);
    }
    page.shutdown_handle.clear(rt);
}

// Tells one peer after another, the first once all threads stand, until the house stops.
fn tell_each<'s, B: Naming, H: LaneGroup, R: Wait>(rt: &R, site: &'s Site<B, H>, page: &'s Page) {
    let acceptor = Acceptor {
        shutdown_handle: &page.shutdown_handle,
        mark: &site.workplace.mark,
        pause: &site.workplace.pause,
        log: &site.workplace.log,
        names: site.workplace.names(),
        presence: None,
    };
    let mut line = SocketLine::new(&page.listening, Patience::Limited);
    acceptor.mark.await_start(rt);
    for _ in rt.forever() {
        let Some(call) = acceptor.next(rt, &mut line) else {
            return;
        };
        attend(rt, site, page, &acceptor, &line, &call.input);
    }
    unreachable!()
}

/// Starts the thread that tells what the server is doing, where there is a page, and says whether it could be made. Where it can't be the
/// house's mark is set. Nobody is accepted while its start is held, as the caller does.
pub(crate) fn start_telling<
    's,
    E,
    B: Naming + Send + Sync,
    H: LaneGroup + Send,
    R: Threads + Wait + Sync,
>(scope: &thread::Scope<'s, E>, rt: &'s R, site: &'s Site<B, H>) -> bool {
    let Some(page) = &site.page else {
        return true;
    };
    let tells = scope.spawn(move || tell_each(rt, site, page));
    if tells.is_err() {
        site.workplace.mark.set();
        return false;
    }
    true
}
