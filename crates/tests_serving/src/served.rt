//! A server over lists: what each peer was told, and what stands in the mailboxes then.

ghost use Rattle.std.specs.Prelude.{◌≡◌};
ghost use Rattle.std.specs.Prelude.{false};
ghost use Rattle.settings.specs.Settings.{IsInRange};

use crate::lists::{ListLine, ListLines, Lists};
use house_history::{Naming, Opened};
use line_io::{Sink, Watched};
use serving::{Beginning, ServeFault, serve_house};
use serving_workers::Finished;
use settings::{Config, Reporting, Uidvalidity};
use std::alloc::{AllocError, Global};
use std::io;
use std::io::{ErrorKind, Read};
use std::marker::Brand;
use std::net::{Net, TcpListener, TcpStream};
use std::sync::atomic::{AtomicUsize, Ordering};
use std::sync::{Arc, Wait};
use std::thread::Threads;

// Why there is nothing to look at.
#[derive(Clone, Copy, Debug, PartialEq, Eq)]
enum Stopped {
    OutOfRange,
    Fault(ServeFault),
    NoMemory,
}

impl From<AllocError> for Stopped {
    fn from(_error: AllocError) -> Stopped {
        Stopped::NoMemory
    }
}

// Ends once so many lines have nobody left.
#[derive(Drop)]
struct UntilDone {
    done: Arc<AtomicUsize>,
    lines: usize,
}

impl Read for UntilDone {
    fn read(&mut self, _buffer: &mut [u8]) -> io::Result<usize> {
        if self.done.load(Ordering::SeqCst) < self.lines {
            return Err(io::Error::from(ErrorKind::Interrupted));
        }
        Ok(0)
    }
}

// What is looked at of a server, whatever its history is called: of each worker what its peers were told, one behind the other, and of each mailbox
// the texts there.
#[derive(Drop)]
struct Seen {
    told: Vec<Vec<u8>>,
    texts: Vec<Vec<u8>>,
}

// What the peers of this line were told, one behind the other.
fn told_on(alloc: Global, line: &Option<ListLine>) -> Result<Vec<u8>, AllocError> {
    let mut all = Vec::new(alloc);
    if let Some(line) = line {
        for paper in line.said() {
            all.extend_from_slice(paper.bytes.as_slice())?;
        }
    }
    Ok(all)
}

fn looked_at<B: Naming>(
    alloc: Global,
    finished: Finished<B, ListLine>,
) -> Result<Seen, AllocError> {
    let Finished {
        closes: _,
        mailboxes,
        lines,
        front: _,
    } = finished;
    let mut told = Vec::new(alloc);
    for line in &lines {
        told.push(told_on(alloc, line)?)?;
    }
    let mut texts = Vec::new(alloc);
    for locked in &mailboxes {
        let mut all = Vec::new(alloc);
        for (_uid, text) in &locked.mailbox().texts(alloc)? {
            all.extend_from_slice(text.as_slice())?;
        }
        texts.push(all)?;
    }
    Ok(Seen { told, texts })
}

// The lines of these lists, and what ends once so many of them have nobody left.
fn mail_of(
    alloc: Global,
    lists: Vec<Lists>,
    lines: usize,
) -> Result<(ListLines, UntilDone), AllocError> {
    let done = Arc::new(alloc, AtomicUsize::new(0))?;
    let stop = UntilDone {
        done: done.clone()?,
        lines,
    };
    Ok((ListLines { lists, done }, stop))
}

// Serves these lists with these settings, by a history that was just opened.
fn served<
    B: Naming + Send + Sync,
    R: Net<Listener = TcpListener, Stream = TcpStream> + Threads + Wait + Sync,
>(
    rt: &R,
    alloc: Global,
    history: Opened,
    config: &Config,
    lists: Vec<Lists>,
) -> Result<Seen, Stopped>
    requires history { history ≡ B.book }
    requires range { IsInRange config.now }
{
    let (mail, stop) = mail_of(alloc, lists, usize::from(config.workers))?;
    let beginning = Beginning {
        history,
        mail,
        uidvalidity: Uidvalidity::Given,
        report: Reporting {
            log: false,
            status: None,
        },
    };
    let mut output = Watched::new(Vec::new(alloc));
    let errors: Vec<u8> = Vec::new(alloc);
    match serve_house::<B, R, ListLine, ListLines, UntilDone, Watched<Vec<u8>>, Vec<u8>>(
        rt,
        alloc,
        config,
        beginning,
        stop,
        &mut output,
        errors,
    ) {
        Ok(finished) => Ok(looked_at(alloc, finished)?),
        Err(fault) => Err(Stopped::Fault(fault)),
    }
}

// What one line's peers send.
fn calls_of(alloc: Global, list: &[&[u8]]) -> Result<Lists, AllocError> {
    let mut calls = Vec::new(alloc);
    for call in list {
        calls.push(Vec::from_slice(alloc, call)?)?;
    }
    Ok(calls)
}

// The same of all lines.
fn lists_of(alloc: Global, lists: &[&[&[u8]]]) -> Result<Vec<Lists>, AllocError> {
    let mut all = Vec::new(alloc);
    for list in lists {
        all.push(calls_of(alloc, list)?)?;
    }
    Ok(all)
}

// Serves two users' mail by so many workers, whose peers send these.
fn serve_lists<R: Net<Listener = TcpListener, Stream = TcpStream> + Threads + Wait + Sync>(
    rt: &R,
    alloc: Global,
    lists: &[&[&[u8]]],
) -> Result<Seen, Stopped> {
    let mut config = Config::new(alloc, &[b"alice", b"bob"])?;
    let Ok(workers) = u8::try_from(lists.len()) else {
        return Err(Stopped::OutOfRange);
    };
    config.workers = workers;
    config.lmtp_port = 0;
    config.imap_port = 0;
    if !config.is_in_range() {
        return Err(Stopped::OutOfRange);
    }
    served::<Brand, R>(rt, alloc, Opened::new(), &config, lists_of(alloc, lists)?)
}

// A message for alice, and its relay's farewell.
const TO_ALICE: &[u8] =
    b"LHLO c.example\r\nMAIL FROM:<s@a.example>\r\nRCPT TO:<alice@example.org>\r\nDATA\r\nhi\r\n.\r\nQUIT\r\n";

// One for bob and for a mailbox that isn't there, whose relay goes without a word.
const TO_BOB: &[u8] =
    b"LHLO c.example\r\nMAIL FROM:<s@a.example>\r\nRCPT TO:<carol@example.org>\r\nRCPT TO:<bob@example.org>\r\nDATA\r\nyes\r\n.\r\n";

// One that ends within its data.
const CUT_SHORT: &[u8] =
    b"LHLO c.example\r\nMAIL FROM:<s@a.example>\r\nRCPT TO:<bob@example.org>\r\nDATA\r\nno\r\n";

// What they are told (RFC 2033, 4.2 and 4.3; RFC 5321, 4.2.3).
const GREETED: &[u8] =
    b"220 mx.example.org LMTP ready\r\n250-mx.example.org\r\n250-PIPELINING\r\n250-ENHANCEDSTATUSCODES\r\n250 8BITMIME\r\n250 2.1.0 Sender OK\r\n";

const DELIVERED: &[u8] =
    b"250 2.1.5 Recipient OK\r\n354 Start mail input\r\n250 2.1.5 Delivered\r\n";

const ACCEPTED: &[u8] = b"250 2.1.5 Recipient OK\r\n354 Start mail input\r\n";

const UNKNOWN: &[u8] = b"550 5.1.1 Mailbox unknown\r\n";

const BYE: &[u8] = b"221 2.0.0 Bye\r\n";

// Whether these are the parts, one behind the other.
fn is_joined(alloc: Global, whole: &[u8], parts: &[&[u8]]) -> Result<bool, AllocError> {
    let mut all = Vec::new(alloc);
    for part in parts {
        all.extend_from_slice(part)?;
    }
    Ok(all.as_slice() == whole)
}

#[test]
fn each_peer_is_told_what_stands(rt: HostRuntime) -> Result<(), Stopped> {
    let alloc = rt.alloc();
    let seen = serve_lists(&rt, alloc, &[&[TO_ALICE, TO_ALICE], &[TO_BOB, CUT_SHORT]])?;
    // Two workers, and a client slot for each user's sessions, which has no line.
    let [first, second, others @ ..] = seen.told.as_slice() else {
        panic!(rt; "{}", seen.told.len());
    };
    let twice = [GREETED, DELIVERED, BYE, GREETED, DELIVERED, BYE];
    assert!(rt; is_joined(alloc, first, &twice)?);
    let once = [GREETED, UNKNOWN, DELIVERED, GREETED, ACCEPTED];
    assert!(rt; is_joined(alloc, second, &once)?);
    assert!(rt; others.iter().all(|said| said.is_empty()));
    let [alice, bob] = seen.texts.as_slice() else {
        panic!(rt; "{}", seen.texts.len());
    };
    let hi = b"Return-Path: <s@a.example>\r\nhi\r\n".as_slice();
    assert!(rt; is_joined(alloc, alice, &[hi, hi])?);
    let yes = b"Return-Path: <s@a.example>\r\nyes\r\n".as_slice();
    assert!(rt; is_joined(alloc, bob, &[yes])?);
    Ok(())
}
