//! Clients that are served over byte strings. What they are told is written
//! in RFC 9051, 6.3.2, 6.4.5, 7.1.4, 7.1.5 and 7.4, and in RFC 2177.

ghost use Rattle.std.specs.Prelude.{◌≡◌, false};

use super::couriers::{TestCourier, Way};
use super::houses::{TestHouse, open_house};
use super::sessions::store_of;
use super::wires::{Prompt, Tally, Wire};
use budget::Budget;
use change_ring::NO_FLAGS;
use delivery_token::{Text, Verdict};
use house_history::{Naming, Opened};
use imap_session::{Admission, After, Folder, Profile};
use imap_stream::{ClientSlot, Parting, Visit, VisitFault, Wakes, Woken};
use line_io::Watched;
use mailbox::Limits;
use std::alloc::{AllocError, Global};
use std::io::{self, Error, ErrorKind, Read, Write};
use std::marker::Brand;
use std::sync::atomic::{AtomicBool, Ordering};
use std::sync::{Mutex, Wait};
use workers_sync::{Courier, Lost};

// Two changes are kept: a client that misses three has fallen behind.
pub(crate) const SMALL: Limits = Limits {
    messages: 8,
    ring: 2,
    ring_max: 0,
};

// How a client idles.
#[derive(Drop)]
struct Nap {
    // So many messages come meanwhile.
    messages: u8,
    // So many sends reach it.
    sends: usize,
    // What it says once it was shown a message. Where that is nothing, it says nothing more, and its bell rings.
    says: &'static [u8],
    // What it is told behind `OPENING`.
    told: &'static [u8],
}

// A client that idles, in a house where messages come meanwhile.
#[derive(Drop)]
struct Idler<'a, B: Naming, R: Wait> {
    rt: &'a R,
    house: &'a TestHouse<B>,
    text: &'a Text,
    nap: &'a Nap,
    reads: u8,
    waits: u8,
    are_stored: bool,
}

impl<B: Naming, R: Wait> Wakes for Idler<'_, B, R> {
    // The first wait ends with the bell, behind so many messages.
    fn wait(&mut self) -> Woken {
        self.waits = self.waits.saturating_add(1);
        if self.waits > 1 {
            return Woken::Peer;
        }
        for _ in 0..self.nap.messages {
            self.are_stored &= bring_one(self.rt, self.house, self.text);
        }
        Woken::Bell
    }
}

impl<B: Naming, R: Wait> Read for Idler<'_, B, R> {
    fn read(&mut self, buf: &mut [u8]) -> io::Result<usize> {
        self.reads = self.reads.saturating_add(1);
        let mut piece = match self.reads {
            1 => b"a1 SELECT INBOX\r\na2 IDLE\r\n".as_slice(),
            2 => self.nap.says,
            _ => b"".as_slice(),
        };
        piece.read(buf)
    }
}

// A client whose stream is interrupted, and fails in the end.
#[derive(Drop)]
struct Clumsy {
    reads: u8,
}

impl Read for Clumsy {
    fn read(&mut self, buf: &mut [u8]) -> io::Result<usize> {
        self.reads = self.reads.saturating_add(1);
        let mut piece = b"a1 NOOP\r\n".as_slice();
        match self.reads {
            2 => piece.read(buf),
            1 | 3 => Err(Error::from(ErrorKind::Interrupted)),
            _ => Err(Error::from(ErrorKind::ConnectionReset)),
        }
    }
}

// A client that says something as the house stops.
#[derive(Drop)]
struct Late<'a> {
    stop: &'a AtomicBool,
}

impl Read for Late<'_> {
    fn read(&mut self, buf: &mut [u8]) -> io::Result<usize> {
        self.stop.store(true, Ordering::SeqCst);
        let mut piece = b"a1 NOOP\r\n".as_slice();
        piece.read(buf)
    }
}

fn text(alloc: Global) -> Result<Text, AllocError> {
    Text::new(Vec::from_slice(alloc, b"Return-Path: <s@a.example>\r\nhi\r\n")?)
}

pub(crate) fn deliver<B: Naming, R: Wait>(rt: &R, house: &TestHouse<B>, text: Text) -> bool {
    matches!(
        house.deliver(rt, 0, text, NO_FLAGS),
        Some(Verdict::Stored { uid: _ })
    )
}

// A house with one mailbox, with a message or without, whose history was just opened.
pub(crate) fn a_mailbox<B: Naming, R: Wait>(
    rt: &R,
    alloc: Global,
    history: Opened,
    has_message: bool,
) -> Result<TestHouse<B>, AllocError>
    requires { history ≡ B.book }
{
    let house = open_house::<B>(alloc, history, 1, SMALL)?;
    let text = text(alloc)?;
    if has_message && !deliver(rt, &house, text) {
        return Err(AllocError);
    }
    Ok(house)
}

pub(crate) fn folders(alloc: Global) -> Result<Vec<Folder>, AllocError> {
    let name = Vec::from_slice(alloc, b"INBOX")?;
    let mut folders = Vec::new(alloc);
    folders.push(Folder::new(name, 0))?;
    Ok(folders)
}

// A client that is known already, and may append messages of so many bytes, if any.
pub(crate) fn known(most: Option<u32>) -> Admission {
    Admission {
        max_message: most,
        profile: Profile::Standard,
        login: None,
        budget: Budget::unlimited(),
    }
}

// The courier of a session that takes no message: it is never asked.
pub(crate) fn nobody<'a, B: Naming, R: Wait>(
    rt: &'a R,
    house: &'a TestHouse<B>,
) -> TestCourier<'a, B, R> {
    TestCourier::new(rt, house, Way::Loses(Lost::Torn))
}

const GREETING: &[u8] = b"* PREAUTH IMAP4rev2 server ready\r\n";

pub(crate) fn is_greeting_and(told: &[u8], rest: &[u8]) -> bool {
    told.starts_with(GREETING) && &told[GREETING.len()..] == rest
}

// A visit to the first mailbox, of a client that may append messages of so many bytes, if any; none where it couldn't be greeted.
pub(crate) fn open<'x, B: Naming, R: Wait>(
    rt: &'x R,
    alloc: Global,
    house: &'x TestHouse<B>,
    tally: &'x Tally,
    most: Option<u32>,
    wire: Wire<'x, R>,
) -> Option<Visit<'x, B, R, Tally, Wire<'x, R>>>
    requires { wire.has_failed ≡ false }
{
    let Ok(folders) = folders(alloc) else {
        return None;
    };
    let store = store_of(rt, tally, 0, house, &[]);
    match Visit::open(rt, alloc, &house.rows, store, folders, known(most), wire) {
        Ok(visit) => Some(visit),
        Err(_) => None,
    }
}

// How it ended that the client was attended; None where there was no memory for it.
pub(crate) fn attend_one<'x, B: Naming, R: Wait, I: Read + Wakes, C: Courier>(
    rt: &'x R,
    alloc: Global,
    mut visit: Visit<'x, B, R, Tally, Wire<'x, R>>,
    courier: &mut C,
    input: &mut I,
    size: usize,
    stop: &AtomicBool,
) -> Option<Parting>
    requires { C.ready courier.old }
{
    let Ok(mut buffer) = vec![in alloc; 0; size] else {
        return None;
    };
    let idles = AtomicBool::new(false);
    let client_slot = ClientSlot {
        idles: &idles,
        stop,
    };
    Some(client_slot.attend(rt, alloc, &mut visit, courier, input, &mut buffer))
}

// How it ended that the client was served; None where it couldn't be greeted.
fn serve_over<'x, B: Naming, R: Wait, I: Read>(
    rt: &'x R,
    alloc: Global,
    house: &'x TestHouse<B>,
    tally: &'x Tally,
    wire: Wire<'x, R>,
    input: &mut I,
    stop: &AtomicBool,
) -> Option<Parting>
    requires { wire.has_failed ≡ false }
{
    match open(rt, alloc, house, tally, None, wire) {
        Some(visit) => {
            let mut courier = nobody(rt, house);
            attend_one(
                rt,
                alloc,
                visit,
                &mut courier,
                &mut Prompt { input },
                64,
                stop,
            )
        }
        None => None,
    }
}

// A client is served by one thread: what it was told, before its output failed after so many sends, how many
// events its session made, and how it ended.
fn served_in<B: Naming, R: Wait, I: Read>(
    rt: &R,
    alloc: Global,
    history: Opened,
    input: &mut I,
    stop: &AtomicBool,
    calls: usize,
) -> Result<(Vec<u8>, u64, Parting), AllocError>
    requires { history ≡ B.book }
{
    let house = a_mailbox::<B, R>(rt, alloc, history, true)?;
    let tally = Tally::new();
    let bytes = Mutex::new(Vec::new(alloc));
    let wire = Wire::new(rt, &bytes, calls);
    let Some(parting) = serve_over(rt, alloc, &house, &tally, wire, input, stop) else {
        return Err(AllocError);
    };
    let events = tally.asked.load(Ordering::SeqCst);
    Ok((bytes.into_inner(), events, parting))
}

fn served<R: Wait, I: Read>(
    rt: &R,
    alloc: Global,
    input: &mut I,
    stop: &AtomicBool,
    calls: usize,
) -> Result<(Vec<u8>, u64, Parting), AllocError> {
    served_in::<Brand, R, I>(rt, alloc, Opened::new(), input, stop, calls)
}

#[test]
fn a_client_reads_a_message(rt: HostRuntime) -> Result<(), AllocError> {
    let mut input = b"a1 SELECT INBOX\r\na2 FETCH 1 BODY.PEEK[]\r\na3 NO".as_slice();
    let stop = AtomicBool::new(false);
    let (told, events, parting) = served(&rt, rt.alloc(), &mut input, &stop, 9)?;
    let wanted = b"* PREAUTH IMAP4rev2 server ready\r\n\
          * FLAGS (\\Answered \\Flagged \\Deleted \\Seen \\Draft)\r\n\
          * 1 EXISTS\r\n\
          * OK [UIDVALIDITY 7] UIDs valid\r\n\
          * OK [UIDNEXT 2] Predicted next UID\r\n\
          * OK [PERMANENTFLAGS (\\Answered \\Flagged \\Deleted \\Seen \\Draft)] Flags kept\r\n\
          * LIST () \"/\" INBOX\r\n\
          a1 OK [READ-WRITE] SELECT completed\r\n\
          * 1 FETCH (BODY[] {32}\r\n\
          Return-Path: <s@a.example>\r\n\
          hi\r\n\
          )\r\n\
          a2 OK FETCH completed\r\n";
    assert_eq!(rt; told.as_slice(), wanted.as_slice());
    // It entered the mailbox, read a message, and left.
    assert_eq!(rt; events, 3);
    assert_eq!(rt; parting, Parting::Gone);
    Ok(())
}

#[test]
fn a_stream_that_fails_ends_the_visit(rt: HostRuntime) -> Result<(), AllocError> {
    let stop = AtomicBool::new(false);
    let (told, _events, parting) = served(&rt, rt.alloc(), &mut Clumsy { reads: 0 }, &stop, 9)?;
    let wanted = b"* PREAUTH IMAP4rev2 server ready\r\na1 OK NOOP completed\r\n";
    assert_eq!(rt; told.as_slice(), wanted.as_slice());
    assert_eq!(rt; parting, Parting::Broken);
    Ok(())
}

#[test]
fn a_house_that_stops_dismisses_its_clients(rt: HostRuntime) -> Result<(), AllocError> {
    let stop = AtomicBool::new(false);
    let (told, _events, parting) = served(&rt, rt.alloc(), &mut Late { stop: &stop }, &stop, 9)?;
    let wanted = b"* PREAUTH IMAP4rev2 server ready\r\n* BYE Shutting down\r\n";
    assert_eq!(rt; told.as_slice(), wanted.as_slice());
    assert_eq!(rt; parting, Parting::Stopped);
    // So does one that comes too late.
    let mut input = b"a1 NOOP\r\n".as_slice();
    let (told, _events, parting) = served(&rt, rt.alloc(), &mut input, &stop, 9)?;
    assert_eq!(rt; told.as_slice(), wanted.as_slice());
    assert_eq!(rt; parting, Parting::Stopped);
    Ok(())
}

#[test]
fn a_session_leaves_where_its_output_fails(rt: HostRuntime) -> Result<(), AllocError> {
    let stop = AtomicBool::new(false);
    let mut input = b"a1 SELECT INBOX\r\na2 NOOP\r\n".as_slice();
    let (told, events, parting) = served(&rt, rt.alloc(), &mut input, &stop, 1)?;
    assert_eq!(rt;
        told.as_slice(),
        b"* PREAUTH IMAP4rev2 server ready\r\n".as_slice()
    );
    // It entered the mailbox, was shown what NOOP shows, and left.
    assert_eq!(rt; events, 3);
    assert_eq!(rt; parting, Parting::Over);
    Ok(())
}

// Delivers a message.
fn bring_one<B: Naming, R: Wait>(rt: &R, house: &TestHouse<B>, text: &Text) -> bool {
    match text.copy() {
        Ok(text) => deliver(rt, house, text),
        Err(_) => false,
    }
}

// Whether a client that idles so was served to its end, and each message was stored that came meanwhile.
fn idle_at<'x, B: Naming, R: Wait>(
    rt: &'x R,
    alloc: Global,
    house: &'x TestHouse<B>,
    text: &'x Text,
    bytes: &'x Mutex<Vec<u8>>,
    nap: &'x Nap,
) -> bool {
    let (tally, never) = (Tally::new(), AtomicBool::new(false));
    let wire = Wire::new(rt, bytes, nap.sends);
    let Some(visit) = open(rt, alloc, house, &tally, None, wire) else {
        return false;
    };
    let mut idler = Idler {
        rt,
        house,
        text,
        nap,
        reads: 0,
        waits: 0,
        are_stored: true,
    };
    let mut courier = nobody(rt, house);
    let parting = attend_one(rt, alloc, visit, &mut courier, &mut idler, 64, &never);
    parting.is_some() && idler.are_stored
}

// The same in a house that is opened for it.
fn idle_through<B: Naming, R: Wait>(
    rt: &R,
    alloc: Global,
    history: Opened,
    bytes: &Mutex<Vec<u8>>,
    nap: &Nap,
) -> Result<bool, AllocError>
    requires { history ≡ B.book }
{
    let house = a_mailbox::<B, R>(rt, alloc, history, false)?;
    let text = text(alloc)?;
    Ok(idle_at(rt, alloc, &house, &text, bytes, nap))
}

const OPENING: &[u8] = b"* PREAUTH IMAP4rev2 server ready\r\n\
      * FLAGS (\\Answered \\Flagged \\Deleted \\Seen \\Draft)\r\n\
      * 0 EXISTS\r\n\
      * OK [UIDVALIDITY 7] UIDs valid\r\n\
      * OK [UIDNEXT 1] Predicted next UID\r\n\
      * OK [PERMANENTFLAGS (\\Answered \\Flagged \\Deleted \\Seen \\Draft)] Flags kept\r\n\
      * LIST () \"/\" INBOX\r\n\
      a1 OK [READ-WRITE] SELECT completed\r\n\
      + idling\r\n";

fn is_opening_and(told: &[u8], rest: &[u8]) -> bool {
    told.starts_with(OPENING) && &told[OPENING.len()..] == rest
}

// Whether a client that idles so is served to its end and told what it is to be told.
fn naps_well<R: Wait>(rt: &R, alloc: Global, nap: &Nap) -> Result<bool, AllocError> {
    let told = Mutex::new(Vec::new(alloc));
    let is_served = idle_through::<Brand, R>(rt, alloc, Opened::new(), &told, nap)?;
    Ok(is_served && is_opening_and(&told.into_inner(), nap.told))
}

#[test]
fn an_idling_client_is_shown_a_message(rt: HostRuntime) -> Result<(), AllocError> {
    let nap = Nap {
        messages: 1,
        sends: 9,
        says: b"DONE\r\na3 LOGOUT\r\na4 NOOP\r\n",
        told: b"* 1 EXISTS\r\n\
          a2 OK IDLE completed\r\n\
          * BYE Logging out\r\n\
          a3 OK LOGOUT completed\r\n",
    };
    assert!(rt; naps_well(&rt, rt.alloc(), &nap)?);
    Ok(())
}

#[test]
fn an_idling_client_that_falls_behind_is_let_go(rt: HostRuntime) -> Result<(), AllocError> {
    let nap = Nap {
        messages: 3,
        sends: 9,
        says: b"",
        told: b"* BYE Too many changes were missed\r\n",
    };
    assert!(rt; naps_well(&rt, rt.alloc(), &nap)?);
    Ok(())
}

#[test]
fn an_idling_client_that_cannot_be_shown_is_let_go(rt: HostRuntime) -> Result<(), AllocError> {
    // The greeting is sent, and the answers to its first piece.
    let nap = Nap {
        messages: 1,
        sends: 2,
        says: b"",
        told: b"",
    };
    assert!(rt; naps_well(&rt, rt.alloc(), &nap)?);
    Ok(())
}

// What a visit answers to a piece, to a look behind it, and as it is dismissed.
type Answers = (
    Result<After, VisitFault>,
    Result<After, VisitFault>,
    Result<(), VisitFault>,
);

// None where it isn't as told whether the client idles.
fn answers<'x, B: Naming, R: Wait>(
    rt: &'x R,
    alloc: Global,
    house: &'x TestHouse<B>,
    visit: &mut Visit<'x, B, R, Tally, Wire<'x, R>>,
    piece: &[u8],
) -> Option<Answers> {
    let idles = AtomicBool::new(false);
    let heard = visit.hear(alloc, &mut nobody(rt, house), piece, &idles);
    if idles.load(Ordering::SeqCst) != (heard == Ok(After::Idle)) {
        return None;
    }
    let looked = visit.look();
    let dismissed = visit.dismiss();
    let _ = visit.leave();
    Some((heard, looked, dismissed))
}

struct Case {
    piece: &'static [u8],
    // So many sends reach the client.
    sends: usize,
    // None where the client couldn't be greeted.
    wanted: Option<Answers>,
    told: &'static [u8],
}

const CASES: &[Case] = &[
    Case {
        piece: b"",
        sends: 0,
        wanted: None,
        told: b"",
    },
    Case {
        piece: b"a1 NOOP\r\na2",
        sends: 3,
        wanted: Some((Ok(After::Go), Ok(After::Go), Ok(()))),
        told: b"* PREAUTH IMAP4rev2 server ready\r\na1 OK NOOP completed\r\n* BYE Shutting down\r\n",
    },
    Case {
        piece: b"a1 SELECT INBOX\r\na2 LOGOUT\r\na3 NOOP\r\n",
        sends: 1,
        wanted: Some((Err(VisitFault::Write), Ok(After::Bye), Ok(()))),
        told: b"* PREAUTH IMAP4rev2 server ready\r\n",
    },
    Case {
        piece: b"a1 LOGOUT\r\na2 NOOP\r\n",
        sends: 3,
        wanted: Some((Ok(After::Bye), Ok(After::Bye), Ok(()))),
        told: b"* PREAUTH IMAP4rev2 server ready\r\n* BYE Logging out\r\na1 OK LOGOUT completed\r\n",
    },
    Case {
        piece: b"a1 IDLE\r\n",
        sends: 2,
        wanted: Some((Ok(After::Idle), Ok(After::Idle), Err(VisitFault::Write))),
        told: b"* PREAUTH IMAP4rev2 server ready\r\n+ idling\r\n",
    },
];

fn is_as_wanted<B: Naming, R: Wait>(
    rt: &R,
    alloc: Global,
    house: &TestHouse<B>,
    case: &Case,
) -> bool {
    let told = Mutex::new(Vec::new(alloc));
    let tally = Tally::new();
    let wire = Wire::new(rt, &told, case.sends);
    let answered = match open(rt, alloc, house, &tally, None, wire) {
        Some(mut visit) => answers(rt, alloc, house, &mut visit, case.piece),
        None => None,
    };
    answered == case.wanted && told.into_inner().as_slice() == case.told
}

// The first case that doesn't come as it is to come.
fn first_other<B: Naming, R: Wait>(
    rt: &R,
    alloc: Global,
    history: Opened,
) -> Result<Option<usize>, AllocError>
    requires { history ≡ B.book }
{
    let house = a_mailbox::<B, R>(rt, alloc, history, true)?;
    for position in 0..CASES.len() {
        if !is_as_wanted(rt, alloc, &house, &CASES[position]) {
            return Ok(Some(position));
        }
    }
    Ok(None)
}

#[test]
fn each_call_says_what_came_of_it(rt: HostRuntime) -> Result<(), AllocError> {
    let other = first_other::<Brand, HostRuntime>(&rt, rt.alloc(), Opened::new())?;
    assert_eq!(rt; other, None);
    Ok(())
}

// A writer, whose bytes stand under a lock.
#[derive(Drop)]
struct Page<'a, R: Wait> {
    rt: &'a R,
    bytes: &'a Mutex<Vec<u8>>,
}

impl<R: Wait> Write for Page<'_, R> {
    fn write(&mut self, bytes: &[u8]) -> io::Result<usize> {
        match self.bytes.lock(self.rt).extend_from_slice(bytes) {
            Ok(()) => Ok(bytes.len()),
            Err(_) => Err(Error::from(ErrorKind::OutOfMemory)),
        }
    }

    fn flush(&mut self) -> io::Result<()> {
        Ok(())
    }
}

// A writer is a sink too, where it is watched.
fn greeted<B: Naming, R: Wait>(rt: &R, alloc: Global, history: Opened) -> Result<bool, AllocError>
    requires { history ≡ B.book }
{
    let house = a_mailbox::<B, R>(rt, alloc, history, false)?;
    let told = Mutex::new(Vec::new(alloc));
    let is_greeted = greets(rt, alloc, &house, &Tally::new(), &told)?;
    Ok(is_greeted && is_greeting_and(&told.into_inner(), b""))
}

fn greets<'a, B: Naming, R: Wait>(
    rt: &'a R,
    alloc: Global,
    house: &'a TestHouse<B>,
    tally: &'a Tally,
    bytes: &'a Mutex<Vec<u8>>,
) -> Result<bool, AllocError> {
    let store = store_of(rt, tally, 0, house, &[]);
    let page = Watched::new(Page { rt, bytes });
    let folders = folders(alloc)?;
    let visit = Visit::open(rt, alloc, &house.rows, store, folders, known(None), page);
    Ok(visit.is_ok())
}

#[test]
fn a_client_is_greeted(rt: HostRuntime) -> Result<(), AllocError> {
    let is_greeted = greeted::<Brand, HostRuntime>(&rt, rt.alloc(), Opened::new())?;
    assert!(rt; is_greeted);
    Ok(())
}

// Whether some client was told that its command was refused memory.
fn tells_of_memory(told: &[u8]) -> bool {
    for start in 0..told.len() {
        if told[start..].starts_with(b" NO Out of memory\r\n") {
            return true;
        }
    }
    false
}

// To be tried with each allocation refused: what was told is a beginning of this, unless a command was refused
// memory, which its client is told.
#[test]
fn memory_may_be_refused(rt: HostRuntime) {
    let mut input = b"a1 NOOP\r\na2 EXAMINE INBOX\r\na3 FETCH 1 BODY.PEEK[]\r\n".as_slice();
    let stop = AtomicBool::new(false);
    let wanted = b"* PREAUTH IMAP4rev2 server ready\r\n\
          a1 OK NOOP completed\r\n\
          * FLAGS (\\Answered \\Flagged \\Deleted \\Seen \\Draft)\r\n\
          * 1 EXISTS\r\n\
          * OK [UIDVALIDITY 7] UIDs valid\r\n\
          * OK [UIDNEXT 2] Predicted next UID\r\n\
          * OK [PERMANENTFLAGS ()] Flags kept\r\n\
          * LIST () \"/\" INBOX\r\n\
          a2 OK [READ-ONLY] EXAMINE completed\r\n\
          * 1 FETCH (BODY[] {32}\r\n\
          Return-Path: <s@a.example>\r\n\
          hi\r\n\
          )\r\n\
          a3 OK FETCH completed\r\n";
    if let Ok((told, _events, _parting)) = served(&rt, rt.alloc(), &mut input, &stop, 9) {
        assert!(rt; wanted.starts_with(told.as_slice()) || tells_of_memory(&told));
    }
}
