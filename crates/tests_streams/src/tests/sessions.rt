//! Sessions that read what another thread delivers, their gate and their bells. What they are shown is
//! written in RFC 9051, 6.3.2, 6.4.5 and 7.4.

ghost use Rattle.std.specs.Prelude.{◌≡◌, None};

use super::couriers::{TestCourier, Way};
use super::houses::{TestHouse, open_house};
use super::imap::known;
use change_ring::{FlagOp, Flags, NO_FLAGS};
use delivery_token::{Text, Verdict};
use house_history::{Naming, Opened};
use imap_grammar::{Command, read_line};
use imap_session::{Folder, ImapConnection, Store};
use mailbox::{Limits, MailFault};
use session_thread::{LockedStore, depart, live, takes_more};
use settings::Step;
use std::alloc::{AllocError, Global};
use std::marker::Brand;
use std::mem;
use std::sync::Wait;
use std::sync::atomic::{AtomicBool, AtomicU64, Ordering};
use std::thread::{self, Threads, join};
use workers_sync::{Actor, Gate, Lost, SessionBell, SessionParker, ring_each};

const SMALL: Limits = Limits {
    messages: 8,
    ring: 16,
    ring_max: 0,
};

// So many turns a thread waits for another at most.
const PATIENCE: u64 = 10_000_000;

// Lets the actor `first` pass. A session is held until a copy was delivered, a consumer until the session has selected: it then asks to pass
// for the second time.
#[derive(Drop)]
struct Order {
    first: Actor,
    delivered: AtomicBool,
    selected: AtomicBool,
}

impl Order {
    fn new(first: Actor) -> Order {
        Order {
            first,
            delivered: AtomicBool::new(false),
            selected: AtomicBool::new(false),
        }
    }
}

// Waits until the mark is set.
fn wait_until(mark: &AtomicBool) {
    for _ in 0..PATIENCE {
        if mark.load(Ordering::SeqCst) {
            return;
        }
        thread::yield_now();
    }
}

impl Gate for Order {
    fn pass(&self, who: Actor, number: u64) {
        if who == Actor::Session(0) && number == 1 {
            self.selected.store(true, Ordering::SeqCst);
        }
        if who == self.first {
            return;
        }
        match who {
            Actor::Session(_) => wait_until(&self.delivered),
            Actor::Consumer(_) => wait_until(&self.selected),
            Actor::Worker(_) => {}
        }
    }
}

/// A house with two mailboxes, whose history was just opened.
pub(crate) fn two_mailboxes<B: Naming>(
    alloc: Global,
    history: Opened,
) -> Result<TestHouse<B>, AllocError>
    requires { history ≡ B.book }
{
    open_house(alloc, history, 2, SMALL)
}

pub(crate) fn folders(alloc: Global) -> Result<Vec<Folder>, AllocError> {
    let name = Vec::from_slice(alloc, b"INBOX")?;
    let mut folders = Vec::new(alloc);
    folders.push(Folder::new(name, 0))?;
    Ok(folders)
}

pub(crate) fn saying(alloc: Global, steps: &mut Vec<Step>, bytes: &[u8]) -> Result<(), AllocError> {
    steps.push(Step::Say(Vec::from_slice(alloc, bytes)?))?;
    Ok(())
}

fn text(alloc: Global) -> Result<Text, AllocError> {
    Text::new(Vec::from_slice(alloc, b"Return-Path: <s@a.example>\r\nhi\r\n")?)
}

// Whether a copy was delivered to the first mailbox.
fn has_stored<B: Naming, R: Wait>(rt: &R, house: &TestHouse<B>, text: Text) -> bool {
    matches!(
        house.deliver(rt, 0, text, NO_FLAGS),
        Some(Verdict::Stored { uid: _ })
    )
}

// What a consumer does with a copy: one event of the mailbox under its lock, and then the bells of its user.
fn deliver<B: Naming, R: Wait>(
    rt: &R,
    house: &TestHouse<B>,
    order: &Order,
    bells: &[SessionBell],
    text: Text,
) -> bool {
    order.pass(Actor::Consumer(0), 0);
    let is_stored = has_stored(rt, house, text);
    order.delivered.store(true, Ordering::SeqCst);
    ring_each(bells);
    is_stored
}

// A session's way to a house's mailboxes.
pub(crate) fn store_of<'a, B: Naming, R: Wait, G: Gate>(
    rt: &'a R,
    gate: &'a G,
    session: u8,
    house: &'a TestHouse<B>,
    bells: &'a [SessionBell],
) -> LockedStore<'a, B, R, G>
    ensures { result.entered ≡ None }
{
    let shelf = &house.shelf;
    LockedStore::new(
        rt,
        gate,
        session,
        &shelf.mailboxes,
        shelf.front.again(),
        bells,
    )
}

fn session<B: Naming, R: Wait>(
    rt: &R,
    alloc: Global,
    house: &TestHouse<B>,
    order: &Order,
    bells: &[SessionBell],
    steps: &[Step],
) -> Option<Vec<u8>> {
    let Ok(folders) = folders(alloc) else {
        return None;
    };
    let mut said = Vec::new(alloc);
    let mut store = store_of(rt, order, 0, house, bells);
    // It takes no message, so nobody is asked to carry one.
    let mut courier = TestCourier::new(rt, house, Way::Loses(Lost::Torn));
    let lived = live(
        alloc,
        &mut store,
        &mut courier,
        folders,
        None,
        steps,
        PATIENCE,
        &mut said,
    );
    match lived {
        Ok(()) => Some(said),
        Err(_) => None,
    }
}

// The bells of a user whose one session idles.
fn bells_of(alloc: Global, bell: &SessionParker) -> Result<Vec<SessionBell>, AllocError> {
    bell.idling()?.store(true, Ordering::SeqCst);
    let mut bells = Vec::new(alloc);
    bells.push(bell.bell()?)?;
    Ok(bells)
}

// What the session says beside the thread that delivers a copy; none where that isn't stored.
fn run_in<B: Naming + Send + Sync, R: Threads + Wait + Sync>(
    rt: &R,
    alloc: Global,
    order: &Order,
    house: &TestHouse<B>,
    text: Text,
    bells: &[SessionBell],
    steps: &[Step],
) -> Option<Vec<u8>> {
    let (is_stored, said) = join(
        rt,
        move || deliver(rt, house, order, bells, text),
        || session(rt, alloc, house, order, bells, steps),
    );
    if is_stored { said } else { None }
}

fn run_both<B: Naming + Send + Sync, R: Threads + Wait + Sync>(
    rt: &R,
    alloc: Global,
    history: Opened,
    order: &Order,
    steps: &[Step],
) -> Result<Option<Vec<u8>>, AllocError>
    requires { history ≡ B.book }
{
    let house = two_mailboxes::<B>(alloc, history)?;
    let text = text(alloc)?;
    let bell = SessionParker::new(alloc)?;
    let bells = bells_of(alloc, &bell)?;
    Ok(run_in(rt, alloc, order, &house, text, &bells, steps))
}

// Whether the session says this and no more.
fn says<R: Threads + Wait + Sync>(
    rt: &R,
    alloc: Global,
    first: Actor,
    steps: &[Step],
    wanted: &[u8],
) -> Result<bool, AllocError> {
    match run_both::<Brand, R>(rt, alloc, Opened::new(), &Order::new(first), steps)? {
        Some(said) => Ok(said.as_slice() == wanted),
        None => Ok(false),
    }
}

// Selects a mailbox and fetches a message.
fn fetching(alloc: Global) -> Result<Vec<Step>, AllocError> {
    let mut steps = Vec::new(alloc);
    saying(alloc, &mut steps, b"a1 SELECT INBOX\r\n")?;
    saying(alloc, &mut steps, b"a2 FETCH 1 BODY.PEEK[]\r\n")?;
    Ok(steps)
}

const FETCHED: &[u8] = b"* PREAUTH IMAP4rev2 server ready\r\n\
      * FLAGS (\\Answered \\Flagged \\Deleted \\Seen \\Draft)\r\n\
      * 1 EXISTS\r\n\
      * OK [UIDVALIDITY 7] UIDs valid\r\n\
      * OK [UIDNEXT 2] Predicted next UID\r\n\
      * OK [PERMANENTFLAGS (\\Answered \\Flagged \\Deleted \\Seen \\Draft)] Flags kept\r\n\
      * LIST () \"/\" INBOX\r\n\
      a1 OK [READ-WRITE] SELECT completed\r\n\
      * 1 FETCH (BODY[] {32}\r\n\
      Return-Path: <s@a.example>\r\n\
      hi\r\n\
      )\r\n\
      a2 OK FETCH completed\r\n";

#[test]
fn threads_text(rt: HostRuntime) -> Result<(), AllocError> {
    let steps = fetching(rt.alloc())?;
    let first = Actor::Consumer(0);
    assert!(rt; says(&rt, rt.alloc(), first, &steps, FETCHED)?);
    Ok(())
}

// Awaits a change before it is in a mailbox, while it idles there, and behind its end.
fn awaiting(alloc: Global) -> Result<Vec<Step>, AllocError> {
    let mut steps = Vec::new(alloc);
    steps.push(Step::Await(1))?;
    saying(alloc, &mut steps, b"a1 EXAMINE INBOX\r\na2 IDLE\r\n")?;
    steps.push(Step::Await(1))?;
    saying(alloc, &mut steps, b"DONE\r\na3 LOGOUT\r\na4 NOOP\r\n")?;
    steps.push(Step::Await(2))?;
    saying(alloc, &mut steps, b"a5 NOOP\r\n")?;
    Ok(steps)
}

const AWAITED: &[u8] = b"* PREAUTH IMAP4rev2 server ready\r\n\
      * FLAGS (\\Answered \\Flagged \\Deleted \\Seen \\Draft)\r\n\
      * 0 EXISTS\r\n\
      * OK [UIDVALIDITY 7] UIDs valid\r\n\
      * OK [UIDNEXT 1] Predicted next UID\r\n\
      * OK [PERMANENTFLAGS ()] Flags kept\r\n\
      * LIST () \"/\" INBOX\r\n\
      a1 OK [READ-ONLY] EXAMINE completed\r\n\
      + idling\r\n\
      * 1 EXISTS\r\n\
      a2 OK IDLE completed\r\n\
      * BYE Logging out\r\n\
      a3 OK LOGOUT completed\r\n";

#[test]
fn an_idling_session_awaits_a_message(rt: HostRuntime) -> Result<(), AllocError> {
    let steps = awaiting(rt.alloc())?;
    let first = Actor::Session(0);
    assert!(rt; says(&rt, rt.alloc(), first, &steps, AWAITED)?);
    Ok(())
}

// A session that sleeps until its bell rings, and is then shown what is new.
fn sleep_and_look<B: Naming, R: Wait>(
    rt: &R,
    alloc: Global,
    house: &TestHouse<B>,
    order: &Order,
    bells: &[SessionBell],
    bell: SessionParker,
) -> Option<Vec<u8>> {
    let mut said = Vec::new(alloc);
    let mut store = store_of(rt, order, 0, house, bells);
    if store.enter(0).is_err() || store.feed(64, 0, &mut said).is_err() {
        return None;
    }
    bell.sleep(rt);
    let fed = store.feed(64, 0, &mut said);
    if fed.is_err() || store.shown() != 1 {
        return None;
    }
    Some(said)
}

// What the session says that one thread wakes as it delivers a copy; none where that isn't stored.
fn ring_in<B: Naming + Send + Sync, R: Threads + Wait + Sync>(
    rt: &R,
    alloc: Global,
    house: &TestHouse<B>,
    text: Text,
    bells: &[SessionBell],
    bell: SessionParker,
) -> Option<Vec<u8>> {
    let order = Order::new(Actor::Session(0));
    let held = &order;
    let (said, is_stored) = join(
        rt,
        move || sleep_and_look(rt, alloc, house, held, bells, bell),
        move || deliver(rt, house, held, bells, text),
    );
    if is_stored { said } else { None }
}

fn ring_once<B: Naming + Send + Sync, R: Threads + Wait + Sync>(
    rt: &R,
    alloc: Global,
    history: Opened,
) -> Result<Option<Vec<u8>>, AllocError>
    requires { history ≡ B.book }
{
    let house = two_mailboxes::<B>(alloc, history)?;
    let text = text(alloc)?;
    let bell = SessionParker::new(alloc)?;
    let bells = bells_of(alloc, &bell)?;
    Ok(ring_in(rt, alloc, &house, text, &bells, bell))
}

fn is_woken<R: Threads + Wait + Sync>(rt: &R, alloc: Global) -> Result<bool, AllocError> {
    match ring_once::<Brand, R>(rt, alloc, Opened::new())? {
        Some(said) => Ok(said.as_slice() == b"* 1 EXISTS\r\n".as_slice()),
        None => Ok(false),
    }
}

#[test]
fn a_bell_wakes_a_session(rt: HostRuntime) -> Result<(), AllocError> {
    assert!(rt; is_woken(&rt, rt.alloc())?);
    Ok(())
}

// A gate that counts how often it was asked.
#[derive(Drop)]
pub(crate) struct Tally {
    asked: AtomicU64,
}

impl Tally {
    pub(crate) fn new() -> Tally {
        Tally {
            asked: AtomicU64::new(0),
        }
    }

    pub(crate) fn asked(&self) -> u64 {
        self.asked.load(Ordering::SeqCst)
    }
}

impl Gate for Tally {
    fn pass(&self, _who: Actor, _number: u64) {
        self.asked.fetch_add(1, Ordering::SeqCst);
    }
}

const FLAGGED: Flags = Flags {
    answered: false,
    flagged: true,
    deleted: false,
    seen: false,
    draft: false,
};

const DELETED: Flags = Flags {
    answered: false,
    flagged: false,
    deleted: true,
    seen: false,
    draft: false,
};

// Two mailboxes, the first with one message.
fn with_a_message<B: Naming, R: Wait>(
    rt: &R,
    alloc: Global,
    history: Opened,
) -> Result<TestHouse<B>, AllocError>
    requires { history ≡ B.book }
{
    let house = two_mailboxes::<B>(alloc, history)?;
    let text = text(alloc)?;
    if has_stored(rt, &house, text) {
        Ok(house)
    } else {
        Err(AllocError)
    }
}

// Whether a session can look at its view.
fn has_chosen<B: Naming, R: Wait>(
    store: &LockedStore<'_, B, R, Tally>,
    alloc: Global,
) -> Option<bool> {
    let Ok((_tag, command)) = read_line(b"a UID FETCH 1:* UID") else {
        return None;
    };
    match command {
        Command::Fetch(fetch) => Some(store.choose(alloc, &fetch.set, true).is_ok()),
        _ => None,
    }
}

// Each call of a session that enters a mailbox and leaves it, a look and seven events: whether all are answered, or all refused, as
// they are where the mailbox isn't there.
fn each_call_is<B: Naming, R: Wait>(
    answered: bool,
    store: &mut LockedStore<'_, B, R, Tally>,
    mailbox: u8,
    alloc: Global,
    out: &mut Vec<u8>,
) -> bool {
    store.enter(mailbox).is_ok() == answered
        && has_chosen(store, alloc) == Some(answered)
        && store.read(1, false).is_ok() == answered
        && store.status(mailbox).is_ok() == answered
        && store.store(1, FlagOp::Insert(FLAGGED)).is_ok() == answered
        && store.expunge(None, 0, out).is_ok() == answered
        && store.feed(64, 0, out).is_ok() == answered
        && store.leave(!answered).is_ok() == answered
}

// How many messages two mailboxes tell, and with which UIDVALIDITY.
fn counted<B: Naming, R: Wait>(
    store: &mut LockedStore<'_, B, R, Tally>,
) -> Option<(usize, u32, usize, u32)> {
    let (Ok(first), Ok(second)) = (store.status(0), store.status(1)) else {
        return None;
    };
    Some((
        first.messages,
        first.uidvalidity,
        second.messages,
        second.uidvalidity,
    ))
}

// A session that logs more changes than the window has, and is shown each itself.
fn change_much<B: Naming, R: Wait>(
    store: &mut LockedStore<'_, B, R, Tally>,
    out: &mut Vec<u8>,
) -> bool {
    for _ in 0..9 {
        let set = store.store(1, FlagOp::Insert(FLAGGED));
        let unset = store.store(1, FlagOp::Remove(FLAGGED));
        if set.is_err() || unset.is_err() || store.feed(64, 0, out).is_err() {
            return false;
        }
    }
    true
}

// How often a session asked to pass that lapsed: as it entered, and as it was refused.
fn passes_of_one_that_lapsed<B: Naming, R: Wait>(
    rt: &R,
    alloc: Global,
    house: &TestHouse<B>,
) -> Option<u64> {
    let (others, tally) = (Tally::new(), Tally::new());
    let mut out = Vec::new(alloc);
    let mut other = store_of(rt, &others, 0, house, &[]);
    let mut store = store_of(rt, &tally, 1, house, &[]);
    if store.enter(0).is_err() || other.enter(0).is_err() || !change_much(&mut other, &mut out) {
        return None;
    }
    match store.read(1, false) {
        Err(MailFault::Lapped) => Some(tally.asked()),
        _ => None,
    }
}

// How often a session asked to pass that called outside, that called inside too, and that lapsed. None where a call went otherwise.
fn passes_in<B: Naming, R: Wait>(
    rt: &R,
    alloc: Global,
    history: Opened,
) -> Result<Option<(u64, u64, Option<u64>)>, AllocError>
    requires { history ≡ B.book }
{
    let house = with_a_message::<B, R>(rt, alloc, history)?;
    let tally = Tally::new();
    let mut out = Vec::new(alloc);
    let mut store = store_of(rt, &tally, 0, &house, &[]);
    if !each_call_is(false, &mut store, 2, alloc, &mut out) {
        return Ok(None);
    }
    let outside = tally.asked();
    if !each_call_is(true, &mut store, 0, alloc, &mut out) {
        return Ok(None);
    }
    let inside = tally.asked();
    Ok(Some((
        outside,
        inside,
        passes_of_one_that_lapsed(rt, alloc, &house),
    )))
}

#[test]
fn each_event_asks_to_pass(rt: HostRuntime) -> Result<(), AllocError> {
    let passes = passes_in::<Brand, HostRuntime>(&rt, rt.alloc(), Opened::new())?;
    assert_eq!(rt; passes, Some((0, 7, Some(2))));
    Ok(())
}

// Enters a mailbox: its UIDVALIDITY.
fn validity_at<B: Naming, R: Wait>(
    store: &mut LockedStore<'_, B, R, Tally>,
    mailbox: u8,
) -> Option<u32> {
    match store.enter(mailbox) {
        Ok(opening) => Some(opening.uidvalidity),
        Err(_) => None,
    }
}

// Whether each call of a session is of the mailbox that it asks for.
fn takes_its_own<B: Naming, R: Wait>(store: &mut LockedStore<'_, B, R, Tally>) -> bool {
    counted(store) == Some((1, 7, 0, 8))
        && validity_at(store, 1) == Some(8)
        && store.store(1, FlagOp::Insert(FLAGGED)) == Ok(None)
        && store.leave(false) == Ok(0)
        && validity_at(store, 0) == Some(7)
        && store.store(1, FlagOp::Insert(FLAGGED)) == Ok(Some(FLAGGED))
}

// What is looked at in a house of two mailboxes, of which the first has one message.
#[derive(Clone, Copy)]
enum Look {
    // Each call is of the mailbox that it asks for.
    TakesItsOwn,
    // The bell is rung behind each call that logged a change.
    Rings,
    // No other mailbox is taken for the one that was asked for.
    TakesNoOther,
    // A session of another mailbox is told so.
    SaysBye,
    // The handle of another mailbox is a stranger to each call.
    IsAStranger,
}

// Whether that is so in a house whose history was just opened.
fn is_so<B: Naming, R: Wait>(
    rt: &R,
    alloc: Global,
    history: Opened,
    look: Look,
) -> Result<bool, AllocError>
    requires { history ≡ B.book }
{
    let house = with_a_message::<B, R>(rt, alloc, history)?;
    let tally = Tally::new();
    match look {
        Look::TakesItsOwn => Ok(takes_its_own(&mut store_of(rt, &tally, 0, &house, &[]))),
        Look::Rings => rings_each_time(rt, alloc, &house),
        Look::TakesNoOther => Ok(takes_no_other(rt, &house)),
        Look::SaysBye => says_bye(rt, alloc, &house),
        Look::IsAStranger => Ok(is_a_stranger_meanwhile(rt, alloc, &house)),
    }
}

// Nothing but this says that the lock at a number is the one that is taken.
#[test]
fn each_call_takes_the_lock_of_its_mailbox(rt: HostRuntime) -> Result<(), AllocError> {
    assert!(rt; is_so::<Brand, HostRuntime>(&rt, rt.alloc(), Opened::new(), Look::TakesItsOwn)?);
    Ok(())
}

// The bell is rung behind each call that logged a change: else the test sleeps for good.
fn wakes_each_time<B: Naming, R: Wait>(
    rt: &R,
    alloc: Global,
    house: &TestHouse<B>,
    bells: &[SessionBell],
    bell: &SessionParker,
) -> bool {
    let tally = Tally::new();
    let mut out = Vec::new(alloc);
    let mut store = store_of(rt, &tally, 0, house, bells);
    if store.enter(0).is_err() || store.read(1, true).is_err() {
        return false;
    }
    bell.sleep(rt);
    if store.store(1, FlagOp::Insert(DELETED)).is_err() {
        return false;
    }
    bell.sleep(rt);
    let gone = store.expunge(None, 0, &mut out);
    bell.sleep(rt);
    gone == Ok(1)
}

fn rings_each_time<B: Naming, R: Wait>(
    rt: &R,
    alloc: Global,
    house: &TestHouse<B>,
) -> Result<bool, AllocError> {
    let bell = SessionParker::new(alloc)?;
    let bells = bells_of(alloc, &bell)?;
    Ok(wakes_each_time(rt, alloc, house, &bells, &bell))
}

#[test]
fn a_change_rings_the_users_bells(rt: HostRuntime) -> Result<(), AllocError> {
    assert!(rt; is_so::<Brand, HostRuntime>(&rt, rt.alloc(), Opened::new(), Look::Rings)?);
    Ok(())
}

// Each mailbox stands behind the other's lock then.
fn exchange<B: Naming, R: Wait>(rt: &R, house: &TestHouse<B>) {
    if let [first, second] = house.shelf.mailboxes.as_slice() {
        mem::swap(&mut *first.lock(rt), &mut *second.lock(rt));
    }
}

// Whether a session takes no other mailbox for the one that it asked for.
fn takes_no_other<B: Naming, R: Wait>(rt: &R, house: &TestHouse<B>) -> bool {
    let tally = Tally::new();
    let mut store = store_of(rt, &tally, 0, house, &[]);
    exchange(rt, house);
    if store.enter(0).err() != Some(MailFault::Stranger) {
        return false;
    }
    if store.status(1).err() != Some(MailFault::Stranger) {
        return false;
    }
    exchange(rt, house);
    if store.enter(0).is_err() {
        return false;
    }
    exchange(rt, house);
    let torn = depart(&mut store);
    exchange(rt, house);
    torn == Err(Lost::Torn) && depart(&mut store) == Ok(()) && depart(&mut store) == Ok(())
}

// A session looks at the number of the mailbox that it finds: neither SELECT nor STATUS takes another for it.
#[test]
fn another_mailbox_is_not_taken_for_the_one_that_was_asked_for(
    rt: HostRuntime,
) -> Result<(), AllocError> {
    assert!(rt; is_so::<Brand, HostRuntime>(&rt, rt.alloc(), Opened::new(), Look::TakesNoOther)?);
    Ok(())
}

// What a session is told by a line, which it has selected INBOX for, once another mailbox stands behind its lock; and whether it has
// ended then.
fn told_by_another<B: Naming, R: Wait>(
    rt: &R,
    alloc: Global,
    house: &TestHouse<B>,
    line: &[u8],
) -> Result<(Vec<u8>, bool), AllocError> {
    let tally = Tally::new();
    let mut said = Vec::new(alloc);
    let mut store = store_of(rt, &tally, 0, house, &[]);
    let mut connection = ImapConnection::new(alloc, folders(alloc)?, known(None))?;
    let _ = connection.take(alloc, b"a1 SELECT INBOX\r\n", &mut store, &mut said);
    if !takes_more(&connection) {
        return Err(AllocError);
    }
    said.clear();
    exchange(rt, house);
    let _ = connection.take(alloc, line, &mut store, &mut said);
    exchange(rt, house);
    let has_ended = connection.has_ended();
    let _ = store.leave(false);
    Ok((said, has_ended))
}

const LINES: &[&[u8]] = &[
    b"a2 NOOP\r\n",
    b"a2 FETCH 1 FLAGS\r\n",
    b"a2 STORE 1 FLAGS (\\Seen)\r\n",
    b"a2 EXPUNGE\r\n",
];

// Whether each of these lines is answered with BYE, and ends the session.
fn says_bye<B: Naming, R: Wait>(
    rt: &R,
    alloc: Global,
    house: &TestHouse<B>,
) -> Result<bool, AllocError> {
    for line in LINES {
        let (said, has_ended) = told_by_another(rt, alloc, house, line)?;
        if !has_ended || said.as_slice() != b"* BYE Internal fault\r\n".as_slice() {
            return Ok(false);
        }
    }
    Ok(true)
}

// RFC 9051, 7.1.5: a server that is about to close the connection says BYE.
#[test]
fn a_session_of_another_mailbox_is_told_so_and_ends(rt: HostRuntime) -> Result<(), AllocError> {
    assert!(rt; is_so::<Brand, HostRuntime>(&rt, rt.alloc(), Opened::new(), Look::SaysBye)?);
    Ok(())
}

// The handle of a mailbox is a stranger to each call on another, and still its own mailbox's afterwards.
// Whether each call with a handle of another mailbox is a stranger's.
fn is_a_stranger<B: Naming, R: Wait>(
    store: &mut LockedStore<'_, B, R, Tally>,
    alloc: Global,
    out: &mut Vec<u8>,
) -> bool {
    has_chosen(store, alloc) == Some(false)
        && store.read(1, true).err() == Some(MailFault::Stranger)
        && store.store(1, FlagOp::Insert(FLAGGED)) == Err(MailFault::Stranger)
        && store.expunge(None, 0, out) == Err(MailFault::Stranger)
        && store.feed(64, 0, out) == Err(MailFault::Stranger)
        && store.leave(true) == Err(MailFault::Stranger)
        && out.is_empty()
}

// Whether it is so while another mailbox stands behind its lock, and no longer.
fn is_a_stranger_meanwhile<B: Naming, R: Wait>(
    rt: &R,
    alloc: Global,
    house: &TestHouse<B>,
) -> bool {
    let tally = Tally::new();
    let mut store = store_of(rt, &tally, 0, house, &[]);
    if store.enter(0).is_err() {
        return false;
    }
    exchange(rt, house);
    let is_refused = is_a_stranger(&mut store, alloc, &mut Vec::new(alloc));
    exchange(rt, house);
    is_refused
        && store.store(1, FlagOp::Insert(FLAGGED)) == Ok(Some(FLAGGED))
        && store.leave(false) == Ok(0)
}

#[test]
fn a_handle_of_another_mailbox_is_a_stranger_to_each_call(
    rt: HostRuntime,
) -> Result<(), AllocError> {
    assert!(rt; is_so::<Brand, HostRuntime>(&rt, rt.alloc(), Opened::new(), Look::IsAStranger)?);
    Ok(())
}
