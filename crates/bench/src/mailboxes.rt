//! What is measured of mailboxes: mail for them, what a client asks of all the messages of one, and sessions that come and go.

use crate::mail::{Mail, deliver, message};
use crate::play::{large_house, play};
use crate::scripts::{deliveries, odd_fetch, scattered_removals, single_fetches, statuses, visits};
use house::House;
use std::io;
use std::time::{CpuClock, Duration};

// What a client asks, in this order, of a mailbox whose messages it wants all of.
const ASKED: [(&str, &[u8]); 8] = [
    ("SELECT", b"I1=alice\nI1 a1 SELECT INBOX\n"),
    ("FETCH", b"I1 a2 FETCH 1:* (UID FLAGS RFC822.SIZE)\n"),
    ("UID FETCH", b"I1 a3 UID FETCH 1:* BODY.PEEK[]\n"),
    ("STORE", b"I1 a4 STORE 1:* +FLAGS (\\Seen)\n"),
    ("NOOP", b"I1 a5 NOOP\n"),
    (
        "STORE.SILENT",
        b"I1 a6 STORE 1:* +FLAGS.SILENT (\\Deleted)\n",
    ),
    ("EXPUNGE", b"I1 a7 EXPUNGE\n"),
    ("LOGOUT", b"I1 a8 LOGOUT\n"),
];

// Whose mailboxes a house has.
const USERS: [&[u8]; 4] = [b"alice", b"bob", b"carol", b"dan"];

/// What is measured of a new house.
#[derive(Clone, Copy)]
pub enum Measure {
    /// A client asks for all that a mailbox with so many messages has, marks them and removes them.
    OneMailbox(usize),
    /// A client asks for some messages of a mailbox that has so many: for those with odd UIDs up to 2,000, for one a thousand times, and as often
    /// for the mailbox's counts; then it removes one message after another.
    Parts(u32),
    /// Messages of a size, so many of them, that come in one piece each.
    Mail(Mail, usize),
    /// The same by so many rounds, of which the first and the last are measured: whether a message costs more where many stand already.
    Rounds {
        mail: Mail,
        rounds: usize,
        each: usize,
    },
    /// A session removes half of a mailbox of so many messages, in no order, and another is shown it.
    Scattered(u32),
    /// Mail for four mailboxes, so many messages each.
    FourMailboxes(usize),
    /// Sessions that come and go, in so many rounds of eight, at a mailbox of ten messages.
    Visits(usize),
}

/// Whether times are printed, which vary, beside the bytes that were written, which don't.
#[derive(Clone, Copy)]
pub enum Shows {
    /// The bytes alone.
    Bytes,
    /// The times too.
    Times,
}

// A new house, what it wrote for the last script, and what is shown of that.
#[derive(Drop)]
struct Trial {
    house: House,
    output: Vec<u8>,
    shows: Shows,
}

// Prints what was written last, and where that is asked for what time it took.
fn show<T: Print>(rt: &T, trial: &Trial, name: &str, took: Duration) -> io::Result<()> {
    let written = trial.output.len();
    match trial.shows {
        Shows::Bytes => println!(rt; "  {name}: {written} bytes"),
        Shows::Times => println!(rt; "  {name}: {written} bytes, {} us", took.as_micros()),
    }
}

// Plays a script, of which nothing is shown.
fn prepare<T: AllocGlobal + CpuClock>(rt: &T, trial: &mut Trial, script: &[u8]) -> io::Result<()> {
    play(rt, &mut trial.house, script, &mut trial.output)?;
    Ok(())
}

// Plays a script and shows what it wrote by this name.
fn answer<T: AllocGlobal + CpuClock + Print>(
    rt: &T,
    trial: &mut Trial,
    name: &str,
    script: &[u8],
) -> io::Result<()> {
    let took = play(rt, &mut trial.house, script, &mut trial.output)?;
    show(rt, trial, name, took)
}

// The same of a script that was made for it.
fn answer_made<T: AllocGlobal + CpuClock + Print>(
    rt: &T,
    trial: &mut Trial,
    name: &str,
    script: Vec<u8>,
) -> io::Result<()> {
    answer(rt, trial, name, &script)
}

// The first user's mailbox has so many messages from here on.
fn fill<T: AllocGlobal + CpuClock>(rt: &T, trial: &mut Trial, messages: usize) -> io::Result<()> {
    prepare(rt, trial, &deliveries(rt.alloc(), &USERS[..1], messages)?)
}

fn one_mailbox<T: AllocGlobal + CpuClock + Print>(
    rt: &T,
    trial: &mut Trial,
    messages: usize,
) -> io::Result<()> {
    println!(rt; "a mailbox of {messages} messages")?;
    let script = deliveries(rt.alloc(), &USERS[..1], messages)?;
    answer_made(rt, trial, "delivered", script)?;
    for (name, script) in ASKED {
        answer(rt, trial, name, script)?;
    }
    Ok(())
}

fn parts_of_mailbox<T: AllocGlobal + CpuClock + Print>(
    rt: &T,
    trial: &mut Trial,
    messages: u32,
) -> io::Result<()> {
    let alloc = rt.alloc();
    fill(rt, trial, messages as usize)?;
    let (_, select) = ASKED[0];
    prepare(rt, trial, select)?;
    println!(rt; "parts of a mailbox of {messages} messages")?;
    let script = odd_fetch(alloc, messages.min(2_000))?;
    answer_made(rt, trial, "the odd UIDs", script)?;
    let script = single_fetches(alloc, 1_000)?;
    answer_made(rt, trial, "one UID, 1000 times", script)?;
    let script = statuses(alloc, 1_000)?;
    answer_made(rt, trial, "STATUS, 1000 times", script)?;
    let script = scattered_removals(alloc, messages.min(1_000) / 2, messages)?;
    answer_made(rt, trial, "removed, one by one", script)
}

// Delivers so many messages as this one, and gives the time that it took.
fn deliver_to<T: AllocGlobal + CpuClock>(
    rt: &T,
    trial: &mut Trial,
    wire: &[u8],
    times: usize,
) -> io::Result<Duration> {
    deliver(rt, &mut trial.house, wire, times, &mut trial.output)
}

// Delivers a round and shows what it wrote by this name.
fn answer_round<T: AllocGlobal + CpuClock + Print>(
    rt: &T,
    trial: &mut Trial,
    name: &str,
    wire: &[u8],
    each: usize,
) -> io::Result<()> {
    let took = deliver_to(rt, trial, wire, each)?;
    show(rt, trial, name, took)
}

fn sized_mail<T: AllocGlobal + CpuClock + Print>(
    rt: &T,
    trial: &mut Trial,
    mail: Mail,
    times: usize,
) -> io::Result<()> {
    let wire = message(rt.alloc(), &USERS, mail)?;
    println!(rt;
        "{times} messages, each of {} bytes with its commands, and {} copies",
        wire.len(),
        mail.recipients
    )?;
    answer_round(rt, trial, "delivered", &wire, times)
}

// Delivers so many rounds of as many messages as this one, and shows the first and the last.
fn answer_rounds<T: AllocGlobal + CpuClock + Print>(
    rt: &T,
    trial: &mut Trial,
    wire: &[u8],
    rounds: usize,
    each: usize,
) -> io::Result<()> {
    answer_round(rt, trial, "the first round", wire, each)?;
    for _ in 2..rounds {
        deliver_to(rt, trial, wire, each)?;
    }
    answer_round(rt, trial, "the last round", wire, each)
}

fn mail_in_rounds<T: AllocGlobal + CpuClock + Print>(
    rt: &T,
    trial: &mut Trial,
    mail: Mail,
    rounds: usize,
    each: usize,
) -> io::Result<()> {
    let wire = message(rt.alloc(), &USERS, mail)?;
    println!(rt;
        "{rounds} rounds of {each} messages, each of {} bytes with its commands",
        wire.len()
    )?;
    answer_rounds(rt, trial, &wire, rounds, each)
}

// Two sessions have selected the first user's mailbox.
const BOTH: &[u8] = b"I1=alice\nI1 a1 SELECT INBOX\nI2=alice\nI2 a1 SELECT INBOX\n";

fn scattered<T: AllocGlobal + CpuClock + Print>(
    rt: &T,
    trial: &mut Trial,
    messages: u32,
) -> io::Result<()> {
    fill(rt, trial, messages as usize)?;
    prepare(rt, trial, BOTH)?;
    println!(rt; "half of a mailbox of {messages} messages removed in no order")?;
    let script = scattered_removals(rt.alloc(), messages / 2, messages)?;
    answer_made(rt, trial, "removed", script)?;
    answer(rt, trial, "shown to another", b"I2 a2 NOOP\n")
}

fn four_mailboxes<T: AllocGlobal + CpuClock + Print>(
    rt: &T,
    trial: &mut Trial,
    each: usize,
) -> io::Result<()> {
    println!(rt; "four mailboxes of {each} messages")?;
    let script = deliveries(rt.alloc(), &USERS, each)?;
    answer_made(rt, trial, "delivered", script)
}

fn short_sessions<T: AllocGlobal + CpuClock + Print>(
    rt: &T,
    trial: &mut Trial,
    rounds: usize,
) -> io::Result<()> {
    fill(rt, trial, 10)?;
    println!(rt; "{rounds} rounds of eight sessions")?;
    let script = visits(rt.alloc(), rounds)?;
    answer_made(rt, trial, "answered", script)
}

fn run<T: AllocGlobal + CpuClock + Print>(
    rt: &T,
    trial: &mut Trial,
    measure: Measure,
) -> io::Result<()> {
    match measure {
        Measure::OneMailbox(messages) => one_mailbox(rt, trial, messages),
        Measure::Parts(messages) => parts_of_mailbox(rt, trial, messages),
        Measure::Mail(mail, times) => sized_mail(rt, trial, mail, times),
        Measure::Rounds { mail, rounds, each } => mail_in_rounds(rt, trial, mail, rounds, each),
        Measure::Scattered(messages) => scattered(rt, trial, messages),
        Measure::FourMailboxes(each) => four_mailboxes(rt, trial, each),
        Measure::Visits(rounds) => short_sessions(rt, trial, rounds),
    }
}

/// Measures this of a new house in which four users have a mailbox.
pub fn measure_once<T: AllocGlobal + CpuClock + Print>(
    rt: &T,
    measure: Measure,
    shows: Shows,
) -> io::Result<()> {
    let alloc = rt.alloc();
    let mut trial = Trial {
        house: large_house(alloc, &USERS)?,
        output: Vec::new(alloc),
        shows,
    };
    run(rt, &mut trial, measure)
}
