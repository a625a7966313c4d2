//! How many megabytes a second are taken: mail data by the unstuffer, and lines by the cutter; and what time scripts take in which much mail
//! comes and clients ask for much. With no word it does each once, scripts of a few messages, and prints what came out, which doesn't
//! vary. With the word `measure` it does each many times, or for many messages, and prints the rates and times.
#![tactic(auto)]

mod mail;
mod mailboxes;
mod play;
mod sample;
mod scripts;
mod work;

use crate::mail::Mail;
use crate::mailboxes::{Measure, Shows, measure_once};
use crate::sample::data;
use crate::work::{line_count, text_len};
use std::alloc::Global;
use std::time::{CpuClock, Duration};
use std::{env, io};

/// How many lines a message has: about a megabyte.
const LINES: usize = 14_000;

/// How often each is done where it is measured.
const ROUNDS: u64 = 256;

/// Megabytes a second, of so many bytes that were taken in each round.
fn rate(bytes: usize, took: Duration) -> u128 {
    bytes as u128 * ROUNDS as u128 / took.as_micros().max(1)
}

/// How many rounds found this text.
fn unstuff_rounds(alloc: Global, wire: &[u8], len: usize) -> u64 {
    let mut found = 0;
    for _ in 0..ROUNDS {
        if text_len(alloc, wire) == len {
            found += 1;
        }
    }
    found
}

/// How many rounds found so many lines.
fn cut_rounds(alloc: Global, wire: &[u8], lines: usize) -> u64 {
    let mut found = 0;
    for _ in 0..ROUNDS {
        if line_count(alloc, wire) == lines {
            found += 1;
        }
    }
    found
}

/// Measures both by the processor's time, so that others on the machine count for less, and prints the rates.
fn measure(rt: &HostRuntime, wire: &[u8], len: usize, lines: usize) -> io::Result<()> {
    let start = rt.thread_cpu_time()?;
    let texts = unstuff_rounds(rt.alloc(), wire, len);
    let between = rt.thread_cpu_time()?;
    let cuts = cut_rounds(rt.alloc(), wire, lines);
    let end = rt.thread_cpu_time()?;
    let unstuffed = rate(wire.len(), between.saturating_sub(start));
    let cut = rate(wire.len(), end.saturating_sub(between));
    println!(rt; "unstuffer: {unstuffed} MB/s, {texts} rounds of {ROUNDS} right")?;
    println!(rt; "cutter: {cut} MB/s, {cuts} rounds of {ROUNDS} right")?;
    Ok(())
}

/// A message of 1 KB.
const SMALL: Mail = Mail {
    recipients: 1,
    lines: 14,
};

/// The same for ten recipients.
const SMALL_FOR_TEN: Mail = Mail {
    recipients: 10,
    lines: 14,
};

/// A message of 100 KB.
const LARGE: Mail = Mail {
    recipients: 1,
    lines: 1_400,
};

/// The same for as many recipients as a message may have.
const LARGE_FOR_ALL: Mail = Mail {
    recipients: 100,
    lines: 1_400,
};

/// What is measured of a house: few messages or sessions, and three or four times as many. The rounds come first, while the process has no
/// memory to use again: so the first of them takes new pages as the last does.
const MEASURES: [Measure; 15] = [
    Measure::Rounds {
        mail: SMALL,
        rounds: 30,
        each: 1_000,
    },
    Measure::OneMailbox(10_000),
    Measure::OneMailbox(30_000),
    Measure::Parts(10_000),
    Measure::Parts(30_000),
    Measure::Scattered(30_000),
    Measure::Mail(SMALL, 1_000),
    Measure::Mail(SMALL, 30_000),
    Measure::Mail(SMALL_FOR_TEN, 3_000),
    Measure::Mail(LARGE, 1_000),
    Measure::Mail(LARGE_FOR_ALL, 300),
    Measure::FourMailboxes(6_250),
    Measure::FourMailboxes(25_000),
    Measure::Visits(31),
    Measure::Visits(125),
];

/// The same on a small scale.
const TRIES: [Measure; 10] = [
    Measure::OneMailbox(100),
    Measure::Parts(100),
    Measure::Scattered(100),
    Measure::Mail(SMALL, 10),
    Measure::Rounds {
        mail: SMALL,
        rounds: 3,
        each: 10,
    },
    Measure::Mail(SMALL_FOR_TEN, 10),
    Measure::Mail(LARGE, 1),
    Measure::Mail(LARGE_FOR_ALL, 1),
    Measure::FourMailboxes(10),
    Measure::Visits(2),
];

/// Measures these, each of a house of its own.
fn measure_each(rt: &HostRuntime, measures: &[Measure], shows: Shows) -> io::Result<()> {
    for measure in measures {
        measure_once(rt, *measure, shows)?;
    }
    Ok(())
}

fn main(rt: HostRuntime) -> io::Result<()> {
    let alloc = rt.alloc();
    let wire = data(alloc, LINES)?;
    let len = text_len(alloc, wire.as_slice());
    let lines = line_count(alloc, wire.as_slice());
    let words = env::args(&rt)?.collect::<Vec<String>>(alloc)?;
    match words.get(1) {
        Some(word) if word.as_str() == "measure" => {
            measure(&rt, wire.as_slice(), len, lines)?;
            measure_each(&rt, &MEASURES, Shows::Times)
        }
        _ => {
            println!(rt;
                "bench: {} bytes, a text of {len} bytes, {lines} lines",
                wire.len()
            )?;
            measure_each(&rt, &TRIES, Shows::Bytes)
        }
    }
}
