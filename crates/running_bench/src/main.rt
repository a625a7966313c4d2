//! A small plan with its whole report; and then what time a copy takes in the running house, with one worker and with four, over one
//! shard and over four, and in the house on one thread. What was delivered is printed, which doesn't vary; the times stand on
//! standard error. With the word `measure` there are many more copies.
#![tactic(auto)]

mod alone;
mod mail;
mod small;
mod threads;

ghost use Rattle.std.specs.Prelude.{◌<◌};
ghost use Rattle.settings.specs.Settings.{IsFrom};

use crate::alone::{deliver_alone, pieces};
use crate::small::{run_and_print, small_plan};
use crate::threads::{Found, deliver_by_threads, plan_of};
use std::env::{self, Env};
use std::io;
use std::sync::Wait;
use std::thread::Threads;
use std::time::{Clock, CpuClock, Duration, Instant};

/// How many copies each run delivers.
const COPIES: usize = 2_000;

/// The same where it is measured.
const MANY: usize = 40_000;

/// When something began.
#[derive(Clone, Copy)]
struct Begun {
    wall: Instant,
    processors: Duration,
}

fn begin<T: Clock + CpuClock>(rt: &T) -> io::Result<Begun> {
    Ok(Begun {
        wall: Instant::now(rt)?,
        processors: rt.process_cpu_time()?,
    })
}

/// Nanoseconds for each of so many copies.
fn each(took: Duration, copies: usize) -> u128 {
    took.as_nanos() / copies.max(1) as u128
}

/// Tells how long each copy took since then, in microseconds and tenths of them.
fn tell<T: Clock + CpuClock + Eprint>(
    rt: &T,
    name: &str,
    begun: Begun,
    copies: usize,
) -> io::Result<()> {
    let wall = each(begun.wall.elapsed(rt)?, copies);
    let took = rt.process_cpu_time()?.saturating_sub(begun.processors);
    let processors = each(took, copies);
    eprintln!(rt;
        "{name}: {}.{} us a copy, {}.{} us of processors",
        wall / 1000,
        wall / 100 % 10,
        processors / 1000,
        processors / 100 % 10
    )
}

/// One run of the running house.
fn measure<T: AllocGlobal + Clock + CpuClock + Print + Eprint + Threads + Wait + Sync>(
    rt: &T,
    workers: u8,
    shards: u8,
    copies: usize,
) -> io::Result<()>
    requires some { 0 < workers }
    requires shards { IsFrom 1 8 shards }
{
    let name = format!(in rt.alloc(); "workers {workers}, shards {shards}")?;
    let plan = plan_of(rt.alloc(), workers, shards, copies)?;
    let begun = begin(rt)?;
    let Found { accepted, texts } = deliver_by_threads(rt, rt.alloc(), &plan)?;
    tell(rt, &name, begun, copies)?;
    println!(rt; "{name}: {accepted} copies accepted, {texts} messages there")
}

/// The same work on one thread.
fn measure_alone<T: AllocGlobal + Clock + CpuClock + Print + Eprint>(
    rt: &T,
    copies: usize,
) -> io::Result<()> {
    let pieces = pieces(rt.alloc(), copies)?;
    let begun = begin(rt)?;
    let delivered = deliver_alone(rt.alloc(), &pieces)?;
    tell(rt, "one thread", begun, copies)?;
    println!(rt; "one thread: {delivered} copies delivered")
}

/// How many copies are asked for.
fn copies_asked<T: AllocGlobal + Env>(rt: &T) -> io::Result<usize> {
    let words = env::args(rt)?.collect::<Vec<String>>(rt.alloc())?;
    match words.get(1) {
        Some(word) if word.as_str() == "measure" => Ok(MANY),
        _ => Ok(COPIES),
    }
}

/// A small plan first, with its whole report.
fn show<T: AllocGlobal + Print + Eprint + Threads + Wait + Sync>(rt: &T) -> io::Result<()> {
    let plan = small_plan(rt.alloc())?;
    run_and_print(rt, &plan)
}

fn main(rt: HostRuntime) -> io::Result<()> {
    show(&rt)?;
    let copies = copies_asked(&rt)?;
    println!(&rt; "{copies} copies, each of {} bytes of data", mail::DATA)?;
    measure(&rt, 1, 1, copies)?;
    measure(&rt, 1, 4, copies)?;
    measure(&rt, 4, 1, copies)?;
    measure(&rt, 4, 4, copies)?;
    measure_alone(&rt, copies)
}
