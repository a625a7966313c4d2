//! The program: it reads its command line, runs what that asks for, and says how it went by its exit status and on standard error. How
//! words become settings is told in the crate `command_line`, how the program may fail in `failure`; what a house does in the crate `house`.
#![tactic(auto)]

mod failure;
mod outcome;

ghost use Rattle.std.specs.Prelude.{◌≡◌, ◌⊎◌, ◌↔◌, false, true, map};
ghost use Rattle.clap.specs.Words.{kind_of};
ghost use Rattle.command_line.specs.Asking.{IsAskedInRange};
ghost use Rattle.post_house.specs.inner.Playing.{HasDone, HasRun};
ghost use Rattle.post_house.specs.Status.{status_of};
ghost use Rattle.post_house.specs.inner.Status.{IsStatus, status_of_done};
ghost use Rattle.post_house.specs.inner.Telling.{HasTold, IsRequest, Tells};

use crate::failure::Failure;
use crate::outcome::{Done, Outcome, Ran};
use clap::Error;
use clap::error::ErrorKind;
use command_line::{Asked, asked_of};
use line_io::{Sink, Watched, send};
use script::run_script;
use serving::serve;
use std::alloc::Global;
use std::convert::AsStr;
use std::env::{self, Env};
use std::io::{self, BufRead, BufReader, Input, Write};
use std::net::{Net, TcpListener, TcpStream};
use std::process::ExitCode;
use std::sync::Wait;
use std::thread::Threads;

/// The exit status where all went well.
const DONE: u8 = 0;

/// The exit status where the command line asks for nothing that the program does.
const NOT_ASKED_RIGHT: u8 = 2;

// Says on standard error why the program fails, and gives its exit status. Where that can't be written it isn't said.
fn fail<F: Write>(failure: Failure, faults: &mut F) -> u8
    ensures { result ≡ status_of failure }
{
    let _ = writeln!(faults, "post_house: {failure}");
    failure.status()
}

// Whether memory was refused.
fn is_want(kind: ErrorKind) -> bool
    ensures { (result ≡ true) ↔ (kind ≡ ErrorKind.OutOfMemory) }
{
    matches!(kind, ErrorKind::OutOfMemory)
}

// Whether help or the version was asked for.
fn is_request(kind: ErrorKind) -> bool
    ensures { (result ≡ true) ↔ IsRequest kind }
{
    matches!(kind, ErrorKind::DisplayHelp | ErrorKind::DisplayVersion)
}

// Writes help or the version to the output. Where memory is refused nothing is written.
fn show<W: Sink, F: Write>(alloc: Global, error: &Error, output: &mut W, faults: &mut F) -> u8
    requires { W.failed output.old ≡ false }
    ensures { (result ≡ 5) × (output.new ≡ output.old)
        ⊎ Tells (W.failed output.new) result (W.taken output.old) (W.taken output.new) }
{
    let mut help = Vec::new(alloc);
    let Ok(()) = write!(help, "{error}") else {
        return fail(Failure::NoMemory, faults);
    };
    match send(output, &help) {
        Ok(()) => DONE,
        Err(_) => fail(Failure::Device, faults),
    }
}

// Says what is to be said of a command line that gave no settings: the help on the output, a mistake on standard error.
fn tell<W: Sink, F: Write>(alloc: Global, error: &Error, output: &mut W, faults: &mut F) -> u8
    requires { W.failed output.old ≡ false }
    ensures { HasTold (kind_of error.now) (output.new
        ≡ output.old) (W.failed output.new) result (W.taken output.old) (W.taken output.new) }
{
    if is_want(error.kind()) {
        return fail(Failure::NoMemory, faults);
    }
    if is_request(error.kind()) {
        return show(alloc, error, output, faults);
    }
    let _ = write!(faults, "{error}");
    NOT_ASKED_RIGHT
}

// Does what is asked for, and hands out what came of it. A server's log goes to `log`, where it is asked for.
fn carry_out<
    R: Net<Listener = TcpListener, Stream = TcpStream> + Threads + Wait + Sync,
    I: BufRead,
    W: Sink,
    L: Write + Drop + Send,
>(rt: &R, alloc: Global, asked: &Asked, input: &mut I, output: &mut W, log: L) -> Done
    requires range { IsAskedInRange asked.now }
    requires live { W.failed output.old ≡ false }
    ensures not_set { status_of_done result ≡ 3 → output.new ≡ output.old }
    ensures done { HasDone asked.now result (I.remaining input.old) (W.failed output.new)
        (W.taken output.old) (W.taken output.new) }
{
    match asked {
        Asked::Script { config, form } => {
            Done::Played(run_script(*form, alloc, config, input, output))
        }
        Asked::Serve {
            config,
            uidvalidity,
            report,
        } => Done::Served(serve(rt, alloc, config, *uidvalidity, *report, input, output, log)),
    }
}

// Says a failure on standard error, and gives the exit status.
fn finish<F: Write>(done: Done, faults: &mut F) -> u8
    ensures { result ≡ status_of_done done }
{
    match done {
        Done::Played(Ok(())) | Done::Served(Ok(())) => DONE,
        Done::Played(Err(fault)) => fail(Failure::from(fault), faults),
        Done::Served(Err(fault)) => fail(Failure::from(fault), faults),
    }
}

/// Does what the words ask for, the first of which is the program's name, and hands out what came of it, with the exit status: 0 where all
/// was done, also where only the help was asked for; 2 for a command line that is refused, with clap's text on `faults`; 3 for settings that are wrong,
/// 4 for a device that fails, 5 for want of memory and 6 for a server that was torn, each with a line of its own on `faults`. At 2 and 3
/// nothing is written to `output`. A script's bytes are played as they come, and what was written is what it prints, in the form that was
/// asked for, or after a failure a beginning of it. A server writes a line for each of its listeners, or after a failure a beginning of them,
/// and ends with the input. Where a log is asked for its lines go to `log`.
fn command<
    R: Net<Listener = TcpListener, Stream = TcpStream> + Threads + Wait + Sync,
    S: AsStr,
    I: BufRead,
    W: Sink,
    F: Write,
    L: Write + Drop + Send,
>(rt: &R, alloc: Global, words: &[S], input: &mut I, output: &mut W, faults: &mut F, log: L) -> Ran
    requires { W.failed output.old ≡ false }

    // The exit status is 0, or 2 to 6; at 2 and 3 nothing was written to `output`.
    ensures status { IsStatus result.status }
    ensures not_asked { result.status ≡ NOT_ASKED_RIGHT → output.new ≡ output.old }
    ensures not_set { result.status ≡ 3 → output.new ≡ output.old }
    // What the words asked for was done; or they ask for nothing that is done, the input wasn't touched, and that was told.
    ensures ran { HasRun (map S.text words.now) result.outcome (input.new
        ≡ input.old) (I.remaining input.old) (output.new ≡ output.old)
        (W.failed output.new) result.status (W.taken output.old) (W.taken output.new) }
{
    let asked = match asked_of(alloc, words) {
        Ok(asked) => asked,
        Err(error) => {
            let status = tell(alloc, &error, output, faults);
            let outcome = Outcome::Refused(error.kind());
            return Ran { outcome, status };
        }
    };
    let done = carry_out(rt, alloc, &asked, input, output, log);
    let status = finish(done, faults);
    let outcome = Outcome::Did(asked, done);
    Ran { outcome, status }
}

// Says why the process's words can't be had: they are no text, or memory was refused.
fn refuse_words<F: Write>(error: &io::Error, faults: &mut F) -> u8
    ensures status { IsStatus result }
    ensures refused { (result ≡ status_of Failure.NoMemory) ⊎ (result ≡ NOT_ASKED_RIGHT) }
{
    if let io::ErrorKind::OutOfMemory = error.kind() {
        return fail(Failure::NoMemory, faults);
    }
    let _ = writeln!(
        faults,
        "error: invalid UTF-8 was detected in one or more arguments\n\nFor more information, try '--help'."
    );
    NOT_ASKED_RIGHT
}

// The program over the process's own words and streams.
fn program<
    R: AllocGlobal
        + Env
        + Input
        + Print
        + Net<Listener = TcpListener, Stream = TcpStream>
        + Threads
        + Wait
        + Sync,
    F: Write,
    L: Write + Drop + Send,
>(rt: &R, faults: &mut F, log: L) -> u8
    ensures { IsStatus result }
{
    let alloc = rt.alloc();
    let words = match env::args(rt) {
        Ok(words) => words.collect::<Vec<String>>(alloc),
        Err(error) => return refuse_words(&error, faults),
    };
    let (Ok(words), Ok(mut input)) = (words, BufReader::new(alloc, rt.reader())) else {
        return fail(Failure::NoMemory, faults);
    };
    let ran = command(
        rt,
        alloc,
        words.as_slice(),
        &mut input,
        &mut Watched::new(io::writer(rt)),
        faults,
        log,
    );
    ran.status
}

fn main(rt: HostRuntime) -> ExitCode {
    ExitCode::from(program(&rt, &mut rt.stderr(), rt.stderr()))
}
