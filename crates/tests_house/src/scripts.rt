//! Tests of a script that is played in a house: one whose reader or writer fails in its middle, what is answered then, and what was
//! written by then.

ghost use Rattle.std.specs.Prelude.{◌≡◌, Some, false};

use crate::events::house;
use house::House;
use line_io::Sink;
use script::{RunFault, drive, drive_as};
use settings::Form;
use std::alloc::Global;
use std::io::{BufRead, Error, ErrorKind, Read};

const SCRIPT: &[u8] = b"L1 LHLO c.example\n\
L1 MAIL FROM:<s@a.example>\n\
L1 RCPT TO:<alice@example.org>\n\
L1 DATA\n\
L1 hi\n\
L1 .\n\
TAIL alice\n";

// What the script prints.
const PRINTED: &[u8] = b"L1 220 mx.example.org LMTP ready\n\
L1 250-mx.example.org\n\
L1 250-PIPELINING\n\
L1 250-ENHANCEDSTATUSCODES\n\
L1 250 8BITMIME\n\
L1 250 2.1.0 Sender OK\n\
L1 250 2.1.5 Recipient OK\n\
L1 354 Start mail input\n\
L1 250 2.1.5 Delivered\n\
T alice add 1\n\
T alice total 1\n";

// The same in JSON.
const TOLD: &[u8] =
    b"{\"number\":1,\"line\":\"L1 LHLO c.example\",\"printed\":\"L1 220 mx.example.org LMTP ready\\n\
L1 250-mx.example.org\\nL1 250-PIPELINING\\nL1 250-ENHANCEDSTATUSCODES\\nL1 250 8BITMIME\\n\"}\n\
{\"number\":2,\"line\":\"L1 MAIL FROM:<s@a.example>\",\"printed\":\"L1 250 2.1.0 Sender OK\\n\"}\n\
{\"number\":3,\"line\":\"L1 RCPT TO:<alice@example.org>\",\"printed\":\"L1 250 2.1.5 Recipient OK\\n\"}\n\
{\"number\":4,\"line\":\"L1 DATA\",\"printed\":\"L1 354 Start mail input\\n\"}\n\
{\"number\":5,\"line\":\"L1 hi\",\"printed\":\"\"}\n\
{\"number\":6,\"line\":\"L1 .\",\"printed\":\"L1 250 2.1.5 Delivered\\n\"}\n\
{\"number\":7,\"line\":\"TAIL alice\",\"printed\":\"T alice add 1\\nT alice total 1\\n\"}\n";

// Lines that nothing tells of, and one with bytes of every kind.
const ODD: &[u8] = b"# x\n\n\"\\\x80\xff\x07\r\nHOLD 0";

const ODD_TOLD: &[u8] =
    b"{\"number\":3,\"line\":\"\\\"\\\\\xc2\x80\xc3\xbf\\u0007\",\"printed\":\"? 3 Line\\n\"}\n\
{\"number\":4,\"line\":\"HOLD 0\",\"printed\":\"\"}\n";

// A script in a form, and what is written of it.
#[derive(Clone, Copy)]
struct Case {
    form: Form,
    script: &'static [u8],
    written: &'static [u8],
}

const TEXT: Case = Case {
    form: Form::Text,
    script: SCRIPT,
    written: PRINTED,
};

const JSON: Case = Case {
    form: Form::Json,
    script: SCRIPT,
    written: TOLD,
};

const ODD_JSON: Case = Case {
    form: Form::Json,
    script: ODD,
    written: ODD_TOLD,
};

// How many bytes of that its first lines have printed: none, one, and so on to six.
const ENDS: [usize; 7] = [0, 116, 139, 165, 189, 189, 212];

// Gives a script line by line, and fails in this way once its calls are used up.
#[derive(Drop)]
struct Torn<'a> {
    rest: &'a [u8],
    calls: usize,
    kind: ErrorKind,
}

impl Read for Torn<'_> {
    fn read(&mut self, _buf: &mut [u8]) -> std::io::Result<usize> {
        Err(Error::from(self.kind))
    }
}

impl BufRead for Torn<'_> {
    fn fill_buf(&mut self) -> std::io::Result<&[u8]> {
        if self.calls == 0 {
            return Err(Error::from(self.kind));
        }
        match self.rest.split_inclusive(|b| *b == b'\n').next() {
            Some(line) => Ok(line),
            None => Ok(&[]),
        }
    }

    fn consume(&mut self, amount: usize) {
        self.rest = self.rest.get(amount..).unwrap_or(&[]);
        self.calls = self.calls.saturating_sub(1);
    }
}

// Takes so many bytes, and then none.
#[derive(Drop)]
struct Narrow {
    bytes: Vec<u8>,
    room: usize,
    has_failed: bool,
}

impl Sink for Narrow {
    ghost taken = { λ s. Some s.bytes.items };

    ghost failed = { λ s. s.has_failed };

    fn offer(&mut self, bytes: &[u8]) -> Option<usize> {
        let n = bytes.len().min(self.room);
        if n > 0 && self.bytes.extend_from_slice(&bytes[..n]).is_ok() {
            self.room -= n;
            Some(n)
        } else {
            self.has_failed = true;
            None
        }
    }
}

// A run in the case's form.
fn run<R: BufRead, W: Sink>(
    alloc: Global,
    form: Form,
    house: &mut House,
    reader: &mut R,
    writer: &mut W,
) -> Result<(), RunFault>
    requires { W.failed writer.old ≡ false }
{
    match form {
        Form::Text => drive(alloc, house, reader, writer),
        Form::Json => drive_as(Form::Json, alloc, house, reader, writer),
    }
}

// Whether a run in this house, over a writer that takes so many bytes, ends so and has written so much of what is written of the script.
fn runs(
    alloc: Global,
    case: Case,
    house: &mut House,
    reader: &mut Torn<'_>,
    room: usize,
    wanted: Result<(), RunFault>,
    told: usize,
) -> bool {
    let mut writer = Narrow {
        bytes: Vec::new(alloc),
        room,
        has_failed: false,
    };
    run(alloc, case.form, house, reader, &mut writer) == wanted
        && case.written.get(..told) == Some(writer.bytes.as_slice())
}

// The same in a new house, of a script of which the reader gives so many lines before it fails in this way.
fn ends_so(
    alloc: Global,
    case: Case,
    lines: usize,
    kind: ErrorKind,
    room: usize,
    wanted: Result<(), RunFault>,
    told: usize,
) -> bool {
    let Ok(mut house) = house(alloc) else {
        return false;
    };
    let mut reader = Torn {
        rest: case.script,
        calls: lines,
        kind,
    };
    runs(alloc, case, &mut house, &mut reader, room, wanted, told)
}

// The first number of lines behind which a reader that fails doesn't stop the run.
fn first_unread(alloc: Global) -> Option<usize> {
    for (lines, told) in ENDS.iter().enumerate() {
        if !ends_so(
            alloc,
            TEXT,
            lines,
            ErrorKind::BrokenPipe,
            1_000,
            Err(RunFault::Read),
            *told,
        ) {
            return Some(lines);
        }
    }
    None
}

#[test]
fn a_reader_that_fails_stops_the_run(rt: HostRuntime) {
    assert_eq!(rt; first_unread(rt.alloc()), None);
    assert!(rt;
        ends_so(
            rt.alloc(),
            TEXT,
            9,
            ErrorKind::BrokenPipe,
            1_000,
            Ok(()),
            PRINTED.len()
        )
    );
    assert!(rt;
        ends_so(
            rt.alloc(),
            TEXT,
            1,
            ErrorKind::OutOfMemory,
            1_000,
            Err(RunFault::NoMemory),
            116,
        )
    );
}

// The first room of a writer that isn't told as the run's end. The writer fails at each byte but the last.
fn first_unwritten(alloc: Global, case: Case) -> Option<usize> {
    for room in 0..case.written.len() {
        let wanted = Err(RunFault::Write { sent: room as u128 });
        if !ends_so(alloc, case, 9, ErrorKind::BrokenPipe, room, wanted, room) {
            return Some(room);
        }
    }
    None
}

#[test]
fn a_writer_that_fails_is_told_to_the_byte(rt: HostRuntime) {
    assert_eq!(rt; first_unwritten(rt.alloc(), TEXT), None);
    assert_eq!(rt; first_unwritten(rt.alloc(), ODD_JSON), None);
}

// Whether the whole of it is written to a writer with room enough.
fn is_written(alloc: Global, case: Case) -> bool {
    ends_so(
        alloc,
        case,
        9,
        ErrorKind::BrokenPipe,
        2_000,
        Ok(()),
        case.written.len(),
    )
}

#[test]
fn json_tells_of_each_line(rt: HostRuntime) {
    assert!(rt; is_written(rt.alloc(), JSON));
    assert!(rt; is_written(rt.alloc(), ODD_JSON));
}
