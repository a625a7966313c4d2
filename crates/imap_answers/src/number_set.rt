//! A set of numbers (RFC 9051, 9: sequence-set) as it is appended where memory may be refused, with the bytes that specs/Answers.antt gives: numbers that
//! follow one another are one range. With its room reserved a set of UIDs is written by `uid_set`.

ghost use Rattle.std.specs.Prelude.{◌≡◌, ◌==◌, ◌+◌, ◌≤◌, ◌++◌, ◌∷◌, ℕ, List, IfOk, OnErr, OnOk, vec_capacity};
ghost use Rattle.std.specs.Io.{StartsWith};
ghost use Rattle.imap_answers.specs.Answers.{range_text, runs_text};

use itoa::Buffer;
use line_io::append_parts;
use std::alloc::AllocError;

// Whether a number stands right behind another.
fn follows(last: usize, number: usize) -> bool
    ensures { result ≡ (number == last + 1) }
{
    last < number && number - last == 1
}

// Appends two numbers as the ends of a range, or one number that is both.
fn write_range(first: usize, last: usize, out: &mut Vec<u8>) -> Result<(), AllocError>
    ensures ok { OnOk result (out.new.items ≡ out.old.items ++ range_text first last) }
    ensures err { OnErr result (out.new.items ≡ out.old.items) }
    ensures room { vec_capacity out.old ≤ vec_capacity out.new }
{
    let mut from = Buffer::new();
    let start = from.format(first).as_bytes();
    if first == last {
        return append_parts(&[start], out);
    }
    let mut to = Buffer::new();
    append_parts(&[start, b":".as_slice(), to.format(last).as_bytes()], out)
}

// Goes on behind a run with one number more: it stands in that run, or the run is appended and another begins. The answer is where the run at hand begins.
fn put_next(
    first: usize,
    last: usize,
    number: usize,
    out: &mut Vec<u8>,
) -> Result<usize, AllocError>
    ensures ok { IfOk result (λ begins. (numbers : List ℕ) →
        out.new.items ++ runs_text begins number numbers
        ≡ out.old.items ++ runs_text first last (number ∷ numbers)) }
    ensures front { StartsWith out.new.items out.old.items }
    ensures room { vec_capacity out.old ≤ vec_capacity out.new }
{
    if follows(last, number) {
        return Ok(first);
    }
    write_range(first, last, out)?;
    append_parts(&[b",".as_slice()], out)?;
    Ok(number)
}

// Appends the set that begins with this number, or a part of it.
pub(crate) fn put_numbers_set(
    number: usize,
    numbers: &[usize],
    out: &mut Vec<u8>,
) -> Result<(), AllocError>
    ensures ok { OnOk result (out.new.items
        ≡ out.old.items ++ runs_text number number numbers.now) }
    ensures err { OnErr result (StartsWith out.new.items out.old.items) }
    ensures room { vec_capacity out.old ≤ vec_capacity out.new }
{
    let mut first = number;
    let mut last = number;
    for next in numbers {
        first = put_next(first, last, *next, out)?;
        last = *next;
    }
    write_range(first, last, out)
}
