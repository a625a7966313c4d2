//! The answer to a SEARCH that says what to return (RFC 9051, 7.3.4: esearch-response), with the bytes that specs/Answers.antt gives.

ghost use Rattle.std.specs.Prelude.{◌≡◌, ◌++◌, ◌≤◌, OnOk, OnErr, vec_capacity};
ghost use Rattle.std.specs.Io.{StartsWith};
ghost use Rattle.imap_answers.specs.Answers.{all_item, count_item, extended_answer, extended_front, extended_items, highest, highest_item, if_asked, lowest, lowest_item};

use crate::number_set::put_numbers_set;
use crate::words::write_number;
use imap_grammar::SearchReturns;
use line_io::append_parts;
use std::alloc::AllocError;

// The lowest of these numbers.
fn lowest(first: usize, more: &[usize]) -> usize
    ensures { result ≡ lowest first more.now }
{
    let mut least = first;
    for number in more {
        least = least.min(*number);
    }
    least
}

// The highest of these numbers.
fn highest(first: usize, more: &[usize]) -> usize
    ensures { result ≡ highest first more.now }
{
    let mut most = first;
    for number in more {
        most = most.max(*number);
    }
    most
}

/// Appends the lowest number, where there is one.
fn write_lowest(numbers: &[usize], out: &mut Vec<u8>) -> Result<(), AllocError>
    ensures ok { OnOk result (out.new.items ≡ out.old.items ++ lowest_item numbers.now) }
    ensures err { OnErr result (out.new.items ≡ out.old.items) }
    ensures room { vec_capacity out.old ≤ vec_capacity out.new }
{
    let Some((first, more)) = numbers.split_first() else {
        return Ok(());
    };
    write_number(b" MIN ", lowest(*first, more) as u128, out)
}

/// Appends the highest number, where there is one.
fn write_highest(numbers: &[usize], out: &mut Vec<u8>) -> Result<(), AllocError>
    ensures ok { OnOk result (out.new.items ≡ out.old.items ++ highest_item numbers.now) }
    ensures err { OnErr result (out.new.items ≡ out.old.items) }
    ensures room { vec_capacity out.old ≤ vec_capacity out.new }
{
    let Some((first, more)) = numbers.split_first() else {
        return Ok(());
    };
    write_number(b" MAX ", highest(*first, more) as u128, out)
}

/// Appends how many numbers there are.
fn write_count(numbers: &[usize], out: &mut Vec<u8>) -> Result<(), AllocError>
    ensures ok { OnOk result (out.new.items ≡ out.old.items ++ count_item numbers.now) }
    ensures err { OnErr result (out.new.items ≡ out.old.items) }
    ensures room { vec_capacity out.old ≤ vec_capacity out.new }
{
    write_number(b" COUNT ", numbers.len() as u128, out)
}

/// Appends the set that the numbers are, where there are any, or a part of it.
fn put_all(numbers: &[usize], out: &mut Vec<u8>) -> Result<(), AllocError>
    ensures ok { OnOk result (out.new.items ≡ out.old.items ++ all_item numbers.now) }
    ensures err { OnErr result (StartsWith out.new.items out.old.items) }
    ensures room { vec_capacity out.old ≤ vec_capacity out.new }
{
    let Some((first, more)) = numbers.split_first() else {
        return Ok(());
    };
    append_parts(&[b" ALL ".as_slice()], out)?;
    put_numbers_set(*first, more, out)
}

/// Appends the lowest and the highest number as far as they are asked for, or a part of it.
fn put_ends(returns: SearchReturns, numbers: &[usize], out: &mut Vec<u8>) -> Result<(), AllocError>
    ensures ok { OnOk result (out.new.items ≡ out.old.items
        ++ (if_asked returns.min (lowest_item numbers.now)
        ++ if_asked returns.max (highest_item numbers.now))) }
    ensures err { OnErr result (StartsWith out.new.items out.old.items) }
    ensures room { vec_capacity out.old ≤ vec_capacity out.new }
{
    if returns.min {
        write_lowest(numbers, out)?;
    }
    if returns.max {
        write_highest(numbers, out)?;
    }
    Ok(())
}

/// Appends how many there are, and all of them, as far as that is asked for, or a part of it.
fn put_whole(returns: SearchReturns, numbers: &[usize], out: &mut Vec<u8>) -> Result<(), AllocError>
    ensures ok { OnOk result (out.new.items ≡ out.old.items
        ++ (if_asked returns.count (count_item numbers.now)
        ++ if_asked returns.all (all_item numbers.now))) }
    ensures err { OnErr result (StartsWith out.new.items out.old.items) }
    ensures room { vec_capacity out.old ≤ vec_capacity out.new }
{
    if returns.count {
        write_count(numbers, out)?;
    }
    if returns.all {
        put_all(numbers, out)?;
    }
    Ok(())
}

/// Appends what is asked for, or a part of it.
fn put_items(returns: SearchReturns, numbers: &[usize], out: &mut Vec<u8>) -> Result<(), AllocError>
    ensures ok { OnOk result (out.new.items
        ≡ out.old.items ++ extended_items returns numbers.now) }
    ensures err { OnErr result (StartsWith out.new.items out.old.items) }
    ensures room { vec_capacity out.old ≤ vec_capacity out.new }
{
    put_ends(returns, numbers, out)?;
    put_whole(returns, numbers, out)
}

/// Appends what tells which search is answered, and in which numbers.
fn write_front(tag: &[u8], by_uid: bool, out: &mut Vec<u8>) -> Result<(), AllocError>
    ensures ok { OnOk result (out.new.items ≡ out.old.items ++ extended_front tag.now by_uid) }
    ensures err { OnErr result (out.new.items ≡ out.old.items) }
    ensures room { vec_capacity out.old ≤ vec_capacity out.new }
{
    let front = b"* ESEARCH (TAG \"".as_slice();
    if by_uid {
        return append_parts(&[front, tag, b"\") UID".as_slice()], out);
    }
    append_parts(&[front, tag, b"\")".as_slice()], out)
}

/// Appends the answer to a SEARCH that says what to return, or a part of it (RFC 9051, 7.3.4).
pub(crate) fn put_extended(
    tag: &[u8],
    by_uid: bool,
    returns: SearchReturns,
    numbers: &[usize],
    out: &mut Vec<u8>,
) -> Result<(), AllocError>
    ensures ok { OnOk result (out.new.items
        ≡ out.old.items ++ extended_answer tag.now by_uid returns numbers.now) }
    ensures err { OnErr result (StartsWith out.new.items out.old.items) }
    ensures room { vec_capacity out.old ≤ vec_capacity out.new }
{
    write_front(tag, by_uid, out)?;
    put_items(returns, numbers, out)?;
    append_parts(&[b"\r\n".as_slice()], out)
}
