//! What is told at a server's end: how many there were of each thing.

ghost use Rattle.std.specs.Prelude.{◌≡◌, ◌++◌, codes, flat_map, OnOk};
ghost use Rattle.server_report.specs.Summing.{count_line, held_lines, lost_line, refused_line, summary_lines};

use crate::counts::Refused;
use crate::log::{Held, Summary};
use crate::refused::{REASONS, count_for, reason_words};
use delivery_token::Refusal;
use itoa::Buffer;
use line_io::append_parts;
use std::alloc::AllocError;

// A line of how many there were of this.
fn append_count(what: &[u8], count: u64, out: &mut Vec<u8>) -> Result<(), AllocError>
    ensures { OnOk result (out.new.items ≡ out.old.items ++ count_line what.now count) }
{
    let mut digits = Buffer::new();
    append_parts(
        &[
            what,
            b" ".as_slice(),
            digits.format(count).as_bytes(),
            b"\n".as_slice(),
        ],
        out,
    )
}

// A line of how many copies were refused for this reason, where there were any.
fn append_refused_line(
    refused: Refused,
    reason: Refusal,
    out: &mut Vec<u8>,
) -> Result<(), AllocError>
    ensures { OnOk result (out.new.items ≡ out.old.items ++ refused_line refused reason) }
{
    let count = count_for(refused, reason);
    if count == 0 {
        return Ok(());
    }
    let mut digits = Buffer::new();
    append_parts(
        &[
            b"copies refused ".as_slice(),
            reason_words(reason),
            b" ".as_slice(),
            digits.format(count).as_bytes(),
            b"\n".as_slice(),
        ],
        out,
    )
}

// A line for each of these reasons for which copies were refused.
fn append_refused(refused: Refused, order: &[Refusal], out: &mut Vec<u8>) -> Result<(), AllocError>
    ensures { OnOk result (out.new.items
        ≡ out.old.items ++ flat_map (refused_line refused) order.now) }
{
    for reason in order {
        append_refused_line(refused, *reason, out)?;
    }
    Ok(())
}

/// How many lines had no room, where there were any.
///
/// Errors: `AllocError` where memory was refused; `out` is then as it was.
pub(crate) fn append_lost(lost: u64, out: &mut Vec<u8>) -> Result<(), AllocError>
    ensures { OnOk result (out.new.items ≡ out.old.items ++ lost_line lost) }
{
    if lost == 0 {
        return Ok(());
    }
    let mut digits = Buffer::new();
    append_parts(
        &[
            b"log lost ".as_slice(),
            digits.format(lost).as_bytes(),
            b" lines\n".as_slice(),
        ],
        out,
    )
}

// What the server held.
fn append_held(held: Held, out: &mut Vec<u8>) -> Result<(), AllocError>
    ensures { OnOk result (out.new.items ≡ out.old.items ++ held_lines held) }
{
    append_count(b"bytes held", held.bytes, out)?;
    append_count(b"longest lane", held.longest_lane, out)
}

/// A line for each thing that was counted: messages, copies that were stored, copies that were refused for each reason that came,
/// connections, sessions, the bytes that the mailboxes hold, how much waited on the longest lane, and lines that were lost, where any were.
///
/// Errors: `AllocError` where memory was refused; some of the lines may stand in `out` then.
pub fn append_summary(summary: Summary, out: &mut Vec<u8>) -> Result<(), AllocError>
    ensures { OnOk result (out.new.items ≡ out.old.items ++ summary_lines summary) }
{
    let counts = summary.counts;
    append_count(b"messages", counts.messages, out)?;
    append_count(b"copies stored", counts.stored, out)?;
    append_refused(counts.refused, &REASONS, out)?;
    append_count(b"connections", counts.connections, out)?;
    append_count(b"sessions", counts.sessions, out)?;
    append_held(summary.held, out)?;
    append_lost(counts.lost, out)
}
