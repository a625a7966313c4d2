//! The ranges of a set, and which messages of a view they name. How a set is called and what it refuses is told in `set`, and how
//! messages are chosen by their positions in `positions`.

ghost use Rattle.std.specs.Prelude.{◌≡◌, ◌++◌, IfOk, OnOk, Some, length, option_to_list};
ghost use Rattle.std.specs.List.Sorted.{IsNonDecreasing};
ghost use Rattle.imap_grammar.specs.Sets.{range_of, ranges_of, numeric, is_named, is_one_there, is_above, is_too_high, by_uid, at_positions, last_uid};
ghost use Rattle.imap_grammar.specs.inner.Choosing.{chosen_of};

use crate::cut::cut_at;
use crate::positions::{
    chosen_at, named_positions, names_a_position, names_a_uid, positions_of_named_uids,
};
use crate::set::{SeqNumber, SeqRange, range_in};
use std::alloc::{AllocError, Global};

/// The number, where `*` is the greatest.
pub(crate) fn numeric_of(greatest: usize, n: SeqNumber) -> usize
    ensures { result ≡ numeric greatest n }
{
    match n {
        SeqNumber::Number(n) => n as usize,
        SeqNumber::Star => greatest,
    }
}

fn is_one_above(count: usize, n: SeqNumber) -> bool
    ensures { result ≡ is_above count n }
{
    match n {
        SeqNumber::Number(n) => count < n as usize,
        SeqNumber::Star => count == 0,
    }
}

fn names_one_above(part: &[u8], count: usize) -> bool
    ensures { result ≡ is_too_high (option_to_list (range_of part.now)) count }
{
    match range_in(part) {
        Some(range) => is_one_above(count, range.from) || is_one_above(count, range.to),
        None => false,
    }
}

/// Whether a range of a set names a message above this count. Takes no memory.
#[tactic(auto, using(crate::proofs::SetParts::ranges_cut, crate::proofs::SetParts::ranges_end, crate::proofs::SetParts::high_joined))]
pub(crate) fn is_one_too_high(text: &[u8], count: usize) -> bool
    ensures { result ≡ is_too_high (ranges_of text.now) count }
{
    let mut rest = text;
    while let Some((part, others)) = cut_at(b',', rest) {
        if names_one_above(part, count) {
            return true;
        }
        rest = others;
    }
    names_one_above(rest, count)
}

fn part_names(part: &[u8], greatest: usize, n: usize) -> bool
    ensures { result ≡ is_named (option_to_list (range_of part.now)) greatest n }
{
    match range_in(part) {
        Some(range) => {
            let a = numeric_of(greatest, range.from);
            let b = numeric_of(greatest, range.to);
            a.min(b) <= n && n <= a.max(b)
        }
        None => false,
    }
}

/// Whether a range of a set names a number, where `*` is the greatest. Takes no memory.
pub(crate) fn is_number_named(text: &[u8], greatest: usize, n: usize) -> bool
    ensures { result ≡ is_named (ranges_of text.now) greatest n }
{
    let mut rest = text;
    while let Some((part, others)) = cut_at(b',', rest) {
        if part_names(part, greatest, n) {
            return true;
        }
        rest = others;
    }
    part_names(rest, greatest, n)
}

// The greatest UID of a view, which is the last; 0 where there is none.
fn last_uid(view: &[u32]) -> usize
    ensures { result ≡ last_uid view.now }
{
    match view.last() {
        Some(uid) => *uid as usize,
        None => 0,
    }
}

fn part_names_one(part: &[u8], by_uid: bool, view: &[u32]) -> bool
    requires { IsNonDecreasing view.now }
    ensures { result ≡ is_one_there
        (Some (chosen_of by_uid (option_to_list (range_of part.now)) view.now)) }
{
    match range_in(part) {
        Some(range) => {
            if by_uid {
                names_a_uid(&range, last_uid(view), view)
            } else {
                names_a_position(&range, view.len())
            }
        }
        None => false,
    }
}

/// Whether a range of a set names a message of a view. Takes no memory.
pub(crate) fn is_one_named(text: &[u8], by_uid: bool, view: &[u32]) -> bool
    requires { IsNonDecreasing view.now }
    ensures { result ≡ is_one_there (Some (chosen_of by_uid (ranges_of text.now) view.now)) }
{
    let mut rest = text;
    while let Some((part, others)) = cut_at(b',', rest) {
        if part_names_one(part, by_uid, view) {
            return true;
        }
        rest = others;
    }
    part_names_one(rest, by_uid, view)
}

fn push_range(part: &[u8], ranges: &mut Vec<SeqRange>) -> Result<(), AllocError>
    ensures { OnOk result (ranges.new.items
        ≡ ranges.old.items ++ option_to_list (range_of part.now)) }
{
    if let Some(range) = range_in(part) {
        ranges.push(range)?;
    }
    Ok(())
}

/// The ranges of a set.
#[tactic(auto, using(crate::proofs::SetParts::ranges_cut, crate::proofs::SetParts::ranges_end))]
pub(crate) fn ranges_in(alloc: Global, text: &[u8]) -> Result<Vec<SeqRange>, AllocError>
    ensures { IfOk result (λ v. v.items ≡ ranges_of text.now) }
{
    let mut ranges = Vec::new(alloc);
    let mut rest = text;
    while let Some((part, others)) = cut_at(b',', rest) {
        push_range(part, &mut ranges)?;
        rest = others;
    }
    push_range(rest, &mut ranges)?;
    Ok(ranges)
}

/// The UIDs of a view that ranges of UIDs name, found by halving.
pub(crate) fn uids_in(
    alloc: Global,
    ranges: &[SeqRange],
    view: &[u32],
) -> Result<Vec<u32>, AllocError>
    requires { IsNonDecreasing view.now }
    ensures { IfOk result (λ v. v.items ≡ by_uid ranges.now view.now) }
{
    let positions = positions_of_named_uids(alloc, ranges, last_uid(view), view)?;
    Ok(chosen_at(alloc, &positions, view)?)
}

/// The UIDs of the messages that ranges of positions in a view name.
pub(crate) fn positions_in(
    alloc: Global,
    ranges: &[SeqRange],
    view: &[u32],
) -> Result<Vec<u32>, AllocError>
    ensures { IfOk result (λ v.
        v.items ≡ at_positions (is_named ranges.now (length view.now)) 1 view.now) }
{
    let positions = named_positions(alloc, ranges, view.len())?;
    chosen_at(alloc, &positions, view)
}
