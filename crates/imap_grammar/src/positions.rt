//! Ranges of positions in a view, in the order in which they begin, and the UIDs that stand there: to choose them costs the ranges and what is
//! chosen, whatever the view's length. The ranges that a line spells are told in `ranges`.

ghost use Rattle.std.specs.Prelude.{◌≡◌, ℕ, ◌+◌, ◌-◌, ◌<◌, ◌≤◌, ◌++◌, ◌∷◌, [], List, IfOk, All, Some, true, false, length, drop, max, min, nat_le, slice_index};
ghost use Rattle.std.specs.List.Sorted.{IsNonDecreasing, IsNonDecreasingBy};
ghost use Rattle.imap_grammar.specs.declared.positions.PositionRange.{PositionRange};
ghost use Rattle.imap_grammar.specs.inner.Choosing.{chosen_of, positions_of, is_within, is_covered};
ghost use Rattle.imap_grammar.specs.Sets.{numeric, is_between, is_named, is_one_there, at_positions, last_uid};

use crate::ranges::numeric_of;
use crate::set::SeqRange;
use std::alloc::{AllocError, Global};

/// The positions from one to another, counted from 1; none where the first is above the last.
#[derive(Clone, Copy)]
pub(crate) struct PositionRange {
    pub(crate) first: usize,
    pub(crate) last: usize,
}

// The positions that a range of positions names.
fn positions_of(range: &SeqRange, greatest: usize) -> PositionRange
    ensures { result ≡ positions_of greatest range.now }
{
    let a = numeric_of(greatest, range.from);
    let b = numeric_of(greatest, range.to);
    PositionRange {
        first: a.min(b),
        last: a.max(b),
    }
}

// The positions of the UIDs that a range of UIDs names, found by halving.
fn positions_of_uids(range: &SeqRange, greatest: usize, view: &[u32]) -> PositionRange
    requires { IsNonDecreasing view.now }
    ensures { (i : ℕ) → i < length view.now
        → is_within result (i + 1)
        ≡ is_between (numeric greatest range.now.from) (numeric greatest range.now.to)
        (slice_index view.now i) }
{
    let uids = positions_of(range, greatest);
    let first = view.partition_point(|uid| (*uid as usize) < uids.first);
    let last = view.partition_point(|uid| *uid as usize <= uids.last);
    PositionRange {
        first: first + 1,
        last,
    }
}

// Whether a range covers one of so many positions.
fn covers_one(range: PositionRange, count: usize) -> bool
    ensures { result ≡ nat_le (max range.first 1) (min range.last count) }
{
    range.first.max(1) <= range.last.min(count)
}

/// Whether a range of positions names one of a view of this length. Takes no memory.
pub(crate) fn names_a_position(range: &SeqRange, count: usize) -> bool
    ensures { (view : List ℕ) → length view ≡ count
        → result ≡ is_one_there (Some (chosen_of false (range.now ∷ []) view)) }
{
    covers_one(positions_of(range, count), count)
}

/// Whether a range of UIDs names one of a view that rises. Takes no memory.
pub(crate) fn names_a_uid(range: &SeqRange, greatest: usize, view: &[u32]) -> bool
    requires rising { IsNonDecreasing view.now }
    requires greatest { greatest ≡ last_uid view.now }
    ensures { result ≡ is_one_there (Some (chosen_of true (range.now ∷ []) view.now)) }
{
    covers_one(positions_of_uids(range, greatest, view), view.len())
}

// Puts ranges into the order in which they begin.
fn put_in_order(ranges: &mut [PositionRange])
    ensures order { IsNonDecreasingBy (λ range. range.first) ranges.new }
    ensures same { (position : ℕ)
        → is_covered ranges.new position ≡ is_covered ranges.old position }
{
    ranges.sort_unstable_by_key(|range| range.first);
}

/// The positions that ranges of positions name, in the order in which they begin.
pub(crate) fn named_positions(
    alloc: Global,
    ranges: &[SeqRange],
    greatest: usize,
) -> Result<Vec<PositionRange>, AllocError>
    ensures order { IfOk result (λ v. IsNonDecreasingBy (λ range. range.first) v.items) }
    ensures named { IfOk result (λ v. (position : ℕ)
        → is_covered v.items position ≡ is_named ranges.now greatest position) }
{
    let mut positions = Vec::new(alloc);
    for range in ranges {
        positions.push(positions_of(range, greatest))?;
    }
    put_in_order(&mut positions);
    Ok(positions)
}

/// The positions of the UIDs that ranges of UIDs name in a view that rises, in the order in which they begin.
pub(crate) fn positions_of_named_uids(
    alloc: Global,
    ranges: &[SeqRange],
    greatest: usize,
    view: &[u32],
) -> Result<Vec<PositionRange>, AllocError>
    requires { IsNonDecreasing view.now }
    ensures order { IfOk result (λ v. IsNonDecreasingBy (λ range. range.first) v.items) }
    ensures named { IfOk result (λ v. (i : ℕ) → i < length view.now →
        is_covered v.items (i + 1) ≡ is_named ranges.now greatest (slice_index view.now i)) }
{
    let mut positions = Vec::new(alloc);
    for range in ranges {
        positions.push(positions_of_uids(range, greatest, view))?;
    }
    put_in_order(&mut positions);
    Ok(positions)
}

// Appends the UIDs at the positions of a range that are not below the next one. Answers which position is the next one then: no range that
// begins no earlier names a position below it that wasn't appended.
fn choose_range(
    range: PositionRange,
    next: usize,
    view: &[u32],
    chosen: &mut Vec<u32>,
) -> Result<usize, AllocError>
    requires { (1 ≤ next) × (next ≤ length view.now + 1) }
    ensures next { IfOk result (λ after. (1 ≤ after) × (after ≤ length view.now + 1)) }
    ensures chosen { IfOk result (λ after. (rest : List PositionRange)
        → All (λ other. range.first ≤ other.first) rest
        → chosen.old.items ++ at_positions (is_covered (range
        ∷ rest)) next (drop (next - 1) view.now)
        ≡ chosen.new.items ++ at_positions (is_covered rest) after (drop (after - 1) view.now)) }
{
    let first = range.first.max(next);
    let last = range.last.min(view.len());
    if first > last {
        return Ok(next);
    }
    chosen.extend_from_slice(&view[first - 1..last])?;
    Ok(last + 1)
}

/// The UIDs of a view at the positions that ranges cover, each once, in the view's order.
pub(crate) fn chosen_at(
    alloc: Global,
    ranges: &[PositionRange],
    view: &[u32],
) -> Result<Vec<u32>, AllocError>
    requires { IsNonDecreasingBy (λ range. range.first) ranges.now }
    ensures { IfOk result (λ v. v.items ≡ at_positions (is_covered ranges.now) 1 view.now) }
{
    let mut chosen = Vec::new(alloc);
    let mut next = 1;
    for range in ranges {
        next = choose_range(*range, next, view, &mut chosen)?;
    }
    Ok(chosen)
}
