//! Sets of messages (RFC 9051, 9: sequence-set): how they are read, and which messages of a view they name.
//! The work on ranges is done in `ranges`.

ghost use Rattle.std.specs.Prelude.{◌≡◌, is_some};
ghost use Rattle.std.specs.List.{list_all, slice_split};
ghost use Rattle.std.specs.List.Sorted.{IsNonDecreasing};
ghost use Rattle.imap_grammar.specs.Bytes.{is_comma};
ghost use Rattle.imap_grammar.specs.Sets.{seq_number_of, range_of, ranges_of};

use crate::cut::cut_at;
use crate::number::number_up_to;
use crate::ranges::{
    is_number_named, is_one_named, is_one_too_high, positions_in, ranges_in, uids_in,
};
use crate::view::{Named, with_positions};
use change_ring::View;
use std::alloc::{AllocError, Global};
use std::marker::Model;

/// Why a set names no messages.
#[derive(Clone, Copy, Debug, PartialEq, Eq)]
pub enum SetFault {
    /// A message that it names isn't there.
    TooHigh,
    /// Memory was refused.
    NoMemory,
}

impl From<AllocError> for SetFault {
    ghost use Rattle.imap_grammar.specs.declared.set.SetFault.{SetFault};

    ghost from_gives = { λ _ fault. fault ≡ SetFault.NoMemory };

    fn from(_error: AllocError) -> SetFault {
        SetFault::NoMemory
    }
}

/// A number of a message or a UID, or `*`, the greatest there is.
#[derive(Clone, Copy, Debug, PartialEq, Eq)]
pub enum SeqNumber {
    /// From 1 on.
    Number(u32),
    /// `*`: the last position in a view, or its last UID.
    Star,
}

/// All numbers between two, in either order.
#[derive(Clone, Copy, Debug, PartialEq, Eq)]
pub struct SeqRange {
    /// The number that stands first, from 1, or `*`.
    pub from: SeqNumber,
    /// The number behind the colon, or `*`: it may be the lesser one. Where one number stands alone, that.
    pub to: SeqNumber,
}

/// A set of messages, as it stands in a line: in contracts the ranges that it says.
#[derive(Drop)]
pub struct SeqSet<'a> {
    spelled: &'a [u8],
}

impl<'a> Model for SeqSet<'a> {
    ghost use Rattle.std.specs.Prelude.{List};
    ghost use Rattle.imap_grammar.specs.declared.set.SeqRange.{SeqRange};
    ghost use Rattle.imap_grammar.specs.Sets.{ranges_of};

    ghost Value = { List SeqRange };

    ghost view = { λ s. ranges_of s.spelled.now };
}

/// The greatest number that a set may name (RFC 9051, 9: nz-number).
const GREATEST_NUMBER: u64 = 4_294_967_295;

/// A number in a set, or `*`.
fn seq_number(text: &[u8]) -> Option<SeqNumber>
    ensures { result ≡ seq_number_of text.now }
{
    match text {
        [b'*'] => Some(SeqNumber::Star),
        [b'0', ..] => None,
        _ => match number_up_to(GREATEST_NUMBER, text) {
            None => None,
            Some(n) => Some(SeqNumber::Number(n as u32)),
        },
    }
}

/// A range of a set.
pub(crate) fn range_in(text: &[u8]) -> Option<SeqRange>
    ensures { result ≡ range_of text.now }
{
    match cut_at(b':', text) {
        None => {
            let n = seq_number(text)?;
            Some(SeqRange { from: n, to: n })
        }
        Some((first, last)) => {
            let from = seq_number(first)?;
            let to = seq_number(last)?;
            Some(SeqRange { from, to })
        }
    }
}

/// Whether each part between commas is a range.
fn are_ranges(text: &[u8]) -> bool
    ensures { result ≡ list_all (λ part. is_some (range_of part)) (slice_split is_comma text.now) }
{
    text.split(|b| *b == b',')
        .all(|part| range_in(part).is_some())
}

impl<'a> SeqSet<'a> {
    ghost use Rattle.std.specs.Prelude.{Some, None, IfOk, IfErr, OnErr, Err, [], true, map, ◌≢◌, ◌↔◌};
    ghost use Rattle.std.specs.List.Sorted.{IsStrictlyIncreasing};
    ghost use Rattle.imap_grammar.specs.Sets.{is_named, messages_in, named_in, names_one};
    ghost use Rattle.imap_grammar.specs.Keys.{all_messages};
    ghost use Rattle.imap_grammar.specs.declared.set.SetFault.{SetFault};
    ghost use Rattle.imap_grammar.specs.Sets.{set_at};

    /// The set that a word says.
    pub(crate) fn of(word: &'a [u8]) -> Option<SeqSet<'a>>
        ensures { result ≡ set_at word.now }
    {
        if are_ranges(word) {
            Some(SeqSet { spelled: word })
        } else {
            None
        }
    }

    /// The set of all messages, `1:*`.
    #[tactic(auto, using(crate::proofs::SetParts::all_said))]
    pub fn all() -> SeqSet<'static>
        ensures { result ≡ all_messages }
    {
        SeqSet { spelled: b"1:*" }
    }

    // Whether the set names a number, where `*` is the greatest.
    pub(crate) fn names(&self, greatest: usize, n: usize) -> bool
        ensures { result ≡ is_named self.now greatest n }
    {
        is_number_named(self.spelled, greatest, n)
    }

    // The UIDs of the messages of a view that the set names, as `resolve` says.
    fn uids(&self, alloc: Global, view: &[u32], by_uid: bool) -> Result<Vec<u32>, SetFault>
        requires { IsNonDecreasing view.now }
        ensures found { IfOk result (λ uids. named_in by_uid self.now view.now ≡ Some uids.items) }
        ensures too_high { (result ≡ Err SetFault.TooHigh)
            ↔ (named_in by_uid self.now view.now ≡ None) }
        ensures rising { IsStrictlyIncreasing view.now
            → IfOk result (λ uids. IsStrictlyIncreasing uids.items) }
    {
        if by_uid {
            let ranges = ranges_in(alloc, self.spelled)?;
            return Ok(uids_in(alloc, &ranges, view)?);
        }
        if is_one_too_high(self.spelled, view.len()) {
            return Err(SetFault::TooHigh);
        }
        let ranges = ranges_in(alloc, self.spelled)?;
        Ok(positions_in(alloc, &ranges, view)?)
    }

    // The messages of a view that the set names, as `resolve` says; memory may be refused to it whatever the set names.
    fn find(&self, alloc: Global, view: &[u32], by_uid: bool) -> Result<Vec<Named>, SetFault>
        requires { IsNonDecreasing view.now }
        ensures found { IfOk result (λ named. messages_in by_uid self.now view.now
            ≡ Some named.items) }
        ensures too_high { (result ≡ Err SetFault.TooHigh)
            ↔ (named_in by_uid self.now view.now ≡ None) }
        ensures rising { IsStrictlyIncreasing view.now
            → IfOk result (λ named. IsStrictlyIncreasing (map (λ m. m.uid) named.items)) }
    {
        let uids = self.uids(alloc, view, by_uid)?;
        Ok(with_positions(alloc, &uids, view)?)
    }

    // What is answered where memory was refused: it was wanted only where the set names a message.
    fn find_none(&self, alloc: Global, view: &[u32], by_uid: bool) -> Result<Vec<Named>, SetFault>
        requires rising { IsNonDecreasing view.now }
        requires there { named_in by_uid self.now view.now ≢ None }
        ensures found { IfOk result (λ named.
            (messages_in by_uid self.now view.now ≡ Some named.items) × (named.items ≡ [])) }
        ensures wanted { OnErr result (names_one by_uid self.now view.now ≡ true) }
        ensures fault { IfErr result (λ f. f ≡ SetFault.NoMemory) }
    {
        if is_one_named(self.spelled, by_uid, view) {
            return Err(SetFault::NoMemory);
        }
        Ok(Vec::new(alloc))
    }

    /// The messages of a view that the set names, each once, in the view's order, with their positions. By
    /// position a number is a message's position in the view, counted from 1, and `*` the last position; by UID
    /// what isn't in the view is passed over, and `*` is the view's last UID (RFC 9051, 9: seq-number).
    /// A view's UIDs rise, so it costs the set's ranges, what they name, and the logarithm of the view's
    /// length for each of both.
    ///
    /// Errors, in this order: `TooHigh` exactly where a number by position is above the view's length, or
    /// `*` is said of an empty view; `NoMemory` where memory was refused, which is wanted only where the
    /// set names a message.
    pub fn resolve(
        &self,
        alloc: Global,
        view: &View<'_>,
        by_uid: bool,
    ) -> Result<Vec<Named>, SetFault>
        // The messages that the set names in the view, in the view's order, each with its position there.
        ensures found { IfOk result (λ named. messages_in by_uid self.now view.now
            ≡ Some named.items) }

        // TooHigh exactly where it says a position that isn't there, as `*` is in an empty view; by UID never.
        ensures too_high { (result ≡ Err SetFault.TooHigh)
            ↔ (named_in by_uid self.now view.now ≡ None) }

        // NoMemory only where it names a message of the view.
        ensures memory { (result ≡ Err SetFault.NoMemory)
            → names_one by_uid self.now view.now ≡ true }

        // Their UIDs rise.
        ensures rising { IfOk result (λ named.
            IsStrictlyIncreasing (map (λ m. m.uid) named.items)) }
    {
        let shown = view.uids();
        match self.find(alloc, shown, by_uid) {
            Ok(named) => Ok(named),
            Err(SetFault::TooHigh) => Err(SetFault::TooHigh),
            Err(SetFault::NoMemory) => self.find_none(alloc, shown, by_uid),
        }
    }
}
