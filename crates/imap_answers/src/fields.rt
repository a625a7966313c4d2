//! The fields of a header that FETCH is asked for by name (RFC 9051, 6.4.5). How names are spelled in a line is told in `imap_grammar`, and how a
//! field begins in `mail_date`.

ghost use Rattle.std.specs.Prelude.{◌≡◌, ◌++◌, ◌+◌, ◌<◌, ◌≤◌, [], ◌&&◌, ◌==◌, false, true, not, IfNone, IfSome, if◌then◌else◌, is_some, Bool, List, ℕ, length, take, drop};
ghost use Rattle.std.specs.List.{list_any};
ghost use Rattle.mail_date.specs.Bytes.{is_folded};
ghost use Rattle.mail_date.specs.Fields.{past_name};
ghost use Rattle.imap_answers.specs.Answers.{is_named, takes_field, fields_from};
ghost use Rattle.imap_answers.specs.inner.Fields.{field_size};

use crate::sections::{is_crlf, span_in};
use imap_grammar::{FieldNames, Span, field_name};
use line_io::Outlet;
use mail_date::begins_field;

// Whether a field of one of these names begins here.
fn is_named(names: &FieldNames<'_>, text: &[u8]) -> bool
    ensures { result ≡ is_named names.now text.now }
{
    names
        .spelled()
        .split(|b| *b == b' ')
        .any(|word| begins_field(field_name(word), text))
}

// Whether what begins here is answered.
fn takes_field(others: bool, names: &FieldNames<'_>, text: &[u8]) -> bool
    ensures { result ≡ takes_field others names.now text.now }
{
    if is_crlf(text) {
        return true;
    }
    let named = is_named(names, text);
    if others { !named } else { named }
}

// Whether a space or a tab begins a text: the line is folded into the one before.
fn is_folded(text: &[u8]) -> bool
    ensures { result ≡ is_folded text.now }
{
    matches!(text, [b' ' | b'\t', ..])
}

// Whether a field begins behind this byte.
fn ends_field(cr: bool, b: u8, rest: &[u8]) -> bool
    ensures { result ≡ (cr && (b == 10) && not (is_folded rest.now)) }
{
    cr && b == b'\n' && !is_folded(rest)
}

/// How many bytes a field has with the CRLF that ends it, or the text where none does.
#[tactic(auto, using(crate::proofs::FieldSteps::size_step))]
fn field_len(text: &[u8]) -> usize
    ensures value { result ≡ field_size false text.now }
    ensures bound { result ≤ length text.now }
{
    let mut cr = false;
    for (i, b) in text.iter().enumerate() {
        if ends_field(cr, *b, &text[i + 1..]) {
            return i + 1;
        }
        cr = *b == b'\r';
    }
    text.len()
}

/// The first field of a header, and what stands behind it.
#[tactic(auto, using(crate::proofs::FieldSteps::some_size, crate::proofs::FieldSteps::first_taken))]
fn first_field(header: &[u8]) -> Option<(&[u8], &[u8])>
    ensures none { IfNone result (header.now ≡ []) }
    ensures fields { IfSome result (λ cut. (takes : List ℕ → Bool) →
        fields_from takes true false false header.now
        ≡ (if takes header.now then cut.0.now else []) ++ fields_from takes true false false cut.1.now) }
    ensures lengths { IfSome result (λ cut. length cut.0.now + length cut.1.now ≡ length header.now) }
    ensures shorter { IfSome result (λ cut. length cut.1.now < length header.now) }
{
    if header.is_empty() {
        return None;
    }
    let len = field_len(header);
    Some((&header[..len], &header[len..]))
}

/// How many bytes of a field are answered.
fn taken_len(is_taken: bool, field: &[u8]) -> usize
    ensures value { result ≡ length (if is_taken then field.now else []) }
    ensures bound { result ≤ length field.now }
{
    if is_taken { field.len() } else { 0 }
}

/// How many bytes the fields have that are answered.
#[tactic(auto, using(crate::proofs::FieldSteps::len_taken))]
pub(crate) fn fields_len(others: bool, names: &FieldNames<'_>, header: &[u8]) -> usize
    ensures value { result
        ≡ length (fields_from (takes_field others names.now) true false false header.now) }
    ensures bound { result ≤ length header.now }
{
    let mut rest = header;
    let mut len = 0;
    while let Some((field, behind)) = first_field(rest) {
        len += taken_len(takes_field(others, names, rest), field);
        rest = behind;
    }
    len
}

/// Puts of these bytes those that a span has, in room that is held. The answer is the span that is left behind them.
#[tactic(auto, using(crate::proofs::FieldSteps::span_step))]
fn put_spanned<O: Outlet>(span: Span, bytes: &[u8], out: &mut O) -> Span
    requires fits { length (take span.count (drop span.origin bytes.now)) ≤ O.room out.old }
    ensures said { O.said out.new
        ≡ O.said out.old ++ take span.count (drop span.origin bytes.now) }
    ensures rest { (more : List ℕ) → take span.count (drop span.origin (bytes.now ++ more))
        ≡ take span.count (drop span.origin bytes.now)
        ++ take result.count (drop result.origin more) }
    ensures lot { O.lot out.new ≡ O.lot out.old }
    ensures room { O.room out.old
        ≤ O.room out.new + length (take span.count (drop span.origin bytes.now)) }
{
    let piece = span_in(span, bytes);
    out.put(piece);
    Span {
        origin: span.origin.saturating_sub(bytes.len() as u64),
        count: span.count - piece.len() as u64,
    }
}

/// Puts a field, where it is answered.
fn put_field<O: Outlet>(is_taken: bool, span: Span, field: &[u8], out: &mut O) -> Span
    requires fits { length (take span.count (drop span.origin (if is_taken then field.now else [])))
        ≤ O.room out.old }
    ensures said { O.said out.new ≡ O.said out.old
        ++ take span.count (drop span.origin (if is_taken then field.now else [])) }
    ensures rest { (more : List ℕ) → take span.count
        (drop span.origin ((if is_taken then field.now else []) ++ more))
        ≡ take span.count (drop span.origin (if is_taken then field.now else []))
        ++ take result.count (drop result.origin more) }
    ensures lot { O.lot out.new ≡ O.lot out.old }
    ensures room { O.room out.old ≤ O.room out.new
        + length (take span.count (drop span.origin (if is_taken then field.now else []))) }
{
    if is_taken {
        return put_spanned(span, field, out);
    }
    span
}

/// Puts of the fields of a header that have these names, or others, with its empty line, the bytes that a span has, in room that is held.
pub(crate) fn put_fields<O: Outlet>(
    others: bool,
    names: &FieldNames<'_>,
    span: Span,
    header: &[u8],
    out: &mut O,
)
    requires fits { length (take span.count (drop span.origin
        (fields_from (takes_field others names.now) true false false header.now)))
        ≤ O.room out.old }
    ensures said { O.said out.new ≡ O.said out.old ++ take span.count (drop span.origin
        (fields_from (takes_field others names.now) true false false header.now)) }
    ensures lot { O.lot out.new ≡ O.lot out.old }
    ensures room { O.room out.old ≤ O.room out.new + length (take span.count (drop span.origin
        (fields_from (takes_field others names.now) true false false header.now))) }
{
    let mut rest = header;
    let mut left = span;
    while let Some((field, behind)) = first_field(rest) {
        let is_taken = takes_field(others, names, rest);
        left = put_field(is_taken, left, field, out);
        rest = behind;
    }
}
