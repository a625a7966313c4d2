//! Lines that are printed with a mark that tells who said them. What they say is for the crates above.

ghost use Rattle.std.specs.Prelude.{◌≡◌, ◌++◌, ◌+◌, ◌<◌, ◌≤◌, ℕ, length, codes, decimal, slice_index, IfSome, IfNone, OnOk, OnErr, ◌∷◌, []};
ghost use Rattle.std.specs.Io.{StartsWith};
ghost use Rattle.line_io.specs.Wire.{marked, wire_lines};

use crate::append_parts;
use itoa::Buffer;
use memchr::memchr;
use std::alloc::AllocError;

// Where the first CR stands, from a position on.
fn next_cr(bytes: &[u8], from: usize) -> Option<usize>
    requires { from ≤ length bytes.now }
    ensures within { IfSome result (λ at. (from ≤ at) × (at < length bytes.now)) }
    ensures cr { IfSome result (λ at. slice_index bytes.now at ≡ 13) }
    ensures before { IfSome result (λ at. (k : ℕ) → from ≤ k → k < at → slice_index bytes.now k ≡ 13
        → ⊥) }
    ensures none { IfNone result ((k : ℕ) → from ≤ k → k < length bytes.now
        → slice_index bytes.now k ≡ 13 → ⊥) }
{
    match memchr(b'\r', &bytes[from..]) {
        Some(at) => Some(from + at),
        None => None,
    }
}

// Where the first CRLF stands.
fn first_crlf(bytes: &[u8]) -> Option<usize>
    ensures within { IfSome result (λ at. at + 1 < length bytes.now) }
    ensures cr { IfSome result (λ at. slice_index bytes.now at ≡ 13) }
    ensures lf { IfSome result (λ at. slice_index bytes.now (at + 1) ≡ 10) }
    ensures before { IfSome result (λ at. (k : ℕ) → k < at → slice_index bytes.now k ≡ 13
        → slice_index bytes.now (k + 1) ≡ 10 → ⊥) }
    ensures none { IfNone result ((k : ℕ) → k + 1 < length bytes.now → slice_index bytes.now k ≡ 13
        → slice_index bytes.now (k + 1) ≡ 10 → ⊥) }
{
    let mut from = 0;
    while let Some(at) = next_cr(bytes, from) {
        if at + 1 < bytes.len() && bytes[at + 1] == b'\n' {
            return Some(at);
        }
        from = at + 1;
    }
    None
}

// Appends a line with its mark, or nothing.
fn append_line(letter: u8, number: u8, line: &[u8], out: &mut Vec<u8>) -> Result<(), AllocError>
    ensures ok { OnOk result (out.new.items
        ≡ out.old.items ++ (letter ∷ decimal number ++ codes " " ++ line.now ++ 10 ∷ [])) }
    ensures err { OnErr result (out.new.items ≡ out.old.items) }
{
    let mut digits = Buffer::new();
    let number = digits.format(number).as_bytes();
    append_parts(
        &[
            [letter].as_slice(),
            number,
            b" ".as_slice(),
            line,
            b"\n".as_slice(),
        ],
        out,
    )
}

// The first line, without its CRLF, and what follows it.
fn first_line(bytes: &[u8]) -> Option<(&[u8], &[u8])>
    ensures first { IfSome result (λ cut. wire_lines bytes.now ≡ cut.0.now ∷ wire_lines cut.1.now) }
    ensures shorter { IfSome result (λ cut. length cut.1.now < length bytes.now) }
    ensures none { IfNone result (wire_lines bytes.now ≡ []) }
{
    match first_crlf(bytes) {
        Some(at) => Some((&bytes[..at], &bytes[at + 2..])),
        None => None,
    }
}

// Appends the lines, or as many of them as there is memory for.
fn append_lines(letter: u8, number: u8, said: &[u8], out: &mut Vec<u8>) -> Result<(), AllocError>
    ensures ok { OnOk result (out.new.items ≡ out.old.items ++ marked letter number said.now) }
    ensures err { OnErr result (StartsWith out.new.items out.old.items) }
{
    let mut rest = said;
    while let Some((line, more)) = first_line(rest) {
        append_line(letter, number, line, out)?;
        rest = more;
    }
    Ok(())
}

/// Appends each wire line of what was said, with a mark before it and LF for its CRLF: a letter, a number and a space. What follows the
/// last CRLF is no line.
///
/// Errors: `AllocError` where memory was refused; `out` is then as it was.
pub fn append_marked(
    letter: u8,
    number: u8,
    said: &[u8],
    out: &mut Vec<u8>,
) -> Result<(), AllocError>
    ensures ok { OnOk result (out.new.items ≡ out.old.items ++ marked letter number said.now) }
    ensures err { OnErr result (out.new.items ≡ out.old.items) }
{
    let before = out.len();
    let Ok(()) = append_lines(letter, number, said, out) else {
        out.truncate(before);
        return Err(AllocError);
    };
    Ok(())
}
