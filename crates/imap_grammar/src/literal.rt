//! Literals that a line announces at its end, and quoted strings that say what a literal said (RFC 9051, 4.3).
//! Which of them a session takes, and what it does with their bytes, is told above.

ghost use Rattle.std.specs.Prelude.{◌≡◌, ◌≤◌, ◌<◌, ◌+◌, ◌++◌, ◌∷◌, [], IfSome, length, vec_len, if◌then◌else◌};
ghost use Rattle.std.specs.Vec.{vec_capacity};
ghost use Rattle.imap_grammar.specs.Bytes.{is_special};
ghost use Rattle.imap_grammar.specs.Literals.{last_position, literal_alone, announced, backslashed, quoted};

use crate::arguments::literal_at;
use crate::command::Literal;
use crate::strings::is_special;

/// Where the last such byte stands.
#[tactic(auto, using(crate::proofs::Steps::last_at_first, crate::proofs::Steps::last_step))]
fn last_position(byte: u8, text: &[u8]) -> Option<usize>
    ensures value { result ≡ last_position byte text.now }
    ensures bound { IfSome result (λ n. n < length text.now) }
{
    let mut last = None;
    for (i, b) in text.iter().enumerate() {
        if *b == byte {
            last = Some(i);
        }
    }
    last
}

/// The literal at the front, if nothing follows it.
fn literal_alone(bytes: &[u8]) -> Option<Literal>
    ensures { result ≡ literal_alone bytes.now }
{
    let (literal, rest) = literal_at(bytes)?;
    if rest.is_empty() { Some(literal) } else { None }
}

/// The literal that a line without its CRLF announces at its end, and how many bytes stand before it: `{n}` or `{n+}`, with no space
/// behind (RFC 9051, 4.3; RFC 7888). None where the line ends otherwise. The line may have any bytes and any length. Takes no memory.
#[tactic(auto, unfolding(crate::specs::Literals::announced))]
pub fn announced(line: &[u8]) -> Option<(usize, Literal)>
    ensures value { result ≡ announced line.now }
    ensures within { IfSome result (λ found. found.0 ≤ length line.now) }
{
    let before = last_position(b'{', line)?;
    let literal = literal_alone(&line[before..])?;
    Some((before, literal))
}

/// How many bytes say this one in a quoted string.
fn spelled_len(b: u8) -> u128
    ensures value { result ≡ length (if is_special b then 92 ∷ b ∷ [] else b ∷ []) }
    ensures bound { result ≤ 2 }
{
    if is_special(b) { 2 } else { 1 }
}

/// How many bytes the quoted string has that says a text.
pub fn quoted_len(text: &[u8]) -> u128
    ensures { result ≡ length (quoted text.now) }
{
    let mut len = 2;
    for b in text {
        len += spelled_len(*b);
    }
    len
}

/// Appends a byte, behind a backslash where it is a quote or a backslash, in room that there is.
fn put_byte(b: u8, out: &mut Vec<u8>)
    requires fits { vec_len out.old + length (if is_special b then 92 ∷ b ∷ [] else b ∷ [])
        ≤ vec_capacity out.old }
    ensures text { out.new.items
        ≡ out.old.items ++ (if is_special b then 92 ∷ b ∷ [] else b ∷ []) }
    ensures len { vec_len out.new
        ≡ vec_len out.old + length (if is_special b then 92 ∷ b ∷ [] else b ∷ []) }
    ensures capacity { vec_capacity out.new ≡ vec_capacity out.old }
{
    if is_special(b) {
        out.push_reserved(b'\\');
    }
    out.push_reserved(b);
}

/// Appends a text with a backslash before each quote and before each backslash, in room that there is.
#[tactic(auto, using(crate::proofs::Steps::backslashed_step))]
fn put_backslashed(text: &[u8], out: &mut Vec<u8>)
    requires fits { vec_len out.old + length (backslashed text.now) ≤ vec_capacity out.old }
    ensures text { out.new.items ≡ out.old.items ++ backslashed text.now }
    ensures len { vec_len out.new ≡ vec_len out.old + length (backslashed text.now) }
    ensures capacity { vec_capacity out.new ≡ vec_capacity out.old }
{
    for b in text {
        put_byte(*b, out);
    }
}

/// Appends a text as a quoted string says it (RFC 9051, 4.3), in room that there is. Where the text has no control characters, that string is read as this text.
#[tactic(auto, using(crate::proofs::Steps::quoted_parts))]
pub fn put_quoted(text: &[u8], out: &mut Vec<u8>)
    requires fits { vec_len out.old + length (quoted text.now) ≤ vec_capacity out.old }
    ensures text { out.new.items ≡ out.old.items ++ quoted text.now }
    ensures len { vec_len out.new ≡ vec_len out.old + length (quoted text.now) }
    ensures capacity { vec_capacity out.new ≡ vec_capacity out.old }
{
    out.push_reserved(b'"');
    put_backslashed(text, out);
    out.push_reserved(b'"');
}
