//! What a line of a script asks for. Reading only: no house and no printing is known here.

ghost use Rattle.std.specs.Prelude.{◌≡◌, ℕ, List, true, false};
ghost use Rattle.std.specs.List.{list_all};
ghost use Rattle.std.specs.Io.BufRead.{ends_with_byte, strip_last};
ghost use Rattle.script.specs.Script as spec;
ghost use Rattle.script.specs.Script.{Asks, HasDigits, Leaves, as_spec, asked, behind_number, by_letter, closed_of, freed_of, has_space, held_of, in_hex, is_digit, is_number, is_one_to_eight, is_skipped, line_of, numbered, of_connection, of_session, request_of, tail_of};
ghost use Rattle.script.specs.inner.Script.{IsCut, as_line};

use bstr::ByteSlice;

/// The most bytes of a line, without its end.
pub const MOST_BYTES: usize = 65_536;

/// A line of a script.
#[derive(Clone, Copy)]
pub enum ScriptLine<'a> {
    /// This line comes from the peer of a connection, numbered from 1 to 8.
    Says(u8, &'a [u8]),
    /// Bytes in hexadecimal digits come from it; a line whose digits can't be read, or that has none, is a bad one.
    SaysInHex(u8, &'a [u8]),
    /// The peer of a connection is gone.
    Vanishes(u8),
    /// A session, numbered from 1 to 8, begins for the user with this name.
    Enters(u8, &'a [u8]),
    /// This line comes from the client of a session.
    Asks(u8, &'a [u8]),
    /// Bytes in hexadecimal digits come from it; a line whose digits can't be read, or that has none, is a bad one.
    AsksInHex(u8, &'a [u8]),
    /// The client of a session is gone.
    Leaves(u8),
    /// The consumer of the shard with this number, in decimal digits, stands still from now on.
    Hold(&'a [u8]),
    /// It goes on.
    Free(&'a [u8]),
    /// The shard with this number, in decimal digits, is shut.
    Closes(&'a [u8]),
    /// The window of the mailbox with this word is to be printed.
    Tail(&'a [u8]),
    /// An empty line, or a comment.
    Skip,
    /// None of these.
    Bad,
}

// Whether the bytes end with this one.
fn ends_with(byte: u8, bytes: &[u8]) -> bool
    ensures { result ≡ ends_with_byte byte bytes.now }
{
    let count = bytes.len();
    count > 0 && bytes[count - 1] == byte
}

// The bytes without the last one, if it is this one.
fn without_last(byte: u8, bytes: &[u8]) -> &[u8]
    ensures { result.now ≡ strip_last byte bytes.now }
{
    if ends_with(byte, bytes) {
        &bytes[..bytes.len() - 1]
    } else {
        bytes
    }
}

/// A piece of the input without its LF, and without a CR right before that.
pub fn without_end(piece: &[u8]) -> &[u8]
    ensures { result.now ≡ line_of piece.now }
{
    if ends_with(b'\n', piece) {
        without_last(b'\r', without_last(b'\n', piece))
    } else {
        piece
    }
}

/// Whether a line is empty, or a comment.
pub fn is_skipped(line: &[u8]) -> bool
    ensures { result ≡ is_skipped line.now }
{
    match line.split_first() {
        Some((first, _)) => *first == b'#',
        None => true,
    }
}

fn has_space(bytes: &[u8]) -> bool
    ensures { result ≡ has_space bytes.now }
{
    bytes.iter().any(|b| *b == b' ')
}

// Whether it is a digit from 1 to 8.
fn is_one_to_eight(b: u8) -> bool
    ensures { result ≡ is_one_to_eight b }
{
    matches!(b, b'1'..=b'8')
}

// What stands behind the number of a connection or a session.
enum Said<'a> {
    Text(&'a [u8]),
    // Digits after one space.
    Hex(&'a [u8]),
    Gone,
    Other,
}

// Hexadecimal digits after one space.
fn in_hex(rest: &[u8]) -> Said<'_>
    ensures { (brings : List ℕ → spec.ScriptLine) (gone : spec.ScriptLine)
        → as_line brings gone result ≡ in_hex brings rest.now }
{
    match rest.split_first() {
        Some((first, digits)) if *first == b' ' => Said::Hex(digits),
        _ => Said::Other,
    }
}

// What follows a number: a text, digits or `!`.
fn behind_number(rest: &[u8]) -> Said<'_>
    ensures { (brings : List ℕ → spec.ScriptLine) (gone : spec.ScriptLine)
        → as_line brings gone result ≡ behind_number brings gone rest.now }
{
    let Some((first, behind)) = rest.split_first() else {
        return Said::Text(rest);
    };
    match *first {
        b' ' => Said::Text(behind),
        b'x' => in_hex(behind),
        b'!' if behind.is_empty() => Said::Gone,
        _ => Said::Other,
    }
}

// What follows the number of a connection.
fn of_connection(connection: u8, rest: &[u8]) -> ScriptLine<'_>
    ensures reads { as_spec result ≡ of_connection connection rest.now }
    ensures digits { HasDigits result }
{
    match behind_number(rest) {
        Said::Text(text) => ScriptLine::Says(connection, text),
        Said::Hex(digits) => ScriptLine::SaysInHex(connection, digits),
        Said::Gone => ScriptLine::Vanishes(connection),
        Said::Other => ScriptLine::Bad,
    }
}

// What the client of a session does.
fn of_client(session: u8, rest: &[u8]) -> ScriptLine<'_>
    ensures reads { as_spec result ≡ behind_number (Asks session) (Leaves session) rest.now }
    ensures digits { HasDigits result }
{
    match behind_number(rest) {
        Said::Text(text) => ScriptLine::Asks(session, text),
        Said::Hex(digits) => ScriptLine::AsksInHex(session, digits),
        Said::Gone => ScriptLine::Leaves(session),
        Said::Other => ScriptLine::Bad,
    }
}

// What follows the number of a session: a user after `=`, or what its client does.
fn of_session(session: u8, rest: &[u8]) -> ScriptLine<'_>
    ensures reads { as_spec result ≡ of_session session rest.now }
    ensures digits { HasDigits result }
{
    match rest.split_first() {
        Some((first, user)) if *first == b'=' => ScriptLine::Enters(session, user),
        _ => of_client(session, rest),
    }
}

// What follows the L of a line.
fn after_l(rest: &[u8]) -> ScriptLine<'_>
    ensures reads { as_spec result ≡ numbered of_connection rest.now }
    ensures digits { HasDigits result }
{
    match rest.split_first() {
        Some((digit, rest)) if is_one_to_eight(*digit) => of_connection(*digit - b'0', rest),
        _ => ScriptLine::Bad,
    }
}

// What follows the I of a line.
fn after_i(rest: &[u8]) -> ScriptLine<'_>
    ensures reads { as_spec result ≡ numbered of_session rest.now }
    ensures digits { HasDigits result }
{
    match rest.split_first() {
        Some((digit, rest)) if is_one_to_eight(*digit) => of_session(*digit - b'0', rest),
        _ => ScriptLine::Bad,
    }
}

fn is_digit(b: u8) -> bool
    ensures { result ≡ is_digit b }
{
    matches!(b, b'0'..=b'9')
}

fn are_digits(bytes: &[u8]) -> bool
    ensures { result ≡ list_all is_digit bytes.now }
{
    bytes.iter().all(|b| is_digit(*b))
}

// Digits, at least one, and nothing else.
fn is_number(bytes: &[u8]) -> bool
    ensures reads { result ≡ is_number bytes.now }
    ensures digits { result ≡ true → list_all is_digit bytes.now ≡ true }
{
    match bytes.split_first() {
        Some(_) => are_digits(bytes),
        None => false,
    }
}

fn held_of(digits: &[u8]) -> ScriptLine<'_>
    ensures reads { as_spec result ≡ held_of digits.now }
    ensures digits { HasDigits result }
{
    if is_number(digits) {
        ScriptLine::Hold(digits)
    } else {
        ScriptLine::Bad
    }
}

fn freed_of(digits: &[u8]) -> ScriptLine<'_>
    ensures reads { as_spec result ≡ freed_of digits.now }
    ensures digits { HasDigits result }
{
    if is_number(digits) {
        ScriptLine::Free(digits)
    } else {
        ScriptLine::Bad
    }
}

fn closed_of(digits: &[u8]) -> ScriptLine<'_>
    ensures reads { as_spec result ≡ closed_of digits.now }
    ensures digits { HasDigits result }
{
    if is_number(digits) {
        ScriptLine::Closes(digits)
    } else {
        ScriptLine::Bad
    }
}

fn tail_of(word: &[u8]) -> ScriptLine<'_>
    ensures reads { as_spec result ≡ tail_of word.now }
    ensures digits { HasDigits result }
{
    if has_space(word) {
        ScriptLine::Bad
    } else {
        ScriptLine::Tail(word)
    }
}

// A line's first word, and what stands behind the one space after it.
fn cut_word(line: &[u8]) -> Option<(&[u8], &[u8])>
    ensures { (word : List ℕ) → has_space word ≡ false → IsCut line.now word result }
{
    line.split_once_str(b" ")
}

// What a line asks for that begins with the letter of a connection or a session.
fn of_letter(line: &[u8]) -> ScriptLine<'_>
    ensures reads { as_spec result ≡ by_letter line.now }
    ensures digits { HasDigits result }
{
    match line.split_first() {
        Some((b'L', rest)) => after_l(rest),
        Some((b'I', rest)) => after_i(rest),
        _ => ScriptLine::Bad,
    }
}

// What a line asks for that is no comment and not too long.
fn request_of(line: &[u8]) -> ScriptLine<'_>
    ensures reads { as_spec result ≡ request_of line.now }
    ensures digits { HasDigits result }
{
    if let Some((word, rest)) = cut_word(line) {
        if word == b"TAIL".as_slice() {
            return tail_of(rest);
        }
        if word == b"HOLD".as_slice() {
            return held_of(rest);
        }
        if word == b"FREE".as_slice() {
            return freed_of(rest);
        }
        if word == b"CLOSE".as_slice() {
            return closed_of(rest);
        }
    }
    of_letter(line)
}

/// What a line, without its end, asks for. A comment is skipped whatever its length; any other line of more than
/// `MOST_BYTES` is bad.
pub fn read_line(line: &[u8]) -> ScriptLine<'_>
    ensures reads { as_spec result ≡ asked line.now }
    ensures digits { HasDigits result }
{
    if is_skipped(line) {
        return ScriptLine::Skip;
    }
    if line.len() > MOST_BYTES {
        return ScriptLine::Bad;
    }
    request_of(line)
}
