//! Text for the wire: a dot more before each line that begins with one. The line that ends the data
//! is the caller's.

ghost use Rattle.std.specs.Prelude.{◌≡◌, ◌++◌, ◌∷◌, [], OnOk, OnErr, take, length, if◌then◌else◌};
ghost use Rattle.dot_stuffing.specs.Data.{stuffed};

use crate::{CR, DOT, LF};
use std::alloc::AllocError;

/// Appends a byte, or with a dot before it both.
fn append(byte: u8, is_dotted: bool, out: &mut Vec<u8>) -> Result<(), AllocError>
    ensures ok { OnOk result (out.new.items
        ≡ out.old.items ++ (if is_dotted then 46 ∷ byte ∷ [] else byte ∷ [])) }
    ensures err { OnErr result (out.new.items ≡ out.old.items) }
{
    out.reserve(2)?;
    if is_dotted {
        out.push_reserved(DOT);
    }
    out.push_reserved(byte);
    Ok(())
}

/// Appends the text with its dots, or where memory is refused a part of it.
fn append_all(text: &[u8], out: &mut Vec<u8>) -> Result<(), AllocError>
    ensures ok { OnOk result (out.new.items ≡ out.old.items ++ stuffed text.now) }
    ensures err { OnErr result (take (length out.old.items) out.new.items ≡ out.old.items) }
{
    let mut at_start = true;
    let mut after_cr = false;
    for byte in text {
        let is_dotted = at_start && *byte == DOT;
        append(*byte, is_dotted, out)?;
        at_start = *byte == LF && after_cr;
        after_cr = *byte == CR;
    }
    Ok(())
}

/// Appends the text as mail data, with a dot more before each line that begins with one, and
/// without the line that ends it (RFC 5321, section 4.5.2). That line may follow where the text is
/// empty or ends in CRLF.
///
/// Errors: `AllocError` where memory was refused; nothing was appended.
pub fn stuff(text: &[u8], out: &mut Vec<u8>) -> Result<(), AllocError>
    ensures ok { OnOk result (out.new.items ≡ out.old.items ++ stuffed text.now) }
    ensures err { OnErr result (out.new.items ≡ out.old.items) }
{
    let len = out.len();
    let appended = append_all(text, out);
    if appended.is_err() {
        out.truncate(len);
    }
    appended
}
