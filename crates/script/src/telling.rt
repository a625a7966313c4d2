//! How what a line printed is told: as it is printed, or as a JSON object (RFC 8259). What lines print doesn't belong here.

ghost use Rattle.std.specs.Prelude.{◌≡◌, [], IfOk, OnErr, OnOk, string_bytes, take};
ghost use Rattle.script.specs.Script.{most_bytes};
ghost use Rattle.script.specs.Telling.{characters, json_of, object_of, rendered, spelled_object};

use crate::line::{MOST_BYTES, is_skipped};
use json::Writer;
use settings::Form;
use std::alloc::{AllocError, Global};
use std::mem;

/// Room for a line and what it printed as JSON spells them, kept from line to line.
#[derive(Drop)]
pub(crate) struct Spelled {
    line: String,
    printed: String,
}

impl Spelled {
    pub(crate) fn new(alloc: Global) -> Spelled {
        Spelled {
            line: String::new(alloc),
            printed: String::new(alloc),
        }
    }
}

// The bytes as characters, each of which is that of its number.
fn put_characters(bytes: &[u8], text: &mut String) -> Result<(), AllocError>
    ensures { OnOk result (string_bytes text.new ≡ characters bytes.now) }
{
    text.clear();
    for byte in bytes {
        text.push(char::from(*byte))?;
    }
    Ok(())
}

// The object of a number and two texts, with the LF that ends it, in this room.
fn object(number: u64, line: &str, printed: &str, room: Vec<u8>) -> Result<Vec<u8>, AllocError>
    requires { room.items ≡ [] }
    ensures { IfOk result (λ v. v.items ≡ spelled_object number line.now printed.now) }
{
    let mut writer = Writer::new(room);
    writer.begin_object()?;
    writer.key("number")?;
    writer.u64(number)?;
    writer.key("line")?;
    writer.string(line)?;
    writer.key("printed")?;
    writer.string(printed)?;
    writer.end_object()?;
    let mut told = writer.into_inner();
    told.push(b'\n')?;
    Ok(told)
}

// Puts the object that tells of a line in place of what it printed.
fn put_object(
    number: u64,
    line: &[u8],
    spelled: &mut Spelled,
    out: &mut Vec<u8>,
) -> Result<(), AllocError>
    ensures { OnOk result (out.new.items ≡ object_of number line.now out.old.items) }
{
    put_characters(line, &mut spelled.line)?;
    put_characters(out, &mut spelled.printed)?;
    out.clear();
    let room = mem::replace(out, Vec::new(*out.allocator()));
    *out = object(number, &spelled.line, &spelled.printed, room)?;
    Ok(())
}

// Puts what tells of a line in JSON in place of what it printed.
fn put_json(
    number: u64,
    line: &[u8],
    spelled: &mut Spelled,
    out: &mut Vec<u8>,
) -> Result<(), AllocError>
    ensures { OnOk result (out.new.items ≡ json_of number line.now out.old.items) }
{
    if is_skipped(line) && out.is_empty() {
        return Ok(());
    }
    put_object(number, line, spelled, out)
}

// The front of a line that is told: all of it, where it isn't too long.
fn front_of(line: &[u8]) -> &[u8]
    ensures { result.now ≡ take most_bytes line.now }
{
    if line.len() > MOST_BYTES {
        &line[..MOST_BYTES]
    } else {
        line
    }
}

/// Puts what tells of a line in this form in place of what it printed. An error where memory is refused, which comes in JSON alone.
pub(crate) fn render(
    form: Form,
    number: u64,
    line: &[u8],
    spelled: &mut Spelled,
    out: &mut Vec<u8>,
) -> Result<(), AllocError>
    ensures told { OnOk result (out.new.items ≡ rendered form number line.now out.old.items) }
    ensures wanting { OnErr result (form ≡ Form.Json) }
{
    match form {
        Form::Text => Ok(()),
        Form::Json => put_json(number, front_of(line), spelled, out),
    }
}
