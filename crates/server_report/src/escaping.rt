//! Names, as a page and as a monitor's text spell them. Which names are told stands in the modules beside this one.

ghost use Rattle.std.specs.Prelude.{◌≡◌, ◌++◌, codes, option_copied, OnOk, OnErr};
ghost use Rattle.std.specs.Io.{StartsWith};
ghost use Rattle.server_report.specs.Escaping.{folder_behind, html_byte, label_byte, mailbox_name, spelled, spelled_byte};

use crate::figures::MailboxRow;
use line_io::append_parts;
use std::alloc::AllocError;

/// How a name is spelled.
#[derive(Clone, Copy, Debug, PartialEq, Eq, Drop)]
pub enum Spelling {
    /// As the text of a page.
    Html,
    /// As the value of a monitor's label.
    Label,
}

// Appends a byte of a page's text, or nothing.
#[tactic(auto, unfolding(crate::specs::Escaping::html_byte))]
fn append_html_byte(byte: u8, out: &mut Vec<u8>) -> Result<(), AllocError>
    ensures ok { OnOk result (out.new.items ≡ out.old.items ++ html_byte byte) }
    ensures err { OnErr result (out.new.items ≡ out.old.items) }
{
    match byte {
        b'&' => append_parts(&[b"&amp;".as_slice()], out),
        b'<' => append_parts(&[b"&lt;".as_slice()], out),
        b'>' => append_parts(&[b"&gt;".as_slice()], out),
        b'"' => append_parts(&[b"&quot;".as_slice()], out),
        b'\'' => append_parts(&[b"&#39;".as_slice()], out),
        _ => append_parts(&[[byte].as_slice()], out),
    }
}

// Appends a byte of a label's value, or nothing.
#[tactic(auto, unfolding(crate::specs::Escaping::label_byte))]
fn append_label_byte(byte: u8, out: &mut Vec<u8>) -> Result<(), AllocError>
    ensures ok { OnOk result (out.new.items ≡ out.old.items ++ label_byte byte) }
    ensures err { OnErr result (out.new.items ≡ out.old.items) }
{
    match byte {
        b'\\' => append_parts(&[b"\\\\".as_slice()], out),
        b'"' => append_parts(&[b"\\\"".as_slice()], out),
        b'\n' => append_parts(&[b"\\n".as_slice()], out),
        _ => append_parts(&[[byte].as_slice()], out),
    }
}

// Appends a byte of a name, or nothing.
fn append_byte(way: Spelling, byte: u8, out: &mut Vec<u8>) -> Result<(), AllocError>
    ensures ok { OnOk result (out.new.items ≡ out.old.items ++ spelled_byte way byte) }
    ensures err { OnErr result (out.new.items ≡ out.old.items) }
{
    match way {
        Spelling::Html => append_html_byte(byte, out),
        Spelling::Label => append_label_byte(byte, out),
    }
}

/// Appends a name, or a part of it.
#[tactic(auto, unfolding(crate::specs::Escaping::spelled))]
pub(crate) fn append_spelled(
    way: Spelling,
    name: &[u8],
    out: &mut Vec<u8>,
) -> Result<(), AllocError>
    ensures ok { OnOk result (out.new.items ≡ out.old.items ++ spelled way name.now) }
    ensures err { OnErr result (StartsWith out.new.items out.old.items) }
{
    for byte in name {
        append_byte(way, *byte, out)?;
    }
    Ok(())
}

// Appends a folder behind its user, or a part of it.
fn append_folder(way: Spelling, folder: &[u8], out: &mut Vec<u8>) -> Result<(), AllocError>
    ensures ok { OnOk result (out.new.items
        ≡ out.old.items ++ (codes "/" ++ spelled way folder.now)) }
    ensures err { OnErr result (StartsWith out.new.items out.old.items) }
{
    append_parts(&[b"/".as_slice()], out)?;
    append_spelled(way, folder, out)?;
    Ok(())
}

// Appends a folder behind its user, if there is one, or a part of it.
fn append_any_folder(
    way: Spelling,
    folder: Option<&[u8]>,
    out: &mut Vec<u8>,
) -> Result<(), AllocError>
    ensures ok { OnOk result (out.new.items
        ≡ out.old.items ++ folder_behind way (option_copied folder.entry)) }
    ensures err { OnErr result (StartsWith out.new.items out.old.items) }
{
    let Some(folder) = folder else {
        return Ok(());
    };
    append_folder(way, folder, out)
}

/// Appends a mailbox's name, or a part of it.
#[tactic(auto, unfolding(crate::specs::Escaping::mailbox_name))]
pub(crate) fn append_mailbox(
    way: Spelling,
    row: &MailboxRow<'_>,
    out: &mut Vec<u8>,
) -> Result<(), AllocError>
    ensures ok { OnOk result (out.new.items ≡ out.old.items ++ mailbox_name way row.now) }
    ensures err { OnErr result (StartsWith out.new.items out.old.items) }
{
    append_spelled(way, row.user, out)?;
    append_any_folder(way, row.folder, out)?;
    Ok(())
}
