//! What is said of the listeners, so that whoever started the server knows when to begin. Nothing listens here.

ghost use Rattle.std.specs.Prelude.{ℕ, ◌≡◌, ◌<◌, ◌++◌, ◌∷◌, List, [], false, true, IfOk, IfSome, OnOk, length, slice_get, take};
ghost use Rattle.std.specs.Io.KnownBytes.{Appends};
ghost use Rattle.serving.specs.Announcing.{announcement, imap_line, imap_lines, lmtp_line, page_line, page_lines, users_of};

use crate::sockets::Ports;
use envelope::Directory;
use itoa::Buffer;
use line_io::{Sink, append_parts, send};
use settings::Uidvalidity;
use std::alloc::{AllocError, Global};

// The line of the port that mail comes to.
fn announce_mail(port: usize, out: &mut Vec<u8>) -> Result<(), AllocError>
    ensures { OnOk result (out.new.items ≡ out.old.items ++ lmtp_line port) }
{
    let mut digits = Buffer::new();
    let port = digits.format(port).as_bytes();
    append_parts(
        &[b"LMTP 127.0.0.1:".as_slice(), port, b"\n".as_slice()],
        out,
    )
}

// The line of a user's port.
fn announce_user(port: usize, user: &[u8], out: &mut Vec<u8>) -> Result<(), AllocError>
    ensures { OnOk result (out.new.items ≡ out.old.items ++ imap_line port user.now) }
{
    let mut digits = Buffer::new();
    let port = digits.format(port).as_bytes();
    append_parts(
        &[
            b"IMAP 127.0.0.1:".as_slice(),
            port,
            b" ".as_slice(),
            user,
            b"\n".as_slice(),
        ],
        out,
    )
}

// The line of a mailbox's port, where it is its user's INBOX: the first of these. Answers the next users' ports.
fn announce_mailbox<'p>(
    directory: &Directory,
    mailbox: u8,
    ports: &'p [u16],
    out: &mut Vec<u8>,
) -> Result<&'p [u16], AllocError>
    requires { mailbox < length directory.now.homes }
    ensures { IfOk result (λ next. IfSome (slice_get directory.now.homes mailbox) (λ home.
        (users : List (List ℕ)) → out.new.items ++ imap_lines users next.now
        ≡ out.old.items ++ imap_lines (users_of (home ∷ []) ++ users) ports.entry.now)) }
{
    if directory.folder_of(mailbox).is_some() {
        return Ok(ports);
    }
    // There is a port for each user.
    let Some((port, next)) = ports.split_first() else {
        return Ok(ports);
    };
    announce_user(usize::from(*port), directory.user_of(mailbox), out)?;
    Ok(next)
}

// A line for each user's port.
fn announce_users(directory: &Directory, ports: &[u16], out: &mut Vec<u8>) -> Result<(), AllocError>
    ensures { OnOk result (out.new.items
        ≡ out.old.items ++ imap_lines (users_of directory.now.homes) ports.now) }
{
    let mut next = ports;
    for mailbox in 0..directory.mailboxes() {
        next = announce_mailbox(directory, mailbox as u8, next, out)?;
    }
    Ok(())
}

// The line of a page at this port.
fn announce_page_at(port: usize, out: &mut Vec<u8>) -> Result<(), AllocError>
    ensures { OnOk result (out.new.items ≡ out.old.items ++ page_line port) }
{
    let mut digits = Buffer::new();
    let port = digits.format(port).as_bytes();
    append_parts(
        &[
            b"STATUS http://127.0.0.1:".as_slice(),
            port,
            b"/\n".as_slice(),
        ],
        out,
    )
}

// The line of the page, where it has a port.
fn announce_page(port: Option<u16>, out: &mut Vec<u8>) -> Result<(), AllocError>
    ensures { OnOk result (out.new.items ≡ out.old.items ++ page_lines port) }
{
    match port {
        None => Ok(()),
        Some(port) => announce_page_at(usize::from(port), out),
    }
}

// What is said where the UIDVALIDITY is the one that stands where none is given.
const WARNING: &[u8] =
    b"UIDVALIDITY is the same at each start: give --uidvalidity a number that grows, as the time in seconds\n";

/// A line for each listener of a house with this directory, which has these ports, and one that warns where no UIDVALIDITY was given.
///
/// Errors: `AllocError` where memory is refused.
pub(crate) fn announce(
    alloc: Global,
    directory: &Directory,
    ports: &Ports,
    uidvalidity: Uidvalidity,
) -> Result<Vec<u8>, AllocError>
    ensures { IfOk result (λ v. v.items
        ≡ announcement ports.now.mail ports.now.users.items ports.now.page directory.now.homes
        uidvalidity) }
{
    let mut out = Vec::new(alloc);
    announce_mail(usize::from(ports.mail), &mut out)?;
    announce_users(directory, &ports.users, &mut out)?;
    announce_page(ports.page, &mut out)?;
    match uidvalidity {
        Uidvalidity::Given => {}
        Uidvalidity::Default => out.extend_from_slice(WARNING)?,
    }
    Ok(out)
}

/// What is said of the listeners, and where. It owns nothing: what becomes of a `&mut` beside something that is owned no caller would know.
#[derive(Drop)]
pub(crate) struct Announcer<'o, W: Sink> {
    /// The lines that tell of the listeners.
    pub(crate) lines: &'o [u8],
    /// Where they are written.
    pub(crate) output: &'o mut W,
}

impl<'o, W: Sink> Announcer<'o, W> {
    /// Writes the lines, and answers whether all of them were written.
    pub(crate) fn tell(self) -> (Announcer<'o, W>, bool)
        requires live { W.failed self.output.now ≡ false }
        ensures same { result.0.output.ghost_name ≡ self.entry.output.ghost_name }
        ensures told { (n : ℕ) × Appends (W.taken self.entry.output.now)
            (W.taken result.0.output.now) (take n self.entry.lines.now) }
        ensures all { result.1 ≡ true
            → Appends (W.taken self.entry.output.now) (W.taken result.0.output.now)
            self.entry.lines.now }
    {
        let Announcer { lines, output } = self;
        if send(output, lines).is_err() {
            return (Announcer { lines, output }, false);
        }
        (Announcer { lines, output }, true)
    }
}
