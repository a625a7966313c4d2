//! When a message came, as FETCH prints it (RFC 9051, 7.5.2). Which date a message has, and how it is spelled, is told in `mail_date`.

ghost use Rattle.std.specs.Prelude.{◌≡◌, ◌+◌, ◌++◌, ◌≤◌, length};
ghost use Rattle.imap_answers.specs.Answers.{date_item};

use delivery_token::Text;
use line_io::Outlet;
use mail_date::internal_date;

/// Puts the date of the message with this text, in room that is held.
pub(crate) fn put_date<O: Outlet>(text: &Text, out: &mut O)
    requires fits { length (date_item text.now) ≤ O.room out.old }
    ensures said { O.said out.new ≡ O.said out.old ++ date_item text.now }
    ensures lot { O.lot out.new ≡ O.lot out.old }
    ensures room { O.room out.old ≤ O.room out.new + length (date_item text.now) }
{
    out.put(b"INTERNALDATE \"");
    out.put(&internal_date(&text.date()));
    out.put(b"\"");
}
