//! Lines, each with one text, written in room that was reserved.

ghost use Rattle.std.specs.Prelude.{◌≡◌, ◌+◌, ◌≤◌, ◌++◌, [], length};
ghost use Rattle.imap_session.specs.Exchange.{bye, continuing, tagged, untagged};
ghost use Rattle.imap_session.specs.Texts.{response_text, server_text};

use crate::texts::{ResponseText, ServerText};
use line_io::Outlet;

// Writes a text as a line: behind a tag and a space.
pub(crate) fn put_tagged<O: Outlet>(tag: &[u8], text: ResponseText, out: &mut O)
    requires fits { length tag.now + length (response_text text) + 3 ≤ O.room out.old }
    ensures text { O.said out.new ≡ O.said out.old ++ tagged tag.now (response_text text) }
    ensures lot { O.lot out.new ≡ O.lot out.old }
{
    out.put(tag);
    out.put(b" ");
    out.put(text.bytes());
    out.put(b"\r\n");
}

// The same behind a star. Answers how many bytes the line has, as do the next two.
pub(crate) fn put_untagged<O: Outlet>(text: ResponseText, out: &mut O) -> usize
    requires fits { length (response_text text) + 4 ≤ O.room out.old }
    ensures text { O.said out.new ≡ O.said out.old ++ untagged (response_text text) }
    ensures length { result ≡ length (response_text text) + 4 }
    ensures room { O.room out.old ≤ O.room out.new + result }
    ensures lot { O.lot out.new ≡ O.lot out.old }
{
    let words = text.bytes();
    out.put(b"* ");
    out.put(words);
    out.put(b"\r\n");
    words.len() + 4
}

// The same of a text of the server.
pub(crate) fn put_of_server<O: Outlet>(text: ServerText, out: &mut O) -> usize
    requires fits { length (server_text text) + 4 ≤ O.room out.old }
    ensures text { O.said out.new ≡ O.said out.old ++ untagged (server_text text) }
    ensures length { result ≡ length (server_text text) + 4 }
    ensures room { O.room out.old ≤ O.room out.new + result }
    ensures lot { O.lot out.new ≡ O.lot out.old }
{
    let words = text.bytes();
    out.put(b"* ");
    out.put(words);
    out.put(b"\r\n");
    words.len() + 4
}

// The same behind BYE.
pub(crate) fn put_bye<O: Outlet>(text: ResponseText, out: &mut O) -> usize
    requires fits { length (response_text text) + 8 ≤ O.room out.old }
    ensures text { O.said out.new ≡ O.said out.old ++ bye (response_text text) }
    ensures length { result ≡ length (response_text text) + 8 }
    ensures room { O.room out.old ≤ O.room out.new + result }
    ensures lot { O.lot out.new ≡ O.lot out.old }
{
    let words = text.bytes();
    out.put(b"* BYE ");
    out.put(words);
    out.put(b"\r\n");
    words.len() + 8
}

// The same behind a plus: the client may go on.
pub(crate) fn put_continuing<O: Outlet>(text: ResponseText, out: &mut O) -> usize
    requires fits { length (response_text text) + 4 ≤ O.room out.old }
    ensures text { O.said out.new ≡ O.said out.old ++ continuing (response_text text) }
    ensures length { result ≡ length (response_text text) + 4 }
    ensures room { O.room out.old ≤ O.room out.new + result }
    ensures lot { O.lot out.new ≡ O.lot out.old }
{
    let words = text.bytes();
    out.put(b"+ ");
    out.put(words);
    out.put(b"\r\n");
    words.len() + 4
}

// The empty challenge of a mechanism whose client speaks first (RFC 9051, 6.2.2).
pub(crate) fn put_challenge<O: Outlet>(out: &mut O)
    requires fits { 4 ≤ O.room out.old }
    ensures text { O.said out.new ≡ O.said out.old ++ continuing [] }
    ensures lot { O.lot out.new ≡ O.lot out.old }
{
    out.put(b"+ \r\n");
}
