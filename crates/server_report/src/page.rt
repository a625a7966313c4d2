//! The page that a person reads of a server, as HTML. What it tells is gathered by whoever asks for it.

ghost use Rattle.std.specs.Prelude.{◌≡◌, ◌++◌, OnOk, OnErr, flat_map};
ghost use Rattle.std.specs.Io.{StartsWith};
ghost use Rattle.server_report.specs.Page.{connection_row, connection_table, copy_rows, count_cell, count_row, count_table, mailbox_cell, mailbox_row, mailbox_table, message_cells, number_cell, page_front, page_text, piece_text, peer_rows, peer_tables, refused_row, session_row, session_table, size_cells, state_cell, state_words, tables, user_cell};

use crate::counts::{Counts, Refused};
use crate::escaping::{Spelling, append_mailbox, append_spelled};
use crate::figures::{Connection, MailboxFigures, MailboxRow, PeerState, Session, Snapshot};
use crate::refused::{REASONS, count_for, reason_words};
use delivery_token::Refusal;
use itoa::Buffer;
use line_io::append_parts;
use std::alloc::AllocError;

/// A piece of the document that is always the same.
#[derive(Clone, Copy, Debug, PartialEq, Eq, Drop)]
pub enum Piece {
    /// The head of the document, up to its title.
    Document,
    /// Its title, and an icon of nothing, so that none is asked for.
    Title,
    /// The style of the text.
    TextStyle,
    /// The style of tables.
    TableStyle,
    /// What the dark scheme changes, and the end of the style.
    DarkStyle,
    /// The heading, which begins the body.
    Heading,
    /// What stands before the rows of the mailboxes.
    Mailboxes,
    /// What stands before the rows of the connections.
    Connections,
    /// What stands before the rows of the sessions.
    Sessions,
    /// What stands before the rows of what was counted.
    Counts,
    /// The end of the last table, and of the document.
    End,
}

// The pieces that stand before the tables.
const FRONT_PIECES: [Piece; 6] = [
    Piece::Document,
    Piece::Title,
    Piece::TextStyle,
    Piece::TableStyle,
    Piece::DarkStyle,
    Piece::Heading,
];

#[tactic(auto, unfolding(crate::specs::Page::piece_text))]
fn piece_text(piece: Piece) -> &'static [u8]
    ensures { result.now ≡ piece_text piece }
{
    match piece {
        Piece::Document =>
            b"<!DOCTYPE html>\n<html lang=\"en\">\n<head>\n<meta charset=\"utf-8\">\n",
        Piece::Title =>
            b"<meta name=\"viewport\" content=\"width=device-width, initial-scale=1\">\n<link rel=\"icon\" href=\"data:,\">\n<title>post_house: what it is doing now</title>\n",
        Piece::TextStyle =>
            b"<style>\n:root { color-scheme: light dark; --line: #c8c8c8; }\nbody { font: 16px/1.5 sans-serif; max-width: 60rem; margin: 2rem auto; padding: 0 1rem; color: #1b1b1b; background: #ffffff; }\n",
        Piece::TableStyle =>
            b"table { border-collapse: collapse; margin: 0 0 2rem; }\ncaption { text-align: left; font-weight: bold; }\nth, td { padding: 0.2rem 1rem 0.2rem 0; border-bottom: 1px solid var(--line); text-align: right; }\n",
        Piece::DarkStyle =>
            b"th:first-child { text-align: left; }\nth[scope=row] { font-weight: normal; }\n@media (prefers-color-scheme: dark) { :root { --line: #4a4a4a; } body { color: #e4e4e4; background: #161616; } }\n</style>\n",
        Piece::Heading => b"</head>\n<body>\n<h1>What post_house is doing now</h1>\n",
        Piece::Mailboxes =>
            b"<table>\n<caption>Mailboxes</caption>\n<tr><th scope=\"col\">Mailbox</th><th scope=\"col\">Messages</th><th scope=\"col\">Unseen</th><th scope=\"col\">Bytes</th><th scope=\"col\">Next UID</th></tr>\n",
        Piece::Connections =>
            b"<table>\n<caption>Connections</caption>\n<tr><th scope=\"col\">Number</th><th scope=\"col\">State</th></tr>\n",
        Piece::Sessions =>
            b"<table>\n<caption>Sessions</caption>\n<tr><th scope=\"col\">User</th><th scope=\"col\">Number</th><th scope=\"col\">State</th></tr>\n",
        Piece::Counts =>
            b"<table>\n<caption>Since the start</caption>\n<tr><th scope=\"col\">What</th><th scope=\"col\">How many</th></tr>\n",
        Piece::End => b"</table>\n</body>\n</html>\n",
    }
}

// Appends a piece, or nothing.
fn append_piece(piece: Piece, out: &mut Vec<u8>) -> Result<(), AllocError>
    ensures ok { OnOk result (out.new.items ≡ out.old.items ++ piece_text piece) }
    ensures err { OnErr result (out.new.items ≡ out.old.items) }
{
    append_parts(&[piece_text(piece)], out)
}

// Appends these pieces, or a part of them.
fn append_pieces(order: &[Piece], out: &mut Vec<u8>) -> Result<(), AllocError>
    ensures ok { OnOk result (out.new.items ≡ out.old.items ++ flat_map piece_text order.now) }
    ensures err { OnErr result (StartsWith out.new.items out.old.items) }
{
    for piece in order {
        append_piece(*piece, out)?;
    }
    Ok(())
}

// Appends what stands before the tables, or a part of it.
#[tactic(auto, unfolding(crate::specs::Page::page_front))]
fn append_page_front(out: &mut Vec<u8>) -> Result<(), AllocError>
    ensures ok { OnOk result (out.new.items ≡ out.old.items ++ page_front) }
    ensures err { OnErr result (StartsWith out.new.items out.old.items) }
{
    append_pieces(&FRONT_PIECES, out)
}

// Appends a cell with a number, or nothing.
#[tactic(auto, unfolding(crate::specs::Page::number_cell))]
fn append_number_cell(number: u128, out: &mut Vec<u8>) -> Result<(), AllocError>
    ensures ok { OnOk result (out.new.items ≡ out.old.items ++ number_cell number) }
    ensures err { OnErr result (out.new.items ≡ out.old.items) }
{
    let mut digits = Buffer::new();
    let number = digits.format(number).as_bytes();
    append_parts(&[b"<td>".as_slice(), number, b"</td>".as_slice()], out)
}

// Appends the first cell of a mailbox, or a part of it.
#[tactic(auto, unfolding(crate::specs::Page::mailbox_cell))]
fn append_mailbox_cell(row: &MailboxRow<'_>, out: &mut Vec<u8>) -> Result<(), AllocError>
    ensures ok { OnOk result (out.new.items ≡ out.old.items ++ mailbox_cell row.now) }
    ensures err { OnErr result (StartsWith out.new.items out.old.items) }
{
    append_parts(&[b"<tr><th scope=\"row\">".as_slice()], out)?;
    append_mailbox(Spelling::Html, row, out)?;
    append_parts(&[b"</th>".as_slice()], out)?;
    Ok(())
}

// Appends how many messages a mailbox has, or a part of it.
#[tactic(auto, unfolding(crate::specs::Page::message_cells))]
fn append_message_cells(figures: &MailboxFigures, out: &mut Vec<u8>) -> Result<(), AllocError>
    ensures ok { OnOk result (out.new.items ≡ out.old.items ++ message_cells figures.now) }
    ensures err { OnErr result (StartsWith out.new.items out.old.items) }
{
    append_number_cell(figures.messages as u128, out)?;
    append_number_cell(figures.unseen as u128, out)?;
    Ok(())
}

// Appends how large a mailbox is, or a part of it.
#[tactic(auto, unfolding(crate::specs::Page::size_cells))]
fn append_size_cells(figures: &MailboxFigures, out: &mut Vec<u8>) -> Result<(), AllocError>
    ensures ok { OnOk result (out.new.items ≡ out.old.items ++ size_cells figures.now) }
    ensures err { OnErr result (StartsWith out.new.items out.old.items) }
{
    append_number_cell(figures.bytes, out)?;
    append_number_cell(u128::from(figures.uid_next), out)?;
    append_parts(&[b"</tr>\n".as_slice()], out)?;
    Ok(())
}

// Appends the row of a mailbox, or a part of it.
#[tactic(auto, unfolding(crate::specs::Page::mailbox_row))]
fn append_mailbox_row(row: &MailboxRow<'_>, out: &mut Vec<u8>) -> Result<(), AllocError>
    ensures ok { OnOk result (out.new.items ≡ out.old.items ++ mailbox_row row.now) }
    ensures err { OnErr result (StartsWith out.new.items out.old.items) }
{
    append_mailbox_cell(row, out)?;
    append_message_cells(&row.figures, out)?;
    append_size_cells(&row.figures, out)?;
    Ok(())
}

fn state_words(state: PeerState) -> &'static [u8]
    ensures { result.now ≡ state_words state }
{
    match state {
        PeerState::Talking => b"talking",
        PeerState::Idling => b"idling",
        PeerState::Leaving => b"leaving",
    }
}

// Appends the row of a connection, or nothing.
#[tactic(auto, unfolding(crate::specs::Page::connection_row))]
fn append_connection_row(connection: &Connection, out: &mut Vec<u8>) -> Result<(), AllocError>
    ensures ok { OnOk result (out.new.items ≡ out.old.items ++ connection_row connection.now) }
    ensures err { OnErr result (out.new.items ≡ out.old.items) }
{
    let mut digits = Buffer::new();
    let number = digits.format(connection.number).as_bytes();
    append_parts(
        &[
            b"<tr><th scope=\"row\">".as_slice(),
            number,
            b"</th><td>".as_slice(),
            state_words(connection.state),
            b"</td></tr>\n".as_slice(),
        ],
        out,
    )
}

// Appends the first cell of a session, or a part of it.
#[tactic(auto, unfolding(crate::specs::Page::user_cell))]
fn append_user_cell(session: &Session<'_>, out: &mut Vec<u8>) -> Result<(), AllocError>
    ensures ok { OnOk result (out.new.items ≡ out.old.items ++ user_cell session.now) }
    ensures err { OnErr result (StartsWith out.new.items out.old.items) }
{
    append_parts(&[b"<tr><th scope=\"row\">".as_slice()], out)?;
    append_spelled(Spelling::Html, session.user, out)?;
    append_parts(&[b"</th>".as_slice()], out)?;
    Ok(())
}

// Appends the last cell of a session, or nothing.
#[tactic(auto, unfolding(crate::specs::Page::state_cell))]
fn append_state_cell(session: &Session<'_>, out: &mut Vec<u8>) -> Result<(), AllocError>
    ensures ok { OnOk result (out.new.items ≡ out.old.items ++ state_cell session.now) }
    ensures err { OnErr result (out.new.items ≡ out.old.items) }
{
    append_parts(
        &[
            b"<td>".as_slice(),
            state_words(session.state),
            b"</td></tr>\n".as_slice(),
        ],
        out,
    )
}

// Appends the row of a session, or a part of it.
#[tactic(auto, unfolding(crate::specs::Page::session_row))]
fn append_session_row(session: &Session<'_>, out: &mut Vec<u8>) -> Result<(), AllocError>
    ensures ok { OnOk result (out.new.items ≡ out.old.items ++ session_row session.now) }
    ensures err { OnErr result (StartsWith out.new.items out.old.items) }
{
    append_user_cell(session, out)?;
    append_number_cell(session.number, out)?;
    append_state_cell(session, out)?;
    Ok(())
}

// Appends the first cell of what was counted, or nothing.
#[tactic(auto, unfolding(crate::specs::Page::count_cell))]
fn append_count_cell(before: &[u8], behind: &[u8], out: &mut Vec<u8>) -> Result<(), AllocError>
    ensures ok { OnOk result (out.new.items ≡ out.old.items ++ count_cell before.now behind.now) }
    ensures err { OnErr result (out.new.items ≡ out.old.items) }
{
    append_parts(
        &[
            b"<tr><th scope=\"row\">".as_slice(),
            before,
            behind,
            b"</th>".as_slice(),
        ],
        out,
    )
}

// Appends the row of what was counted, told in two words, or a part of it.
#[tactic(auto, unfolding(crate::specs::Page::count_row))]
fn append_count_row(
    before: &[u8],
    behind: &[u8],
    number: u64,
    out: &mut Vec<u8>,
) -> Result<(), AllocError>
    ensures ok { OnOk result (out.new.items
        ≡ out.old.items ++ count_row before.now behind.now number) }
    ensures err { OnErr result (StartsWith out.new.items out.old.items) }
{
    append_count_cell(before, behind, out)?;
    append_number_cell(u128::from(number), out)?;
    append_parts(&[b"</tr>\n".as_slice()], out)?;
    Ok(())
}

// Appends the row of a reason, or a part of it.
#[tactic(auto, unfolding(crate::specs::Page::refused_row))]
fn append_refused_row(
    refused: Refused,
    reason: Refusal,
    out: &mut Vec<u8>,
) -> Result<(), AllocError>
    ensures ok { OnOk result (out.new.items ≡ out.old.items ++ refused_row refused reason) }
    ensures err { OnErr result (StartsWith out.new.items out.old.items) }
{
    append_count_row(
        b"Copies refused: ",
        reason_words(reason),
        count_for(refused, reason),
        out,
    )
}

// Appends a row for each of these reasons, or a part of them.
fn append_refused_rows(
    refused: Refused,
    order: &[Refusal],
    out: &mut Vec<u8>,
) -> Result<(), AllocError>
    ensures ok { OnOk result (out.new.items
        ≡ out.old.items ++ flat_map (refused_row refused) order.now) }
    ensures err { OnErr result (StartsWith out.new.items out.old.items) }
{
    for reason in order {
        append_refused_row(refused, *reason, out)?;
    }
    Ok(())
}

// Appends a row for each mailbox, or a part of them.
fn append_mailbox_rows(rows: &[MailboxRow<'_>], out: &mut Vec<u8>) -> Result<(), AllocError>
    ensures ok { OnOk result (out.new.items ≡ out.old.items ++ flat_map mailbox_row rows.now) }
    ensures err { OnErr result (StartsWith out.new.items out.old.items) }
{
    for row in rows {
        append_mailbox_row(row, out)?;
    }
    Ok(())
}

// Appends a row for each connection, or a part of them.
fn append_connection_rows(connections: &[Connection], out: &mut Vec<u8>) -> Result<(), AllocError>
    ensures ok { OnOk result (out.new.items
        ≡ out.old.items ++ flat_map connection_row connections.now) }
    ensures err { OnErr result (StartsWith out.new.items out.old.items) }
{
    for connection in connections {
        append_connection_row(connection, out)?;
    }
    Ok(())
}

// Appends a row for each session, or a part of them.
fn append_session_rows(sessions: &[Session<'_>], out: &mut Vec<u8>) -> Result<(), AllocError>
    ensures ok { OnOk result (out.new.items ≡ out.old.items ++ flat_map session_row sessions.now) }
    ensures err { OnErr result (StartsWith out.new.items out.old.items) }
{
    for session in sessions {
        append_session_row(session, out)?;
    }
    Ok(())
}

// Appends the table of the mailboxes, or a part of it.
#[tactic(auto, unfolding(crate::specs::Page::mailbox_table))]
fn append_mailbox_table(rows: &[MailboxRow<'_>], out: &mut Vec<u8>) -> Result<(), AllocError>
    ensures ok { OnOk result (out.new.items ≡ out.old.items ++ mailbox_table rows.now) }
    ensures err { OnErr result (StartsWith out.new.items out.old.items) }
{
    append_piece(Piece::Mailboxes, out)?;
    append_mailbox_rows(rows, out)?;
    append_parts(&[b"</table>\n".as_slice()], out)?;
    Ok(())
}

// Appends the table of the connections, or a part of it.
#[tactic(auto, unfolding(crate::specs::Page::connection_table))]
fn append_connection_table(connections: &[Connection], out: &mut Vec<u8>) -> Result<(), AllocError>
    ensures ok { OnOk result (out.new.items ≡ out.old.items ++ connection_table connections.now) }
    ensures err { OnErr result (StartsWith out.new.items out.old.items) }
{
    append_piece(Piece::Connections, out)?;
    append_connection_rows(connections, out)?;
    append_parts(&[b"</table>\n".as_slice()], out)?;
    Ok(())
}

// Appends the table of the sessions, or a part of it.
#[tactic(auto, unfolding(crate::specs::Page::session_table))]
fn append_session_table(sessions: &[Session<'_>], out: &mut Vec<u8>) -> Result<(), AllocError>
    ensures ok { OnOk result (out.new.items ≡ out.old.items ++ session_table sessions.now) }
    ensures err { OnErr result (StartsWith out.new.items out.old.items) }
{
    append_piece(Piece::Sessions, out)?;
    append_session_rows(sessions, out)?;
    append_parts(&[b"</table>\n".as_slice()], out)?;
    Ok(())
}

// Appends the rows of what was counted of copies, or a part of them.
#[tactic(auto, unfolding(crate::specs::Page::copy_rows))]
fn append_copy_rows(counts: &Counts, out: &mut Vec<u8>) -> Result<(), AllocError>
    ensures ok { OnOk result (out.new.items ≡ out.old.items ++ copy_rows counts.now) }
    ensures err { OnErr result (StartsWith out.new.items out.old.items) }
{
    append_count_row(b"Messages", b"", counts.messages, out)?;
    append_count_row(b"Copies stored", b"", counts.stored, out)?;
    append_refused_rows(counts.refused, &REASONS, out)?;
    Ok(())
}

// Appends the rows of what was counted of peers and of the log, or a part of them.
#[tactic(auto, unfolding(crate::specs::Page::peer_rows))]
fn append_peer_rows(counts: &Counts, out: &mut Vec<u8>) -> Result<(), AllocError>
    ensures ok { OnOk result (out.new.items ≡ out.old.items ++ peer_rows counts.now) }
    ensures err { OnErr result (StartsWith out.new.items out.old.items) }
{
    append_count_row(b"Connections", b"", counts.connections, out)?;
    append_count_row(b"Sessions", b"", counts.sessions, out)?;
    append_count_row(b"Lines of the log lost", b"", counts.lost, out)?;
    Ok(())
}

// Appends the table of what was counted, up to its end, or a part of it.
#[tactic(auto, unfolding(crate::specs::Page::count_table))]
fn append_count_table(counts: &Counts, out: &mut Vec<u8>) -> Result<(), AllocError>
    ensures ok { OnOk result (out.new.items ≡ out.old.items ++ count_table counts.now) }
    ensures err { OnErr result (StartsWith out.new.items out.old.items) }
{
    append_piece(Piece::Counts, out)?;
    append_copy_rows(counts, out)?;
    append_peer_rows(counts, out)?;
    Ok(())
}

// Appends the tables of peers, or a part of them.
#[tactic(auto, unfolding(crate::specs::Page::peer_tables))]
fn append_peer_tables(snapshot: &Snapshot<'_>, out: &mut Vec<u8>) -> Result<(), AllocError>
    ensures ok { OnOk result (out.new.items ≡ out.old.items ++ peer_tables snapshot.now) }
    ensures err { OnErr result (StartsWith out.new.items out.old.items) }
{
    append_connection_table(snapshot.connections, out)?;
    append_session_table(snapshot.sessions, out)?;
    Ok(())
}

// Appends all tables, or a part of them.
#[tactic(auto, unfolding(crate::specs::Page::tables))]
fn append_tables(snapshot: &Snapshot<'_>, out: &mut Vec<u8>) -> Result<(), AllocError>
    ensures ok { OnOk result (out.new.items ≡ out.old.items ++ tables snapshot.now) }
    ensures err { OnErr result (StartsWith out.new.items out.old.items) }
{
    append_mailbox_table(snapshot.mailboxes, out)?;
    append_peer_tables(snapshot, out)?;
    append_count_table(&snapshot.counts, out)?;
    Ok(())
}

// Appends the page, or a part of it.
#[tactic(auto, unfolding(crate::specs::Page::page_text))]
fn append_page(snapshot: &Snapshot<'_>, out: &mut Vec<u8>) -> Result<(), AllocError>
    ensures ok { OnOk result (out.new.items ≡ out.old.items ++ page_text snapshot.now) }
    ensures err { OnErr result (StartsWith out.new.items out.old.items) }
{
    append_page_front(out)?;
    append_tables(snapshot, out)?;
    append_piece(Piece::End, out)?;
    Ok(())
}

/// Appends the page that a person reads, a document of HTML.
///
/// Errors: `AllocError` where memory is refused; then `out` is as it was.
pub fn write_page(snapshot: &Snapshot<'_>, out: &mut Vec<u8>) -> Result<(), AllocError>
    // The page is `page_text`, byte by byte. An error writes nothing.
    ensures ok { OnOk result (out.new.items ≡ out.old.items ++ page_text snapshot.now) }
    ensures err { OnErr result (out.new.items ≡ out.old.items) }
{
    let before = out.len();
    let Ok(()) = append_page(snapshot, out) else {
        out.truncate(before);
        return Err(AllocError);
    };
    Ok(())
}
