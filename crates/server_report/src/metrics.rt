//! The figures as a monitor reads them, in Prometheus' text format 0.0.4. What they are is told by whoever gathers them.

ghost use Rattle.std.specs.Prelude.{◌≡◌, ◌++◌, OnOk, OnErr, flat_map};
ghost use Rattle.std.specs.Io.{StartsWith};
ghost use Rattle.server_report.specs.Metrics.{family_lines, gauge_help, gauge_name, gauge_value, help_line, help_of, kind_line, kind_of, labelled, mailbox_family, mailbox_sample, metrics_text, name_of, of_copies, of_counts, of_messages, of_now, of_peers, of_sizes, refused_family, refused_sample, sample, single};

use crate::counts::{Counts, Refused};
use crate::escaping::{Spelling, append_mailbox};
use crate::figures::{MailboxFigures, MailboxRow, Snapshot};
use crate::refused::{REASONS, count_for, reason_words};
use delivery_token::Refusal;
use itoa::Buffer;
use line_io::append_parts;
use std::alloc::AllocError;

/// What is told of each mailbox.
#[derive(Clone, Copy, Debug, PartialEq, Eq, Drop)]
pub enum Gauge {
    /// How many messages are there.
    Messages,
    /// How many of them are without \Seen.
    Unseen,
    /// The bytes of all texts.
    Bytes,
    /// The UID of the next message.
    UidNext,
}

/// A family of samples: figures of one name.
#[derive(Clone, Copy, Debug, PartialEq, Eq, Drop)]
pub enum Family {
    /// Messages that were submitted.
    Messages,
    /// Copies that were stored.
    Stored,
    /// Copies that were refused, by the reason.
    Refused,
    /// Connections that were accepted.
    Connections,
    /// Sessions that were begun.
    Sessions,
    /// Lines of the log that were not written.
    Lost,
    /// Connections that are open.
    OpenConnections,
    /// Sessions that are open.
    OpenSessions,
    /// What is told of each mailbox.
    Mailbox(Gauge),
}

fn gauge_name(of: Gauge) -> &'static [u8]
    ensures { result.now ≡ gauge_name of }
{
    match of {
        Gauge::Messages => b"mailbox_messages",
        Gauge::Unseen => b"mailbox_unseen",
        Gauge::Bytes => b"mailbox_bytes",
        Gauge::UidNext => b"mailbox_uid_next",
    }
}

fn gauge_help(of: Gauge) -> &'static [u8]
    ensures { result.now ≡ gauge_help of }
{
    match of {
        Gauge::Messages => b"Messages in the mailbox.",
        Gauge::Unseen => b"Messages in the mailbox that are not seen.",
        Gauge::Bytes => b"Bytes of all messages in the mailbox.",
        Gauge::UidNext => b"UID of the next message of the mailbox.",
    }
}

fn gauge_value(figures: MailboxFigures, of: Gauge) -> u128
    ensures { result ≡ gauge_value figures of }
{
    match of {
        Gauge::Messages => figures.messages as u128,
        Gauge::Unseen => figures.unseen as u128,
        Gauge::Bytes => figures.bytes,
        Gauge::UidNext => u128::from(figures.uid_next),
    }
}

// What a family is called behind `post_house_`.
fn name_of(family: Family) -> &'static [u8]
    ensures { result.now ≡ name_of family }
{
    match family {
        Family::Messages => b"messages_total",
        Family::Stored => b"copies_stored_total",
        Family::Refused => b"copies_refused_total",
        Family::Connections => b"connections_total",
        Family::Sessions => b"sessions_total",
        Family::Lost => b"log_lines_lost_total",
        Family::OpenConnections => b"open_connections",
        Family::OpenSessions => b"open_sessions",
        Family::Mailbox(of) => gauge_name(of),
    }
}

fn help_of(family: Family) -> &'static [u8]
    ensures { result.now ≡ help_of family }
{
    match family {
        Family::Messages => b"Messages that were submitted.",
        Family::Stored => b"Copies that were stored.",
        Family::Refused => b"Copies that were refused, by the reason.",
        Family::Connections => b"Connections that were accepted where mail comes.",
        Family::Sessions => b"Sessions that were begun.",
        Family::Lost => b"Lines of the log that were not written.",
        Family::OpenConnections => b"Connections that are open where mail comes.",
        Family::OpenSessions => b"Sessions that are open.",
        Family::Mailbox(of) => gauge_help(of),
    }
}

fn kind_of(family: Family) -> &'static [u8]
    ensures { result.now ≡ kind_of family }
{
    match family {
        Family::Messages => b"counter",
        Family::Stored => b"counter",
        Family::Refused => b"counter",
        Family::Connections => b"counter",
        Family::Sessions => b"counter",
        Family::Lost => b"counter",
        Family::OpenConnections => b"gauge",
        Family::OpenSessions => b"gauge",
        Family::Mailbox(_) => b"gauge",
    }
}

// Appends the line of help of a family, or nothing.
#[tactic(auto, unfolding(crate::specs::Metrics::help_line))]
fn append_help(family: Family, out: &mut Vec<u8>) -> Result<(), AllocError>
    ensures ok { OnOk result (out.new.items ≡ out.old.items ++ help_line family) }
    ensures err { OnErr result (out.new.items ≡ out.old.items) }
{
    append_parts(
        &[
            b"# HELP post_house_".as_slice(),
            name_of(family),
            b" ".as_slice(),
            help_of(family),
            b"\n".as_slice(),
        ],
        out,
    )
}

// Appends the line of the kind of a family, or nothing.
#[tactic(auto, unfolding(crate::specs::Metrics::kind_line))]
fn append_kind(family: Family, out: &mut Vec<u8>) -> Result<(), AllocError>
    ensures ok { OnOk result (out.new.items ≡ out.old.items ++ kind_line family) }
    ensures err { OnErr result (out.new.items ≡ out.old.items) }
{
    append_parts(
        &[
            b"# TYPE post_house_".as_slice(),
            name_of(family),
            b" ".as_slice(),
            kind_of(family),
            b"\n".as_slice(),
        ],
        out,
    )
}

// Appends the two lines that a family begins with, or a part of them.
#[tactic(auto, unfolding(crate::specs::Metrics::family_lines))]
fn append_family_lines(family: Family, out: &mut Vec<u8>) -> Result<(), AllocError>
    ensures ok { OnOk result (out.new.items ≡ out.old.items ++ family_lines family) }
    ensures err { OnErr result (StartsWith out.new.items out.old.items) }
{
    append_help(family, out)?;
    append_kind(family, out)?;
    Ok(())
}

// Appends a sample without a label, or nothing.
#[tactic(auto, unfolding(crate::specs::Metrics::sample))]
fn append_sample(family: Family, value: u64, out: &mut Vec<u8>) -> Result<(), AllocError>
    ensures ok { OnOk result (out.new.items ≡ out.old.items ++ sample family value) }
    ensures err { OnErr result (out.new.items ≡ out.old.items) }
{
    let mut digits = Buffer::new();
    let value = digits.format(value).as_bytes();
    append_parts(
        &[
            b"post_house_".as_slice(),
            name_of(family),
            b" ".as_slice(),
            value,
            b"\n".as_slice(),
        ],
        out,
    )
}

// Appends a family of one sample, or a part of it.
#[tactic(auto, unfolding(crate::specs::Metrics::single))]
fn append_single(family: Family, value: u64, out: &mut Vec<u8>) -> Result<(), AllocError>
    ensures ok { OnOk result (out.new.items ≡ out.old.items ++ single family value) }
    ensures err { OnErr result (StartsWith out.new.items out.old.items) }
{
    append_family_lines(family, out)?;
    append_sample(family, value, out)?;
    Ok(())
}

// Appends how many copies were refused for a reason, or nothing.
#[tactic(auto, unfolding(crate::specs::Metrics::refused_sample))]
fn append_refused_sample(
    refused: Refused,
    reason: Refusal,
    out: &mut Vec<u8>,
) -> Result<(), AllocError>
    ensures ok { OnOk result (out.new.items ≡ out.old.items ++ refused_sample refused reason) }
    ensures err { OnErr result (out.new.items ≡ out.old.items) }
{
    let mut digits = Buffer::new();
    let value = digits.format(count_for(refused, reason)).as_bytes();
    append_parts(
        &[
            b"post_house_copies_refused_total{reason=\"".as_slice(),
            reason_words(reason),
            b"\"} ".as_slice(),
            value,
            b"\n".as_slice(),
        ],
        out,
    )
}

// Appends a sample for each of these reasons, or a part of them.
fn append_refused_samples(
    refused: Refused,
    order: &[Refusal],
    out: &mut Vec<u8>,
) -> Result<(), AllocError>
    ensures ok { OnOk result (out.new.items
        ≡ out.old.items ++ flat_map (refused_sample refused) order.now) }
    ensures err { OnErr result (StartsWith out.new.items out.old.items) }
{
    for reason in order {
        append_refused_sample(refused, *reason, out)?;
    }
    Ok(())
}

// Appends the family of the copies that were refused, or a part of it.
#[tactic(auto, unfolding(crate::specs::Metrics::refused_family))]
fn append_refused(refused: Refused, out: &mut Vec<u8>) -> Result<(), AllocError>
    ensures ok { OnOk result (out.new.items ≡ out.old.items ++ refused_family refused) }
    ensures err { OnErr result (StartsWith out.new.items out.old.items) }
{
    append_family_lines(Family::Refused, out)?;
    append_refused_samples(refused, &REASONS, out)?;
    Ok(())
}

// Appends the name of a gauge and what tells the mailbox apart, or a part of it.
#[tactic(auto, unfolding(crate::specs::Metrics::labelled))]
fn append_labelled(of: Gauge, row: &MailboxRow<'_>, out: &mut Vec<u8>) -> Result<(), AllocError>
    ensures ok { OnOk result (out.new.items ≡ out.old.items ++ labelled of row.now) }
    ensures err { OnErr result (StartsWith out.new.items out.old.items) }
{
    append_parts(
        &[
            b"post_house_".as_slice(),
            gauge_name(of),
            b"{mailbox=\"".as_slice(),
        ],
        out,
    )?;
    append_mailbox(Spelling::Label, row, out)?;
    Ok(())
}

// Appends a sample of a mailbox, or a part of it.
#[tactic(auto, unfolding(crate::specs::Metrics::mailbox_sample))]
fn append_mailbox_sample(
    of: Gauge,
    row: &MailboxRow<'_>,
    out: &mut Vec<u8>,
) -> Result<(), AllocError>
    ensures ok { OnOk result (out.new.items ≡ out.old.items ++ mailbox_sample of row.now) }
    ensures err { OnErr result (StartsWith out.new.items out.old.items) }
{
    let mut digits = Buffer::new();
    let value = digits.format(gauge_value(row.figures, of)).as_bytes();
    append_labelled(of, row, out)?;
    append_parts(&[b"\"} ".as_slice(), value, b"\n".as_slice()], out)?;
    Ok(())
}

// Appends a sample for each mailbox, or a part of them.
fn append_mailbox_samples(
    of: Gauge,
    rows: &[MailboxRow<'_>],
    out: &mut Vec<u8>,
) -> Result<(), AllocError>
    ensures ok { OnOk result (out.new.items
        ≡ out.old.items ++ flat_map (mailbox_sample of) rows.now) }
    ensures err { OnErr result (StartsWith out.new.items out.old.items) }
{
    for row in rows {
        append_mailbox_sample(of, row, out)?;
    }
    Ok(())
}

// Appends the family of a gauge, or a part of it.
#[tactic(auto, unfolding(crate::specs::Metrics::mailbox_family))]
fn append_mailbox_family(
    of: Gauge,
    rows: &[MailboxRow<'_>],
    out: &mut Vec<u8>,
) -> Result<(), AllocError>
    ensures ok { OnOk result (out.new.items ≡ out.old.items ++ mailbox_family rows.now of) }
    ensures err { OnErr result (StartsWith out.new.items out.old.items) }
{
    append_family_lines(Family::Mailbox(of), out)?;
    append_mailbox_samples(of, rows, out)?;
    Ok(())
}

// Appends what is counted of copies, or a part of it.
#[tactic(auto, unfolding(crate::specs::Metrics::of_copies))]
fn append_of_copies(counts: &Counts, out: &mut Vec<u8>) -> Result<(), AllocError>
    ensures ok { OnOk result (out.new.items ≡ out.old.items ++ of_copies counts.now) }
    ensures err { OnErr result (StartsWith out.new.items out.old.items) }
{
    append_single(Family::Messages, counts.messages, out)?;
    append_single(Family::Stored, counts.stored, out)?;
    append_refused(counts.refused, out)?;
    Ok(())
}

// Appends what is counted of peers and of the log, or a part of it.
#[tactic(auto, unfolding(crate::specs::Metrics::of_peers))]
fn append_of_peers(counts: &Counts, out: &mut Vec<u8>) -> Result<(), AllocError>
    ensures ok { OnOk result (out.new.items ≡ out.old.items ++ of_peers counts.now) }
    ensures err { OnErr result (StartsWith out.new.items out.old.items) }
{
    append_single(Family::Connections, counts.connections, out)?;
    append_single(Family::Sessions, counts.sessions, out)?;
    append_single(Family::Lost, counts.lost, out)?;
    Ok(())
}

// Appends how many peers there are now, or a part of it.
#[tactic(auto, unfolding(crate::specs::Metrics::of_now))]
fn append_of_now(snapshot: &Snapshot<'_>, out: &mut Vec<u8>) -> Result<(), AllocError>
    ensures ok { OnOk result (out.new.items ≡ out.old.items ++ of_now snapshot.now) }
    ensures err { OnErr result (StartsWith out.new.items out.old.items) }
{
    let connections = snapshot.connections.len() as u64;
    let sessions = snapshot.sessions.len() as u64;
    append_single(Family::OpenConnections, connections, out)?;
    append_single(Family::OpenSessions, sessions, out)?;
    Ok(())
}

// Appends how many messages each mailbox has, or a part of it.
#[tactic(auto, unfolding(crate::specs::Metrics::of_messages))]
fn append_of_messages(rows: &[MailboxRow<'_>], out: &mut Vec<u8>) -> Result<(), AllocError>
    ensures ok { OnOk result (out.new.items ≡ out.old.items ++ of_messages rows.now) }
    ensures err { OnErr result (StartsWith out.new.items out.old.items) }
{
    append_mailbox_family(Gauge::Messages, rows, out)?;
    append_mailbox_family(Gauge::Unseen, rows, out)?;
    Ok(())
}

// Appends how large each mailbox is, or a part of it.
#[tactic(auto, unfolding(crate::specs::Metrics::of_sizes))]
fn append_of_sizes(rows: &[MailboxRow<'_>], out: &mut Vec<u8>) -> Result<(), AllocError>
    ensures ok { OnOk result (out.new.items ≡ out.old.items ++ of_sizes rows.now) }
    ensures err { OnErr result (StartsWith out.new.items out.old.items) }
{
    append_mailbox_family(Gauge::Bytes, rows, out)?;
    append_mailbox_family(Gauge::UidNext, rows, out)?;
    Ok(())
}

// Appends all that is no mailbox, or a part of it.
#[tactic(auto, unfolding(crate::specs::Metrics::of_counts))]
fn append_of_counts(snapshot: &Snapshot<'_>, out: &mut Vec<u8>) -> Result<(), AllocError>
    ensures ok { OnOk result (out.new.items ≡ out.old.items ++ of_counts snapshot.now) }
    ensures err { OnErr result (StartsWith out.new.items out.old.items) }
{
    append_of_copies(&snapshot.counts, out)?;
    append_of_peers(&snapshot.counts, out)?;
    append_of_now(snapshot, out)?;
    Ok(())
}

// Appends all families, or a part of them.
#[tactic(auto, unfolding(crate::specs::Metrics::metrics_text))]
fn append_metrics(snapshot: &Snapshot<'_>, out: &mut Vec<u8>) -> Result<(), AllocError>
    ensures ok { OnOk result (out.new.items ≡ out.old.items ++ metrics_text snapshot.now) }
    ensures err { OnErr result (StartsWith out.new.items out.old.items) }
{
    append_of_counts(snapshot, out)?;
    append_of_messages(snapshot.mailboxes, out)?;
    append_of_sizes(snapshot.mailboxes, out)?;
    Ok(())
}

/// Appends the figures as a monitor reads them (Prometheus, text format 0.0.4).
///
/// Errors: `AllocError` where memory is refused; then `out` is as it was.
pub fn write_metrics(snapshot: &Snapshot<'_>, out: &mut Vec<u8>) -> Result<(), AllocError>
    // The text is `metrics_text`, byte by byte. An error writes nothing.
    ensures ok { OnOk result (out.new.items ≡ out.old.items ++ metrics_text snapshot.now) }
    ensures err { OnErr result (out.new.items ≡ out.old.items) }
{
    let before = out.len();
    let Ok(()) = append_metrics(snapshot, out) else {
        out.truncate(before);
        return Err(AllocError);
    };
    Ok(())
}
