//! The calls, on a mailbox that is held: each makes one call of the mailbox, and asks before and
//! behind it for what every mailbox keeps.

ghost use Rattle.std.specs.Prelude.{◌≡◌, ◌≢◌, ◌+◌, ◌≤◌, Ok, Err, IfErr, IfOk, OnErr, vec_len};
ghost use Rattle.std.specs.List.Sorted.{IsStrictlyIncreasing};
ghost use Rattle.std.specs.Option.{option_copied};
ghost use Rattle.std.specs.Vec.{vec_capacity};
ghost use Rattle.workers_sync.specs.Holds.{Counts, DoesAlter, DoesDeliver, DoesDiscard, DoesEnter, DoesExpunge, DoesFeed, DoesLeave, DoesLook, DoesRead};

use change_ring::{FlagOp, Flags, View};
use cursor_set::{CursorHandle, FeedFault, Stranger};
use delivery_token::{Job, Refusal};
use mailbox::{MailFault, Mailbox, Opening, Receipt, Row, Status, answer_of, every_mailbox_keeps};

/// Delivers a copy: its message is added under the next UID, with the copy's flags (RFC 9051,
/// 2.3.1.1 and 6.3.12), which is one event, of one change or, where it has a flag, of two. This copy
/// alone is added to those that were accepted, and no client's cursor changes: clients are shown the
/// message later.
///
/// Refused, in this order, as UidSpent where the next UID would be 4,294,967,295 or the log, of
/// 2^62 changes at most, has no room for all of them, as MailboxFull where as many messages are
/// there as may be, and as NoMemory where memory is refused; never as Full, nor as Shut. The mailbox is then
/// unchanged.
pub fn deliver(mailbox: &mut Mailbox, job: &Job) -> Result<Receipt, Refusal>
    ensures { DoesDeliver mailbox.old job.now result mailbox.new }
{
    every_mailbox_keeps(mailbox);
    let delivered = mailbox.deliver(job);
    every_mailbox_keeps(mailbox);
    delivered
}

/// Opens a handle for a client at the end of the log, and answers it with what the mailbox has (RFC
/// 9051, 6.3.2): the client counts the messages that are there.
///
/// Spent where no serial is left for a handle, else NoMemory where memory is refused; the mailbox is
/// then unchanged.
pub fn enter(mailbox: &mut Mailbox) -> Result<(CursorHandle, Opening), MailFault>
    ensures { DoesEnter mailbox.old result mailbox.new }
{
    every_mailbox_keeps(mailbox);
    if !mailbox.can_open() {
        return Err(MailFault::Spent);
    }
    let entered = mailbox.open_cursor()?;
    every_mailbox_keeps(mailbox);
    Ok(entered)
}

/// The UIDs that a client counts, in their order, which rise; it is no event, and takes no memory.
///
/// Stranger where the handle has no cursor here.
pub fn view<'a>(mailbox: &'a Mailbox, handle: &CursorHandle) -> Result<View<'a>, Stranger>
    // The mailbox keeps what every mailbox keeps, and the view is what the handle's client counts; its UIDs rise.
    ensures looks { IfOk result (λ view. DoesLook mailbox.now handle.now (Ok view)) }
    ensures rising { IfOk result (λ view. IsStrictlyIncreasing view) }
    // After an error the handle has no cursor here.
    ensures stranger { OnErr result (DoesLook mailbox.now handle.now (Err MailFault.Stranger)) }
{
    every_mailbox_keeps(mailbox);
    mailbox.view(handle)
}

/// What STATUS tells of the mailbox (RFC 9051, 6.3.11); it is no event, and takes no memory.
pub fn count(mailbox: &Mailbox) -> Status
    ensures { Counts mailbox.now result }
{
    every_mailbox_keeps(mailbox);
    mailbox.status()
}

/// Reads the message of a UID, with a copy of its text; where `mark_seen`, it has \Seen from now on
/// (RFC 9051, 6.4.5). None where no message has the UID.
///
/// Stranger where the handle has no cursor here; else Lapped where the change that the client is to
/// be shown next was overwritten; else Spent where the log has no room for the \Seen that is to be
/// logged; else NoMemory where the copy is refused. The mailbox is then unchanged.
pub fn read(
    mailbox: &mut Mailbox,
    handle: &CursorHandle,
    uid: u32,
    mark_seen: bool,
) -> Result<Option<Row>, MailFault>
    ensures { DoesRead mailbox.old handle.now uid mark_seen result mailbox.new }
{
    every_mailbox_keeps(mailbox);
    let row = mailbox.read(handle, uid, mark_seen);
    every_mailbox_keeps(mailbox);
    row
}

/// Changes the flags of the message of a UID (RFC 9051, 6.4.6), and answers them as they are then.
/// None where no message has the UID.
///
/// Stranger where the handle has no cursor here; else Lapped where the change that the client is to
/// be shown next was overwritten; else Spent where the log has no room for the change of flags. The
/// mailbox is then unchanged. It takes no memory.
pub fn alter(
    mailbox: &mut Mailbox,
    handle: &CursorHandle,
    uid: u32,
    op: FlagOp,
) -> Result<Option<Flags>, MailFault>
    ensures { DoesAlter mailbox.old handle.now uid op result mailbox.new }
{
    every_mailbox_keeps(mailbox);
    let flags = mailbox.store(handle, uid, op);
    every_mailbox_keeps(mailbox);
    flags
}

/// Shows a client its next changes, at most `limit`: a line for each behind `out` (RFC 9051, 7.4
/// and 7.5), and answers how many. Nothing is logged, and the handle goes on by as many.
///
/// Stranger where the handle has no cursor here; else Lapped where the next change was overwritten;
/// else NoMemory where memory is refused, which is wanted only where there is something to show;
/// never Spent. The mailbox, the handle and what `out` says are then unchanged. Room for `spare` more
/// bytes behind what `out` says, where it stood there, stands there still.
pub fn feed(
    mailbox: &mut Mailbox,
    handle: &mut CursorHandle,
    limit: usize,
    spare: usize,
    out: &mut Vec<u8>,
) -> Result<usize, MailFault>
    // After Ok it is one event: the lines of the next changes are written, and the handle goes on by as many. Else nothing has changed.
    ensures event { DoesFeed mailbox.old handle.old limit out.old.items out.new.items result
        mailbox.new handle.new }
    // It shows no more than were asked for, and is never refused as Spent, since it logs nothing.
    ensures few { IfOk result (λ n. n ≤ limit) }
    ensures faults { IfErr result (λ f. f ≢ MailFault.Spent) }
    // `out` keeps its room or has more.
    ensures room { vec_capacity out.old ≤ vec_capacity out.new }
    // Where room for `spare` more bytes stood behind `out`, it stands there still.
    ensures spare { vec_len out.old + spare ≤ vec_capacity out.old
        → vec_len out.new + spare ≤ vec_capacity out.new }
{
    every_mailbox_keeps(mailbox);
    let fed = mailbox.feed(handle, limit, spare, out);
    every_mailbox_keeps(mailbox);
    answer_of(fed)
}

/// Shows a client all that is pending, as `feed` does, then removes the messages that have
/// \Deleted, of these UIDs where some are named (RFC 9051, 6.4.3 and 6.4.9), and answers how many
/// went. The client is shown later that these are gone.
///
/// Stranger where the handle has no cursor here; else Lapped where the next change was overwritten;
/// else Spent where the log has no room for the removals; else NoMemory where memory is refused,
/// which is wanted only where something is pending. The mailbox, the handle and what `out` says are
/// then unchanged. Room for `spare` more bytes behind what `out` says, where it stood there, stands
/// there still.
pub fn expunge(
    mailbox: &mut Mailbox,
    handle: &mut CursorHandle,
    uids: Option<&[u32]>,
    spare: usize,
    out: &mut Vec<u8>,
) -> Result<usize, MailFault>
    ensures event { DoesExpunge mailbox.old handle.old (option_copied uids.entry) out.old.items
        out.new.items result mailbox.new handle.new }
    ensures room { vec_capacity out.old ≤ vec_capacity out.new }
    // Where room for `spare` more bytes stood behind `out`, it stands there still.
    ensures spare { vec_len out.old + spare ≤ vec_capacity out.old
        → vec_len out.new + spare ≤ vec_capacity out.new }
{
    every_mailbox_keeps(mailbox);
    let gone = mailbox.expunge(handle, uids, spare, out);
    every_mailbox_keeps(mailbox);
    gone
}

/// Closes a client's handle; where `remove`, every message that has \Deleted goes with it (RFC 9051,
/// 6.4.1 and 6.4.2). Answers how many went. The client may have fallen behind.
///
/// Stranger where the handle has no cursor here, else Spent where the log has no room for the
/// removals; the handle is then handed back, and the mailbox unchanged. It takes no memory.
pub fn leave(
    mailbox: &mut Mailbox,
    handle: CursorHandle,
    remove: bool,
) -> Result<usize, (CursorHandle, MailFault)>
    ensures { DoesLeave mailbox.old handle remove result mailbox.new }
{
    every_mailbox_keeps(mailbox);
    let gone = mailbox.close_cursor(handle, remove);
    every_mailbox_keeps(mailbox);
    gone
}

/// Removes the messages of these UIDs, whatever their flags (RFC 6851, and RFC 9051, 6.4.8); UIDs that
/// no message has are passed over. No cursor is needed for it and none changes: clients are shown
/// later that these are gone.
///
/// Spent where the log has no room for the removals; the mailbox is then unchanged. It takes no
/// memory.
pub fn discard(mailbox: &mut Mailbox, uids: &[u32]) -> Result<(), MailFault>
    ensures { DoesDiscard mailbox.old uids.now result mailbox.new }
{
    every_mailbox_keeps(mailbox);
    let done = mailbox.discard(uids);
    every_mailbox_keeps(mailbox);
    done
}
