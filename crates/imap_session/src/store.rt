//! What a session asks of the mailboxes of its user: a call for each event of a mailbox, and the view.
//! Locks, rings and cursors are the store's matter.

ghost use Rattle.std.specs.Prelude.{◌≡◌, ◌≢◌, ◌≤◌, IfErr, ◌⊎◌, ◌+◌, vec_len};
ghost use Rattle.std.specs.Option.{option_copied};
ghost use Rattle.std.specs.Vec.{vec_capacity};
ghost use Rattle.imap_session.specs.Exchange.{Call, Enter, Look, Read, Count, Alter, Expunge, Feed, Leave, Discard, Answer, Entered, Found, Counted, Altered, Left};
ghost use Rattle.imap_session.specs.Store.{answer, Chooses, Discards, Feeds, Expunges};

use change_ring::{FlagOp, Flags};
use imap_grammar::{Named, SeqSet};
use mailbox::{MailFault, Opening, Row, Status};
use std::alloc::Global;

/// The mailboxes of one session, which may have entered one of them. Each call but `choose` is one event of
/// one mailbox, as that call finds it: others may change the mailbox between two calls.
///
/// Each may be refused with any `MailFault`, but for those that its clauses rule out; `out` is then as it was.
pub trait Store {
    // What a call may do: the store before it, the call, its answer and the store after it. A look at the view leaves the store as it is.
    ghost step: { Self → Call → Answer → Self → Type 0 };

    /// Enters the mailbox of this number, at the end of its log.
    fn enter(&mut self, mailbox: u8) -> Result<Opening, MailFault>
        ensures { step self.old (Enter mailbox) (answer Entered result) self.new };

    /// Looks at the view, the UIDs that the session was shown, and answers which of its messages a set names
    /// (RFC 9051, 9: sequence-set), in the view's order, with their positions. None where the set says a position that
    /// isn't there. It is no event.
    fn choose(
        &self,
        alloc: Global,
        set: &SeqSet<'_>,
        by_uid: bool,
    ) -> Result<Option<Vec<Named>>, MailFault>
        // It looked at a view, and answers which messages the set names there, or None for a position that isn't there.
        ensures event { Chooses (λ a.
            step self.now (Look by_uid set.now) a self.now) by_uid set.now result }
        ensures faults { IfErr result (λ f. (f ≡ MailFault.Stranger) ⊎ (f ≡ MailFault.NoMemory)) };

    /// Reads the message of a UID; where `mark_seen`, it has \Seen from now on. None where it isn't there.
    fn read(&mut self, uid: u32, mark_seen: bool) -> Result<Option<Row>, MailFault>
        ensures { step self.old (Read uid mark_seen) (answer Found result) self.new };

    /// Counts the mailbox of this number, as it is, whether the session entered it or not.
    fn status(&mut self, mailbox: u8) -> Result<Status, MailFault>
        ensures event { step self.old (Count mailbox) (answer Counted result) self.new }
        ensures faults { IfErr result (λ f. (f ≡ MailFault.Stranger) ⊎ (f ≡ MailFault.NoMemory)) };

    /// Changes the flags of the message of a UID, and answers them as they are then. None where it isn't there.
    fn store(&mut self, uid: u32, op: FlagOp) -> Result<Option<Flags>, MailFault>
        ensures { step self.old (Alter uid op) (answer Altered result) self.new };

    /// Shows all that is pending, then removes the messages that have \Deleted, of these UIDs where some are
    /// named. Answers how many went.
    fn expunge(
        &mut self,
        uids: Option<&[u32]>,
        spare: usize,
        out: &mut Vec<u8>,
    ) -> Result<usize, MailFault>
        // It met a view, showed changes behind `out` as they count there, and removed as many messages as it answers. A refusal writes nothing.
        ensures event { Expunges (λ a.
            step self.old (Expunge (option_copied uids.entry)) a self.new) out.old.items
            out.new.items result }

        // The room of `out` never becomes less.
        ensures room { vec_capacity out.old ≤ vec_capacity out.new }
        // Where room for `spare` more bytes stood behind `out`, it stands there still.
        ensures spare { vec_len out.old + spare ≤ vec_capacity out.old
            → vec_len out.new + spare ≤ vec_capacity out.new };

    /// Shows the changes that are pending, so many of them at most. Answers how many it showed.
    fn feed(&mut self, limit: usize, spare: usize, out: &mut Vec<u8>) -> Result<usize, MailFault>
        // It met a view and showed as many changes as it answers, `limit` at most, as they count there. A refusal writes nothing.
        ensures event { Feeds (λ a.
            step self.old (Feed limit) a self.new) limit out.old.items out.new.items result }

        // The room of `out` never becomes less.
        ensures room { vec_capacity out.old ≤ vec_capacity out.new }
        // Where room for `spare` more bytes stood behind `out`, it stands there still.
        ensures spare { vec_len out.old + spare ≤ vec_capacity out.old
            → vec_len out.new + spare ≤ vec_capacity out.new }
        ensures faults { IfErr result (λ f. f ≢ MailFault.Spent) };

    /// Leaves the mailbox, with its messages that have \Deleted removed or not. Answers how many went.
    fn leave(&mut self, remove: bool) -> Result<usize, MailFault>
        ensures { step self.old (Leave remove) (answer Left result) self.new };

    /// Removes the messages of these UIDs from the mailbox of this number, whatever their flags, whether the session
    /// entered it or not. UIDs that no message has are passed over. It shows nothing, and takes no memory.
    fn discard(&mut self, mailbox: u8, uids: &[u32]) -> Result<(), MailFault>
        ensures event { Discards (λ a. step self.old (Discard mailbox uids.now) a self.new) result }
        ensures faults { IfErr result (λ f. (f ≡ MailFault.Stranger) ⊎ (f ≡ MailFault.Spent)) };
}
