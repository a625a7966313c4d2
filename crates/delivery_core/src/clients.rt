//! What a session does in the mailbox that it enters: each call is one event of the world. Lanes and
//! verdicts are told in `steps`.

ghost use Rattle.std.specs.Prelude.{◌≡◌, ◌≢◌, ℕ, ◌+◌, ◌-◌, ◌^◌, ◌<◌, ◌≤◌, ◌⊎◌, ◌↔◌, [], length, Err, Some, None, IfErr, IfOk, IfSome, OnErr, OnOk, IsErr, IsSome, min, option_map, slice_index_or, take, true, vec_capacity, vec_len};
ghost use Rattle.std.specs.List.Sorted.{IsStrictlyIncreasing};
ghost use Rattle.change_ring.specs.Log.{rows_of, view_at, total, flags_logged, removals, seen_logged};
ghost use Rattle.mailbox.specs.Events.{in_set};
ghost use Rattle.mailbox.specs.Mailbox.{Mailbox, SameMailbox};
ghost use Rattle.world.specs.World.{Config, World, Expunge, Feed, Leave, Read, Selected, Store, pending};
ghost use Rattle.delivery_core.specs.Changes.{SameCounts, SameDelivery};
ghost use Rattle.delivery_core.specs.Clients.{Alters, Does, Enters, Expunges, Feeds, IsStatus, Leaves, Makes, Reads, Removes, Sees};
ghost use Rattle.delivery_core.specs.DeliveryCore.{behind, client_of, pending_for, view_of};
ghost use Rattle.delivery_core.specs.Stands.{StandsFor};

use crate::client::Client;
use crate::steps::DeliveryCore;
use change_ring::{FlagOp, Flags, View};
use mailbox::{MailFault, Mailbox, Opening, Row, Status, answer_of};

// How many changes a mailbox has logged.
fn total(mailbox: &Mailbox) -> u128
    ensures { result ≡ total mailbox.now.window }
{
    let (base, first, rest) = mailbox.tail();
    u128::from(base) + first.len() as u128 + rest.len() as u128
}

impl DeliveryCore {
    /// A session is shown its next changes, at most `limit`: a line for each behind `out` (RFC 9051,
    /// 7.4 and 7.5), and it is told how many. Stranger where it has entered no mailbox, else Lapped
    /// where the next change was overwritten, else NoMemory; nothing is then changed. Room for `spare`
    /// more bytes behind what `out` says, where it stood there, stands there still.
    pub fn feed(
        &mut self,
        session: u8,
        limit: usize,
        spare: usize,
        out: &mut Vec<u8>,
    ) -> Result<usize, MailFault>
        // Stranger exactly where no mailbox is entered; Spent never; NoMemory only where there is something to show.
        ensures stranger { (result ≡ Err MailFault.Stranger) ↔ (client_of self.old session ≡ None) }
        ensures spent { result ≢ Err MailFault.Spent }
        ensures memory { result ≡ Err MailFault.NoMemory
            → 0 < length (take limit (pending_for self.old session)) }

        // With a mailbox entered: from each world for which it stood, the event leads to one for which it stands, and the answer is true.
        ensures event { IsSome (client_of self.old session) → (k : Config) →
            Does k self.old (Feed session limit) session
            (Feeds limit out.old.items out.new.items result) self.new }
        // After Ok: for each world for which it stood it stands for one where the session was shown these changes, and nothing else changed.
        ensures done { OnOk result ((k : Config)
            → Makes k self.old session (λ b s. take limit (pending b s)) (λ b. []) self.new) }
        // The lines of these changes go behind `out`, and the session counts the UIDs that they leave.
        ensures shown { IfOk result (λ n.
            Sees self.old self.new session (take n (pending_for self.old session)) out.old.items
            out.new.items) }
        // The answer is how many, `limit` or, where that is less, all that it was behind; it is behind by as many less.
        ensures count { IfOk result (λ n. (n ≤ limit)
            × (length (take n (pending_for self.old session)) ≡ n)) }
        ensures less { IfOk result (λ n. (n ≡ min limit (behind self.old session))
            × (behind self.new session + n ≡ behind self.old session)) }

        // Nothing between seats and mailboxes has changed, no mailbox has other settings, and there are as many of each.
        ensures rest { SameDelivery self.old self.new }
        ensures same { OnOk result ((m : ℕ) (d : Mailbox)
            → SameMailbox (slice_index_or self.old.boxes m d) (slice_index_or self.new.boxes m d)) }
        ensures counts { SameCounts self.old self.new }
        // `out` keeps its room or has more.
        ensures room { vec_capacity out.old ≤ vec_capacity out.new }
        // Where room for `spare` more bytes stood behind `out`, it stands there still.
        ensures spare { vec_len out.old + spare ≤ vec_capacity out.old
            → vec_len out.new + spare ≤ vec_capacity out.new }

        // After an error nothing has changed, nor was anything written.
        ensures refused { OnErr result ((self.new ≡ self.old) × (out.new.items ≡ out.old.items)) }
    {
        let place = usize::from(session);
        if place >= self.clients.len() {
            return Err(MailFault::Stranger);
        }
        let Some(mut client) = self.clients[place].take() else {
            return Err(MailFault::Stranger);
        };
        let mailbox = &mut self.boxes[usize::from(client.mailbox)];
        let fed = mailbox.feed(&mut client.handle, limit, spare, out);
        self.clients[place] = Some(client);
        answer_of(fed)
    }

    /// A session reads the message of a UID of its mailbox, with a copy of its text; where
    /// `mark_seen`, it has \Seen from now on (RFC 9051, 6.4.5). None where no message has the UID.
    /// Stranger where it has entered no mailbox, else Lapped, Spent or NoMemory, in this order;
    /// nothing is then changed.
    pub fn read(&mut self, session: u8, uid: u32, mark_seen: bool) -> Result<Option<Row>, MailFault>
        // Stranger exactly where no mailbox is entered.
        ensures stranger { (result ≡ Err MailFault.Stranger) ↔ (client_of self.old session ≡ None) }
        // No session is shown anything: clients and view stay.
        ensures clients { self.new.clients ≡ self.old.clients }
        ensures view { view_of self.new session ≡ view_of self.old session }

        // With a mailbox entered: from each world for which it stood, the event leads to one for which it stands, and the answer is true.
        ensures event { IsSome (client_of self.old session) → (k : Config) →
            Does k self.old (Read session uid mark_seen) session (Reads mark_seen uid result)
            self.new }
        // After Ok: for each world for which it stood it stands for one where at most \Seen was logged, if asked for, and nothing else changed.
        ensures done { OnOk result ((k : Config)
            → Makes k self.old session (λ b s. []) (λ b.
            seen_logged mark_seen (rows_of b.log) uid) self.new) }

        // Nothing between seats and mailboxes has changed, no mailbox has other settings, and there are as many of each.
        ensures rest { SameDelivery self.old self.new }
        ensures same { OnOk result ((m : ℕ) (d : Mailbox)
            → SameMailbox (slice_index_or self.old.boxes m d) (slice_index_or self.new.boxes m d)) }
        ensures counts { SameCounts self.old self.new }

        // After an error nothing has changed.
        ensures refused { OnErr result (self.new ≡ self.old) }
    {
        let place = usize::from(session);
        if place >= self.clients.len() {
            return Err(MailFault::Stranger);
        }
        let Some(client) = &self.clients[place] else {
            return Err(MailFault::Stranger);
        };
        let mailbox = &mut self.boxes[usize::from(client.mailbox)];
        mailbox.read(&client.handle, uid, mark_seen)
    }

    /// A session changes the flags of the message of a UID of its mailbox (RFC 9051, 6.4.6), and is
    /// told them as they are then; None where no message has the UID. Stranger where it has entered
    /// no mailbox, else Lapped or Spent, in this order; nothing is then changed.
    pub fn store(&mut self, session: u8, uid: u32, op: FlagOp) -> Result<Option<Flags>, MailFault>
        // Stranger exactly where no mailbox is entered; NoMemory never.
        ensures stranger { (result ≡ Err MailFault.Stranger) ↔ (client_of self.old session ≡ None) }
        ensures memory { result ≢ Err MailFault.NoMemory }

        // With a mailbox entered: from each world for which it stood, the event leads to one for which it stands, and the answer is true.
        ensures event { IsSome (client_of self.old session) → (k : Config) →
            Does k self.old (Store session uid op) session (Alters uid op result) self.new }
        // After Ok: for each world for which it stood it stands for one where the flags are logged, if they are others, and nothing else changed.
        ensures done { OnOk result ((k : Config)
            → Makes k self.old session (λ b s. []) (λ b.
            flags_logged (rows_of b.log) uid op) self.new) }

        // No session is shown anything: clients and view stay.
        ensures clients { self.new.clients ≡ self.old.clients }
        ensures view { view_of self.new session ≡ view_of self.old session }
        // Nothing between seats and mailboxes has changed, no mailbox has other settings, and there are as many of each.
        ensures rest { SameDelivery self.old self.new }
        ensures same { OnOk result ((m : ℕ) (d : Mailbox)
            → SameMailbox (slice_index_or self.old.boxes m d) (slice_index_or self.new.boxes m d)) }
        ensures counts { SameCounts self.old self.new }

        // After an error nothing has changed.
        ensures refused { OnErr result (self.new ≡ self.old) }
    {
        let place = usize::from(session);
        if place >= self.clients.len() {
            return Err(MailFault::Stranger);
        }
        let Some(client) = &self.clients[place] else {
            return Err(MailFault::Stranger);
        };
        let mailbox = &mut self.boxes[usize::from(client.mailbox)];
        mailbox.store(&client.handle, uid, op)
    }

    /// A session is shown all that is pending, and then the messages of its mailbox with \Deleted are
    /// removed, of these UIDs where some are named (RFC 9051, 6.4.3 and 6.4.9): it is told how many
    /// went. Stranger where it has entered no mailbox, else Lapped, Spent or NoMemory, in this order;
    /// nothing is then changed. Room for `spare` more bytes behind what `out` says, where it stood
    /// there, stands there still.
    pub fn expunge(
        &mut self,
        session: u8,
        uids: Option<&[u32]>,
        spare: usize,
        out: &mut Vec<u8>,
    ) -> Result<usize, MailFault>
        // Stranger exactly where no mailbox is entered; NoMemory only where something is pending.
        ensures stranger { (result ≡ Err MailFault.Stranger) ↔ (client_of self.old session ≡ None) }
        ensures memory { result ≡ Err MailFault.NoMemory
            → 0 < length (pending_for self.old session) }

        // With a mailbox entered: from each world for which it stood, the event leads to one for which it stands, and the answer is true.
        ensures event { IsSome (client_of self.old session) → (k : Config) →
            Does k self.old (Expunge session (in_set (option_map (λ uids.
            uids.now) uids.entry))) session
            (Expunges (in_set (option_map (λ uids.
            uids.now) uids.entry)) out.old.items out.new.items result) self.new }
        // After Ok: for each world for which it stood it stands for one where all pending was shown and what goes logged, and nothing else changed.
        ensures done { OnOk result ((k : Config)
            → Makes k self.old session (λ b s. pending b s) (λ b.
            removals (in_set (option_map (λ uids.
            uids.now) uids.entry)) (rows_of b.log)) self.new) }
        // The lines of all that was pending go behind `out`, and the session counts the UIDs that they leave.
        ensures shown { OnOk result
            (Sees self.old self.new session (pending_for self.old session) out.old.items
            out.new.items) }

        // Nothing between seats and mailboxes has changed, no mailbox has other settings, and there are as many of each.
        ensures rest { SameDelivery self.old self.new }
        ensures same { OnOk result ((m : ℕ) (d : Mailbox)
            → SameMailbox (slice_index_or self.old.boxes m d) (slice_index_or self.new.boxes m d)) }
        ensures counts { SameCounts self.old self.new }
        // `out` keeps its room or has more.
        ensures room { vec_capacity out.old ≤ vec_capacity out.new }
        // Where room for `spare` more bytes stood behind `out`, it stands there still.
        ensures spare { vec_len out.old + spare ≤ vec_capacity out.old
            → vec_len out.new + spare ≤ vec_capacity out.new }

        // After an error nothing has changed, nor was anything written.
        ensures refused { OnErr result ((self.new ≡ self.old) × (out.new.items ≡ out.old.items)) }
    {
        let place = usize::from(session);
        if place >= self.clients.len() {
            return Err(MailFault::Stranger);
        }
        let Some(mut client) = self.clients[place].take() else {
            return Err(MailFault::Stranger);
        };
        let mailbox = &mut self.boxes[usize::from(client.mailbox)];
        let gone = mailbox.expunge(&mut client.handle, uids, spare, out);
        self.clients[place] = Some(client);
        gone
    }

    /// A session enters a mailbox, at the end of its log: it counts the messages that are there, and
    /// is to be shown what happens from now on (RFC 9051, 6.3.2). Stranger where there is no such
    /// session or mailbox, or the session has entered one already; else Spent where the mailbox has
    /// no serial left for a cursor, else NoMemory; nothing is then changed.
    pub fn enter(&mut self, session: u8, mailbox: u8) -> Result<Opening, MailFault>
        // Stranger exactly where there is no such session or mailbox, or the session has entered one already; Lapped never.
        ensures stranger { (result ≡ Err MailFault.Stranger)
            ↔ ((length self.old.clients ≤ session) ⊎
            (IsSome (client_of self.old session) ⊎ (length self.old.boxes ≤ mailbox))) }
        ensures lapsed { result ≢ Err MailFault.Lapped }
        // Spent only where the mailbox has no serial left for a cursor.
        ensures spent { result ≡ Err MailFault.Spent → (d : Mailbox)
            → 2 ^ 64 - 1 ≤ (slice_index_or self.old.boxes mailbox d).cursors.next }

        // Unless Stranger: from each world for which it stood, the event leads to one for which it stands, and the answer is true.
        ensures event { result ≢ Err MailFault.Stranger → (k : Config)
            → Enters k self.old session mailbox result self.new }
        // The session is in this mailbox now, and is told its UIDVALIDITY.
        ensures entered { OnOk result (option_map (λ client.
            client.mailbox) (client_of self.new session) ≡ Some mailbox) }
        ensures validity { IfOk result (λ opening. (d : Mailbox)
            → opening.uidvalidity ≡ (slice_index_or self.old.boxes mailbox d).uidvalidity) }

        // Nothing between seats and mailboxes has changed, no mailbox has other settings, and there are as many of each.
        ensures rest { SameDelivery self.old self.new }
        ensures same { OnOk result ((m : ℕ) (d : Mailbox)
            → SameMailbox (slice_index_or self.old.boxes m d) (slice_index_or self.new.boxes m d)) }
        ensures counts { SameCounts self.old self.new }

        // After an error nothing has changed.
        ensures refused { OnErr result (self.new ≡ self.old) }
    {
        let place = usize::from(session);
        if place >= self.clients.len() {
            return Err(MailFault::Stranger);
        }
        if self.clients[place].is_some() {
            return Err(MailFault::Stranger);
        }
        let number = usize::from(mailbox);
        if number >= self.boxes.len() {
            return Err(MailFault::Stranger);
        }
        if !self.boxes[number].can_open() {
            return Err(MailFault::Spent);
        }
        let (handle, opening) = self.boxes[number].open_cursor()?;
        self.clients[place] = Some(Client { mailbox, handle });
        Ok(opening)
    }

    /// A session leaves its mailbox; where `remove`, every message with \Deleted goes with it (RFC
    /// 9051, 6.4.1 and 6.4.2): it is told how many went. Stranger where it has entered no mailbox,
    /// else Spent where the log has no room for the removals; nothing is then changed.
    pub fn leave(&mut self, session: u8, remove: bool) -> Result<usize, MailFault>
        // Stranger exactly where no mailbox is entered; the only other fault is Spent.
        ensures stranger { (result ≡ Err MailFault.Stranger) ↔ (client_of self.old session ≡ None) }
        ensures faults { IfErr result (λ fault. (fault ≡ MailFault.Stranger)
            ⊎ (fault ≡ MailFault.Spent)) }

        // With a mailbox entered: from each world for which it stood, the event leads to one for which it stands, and the answer is true.
        ensures event { IsSome (client_of self.old session) → (k : Config) →
            Does k self.old (Leave session remove) session (Leaves remove result) self.new }
        // The session is in no mailbox now.
        ensures gone { OnOk result (client_of self.new session ≡ None) }

        // Nothing between seats and mailboxes has changed, no mailbox has other settings, and there are as many of each.
        ensures rest { SameDelivery self.old self.new }
        ensures same { OnOk result ((m : ℕ) (d : Mailbox)
            → SameMailbox (slice_index_or self.old.boxes m d) (slice_index_or self.new.boxes m d)) }
        ensures counts { SameCounts self.old self.new }

        // After an error nothing has changed.
        ensures refused { OnErr result (self.new ≡ self.old) }
    {
        let place = usize::from(session);
        if place >= self.clients.len() {
            return Err(MailFault::Stranger);
        }
        let Some(client) = self.clients[place].take() else {
            return Err(MailFault::Stranger);
        };
        let number = client.mailbox;
        let mailbox = &mut self.boxes[usize::from(number)];
        let (handle, fault) = match mailbox.close_cursor(client.handle, remove) {
            Ok(count) => return Ok(count),
            Err(refused) => refused,
        };
        self.clients[place] = Some(Client {
            mailbox: number,
            handle,
        });
        Err(fault)
    }

    /// The UIDs that a session was shown of its mailbox, in their order, which rise, also where it fell behind
    /// the window. It takes no memory.
    /// Stranger where it has entered no mailbox.
    pub fn view(&self, session: u8) -> Result<View<'_>, MailFault>
        // Stranger exactly where no mailbox is entered; there is no other fault.
        ensures stranger { IsErr result ↔ (client_of self.now session ≡ None) }
        ensures faults { IfErr result (λ fault. fault ≡ MailFault.Stranger) }
        // The view is what the session counts, and its UIDs rise.
        ensures shown { IfOk result (λ view. view ≡ view_of self.now session) }
        ensures rising { IfOk result (λ view. IsStrictlyIncreasing view) }
        // In each world for which it stands, that is what the changes leave that the session was shown of its mailbox's log.
        ensures log { IfOk result (λ view. (k : Config) (w : World) → StandsFor k self.now w →
            Selected w session (λ s. view ≡ view_at (w.box s.mailbox).log s.cursor)) }
    {
        let place = usize::from(session);
        if place >= self.clients.len() {
            return Err(MailFault::Stranger);
        }
        let Some(client) = &self.clients[place] else {
            return Err(MailFault::Stranger);
        };
        Ok(self.boxes[usize::from(client.mailbox)].view(&client.handle)?)
    }

    /// Whether a session entered a mailbox and was shown all that is in its log: then a feed has nothing
    /// to show it. It takes no memory.
    pub fn is_up_to_date(&self, session: u8) -> bool
        ensures counted { (result ≡ true)
            ↔ (IsSome (client_of self.now session) × (behind self.now session ≡ 0)) }
        ensures log { result ≡ true → (k : Config) (w : World) → StandsFor k self.now w →
            Selected w session (λ s. ((w.box s.mailbox).base ≤ s.cursor)
            × (pending (w.box s.mailbox) s ≡ [])) }
    {
        let place = usize::from(session);
        if place >= self.clients.len() {
            return false;
        }
        let Some(client) = &self.clients[place] else {
            return false;
        };
        total(&self.boxes[usize::from(client.mailbox)]) <= u128::from(client.handle.at())
    }

    /// What STATUS tells of a mailbox (RFC 9051, 6.3.11). None where it is not there.
    pub fn status(&self, mailbox: u8) -> Option<Status>
        // None exactly where the mailbox is not there.
        ensures there { IsSome result ↔ (mailbox < length self.now.boxes) }
        // In each world for which it stands, the counts are those of its log, and the size is that of the texts as they were accepted.
        ensures status { IfSome result (λ status. (k : Config) (w : World) → StandsFor k self.now w
            → IsStatus k (w.box mailbox) status) }
        // The UIDVALIDITY is the mailbox's.
        ensures validity { IfSome result (λ status. (d : Mailbox)
            → status.uidvalidity ≡ (slice_index_or self.now.boxes mailbox d).uidvalidity) }
    {
        let number = usize::from(mailbox);
        if number >= self.boxes.len() {
            return None;
        }
        Some(self.boxes[number].status())
    }

    /// Removes the messages of these UIDs from a mailbox, whatever their flags, whether a session entered
    /// it or not (RFC 9051, 6.4.7 and 6.4.8). UIDs that no message has are passed over. Stranger where there
    /// is no such mailbox, else Spent where the log has no room for the removals; nothing is then changed.
    /// It takes no memory.
    pub fn discard(&mut self, mailbox: u8, uids: &[u32]) -> Result<(), MailFault>
        // Stranger exactly where there is no such mailbox; the only other fault is Spent.
        ensures stranger { (result ≡ Err MailFault.Stranger) ↔ (length self.old.boxes ≤ mailbox) }
        ensures faults { IfErr result (λ fault. (fault ≡ MailFault.Stranger)
            ⊎ (fault ≡ MailFault.Spent)) }

        // Unless Stranger: from each world for which it stood, the event leads to one for which it stands. After Ok what goes is logged there
        // and nothing else changed; after Spent there is no room for it.
        ensures event { result ≢ Err MailFault.Stranger → (k : Config)
            → Removes k self.old mailbox (in_set (Some uids.now)) result self.new }

        // No session is shown anything: clients and views stay.
        ensures clients { self.new.clients ≡ self.old.clients }
        ensures views { (session : ℕ) → view_of self.new session ≡ view_of self.old session }
        // Nothing between seats and mailboxes has changed, no mailbox has other settings, and there are as many of each.
        ensures rest { SameDelivery self.old self.new }
        ensures same { OnOk result ((m : ℕ) (d : Mailbox)
            → SameMailbox (slice_index_or self.old.boxes m d) (slice_index_or self.new.boxes m d)) }
        ensures counts { SameCounts self.old self.new }

        // After an error nothing has changed.
        ensures refused { OnErr result (self.new ≡ self.old) }
    {
        let number = usize::from(mailbox);
        if number >= self.boxes.len() {
            return Err(MailFault::Stranger);
        }
        self.boxes[number].discard(uids)
    }
}
