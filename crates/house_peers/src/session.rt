//! A session at its place: an IMAP connection, the bytes that came for it, and what it said and has not printed yet. It knows no mailbox: its
//! store does. Nor does it print: the house does, and tells it so.

ghost use Rattle.std.specs.Prelude.{◌≡◌, ◌<◌, ◌≤◌, true, false, length, None, OnOk, OnErr, IfOk};
ghost use Rattle.std.specs.Option.{is_some, option_map};
ghost use Rattle.imap_session.specs.Exchange.{Sent, is_idling};
ghost use Rattle.imap_session.specs.Store.{Follows, Starves, to_follow};
ghost use Rattle.imap_session.specs.Dialogue.{Asks};
ghost use Rattle.house_peers.specs.Visitor as spec;
ghost use Rattle.house_peers.specs.Visitor.{greeted};
ghost use Rattle.house_peers.specs.HouseSession.{Answered, AnsweredVerdict, HadTurn, StandsFor, Turned, with_all_said, with_more, with_nothing_left};

use delivery_token::Verdict;
use imap_session::{Admission, Append, Folder, ImapConnection, Selected, SessionFault, Store};
use line_io::Incoming;
use std::alloc::{AllocError, Global};
use std::marker::Model;

/// A client's session at its place: its connection, the bytes that came and weren't taken, and what it said and isn't printed yet.
#[derive(Drop)]
pub struct HouseSession {
    connection: ImapConnection,
    incoming: Incoming,
    unsaid: Vec<u8>,
}

impl Model for HouseSession {
    ghost use Rattle.house_peers.specs.HouseSession.{HouseSession};

    ghost Value = { HouseSession };

    ghost view = { λ v. record { link = v.connection; came = v.incoming; unsaid = v.unsaid.items } };
}

impl HouseSession {
    /// A session that was just let in, whose mailboxes have these names, and which comes in so. Its greeting is said, and still to be printed.
    ///
    /// Errors: `AllocError` where memory for a line or the greeting was refused.
    pub fn open(
        alloc: Global,
        folders: Vec<Folder>,
        admission: Admission,
    ) -> Result<HouseSession, AllocError>
        ensures { IfOk result (λ v. StandsFor v (greeted admission folders.items)) }
    {
        let connection = ImapConnection::new(alloc, folders, admission)?;
        let mut unsaid = Vec::new(alloc);
        connection.greet(&mut unsaid)?;
        Ok(HouseSession {
            connection,
            incoming: Incoming::new(alloc),
            unsaid,
        })
    }

    /// Adds bytes that came to those that wait. After an error nothing is changed; where there are none no memory is asked for.
    pub fn append(&mut self, piece: &[u8]) -> Result<(), AllocError>
        ensures ok { OnOk result (self.new ≡ with_more piece.now self.old) }
        ensures err { OnErr result (self.new ≡ self.old) }
        ensures asks { OnErr result (0 < length piece.now) }
    {
        self.incoming.append(piece)
    }

    /// Whether its session has ended: then nothing more is answered.
    pub fn has_ended(&self) -> bool
        ensures { result ≡ self.now.link.session.ended }
    {
        self.connection.has_ended()
    }

    /// The mailbox that it selected. Whoever lets it go leaves that.
    pub fn selected(&self) -> Option<Selected>
        ensures { result ≡ self.now.link.session.selected }
    {
        self.connection.selected()
    }

    /// Whether its session idles (RFC 2177): then it may have turns.
    pub fn is_idling(&self) -> bool
        ensures { result ≡ is_idling self.now.link.session }
    {
        self.connection.is_idling()
    }

    /// The message that was submitted and waits for the verdict on it: till then nothing more is answered.
    pub fn submission(&self) -> Option<&Append>
        ensures { option_map (λ a. a.now) result
            ≡ option_map (λ (s : Sent). s.append) self.now.link.session.mailing.sent }
    {
        self.connection.submission()
    }

    /// Whether a message was submitted, and the verdict on it isn't answered.
    pub fn awaits_verdict(&self) -> bool
        ensures is { result ≡ is_some self.now.link.session.mailing.sent }
        ensures none { result ≡ false → self.now.link.session.mailing.sent ≡ None }
    {
        self.connection.awaits_verdict()
    }

    /// Answers the verdict on the message that was submitted, over its store. What it says is still to be printed. Of messages that are copied the next may
    /// be submitted by that. Whatever it stands for, what waits stays, and the store was asked some calls, one after the other, or none.
    ///
    /// Errors: `AllocError` where memory was refused. Nothing happened then, and the same verdict is waited for.
    pub fn answer<S: Store>(&mut self, verdict: Verdict, store: &mut S) -> Result<(), AllocError>
        // The session goes on, and a verdict is awaited.
        requires going { self.old.link.session.ended ≡ false }
        requires waits { is_some self.old.link.session.mailing.sent ≡ true }

        // From each visitor for which it stood: the verdict was answered over the store, and what that says is still to be printed.
        ensures ok { OnOk result ((v : spec.Visitor) → StandsFor self.old v
            → AnsweredVerdict S.step verdict v store.old store.new self.new) }

        // Once it is answered none is awaited, or the next message of its batch is. What came stays.
        ensures follows { OnOk result (Follows self.old.link.session.mailing.sent
            self.new.link.session.mailing.sent) }
        ensures came { self.new.came ≡ self.old.came }

        // Whatever it stands for, the store was asked some calls in turn, or none; an error leaves it and the session as they were.
        ensures asked { Asks S.step store.old store.new }
        ensures err { OnErr result ((self.new ≡ self.old) × (store.new ≡ store.old)) }
    {
        match self.connection.appended(verdict, store, &mut self.unsaid) {
            Ok(_) => return Ok(()),
            Err(SessionFault::NoMemory) => return Err(AllocError),
            Err(SessionFault::Ended) => unreachable!(),
        }
    }

    /// Answers what waits, over its store, as far as it goes: to its end, to that of the session, or to a message that was submitted, behind which
    /// nothing is answered before the verdict. What it says is still to be printed. Whatever it stands for, the store was asked some calls, one
    /// after the other, or none; no more waits than did; and where a message was submitted, a byte at least was taken for it.
    ///
    /// Errors: `AllocError` where memory was refused, and only where bytes wait. What was done stands, and the next call goes on from there.
    pub fn go_on<S: Store>(&mut self, alloc: Global, store: &mut S) -> Result<(), AllocError>
        // From each visitor for which it stood: some of what waits was answered in turn, without error all that may be; nothing is printed yet.
        ensures ok { OnOk result ((v : spec.Visitor) → StandsFor self.old v
            → Answered S.step true v store.old store.new self.new) }
        ensures err { OnErr result ((v : spec.Visitor) → StandsFor self.old v
            → Answered S.step false v store.old store.new self.new) }

        // Whatever it stands for, the store was asked some calls in turn, or none.
        ensures asked { Asks S.step store.old store.new }

        // No more bytes are left than were; fewer, where a message was submitted by it.
        ensures fewer { length self.new.came ≤ length self.old.came }
        ensures moves { self.old.link.session.mailing.sent ≡ None
            → is_some self.new.link.session.mailing.sent ≡ true →
            length self.new.came < length self.old.came }

        // Behind that one, of those that one command copies, fewer follow than that command names.
        ensures few { to_follow self.new.link.session.mailing.sent < 32768 }

        // Where a verdict is awaited nothing is changed.
        ensures rests { is_some self.old.link.session.mailing.sent ≡ true → self.new ≡ self.old }

        // An error only where bytes wait.
        ensures asks { OnErr result (0 < length self.old.came) }
    {
        self.connection.few_follow();
        if self.connection.has_ended() {
            return Ok(());
        }
        if self.connection.awaits_verdict() {
            return Ok(());
        }
        let waits = self.incoming.as_slice();
        let progress = self.connection.take(alloc, waits, store, &mut self.unsaid);
        self.connection.few_follow();
        self.incoming.take(progress.used);
        match progress.after {
            Some(_) => return Ok(()),
            None => return Err(AllocError),
        }
    }

    /// Its session has a turn while it idles (RFC 2177), over its store: what is pending in its mailbox is shown, 64 changes at most. Answers
    /// how many were shown; what it says is still to be printed. Where the session doesn't idle, has selected no mailbox or has ended, none are;
    /// a client that missed changes is told BYE, and its session has then ended.
    ///
    /// Errors: `AllocError` where memory was refused. The session is then as it was; so is the store, or it refused the call that shows.
    pub fn idle_turn<S: Store>(&mut self, store: &mut S) -> Result<usize, AllocError>
        // From each visitor for which it stood, and whatever it stands for: its session had a turn and showed so many changes, 64 at most.
        ensures ok { IfOk result (λ count. (v : spec.Visitor) → StandsFor self.old v
            → Turned S.step count v store.old store.new self.new) }
        ensures session { IfOk result (λ count.
            HadTurn S.step self.old store.old store.new count self.new) }
        ensures few { IfOk result (λ count. count ≤ 64) }

        // Where it shows nothing and the session goes on, nothing is changed.
        ensures quiet { IfOk result (λ count. count ≡ 0 → self.new.link.session.ended ≡ false
            → self.new ≡ self.old) }

        // After an error the session is as it was; so is the store, or it refused memory itself.
        ensures err { OnErr result ((self.new ≡ self.old) × Starves S.step store.old store.new) }
    {
        if self.connection.has_ended() {
            return Ok(0);
        }
        match self.connection.idle_turn(store, &mut self.unsaid) {
            Ok(count) => return Ok(count),
            Err(SessionFault::NoMemory) => return Err(AllocError),
            Err(SessionFault::Ended) => unreachable!(),
        }
    }

    /// What it said and isn't printed yet.
    pub fn unsaid(&self) -> &[u8]
        ensures { result.now ≡ self.now.unsaid }
    {
        self.unsaid.as_slice()
    }

    /// What came and wasn't taken, and what was still to be printed, is dropped.
    pub fn drop_all(&mut self)
        ensures { self.new ≡ with_nothing_left self.old }
    {
        self.incoming.clear();
        self.unsaid.clear();
    }

    /// All that it said is printed.
    pub fn note_printed(&mut self)
        ensures { self.new ≡ with_all_said self.old }
    {
        self.unsaid.clear();
    }
}
