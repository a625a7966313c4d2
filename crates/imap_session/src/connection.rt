//! One IMAP connection, over bytes that come in any pieces: they are cut into lines and the literals behind them, and the session answers each. It
//! knows nothing of sockets; how it gets at mailboxes is its store's matter.

ghost use Rattle.std.specs.Prelude.{◌≡◌, ◌↔◌, ◌+◌, ◌^◌, ◌<◌, ◌≤◌, ◌++◌, false, true, is_some, min, take, None, Some, Err, [], length, IfOk, IfSome, OnOk, OnErr};
ghost use Rattle.std.specs.Option.{option_map};
ghost use Rattle.imap_session.specs.Exchange.{Feed, Refused, Sent, begun_with, is_idling, may_send};
ghost use Rattle.imap_session.specs.Happenings.{kept_tag, tag_len};
ghost use Rattle.imap_session.specs.Commands.{due_of, greeting, most_changes};
ghost use Rattle.imap_session.specs.Store.{AnswersVerdict, IdleTurns, Starves, TakesBytes, room_for_verdict, to_follow};
ghost use Rattle.mailbox.specs.declared.clients.MailFault.{MailFault};
ghost use Rattle.imap_session.specs.Dialogue.{Asks, Dialogue, Hears, StandsFor, Takes, Took, Turns, may_follow};

use crate::session::Session;
use crate::standing::{Admission, After, Append, Folder, Selected, SessionFault};
use crate::store::Store;
use delivery_token::Verdict;
use line_io::{LineCutter, Outlet, What};
use std::alloc::{AllocError, Global};
use std::marker::Model;

/// The most bytes of a line with its CRLF.
const MAX_LINE: usize = 8_192;

/// Room for what a line's answer reserves before anything is done, beside the tag of a command that isn't done yet.
const ANSWER_ROOM: usize = MAX_LINE + 165;

// What a call took of a piece, and what the client may send next.
#[derive(Clone, Copy)]
struct Fed {
    used: usize,
    after: After,
}

/// How far a piece was taken.
#[derive(Clone, Copy, Debug, PartialEq, Eq)]
pub struct Progress {
    /// So many bytes from the front of the piece.
    pub used: usize,
    /// What the client may send next; None where memory was refused.
    pub after: Option<After>,
}

// How long the tag is of the command that isn't done yet.
fn tag_len(session: &Session) -> usize
    ensures length { result ≡ tag_len (kept_tag session.now) }
    ensures bound { result < 2 ^ 63 }
{
    match session.kept_tag() {
        None => 0,
        Some(tag) => tag.len(),
    }
}

/// One client's connection.
#[derive(Drop)]
pub struct ImapConnection {
    session: Session,
    cutter: LineCutter,
}

impl Model for ImapConnection {
    ghost use Rattle.std.specs.Prelude.{◌≡◌, ℕ, List};
    ghost use Rattle.line_io.specs.Cutting as cutting;
    ghost use Rattle.imap_session.specs.Dialogue.{ImapConnection};

    ghost Value = { ImapConnection };

    ghost view = { λ c. record { session = c.session; cutter = c.cutter } };

    ghost invariant = { λ c. (c.cutter.max ≡ 8192) × ((stream : List ℕ) × cutting.StandsFor c.cutter stream) };
}

impl ImapConnection {
    /// A connection that was just opened, of a user with these mailboxes, who comes in so.
    ///
    /// Errors: `AllocError` where memory for a line was refused.
    pub fn new(
        alloc: Global,
        folders: Vec<Folder>,
        admission: Admission,
    ) -> Result<ImapConnection, AllocError>
        ensures { IfOk result (λ c. StandsFor c (record {
          standing = begun_with admission folders.items;
          begun = [];
        })) }
    {
        let cutter = LineCutter::new(alloc, MAX_LINE)?;
        Ok(ImapConnection {
            session: Session::new(folders, admission),
            cutter,
        })
    }

    /// Appends the greeting (RFC 9051, 7.1.4).
    ///
    /// Errors: `AllocError` where `out` has no room for it and memory was refused; then nothing was written.
    pub fn greet<O: Outlet>(&self, out: &mut O) -> Result<(), AllocError>
        ensures ok { OnOk result (O.said out.new
            ≡ O.said out.old ++ greeting self.now.session.profile) }
        ensures err { OnErr result (O.said out.new ≡ O.said out.old) }
        ensures memory { OnErr result (O.room out.old
            < length (greeting self.now.session.profile)) }
        ensures lot { O.lot out.new ≡ O.lot out.old }
    {
        self.session.greet(out)
    }

    /// Whether the session has ended: then nothing more is answered.
    pub fn has_ended(&self) -> bool
        ensures { result ≡ self.now.session.ended }
    {
        self.session.ended()
    }

    /// The mailbox that the session selected. One that has ended may still hold it: whoever drops the connection leaves it.
    pub fn selected(&self) -> Option<Selected>
        ensures { result ≡ self.now.session.selected }
    {
        self.session.selected()
    }

    /// Whether the session idles (RFC 2177): then it may have turns.
    pub fn is_idling(&self) -> bool
        ensures { result ≡ is_idling self.now.session }
    {
        self.session.is_idling()
    }

    /// The message that was submitted and waits for the verdict on it (RFC 9051, 6.3.12 and 6.4.7). Till that is heard no more bytes are taken.
    pub fn submission(&self) -> Option<&Append>
        ensures { option_map (λ a. a.now) result
            ≡ option_map (λ (s : Sent). s.append) self.now.session.mailing.sent }
    {
        self.session.submission()
    }

    /// Whether a message was submitted, and the verdict on it isn't there: till then no bytes are taken.
    pub fn awaits_verdict(&self) -> bool
        ensures is { result ≡ is_some self.now.session.mailing.sent }
        ensures none { result ≡ false → self.now.session.mailing.sent ≡ None }
    {
        self.session.awaits_verdict()
    }

    /// What the client may send next.
    pub fn may_send(&self) -> After
        ensures { result ≡ may_send self.now.session }
    {
        self.session.may_send()
    }

    /// For how many bytes there has to be room before the verdict on the message that was submitted is answered; 0 where none is waited for.
    /// Where there is, the answer is never refused for want of memory.
    pub fn verdict_room(&self) -> usize
        ensures { result ≡ room_for_verdict self.now.session }
    {
        self.session.verdict_room()
    }

    /// Behind the message that was submitted fewer follow than one command may copy, which a caller's measure rests on. It does nothing.
    pub fn few_follow(&self)
        ensures { to_follow self.now.session.mailing.sent < 32768 }
    {
        self.session.few_follow();
    }

    /// Answers the verdict on the message that was submitted. Bytes are taken again then.
    ///
    /// Errors, after which the connection, the store and `out` are as they were, and the same verdict is waited for: `Ended` exactly where the
    /// session has ended; `NoMemory` where memory was refused, and `out` has no room for as many bytes as `verdict_room` tells.
    pub fn appended<S: Store, O: Outlet>(
        &mut self,
        verdict: Verdict,
        store: &mut S,
        out: &mut O,
    ) -> Result<After, SessionFault>
        // A verdict is awaited.
        requires waits { is_some self.old.session.mailing.sent ≡ true }

        // The verdict was answered over the store as `turn_of_verdict` tells, by the session and in each dialogue for which it stood.
        ensures session { IfOk result (λ after.
            AnswersVerdict S.step self.old.session verdict store.old store.new (O.said out.old)
            (O.said out.new)
            after self.new.session) }
        ensures heard { IfOk result (λ after. (d : Dialogue) → StandsFor self.old d →
            Hears S.step d verdict store.old store.new (O.said out.old) (O.said out.new) after self.new) }

        // Ended exactly where the session has ended. A refusal leaves the connection, the store and `out` as they were.
        ensures ended { (result ≡ Err SessionFault.Ended) ↔ (self.old.session.ended ≡ true) }
        ensures refused { OnErr result ((self.new ≡ self.old) × (store.new ≡ store.old)
            × (O.said out.new ≡ O.said out.old)) }

        // Where `out` had the room that `verdict_room` tells, NoMemory never comes.
        ensures memory { result ≡ Err SessionFault.NoMemory
            → O.room out.old < room_for_verdict self.old.session }

        // It answers what the client may send from now on: nothing where the next of several messages was submitted that are copied.
        ensures sends { IfOk result (λ after. after ≡ may_send self.new.session) }
        ensures lot { O.lot out.new ≡ O.lot out.old }
    {
        self.session.appended(verdict, store, out)
    }

    /// The session has a turn while it idles: what is pending in its mailbox is shown, 64 changes at most. Answers how many were shown.
    ///
    /// Errors, after which the connection and `out` are as they were: `Ended` exactly where the session has ended, and the store isn't asked;
    /// `NoMemory` where memory was refused, by the store or before it was asked.
    pub fn idle_turn<S: Store, O: Outlet>(
        &mut self,
        store: &mut S,
        out: &mut O,
    ) -> Result<usize, SessionFault>
        // The session had a turn over the store as `Session::idle_turn` tells, and showed so many changes; so in each dialogue for which it stood.
        ensures session { IfOk result (λ count.
            IdleTurns S.step self.old.session store.old store.new (O.said out.old) (O.said out.new) count
            self.new.session) }
        ensures turned { IfOk result (λ count. (d : Dialogue) → StandsFor self.old d →
            Turns S.step d store.old store.new (O.said out.old) (O.said out.new) count self.new) }
        ensures few { IfOk result (λ count. count ≤ 64) }

        // Where it shows nothing and the session goes on, nothing is changed and nothing said.
        ensures quiet { IfOk result (λ count. count ≡ 0 → self.new.session.ended ≡ false
            → (self.new ≡ self.old) × (O.said out.new ≡ O.said out.old)) }

        // Ended exactly where the session has ended, and the store is as it was.
        ensures ended { (result ≡ Err SessionFault.Ended) ↔ (self.old.session.ended ≡ true) }
        ensures over { result ≡ Err SessionFault.Ended → store.new ≡ store.old }

        // After NoMemory the store is as it was, or it refused memory itself.
        ensures starved { result ≡ Err SessionFault.NoMemory → Starves S.step store.old store.new }

        // Where `out` has room for a BYE line, the store was asked.
        ensures asked { result ≡ Err SessionFault.NoMemory
            → 48 ≤ O.room out.old →
            S.step store.old (Feed most_changes) (Refused MailFault.NoMemory) store.new }

        // A refusal leaves the connection and `out` as they were.
        ensures refused { OnErr result ((self.new ≡ self.old) × (O.said out.new ≡ O.said out.old)) }
        ensures lot { O.lot out.new ≡ O.lot out.old }
    {
        self.session.idle_turn(store, out)
    }

    // Takes bytes of the literal that is due from the front of the piece.
    fn take_literal(&mut self, piece: &[u8]) -> Fed
        requires going { self.old.session.ended ≡ false }
        requires unsent { self.old.session.mailing.sent ≡ None }
        requires due { 0 < due_of self.old.session.mailing.begun }
        ensures used { result.used
            ≡ min (length piece.now) (due_of self.old.session.mailing.begun) }
        ensures none { length piece.now ≡ 0 → self.new ≡ self.old }
        ensures takes { 0 < length piece.now
            → TakesBytes self.old.session (take result.used piece.now) self.new.session }
        ensures cutter { self.new.cutter ≡ self.old.cutter }
        ensures sends { result.after ≡ may_send self.new.session }
    {
        let used = if piece.is_empty() {
            0
        } else {
            self.session.literal(piece)
        };
        Fed {
            used,
            after: self.session.may_send(),
        }
    }

    // Takes bytes from the front of the piece, up to the end of one line, which is answered, or of the literal that is due; a line of more
    // than `MAX_LINE` bytes is answered as too long. On a session that has ended it uses nothing; on another, one byte at least of a piece that
    // has some. Where the room for the longest line's last words is refused, no byte was used and nothing was done.
    fn feed<S: Store, O: Outlet>(
        &mut self,
        alloc: Global,
        piece: &[u8],
        store: &mut S,
        out: &mut O,
    ) -> Result<Fed, AllocError>
        requires unsent { self.old.session.mailing.sent ≡ None }
        ensures used { IfOk result (λ fed. fed.used ≤ length piece.now) }
        ensures moves { IfOk result (λ fed. self.old.session.ended ≡ false → 0 < length piece.now
            → 0 < fed.used) }
        ensures asked { Asks S.step store.old store.new }
        ensures ok { IfOk result (λ fed. (d : Dialogue) → StandsFor self.old d →
            Takes S.step d piece.now store.old store.new (O.said out.old) (O.said out.new) fed self.new) }
        ensures err { OnErr result ((self.new ≡ self.old) × (store.new ≡ store.old)
            × (O.said out.new ≡ O.said out.old)) }
        ensures full { OnErr result (O.room out.new
            < ANSWER_ROOM + tag_len (kept_tag self.new.session)) }
        ensures sends { IfOk result (λ fed. fed.after ≡ may_send self.new.session) }
        ensures lot { O.lot out.new ≡ O.lot out.old }
    {
        if self.session.ended() {
            return Ok(Fed {
                used: 0,
                after: After::Bye,
            });
        }
        if self.session.literal_due() > 0 {
            return Ok(self.take_literal(piece));
        }
        out.hold(ANSWER_ROOM + tag_len(&self.session))?;
        let cut = self.cutter.take(piece);
        match cut.what {
            What::NeedMore => Ok(Fed {
                used: cut.used,
                after: self.session.may_send(),
            }),
            What::Line => {
                let after = match self.session.line(alloc, self.cutter.line(), store, out) {
                    Ok(after) => after,
                    Err(SessionFault::NoMemory) => return Err(AllocError),
                    Err(SessionFault::Ended) => unreachable!(),
                };
                Ok(Fed {
                    used: cut.used,
                    after,
                })
            }
            What::TooLong => {
                let after = match self.session.long_line(out) {
                    Ok(after) => after,
                    Err(SessionFault::NoMemory) => return Err(AllocError),
                    Err(SessionFault::Ended) => unreachable!(),
                };
                Ok(Fed {
                    used: cut.used,
                    after,
                })
            }
        }
    }

    /// Takes a piece to its end, or to the line that ends the session or submits a message: each line that ends in it is answered
    /// (RFC 9051, 2.2), one of more than 8,192 bytes with its CRLF as too long, and the bytes of a literal are kept for the line that announced
    /// it (4.3), wherever they are cut. Where memory is refused before a line is answered, what was taken till then stands, and the rest is for
    /// the next call. It is refused only where `out` has no room, behind what it has by then, for 8,357 bytes and the tag of the command
    /// that isn't done, and never over a piece that is empty. A message is submitted only by a byte that was taken; and whatever the connection stands for, the store was asked
    /// some calls, one after the other, or none.
    pub fn take<S: Store, O: Outlet>(
        &mut self,
        alloc: Global,
        piece: &[u8],
        store: &mut S,
        out: &mut O,
    ) -> Progress
        // The session goes on, and no verdict is awaited.
        requires going { self.old.session.ended ≡ false }
        requires unsent { self.old.session.mailing.sent ≡ None }

        // All of the piece was taken, unless the session ended, a message was submitted, or memory was refused.
        ensures used { result.used ≤ length piece.now }
        ensures all { IfSome result.after (λ after. may_follow after ≡ true
            → result.used ≡ length piece.now) }

        // Memory is refused (None) only where `out` has too little room behind what it has by then, and no message is submitted then.
        ensures full { result.after ≡ None
            → O.room out.new < (ANSWER_ROOM + tag_len (kept_tag self.new.session)) }
        ensures unsent { result.after ≡ None → self.new.session.mailing.sent ≡ None }

        // Nor is it where there is nothing to take.
        ensures asks { result.after ≡ None → 0 < length piece.now }

        // A message is submitted only by a byte that was taken. Whatever it stands for, the store was asked some calls in turn, or none.
        ensures moves { is_some self.new.session.mailing.sent ≡ true → 0 < result.used }
        ensures asked { Asks S.step store.old store.new }

        // It answers what the client may send from now on.
        ensures sends { IfSome result.after (λ after. after ≡ may_send self.new.session) }

        // In each dialogue for which it stood: lines and literals were answered one after another, and it stands for where they lead.
        ensures took { (d : Dialogue) → StandsFor self.old d →
            Took S.step d piece.now store.old store.new (O.said out.old) (O.said out.new) result
            self.new }
        ensures lot { O.lot out.new ≡ O.lot out.old }
    {
        if piece.is_empty() {
            return Progress {
                used: 0,
                after: Some(self.may_send()),
            };
        }
        let mut used = 0;
        loop {
            let Ok(fed) = self.feed(alloc, &piece[used..], store, out) else {
                return Progress { used, after: None };
            };
            used += fed.used;
            if used == piece.len() || self.has_ended() || self.awaits_verdict() {
                return Progress {
                    used,
                    after: Some(fed.after),
                };
            }
        }
    }
}
