//! A session at its seat: it is a producer of the messages that its client appends. It knows neither the lanes nor the mailboxes: the house puts
//! the copy of a message and tells what was heard of it. How a session answers what comes is told in `session`.

ghost use Rattle.std.specs.Prelude.{◌≡◌, ◌<◌, ◌≤◌, ◌∷◌, ℕ, List, [], length, true, false, None, OnOk, OnErr, IfOk, IfSome};
ghost use Rattle.std.specs.Option.{is_some};
ghost use Rattle.delivery_token.specs.Keys.{AtLeast};
ghost use Rattle.delivery_token.specs.declared.CopyKey.{CopyKey as Key};
ghost use Rattle.delivery_token.specs.declared.Job.{Job};
ghost use Rattle.delivery_token.specs.declared.log.Noted.{Noted as NotedSpec};
ghost use Rattle.imap_session.specs.Exchange.{is_idling};
ghost use Rattle.imap_session.specs.Store.{Starves};
ghost use Rattle.imap_session.specs.Dialogue.{Asks};
ghost use Rattle.house_peers.specs.HouseSession.{HadTurn, with_all_said, with_more};
ghost use Rattle.house_peers.specs.Visitor as spec;
ghost use Rattle.house_peers.specs.Visitor.{Awaits, IsSettled, seated_greeted};
ghost use Rattle.house_peers.specs.SeatedSession.{HasWork, HearsVerdict, IsHeard, Proceeded, SeatedTurned, StandsForSeated, due, noted_put, seat_effort, submitted_at, with_nobody_there, with_place};

use crate::session::HouseSession;
use delivery_token::{CopyKey, NextCopy, Noted, Submitted, Verdict, Verdicts};
use imap_session::{Admission, Append, Folder, Selected, Store};
use std::alloc::{AllocError, Global};
use std::marker::Model;

/// A client's session at its seat.
#[derive(Drop)]
pub struct SeatedSession {
    session: HouseSession,
    seat: u8,
    serial: u64,
    is_gone: bool,
    // Of the message that was submitted: whether its copy was put, and the verdict on it.
    verdicts: Verdicts,
}

impl Model for SeatedSession {
    ghost use Rattle.std.specs.Prelude.{◌≤◌};
    ghost use Rattle.house_peers.specs.SeatedSession.{SeatedSession};

    ghost Value = { SeatedSession };

    ghost view = { λ s. record { place = s.session; number = s.seat; serial = s.serial; gone = s.is_gone; slots = s.verdicts.slots } };

    ghost invariant = { λ s. 1 ≤ s.verdicts.most };
}

// The key of the copy of a message that a session at this seat submitted.
fn key_of(seat: u8, serial: u64, append: &Append) -> CopyKey
    ensures { result ≡ record {
      seat = seat;
      serial = serial;
      message = append.now.message;
      recipient = 0;
    } }
{
    CopyKey {
        seat,
        serial,
        message: append.message,
        recipient: 0,
    }
}

impl SeatedSession {
    /// A session that was just let in to a seat, where its keys have this serial: its mailboxes have these names, and it comes in so. Its greeting is
    /// said, and still to be printed.
    ///
    /// Errors: `AllocError` where memory was refused.
    pub fn open(
        alloc: Global,
        seat: u8,
        serial: u64,
        folders: Vec<Folder>,
        admission: Admission,
    ) -> Result<SeatedSession, AllocError>
        ensures { IfOk result (λ s. (next : Key) (heard : List NotedSpec) →
            AtLeast next (record { seat = seat; serial = serial; message = 0; recipient = 0 }) →
            StandsForSeated seat next heard s (seated_greeted serial admission folders.items)) }
    {
        let verdicts = Verdicts::with_room(alloc, 1)?;
        let session = HouseSession::open(alloc, folders, admission)?;
        Ok(SeatedSession {
            session,
            seat,
            serial,
            is_gone: false,
            verdicts,
        })
    }

    /// Adds bytes that came to those that wait. After an error nothing is changed; where there are none no memory is asked for.
    pub fn append(&mut self, piece: &[u8]) -> Result<(), AllocError>
        ensures ok { OnOk result (self.new
            ≡ with_place (with_more piece.now self.old.place) self.old) }
        ensures err { OnErr result (self.new ≡ self.old) }
        ensures asks { OnErr result (0 < length piece.now) }
    {
        self.session.append(piece)
    }

    /// Whether its client is gone.
    pub fn is_gone(&self) -> bool
        ensures { result ≡ self.now.gone }
    {
        self.is_gone
    }

    /// Whether its session has ended: then nothing more is answered.
    pub fn has_ended(&self) -> bool
        ensures { result ≡ self.now.place.link.session.ended }
    {
        self.session.has_ended()
    }

    /// The mailbox that it selected. Whoever lets it go leaves that.
    pub fn selected(&self) -> Option<Selected>
        ensures { result ≡ self.now.place.link.session.selected }
    {
        self.session.selected()
    }

    /// Whether its session idles (RFC 2177): then it may have turns.
    pub fn is_idling(&self) -> bool
        ensures { result ≡ is_idling self.now.place.link.session }
    {
        self.session.is_idling()
    }

    /// The copy of the message at hand, where that is still to be put.
    pub fn next_copy(&self) -> Option<NextCopy<'_>>
        // It lends the first of the copies that are still to be put; None only where none is.
        ensures none { result ≡ None → due self.now ≡ [] }
        ensures some { IfSome result (λ c. (others : List Job) ×
            (due self.now ≡ record {
              key = c.key;
              mailbox = c.mailbox;
              text = c.text.now;
              flags = c.flags;
            } ∷ others)) }
    {
        let Some(append) = self.session.submission() else {
            return None;
        };
        let keys = [key_of(self.seat, self.serial, append)];
        let mailboxes = [append.mailbox];
        self.verdicts.next_copy(Submitted {
            keys: &keys,
            mailboxes: &mailboxes,
            text: &append.text,
            flags: append.flags,
        })
    }

    /// Notes that the copy was put: with its verdict, where that was heard at once. It takes no memory.
    pub fn note_put(&mut self, verdict: Option<Verdict>)
        requires { 0 < length (due self.old) }
        ensures { self.new ≡ noted_put verdict self.old }
    {
        self.verdicts.note_put(verdict);
    }

    /// Notes a verdict that was heard, where it is awaited.
    pub fn hear(&mut self, noted: &Noted)
        ensures { HearsVerdict self.old noted.now self.new }
    {
        let Some(append) = self.session.submission() else {
            return;
        };
        let keys = [key_of(self.seat, self.serial, append)];
        self.verdicts.hear(&keys, noted);
    }

    // Answers the verdict on the message at hand, where that is known, and then what waits.
    fn answer<S: Store>(&mut self, alloc: Global, store: &mut S) -> Result<(), AllocError>
        requires there { self.old.gone ≡ false }
        requires going { self.old.place.link.session.ended ≡ false }
        requires waits { is_some (submitted_at self.old) ≡ true }
        ensures ok { OnOk result
            ((seat : ℕ) (next : Key) (heard : List NotedSpec) (v : spec.SeatedVisitor) →
            StandsForSeated seat next heard self.old v
            → Proceeded S.step true seat next heard v store.old store.new self.new) }
        ensures err { OnErr result
            ((seat : ℕ) (next : Key) (heard : List NotedSpec) (v : spec.SeatedVisitor) →
            StandsForSeated seat next heard self.old v
            → Proceeded S.step false seat next heard v store.old store.new self.new) }
        ensures less { seat_effort self.new ≤ seat_effort self.old }
        ensures asked { Asks S.step store.old store.new }
        ensures gone { self.new.gone ≡ self.old.gone }
        ensures asks { OnErr result (IsHeard self.old) }
    {
        let Some(verdict) = self.verdicts.only() else {
            return Ok(());
        };
        self.session.answer(verdict, store)?;
        self.verdicts.clear();
        self.session.go_on(alloc, store)
    }

    /// Its client is gone: what waited, and what was still to be printed, is dropped. It then only waits for the verdict on the message at hand.
    /// Its session doesn't leave its mailbox by that: whoever holds it does so.
    pub fn vanish(&mut self)
        ensures is { self.new ≡ with_nobody_there self.old }
    {
        self.session.drop_all();
        self.is_gone = true;
    }

    /// Whether it awaits the verdict on a message, and that isn't known.
    pub fn awaits_verdict(&self) -> bool
        // Whomever it stands for: if true, its seat hasn't heard the verdict that it awaits; if false, it awaits none, or its seat has heard it.
        ensures awaits { result ≡ true
            → (seat : ℕ) (next : Key) (heard : List NotedSpec) (v : spec.SeatedVisitor) →
            StandsForSeated seat next heard self.now v → Awaits seat heard v }
        ensures settled { result ≡ false
            → (seat : ℕ) (next : Key) (heard : List NotedSpec) (v : spec.SeatedVisitor) →
            StandsForSeated seat next heard self.now v → IsSettled seat heard v }
    {
        if !self.session.awaits_verdict() {
            return false;
        }
        self.verdicts.only().is_none()
    }

    /// Does what it can now, over its store: where the verdict on the message at hand is known it answers that, and then what waits; where a
    /// verdict is awaited, its session has ended, or its client is gone, nothing. What it says is still to be printed. Whatever it stands for, no
    /// more is left to do than was: what a message adds that was submitted, the bytes that were taken for it more than outweigh. The store was asked
    /// some calls, one after the other, or none; and whether its client is gone is as it was.
    ///
    /// Errors: `AllocError` where memory was refused, and only where there was something to be done. What was done stands, and the next call goes
    /// on from there.
    pub fn proceed<S: Store>(&mut self, alloc: Global, store: &mut S) -> Result<(), AllocError>
        // From each session for which it stood: it did what it can by what its seat has heard, after an error perhaps less; nothing is printed yet.
        ensures ok { OnOk result
            ((seat : ℕ) (next : Key) (heard : List NotedSpec) (v : spec.SeatedVisitor) →
            StandsForSeated seat next heard self.old v
            → Proceeded S.step true seat next heard v store.old store.new self.new) }
        ensures err { OnErr result
            ((seat : ℕ) (next : Key) (heard : List NotedSpec) (v : spec.SeatedVisitor) →
            StandsForSeated seat next heard self.old v
            → Proceeded S.step false seat next heard v store.old store.new self.new) }

        // No more is left to do than was. Whatever it stands for, the store was asked some calls in turn, or none.
        ensures less { seat_effort self.new ≤ seat_effort self.old }
        ensures asked { Asks S.step store.old store.new }
        ensures gone { self.new.gone ≡ self.old.gone }

        // An error only where there was something to be done.
        ensures asks { OnErr result (HasWork self.old) }
    {
        if self.is_gone {
            return Ok(());
        }
        if self.session.has_ended() {
            return Ok(());
        }
        if self.session.awaits_verdict() {
            return self.answer(alloc, store);
        }
        self.session.go_on(alloc, store)
    }

    /// Its session has a turn while it idles, over its store, as in `HouseSession::idle_turn`. Answers how many changes were shown.
    ///
    /// Errors: `AllocError` where memory was refused. The session is then as it was; so is the store, or it refused the call that shows.
    pub fn idle_turn<S: Store>(&mut self, store: &mut S) -> Result<usize, AllocError>
        // Its client is there.
        requires there { self.old.gone ≡ false }

        // From each session for which it stood, and whatever it stands for: it had a turn and showed so many changes, 64 at most.
        ensures ok { IfOk result (λ count.
            (seat : ℕ) (next : Key) (heard : List NotedSpec) (v : spec.SeatedVisitor) →
            StandsForSeated seat next heard self.old v
            → SeatedTurned S.step count seat next heard v store.old store.new self.new) }
        ensures session { IfOk result (λ count.
            HadTurn S.step self.old.place store.old store.new count self.new.place) }
        ensures few { IfOk result (λ count. count ≤ 64) }
        ensures gone { self.new.gone ≡ self.old.gone }

        // Where it shows nothing and the session goes on, nothing is changed.
        ensures quiet { IfOk result (λ count. count ≡ 0 → self.new.place.link.session.ended ≡ false
            → self.new ≡ self.old) }

        // After an error the session is as it was; so is the store, or it refused memory itself.
        ensures err { OnErr result ((self.new ≡ self.old) × Starves S.step store.old store.new) }
    {
        self.session.idle_turn(store)
    }

    /// What it said and isn't printed yet.
    pub fn unsaid(&self) -> &[u8]
        ensures { result.now ≡ self.now.place.unsaid }
    {
        self.session.unsaid()
    }

    /// All that it said is printed.
    pub fn note_printed(&mut self)
        ensures { self.new ≡ with_place (with_all_said self.old.place) self.old }
    {
        self.session.note_printed();
    }
}
