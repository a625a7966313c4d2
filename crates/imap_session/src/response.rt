//! A response: what a server sends in answer to a command (RFC 9051, 7). Room for its last line is held from the beginning on, so that
//! it can always be written; whatever else is written comes with room behind it.

ghost use Rattle.std.specs.Prelude.{◌≡◌, ◌+◌, ◌^◌, ◌<◌, ◌≤◌, ◌++◌, OnOk, OnErr, IfErr, length};
ghost use Rattle.imap_session.specs.Exchange.{tagged};
ghost use Rattle.imap_session.specs.Texts.{response_text};

use crate::say::{put_bye, put_tagged, put_untagged};
use crate::standing::After;
use crate::store::Store;
use crate::texts::ResponseText;
use imap_answers::{OPENING_ROOM, put_opening};
use line_io::Outlet;
use mailbox::{MailFault, Opening};
use std::marker::Model;

/// Room for the last line of any answer beside its tag, a space and CRLF among it; and for a line that says BYE.
pub(crate) const LAST: usize = 48;

/// Room for the line that tells of recent messages.
pub(crate) const RECENT: usize = 12;

/// The response to a command of this tag, written behind those before it. It has the outlet `out` meanwhile, and gives it back where it ends:
/// with its last line, or with what is said while the session waits.
#[derive(Drop)]
pub(crate) struct Response<'a, O: Outlet> {
    pub(crate) tag: &'a [u8],
    // So many bytes are held for the last line.
    pub(crate) held: usize,
    pub(crate) out: O,
}

impl<'a, O: Outlet> Model for Response<'a, O> {
    ghost use Rattle.std.specs.Prelude.{◌≤◌, ◌+◌, length};
    ghost use Rattle.imap_session.specs.Response.{Response as Written};
    ghost use Rattle.imap_session.specs.declared.response.TheConstants.{LAST};

    ghost Value = { Written };

    ghost view = { λ r. record {
      tag = r.tag.now;
      held = r.held;
      text = O.said r.out;
      lot = O.lot r.out;
    } };

    ghost invariant = { λ r. (length r.tag.now + LAST ≤ r.held) × (r.held ≤ O.room r.out) };
}

/// Writes a last line with a text in the room that is held for any.
#[tactic(auto, using(crate::proofs::TextLaws::text_short))]
pub(crate) fn put_last<O: Outlet>(tag: &[u8], text: ResponseText, out: &mut O)
    requires fits { length tag.now + LAST ≤ O.room out.old }
    ensures text { O.said out.new ≡ O.said out.old ++ tagged tag.now (response_text text) }
    ensures lot { O.lot out.new ≡ O.lot out.old }
{
    put_tagged(tag, text, out);
}

impl<'a, O: Outlet> Response<'a, O> {
    ghost use Rattle.std.specs.Prelude.{◌≡◌, ◌≢◌, ◌+◌, ◌≤◌, ◌++◌, OnOk, OnErr, IfErr, length};
    ghost use Rattle.std.specs.Option.{option_copied};
    ghost use Rattle.imap_session.specs.Exchange.{Exchange, Expunge, Feed, tagged, untagged};
    ghost use Rattle.imap_session.specs.Texts.{response_text};
    ghost use Rattle.imap_session.specs.Store.{Feeds};
    ghost use Rattle.imap_answers.specs.Answers.{opening_text};
    ghost use Rattle.imap_session.specs.inner.Response.{Adds, adding};
    ghost use Rattle.imap_session.specs.inner.Store.{Does, after_result, last_words};

    /// Begins behind the bytes of `out`, in room that was reserved for the tag and so many bytes more.
    pub(crate) fn new(tag: &'a [u8], beside: usize, out: &mut O) -> Response<'a, O>
        requires last { LAST ≤ beside }
        requires few { beside < 2 ^ 62 }
        requires fits { length tag.now + beside ≤ O.room out.old }
        ensures { result ≡ record {
          tag = tag.now;
          held = length tag.now + beside;
          text = O.said out.old;
          lot = O.lot out.old;
        } }
    {
        Response {
            tag,
            held: tag.len() + beside,
            out: out.take(),
        }
    }

    /// Writes an untagged line in room that is held beside the last line's.
    pub(crate) fn put_untagged(&mut self, text: ResponseText)
        requires fits { length self.old.tag + (LAST + (length (response_text text) + 4))
            ≤ self.old.held }
        ensures { Adds (untagged (response_text text)) self.old self.new }
    {
        self.held -= put_untagged(text, &mut self.out);
    }

    /// Holds room besides for what is told of a mailbox of this name once it is entered.
    pub(crate) fn hold_opening(&mut self, name: &[u8]) -> Result<(), MailFault>
        ensures held { OnOk result (self.new
            ≡ record self.old {
              held = self.old.held + (length name.now + (OPENING_ROOM + RECENT));
            }) }
        ensures fits { OnOk result (length self.new.tag
            + (LAST + (length name.now + (OPENING_ROOM + RECENT))) ≤ self.new.held) }
        ensures err { OnErr result (self.new ≡ self.old) }
        ensures fault { IfErr result (λ f. f ≡ MailFault.NoMemory) }
    {
        let Some(held) = self.held.checked_add(name.len()) else {
            return Err(MailFault::NoMemory);
        };
        let Some(held) = held.checked_add(OPENING_ROOM + RECENT) else {
            return Err(MailFault::NoMemory);
        };
        self.out.hold(held)?;
        self.held = held;
        Ok(())
    }

    /// Writes what is told of a mailbox that was entered, in the room that is held for it.
    pub(crate) fn put_opening(&mut self, read_only: bool, name: &[u8], opening: &Opening)
        requires fits { length self.old.tag + (LAST + (length name.now + OPENING_ROOM))
            ≤ self.old.held }
        ensures adds { Adds (opening_text read_only name.now opening.now) self.old self.new }
        ensures held { self.new.held + (length name.now + OPENING_ROOM) ≡ self.old.held }
    {
        put_opening(read_only, name, opening, &mut self.out);
        self.held -= name.len() + OPENING_ROOM;
    }

    /// Writes a line, or nothing where memory is refused.
    pub(crate) fn write(&mut self, line: &[u8]) -> Result<(), MailFault>
        ensures text { OnOk result (self.new ≡ adding line.now self.old) }
        ensures err { OnErr result (self.new ≡ self.old) }
        ensures fault { IfErr result (λ f. f ≡ MailFault.NoMemory) }
    {
        let Some(room) = line.len().checked_add(self.held) else {
            return Err(MailFault::NoMemory);
        };
        self.out.hold(room)?;
        self.out.put(line);
        Ok(())
    }

    /// Shows changes, at most so many. The store writes their lines, and leaves the room that is held for the last line.
    pub(crate) fn show<S: Store>(&mut self, limit: usize, store: &mut S) -> Result<usize, MailFault>
        ensures done { (x : Exchange)
            → Does S.step (Feed limit x) (λ n. x) store.old store.new self.old self.new result }
        // It is one call of the store.
        ensures event { Feeds (λ a.
            S.step store.old (Feed limit) a store.new) limit self.old.text self.new.text result }
        ensures faults { IfErr result (λ f. f ≢ MailFault.Spent) }
        ensures held { (self.new.tag ≡ self.old.tag) × (self.new.held ≡ self.old.held) }
    {
        let mut part = self.out.lend();
        let shown = store.feed(limit, self.held, &mut part);
        self.out.take_back(part);
        shown
    }

    /// Shows what is pending and removes messages, in the same way. Answers how many went.
    pub(crate) fn purge<S: Store>(
        &mut self,
        uids: Option<&[u32]>,
        store: &mut S,
    ) -> Result<usize, MailFault>
        ensures { (x : Exchange)
            → Does S.step (Expunge (option_copied uids.entry) x) (λ n.
            x) store.old store.new self.old self.new result }
    {
        let mut part = self.out.lend();
        let gone = store.expunge(uids, self.held, &mut part);
        self.out.take_back(part);
        gone
    }

    /// Gives the outlet back, with the room that was held, and answers the tag.
    pub(crate) fn release(self, out: &mut O) -> &'a [u8]
        ensures tag { result.now ≡ self.entry.tag }
        ensures text { O.said out.new ≡ self.entry.text }
        ensures lot { O.lot out.new ≡ self.entry.lot }
        ensures last { length self.entry.tag + LAST ≤ self.entry.held }
        ensures room { self.entry.held ≤ O.room out.new }
    {
        let Response {
            tag,
            held: _,
            out: taken,
        } = self;
        out.put_back(taken);
        tag
    }

    /// Ends with a last line, which says this behind the tag.
    pub(crate) fn end(self, text: ResponseText, out: &mut O)
        ensures text { O.said out.new
            ≡ self.entry.text ++ tagged self.entry.tag (response_text text) }
        ensures lot { O.lot out.new ≡ self.entry.lot }
    {
        let tag = self.release(out);
        put_last(tag, text, out);
    }

    /// Ends with a last line, or with what is said of the fault that stopped the command.
    pub(crate) fn conclude(
        self,
        after: After,
        done: Result<ResponseText, MailFault>,
        out: &mut O,
    ) -> After
        ensures text { O.said out.new ≡ self.entry.text ++ last_words self.entry.tag done }
        ensures lot { O.lot out.new ≡ self.entry.lot }
        ensures after { result ≡ after_result after done }
    {
        let tag = self.release(out);
        match done {
            Ok(text) => {
                put_last(tag, text, out);
                after
            }
            Err(MailFault::Stranger) => {
                put_bye(ResponseText::InternalFault, out);
                After::Bye
            }
            Err(MailFault::Lapped) => {
                put_bye(ResponseText::ChangesMissed, out);
                After::Bye
            }
            Err(MailFault::Spent) => {
                put_tagged(tag, ResponseText::MailboxSpent, out);
                After::Go
            }
            Err(MailFault::NoMemory) => {
                put_tagged(tag, ResponseText::OutOfMemory, out);
                After::Go
            }
        }
    }
}
