//! A line of a command, answered: what it is read as, and what is done about that, in room that was reserved.
//! Lines that go on behind a literal are joined in `joining`; how one command is carried out is for `turn`.

use crate::access::{barred_at, logs_in_as};
use crate::response::{LAST, Response, put_last};
use crate::session::Session;
use crate::standing::After;
use crate::store::Store;
use crate::turn::{FIRST, append_of, copy_of, is_idle, put_fault, put_first_line};
use crate::unfinished::{argument_due, wants_response};
use imap_grammar::{Command, ImapFault, read_line};
use line_io::Outlet;
use std::alloc::Global;

impl Session {
    ghost use Rattle.std.specs.Prelude.{◌≡◌, ◌+◌, ◌≤◌, ◌++◌, ℕ, List, IfSome, Ok, Err, None, Some, false, length};
    ghost use Rattle.imap_grammar.specs.Reading.{read};
    ghost use Rattle.imap_session.specs.Exchange.{Exchange, may_send};
    ghost use Rattle.imap_session.specs.Commands.{fault_tag, fault_text, literal_in};
    ghost use Rattle.imap_session.specs.inner.Appends.{Leads};
    ghost use Rattle.imap_session.specs.inner.Lines.{AnswersText};

    // Answers a command under its tag, which it has in this line.
    fn answer_read<S: Store, O: Outlet>(
        &mut self,
        alloc: Global,
        line: &[u8],
        tag: &[u8],
        command: &Command<'_>,
        store: &mut S,
        out: &mut O,
    ) -> After
        requires going { self.old.ended ≡ false }
        requires awake { self.old.idling ≡ None }
        requires alone { self.old.mailing.begun ≡ None }
        requires unsent { self.old.mailing.sent ≡ None }
        requires fits { length tag.now + LAST + FIRST ≤ O.room out.old }
        ensures answered { read line.now ≡ Ok (tag.now, command.now)
            → AnswersText S.step self.old line.now store.old store.new (O.said out.old) (O.said out.new)
            result self.new }
        ensures folders { self.new.folders ≡ self.old.folders }
        ensures sends { result ≡ may_send self.new }
        ensures lot { O.lot out.new ≡ O.lot out.old }
    {
        if wants_response(self.awaited(), command) {
            return self.await_response(alloc, tag, line, out);
        }
        if logs_in_as(self.awaited(), command) {
            return self.log_in(tag, command.verb(), out);
        }
        if let Some(text) = barred_at(self.awaited(), self.profile(), command) {
            put_last(tag, text, out);
            return After::Go;
        }
        if let Some(append) = append_of(command) {
            let response = Response::new(tag, LAST, out);
            return self.begin_append(alloc, append, response, out);
        }
        if let Some(copy) = copy_of(command) {
            let response = Response::new(tag, LAST, out);
            return self.begin_copy(alloc, copy, store, response, out);
        }
        if is_idle(command) {
            let response = Response::new(tag, LAST, out);
            return self.begin_idling(alloc, response, out);
        }
        let first = put_first_line(self.profile(), command, out);
        let response = Response::new(tag, LAST + (FIRST - first), out);
        self.answer(alloc, command, store, response, out)
    }

    // Answers a line that is no command as it stands.
    // Its frame stands apart: the stack of a thread that waits for its client is as deep as what it once answered.
    #[inline(never)]
    fn answer_fault<O: Outlet>(
        &mut self,
        alloc: Global,
        line: &[u8],
        fault: &ImapFault<'_>,
        out: &mut O,
    ) -> After
        requires going { self.old.ended ≡ false }
        requires awake { self.old.idling ≡ None }
        requires alone { self.old.mailing.begun ≡ None }
        requires unsent { self.old.mailing.sent ≡ None }
        requires tagged { IfSome (fault_tag fault.now) (λ tag.
            (length tag + LAST) ≤ O.room out.old) }
        requires fits { length (fault_text self.old.profile fault.now) ≤ O.room out.old }
        ensures asks { (tag : List ℕ) (x : Exchange)
            → literal_in self.old.profile line.now fault.now ≡ Some (tag, x)
            → Leads tag self.old x (O.said out.old) (O.said out.new) result self.new }
        ensures told { literal_in self.old.profile line.now fault.now ≡ None
            → (result ≡ After.Go) × (self.new ≡ self.old) × (O.said out.new
            ≡ O.said out.old ++ fault_text self.old.profile fault.now) }
        ensures folders { self.new.folders ≡ self.old.folders }
        ensures sends { result ≡ may_send self.new }
        ensures lot { O.lot out.new ≡ O.lot out.old }
    {
        match argument_due(self.profile(), line, fault) {
            Some(found) => self.await_argument(alloc, found, out),
            None => {
                put_fault(self.profile(), fault, out);
                After::Go
            }
        }
    }

    // Answers a line as one of a command, in room that was reserved.
    pub(crate) fn text_line<S: Store, O: Outlet>(
        &mut self,
        alloc: Global,
        line: &[u8],
        store: &mut S,
        out: &mut O,
    ) -> After
        requires going { self.old.ended ≡ false }
        requires awake { self.old.idling ≡ None }
        requires alone { self.old.mailing.begun ≡ None }
        requires unsent { self.old.mailing.sent ≡ None }
        requires fits { length line.now + LAST + FIRST ≤ O.room out.old }
        ensures answered { AnswersText S.step self.old line.now store.old store.new (O.said out.old)
            (O.said out.new) result self.new }
        ensures folders { self.new.folders ≡ self.old.folders }
        ensures sends { result ≡ may_send self.new }
        ensures lot { O.lot out.new ≡ O.lot out.old }
    {
        match read_line(line) {
            Err(fault) => self.answer_fault(alloc, line, &fault, out),
            Ok((tag, command)) => {
                self.answer_read(alloc, line, tag.as_bytes(), &command, store, out)
            }
        }
    }
}
