//! Where a producer of a server notes what became of its copies: each is counted, and has its line in the log. How a line is written stands
//! in `line`.

ghost use Rattle.std.specs.Prelude.{◌≡◌, ◌+◌, ◌-◌, length, true, zip, vec_len};
ghost use Rattle.lmtp_machine.specs.Calls.{submission_of};
ghost use Rattle.lane_work.specs.Account.{copies_of};
ghost use Rattle.server_report.specs.Lines.{call_number, copy_line, mail_lines};
ghost use Rattle.server_report.specs.declared.line.Caller.{Caller};

use crate::line::{Caller, Happened, append_copy, append_message, call_number};
use crate::log::Log;
use delivery_token::{CopyKey, Verdict};
use envelope::Directory;
use lane_work::VerdictLog;
use lmtp_machine::Submission;
use std::alloc::{AllocError, Global};
use std::sync::Wait;

/// By what the callers of a server are told apart: its producers are so many workers, and behind them so many client slots of each user.
#[derive(Clone, Copy)]
pub struct Names<'a> {
    /// The mailboxes and their users.
    pub directory: &'a Directory,
    /// How many workers take mail.
    pub workers: u8,
    /// How many client slots each user has.
    pub sessions: u8,
}

impl<'a> Names<'a> {
    /// The number of the connection that the worker at this seat serves with this serial.
    pub fn connection_number(self, seat: u8, serial: u64) -> u128
        ensures { result ≡ call_number self.entry.workers seat serial }
    {
        call_number(self.workers, seat, serial)
    }

    /// The number, among its user's, of the session that is served in this client slot, by its number among all client slots, with this serial.
    pub fn session_number(self, client_slot: u8, serial: u64) -> u128 {
        let place = client_slot % self.sessions.max(1);
        call_number(self.sessions, place, serial)
    }

    /// The connection of mail that the worker at this seat serves with this serial.
    pub fn connection(self, seat: u8, serial: u64) -> Caller<'a> {
        Caller::Mail(self.connection_number(seat, serial))
    }

    /// The session of this user that is served in this client slot, by its number among all client slots, with this serial.
    pub fn session(self, user: &'a [u8], client_slot: u8, serial: u64) -> Caller<'a> {
        Caller::Client {
            user,
            number: self.session_number(client_slot, serial),
        }
    }

    // The session that has appended a copy of this key to this mailbox, which is one of its user's.
    fn appender(self, key: CopyKey, mailbox: u8) -> Caller<'a> {
        let client_slot = key.seat.saturating_sub(self.workers);
        if usize::from(mailbox) >= self.directory.mailboxes() {
            return self.session(b"?", client_slot, key.serial);
        }
        self.session(self.directory.user_of(mailbox), client_slot, key.serial)
    }
}

/// Notes the verdicts of one producer in a server's log. Where the log is off it notes nothing, and takes no memory.
#[derive(Drop)]
pub struct LogBook<'a, R: Wait> {
    rt: &'a R,
    log: &'a Log,
    names: Names<'a>,
    // Where lines are written before the log takes them.
    scratch: Vec<u8>,
}

impl<'a, R: Wait> LogBook<'a, R> {
    /// The book of a producer, which writes to this log.
    pub fn new(rt: &'a R, alloc: Global, log: &'a Log, names: Names<'a>) -> LogBook<'a, R> {
        LogBook {
            rt,
            log,
            names,
            scratch: Vec::new(alloc),
        }
    }

    // Writes the lines of a message's copies. Answers whether memory sufficed.
    fn write_message(&mut self, message: &Submission, verdicts: &[Verdict]) -> bool
        requires mailboxes { vec_len message.now.mailboxes ≡ vec_len message.now.keys }
        requires verdicts { length verdicts.now ≡ vec_len message.now.keys }
        ensures { result ≡ true → self.new.scratch.items
            ≡ mail_lines self.old.names.directory.now.homes self.old.names.workers
            (zip (copies_of (submission_of message.now)) verdicts.now) }
    {
        self.scratch.clear();
        let names = self.names;
        append_message(
            names.directory,
            names.workers,
            message,
            verdicts,
            &mut self.scratch,
        )
        .is_ok()
    }

    // Writes the line of a copy that a session has appended. Answers whether memory sufficed.
    fn write_appended(
        &mut self,
        key: CopyKey,
        mailbox: u8,
        bytes: usize,
        verdict: Verdict,
    ) -> bool {
        self.scratch.clear();
        let names = self.names;
        append_copy(
            names.directory,
            names.appender(key, mailbox),
            key.message,
            mailbox,
            Some(bytes),
            verdict,
            &mut self.scratch,
        )
        .is_ok()
    }

    /// What happened to a connection of this worker, which has this serial.
    pub fn tell_connection(&self, seat: u8, serial: u64, what: Happened) {
        let alloc = *self.scratch.allocator();
        let caller = self.names.connection(seat, serial);
        self.log.tell(self.rt, alloc, caller, what);
    }

    // Hands the lines that were written over to the log, or tells it that they couldn't be.
    fn hand_over(&self, is_written: bool, lines: u64) {
        if is_written {
            self.log.say(self.rt, &self.scratch, lines);
        } else {
            self.log.lose(self.rt, lines);
        }
    }
}

/// What it tells is not said: the log stands behind a lock.
impl<'a, R: Wait> VerdictLog for LogBook<'a, R> {
    ghost tells = { λ _ _. Unit {0} };

    ghost owner = { λ _. 0 };

    ghost has_room = { λ _ _. Unit {0} };

    fn reserve(&mut self, _count: usize) -> Result<(), AllocError> {
        Ok(())
    }

    fn note_all(&mut self, message: &Submission, verdicts: &[Verdict]) {
        if !self.log.is_on() {
            return;
        }
        self.log.count_message(self.rt, verdicts);
        if self.log.keeps_lines() {
            let is_written = self.write_message(message, verdicts);
            self.hand_over(is_written, verdicts.len() as u64);
        }
    }

    fn note_one(&mut self, key: CopyKey, mailbox: u8, bytes: usize, verdict: Verdict) {
        if !self.log.is_on() {
            return;
        }
        self.log.count_message(self.rt, &[verdict]);
        if self.log.keeps_lines() {
            let is_written = self.write_appended(key, mailbox, bytes, verdict);
            self.hand_over(is_written, 1);
        }
    }
}
