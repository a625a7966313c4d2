//! A connection between commands: where it stands, and its answer to each whole line. What it writes goes into room that was reserved
//! before, so nothing here may fail. Bytes that aren't lines, message data and verdicts are for machine.rt.

ghost use Rattle.std.specs.Prelude.{◌≡◌, ◌+◌, ◌<◌, ◌≤◌, length, IfOk, false, vec_len, vec_capacity};
ghost use Rattle.envelope.specs.Values.{Path, Mail, forward_path, reverse_path, said};
ghost use Rattle.envelope.specs.Grammar.{has_long_part};
ghost use Rattle.lmtp_machine.specs.Dialogue.{IsBrief, on_command_line, on_command, on_mail, on_rcpt, on_data, fault_reply, fresh};
ghost use Rattle.lmtp_machine.specs.Message.{sender_text};
ghost use Rattle.lmtp_machine.specs.Standing.{standing_of, IsOpen, Takes};

use crate::reply::{BRIEF_ROOM, NAMED_ROOM, Reply, put, say, say_any};
use envelope::{
    CommandFault, Directory, ForwardPath, LmtpCommand, MOST_RECIPIENTS, NoSuch, Recipients,
    ReversePath, read_command,
};
use std::alloc::{AllocError, Global};
use std::marker::Model;

/// Where a connection is in its dialogue.
#[derive(Clone, Copy, Debug, PartialEq, Eq)]
pub enum Stage {
    /// Before LHLO.
    Start,
    /// Between transactions.
    Ready,
    /// MAIL was accepted.
    Transaction,
    /// DATA was accepted.
    Data,
    /// A message was submitted, and its verdicts are awaited.
    Waiting,
    Ended,
}

/// The most bytes of a mailbox: a local part, an at sign and a domain (RFC 5321, section 4.5.3.1).
const SENDER_ROOM: usize = 320;

// The most bytes that a command line has before its CRLF (RFC 5321, 4.5.3.1.4).
const MOST_TEXT: usize = 510;

/// A connection between commands.
#[derive(Drop)]
pub struct Commands {
    stage: Stage,
    submitted: u32,
    /// Of the transaction that was begun: the mailbox of MAIL as spelled, or nothing.
    sender: Vec<u8>,
    recipients: Recipients,
}

impl Model for Commands {
    ghost use Rattle.std.specs.Prelude.{◌≤◌, vec_capacity};
    ghost use Rattle.lmtp_machine.specs.Standing.{Commands};
    ghost use Rattle.lmtp_machine.specs.inner.Standing.{HasNumber};

    ghost Value = { Commands };

    ghost view = { λ c. record { stage = c.stage; submitted = c.submitted; sender = c.sender.items; recipients = c.recipients } };

    ghost invariant = { λ c. (320 ≤ vec_capacity c.sender) × HasNumber c.stage c.submitted };
}

/// Keeps the mailbox of a reverse path, as spelled, in the room that is there.
fn keep_sender(sender: &mut Vec<u8>, path: ReversePath<'_>)
    requires room { 320 ≤ vec_capacity sender.old }
    requires short { has_long_part (reverse_path path) ≡ false }
    ensures text { sender.new.items ≡ sender_text (reverse_path path.entry) }
    ensures room { 320 ≤ vec_capacity sender.new }
{
    sender.clear();
    if let ReversePath::Sender(mailbox) = path {
        put(sender, mailbox.local, b"@", mailbox.domain);
    }
}

fn fault_reply(fault: CommandFault) -> Reply
    ensures value { result ≡ fault_reply fault }
    ensures brief { IsBrief result }
{
    match fault {
        CommandFault::Unknown => Reply::CommandUnknown,
        CommandFault::Syntax { lhlo: true } => Reply::BadClientName,
        CommandFault::Syntax { lhlo: false } => Reply::InvalidArguments,
        CommandFault::PathTooLong => Reply::PathTooLong,
        CommandFault::Parameter => Reply::ParameterUnknown,
    }
}

impl Commands {
    /// A connection on which nothing was said.
    ///
    /// Errors: `AllocError` where memory for a sender and for 100 recipients was refused.
    pub fn new(alloc: Global) -> Result<Commands, AllocError>
        ensures { IfOk result (λ c. standing_of c ≡ fresh) }
    {
        Ok(Commands {
            stage: Stage::Start,
            submitted: 0,
            sender: Vec::with_capacity(alloc, SENDER_ROOM)?,
            recipients: Recipients::new(alloc)?,
        })
    }

    /// Where it is.
    pub fn stage(&self) -> Stage
        ensures { result ≡ self.now.stage }
    {
        self.stage
    }

    /// The mailbox of MAIL as spelled, or nothing.
    pub fn sender(&self) -> &[u8]
        ensures { result.now ≡ self.now.sender }
    {
        self.sender.as_slice()
    }

    /// The mailboxes of the accepted recipients.
    pub fn recipients(&self) -> &[u8]
        ensures value { result.now ≡ self.now.recipients }
        ensures most { length self.now.recipients ≤ MOST_RECIPIENTS }
    {
        self.recipients.list()
    }

    /// How many messages were submitted, which is also the number of the next.
    pub fn submitted(&self) -> u32
        ensures { result ≡ self.now.submitted }
    {
        self.submitted
    }

    /// The message of the data was submitted.
    pub fn submit(&mut self)
        requires { self.old.stage ≡ Stage.Data }
        ensures { self.new ≡ record self.old {
          stage = Stage.Waiting;
          submitted = self.old.submitted + 1;
        } }
    {
        self.submitted += 1;
        self.stage = Stage::Waiting;
    }

    /// The transaction is over, whatever came of it.
    pub fn finish(&mut self)
        ensures { self.new ≡ record self.old { stage = Stage.Ready } }
    {
        self.stage = Stage::Ready;
    }

    /// The connection has ended.
    pub fn end(&mut self)
        ensures { self.new ≡ record self.old { stage = Stage.Ended } }
    {
        self.stage = Stage::Ended;
    }

    fn mail(&mut self, path: ReversePath<'_>, host: &[u8], out: &mut Vec<u8>)
        requires room { vec_len out.old + BRIEF_ROOM ≤ vec_capacity out.old }
        requires short { has_long_part (reverse_path path) ≡ false }
        ensures { Takes host.now (on_mail (standing_of self.old).phase self.old.submitted
            (reverse_path path.entry)) self.new out.old.items out.new.items }
    {
        match self.stage {
            Stage::Ready => {}
            _ => return say(out, host, Reply::BadSequence),
        }
        if self.submitted == u32::MAX {
            self.stage = Stage::Ended;
            return say(out, host, Reply::ShuttingDown);
        }
        keep_sender(&mut self.sender, path);
        self.recipients.clear();
        self.stage = Stage::Transaction;
        say(out, host, Reply::SenderOk);
    }

    fn rcpt(&mut self, path: ForwardPath<'_>, directory: &Directory, host: &[u8], out: &mut Vec<u8>)
        requires { vec_len out.old + BRIEF_ROOM ≤ vec_capacity out.old }
        ensures { Takes host.now
            (on_rcpt directory.now (standing_of self.old).phase self.old.submitted
            (forward_path path.entry)) self.new out.old.items out.new.items }
    {
        match self.stage {
            Stage::Transaction => {}
            _ => return say(out, host, Reply::BadSequence),
        }
        match directory.lookup(path) {
            Err(NoSuch::System) => say(out, host, Reply::DomainUnknown),
            Err(NoSuch::User) => say(out, host, Reply::MailboxUnknown),
            Ok(mailbox) => {
                if directory.is_shut(directory.shard_of(mailbox)) {
                    return say(out, host, Reply::ShardClosed);
                }
                if self.recipients.list().len() == MOST_RECIPIENTS {
                    return say(out, host, Reply::TooManyRecipients);
                }
                let _ = self.recipients.add(mailbox);
                say(out, host, Reply::RecipientOk);
            }
        }
    }

    fn data(&mut self, host: &[u8], out: &mut Vec<u8>)
        requires { vec_len out.old + BRIEF_ROOM ≤ vec_capacity out.old }
        ensures { Takes host.now (on_data (standing_of self.old).phase self.old.submitted) self.new
            out.old.items out.new.items }
    {
        match self.stage {
            Stage::Transaction => {}
            _ => return say(out, host, Reply::BadSequence),
        }
        if self.recipients.list().is_empty() {
            return say(out, host, Reply::BadSequence);
        }
        self.stage = Stage::Data;
        say(out, host, Reply::StartInput);
    }

    fn command(
        &mut self,
        command: LmtpCommand<'_>,
        directory: &Directory,
        host: &[u8],
        out: &mut Vec<u8>,
    )
        requires room { vec_len out.old + length host.now + NAMED_ROOM ≤ vec_capacity out.old }
        requires stage { IsOpen self.old.stage }
        requires short { (path : Path) → said command ≡ Mail path → has_long_part path ≡ false }
        ensures { Takes host.now
            (on_command directory.now (standing_of self.old) (said command.entry)) self.new
            out.old.items out.new.items }
    {
        match command {
            LmtpCommand::Lhlo => {
                self.stage = Stage::Ready;
                say_any(out, host, Reply::Extensions);
            }
            LmtpCommand::Mail(path) => self.mail(path, host, out),
            LmtpCommand::Rcpt(path) => self.rcpt(path, directory, host, out),
            LmtpCommand::Data => self.data(host, out),
            LmtpCommand::Rset => {
                if let Stage::Transaction = self.stage {
                    self.stage = Stage::Ready;
                }
                say(out, host, Reply::Okay);
            }
            LmtpCommand::Quit => {
                self.stage = Stage::Ended;
                say(out, host, Reply::Bye);
            }
            LmtpCommand::Noop => say(out, host, Reply::Okay),
            LmtpCommand::Vrfy => say(out, host, Reply::CannotVerify),
            LmtpCommand::Expn | LmtpCommand::Help => say(out, host, Reply::NotImplemented),
        }
    }

    /// Answers a command line, without its CRLF, in room that was reserved.
    pub fn line(&mut self, line: &[u8], directory: &Directory, host: &[u8], out: &mut Vec<u8>)
        // There is room for the longest reply to one line, with the server's name.
        requires room { vec_len out.old + length host.now + NAMED_ROOM ≤ vec_capacity out.old }
        // It is between commands: within no data, awaiting no verdicts, and not ended.
        requires stage { IsOpen self.old.stage }
        // It stands where the dialogue does after this line, and what the dialogue replies stands behind what was written.
        ensures { Takes host.now (on_command_line directory.now (standing_of self.old) line.now)
            self.new out.old.items out.new.items }
    {
        if line.len() > MOST_TEXT {
            return say(out, host, Reply::LineTooLong);
        }
        match read_command(line) {
            Ok(command) => self.command(command, directory, host, out),
            Err(fault) => say(out, host, fault_reply(fault)),
        }
    }
}
