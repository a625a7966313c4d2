//! How many of each thing came to pass since a server began. Where they are kept, and what is said of them, stands in the modules beside this
//! one.

ghost use Rattle.std.specs.Prelude.{◌≡◌};
ghost use Rattle.server_report.specs.Counting.{more, no_counts, with_message, with_refusal, with_verdict, with_verdicts};

use delivery_token::{Refusal, Verdict};

/// How many copies were refused, by why.
#[derive(Clone, Copy, Debug, PartialEq, Eq)]
pub struct Refused {
    /// The mailbox held as many messages as it may.
    pub mailbox_full: u64,
    /// The shard's lane had no room.
    pub shard_full: u64,
    /// The shard was closed.
    pub shard_closed: u64,
    /// The mailbox had no UID left.
    pub uids_spent: u64,
    /// Memory was refused.
    pub no_memory: u64,
}

/// How many of each thing came to pass since the server began. A count stays where 64 bits have no room for more.
#[derive(Clone, Copy, Debug, PartialEq, Eq)]
pub struct Counts {
    /// Messages, of mail and of sessions, on whose copies the verdicts were heard.
    pub messages: u64,
    /// Copies that were stored.
    pub stored: u64,
    /// Copies that were refused.
    pub refused: Refused,
    /// Connections of mail that were accepted.
    pub connections: u64,
    /// Sessions that were accepted.
    pub sessions: u64,
    /// Lines of the log that had no room.
    pub lost: u64,
}

// One more, as far as it goes.
fn add_one(count: &mut u64)
    ensures { count.new ≡ more 1 count.old }
{
    *count = count.saturating_add(1);
}

impl Refused {
    // One copy more that was refused.
    fn add(&mut self, why: Refusal)
        ensures { self.new ≡ with_refusal why self.old }
    {
        match why {
            Refusal::MailboxFull => add_one(&mut self.mailbox_full),
            Refusal::Full => add_one(&mut self.shard_full),
            Refusal::Shut => add_one(&mut self.shard_closed),
            Refusal::UidSpent => add_one(&mut self.uids_spent),
            Refusal::NoMemory => add_one(&mut self.no_memory),
        }
    }
}

impl Counts {
    /// Nothing has happened.
    pub fn new() -> Counts
        ensures { result ≡ no_counts }
    {
        Counts {
            messages: 0,
            stored: 0,
            refused: Refused {
                mailbox_full: 0,
                shard_full: 0,
                shard_closed: 0,
                uids_spent: 0,
                no_memory: 0,
            },
            connections: 0,
            sessions: 0,
            lost: 0,
        }
    }

    // One copy more, which had this verdict.
    fn add_copy(&mut self, verdict: Verdict)
        ensures { self.new ≡ with_verdict verdict self.old }
    {
        match verdict {
            Verdict::Stored { uid: _ } => add_one(&mut self.stored),
            Verdict::Refused(why) => self.refused.add(why),
        }
    }

    // So many copies more, in this order.
    fn add_copies(&mut self, verdicts: &[Verdict])
        ensures { self.new ≡ with_verdicts verdicts.now self.old }
    {
        for verdict in verdicts {
            self.add_copy(*verdict);
        }
    }

    /// Counts a message, with the verdicts on its copies.
    pub fn add_message(&mut self, verdicts: &[Verdict])
        ensures { self.new ≡ with_message verdicts.now self.old }
    {
        add_one(&mut self.messages);
        self.add_copies(verdicts);
    }

    /// Counts a connection of mail.
    pub fn add_connection(&mut self)
        ensures { self.new ≡ record self.old { connections = more 1 self.old.connections } }
    {
        add_one(&mut self.connections);
    }

    /// Counts a session.
    pub fn add_session(&mut self)
        ensures { self.new ≡ record self.old { sessions = more 1 self.old.sessions } }
    {
        add_one(&mut self.sessions);
    }

    /// Counts so many lines that had no room.
    pub fn add_lost(&mut self, lines: u64)
        ensures { self.new ≡ record self.old { lost = more lines self.old.lost } }
    {
        self.lost = self.lost.saturating_add(lines);
    }
}
