//! The delivery core, as the store of the session that it serves now.

ghost use Rattle.house.specs.CoreStore.{Serves};

use change_ring::{FlagOp, Flags};
use delivery_core::DeliveryCore;
use imap_grammar::{Named, SeqSet, SetFault};
use imap_session::Store;
use mailbox::{MailFault, Opening, Row, Status};
use std::alloc::Global;

/// The delivery core, and the session that is served now.
#[derive(Drop)]
pub struct CoreStore {
    /// Where the mailboxes and their clients are.
    pub core: DeliveryCore,
    /// The place of the session, from 0.
    pub session: u8,
}

/// Each call is the core's own of this session. Stranger where the session has entered no mailbox, and for
/// `enter`, `status` and `discard` where there is none of this number; nothing is changed by a call that is
/// refused.
impl Store for CoreStore {
    ghost step = { λ old call answered new. Serves old call answered new };

    fn enter(&mut self, mailbox: u8) -> Result<Opening, MailFault> {
        self.core.enter(self.session, mailbox)
    }

    fn choose(
        &self,
        alloc: Global,
        set: &SeqSet<'_>,
        by_uid: bool,
    ) -> Result<Option<Vec<Named>>, MailFault> {
        let view = self.core.view(self.session)?;
        match set.resolve(alloc, &view, by_uid) {
            Err(SetFault::TooHigh) => Ok(None),
            Err(SetFault::NoMemory) => Err(MailFault::NoMemory),
            Ok(messages) => Ok(Some(messages)),
        }
    }

    fn read(&mut self, uid: u32, mark_seen: bool) -> Result<Option<Row>, MailFault> {
        self.core.read(self.session, uid, mark_seen)
    }

    fn status(&mut self, mailbox: u8) -> Result<Status, MailFault> {
        match self.core.status(mailbox) {
            None => Err(MailFault::Stranger),
            Some(status) => Ok(status),
        }
    }

    fn store(&mut self, uid: u32, op: FlagOp) -> Result<Option<Flags>, MailFault> {
        self.core.store(self.session, uid, op)
    }

    fn expunge(
        &mut self,
        uids: Option<&[u32]>,
        spare: usize,
        out: &mut Vec<u8>,
    ) -> Result<usize, MailFault> {
        self.core.expunge(self.session, uids, spare, out)
    }

    fn feed(&mut self, limit: usize, spare: usize, out: &mut Vec<u8>) -> Result<usize, MailFault> {
        self.core.feed(self.session, limit, spare, out)
    }

    fn leave(&mut self, remove: bool) -> Result<usize, MailFault> {
        self.core.leave(self.session, remove)
    }

    fn discard(&mut self, mailbox: u8, uids: &[u32]) -> Result<(), MailFault> {
        self.core.discard(mailbox, uids)
    }
}
