//! A courier of tests, which brings a verdict, or none.

use super::houses::TestHouse;
use change_ring::Flags;
use delivery_token::{Refusal, Text, Verdict};
use house_history::Naming;
use std::sync::Wait;
use workers_sync::{Courier, Gate, Lost, SyncPoint};

/// What a test's courier does with each message.
#[derive(Clone, Copy)]
pub(crate) enum Way {
    // It delivers it into its mailbox, in one event.
    Delivers,
    // It says that its shard is full.
    Refuses,
    // It brings no verdict.
    Loses(Lost),
}

/// A courier that goes straight to the mailboxes.
#[derive(Drop)]
pub(crate) struct TestCourier<'a, B: Naming, R: Wait> {
    rt: &'a R,
    house: &'a TestHouse<B>,
    way: Way,
    /// So many messages were given to it.
    pub(crate) asked: u32,
    /// Whether each had the next number.
    pub(crate) are_in_order: bool,
}

impl<'a, B: Naming, R: Wait> TestCourier<'a, B, R> {
    pub(crate) fn new(rt: &'a R, house: &'a TestHouse<B>, way: Way) -> TestCourier<'a, B, R> {
        TestCourier {
            rt,
            house,
            way,
            asked: 0,
            are_in_order: true,
        }
    }

    // The verdict of the mailbox, which is asked as a consumer would.
    fn deliver(&self, mailbox: u8, text: &Text, flags: Flags) -> Result<Verdict, Lost> {
        let Ok(text) = text.copy() else {
            return Err(Lost::NoMemory);
        };
        match self.house.deliver(self.rt, mailbox, text, flags) {
            Some(verdict) => Ok(verdict),
            None => Err(Lost::Torn),
        }
    }
}

impl<B: Naming, R: Wait> Courier for TestCourier<'_, B, R> {
    ghost ready = { λ c. Unit };

    ghost carried = { λ c done. Unit };

    ghost kept = { λ first now. Unit };

    fn carry<G: Gate>(
        &mut self,
        sync_point: &mut SyncPoint<'_, G>,
        message: u32,
        mailbox: u8,
        text: &Text,
        flags: Flags,
    ) -> Result<Verdict, Lost> {
        self.are_in_order = self.are_in_order && message == self.asked;
        self.asked = self.asked.saturating_add(1);
        sync_point.pass();
        match self.way {
            Way::Delivers => self.deliver(mailbox, text, flags),
            Way::Refuses => Ok(Verdict::Refused(Refusal::Full)),
            Way::Loses(why) => Err(why),
        }
    }
}
