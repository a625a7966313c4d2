//! A session's way to the lanes: its permit on each, and its end of a reply channel, as a worker has them.
//! What a session is answered stands above.

ghost use Rattle.std.specs.Prelude.{◌≡◌, IfOk, List, OnOk, false, length, map};
ghost use Rattle.workers_sync.specs.Carried.{Carried};
ghost use Rattle.shard_queue.specs.Reply.{IsReceiver, received};
ghost use Rattle.shard_queue.specs.Shared.{IsStartOf};
ghost use Rattle.lane_work.specs.Account.{rooms_of};
ghost use Rattle.lane_work.specs.Couriers.{HasCarried, IsReady, IsSameDesk};
ghost use Rattle.lane_work.specs.inner.Copies.{WasJudged};
ghost use Rattle.lane_work.specs.inner.Couriers.{CarriesOn};
ghost use Rattle.lane_work.specs.Awaiting.{HearsItsOwn};
ghost use Rattle.lane_work.specs.Backing.{KeepsBacked};
ghost use Rattle.lane_work.specs.Ends.{CountsEnds};
ghost use Rattle.lane_work.specs.Permits.{AreLive, ArePermits, put_by};

use crate::bells::Notifier;
use crate::desk::Desk;
use crate::hearing::{Torn, hear_one};
use crate::producer::Context;
use crate::putting::put_copy;
use crate::verdict_log::VerdictLog;
use change_ring::Flags;
use delivery_token::{CopyKey, Text, Verdict};
use house_history::Naming;
use std::sync::Wait;
use workers_sync::{Courier, Gate, Lost, SyncPoint};

/// Carries the messages of one seat's sessions: each goes into the lane of its mailbox's shard, for which
/// is notified, and the verdict on it is awaited and noted.
pub struct LaneCourier<'a, B: Naming, R: Wait, S: Notifier, N: VerdictLog> {
    /// What it works with; the channel is the seat's.
    pub context: Context<'a, B, R, S>,
    /// What it holds for the seat: its number, its permits, its end of the channel, and what it sends with.
    pub desk: Desk<B>,
    /// Which session of its seat it carries for, from 0.
    pub serial: u64,
    /// What it notes of the verdicts.
    pub book: N,
    /// Whether something came that it didn't await: then it carries nothing more.
    pub is_torn: bool,
}

// Puts a copy, and hears the verdict on it.
fn judge<B: Naming, R: Wait, G: Gate, S: Notifier>(
    context: &Context<'_, B, R, S>,
    sync_point: &mut SyncPoint<'_, G>,
    desk: &mut Desk<B>,
    key: CopyKey,
    mailbox: u8,
    text: &Text,
    flags: Flags,
) -> Result<Verdict, Torn>
    requires permits { ArePermits context.now.intake.now.lanes.items desk.old.number
        desk.old.permits.items }
    requires receiver { IsReceiver context.now.channel.now desk.old.receiver }
    requires lanes { context.now.intake.now.directory.shards
        ≡ length context.now.intake.now.lanes.items }
    requires live { AreLive desk.old.permits.items }
    ensures permits { ArePermits context.now.intake.now.lanes.items desk.old.number
        desk.new.permits.items }
    ensures receiver { IsReceiver context.now.channel.now desk.new.receiver }
    ensures number { desk.new.number ≡ desk.old.number }
    ensures live { AreLive desk.new.permits.items }
    ensures ends { CountsEnds desk.old desk.new }
    ensures grew { IsStartOf (received desk.old.receiver) (received desk.new.receiver) }
    ensures only { OnOk result (HearsItsOwn desk.old desk.new) }
    ensures backed { KeepsBacked desk.old desk.new }
    ensures judged { IfOk result (λ verdict.
        WasJudged context.now.intake.now.directory (rooms_of context.now.intake.now.lanes.items)
        desk.old.number
        (record { key = key; mailbox = mailbox; text = text.now; flags = flags }) verdict
        (received desk.new.receiver) (map put_by desk.old.permits.items)
        (map put_by desk.new.permits.items)) }
{
    match put_copy(context, sync_point, desk, key, mailbox, text, flags) {
        Some(verdict) => Ok(verdict),
        None => hear_one(context, sync_point, desk, key, mailbox),
    }
}

impl<'a, B: Naming, R: Wait, S: Notifier, N: VerdictLog> Courier for LaneCourier<'a, B, R, S, N> {
    // It has the seat's own permit on each lane, none of them over, and the receiver of its channel.
    ghost ready = { λ c. IsReady c.context.intake.now c.context.channel.now c.desk };

    // Its books tell of just these messages of its session, and of the verdicts on them.
    ghost carried = { λ c done. HasCarried c.context.intake.now c.desk c.serial (N.tells c.book) done };

    // Intake, channel, number, serial and the book's owner are the same, no end was counted that wasn't heard, and the house's history has
    // what was put and heard since, as it had what was before. Unless it is torn, as many verdicts were heard as copies were put, and these
    // were of some messages of its session, which it carried behind those before.
    ghost kept = { λ first now. IsSameDesk first.context.intake.now now.context.intake.now first.context.channel.now now.context.channel.now first.desk now.desk
        × (now.serial ≡ first.serial) × (N.owner now.book ≡ N.owner first.book)
        × (now.is_torn ≡ false → (first.is_torn ≡ false) × HearsItsOwn first.desk now.desk
        × ((carried : List Carried)
        × CarriesOn first.context.intake.now first.serial first.desk carried now.desk)) };

    fn carry<G: Gate>(
        &mut self,
        sync_point: &mut SyncPoint<'_, G>,
        message: u32,
        mailbox: u8,
        text: &Text,
        flags: Flags,
    ) -> Result<Verdict, Lost> {
        if self.is_torn {
            return Err(Lost::Torn);
        }
        self.book.reserve(1)?;
        let key = CopyKey {
            seat: self.desk.number,
            serial: self.serial,
            message,
            recipient: 0,
        };
        let (context, desk) = (&self.context, &mut self.desk);
        let Ok(verdict) = judge(context, sync_point, desk, key, mailbox, text, flags) else {
            self.is_torn = true;
            return Err(Lost::Torn);
        };
        let bytes = text.as_slice().len();
        self.book.note_one(key, mailbox, bytes, verdict);
        Ok(verdict)
    }
}
