//! A house that has run is taken apart. What was in its parts is not looked at here.

ghost use Rattle.std.specs.Prelude.{◌≡◌};

use envelope::Directory;
use house_history::{Answer, Letter, Naming};
use house_shared::HouseShared;
use lane_work::{Delivery, Intake};
use locked_mailbox::LockedMailbox;
use shard_queue::{ReplyChannel, ShardQueue};
use std::sync::Mutex;

/// What is left of a house's shared state when nothing runs there any more.
pub struct Remains<B: Naming> {
    /// Which mailbox a path names, and which shard keeps it.
    pub directory: Directory,
    /// The lane of each shard.
    pub lanes: Vec<ShardQueue<Letter<B>>>,
    /// The reply channel of each producer.
    pub channels: Vec<ReplyChannel<Answer<B>>>,
    /// The mailboxes, by their numbers.
    pub mailboxes: Vec<Mutex<LockedMailbox<B>>>,
}

/// Takes a shared state apart; bells and names are let go.
pub fn remains_of<B: Naming>(shared: HouseShared<B>) -> Remains<B>
    ensures directory { result.directory ≡ shared.intake.directory }
    ensures lanes { result.lanes ≡ shared.intake.lanes }
    ensures channels { result.channels ≡ shared.delivery.channels }
    ensures mailboxes { result.mailboxes ≡ shared.delivery.mailboxes }
{
    let HouseShared {
        intake,
        delivery,
        bells: _,
        turns: _,
        alloc: _,
    } = shared;
    let Intake {
        directory,
        host: _,
        max_message: _,
        budget: _,
        lanes,
        closings: _,
    } = intake;
    let Delivery {
        mailboxes,
        channels,
        sessions: _,
        front: _,
    } = delivery;
    Remains {
        directory,
        lanes,
        channels,
        mailboxes,
    }
}
