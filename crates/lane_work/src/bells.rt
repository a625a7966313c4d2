//! Bells wake who sleeps: a shard's consumer, and the sessions of a user. A ring is kept until it is
//! heard, so none is lost, and one too many costs a look. Nothing is proved of them.

ghost use Rattle.std.specs.Prelude.{◌<◌};

use crossbeam_utils::sync::{Parker, Unparker};
use std::hint;
use std::sync::Wait;
use workers_sync::{SessionBell, ring_each};

/// So often a consumer pauses before it sleeps.
const PAUSES: u32 = 64;

/// Whoever is to take what waits on a shard's lane, as a producer calls for it.
pub trait Notifier {
    /// Something may wait on this shard's lane. Nothing is proved of it: one call too many has to do
    /// no harm.
    fn notify<R: Wait>(&self, rt: &R, shard: usize);

    /// How many copies of one message may be put on a shard's lane before it is called for them. It is 1 where the
    /// consumer may sleep until it is called, since a gate may make the producer wait for it then.
    fn at_once(&self) -> usize
        ensures { 0 < result }
    {
        1
    }
}

/// A row of bells, that of each shard's consumer at its number. Where one is missing nothing is rung.
impl Notifier for Vec<Unparker> {
    fn notify<R: Wait>(&self, _rt: &R, shard: usize) {
        if let Some(bell) = self.get(shard) {
            bell.unpark();
        }
    }
}

/// Wakes the sessions that idle, of the user to whom a mailbox belongs. Where there is none it does
/// nothing.
pub(crate) fn ring_sessions(sessions: &[Vec<SessionBell>], mailbox: u8) {
    if let Some(bells) = sessions.get(usize::from(mailbox)) {
        ring_each(bells);
    }
}

/// Waits until there may be something to take, after so many pauses in vain: at first it pauses, and
/// then it sleeps until the bell rings. Answers how many pauses there were since it slept.
pub(crate) fn wait_for<R: Wait>(rt: &R, bell: &Parker, pauses: u32) -> u32 {
    if pauses < PAUSES {
        hint::spin_loop();
        return pauses.saturating_add(1);
    }
    bell.park(rt);
    0
}
