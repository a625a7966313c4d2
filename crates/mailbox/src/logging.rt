//! How a mailbox logs a change: its window goes on, and keeps what some client is still to be shown
//! as far as it may. Messages and UIDs are not told here.

ghost use Rattle.std.specs.Prelude.{◌≡◌, ◌^◌, ◌<◌, ◌≤◌, ◌↔◌, [], ◌∷◌, length, Contains, OnOk, OnErr, IsErr};
ghost use Rattle.change_ring.specs.Log.{total};
ghost use Rattle.cursor_set.specs.Cursors.{open_numbers};
ghost use Rattle.mailbox.specs.Events.{Moves};
ghost use Rattle.mailbox.specs.inner.Events.{GoesOn};

use change_ring::{Change, ChangeRing, Spent};
use cursor_set::CursorSet;

// The least number of a change that the window has and some client is still to be shown; the end of
// the log where there is none.
fn wanted_from(ring: &ChangeRing, cursors: &CursorSet) -> u64
    ensures { result ≤ ring.now.base → 0 < length ring.now.changes
        → Contains (open_numbers cursors.now) ring.now.base }
{
    match cursors.least(ring.base()) {
        Some(number) => number,
        None => ring.total(),
    }
}

// Logs a change. Spent where 2^62 changes were logged; the ring is then unchanged.
pub(crate) fn log_change(
    ring: &mut ChangeRing,
    cursors: &CursorSet,
    change: Change,
) -> Result<(), Spent>
    ensures spent { IsErr result ↔ (total ring.old ≡ 2 ^ 62) }
    ensures err { OnErr result (ring.new ≡ ring.old) }
    ensures goes_on { OnOk result (GoesOn ring.old ring.new (change ∷ [])) }
    ensures moves { OnOk result (Moves cursors.now ring.old ring.new (change ∷ [])) }
{
    // Read for its bounds: a ring has room for some change, and no more changes than fit.
    let _room = ring.capacity();
    let keep_from = wanted_from(ring, cursors);
    let _lost = ring.push(change, keep_from)?;
    Ok(())
}
