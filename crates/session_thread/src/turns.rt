//! One turn of a session that idles, over its mailbox. Until when it has turns is said by whoever gives them.

ghost use Rattle.std.specs.Prelude.{◌≡◌, true, IfOk, OnErr};
ghost use Rattle.imap_session.specs.Exchange.{is_idling};
ghost use Rattle.imap_session.specs.Dialogue.{Dialogue, StandsFor};
ghost use Rattle.session_thread.specs.Life.{HasShown, IsShortInTurn, moment};

use crate::locked_store::LockedStore;
use house_history::Naming;
use imap_session::{ImapConnection, SessionFault};
use line_io::Outlet;
use std::alloc::AllocError;
use std::sync::Wait;
use workers_sync::Gate;

/// Room, in bytes, for the line that a turn may end a session with.
const TURN_ROOM: usize = 48;

/// A session that idles has a turn (RFC 2177, 3): what is pending in its mailbox is shown behind `out`, 64 changes at most. Answers how
/// many were shown; where the client missed changes it was told BYE, and its session has ended.
///
/// Errors: `AllocError` where memory was refused, by the mailbox or for that BYE. Nothing happened then.
pub fn idle_turn<B: Naming, R: Wait, G: Gate, O: Outlet>(
    connection: &mut ImapConnection,
    store: &mut LockedStore<'_, B, R, G>,
    out: &mut O,
) -> Result<usize, AllocError>
    requires { is_idling connection.old.session ≡ true }

    // Without an error it had one turn, which showed as many changes as are answered.
    ensures ok { IfOk result (λ count. (d : Dialogue) → StandsFor connection.old d
        → (next : Dialogue) × StandsFor connection.new next
        × HasShown count (moment d store.old (O.said out.old))
        (moment next store.new (O.said out.new))) }

    // After an error it stands as before, and was short of room in `out`, or its mailbox refused it memory.
    ensures err { OnErr result ((d : Dialogue) → StandsFor connection.old d
        → StandsFor connection.new d
        × (moment d store.new (O.said out.new) ≡ moment d store.old (O.said out.old))
        × IsShortInTurn (O.room out.new) (moment d store.new (O.said out.new))) }
    ensures lot { O.lot out.new ≡ O.lot out.old }
{
    out.hold(TURN_ROOM)?;
    match connection.idle_turn(store, out) {
        Ok(shown) => Ok(shown),
        Err(SessionFault::NoMemory) => Err(AllocError),
        Err(SessionFault::Ended) => unreachable!(),
    }
}
