//! What a visit says, over the parts that it is made of: the answers to a piece of the client's bytes,
//! and the turns of a session that idles. All of it is appended; who sends it stands in `visit`.

ghost use Rattle.std.specs.Prelude.{◌≡◌, ◌++◌, List, None, false, true, OnErr, OnOk, IfErr};
ghost use Rattle.imap_session.specs.Dialogue.{Dialogue, StandsFor};
ghost use Rattle.workers_sync.specs.Carried.{Carried};
ghost use Rattle.session_thread.specs.Life.{moment};
ghost use Rattle.imap_stream.specs.Visits.{Hears, HearsInPart, ShowsAll, ShowsInPart};

use house_history::Naming;
use imap_session::ImapConnection;
use line_io::Outlet;
use session_thread::{LockedStore, answer, idle_turn};
use std::alloc::{AllocError, Global};
use std::sync::Wait;
use std::sync::atomic::{AtomicBool, Ordering};
use workers_sync::{Courier, Gate, Lost};

/// The session has turns while it idles, until one shows nothing.
///
/// Errors: `AllocError` where memory was refused for a turn; those before stand.
pub(crate) fn show_all<B: Naming, R: Wait, G: Gate, O: Outlet>(
    rt: &R,
    connection: &mut ImapConnection,
    store: &mut LockedStore<'_, B, R, G>,
    out: &mut O,
) -> Result<(), AllocError>
    ensures ok { OnOk result ((d : Dialogue) → StandsFor connection.old d
        → (next : Dialogue) × StandsFor connection.new next
        × ShowsAll (moment d store.old (O.said out.old)) (moment next store.new (O.said out.new))) }
    ensures err { OnErr result ((d : Dialogue) → StandsFor connection.old d
        → (next : Dialogue) × StandsFor connection.new next
        × ShowsInPart (O.room out.new) (moment d store.old (O.said out.old))
        (moment next store.new (O.said out.new))) }
    ensures lot { O.lot out.new ≡ O.lot out.old }
{
    for _turn in rt.forever() {
        if !connection.is_idling() {
            return Ok(());
        }
        let shown = idle_turn(connection, store, out)?;
        if shown == 0 {
            return Ok(());
        }
    }
    unreachable!()
}

/// Answers a piece, and shows what there is where the session idles then. Whether it does is stored
/// in `idles` before its first turn. A message that is submitted in the piece is given to `courier`, and the
/// verdict on it is answered before anything more is taken.
///
/// Errors: `NoMemory` where memory was refused, within the piece or within the turns, or to the courier;
/// `Torn` where the courier met something else than the verdict. What was done by then stands.
pub(crate) fn answer_and_show<B: Naming, R: Wait, G: Gate, C: Courier, O: Outlet>(
    rt: &R,
    alloc: Global,
    connection: &mut ImapConnection,
    store: &mut LockedStore<'_, B, R, G>,
    courier: &mut C,
    piece: &[u8],
    idles: &AtomicBool,
    out: &mut O,
) -> Result<(), Lost>
    // The session hasn't ended, no message of it waits for a verdict, and the courier may carry one.
    requires going { connection.old.session.ended ≡ false }
    requires unsent { connection.old.session.mailing.sent ≡ None }
    requires ready { C.ready courier.old }

    // The courier may carry a message still, and is what it may have become by carrying.
    ensures ready { C.ready courier.new }
    ensures kept { (first : C) → C.kept first courier.old → C.kept first courier.new }

    // Without an error the piece was answered, its messages and no others were carried, and what there is was shown while it idles.
    ensures ok { OnOk result ((carried : List Carried) ×
        ((done : List Carried) → C.carried courier.old done
        → C.carried courier.new (done ++ carried))
        × ((d : Dialogue) → StandsFor connection.old d
        → (next : Dialogue) × StandsFor connection.new next
        × Hears piece.now carried (moment d store.old (O.said out.old))
        (moment next store.new (O.said out.new)))) }

    // After an error it stopped within the piece, or in the turns behind it; what was said by then stands behind `out`.
    ensures err { IfErr result (λ why. (d : Dialogue) → StandsFor connection.old d
        → (next : Dialogue) × StandsFor connection.new next
        × HearsInPart (O.room out.new) piece.now why (moment d store.old (O.said out.old))
        (moment next store.new (O.said out.new))) }
    ensures lot { O.lot out.new ≡ O.lot out.old }
{
    let answered = answer(alloc, connection, store, courier, piece, out);
    idles.store(connection.is_idling(), Ordering::SeqCst);
    answered?;
    show_all(rt, connection, store, out)?;
    Ok(())
}
