//! What a client says is answered, to the end of what came, over mailboxes behind locks; a message that it
//! submits is carried, and the verdict on it answered, before anything behind it is taken; of several messages that
//! are copied each follows the verdict on the one before. Which bytes come, and what becomes of the answers, stands above.

ghost use Rattle.std.specs.Prelude.{◌≡◌, ◌≢◌, ◌∷◌, ◌++◌, [], List, None, false, true, IfErr, OnErr, OnOk};
ghost use Rattle.imap_session.specs.Dialogue.{Dialogue, StandsFor};
ghost use Rattle.imap_session.specs.Exchange.{may_send};
ghost use Rattle.imap_session.specs.Store.{Follows};
ghost use Rattle.imap_session.specs.declared.standing.After.TheVariants as after;
ghost use Rattle.workers_sync.specs.Carried.{Carried};
ghost use Rattle.session_thread.specs.Life.{Says, SaysInPart, TellsVerdict, moment};
ghost use Rattle.session_thread.specs.inner.Hearing.{HearsOn};

use crate::locked_store::LockedStore;
use house_history::{Naming, uid_fits};
use imap_session::{After, ImapConnection};
use line_io::Outlet;
use std::alloc::Global;
use std::sync::Wait;
use workers_sync::{Courier, Gate, Lost};

// Whether the session waits for the verdict on a message: where it has ended it waits for nothing.
fn awaits_verdict(connection: &ImapConnection) -> bool
    ensures yes { result ≡ true → may_send connection.now.session ≡ after.Submit }
    ensures no { result ≡ false → may_send connection.now.session ≢ after.Submit }
{
    matches!(connection.may_send(), After::Submit)
}

// Carries the message that was submitted, and answers the verdict on it. Room for the answer is asked for
// first: behind the carrying nothing is refused.
fn hear_verdict<B: Naming, R: Wait, G: Gate, C: Courier, O: Outlet>(
    connection: &mut ImapConnection,
    store: &mut LockedStore<'_, B, R, G>,
    courier: &mut C,
    out: &mut O,
) -> Result<(), Lost>
    requires ready { C.ready courier.old }
    requires awaits { may_send connection.old.session ≡ after.Submit }
    ensures ready { C.ready courier.new }
    ensures kept { (first : C) → C.kept first courier.old → C.kept first courier.new }
    ensures follows { OnOk result (Follows connection.old.session.mailing.sent
        connection.new.session.mailing.sent) }
    ensures told { OnOk result ((one : Carried)
        × ((done : List Carried) → C.carried courier.old done
        → C.carried courier.new (done ++ one ∷ []))
        × ((d : Dialogue) → StandsFor connection.old d
        → (next : Dialogue) × StandsFor connection.new next
        × TellsVerdict one (moment d store.old (O.said out.old))
        (moment next store.new (O.said out.new)))) }
    ensures same { OnErr result ((connection.new ≡ connection.old) × (store.new ≡ store.old)
        × (O.said out.new ≡ O.said out.old)) }
    ensures lot { O.lot out.new ≡ O.lot out.old }
{
    out.hold(connection.verdict_room())?;
    let Some(append) = connection.submission() else {
        unreachable!()
    };
    let verdict = store.carry(courier, append)?;
    uid_fits(verdict);
    let Ok(_) = connection.appended(verdict, store, out) else {
        unreachable!()
    };
    Ok(())
}

// Carries the message that was submitted, and answers the verdict on it; and so the messages that follow it, where it is one of several that are copied, till no
// verdict is awaited.
// Its frame stands apart: the stack of a thread that waits for its client is as deep as what it once answered.
#[inline(never)]
fn hear_verdicts<B: Naming, R: Wait, G: Gate, C: Courier, O: Outlet>(
    connection: &mut ImapConnection,
    store: &mut LockedStore<'_, B, R, G>,
    courier: &mut C,
    out: &mut O,
) -> Result<(), Lost>
    requires ready { C.ready courier.old }
    ensures ready { C.ready courier.new }
    ensures kept { (first : C) → C.kept first courier.old → C.kept first courier.new }
    ensures settled { OnOk result (may_send connection.new.session ≢ after.Submit) }
    ensures unheard { OnErr result (may_send connection.new.session ≡ after.Submit) }
    ensures told { (carried : List Carried)
        × (OnOk result ((done : List Carried) → C.carried courier.old done
        → C.carried courier.new (done ++ carried)))
        × ((d : Dialogue) → StandsFor connection.old d
        → (next : Dialogue) × StandsFor connection.new next
        × HearsOn carried (moment d store.old (O.said out.old))
        (moment next store.new (O.said out.new))) }
    ensures lot { O.lot out.new ≡ O.lot out.old }
{
    while awaits_verdict(connection) {
        hear_verdict(connection, store, courier, out)?;
    }
    Ok(())
}

/// Answers what a client says: each line that ends in it, and each verdict on a message that it submits
/// there, unless the session ends before. What is answered stands behind `out`.
///
/// Errors, after which the session takes nothing more: `NoMemory` where memory was refused, to the session
/// before the next line, or to the courier, or for the answer to a verdict before its message was carried;
/// `Torn` where the courier met something else than that verdict. What was answered by then stands behind
/// `out`.
pub fn answer<B: Naming, R: Wait, G: Gate, C: Courier, O: Outlet>(
    alloc: Global,
    connection: &mut ImapConnection,
    store: &mut LockedStore<'_, B, R, G>,
    courier: &mut C,
    bytes: &[u8],
    out: &mut O,
) -> Result<(), Lost>
    // The session hasn't ended, no message of it waits for a verdict, and the courier may carry one.
    requires going { connection.old.session.ended ≡ false }
    requires unsent { connection.old.session.mailing.sent ≡ None }
    requires ready { C.ready courier.old }

    // The courier may carry a message still, and is what it may have become by carrying.
    ensures ready { C.ready courier.new }
    ensures kept { (first : C) → C.kept first courier.old → C.kept first courier.new }

    // Without an error the bytes were taken and answered, to their end or the session's, and the courier carried their messages and no others.
    ensures ok { OnOk result ((carried : List Carried) ×
        ((done : List Carried) → C.carried courier.old done
        → C.carried courier.new (done ++ carried))
        × ((d : Dialogue) → StandsFor connection.old d
        → (next : Dialogue) × StandsFor connection.new next
        × Says bytes.now carried (moment d store.old (O.said out.old))
        (moment next store.new (O.said out.new)))) }

    // After an error some bytes were taken and answered, and it was short of room or memory (`NoMemory`), or no verdict came on its message.
    ensures err { IfErr result (λ why. (d : Dialogue) → StandsFor connection.old d
        → (next : Dialogue) × StandsFor connection.new next
        × SaysInPart (O.room out.new) bytes.now why (moment d store.old (O.said out.old))
        (moment next store.new (O.said out.new))) }
    ensures lot { O.lot out.new ≡ O.lot out.old }
{
    let mut used = 0;
    loop {
        let progress = connection.take(alloc, &bytes[used..], store, out);
        used += progress.used;
        if progress.after.is_none() {
            return Err(Lost::NoMemory);
        }
        if !awaits_verdict(connection) {
            return Ok(());
        }
        hear_verdicts(connection, store, courier, out)?;
        if connection.has_ended() {
            return Ok(());
        }
        if used == bytes.len() {
            return Ok(());
        }
    }
}
