//! The life of a session's thread: the greeting, its steps, and the leaving of its mailbox. Who starts
//! the thread, and what its steps are, stands above.

ghost use Rattle.std.specs.Prelude.{◌≡◌, ◌++◌, ◌<◌, ◌⊎◌, ℕ, List, None, false, true, IfErr, OnErr, OnOk};
ghost use Rattle.imap_session.specs.Commands.{greeting};
ghost use Rattle.imap_session.specs.declared.standing.Profile.TheVariants.{Standard};
ghost use Rattle.imap_session.specs.Dialogue.{Dialogue, StandsFor};
ghost use Rattle.workers_sync.specs.Carried.{Carried};
ghost use Rattle.session_thread.specs.Life.{Awaits, Departs, IsForgotten, IsOver, IsShortInTurn, Lives, LivesInPart, Moment, Steps, StopsIn, Turns, greeted_at, moment, takes_more};

use crate::locked_store::LockedStore;
use crate::speaking::answer;
use crate::turns::idle_turn;
use budget::Budget;
use house_history::Naming;
use imap_session::{Admission, After, Folder, ImapConnection, Profile, Store};
use line_io::Outlet;
use settings::Step;
use std::alloc::{AllocError, Global};
use std::sync::Wait;
use std::thread;
use workers_sync::{Courier, Gate, Lost};

/// Whether the client may send more: its session goes on, and awaits no verdict on a message.
pub fn takes_more(connection: &ImapConnection) -> bool
    ensures is { result ≡ takes_more connection.now.session }

    // Where it may, the session hasn't ended, and no message of it waits for a verdict.
    ensures goes { result ≡ true → connection.now.session.ended ≡ false }
    ensures unsent { result ≡ true → connection.now.session.mailing.sent ≡ None }
{
    !matches!(connection.may_send(), After::Bye | After::Submit)
}

// The session has turns while it idles, until so many changes were shown or so many turns are spent. Others go on where one showed nothing.
fn wait_for<B: Naming, R: Wait, G: Gate, O: Outlet>(
    connection: &mut ImapConnection,
    store: &mut LockedStore<'_, B, R, G>,
    count: u64,
    turns: u64,
    out: &mut O,
) -> Result<(), AllocError>
    ensures ok { OnOk result ((d : Dialogue) → StandsFor connection.old d
        → (next : Dialogue) × StandsFor connection.new next
        × Awaits turns count (moment d store.old (O.said out.old))
        (moment next store.new (O.said out.new))) }
    ensures err { OnErr result ((d : Dialogue) → StandsFor connection.old d
        → (next : Dialogue) × StandsFor connection.new next
        × ((had : ℕ) × (had < turns)
        × Turns count (moment d store.old (O.said out.old)) had
        (moment next store.new (O.said out.new))
        × (IsOver count (moment next store.new (O.said out.new)) → ⊥))
        × IsShortInTurn (O.room out.new) (moment next store.new (O.said out.new))) }
    ensures lot { O.lot out.new ≡ O.lot out.old }
{
    for _turn in 0..turns {
        if store.shown() >= count {
            return Ok(());
        }
        if !connection.is_idling() {
            return Ok(());
        }
        let shown = idle_turn(connection, store, out)?;
        if shown == 0 {
            thread::yield_now();
        }
    }
    Ok(())
}

// One step. A session that has ended, or awaits a verdict, does nothing.
fn make<B: Naming, R: Wait, G: Gate, C: Courier, O: Outlet>(
    alloc: Global,
    connection: &mut ImapConnection,
    store: &mut LockedStore<'_, B, R, G>,
    courier: &mut C,
    step: &Step,
    turns: u64,
    out: &mut O,
) -> Result<(), Lost>
    requires ready { C.ready courier.old }
    ensures ready { C.ready courier.new }
    ensures kept { (first : C) → C.kept first courier.old → C.kept first courier.new }
    ensures ok { OnOk result ((carried : List Carried) ×
        ((done : List Carried) → C.carried courier.old done
        → C.carried courier.new (done ++ carried))
        × ((d : Dialogue) → StandsFor connection.old d
        → (next : Dialogue) × StandsFor connection.new next
        × Steps turns step.now carried (moment d store.old (O.said out.old))
        (moment next store.new (O.said out.new)))) }
    ensures err { IfErr result (λ why. (d : Dialogue) → StandsFor connection.old d
        → (next : Dialogue) × StandsFor connection.new next
        × (takes_more d.standing ≡ true)
        × StopsIn turns (O.room out.new) step.now why (moment d store.old (O.said out.old))
        (moment next store.new (O.said out.new))) }
    ensures lot { O.lot out.new ≡ O.lot out.old }
{
    if !takes_more(connection) {
        return Ok(());
    }
    match step {
        Step::Say(bytes) => answer(alloc, connection, store, courier, bytes, out),
        Step::Await(count) => Ok(wait_for(connection, store, *count, turns, out)?),
    }
}

// The steps, after the greeting.
fn make_all<B: Naming, R: Wait, G: Gate, C: Courier, O: Outlet>(
    alloc: Global,
    connection: &mut ImapConnection,
    store: &mut LockedStore<'_, B, R, G>,
    courier: &mut C,
    steps: &[Step],
    turns: u64,
    out: &mut O,
) -> Result<(), Lost>
    requires ready { C.ready courier.old }
    ensures ready { C.ready courier.new }
    ensures kept { (first : C) → C.kept first courier.old → C.kept first courier.new }
    ensures ok { OnOk result ((carried : List Carried) ×
        ((done : List Carried) → C.carried courier.old done
        → C.carried courier.new (done ++ carried))
        × ((d : Dialogue) → StandsFor connection.old d
        → (next : Dialogue) × StandsFor connection.new next
        × Lives turns (moment d store.old (O.said out.old)) steps.now carried
        (moment next store.new (O.said out.new)))) }
    ensures err { IfErr result (λ why. (d : Dialogue) → StandsFor connection.old d
        → (next : Dialogue) × StandsFor connection.new next
        × LivesInPart turns (O.room out.new) (moment d store.old (O.said out.old)) steps.now why
        (moment next store.new (O.said out.new))) }
    ensures lot { O.lot out.new ≡ O.lot out.old }
{
    for step in steps {
        make(alloc, connection, store, courier, step, turns, out)?;
    }
    Ok(())
}

/// Leaves the mailbox that the session is in, if any, without removal.
///
/// Errors: `Torn` where the mailbox that was found doesn't know the session's handle, which the session
/// keeps then.
pub fn depart<B: Naming, R: Wait, G: Gate>(store: &mut LockedStore<'_, B, R, G>) -> Result<(), Lost>
    ensures gone { OnOk result (Departs store.old store.new) }
    ensures forgotten { OnErr result (IsForgotten store.old store.new) }
    ensures torn { IfErr result (λ why. why ≡ Lost.Torn) }
{
    if !store.is_inside() {
        return Ok(());
    }
    match store.leave(false) {
        Ok(_gone) => Ok(()),
        // It removes nothing, so its mailbox's log has room, and it wants no memory.
        Err(_) => Err(Lost::Torn),
    }
}

/// A session lives: its client is greeted, makes its steps, and leaves the mailbox that it is in, if
/// any, without removal. What was said stands behind `out`. A step that awaits changes has at most
/// `turns` turns, and waits on no bell; where a turn showed nothing, other threads may go on. A step of
/// a session that has ended does nothing, nor does one that awaits changes while it doesn't idle. The
/// session takes messages of at most `most` bytes that its client appends, or none: each is given to
/// `courier`, and the verdict on it is answered before anything more is taken.
///
/// Errors: `NoMemory` where memory was refused to the session itself, or to the courier. Before the
/// greeting nothing was done then. `Torn` where the courier met something else than the verdict that was
/// awaited, and where the mailbox that is found when the session leaves doesn't know its handle. After
/// the greeting the session stops, and leaves its mailbox all the same: what was said by then stands
/// behind `out`, and is what the steps say that were made, and of the next what was answered or the turns
/// that were had. What a command was refused memory for is told to the client and is no error.
pub fn live<B: Naming, R: Wait, G: Gate, C: Courier, O: Outlet>(
    alloc: Global,
    store: &mut LockedStore<'_, B, R, G>,
    courier: &mut C,
    folders: Vec<Folder>,
    most: Option<u32>,
    steps: &[Step],
    turns: u64,
    out: &mut O,
) -> Result<(), Lost>
    // The courier may carry a message; it may after, and is what it may have become by carrying.
    requires ready { C.ready courier.old }
    ensures ready { C.ready courier.new }
    ensures kept { (first : C) → C.kept first courier.old → C.kept first courier.new }

    // Without an error the greeting and what all steps say stand behind `out`, their messages were carried, and the session left.
    ensures ok { OnOk result ((carried : List Carried) ×
        ((done : List Carried) → C.carried courier.old done
        → C.carried courier.new (done ++ carried))
        × ((last : Moment) × Lives turns (greeted_at most folders.items store.old (O.said out.old
        ++ greeting Standard)) steps.now carried last
        × (O.said out.new ≡ last.text) × Departs last.selection store.new)) }

    // After an error nothing was said or done; or it was greeted, made its first steps, stopped in the next, and left or is forgotten;
    // or it made all, and is forgotten.
    ensures err { IfErr result (λ why. (store.new ≡ store.old) × (O.said out.new ≡ O.said out.old)
        × (why ≡ Lost.NoMemory)
        ⊎ ((last : Moment) × LivesInPart turns (O.room out.new)
        (greeted_at most folders.items store.old (O.said out.old ++ greeting Standard))
        steps.now why last
        × (O.said out.new ≡ last.text)
        × (Departs last.selection store.new ⊎ IsForgotten last.selection store.new))
        ⊎ (carried : List Carried) × ((last : Moment)
        × Lives turns (greeted_at most folders.items store.old (O.said out.old
        ++ greeting Standard)) steps.now carried last
        × (O.said out.new ≡ last.text) × IsForgotten last.selection store.new × (why ≡ Lost.Torn))) }
    ensures lot { O.lot out.new ≡ O.lot out.old }
{
    let known = Admission {
        max_message: most,
        profile: Profile::Standard,
        login: None,
        budget: Budget::unlimited(),
    };
    let mut connection = ImapConnection::new(alloc, folders, known)?;
    connection.greet(out)?;
    let lived = make_all(alloc, &mut connection, store, courier, steps, turns, out);
    let gone = depart(store);
    lived?;
    gone
}
