//! What connections and sessions say is printed: each line with a mark that tells who said it, all of it or nothing. Where memory is refused it is
//! printed at the next event of the same connection or session.

ghost use Rattle.std.specs.Prelude.{◌≡◌, ◌≤◌, ◌<◌, ◌⊎◌, ◌++◌, ℕ, List, length, true, false, OnOk, OnErr, IfOk};
ghost use Rattle.delivery_token.specs.declared.CopyKey.{CopyKey};
ghost use Rattle.delivery_token.specs.declared.log.Noted.{Noted};
ghost use Rattle.line_io.specs.Wire.{marked};
ghost use Rattle.lmtp_machine.specs.declared.connection.What.TheVariants as whats;
ghost use Rattle.house_peers.specs.Caller as connection;
ghost use Rattle.house_peers.specs.Caller.{Terms};
ghost use Rattle.house_peers.specs.ConnectionStands.{StandsForConnection};
ghost use Rattle.house_peers.specs.Taking as taking;
ghost use Rattle.house_peers.specs.Taking.{HasWork, line_effort};
ghost use Rattle.house_peers.specs.HouseSession.{HadTurn, with_all_said};
ghost use Rattle.house_peers.specs.SeatedSession as seated;
ghost use Rattle.house_peers.specs.SeatedSession.{StandsForSeated, seat_effort, with_place};
ghost use Rattle.house_peers.specs.Visitor as session;
ghost use Rattle.delivery_core.specs.Changes.{SameDelivery};
ghost use Rattle.house.specs.CoreStore.{Serves};
ghost use Rattle.house.specs.Printing.{of_connection, of_session};
ghost use Rattle.house.specs.inner.Printing.{Idled, IdledInPart, WentOn};
ghost use Rattle.house.specs.inner.Steps.{ConnectionWent, IsOf};

use crate::core_store::CoreStore;
use envelope::Directory;
use house_peers::{HouseConnection, SeatedSession};
use line_io::append_marked;
use lmtp_machine::What;
use std::alloc::{AllocError, Global};

// Prints each line of the words, with a mark and a number before it. Where there are none no memory is asked for.
fn print_words(mark: u8, number: u8, words: &[u8], out: &mut Vec<u8>) -> Result<(), AllocError>
    ensures ok { OnOk result (out.new.items ≡ out.old.items ++ marked mark number words.now) }
    ensures err { OnErr result ((out.new.items ≡ out.old.items) × (0 < length words.now)) }
{
    if words.is_empty() {
        return Ok(());
    }
    append_marked(mark, number, words, out)
}

// Prints what a connection said, and tells it so.
fn print_connection(
    caller: &mut HouseConnection,
    number: u8,
    out: &mut Vec<u8>,
) -> Result<(), AllocError>
    ensures ok { OnOk result ((caller.new ≡ taking.with_all_said caller.old) ×
        (out.new.items ≡ out.old.items ++ marked of_connection number caller.old.unsaid)) }
    ensures err { OnErr result ((caller.new ≡ caller.old) × (out.new.items ≡ out.old.items)) }
    ensures asks { OnErr result (caller.old.gone ≡ true → ⊥) }
    ensures words { OnErr result (0 < length caller.new.unsaid) }
{
    print_words(b'L', number, caller.unsaid(), out)?;
    caller.note_printed();
    Ok(())
}

// Prints what a session said, and tells it so.
fn print_session(
    visitor: &mut SeatedSession,
    number: u8,
    out: &mut Vec<u8>,
) -> Result<(), AllocError>
    ensures ok { OnOk result ((visitor.new
        ≡ with_place (with_all_said visitor.old.place) visitor.old) ×
        (out.new.items ≡ out.old.items ++ marked of_session number visitor.old.place.unsaid)) }
    ensures err { OnErr result ((visitor.new ≡ visitor.old) × (out.new.items ≡ out.old.items)) }
    ensures words { OnErr result (0 < length visitor.new.place.unsaid) }
{
    print_words(b'I', number, visitor.unsaid(), out)?;
    visitor.note_printed();
    Ok(())
}

// A connection does what it can now, and what it says is printed.
pub(crate) fn proceed(
    caller: &mut HouseConnection,
    number: u8,
    directory: &Directory,
    out: &mut Vec<u8>,
) -> Result<What, AllocError>
    ensures less { line_effort caller.new ≤ line_effort caller.old }
    ensures ok { IfOk result (λ what.
        (k : Terms) (seat : ℕ) (next : CopyKey) (heard : List Noted) (b : connection.Caller) →
        IsOf k number seat directory.now → StandsForConnection k seat next heard caller.old b →
        ConnectionWent k true seat next heard b what caller.new out.old.items out.new.items) }
    ensures err { OnErr result
        ((k : Terms) (seat : ℕ) (next : CopyKey) (heard : List Noted) (b : connection.Caller) →
        IsOf k number seat directory.now → StandsForConnection k seat next heard caller.old b →
        ConnectionWent k false seat next heard b whats.More caller.new out.old.items
        out.new.items) }
    ensures asks { OnErr result (caller.old.gone ≡ false) }
    ensures works { OnErr result (HasWork caller.old ⊎ (0 < length caller.new.unsaid)) }
{
    let Ok(what) = caller.proceed(directory) else {
        // What was done stands, and what was said is printed as far as memory goes.
        let _ = print_connection(caller, number, out);
        return Err(AllocError);
    };
    print_connection(caller, number, out)?;
    Ok(what)
}

// A session whose client is there does what it can now, over its store, and what it says is printed.
pub(crate) fn go_on(
    visitor: &mut SeatedSession,
    alloc: Global,
    number: u8,
    store: &mut CoreStore,
    out: &mut Vec<u8>,
) -> Result<(), AllocError>
    requires there { visitor.old.gone ≡ false }
    ensures less { seat_effort visitor.new ≤ seat_effort visitor.old }
    ensures delivery { SameDelivery store.old.core store.new.core }
    ensures gone { visitor.new.gone ≡ false }
    ensures ok { OnOk result
        ((seat : ℕ) (next : CopyKey) (heard : List Noted) (v : session.SeatedVisitor) →
        StandsForSeated seat next heard visitor.old v
        → WentOn Serves true seat number next heard v store.old store.new out.old.items
        out.new.items visitor.new) }
    ensures err { OnErr result
        ((seat : ℕ) (next : CopyKey) (heard : List Noted) (v : session.SeatedVisitor) →
        StandsForSeated seat next heard visitor.old v
        → WentOn Serves false seat number next heard v store.old store.new out.old.items
        out.new.items visitor.new) }
    ensures works { OnErr result (seated.HasWork visitor.old
        ⊎ (0 < length visitor.new.place.unsaid)) }
{
    let Ok(()) = visitor.proceed(alloc, store) else {
        let _ = print_session(visitor, number, out);
        return Err(AllocError);
    };
    print_session(visitor, number, out)
}

// A session has a turn while it idles, over its store, and what it says is printed. Answers how many changes were shown.
pub(crate) fn take_turn(
    visitor: &mut SeatedSession,
    number: u8,
    store: &mut CoreStore,
    out: &mut Vec<u8>,
) -> Result<usize, AllocError>
    requires there { visitor.old.gone ≡ false }
    ensures gone { visitor.new.gone ≡ false }
    ensures ok { IfOk result (λ count.
        (seat : ℕ) (next : CopyKey) (heard : List Noted) (v : session.SeatedVisitor) →
        StandsForSeated seat next heard visitor.old v
        → Idled Serves true seat number count next heard v store.old store.new out.old.items
        out.new.items visitor.new) }
    ensures session { IfOk result (λ count.
        HadTurn Serves visitor.old.place store.old store.new count visitor.new.place) }
    ensures err { OnErr result
        ((seat : ℕ) (next : CopyKey) (heard : List Noted) (v : session.SeatedVisitor) →
        StandsForSeated seat next heard visitor.old v
        → IdledInPart Serves seat number next heard v store.old store.new out.old.items
        out.new.items visitor.new) }
{
    let count = visitor.idle_turn(store)?;
    print_session(visitor, number, out)?;
    Ok(count)
}
