//! One client's visit: its session, and where its answers go. Nothing is left unsent between two calls.
//! Whose threads make the calls stands in `client_slot`.

ghost use Rattle.std.specs.Prelude.{◌≡◌, ◌≢◌, ◌⊎◌, ℕ, ◌<◌, ◌≤◌, ◌++◌, [], List, None, Ok, Err, false, true, length, take, IfOk, IfErr, IfSome, OnErr, OnOk};
ghost use Rattle.std.specs.Io.KnownBytes.{Appends};
ghost use Rattle.line_io.specs.Outgoing.{IsReady};
ghost use Rattle.workers_sync.specs.Carried.{Carried};
ghost use Rattle.workers_sync.specs.declared.courier.Lost.{Lost};
ghost use Rattle.session_thread.specs.Life.{Departs, IsForgotten};
ghost use Rattle.imap_session.specs.Dialogue.{StandsFor};
ghost use Rattle.imap_session.specs.Commands.{greeting};
ghost use Rattle.imap_session.specs.Exchange.{begun_with};
ghost use Rattle.imap_stream.specs.inner.Visits.{IsFresh, TookFirst, taken_of};
ghost use Rattle.imap_stream.specs.Visits.{Hears, HearsInPart, IsGreeted, SendsAll, SendsFirst, ShowsAll, ShowsInPart, Tells, Visit, awaited, farewell, is_over, takes_bytes};

use crate::rows::Rows;
use crate::turns::{answer_and_show, show_all};
use house_history::Naming;
use imap_session::{Admission, After, Folder, ImapConnection, Store};
use line_io::{Buffer, Outgoing, Outlet, Sink};
use session_thread::{LockedStore, depart, takes_more};
use std::alloc::{AllocError, Global};
use std::marker::Model;
use std::sync::Wait;
use std::sync::atomic::AtomicBool;
use workers_sync::{Courier, Gate, Lost};

/// What a client is told that is dismissed.
const FAREWELL: &[u8] = b"* BYE Shutting down\r\n";

/// The most bytes of a greeting that wait to be sent: it goes as one piece.
const GREETING: usize = 128;

/// Why a visit came to a stop.
#[derive(Clone, Copy, Debug, PartialEq, Eq)]
pub enum VisitFault {
    /// Memory was refused.
    NoMemory,
    /// The output failed.
    Write,
    /// Something came that was no verdict on a message that was submitted.
    Torn,
}

impl From<AllocError> for VisitFault {
    ghost use Rattle.imap_stream.specs.declared.visit.VisitFault.{VisitFault};

    ghost from_gives = { λ _ fault. fault ≡ VisitFault.NoMemory };

    fn from(_error: AllocError) -> VisitFault {
        VisitFault::NoMemory
    }
}

// What is said from here on waits in a row of the house's; where none could be had it is sent at once.
fn take_row<R: Wait, W: Sink + Drop>(rt: &R, rows: &Rows, out: &mut Outgoing<W>)
    requires { IsReady out.old }
    ensures { IsFresh (taken_of out.old) out.new }
{
    let row = rows.lend(rt, out.alloc());
    out.begin();
    let _ = out.trade(row);
}

// What is said from here on is sent at once: the row in which it waited is given back. A client that is silent has none, so it costs no memory.
// Its frame stands apart, as does the greeting's: the stack of a thread that waits for its client is as deep as where its visit was opened.
#[inline(never)]
fn leave_row<W: Sink + Drop>(out: &mut Outgoing<W>) -> Vec<u8>
    requires { IsReady out.old }
    ensures { IsFresh (taken_of out.old) out.new }
{
    let none = Vec::new(out.alloc());
    out.begin();
    out.trade(none)
}

// The row is the house's again.
fn give_row_back<R: Wait, W: Sink + Drop>(rt: &R, rows: &Rows, out: &mut Outgoing<W>)
    requires { IsReady out.old }
    ensures { IsFresh (taken_of out.old) out.new }
{
    let row = leave_row(out);
    rows.take_back(rt, row);
}

// The outlet of a client that was greeted on `output`, behind its greeting, of which nothing is left unsent.
#[inline(never)]
fn greeted<W: Sink + Drop>(
    alloc: Global,
    connection: &ImapConnection,
    output: W,
) -> Result<Outgoing<W>, (W, VisitFault)>
    requires live { W.failed output ≡ false }
    ensures ready { IfOk result IsReady }
    ensures took { IfOk result (λ out. IfSome out.buffer (λ b.
        Appends (W.taken output) b.taken (greeting connection.now.session.profile))) }
    ensures fault { IfErr result (λ stop. stop.1 ≡ VisitFault.Write) }
    ensures cut { IfErr result (λ stop. TookFirst (W.taken output)
        (greeting connection.now.session.profile) (W.taken stop.0)) }
    ensures failed { IfErr result (λ stop. W.failed stop.0 ≡ true) }
{
    let mut row = Vec::new(alloc);
    let _ = row.resize(GREETING, 0);
    let mut out = Outgoing::new(alloc, Buffer::new(output, row));
    let Ok(()) = connection.greet(&mut out) else {
        unreachable!()
    };
    let Ok(()) = out.flush() else {
        let Some(output) = out.into_sink() else {
            unreachable!()
        };
        return Err((output, VisitFault::Write));
    };
    let _ = leave_row(&mut out);
    Ok(out)
}

// Why a visit stops whose session brought no verdict, or was refused memory.
fn fault_of(why: Lost) -> VisitFault
    ensures memory { result ≡ VisitFault.NoMemory → why ≡ Lost.NoMemory }
    ensures torn { result ≡ VisitFault.Torn → why ≡ Lost.Torn }
    ensures sent { result ≢ VisitFault.Write }
{
    match why {
        Lost::NoMemory => VisitFault::NoMemory,
        Lost::Torn => VisitFault::Torn,
    }
}

/// One client's session, and where its answers go.
#[derive(Drop)]
pub struct Visit<'a, B: Naming, R: Wait, G: Gate, W: Sink> {
    rt: &'a R,
    rows: &'a Rows,
    connection: ImapConnection,
    store: LockedStore<'a, B, R, G>,
    out: Outgoing<W>,
    is_closed: bool,
}

impl<'a, B: Naming, R: Wait, G: Gate, W: Sink> Model for Visit<'a, B, R, G, W> {
    ghost use Rattle.line_io.specs.Outgoing.{room_of};
    ghost use Rattle.imap_stream.specs.Visits.{Visit};
    ghost use Rattle.imap_stream.specs.inner.Visits.{HasSent, failed_of, taken_of};

    ghost Value = { Visit };

    ghost view = { λ v. record {
      link = v.connection;
      selection = v.store;
      taken = taken_of v.out;
      failed = failed_of v.out;
      closed = v.is_closed;
      room = room_of v.out.buffer v.out.spare;
    } };

    ghost invariant = { λ v. HasSent v.is_closed v.out };
}

impl<'a, B: Naming, R: Wait, G: Gate, W: Sink + Drop> Visit<'a, B, R, G, W> {
    /// Opens the visit of a client, and greets it (RFC 9051, 7.1.1 and 7.1.4): the greeting was sent.
    /// `store` is its session's, which is in no mailbox, `folders` are its user's mailboxes, it comes in
    /// by `admission`, and its answers go to `output`. What it says waits in one of `rows`, which the sessions of a house share.
    ///
    /// Errors give the output back: `NoMemory` as it was, where memory was refused before anything was
    /// sent; `Write` where it failed, behind the first bytes of the greeting.
    pub fn open(
        rt: &'a R,
        alloc: Global,
        rows: &'a Rows,
        store: LockedStore<'a, B, R, G>,
        folders: Vec<Folder>,
        admission: Admission,
        output: W,
    ) -> Result<Visit<'a, B, R, G, W>, (W, VisitFault)>
        requires live { W.failed output ≡ false }
        requires outside { store.entered ≡ None }

        // Without an error the client was greeted, and nothing else was done.
        ensures ok { IfOk result (λ visit.
            IsGreeted admission folders.items store.entry (W.taken output) visit) }

        // It is never `Torn`; with `NoMemory` the output is given back as it was.
        ensures untorn { IfErr result (λ stop. stop.1 ≢ VisitFault.Torn) }
        ensures short { IfErr result (λ stop. stop.1 ≡ VisitFault.NoMemory → stop.0 ≡ output) }

        // With `Write` it is given back failed: it took the first bytes of the greeting, and not all.
        ensures cut { IfErr result (λ stop. stop.1 ≡ VisitFault.Write →
            (sent : ℕ) × (sent < length (greeting admission.profile))
            × Appends (W.taken output) (W.taken stop.0)
            (take sent (greeting admission.profile))) }
        ensures failed { IfErr result (λ stop. stop.1 ≡ VisitFault.Write → W.failed stop.0 ≡ true) }
    {
        let Ok(connection) = ImapConnection::new(alloc, folders, admission) else {
            return Err((output, VisitFault::NoMemory));
        };
        let out = greeted(alloc, &connection, output)?;
        Ok(Visit {
            rt,
            rows,
            connection,
            store,
            out,
            is_closed: false,
        })
    }

    /// Nothing more is done for the client: its session has ended, the output failed, bytes of it were
    /// lost for want of memory, it was dismissed, or its session left.
    pub fn is_over(&self) -> bool
        ensures { result ≡ is_over self.now }
    {
        self.is_closed || self.connection.has_ended()
    }

    /// What the client may send next: nothing where the visit is over.
    pub fn awaited(&self) -> After
        ensures { result ≡ awaited self.now }
    {
        if self.is_closed {
            return After::Bye;
        }
        self.connection.may_send()
    }

    // Whether bytes of the client are taken.
    pub(crate) fn takes_bytes(&self) -> bool
        ensures is { result ≡ takes_bytes self.now }
        ensures goes { result ≡ true → self.now.link.session.ended ≡ false }
        ensures unsent { result ≡ true → self.now.link.session.mailing.sent ≡ None }
    {
        !self.is_closed && takes_more(&self.connection)
    }

    /// Takes a piece of the client's bytes: each line that ends in it is answered, up to the one that
    /// ends the session. A message that is submitted in it is given to `courier`, and the verdict on it
    /// is answered before anything more is taken. Where the session idles behind the piece, it has turns
    /// until one shows nothing. What is said is sent as it is made, and no mailbox is held meanwhile.
    /// Answers what the client may send next; a visit that is over does nothing, nor does one whose session awaits a verdict.
    ///
    /// Whether the session idles is stored in `idles` before its first turn: a change that this turn
    /// doesn't meet was logged by someone who can read there that it idles.
    ///
    /// Errors, after which the visit is over: `NoMemory` where memory was refused, within the piece,
    /// within the turns or to the courier; `Torn` where the courier met something else than the verdict.
    /// What was said by then was sent, and the rest of the piece is lost. `Write` where the output
    /// failed: it took the first bytes of what was said.
    pub fn hear<C: Courier>(
        &mut self,
        alloc: Global,
        courier: &mut C,
        piece: &[u8],
        idles: &AtomicBool,
    ) -> Result<After, VisitFault>
        // The courier may carry a message; it may after, and is what it may have become by carrying.
        requires ready { C.ready courier.old }
        ensures ready { C.ready courier.new }
        ensures kept { (first : C) → C.kept first courier.old → C.kept first courier.new }

        // Where the visit is over, or its session awaits a verdict, nothing is done.
        ensures over { takes_bytes self.old ≡ false
            → (result ≡ Ok (awaited self.old)) × (self.new ≡ self.old)
            × (courier.new ≡ courier.old) }

        // Without an error the piece was answered, its messages and no others were carried, what there is shown while it idles, and all sent.
        ensures ok { OnOk result (takes_bytes self.old ≡ true
            → (carried : List Carried)
            × ((done : List Carried) → C.carried courier.old done
            → C.carried courier.new (done ++ carried))
            × Tells (Hears piece.now carried) SendsAll self.old self.new) }

        // What is answered is what the client may send next; an error closes the visit, and nothing else here does.
        ensures next { IfOk result (λ after. after ≡ awaited self.new) }
        ensures goes_on { OnOk result (self.new.closed ≡ self.old.closed) }
        ensures ends { OnErr result (self.new.closed ≡ true) }

        // After `NoMemory` or `Torn` it stopped within the piece, or in the turns behind it, and all that was said by then was sent.
        ensures short { result ≡ Err VisitFault.NoMemory
            → Tells (HearsInPart self.new.room piece.now Lost.NoMemory) SendsAll self.old self.new }
        ensures torn { result ≡ Err VisitFault.Torn
            → Tells (HearsInPart self.new.room piece.now Lost.Torn) SendsAll self.old self.new }

        // After `Write` the output took the first bytes of what was said, and not all: of the whole, or up to such a stop.
        ensures cut { result ≡ Err VisitFault.Write
            → ((carried : List Carried)
            × ((done : List Carried) → C.carried courier.old done
            → C.carried courier.new (done ++ carried))
            × Tells (Hears piece.now carried) SendsFirst self.old self.new)
            ⊎ ((why : Lost) × Tells (HearsInPart self.new.room piece.now why) SendsFirst self.old
            self.new) }
    {
        if !self.takes_bytes() {
            return Ok(self.awaited());
        }
        take_row(self.rt, self.rows, &mut self.out);
        let heard = answer_and_show(
            self.rt,
            alloc,
            &mut self.connection,
            &mut self.store,
            courier,
            piece,
            idles,
            &mut self.out,
        );
        let Ok(()) = self.out.flush() else {
            self.is_closed = true;
            return Err(VisitFault::Write);
        };
        give_row_back(self.rt, self.rows, &mut self.out);
        match heard {
            Ok(()) => Ok(self.awaited()),
            Err(why) => {
                // What comes behind the bytes that are lost would be read as something else.
                self.is_closed = true;
                Err(fault_of(why))
            }
        }
    }

    /// Shows the client what there is, where its session idles: turns until one shows nothing, and what
    /// is said is sent as it is made, while no mailbox is held. Where it doesn't idle nothing is done.
    /// Answers what the client may send next.
    ///
    /// Errors: `NoMemory` where memory was refused for a turn; what was said by then was sent, and the
    /// session idles still. `Write`
    /// where the output failed: it took the first bytes of what was said, and the visit is over.
    pub fn look(&mut self) -> Result<After, VisitFault>
        // Where the visit is over nothing is done.
        ensures over { is_over self.old ≡ true → (result ≡ Ok After.Bye) × (self.new ≡ self.old) }

        // Without an error the client was shown what there is, where its session idles, and all that was said was sent.
        ensures ok { OnOk result (is_over self.old ≡ false
            → Tells ShowsAll SendsAll self.old self.new) }

        // What is answered is then what the client may send next, and the visit isn't closed by it.
        ensures next { IfOk result (λ after. after ≡ awaited self.new) }
        ensures goes_on { OnOk result (self.new.closed ≡ self.old.closed) }

        // It is never `Torn`. After `NoMemory` the visit goes on, the session idles still, and what the turns before said was sent.
        ensures untorn { IfErr result (λ fault. fault ≢ VisitFault.Torn) }
        ensures waits { result ≡ Err VisitFault.NoMemory → self.new.closed ≡ self.old.closed }
        ensures short { result ≡ Err VisitFault.NoMemory
            → Tells (ShowsInPart self.new.room) SendsAll self.old self.new }

        // After `Write` the output took the first bytes of what was said, and not all, and the visit is over.
        ensures cut { result ≡ Err VisitFault.Write → Tells ShowsAll SendsFirst self.old self.new ⊎
            Tells (ShowsInPart self.new.room) SendsFirst self.old self.new }
    {
        if self.is_over() {
            return Ok(After::Bye);
        }
        take_row(self.rt, self.rows, &mut self.out);
        let shown = show_all(
            self.rt,
            &mut self.connection,
            &mut self.store,
            &mut self.out,
        );
        let Ok(()) = self.out.flush() else {
            self.is_closed = true;
            return Err(VisitFault::Write);
        };
        give_row_back(self.rt, self.rows, &mut self.out);
        shown?;
        Ok(self.awaited())
    }

    /// Dismisses the client, unless the visit is over: `* BYE Shutting down` is sent (RFC 9051, 7.1.5),
    /// and the visit is over. Nothing is left.
    ///
    /// Errors: `Write` where the output failed behind the first bytes of that line.
    pub fn dismiss(&mut self) -> Result<(), VisitFault>
        // Where the visit is over nothing is done; else, without an error, the whole farewell was sent.
        ensures over { is_over self.old ≡ true → (result ≡ Ok tt) × (self.new ≡ self.old) }
        ensures ok { OnOk result (is_over self.old ≡ false
            → Appends self.old.taken self.new.taken farewell × (self.new.failed ≡ false)) }

        // An error is `Write`: the output failed when it had taken the first bytes of the farewell, and not all.
        ensures fault { IfErr result (λ fault. fault ≡ VisitFault.Write) }
        ensures cut { OnErr result (SendsFirst self.old farewell self.new) }

        // After either the visit is over, and its session stands as before.
        ensures ends { is_over self.new ≡ true }
        ensures rest { (self.new.link ≡ self.old.link) × (self.new.selection ≡ self.old.selection)
            × (self.new.room ≡ self.old.room) }
    {
        if self.is_over() {
            return Ok(());
        }
        self.is_closed = true;
        self.out.begin();
        self.out.put(FAREWELL);
        let Ok(()) = self.out.flush() else {
            return Err(VisitFault::Write);
        };
        Ok(())
    }

    /// Leaves the mailbox that the session is in, if any, without removal; the visit is over. Whoever
    /// lets a visit go calls this before, whatever happened: else the mailbox keeps the session's
    /// cursor.
    ///
    /// Errors: `Torn` where the mailbox that was found doesn't know the session's handle.
    pub fn leave(&mut self) -> Result<(), VisitFault>
        // Without an error the session was in no mailbox, or left the one that it was in; after one the mailbox that was found doesn't know it.
        ensures departs { OnOk result (Departs self.old.selection self.new.selection) }
        ensures forgotten { OnErr result (IsForgotten self.old.selection self.new.selection) }
        ensures fault { IfErr result (λ fault. fault ≡ VisitFault.Torn) }

        // After either the visit is over, and nothing else of it has changed.
        ensures rest { self.new ≡ record self.old {
          selection = self.new.selection;
          closed = true;
        } }
    {
        self.is_closed = true;
        match depart(&mut self.store) {
            Ok(()) => Ok(()),
            Err(_) => Err(VisitFault::Torn),
        }
    }
}
