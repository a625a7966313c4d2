//! The whole of a server: settings, sockets, what is said of them, the house, and the end. What runs in between stands in `run`.

ghost use Rattle.std.specs.Prelude.{ℕ, ◌≡◌, ◌≢◌, ◌≤◌, ◌<◌, ◌+◌, ◌⊎◌, All, Err, IfErr, IfOk, None, OnOk, Some, false, length, take, vec_len};
ghost use Rattle.std.specs.Io.KnownBytes.{Appends};
ghost use Rattle.settings.specs.Settings.{IsInRange, directory_for};
ghost use Rattle.serving.specs.Producers.{server_fault};
ghost use Rattle.mailbox.specs.declared.history.History.{History};
ghost use Rattle.settings.specs.declared.config.ConfigFault.{ConfigFault};
ghost use Rattle.serving.specs.Announcing.{HasAnnounced, HasBegun, IsAnnouncement, users_of};
ghost use Rattle.serving.specs.Kept.{HasKept};
ghost use Rattle.serving.specs.Left.{HasLeft};
ghost use Rattle.serving.specs.inner.Faults.{IsOfSettings, IsOfSocket};
ghost use Rattle.house_shared.specs.Users.{user_numbered};

use crate::announcing::announce;
use crate::client_slots::{client_slots_for, client_slots_of_user, count_users};
use crate::fault::ServeFault;
use crate::limit::{ClientLimit, limits_for};
use crate::reporting::{Records, Writing, records_for};
use crate::run::{Listeners, Manning, run_house_in};
use crate::sockets::{Open, open_sockets};
use envelope::Directory;
use house_history::Naming;
use house_shared::{Guest, MOST_PRODUCERS, Sizes, open};
use line_io::Sink;
use mailbox::{History, Limits};
use server_report::Log;
use serving_workers::{Finished, Line, Lines, SocketLine, SocketLines};
use settings::{Config, ConfigFault, Reporting, Uidvalidity, directory_of};
use shared_consumers::copies_at_once;
use std::alloc::Global;
use std::io::{Read, Write};
use std::marker::Brand;
use std::net::{Net, TcpListener, TcpStream};
use std::sync::{Arc, Wait};
use std::thread::Threads;
use workers_sync::Listening;

// How large the parts of a house of these settings are, which has so many client slots.
fn sizes_of(config: &Config, client_slots: usize) -> Sizes<'_>
    requires few { config.now.workers + client_slots ≤ 255 }
    ensures host { result.host.now ≡ config.now.host.items }
    ensures max_message { result.max_message ≡ config.now.max_message }
    ensures depth { result.depth ≡ config.now.depth }
    ensures ring { result.limits.ring ≡ config.now.ring }
    ensures producers { result.producers ≡ config.now.workers + client_slots }
    ensures history { result.history ≡ History.Unkept }
{
    Sizes {
        host: &config.host,
        max_message: config.max_message,
        memory: config.memory,
        producers: (usize::from(config.workers) + client_slots) as u8,
        depth: config.depth,
        uidvalidity: config.uidvalidity,
        first_uid: config.first_uid,
        limits: Limits {
            messages: config.messages,
            ring: config.ring,
            ring_max: config.ring_max,
        },
        // Nobody compares what was accepted, and a server runs for months.
        history: History::Unkept,
        turns: 0,
        // A server closes its shards at its end alone.
        closings: &[],
    }
}

// Whom a server is for: the directory of its users, the client slots of their sessions, and how many of these are served at a time.
#[derive(Drop)]
struct Layout {
    directory: Directory,
    guests: Vec<Guest>,
    limits: Vec<ClientLimit>,
}

// What these settings lay out. Errors: `Config` of their first fault, and `NoMemory`.
fn lay_out(alloc: Global, config: &Config) -> Result<Layout, ServeFault>
    requires range { IsInRange config.now }
    ensures directory { IfOk result (λ l. l.directory ≡ directory_for config.now) }
    ensures host { IfOk result (λ l. length config.now.host.items < 256) }
    ensures named { IfOk result (λ l.
        All (λ v. user_numbered v.user l.directory.homes ≢ None) l.guests.items) }
    ensures few { IfOk result (λ l. config.now.workers + vec_len l.guests ≤ 255) }
    ensures right { IfOk result (λ l. server_fault config.now ≡ None) }
    ensures wrong { (fault : ConfigFault) → result ≡ Err (ServeFault.Config fault)
        → server_fault config.now ≡ Some fault }
    ensures fault { IfErr result IsOfSettings }
{
    let directory = directory_of(alloc, config)?;
    let guests = client_slots_for(alloc, &directory, client_slots_of_user(config))?;
    if MOST_PRODUCERS < usize::from(config.workers) + guests.len() {
        return Err(ServeFault::Config(ConfigFault::TooMany));
    }
    let users = count_users(&directory);
    let limits = limits_for(alloc, config.compatible, users, config.sessions)?;
    Ok(Layout {
        directory,
        guests,
        limits,
    })
}

// Listens on the ports of these settings. Errors: `Device` and `NoMemory`.
fn listen<R: Net<Listener = TcpListener, Stream = TcpStream>>(
    rt: &R,
    alloc: Global,
    config: &Config,
    directory: &Directory,
    status: Option<u16>,
    uidvalidity: Uidvalidity,
) -> Result<Listeners, ServeFault>
    requires range { IsInRange config.now }
    requires directory { directory.now ≡ directory_for config.now }
    ensures lines { IfOk result (λ l. IsAnnouncement config.now status uidvalidity l.lines.items) }
    ensures fault { IfErr result IsOfSocket }
    ensures imap { IfOk result (λ l. vec_len l.sockets.imap
        ≡ length (users_of directory.now.homes)) }
{
    let users = count_users(directory);
    let Open { sockets, ports } = open_sockets(
        rt,
        alloc,
        config.lmtp_port,
        config.imap_port,
        users,
        status,
    )?;
    let lines = announce(alloc, directory, &ports, uidvalidity)?;
    Ok(Listeners { sockets, lines })
}

// All that a server has before its house: whom it is for, its listeners, where what happens is told, and who writes that.
struct Ready<F, D> {
    layout: Layout,
    mail: D,
    listeners: Listeners,
    log: Log,
    writing: Writing<F>,
}

// Serves a house of these settings, whose history was just opened, until `stop` is at its end, and hands out what it has left. Errors: those of
// `run_house_in`.
fn serve_in<
    B: Naming + Send + Sync,
    R: Threads + Wait + Sync,
    L: Line + Send,
    D: Lines<L> + Drop,
    I: Read + Drop,
    W: Sink,
    F: Write + Drop + Send,
>(
    rt: &R,
    alloc: Global,
    history: house_history::Opened,
    config: &Config,
    ready: Ready<F, D>,
    stop: I,
    output: &mut W,
) -> Result<Finished<B, L>, ServeFault>
    requires history { history ≡ B.book }
    requires range { IsInRange config.now }
    requires directory { ready.layout.directory ≡ directory_for config.now }
    requires host { length config.now.host.items < 256 }
    requires named { All (λ v.
        user_numbered v.user ready.layout.directory.homes ≢ None) ready.layout.guests.items }
    requires few { config.now.workers + vec_len ready.layout.guests ≤ 255 }
    requires imap { vec_len ready.listeners.sockets.imap
        ≡ length (users_of ready.layout.directory.homes) }
    requires live { W.failed output.old ≡ false }
    ensures left { IfOk result (HasLeft config.now) }
    ensures setting { (fault : ConfigFault) → result ≢ Err (ServeFault.Config fault) }
    ensures untried { result ≡ Err ServeFault.NoMemory → output.new ≡ output.old }
    ensures unsaid { result ≡ Err ServeFault.Spawn → output.new ≡ output.old }
    ensures told { (n : ℕ) × Appends (W.taken output.old) (W.taken output.new)
        (take n ready.listeners.lines.items) }
    ensures all { OnOk result
        (Appends (W.taken output.old) (W.taken output.new) ready.listeners.lines.items) }
{
    let Ready {
        layout,
        mail,
        listeners,
        log,
        writing,
    } = ready;
    let Layout {
        directory,
        guests,
        limits,
    } = layout;
    let sizes = sizes_of(config, guests.len());
    let opened = open::<B>(alloc, history, directory, sizes, guests.as_slice())?;
    let workers = usize::from(config.workers);
    let at_once = copies_at_once(config.depth, workers, guests.len());
    let manning = Manning {
        workers,
        at_once,
        guests,
        compatible: config.compatible,
        limits,
        sessions: client_slots_of_user(config),
        mail,
        log,
        writing,
    };
    run_house_in::<B, Brand, R, L, D, I, W, F>(rt, opened, manning, listeners, stop, output)
}

/// What a server begins with.
pub struct Beginning<D> {
    /// The history of its house, which was just opened.
    pub history: house_history::Opened,
    /// Who gives each worker the line at which its mail connections come in.
    pub mail: D,
    /// Whether it was said which UIDVALIDITY its mailboxes have.
    pub uidvalidity: Uidvalidity,
    /// What is told of what happens.
    pub report: Reporting,
}

/// Serves a house of these settings as `serve` does, and hands out what it has left: what was taken of its queues, to their end, and how the
/// history begins that all its threads shared.
///
/// Errors: those of `serve`.
pub fn serve_house<
    B: Naming + Send + Sync,
    R: Net<Listener = TcpListener, Stream = TcpStream> + Threads + Wait + Sync,
    L: Line + Send,
    D: Lines<L> + Drop,
    I: Read + Drop,
    W: Sink,
    F: Write + Drop + Send,
>(
    rt: &R,
    alloc: Global,
    config: &Config,
    beginning: Beginning<D>,
    stop: I,
    output: &mut W,
    errors: F,
) -> Result<Finished<B, L>, ServeFault>
    // The history goes by this name, the settings are within their ranges, and the output hasn't failed.
    requires history { beginning.history ≡ B.book }
    requires range { IsInRange config.now }
    requires live { W.failed output.old ≡ false }

    // Without an error all stopped in order: the one history has what each producer put and heard, and that is what its connections brought and were told.
    ensures left { IfOk result (HasLeft config.now) }

    // What a reader needs of that: of what was brought just those copies stand of which Stored was told, and the mailboxes are as the history leaves them.
    ensures kept { IfOk result (HasKept config.now) }

    // `Config` tells the settings' first fault, and then nothing was written. Without an error there is no fault.
    ensures wrong { (fault : ConfigFault) → result ≡ Err (ServeFault.Config fault)
        → server_fault config.now ≡ Some fault }
    ensures not_set { (fault : ConfigFault) → result ≡ Err (ServeFault.Config fault)
        → output.new ≡ output.old }
    ensures right { OnOk result (server_fault config.now ≡ None) }

    // Wrong settings are told, or want of memory is, and nothing is written.
    ensures refused { (fault : ConfigFault) → server_fault config.now ≡ Some fault →
        ((result ≡ Err (ServeFault.Config fault)) ⊎ (result ≡ Err ServeFault.NoMemory))
        × (output.new ≡ output.old) }

    // Where memory or a thread was refused nothing was written.
    ensures untried { result ≡ Err ServeFault.NoMemory → output.new ≡ output.old }
    ensures unsaid { result ≡ Err ServeFault.Spawn → output.new ≡ output.old }

    // Nothing but a beginning of the lines was written, and all of them where it served.
    ensures told { HasBegun config.now beginning.report.status beginning.uidvalidity
        (W.taken output.old) (W.taken output.new) }
    ensures all { OnOk result (HasAnnounced config.now beginning.report.status beginning.uidvalidity
        (W.taken output.old) (W.taken output.new)) }
{
    let Beginning {
        history,
        mail,
        uidvalidity,
        report,
    } = beginning;
    let Layout {
        directory,
        guests,
        limits,
    } = lay_out(alloc, config)?;
    let Listeners { sockets, lines } = listen(
        rt,
        alloc,
        config,
        &directory,
        report.status,
        uidvalidity,
    )?;
    let Records { log, scribe } = records_for(rt, alloc, report)?;
    serve_in::<B, R, L, D, I, W, F>(
        rt,
        alloc,
        history,
        config,
        Ready {
            layout: Layout {
                directory,
                guests,
                limits,
            },
            mail,
            listeners: Listeners { sockets, lines },
            log,
            writing: Writing { scribe, errors },
        },
        stop,
        output,
    )
}

// Serves as `serve_house` does, and lets go of what that hands out: over sockets nothing can be named that it could be compared with.
fn serve_named<
    B: Naming + Send + Sync,
    R: Net<Listener = TcpListener, Stream = TcpStream> + Threads + Wait + Sync,
    I: Read + Drop,
    W: Sink,
    F: Write + Drop + Send,
>(
    rt: &R,
    alloc: Global,
    config: &Config,
    beginning: Beginning<SocketLines>,
    stop: I,
    output: &mut W,
    errors: F,
) -> Result<(), ServeFault>
    requires history { beginning.history ≡ B.book }
    requires range { IsInRange config.now }
    requires live { W.failed output.old ≡ false }
    ensures wrong { (fault : ConfigFault) → result ≡ Err (ServeFault.Config fault)
        → server_fault config.now ≡ Some fault }
    ensures not_set { (fault : ConfigFault) → result ≡ Err (ServeFault.Config fault)
        → output.new ≡ output.old }
    ensures right { OnOk result (server_fault config.now ≡ None) }
    ensures refused { (fault : ConfigFault) → server_fault config.now ≡ Some fault →
        ((result ≡ Err (ServeFault.Config fault)) ⊎ (result ≡ Err ServeFault.NoMemory))
        × (output.new ≡ output.old) }
    ensures untried { result ≡ Err ServeFault.NoMemory → output.new ≡ output.old }
    ensures unsaid { result ≡ Err ServeFault.Spawn → output.new ≡ output.old }
    ensures told { HasBegun config.now beginning.report.status beginning.uidvalidity
        (W.taken output.old) (W.taken output.new) }
    ensures all { OnOk result (HasAnnounced config.now beginning.report.status beginning.uidvalidity
        (W.taken output.old) (W.taken output.new)) }
{
    let served = serve_house::<B, R, SocketLine<Arc<Listening>>, SocketLines, I, W, F>(
        rt, alloc, config, beginning, stop, output, errors,
    );
    match served {
        Ok(_left) => Ok(()),
        Err(fault) => Err(fault),
    }
}

/// Serves a house of these settings on the loopback address until `stop` is at its end: mail on `lmtp_port` to so many connections at a
/// time as there are `workers`, and each user's sessions on a port of its own, from `imap_port` on, so many at a time as `sessions` says.
/// A port that is 0 is chosen by the system, for each user another.
/// Once all listens and each thread stands it says so on `output`, in a line for each listener, and from then on whoever comes is served.
///
/// At the end nothing is accepted any more: a mail connection between commands is told `421 4.3.2 Shutting down`, one within a message's
/// data is closed and no copy of it is made, one that awaits verdicts is told these first; a session is told `* BYE Shutting down`.
/// What is not through five seconds later is cut. What fails on one connection ends that connection alone.
///
/// Where `report` gives a port for a page, a thread of its own tells over HTTP there what the server is doing, to one peer after another. Its line
/// stands behind the users'. A port that is 0 is chosen by the system.
///
/// What happens is kept as `report` says. Where it asks for a log its lines are written to `errors` by a thread of their own, many at once,
/// and at the end what was counted: so nobody who brings mail or is served waits for that writer. What doesn't fit into the room of the
/// lines that wait is lost, and counted.
///
/// Errors, the first that holds: `Config`, of the first fault of the settings in the order of `House::new`, then `TooMany` where workers
/// and client slots together are more than 255; `Device` where a listener,
/// or a socket for the log, can't be made; `Spawn` where a thread can't be made; `Device` where the lines can't be written; `Torn` where a worker, a client slot
/// or a shared consumer met what it didn't await, or a queue could not be closed. `NoMemory` where memory, or the thread that writes the log, is refused before the first of the others runs: that
/// comes in place of whatever would have come later, `Config` too. But for `Torn` nobody was served, and but for the second `Device` nothing
/// was written.
pub fn serve<
    R: Net<Listener = TcpListener, Stream = TcpStream> + Threads + Wait + Sync,
    I: Read,
    W: Sink,
    F: Write + Drop + Send,
>(
    rt: &R,
    alloc: Global,
    config: &Config,
    uidvalidity: Uidvalidity,
    report: Reporting,
    stop: &mut I,
    output: &mut W,
    errors: F,
) -> Result<(), ServeFault>
    // The settings are within their ranges, and the output hasn't failed.
    requires range { IsInRange config.now }
    requires live { W.failed output.old ≡ false }

    // `Config` tells the settings' first fault, and then nothing was written. Without an error there is no fault.
    ensures wrong { (fault : ConfigFault) → result ≡ Err (ServeFault.Config fault)
        → server_fault config.now ≡ Some fault }
    ensures not_set { (fault : ConfigFault) → result ≡ Err (ServeFault.Config fault)
        → output.new ≡ output.old }
    ensures right { OnOk result (server_fault config.now ≡ None) }

    // Wrong settings are told, or want of memory is, and nothing is written.
    ensures refused { (fault : ConfigFault) → server_fault config.now ≡ Some fault →
        ((result ≡ Err (ServeFault.Config fault)) ⊎ (result ≡ Err ServeFault.NoMemory))
        × (output.new ≡ output.old) }

    // Where memory or a thread was refused nothing was written.
    ensures untried { result ≡ Err ServeFault.NoMemory → output.new ≡ output.old }
    ensures unsaid { result ≡ Err ServeFault.Spawn → output.new ≡ output.old }

    // Nothing but a beginning of the lines was written, and all of them where it served: one for each listener, of its port. That is the port
    // that is given, and where that is 0 the one that the system chose.
    ensures told { HasBegun config.now report.status uidvalidity (W.taken output.old)
        (W.taken output.new) }
    ensures all { OnOk result (HasAnnounced config.now report.status uidvalidity
        (W.taken output.old) (W.taken output.new)) }
{
    let beginning = Beginning {
        history: house_history::Opened::new(),
        mail: SocketLines,
        uidvalidity,
        report,
    };
    serve_named::<Brand, R, &mut I, W, F>(rt, alloc, config, beginning, stop, output, errors)
}
