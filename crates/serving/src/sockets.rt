//! The listeners of a server, on the ports that its settings say or the system chooses. What comes in there is served elsewhere.

ghost use Rattle.std.specs.Prelude.{ℕ, ◌≡◌, ◌≢◌, ◌≤◌, ◌+◌, All, IfErr, IfOk, length, vec_len};
ghost use Rattle.settings.specs.Settings.{IsFrom};
ghost use Rattle.serving.specs.Announcing.{AreUserPorts, IsPageFor, IsPortFor};
ghost use Rattle.serving.specs.inner.Faults.{IsOfSocket};

use crate::fault::{ServeFault, device_or_memory};
use crate::page::Page;
use crate::watch::Lookout;
use std::alloc::{AllocError, Global};
use std::net::{Net, TcpListener, TcpStream};
use std::sync::Arc;
use workers_sync::{Listening, Pause};

/// Where connections come in, and a pause for threads that can't accept one.
#[derive(Drop)]
pub(crate) struct Sockets {
    pub(crate) lmtp: Arc<Listening>,
    /// For each user, in the order of their numbers.
    pub(crate) imap: Vec<Listening>,
    pub(crate) pause: Pause,
    /// Where the page is asked for, if there is to be one.
    pub(crate) page: Option<Page>,
    /// What waits for clients whose sessions idle.
    pub(crate) lookout: Lookout,
}

/// The ports of the listeners.
#[derive(Drop)]
pub(crate) struct Ports {
    /// That of mail.
    pub(crate) mail: u16,
    /// Those of the users, in the order of their numbers.
    pub(crate) users: Vec<u16>,
    /// That of the page, if there is one.
    pub(crate) page: Option<u16>,
}

// A listener, and its port.
#[derive(Drop)]
struct Bound {
    listening: Listening,
    port: u16,
}

// A listener on this port, or on a free one, where it is 0.
fn listen<R: Net<Listener = TcpListener, Stream = TcpStream>>(
    rt: &R,
    port: u16,
) -> Result<Bound, ServeFault>
    ensures port { IfOk result (λ b. IsPortFor port b.port) }
    ensures fault { IfErr result IsOfSocket }
{
    let listening = match Listening::bind(rt, port) {
        Ok(listening) => listening,
        Err(error) => return Err(device_or_memory(&error)),
    };
    if port != 0 {
        return Ok(Bound { listening, port });
    }
    let port = listening.port();
    if port == 0 {
        // It listens on no port of TCP.
        return Err(ServeFault::Device);
    }
    Ok(Bound { listening, port })
}

// The port that the settings give to the user of this number, or 0.
fn port_of(first: u16, number: u16) -> u16
    requires { first + number ≤ 65535 }
    ensures given { first ≢ 0 → result ≡ first + number }
    ensures free { first ≡ 0 → result ≡ 0 }
{
    if first == 0 {
        return 0;
    }
    first + number
}

// The users' listeners, and their ports.
#[derive(Drop)]
struct UserSockets {
    listening: Vec<Listening>,
    ports: Vec<u16>,
}

// A listener for each of so many users.
fn listen_each<R: Net<Listener = TcpListener, Stream = TcpStream>>(
    rt: &R,
    alloc: Global,
    first: u16,
    count: u16,
) -> Result<UserSockets, ServeFault>
    requires { first + count ≤ 65536 }
    ensures count { IfOk result (λ all. vec_len all.listening ≡ count) }
    ensures ports { IfOk result (λ all. AreUserPorts first count all.ports.items) }
    ensures fault { IfErr result IsOfSocket }
{
    let mut listening = Vec::with_capacity(alloc, usize::from(count))?;
    let mut ports = Vec::with_capacity(alloc, usize::from(count))?;
    for number in 0..count {
        let bound = listen(rt, port_of(first, number))?;
        listening.push_reserved(bound.listening);
        ports.push_reserved(bound.port);
    }
    Ok(UserSockets { listening, ports })
}

// The listener of mail, and those of the users.
struct Bindings {
    mail: Bound,
    users: UserSockets,
}

// Listens for mail and for each of so many users. Ports that are given are taken first, so that the system chooses none of them.
fn bind_all<R: Net<Listener = TcpListener, Stream = TcpStream>>(
    rt: &R,
    alloc: Global,
    lmtp_port: u16,
    imap_port: u16,
    users: u16,
) -> Result<Bindings, ServeFault>
    requires { imap_port + users ≤ 65536 }
    ensures count { IfOk result (λ b. vec_len b.users.listening ≡ users) }
    ensures mail { IfOk result (λ b. IsPortFor lmtp_port b.mail.port) }
    ensures users { IfOk result (λ b. AreUserPorts imap_port users b.users.ports.items) }
    ensures fault { IfErr result IsOfSocket }
{
    if lmtp_port == 0 {
        let users = listen_each(rt, alloc, imap_port, users)?;
        let mail = listen(rt, lmtp_port)?;
        return Ok(Bindings { mail, users });
    }
    let mail = listen(rt, lmtp_port)?;
    let users = listen_each(rt, alloc, imap_port, users)?;
    Ok(Bindings { mail, users })
}

// The listener of the page, if there is to be one, and its port.
struct PageBinding {
    page: Option<Page>,
    port: Option<u16>,
}

// Listens on this port for whoever asks for the page, if there is to be one.
fn bind_page<R: Net<Listener = TcpListener, Stream = TcpStream>>(
    rt: &R,
    given: Option<u16>,
) -> Result<PageBinding, ServeFault>
    ensures port { IfOk result (λ b. IsPageFor given b.port) }
    ensures fault { IfErr result IsOfSocket }
{
    let Some(given) = given else {
        return Ok(PageBinding {
            page: None,
            port: None,
        });
    };
    let Bound { listening, port } = listen(rt, given)?;
    Ok(PageBinding {
        page: Some(Page::new(listening)),
        port: Some(port),
    })
}

/// The listeners, and their ports.
pub(crate) struct Open {
    pub(crate) sockets: Sockets,
    pub(crate) ports: Ports,
}

/// The listeners: one for mail, and one for each of so many users from the first one's port on. Where a port is 0 the system chooses a free
/// one, for each user another. The page has the last one, where its port is given, or 0 for a free one.
///
/// Errors: `Device` where one can't be had, `NoMemory` where memory is refused.
pub(crate) fn open_sockets<R: Net<Listener = TcpListener, Stream = TcpStream>>(
    rt: &R,
    alloc: Global,
    lmtp_port: u16,
    imap_port: u16,
    users: u16,
    status: Option<u16>,
) -> Result<Open, ServeFault>
    requires { imap_port + users ≤ 65536 }
    ensures count { IfOk result (λ o. vec_len o.sockets.imap ≡ users) }
    ensures mail { IfOk result (λ o. IsPortFor lmtp_port o.ports.mail) }
    ensures users { IfOk result (λ o. AreUserPorts imap_port users o.ports.users.items) }
    ensures page { IfOk result (λ o. IsPageFor status o.ports.page) }
    ensures fault { IfErr result IsOfSocket }
{
    let Bindings { mail, users } = bind_all(rt, alloc, lmtp_port, imap_port, users)?;
    let PageBinding { page, port } = bind_page(rt, status)?;
    let lmtp = match Arc::new(alloc, mail.listening) {
        Ok(lmtp) => lmtp,
        Err(refused) => return Err(AllocError::from(refused).into()),
    };
    let lookout = match Lookout::new(rt, alloc) {
        Ok(lookout) => lookout,
        Err(error) => return Err(device_or_memory(&error)),
    };
    match Pause::new(rt) {
        Ok(pause) => Ok(Open {
            sockets: Sockets {
                lmtp,
                imap: users.listening,
                pause,
                page,
                lookout,
            },
            ports: Ports {
                mail: mail.port,
                users: users.ports,
                page: port,
            },
        }),
        Err(error) => Err(device_or_memory(&error)),
    }
}
