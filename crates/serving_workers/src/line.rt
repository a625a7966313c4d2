//! Where a worker's connections come from, one after another, and how each is left. What is said on a connection stands in `lane_work`.

ghost use Rattle.std.specs.Prelude.{◌≡◌, false, IfSome, None};
ghost use Rattle.serving_workers.specs.Leaving.{Closed, IsUnwritten, Took};

use line_io::{Sink, Watched};
use std::alloc::{AllocError, Global};
use std::io;
use std::io::Read;
use std::net::TcpStream;
use std::sync::{Arc, Wait};
use workers_sync::{Listening, Patience, ShutdownHandle, Timely, farewell, prepare};

/// A connection that came: what its peer says is read here, and what it is told is written there.
#[derive(Drop)]
pub struct Call<I, O> {
    /// What its peer says.
    pub input: I,
    /// What it is told. It hasn't failed, and nothing was written yet.
    pub output: O,
}

/// Where connections come in for one worker: at a server's listener, or from lists of bytes.
///
/// A line that tells what comes and what is said keeps account of all its connections: one that it handed out stands there, whatever becomes of it.
pub trait Line: Drop {
    ghost use Rattle.std.specs.Prelude.{None};
    ghost use Rattle.serving_workers.specs.Leaving.{Told};

    /// What its connections' peers say.
    type Input: Read + Drop + Send;

    /// What they are told.
    type Output: Sink + Drop + Send;

    /// What came so far and what was said, where it tells that.
    ghost told: { Self → Told } = { λ _. record { came = None; said = None } };

    /// What it has ready for the end of the connection that it handed out last.
    ghost ready: { Self → Type 0 } = { λ _. Unit {0} };

    /// Waits for the next connection, which is ready to be read and written. None where there was none to be had.
    fn accept(&mut self) -> Option<Call<Self::Input, Self::Output>>
        ensures took { IfSome result (λ call. Took (told self.old) (told self.new)
            (Self.Input.remaining call.input)) }
        ensures fresh { IfSome result (λ call. (Self.Output.failed call.output ≡ false)
            × IsUnwritten (told self.new) (Self.Output.taken call.output)) }
        ensures ready { IfSome result (λ call. ready self.new) }
        ensures none { result ≡ None → told self.new ≡ told self.old };

    /// The connection is at hand from now on, for whoever stops the worker. Answers whether it could be taken hold of: where it couldn't nobody
    /// could stop it, so it isn't to be served.
    fn hold<R: Wait>(&self, rt: &R, shutdown_handle: &ShutdownHandle, input: &Self::Input) -> bool;

    /// Lets the peer read what was said last; what it still sends is dropped.
    fn part(&self, input: &Self::Input, buffer: &mut [u8]);

    /// The connection is over.
    fn close(&mut self, output: Self::Output)
        requires { ready self.old }
        ensures { Closed (told self.old) (told self.new) (Self.Output.taken output)
            (Self.Output.failed output) };
}

/// Who gives the workers of a server their lines, once: so these are all that there are.
pub trait Lines<L: Line> {
    ghost use Rattle.std.specs.Prelude.{◌≡◌, All, IfOk, vec_len};
    ghost use Rattle.serving_workers.specs.Leaving.{IsFresh};

    /// So many lines of the connections that come in there, at which nobody came yet; or of others, which stand in for them.
    ///
    /// The only error is that memory is refused.
    fn lines(
        self,
        alloc: Global,
        listening: &Arc<Listening>,
        count: usize,
    ) -> Result<Vec<L>, AllocError>
        ensures count { IfOk result (λ lines. vec_len lines ≡ count) }
        ensures fresh { IfOk result (λ lines. All (λ line. IsFresh (L.told line)) lines.items) };
}

/// What listens for connections.
pub trait Listens {
    /// Waits for the next connection.
    ///
    /// Errors: where the system has no room for one more, where the peer has gone, and always once it is shut.
    fn await_stream(&self) -> io::Result<TcpStream>;
}

impl Listens for Arc<Listening> {
    fn await_stream(&self) -> io::Result<TcpStream> {
        self.accept()
    }
}

impl<'a> Listens for &'a Listening {
    fn await_stream(&self) -> io::Result<TcpStream> {
        self.accept()
    }
}

/// The connections at a listener of a server. Nothing is told of them, since a socket has no model.
#[derive(Drop)]
pub struct SocketLine<T> {
    listening: T,
    patience: Patience,
}

impl<T: Listens + Drop> SocketLine<T> {
    /// The connections that come in there. Their peers may say nothing for so long.
    pub fn new(listening: T, patience: Patience) -> SocketLine<T> {
        SocketLine {
            listening,
            patience,
        }
    }
}

impl<T: Listens + Drop> Line for SocketLine<T> {
    type Input = TcpStream;

    type Output = Watched<Timely<TcpStream>>;

    fn accept(&mut self) -> Option<Call<TcpStream, Watched<Timely<TcpStream>>>> {
        let Ok(input) = self.listening.await_stream() else {
            return None;
        };
        if prepare(&input, self.patience).is_err() {
            return None;
        }
        let Ok(answers) = input.try_clone() else {
            return None;
        };
        let output = Watched::new(Timely::new(answers));
        Some(Call { input, output })
    }

    fn hold<R: Wait>(&self, rt: &R, shutdown_handle: &ShutdownHandle, input: &TcpStream) -> bool {
        shutdown_handle.hold(rt, input)
    }

    fn part(&self, input: &TcpStream, buffer: &mut [u8]) {
        farewell(input, buffer);
    }

    fn close(&mut self, _output: Watched<Timely<TcpStream>>) {}
}

/// The lines of a server: all of them at its listener.
#[derive(Drop)]
pub struct SocketLines;

impl Lines<SocketLine<Arc<Listening>>> for SocketLines {
    fn lines(
        self,
        alloc: Global,
        listening: &Arc<Listening>,
        count: usize,
    ) -> Result<Vec<SocketLine<Arc<Listening>>>, AllocError> {
        let mut all = Vec::with_capacity(alloc, count)?;
        for _ in 0..count {
            all.push_reserved(SocketLine::new(listening.clone()?, Patience::Limited));
        }
        Ok(all)
    }
}
