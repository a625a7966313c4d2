//! How many clients of a user are served at a time in the compatible profile, where one too many waits a little and is told so. What the others are answered
//! stands in `sessions`.

ghost use Rattle.std.specs.Prelude.{◌≡◌, IfErr, OnOk, false, take, true};
ghost use Rattle.std.specs.Io.KnownBytes.{Appends};
ghost use Rattle.serving.specs.inner.Visiting.{turned_away};

use line_io::{SendFault, Sink, send};
use serving_workers::Acceptor;
use std::alloc::{AllocError, Global};
use std::sync::{Mutex, Wait};

/// So many pauses of a tenth of a second somebody waits for one of the others to leave.
const PAUSES: u8 = 20;

/// How many clients of one user are served, and how many may be.
#[derive(Drop)]
pub(crate) struct ClientLimit {
    served: Mutex<u8>,
    most: u8,
}

impl ClientLimit {
    // Nobody is served yet.
    fn new(most: u8) -> ClientLimit {
        ClientLimit {
            served: Mutex::new(0),
            most,
        }
    }

    // One more is served, unless as many are as may be. Says whether it is.
    fn admit<R: Wait>(&self, rt: &R) -> bool {
        let mut served = self.served.lock(rt);
        if self.most <= *served {
            return false;
        }
        *served += 1;
        true
    }

    /// One more is served, as soon as one of the others has left: for two seconds that is waited for, and not where the house stops. Says
    /// whether it is served; then `release` is called once it has gone.
    pub(crate) fn wait_for_turn<R: Wait>(&self, rt: &R, acceptor: &Acceptor<'_>) -> bool {
        for _ in 0..PAUSES {
            if self.admit(rt) {
                return true;
            }
            if acceptor.is_shut() {
                return false;
            }
            acceptor.pause.wait();
        }
        self.admit(rt)
    }

    /// One that was served has gone.
    pub(crate) fn release<R: Wait>(&self, rt: &R) {
        let mut served = self.served.lock(rt);
        *served = served.saturating_sub(1);
    }
}

/// A limit for each of so many users, in the compatible profile: so many clients of each are served at a time. None in the standard profile,
/// where a client waits until it is accepted. An error where memory is refused.
pub(crate) fn limits_for(
    alloc: Global,
    compatible: bool,
    users: u16,
    most: u8,
) -> Result<Vec<ClientLimit>, AllocError> {
    let mut limits = Vec::new(alloc);
    if compatible {
        for _ in 0..users {
            limits.push(ClientLimit::new(most))?;
        }
    }
    Ok(limits)
}

/// Says to a client that it is one too many, in place of a greeting (RFC 9051, 7.1.5).
///
/// Errors: `SendFault` where the output fails; it took the first bytes of that.
pub(crate) fn turn_away<W: Sink>(output: &mut W) -> Result<(), SendFault>
    requires { W.failed output.old ≡ false }
    ensures all { OnOk result (Appends (W.taken output.old) (W.taken output.new) turned_away) }
    ensures fault { IfErr result (λ f.
        Appends (W.taken output.old) (W.taken output.new) (take f.sent turned_away)) }
    ensures failed { IfErr result (λ f. W.failed output.new ≡ true) }
{
    send(output, b"* BYE Too many sessions\r\n")
}
