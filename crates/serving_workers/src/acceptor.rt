//! What a thread that accepts connections needs beside the house and its line: the mark that the house stops, and a pause. What is done with
//! a connection stands elsewhere.

ghost use Rattle.std.specs.Prelude.{◌≡◌, false, IfSome, None};
ghost use Rattle.serving_workers.specs.Leaving.{IsUnwritten, Took};

use crate::line::{Call, Line};
use crate::mark::Mark;
use server_report::{Log, Names, Presence};
use std::sync::Wait;
use workers_sync::{Pause, ShutdownHandle};

/// What a thread goes by that accepts connections.
#[derive(Clone, Copy)]
pub struct Acceptor<'a> {
    /// The house's mark, which is set before the listener is shut.
    pub mark: &'a Mark,
    /// Waited for where the system has no room for one more connection, and for the last words of a peer.
    pub pause: &'a Pause,
    /// What becomes of a connection, and of its copies, is told there.
    pub log: &'a Log,
    /// By what the log tells connections apart.
    pub names: Names<'a>,
    /// For the connection at hand, for whoever stops the house.
    pub shutdown_handle: &'a ShutdownHandle,
    /// What whoever accepts here shows of the connection at hand.
    pub presence: Option<&'a Presence>,
}

impl<'a> Acceptor<'a> {
    /// Whether the house stops.
    pub fn is_shut(&self) -> bool {
        self.mark.is_set()
    }

    /// Waits for the next connection of a line; None once the house stops. Where there is none to be had it is tried again after a pause.
    pub fn next<R: Wait, L: Line>(&self, rt: &R, line: &mut L) -> Option<Call<L::Input, L::Output>>
        ensures took { IfSome result (λ call. Took (L.told line.old) (L.told line.new)
            (L.Input.remaining call.input)) }
        ensures fresh { IfSome result (λ call. (L.Output.failed call.output ≡ false)
            × IsUnwritten (L.told line.new) (L.Output.taken call.output)) }
        ensures ready { IfSome result (λ call. L.ready line.new) }
        ensures none { result ≡ None → L.told line.new ≡ L.told line.old }
    {
        for _ in rt.forever() {
            if self.is_shut() {
                return None;
            }
            if let Some(call) = line.accept() {
                return Some(call);
            }
            if !self.is_shut() {
                self.pause.wait();
            }
        }
        unreachable!()
    }

    /// Shows that the connection with this serial is at hand.
    pub fn show(&self, serial: u64) {
        if let Some(presence) = self.presence {
            presence.come(serial);
        }
    }

    /// Shows that no connection is at hand any more.
    pub fn hide(&self) {
        if let Some(presence) = self.presence {
            presence.go();
        }
    }

    // Shows that the last word was said.
    fn show_parting(&self) {
        if let Some(presence) = self.presence {
            presence.leave();
        }
    }

    /// Leaves a connection so that its peer can read what was said last. As the house stops the peer has a pause first: what it was
    /// sending comes in meanwhile and is dropped, where behind the connection's end it would be answered by a reset, which takes from the
    /// peer what it has not read yet.
    pub fn part<L: Line>(&self, line: &L, input: &L::Input, buffer: &mut [u8]) {
        self.show_parting();
        if self.is_shut() {
            self.pause.wait();
        }
        line.part(input, buffer);
    }
}
