//! An outlet takes what is said, in room that was held before. A vector keeps all of it, and a [`Outgoing`](crate::Outgoing) sends it. Who writes to an
//! outlet needn't know which it is.

ghost use Rattle.std.specs.Prelude.{◌≡◌, ◌⊎◌, ◌^◌, ◌+◌, ◌-◌, ◌≤◌, ◌<◌, ◌++◌, ℕ, List, [], None, IfSome, length, OnOk, OnErr, vec_len};
ghost use Rattle.std.specs.Vec.{vec_capacity};
ghost use Rattle.line_io.specs.Outlet.{Lot};

use std::alloc::{AllocError, Global};
use std::mem;

/// Takes what is said, and keeps it or sends it. Memory is asked for by [`hold`](Outlet::hold) alone, so what is put in the room that it made can't fail.
pub trait Outlet {
    // All that was said through it.
    ghost said: { Self → List ℕ };

    // What saying doesn't change of it.
    ghost lot: { Self → Lot };

    // So many bytes more are taken with no memory asked for.
    ghost room: { Self → ℕ };

    // It has lent its vector.
    ghost lends: { Self → Type 0 };

    // Where its memory never grows there is room for all: it sends what it can't keep.
    ghost never_full: { (out : Self) → IfSome (lot out).memory (λ _. 2 ^ 64 ≤ room out) };

    /// Makes room for `count` bytes in all. Nothing is said by it, and there is never less room than before.
    ///
    /// Errors: `AllocError` where there was less room, and memory was refused.
    fn hold(&mut self, count: usize) -> Result<(), AllocError>
        ensures said { said self.new ≡ said self.old }
        ensures lot { lot self.new ≡ lot self.old }
        ensures kept { room self.old ≤ room self.new }
        ensures room { OnOk result (count ≤ room self.new) }
        ensures full { OnErr result (room self.old < count) }
        ensures err { OnErr result (room self.new ≡ room self.old) };

    /// Says these bytes, behind all that was said. There is room for them. They may be sent at once, and so may what was said before.
    fn put(&mut self, bytes: &[u8])
        requires { length bytes.now ≤ room self.old }
        ensures said { said self.new ≡ said self.old ++ bytes.now }
        ensures lot { lot self.new ≡ lot self.old }
        ensures room { room self.old ≤ room self.new + length bytes.now };

    /// Lends a vector to be written behind by somebody who mustn't meet a sink: nothing is sent while that is done. It comes back by
    /// [`take_back`](Outlet::take_back), before more is said.
    fn lend(&mut self) -> Vec<u8>
        // What stands in the vector is the last of what was said; all before it stays said.
        ensures said { said self.old ≡ said self.new ++ result.items }
        ensures lot { lot self.new ≡ lot self.old }
        ensures lent { lends self.new }
        // The room is in that vector, or it stays here and is enough for any.
        ensures room { (vec_len result + room self.old ≤ vec_capacity result)
            ⊎ (2 ^ 64 ≤ room self.new) };

    /// Takes back the vector that was lent: what stands in it is said.
    fn take_back(&mut self, part: Vec<u8>)
        requires { lends self.old }
        ensures said { said self.new ≡ said self.old ++ part.items }
        ensures lot { lot self.new ≡ lot self.old }
        // The room of the vector is here again, beside what stayed.
        ensures room { vec_capacity part ≤ vec_len part + room self.new }
        ensures kept { room self.old ≤ room self.new };

    /// Takes the outlet out of its place, with what was said and the room that is held. What was taken is to be put back there: of what stands in
    /// its place till then nothing is said.
    fn take(&mut self) -> Self
        ensures { result ≡ self.old };

    /// Puts an outlet back that was taken out of here.
    fn put_back(&mut self, taken: Self)
        ensures { self.new ≡ taken };

    /// Where its memory comes from.
    fn alloc(&self) -> Global;
}

impl Outlet for Vec<u8> {
    ghost said = { λ v. v.items };

    ghost lot = { λ _. record { start = None; memory = None } };

    ghost room = { λ v. vec_capacity v - vec_len v };

    ghost lends = { λ v. (v.items ≡ []) × (vec_capacity v ≡ 0) };

    ghost never_full = { λ _. tt };

    fn hold(&mut self, count: usize) -> Result<(), AllocError> {
        self.reserve(count)
    }

    fn put(&mut self, bytes: &[u8]) {
        // It can't fail: there is room.
        let _ = self.extend_from_slice(bytes);
    }

    fn lend(&mut self) -> Vec<u8> {
        let none = Vec::new(*self.allocator());
        mem::replace(self, none)
    }

    fn take_back(&mut self, part: Vec<u8>) {
        *self = part;
    }

    fn take(&mut self) -> Vec<u8> {
        let none = Vec::new(*self.allocator());
        mem::replace(self, none)
    }

    fn put_back(&mut self, taken: Vec<u8>) {
        *self = taken;
    }

    fn alloc(&self) -> Global {
        *self.allocator()
    }
}
