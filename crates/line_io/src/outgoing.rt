//! An outlet whose buffer sends what is said. Whoever writes an answer may take it out of its place; a vector stands there meanwhile.

use crate::buffer::{Buffer, FlushFault};
use crate::outlet::Outlet;
use crate::sink::Sink;
use std::alloc::{AllocError, Global};
use std::marker::Model;

/// An [`Outlet`] over a sink: a [`Buffer`], which sends what is said. Where the buffer was taken out of its place what is said is kept in a vector.
#[derive(Drop)]
pub struct Outgoing<W: Sink> {
    buffer: Option<Buffer<W>>,
    kept: Vec<u8>,
}

impl<W: Sink> Model for Outgoing<W> {
    ghost use Rattle.std.specs.Prelude.{◌-◌, vec_len, vec_capacity};
    ghost use Rattle.line_io.specs.Outgoing.{Outgoing as Placed};

    ghost Value = { Placed };

    ghost view = { λ o. record {
      buffer = o.buffer;
      kept = o.kept.items;
      spare = vec_capacity o.kept - vec_len o.kept;
    } };
}

impl<W: Sink> Outgoing<W> {
    ghost use Rattle.std.specs.Prelude.{◌≡◌, [], Some, None, IsSome, IfSome, IfNone, length, vec_capacity};
    ghost use Rattle.line_io.specs.Outlet.{Buffer as Sending};
    ghost use Rattle.line_io.specs.Outgoing.{Flushed, IsReady};

    /// An outlet over this buffer.
    pub fn new(alloc: Global, buffer: Buffer<W>) -> Outgoing<W>
        ensures { result ≡ record { buffer = Some buffer; kept = []; spare = 0 } }
    {
        Outgoing {
            buffer: Some(buffer),
            kept: Vec::new(alloc),
        }
    }

    /// Begins anew, where the buffer is here and all that was said was sent: from here on contracts speak of what is said now. It does nothing when
    /// it runs.
    pub fn begin(&mut self)
        requires ready { IsReady self.old }
        ensures { IfSome self.old.buffer (λ b. self.new ≡ record self.old {
          buffer = Some (record b { said = []; start = b.taken });
        }) }
    {
        if let Some(buffer) = &mut self.buffer {
            buffer.begin();
        }
    }

    /// Sends what is pending, where the buffer is here. Nothing is said by it.
    ///
    /// Errors: `FlushFault` where the sink failed, now or before.
    pub fn flush(&mut self) -> Result<(), FlushFault>
        requires there { IsSome self.old.buffer }
        // The buffer is here still: what was said stays, and after Ok all of it was sent; else its first bytes, and not all.
        ensures { IfSome self.old.buffer (λ before. (after : Sending)
            × (self.new ≡ record self.old { buffer = Some after })
            × Flushed before result after) }
    {
        match &mut self.buffer {
            Some(buffer) => buffer.flush(),
            None => Ok(()),
        }
    }

    /// The buffer waits in this row of bytes from here on, where it is here and all that was said was sent; the row that it had is given back.
    pub fn trade(&mut self, row: Vec<u8>) -> Vec<u8>
        requires ready { IsReady self.old }
        ensures row { IfSome self.old.buffer (λ b. (length result.items ≡ b.limit)
            × (vec_capacity result ≡ b.memory)) }
        ensures trades { IfSome self.old.buffer (λ b. self.new ≡ record self.old {
          buffer = Some (record b {
            limit = length row.items;
            memory = vec_capacity row;
          });
        }) }
    {
        match &mut self.buffer {
            Some(buffer) => buffer.trade(row),
            None => row,
        }
    }

    /// Gives the sink back, where the buffer is here. What is pending is never sent.
    pub fn into_sink(self) -> Option<W>
        ensures none { IfNone result (self.buffer ≡ None) }
        ensures sink { IfSome result (λ sink. IfSome self.buffer (λ b.
            (W.taken sink ≡ b.taken) × (W.failed sink ≡ b.failed))) }
    {
        let Outgoing { buffer, kept: _ } = self;
        let Some(buffer) = buffer else {
            return None;
        };
        Some(buffer.into_sink())
    }
}

impl<W: Sink + Drop> Outlet for Outgoing<W> {
    ghost use Rattle.std.specs.Prelude.{◌≡◌, []};
    ghost use Rattle.line_io.specs.Outgoing.{lends_of, lot_of, never_full_of, room_of, said_of};

    ghost said = { λ o. said_of o.buffer o.kept };

    ghost lot = { λ o. lot_of o.buffer };

    ghost room = { λ o. room_of o.buffer o.spare };

    ghost lends = { λ o. lends_of o.buffer ((o.kept ≡ []) × (o.spare ≡ 0)) };

    ghost never_full = { λ o. never_full_of o.buffer o.spare };

    fn hold(&mut self, count: usize) -> Result<(), AllocError> {
        match &self.buffer {
            Some(_) => Ok(()),
            None => self.kept.hold(count),
        }
    }

    fn put(&mut self, bytes: &[u8]) {
        match &mut self.buffer {
            Some(buffer) => buffer.put(bytes),
            None => self.kept.put(bytes),
        }
    }

    fn lend(&mut self) -> Vec<u8> {
        match &self.buffer {
            Some(_) => Vec::new(*self.kept.allocator()),
            None => self.kept.lend(),
        }
    }

    fn take_back(&mut self, part: Vec<u8>) {
        match &mut self.buffer {
            Some(buffer) => buffer.put(&part),
            None => self.kept.take_back(part),
        }
    }

    fn take(&mut self) -> Outgoing<W> {
        Outgoing {
            buffer: self.buffer.take(),
            kept: self.kept.take(),
        }
    }

    fn put_back(&mut self, taken: Outgoing<W>) {
        *self = taken;
    }

    fn alloc(&self) -> Global {
        *self.kept.allocator()
    }
}
