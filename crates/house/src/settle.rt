//! How the house settles: each in turn does what it has to do, over and over until nobody has anything to do. What an event does is
//! the house's own; nothing here looks into it.

ghost use Rattle.std.specs.Prelude.{◌≡◌, ◌<◌, All, OnOk, OnErr};
ghost use Rattle.house.specs.Scene as scene;
ghost use Rattle.house.specs.Setup.{Setup};
ghost use Rattle.house.specs.Settled.{BrokeOffFrom, SettledFrom, is_held};
ghost use Rattle.house.specs.Settling.{GoesRounds, RoundsBreakOff, round};
ghost use Rattle.house.specs.Stands.{StandsFor};
ghost use Rattle.envelope.specs.Names.{is_shut};
ghost use Rattle.house.specs.inner.Trying.{CameInTurn, CameOne, CameStint, CameStints, Goes, IsOwn, Wants, closes, ends, ends_where, hears, puts, serve, serves};

use crate::event::{Event, HouseFault};
use crate::house::House;
use std::alloc::AllocError;

impl House {
    // An event is tried: whether it happened.
    fn try_event(&mut self, event: Event<'_>, out: &mut Vec<u8>) -> Result<bool, AllocError>
        requires own { IsOwn event }
        ensures marks { self.new.directory ≡ self.old.directory }
        ensures came { CameOne event.entry self.old out.old.items self.new out.new.items result }
    {
        match self.step(event, out) {
            Ok(()) => Ok(true),
            Err(HouseFault::NoMemory) => Err(AllocError),
            Err(HouseFault::Nobody) => Ok(false),
            Err(HouseFault::Busy) => Ok(false),
            Err(HouseFault::Nothing) => Ok(false),
        }
    }

    // Some events are tried, one after another: whether any happened.
    fn try_each(&mut self, group: &[Event<'_>], out: &mut Vec<u8>) -> Result<bool, AllocError>
        requires own { All IsOwn group.now }
        ensures marks { self.new.directory ≡ self.old.directory }
        ensures came { CameInTurn group.now self.old out.old.items self.new out.new.items result }
    {
        let mut moved = false;
        for event in group {
            let one = self.try_event(*event, out)?;
            moved |= one;
        }
        Ok(moved)
    }

    // Some events are tried over and over, until none of them has anything to do: whether any happened.
    fn stint(&mut self, group: &[Event<'_>], out: &mut Vec<u8>) -> Result<bool, AllocError>
        requires own { All IsOwn group.now }
        ensures marks { self.new.directory ≡ self.old.directory }
        ensures came { CameStint group.now self.old out.old.items self.new out.new.items result }
    {
        let mut moved = false;
        loop {
            let more = self.try_each(group, out)?;
            if !more {
                return Ok(moved);
            }
            moved = true;
        }
    }

    // Each seat ends on a shard, whoever stands there.
    fn end_all(&mut self, shard: u8, out: &mut Vec<u8>) -> Result<bool, AllocError>
        ensures came { CameStints (λ k. shard < k.config.shards) (λ k.
            ends k.config.seats shard) self.old out.old.items self.new out.new.items result }
        ensures marks { self.new.directory ≡ self.old.directory }
    {
        let seats = (self.connections.peers.len() + self.sessions.peers.len()) as u8;
        let mut moved = false;
        for seat in 0..seats {
            let one = self.stint(
                &[Event::End {
                    producer: seat + 1,
                    shard,
                }],
                out,
            )?;
            moved |= one;
        }
        Ok(moved)
    }

    // Each seat ends on a shard, where that is shut.
    fn end_where(&mut self, shard: u8, shut: bool, out: &mut Vec<u8>) -> Result<bool, AllocError>
        ensures came { CameStints (λ k. shard < k.config.shards) (λ k.
            ends_where k.config.seats shard shut) self.old out.old.items self.new out.new.items
            result }
        ensures marks { self.new.directory ≡ self.old.directory }
    {
        if !shut {
            return Ok(false);
        }
        self.end_all(shard, out)
    }

    // Each seat ends on each shard that is shut.
    fn close_all(&mut self, out: &mut Vec<u8>) -> Result<bool, AllocError>
        ensures came { CameStints (λ k. Unit {0}) (λ k. closes k.config.seats
            (is_shut self.old.directory) k.config.shards) self.old out.old.items self.new
            out.new.items result }
        ensures marks { self.new.directory ≡ self.old.directory }
    {
        let shards = self.directory.shards();
        let mut moved = false;
        for shard in 0..shards {
            let shut = self.directory.is_shut(usize::from(shard));
            let one = self.end_where(shard, shut, out)?;
            moved |= one;
        }
        Ok(moved)
    }

    // Each connection and each session puts its copies.
    fn put_all(&mut self, out: &mut Vec<u8>) -> Result<bool, AllocError>
        ensures marks { self.new.directory ≡ self.old.directory }
        ensures came { CameStints (λ k. Unit {0}) (λ k.
            puts k.config.seats) self.old out.old.items self.new out.new.items result }
    {
        let seats = (self.connections.peers.len() + self.sessions.peers.len()) as u8;
        let mut moved = false;
        for seat in 0..seats {
            let one = self.stint(&[Event::Put(seat + 1)], out)?;
            moved |= one;
        }
        Ok(moved)
    }

    // Each shard that isn't held takes, delivers and answers.
    fn serve_all(&mut self, held: &[bool], out: &mut Vec<u8>) -> Result<bool, AllocError>
        ensures marks { self.new.directory ≡ self.old.directory }
        ensures came { CameStints (λ k. Unit {0}) (λ k. serves
            (is_held held.now) k.config.shards) self.old out.old.items self.new out.new.items
            result }
    {
        let shards = self.directory.shards();
        let mut moved = false;
        for shard in 0..shards {
            let one = self.serve(shard, is_held(held, shard), out)?;
            moved |= one;
        }
        Ok(moved)
    }

    // A shard takes, delivers and answers, unless it is held.
    fn serve(&mut self, shard: u8, held: bool, out: &mut Vec<u8>) -> Result<bool, AllocError>
        ensures marks { self.new.directory ≡ self.old.directory }
        ensures came { CameStints (λ k.
            shard < k.config.shards) (λ k.
            serve shard held) self.old out.old.items self.new out.new.items result }
    {
        if held {
            return Ok(false);
        }
        let group = [
            Event::Take(shard),
            Event::Deliver(shard),
            Event::Answer(shard),
        ];
        self.stint(&group, out)
    }

    // Each connection and each session hears its verdicts.
    fn hear_all(&mut self, out: &mut Vec<u8>) -> Result<bool, AllocError>
        ensures marks { self.new.directory ≡ self.old.directory }
        ensures came { CameStints (λ k. Unit {0}) (λ k.
            hears k.config.seats) self.old out.old.items self.new out.new.items result }
    {
        let seats = (self.connections.peers.len() + self.sessions.peers.len()) as u8;
        let mut moved = false;
        for seat in 0..seats {
            let one = self.stint(&[Event::Hear(seat + 1)], out)?;
            moved |= one;
        }
        Ok(moved)
    }

    // A round: whether anything happened.
    fn go_round(&mut self, held: &[bool], out: &mut Vec<u8>) -> Result<bool, AllocError>
        ensures marks { self.new.directory ≡ self.old.directory }
        ensures came { CameStints (λ k. Unit {0}) (λ k. round k (is_held held.now)
            (is_shut self.old.directory)) self.old out.old.items self.new out.new.items result }
    {
        let closed = self.close_all(out)?;
        let put = self.put_all(out)?;
        let served = self.serve_all(held, out)?;
        let heard = self.hear_all(out)?;
        Ok(closed | put | served | heard)
    }

    // Rounds, until nothing moves.
    fn go_rounds(&mut self, held: &[bool], out: &mut Vec<u8>) -> Result<(), AllocError>
        ensures ok { OnOk result (Goes (λ k. Unit {0}) (λ k s t printed.
            GoesRounds k (is_held held.now) s t printed) self.old out.old.items self.new
            out.new.items) }
        ensures err { OnErr result (Wants (λ k. Unit {0}) (λ k s t printed.
            RoundsBreakOff k (is_held held.now) s t printed) self.old out.old.items self.new
            out.new.items) }
    {
        loop {
            let moved = self.go_round(held, out)?;
            if !moved {
                return Ok(());
            }
        }
    }

    /// Settles: each seat ends on each shard that is shut, where it hasn't ended; each connection from 1, and each session behind them, puts its
    /// copies; each shard from 0 that isn't held takes, delivers and answers as long as it can; each connection and each session hears its
    /// verdicts; and so on in rounds until nothing moves. Then each session from 1 that idles is shown what is pending, until nothing is.
    /// The one error is want of memory: what happened by then stands, a beginning of the same events, the last of them perhaps in part. Nothing
    /// else happened.
    pub fn settle(&mut self, held: &[bool], out: &mut Vec<u8>) -> Result<(), AllocError>
        // From each scene for which it stood: rounds without held shards till nothing moves, then idle turns; it stands for where they lead.
        ensures settles { OnOk result ((k : Setup) (s : scene.Scene) → StandsFor k self.old s →
            SettledFrom k held.now s self.new out.old.items out.new.items) }

        // From each such scene the same was begun, in the same order, and broke off at one event; the house stands for where that led.
        ensures no_memory { OnErr result ((k : Setup) (s : scene.Scene) → StandsFor k self.old s →
            BrokeOffFrom k held.now s self.new out.old.items out.new.items) }
    {
        self.go_rounds(held, out)?;
        self.idle_all(out)
    }
}

// Whether a shard is held: those that the list doesn't name aren't.
fn is_held(held: &[bool], shard: u8) -> bool
    ensures { result ≡ is_held held.now shard }
{
    held.get(usize::from(shard)).copied().unwrap_or(false)
}
