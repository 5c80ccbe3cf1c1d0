ghost use Rattle.std.specs.Prelude.{◌≡◌, ◌≤◌, ◌<◌, ◌+◌, ◌++◌, ℕ, List, [], Option, Some, IfOk, OnOk};
ghost use Rattle.std.specs.Prelude.{OnErr, IfSome, is_some, length};
ghost use Rattle.m3_ports.specs.Counts.{Rose};
ghost use Rattle.m3_ports.specs.Files.{LeavesAtFault};
ghost use Rattle.m3c_streams.specs.Gathering.{Fails, Takes, taken_of, waiting_of};

use m3_base::NoMemory;
use m3_ports::{Sink, SinkFailed};
use std::alloc::Global;
use std::marker::Model;

// The most bytes that wait.
const ROOM: usize = 8192;

// Until so many bytes were given on, each line goes at once, so that whoever watches sees it.
const WATCHED: u64 = 65_536;

/// A sink before another one, which gathers small pieces into large ones. What it took is what the
/// sink behind took and what waits.
#[derive(Drop)]
pub struct Gathered<S: Sink + Drop> {
    to: S,
    waiting: Vec<u8>,
    given: u64,
}

impl<S: Sink + Drop> Model for Gathered<S> {
    ghost use Rattle.std.specs.Prelude.{◌≤◌, vec_len, vec_capacity};
    ghost use Rattle.m3c_streams.specs.Gathering.{Gathering};

    ghost Value = { Gathering };

    ghost view = { λ s. record {
      told = S.taken s.to;
      behind = S.waiting s.to;
      waiting = s.waiting.items;
      faults = S.faults s.to;
    } };

    ghost invariant = { λ s. (vec_len s.waiting ≤ 8192) × (8192 ≤ vec_capacity s.waiting) };
}

impl<S: Sink + Drop> Gathered<S> {
    /// A sink before `to`, in which nothing waits.
    pub fn new(alloc: Global, to: S) -> Result<Gathered<S>, NoMemory>
        ensures { IfOk result (λ sink. sink ≡ record {
          told = S.taken to;
          behind = S.waiting to;
          waiting = [];
          faults = S.faults to;
        }) }
    {
        Ok(Gathered {
            to,
            waiting: Vec::with_capacity(alloc, ROOM)?,
            given: 0,
        })
    }

    /// Gives on what waits. After a fault nothing waits any more, and where nothing waits, nothing
    /// is put.
    pub fn flush(&mut self) -> Result<(), SinkFailed>
        ensures nothing { self.new.waiting ≡ [] }
        ensures idle { self.old.waiting ≡ [] → self.new ≡ self.old }
        ensures faults { self.old.faults ≤ self.new.faults }
        ensures told { is_some self.new.told ≡ is_some self.old.told }
        ensures kept { OnOk result (self.new.faults ≡ self.old.faults) }
        ensures ok { OnOk result
            (IfSome self.old.told (λ bytes. self.new.told ≡ Some (bytes ++ self.old.waiting))) }
        ensures behind { OnOk result
            (self.new.behind ≤ self.old.behind + length self.old.waiting) }
        ensures failed { OnErr result (Rose self.old.faults self.new.faults
            × IfSome self.old.told (λ bytes. (all : List ℕ)
            × LeavesAtFault self.old.behind bytes self.old.waiting all
            × (self.new.told ≡ Some all))) }
    {
        if self.waiting.is_empty() {
            return Ok(());
        }
        let result = self.to.put(self.waiting.as_slice());
        self.given = self.given.saturating_add(self.waiting.len() as u64);
        self.waiting.clear();
        result
    }

    // Gives on what waits, where so many bytes have no room behind it.
    fn make_room(&mut self, count: usize) -> Result<(), SinkFailed>
        ensures took { OnOk result (Takes self.old self.new []) }
        ensures room { OnOk result (count ≤ 8192 → length self.new.waiting + count ≤ 8192) }
        ensures nothing { OnOk result (8192 < count → self.new.waiting ≡ []) }
        ensures failed { OnErr result (Fails self.old self.new []) }
    {
        if count > ROOM - self.waiting.len() {
            return self.flush();
        }
        Ok(())
    }

    // Gives a piece on at once, where nothing waits before it.
    fn put_on(&mut self, piece: &[u8]) -> Result<(), SinkFailed>
        requires { self.old.waiting ≡ [] }
        ensures took { OnOk result (Takes self.old self.new piece.now) }
        ensures failed { OnErr result (Fails self.old self.new piece.now) }
    {
        self.to.put(piece)
    }

    // Has a piece wait behind the others.
    fn keep(&mut self, piece: &[u8])
        requires { length self.old.waiting + length piece.now ≤ 8192 }
        ensures { self.new ≡ record self.old { waiting = self.old.waiting ++ piece.now } }
    {
        match self.waiting.extend_from_slice(piece) {
            Ok(()) => {}
            Err(_) => unreachable!(),
        }
    }

    /// The sink that the pieces go to.
    pub fn to(&self) -> &S {
        &self.to
    }
}

impl<S: Sink + Drop> Sink for Gathered<S> {
    ghost taken = { taken_of };

    ghost waiting = { waiting_of };

    ghost faults = { λ s. s.faults };

    fn put(&mut self, piece: &[u8]) -> Result<(), SinkFailed>
        ensures nothing { OnErr result (self.new.waiting ≡ []) }

        ensures faults { self.old.faults ≤ self.new.faults }
        ensures told { is_some (taken_of self.new) ≡ is_some (taken_of self.old) }
        ensures kept { OnOk result (self.new.faults ≡ self.old.faults) }
        ensures ok { OnOk result (IfSome (taken_of self.old)
            (λ bytes. taken_of self.new ≡ Some (bytes ++ piece.now))) }
        ensures waits { OnOk result
            (waiting_of self.new ≤ waiting_of self.old + length piece.now) }
        ensures failed { OnErr result (Rose self.old.faults self.new.faults
            × IfSome (taken_of self.old) (λ bytes. (all : List ℕ)
            × LeavesAtFault (waiting_of self.old) bytes piece.now all
            × (taken_of self.new ≡ Some all))) }
    {
        self.make_room(piece.len())?;
        if piece.len() > ROOM {
            return self.put_on(piece);
        }
        self.keep(piece);
        if self.given < WATCHED && piece.last() == Some(&b'\n') {
            return self.flush();
        }
        Ok(())
    }
}
