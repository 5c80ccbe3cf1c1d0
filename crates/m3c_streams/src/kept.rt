ghost use Rattle.std.specs.Prelude.{◌≡◌, ◌≤◌, ◌+◌, ◌++◌, ℕ, List, [], Option, Some, IfOk, OnOk};
ghost use Rattle.std.specs.Prelude.{OnErr, IfSome, is_some, length, true, false};
ghost use Rattle.m3_ports.specs.Counts.{Rose};
ghost use Rattle.m3_ports.specs.Files.{LeavesAtFault};
ghost use Rattle.m3c_streams.specs.Gathering.{Fails, Takes, taken_of, waiting_of};

use m3_base::NoMemory;
use m3_ports::{Sink, SinkFailed};
use std::alloc::Global;
use std::marker::Model;

// The bytes for which room is taken before the command runs.
const ROOM: usize = 8192;

/// A sink that keeps what it takes, to be given to another one later. Where it gets no room for a
/// piece, it gives on at once what it has, and the piece.
#[derive(Drop)]
pub struct Kept<S: Sink + Drop> {
    to: S,
    bytes: Vec<u8>,
}

impl<S: Sink + Drop> Model for Kept<S> {
    ghost use Rattle.m3c_streams.specs.Gathering.{Gathering};

    ghost Value = { Gathering };

    ghost view = { λ s. record {
      told = S.taken s.to;
      behind = S.waiting s.to;
      waiting = s.bytes.items;
      faults = S.faults s.to;
    } };
}

impl<S: Sink + Drop> Kept<S> {
    /// A sink before `to`, which keeps nothing yet.
    pub fn new(alloc: Global, to: S) -> Result<Kept<S>, NoMemory>
        ensures { IfOk result (λ sink. sink ≡ record {
          told = S.taken to;
          behind = S.waiting to;
          waiting = [];
          faults = S.faults to;
        }) }
    {
        Ok(Kept {
            to,
            bytes: Vec::with_capacity(alloc, ROOM)?,
        })
    }

    /// Forgets what it keeps.
    pub fn forget(&mut self)
        ensures { self.new ≡ record self.old { waiting = [] } }
    {
        self.bytes.clear();
    }

    /// Gives on what it keeps, and keeps nothing any more.
    pub fn give(&mut self) -> Result<(), SinkFailed>
        ensures nothing { self.new.waiting ≡ [] }
        ensures faults { self.old.faults ≤ self.new.faults }
        ensures told { is_some self.new.told ≡ is_some self.old.told }
        ensures kept { OnOk result (self.new.faults ≡ self.old.faults) }
        ensures ok { OnOk result
            (IfSome self.old.told (λ bytes. self.new.told ≡ Some (bytes ++ self.old.waiting))) }
        ensures behind { OnOk result
            (self.new.behind ≤ self.old.behind + length self.old.waiting) }
        ensures failed { OnErr result (Rose self.old.faults self.new.faults
            × IfSome self.old.told (λ bytes. (all : List ℕ)
            × LeavesAtFault self.old.behind bytes self.old.waiting all
            × (self.new.told ≡ Some all))) }
    {
        let result = self.to.put(self.bytes.as_slice());
        self.bytes.clear();
        result
    }

    // Gives on what it keeps, and the piece.
    fn give_with(&mut self, piece: &[u8]) -> Result<(), SinkFailed>
        ensures took { OnOk result (Takes self.old self.new piece.now) }
        ensures failed { OnErr result (Fails self.old self.new piece.now) }
    {
        self.give()?;
        self.put_on(piece)
    }

    // Gives a piece on at once, where it keeps nothing.
    #[tactic(auto, using(crate::proofs::Steps::put_fails))]
    fn put_on(&mut self, piece: &[u8]) -> Result<(), SinkFailed>
        requires { self.old.waiting ≡ [] }
        ensures took { OnOk result (Takes self.old self.new piece.now) }
        ensures failed { OnErr result (Fails self.old self.new piece.now) }
    {
        self.to.put(piece)
    }

    // Whether there was room to keep a piece.
    fn keep(&mut self, piece: &[u8]) -> bool
        ensures kept { result ≡ true → self.new
            ≡ record self.old { waiting = self.old.waiting ++ piece.now } }
        ensures full { result ≡ false → self.new ≡ self.old }
    {
        self.bytes.extend_from_slice(piece).is_ok()
    }
}

impl<S: Sink + Drop> Sink for Kept<S> {
    ghost taken = { taken_of };

    ghost waiting = { waiting_of };

    ghost faults = { λ s. s.faults };

    fn put(&mut self, piece: &[u8]) -> Result<(), SinkFailed>
        ensures nothing { OnErr result (self.new.waiting ≡ []) }

        ensures faults { self.old.faults ≤ self.new.faults }
        ensures told { is_some (taken_of self.new) ≡ is_some (taken_of self.old) }
        ensures kept { OnOk result (self.new.faults ≡ self.old.faults) }
        ensures ok { OnOk result (IfSome (taken_of self.old)
            (λ bytes. taken_of self.new ≡ Some (bytes ++ piece.now))) }
        ensures waits { OnOk result
            (waiting_of self.new ≤ waiting_of self.old + length piece.now) }
        ensures failed { OnErr result (Rose self.old.faults self.new.faults
            × IfSome (taken_of self.old) (λ bytes. (all : List ℕ)
            × LeavesAtFault (waiting_of self.old) bytes piece.now all
            × (taken_of self.new ≡ Some all))) }
    {
        if self.keep(piece) {
            return Ok(());
        }
        self.give_with(piece)
    }
}
