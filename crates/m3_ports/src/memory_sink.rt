ghost use Rattle.std.specs.Prelude.{◌≡◌, ◌≤◌, ◌++◌, ℕ, List, [], ◌∷◌, Some, IfOk, OnOk, OnErr};
ghost use Rattle.std.specs.Prelude.{IfSome, IsErr, ◌↔◌, ◌+◌, is_some, length};
ghost use Rattle.m3_ports.specs.Counts.{Rose, raised};
ghost use Rattle.m3_ports.specs.Files.{LeavesAtFault};
ghost use Rattle.m3_ports.specs.Memory.{PutFails};

use crate::sinks::{Sink, SinkFailed};
use m3_base::NoMemory;
use std::alloc::Global;
use std::marker::Model;

/// A sink in memory, of a fixed room, that tells what it took. Its puts are numbered from 1. Those
/// that it was told to fail, and those that exceed its room, take nothing.
#[derive(Drop)]
pub struct MemSink {
    bytes: Vec<u8>,
    room: usize,
    puts: u64,
    faults: u64,
    failing: Vec<u64>,
}

impl Model for MemSink {
    ghost use Rattle.std.specs.Prelude.{◌≤◌, vec_len, vec_capacity};
    ghost use Rattle.m3_ports.specs.Memory.{Taking};

    ghost Value = { Taking };

    ghost view = { λ s. record {
      taken = s.bytes.items;
      room = s.room;
      puts = s.puts;
      faults = s.faults;
      failing = s.failing.items;
    } };

    ghost invariant = { λ s. (vec_len s.bytes ≤ s.room) × (s.room ≤ vec_capacity s.bytes) };
}

impl MemSink {
    /// An empty sink with room for so many bytes.
    pub fn with_room(alloc: Global, bytes: u64) -> Result<MemSink, NoMemory>
        ensures { IfOk result (λ sink. sink ≡ record
            { taken = []; room = bytes; puts = 0; faults = 0; failing = [] }) }
    {
        let room = bytes as usize;
        Ok(MemSink {
            bytes: Vec::with_capacity(alloc, room)?,
            room,
            puts: 0,
            faults: 0,
            failing: Vec::new(alloc),
        })
    }

    /// Has the put of this number fail.
    pub fn fail_at(&mut self, call: u64) -> Result<(), NoMemory>
        ensures ok { OnOk result (self.new ≡ record self.old
            { failing = self.old.failing ++ call ∷ [] }) }
        ensures err { OnErr result (self.new ≡ self.old) }
    {
        self.failing.push(call)?;
        Ok(())
    }

    /// The bytes that it took.
    pub fn bytes(&self) -> &[u8]
        ensures { result.now ≡ self.now.taken }
    {
        self.bytes.as_slice()
    }
}

impl Sink for MemSink {
    ghost taken = { λ s. Some s.taken };

    ghost waiting = { λ _. 0 };

    ghost faults = { λ s. s.faults };

    fn put(&mut self, piece: &[u8]) -> Result<(), SinkFailed>
        ensures fails { IsErr result ↔ PutFails self.old piece.now }
        ensures took { OnOk result (self.new ≡ record self.old
            { taken = self.old.taken ++ piece.now; puts = raised self.old.puts }) }
        ensures refused { OnErr result (self.new
            ≡ record self.old { puts = raised self.old.puts; faults = raised self.old.faults }) }

        ensures faults { self.old.faults ≤ self.new.faults }
        ensures told { is_some (Some self.new.taken) ≡ is_some (Some self.old.taken) }
        ensures kept { OnOk result (self.new.faults ≡ self.old.faults) }
        ensures ok { OnOk result (IfSome (Some self.old.taken)
            (λ bytes. Some self.new.taken ≡ Some (bytes ++ piece.now))) }
        ensures waits { OnOk result (0 ≤ 0 + length piece.now) }
        ensures failed { OnErr result (Rose self.old.faults self.new.faults
            × IfSome (Some self.old.taken) (λ bytes. (all : List ℕ)
            × LeavesAtFault 0 bytes piece.now all
            × (Some self.new.taken ≡ Some all))) }
    {
        self.puts = self.puts.saturating_add(1);
        let fails = self.failing.contains(&self.puts);
        if fails || piece.len() > self.room - self.bytes.len() {
            self.faults = self.faults.saturating_add(1);
            return Err(SinkFailed);
        }
        match self.bytes.extend_from_slice(piece) {
            Ok(()) => Ok(()),
            Err(_) => unreachable!(),
        }
    }
}
