ghost use Rattle.std.specs.Prelude.{◌≡◌, ◌≤◌, ◌<◌, ◌++◌, ◌⊎◌, ℕ, List, [], ◌∷◌, Option, Some, IfOk};
ghost use Rattle.std.specs.Prelude.{OnOk, OnErr, IfSome, IsErr, IsErrOf, is_some, length, take};
ghost use Rattle.std.specs.Prelude.{Contains, IsTrue, ◌↔◌};
ghost use Rattle.std.specs.Option.{option_map, option_copied};
ghost use Rattle.std.specs.FinMap.{insert, get, from_entries};
ghost use Rattle.m3_ports.specs.Counts.{Rose, raised};
ghost use Rattle.m3_ports.specs.Files.{files_of, Fetches, LeavesFront};
ghost use Rattle.m3_ports.specs.Memory.{empty_shelf, CallFails, after_fetch, after_store};

use crate::shelves::{Shelf, ShelfFault};
use m3_base::{Bytes, NoMemory};
use std::alloc::Global;
use std::collections::VecDeque;
use std::marker::Model;

/// A shelf in memory, which tells what it holds. Its calls are numbered from 1, and those that it
/// was told to fail answer `Failed`, unless they answer `Absent`, `TooLong` or `NoMemory`.
#[derive(Drop)]
pub struct MemShelf {
    /// What was stored, the newest first.
    log: VecDeque<(Bytes, Bytes)>,
    calls: u64,
    faults: u64,
    store_faults: u64,
    absences: u64,
    excesses: u64,
    failing: Vec<u64>,
}

impl Model for MemShelf {
    ghost use Rattle.m3_ports.specs.Files.{files_of};
    ghost use Rattle.m3_ports.specs.Memory.{Holding, holding_code};

    ghost Value = { Holding };

    ghost coded = { holding_code };

    ghost view = { λ s. record {
      files = files_of s.log.items;
      calls = s.calls;
      faults = s.faults;
      store_faults = s.store_faults;
      absences = s.absences;
      excesses = s.excesses;
      failing = s.failing.items;
    } };
}

impl MemShelf {
    /// A shelf without files.
    pub fn new(alloc: Global) -> Result<MemShelf, NoMemory>
        ensures { IfOk result (λ shelf. shelf ≡ empty_shelf) }
    {
        Ok(MemShelf {
            log: VecDeque::new(alloc),
            calls: 0,
            faults: 0,
            store_faults: 0,
            absences: 0,
            excesses: 0,
            failing: Vec::new(alloc),
        })
    }

    /// Has the call of this number fail.
    pub fn fail_at(&mut self, call: u64) -> Result<(), NoMemory>
        ensures ok { OnOk result (self.new ≡ record self.old
            { failing = self.old.failing ++ call ∷ [] }) }
        ensures err { OnErr result (self.new ≡ self.old) }
    {
        self.failing.push(call)?;
        Ok(())
    }
}

/// The bytes that were stored under a name last.
fn newest<'a>(log: &'a VecDeque<(Bytes, Bytes)>, name: &[u8]) -> Option<&'a Bytes>
    ensures { option_copied result ≡ get (files_of log.now.items) name.now }
{
    for (held, bytes) in log {
        if name == held.as_slice() {
            return Some(bytes);
        }
    }
    None
}

/// Whether a call of this number is to fail.
fn is_named(failing: &[u64], call: u64) -> bool
    ensures { IsTrue result ↔ Contains failing.now call }
{
    failing.contains(&call)
}

/// Adds the file's bytes to `into`, as far as `cap` allows.
fn take_newest(
    log: &VecDeque<(Bytes, Bytes)>,
    name: &[u8],
    cap: u64,
    fails: bool,
    into: &mut Vec<u8>,
) -> Result<(), ShelfFault>
    ensures fetches { Fetches (Some (files_of log.now.items)) name.now cap into.old.items
        into.new.items result }
    ensures named { IsTrue fails → IsErr result }
    ensures only_named { IsErrOf result ShelfFault.Failed → IsTrue fails }
{
    let Some(bytes) = newest(log, name) else {
        return Err(ShelfFault::Absent);
    };
    let bytes = bytes.as_slice();
    if bytes.len() as u64 > cap {
        match into.extend_from_slice(&bytes[..cap as usize]) {
            Ok(()) => return Err(ShelfFault::TooLong),
            Err(_) => return Err(ShelfFault::NoMemory),
        }
    }
    if fails {
        return Err(ShelfFault::Failed);
    }
    match into.extend_from_slice(bytes) {
        Ok(()) => Ok(()),
        Err(_) => Err(ShelfFault::NoMemory),
    }
}

impl Shelf for MemShelf {
    ghost held = { λ s. Some s.files };

    ghost faults = { λ s. s.faults };

    ghost store_faults = { λ s. s.store_faults };

    ghost absences = { λ s. s.absences };

    ghost excesses = { λ s. s.excesses };

    fn fetch(
        &mut self,
        _alloc: Global,
        name: &str,
        cap: u64,
        into: &mut Vec<u8>,
    ) -> Result<(), ShelfFault>
        ensures after { self.new ≡ after_fetch self.old result }
        ensures named { CallFails self.old → IsErr result }
        ensures only_named { IsErrOf result ShelfFault.Failed → CallFails self.old }

        ensures held { Some self.new.files ≡ Some self.old.files }
        ensures faults { self.old.faults ≤ self.new.faults }
        ensures store_faults { self.old.store_faults ≤ self.new.store_faults }
        ensures absences { self.old.absences ≤ self.new.absences }
        ensures excesses { self.old.excesses ≤ self.new.excesses }

        ensures fetches { Fetches (Some self.old.files) name.now cap into.old.items into.new.items
            result }
        ensures absent { IsErrOf result ShelfFault.Absent
            → Rose self.old.absences self.new.absences }
        ensures too_long { IsErrOf result ShelfFault.TooLong
            → Rose self.old.excesses self.new.excesses }
        ensures failed { IsErrOf result ShelfFault.Failed → Rose self.old.faults self.new.faults }
    {
        self.calls = self.calls.saturating_add(1);
        let fails = is_named(self.failing.as_slice(), self.calls);
        let answer = take_newest(&self.log, name.as_bytes(), cap, fails, into);
        match answer {
            Err(ShelfFault::Absent) => self.absences = self.absences.saturating_add(1),
            Err(ShelfFault::TooLong) => self.excesses = self.excesses.saturating_add(1),
            Err(ShelfFault::Failed) => self.faults = self.faults.saturating_add(1),
            Err(ShelfFault::NoMemory) | Ok(()) => {}
        }
        answer
    }

    fn store(&mut self, alloc: Global, name: &str, bytes: &[u8]) -> Result<(), ShelfFault>
        ensures after { self.new ≡ after_store self.old name.now bytes.now result }
        ensures named { CallFails self.old → IsErr result }
        ensures only_named { IsErrOf result ShelfFault.Failed → CallFails self.old }

        ensures faults { self.old.faults ≤ self.new.faults }
        ensures store_faults { self.old.store_faults ≤ self.new.store_faults }
        ensures absences { self.old.absences ≤ self.new.absences }
        ensures excesses { self.old.excesses ≤ self.new.excesses }
        ensures told { is_some (Some self.new.files) ≡ is_some (Some self.old.files) }

        ensures ok { OnOk result (Some self.new.files
            ≡ option_map (λ files. insert files name.now bytes.now) (Some self.old.files)) }

        ensures not_absent { IsErrOf result ShelfFault.Absent → ⊥ }
        ensures not_too_long { IsErrOf result ShelfFault.TooLong → ⊥ }
        ensures failed { IsErrOf result ShelfFault.Failed
            → Rose self.old.store_faults self.new.store_faults
            × IfSome (Some self.old.files) (λ old. IfSome (Some self.new.files)
            (λ new. LeavesFront old new name.now bytes.now)) }
        ensures no_memory { IsErrOf result ShelfFault.NoMemory
            → Some self.new.files ≡ Some self.old.files }
    {
        self.calls = self.calls.saturating_add(1);
        if is_named(self.failing.as_slice(), self.calls) {
            self.store_faults = self.store_faults.saturating_add(1);
            return Err(ShelfFault::Failed);
        }
        let Ok(name) = Bytes::of(alloc, name.as_bytes()) else {
            return Err(ShelfFault::NoMemory);
        };
        let Ok(bytes) = Bytes::of(alloc, bytes) else {
            return Err(ShelfFault::NoMemory);
        };
        if self.log.push_front((name, bytes)).is_err() {
            return Err(ShelfFault::NoMemory);
        }
        Ok(())
    }
}
