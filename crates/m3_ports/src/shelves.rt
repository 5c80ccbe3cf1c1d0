ghost use Rattle.std.specs.Prelude.{◌≡◌, ◌≤◌, ℕ, Option, OnOk, IfSome, IsErrOf, is_some};
ghost use Rattle.std.specs.Option.{option_map};
ghost use Rattle.std.specs.FinMap.{insert};
ghost use Rattle.m3_ports.specs.Counts.{Rose};
ghost use Rattle.m3_ports.specs.Files.{Files, Fetches, LeavesFront};

use std::alloc::Global;

/// Why a shelf did not do what it was asked.
#[derive(Clone, Copy, Debug, PartialEq, Eq)]
pub enum ShelfFault {
    /// No file has this name.
    Absent,
    /// The file has more bytes than the cap.
    TooLong,
    /// A read or a write failed.
    Failed,
    NoMemory,
}

/// Files under names. A shelf counts what goes wrong: faults of fetching and of storing, absences
/// and files that were too long. It may tell what it holds; where it does, the clauses speak of
/// that too.
pub trait Shelf {
    /// The files, where the shelf tells them.
    ghost held: { Self → Option Files };

    ghost faults: { Self → ℕ };

    ghost store_faults: { Self → ℕ };

    ghost absences: { Self → ℕ };

    ghost excesses: { Self → ℕ };

    /// Adds the bytes of the named file to `into`, if they are at most `cap`. After an error `into`
    /// has grown by a front of them: by nothing where the file is absent, by `cap` bytes where it
    /// is too long.
    fn fetch(
        &mut self,
        alloc: Global,
        name: &str,
        cap: u64,
        into: &mut Vec<u8>,
    ) -> Result<(), ShelfFault>
        ensures held { held self.new ≡ held self.old }
        ensures faults { faults self.old ≤ faults self.new }
        ensures store_faults { store_faults self.old ≤ store_faults self.new }
        ensures absences { absences self.old ≤ absences self.new }
        ensures excesses { excesses self.old ≤ excesses self.new }

        ensures fetches { Fetches (held self.old) name.now cap into.old.items into.new.items
            result }
        ensures absent { IsErrOf result ShelfFault.Absent
            → Rose (absences self.old) (absences self.new) }
        ensures too_long { IsErrOf result ShelfFault.TooLong
            → Rose (excesses self.old) (excesses self.new) }
        ensures failed { IsErrOf result ShelfFault.Failed
            → Rose (faults self.old) (faults self.new) };

    /// Keeps the bytes under the name, in the place of what was there. A write that failed may have
    /// left a front of them; want of memory leaves all as it was.
    fn store(&mut self, alloc: Global, name: &str, bytes: &[u8]) -> Result<(), ShelfFault>
        ensures faults { faults self.old ≤ faults self.new }
        ensures store_faults { store_faults self.old ≤ store_faults self.new }
        ensures absences { absences self.old ≤ absences self.new }
        ensures excesses { excesses self.old ≤ excesses self.new }
        ensures told { is_some (held self.new) ≡ is_some (held self.old) }

        ensures ok { OnOk result (held self.new
            ≡ option_map (λ files. insert files name.now bytes.now) (held self.old)) }

        ensures not_absent { IsErrOf result ShelfFault.Absent → ⊥ }
        ensures not_too_long { IsErrOf result ShelfFault.TooLong → ⊥ }
        ensures failed { IsErrOf result ShelfFault.Failed
            → Rose (store_faults self.old) (store_faults self.new)
            × IfSome (held self.old) (λ old. IfSome (held self.new)
            (λ new. LeavesFront old new name.now bytes.now)) }
        ensures no_memory { IsErrOf result ShelfFault.NoMemory → held self.new ≡ held self.old };
}
