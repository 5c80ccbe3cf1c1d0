ghost use Rattle.std.specs.Prelude.{◌≡◌, ◌≤◌, ◌+◌, ◌++◌, ℕ, List, Option, Some, OnOk, OnErr};
ghost use Rattle.std.specs.Prelude.{IfSome, is_some, length};
ghost use Rattle.m3_ports.specs.Counts.{Rose};
ghost use Rattle.m3_ports.specs.Files.{LeavesAtFault};

/// A put did not go through.
#[derive(Clone, Copy, Debug, PartialEq, Eq)]
pub struct SinkFailed;

/// Where output goes. A sink counts its faults, and may tell the bytes that it took.
pub trait Sink {
    /// The bytes so far, where the sink tells them.
    ghost taken: { Self → Option (List ℕ) };

    /// How many of the last of these still wait in it, so that a fault may take them away.
    ghost waiting: { Self → ℕ };

    ghost faults: { Self → ℕ };

    /// Takes a piece. After a fault the count of faults rose, and the sink has a front of what it
    /// took with the piece behind it: all that didn't wait, and so a front of the piece where
    /// nothing did. It takes no memory.
    fn put(&mut self, piece: &[u8]) -> Result<(), SinkFailed>
        ensures faults { faults self.old ≤ faults self.new }
        ensures told { is_some (taken self.new) ≡ is_some (taken self.old) }
        ensures kept { OnOk result (faults self.new ≡ faults self.old) }
        ensures ok { OnOk result (IfSome (taken self.old)
            (λ bytes. taken self.new ≡ Some (bytes ++ piece.now))) }
        ensures waits { OnOk result (waiting self.new ≤ waiting self.old + length piece.now) }
        ensures failed { OnErr result (Rose (faults self.old) (faults self.new)
            × IfSome (taken self.old) (λ bytes. (all : List ℕ)
            × LeavesAtFault (waiting self.old) bytes piece.now all
            × (taken self.new ≡ Some all))) };
}
