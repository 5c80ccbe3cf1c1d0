ghost use Rattle.std.specs.Prelude.{◌≡◌, ℕ, Bool, Option, IsSome, IsTrue, ◌<◌, ◌^◌};
ghost use Rattle.m3_isa.specs.Memory.{put};

/// The words that an instruction sees, by what each address holds.
pub trait Words {
    /// The word at each address, if there is one.
    ghost holds: { Self → ℕ → Option ℕ };

    /// Whether a word at an address can be replaced.
    ghost writable: { Self → ℕ → Bool };

    /// What stands beside these words and stays when one of them is replaced: a memory after stores
    /// keeps what the memory before them had.
    ghost keeps: { Self → Self → Type 0 };

    /// The word at an address, if one is there.
    fn load(&self, at: u64) -> Option<u64>
        ensures { result ≡ holds self.now at };

    /// Replaces the word at an address where that can be done, and says whether it was.
    fn store(&mut self, at: u64, word: u64) -> bool
        ensures answer { result ≡ writable self.old at }
        ensures stored { IsTrue result → (x : ℕ) → holds self.new x ≡ put (holds self.old) at word x }
        ensures refused { result ≡ Bool.false → (x : ℕ) → holds self.new x ≡ holds self.old x }
        ensures writable { (x : ℕ) → writable self.new x ≡ writable self.old x }
        ensures keeps { keeps self.old self.new };

    // A word that can be replaced is there, and words are only at addresses below 2 ^ 63.
    ghost readable: { (s : Self) (x : ℕ) → IsTrue (writable s x) → IsSome (holds s x) };

    ghost low: { (s : Self) (x : ℕ) → IsSome (holds s x) → x < 2 ^ 63 };

    // What no store changes is kept, and what one store after another keeps is kept by all.
    ghost keeps_itself: { (s : Self) → keeps s s };

    ghost keeps_on: { (s t u : Self) → keeps s t → keeps t u → keeps s u };
}
