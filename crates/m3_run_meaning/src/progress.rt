ghost use Rattle.std.specs.Prelude.{◌≡◌};
ghost use Rattle.m3_run_meaning.specs.Progress.{trapped};

use m3_base::Outcome;

/// What became of an instruction: its thread goes on in its turn, it rests since it fell asleep or
/// ended, or the run ends.
#[derive(Clone, Copy, PartialEq, Eq)]
pub enum Progress {
    Goes,
    Rests,
    Ends(Outcome),
}

impl Progress {
    /// The instruction trapped.
    pub fn trap(number: u32) -> Progress
        ensures { result ≡ trapped number }
    {
        Progress::Ends(Outcome::Trap(number))
    }
}
