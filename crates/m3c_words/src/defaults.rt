//! The limits where no option says others.
ghost use Rattle.m3c_words.specs.Ranges.{AreUsual, AreOfBench};

use crate::limits::Limits;

impl Limits {
    /// Those of a run without options.
    pub fn usual() -> Limits
        ensures { AreUsual result }
    {
        Limits {
            points: 1_000_000_000,
            heap: 1_048_576,
            stack: 65_536,
            threads: 8,
            young: false,
        }
    }

    /// Those of `bench`.
    pub fn of_bench() -> Limits
        ensures { AreOfBench result }
    {
        Limits {
            points: 1_000_000,
            heap: 32_768,
            stack: 16_384,
            threads: 8,
            young: false,
        }
    }
}
