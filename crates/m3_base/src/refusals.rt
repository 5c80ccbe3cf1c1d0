ghost use Rattle.m3_base.specs.declared.refusals.Refused.TheVariants.{NoMemory};
ghost use Rattle.std.specs.Prelude.{◌≡◌};

use crate::memory::NoMemory;
use crate::places::Pos;
use std::alloc::{AllocError, AllocFailed};

/// A broken rule: its phase from 1 to 7, the unit by its number in command order, the place, and the
/// rule's number. Refusals are ordered by these, in this order, and the least of all is the answer.
#[derive(Clone, Copy, Debug, PartialEq, Eq, PartialOrd, Ord)]
pub struct Refusal {
    pub phase: u8,
    pub unit: u32,
    pub pos: Pos,
    pub rule: u16,
}

/// Why a source was not taken.
#[derive(Clone, Copy, Debug, PartialEq, Eq)]
pub enum Refused {
    Rule(Refusal),
    NoMemory,
}

impl From<NoMemory> for Refused {
    ghost from_gives = { λ _ e. e ≡ NoMemory };

    fn from(_e: NoMemory) -> Refused {
        Refused::NoMemory
    }
}

impl From<AllocError> for Refused {
    ghost from_gives = { λ _ e. e ≡ NoMemory };

    fn from(_e: AllocError) -> Refused {
        Refused::NoMemory
    }
}

impl<T: Drop> From<AllocFailed<T>> for Refused {
    ghost from_gives = { λ _ e. e ≡ NoMemory };

    fn from(_e: AllocFailed<T>) -> Refused {
        Refused::NoMemory
    }
}
