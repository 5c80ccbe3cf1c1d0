ghost use Rattle.std.specs.Prelude.{◌≡◌, ◌↔◌, ◌^◌, ◌≤◌, IfOk, IsErr};

use std::alloc::{AllocError, AllocFailed};
use thiserror::Error;

/// Memory ran out: the one answer that needs no cause. A call that gives it has left every shared
/// value as it was, unless the call's own page says otherwise.
#[derive(Clone, Copy, Debug, PartialEq, Eq, Error)]
#[error("out of memory")]
pub struct NoMemory;

impl From<AllocError> for NoMemory {
    fn from(_e: AllocError) -> NoMemory {
        NoMemory
    }
}

impl<T: Drop> From<AllocFailed<T>> for NoMemory {
    fn from(_e: AllocFailed<T>) -> NoMemory {
        NoMemory
    }
}

/// The answer at a place that no input reaches, for a reason that isn't proved yet. Each call is a
/// debt that docs/PROOFS.md counts, and a crate whose contracts are exact has none.
pub fn gap() -> NoMemory {
    NoMemory
}

/// A place in a list as a number of 32 bits. No list of the compiler grows so long that a place has
/// none; one that did would be want of memory.
pub fn place_number(place: usize) -> Result<u32, NoMemory>
    ensures same { IfOk result (λ number. number ≡ place) }
    ensures fits { IsErr result ↔ (2 ^ 32 ≤ place) }
{
    match u32::try_from(place) {
        Ok(number) => Ok(number),
        Err(_) => Err(NoMemory),
    }
}
