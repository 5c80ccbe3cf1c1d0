use m3_base::NoMemory;
use std::alloc::{AllocError, AllocFailed};
use thiserror::Error;

/// An operator of the plain form.
#[derive(Clone, Copy, PartialEq, Eq)]
pub enum Arith {
    Add,
    Sub,
    Mul,
}

/// What a statement of the plain form puts: a number, or an operator with its line, counted from 1,
/// and its two operands.
#[derive(Drop)]
pub enum Plain {
    Number(i64),
    Apply(Arith, u32, Box<Plain>, Box<Plain>),
}

/// Why a text was not read.
#[derive(Clone, Copy, Debug, PartialEq, Eq, Error)]
pub enum PlainRefused {
    /// The text isn't in the plain form.
    #[error("not in the plain form")]
    NotBuilt,
    #[error("out of memory")]
    NoMemory,
}

impl From<NoMemory> for PlainRefused {
    ghost use Rattle.std.specs.Prelude.{◌≡◌};
    ghost use Rattle.m3_plain.specs.declared.plain.PlainRefused.TheVariants.{NoMemory};

    ghost from_gives = { λ _ e. e ≡ NoMemory };

    fn from(_e: NoMemory) -> PlainRefused {
        PlainRefused::NoMemory
    }
}

impl From<AllocError> for PlainRefused {
    ghost use Rattle.std.specs.Prelude.{◌≡◌};
    ghost use Rattle.m3_plain.specs.declared.plain.PlainRefused.TheVariants.{NoMemory};

    ghost from_gives = { λ _ e. e ≡ NoMemory };

    fn from(_e: AllocError) -> PlainRefused {
        PlainRefused::NoMemory
    }
}

impl<T: Drop> From<AllocFailed<T>> for PlainRefused {
    ghost use Rattle.std.specs.Prelude.{◌≡◌};
    ghost use Rattle.m3_plain.specs.declared.plain.PlainRefused.TheVariants.{NoMemory};

    ghost from_gives = { λ _ e. e ≡ NoMemory };

    fn from(_e: AllocFailed<T>) -> PlainRefused {
        PlainRefused::NoMemory
    }
}
