//! Middle code: a procedure as blocks of operations over temporaries and slots.
#![tactic(auto)]

mod calls;
mod marks;
mod ops;
mod procs;

pub use calls::{Actual, Callee, Raised, Service};
pub use marks::{AccessMark, ForMark, Held, Shown};
pub use ops::{CheckedOperator, MemoryWord, MidOp, Operand, Relation, WordOperator};
pub use procs::{Block, End, Kind, Proc, Slot};
