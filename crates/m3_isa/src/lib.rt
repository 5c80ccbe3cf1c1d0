//! The instructions of the machine: what each is, its eight bytes, and what a plain one does to the
//! registers and the memory.
#![tactic(auto)]

mod answers;
pub mod arithmetic;
mod blocks;
mod code_bytes;
mod instructions;
mod memory;
mod registers;
mod rows;
mod steps;

pub use answers::Step;
pub use code_bytes::{decode, encode, same_instruction};
pub use instructions::{Instr, Op};
pub use memory::Words;
pub use registers::Regs;
pub use steps::{carry_out, step};
