ghost use Rattle.std.specs.Prelude.{◌≡◌, ℕ, Some, slice_get};
ghost use Rattle.m3_isa.specs.declared.instructions.Instr.{Instr as Instruction};
ghost use Rattle.m3_isa.specs.Instructions.{IsInstruction};

use crate::parts::Parts;
use m3_heap::Store;
use m3_isa::{Instr, Regs, Step, step};

/// Carries out one plain instruction over both parts. Whatever the instruction is, as many words
/// are free afterwards as before, and no collection was counted.
pub fn step_over<S: Store>(i: &Instr, regs: &mut Regs, memory: &mut Parts<S>) -> Step
    requires { IsInstruction i.now }
    ensures free { (S.heap memory.new.heap.store).free ≡ (S.heap memory.old.heap.store).free }
    ensures fulls { (S.heap memory.new.heap.store).fulls ≡ (S.heap memory.old.heap.store).fulls }
    ensures minors { (S.heap memory.new.heap.store).minors ≡ (S.heap memory.old.heap.store).minors }
{
    step(i, regs, memory)
}

/// The same of several instructions, one after another, up to the first that isn't carried out.
pub fn run_over<S: Store>(code: &[Instr], regs: &mut Regs, memory: &mut Parts<S>)
    requires { (k : ℕ) (i : Instruction) → slice_get code.now k ≡ Some i → IsInstruction i }
    ensures { (S.heap memory.new.heap.store).free ≡ (S.heap memory.old.heap.store).free }
{
    for i in code {
        if step_over(i, regs, memory) != Step::Went {
            return;
        }
    }
}
