ghost use Rattle.std.specs.Prelude.{◌≡◌, ◌<◌, ◌≤◌, ◌^◌, length};
ghost use Rattle.std.specs.Int.{cast_unsigned, w32};
ghost use Rattle.m3_threads.specs.declared.status.Thread.{Thread};
ghost use Rattle.m3_image_decoded.specs.Ready.{image_of};
ghost use Rattle.m3_run_meaning.specs.State.{memory_of, can_set};
ghost use Rattle.m3_run_meaning.specs.Act.{Act};
ghost use Rattle.m3_run_meaning.specs.Progress.{Follows, became};
ghost use Rattle.m3_run_meaning.specs.Calls.{stack_of, place_of, calls, method_called, returns};
ghost use Rattle.m3_run_meaning.specs.Calls.{tells_method, Tests_type};
ghost use Rattle.m3_run_state.specs.Seen.{state_of, program_of, rest_of, Running};

use m3_base::Outcome;
use m3_heap::Store;
use m3_isa::Instr;
use m3_run_meaning::Progress;
use m3_run_meaning::near::{Place, called_method, enter, is_of_type, leave, method_of, truth};
use m3_run_state::Parts;
use std::sync::ledger::Ledger;

/// CALL, CALLR and CALLM: a procedure that was found is called, by the running thread, which stands
/// at a place.
pub(crate) fn call<S: Store, L: Ledger>(
    parts: &mut Parts<'_, S, L>,
    callee: Result<u32, Outcome>,
    at: Place,
) -> Progress
    requires { at.pc < length (image_of parts.old.image).program.code }
    ensures rest { rest_of parts.new ≡ rest_of parts.old }
    ensures calls { (t : Thread) → Running parts.old t → at ≡ place_of t.regs
        → Follows (program_of parts.old)
        (calls (program_of parts.old) callee (stack_of parts.old.memory.threads t) t.regs
        (memory_of (program_of parts.old) (state_of parts.old)) (can_set (state_of parts.old)))
        (state_of parts.old) (became result (state_of parts.new)) }
{
    let number = match callee {
        Ok(number) => number,
        Err(outcome) => return Progress::Ends(outcome),
    };
    let stack = parts.stack();
    match enter(&parts.image, number, at, &mut parts.memory, stack) {
        Ok(to) => parts.come_to(to),
        Err(outcome) => Progress::Ends(outcome),
    }
}

/// The procedure that CALLM calls.
pub(crate) fn method_for<S: Store, L: Ledger>(
    parts: &Parts<'_, S, L>,
    i: Instr,
    at: Place,
) -> Result<u32, Outcome>
    requires { at.pc < length (image_of parts.now.image).program.code }
    ensures { result ≡ method_called (program_of parts.now) (cast_unsigned w32 i.imm)
        at (memory_of (program_of parts.now) (state_of parts.now)) }
{
    called_method(&parts.image, i.imm.cast_unsigned(), at, &parts.memory)
}

/// RET.
pub(crate) fn return_back<S: Store, L: Ledger>(parts: &mut Parts<'_, S, L>, at: Place) -> Progress
    ensures rest { rest_of parts.new ≡ rest_of parts.old }
    ensures returns { (t : Thread) → Running parts.old t → at ≡ place_of t.regs
        → Follows (program_of parts.old)
        (returns (length (program_of parts.old).code) t.regs
        (memory_of (program_of parts.old) (state_of parts.old)))
        (state_of parts.old) (became result (state_of parts.new)) }
{
    let code = parts.image.image().code_len() as usize;
    match leave(code, at, &parts.memory) {
        Ok(to) => parts.come_to(to),
        Err(outcome) => Progress::Ends(outcome),
    }
}

/// METH.
pub(crate) fn tell_method<S: Store, L: Ledger>(parts: &mut Parts<'_, S, L>, i: Instr) -> Progress
    requires answer { i.a < 16 }
    requires cell { i.b < 16 }
    ensures rest { rest_of parts.new ≡ rest_of parts.old }
    ensures tells { (t : Thread) → Running parts.old t
        → Follows (program_of parts.old)
        (tells_method (program_of parts.old).types i t.regs
        (memory_of (program_of parts.old) (state_of parts.old)))
        (state_of parts.old) (became result (state_of parts.new)) }
{
    let cell = parts.word(i.b);
    match method_of(&parts.image, cell, i.imm.cast_unsigned(), &parts.memory) {
        Ok(method) => parts.give(i.a, u64::from(method)),
        Err(outcome) => Progress::Ends(outcome),
    }
}

/// SUBT: 1 where the type of the cell is that of the number or has it among its parents, else 0.
pub(crate) fn test_type<S: Store, L: Ledger>(parts: &mut Parts<'_, S, L>, i: Instr) -> Progress
    requires answer { i.a < 16 }
    requires cell { i.b < 16 }
    ensures rest { rest_of parts.new ≡ rest_of parts.old }
    ensures tests { (t : Thread) → Running parts.old t
        → (act : Act) × Tests_type (program_of parts.old).types i t.regs
        (memory_of (program_of parts.old) (state_of parts.old)) act
        × Follows (program_of parts.old) act (state_of parts.old)
        (became result (state_of parts.new)) }
{
    let cell = parts.word(i.b);
    match is_of_type(&parts.image, cell, i.imm.cast_unsigned(), &parts.memory) {
        Ok(is_of) => parts.give(i.a, truth(is_of)),
        Err(outcome) => Progress::Ends(outcome),
    }
}
