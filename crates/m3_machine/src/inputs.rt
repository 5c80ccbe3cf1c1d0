ghost use Rattle.std.specs.Prelude.{◌≡◌, ◌<◌, ◌≤◌, [], nat_le, length, OnOk, OnErr, IfOk};
ghost use Rattle.m3_ports.specs.Counts.{Rose};
ghost use Rattle.m3_threads.specs.declared.status.Thread.{Thread};
ghost use Rattle.m3_run_meaning.specs.State.{memory_of};
ghost use Rattle.m3_run_meaning.specs.Act.{bytes_of};
ghost use Rattle.m3_run_meaning.specs.Progress.{Follows, became};
ghost use Rattle.m3_run_meaning.specs.Calls.{stack_of};
ghost use Rattle.m3_run_meaning.specs.Acts.{puts_number, puts_byte, gets, tells_end, tells_self};
ghost use Rattle.m3_run_state.specs.Seen.{state_of, program_of, rest_of, Running, Took};
ghost use Rattle.m3_run_state.specs.Cuts.{CutsOff};

use itoa::Buffer;
use m3_heap::Store;
use m3_isa::{Instr, Words};
use m3_ports::{Sink, SinkFailed};
use m3_run_meaning::Progress;
use m3_run_meaning::near::truth;
use m3_run_state::Parts;
use std::sync::ledger::Ledger;

/// PUTN: a signed number in decimal.
pub(crate) fn put_number<S: Store, L: Ledger, O: Sink>(
    parts: &mut Parts<'_, S, L>,
    i: Instr,
    out: &mut O,
) -> Result<Progress, SinkFailed>
    requires { i.a < 16 }
    ensures rises { O.faults out.old ≤ O.faults out.new }
    ensures kept { OnOk result (O.faults out.new ≡ O.faults out.old) }
    ensures failed { OnErr result (Rose (O.faults out.old) (O.faults out.new)) }
    ensures rest { rest_of parts.new ≡ rest_of parts.old }
    ensures puts { IfOk result (λ progress. (t : Thread) → Running parts.old t
        → Took (O.taken out.old) (O.taken out.new) (bytes_of (puts_number i t.regs))
        × Follows (program_of parts.old) (puts_number i t.regs) (state_of parts.old)
        (became progress (state_of parts.new))) }
    ensures cut { OnErr result ((t : Thread) → Running parts.old t
        → CutsOff O.Sink out.old out.new [] (bytes_of (puts_number i t.regs))) }
{
    let mut buffer = Buffer::new();
    let number = parts.word(i.a).cast_signed();
    out.put(buffer.format(number).as_bytes())?;
    Ok(parts.go_on())
}

/// PUTC: the low byte.
pub(crate) fn put_byte<S: Store, L: Ledger, O: Sink>(
    parts: &mut Parts<'_, S, L>,
    i: Instr,
    out: &mut O,
) -> Result<Progress, SinkFailed>
    requires { i.a < 16 }
    ensures rises { O.faults out.old ≤ O.faults out.new }
    ensures kept { OnOk result (O.faults out.new ≡ O.faults out.old) }
    ensures failed { OnErr result (Rose (O.faults out.old) (O.faults out.new)) }
    ensures rest { rest_of parts.new ≡ rest_of parts.old }
    ensures puts { IfOk result (λ progress. (t : Thread) → Running parts.old t
        → Took (O.taken out.old) (O.taken out.new) (bytes_of (puts_byte i t.regs))
        × Follows (program_of parts.old) (puts_byte i t.regs) (state_of parts.old)
        (became progress (state_of parts.new))) }
    ensures cut { OnErr result ((t : Thread) → Running parts.old t
        → CutsOff O.Sink out.old out.new [] (bytes_of (puts_byte i t.regs))) }
{
    let byte = (parts.word(i.a) % 256) as u8;
    out.put(&[byte])?;
    Ok(parts.go_on())
}

/// Whether all of the input was taken.
fn is_at_end<S: Store, L: Ledger>(parts: &Parts<'_, S, L>) -> bool
    ensures { result ≡ nat_le (length parts.now.input.now) parts.now.taken }
{
    parts.taken >= parts.input.len()
}

/// GETC: the next byte of the input, or a jump where none is left.
pub(crate) fn get_byte<S: Store, L: Ledger>(parts: &mut Parts<'_, S, L>, i: Instr) -> Progress
    requires { i.a < 16 }
    ensures rest { rest_of parts.new ≡ rest_of parts.old }
    ensures gets { (t : Thread) → Running parts.old t
        → Follows (program_of parts.old) (gets parts.old.input.now parts.old.taken i t.regs)
        (state_of parts.old) (became result (state_of parts.new)) }
{
    if is_at_end(parts) {
        return parts.jump(i.imm);
    }
    let byte = parts.input[parts.taken];
    parts.taken += 1;
    parts.give(i.a, u64::from(byte))
}

/// EOF.
pub(crate) fn tell_end<S: Store, L: Ledger>(parts: &mut Parts<'_, S, L>, i: Instr) -> Progress
    requires { i.a < 16 }
    ensures rest { rest_of parts.new ≡ rest_of parts.old }
    ensures tells { (t : Thread) → Running parts.old t
        → Follows (program_of parts.old) (tells_end parts.old.input.now parts.old.taken i t.regs)
        (state_of parts.old) (became result (state_of parts.new)) }
{
    let is_end = is_at_end(parts);
    parts.give(i.a, truth(is_end))
}

/// SELF: word 2 of the thread's stack.
pub(crate) fn tell_self<S: Store, L: Ledger>(parts: &mut Parts<'_, S, L>, i: Instr) -> Progress
    requires { i.a < 16 }
    ensures rest { rest_of parts.new ≡ rest_of parts.old }
    ensures tells { (t : Thread) → Running parts.old t
        → Follows (program_of parts.old)
        (tells_self (stack_of parts.old.memory.threads t) i t.regs
        (memory_of (program_of parts.old) (state_of parts.old)))
        (state_of parts.old) (became result (state_of parts.new)) }
{
    let stack = parts.stack();
    match parts.memory.load(stack.base.wrapping_add(2)) {
        Some(cell) => parts.give(i.a, cell),
        None => Progress::trap(2),
    }
}
