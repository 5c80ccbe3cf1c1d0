ghost use Rattle.std.specs.Prelude.{◌≡◌, ◌<◌, ◌≤◌, ◌+◌, ◌-◌, ◌^◌, ℕ, true, false, [], Some, List};
ghost use Rattle.std.specs.Prelude.{length, slice_get, OnOk, OnErr, IfOk};
ghost use Rattle.m3_isa.specs.declared.instructions.Instr.{Instr as Instruction};
ghost use Rattle.m3_run_meaning.specs.State.{executed};
ghost use Rattle.m3_run_meaning.specs.Calls.{place_of};
ghost use Rattle.m3_run_meaning.specs.Steps.{Acts, Does};
ghost use Rattle.m3_machine.specs.Deeds.{MayAct, IsSilent};
ghost use Rattle.m3_machine.specs.Faults.{PutsToFault};
ghost use Rattle.m3_isa.specs.Instructions.{IsInstruction, is_plain, is_point};
ghost use Rattle.m3_ports.specs.Counts.{Rose};
ghost use Rattle.m3_threads.specs.declared.status.Thread.{Thread};
ghost use Rattle.m3_image_decoded.specs.Ready.{image_of};
ghost use Rattle.m3_run_meaning.specs.Progress.{Follows, became};
ghost use Rattle.m3_run_meaning.specs.Acts.{fault_kinds, faults_at, is_uncaught};
ghost use Rattle.m3_run_state.specs.Seen.{state_of, program_of, rest_of, goes_on, Running, Took};

use crate::calls::{call, method_for, return_back, tell_method, test_type};
use crate::inputs::{get_byte, put_byte, put_number, tell_end, tell_self};
use crate::threading::{act_on_threads, end_thread};
use m3_base::{FaultKind, Outcome};
use m3_heap::Store;
use m3_isa::{Instr, Op};
use m3_ports::{Sink, SinkFailed};
use m3_run_meaning::Progress;
use m3_run_meaning::near::{Place, before};
use m3_run_state::Parts;
use std::sync::ledger::Ledger;

/// The kind of fault of a number.
fn kind_of(number: u8) -> Option<FaultKind>
    ensures { result ≡ slice_get fault_kinds number }
{
    match number {
        0 => Some(FaultKind::Overflow),
        1 => Some(FaultKind::DivZero),
        2 => Some(FaultKind::Range),
        3 => Some(FaultKind::Index),
        4 => Some(FaultKind::Nil),
        5 => Some(FaultKind::Narrow),
        6 => Some(FaultKind::Shape),
        7 => Some(FaultKind::Subarray),
        8 => Some(FaultKind::Size),
        9 => Some(FaultKind::NoReturn),
        10 => Some(FaultKind::NoCase),
        11 => Some(FaultKind::NoTypecase),
        12 => Some(FaultKind::Raises),
        13 => Some(FaultKind::NestedProc),
        14 => Some(FaultKind::NotHeld),
        15 => Some(FaultKind::JoinTwice),
        _ => None,
    }
}

/// FAULT, whose kind and place every image has.
fn fault<S: Store, L: Ledger>(parts: &Parts<'_, S, L>, i: Instr) -> Progress
    ensures { Follows (program_of parts.now) (faults_at (program_of parts.now) i)
        (state_of parts.now) (became result (state_of parts.now)) }
{
    let Some(kind) = kind_of(i.a) else {
        return Progress::trap(2);
    };
    match parts.image.image().place(i.imm.cast_unsigned()) {
        Some((file, line)) => Progress::Ends(Outcome::Fault(kind, file, line)),
        None => Progress::trap(2),
    }
}

/// UNC: an exception that nobody handled.
fn uncaught<S: Store, L: Ledger>(parts: &Parts<'_, S, L>, i: Instr) -> Progress
    requires { i.a < 16 }
    ensures { (t : Thread) → Running parts.now t
        → Follows (program_of parts.now) (is_uncaught (program_of parts.now) i t.regs)
        (state_of parts.now) (became result (state_of parts.now)) }
{
    let number = parts.word(i.a);
    if number >= 1 << 32 {
        return Progress::trap(5);
    }
    match parts.image.image().exception(number as u32) {
        Some(_name) => Progress::Ends(Outcome::Uncaught(number as u32)),
        None => Progress::trap(5),
    }
}

/// Carries out the running thread's instruction, which isn't plain.
pub(crate) fn act<S: Store, L: Ledger, O: Sink>(
    parts: &mut Parts<'_, S, L>,
    out: &mut O,
) -> Result<Progress, SinkFailed>
    ensures rises { O.faults out.old ≤ O.faults out.new }
    ensures kept { OnOk result (O.faults out.new ≡ O.faults out.old) }
    ensures failed { OnErr result (Rose (O.faults out.old) (O.faults out.new)) }
    ensures rest { rest_of parts.new ≡ record (rest_of parts.old)
        { made = parts.new.made; stuck = parts.new.stuck } }
    ensures one { parts.new.made ≤ parts.old.made + 1 }
    ensures same { (t : Thread) (i : Instruction) → Running parts.old t
        → slice_get (program_of parts.old).code t.regs.pc ≡ Some i
        → is_plain i.op ≡ false → is_point i.op ≡ false → parts.new.made ≡ parts.old.made }
    ensures going { IfOk result (λ progress. goes_on progress ≡ true
        → parts.new.stuck ≡ parts.old.stuck) }
    ensures does { IfOk result (λ progress. (t : Thread) (i : Instruction)
        → slice_get (program_of parts.old).code t.regs.pc ≡ Some i → MayAct parts.old t i
        → parts.old.instructions < 2 ^ 128 - 1
        → (bytes : List ℕ) × Took (O.taken out.old) (O.taken out.new) bytes
        × Does (program_of parts.old) parts.old.input.now t i (executed (state_of parts.old)) bytes
        (became progress (state_of parts.new))) }
    ensures cut { OnErr result ((t : Thread) (i : Instruction)
        → slice_get (program_of parts.old).code t.regs.pc ≡ Some i → MayAct parts.old t i
        → parts.old.instructions < 2 ^ 128 - 1
        → PutsToFault O.Sink (program_of parts.old) parts.old.input.now t i
        (executed (state_of parts.old)) out.old out.new) }
{
    let regs = parts.regs();
    match parts.image.fetch(regs.pc) {
        Some(i) => {
            let i = *i;
            act_at(parts, i, Place::of(&regs), out)
        }
        None => Ok(Progress::trap(1)),
    }
}

/// Carries out an instruction, at which the running thread stands.
fn act_at<S: Store, L: Ledger, O: Sink>(
    parts: &mut Parts<'_, S, L>,
    i: Instr,
    at: Place,
    out: &mut O,
) -> Result<Progress, SinkFailed>
    requires instruction { IsInstruction i }
    requires inside { at.pc < length (image_of parts.old.image).program.code }
    ensures rises { O.faults out.old ≤ O.faults out.new }
    ensures kept { OnOk result (O.faults out.new ≡ O.faults out.old) }
    ensures failed { OnErr result (Rose (O.faults out.old) (O.faults out.new)) }
    ensures rest { rest_of parts.new ≡ record (rest_of parts.old)
        { made = parts.new.made; stuck = parts.new.stuck } }
    ensures one { parts.new.made ≤ parts.old.made + 1 }
    ensures same { is_plain i.op ≡ false → is_point i.op ≡ false → parts.new.made ≡ parts.old.made }
    ensures going { IfOk result (λ progress. goes_on progress ≡ true
        → parts.new.stuck ≡ parts.old.stuck) }
    ensures does { IfOk result (λ progress. (t : Thread) → MayAct parts.old t i
        → at ≡ place_of t.regs → parts.old.instructions < 2 ^ 128 - 1
        → (bytes : List ℕ) × Took (O.taken out.old) (O.taken out.new) bytes
        × Does (program_of parts.old) parts.old.input.now t i (executed (state_of parts.old)) bytes
        (became progress (state_of parts.new))) }
    ensures cut { OnErr result ((t : Thread) → MayAct parts.old t i
        → parts.old.instructions < 2 ^ 128 - 1
        → PutsToFault O.Sink (program_of parts.old) parts.old.input.now t i
        (executed (state_of parts.old)) out.old out.new) }
{
    parts.instructions = parts.instructions.saturating_add(1);
    match i.op {
        Op::Put => parts.put_text(i, out),
        Op::Putn => put_number(parts, i, out),
        Op::Putc => put_byte(parts, i, out),
        _ => Ok(act_silently(parts, i, at)),
    }
}

/// Carries out an instruction that puts nothing.
fn act_silently<S: Store, L: Ledger>(parts: &mut Parts<'_, S, L>, i: Instr, at: Place) -> Progress
    requires instruction { IsInstruction i }
    requires inside { at.pc < length (image_of parts.old.image).program.code }
    ensures rest { rest_of parts.new ≡ record (rest_of parts.old)
        { made = parts.new.made; stuck = parts.new.stuck } }
    ensures one { parts.new.made ≤ parts.old.made + 1 }
    ensures same { is_plain i.op ≡ false → is_point i.op ≡ false → parts.new.made ≡ parts.old.made }
    ensures going { goes_on result ≡ true → parts.new.stuck ≡ parts.old.stuck }
    ensures does { (t : Thread) → MayAct parts.old t i → at ≡ place_of t.regs → IsSilent i.op
        → Acts (program_of parts.old) parts.old.input.now t i (state_of parts.old) []
        (became result (state_of parts.new)) i.op }
{
    match i.op {
        Op::Call => call(parts, Ok(i.imm.cast_unsigned()), at),
        Op::Callr => {
            let callee = before(3, parts.word(i.a));
            call(parts, callee, at)
        }
        Op::Callm => {
            let callee = method_for(parts, i, at);
            call(parts, callee, at)
        }
        Op::Ret => return_back(parts, at),
        Op::Meth => tell_method(parts, i),
        Op::Subt => test_type(parts, i),
        Op::New => parts.make_fixed(i),
        Op::Newo => parts.make_open(i),
        Op::Point => parts.go_on(),
        Op::Fault => fault(parts, i),
        Op::Unc => uncaught(parts, i),
        Op::Endp => Progress::Ends(Outcome::Done),
        Op::Endt => end_thread(parts, i),
        Op::Cat => parts.join_texts(i),
        Op::Tchr => parts.make_char(i),
        Op::Tsub => parts.make_part(i),
        Op::Getc => get_byte(parts, i),
        Op::Eof => tell_end(parts, i),
        Op::Self_ => tell_self(parts, i),
        Op::Fork => parts.start_thread(i),
        _ => act_on_threads(parts, i),
    }
}
