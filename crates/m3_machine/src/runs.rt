ghost use Rattle.std.specs.Prelude.{◌≡◌, ◌≤◌, ◌<◌, ◌+◌, ◌^◌, ◌++◌, ℕ, List, true, false, Some};
ghost use Rattle.std.specs.Prelude.{slice_get, OnOk, OnErr, IfOk};
ghost use Rattle.m3_isa.specs.Instructions.{IsInstruction, is_point};
ghost use Rattle.m3_threads.specs.declared.status.Thread.{Thread};
ghost use Rattle.m3_threads.specs.declared.status.Status.TheVariants.{Ready};
ghost use Rattle.m3_threads.specs.Going.{status_at_of};
ghost use Rattle.m3_image_sections.specs.Parts.{Program};
ghost use Rattle.m3_run_meaning.specs.State.{State};
ghost use Rattle.m3_run_meaning.specs.Runs.{turn_limit as longest};
ghost use Rattle.m3_run_loop.specs.Leading.{Track};
ghost use Rattle.m3_run_meaning.specs.declared.progress.Progress.TheVariants.{Goes};
ghost use Rattle.m3_run_state.specs.Seen.{state_of, program_of, rest_of, Running, Took};
ghost use Rattle.m3_machine.specs.Turns.{to_come, and_put, Known, Between, Halts, Halted};
ghost use Rattle.m3_machine.specs.Turns.{Acts_next, Comes_to, Came_to};
ghost use Rattle.m3_machine.specs.Faults.{StopsAtFault};
ghost use Rattle.m3_ports.specs.Counts.{Rose};

use crate::acts::act;
use m3_heap::Store;
use m3_isa::{Instr, Op};
use m3_ports::{Sink, SinkFailed};
use m3_run_loop::{Halt, Pace, stride};
use m3_run_meaning::Progress;
use m3_run_meaning::near::Place;
use m3_run_state::Parts;
use m3_threads::Status;
use std::sync::ledger::Ledger;

/// Whether a thread that stands at such an instruction may have to wait.
fn may_wait(op: Op) -> bool
    ensures { result ≡ false → (a b : ℕ) → status_at_of op a b ≡ Ready }
{
    match op {
        Op::Acq | Op::Join | Op::Ajoin => true,
        _ => false,
    }
}

/// How far a turn has come: how many instructions it has had, and how many points may be passed
/// without a choice.
#[derive(Clone, Copy)]
pub(crate) struct Turn {
    pub(crate) done: u64,
    pub(crate) points: u64,
}

/// How many instructions a turn may have.
fn turn_limit<S: Store, L: Ledger>(parts: &Parts<'_, S, L>) -> u64
    ensures limit { (t : Thread) → Running parts.now t
        → result ≡ longest (program_of parts.now) (state_of parts.now) }
    ensures small { result ≤ 4611686018427387904 }
{
    match parts.depth_of(parts.running) {
        Some(words) => (words + 1) * u64::from(parts.image.image().code_len()),
        None => 0,
    }
}

/// How many points the running thread may pass without a choice.
fn free_points<S: Store, L: Ledger>(parts: &Parts<'_, S, L>, turn: &Turn) -> u64
    ensures few { result ≤ turn.now.points }
    ensures ready { 1 ≤ result → (t : Thread) → Running parts.now t → t.status ≡ Ready }
{
    match parts.memory.threads.status(parts.running) {
        Some(Status::Ready) => turn.points,
        _ => 0,
    }
}

/// Goes on with the running thread, as far as nothing has to be chosen or done between its
/// instructions.
fn go_far<S: Store, L: Ledger>(parts: &mut Parts<'_, S, L>, turn: &mut Turn) -> Halt
    ensures ahead { to_come turn.new ≤ to_come turn.old }
    ensures fewer { turn.new.points ≤ turn.old.points }
    ensures rest { rest_of parts.new ≡ rest_of parts.old }
    ensures leads { (p : Program) (start : State) (k : Track) (others : ℕ)
        → Known p start k parts.old
        → Between p k others parts.old turn.old → Halted p k others parts.new turn.new result }
{
    let limit = turn_limit(parts);
    if turn.done >= limit {
        return Halt::Other;
    }
    let mut regs = parts.regs();
    let mut at = Place::of(&regs);
    let stack = parts.stack();
    let points = free_points(parts, turn);
    let mut pace = Pace {
        limit,
        left: limit - turn.done,
        points,
    };
    let (halt, count) = stride(
        &parts.image,
        &mut regs.r,
        &mut at,
        &mut parts.memory,
        stack,
        &mut pace,
    );
    regs.pc = at.pc;
    regs.fp = at.fp;
    parts.set_regs(regs);
    parts.points = parts.points.saturating_add(points - pace.points);
    parts.instructions = parts.instructions.saturating_add(u128::from(count));
    turn.done = limit.saturating_sub(pace.left);
    turn.points -= points - pace.points;
    halt
}

/// What follows where the running thread has come to a point instruction: it stands there, and its
/// turn is over, or the next begins at once where no choice is left.
fn settle_at_point<S: Store, L: Ledger>(
    parts: &mut Parts<'_, S, L>,
    turn: &mut Turn,
    i: Instr,
) -> Progress
    requires instruction { IsInstruction i }
    requires point { is_point i.op ≡ true }
    ensures ahead { to_come turn.new ≤ to_come turn.old }
    ensures fewer { turn.new.points ≤ turn.old.points }
    ensures some { result ≡ Goes → turn.new.done < 4611686018427387904 }
    ensures rest { rest_of parts.new ≡ rest_of parts.old }
    ensures comes { (p : Program) (start : State) (k : Track) (others : ℕ)
        → Known p start k parts.old
        → (h : Between p k others parts.old turn.old) → slice_get p.code h.thread.regs.pc ≡ Some i
        → Comes_to p start k others parts.new turn.new result }
{
    let running = parts.running;
    parts.stand_at(running, i);
    if turn.points == 0 || may_wait(i.op) {
        return Progress::Rests;
    }
    parts.points = parts.points.saturating_add(1);
    turn.points -= 1;
    turn.done = 0;
    Progress::Goes
}

/// What follows where the running thread has come to an instruction that the machine has to look
/// at: at a point instruction the turn is over, else it goes on, if so many instructions may still
/// be executed.
fn settle<S: Store, L: Ledger>(parts: &mut Parts<'_, S, L>, turn: &mut Turn) -> Progress
    ensures ahead { to_come turn.new ≤ to_come turn.old }
    ensures fewer { turn.new.points ≤ turn.old.points }
    ensures some { result ≡ Goes → turn.new.done < 4611686018427387904 }
    ensures rest { rest_of parts.new ≡ rest_of parts.old }
    ensures comes { (p : Program) (start : State) (k : Track) (others : ℕ)
        → Known p start k parts.old
        → Halts p k others parts.old turn.old
        → Comes_to p start k others parts.new turn.new result }
{
    let Some(i) = parts.image.fetch(parts.pc()) else {
        return Progress::trap(1);
    };
    let i = *i;
    if i.op.is_point() {
        return settle_at_point(parts, turn, i);
    }
    if turn.done >= turn_limit(parts) {
        return Progress::trap(8);
    }
    Progress::Goes
}

/// Goes on to the next instruction that isn't carried out in passing, if there is one in this turn
/// or one that begins at once.
fn go_to_act<S: Store, L: Ledger>(parts: &mut Parts<'_, S, L>, turn: &mut Turn) -> Progress
    ensures ahead { to_come turn.new ≤ to_come turn.old }
    ensures fewer { turn.new.points ≤ turn.old.points }
    ensures some { result ≡ Goes → turn.new.done < 4611686018427387904 }
    ensures rest { rest_of parts.new ≡ rest_of parts.old }
    ensures comes { (p : Program) (start : State) (k : Track) (others : ℕ)
        → Known p start k parts.old
        → Between p k others parts.old turn.old
        → Comes_to p start k others parts.new turn.new result }
{
    match go_far(parts, turn) {
        Halt::Trapped(n) => Progress::trap(n),
        _ => settle(parts, turn),
    }
}

/// Carries out the next instruction, which isn't plain.
fn act_next<S: Store, L: Ledger, O: Sink>(
    parts: &mut Parts<'_, S, L>,
    turn: &mut Turn,
    out: &mut O,
) -> Result<Progress, SinkFailed>
    requires { turn.old.done < 4611686018427387904 }
    ensures rises { O.faults out.old ≤ O.faults out.new }
    ensures kept { OnOk result (O.faults out.new ≡ O.faults out.old) }
    ensures failed { OnErr result (Rose (O.faults out.old) (O.faults out.new)) }
    ensures ahead { OnOk result (to_come turn.new < to_come turn.old) }
    ensures fewer { turn.new.points ≤ turn.old.points }
    ensures rest { rest_of parts.new ≡ record (rest_of parts.old)
        { made = parts.new.made; stuck = parts.new.stuck } }
    ensures came { IfOk result (λ progress. (p : Program) (start : State) (k : Track) (others : ℕ)
        → Known p start k parts.old
        → Acts_next p start k others parts.old turn.old
        → (bytes : List ℕ) × Took (O.taken out.old) (O.taken out.new) bytes
        × Came_to p (and_put k bytes) others parts.new turn.new progress) }
    ensures cut { OnErr result ((p : Program) (start : State) (k : Track) (others : ℕ)
        → Known p start k parts.old → Acts_next p start k others parts.old turn.old
        → StopsAtFault O.Sink p k.input k.allowed k.from k.output out.old out.new) }
{
    let progress = act(parts, out)?;
    turn.done += 1;
    Ok(progress)
}

/// Goes on to a point instruction at which the machine has to choose or to act, to the thread's end
/// or to the run's.
pub(crate) fn take_turn<S: Store, L: Ledger, O: Sink>(
    parts: &mut Parts<'_, S, L>,
    turn: &mut Turn,
    out: &mut O,
) -> Result<Progress, SinkFailed>
    requires { turn.old.done ≡ 0 }
    ensures rises { O.faults out.old ≤ O.faults out.new }
    ensures kept { OnOk result (O.faults out.new ≡ O.faults out.old) }
    ensures failed { OnErr result (Rose (O.faults out.old) (O.faults out.new)) }
    ensures ends { IfOk result (λ progress. progress ≡ Goes → ⊥) }
    ensures fewer { turn.new.points ≤ turn.old.points }
    ensures rest { rest_of parts.new ≡ record (rest_of parts.old)
        { made = parts.new.made; stuck = parts.new.stuck } }
    ensures came { IfOk result (λ progress. (p : Program) (start : State) (k : Track) (others : ℕ)
        → Known p start k parts.old
        → Acts_next p start k others parts.old turn.old
        → (bytes : List ℕ) × Took (O.taken out.old) (O.taken out.new) bytes
        × Came_to p (and_put k bytes) others parts.new turn.new progress) }
    ensures cut { OnErr result ((p : Program) (start : State) (k : Track) (others : ℕ)
        → Known p start k parts.old → Acts_next p start k others parts.old turn.old
        → StopsAtFault O.Sink p k.input k.allowed k.from k.output out.old out.new) }
{
    let mut progress = act_next(parts, turn, out)?;
    'acts: while progress == Progress::Goes {
        progress = go_to_act(parts, turn);
        if progress != Progress::Goes {
            return Ok(progress);
        }
        progress = act_next(parts, turn, out)?;
    }
    Ok(progress)
}
