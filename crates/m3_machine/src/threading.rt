ghost use Rattle.std.specs.Prelude.{◌≡◌, ◌<◌, ◌≤◌, ◌+◌, ◌^◌, length, List, Some, IsSome};
ghost use Rattle.m3_heap.specs.Shapes.{Shape};
ghost use Rattle.m3_threads.specs.All.{thread_named};
ghost use Rattle.m3_threads.specs.declared.status.Thread.{Thread};
ghost use Rattle.m3_threads.specs.Going.{IsAwake};
ghost use Rattle.m3_isa.specs.Instructions.{IsInstruction};
ghost use Rattle.m3_isa.specs.declared.instructions.Op.TheVariants.{Endt};
ghost use Rattle.m3_run_memory.specs.Addresses.{outside_of, settable_of};
ghost use Rattle.m3_run_memory.specs.Kept.{KeepsOutside};
ghost use Rattle.m3_run_meaning.specs.State.{outside, settable, with_all, HasOtherWords};
ghost use Rattle.m3_run_meaning.specs.Progress.{Goes, became};
ghost use Rattle.m3_run_meaning.specs.OnThreads.{answer_of, answer_of_end, Acts_on_threads, On_threads};
ghost use Rattle.m3_run_state.specs.Seen.{state_of, program_of, rest_of, Running};

use m3_base::Outcome;
use m3_heap::Store;
use m3_isa::{Instr, Op};
use m3_run_meaning::Progress;
use m3_run_memory::Outside;
use m3_run_state::Parts;
use m3_threads::{Done, Threads};
use std::sync::ledger::Ledger;

/// The thread goes on, or it rests since it sleeps; or the instruction trapped.
fn told(done: Done) -> Progress
    ensures { result ≡ answer_of done }
{
    match done {
        Done::Went | Done::Jumped => Progress::Goes,
        Done::Slept => Progress::Rests,
        Done::Trapped(n) => Progress::trap(n),
    }
}

/// A thread that ended rests; or the instruction trapped.
fn told_end(done: Done) -> Progress
    ensures { result ≡ answer_of_end done }
{
    match done {
        Done::Trapped(n) => Progress::trap(n),
        _ => Progress::Rests,
    }
}

/// An instruction of a thread that is awake, on other threads, mutexes, conditions and alerts.
fn act_of<S: Store>(threads: &mut Threads, outside: &mut Outside<S>, running: u64, i: Instr) -> Done
    requires instruction { IsInstruction i }
    requires operation { i.op ≡ Endt → ⊥ }
    requires there { IsSome (thread_named threads.old running) }
    requires awake { (t : Thread) → thread_named threads.old running ≡ Some t → IsAwake t }
    requires counted { threads.old.forks + threads.old.waits < 2 ^ 63 }
    ensures acts { (t : Thread) → thread_named threads.old running ≡ Some t
        → Acts_on_threads i.op t i threads.old
        (outside_of outside.old.globals.items outside.old.constants.items
        (S.heap outside.old.heap.store).cells)
        (settable_of (length outside.old.globals.items) (S.heap outside.old.heap.store).cells)
        result threads.new
        (outside_of outside.new.globals.items outside.new.constants.items
        (S.heap outside.new.heap.store).cells) }
    ensures keeps { KeepsOutside outside.old.globals.items outside.new.globals.items
        outside.old.constants.items outside.new.constants.items (S.heap outside.old.heap.store)
        (S.heap outside.new.heap.store) }
    ensures counts { threads.new.forks + threads.new.waits
        ≤ threads.old.forks + threads.old.waits + 1 }
    ensures fitting { (shapes : List Shape) → S.fits outside.old.heap.store shapes
        → S.fits outside.new.heap.store shapes }
{
    match i.op {
        Op::Join => threads.join(running, outside, i),
        Op::Acq => threads.acquire(running, outside, i),
        Op::Rel => threads.release(running, outside, i),
        Op::Wait => threads.wait(running, outside, i),
        Op::Sig => threads.wake_one(running, outside, i),
        Op::Bca => threads.wake_all(running, outside, i),
        Op::Alert => threads.alert(running, outside, i),
        Op::Talert => threads.test_alert(running, outside, i),
        Op::Await => threads.alert_wait(running, outside, i),
        Op::Ajoin => threads.alert_join(running, outside, i),
        _ => Done::Trapped(1),
    }
}

/// An instruction of the running thread, on threads, mutexes, conditions and alerts.
fn act_with_threads<S: Store, L: Ledger>(parts: &mut Parts<'_, S, L>, i: Instr) -> Done
    requires instruction { IsInstruction i }
    requires operation { i.op ≡ Endt → ⊥ }
    ensures rest { rest_of parts.new ≡ record (rest_of parts.old) { made = parts.new.made } }
    ensures one { parts.new.made ≤ parts.old.made + 1 }
    ensures acts { parts.old.made < 2 ^ 63 → (t : Thread) → Running parts.old t → IsAwake t
        → Acts_on_threads i.op t i (state_of parts.old).all
        (outside (program_of parts.old) (state_of parts.old)) (settable (state_of parts.old))
        result (state_of parts.new).all (outside (program_of parts.old) (state_of parts.new)) }
    ensures others { HasOtherWords (with_all (state_of parts.old) (state_of parts.new).all)
        (state_of parts.new) }
{
    if !parts.is_awake() || !parts.may_count() {
        return Done::Slept;
    }
    parts.made += 1;
    act_of(
        &mut parts.memory.threads,
        &mut parts.memory.outside,
        parts.running,
        i,
    )
}

/// Instructions on other threads, mutexes, conditions and alerts.
pub(crate) fn act_on_threads<S: Store, L: Ledger>(parts: &mut Parts<'_, S, L>, i: Instr) -> Progress
    requires instruction { IsInstruction i }
    requires operation { i.op ≡ Endt → ⊥ }
    ensures rest { rest_of parts.new ≡ record (rest_of parts.old) { made = parts.new.made } }
    ensures one { parts.new.made ≤ parts.old.made + 1 }
    ensures acts { parts.old.made < 2 ^ 63 → (t : Thread) → Running parts.old t → IsAwake t
        → On_threads (program_of parts.old) t i (state_of parts.old) answer_of
        (became result (state_of parts.new)) }
{
    told(act_with_threads(parts, i))
}

/// The end of a thread that is there and awake. No fork and no wait is counted.
fn end_of<S: Store>(threads: &mut Threads, outside: &mut Outside<S>, running: u64, i: Instr) -> Done
    requires instruction { IsInstruction i }
    requires operation { i.op ≡ Endt }
    requires there { IsSome (thread_named threads.old running) }
    requires awake { (t : Thread) → thread_named threads.old running ≡ Some t → IsAwake t }
    requires counted { threads.old.forks + threads.old.waits < 2 ^ 63 }
    ensures acts { (t : Thread) → thread_named threads.old running ≡ Some t
        → Acts_on_threads i.op t i threads.old
        (outside_of outside.old.globals.items outside.old.constants.items
        (S.heap outside.old.heap.store).cells)
        (settable_of (length outside.old.globals.items) (S.heap outside.old.heap.store).cells)
        result threads.new
        (outside_of outside.new.globals.items outside.new.constants.items
        (S.heap outside.new.heap.store).cells) }
    ensures keeps { KeepsOutside outside.old.globals.items outside.new.globals.items
        outside.old.constants.items outside.new.constants.items (S.heap outside.old.heap.store)
        (S.heap outside.new.heap.store) }
    ensures counts { threads.new.forks + threads.new.waits ≡ threads.old.forks + threads.old.waits }
    ensures fitting { (shapes : List Shape) → S.fits outside.old.heap.store shapes
        → S.fits outside.new.heap.store shapes }
{
    threads.end(running, outside, i)
}

/// The end of the running thread.
fn end_with_threads<S: Store, L: Ledger>(parts: &mut Parts<'_, S, L>, i: Instr) -> Done
    requires instruction { IsInstruction i }
    requires operation { i.op ≡ Endt }
    ensures rest { rest_of parts.new ≡ rest_of parts.old }
    ensures acts { parts.old.made < 2 ^ 63 → (t : Thread) → Running parts.old t → IsAwake t
        → Acts_on_threads i.op t i (state_of parts.old).all
        (outside (program_of parts.old) (state_of parts.old)) (settable (state_of parts.old))
        result (state_of parts.new).all (outside (program_of parts.old) (state_of parts.new)) }
    ensures others { HasOtherWords (with_all (state_of parts.old) (state_of parts.new).all)
        (state_of parts.new) }
{
    if !parts.is_awake() || !parts.may_count() {
        return Done::Slept;
    }
    end_of(
        &mut parts.memory.threads,
        &mut parts.memory.outside,
        parts.running,
        i,
    )
}

/// ENDT.
pub(crate) fn end_thread<S: Store, L: Ledger>(parts: &mut Parts<'_, S, L>, i: Instr) -> Progress
    requires instruction { IsInstruction i }
    requires operation { i.op ≡ Endt }
    ensures rest { rest_of parts.new ≡ rest_of parts.old }
    ensures ends { parts.old.made < 2 ^ 63 → (t : Thread) → Running parts.old t → IsAwake t
        → On_threads (program_of parts.old) t i (state_of parts.old) answer_of_end
        (became result (state_of parts.new)) }
{
    told_end(end_with_threads(parts, i))
}
