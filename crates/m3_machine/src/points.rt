ghost use Rattle.std.specs.Prelude.{◌≡◌, ◌<◌, ◌^◌, true, false, Some, None, slice_get, MatchOption};
ghost use Rattle.m3_isa.specs.declared.instructions.Instr.{Instr as Instruction};
ghost use Rattle.m3_threads.specs.declared.status.Thread.{Thread};
ghost use Rattle.m3_run_meaning.specs.Runs.{stands};
ghost use Rattle.m3_threads.specs.Going.{IsChoice, NoneGoes};
ghost use Rattle.m3_run_meaning.specs.State.{outside};
ghost use Rattle.m3_run_meaning.specs.Collecting.{Spoils};
ghost use Rattle.m3_run_meaning.specs.Points.{Collected_if, Chooses, StopsAtPoint, Says_spent};
ghost use Rattle.m3_run_state.specs.Seen.{state_of, program_of, rest_of, IsGoing, Running};

use m3_base::{Entry, Outcome};
use m3_heap::Store;
use m3_run_state::Parts;
use std::sync::ledger::Ledger;

/// The running thread stands at the instruction that it has come to.
pub(crate) fn stand<S: Store, L: Ledger>(parts: &mut Parts<'_, S, L>)
    ensures rest { rest_of parts.new ≡ rest_of parts.old }
    ensures stands { parts.old.made < 2 ^ 63 → (t : Thread) (i : Instruction) → Running parts.old t
        → slice_get (program_of parts.old).code t.regs.pc ≡ Some i
        → state_of parts.new ≡ stands i (state_of parts.old) }
{
    match parts.image.fetch(parts.pc()) {
        Some(i) => {
            let i = *i;
            let running = parts.running;
            parts.stand_at(running, i);
        }
        None => {}
    }
}

/// The thread that goes, by what an entry names.
fn choose<S: Store, L: Ledger>(parts: &Parts<'_, S, L>, to: Option<u64>) -> Option<u64>
    ensures { parts.now.made < 2 ^ 63 → IsChoice parts.now.memory.threads
        (outside (program_of parts.now) (state_of parts.now)) to parts.now.running result }
{
    if !parts.may_count() {
        return None;
    }
    parts
        .memory
        .threads
        .choose(to, parts.running, &parts.memory.outside)
}

/// Whether any thread may go.
fn may_go_on<S: Store, L: Ledger>(parts: &Parts<'_, S, L>) -> bool
    ensures some { parts.now.made < 2 ^ 63 → result ≡ true
        → NoneGoes parts.now.memory.threads (outside (program_of parts.now) (state_of parts.now))
        → ⊥ }
    ensures none { parts.now.made < 2 ^ 63 → result ≡ false
        → NoneGoes parts.now.memory.threads (outside (program_of parts.now) (state_of parts.now)) }
{
    choose(parts, None).is_some()
}

/// How a run ends that may pass no point more.
pub(crate) fn spent<S: Store, L: Ledger>(parts: &Parts<'_, S, L>) -> Outcome
    ensures { parts.now.made < 2 ^ 63 → Says_spent (program_of parts.now) (state_of parts.now)
        result }
{
    if may_go_on(parts) {
        Outcome::Spent
    } else {
        Outcome::Deadlock
    }
}

/// Collects the heap where an entry asks for it. False comes exactly where that has to stop, in
/// trap 9; or where an earlier collection did.
fn collect_if<S: Store, L: Ledger>(parts: &mut Parts<'_, S, L>, asked: bool) -> bool
    ensures rest { rest_of parts.new ≡ record (rest_of parts.old) { stuck = parts.new.stuck } }
    ensures going { result ≡ true → parts.new.stuck ≡ parts.old.stuck }
    ensures good { result ≡ true → IsGoing parts.old
        → Collected_if (program_of parts.old) (state_of parts.old) asked
        (Some (state_of parts.new)) }
    ensures bad { result ≡ false → IsGoing parts.old
        → Collected_if (program_of parts.old) (state_of parts.old) asked None
        × Spoils (program_of parts.old) (state_of parts.old) (state_of parts.new) }
{
    if asked { parts.collect() } else { true }
}

/// Passes a point: an entry is taken, the heap is collected where it says so, and the thread that
/// goes is chosen. Or the run ends here.
pub(crate) fn pass_point<S: Store, L: Ledger>(
    parts: &mut Parts<'_, S, L>,
    entry: Entry,
) -> Option<Outcome>
    ensures rest { rest_of parts.new ≡ record (rest_of parts.old) { stuck = parts.new.stuck } }
    ensures going { result ≡ None → parts.new.stuck ≡ parts.old.stuck }
    ensures passes { parts.old.made < 2 ^ 63 → IsGoing parts.old → MatchOption result
        (Chooses (program_of parts.old) entry (state_of parts.old) (state_of parts.new))
        (StopsAtPoint (program_of parts.old) entry (state_of parts.old) (state_of parts.new)) }
{
    if !may_go_on(parts) {
        return Some(Outcome::Deadlock);
    }
    parts.points = parts.points.saturating_add(1);
    if !collect_if(parts, entry.collect) {
        return Some(Outcome::Trap(9));
    }
    match choose(parts, entry.to) {
        Some(chosen) => {
            parts.running = chosen;
            None
        }
        None => Some(Outcome::Deadlock),
    }
}
