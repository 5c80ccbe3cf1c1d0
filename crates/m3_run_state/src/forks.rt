ghost use Rattle.std.specs.Prelude.{◌≡◌, ◌<◌, ◌≤◌, ◌+◌, ◌^◌, true, length, slice_get, Some, Ok};
ghost use Rattle.m3_threads.specs.declared.status.Thread.{Thread};
ghost use Rattle.m3_threads.specs.Actions.{Forks};
ghost use Rattle.m3_isa.specs.Instructions.{IsInstruction};
ghost use Rattle.m3_isa.specs.Memory.{put};
ghost use Rattle.m3_isa.specs.Effects.{answered};
ghost use Rattle.m3_isa.specs.declared.instructions.Instr.{Instr as Instruction};
ghost use Rattle.m3_image_sections.specs.declared.procs.ProcPart.{ProcPart as Procedure};
ghost use Rattle.m3_run_meaning.specs.State.{State, memory_of, with_all, with_regs, Becomes};
ghost use Rattle.m3_run_meaning.specs.Progress.{Goes, became};
ghost use Rattle.m3_run_meaning.specs.Making.{HasNew};
ghost use Rattle.m3_run_meaning.specs.NewTexts.{standing_at, GivesThread, Forks_thread};
ghost use Rattle.m3_run_state.specs.Seen.{state_of, program_of, rest_of, IsGoing, goes_on, Running};

use crate::parts::Parts;
use m3_base::Outcome;
use m3_heap::Store;
use m3_isa::Instr;
use m3_run_meaning::Progress;
use std::sync::ledger::Ledger;

impl<'a, S: Store, L: Ledger> Parts<'a, S, L> {
    /// A thread, if it is there, stands at an instruction.
    pub fn stand_at(&mut self, thread: u64, i: Instr)
        requires { IsInstruction i }
        ensures rest { rest_of self.new ≡ rest_of self.old }
        ensures stands { self.old.made < 2 ^ 63
            → state_of self.new ≡ with_all (state_of self.old)
            (standing_at i thread (state_of self.old).all) }
    {
        if !self.may_count() {
            return;
        }
        match self.memory.threads.status(thread) {
            Some(_status) => self.memory.threads.stand(thread, i),
            None => {}
        }
    }

    /// A thread stands at the instruction that it begins with.
    fn stand_first(&mut self, thread: u64, first: u32)
        ensures rest { rest_of self.new ≡ rest_of self.old }
        ensures stands { self.old.made < 2 ^ 63 → (begins : Instruction)
            → slice_get (program_of self.old).code first ≡ Some begins
            → state_of self.new ≡ with_all (state_of self.old)
            (standing_at begins thread (state_of self.old).all) }
    {
        match self.image.fetch(first) {
            Some(begins) => {
                let begins = *begins;
                self.stand_at(thread, begins)
            }
            None => {}
        }
    }

    /// A new thread, with its closure and its cell: its number, if one thread more is allowed.
    fn fork(&mut self, first: u32, closure: u64, cell: u64) -> Option<u64>
        ensures rest { rest_of self.new ≡ record (rest_of self.old) { made = self.new.made } }
        ensures one { self.new.made ≤ self.old.made + 1 }
        ensures others { state_of self.new ≡ with_all (state_of self.old) (state_of self.new).all }
        ensures forks { self.old.made < 2 ^ 63
            → length (state_of self.old).all.threads < (state_of self.old).all.allowed
            → Forks (state_of self.old).all first closure cell ((state_of self.old).all.forks + 1)
            (state_of self.new).all
            × (result ≡ Some ((state_of self.old).all.forks + 1)) }
    {
        if !self.may_count() {
            return None;
        }
        self.made += 1;
        match self.memory.threads.fork(first, closure, cell) {
            Ok(number) => Some(number),
            Err(_) => None,
        }
    }

    /// The first instruction of procedure 1, with which a thread begins.
    fn first_of_thread(&self) -> u32
        ensures { (first : Procedure) → slice_get (program_of self.now).procs 1 ≡ Some first
            → result ≡ first.first }
    {
        match self.image.proc(1) {
            Some(proc) => proc.first,
            None => 0,
        }
    }

    /// A new thread's cell gets its number, the thread stands at its first instruction, and the
    /// running one goes on with the cell.
    fn finish_fork(&mut self, a: u8, cell: u64, number: u64, first: u32) -> Progress
        requires register { a < 16 }
        requires low { cell + 4 ≤ 2 ^ 63 }
        requires new { HasNew 1 4 cell (state_of self.old) }
        ensures rest { rest_of self.new ≡ rest_of self.old }
        ensures stands { self.old.made < 2 ^ 63 → (t : Thread) (begins : Instruction)
            → Running self.old t → slice_get (program_of self.old).code first ≡ Some begins
            → (numbered : State) × Becomes (program_of self.old) (state_of self.old)
            (put (memory_of (program_of self.old) (state_of self.old)) (cell + 1) number)
            numbered
            × (became result (state_of self.new)
            ≡ Goes (with_regs (with_all numbered (standing_at begins number numbered.all))
            (answered t.regs a cell))) }
    {
        self.set_word(cell + 1, number);
        self.stand_first(number, first);
        self.give(a, cell)
    }

    /// A thread begins, with its cell and with the closure that register b holds.
    fn begin_thread(&mut self, i: Instr, cell: u64) -> Progress
        requires answer { i.a < 16 }
        requires closure { i.b < 16 }
        requires low { cell + 4 ≤ 2 ^ 63 }
        requires new { HasNew 1 4 cell (state_of self.old) }
        ensures rest { rest_of self.new ≡ record (rest_of self.old) { made = self.new.made } }
        ensures one { self.new.made ≤ self.old.made + 1 }
        ensures begins { self.old.made + 1 < 2 ^ 63
            → GivesThread (program_of self.old) i (Ok cell) (state_of self.old)
            (became result (state_of self.new)) }
    {
        let first = self.first_of_thread();
        let closure = self.word(i.b);
        match self.fork(first, closure, cell) {
            Some(number) => self.finish_fork(i.a, cell, number, first),
            None => Progress::Ends(Outcome::ThreadsFull),
        }
    }

    /// FORK: a thread cell and a new thread, if one thread more is allowed.
    pub fn start_thread(&mut self, i: Instr) -> Progress
        requires answer { i.a < 16 }
        requires closure { i.b < 16 }
        ensures rest { rest_of self.new ≡ record (rest_of self.old)
            { made = self.new.made; stuck = self.new.stuck } }
        ensures one { self.new.made ≤ self.old.made + 1 }
        ensures going { goes_on result ≡ true → self.new.stuck ≡ self.old.stuck }
        ensures forks { IsGoing self.old → self.old.made + 1 < 2 ^ 63
            → Forks_thread (program_of self.old) i (state_of self.old)
            (became result (state_of self.new)) }
    {
        if !self.may_count() {
            return Progress::Ends(Outcome::ThreadsFull);
        }
        if self.memory.threads.is_full() {
            return Progress::Ends(Outcome::ThreadsFull);
        }
        match self.make_cell(1, 4) {
            Ok(cell) => self.begin_thread(i, cell),
            Err(outcome) => Progress::Ends(outcome),
        }
    }
}
