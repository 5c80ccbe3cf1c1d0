//! The thread that runs: its registers, and its words.
ghost use Rattle.std.specs.Prelude.{◌≡◌, ◌<◌, ◌≤◌, ◌+◌, ◌^◌, ℕ, true, false, Some, IfSome, IsSome};
ghost use Rattle.m3_isa.specs.Memory.{put};
ghost use Rattle.m3_isa.specs.Effects.{reg, next, answered, jumped};
ghost use Rattle.m3_threads.specs.All.{thread_named};
ghost use Rattle.m3_threads.specs.declared.status.Thread.{Thread};
ghost use Rattle.m3_threads.specs.Going.{IsAwake};
ghost use Rattle.m3_run_meaning.specs.State.{memory_of, can_set, with_regs, HasOtherWords};
ghost use Rattle.m3_run_meaning.specs.Progress.{Goes, became};
ghost use Rattle.m3_run_meaning.specs.Calls.{come_to, stack_of};
ghost use Rattle.m3_run_state.specs.Seen.{state_of, program_of, rest_of, Running};

use crate::parts::Parts;
use m3_heap::Store;
use m3_isa::{Regs, Words};
use m3_run_meaning::Progress;
use m3_run_meaning::near::{Place, Stack};
use m3_threads::Status;
use std::sync::ledger::Ledger;

// No run carries out more forks and waits: each of them passes a point.
const MOST_MADE: u64 = 1 << 63;

impl<'a, S: Store, L: Ledger> Parts<'a, S, L> {
    /// The registers of the running thread.
    pub fn regs(&self) -> Regs
        ensures { (t : Thread) → Running self.now t → result ≡ t.regs }
    {
        match self.memory.threads.regs(self.running) {
            Some(regs) => *regs,
            None => Regs {
                r: [0; 16],
                pc: 0,
                fp: 0,
            },
        }
    }

    /// The instruction that the running thread stands at.
    pub fn pc(&self) -> u32
        ensures { (t : Thread) → Running self.now t → result ≡ t.regs.pc }
    {
        match self.memory.threads.regs(self.running) {
            Some(regs) => regs.pc,
            None => 0,
        }
    }

    /// The word in a register of the running thread.
    pub fn word(&self, n: u8) -> u64
        requires { n < 16 }
        ensures { (t : Thread) → Running self.now t → result ≡ reg t.regs n }
    {
        self.regs().r[n as usize]
    }

    /// Where the stack of the running thread is.
    pub fn stack(&self) -> Stack
        ensures { (t : Thread) → Running self.now t → result ≡ stack_of self.now.memory.threads t }
    {
        let base = match self.memory.threads.stack_at(self.running) {
            Some(base) => base,
            None => 0,
        };
        let words = match self.memory.threads.words(self.running) {
            Some(words) => words.len() as u64,
            None => 0,
        };
        Stack { base, words }
    }

    /// How many words the stack of a thread has. None exactly where it isn't there.
    pub fn depth_of(&self, thread: u64) -> Option<u64>
        ensures same { IfSome result (λ words. words ≡ self.now.memory.threads.stack) }
        ensures small { IfSome result (λ words. words ≤ 1048576) }
        ensures some { (t : Thread) → thread_named self.now.memory.threads thread ≡ Some t
            → IsSome result }
    {
        let _first = self.memory.threads.number(0);
        match self.memory.threads.words(thread) {
            Some(words) => Some(words.len() as u64),
            None => None,
        }
    }

    /// Gives the running thread other registers.
    pub fn set_regs(&mut self, regs: Regs)
        ensures rest { rest_of self.new ≡ rest_of self.old }
        ensures set { state_of self.new ≡ with_regs (state_of self.old) regs }
    {
        if let Some(place) = self.memory.threads.regs_mut(self.running) {
            *place = regs;
        }
    }

    /// The running thread goes on to its next instruction.
    pub fn go_on(&mut self) -> Progress
        ensures rest { rest_of self.new ≡ rest_of self.old }
        ensures goes { (t : Thread) → Running self.old t
            → became result (state_of self.new)
            ≡ Goes (with_regs (state_of self.old) (next t.regs)) }
    {
        let mut regs = self.regs();
        regs.pc = regs.pc.wrapping_add(1);
        self.set_regs(regs);
        Progress::Goes
    }

    /// It goes on with a word in a register.
    pub fn give(&mut self, a: u8, word: u64) -> Progress
        requires { a < 16 }
        ensures rest { rest_of self.new ≡ rest_of self.old }
        ensures goes { (t : Thread) → Running self.old t
            → became result (state_of self.new)
            ≡ Goes (with_regs (state_of self.old) (answered t.regs a word)) }
    {
        let mut regs = self.regs();
        regs.r[a as usize] = word;
        regs.pc = regs.pc.wrapping_add(1);
        self.set_regs(regs);
        Progress::Goes
    }

    /// It jumps.
    pub fn jump(&mut self, target: i32) -> Progress
        ensures rest { rest_of self.new ≡ rest_of self.old }
        ensures goes { (t : Thread) → Running self.old t
            → became result (state_of self.new)
            ≡ Goes (with_regs (state_of self.old) (jumped t.regs target)) }
    {
        let mut regs = self.regs();
        regs.pc = target.cast_unsigned();
        self.set_regs(regs);
        Progress::Goes
    }

    /// It comes to a place, of a call or a return.
    pub fn come_to(&mut self, to: Place) -> Progress
        ensures rest { rest_of self.new ≡ rest_of self.old }
        ensures goes { (t : Thread) → Running self.old t
            → became result (state_of self.new)
            ≡ Goes (with_regs (state_of self.old) (come_to to t.regs)) }
    {
        let mut regs = self.regs();
        regs.pc = to.pc;
        regs.fp = to.fp;
        self.set_regs(regs);
        Progress::Goes
    }

    /// Sets the word at an address, if it can be set.
    pub fn set_word(&mut self, at: u64, word: u64)
        ensures rest { rest_of self.new ≡ rest_of self.old }
        ensures sizes { self.new.sizes.items ≡ self.old.sizes.items }
        ensures others { HasOtherWords (state_of self.old) (state_of self.new) }
        ensures set { can_set (state_of self.old) at ≡ true → (x : ℕ)
            → memory_of (program_of self.new) (state_of self.new) x
            ≡ put (memory_of (program_of self.old) (state_of self.old)) at word x }
        ensures refused { can_set (state_of self.old) at ≡ false → (x : ℕ)
            → memory_of (program_of self.new) (state_of self.new) x
            ≡ memory_of (program_of self.old) (state_of self.old) x }
        ensures settable { (x : ℕ) → can_set (state_of self.new) x ≡ can_set (state_of self.old) x }
    {
        let _is_set = self.memory.store(at, word);
    }

    /// Whether the running thread is there and awake.
    pub fn is_awake(&self) -> bool
        ensures there { result ≡ true → IsSome
            (thread_named self.now.memory.threads self.now.running) }
        ensures awake { result ≡ true → (t : Thread) → Running self.now t → IsAwake t }
        ensures asleep { result ≡ false → (t : Thread) → Running self.now t → IsAwake t → ⊥ }
    {
        match self.memory.threads.status(self.running) {
            None | Some(Status::Waits(..)) => false,
            Some(_) => true,
        }
    }

    /// Whether one fork or wait more may be counted.
    pub fn may_count(&self) -> bool
        ensures more { result ≡ true → self.now.made + 1 ≤ 2 ^ 63 }
        ensures none { result ≡ false → 2 ^ 63 ≤ self.now.made }
    {
        self.made < MOST_MADE
    }
}
