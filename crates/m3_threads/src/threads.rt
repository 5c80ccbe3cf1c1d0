use crate::list::{longest_asleep, place_of, wake_sleepers};
use crate::stacks::Stacks;
use crate::status::Thread;
use m3_isa::{Instr, Words};
use std::marker::Model;

/// The threads that have not ended, with their stacks.
#[derive(Drop)]
pub struct Threads {
    pub(crate) allowed: u32,
    pub(crate) forks: u64,
    pub(crate) waits: u64,
    pub(crate) list: Vec<Thread>,
    pub(crate) stacks: Stacks,
}

impl Model for Threads {
    ghost use Rattle.std.specs.Prelude.{◌≤◌, vec_capacity};
    ghost use Rattle.m3_threads.specs.All.{Everyone, AreSoundThreads};

    ghost Value = { Everyone };

    ghost view = { λ t. record { allowed = t.allowed; stack = t.stacks.depth; forks = t.forks; waits = t.waits; threads = t.list.items; stacks = t.stacks.words } };

    ghost invariant = { λ t. AreSoundThreads t.allowed t.stacks.depth t.forks t.waits t.list.items t.stacks.words × (t.allowed ≤ vec_capacity t.list) };
}

impl Threads {
    ghost use Rattle.std.specs.Prelude.{◌≡◌, ◌≤◌, ◌<◌, ◌+◌, ◌^◌, ℕ, ◌/◌, ◌%◌, ◌&&◌, nat_le, nat_lt, true, false, IsSome, IfSome, Some, Option, MatchOption, map, length};
    ghost use Rattle.m3_threads.specs.All.{thread_named, updated, stack_in, NamesRegisters};
    ghost use Rattle.m3_threads.specs.PlacesInside.{MayBecome};
    ghost use Rattle.m3_threads.specs.Actions.{with_threads, asleep, gone_on, jumped_to, gone_on_with, alert_cleared, alert_marked, woken, woken_on, SleepsLongest, wakened_by, given, ended};
    ghost use Rattle.m3_isa.specs.Arithmetic.{flag};
    ghost use Rattle.m3_threads.specs.declared.status.Status.TheVariants.{Waits};
    ghost use Rattle.m3_threads.specs.Spaces.{is_in_stack, held, replaceable, put_inside, put_outside};

    /// The word at an address, in a stack or outside.
    #[inline(always)]
    pub fn load<W: Words>(&self, at: u64, mem: &W) -> Option<u64>
        ensures { result ≡ held self.now (W.holds mem.now) at }
    {
        match self.stacks.load(at) {
            Some(word) => Some(word),
            None => mem.load(at),
        }
    }

    /// Replaces the word at an address, in a stack or outside, where that can be done, and says whether
    /// it was.
    #[inline(always)]
    pub fn store<W: Words>(&mut self, at: u64, word: u64, mem: &mut W) -> bool
        ensures answer { result ≡ replaceable self.old (W.writable mem.old) at }
        ensures inside { result ≡ true → self.new ≡ put_inside self.old at word }
        ensures outside { result ≡ true → (x : ℕ) → W.holds mem.new x ≡ put_outside self.old (W.holds mem.old) at word x }
        ensures refused { result ≡ false → self.new ≡ self.old }
        ensures kept { self.new.threads ≡ self.old.threads }
        ensures counts { (self.new.forks ≡ self.old.forks) × (self.new.waits ≡ self.old.waits) }
        ensures refused_outside { result ≡ false → (x : ℕ) → W.holds mem.new x ≡ W.holds mem.old x }
        ensures writable { (x : ℕ) → W.writable mem.new x ≡ W.writable mem.old x }
        ensures keeps { W.keeps mem.old mem.new }
    {
        if self.stacks.store(at, word) {
            true
        } else {
            mem.store(at, word)
        }
    }

    // The thread of a number.
    pub(crate) fn thread(&self, number: u64) -> Thread
        requires { IsSome (thread_named self.now number) }
        ensures found { thread_named self.now number ≡ Some result }
        ensures named { thread_named self.now result.number ≡ Some result }
        ensures number { result.number ≡ number }
        ensures given_out { result.number ≤ self.now.forks }
        ensures slot { result.slot < self.now.allowed }
        ensures registers { NamesRegisters result.status }
    {
        match place_of(&self.list, number) {
            Some(k) => self.list[k],
            None => unreachable!(),
        }
    }

    // Changes the thread of a number.
    pub(crate) fn set(&mut self, number: u64, t: Thread)
        requires { (u : Thread) × (thread_named self.old number ≡ Some u) × MayBecome u t }
        ensures set { (change : Thread → Thread) (u : Thread) → thread_named self.old number ≡ Some u
            → change u ≡ t → self.new ≡ with_threads self.old (updated change number self.old.threads) }
        ensures counts { (self.new.forks ≡ self.old.forks) × (self.new.waits ≡ self.old.waits) }
    {
        if let Some(k) = place_of(&self.list, number) {
            self.list[k] = t;
        }
    }

    // A thread goes on to its next instruction.
    pub(crate) fn go_on(&mut self, t: Thread)
        requires { thread_named self.old t.number ≡ Some t }
        ensures { self.new ≡ with_threads self.old (updated gone_on t.number self.old.threads) }
    {
        self.set(t.number, t.gone_on());
    }

    // A thread jumps.
    pub(crate) fn jump(&mut self, t: Thread, target: i32)
        requires { thread_named self.old t.number ≡ Some t }
        ensures { self.new ≡ with_threads self.old (updated (jumped_to target) t.number self.old.threads) }
    {
        self.set(t.number, t.jumped(target));
    }

    // A thread goes on with a word in a register.
    pub(crate) fn answer(&mut self, t: Thread, a: u8, word: u64)
        requires there { thread_named self.old t.number ≡ Some t }
        requires register { a < 16 }
        ensures { self.new ≡ with_threads self.old (updated (gone_on_with a word) t.number self.old.threads) }
    {
        self.set(t.number, t.given(a, word).gone_on());
    }

    // A thread whose mark is cleared goes on with a word in a register.
    pub(crate) fn answer_unmarked(&mut self, t: Thread, a: u8, word: u64)
        requires there { thread_named self.old t.number ≡ Some t }
        requires register { a < 16 }
        ensures { self.new ≡ with_threads self.old (updated (λ u. gone_on_with a word (alert_cleared u)) t.number self.old.threads) }
    {
        self.set(t.number, t.unmarked().given(a, word).gone_on());
    }

    // A thread goes on with its mark in a register, and the mark is cleared.
    pub(crate) fn answer_mark(&mut self, t: Thread, a: u8)
        requires there { thread_named self.old t.number ≡ Some t }
        requires register { a < 16 }
        ensures { self.new ≡ with_threads self.old (updated (λ u. gone_on_with a (flag t.alerted) (alert_cleared u)) t.number self.old.threads) }
    {
        self.answer_unmarked(t, a, if t.alerted { 1 } else { 0 });
    }

    // The thread of a number, if it is there.
    pub(crate) fn find(&self, number: u64) -> Option<Thread>
        ensures found { result ≡ thread_named self.now number }
        ensures slot { IfSome result (λ t. t.slot < self.now.allowed) }
        ensures registers { IfSome result (λ t. NamesRegisters t.status) }
        ensures allowed { self.now.allowed ≤ 64 }
    {
        match place_of(&self.list, number) {
            Some(k) => Some(self.list[k]),
            None => None,
        }
    }

    // The thread of a number, if it is there, is alerted.
    pub(crate) fn mark(&mut self, number: u64)
        ensures { self.new ≡ with_threads self.old (updated alert_marked number self.old.threads) }
    {
        if let Some(t) = self.find(number) {
            self.set(number, t.marked());
        }
    }

    // Who sleeps longest on a condition is woken.
    pub(crate) fn wake_longest(&mut self, condition: u64)
        ensures woken { (sleeper : Option Thread) × SleepsLongest condition self.old.threads sleeper
            × (self.new ≡ with_threads self.old (wakened_by sleeper self.old.threads)) }
        ensures stays { (n : ℕ) → IsSome (thread_named self.old n) → IsSome (thread_named self.new n) }
    {
        if let Some(k) = longest_asleep(&self.list, condition) {
            let t = self.list[k];
            self.list[k] = t.woken();
        }
    }

    // All that sleep on a condition are woken.
    pub(crate) fn wake_on(&mut self, condition: u64)
        ensures woken { self.new ≡ with_threads self.old (map (woken_on condition) self.old.threads) }
        ensures stays { (n : ℕ) → IsSome (thread_named self.old n) → IsSome (thread_named self.new n) }
    {
        wake_sleepers(&mut self.list, condition);
    }

    // A thread gets a word in a register.
    pub(crate) fn give(&mut self, t: Thread, a: u8, word: u64) -> Thread
        requires there { thread_named self.old t.number ≡ Some t }
        requires register { a < 16 }
        ensures changed { self.new ≡ with_threads self.old (updated (given a word) t.number self.old.threads) }
        ensures given { result ≡ given a word t }
        ensures named { thread_named self.new result.number ≡ Some result }
    {
        let given = t.given(a, word);
        self.set(t.number, given);
        given
    }

    // A thread ends, and its slot's stack has no words from then on.
    pub(crate) fn remove(&mut self, t: Thread)
        requires { thread_named self.old t.number ≡ Some t }
        ensures { self.new ≡ ended t self.old }
    {
        if let Some(k) = place_of(&self.list, t.number) {
            self.list.remove(k);
            self.stacks.clear(t.slot as usize);
        }
    }

    // The thread of a number goes on.
    pub(crate) fn go_on_at(&mut self, number: u64)
        requires { IsSome (thread_named self.old number) }
        ensures { self.new ≡ with_threads self.old (updated gone_on number self.old.threads) }
    {
        let t = self.thread(number);
        self.set(number, t.gone_on());
    }

    // Lets a thread sleep, at the end of the queues.
    pub(crate) fn sleep(&mut self, t: Thread, i: Instr, alertable: bool)
        requires there { thread_named self.old t.number ≡ Some t }
        requires counted { self.old.waits < 2 ^ 63 }
        requires registers { NamesRegisters (Waits i.a i.b 0 alertable) }
        ensures { self.new ≡ record self.old {
          waits = self.old.waits + 1;
          threads = updated (asleep i.a i.b self.old.waits alertable) t.number self.old.threads;
        } }
    {
        if let Some(k) = place_of(&self.list, t.number) {
            self.list[k] = t.asleep(i.a, i.b, self.waits, alertable);
            self.waits += 1;
        }
    }
}
