use crate::answers::Done;
use crate::status::Status;
use crate::threads::Threads;
use m3_isa::{Instr, Op, Words};

impl Threads {
    ghost use Rattle.std.specs.Prelude.{◌≡◌, ◌≤◌, ℕ, ◌+◌, ◌<◌, ◌^◌, IsSome, Some, false};
    ghost use Rattle.m3_threads.specs.All.{thread_named};
    ghost use Rattle.m3_threads.specs.Going.{CanDo};
    ghost use Rattle.m3_threads.specs.declared.status.Thread.{Thread as OneThread};
    ghost use Rattle.m3_threads.specs.Actions.{IsAfter, frees, sleeps, acquires, releases, waits, Signals, broadcasts};
    ghost use Rattle.m3_isa.specs.declared.instructions.Op.TheVariants.{Acq, Rel, Wait, Sig, Bca};

    /// ACQ: the thread becomes the holder of the mutex in register a.
    pub fn acquire<W: Words>(&mut self, thread: u64, mem: &mut W, i: Instr) -> Done
        requires { CanDo Acq self.old thread i }
        ensures after { (t : OneThread) → thread_named self.old thread ≡ Some t
            → IsAfter (acquires t i self.old (W.holds mem.old) (W.writable mem.old)) result self.new (W.holds mem.new) }
        ensures writable { (x : ℕ) → W.writable mem.new x ≡ W.writable mem.old x }
        ensures keeps { W.keeps mem.old mem.new }
        ensures counts { self.new.forks + self.new.waits ≤ self.old.forks + self.old.waits + 1 }
    {
        self.take_mutex(thread, mem, i)
    }

    /// REL: the thread frees the mutex in register a, or jumps where it is not the holder.
    pub fn release<W: Words>(&mut self, thread: u64, mem: &mut W, i: Instr) -> Done
        requires { CanDo Rel self.old thread i }
        ensures after { (t : OneThread) → thread_named self.old thread ≡ Some t
            → IsAfter (releases t i self.old (W.holds mem.old) (W.writable mem.old)) result self.new (W.holds mem.new) }
        ensures writable { (x : ℕ) → W.writable mem.new x ≡ W.writable mem.old x }
        ensures keeps { W.keeps mem.old mem.new }
        ensures counts { self.new.forks + self.new.waits ≤ self.old.forks + self.old.waits + 1 }
    {
        let t = self.thread(thread);
        let holder_at = t.register(i.a).wrapping_add(1);
        let Some(holder) = self.load(holder_at, mem) else {
            return Done::Trapped(2);
        };
        if holder != t.number + 1 {
            self.jump(t, i.imm);
            return Done::Jumped;
        }
        if self.store(holder_at, 0, mem) {
            self.go_on(t);
            Done::Went
        } else {
            Done::Trapped(2)
        }
    }

    /// WAIT: the thread frees the mutex in register a and sleeps on the condition in register b, or jumps
    /// where it is not the holder; once woken, it takes the mutex again.
    pub fn wait<W: Words>(&mut self, thread: u64, mem: &mut W, i: Instr) -> Done
        requires { CanDo Wait self.old thread i }
        ensures after { (t : OneThread) → thread_named self.old thread ≡ Some t
            → IsAfter (waits t i self.old (W.holds mem.old) (W.writable mem.old)) result self.new (W.holds mem.new) }
        ensures writable { (x : ℕ) → W.writable mem.new x ≡ W.writable mem.old x }
        ensures keeps { W.keeps mem.old mem.new }
        ensures counts { self.new.forks + self.new.waits ≤ self.old.forks + self.old.waits + 1 }
    {
        let t = self.thread(thread);
        if let Status::Wants(_) = t.status {
            return self.take_mutex(thread, mem, i);
        }
        let holder_at = t.register(i.a).wrapping_add(1);
        let Some(holder) = self.load(holder_at, mem) else {
            return Done::Trapped(2);
        };
        if holder != t.number + 1 {
            self.jump(t, i.imm);
            return Done::Jumped;
        }
        if self.store(holder_at, 0, mem) {
            self.sleep(t, i, false);
            Done::Slept
        } else {
            Done::Trapped(2)
        }
    }

    /// SIG: wakes the longest sleeper on the condition in register a.
    pub fn wake_one<W: Words>(&mut self, thread: u64, mem: &mut W, i: Instr) -> Done
        requires { CanDo Sig self.old thread i }
        ensures after { (t : OneThread) → thread_named self.old thread ≡ Some t
            → Signals t i self.old (W.holds mem.old) result self.new (W.holds mem.new) }
        ensures writable { (x : ℕ) → W.writable mem.new x ≡ W.writable mem.old x }
        ensures keeps { W.keeps mem.old mem.new }
        ensures counts { self.new.forks + self.new.waits ≤ self.old.forks + self.old.waits + 1 }
    {
        let t = self.thread(thread);
        self.wake_longest(t.register(i.a));
        self.go_on_at(thread);
        Done::Went
    }

    /// BCA: wakes all that sleep on the condition in register a.
    pub fn wake_all<W: Words>(&mut self, thread: u64, mem: &mut W, i: Instr) -> Done
        requires { CanDo Bca self.old thread i }
        ensures after { (t : OneThread) → thread_named self.old thread ≡ Some t
            → IsAfter (broadcasts t i self.old (W.holds mem.old)) result self.new (W.holds mem.new) }
        ensures writable { (x : ℕ) → W.writable mem.new x ≡ W.writable mem.old x }
        ensures keeps { W.keeps mem.old mem.new }
        ensures counts { self.new.forks + self.new.waits ≤ self.old.forks + self.old.waits + 1 }
    {
        let t = self.thread(thread);
        self.wake_on(t.register(i.a));
        self.go_on_at(thread);
        Done::Went
    }

    // The thread becomes the holder of the mutex in register a.
    pub(crate) fn take_mutex<W: Words>(&mut self, thread: u64, mem: &mut W, i: Instr) -> Done
        requires register { i.a < 16 }
        requires there { IsSome (thread_named self.old thread) }
        requires counted { self.old.forks + self.old.waits < 2 ^ 63 }
        ensures after { (t : OneThread) → thread_named self.old thread ≡ Some t
            → IsAfter (acquires t i self.old (W.holds mem.old) (W.writable mem.old)) result self.new (W.holds mem.new) }
        ensures writable { (x : ℕ) → W.writable mem.new x ≡ W.writable mem.old x }
        ensures keeps { W.keeps mem.old mem.new }
        ensures counts { self.new.forks + self.new.waits ≤ self.old.forks + self.old.waits + 1 }
    {
        let t = self.thread(thread);
        let holder_at = t.register(i.a).wrapping_add(1);
        if self.store(holder_at, t.number + 1, mem) {
            self.go_on(t);
            Done::Went
        } else {
            Done::Trapped(2)
        }
    }
}
