use crate::answers::Done;
use crate::status::{Status, Thread};
use crate::threads::Threads;
use m3_isa::{Instr, Op, Words};

impl Threads {
    ghost use Rattle.std.specs.Prelude.{◌≡◌, ◌≤◌, ℕ, ◌+◌, ◌<◌, ◌^◌, IsSome, Some};
    ghost use Rattle.m3_threads.specs.All.{thread_named};
    ghost use Rattle.m3_threads.specs.Going.{CanDo};
    ghost use Rattle.m3_threads.specs.declared.status.Thread.{Thread as OneThread};
    ghost use Rattle.m3_threads.specs.Actions.{IsAfter, alerts, tests_alert, alert_waits, alert_waits_at};
    ghost use Rattle.m3_threads.specs.declared.status.Status.TheVariants.{Wants, Ready};
    ghost use Rattle.m3_isa.specs.declared.instructions.Op.TheVariants.{Alert, Talert, Await};

    /// TALERT: says in register a whether the own mark is set, and clears it.
    pub fn test_alert<W: Words>(&mut self, thread: u64, mem: &mut W, i: Instr) -> Done
        requires { CanDo Talert self.old thread i }
        ensures after { (t : OneThread) → thread_named self.old thread ≡ Some t
            → IsAfter (tests_alert t i self.old (W.holds mem.old)) result self.new (W.holds mem.new) }
        ensures writable { (x : ℕ) → W.writable mem.new x ≡ W.writable mem.old x }
        ensures keeps { W.keeps mem.old mem.new }
        ensures counts { self.new.forks + self.new.waits ≤ self.old.forks + self.old.waits + 1 }
    {
        let t = self.thread(thread);
        self.answer_mark(t, i.a);
        Done::Went
    }

    /// AWAIT: as WAIT, but an alert ends it, and register c says whether one did.
    pub fn alert_wait<W: Words>(&mut self, thread: u64, mem: &mut W, i: Instr) -> Done
        requires { CanDo Await self.old thread i }
        ensures after { (t : OneThread) → thread_named self.old thread ≡ Some t
            → IsAfter (alert_waits t i self.old (W.holds mem.old) (W.writable mem.old)) result self.new (W.holds mem.new) }
        ensures writable { (x : ℕ) → W.writable mem.new x ≡ W.writable mem.old x }
        ensures keeps { W.keeps mem.old mem.new }
        ensures counts { self.new.forks + self.new.waits ≤ self.old.forks + self.old.waits + 1 }
    {
        let t = self.thread(thread);
        match t.status {
            Status::Wants(_) => self.relock(t, mem, i),
            _ => self.unlock(t, mem, i),
        }
    }

    // A thread that was woken at AWAIT takes its mutex again.
    fn relock<W: Words>(&mut self, t: Thread, mem: &mut W, i: Instr) -> Done
        requires row { i.a < 16 }
        requires register { i.c < 16 }
        requires there { thread_named self.old t.number ≡ Some t }
        requires counted { t.number < 2 ^ 63 }
        ensures after { (mutex : ℕ) → IsAfter (alert_waits_at (Wants mutex) t i self.old (W.holds mem.old) (W.writable mem.old)) result self.new (W.holds mem.new) }
        ensures writable { (x : ℕ) → W.writable mem.new x ≡ W.writable mem.old x }
        ensures keeps { W.keeps mem.old mem.new }
        ensures counts { self.new.forks + self.new.waits ≤ self.old.forks + self.old.waits + 1 }
    {
        let holder_at = t.register(i.a).wrapping_add(1);
        if !self.store(holder_at, t.number + 1, mem) {
            return Done::Trapped(2);
        }
        self.answer_mark(t, i.c);
        Done::Went
    }

    // A thread at AWAIT frees its mutex, if it holds it and isn't alerted.
    fn unlock<W: Words>(&mut self, t: Thread, mem: &mut W, i: Instr) -> Done
        requires mutex { i.a < 16 }
        requires condition { i.b < 16 }
        requires register { i.c < 16 }
        requires there { thread_named self.old t.number ≡ Some t }
        requires counted { t.number < 2 ^ 63 }
        requires waits { self.old.waits < 2 ^ 63 }
        ensures after { IsAfter (alert_waits_at Ready t i self.old (W.holds mem.old) (W.writable mem.old)) result self.new (W.holds mem.new) }
        ensures writable { (x : ℕ) → W.writable mem.new x ≡ W.writable mem.old x }
        ensures keeps { W.keeps mem.old mem.new }
        ensures counts { self.new.forks + self.new.waits ≤ self.old.forks + self.old.waits + 1 }
    {
        let holder_at = t.register(i.a).wrapping_add(1);
        let Some(holder) = self.load(holder_at, mem) else {
            return Done::Trapped(2);
        };
        if holder != t.number + 1 {
            self.jump(t, i.imm);
            return Done::Jumped;
        }
        if t.alerted {
            self.answer_unmarked(t, i.c, 1);
            return Done::Went;
        }
        if !self.store(holder_at, 0, mem) {
            return Done::Trapped(2);
        }
        self.sleep(t, i, true);
        Done::Slept
    }

    /// ALERT: sets the mark of the thread whose cell register a holds, and wakes it where it sleeps at
    /// AWAIT.
    pub fn alert<W: Words>(&mut self, thread: u64, mem: &mut W, i: Instr) -> Done
        requires { CanDo Alert self.old thread i }
        ensures after { (t : OneThread) → thread_named self.old thread ≡ Some t
            → IsAfter (alerts t i self.old (W.holds mem.old)) result self.new (W.holds mem.new) }
        ensures writable { (x : ℕ) → W.writable mem.new x ≡ W.writable mem.old x }
        ensures keeps { W.keeps mem.old mem.new }
        ensures counts { self.new.forks + self.new.waits ≤ self.old.forks + self.old.waits + 1 }
    {
        let t = self.thread(thread);
        let Some(other) = self.load(t.register(i.a).wrapping_add(1), mem) else {
            return Done::Trapped(2);
        };
        self.mark(other);
        self.go_on_at(thread);
        Done::Went
    }
}
