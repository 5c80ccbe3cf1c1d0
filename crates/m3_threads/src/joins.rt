use crate::answers::Done;
use crate::status::Thread;
use crate::threads::Threads;
use m3_isa::{Instr, Op, Words};

impl Threads {
    ghost use Rattle.std.specs.Prelude.{◌≡◌, ◌≤◌, ℕ, ◌+◌, ◌<◌, ◌^◌, IsSome, Some};
    ghost use Rattle.m3_threads.specs.All.{thread_named};
    ghost use Rattle.m3_threads.specs.Going.{CanDo};
    ghost use Rattle.m3_threads.specs.declared.status.Thread.{Thread as OneThread};
    ghost use Rattle.m3_threads.specs.Actions.{IsAfter, joins, alert_joins, ends};
    ghost use Rattle.m3_isa.specs.declared.instructions.Op.TheVariants.{Join, Ajoin, Endt};

    /// JOIN: the thread takes the result of the one whose cell register b holds, or jumps where that was
    /// taken before.
    pub fn join<W: Words>(&mut self, thread: u64, mem: &mut W, i: Instr) -> Done
        requires { CanDo Join self.old thread i }
        ensures after { (t : OneThread) → thread_named self.old thread ≡ Some t
            → IsAfter (joins t i self.old (W.holds mem.old) (W.writable mem.old)) result self.new (W.holds mem.new) }
        ensures writable { (x : ℕ) → W.writable mem.new x ≡ W.writable mem.old x }
        ensures keeps { W.keeps mem.old mem.new }
        ensures counts { self.new.forks + self.new.waits ≤ self.old.forks + self.old.waits + 1 }
    {
        let t = self.thread(thread);
        self.join_from(t, mem, i)
    }

    /// AJOIN: as JOIN, but an alert ends it, and register c says whether one did.
    pub fn alert_join<W: Words>(&mut self, thread: u64, mem: &mut W, i: Instr) -> Done
        requires { CanDo Ajoin self.old thread i }
        ensures after { (t : OneThread) → thread_named self.old thread ≡ Some t
            → IsAfter (alert_joins t i self.old (W.holds mem.old) (W.writable mem.old)) result self.new (W.holds mem.new) }
        ensures writable { (x : ℕ) → W.writable mem.new x ≡ W.writable mem.old x }
        ensures keeps { W.keeps mem.old mem.new }
        ensures counts { self.new.forks + self.new.waits ≤ self.old.forks + self.old.waits + 1 }
    {
        let t = self.thread(thread);
        if t.alerted {
            self.set(t.number, t.unmarked().given(i.c, 1).given(i.a, 0).gone_on());
            return Done::Went;
        }
        let t = self.give(t, i.c, 0);
        self.join_from(t, mem, i)
    }

    // A thread with these registers joins the one whose cell register b holds.
    fn join_from<W: Words>(&mut self, t: Thread, mem: &mut W, i: Instr) -> Done
        requires register { i.a < 16 }
        requires cell { i.b < 16 }
        requires there { thread_named self.old t.number ≡ Some t }
        ensures after { IsAfter (joins t i self.old (W.holds mem.old) (W.writable mem.old)) result self.new (W.holds mem.new) }
        ensures writable { (x : ℕ) → W.writable mem.new x ≡ W.writable mem.old x }
        ensures keeps { W.keeps mem.old mem.new }
        ensures counts { self.new.forks + self.new.waits ≤ self.old.forks + self.old.waits + 1 }
    {
        let cell = t.register(i.b);
        let Some(state) = self.load(cell.wrapping_add(2), mem) else {
            return Done::Trapped(2);
        };
        if state == 2 {
            self.jump(t, i.imm);
            return Done::Jumped;
        }
        if !self.store(cell.wrapping_add(2), 2, mem) {
            return Done::Trapped(2);
        }
        let Some(word) = self.load(cell.wrapping_add(3), mem) else {
            return Done::Trapped(2);
        };
        self.answer(t, i.a, word);
        Done::Went
    }

    /// ENDT: the thread's result is register a, and the thread ends.
    pub fn end<W: Words>(&mut self, thread: u64, mem: &mut W, i: Instr) -> Done
        requires { CanDo Endt self.old thread i }
        ensures after { (t : OneThread) → thread_named self.old thread ≡ Some t
            → IsAfter (ends t i self.old (W.holds mem.old) (W.writable mem.old)) result self.new (W.holds mem.new) }
        ensures writable { (x : ℕ) → W.writable mem.new x ≡ W.writable mem.old x }
        ensures keeps { W.keeps mem.old mem.new }
        ensures counts { self.new.forks + self.new.waits ≤ self.old.forks + self.old.waits + 1 }
    {
        let t = self.thread(thread);
        let Some(cell) = self.load(t.regs.fp.wrapping_add(2), mem) else {
            return Done::Trapped(2);
        };
        if !self.store(cell.wrapping_add(3), t.register(i.a), mem) {
            return Done::Trapped(2);
        }
        if !self.store(cell.wrapping_add(2), 1, mem) {
            return Done::Trapped(2);
        }
        self.remove(t);
        Done::Went
    }
}
