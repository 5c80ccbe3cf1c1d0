ghost use Rattle.std.specs.Prelude.{◌≡◌};
ghost use Rattle.m3_threads.specs.Going.{status_at};

use crate::status::{Status, Thread};
use crate::threads::Threads;
use m3_isa::{Instr, Op, Words};

// The status of a thread that comes to an instruction.
fn status_at(i: Instr) -> Status
    ensures { result ≡ status_at i }
{
    match i.op {
        Op::Acq => Status::Wants(i.a),
        Op::Join => Status::Joins(i.b, false),
        Op::Ajoin => Status::Joins(i.b, true),
        _ => Status::Ready,
    }
}

impl Threads {
    ghost use Rattle.std.specs.Prelude.{ℕ, ◌≡◌, ◌==◌, ◌+◌, ◌<◌, ◌^◌, IsSome, Some, None, length};
    ghost use Rattle.m3_isa.specs.Instructions.{IsInstruction};
    ghost use Rattle.m3_threads.specs.All.{thread_named, updated, NamesRegisters};
    ghost use Rattle.m3_threads.specs.Spaces.{held};
    ghost use Rattle.m3_threads.specs.Going.{status_at as status_at_place, with_status, may_go, may_go_in, IsLowest, IsChoice, NoneGoes};
    ghost use Rattle.m3_threads.specs.Actions.{with_threads};

    /// Sets the status of a thread that has come to an instruction.
    pub fn stand(&mut self, thread: u64, i: Instr)
        requires instruction { IsInstruction i }
        requires there { IsSome (thread_named self.old thread) }
        requires counted { self.old.forks + self.old.waits < 2 ^ 63 }
        ensures { self.new ≡ with_threads self.old (updated (with_status (status_at_place i)) thread self.old.threads) }
    {
        let t = self.thread(thread);
        self.set(thread, t.standing(status_at(i)));
    }

    /// Whether a thread may go.
    pub fn may_go<W: Words>(&self, thread: u64, mem: &W) -> bool
        requires there { IsSome (thread_named self.now thread) }
        requires counted { self.now.forks + self.now.waits < 2 ^ 63 }
        ensures { result ≡ may_go self.now (W.holds mem.now) thread }
    {
        self.may_go_if_there(thread, mem)
    }

    /// The thread that goes: the one that the entry names if it may, else the running one if it may,
    /// else the lowest-numbered that may, and none exactly where no thread may go.
    pub fn choose<W: Words>(&self, to: Option<u64>, running: u64, mem: &W) -> Option<u64>
        requires { self.now.forks + self.now.waits < 2 ^ 63 }
        ensures { IsChoice self.now (W.holds mem.now) to running result }
    {
        if let Some(named) = to {
            if self.may_go_if_there(named, mem) {
                return Some(named);
            }
        }
        if self.may_go_if_there(running, mem) {
            Some(running)
        } else {
            self.lowest(mem)
        }
    }

    /// Whether the allowed number of threads have not ended.
    pub fn is_full(&self) -> bool
        requires { self.now.forks + self.now.waits < 2 ^ 63 }
        ensures { result ≡ (length self.now.threads == self.now.allowed) }
    {
        self.list.len() == self.allowed as usize
    }

    // Whether a thread is there and may go.
    fn may_go_if_there<W: Words>(&self, thread: u64, mem: &W) -> bool
        ensures { result ≡ may_go self.now (W.holds mem.now) thread }
    {
        match self.find(thread) {
            Some(t) => self.goes(t, mem),
            None => false,
        }
    }

    // Whether a thread of these registers and this status may go.
    fn goes<W: Words>(&self, t: Thread, mem: &W) -> bool
        requires { NamesRegisters t.status }
        ensures { result ≡ may_go_in (held self.now (W.holds mem.now)) t }
    {
        match t.status {
            Status::Ready => true,
            Status::Wants(mutex) => {
                match self.load(t.register(mutex).wrapping_add(1), mem) {
                    Some(holder) => holder == 0,
                    None => true,
                }
            }
            Status::Waits(..) => false,
            Status::Joins(cell, alertable) => {
                if alertable && t.alerted {
                    return true;
                }
                match self.load(t.register(cell).wrapping_add(2), mem) {
                    Some(state) => state != 0,
                    None => true,
                }
            }
        }
    }

    // The lowest-numbered thread that may go.
    fn lowest<W: Words>(&self, mem: &W) -> Option<u64>
        ensures lowest { (n : ℕ) → result ≡ Some n → IsLowest self.now (W.holds mem.now) n }
        ensures none { result ≡ None → NoneGoes self.now (W.holds mem.now) }
    {
        for t in &self.list {
            if self.goes(*t, mem) {
                return Some(t.number);
            }
        }
        None
    }
}
