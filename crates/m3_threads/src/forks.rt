use crate::answers::ThreadsFull;
use crate::list::lowest_slot;
use crate::stacks::Stacks;
use crate::status::Thread;
use crate::threads::Threads;
use m3_base::NoMemory;
use std::alloc::Global;

impl Threads {
    ghost use Rattle.std.specs.Prelude.{◌≡◌, ◌≤◌, ◌<◌, ◌+◌, ◌^◌, ◌↔◌, IsErr, OnErr, IfOk, length};
    ghost use Rattle.m3_threads.specs.Actions.{at_start, Forks};

    /// The main thread alone, in slot 0, before its first instruction. The memory of all stacks is taken
    /// here.
    pub fn new(alloc: Global, threads: u32, stack: u64) -> Result<Threads, NoMemory>
        requires some { 1 ≤ threads }
        requires few { threads ≤ 64 }
        requires large { 1024 ≤ stack }
        requires small { stack ≤ 1048576 }
        ensures { IfOk result (λ all. all ≡ at_start threads stack) }
    {
        let mut list = Vec::with_capacity(alloc, threads as usize)?;
        let mut stacks = Stacks::new(alloc, threads as usize, stack as usize)?;
        stacks.lay_out(0, 1 << 32);
        list.push_reserved(Thread::started(0, 0, 0));
        Ok(Threads {
            allowed: threads,
            forks: 0,
            waits: 0,
            list,
            stacks,
        })
    }

    /// FORK: a new thread at the first instruction of procedure 1, in the lowest free slot, with its
    /// closure and its cell. Answers the thread's number.
    pub fn fork(&mut self, first: u32, closure: u64, cell: u64) -> Result<u64, ThreadsFull>
        requires { self.old.forks + self.old.waits < 2 ^ 63 }
        ensures full { IsErr result ↔ (length self.old.threads ≡ self.old.allowed) }
        ensures unchanged { OnErr result (self.new ≡ self.old) }
        ensures forked { IfOk result (λ number. Forks self.old first closure cell number self.new) }
    {
        if self.list.len() == self.allowed as usize {
            return Err(ThreadsFull);
        }
        let slot = lowest_slot(&self.list, self.allowed);
        self.stacks.lay_out_fork(slot as usize, closure, cell);
        self.forks += 1;
        self.list
            .push_reserved(Thread::started(self.forks, slot, first));
        Ok(self.forks)
    }
}
