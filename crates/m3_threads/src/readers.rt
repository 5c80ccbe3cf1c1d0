use crate::list::{base_of_slot, place_of};
use crate::stacks::SLOT;
use crate::status::Status;
use crate::threads::Threads;
use m3_isa::Regs;

impl Threads {
    ghost use Rattle.std.specs.Prelude.{◌≡◌, ◌<◌, IsSome, Some, slice_get};
    ghost use Rattle.std.specs.Option.{option_copied, option_copied_mut};
    ghost use Rattle.std.specs.Borrow.{sem};
    ghost use Rattle.m3_threads.specs.Lending.{LendsRegs, LendsWords, LendsStack};
    ghost use Rattle.m3_threads.specs.All.{thread_named, base_of, words_of, stack_in, AreSoundThreads};
    ghost use Rattle.m3_threads.specs.Going.{of_thread};

    /// The number of the thread at a place of the list, from 0, and none exactly past the list. The list
    /// is in the order of the numbers, and each thread has a slot of its own.
    pub fn number(&self, place: u32) -> Option<u64>
        ensures number { result ≡ of_thread (λ t. t.number) (slice_get self.now.threads place) }
        ensures sound { AreSoundThreads self.now.allowed self.now.stack self.now.forks self.now.waits self.now.threads self.now.stacks }
    {
        if (place as usize) < self.list.len() {
            Some(self.list[place as usize].number)
        } else {
            None
        }
    }

    /// The registers of a thread, and none exactly where no thread of that number is there.
    pub fn regs(&self, thread: u64) -> Option<&Regs>
        ensures { option_copied result ≡ of_thread (λ t. t.regs) (thread_named self.now thread) }
    {
        match place_of(&self.list, thread) {
            Some(k) => Some(&self.list[k].regs),
            None => None,
        }
    }

    /// What a thread waits for, and none exactly where no thread of that number is there.
    pub fn status(&self, thread: u64) -> Option<Status>
        ensures { result ≡ of_thread (λ t. t.status) (thread_named self.now thread) }
    {
        match self.find(thread) {
            Some(t) => Some(t.status),
            None => None,
        }
    }

    /// The first address of a thread's stack, and none exactly where no thread of that number is there.
    pub fn stack_at(&self, thread: u64) -> Option<u64>
        ensures { result ≡ of_thread base_of (thread_named self.now thread) }
    {
        match self.find(thread) {
            Some(t) => Some(base_of_slot(t.slot)),
            None => None,
        }
    }

    /// The words of a thread's stack, and none exactly where no thread of that number is there.
    pub fn words(&self, thread: u64) -> Option<&[u64]>
        ensures { option_copied result ≡ of_thread (words_of self.now) (thread_named self.now thread) }
    {
        match self.find(thread) {
            Some(t) => Some(self.stacks.words(t.slot as usize)),
            None => None,
        }
    }

    /// The registers of a thread, to be changed, and none exactly where no thread of that number is
    /// there.
    pub fn regs_mut(&mut self, thread: u64) -> Option<&mut Regs>
        ensures* writes_back { sem 𝓛 (LendsRegs self.entry thread result) }
        ensures value { option_copied_mut result ≡ of_thread (λ t. t.regs) (thread_named self.old thread) }
    {
        let k = match place_of(&self.list, thread) {
            Some(k) => k,
            None => self.list.len(),
        };
        match self.list.get_mut(k) {
            Some(t) => Some(&mut t.regs),
            None => None,
        }
    }

    /// The words of the stack of a thread that is there, to be changed. After the loan they are what was
    /// written, and everything else is as it was. A turn of a thread borrows them so, beside a copy of its
    /// registers, while what isn't of `Threads` (globals, constants, a heap) stands free; whatever else it
    /// needs of `Threads`, a word of another stack too, waits until the loan is over.
    pub fn stack_mut(&mut self, thread: u64) -> &mut [u64]
        requires { IsSome (thread_named self.old thread) }
        ensures* writes_back { sem 𝓛 (LendsWords self.entry thread result) }
        ensures value { Some result.now ≡ of_thread (words_of self.old) (thread_named self.old thread) }
    {
        let t = self.thread(thread);
        self.words_in_mut(t.slot)
    }

    // The words of the stack in a slot, to be changed.
    fn words_in_mut(&mut self, slot: u32) -> &mut [u64]
        requires { slot < self.old.allowed }
        ensures* writes_back { sem 𝓛 (LendsStack self.entry slot result) }
        ensures value { result.now ≡ stack_in self.old slot }
    {
        self.stacks.words_mut(slot as usize)
    }

    /// Takes the stack that begins at an address in hand, so that its words are found at once.
    pub fn bring(&mut self, base: u64)
        ensures { self.new ≡ self.old }
    {
        let slot = (base / SLOT).wrapping_sub(1);
        if slot < u64::from(self.allowed) {
            self.stacks.bring(slot as usize);
        }
    }
}
