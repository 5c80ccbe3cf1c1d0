ghost use Rattle.std.specs.Prelude.{ℕ, ◌≡◌, ◌≤◌, ◌+◌, ◌-◌, ◌^◌, ◌<◌, ◌&&◌, nat_le, nat_lt, if◌then◌else◌, Some, None, slice_index, length};
ghost use Rattle.std.proofs.Common.{arith, refl, ◌∙◌};
ghost use Rattle.std.proofs.lemmas.Bool.Decides.{nat_tests};
ghost use Rattle.m3_isa.specs.Instructions.{IsInstruction};

use m3_isa::{Instr, Op, Words, decode, encode};
use m3_threads::{Done, Status, Threads, ThreadsFull};
use std::alloc::Global;
use std::fmt::{Debug, Display};
use std::process::Abort;
use std::test::Fail;

// Sixty-four words of the heap. The last one can't be stored.
const HEAP: u64 = 1 << 60;

#[derive(Clone, Copy)]
struct Cells {
    words: [u64; 64],
}

impl Words for Cells {
    ghost holds = { λ s at. if nat_le (2 ^ 60) at && nat_lt at (2 ^ 60 + 64)
        then Some (slice_index s.words (at - 2 ^ 60)) else None };

    ghost writable = { λ s at. nat_le (2 ^ 60) at && nat_lt at (2 ^ 60 + 63) };

    ghost keeps = { λ s t. length t.words ≡ length s.words };

    ghost readable = { λ s x h. Prim.grind (arith, nat_tests) };

    ghost low = { λ s x h. Prim.grind (arith, nat_tests) };

    ghost keeps_itself = { λ _. refl };

    ghost keeps_on = { λ _ _ _ p q. q ∙ p };

    fn load(&self, at: u64) -> Option<u64> {
        if HEAP <= at && at < HEAP + 64 {
            Some(self.words[(at - HEAP) as usize])
        } else {
            None
        }
    }

    fn store(&mut self, at: u64, word: u64) -> bool {
        if HEAP <= at && at < HEAP + 63 {
            self.words[(at - HEAP) as usize] = word;
            true
        } else {
            false
        }
    }
}

// A step of a history, with what is to be seen.
#[derive(Clone, Copy)]
enum Event {
    /// Register r of thread n gets a word.
    Give(u64, u8, u64),
    /// Thread n comes to an instruction.
    Stand(u64, Op, u8, u8, u8),
    /// Thread n may go, or not.
    Goes(u64, bool),
    /// The entry, the running thread, and who goes.
    Choose(Option<u64>, u64, Option<u64>),
    /// Thread n may go, and carries out an instruction.
    Act(u64, Op, u8, u8, u8, Done),
    /// A fork gives this number and this stack.
    Fork(u64, u64),
    /// As many threads as are allowed have not ended, or fewer.
    Full,
    Room,
    /// Thread n has this status.
    Is(u64, Status),
    /// No thread has the number n, or it has ended.
    Gone(u64),
    /// Register r of thread n has this word, and n stands here.
    Seen(u64, u8, u64, u32),
    /// Word k of the heap.
    Heap(usize, u64),
    /// The thread at a place of the list.
    Listed(u32, Option<u64>),
    /// Word k of the stack of thread n, and a word that is put there.
    Stack(u64, usize, u64),
    Put(u64, usize, u64),
}

use Event::{
    Act, Choose, Fork, Full, Give, Goes, Gone, Heap, Is, Listed, Put, Room, Seen, Stack, Stand,
};

// What was found is what was wanted.
fn expect<T: PartialEq + Debug + Drop>(rt: &impl Abort, found: T, wanted: T, what: &impl Display) {
    assert_eq!(rt; found, wanted, "{what}");
}

// The instruction with these fields, which jumps to 40 where it jumps.
fn instruction(rt: &impl Abort, op: Op, a: u8, b: u8, c: u8) -> Instr
    ensures { IsInstruction result }
{
    let imm = match op {
        Op::Rel | Op::Wait | Op::Join | Op::Await | Op::Ajoin => 40,
        _ => 0,
    };
    let Some(i) = decode(encode(Instr { op, a, b, c, imm })) else {
        panic!(rt; "{op:?} is no instruction");
    };
    i
}

// Carries out an instruction of a thread that may go.
fn act(rt: &impl Abort, all: &mut Threads, mem: &mut Cells, n: u64, i: Instr) -> Done
    requires row { IsInstruction i }
    requires counted { all.old.forks + all.old.waits < 2 ^ 62 }
    ensures { all.new.forks + all.new.waits ≤ all.old.forks + all.old.waits + 1 }
{
    assert!(rt; all.regs(n).is_some(), "{n} has ended");
    assert!(rt; all.may_go(n, mem), "{n} may not go");
    match i.op {
        Op::Acq => all.acquire(n, mem, i),
        Op::Rel => all.release(n, mem, i),
        Op::Wait => all.wait(n, mem, i),
        Op::Sig => all.wake_one(n, mem, i),
        Op::Bca => all.wake_all(n, mem, i),
        Op::Join => all.join(n, mem, i),
        Op::Endt => all.end(n, mem, i),
        Op::Alert => all.alert(n, mem, i),
        Op::Talert => all.test_alert(n, mem, i),
        Op::Await => all.alert_wait(n, mem, i),
        Op::Ajoin => all.alert_join(n, mem, i),
        _ => panic!(rt; "{i:?} is none of these"),
    }
}

fn stand(rt: &impl Abort, all: &mut Threads, n: u64, i: Instr)
    requires row { IsInstruction i }
    requires counted { all.old.forks + all.old.waits < 2 ^ 62 }
    ensures { all.new.forks + all.new.waits ≤ all.old.forks + all.old.waits }
{
    assert!(rt; all.regs(n).is_some(), "{n} has ended");
    all.stand(n, i);
}

fn goes(rt: &impl Abort, all: &Threads, mem: &Cells, n: u64) -> bool
    requires { all.now.forks + all.now.waits < 2 ^ 62 }
{
    assert!(rt; all.regs(n).is_some(), "{n} has ended");
    all.may_go(n, mem)
}

fn give(rt: &impl Abort, all: &mut Threads, n: u64, register: u8, word: u64)
    ensures { all.new.forks + all.new.waits ≤ all.old.forks + all.old.waits }
{
    assert!(rt; register < 16);
    match all.regs_mut(n) {
        Some(regs) => regs.r[register as usize] = word,
        None => panic!(rt; "{n} has ended"),
    }
}

fn put(rt: &impl Abort, all: &mut Threads, n: u64, k: usize, word: u64)
    ensures { all.new.forks + all.new.waits ≤ all.old.forks + all.old.waits }
{
    assert!(rt; all.regs(n).is_some(), "{n} has ended");
    let words = all.stack_mut(n);
    assert!(rt; k < words.len());
    words[k] = word;
}

fn is_gone(all: &Threads, n: u64) -> bool {
    all.regs(n).is_none() && all.stack_at(n).is_none() && all.words(n).is_none()
}

fn status(all: &Threads, n: u64) -> Option<Status> {
    all.status(n)
}

fn seen(all: &Threads, n: u64, register: u8) -> Option<(u64, u32)> {
    let regs = all.regs(n)?;
    let word = regs.r.get(register as usize)?;
    Some((*word, regs.pc))
}

// A fork of a thread whose cell is at HEAP + 8.
fn fork(all: &mut Threads) -> Result<u64, ThreadsFull>
    requires { all.old.forks + all.old.waits < 2 ^ 62 }
    ensures { all.new.forks + all.new.waits ≤ all.old.forks + all.old.waits + 1 }
{
    all.fork(7, 55, HEAP + 8)
}

fn play_one(rt: &impl Abort, all: &mut Threads, mem: &mut Cells, event: Event, row: usize)
    requires { all.old.forks + all.old.waits < 2 ^ 62 }
    ensures { all.new.forks + all.new.waits ≤ all.old.forks + all.old.waits + 1 }
{
    match event {
        Give(n, register, word) => give(rt, all, n, register, word),
        Stand(n, op, a, b, c) => stand(rt, all, n, instruction(rt, op, a, b, c)),
        Goes(n, may) => expect(rt, goes(rt, all, mem, n), may, &row),
        Choose(to, running, who) => expect(rt, all.choose(to, running, mem), who, &row),
        Act(n, op, a, b, c, done) => {
            let i = instruction(rt, op, a, b, c);
            expect(rt, act(rt, all, mem, n, i), done, &row);
        }
        Fork(n, at) => {
            expect(rt, fork(all), Ok(n), &row);
            expect(rt, all.stack_at(n), Some(at), &row);
        }
        Full => {
            expect(rt, all.is_full(), true, &row);
            expect(rt, fork(all), Err(ThreadsFull), &row);
        }
        Room => expect(rt, all.is_full(), false, &row),
        Is(n, expected) => expect(rt, status(all, n), Some(expected), &row),
        Gone(n) => expect(rt, is_gone(all, n), true, &row),
        Put(n, k, word) => put(rt, all, n, k, word),
        Seen(n, register, word, pc) => {
            expect(rt, seen(all, n, register), Some((word, pc)), &row);
        }
        Heap(k, word) => expect(rt, mem.words.get(k).copied(), Some(word), &row),
        Listed(place, n) => expect(rt, all.number(place), n, &row),
        Stack(n, k, word) => expect(rt, stack_word(all, n, k), Some(word), &row),
    }
}

fn stack_word(all: &Threads, n: u64, k: usize) -> Option<u64> {
    all.words(n)?.get(k).copied()
}

// Plays a history.
fn play(rt: &impl Abort, all: &mut Threads, mem: &mut Cells, events: &[Event])
    requires few { length events.now < 1000 }
    requires counted { all.old.forks + all.old.waits < 2 ^ 61 }
    ensures { all.new.forks + all.new.waits ≤ all.old.forks + all.old.waits + length events.now }
{
    for (row, event) in events.iter().enumerate() {
        play_one(rt, all, mem, *event, row);
    }
}

fn heap() -> Cells {
    let mut words = [0; 64];
    words[9] = 1;
    words[63] = 1;
    Cells { words }
}

const SLOT: u64 = 1 << 40;

const M: u64 = HEAP;

const C: u64 = HEAP + 4;

const CELL: u64 = HEAP + 8;

// One thread.
static ONE_THREAD: [Event; 56] = [
    Listed(0, Some(0)),
    Listed(1, None),
    Gone(1),
    Full,
    Is(0, Status::Ready),
    Seen(0, 15, 0, 0),
    Stack(0, 0, u64::MAX),
    Stack(0, 1, 0),
    Stack(0, 2, 1 << 32),
    Stack(0, 6, 0),
    Stack(0, 1023, 0),
    Give(0, 1, M),
    Stand(0, Op::Acq, 1, 0, 0),
    Is(0, Status::Wants(1)),
    Choose(Some(3), 0, Some(0)),
    Act(0, Op::Acq, 1, 0, 0, Done::Went),
    Is(0, Status::Ready),
    Heap(1, 1),
    Seen(0, 1, M, 1),
    // Its own mutex again: nobody may go.
    Stand(0, Op::Acq, 1, 0, 0),
    Goes(0, false),
    Choose(None, 0, None),
    Choose(Some(0), 5, None),
    Stand(0, Op::Rel, 1, 0, 0),
    Is(0, Status::Ready),
    Act(0, Op::Rel, 1, 0, 0, Done::Went),
    Heap(1, 0),
    Act(0, Op::Rel, 1, 0, 0, Done::Jumped),
    Seen(0, 1, M, 40),
    // A mutex in the stack, whose holder is word 10.
    Give(0, 1, SLOT + 9),
    Act(0, Op::Acq, 1, 0, 0, Done::Went),
    Stack(0, 10, 1),
    Stack(0, 9, 0),
    Stack(0, 11, 0),
    Put(0, 10, 7),
    Stack(0, 10, 7),
    Stand(0, Op::Acq, 1, 0, 0),
    Goes(0, false),
    Put(0, 10, 0),
    Goes(0, true),
    // The only thread ends: nobody is left, and a new one takes its slot and finds zeros.
    Put(0, 2, M),
    Put(0, 1023, 9),
    Give(0, 7, 77),
    Act(0, Op::Endt, 7, 0, 0, Done::Went),
    Heap(2, 1),
    Heap(3, 77),
    Gone(0),
    Listed(0, None),
    Room,
    Choose(None, 0, None),
    Fork(1, SLOT),
    Full,
    Stack(1, 2, CELL),
    Stack(1, 10, 0),
    Stack(1, 1023, 0),
    Choose(None, 0, Some(1)),
];

// Every word that an instruction needs, where it can't be loaded or stored.
static TRAPS: [Event; 42] = [
    // Nothing is at 0: the thread may go, into a trap.
    Give(0, 1, 0),
    Stand(0, Op::Acq, 1, 0, 0),
    Goes(0, true),
    Act(0, Op::Acq, 1, 0, 0, Done::Trapped(2)),
    Is(0, Status::Wants(1)),
    Stand(0, Op::Join, 2, 1, 0),
    Is(0, Status::Joins(1, false)),
    Goes(0, true),
    Act(0, Op::Join, 2, 1, 0, Done::Trapped(2)),
    Stand(0, Op::Ajoin, 2, 1, 3),
    Is(0, Status::Joins(1, true)),
    Give(0, 3, 5),
    Act(0, Op::Ajoin, 2, 1, 3, Done::Trapped(2)),
    // AJOIN has written its answer before it traps.
    Seen(0, 3, 0, 0),
    Act(0, Op::Rel, 1, 0, 0, Done::Trapped(2)),
    Stand(0, Op::Wait, 1, 2, 0),
    Act(0, Op::Wait, 1, 2, 0, Done::Trapped(2)),
    Act(0, Op::Await, 1, 2, 3, Done::Trapped(2)),
    Act(0, Op::Alert, 1, 0, 0, Done::Trapped(2)),
    // A stack that no thread uses is outside.
    Give(0, 1, 2 * SLOT),
    Act(0, Op::Acq, 1, 0, 0, Done::Trapped(2)),
    Act(0, Op::Alert, 1, 0, 0, Done::Trapped(2)),
    // The word of the holder says that thread 0 holds, and can't be stored.
    Give(0, 1, HEAP + 62),
    Act(0, Op::Rel, 1, 0, 0, Done::Trapped(2)),
    Act(0, Op::Wait, 1, 2, 0, Done::Trapped(2)),
    Act(0, Op::Await, 1, 2, 3, Done::Trapped(2)),
    Heap(63, 1),
    Seen(0, 1, HEAP + 62, 0),
    // The state can't be stored.
    Give(0, 1, HEAP + 61),
    Act(0, Op::Join, 2, 1, 0, Done::Trapped(2)),
    Heap(63, 1),
    // The state is stored before the result, past the end of the stack, can't be loaded.
    Give(0, 1, SLOT + 1021),
    Put(0, 1023, 1),
    Act(0, Op::Join, 2, 1, 0, Done::Trapped(2)),
    Stack(0, 1023, 2),
    Act(0, Op::Join, 2, 1, 0, Done::Jumped),
    // ENDT: no frame, no place for the result, and one for the result but none for the state.
    Put(0, 2, 0),
    Act(0, Op::Endt, 1, 0, 0, Done::Trapped(2)),
    Put(0, 2, SLOT - 3),
    Act(0, Op::Endt, 1, 0, 0, Done::Trapped(2)),
    Stack(0, 0, SLOT + 1021),
    Listed(0, Some(0)),
];

// Four threads and their conditions.
static SLEEPERS: [Event; 77] = [
    Fork(1, 2 * SLOT),
    Fork(2, 3 * SLOT),
    Room,
    Fork(3, 4 * SLOT),
    Give(0, 1, M),
    Give(0, 2, C),
    Give(1, 1, M),
    Give(1, 2, C),
    Give(2, 1, M),
    Give(2, 2, C),
    Give(3, 1, M),
    Give(3, 2, C),
    // They fall asleep in the order 2, 1, 3.
    Act(2, Op::Acq, 1, 0, 0, Done::Went),
    Heap(1, 3),
    Act(2, Op::Wait, 1, 2, 0, Done::Slept),
    Is(2, Status::Waits(1, 2, 0, false)),
    Seen(2, 2, C, 8),
    Heap(1, 0),
    Act(1, Op::Acq, 1, 0, 0, Done::Went),
    Act(1, Op::Await, 1, 2, 5, Done::Slept),
    Is(1, Status::Waits(1, 2, 1, true)),
    Act(3, Op::Acq, 1, 0, 0, Done::Went),
    Act(3, Op::Wait, 1, 2, 0, Done::Slept),
    Is(3, Status::Waits(1, 2, 2, false)),
    Choose(Some(2), 3, Some(0)),
    Act(0, Op::Acq, 1, 0, 0, Done::Went),
    Act(0, Op::Sig, 2, 0, 0, Done::Went),
    // The one that is woken wants a mutex that is held.
    Is(2, Status::Wants(1)),
    Is(1, Status::Waits(1, 2, 1, true)),
    Is(3, Status::Waits(1, 2, 2, false)),
    Goes(2, false),
    Act(0, Op::Rel, 1, 0, 0, Done::Went),
    Goes(1, false),
    Goes(3, false),
    // The entry's, else the running one, else the lowest: 0 and 2 may go.
    Choose(Some(2), 0, Some(2)),
    Choose(Some(1), 0, Some(0)),
    Choose(None, 2, Some(2)),
    Choose(Some(3), 1, Some(0)),
    Choose(Some(9), 9, Some(0)),
    Act(2, Op::Wait, 1, 2, 0, Done::Went),
    Heap(1, 3),
    Seen(2, 2, C, 9),
    Act(2, Op::Wait, 1, 2, 0, Done::Slept),
    Is(2, Status::Waits(1, 2, 3, false)),
    // Another condition has no sleeper; a sleeper's condition is what its register holds now.
    Give(0, 3, C + 1),
    Act(0, Op::Sig, 3, 0, 0, Done::Went),
    Is(1, Status::Waits(1, 2, 1, true)),
    Give(3, 2, C + 1),
    Act(0, Op::Bca, 3, 0, 0, Done::Went),
    Is(3, Status::Wants(1)),
    Is(1, Status::Waits(1, 2, 1, true)),
    Is(2, Status::Waits(1, 2, 3, false)),
    // The signal goes to 1, which has slept longer than 2.
    Act(0, Op::Sig, 2, 0, 0, Done::Went),
    Is(1, Status::Wants(1)),
    Is(2, Status::Waits(1, 2, 3, false)),
    Act(1, Op::Await, 1, 2, 5, Done::Went),
    Seen(1, 5, 0, 9),
    Act(1, Op::Await, 1, 2, 5, Done::Slept),
    Is(1, Status::Waits(1, 2, 4, true)),
    Act(0, Op::Bca, 2, 0, 0, Done::Went),
    Is(1, Status::Wants(1)),
    Is(2, Status::Wants(1)),
    Goes(1, true),
    Goes(2, true),
    Goes(3, true),
    // A WAIT without the mutex jumps, and a signal that nobody waits for does nothing.
    Act(0, Op::Wait, 1, 2, 0, Done::Jumped),
    Act(0, Op::Await, 1, 2, 5, Done::Jumped),
    Seen(0, 5, 0, 40),
    Act(0, Op::Sig, 2, 0, 0, Done::Went),
    Act(0, Op::Bca, 2, 0, 0, Done::Went),
    Seen(0, 5, 0, 42),
    // All want the mutex that 3 holds, 3 too: nobody goes.
    Act(3, Op::Wait, 1, 2, 0, Done::Went),
    Choose(Some(2), 1, Some(0)),
    Stand(0, Op::Acq, 1, 0, 0),
    Choose(Some(2), 1, Some(3)),
    Stand(3, Op::Acq, 1, 0, 0),
    Choose(Some(2), 1, None),
];

// Two threads, their ends and their slots.
static JOINS: [Event; 46] = [
    Room,
    Fork(1, 2 * SLOT),
    Full,
    Seen(1, 0, 0, 7),
    Seen(1, 15, 0, 7),
    Is(1, Status::Ready),
    Stack(1, 0, u64::MAX),
    Stack(1, 1, 0),
    Stack(1, 2, CELL),
    Stack(1, 3, 0),
    Stack(1, 6, 55),
    Stack(1, 7, 0),
    Put(1, 3, 33),
    Stack(0, 3, 0),
    Give(0, 3, CELL),
    Stand(0, Op::Join, 4, 3, 0),
    Is(0, Status::Joins(3, false)),
    Goes(0, false),
    Choose(Some(0), 0, Some(1)),
    Give(1, 5, 99),
    Act(1, Op::Endt, 5, 0, 0, Done::Went),
    Listed(0, Some(0)),
    Listed(1, None),
    Gone(1),
    Heap(10, 1),
    Heap(11, 99),
    Goes(0, true),
    Act(0, Op::Join, 4, 3, 0, Done::Went),
    Heap(10, 2),
    Seen(0, 4, 99, 1),
    Stand(0, Op::Join, 4, 3, 0),
    Act(0, Op::Join, 4, 3, 0, Done::Jumped),
    Seen(0, 4, 99, 40),
    // The slot is used again, and the number is not.
    Fork(2, 2 * SLOT),
    Listed(1, Some(2)),
    Stack(2, 2, CELL),
    Stack(2, 3, 0),
    Full,
    // The main thread ends before the other, which goes on.
    Put(0, 2, M),
    Act(0, Op::Endt, 4, 0, 0, Done::Went),
    Listed(0, Some(2)),
    Choose(Some(0), 0, Some(2)),
    Fork(3, SLOT),
    Listed(1, Some(3)),
    Choose(None, 3, Some(3)),
    Choose(None, 0, Some(2)),
];

// Alerts of threads that sleep, that join and that run.
static ALERTS: [Event; 59] = [
    Fork(1, 2 * SLOT),
    Give(0, 3, CELL),
    Give(0, 2, C),
    Give(1, 1, M),
    Give(1, 2, C),
    Give(1, 3, CELL),
    // A plain WAIT doesn't look at the mark.
    Act(1, Op::Acq, 1, 0, 0, Done::Went),
    Act(1, Op::Wait, 1, 2, 0, Done::Slept),
    Act(0, Op::Alert, 3, 0, 0, Done::Went),
    Is(1, Status::Waits(1, 2, 0, false)),
    Goes(1, false),
    Act(0, Op::Sig, 2, 0, 0, Done::Went),
    Act(1, Op::Wait, 1, 2, 0, Done::Went),
    Act(1, Op::Talert, 4, 0, 0, Done::Went),
    Seen(1, 4, 1, 10),
    Act(1, Op::Talert, 4, 0, 0, Done::Went),
    Seen(1, 4, 0, 11),
    // AWAIT is ended by an alert, which is taken with the mutex.
    Act(1, Op::Await, 1, 2, 6, Done::Slept),
    Heap(1, 0),
    Act(0, Op::Alert, 3, 0, 0, Done::Went),
    Is(1, Status::Wants(1)),
    Act(0, Op::Sig, 2, 0, 0, Done::Went),
    Act(1, Op::Await, 1, 2, 6, Done::Went),
    Heap(1, 2),
    Seen(1, 6, 1, 12),
    Act(1, Op::Talert, 4, 0, 0, Done::Went),
    Seen(1, 4, 0, 13),
    // With the mark set AWAIT answers at once and keeps the mutex.
    Act(0, Op::Alert, 3, 0, 0, Done::Went),
    Give(1, 6, 0),
    Act(1, Op::Await, 1, 2, 6, Done::Went),
    Heap(1, 2),
    Seen(1, 6, 1, 14),
    // AJOIN of itself may go only with the mark set, and without it AJOIN is JOIN.
    Stand(1, Op::Ajoin, 4, 3, 6),
    Is(1, Status::Joins(3, true)),
    Goes(1, false),
    Act(0, Op::Alert, 3, 0, 0, Done::Went),
    Goes(1, true),
    Give(1, 4, 7),
    Act(1, Op::Ajoin, 4, 3, 6, Done::Went),
    Seen(1, 4, 0, 15),
    Seen(1, 6, 1, 15),
    Act(1, Op::Ajoin, 4, 3, 6, Done::Went),
    Heap(10, 2),
    Seen(1, 6, 0, 16),
    Act(1, Op::Ajoin, 4, 3, 6, Done::Jumped),
    Seen(1, 6, 0, 40),
    // A plain JOIN doesn't look at the mark.
    Fork(2, 3 * SLOT),
    Give(2, 3, M + 16),
    Stand(2, Op::Join, 4, 3, 0),
    Give(0, 8, M + 20),
    Act(0, Op::Alert, 8, 0, 0, Done::Went),
    Goes(2, false),
    // Thread 0 is marked by that alert, since the cell holds 0; an alert of nobody does nothing.
    Act(0, Op::Talert, 4, 0, 0, Done::Went),
    Seen(0, 4, 1, 8),
    Act(1, Op::Endt, 4, 0, 0, Done::Went),
    Act(0, Op::Alert, 3, 0, 0, Done::Went),
    Act(0, Op::Talert, 4, 0, 0, Done::Went),
    Seen(0, 4, 0, 10),
    Gone(1),
];

// Sixty-four threads, once they are there.
static SIXTY_FOUR: [Event; 25] = [
    Full,
    Listed(63, Some(63)),
    Listed(64, None),
    Put(40, 9, 4),
    Put(41, 9, 5),
    Stack(40, 9, 4),
    Stack(41, 9, 5),
    Stack(42, 9, 0),
    Act(40, Op::Endt, 5, 0, 0, Done::Went),
    Act(5, Op::Endt, 5, 0, 0, Done::Went),
    Gone(40),
    Room,
    Listed(5, Some(6)),
    Listed(61, Some(63)),
    Listed(62, None),
    Choose(Some(63), 0, Some(63)),
    Choose(Some(40), 5, Some(0)),
    Fork(64, 6 * SLOT),
    Fork(65, 41 * SLOT),
    Stack(65, 9, 0),
    Stack(41, 9, 5),
    Listed(61, Some(63)),
    Listed(62, Some(64)),
    Listed(63, Some(65)),
    Full,
];

// Plays a history from the start, with so many threads allowed.
fn history(rt: &impl Abort, alloc: Global, threads: u32, events: &[Event]) -> Result<(), Fail>
    requires some { 1 ≤ threads }
    requires few { threads ≤ 64 }
    requires short { length events.now < 1000 }
{
    let mut all = Threads::new(alloc, threads, 1024)?;
    let mut mem = heap();
    play(rt, &mut all, &mut mem, events);
    Ok(())
}

#[test]
fn histories(rt: HostRuntime) -> Result<(), Fail> {
    history(&rt, rt.alloc(), 1, &ONE_THREAD)?;
    history(&rt, rt.alloc(), 2, &TRAPS)?;
    history(&rt, rt.alloc(), 4, &SLEEPERS)?;
    history(&rt, rt.alloc(), 2, &JOINS)?;
    history(&rt, rt.alloc(), 3, &ALERTS)
}

#[test]
fn sixty_four(rt: HostRuntime) -> Result<(), Fail> {
    let mut all = Threads::new(rt.alloc(), 64, 1024)?;
    let mut mem = heap();
    let mut forks = [Full; 64];
    for k in 1..64 {
        forks[k] = Fork(k as u64, SLOT * (k as u64 + 1));
    }
    play(&rt, &mut all, &mut mem, &forks[1..]);
    play(&rt, &mut all, &mut mem, &SIXTY_FOUR);
    Ok(())
}

#[test]
fn written_words(rt: HostRuntime) -> Result<(), Fail> {
    let mut all = Threads::new(rt.alloc(), 1, 1024)?;
    assert!(&rt; all.regs_mut(1).is_none());
    put(&rt, &mut all, 0, 5, 50);
    for (k, word) in [(5, Some(50)), (1023, Some(0)), (1024, None)] {
        expect(&rt, stack_word(&all, 0, k), word, &k);
    }
    Ok(())
}
