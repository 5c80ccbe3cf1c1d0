use crate::list::base_of_slot;
use m3_isa::Regs;

/// What a thread waits for, if anything. A register holds the mutex, the condition or the thread
/// cell; the number is the place in the queues of the conditions, and the flag tells whether an
/// alert ends it.
#[derive(Clone, Copy, Debug, PartialEq, Eq)]
pub enum Status {
    Ready,
    Wants(u8),
    Waits(u8, u8, u64, bool),
    Joins(u8, bool),
}

/// A thread that has not ended: its number, which is never used again, the slot of its stack, its
/// registers, what it waits for, and its alert mark.
#[derive(Clone, Copy, PartialEq, Eq)]
pub struct Thread {
    pub number: u64,
    pub slot: u32,
    pub regs: Regs,
    pub status: Status,
    pub alerted: bool,
}

impl Thread {
    ghost use Rattle.std.specs.Prelude.{◌≡◌, ◌<◌};
    ghost use Rattle.m3_isa.specs.Effects.{reg};
    ghost use Rattle.m3_threads.specs.All.{queue_place, NamesRegisters};
    ghost use Rattle.m3_threads.specs.Going.{with_status};
    ghost use Rattle.m3_threads.specs.Actions.{gone_on, jumped_to, asleep, given, alert_cleared, alert_marked, woken, sleeps_on, started};

    /// The content of a register.
    pub(crate) fn register(&self, n: u8) -> u64
        requires { n < 16 }
        ensures { result ≡ reg self.now.regs n }
    {
        self.regs.r[n as usize]
    }

    /// The thread at the next instruction.
    pub(crate) fn gone_on(self) -> Thread
        ensures { result ≡ gone_on self }
    {
        let mut regs = self.regs;
        regs.pc = regs.pc.wrapping_add(1);
        Thread {
            regs,
            status: Status::Ready,
            ..self
        }
    }

    /// The thread at the instruction that a jump names.
    pub(crate) fn jumped(self, target: i32) -> Thread
        ensures { result ≡ jumped_to target self }
    {
        let mut regs = self.regs;
        regs.pc = target.cast_unsigned();
        Thread {
            regs,
            status: Status::Ready,
            ..self
        }
    }

    /// The thread asleep.
    pub(crate) fn asleep(self, mutex: u8, condition: u8, place: u64, alertable: bool) -> Thread
        ensures { result ≡ asleep mutex condition place alertable self }
    {
        Thread {
            status: Status::Waits(mutex, condition, place, alertable),
            ..self
        }
    }

    /// The thread with a word in a register.
    pub(crate) fn given(self, a: u8, word: u64) -> Thread
        requires { a < 16 }
        ensures { result ≡ given a word self }
    {
        let mut regs = self.regs;
        regs.r[a as usize] = word;
        Thread { regs, ..self }
    }

    /// The thread with its alert mark cleared.
    pub(crate) fn unmarked(self) -> Thread
        ensures { result ≡ alert_cleared self }
    {
        Thread {
            alerted: false,
            ..self
        }
    }

    /// The thread once it is alerted.
    pub(crate) fn marked(self) -> Thread
        ensures { result ≡ alert_marked self }
    {
        let status = match self.status {
            Status::Waits(mutex, _, _, true) => Status::Wants(mutex),
            status => status,
        };
        Thread {
            alerted: true,
            status,
            ..self
        }
    }

    /// The thread once it is woken.
    pub(crate) fn woken(self) -> Thread
        ensures { result ≡ woken self }
    {
        let status = match self.status {
            Status::Waits(mutex, _, _, _) => Status::Wants(mutex),
            status => status,
        };
        Thread { status, ..self }
    }

    /// Whether the thread sleeps on a condition.
    pub(crate) fn sleeps_on(&self, condition: u64) -> bool
        requires { NamesRegisters self.now.status }
        ensures { result ≡ sleeps_on condition self.now }
    {
        match self.status {
            Status::Waits(_, register, _, _) => self.register(register) == condition,
            _ => false,
        }
    }

    /// The place in the queues of the conditions.
    pub(crate) fn queue_place(&self) -> u64
        ensures { result ≡ queue_place self.now }
    {
        match self.status {
            Status::Waits(_, _, place, _) => place,
            _ => 0,
        }
    }

    /// The thread with a status.
    pub(crate) fn standing(self, status: Status) -> Thread
        ensures { result ≡ with_status status self }
    {
        Thread { status, ..self }
    }

    /// A thread that starts.
    pub(crate) fn started(number: u64, slot: u32, first: u32) -> Thread
        requires { slot < 64 }
        ensures { result ≡ started number slot first }
    {
        Thread {
            number,
            slot,
            regs: Regs {
                r: [0; 16],
                pc: first,
                fp: base_of_slot(slot),
            },
            status: Status::Ready,
            alerted: false,
        }
    }
}
