use crate::stepping::{start_body, step};
use m3_base::{FaultKind, Pos};
use m3_mid::{Operand, Proc, Raised};
use m3_mid_memory::{Memory, STALE, Word};
use std::alloc::{AllocError, Global};

/// A type of cells as an image has it: a cell of a fixed size has so many words with its header,
/// and an open one so many an element. Each method is 0, or 3 more than the number of its
/// procedure.
#[derive(Clone, Copy)]
pub struct CellType<'a> {
    pub parent: Option<u32>,
    pub words: u64,
    pub dims: u32,
    pub methods: &'a [u32],
}

/// A program whose procedures are middle code.
#[derive(Clone, Copy)]
pub struct Program<'a> {
    pub procs: &'a [Proc<'a>],
    /// The module bodies in the order in which they run.
    pub order: &'a [u32],
    pub global_words: u32,
    pub types: &'a [CellType<'a>],
    /// The words of all constants, in which the address of a text is 2^50 more than its first
    /// word.
    pub constants: &'a [u64],
    /// The first word of each text, and of each other constant.
    pub texts: &'a [u32],
    pub values: &'a [u32],
}

/// Why a run is over.
#[derive(Clone, Copy)]
pub enum Stop {
    Done,
    Fault(FaultKind, Pos),
    /// An exception that nobody handled: its place in the program's list.
    Uncaught(u32),
    Deadlock,
    /// The program wants a second thread.
    Threads,
    /// It took more steps than it might.
    Spent,
    /// The code does what isn't defined.
    Stuck(&'static str),
    NoMemory,
}

/// What a run gave.
#[derive(Drop)]
pub struct Ending {
    pub stop: Stop,
    pub output: Vec<u8>,
    pub points: u64,
}

/// An activation: its procedure, its next operation, its frame and its temporaries, and where its
/// caller wants the result and an exception.
#[derive(Drop)]
pub(crate) struct Activation {
    pub procedure: u32,
    pub block: u32,
    pub op: u32,
    pub frame: Word,
    pub temps: Vec<Word>,
    pub result: Option<u32>,
    pub raised: Option<Raised>,
}

/// All that a run changes, without the code. It keeps why the run is over; from then on the words
/// that it gives mean nothing, and it neither puts anything nor passes a point.
#[derive(Drop)]
pub(crate) struct Machine<'a> {
    pub alloc: Global,
    pub types: &'a [CellType<'a>],
    pub texts: &'a [u32],
    pub values: &'a [u32],
    pub memory: Memory<'a>,
    pub stack: Vec<Activation>,
    pub input: &'a [u8],
    pub output: Vec<u8>,
    pub points: u64,
    pub is_alerted: bool,
    stop: Option<Stop>,
}

/// Runs a program for at most so many steps.
pub fn run<'a>(alloc: Global, program: Program<'a>, input: &'a [u8], steps: u64) -> Ending {
    let memory = match Memory::new(alloc, program.global_words, program.constants) {
        Ok(memory) => memory,
        Err(_) => {
            return Ending {
                stop: Stop::NoMemory,
                output: Vec::new(alloc),
                points: 0,
            };
        }
    };
    let mut machine = Machine {
        alloc,
        types: program.types,
        texts: program.texts,
        values: program.values,
        memory,
        stack: Vec::new(alloc),
        input,
        output: Vec::new(alloc),
        points: 0,
        is_alerted: false,
        stop: None,
    };
    run_all(&mut machine, program.procs, program.order, steps);
    let Machine {
        output,
        points,
        stop,
        ..
    } = machine;
    Ending {
        stop: stop.unwrap_or(Stop::Done),
        output,
        points,
    }
}

/// Runs the module bodies one after the other.
fn run_all(machine: &mut Machine<'_>, procs: &[Proc<'_>], order: &[u32], steps: u64) {
    for body in order {
        machine.points = machine.points.saturating_add(1);
        start_body(machine, procs, *body);
        run_body(machine, procs, steps);
        if machine.is_over() {
            return;
        }
    }
}

fn run_body(machine: &mut Machine<'_>, procs: &[Proc<'_>], steps: u64) {
    for _ in 0..steps {
        if machine.is_over() || machine.stack.is_empty() {
            return;
        }
        step(machine, procs);
    }
    machine.fail(Stop::Spent);
}

impl<'a> Machine<'a> {
    /// Ends the run, unless it is over already.
    pub(crate) fn fail(&mut self, stop: Stop) {
        if self.stop.is_none() {
            self.stop = Some(stop);
        }
    }

    /// Ends the run, since the code does what isn't defined.
    pub(crate) fn stick(&mut self, why: &'static str) {
        self.fail(Stop::Stuck(why));
    }

    /// Whether the run is over.
    pub(crate) fn is_over(&self) -> bool {
        self.stop.is_some()
    }

    /// The frame of the newest activation.
    pub(crate) fn frame(&mut self) -> Word {
        match self.stack.last() {
            Some(top) => top.frame,
            None => {
                self.stick("no activation");
                Word::number(0)
            }
        }
    }

    /// The procedure, block and operation where the newest activation goes on.
    pub(crate) fn next(&mut self) -> (u32, u32, u32) {
        match self.stack.last() {
            Some(top) => (top.procedure, top.block, top.op),
            None => {
                self.stick("no activation");
                (0, 0, 0)
            }
        }
    }

    /// The newest activation goes on at an operation of a block.
    pub(crate) fn go_on(&mut self, block: u32, op: u32) {
        if let Some(top) = self.stack.last_mut() {
            top.block = block;
            top.op = op;
        }
    }

    fn temp_of_top(&self, temp: u32) -> Option<Word> {
        let top = self.stack.last()?;
        top.temps.get(temp as usize).copied()
    }

    /// The word of a temporary.
    pub(crate) fn temp(&mut self, temp: u32) -> Word {
        match self.temp_of_top(temp) {
            Some(word) if word != STALE => return word,
            Some(_) => self.stick("a word that a collection may change"),
            None => self.stick("no such temporary"),
        }
        Word::number(0)
    }

    pub(crate) fn set(&mut self, temp: u32, word: Word) {
        if let Some(top) = self.stack.last_mut()
            && let Some(old) = top.temps.get_mut(temp as usize)
        {
            *old = word;
        } else {
            self.stick("no such temporary");
        }
    }

    pub(crate) fn set_number(&mut self, temp: u32, number: u64) {
        self.set(temp, Word::number(number));
    }

    pub(crate) fn operand(&mut self, operand: Operand) -> Word {
        match operand {
            Operand::Temp(temp) => self.temp(temp),
            Operand::Number(number) => Word::number(number.cast_unsigned()),
        }
    }

    /// The number that an operand is.
    pub(crate) fn number(&mut self, operand: Operand) -> u64 {
        let word = self.operand(operand);
        self.number_of(word)
    }

    /// The number that a word is.
    pub(crate) fn number_of(&mut self, word: Word) -> u64 {
        if word.as_number().is_none() {
            self.stick("a pointer in place of a number");
        }
        word.distance
    }

    /// The word at an address.
    pub(crate) fn load(&mut self, at: Word) -> Word {
        match self.memory.load(at) {
            Some(word) => word,
            None => {
                self.stick("a load from nowhere");
                Word::number(0)
            }
        }
    }

    pub(crate) fn store(&mut self, at: Word, word: Word) {
        if !self.memory.store(at, word) {
            self.stick("a store to nowhere");
        }
    }

    /// The address of a slot.
    pub(crate) fn slot(&mut self, slot: u32) -> Word {
        self.frame().further(u64::from(slot).wrapping_add(3))
    }

    /// The start of a part of memory that was made, if there was room for it.
    pub(crate) fn made(&mut self, part: Result<u32, AllocError>) -> Word {
        match part {
            Ok(part) => Word::start(part),
            Err(_) => {
                self.fail(Stop::NoMemory);
                Word::number(0)
            }
        }
    }

    /// The type of the cell that begins at an address; where there is none, the run is over.
    pub(crate) fn type_of(&mut self, cell: Word, why: &'static str) -> u32 {
        match self.memory.cell_type(cell) {
            Some(kind) => kind,
            None => {
                self.stick(why);
                0
            }
        }
    }

    /// What a method of a type of cells is.
    pub(crate) fn method(&mut self, kind: u32, method: u32) -> u32 {
        if let Some(kind) = self.types.get(kind as usize)
            && let Some(code) = kind.methods.get(method as usize)
        {
            return *code;
        }
        self.stick("no such method");
        0
    }
}
