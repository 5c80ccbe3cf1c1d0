use crate::part::Links;
use m3_alloc::Placed;
use m3_base::{NoMemory, gap, place_number};
use m3_isa::{Instr, Op};
use m3_mid::Kind;
use m3_tables::Location;
use std::alloc::Global;

/// What a register that no temporary has holds, beside what is being computed.
#[derive(Clone, Copy, PartialEq, Eq)]
pub enum Content {
    Nothing,
    /// The word of the frame that a temporary has as its place, which holds a pointer.
    Pointer(u32),
    /// Such a word that holds none.
    Word(u32),
    Number(i64),
    /// The address of the first global word.
    Globals,
}

/// How many registers there are.
const COUNT: usize = 16;

/// What each register holds.
pub type Contents = [Content; COUNT];

/// Nothing is known of any register.
pub const NOTHING: Contents = [Content::Nothing; COUNT];

/// What is known where two ways meet: what is known on both.
pub fn meet(known: Contents, other: Contents) -> Contents {
    let mut both = known;
    for (item, content) in both.iter_mut().zip(other.iter()) {
        if *item != *content {
            *item = Content::Nothing;
        }
    }
    both
}

/// What had to be put into a register in a block.
#[derive(Clone, Copy, PartialEq, Eq)]
pub struct Demand {
    pub block: u32,
    pub content: Content,
}

/// Where a jump goes.
#[derive(Clone, Copy)]
pub enum Target {
    Block(u32),
    Stub(u32),
}

/// The address of a word that the next operation alone loads or stores: instead of the temporary it
/// takes a register and the distance from there to the word.
#[derive(Clone, Copy)]
pub struct Fold {
    pub temp: u32,
    pub register: u8,
    pub offset: i32,
}

/// Code in the making.
#[derive(Drop)]
pub struct Emitter<'a> {
    pub alloc: Global,
    pub placed: &'a Placed<'a>,
    pub links: Links<'a>,
    pub code: Vec<Instr>,
    pub contents: Contents,
    /// Whether a register may be overwritten in the block at hand.
    pub pool: [bool; COUNT],
    /// Whether the operation at hand needs what a register holds.
    pub pins: [bool; COUNT],
    /// The place among `ORDER` of the register that is overwritten next.
    pub turn: usize,
    pub fold: Option<Fold>,
    /// By temporary, how often it is used.
    pub counts: Vec<u32>,
    /// By temporary, what is to be added to the address that its place holds.
    pub shifts: Vec<i32>,
    /// The block at hand.
    pub block: u32,
    pub demands: Vec<Demand>,
    /// The words of the frame that blocks set.
    pub settings: Vec<(u32, u32)>,
    pub jumps: Vec<(u32, Target)>,
    /// The faults at the end of the code: kind and place.
    pub stubs: Vec<(u8, u32)>,
}

/// A number of words, instructions, types or methods as an instruction holds it. What has more than
/// 2^31 of them fits in no memory.
pub fn imm_of(number: u32) -> Result<i32, NoMemory> {
    match i32::try_from(number) {
        Ok(imm) => Ok(imm),
        Err(_) => Err(NoMemory),
    }
}

/// The first register that no temporary has anywhere.
pub const FIRST: u8 = 12;

/// The registers in the order in which they are taken for what is being computed.
const ORDER: [u8; COUNT] = [12, 13, 14, 15, 11, 10, 9, 8, 7, 6, 5, 4, 3, 2, 1, 0];

/// The registers that no temporary has anywhere.
const HIGHEST: [u8; 4] = [12, 13, 14, 15];

impl<'a> Emitter<'a> {
    /// No code yet, for a procedure whose temporaries are used so often, and whose addresses are
    /// kept less these shifts.
    pub fn new(
        alloc: Global,
        placed: &'a Placed<'a>,
        links: Links<'a>,
        counts: Vec<u32>,
        shifts: Vec<i32>,
    ) -> Emitter<'a> {
        let mut emitter = Emitter {
            alloc,
            placed,
            links,
            code: Vec::new(alloc),
            contents: NOTHING,
            pool: [false; COUNT],
            pins: [false; COUNT],
            turn: 0,
            fold: None,
            counts,
            shifts,
            block: 0,
            demands: Vec::new(alloc),
            settings: Vec::new(alloc),
            jumps: Vec::new(alloc),
            stubs: Vec::new(alloc),
        };
        emitter.begin_block(0, u64::MAX, NOTHING);
        emitter
    }

    pub fn put(&mut self, instr: Instr) -> Result<(), NoMemory> {
        self.code.push(instr)?;
        Ok(())
    }

    pub fn put_abc(&mut self, op: Op, a: u8, b: u8, c: u8) -> Result<(), NoMemory> {
        self.put(Instr {
            op,
            a,
            b,
            c,
            imm: 0,
        })
    }

    pub fn put_imm(&mut self, op: Op, a: u8, b: u8, imm: i32) -> Result<(), NoMemory> {
        self.put(Instr {
            op,
            a,
            b,
            c: 0,
            imm,
        })
    }

    /// An instruction with a word of the frame.
    pub fn put_word(&mut self, op: Op, a: u8, word: u32) -> Result<(), NoMemory> {
        let imm = imm_of(word)?;
        self.put_imm(op, a, 0, imm)
    }

    /// The number of the next instruction.
    pub fn here(&self) -> Result<u32, NoMemory> {
        place_number(self.code.len())
    }

    /// The next instruction, which may go to a target.
    pub fn put_jump(&mut self, instr: Instr, target: Target) -> Result<(), NoMemory> {
        let at = self.here()?;
        self.jumps.push((at, target))?;
        self.put(instr)
    }

    /// The target at which a fault ends the run.
    pub fn stub(&mut self, kind: u8, place: u32) -> Result<Target, NoMemory> {
        if let Some(last) = self.stubs.last()
            && *last == (kind, place)
        {
            return Ok(Target::Stub(place_number(self.stubs.len().saturating_sub(1))?));
        }
        let number = place_number(self.stubs.len())?;
        self.stubs.push((kind, place))?;
        Ok(Target::Stub(number))
    }

    pub fn place_of(&self, temp: u32) -> Location {
        self.placed
            .places
            .get(temp as usize)
            .copied()
            .unwrap_or(Location::Register(0))
    }

    pub fn kind_of(&self, temp: u32) -> Kind {
        let placed = self.placed;
        let temps = placed.derived.proc.temps;
        temps.get(temp as usize).copied().unwrap_or(Kind::Number)
    }

    /// What is to be added to the address that a temporary's place holds.
    pub fn shift_of(&self, temp: u32) -> i32 {
        self.shifts.get(temp as usize).copied().unwrap_or(0)
    }

    fn content(&self, register: u8) -> Content {
        self.contents
            .get(register as usize)
            .copied()
            .unwrap_or(Content::Nothing)
    }

    fn is_in_pool(&self, register: u8) -> bool {
        self.pool.get(register as usize).copied().unwrap_or(false)
    }

    fn set_pool(&mut self, register: u8, is_in_pool: bool) {
        if let Some(item) = self.pool.get_mut(register as usize) {
            *item = is_in_pool;
        }
    }

    fn is_pinned(&self, register: u8) -> bool {
        self.pins.get(register as usize).copied().unwrap_or(true)
    }

    fn set_pin(&mut self, register: u8, is_pinned: bool) {
        if let Some(pin) = self.pins.get_mut(register as usize) {
            *pin = is_pinned;
        }
    }

    /// Keeps what a register holds for the operation at hand.
    pub fn pin_register(&mut self, register: u8) {
        self.set_pin(register, true);
    }

    /// What a register holds isn't needed any more.
    pub fn unpin_register(&mut self, register: u8) {
        self.set_pin(register, false);
    }

    /// Lets go what the operation before needed.
    pub fn unpin(&mut self) {
        self.pins = [false; COUNT];
    }

    /// Says what a register holds from now on.
    pub fn note(&mut self, register: u8, content: Content) {
        if let Some(item) = self.contents.get_mut(register as usize) {
            *item = content;
        }
    }

    /// Says what a register holds from now on, if no temporary has it.
    pub fn note_copy(&mut self, register: u8, content: Content) {
        if self.is_in_pool(register) {
            self.note(register, content);
        }
    }

    /// The register from one on that holds this already.
    fn find_from(&mut self, first: u8, content: Content) -> Option<u8> {
        for register in first..16 {
            if self.content(register) == content {
                self.pin_register(register);
                return Some(register);
            }
        }
        None
    }

    /// The register that holds this already.
    pub fn find(&mut self, content: Content) -> Option<u8> {
        self.find_from(0, content)
    }

    /// The register above those of temporaries that holds this already.
    pub fn find_high(&mut self, content: Content) -> Option<u8> {
        self.find_from(FIRST, content)
    }

    fn is_free(&self, register: u8) -> bool {
        self.is_in_pool(register) && !self.is_pinned(register)
    }

    /// One of some registers that may be overwritten: an empty one where there is one, else the next
    /// in turn.
    fn free_register(&self, order: &[u8]) -> Option<u8> {
        for register in order {
            if self.is_free(*register) && self.content(*register) == Content::Nothing {
                return Some(*register);
            }
        }
        for register in order.iter().skip(self.turn) {
            if self.is_free(*register) {
                return Some(*register);
            }
        }
        for register in order {
            if self.is_free(*register) {
                return Some(*register);
            }
        }
        None
    }

    fn take_register(&mut self, order: &[u8]) -> Result<u8, NoMemory> {
        // no operation needs more than four at once
        let register = self.free_register(order).ok_or(gap())?;
        self.note(register, Content::Nothing);
        self.pin_register(register);
        for (at, item) in order.iter().enumerate() {
            if *item == register {
                self.turn = at.saturating_add(1);
            }
        }
        Ok(register)
    }

    /// A register for what is being computed.
    pub fn scratch(&mut self) -> Result<u8, NoMemory> {
        self.take_register(&ORDER)
    }

    /// A register above those of temporaries.
    pub fn high_scratch(&mut self) -> Result<u8, NoMemory> {
        self.take_register(&HIGHEST)
    }

    /// Begins a block: which registers its temporaries have, and what is known of the others.
    pub fn begin_block(&mut self, block: u32, busy: u64, known: Contents) {
        self.block = block;
        self.contents = known;
        for register in 0..16u8 {
            let is_busy = register < 12 && busy & (1u64 << register) != 0;
            if is_busy {
                self.note(register, Content::Nothing);
            }
            self.set_pool(register, !is_busy);
        }
    }

    /// Forgets everything that registers hold.
    pub fn forget_all(&mut self) {
        self.contents = NOTHING;
    }

    /// Forgets the pointers that words of the frame hold, since a collector may have changed them.
    pub fn forget_pointers(&mut self) {
        for item in self.contents.iter_mut() {
            if let Content::Pointer(_) = *item {
                *item = Content::Nothing;
            }
        }
    }

    /// Forgets what a word of the frame held, which is set now.
    pub fn forget_word(&mut self, word: u32) -> Result<(), NoMemory> {
        for item in self.contents.iter_mut() {
            if *item == Content::Word(word) || *item == Content::Pointer(word) {
                *item = Content::Nothing;
            }
        }
        self.settings.push((self.block, word))?;
        Ok(())
    }

    /// What a register holds that is a copy of a temporary's word.
    pub fn content_of(&self, temp: u32, word: u32) -> Content {
        if self.kind_of(temp) == Kind::Number {
            Content::Word(word)
        } else {
            Content::Pointer(word)
        }
    }

    /// Keeps something in a register over the block at hand.
    pub fn keep(&mut self, register: u8, content: Content) {
        self.note(register, content);
        self.set_pool(register, false);
    }

    /// Puts something into a register.
    pub fn put_content(&mut self, register: u8, content: Content) -> Result<(), NoMemory> {
        match content {
            Content::Number(value) => self.put_number(register, value)?,
            Content::Globals => self.put_imm(Op::Glb, register, 0, 0)?,
            Content::Word(word) | Content::Pointer(word) => self.put_word(Op::Lds, register, word)?,
            Content::Nothing => {}
        }
        self.note(register, content);
        Ok(())
    }

    /// A register that holds something.
    pub fn demand(&mut self, content: Content) -> Result<u8, NoMemory> {
        if let Some(register) = self.find(content) {
            return Ok(register);
        }
        let register = self.scratch()?;
        self.put_content(register, content)?;
        self.demands.push(Demand {
            block: self.block,
            content,
        })?;
        Ok(register)
    }

    /// The code.
    pub fn into_code(self) -> Vec<Instr> {
        let Emitter {
            alloc: _,
            placed: _,
            links: _,
            code,
            contents: _,
            pool: _,
            pins: _,
            turn: _,
            fold: _,
            counts: _,
            shifts: _,
            block: _,
            demands: _,
            settings: _,
            jumps: _,
            stubs: _,
        } = self;
        code
    }
}
