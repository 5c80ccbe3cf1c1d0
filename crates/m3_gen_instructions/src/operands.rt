use crate::emitter::{Content, Emitter};
use m3_base::NoMemory;
use m3_isa::Op;
use m3_mid::Operand;
use m3_tables::Location;

/// The lower and the upper 32 bits of a number, each as the signed number that an instruction
/// holds.
fn halves_of(value: i64) -> (i32, i32) {
    let bytes = value.to_le_bytes();
    let low = i32::from_le_bytes([bytes[0], bytes[1], bytes[2], bytes[3]]);
    let high = i32::from_le_bytes([bytes[4], bytes[5], bytes[6], bytes[7]]);
    (low, high)
}

/// Where the result of an operation goes: into a register, and from there to a word of the frame
/// where that is its place.
#[derive(Clone, Copy)]
pub struct Goal {
    pub register: u8,
    pub word: Option<u32>,
    /// What the register holds then.
    pub content: Content,
}

impl<'a> Emitter<'a> {
    /// Puts a number into a register.
    pub fn put_number(&mut self, register: u8, value: i64) -> Result<(), NoMemory> {
        if let Ok(imm) = i32::try_from(value) {
            return self.put_imm(Op::Li, register, 0, imm);
        }
        let (low, high) = halves_of(value);
        self.put_imm(Op::Li, register, 0, low)?;
        self.put_imm(Op::Lih, register, 0, high)
    }

    /// A register that holds a number.
    pub fn number(&mut self, value: i64) -> Result<u8, NoMemory> {
        self.demand(Content::Number(value))
    }

    /// A register that holds a temporary.
    pub fn temp(&mut self, temp: u32) -> Result<u8, NoMemory> {
        match self.place_of(temp) {
            Location::Register(register) => Ok(register),
            Location::Slot(word) => self.demand(self.content_of(temp, word)),
        }
    }

    /// A register that holds a temporary: that of the temporary, or one above those of temporaries.
    pub fn high_temp(&mut self, temp: u32) -> Result<u8, NoMemory> {
        match self.place_of(temp) {
            Location::Register(register) => Ok(register),
            Location::Slot(word) => {
                let content = self.content_of(temp, word);
                if let Some(register) = self.find_high(content) {
                    return Ok(register);
                }
                let register = self.high_scratch()?;
                self.put_content(register, content)?;
                Ok(register)
            }
        }
    }

    /// A register that holds an operand.
    pub fn operand(&mut self, operand: Operand) -> Result<u8, NoMemory> {
        match operand {
            Operand::Temp(temp) => self.temp(temp),
            Operand::Number(value) => self.number(value),
        }
    }

    /// A register that holds the address of the first global word.
    pub fn globals(&mut self) -> Result<u8, NoMemory> {
        self.demand(Content::Globals)
    }

    /// Puts an operand into one register, whatever that held.
    pub fn load_into(&mut self, register: u8, operand: Operand) -> Result<(), NoMemory> {
        match operand {
            Operand::Number(value) => self.put_number(register, value),
            Operand::Temp(temp) => match self.place_of(temp) {
                Location::Register(from) => self.move_into(register, from),
                Location::Slot(word) => match self.find(self.content_of(temp, word)) {
                    Some(from) => self.move_into(register, from),
                    None => self.put_word(Op::Lds, register, word),
                },
            },
        }
    }

    pub fn move_into(&mut self, to: u8, from: u8) -> Result<(), NoMemory> {
        if to == from {
            Ok(())
        } else {
            self.put_abc(Op::Move, to, from, 0)
        }
    }

    /// The register in which the result for a temporary is to come about, by one instruction, which
    /// reads all its registers before.
    pub fn goal(&mut self, to: u32) -> Result<Goal, NoMemory> {
        match self.place_of(to) {
            Location::Register(register) => Ok(Goal {
                register,
                word: None,
                content: Content::Nothing,
            }),
            Location::Slot(word) => Ok(Goal {
                register: self.scratch()?,
                word: Some(word),
                content: self.content_of(to, word),
            }),
        }
    }

    /// Brings a result to its place.
    pub fn settle(&mut self, goal: Goal) -> Result<(), NoMemory> {
        if let Some(word) = goal.word {
            self.put_word(Op::Sts, goal.register, word)?;
            self.forget_word(word)?;
            self.note(goal.register, goal.content);
        }
        Ok(())
    }

    /// Gives a temporary the word of a register, which may be that of another temporary.
    pub fn give(&mut self, to: u32, from: u8) -> Result<(), NoMemory> {
        match self.place_of(to) {
            Location::Register(register) => self.move_into(register, from),
            Location::Slot(word) => {
                self.put_word(Op::Sts, from, word)?;
                self.forget_word(word)?;
                self.note_copy(from, self.content_of(to, word));
                Ok(())
            }
        }
    }
}
