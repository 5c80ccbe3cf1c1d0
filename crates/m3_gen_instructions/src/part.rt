use m3_base::{NoMemory, place_number};
use m3_isa::Op;
use std::alloc::Global;
use std::collections::BTreeMap;

/// What a procedure's code has to know of the program.
#[derive(Clone, Copy)]
pub struct Links<'a> {
    /// Where the constants begin among the words of the image's constants.
    pub constants: &'a [u32],
    /// Where the cells of the texts begin there.
    pub texts: &'a [u32],
    /// Whether nobody looks for an exception behind a call of the procedure.
    pub is_quiet: bool,
}

/// The places that faults name: a file and a line, each once.
#[derive(Drop)]
pub struct Places {
    list: Vec<(u32, u32)>,
    numbers: BTreeMap<(u32, u32), u32>,
}

impl Places {
    pub fn new(alloc: Global) -> Places {
        Places {
            list: Vec::new(alloc),
            numbers: BTreeMap::new(alloc),
        }
    }

    /// The number of a place.
    pub fn number(&mut self, file: u32, line: u32) -> Result<u32, NoMemory> {
        if let Some(number) = self.numbers.get(&(file, line)) {
            return Ok(*number);
        }
        let number = place_number(self.list.len())?;
        self.list.push((file, line))?;
        self.numbers.insert((file, line), number)?;
        Ok(number)
    }

    /// The places in the order of their numbers.
    pub fn list(&self) -> &[(u32, u32)] {
        &self.list
    }
}

/// Whether an instruction may go to `imm`.
pub fn goes_to_imm(op: Op) -> bool {
    matches!(
        op,
        Op::Addo
            | Op::Subo
            | Op::Mulo
            | Op::Divf
            | Op::Modf
            | Op::Divu
            | Op::Modu
            | Op::Jmp
            | Op::Bz
            | Op::Bnz
            | Op::Blt
            | Op::Bltu
            | Op::Beq
            | Op::Join
            | Op::Rel
            | Op::Wait
            | Op::Await
            | Op::Ajoin
            | Op::Getc
    )
}
