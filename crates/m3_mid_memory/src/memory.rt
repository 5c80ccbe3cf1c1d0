use std::alloc::{AllocError, Global};

/// A word: how far it is from the start of a part of memory, less the start of another one, modulo
/// 2^64. Part 0 is none, so a number is a distance from it.
#[derive(Clone, Copy, PartialEq, Eq)]
pub struct Word {
    pub part: u32,
    pub less: u32,
    pub distance: u64,
}

/// The part of all global words.
pub const GLOBALS: u32 = 1;

/// The number under which the first constant word stands.
pub const CONSTANTS: u64 = 1 << 50;

/// What no operation may use: a word that a collection could have changed.
pub const STALE: Word = Word {
    part: u32::MAX,
    less: 0,
    distance: 0,
};

/// What is in a part of memory.
#[derive(Clone, Copy)]
pub enum Form {
    Globals,
    Frame,
    /// A heap cell, with the number of its type.
    Cell(u32),
}

/// A part of memory: the globals, a frame or a cell, with its words.
#[derive(Drop)]
pub struct Part {
    pub form: Form,
    pub words: Vec<Word>,
    /// Whether it is a mutex that is held.
    pub is_held: bool,
}

/// All memory. The parts of frames that are left are used again.
#[derive(Drop)]
pub struct Memory<'a> {
    alloc: Global,
    parts: Vec<Part>,
    free: Vec<u32>,
    constants: &'a [u64],
}

impl Word {
    /// The word that is a number.
    pub fn number(number: u64) -> Word {
        Word {
            part: 0,
            less: 0,
            distance: number,
        }
    }

    /// The start of a part of memory.
    pub fn start(part: u32) -> Word {
        Word {
            part,
            less: 0,
            distance: 0,
        }
    }

    /// The address of a word of the globals.
    pub fn global(word: u32) -> Word {
        Word::start(GLOBALS).further(u64::from(word))
    }

    /// The number that a word is, if it is one.
    pub fn as_number(self) -> Option<u64> {
        if self.part == 0 && self.less == 0 {
            Some(self.distance)
        } else {
            None
        }
    }

    /// The word so many words further on.
    pub fn further(self, words: u64) -> Word {
        Word {
            distance: self.distance.wrapping_add(words),
            ..self
        }
    }
}

impl<'a> Memory<'a> {
    /// A memory with so many global words.
    pub fn new(
        alloc: Global,
        global_words: u32,
        constants: &'a [u64],
    ) -> Result<Memory<'a>, AllocError> {
        let mut memory = Memory {
            alloc,
            parts: Vec::new(alloc),
            free: Vec::new(alloc),
            constants,
        };
        memory.add(Form::Globals, 0)?;
        memory.add(Form::Globals, u64::from(global_words))?;
        Ok(memory)
    }

    fn add(&mut self, form: Form, words: u64) -> Result<u32, AllocError> {
        let number = self.parts.len();
        let zeros = vec![in self.alloc; Word::number(0); words as usize]?;
        self.parts.push(Part {
            form,
            words: zeros,
            is_held: false,
        })?;
        Ok(u32::try_from(number).unwrap_or(u32::MAX))
    }

    /// The part of a new cell of a type, whose words are 0.
    pub fn make(&mut self, kind: u32, words: u64) -> Result<u32, AllocError> {
        self.add(Form::Cell(kind), words)
    }

    /// The part of a new frame of so many words.
    pub fn enter(&mut self, words: u64) -> Result<u32, AllocError> {
        let Some(part) = self.free.pop() else {
            return self.add(Form::Frame, words);
        };
        let zeros = vec![in self.alloc; Word::number(0); words as usize]?;
        if let Some(frame) = self.parts.get_mut(part as usize) {
            frame.words = zeros;
        }
        Ok(part)
    }

    /// The frame's words are gone.
    pub fn leave(&mut self, frame: Word) -> Result<(), AllocError> {
        if let Some(part) = self.parts.get_mut(frame.part as usize) {
            part.words = Vec::new(self.alloc);
            self.free.push(frame.part)?;
        }
        Ok(())
    }

    /// The word at an address; none where there is no word.
    pub fn load(&self, at: Word) -> Option<Word> {
        if at.less != 0 {
            return None;
        }
        if at.part == 0 {
            let place = at.distance.checked_sub(CONSTANTS)?;
            let word = self.constants.get(place as usize)?;
            return Some(Word::number(*word));
        }
        let part = self.parts.get(at.part as usize)?;
        part.words.get(at.distance as usize).copied()
    }

    /// Stores a word, and tells whether there is a place for it.
    pub fn store(&mut self, at: Word, word: Word) -> bool {
        if at.less == 0
            && let Some(part) = self.parts.get_mut(at.part as usize)
            && let Some(old) = part.words.get_mut(at.distance as usize)
        {
            *old = word;
            return true;
        }
        false
    }

    /// The type of the cell that begins at an address.
    pub fn cell_type(&self, cell: Word) -> Option<u32> {
        if cell.part == 0 {
            // a text of the program
            return if self.load(cell).is_some() {
                Some(0)
            } else {
                None
            };
        }
        if cell.distance != 0 || cell.less != 0 {
            return None;
        }
        match self.form(cell.part) {
            Some(Form::Cell(kind)) => Some(kind),
            Some(Form::Globals) => Some(1),
            _ => None,
        }
    }

    fn form(&self, part: u32) -> Option<Form> {
        match self.parts.get(part as usize) {
            Some(part) => Some(part.form),
            None => None,
        }
    }

    /// Whether a word points into the heap, or to what was in it.
    pub fn is_in_heap(&self, word: Word) -> bool {
        self.is_part_in_heap(word.part) || self.is_part_in_heap(word.less)
    }

    fn is_part_in_heap(&self, part: u32) -> bool {
        matches!(self.form(part), Some(Form::Cell(_)) | None)
    }

    /// Whether a word is NIL or the start of a cell.
    pub fn is_tidy(&self, word: Word) -> bool {
        word == Word::number(0) || self.cell_type(word).is_some()
    }

    /// Whether the mutex that begins at an address is held.
    pub fn is_held(&self, cell: Word) -> Option<bool> {
        match self.parts.get(cell.part as usize) {
            Some(part) => Some(part.is_held),
            None => None,
        }
    }

    /// Notes whether the mutex that begins at an address is held.
    pub fn hold(&mut self, cell: Word, is_held: bool) {
        if let Some(part) = self.parts.get_mut(cell.part as usize) {
            part.is_held = is_held;
        }
    }

    /// The length of the text that begins at an address.
    pub fn text_length(&self, text: Word) -> Option<u64> {
        self.load(text.further(1))?.as_number()
    }

    /// So many bytes of the text that begins at an address, or all that are there.
    pub fn bytes(&self, text: Word, length: u64) -> Result<Vec<u8>, AllocError> {
        let mut bytes = Vec::new(self.alloc);
        for place in 0..length {
            match self.byte(text, place) {
                Some(byte) => bytes.push(byte)?,
                None => break,
            }
        }
        Ok(bytes)
    }

    /// The byte of a text at a place.
    pub fn byte(&self, text: Word, place: u64) -> Option<u8> {
        let word = self
            .load(text.further((place / 8).wrapping_add(2)))?
            .as_number()?;
        let shift = u32::try_from(place % 8).unwrap_or(0).wrapping_mul(8);
        Some((word.wrapping_shr(shift) & 0xff) as u8)
    }

    /// The part of a new text of some bytes.
    pub fn make_text(&mut self, bytes: &[u8]) -> Result<u32, AllocError> {
        let length = bytes.len() as u64;
        let words = (length.saturating_add(7) / 8).saturating_add(2);
        let part = self.make(0, words)?;
        let text = Word::start(part);
        self.store(text.further(1), Word::number(length));
        for (place, piece) in bytes.chunks(8).enumerate() {
            let at = text.further((place as u64).wrapping_add(2));
            self.store(at, Word::number(packed(piece)));
        }
        Ok(part)
    }
}

/// Up to eight bytes in a word, the first one lowest.
fn packed(piece: &[u8]) -> u64 {
    let mut word = 0u64;
    for byte in piece.iter().rev() {
        word = word.wrapping_shl(8) | u64::from(*byte);
    }
    word
}
