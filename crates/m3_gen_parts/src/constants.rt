use m3_base::{NoMemory, gap, place_number};
use m3_core::{LONGEST_TEXT, Text, Value, ValueId, bytes_of, length_of};
use m3_lower_objects::{Form, number_of};
use m3_lower_storage::{Storage, open_dims};
use m3_source::KnownShape;
use m3_types::{TypeId, TypeNode};
use std::alloc::Global;

/// Where the constants of an image begin (docs/MACHINE.md).
const FIRST_CONSTANT: u64 = 1 << 50;

/// The words of a program's constants: the cells of its texts, and the values of its records and
/// arrays.
#[derive(Drop)]
pub struct Constants {
    pub words: Vec<u64>,
    /// The word at which the cell of each text begins; 0 for one that no code names.
    pub texts: Vec<u32>,
    /// The word at which each value begins; 0 for one that no code names.
    pub values: Vec<u32>,
}

/// What is still to be written.
#[derive(Clone, Copy)]
enum Task {
    Value { value: ValueId, kind: TypeId },
    /// The last so many words once more, so many times.
    Again { words: u64, times: u64 },
}

impl Constants {
    /// The constants of a program with these texts. Those that `&` makes have at most
    /// `LONGEST_TEXT` bytes together, or it is want of memory.
    pub fn of(alloc: Global, texts: &[Text], storage: &Storage) -> Result<Constants, NoMemory> {
        let mut constants = Constants {
            words: Vec::new(alloc),
            texts: Vec::new(alloc),
            values: Vec::new(alloc),
        };
        constants.add_texts(alloc, texts, storage)?;
        constants.add_values(alloc, storage)?;
        Ok(constants)
    }

    /// Adds the cells of the texts that code names.
    fn add_texts(
        &mut self,
        alloc: Global,
        texts: &[Text],
        storage: &Storage,
    ) -> Result<(), NoMemory> {
        let mut room = LONGEST_TEXT;
        for place in 0..texts.len() {
            let text = place_number(place)?;
            if !storage.has_text(text) {
                self.texts.push(0)?;
                continue;
            }
            self.texts.push(place_number(self.words.len())?)?;
            if let Some(Text::Literal(bytes)) = texts.get(place) {
                self.add_text(bytes)?;
            } else {
                room = room.checked_sub(length_of(texts, text)).ok_or(NoMemory)?;
                let bytes = bytes_of(alloc, texts, text)?;
                self.add_text(bytes.as_slice())?;
            }
        }
        Ok(())
    }

    /// Adds the cell of a text: its header, its length, and its bytes, eight in a word.
    fn add_text(&mut self, text: &[u8]) -> Result<(), NoMemory> {
        let length = text.len() as u64;
        let words = (length.saturating_add(7) / 8).saturating_add(2);
        self.words.push(words.wrapping_shl(32))?;
        self.words.push(length)?;
        for piece in text.chunks(8) {
            self.words.push(packed(piece))?;
        }
        Ok(())
    }

    fn add_values(&mut self, alloc: Global, storage: &Storage) -> Result<(), NoMemory> {
        for place in 0..storage.values.len() {
            let place = place_number(place)?;
            match written_kind(storage, place) {
                Some(kind) => {
                    let start = self.words.len();
                    self.values.push(place_number(start)?)?;
                    self.write(alloc, storage, ValueId(place), kind)?;
                    if self.words.len() == start {
                        // a value of no words has an address too
                        self.words.push(0)?;
                    }
                }
                None => self.values.push(0)?,
            }
        }
        Ok(())
    }

    /// Writes a value. What it is made of is kept in a list, the next in order last.
    fn write(
        &mut self,
        alloc: Global,
        storage: &Storage,
        value: ValueId,
        kind: TypeId,
    ) -> Result<(), NoMemory> {
        let mut tasks = Vec::new(alloc);
        tasks.push(Task::Value { value, kind })?;
        for _ in 0..u64::MAX {
            match tasks.pop() {
                Some(Task::Value { value, kind }) => self.open(storage, value, kind, &mut tasks)?,
                Some(Task::Again { words, times }) => self.repeat(words, times)?,
                None => return Ok(()),
            }
        }
        // what a value is made of stands before it, so it ends
        Err(gap())
    }

    fn open(
        &mut self,
        storage: &Storage,
        value: ValueId,
        kind: TypeId,
        tasks: &mut Vec<Task>,
    ) -> Result<(), NoMemory> {
        match storage.values.get(value.0 as usize) {
            Some(Value::Number(number)) => self.words.push(number.cast_unsigned())?,
            Some(Value::Text(text)) => {
                let start = self.texts.get(*text as usize).copied().unwrap_or(0);
                self.words
                    .push(FIRST_CONSTANT.wrapping_add(u64::from(start)))?;
            }
            Some(Value::Procedure(procedure)) => {
                self.words.push(u64::from(*procedure).wrapping_add(3))?;
                self.words.push(0)?;
            }
            Some(Value::Set(members)) => self.write_set(storage, kind, members)?,
            Some(Value::Record(parts)) => open_record(storage, kind, parts, tasks)?,
            Some(Value::Array(parts, count)) => {
                open_array(storage, kind, parts, *count, tasks)?;
            }
            Some(Value::Nil) | None => self.write_zeros(storage.form(kind))?,
        }
        Ok(())
    }

    fn write_zeros(&mut self, form: Form) -> Result<(), NoMemory> {
        for _ in 0..form.words() {
            self.words.push(0)?;
        }
        Ok(())
    }

    fn write_set(
        &mut self,
        storage: &Storage,
        kind: TypeId,
        members: &[i64],
    ) -> Result<(), NoMemory> {
        let first = match storage.node(kind) {
            TypeNode::SetOf(base) => storage.bounds(base).0,
            _ => 0,
        };
        for word in 0..storage.form(kind).words() {
            let start = first.wrapping_add(word.cast_signed().wrapping_mul(64));
            self.words.push(bits_of(members, start))?;
        }
        Ok(())
    }

    /// Writes the last so many words once more, so many times.
    fn repeat(&mut self, words: u64, times: u64) -> Result<(), NoMemory> {
        for _ in 0..words.saturating_mul(times) {
            let from = self.words.len().saturating_sub(words as usize);
            let word = self.words.get(from).copied().unwrap_or(0);
            self.words.push(word)?;
        }
        Ok(())
    }
}

/// Up to eight bytes in a word, the first one lowest.
fn packed(piece: &[u8]) -> u64 {
    let mut word = 0u64;
    for byte in piece.iter().rev() {
        word = word.wrapping_shl(8) | u64::from(*byte);
    }
    word
}

/// The type of a constant that code copies from its words; none where no code does.
fn written_kind(storage: &Storage, value: u32) -> Option<TypeId> {
    match storage.constant_kind(value) {
        Some(kind) if !storage.form(kind).is_scalar() => Some(kind),
        _ => None,
    }
}

/// The members of a word of a set that begins with one.
fn bits_of(members: &[i64], start: i64) -> u64 {
    let mut bits = 0u64;
    for member in members {
        bits |= bit_of(member.wrapping_sub(start));
    }
    bits
}

/// The bit at a place of a word, and 0 outside it.
fn bit_of(place: i64) -> u64 {
    match u32::try_from(place) {
        Ok(place) if place < 64 => 1u64.wrapping_shl(place),
        _ => 0,
    }
}

fn open_record(
    storage: &Storage,
    kind: TypeId,
    parts: &[ValueId],
    tasks: &mut Vec<Task>,
) -> Result<(), NoMemory> {
    let TypeNode::Fields(fields) = storage.node(kind) else {
        return Ok(());
    };
    for (place, field) in fields.iter().enumerate().rev() {
        if let Some(value) = parts.get(place) {
            push_value(storage, *value, field.kind, tasks)?;
        }
    }
    Ok(())
}

/// Keeps a value that is still to be written. One without words is passed over, since its parts may
/// be as many as 2 to the depth of its type.
fn push_value(
    storage: &Storage,
    value: ValueId,
    kind: TypeId,
    tasks: &mut Vec<Task>,
) -> Result<(), NoMemory> {
    if has_words(storage, kind) {
        tasks.push(Task::Value { value, kind })?;
    }
    Ok(())
}

fn has_words(storage: &Storage, kind: TypeId) -> bool {
    match storage.node(kind) {
        TypeNode::OpenArray(_) => true,
        _ => storage.words(kind) > 0,
    }
}

fn open_array(
    storage: &Storage,
    kind: TypeId,
    parts: &[ValueId],
    count: u64,
    tasks: &mut Vec<Task>,
) -> Result<(), NoMemory> {
    let element = match storage.node(kind) {
        TypeNode::FixedArray(_, element) | TypeNode::OpenArray(element) => element,
        _ => return Ok(()),
    };
    let further = count.saturating_sub(parts.len() as u64);
    if let (Some(last), true) = (parts.last(), further > 0) {
        tasks.push(Task::Again {
            words: words_of(storage, *last, element),
            times: further,
        })?;
    }
    for value in parts.iter().rev() {
        push_value(storage, *value, element, tasks)?;
    }
    Ok(())
}

/// The words of a value of a type, of all elements where that is an open array.
fn words_of(storage: &Storage, value: ValueId, kind: TypeId) -> u64 {
    let dims = open_dims(storage.types, kind);
    let shape = KnownShape::Constant { kind, value };
    let count = shape.elements(&storage.types.graph, storage.values, u64::from(dims));
    let mut inner = kind;
    for _ in 0..dims {
        if let TypeNode::OpenArray(element) = storage.node(inner) {
            inner = element;
        }
    }
    count.saturating_mul(storage.words(inner))
}
