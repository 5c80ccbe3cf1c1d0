use crate::operations::operation_of;
use crate::rows::row_of;
use std::alloc::{AllocError, Global};

/// The row of a point.
#[derive(Drop)]
pub struct Row {
    pub instruction: u32,
    pub bytes: Vec<u8>,
}

/// The code of an image, the first instruction of each procedure, and the rows of its points.
#[derive(Drop)]
pub struct Assembly {
    pub code: Vec<u8>,
    pub count: u32,
    pub firsts: Vec<u32>,
    pub rows: Vec<Row>,
}

/// A name of an instruction of a procedure.
#[derive(Drop)]
struct Label {
    name: String,
    instruction: u32,
}

/// The fields of an instruction.
#[derive(Clone, Copy)]
struct Fields {
    a: u8,
    b: u8,
    c: u8,
    last: i32,
}

impl Assembly {
    pub fn new(alloc: Global) -> Assembly {
        Assembly {
            code: Vec::new(alloc),
            count: 0,
            firsts: Vec::new(alloc),
            rows: Vec::new(alloc),
        }
    }

    /// Adds a procedure: instructions with a semicolon and a space between, each with its label
    /// and a colon before it, if it has one, and with its row in braces behind it, if that has a
    /// list.
    pub fn add_procedure(&mut self, alloc: Global, text: &str) -> Result<(), AllocError> {
        self.firsts.push(self.count)?;
        let labels = labels_of(alloc, text, self.count)?;
        for instruction in text.split("; ") {
            let (_, instruction) = instruction.split_once(": ").unwrap_or(("", instruction));
            self.add_instruction(alloc, instruction, labels.as_slice())?;
        }
        Ok(())
    }

    fn add_instruction(
        &mut self,
        alloc: Global,
        text: &str,
        labels: &[Label],
    ) -> Result<(), AllocError> {
        let (words, row) = text.split_once(" {").unwrap_or((text, ""));
        let (name, words) = words.split_once(" ").unwrap_or((words, ""));
        let operation = operation_of(name);
        let fields = fields_of(operation.fields, words, labels);
        self.code
            .extend_from_slice(&[operation.number, fields.a, fields.b, fields.c])?;
        self.code.extend_from_slice(&fields.last.to_le_bytes())?;
        if operation.is_point {
            let bytes = row_of(alloc, row)?;
            let instruction = self.count;
            self.rows.push(Row { instruction, bytes })?;
        }
        self.count = self.count.wrapping_add(1);
        Ok(())
    }
}

/// The labels of a procedure that begins at this instruction.
fn labels_of(alloc: Global, text: &str, first: u32) -> Result<Vec<Label>, AllocError> {
    let mut labels = Vec::new(alloc);
    let mut instruction = first;
    for part in text.split("; ") {
        if let Some((name, _)) = part.split_once(": ") {
            let name = String::from_str(alloc, name)?;
            labels.push(Label { name, instruction })?;
        }
        instruction = instruction.wrapping_add(1);
    }
    Ok(labels)
}

/// The fields that words fill.
fn fields_of(names: &str, words: &str, labels: &[Label]) -> Fields {
    let mut fields = Fields {
        a: 0,
        b: 0,
        c: 0,
        last: 0,
    };
    let mut words = words.split(" ");
    for name in names.chars() {
        let word = words.next().unwrap_or("");
        match name {
            'a' => fields.a = register_of(word),
            'b' => fields.b = register_of(word),
            'c' => fields.c = register_of(word),
            'i' => fields.last = number_of(word, labels),
            _ => {}
        }
    }
    fields
}

fn register_of(word: &str) -> u8 {
    match word.strip_prefix("r") {
        Some(digits) => digits.parse::<u8>().unwrap_or(255),
        None => 255,
    }
}

/// The number of a label, of a procedure as p2, or of digits.
fn number_of(word: &str, labels: &[Label]) -> i32 {
    for label in labels {
        if label.name.as_str() == word {
            return i32::try_from(label.instruction).unwrap_or(0);
        }
    }
    let digits = word.strip_prefix("p").unwrap_or(word);
    digits.parse::<i32>().unwrap_or(0)
}
