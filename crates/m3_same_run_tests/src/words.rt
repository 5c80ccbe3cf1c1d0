use m3_base::{FaultKind, Pos, fault_name};
use m3_mid::{Operand, Relation, WordOperator};
use m3_mid_text::{relation_sign, word_operator_name};

static OPERATORS: [WordOperator; 8] = [
    WordOperator::Add,
    WordOperator::Subtract,
    WordOperator::Multiply,
    WordOperator::And,
    WordOperator::Or,
    WordOperator::Xor,
    WordOperator::Shift,
    WordOperator::Rotate,
];

static RELATIONS: [Relation; 6] = [
    Relation::Equal,
    Relation::NotEqual,
    Relation::Less,
    Relation::LessEqual,
    Relation::LessUnsigned,
    Relation::LessEqualUnsigned,
];

static FAULTS: [FaultKind; 2] = [FaultKind::Range, FaultKind::Index];

/// The words of a line, from the first one on that wasn't taken.
#[derive(Clone, Copy)]
pub struct Words<'t> {
    rest: &'t str,
}

impl<'t> Words<'t> {
    pub fn of(text: &'t str) -> Words<'t> {
        Words { rest: text }
    }

    /// Takes a word, without a comma behind it: the empty one where there is none.
    pub fn take(&mut self) -> &'t str {
        let (word, rest) = self.rest.split_once(" ").unwrap_or((self.rest, ""));
        self.rest = rest;
        word.strip_suffix(",").unwrap_or(word)
    }
}

/// The number behind a mark, as that of `t3`.
pub fn marked(mark: &str, word: &str) -> Option<u32> {
    word.strip_prefix(mark)?.parse::<u32>().ok()
}

/// The number of a temporary or a block: 0 where it is none.
pub fn place(mark: &str, word: &str) -> u32 {
    marked(mark, word).unwrap_or(0)
}

/// A temporary or a number: 0 where it is neither.
pub fn operand_of(word: &str) -> Operand {
    match marked("t", word) {
        Some(temp) => Operand::Temp(temp),
        None => Operand::Number(word.parse::<i64>().unwrap_or(0)),
    }
}

/// A place in a source, as FILE:LINE:COLUMN.
pub fn pos_of(word: &str) -> Pos {
    let mut numbers = word.split(":");
    Pos {
        file: numbers.next().unwrap_or("").parse::<u32>().unwrap_or(0),
        line: numbers.next().unwrap_or("").parse::<u32>().unwrap_or(0),
        col: numbers.next().unwrap_or("").parse::<u32>().unwrap_or(0),
    }
}

pub fn operator_of(name: &str) -> Option<WordOperator> {
    for operator in &OPERATORS {
        if word_operator_name(*operator) == name {
            return Some(*operator);
        }
    }
    None
}

pub fn relation_of(sign: &str) -> Option<Relation> {
    for relation in &RELATIONS {
        if relation_sign(*relation) == sign {
            return Some(*relation);
        }
    }
    None
}

/// The fault of a name: Nil where it is none of the table's.
pub fn fault_of(name: &str) -> FaultKind {
    for fault in &FAULTS {
        if fault_name(*fault) == name {
            return *fault;
        }
    }
    FaultKind::Nil
}
