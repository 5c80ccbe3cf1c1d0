use crate::words::{Words, fault_of, marked, operand_of, operator_of, place, pos_of, relation_of};
use bumpalo::Bump;
use m3_mid::{Callee, CheckedOperator, End, Held, MemoryWord, MidOp, Operand, Relation, Shown};
use std::alloc::AllocError;

/// How a block ends, where a line says it.
pub fn end_of(line: &str) -> Option<End> {
    let mut words = Words::of(line);
    match words.take() {
        "goto" => Some(End::Goto(place("B", words.take()))),
        "if" => Some(test_of(words)),
        "return" => Some(End::Return {
            value: result_of(words.take()),
        }),
        "fault" => {
            let kind = fault_of(words.take());
            words.take();
            Some(End::FaultAt {
                kind,
                pos: pos_of(words.take()),
            })
        }
        _ => None,
    }
}

fn result_of(word: &str) -> Option<Operand> {
    if word.is_empty() {
        None
    } else {
        Some(operand_of(word))
    }
}

fn test_of(mut words: Words<'_>) -> End {
    let left = operand_of(words.take());
    let relation = relation_of(words.take()).unwrap_or(Relation::Equal);
    let right = operand_of(words.take());
    words.take();
    let yes = place("B", words.take());
    words.take();
    End::If {
        relation,
        left,
        right,
        yes,
        no: place("B", words.take()),
    }
}

/// The operation of a line.
pub fn operation_of<'a>(arena: &'a Bump, line: &str) -> Result<MidOp<'a>, AllocError> {
    let (first, rest) = line.split_once(" ").unwrap_or((line, ""));
    match first {
        "point" => Ok(MidOp::Point {
            shown: shown_of(arena, rest)?,
        }),
        "call" => Ok(MidOp::Call {
            callee: Callee::Outermost(place("P", rest.strip_suffix("()").unwrap_or(""))),
            actuals: &[],
            result: None,
            raised: None,
            shown: &[],
        }),
        "check" => Ok(check_of(Words::of(rest))),
        _ => {
            let (to, value) = line.split_once(" := ").unwrap_or((line, ""));
            Ok(setting_of(to, value))
        }
    }
}

/// The variable behind `show`, where one is shown.
fn shown_of<'a>(arena: &'a Bump, text: &str) -> Result<&'a [Shown], AllocError> {
    let mut words = Words::of(text);
    if words.take() != "show" {
        return Ok(&[]);
    }
    let var = place("v", words.take());
    words.take();
    let at = Held::Temp(place("t", words.take()));
    Ok(&*arena.try_alloc_slice_copy(&[Shown { var, at }])?)
}

fn check_of<'a>(mut words: Words<'_>) -> MidOp<'a> {
    let left = operand_of(words.take());
    let relation = relation_of(words.take()).unwrap_or(Relation::Equal);
    let right = operand_of(words.take());
    words.take();
    let fault = fault_of(words.take());
    words.take();
    MidOp::Check {
        relation,
        left,
        right,
        fault,
        pos: pos_of(words.take()),
    }
}

/// A temporary that is set, or a word of memory that is stored.
fn setting_of<'a>(target: &str, value: &str) -> MidOp<'a> {
    match (marked("t", target), memory_of(target)) {
        (Some(to), _) => value_of(to, value),
        (None, Some(at)) => MidOp::Store {
            at,
            from: operand_of(value),
        },
        (None, None) => MidOp::Point { shown: &[] },
    }
}

/// A slot, a word of the globals, or the word at an address as `[t3 + 2]`.
fn memory_of(text: &str) -> Option<MemoryWord> {
    if let Some(slot) = marked("s", text) {
        return Some(MemoryWord::Slot(slot));
    }
    if let Some(word) = marked("g", text) {
        return Some(MemoryWord::Global(word));
    }
    let (base, offset) = text
        .strip_prefix("[")?
        .strip_suffix("]")?
        .split_once(" + ")?;
    Some(MemoryWord::At {
        base: place("t", base),
        offset: offset.parse::<i32>().ok()?,
    })
}

fn value_of<'a>(to: u32, text: &str) -> MidOp<'a> {
    if let Some(from) = memory_of(text) {
        return MidOp::Load { to, from };
    }
    if let Some(from) = marked("t", text) {
        return MidOp::Move { to, from };
    }
    let (first, rest) = text.split_once(" ").unwrap_or((text, ""));
    let words = Words::of(rest);
    match (first, operator_of(first)) {
        (_, Some(operator)) => {
            let mut words = words;
            MidOp::Arith {
                to,
                operator,
                left: operand_of(words.take()),
                right: operand_of(words.take()),
            }
        }
        ("index", None) => index_of(to, words),
        ("checked", None) => checked_of(to, words),
        ("address", None) => MidOp::GlobalAddress {
            to,
            word: place("of g", rest),
        },
        _ => MidOp::Number {
            to,
            value: text.parse::<i64>().unwrap_or(0),
        },
    }
}

/// An address of an element, as `t0 + 4 * t1 + 2`.
fn index_of<'a>(to: u32, mut words: Words<'_>) -> MidOp<'a> {
    let array = place("t", words.take());
    words.take();
    let size = words.take().parse::<u64>().unwrap_or(0);
    words.take();
    let index = operand_of(words.take());
    words.take();
    MidOp::Index {
        to,
        array,
        index,
        words: size,
        offset: words.take().parse::<i64>().unwrap_or(0),
    }
}

/// A checked sum.
fn checked_of<'a>(to: u32, mut words: Words<'_>) -> MidOp<'a> {
    words.take();
    let left = operand_of(words.take());
    let right = operand_of(words.take());
    words.take();
    MidOp::Checked {
        to,
        operator: CheckedOperator::Add,
        left,
        right,
        pos: pos_of(words.take()),
    }
}
