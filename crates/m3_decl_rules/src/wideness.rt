use m3_base::NoMemory;
use m3_decl_state::Declarer;
use m3_types::{Field, TypeId, TypeNode};
use std::collections::HashMap;

/// The most members that a set may have; a larger set is refused anyway.
const MOST_MEMBERS: u128 = 256;

/// The words of types, as far as 2: each type's are told once.
#[derive(Drop)]
pub struct Words {
    told: HashMap<TypeId, u64>,
}

impl Words {
    /// The words of a type that were told, or 1.
    fn of(&self, kind: TypeId) -> u64 {
        match self.told.get(&kind) {
            Some(words) => *words,
            None => 1,
        }
    }
}

fn at_most_two(words: u64) -> u64 {
    if words > 2 { 2 } else { words }
}

/// The words of types, of which none is told yet.
pub fn new_words<'a>(declarer: &Declarer<'_, 'a>) -> Words {
    Words {
        told: HashMap::new(declarer.eval.alloc),
    }
}

/// The words of the values of a type, or 2 where they are more. A type that contains itself is
/// refused anyway; where it does, it counts 1. What was refused counts nothing.
pub fn words_of<'a>(
    declarer: &Declarer<'_, 'a>,
    words: &mut Words,
    kind: TypeId,
) -> Result<u64, NoMemory> {
    let mut stack = Vec::new(declarer.eval.alloc);
    stack.push((kind, false))?;
    'kinds: for _ in 0..u64::MAX {
        let Some((kind, is_ready)) = stack.pop() else {
            break 'kinds;
        };
        tell_words(declarer, words, &mut stack, kind, is_ready)?;
    }
    Ok(words.of(kind))
}

/// Tells the words of a type if those of its parts are told, and else puts them onto the stack
/// above it.
fn tell_words<'a>(
    declarer: &Declarer<'_, 'a>,
    words: &mut Words,
    stack: &mut Vec<(TypeId, bool)>,
    kind: TypeId,
    is_ready: bool,
) -> Result<(), NoMemory> {
    if is_ready {
        let sum = sum_of(declarer, words, kind);
        words.told.insert(kind, sum)?;
    } else if !words.told.contains_key(&kind) {
        words.told.insert(kind, 1)?;
        stack.push((kind, true))?;
        push_held(declarer, stack, kind)?;
    }
    Ok(())
}

fn push_held<'a>(
    declarer: &Declarer<'_, 'a>,
    stack: &mut Vec<(TypeId, bool)>,
    kind: TypeId,
) -> Result<(), NoMemory> {
    match declarer.eval.definition(kind) {
        TypeNode::Fields(fields) => {
            for field in fields {
                stack.push((field.kind, false))?;
            }
        }
        TypeNode::FixedArray(_, element) => stack.push((element, false))?,
        _ => {}
    }
    Ok(())
}

fn sum_of<'a>(declarer: &Declarer<'_, 'a>, words: &Words, kind: TypeId) -> u64 {
    match declarer.eval.definition(kind) {
        TypeNode::Fields(fields) => sum_of_fields(words, fields),
        TypeNode::FixedArray(index, _) if declarer.is_refused(index) => 0,
        TypeNode::FixedArray(index, element) => {
            let each = words.of(element);
            match declarer.eval.declared.types.member_count(index) {
                0 => 0,
                1 => each,
                _ => at_most_two(each.saturating_add(each)),
            }
        }
        TypeNode::SetOf(base) => {
            let members = declarer.eval.declared.types.member_count(base);
            if members > 64 && members <= MOST_MEMBERS {
                2
            } else {
                1
            }
        }
        TypeNode::Procedure(_, _, _) | TypeNode::OpenArray(_) => 2,
        TypeNode::Reserved => 0,
        _ => 1,
    }
}

fn sum_of_fields(words: &Words, fields: &[Field<'_>]) -> u64 {
    let mut sum = 0u64;
    for field in fields {
        sum = at_most_two(sum.saturating_add(words.of(field.kind)));
    }
    sum
}
