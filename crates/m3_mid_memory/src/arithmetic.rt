use crate::memory::Word;
use m3_mid::{Relation, WordOperator};
use m3_mid_meaning::{is_related, operator_value};

/// What an operator makes of two words; none where it isn't defined. Words have a sum and a
/// difference where of all parts of memory in these at most one is added and one taken away. That
/// two words differ is told by a number, which stands for the bits in which they do.
pub fn combined(operator: WordOperator, left: Word, right: Word) -> Option<Word> {
    match operator {
        WordOperator::Add => sum(left, right),
        WordOperator::Subtract => difference(left, right),
        WordOperator::Xor if left == right => Some(Word::number(0)),
        WordOperator::Xor if left.part != right.part || left.less != right.less => {
            Some(Word::number(1))
        }
        _ => {
            let (left, right) = (left.as_number()?, right.as_number()?);
            Some(Word::number(operator_value(operator, left, right)))
        }
    }
}

/// Two parts of memory, of which 0 is none.
type Parts = [u32; 2];

/// What is left of a part and of those that are taken away, as a part that is added and taken away
/// is none.
fn without(part: u32, [first, second]: Parts) -> (u32, Parts) {
    if part == first {
        (0, [0, second])
    } else if part == second {
        (0, [first, 0])
    } else {
        (part, [first, second])
    }
}

/// The one of two that is a part, or none.
fn only([first, second]: Parts) -> Option<u32> {
    if first == 0 {
        Some(second)
    } else if second == 0 {
        Some(first)
    } else {
        None
    }
}

/// The word with these parts added and taken away.
fn word_of([left, right]: Parts, taken: Parts, distance: u64) -> Option<Word> {
    let (left, taken) = without(left, taken);
    let (right, taken) = without(right, taken);
    Some(Word {
        part: only([left, right])?,
        less: only(taken)?,
        distance,
    })
}

fn sum(left: Word, right: Word) -> Option<Word> {
    let distance = left.distance.wrapping_add(right.distance);
    word_of([left.part, right.part], [left.less, right.less], distance)
}

fn difference(left: Word, right: Word) -> Option<Word> {
    let distance = left.distance.wrapping_sub(right.distance);
    word_of([left.part, right.less], [left.less, right.part], distance)
}

/// Whether a relation holds between two words; none where it isn't defined.
pub fn holds(relation: Relation, left: Word, right: Word) -> Option<bool> {
    match relation {
        Relation::Equal => Some(left == right),
        Relation::NotEqual => Some(left != right),
        _ => {
            let (left, right) = (left.as_number()?, right.as_number()?);
            Some(is_related(relation, left, right))
        }
    }
}
