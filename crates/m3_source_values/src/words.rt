use m3_core::Routine;

/// What a routine of Word with two operands makes of them, which are read as 64 bits without a
/// sign; none where it is no such routine, or the divisor is 0.
pub fn word_function(routine: Routine, x: i64, y: i64) -> Option<i64> {
    let (left, right) = (x.cast_unsigned(), y.cast_unsigned());
    let word = match routine {
        Routine::WordPlus => left.wrapping_add(right),
        Routine::WordTimes => left.wrapping_mul(right),
        Routine::WordMinus => left.wrapping_sub(right),
        Routine::WordDivide => left.checked_div(right)?,
        Routine::WordMod => left.checked_rem(right)?,
        Routine::WordAnd => left & right,
        Routine::WordOr => left | right,
        Routine::WordXor => left ^ right,
        Routine::WordShift => shifted(left, y),
        Routine::WordRotate => left.rotate_left((right % 64) as u32),
        _ => return None,
    };
    Some(word.cast_signed())
}

/// Bit i is bit i - n of the word, where there is one, else 0.
fn shifted(word: u64, n: i64) -> u64 {
    let places = n.unsigned_abs();
    if places >= 64 {
        0
    } else if n >= 0 {
        word << places
    } else {
        word >> places
    }
}

/// Whether a relation of Word holds; none where the routine is no such relation.
pub fn word_test(routine: Routine, x: i64, y: i64) -> Option<bool> {
    let (left, right) = (x.cast_unsigned(), y.cast_unsigned());
    match routine {
        Routine::WordLess => Some(left < right),
        Routine::WordLessEqual => Some(left <= right),
        Routine::WordGreater => Some(right < left),
        Routine::WordGreaterEqual => Some(right <= left),
        _ => None,
    }
}
