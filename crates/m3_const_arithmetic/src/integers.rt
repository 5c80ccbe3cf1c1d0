// The least word whose signed reading is below 0.
const LEAST: u64 = 0x8000_0000_0000_0000;

/// The sum of two integers, and none where it overflows.
pub fn sum(x: i64, y: i64) -> Option<i64> {
    x.checked_add(y)
}

/// The difference of two integers, and none where it overflows.
pub fn difference(x: i64, y: i64) -> Option<i64> {
    x.checked_sub(y)
}

/// The product of two integers, and none where it overflows.
pub fn product(x: i64, y: i64) -> Option<i64> {
    x.checked_mul(y)
}

/// The opposite of an integer, and none where it overflows.
pub fn negative(x: i64) -> Option<i64> {
    difference(0, x)
}

/// The absolute value of an integer, and none where it overflows.
pub fn absolute(x: i64) -> Option<i64> {
    if x < 0 { negative(x) } else { Some(x) }
}

/// The quotient rounded down of an integer by one that isn't 0, and none where it overflows.
pub fn quotient(x: i64, y: i64) -> Option<i64> {
    match quotient_word(x.cast_unsigned(), y.cast_unsigned()) {
        Some(word) => Some(word.cast_signed()),
        None => None,
    }
}

/// What the quotient rounded down leaves; none where the divisor is 0.
pub fn rest(x: i64, y: i64) -> Option<i64> {
    match rest_word(x.cast_unsigned(), y.cast_unsigned()) {
        Some(word) => Some(word.cast_signed()),
        None => None,
    }
}

fn quotient_word(x: u64, y: u64) -> Option<u64> {
    if y == 0 {
        return None;
    }
    match (x < LEAST, y < LEAST) {
        (true, true) => Some(x / y),
        (true, false) => Some(x.div_ceil(y.wrapping_neg()).wrapping_neg()),
        (false, true) => Some(!(!x / y)),
        (false, false) => below_least(x.wrapping_neg() / y.wrapping_neg()),
    }
}

// A word whose signed reading is not below 0.
fn below_least(word: u64) -> Option<u64> {
    if word < LEAST { Some(word) } else { None }
}

fn rest_word(x: u64, y: u64) -> Option<u64> {
    if y == 0 {
        return None;
    }
    match (x < LEAST, y < LEAST) {
        (true, true) => Some(x % y),
        (true, false) => Some(negative_rest(x % y.wrapping_neg(), y)),
        (false, true) => Some(y - 1 - !x % y),
        (false, false) => Some((x.wrapping_neg() % y.wrapping_neg()).wrapping_neg()),
    }
}

// The rest by a divisor below 0, of what its opposite leaves.
fn negative_rest(rest: u64, y: u64) -> u64 {
    if rest == 0 { 0 } else { rest.wrapping_add(y) }
}
