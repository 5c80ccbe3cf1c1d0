//! What the instructions make of words and of their signed readings.

ghost use Rattle.std.specs.Prelude.{◌≡◌, ◌+◌, ◌*◌, ◌/◌, ◌%◌, ◌^◌, ◌<◌, ◌≤◌, ◌==◌, cond, Some, pos, ◌+ℤ◌, ◌-ℤ◌, ◌*ℤ◌};
ghost use Rattle.m3_base.specs.Words.{signed_of, word_of};
ghost use Rattle.m3_isa.specs.Arithmetic.{integer_word, unless_zero, floor_quotient, floor_rest, shifted, rotated, moved_by, flag, byte_in, below_length};

// The least word whose signed reading is below 0.
const LEAST: u64 = 0x8000_0000_0000_0000;

/// The signed sum as a word, and none where it overflows.
pub fn sum(x: u64, y: u64) -> Option<u64>
    ensures { result ≡ integer_word (signed_of x +ℤ signed_of y) }
{
    match x.cast_signed().checked_add(y.cast_signed()) {
        Some(z) => Some(z.cast_unsigned()),
        None => None,
    }
}

/// The signed difference as a word, and none where it overflows.
pub fn difference(x: u64, y: u64) -> Option<u64>
    ensures { result ≡ integer_word (signed_of x -ℤ signed_of y) }
{
    match x.cast_signed().checked_sub(y.cast_signed()) {
        Some(z) => Some(z.cast_unsigned()),
        None => None,
    }
}

/// The signed product as a word, and none where it overflows.
pub fn product(x: u64, y: u64) -> Option<u64>
    ensures { result ≡ integer_word (signed_of x *ℤ signed_of y) }
{
    match x.cast_signed().checked_mul(y.cast_signed()) {
        Some(z) => Some(z.cast_unsigned()),
        None => None,
    }
}

/// An address and a signed distance, modulo 2 ^ 64.
pub fn moved(at: u64, distance: i32) -> u64
    ensures { result ≡ moved_by at distance }
{
    at.wrapping_add(i64::from(distance).cast_unsigned())
}

/// The signed quotient rounded down, as a word, and none where the divisor is 0 or it overflows.
pub fn quotient_down(x: u64, y: u64) -> Option<u64>
    ensures { result ≡ unless_zero y (integer_word (floor_quotient (signed_of x) (signed_of y))) }
{
    if y == 0 {
        return None;
    }
    match (x < LEAST, y < LEAST) {
        (true, true) => Some(x / y),
        (true, false) => Some(x.div_ceil(y.wrapping_neg()).wrapping_neg()),
        (false, true) => Some(!(!x / y)),
        (false, false) => below_least(x.wrapping_neg() / y.wrapping_neg()),
    }
}

// A word whose signed reading is not below 0.
fn below_least(word: u64) -> Option<u64>
    ensures { result ≡ integer_word (pos word) }
{
    if word < LEAST { Some(word) } else { None }
}

/// What the quotient rounded down leaves, as a word, and none where the divisor is 0.
pub fn rest_up(x: u64, y: u64) -> Option<u64>
    ensures { result ≡ unless_zero y (Some (word_of (floor_rest (signed_of x) (signed_of y)))) }
{
    if y == 0 {
        return None;
    }
    match (x < LEAST, y < LEAST) {
        (true, true) => Some(x % y),
        (true, false) => Some(negative_rest(x % y.wrapping_neg(), y)),
        (false, true) => Some(y - 1 - !x % y),
        (false, false) => Some((x.wrapping_neg() % y.wrapping_neg()).wrapping_neg()),
    }
}

// The rest by a divisor below 0, of what its opposite leaves.
fn negative_rest(rest: u64, y: u64) -> u64
    ensures { result ≡ cond (rest == 0) 0 ((rest + y) % 2 ^ 64) }
{
    if rest == 0 { 0 } else { rest.wrapping_add(y) }
}

/// The unsigned quotient, and none where the divisor is 0.
pub fn quotient(x: u64, y: u64) -> Option<u64>
    ensures { result ≡ unless_zero y (Some (x / y)) }
{
    if y == 0 { None } else { Some(x / y) }
}

/// The unsigned rest, and none where the divisor is 0.
pub fn rest(x: u64, y: u64) -> Option<u64>
    ensures { result ≡ unless_zero y (Some (x % y)) }
{
    if y == 0 { None } else { Some(x % y) }
}

/// The bits of a word, each a signed number of places up.
pub fn shift(word: u64, places: u64) -> u64
    ensures { result ≡ shifted word (signed_of places) }
{
    if places < LEAST {
        shift_up(word, places)
    } else {
        shift_down(word, places.wrapping_neg())
    }
}

fn shift_up(word: u64, places: u64) -> u64
    ensures { result ≡ (word * 2 ^ places) % 2 ^ 64 }
{
    if places < 64 { word << places } else { 0 }
}

fn shift_down(word: u64, places: u64) -> u64
    ensures { result ≡ word / 2 ^ places }
{
    if places < 64 { word >> places } else { 0 }
}

/// The bits of a word, each a number of places up modulo 64.
pub fn rotate(word: u64, places: u64) -> u64
    ensures { result ≡ rotated word places }
{
    word.rotate_left((places % 64) as u32)
}

/// A test as a word.
pub fn truth(test: bool) -> u64
    ensures { result ≡ flag test }
{
    if test { 1 } else { 0 }
}

/// One byte of a word, the lowest first.
pub fn byte(word: u64, n: u64) -> u64
    requires { n < 8 }
    ensures { result ≡ byte_in word n }
{
    (word >> (8 * n)) % 256
}

/// What of word k of a text's bytes lies below the text's length.
pub fn below_end(bytes: u64, k: u64, word: u64) -> u64
    requires { 8 * k ≤ bytes }
    ensures { result ≡ below_length bytes k word }
{
    let left = bytes - 8 * k;
    if left < 8 {
        word % (1 << (8 * left))
    } else {
        word
    }
}
