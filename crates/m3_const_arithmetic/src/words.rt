// The least word whose signed reading is below 0.
const LEAST: u64 = 0x8000_0000_0000_0000;

/// The routines of the interface Word.
#[derive(Clone, Copy, PartialEq, Eq)]
pub enum WordRoutine {
    Plus,
    Times,
    Minus,
    Divide,
    Mod,
    Less,
    LessEqual,
    Greater,
    GreaterEqual,
    And,
    Or,
    Xor,
    Not,
    Shift,
    Rotate,
}

const NAMES: [(&[u8], WordRoutine); 15] = [
    (b"Plus", WordRoutine::Plus),
    (b"Times", WordRoutine::Times),
    (b"Minus", WordRoutine::Minus),
    (b"Divide", WordRoutine::Divide),
    (b"Mod", WordRoutine::Mod),
    (b"LT", WordRoutine::Less),
    (b"LE", WordRoutine::LessEqual),
    (b"GT", WordRoutine::Greater),
    (b"GE", WordRoutine::GreaterEqual),
    (b"And", WordRoutine::And),
    (b"Or", WordRoutine::Or),
    (b"Xor", WordRoutine::Xor),
    (b"Not", WordRoutine::Not),
    (b"Shift", WordRoutine::Shift),
    (b"Rotate", WordRoutine::Rotate),
];

/// The routine of this name.
pub fn routine_named(name: &[u8]) -> Option<WordRoutine> {
    for (text, routine) in NAMES {
        if text == name {
            return Some(routine);
        }
    }
    None
}

/// What a routine gives of its arguments, of which Not takes the first alone: an integer by its
/// number, FALSE and TRUE as 0 and 1. None where it divides by 0.
pub fn word_routine(routine: WordRoutine, x: i64, y: i64) -> Option<i64> {
    let a = x.cast_unsigned();
    let b = y.cast_unsigned();
    match routine {
        WordRoutine::Divide | WordRoutine::Mod if b == 0 => None,
        WordRoutine::Divide => Some(divided(a, b).cast_signed()),
        WordRoutine::Mod => Some(left_by(a, b).cast_signed()),
        WordRoutine::Less => Some(truth(a < b)),
        WordRoutine::LessEqual => Some(truth(a <= b)),
        WordRoutine::Greater => Some(truth(a > b)),
        WordRoutine::GreaterEqual => Some(truth(a >= b)),
        other => Some(computed(other, a, b).cast_signed()),
    }
}

fn divided(a: u64, b: u64) -> u64 {
    if b == 0 { 0 } else { a / b }
}

fn left_by(a: u64, b: u64) -> u64 {
    if b == 0 { 0 } else { a % b }
}

fn truth(test: bool) -> i64 {
    if test { 1 } else { 0 }
}

fn computed(routine: WordRoutine, a: u64, b: u64) -> u64 {
    match routine {
        WordRoutine::Plus => a.wrapping_add(b),
        WordRoutine::Times => a.wrapping_mul(b),
        WordRoutine::Minus => a.wrapping_sub(b),
        WordRoutine::And => a & b,
        WordRoutine::Or => a | b,
        WordRoutine::Xor => a ^ b,
        WordRoutine::Not => !a,
        WordRoutine::Shift => shift(a, b),
        WordRoutine::Rotate => a.rotate_left((b % 64) as u32),
        _ => 0,
    }
}

/// The bits of a word, each a signed number of places up.
fn shift(word: u64, places: u64) -> u64 {
    if places < LEAST {
        shift_up(word, places)
    } else {
        shift_down(word, places.wrapping_neg())
    }
}

fn shift_up(word: u64, places: u64) -> u64 {
    if places < 64 { word << places } else { 0 }
}

fn shift_down(word: u64, places: u64) -> u64 {
    if places < 64 { word >> places } else { 0 }
}
