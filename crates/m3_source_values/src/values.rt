/// A value of a program. It has no size and lies nowhere.
#[cycle(values)]
#[derive(Clone, Copy)]
pub enum Value<'m> {
    /// A member of an ordinal type, by its number.
    Ordinal(i64),
    /// NIL, of each reference type and each procedure type.
    Nil,
    /// A reference to a cell of the store, by the cell's number.
    Pointer(usize),
    /// A text that stands in the program, by its place among the program's texts.
    Text(u32),
    /// The main thread, which is there before the program runs.
    MainThread,
    /// A procedure, by its number, with the number of the activation around it: none around a
    /// procedure of the outermost scope of a unit.
    Procedure(u32, Option<usize>),
    /// The numbers of the members of a set, rising.
    Members(&'m [i64]),
    /// The fields of a record, in order.
    Record(&'m [Value<'m>]),
    /// The sizes of an array's dimensions below its own, the outermost first, and its elements.
    Array(&'m [u64], &'m [Value<'m>]),
}

/// FALSE or TRUE.
pub fn truth<'m>(holds: bool) -> Value<'m> {
    Value::Ordinal(i64::from(holds))
}

/// A count as a value; one that is no INTEGER counts as the greatest.
pub fn number<'m>(count: u64) -> Value<'m> {
    match i64::try_from(count) {
        Ok(number) => Value::Ordinal(number),
        Err(_) => Value::Ordinal(i64::MAX),
    }
}

/// Equality: references and procedures by identity (of a procedure its body and the activation
/// around it), all else part by part. Arrays of unequal shape are unequal.
#[cycle(values)]
pub fn same(left: &Value<'_>, right: &Value<'_>) -> bool {
    match (left, right) {
        (Value::Ordinal(x), Value::Ordinal(y)) => x == y,
        (Value::Nil, Value::Nil) => true,
        (Value::Pointer(a), Value::Pointer(b)) => a == b,
        (Value::Text(a), Value::Text(b)) => a == b,
        (Value::MainThread, Value::MainThread) => true,
        (Value::Procedure(p, around), Value::Procedure(q, other)) => p == q && around == other,
        (Value::Members(members), Value::Members(others)) => members == others,
        (Value::Record(fields), Value::Record(others)) => same_row(fields, others),
        (Value::Array(below, elements), Value::Array(other, others)) => {
            below == other && same_row(elements, others)
        }
        _ => false,
    }
}

/// Whether two rows have equal values in the same order.
#[cycle(values)]
fn same_row(left: &[Value<'_>], right: &[Value<'_>]) -> bool {
    if left.len() != right.len() {
        return false;
    }
    for (value, other) in left.iter().zip(right) {
        if !same(value, other) {
            return false;
        }
    }
    true
}
