use m3_base::NoMemory;
use m3_const_values::Evaluator;
use m3_core::{Value, ValueId};
use std::collections::HashSet;

/// Whether the values of two constants without parts are equal, texts by their cells; none where
/// they have parts.
fn are_equal_leaves(a: Value<'_>, b: Value<'_>) -> bool {
    match a {
        Value::Number(x) => matches!(b, Value::Number(y) if x == y),
        Value::Nil => matches!(b, Value::Nil),
        Value::Text(x) => matches!(b, Value::Text(y) if x == y),
        Value::Procedure(x) => matches!(b, Value::Procedure(y) if x == y),
        Value::Set(x) => match b {
            Value::Set(y) => x == y,
            _ => false,
        },
        _ => false,
    }
}

/// The constants that are still to be compared, and those that were or will be.
#[derive(Drop)]
struct Compared {
    pairs: Vec<(ValueId, ValueId)>,
    met: HashSet<(ValueId, ValueId)>,
}

impl Compared {
    fn add(&mut self, a: ValueId, b: ValueId) -> Result<(), NoMemory> {
        if a == b {
            return Ok(());
        }
        if self.met.insert((a, b))? {
            self.pairs.push((a, b))?;
        }
        Ok(())
    }

    /// Adds the parts at equal places of two rows, the last of each standing for what it lacks.
    fn add_rows(&mut self, a: &[ValueId], b: &[ValueId]) -> Result<(), NoMemory> {
        let (Some(last), Some(end)) = (a.last(), b.last()) else {
            return Ok(());
        };
        for place in 0..a.len().max(b.len()) {
            let x = a.get(place).unwrap_or(last);
            let y = b.get(place).unwrap_or(end);
            self.add(*x, *y)?;
        }
        Ok(())
    }
}

/// Whether two constants are equal, texts by their cells.
pub fn are_equal<'a>(
    eval: &Evaluator<'_, 'a>,
    a: Value<'a>,
    b: Value<'a>,
) -> Result<bool, NoMemory> {
    let mut compared = Compared {
        pairs: Vec::new(eval.alloc),
        met: HashSet::new(eval.alloc),
    };
    if !compare(eval, &mut compared, a, b)? {
        return Ok(false);
    }
    for _step in 0..u64::MAX {
        let Some((x, y)) = compared.pairs.pop() else {
            return Ok(true);
        };
        let (Some(x), Some(y)) = (eval.stored(x), eval.stored(y)) else {
            continue;
        };
        if !compare(eval, &mut compared, x, y)? {
            return Ok(false);
        }
    }
    Ok(true)
}

/// Whether two constants can be equal; their parts are to be compared then.
fn compare<'a>(
    eval: &Evaluator<'_, 'a>,
    compared: &mut Compared,
    a: Value<'a>,
    b: Value<'a>,
) -> Result<bool, NoMemory> {
    match a {
        Value::Record(x) => match b {
            Value::Record(y) if x.len() == y.len() => {
                compared.add_rows(x, y)?;
                Ok(true)
            }
            _ => Ok(false),
        },
        Value::Array(x, count) => match b {
            Value::Array(y, others) if count == others => {
                compared.add_rows(x, y)?;
                Ok(true)
            }
            _ => Ok(false),
        },
        leaf => Ok(are_equal_leaves(leaf, b)),
    }
}
