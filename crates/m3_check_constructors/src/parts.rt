use m3_base::{NoMemory, Pos};
use m3_check_assigning::value_given;
use m3_check_state::{Checker, Given};
use m3_core::CoreExpr;

/// An element of a constructor: one, or all from the first to the last.
#[derive(Clone, Copy)]
pub struct Part<'a> {
    pub first: Given<'a>,
    pub last: Option<Given<'a>>,
}

/// A constructor as it is written: the place of its first token and of its brace, and whether `..`
/// ends it.
#[derive(Clone, Copy)]
pub struct Written {
    pub pos: Pos,
    pub brace: Pos,
    pub is_filled: bool,
}

/// Judges a part that belongs to nothing.
pub fn judge_part<'a>(checker: &mut Checker<'_, 'a>, part: &Part<'a>) -> Result<(), NoMemory> {
    value_given(checker, &part.first)?;
    if let Some(last) = &part.last {
        value_given(checker, last)?;
    }
    Ok(())
}

/// What becomes of the parts of a constructor.
#[derive(Clone, Copy)]
pub struct Judged {
    /// They don't fit the type.
    pub is_wrong: bool,
    /// One was refused.
    pub is_bad: bool,
}

impl Judged {
    /// The expression that they make, if any.
    pub fn make<'a>(self, expr: CoreExpr<'a>) -> Made<'a> {
        if self.is_wrong {
            Made::Wrong
        } else if self.is_bad {
            Made::Bad
        } else {
            Made::Value(expr)
        }
    }
}

/// What became of a constructor.
pub enum Made<'a> {
    /// Its parts don't fit its type.
    Wrong,
    /// A part was refused.
    Bad,
    Value(CoreExpr<'a>),
}
