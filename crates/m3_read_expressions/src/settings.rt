ghost use Rattle.std.specs.Prelude.{◌≡◌};

use m3_syntax::{Expr, TypeExp};

/// What may be an expression or a type, in the arena: what is both is an expression.
#[derive(Clone, Copy)]
pub enum Found<'a> {
    Value(&'a Expr<'a>),
    TypeExp(&'a TypeExp<'a>),
}

/// What is wanted of an expression that begins.
#[derive(Clone, Copy, PartialEq, Eq)]
pub enum Want {
    /// An expression.
    Value,
    /// An actual: an expression, or a type.
    Actual,
    /// The text of BRANDED: an expression, behind which the branded OBJECT may stand.
    Brand,
}

/// How an expression stands in what surrounds it.
#[derive(Clone, Copy)]
pub struct Setting {
    /// How many constructs may still open in it.
    pub room: u32,
    /// The same for the actuals of calls on the whole of it: one more where it begins a
    /// statement, since such a call may be the statement itself.
    pub calls: u32,
    pub want: Want,
}

impl Setting {
    /// The setting of an operand behind an operator or a sign, with which no actual begins.
    pub fn behind_operator(self) -> Setting
        ensures room { result.room ≡ self.room }
        ensures calls { result.calls ≡ self.calls }
    {
        match self.want {
            Want::Actual => Setting {
                want: Want::Value,
                ..self
            },
            _ => self,
        }
    }
}
