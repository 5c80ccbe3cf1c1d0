use m3_base::NoMemory;
use m3_check_names::{thing_named, type_of};
use m3_check_state::{Checker, Thing};
use m3_syntax::{Expr, TypeExp};

/// What an expression is that holds no other: a name or a literal.
pub fn leaf<'a>(checker: &Checker<'_, 'a>, value: &Expr<'a>) -> Result<Thing<'a>, NoMemory> {
    match value {
        Expr::Name(name) => thing_named(checker, *name),
        Expr::Number { pos, value } => {
            checker.number(*pos, checker.declared.basic.integer, *value)
        }
        Expr::CharLit { pos, value } => {
            checker.number(*pos, checker.declared.basic.character, i64::from(*value))
        }
        Expr::TextLit { pos, .. } => checker.text(*pos),
        _ => Ok(Thing::Bad),
    }
}

/// What a type is that is given as an actual.
pub fn type_thing<'a>(checker: &mut Checker<'_, 'a>, kind: &TypeExp<'a>) -> Thing<'a> {
    match type_of(checker, kind) {
        Some(kind) => Thing::Type(kind),
        None => Thing::Bad,
    }
}
