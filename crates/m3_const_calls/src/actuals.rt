use m3_base::Pos;
use m3_const_values::{Evaluator, Thing};
use m3_link_scopes::Predeclared;
use m3_syntax::Actual;
use m3_types::TypeId;

/// What the first three actuals of a predeclared routine are, with the places where they begin.
#[derive(Clone, Copy)]
pub struct Given<'a> {
    pub first: Thing<'a>,
    pub second: Thing<'a>,
    pub third: Thing<'a>,
    pub first_pos: Pos,
    pub second_pos: Pos,
    pub third_pos: Pos,
}

/// The least and the greatest number of actuals of a predeclared routine.
pub fn limits(routine: Predeclared) -> (usize, usize) {
    match routine {
        Predeclared::Abs
        | Predeclared::First
        | Predeclared::Last
        | Predeclared::Number
        | Predeclared::Ord => (1, 1),
        Predeclared::Inc | Predeclared::Dec => (1, 2),
        Predeclared::Subarray => (3, 3),
        _ => (2, 2),
    }
}

/// Whether an actual has a name.
pub fn has_name(actuals: &[Actual<'_>]) -> bool {
    for actual in actuals {
        if let Actual::Named(_, _) = actual {
            return true;
        }
    }
    false
}

/// Takes the actual at a place, from 0 to 2.
pub fn take<'a>(given: &mut Given<'a>, place: usize, thing: Thing<'a>, pos: Pos) {
    match place {
        0 => {
            given.first = thing;
            given.first_pos = pos;
        }
        1 => {
            given.second = thing;
            given.second_pos = pos;
        }
        _ => {
            given.third = thing;
            given.third_pos = pos;
        }
    }
}

/// The type that an actual has to be.
pub fn type_argument<'a>(
    eval: &mut Evaluator<'_, 'a>,
    pos: Pos,
    thing: Thing<'a>,
) -> Option<TypeId> {
    match thing {
        Thing::Type(kind) if kind != eval.declared.basic.refused => Some(kind),
        Thing::Type(_) | Thing::Bad => None,
        other => {
            eval.value_of(pos, other);
            None
        }
    }
}
