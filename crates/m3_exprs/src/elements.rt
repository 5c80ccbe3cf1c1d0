use m3_check_constructors::Part;
use m3_check_names::inner_name;
use m3_check_state::{Checker, Given, Thing};
use m3_syntax::{Actual, Expr, Name};

fn given<'a>(
    checker: &Checker<'_, 'a>,
    name: Option<Name<'a>>,
    value: &Expr<'a>,
    thing: Thing<'a>,
) -> Given<'a> {
    Given {
        pos: value.pos(),
        name,
        inner: inner_name(checker, value),
        thing,
    }
}

/// An actual of a call, by what it is.
pub fn actual_given<'a>(
    checker: &Checker<'_, 'a>,
    actual: &Actual<'a>,
    thing: Thing<'a>,
) -> Given<'a> {
    match actual {
        Actual::Value(value) => given(checker, None, value, thing),
        Actual::Named(name, value) => given(checker, Some(*name), value, thing),
        Actual::Type(kind) => Given {
            pos: kind.pos(),
            name: None,
            inner: None,
            thing,
        },
    }
}

/// An element that is one expression.
pub fn one<'a>(checker: &Checker<'_, 'a>, value: &Expr<'a>, thing: Thing<'a>) -> Part<'a> {
    Part {
        first: given(checker, None, value, thing),
        last: None,
    }
}

/// `name := value`.
pub fn named<'a>(
    checker: &Checker<'_, 'a>,
    name: Name<'a>,
    value: &Expr<'a>,
    thing: Thing<'a>,
) -> Part<'a> {
    Part {
        first: given(checker, Some(name), value, thing),
        last: None,
    }
}

/// `first .. last`.
pub fn range<'a>(
    checker: &Checker<'_, 'a>,
    first: &Expr<'a>,
    from: Thing<'a>,
    last: &Expr<'a>,
    to: Thing<'a>,
) -> Part<'a> {
    Part {
        first: given(checker, None, first, from),
        last: Some(given(checker, None, last, to)),
    }
}
