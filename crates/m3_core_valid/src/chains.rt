use crate::calls::{expect_called, judge_actuals};
use crate::expressions::{judge_expression, kind_of};
use crate::judge::Judge;
use crate::tables::Form;
use m3_core::{Base, Chain, Step};
use m3_types::TypeId;

/// What a chain gives up to a step: a place, or a value, if the step gives one at all.
#[derive(Clone, Copy)]
pub enum Given {
    Place(TypeId),
    Value(Option<TypeId>),
}

impl Given {
    /// The type of what is given.
    fn kind(self) -> Option<TypeId> {
        match self {
            Given::Place(kind) => Some(kind),
            Given::Value(kind) => kind,
        }
    }

    /// The type of the place that is given.
    fn place(self) -> Option<TypeId> {
        match self {
            Given::Place(kind) => Some(kind),
            Given::Value(_) => None,
        }
    }

    /// The type of the value that is given.
    pub fn value(self) -> Option<TypeId> {
        match self {
            Given::Place(_) => None,
            Given::Value(kind) => kind,
        }
    }
}

/// Judges a chain, and tells what it gives.
#[cycle(expressions)]
pub fn judge_chain<'a>(judge: &mut Judge<'_>, chain: &Chain<'a>) -> Given {
    let mut given = judge_base(judge, chain.base);
    for step in chain.steps {
        judge_step(judge, step);
        given = given_behind(judge, given, step);
    }
    judge.expect_optional(chain.kind);
    judge.expect(chain.kind.is_some() == given.kind().is_some());
    given
}

/// Judges a chain that has to give a value.
#[cycle(expressions)]
pub fn judge_value<'a>(judge: &mut Judge<'_>, chain: &Chain<'a>) {
    let given = judge_chain(judge, chain);
    judge.expect(given.value().is_some());
}

/// Judges a chain that has to give a place.
#[cycle(expressions)]
pub fn judge_place<'a>(judge: &mut Judge<'_>, chain: &Chain<'a>) {
    let given = judge_chain(judge, chain);
    judge.expect(given.place().is_some());
}

/// Judges a chain that has to give the place of an array.
#[cycle(expressions)]
pub fn judge_array<'a>(judge: &mut Judge<'_>, chain: &Chain<'a>) {
    let given = judge_chain(judge, chain);
    expect_array(judge, given);
}

fn expect_array(judge: &mut Judge<'_>, given: Given) {
    let is_array = match given {
        Given::Place(kind) => judge.is_array(kind),
        Given::Value(_) => false,
    };
    judge.expect(is_array);
}

#[cycle(expressions)]
fn judge_base<'a>(judge: &mut Judge<'_>, base: Base<'a>) -> Given {
    match base {
        Base::Inner(chain) => judge_chain(judge, chain),
        Base::Subarray {
            array,
            start,
            count,
            kind,
        } => {
            judge_array(judge, array);
            judge_expression(judge, start);
            judge_expression(judge, count);
            open_array_of(judge, kind)
        }
        Base::Value(value) => {
            judge_expression(judge, value);
            Given::Value(kind_of(value))
        }
        _ => variable_of(judge, base),
    }
}

/// The place of a variable.
fn variable_of(judge: &mut Judge<'_>, base: Base<'_>) -> Given {
    match base {
        Base::Global { variable, kind } => {
            judge.expect_global(variable);
            place_of(judge, kind)
        }
        Base::Local {
            level,
            variable,
            kind,
        } => {
            judge.expect(judge.is_alias(level, variable) == Some(false));
            place_of(judge, kind)
        }
        Base::Alias {
            level,
            variable,
            kind,
        } => {
            judge.expect(judge.is_alias(level, variable) == Some(true));
            place_of(judge, kind)
        }
        _ => Given::Value(None),
    }
}

/// A place of an open array type.
fn open_array_of(judge: &mut Judge<'_>, kind: TypeId) -> Given {
    judge.expect(matches!(judge.form(kind), Form::OpenArray(_)));
    Given::Place(kind)
}

/// A place of a type.
fn place_of(judge: &mut Judge<'_>, kind: TypeId) -> Given {
    judge.expect_type(kind);
    Given::Place(kind)
}

/// Judges what is evaluated in a step.
#[cycle(expressions)]
fn judge_step<'a>(judge: &mut Judge<'_>, step: &Step<'a>) {
    match step {
        Step::Element { index, .. } => judge_expression(judge, index),
        Step::Call { actuals, .. } | Step::MethodCall { actuals, .. } => judge_actuals(
            judge, actuals,
        ),
        _ => {}
    }
}

/// What a step gives behind what is given before it.
fn given_behind(judge: &mut Judge<'_>, before: Given, step: &Step<'_>) -> Given {
    match step {
        Step::Call { actuals, kind } => {
            expect_called(judge, before.value(), actuals, *kind);
            Given::Value(*kind)
        }
        Step::MethodCall {
            owner,
            method,
            actuals,
            kind,
        } => {
            expect_reference(judge, before);
            let signature = judge.signature_of(*owner, *method);
            expect_called(judge, signature, actuals, *kind);
            Given::Value(*kind)
        }
        Step::Element { kind, .. } => {
            expect_array(judge, before);
            place_of(judge, *kind)
        }
        Step::Read { kind } => {
            judge.expect(before.place().is_some());
            judge.expect_type(*kind);
            Given::Value(Some(*kind))
        }
        Step::Keep { kind } => {
            judge.expect(before.value().is_some());
            place_of(judge, *kind)
        }
        Step::Dereference { kind } => {
            expect_reference(judge, before);
            place_of(judge, *kind)
        }
        Step::Field { field, kind } => {
            expect_field(judge, before, *field);
            place_of(judge, *kind)
        }
        Step::ObjectField { owner, field, kind } => {
            expect_reference(judge, before);
            judge.expect((*field as usize) < judge.object_field_count(*owner));
            place_of(judge, *kind)
        }
    }
}

/// A value of a reference type has to be given.
fn expect_reference(judge: &mut Judge<'_>, given: Given) {
    let is_reference = match given {
        Given::Value(Some(kind)) => judge.is_reference(kind),
        _ => false,
    };
    judge.expect(is_reference);
}

/// The place of a record with such a field has to be given.
fn expect_field(judge: &mut Judge<'_>, given: Given, field: u32) {
    let count = match given {
        Given::Place(record) => judge.field_count(record),
        Given::Value(_) => 0,
    };
    judge.expect((field as usize) < count);
}
