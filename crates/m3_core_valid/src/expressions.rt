use crate::calls::expect_builtin;
use crate::chains::{judge_array, judge_value};
use crate::judge::Judge;
use crate::rows::{expect_bindings, expect_fields, judge_bindings, judge_elements, judge_fields};
use crate::tables::Form;
use m3_core::{CoreExpr, Operation};
use m3_source::KnownShape;
use m3_types::TypeId;

/// The type of an expression; None for what gives nothing.
pub fn kind_of(value: &CoreExpr<'_>) -> Option<TypeId> {
    match value {
        CoreExpr::Chain(chain) => chain.kind,
        CoreExpr::Builtin(call) => call.kind,
        CoreExpr::Operations { rest, .. } => match rest.last() {
            Some(operation) => Some(operation.kind),
            None => None,
        },
        CoreExpr::Number { kind, .. }
        | CoreExpr::Text { kind, .. }
        | CoreExpr::Nil { kind, .. }
        | CoreExpr::Procedure { kind, .. }
        | CoreExpr::InnerProcedure { kind, .. }
        | CoreExpr::Constant { kind, .. }
        | CoreExpr::Prefixed { kind, .. }
        | CoreExpr::SetOf { kind, .. }
        | CoreExpr::ArrayOf { kind, .. }
        | CoreExpr::RecordOf { kind, .. }
        | CoreExpr::New { kind, .. }
        | CoreExpr::Convert { kind, .. }
        | CoreExpr::TypeTest { kind, .. }
        | CoreExpr::ArrayLimit { kind, .. } => Some(*kind),
    }
}

/// Judges each expression of a row.
#[cycle(expressions)]
pub fn judge_row<'a>(judge: &mut Judge<'_>, row: &[CoreExpr<'a>]) {
    for value in row {
        judge_expression(judge, value);
    }
}

/// Judges an expression that may be missing.
pub fn judge_optional<'a>(judge: &mut Judge<'_>, value: Option<&CoreExpr<'a>>) {
    if let Some(value) = value {
        judge_expression(judge, value);
    }
}

/// Judges an expression.
#[cycle(expressions)]
pub fn judge_expression<'a>(judge: &mut Judge<'_>, value: &CoreExpr<'a>) {
    expect_node(judge, value);
    match value {
        CoreExpr::Chain(chain) => judge_value(judge, chain),
        CoreExpr::Builtin(call) => judge_row(judge, call.actuals),
        CoreExpr::Operations { first, rest, .. } => {
            judge_expression(judge, first);
            judge_operations(judge, rest);
        }
        CoreExpr::Prefixed { operand, .. }
        | CoreExpr::Convert { operand, .. }
        | CoreExpr::TypeTest { operand, .. } => judge_expression(judge, operand),
        CoreExpr::ArrayLimit { array, .. } => judge_array(judge, array),
        _ => judge_constructor(judge, value),
    }
}

/// Judges the parts of a constructor or NEW.
#[cycle(expressions)]
fn judge_constructor<'a>(judge: &mut Judge<'_>, value: &CoreExpr<'a>) {
    match value {
        CoreExpr::SetOf { elements, .. } => judge_elements(judge, elements),
        CoreExpr::ArrayOf { elements, .. } => judge_row(judge, elements),
        CoreExpr::RecordOf { fields, .. } => judge_fields(judge, fields),
        CoreExpr::New {
            sizes,
            bindings,
            ..
        } => {
            judge_row(judge, sizes);
            judge_bindings(judge, bindings);
        }
        _ => {}
    }
}

#[cycle(expressions)]
fn judge_operations<'a>(judge: &mut Judge<'_>, rest: &[Operation<'a>]) {
    for operation in rest {
        judge.expect_type(operation.kind);
        judge_expression(judge, operation.right);
    }
}

/// What a node names is there and of its kind, whatever its parts are.
fn expect_node(judge: &mut Judge<'_>, value: &CoreExpr<'_>) {
    judge.expect_optional(kind_of(value));
    match value {
        CoreExpr::Text { text, .. } => judge.expect_text(*text),
        CoreExpr::Constant { value, .. } => judge.expect_value(value.0),
        CoreExpr::Procedure { procedure, .. } => expect_outer(judge, *procedure),
        CoreExpr::InnerProcedure { procedure, .. } => expect_inner(judge, *procedure),
        CoreExpr::Builtin(call) => {
            judge.expect(call.kind.is_some());
            expect_builtin(judge, call);
        }
        CoreExpr::Prefixed { operators, .. } => judge.expect(!operators.is_empty()),
        CoreExpr::Operations { rest, .. } => judge.expect(!rest.is_empty()),
        CoreExpr::TypeTest { tested, .. } => judge.expect_type(*tested),
        _ => expect_constructor(judge, value),
    }
}

/// The type of a constructor or NEW is one for it.
fn expect_constructor(judge: &mut Judge<'_>, value: &CoreExpr<'_>) {
    match value {
        CoreExpr::SetOf { kind, .. } => judge.expect(matches!(judge.form(*kind), Form::Set)),
        CoreExpr::ArrayOf { kind, elements, .. } => expect_rows(judge, *kind, elements),
        CoreExpr::RecordOf { kind, fields, .. } => expect_fields(judge, *kind, fields),
        CoreExpr::New {
            made,
            sizes,
            bindings,
            ..
        } => {
            judge.expect_made(*made, sizes.len());
            expect_bindings(judge, *made, bindings);
        }
        _ => {}
    }
}

/// Constants fix the shape of each row of an open array of open arrays.
fn expect_rows(judge: &mut Judge<'_>, kind: TypeId, elements: &[CoreExpr<'_>]) {
    judge.expect(judge.is_array(kind));
    let has_open_rows = match judge.form(kind) {
        Form::OpenArray(row) => matches!(judge.form(row), Form::OpenArray(_)),
        _ => false,
    };
    if has_open_rows {
        for row in elements {
            judge.expect(has_known_shape(judge, row));
        }
    }
}

/// Whether a row is of a fixed array type, a constant or an array that is written out.
fn has_known_shape(judge: &Judge<'_>, row: &CoreExpr<'_>) -> bool {
    match KnownShape::of(row) {
        KnownShape::Written { .. } | KnownShape::Constant { .. } => true,
        KnownShape::Typed(Some(kind)) => matches!(judge.form(kind), Form::FixedArray),
        KnownShape::Typed(None) => false,
    }
}

/// A procedure of the outermost scope of a unit.
fn expect_outer(judge: &mut Judge<'_>, procedure: u32) {
    let is_outer = match judge.heading(procedure) {
        Some(heading) => heading.level == 0,
        None => false,
    };
    judge.expect(is_outer);
}

/// A procedure inside another, where there is an activation.
fn expect_inner(judge: &mut Judge<'_>, procedure: u32) {
    let is_inner = match judge.heading(procedure) {
        Some(heading) => heading.level > 0,
        None => false,
    };
    judge.expect(is_inner);
    judge.expect(judge.has_own());
}
