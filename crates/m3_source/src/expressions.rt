use crate::counts::Counts;
use crate::frames::{open_dims, words_of_actual};
use m3_core::{
    Actual, Base, Binding, BuiltinCall, Chain, CoreExpr, FieldValue, Operation, Operator, Routine,
    SetElement, Step,
};
use m3_types::TypeId;

/// Counts what stands in an expression.
#[cycle(expressions)]
pub fn count_expression(counts: &mut Counts<'_, '_>, e: &CoreExpr<'_>) {
    match e {
        CoreExpr::Number { .. }
        | CoreExpr::Nil { .. }
        | CoreExpr::Procedure { .. }
        | CoreExpr::Constant { .. } => counts.add_constant(e),
        CoreExpr::Text { .. } | CoreExpr::InnerProcedure { .. } => counts.add_node(),
        CoreExpr::Chain(chain) => count_chain(counts, chain),
        CoreExpr::Builtin(call) => count_builtin(counts, call),
        CoreExpr::Prefixed {
            operators,
            operand,
            ..
        } => {
            counts.add_nodes(operators.len());
            count_expression(counts, operand);
        }
        CoreExpr::Operations { first, rest, .. } => {
            count_expression(counts, first);
            count_operations(counts, rest);
        }
        CoreExpr::SetOf { elements, .. } => {
            counts.add_constructor(e);
            count_elements(counts, elements);
        }
        CoreExpr::ArrayOf { elements, .. } => {
            counts.add_constructor(e);
            count_row(counts, elements);
        }
        CoreExpr::RecordOf { fields, .. } => {
            counts.add_constructor(e);
            count_fields(counts, fields);
        }
        CoreExpr::New {
            made,
            sizes,
            bindings,
            ..
        } => {
            counts.add_made(*made);
            count_row(counts, sizes);
            count_bindings(counts, bindings);
        }
        CoreExpr::Convert { operand, .. } | CoreExpr::TypeTest { operand, .. } => {
            counts.add_node();
            count_expression(counts, operand);
        }
        CoreExpr::ArrayLimit { array, .. } => {
            counts.add_node();
            count_chain(counts, array);
        }
    }
}

/// Counts what stands in a chain.
#[cycle(expressions)]
pub fn count_chain(counts: &mut Counts<'_, '_>, chain: &Chain<'_>) {
    match chain.base {
        Base::Global { .. } | Base::Local { .. } | Base::Alias { .. } => counts.add_node(),
        Base::Inner(inner) => count_chain(counts, inner),
        Base::Subarray {
            array,
            start,
            count,
            ..
        } => {
            counts.add_node();
            count_chain(counts, array);
            count_expression(counts, start);
            count_expression(counts, count);
        }
        Base::Value(e) => count_expression(counts, e),
    }
    for step in chain.steps {
        count_step(counts, step);
    }
}

#[cycle(expressions)]
fn count_step(counts: &mut Counts<'_, '_>, step: &Step<'_>) {
    match step {
        Step::Keep { .. } => {}
        Step::Read { .. }
        | Step::Dereference { .. }
        | Step::Field { .. }
        | Step::ObjectField { .. } => counts.add_node(),
        Step::Element { index, .. } => {
            counts.add_node();
            count_expression(counts, index);
        }
        Step::Call { actuals, kind } | Step::MethodCall { actuals, kind, .. } => {
            counts.add_node();
            counts.add_point();
            counts.add_value(*kind);
            count_actuals(counts, actuals);
        }
    }
}

#[cycle(expressions)]
fn count_actuals(counts: &mut Counts<'_, '_>, actuals: &[Actual<'_>]) {
    for actual in actuals {
        add_actual(counts, actual);
        match actual {
            Actual::Value { value, .. } => count_expression(counts, value),
            Actual::Place { place, .. } => count_chain(counts, place),
        }
    }
}

/// The words of an actual, and the point at which an open array is copied.
fn add_actual(counts: &mut Counts<'_, '_>, actual: &Actual<'_>) {
    let words = words_of_actual(counts.types, actual);
    counts.add_words(words);
    if let Actual::Value { kind, .. } = actual {
        if open_dims(counts.types, *kind) > 0 {
            counts.add_point();
        }
    }
}

/// Counts what stands in the call of a routine.
#[cycle(expressions)]
pub fn count_builtin(counts: &mut Counts<'_, '_>, call: &BuiltinCall<'_>) {
    counts.add_node();
    counts.add_value(call.kind);
    if passes_point(call.routine) {
        counts.add_point();
    }
    for e in call.actuals {
        counts.add_value(kind_of(e));
        count_expression(counts, e);
    }
}

#[cycle(expressions)]
fn count_row(counts: &mut Counts<'_, '_>, row: &[CoreExpr<'_>]) {
    for e in row {
        count_expression(counts, e);
    }
}

#[cycle(expressions)]
fn count_operations(counts: &mut Counts<'_, '_>, row: &[Operation<'_>]) {
    for operation in row {
        counts.add_node();
        if let Operator::Concatenate = operation.operator {
            counts.add_point();
        }
        count_expression(counts, operation.right);
    }
}

#[cycle(expressions)]
fn count_elements(counts: &mut Counts<'_, '_>, row: &[SetElement<'_>]) {
    for element in row {
        match element {
            SetElement::One(e) => count_expression(counts, e),
            SetElement::Range(first, last) => {
                count_expression(counts, first);
                count_expression(counts, last);
            }
        }
    }
}

#[cycle(expressions)]
fn count_fields(counts: &mut Counts<'_, '_>, row: &[FieldValue<'_>]) {
    for field in row {
        count_expression(counts, field.value);
    }
}

#[cycle(expressions)]
fn count_bindings(counts: &mut Counts<'_, '_>, row: &[Binding<'_>]) {
    for binding in row {
        counts.add_value(kind_of(binding.value));
        count_expression(counts, binding.value);
    }
}

/// Whether the call of a routine passes a point.
fn passes_point(routine: Routine) -> bool {
    !matches!(
        routine,
        Routine::Min | Routine::Max | Routine::Ord | Routine::Val
    )
}

/// The type of an expression; none of a call without result.
pub fn kind_of(e: &CoreExpr<'_>) -> Option<TypeId> {
    match e {
        CoreExpr::Number { kind, .. }
        | CoreExpr::Text { kind, .. }
        | CoreExpr::Nil { kind, .. }
        | CoreExpr::Procedure { kind, .. }
        | CoreExpr::InnerProcedure { kind, .. }
        | CoreExpr::Constant { kind, .. }
        | CoreExpr::Prefixed { kind, .. }
        | CoreExpr::SetOf { kind, .. }
        | CoreExpr::ArrayOf { kind, .. }
        | CoreExpr::RecordOf { kind, .. }
        | CoreExpr::New { kind, .. }
        | CoreExpr::Convert { kind, .. }
        | CoreExpr::TypeTest { kind, .. }
        | CoreExpr::ArrayLimit { kind, .. } => Some(*kind),
        CoreExpr::Chain(chain) => chain.kind,
        CoreExpr::Builtin(call) => call.kind,
        CoreExpr::Operations { rest, .. } => match rest.last() {
            Some(operation) => Some(operation.kind),
            None => None,
        },
    }
}
