use crate::uses::Uses;
use m3_core::{Actual, Base, Binding, Chain, CoreExpr, FieldValue, Operation, SetElement, Step};

/// Notes that the place is written: its variable, where nothing is selected from it.
pub(crate) fn mark_written(uses: &mut Uses, chain: &Chain) {
    if let Base::Local {
        level,
        variable,
        ..
    } = chain.base
    {
        uses.note_written(level, variable);
    }
}

/// Notes that the address of the place is taken, and so that of the variable behind it.
pub(crate) fn mark_taken(uses: &mut Uses, chain: &Chain) {
    match chain.base {
        Base::Local {
            level,
            variable,
            ..
        } => uses.note_taken(level, variable),
        Base::Alias { .. } | Base::Global { .. } | Base::Value(_) => {}
        Base::Inner(inner) => mark_taken(uses, inner),
        Base::Subarray { array, .. } => mark_taken(uses, array),
    }
}

/// Notes what a chain names.
#[cycle(expressions)]
pub(crate) fn mark_chain(uses: &mut Uses, chain: &Chain) {
    match chain.base {
        Base::Global { .. } => {}
        Base::Local {
            level,
            variable,
            ..
        }
        | Base::Alias {
            level,
            variable,
            ..
        } => {
            uses.note_named(level, variable);
        }
        Base::Inner(inner) => mark_chain(uses, inner),
        Base::Subarray {
            array,
            start,
            count,
            ..
        } => {
            mark_chain(uses, array);
            mark_expression(uses, start);
            mark_expression(uses, count);
        }
        Base::Value(value) => mark_expression(uses, value),
    }
    for step in chain.steps {
        mark_step(uses, step);
    }
}

#[cycle(expressions)]
fn mark_step(uses: &mut Uses, step: &Step) {
    match step {
        Step::Element { index, .. } => mark_expression(uses, index),
        Step::Call { actuals, .. } | Step::MethodCall { actuals, .. } => {
            mark_actuals(uses, actuals);
        }
        Step::Read { .. }
        | Step::Keep { .. }
        | Step::Dereference { .. }
        | Step::Field { .. }
        | Step::ObjectField { .. } => {}
    }
}

#[cycle(expressions)]
fn mark_actuals(uses: &mut Uses, actuals: &[Actual]) {
    for actual in actuals {
        match actual {
            Actual::Value { value, .. } => mark_expression(uses, value),
            Actual::Place { place, .. } => {
                mark_taken(uses, place);
                mark_chain(uses, place);
            }
        }
    }
}

/// Notes what an expression names.
#[cycle(expressions)]
pub(crate) fn mark_expression(uses: &mut Uses, value: &CoreExpr) {
    match value {
        CoreExpr::Number { .. }
        | CoreExpr::Nil { .. }
        | CoreExpr::Procedure { .. }
        | CoreExpr::InnerProcedure { .. } => {}
        CoreExpr::Text { text, .. } => uses.note_text(*text),
        CoreExpr::Constant { kind, value, .. } => uses.note_constant(value.0, *kind),
        CoreExpr::Chain(chain) => mark_chain(uses, chain),
        CoreExpr::Builtin(call) => mark_row(uses, call.actuals),
        CoreExpr::Prefixed { operand, .. }
        | CoreExpr::Convert { operand, .. }
        | CoreExpr::TypeTest { operand, .. } => mark_expression(uses, operand),
        CoreExpr::Operations { first, rest, .. } => {
            mark_expression(uses, first);
            mark_operations(uses, rest);
        }
        CoreExpr::SetOf { elements, .. } => mark_elements(uses, elements),
        CoreExpr::ArrayOf { elements, .. } => mark_row(uses, elements),
        CoreExpr::RecordOf { fields, .. } => mark_fields(uses, fields),
        CoreExpr::New {
            sizes,
            bindings,
            ..
        } => {
            mark_row(uses, sizes);
            mark_bindings(uses, bindings);
        }
        CoreExpr::ArrayLimit { array, .. } => mark_chain(uses, array),
    }
}

/// Notes what each expression of a row names.
#[cycle(expressions)]
pub(crate) fn mark_row(uses: &mut Uses, row: &[CoreExpr]) {
    for value in row {
        mark_expression(uses, value);
    }
}

#[cycle(expressions)]
fn mark_operations(uses: &mut Uses, row: &[Operation]) {
    for operation in row {
        mark_expression(uses, operation.right);
    }
}

#[cycle(expressions)]
fn mark_elements(uses: &mut Uses, row: &[SetElement]) {
    for element in row {
        match element {
            SetElement::One(value) => mark_expression(uses, value),
            SetElement::Range(first, last) => {
                mark_expression(uses, first);
                mark_expression(uses, last);
            }
        }
    }
}

#[cycle(expressions)]
fn mark_fields(uses: &mut Uses, row: &[FieldValue]) {
    for field in row {
        mark_expression(uses, field.value);
    }
}

#[cycle(expressions)]
fn mark_bindings(uses: &mut Uses, row: &[Binding]) {
    for binding in row {
        mark_expression(uses, binding.value);
    }
}
