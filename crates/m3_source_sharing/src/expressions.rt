use crate::marks::{Marks, Use};
use m3_core::{Actual, Base, Chain, CoreExpr, SetElement, Step};

/// Marks what is shared in an expression.
#[cycle(expressions)]
pub fn mark_expression(marks: &mut Marks<'_>, e: &CoreExpr<'_>) {
    match e {
        CoreExpr::Chain(chain) | CoreExpr::ArrayLimit { array: chain, .. } => {
            mark_chain(marks, chain);
        }
        CoreExpr::Builtin(call) => mark_row(marks, call.actuals),
        CoreExpr::Operations { first, rest, .. } => {
            mark_expression(marks, first);
            for operation in *rest {
                mark_expression(marks, operation.right);
            }
        }
        CoreExpr::Prefixed { operand, .. }
        | CoreExpr::Convert { operand, .. }
        | CoreExpr::TypeTest { operand, .. } => mark_expression(marks, operand),
        CoreExpr::SetOf { elements, .. } => mark_elements(marks, elements),
        CoreExpr::ArrayOf { elements, .. } => mark_row(marks, elements),
        CoreExpr::RecordOf { fields, .. } => {
            for field in *fields {
                mark_expression(marks, field.value);
            }
        }
        CoreExpr::New {
            sizes,
            bindings,
            ..
        } => {
            mark_row(marks, sizes);
            for binding in *bindings {
                mark_expression(marks, binding.value);
            }
        }
        _ => {}
    }
}

#[cycle(expressions)]
fn mark_row(marks: &mut Marks<'_>, row: &[CoreExpr<'_>]) {
    for e in row {
        mark_expression(marks, e);
    }
}

#[cycle(expressions)]
fn mark_elements(marks: &mut Marks<'_>, elements: &[SetElement<'_>]) {
    for element in elements {
        match element {
            SetElement::One(e) => mark_expression(marks, e),
            SetElement::Range(first, last) => {
                mark_expression(marks, first);
                mark_expression(marks, last);
            }
        }
    }
}

/// Marks what is shared in a chain; the variable of which it is a place, if it is one of a
/// procedure.
#[cycle(expressions)]
pub fn mark_chain(marks: &mut Marks<'_>, chain: &Chain<'_>) -> Option<Use> {
    let root = mark_base(marks, chain.base);
    for step in chain.steps {
        match step {
            Step::Element { index, .. } => mark_expression(marks, index),
            Step::Call { actuals, .. } | Step::MethodCall { actuals, .. } => {
                mark_actuals(marks, actuals);
            }
            _ => {}
        }
    }
    root
}

#[cycle(expressions)]
fn mark_base(marks: &mut Marks<'_>, base: Base<'_>) -> Option<Use> {
    match base {
        Base::Global { .. } => None,
        Base::Local {
            level,
            variable,
            ..
        } => {
            marks.name(Use { level, variable });
            Some(Use { level, variable })
        }
        Base::Alias {
            level,
            variable,
            ..
        } => {
            marks.name(Use { level, variable });
            None
        }
        Base::Inner(inner) => mark_chain(marks, inner),
        Base::Subarray {
            array,
            start,
            count,
            ..
        } => {
            let root = mark_chain(marks, array);
            mark_expression(marks, start);
            mark_expression(marks, count);
            root
        }
        Base::Value(e) => {
            mark_expression(marks, e);
            None
        }
    }
}

#[cycle(expressions)]
fn mark_actuals(marks: &mut Marks<'_>, actuals: &[Actual<'_>]) {
    for actual in actuals {
        match actual {
            Actual::Value { value, .. } => mark_expression(marks, value),
            Actual::Place { place, .. } => {
                let root = mark_chain(marks, place);
                marks.let_out(root);
            }
        }
    }
}
