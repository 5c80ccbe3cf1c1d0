use crate::gathered::Gatherer;
use crate::types::gather_type;
use m3_syntax::{Actual, Element, Expr, Selector};

/// Lists what an expression has.
#[cycle(phrases)]
pub fn gather_expression<'a>(gatherer: &mut Gatherer<'_, 'a>, value: &'a Expr<'a>) {
    match value {
        Expr::Number { .. } | Expr::CharLit { .. } | Expr::Missing { .. } | Expr::Name(_) => {}
        Expr::TextLit { pos, text } => gatherer.text(*pos, text),
        Expr::Parenthesis { inner, .. } => gather_expression(gatherer, inner),
        Expr::Not { operand, .. } | Expr::Signed { operand, .. } => {
            gather_expression(gatherer, operand);
        }
        Expr::Operations { first, rest, .. } => {
            gather_expression(gatherer, first);
            for operation in *rest {
                gather_expression(gatherer, operation.right);
            }
        }
        Expr::Selected {
            operand,
            selectors,
            ..
        } => {
            gather_expression(gatherer, operand);
            for selector in *selectors {
                gather_selector(gatherer, selector);
            }
        }
        Expr::Constructor { kind, elements, .. } => {
            gather_type(gatherer, kind);
            for element in *elements {
                gather_element(gatherer, element);
            }
        }
    }
}

#[cycle(phrases)]
fn gather_selector<'a>(gatherer: &mut Gatherer<'_, 'a>, selector: &'a Selector<'a>) {
    match selector {
        Selector::Dereference(_) | Selector::Member(_) => {}
        Selector::Index(_, indexes) => {
            for index in *indexes {
                gather_expression(gatherer, index);
            }
        }
        Selector::Call(_, actuals) => gather_actuals(gatherer, actuals),
    }
}

/// Lists what the actuals of a call have.
#[cycle(phrases)]
pub fn gather_actuals<'a>(gatherer: &mut Gatherer<'_, 'a>, actuals: &'a [Actual<'a>]) {
    for actual in actuals {
        match actual {
            Actual::Value(value) | Actual::Named(_, value) => gather_expression(gatherer, value),
            Actual::Type(kind) => gather_type(gatherer, kind),
        }
    }
}

#[cycle(phrases)]
fn gather_element<'a>(gatherer: &mut Gatherer<'_, 'a>, element: &'a Element<'a>) {
    match element {
        Element::Value(value) | Element::Named(_, value) => gather_expression(gatherer, value),
        Element::Range(first, last) => {
            gather_expression(gatherer, first);
            gather_expression(gatherer, last);
        }
    }
}
