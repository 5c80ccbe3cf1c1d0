use crate::types::walk_type;
use m3_base::NoMemory;
use m3_link_scopes::Linker;
use m3_syntax::{Actual, Element, Expr, Name, Selector};

/// The names in an expression.
#[cycle(phrases)]
pub fn walk_expression<'a>(linker: &mut Linker<'a>, value: &Expr<'a>) -> Result<(), NoMemory> {
    match value {
        Expr::Number { .. } | Expr::CharLit { .. } | Expr::TextLit { .. } | Expr::Missing { .. } =>
            Ok(()),
        Expr::Name(name) => {
            linker.name(*name)?;
            Ok(())
        }
        Expr::Parenthesis { inner, .. } => walk_expression(linker, inner),
        Expr::Not { operand, .. } | Expr::Signed { operand, .. } => {
            walk_expression(linker, operand)
        }
        Expr::Operations { first, rest, .. } => {
            walk_expression(linker, first)?;
            for operation in *rest {
                walk_expression(linker, operation.right)?;
            }
            Ok(())
        }
        Expr::Selected {
            operand,
            selectors,
            ..
        } => {
            match operand {
                Expr::Name(name) => walk_first(linker, *name, selectors)?,
                other => walk_expression(linker, other)?,
            }
            for selector in *selectors {
                walk_selector(linker, selector)?;
            }
            Ok(())
        }
        Expr::Constructor { kind, elements, .. } => {
            walk_type(linker, kind)?;
            for element in *elements {
                walk_element(linker, element)?;
            }
            Ok(())
        }
    }
}

/// The name that a chain of selectors begins with, and behind it a name of the interface that it
/// may be.
fn walk_first<'a>(
    linker: &mut Linker<'a>,
    name: Name<'a>,
    selectors: &[Selector<'a>],
) -> Result<(), NoMemory> {
    let found = linker.name(name)?;
    if let (Some(found), Some(Selector::Member(member))) = (found, selectors.first()) {
        linker.member(found.kind, *member)?;
    }
    Ok(())
}

#[cycle(phrases)]
fn walk_selector<'a>(linker: &mut Linker<'a>, selector: &Selector<'a>) -> Result<(), NoMemory> {
    match selector {
        Selector::Dereference(_) | Selector::Member(_) => Ok(()),
        Selector::Index(_, indexes) => {
            for index in *indexes {
                walk_expression(linker, index)?;
            }
            Ok(())
        }
        Selector::Call(_, actuals) => walk_actuals(linker, actuals),
    }
}

/// The names in the actuals of a call.
#[cycle(phrases)]
pub fn walk_actuals<'a>(linker: &mut Linker<'a>, actuals: &[Actual<'a>]) -> Result<(), NoMemory> {
    for actual in actuals {
        match actual {
            Actual::Value(value) | Actual::Named(_, value) => walk_expression(linker, value)?,
            Actual::Type(kind) => walk_type(linker, kind)?,
        }
    }
    Ok(())
}

#[cycle(phrases)]
fn walk_element<'a>(linker: &mut Linker<'a>, element: &Element<'a>) -> Result<(), NoMemory> {
    match element {
        Element::Value(value) | Element::Named(_, value) => walk_expression(linker, value),
        Element::Range(first, last) => {
            walk_expression(linker, first)?;
            walk_expression(linker, last)
        }
    }
}
