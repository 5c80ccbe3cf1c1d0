use bumpalo::Bump;
use bumpalo::collections::into_bump_slice;
use m3_base::{NoMemory, Pos};
use m3_const_values::{Evaluator, newest_member};
use m3_decl_lookup::Member;
use m3_syntax::{Actual, Expr, Selector};
use m3_types::{ConstId, ConstValue, Field, Method, Override, TypeId, TypeNode};

/// The type of NEW of a type: with bound methods an object type that overrides them.
pub fn made<'a>(
    eval: &mut Evaluator<'_, 'a>,
    kind: TypeId,
    actuals: &[Actual<'a>],
) -> Result<TypeId, NoMemory> {
    let mut overrides = Vec::new(eval.arena);
    for actual in actuals {
        if let Actual::Named(name, value) = actual {
            if let Some(procedure) = bound_method(eval, kind, name.text, value)? {
                let constant = TypeNode::Constant(ConstValue::Procedure(procedure));
                let value = ConstId(eval.declared.types.push(constant)?.0);
                overrides.push(Override {
                    name: name.text,
                    value,
                })?;
            }
        }
    }
    if overrides.is_empty() {
        return Ok(kind);
    }
    let fields: Vec<Field<'a>, &'a Bump> = Vec::new(eval.arena);
    let methods: Vec<Method<'a>, &'a Bump> = Vec::new(eval.arena);
    let node = TypeNode::Object(
        None,
        kind,
        into_bump_slice(fields),
        into_bump_slice(methods),
        into_bump_slice(overrides),
    );
    Ok(eval.declared.types.push(node)?)
}

/// The procedure that a binding of NEW gives to a method.
fn bound_method<'a>(
    eval: &mut Evaluator<'_, 'a>,
    kind: TypeId,
    name: &'a [u8],
    value: &Expr<'a>,
) -> Result<Option<u32>, NoMemory> {
    let Some(found) = newest_member(eval, kind, name)? else {
        return Ok(None);
    };
    let Member::Method(_) = found.member else {
        return Ok(None);
    };
    match procedure_named(eval, value) {
        Some(procedure) => Ok(Some(procedure)),
        None => Ok(None),
    }
}

/// The number of the procedure that an expression names, through parentheses.
fn procedure_named<'a>(eval: &Evaluator<'_, 'a>, value: &Expr<'a>) -> Option<u32> {
    let id = eval.program.binds.at(eval.unit, naming_pos(value)?)?;
    eval.declared.procedure_number(id)
}

/// The place of the name that an expression is, or that stands behind its one dot.
fn naming_pos(value: &Expr<'_>) -> Option<Pos> {
    match value {
        Expr::Parenthesis { inner, .. } => naming_pos(inner),
        Expr::Name(name) => Some(name.pos),
        Expr::Selected { selectors, .. } => member_pos(selectors),
        _ => None,
    }
}

/// The place of the name behind the one dot of a row of selectors.
fn member_pos(selectors: &[Selector<'_>]) -> Option<Pos> {
    if selectors.len() != 1 {
        return None;
    }
    match selectors.first() {
        Some(Selector::Member(name)) => Some(name.pos),
        _ => None,
    }
}
