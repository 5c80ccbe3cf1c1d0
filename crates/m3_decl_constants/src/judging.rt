use m3_base::{NoMemory, rules};
use m3_const_values::{Known, Worth, converted, fits};
use m3_const_walk::expression;
use m3_core::Value;
use m3_decl_state::{Declarer, Doubtful, Doubts, Promise};
use m3_syntax::Expr;
use m3_types::TypeId;

/// What an expression is worth.
pub fn worth_of<'a>(
    declarer: &mut Declarer<'_, 'a>,
    doubts: &mut Doubts<'a>,
    value: &'a Expr<'a>,
    is_constant: bool,
) -> Result<Option<Worth<'a>>, NoMemory> {
    let lacking = declarer.eval.lacks.len();
    declarer.eval.is_constant = is_constant;
    declarer.eval.flaw = None;
    declarer.eval.assumed.clear();
    let worth = expression(&mut declarer.eval, value)?;
    assume(declarer, doubts, value)?;
    if declarer.eval.lacks.len() > lacking {
        return Ok(None);
    }
    if let Some(flaw) = declarer.eval.flaw {
        declarer.reasons.push(flaw)?;
        return Ok(None);
    }
    let refused = declarer.eval.declared.basic.refused;
    match worth {
        Some(worth) if worth.kind != refused => Ok(Some(worth)),
        _ => {
            if is_constant {
                let unit = declarer.eval.unit;
                doubts.doubts.push(Doubtful { unit, value })?;
            }
            Ok(None)
        }
    }
}

/// Keeps what the judging of an expression assumed.
fn assume<'a>(
    declarer: &mut Declarer<'_, 'a>,
    doubts: &mut Doubts<'a>,
    value: &'a Expr<'a>,
) -> Result<(), NoMemory> {
    for assumed in &declarer.eval.assumed {
        let assumed = *assumed;
        doubts.assumed.push(Promise {
            assumed,
            value,
            constant: None,
        })?;
    }
    declarer.eval.assumed.clear();
    Ok(())
}

/// The type and the value of a constant expression (rules 40 to 43).
pub fn typed_constant<'a>(
    declarer: &mut Declarer<'_, 'a>,
    doubts: &mut Doubts<'a>,
    value: &'a Expr<'a>,
) -> Result<Option<(TypeId, Value<'a>)>, NoMemory> {
    let Some(worth) = worth_of(declarer, doubts, value, true)? else {
        return Ok(None);
    };
    match worth.value {
        Known::Value(known) => Ok(Some((worth.kind, known))),
        Known::Varies(reason) => {
            declarer.reasons.push(reason)?;
            Ok(None)
        }
    }
}

/// The value of a constant expression as one of a type (rules 43 and 44).
pub fn constant_of<'a>(
    declarer: &mut Declarer<'_, 'a>,
    doubts: &mut Doubts<'a>,
    value: &'a Expr<'a>,
    to: TypeId,
) -> Result<Option<Value<'a>>, NoMemory> {
    let Some((kind, known)) = typed_constant(declarer, doubts, value)? else {
        return Ok(None);
    };
    if declarer.eval.was_refused(to) || declarer.eval.declared.is_unsure(kind, to) {
        return Ok(None);
    }
    let pos = value.pos();
    let fits = fits(&mut declarer.eval, pos, kind, to, true)?;
    assume(declarer, doubts, value)?;
    if !declarer.has_all() {
        return Ok(None);
    }
    if !fits {
        declarer.refuse(pos, rules::WRONG_KIND_OF_CONSTANT)?;
        return Ok(None);
    }
    let worth = Worth {
        kind,
        value: Known::Value(known),
        is_fixed: false,
    };
    match converted(&mut declarer.eval, pos, worth, to)?.value {
        Known::Value(converted) => Ok(Some(converted)),
        Known::Varies(reason) => {
            declarer.reasons.push(reason)?;
            Ok(None)
        }
    }
}
