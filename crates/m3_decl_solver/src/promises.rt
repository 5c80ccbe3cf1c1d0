use m3_base::NoMemory;
use m3_const_values::{Assumed, assignability};
use m3_decl_state::{Declarer, Doubts};
use m3_types_subtype::Assign;

/// Whether what was assumed holds.
pub fn is_kept(declarer: &mut Declarer<'_, '_>, assumed: &Assumed) -> Result<bool, NoMemory> {
    if declarer.is_refused(assumed.from) || declarer.is_refused(assumed.to) {
        return Ok(true);
    }
    declarer.eval.unit = assumed.unit;
    let mut fits = assignability(&declarer.eval, assumed.from, assumed.to)? != Assign::No;
    if assumed.either && !fits {
        fits = assignability(&declarer.eval, assumed.to, assumed.from)? != Assign::No;
    }
    Ok(fits)
}

/// Forgets the named constants that are none of the type that they name (rule 44), so that what is
/// made of them isn't judged.
pub fn forget_refused(
    declarer: &mut Declarer<'_, '_>,
    doubts: &Doubts<'_>,
) -> Result<(), NoMemory> {
    for promise in &doubts.promises {
        if let Some(constant) = promise.constant {
            if promise.assumed.is_wanted && !is_kept(declarer, &promise.assumed)? {
                declarer.eval.declared.forget_constant(constant);
            }
        }
    }
    Ok(())
}
