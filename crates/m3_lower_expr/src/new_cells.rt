use crate::exprs::{emit_value, fetch};
use crate::structures::structure_into;
use m3_base::FaultKind;
use m3_core::{Binding, CoreExpr};
use m3_lower_actuals::{plan_bindings, plan_sizes, store_bindings};
use m3_lower_arrays::{cell_defaults, make};
use m3_lower_state::{Around, Builder, Pending, Value, check, kind_of, set};
use m3_mid::{Kind, Operand, Relation};

/// Code for NEW: sizes or bindings, the point, the cell with its defaults, and the bindings
/// stored.
#[cycle(expressions)]
pub fn new_into<'m>(
    b: &mut Builder<'m, '_>,
    around: Around,
    e: &CoreExpr,
    to: u32,
    rest: Pending<'m>,
) -> Pending<'m> {
    let CoreExpr::New {
        made,
        sizes,
        bindings,
        ..
    } = e
    else {
        return rest;
    };
    let cell = b.temp(Kind::Tidy);
    let shown = b.storage.unveiled(*made);
    let code = set(to, Operand::Temp(cell), rest);
    let values = plan_bindings(b, bindings);
    let counts = plan_sizes(b, sizes);
    let code = store_bindings(b, shown, cell, bindings, &values, code);
    let code = cell_defaults(b, shown, cell, counts.as_slice(), code);
    let number = b.storage.cells.number(b.storage.types, shown);
    let code = make(b, around, number, counts.as_slice(), cell, code);
    let code = emit_sizes(b, around, sizes, &counts, code);
    emit_bindings(b, around, bindings, &values, code)
}

#[cycle(expressions)]
fn emit_sizes<'m>(
    b: &mut Builder<'m, '_>,
    around: Around,
    sizes: &[CoreExpr],
    counts: &[Operand],
    rest: Pending<'m>,
) -> Pending<'m> {
    let mut code = rest;
    for place in (0..sizes.len()).rev() {
        if let (Some(size), Some(count)) = (sizes.get(place), counts.get(place)) {
            code = code.after(check(
                Relation::LessEqual,
                Operand::Number(0),
                *count,
                FaultKind::Size,
                size.pos(),
            ));
            code = fetch(b, around, size, *count, code);
        }
    }
    code
}

#[cycle(expressions)]
fn emit_bindings<'m>(
    b: &mut Builder<'m, '_>,
    around: Around,
    bindings: &[Binding],
    values: &[Value],
    rest: Pending<'m>,
) -> Pending<'m> {
    let mut code = rest;
    for place in (0..bindings.len()).rev() {
        if let (Some(binding), Some(value)) = (bindings.get(place), values.get(place)) {
            code = match (value, kind_of(binding.value)) {
                (Value::At(at), Some(kind)) => {
                    structure_into(b, around, binding.value, kind, *at, code)
                }
                _ => emit_value(b, around, binding.value, *value, code),
            };
        }
    }
    code
}
