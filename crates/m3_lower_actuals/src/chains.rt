use m3_core::{Base, Chain, CoreExpr};
use m3_lower_arrays::{dims_of, plan_constant, plan_open, shape_of};
use m3_lower_places::{kind_of_base, kind_of_step, plan_alias, plan_local, plan_step, source};
use m3_lower_state::{Builder, Location, Place, Value, address_kind, form_of, kind_of};
use m3_lower_storage::Form;
use m3_mid::{Kind, Operand};
use m3_types::{TypeId, TypeNode};

/// Where what a chain gives will be. What each stage gives is kept until `emit_chain` takes it.
#[cycle(plans)]
pub fn plan_chain<'m>(b: &mut Builder<'m, '_>, chain: &Chain) -> Value {
    let (first, kind) = plan_base(b, chain);
    b.push_stage(first);
    let mut before = first;
    let mut before_kind = kind;
    for step in chain.steps {
        let stage = plan_step(b, step, before, before_kind);
        b.push_stage(stage);
        before = stage;
        before_kind = kind_of_step(step);
    }
    before
}

#[cycle(plans)]
fn plan_base<'m>(b: &mut Builder<'m, '_>, chain: &Chain) -> (Value, Option<TypeId>) {
    let kind = kind_of_base(&chain.base);
    let value = match chain.base {
        Base::Global { variable, .. } => Value::At(Place::plain(Location::Globals(
            b.storage.global(variable),
        ))),
        Base::Local {
            level,
            variable,
            kind,
        } => Value::At(plan_local(b, level, variable, kind)),
        Base::Alias {
            level,
            variable,
            kind,
        } => Value::At(plan_alias(b, level, variable, kind)),
        Base::Inner(inner) => plan_chain(b, inner),
        Base::Subarray {
            array,
            count,
            kind,
            ..
        } => { Value::At(plan_subarray(b, array, count, kind)) }
        Base::Value(e) => plan_procedure(b, e),
    };
    (value, kind)
}

/// A procedure's name is called as such; any other value is planned.
#[cycle(plans)]
fn plan_procedure<'m>(b: &mut Builder<'m, '_>, e: &CoreExpr) -> Value {
    match e {
        CoreExpr::Procedure { procedure, .. } => Value::Known {
            procedure: *procedure,
            environment: None,
        },
        CoreExpr::InnerProcedure { procedure, .. } => Value::Known {
            procedure: *procedure,
            environment: Some(b.temp(Kind::Number)),
        },
        _ => plan_value(b, e),
    }
}

/// Where the elements of a SUBARRAY will be.
#[cycle(plans)]
fn plan_subarray<'m>(
    b: &mut Builder<'m, '_>,
    array: &Chain,
    count: &CoreExpr,
    kind: TypeId,
) -> Place {
    let from = plan_chain(b, array).place();
    let count = source(b, count);
    part_of(b, from, array.kind, count, kind)
}

/// The place of so many elements of an array, with their sizes.
fn part_of(
    b: &mut Builder,
    array: Place,
    array_kind: Option<TypeId>,
    count: Operand,
    kind: TypeId,
) -> Place {
    let dims = dims_of(b, kind);
    let rows = match array_kind {
        Some(array_kind) => shape_of(b, array, array_kind, dims),
        None => Vec::new(b.alloc),
    };
    let sizes = b.size(count);
    for row in rows.iter().skip(1) {
        b.size(*row);
    }
    let address = address_kind(b, array);
    let temp = b.temp(address);
    b.part_of(temp, array);
    Place {
        at: Location::Address { temp, offset: 0 },
        base: array.base,
        sizes,
        dims,
    }
}

/// Where the value of an expression will be.
#[cycle(plans)]
pub fn plan_value<'m>(b: &mut Builder<'m, '_>, e: &CoreExpr) -> Value {
    match form_of(b, e) {
        Form::Number | Form::Reference => Value::Word(source(b, e)),
        Form::Numbers(count) => Value::Words {
            first: b.temps(Kind::Number, count),
            count,
        },
        Form::Structure(_) | Form::Open => match e {
            CoreExpr::Chain(chain) => plan_chain(b, chain),
            _ => Value::At(plan_structure(b, e)),
        },
    }
}

/// Where the value of a record or array will be.
#[cycle(plans)]
pub fn plan_structure<'m>(b: &mut Builder<'m, '_>, e: &CoreExpr) -> Place {
    match e {
        CoreExpr::Chain(chain) => plan_chain(b, chain).place(),
        CoreExpr::Constant { kind, value, .. } => plan_constant(b, *kind, *value),
        CoreExpr::Convert { operand, .. } => plan_structure(b, operand),
        CoreExpr::ArrayOf { kind, elements, .. } => match b.storage.node(*kind) {
            TypeNode::OpenArray(_) => plan_open(b, *kind, elements),
            _ => b.buffer(*kind),
        },
        _ => match kind_of(e) {
            Some(kind) => b.buffer(kind),
            None => Place::plain(Location::Slots(0)),
        },
    }
}
