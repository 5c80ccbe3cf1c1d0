use crate::shapes::{dims_of, element_words, inner_element};
use m3_core::{CoreExpr, ValueId};
use m3_lower_state::{Builder, Location, Pending, Place, address_kind, take_address};
use m3_mid::{Kind, MidOp, Operand};
use m3_source::KnownShape;
use m3_types::{TypeId, TypeNode};

/// The place of a constant record or array of the program, with its sizes.
pub fn plan_constant(b: &mut Builder, kind: TypeId, value: ValueId) -> Place {
    let temp = b.temp(Kind::Number);
    let dims = dims_of(b, kind);
    let sizes = b.next_size();
    plan_sizes(b, KnownShape::Constant { kind, value }, dims);
    Place {
        at: Location::Address { temp, offset: 0 },
        base: Operand::Number(0),
        sizes,
        dims,
    }
}

/// Slots for an open array whose elements are written out. Rows that are open arrays have the shape
/// of the first one, which constants fix.
pub fn plan_open<'m>(b: &mut Builder<'m, '_>, kind: TypeId, elements: &[CoreExpr]) -> Place {
    let dims = dims_of(b, kind);
    let sizes = b.next_size();
    let values = plan_sizes(b, KnownShape::Written { kind, elements }, dims);
    let inner = inner_element(b, kind, dims);
    let first = b.slot_count();
    if b.storage.words(inner) > 0 {
        for _ in 0..values {
            b.add_value(inner);
        }
    }
    b.hold(first);
    Place {
        at: Location::Slots(first),
        base: Operand::Number(0),
        sizes,
        dims,
    }
}

/// Keeps the sizes of so many dimensions, and tells how many elements there are below them.
fn plan_sizes(b: &mut Builder, array: KnownShape, dims: u32) -> u64 {
    let mut values = 1u64;
    let mut shape = array;
    for _ in 0..dims {
        let (count, row) = shape.outermost(&b.storage.types.graph, b.storage.values);
        b.size(Operand::Number(count.cast_signed()));
        values = values.saturating_mul(count);
        shape = row;
    }
    values
}

/// An element of a constructor: its type, the open dimensions of that, and its words.
#[derive(Clone, Copy)]
pub struct Element {
    pub kind: TypeId,
    pub dims: u32,
    pub words: u64,
}

/// What each element is of a constructor of a type at a place, whose sizes are known.
pub fn element_of(b: &Builder, kind: TypeId, to: Place) -> Element {
    let element = inner_element(b, kind, 1);
    let dims = dims_of(b, element);
    let mut words = element_words(b, element, dims);
    for dim in 0..dims {
        if let Operand::Number(size) = b.size_at(to.sizes.wrapping_add(1).wrapping_add(dim)) {
            words = words.wrapping_mul(size.cast_unsigned());
        }
    }
    Element {
        kind: element,
        dims,
        words,
    }
}

/// Copies the last element that is listed to all behind it.
pub fn filled<'m>(
    b: &mut Builder<'m, '_>,
    kind: TypeId,
    listed: usize,
    words: u64,
    to: Place,
    rest: Pending<'m>,
) -> Pending<'m> {
    let count = match b.storage.node(kind) {
        TypeNode::FixedArray(index, _) => b.storage.members(index),
        _ => 0,
    };
    let further = count.saturating_sub(listed as u64);
    if further == 0 || listed == 0 {
        return rest;
    }
    let last = to.further(words.wrapping_mul((listed as u64).wrapping_sub(1)));
    let kind = address_kind(b, last);
    let at = b.temp(kind);
    let code = rest.after(MidOp::Fill {
        at,
        words: Operand::Number(further.wrapping_mul(words).cast_signed()),
        distance: Operand::Number(words.cast_signed()),
    });
    take_address(at, last, code)
}

/// The type of a field of a record type.
pub fn field_type(b: &Builder, kind: TypeId, field: u32) -> TypeId {
    match b.storage.node(kind) {
        TypeNode::Fields(fields) => match fields.get(field as usize) {
            Some(field) => field.kind,
            None => kind,
        },
        _ => kind,
    }
}
