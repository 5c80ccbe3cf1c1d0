use crate::defaults::{store_default, store_object_defaults};
use crate::shapes::{element_words, inner_element, shape_of, total_words};
use m3_lower_state::{
    Around, Builder, Location, Pending, Place, arith, choice, copy_row, take_address,
};
use m3_lower_storage::number_of;
use m3_mid::{Kind, MemoryWord, MidOp, Operand, Relation};
use m3_types::{TypeId, TypeNode};

/// The point at which a cell is made, with the sizes of its open dimensions in slots in a row.
pub fn make<'m>(
    b: &mut Builder<'m, '_>,
    around: Around,
    number: Option<u32>,
    sizes: &[Operand],
    to: u32,
    rest: Pending<'m>,
) -> Pending<'m> {
    let Some(cell) = number else {
        b.fail();
        return rest;
    };
    let shown = b.shown(around);
    if sizes.is_empty() {
        return rest.after(MidOp::Make {
            to,
            cell,
            sizes: None,
            shown,
        });
    }
    let first = b.result_slots(number_of(sizes.len()));
    let mut code = rest.after(MidOp::Make {
        to,
        cell,
        sizes: Some(first),
        shown,
    });
    for (dim, size) in sizes.iter().enumerate() {
        code = code.after(MidOp::Store {
            at: MemoryWord::Slot(first.wrapping_add(number_of(dim))),
            from: *size,
        });
    }
    code
}

/// A new cell with a copy of an open array.
pub fn copy_into_cell<'m>(
    b: &mut Builder<'m, '_>,
    around: Around,
    kind: TypeId,
    from: Place,
    cell: u32,
    rest: Pending<'m>,
) -> Pending<'m> {
    let sizes = shape_of(b, from, kind, from.dims);
    let element = element_words(b, kind, from.dims);
    let (words, counting) = total_words(b, sizes.as_slice(), element);
    let to = Place {
        at: Location::Address {
            temp: cell,
            offset: i64::from(from.dims).wrapping_add(1),
        },
        base: Operand::Temp(cell),
        sizes: 0,
        dims: 0,
    };
    let code = copy_row(b, to, from.without_sizes(), words, rest);
    let code = counting.put(code);
    let number = b.storage.cells.number(b.storage.types, kind);
    make(b, around, number, sizes.as_slice(), cell, code)
}

/// Gives a new cell its defaults; all its words are 0.
pub fn cell_defaults<'m>(
    b: &mut Builder<'m, '_>,
    made: TypeId,
    cell: u32,
    counts: &[Operand],
    rest: Pending<'m>,
) -> Pending<'m> {
    let TypeNode::RefTo(_, target) = b.storage.node(made) else {
        return store_object_defaults(b, made, cell, rest);
    };
    let dims = number_of(counts.len());
    let at = Place {
        at: Location::Address {
            temp: cell,
            offset: i64::from(dims).wrapping_add(1),
        },
        base: Operand::Temp(cell),
        sizes: 0,
        dims: 0,
    };
    if dims == 0 {
        return store_default(b, target, at, true, rest);
    }
    let element = inner_element(b, target, dims);
    if b.storage.is_zero_default(element) {
        return rest;
    }
    fill_default(b, element, at, counts, rest)
}

/// Gives all elements of a new open array their default: the first, and from it all others.
fn fill_default<'m>(
    b: &mut Builder<'m, '_>,
    element: TypeId,
    at: Place,
    counts: &[Operand],
    rest: Pending<'m>,
) -> Pending<'m> {
    let next = b.seal(rest);
    let words = b.storage.words(element);
    let (total, counting) = total_words(b, counts, words);
    let further = b.temp(Kind::Number);
    let address = b.temp(Kind::Address);
    let code = b.goto(next).after(MidOp::Fill {
        at: address,
        words: Operand::Temp(further),
        distance: Operand::Number(words.cast_signed()),
    });
    let code = take_address(address, at, code);
    let code = code.after(arith(
        further,
        m3_mid::WordOperator::Subtract,
        total,
        Operand::Number(words.cast_signed()),
    ));
    let code = store_default(b, element, at, true, code);
    let filled = b.seal(code);
    let choice = choice(b, Relation::Equal, total, Operand::Number(0), next, filled);
    counting.put(choice)
}
