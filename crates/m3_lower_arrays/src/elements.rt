use crate::shapes::{element_words, shape_of, total_words};
use m3_base::{FaultKind, Pos};
use m3_core::{ArrayLimit, CoreExpr};
use m3_lower_state::{
    Builder, Location, Pending, Place, added, address_kind, address_of, arith, check, kind_of, set,
    take_address,
};
use m3_mid::{Kind, MidOp, Operand, Relation, WordOperator};
use m3_types::{TypeId, TypeNode};

/// What is known of an index before its code is made: its place, its type, and its value where it
/// is a number.
#[derive(Clone, Copy)]
pub struct Index {
    pub pos: Pos,
    pub kind: Option<TypeId>,
    pub number: Option<i64>,
}

/// The elements of an array that SUBARRAY gives: the place of the array and its type, and the first
/// of them and how many there are.
#[derive(Clone, Copy)]
pub struct Subarray {
    pub from: Place,
    pub kind: Option<TypeId>,
    pub start: Operand,
    pub count: Operand,
}

/// Where a row of an array begins: the address of the array and an offset to it, the index of the
/// row, and the words that each row has.
#[derive(Clone, Copy)]
struct RowStart {
    array: u32,
    offset: i64,
    index: Operand,
    words: Operand,
}

/// What is known of an index.
pub fn index_of(e: &CoreExpr) -> Index {
    Index {
        pos: e.pos(),
        kind: kind_of(e),
        number: match e {
            CoreExpr::Number { value, .. } => Some(*value),
            _ => None,
        },
    }
}

/// Where an element of an array will be; at an index that is a number in range, without any code.
pub fn plan_element<'m>(
    b: &mut Builder<'m, '_>,
    array: Place,
    kind: Option<TypeId>,
    index: Index,
) -> Place {
    if let Some(distance) = known_distance(b, array, kind, index) {
        return array.further(distance).without_sizes();
    }
    let address = address_kind(b, array);
    let temp = b.temp(address);
    b.part_of(temp, array);
    let dims = array.dims.saturating_sub(1);
    Place {
        at: Location::Address { temp, offset: 0 },
        base: array.base,
        sizes: array.sizes.wrapping_add(1),
        dims,
    }
}

/// The words before an element whose index is a number that the array's type has, or, of an open
/// array of one dimension, any number.
pub fn known_distance(
    b: &Builder,
    array: Place,
    kind: Option<TypeId>,
    index: Index,
) -> Option<u64> {
    let value = index.number?;
    match b.storage.node(kind?) {
        TypeNode::FixedArray(index, element) => {
            let (first, last) = b.storage.bounds(index);
            if value < first || value > last {
                return None;
            }
            let place = value.wrapping_sub(first).cast_unsigned();
            Some(place.wrapping_mul(b.storage.words(element)))
        }
        TypeNode::OpenArray(element) if array.dims == 1 && value >= 0 => {
            Some(value.cast_unsigned().wrapping_mul(b.storage.words(element)))
        }
        _ => None,
    }
}

/// The check that an array has an element at an index.
pub fn check_index<'m>(
    b: &mut Builder<'m, '_>,
    array: Place,
    kind: TypeId,
    index: Index,
    operand: Operand,
    rest: Pending<'m>,
) -> Pending<'m> {
    let pos = index.pos;
    match b.storage.node(kind) {
        TypeNode::FixedArray(indexes, _) => {
            let (first, last) = b.storage.bounds(indexes);
            if is_within(b, index, first, last) {
                return rest;
            }
            let count = Operand::Number(b.storage.members(indexes).cast_signed());
            if first == 0 {
                return rest.after(below(operand, count, pos));
            }
            let place = b.temp(Kind::Number);
            let code = rest.after(below(Operand::Temp(place), count, pos));
            code.after(arith(
                place,
                WordOperator::Subtract,
                operand,
                Operand::Number(first),
            ))
        }
        _ => rest.after(below(operand, b.size_at(array.sizes), pos)),
    }
}

fn below(place: Operand, count: Operand, pos: Pos) -> MidOp<'static> {
    check(Relation::LessUnsigned, place, count, FaultKind::Index, pos)
}

/// Whether every value of an index is in an array's range.
fn is_within(b: &Builder, index: Index, first: i64, last: i64) -> bool {
    if let Some(value) = index.number {
        return first <= value && value <= last;
    }
    match index.kind {
        Some(kind) => {
            let (least, most) = b.storage.bounds(kind);
            least <= most && first <= least && most <= last
        }
        None => false,
    }
}

/// The address of an element.
pub fn indexed<'m>(
    b: &mut Builder<'m, '_>,
    array: Place,
    kind: TypeId,
    index: Operand,
    element: Place,
    rest: Pending<'m>,
) -> Pending<'m> {
    let Location::Address { temp: to, .. } = element.at else {
        return rest;
    };
    let (at, offset, is_there) = address_of(b, array);
    let code = if array.dims > 1 {
        let sizes = inner_sizes(b, array);
        let words = element_words(b, kind, array.dims);
        let (words, counting) = total_words(b, sizes.as_slice(), words);
        let start = RowStart {
            array: at,
            offset,
            index,
            words,
        };
        let code = row_address(b, to, start, rest);
        counting.put(code)
    } else {
        let words = element_words(b, kind, 1);
        let first = first_index(b, kind).wrapping_mul(words.cast_signed());
        rest.after(MidOp::Index {
            to,
            array: at,
            index,
            words,
            offset: offset.wrapping_sub(first),
        })
    };
    if is_there {
        code
    } else {
        take_address(at, array, code)
    }
}

fn first_index(b: &Builder, kind: TypeId) -> i64 {
    match b.storage.node(kind) {
        TypeNode::FixedArray(index, _) => b.storage.bounds(index).0,
        _ => 0,
    }
}

/// The sizes of the rows of an open array.
fn inner_sizes(b: &mut Builder, array: Place) -> Vec<Operand> {
    let mut sizes = Vec::new(b.alloc);
    for dim in 1..array.dims {
        let size = b.size_at(array.sizes.wrapping_add(dim));
        if sizes.push(size).is_err() {
            b.fail();
        }
    }
    sizes
}

/// Puts the address of a row into a temporary.
fn row_address<'m>(
    b: &mut Builder<'m, '_>,
    to: u32,
    start: RowStart,
    rest: Pending<'m>,
) -> Pending<'m> {
    let distance = b.temp(Kind::Number);
    let code = if start.offset == 0 {
        rest
    } else {
        rest.after(added(to, to, start.offset))
    };
    let code = code.after(arith(
        to,
        WordOperator::Add,
        Operand::Temp(start.array),
        Operand::Temp(distance),
    ));
    code.after(arith(distance, WordOperator::Multiply, start.index, start.words))
}

/// Code that puts the address of the first element of a SUBARRAY into its temporary.
pub fn subarray_address<'m>(
    b: &mut Builder<'m, '_>,
    subarray: Subarray,
    place: Place,
    rest: Pending<'m>,
) -> Pending<'m> {
    let (Location::Address { temp: to, .. }, Some(kind)) = (place.at, subarray.kind) else {
        return rest;
    };
    let mut sizes = Vec::new(b.alloc);
    for dim in 1..place.dims {
        if sizes
            .push(b.size_at(place.sizes.wrapping_add(dim)))
            .is_err()
        {
            b.fail();
        }
    }
    let element = element_words(b, kind, place.dims);
    let (words, counting) = total_words(b, sizes.as_slice(), element);
    let (at, offset, is_there) = address_of(b, subarray.from);
    let code = match words {
        Operand::Number(words) => rest.after(MidOp::Index {
            to,
            array: at,
            index: subarray.start,
            words: words.cast_unsigned(),
            offset,
        }),
        Operand::Temp(_) => {
            let start = RowStart {
                array: at,
                offset,
                index: subarray.start,
                words,
            };
            row_address(b, to, start, rest)
        }
    };
    let code = counting.put(code);
    if is_there {
        code
    } else {
        take_address(at, subarray.from, code)
    }
}

/// The check that an array has so many elements from a place on.
pub fn check_subarray<'m>(
    b: &mut Builder<'m, '_>,
    subarray: Subarray,
    pos: Pos,
    rest: Pending<'m>,
) -> Pending<'m> {
    let Some(kind) = subarray.kind else {
        return rest;
    };
    let size = match shape_of(b, subarray.from, kind, 1).first() {
        Some(size) => *size,
        None => Operand::Number(0),
    };
    let left = b.temp(Kind::Number);
    let relation = Relation::LessEqualUnsigned;
    let code = rest.after(check(
        relation,
        subarray.count,
        Operand::Temp(left),
        FaultKind::Subarray,
        pos,
    ));
    let start = subarray.start;
    let code = code.after(arith(left, WordOperator::Subtract, size, start));
    code.after(check(relation, start, size, FaultKind::Subarray, pos))
}

/// Code that puts FIRST, LAST or NUMBER of an array at a place into a temporary.
pub fn limit_of<'m>(
    b: &mut Builder<'m, '_>,
    limit: ArrayLimit,
    kind: TypeId,
    place: Place,
    to: u32,
    rest: Pending<'m>,
) -> Pending<'m> {
    if let TypeNode::FixedArray(index, _) = b.storage.node(kind) {
        let (first, last) = b.storage.bounds(index);
        let value = match limit {
            ArrayLimit::First => first,
            ArrayLimit::Last => last,
            ArrayLimit::Number => b.storage.members(index).cast_signed(),
        };
        return set(to, Operand::Number(value), rest);
    }
    let size = b.size_at(place.sizes);
    match limit {
        ArrayLimit::First => set(to, Operand::Number(0), rest),
        ArrayLimit::Number => set(to, size, rest),
        ArrayLimit::Last => rest.after(arith(to, WordOperator::Subtract, size, Operand::Number(1))),
    }
}
