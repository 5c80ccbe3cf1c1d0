use m3_base::{FaultKind, Pos};
use m3_core::{Conversion, CoreExpr};
use m3_lower_state::{Builder, Pending, choice, kind_of};
use m3_mid::{Kind, MidOp, Operand, Relation};
use m3_types::{TypeId, TypeNode};

/// A conversion to a type, with the check that faults at its place.
#[derive(Clone, Copy)]
pub struct CheckedConversion {
    pub pos: Pos,
    pub kind: TypeId,
    pub check: Conversion,
}

/// The check of a conversion on an operand.
pub fn checked<'m>(
    b: &mut Builder<'m, '_>,
    conversion: CheckedConversion,
    operand: &CoreExpr,
    value: Operand,
    rest: Pending<'m>,
) -> Pending<'m> {
    let CheckedConversion { pos, kind, check } = conversion;
    match check {
        Conversion::Range => in_range(b, pos, kind, kind_of(operand), value, rest),
        Conversion::Narrow => narrowed(b, pos, kind, value, rest),
        Conversion::Shape | Conversion::Nested => rest,
    }
}

/// The check of a conversion that a procedure, in temporaries in a row, is none inside another.
pub fn not_nested<'m>(conversion: CheckedConversion, first: u32, rest: Pending<'m>) -> Pending<'m> {
    match conversion.check {
        Conversion::Nested => rest.after(MidOp::Check {
            relation: Relation::Equal,
            left: Operand::Temp(first.wrapping_add(1)),
            right: Operand::Number(0),
            fault: FaultKind::NestedProc,
            pos: conversion.pos,
        }),
        Conversion::Range | Conversion::Narrow | Conversion::Shape => rest,
    }
}

/// A check that a number is a value of an ordinal type.
pub fn in_range<'m>(
    b: &Builder<'m, '_>,
    pos: Pos,
    kind: TypeId,
    from: Option<TypeId>,
    value: Operand,
    rest: Pending<'m>,
) -> Pending<'m> {
    let (first, last) = b.storage.bounds(kind);
    let (least, most) = match from {
        Some(from) => b.storage.bounds(from),
        None => (i64::MIN, i64::MAX),
    };
    if first == 0 && last >= 0 && (least < first || most > last) {
        return rest.after(range_check(Relation::LessEqualUnsigned, value, last, false, pos));
    }
    let mut code = rest;
    if most > last {
        code = code.after(range_check(Relation::LessEqual, value, last, false, pos));
    }
    if least < first {
        code = code.after(range_check(Relation::LessEqual, value, first, true, pos));
    }
    code
}

fn range_check(
    relation: Relation,
    value: Operand,
    bound: i64,
    is_lower: bool,
    pos: Pos,
) -> MidOp<'static> {
    let bound = Operand::Number(bound);
    let (left, right) = if is_lower {
        (bound, value)
    } else {
        (value, bound)
    };
    MidOp::Check {
        relation,
        left,
        right,
        fault: FaultKind::Range,
        pos,
    }
}

/// A check that a reference is NIL or of a type.
fn narrowed<'m>(
    b: &mut Builder<'m, '_>,
    pos: Pos,
    kind: TypeId,
    value: Operand,
    rest: Pending<'m>,
) -> Pending<'m> {
    let next = b.seal(rest);
    let fault = b.fault(FaultKind::Narrow, pos);
    let fault = b.seal(fault);
    tested(b, kind, value, next, fault)
}

/// Goes to one block where a reference is NIL or of a type, and else to another.
pub fn tested<'m>(
    b: &mut Builder<'m, '_>,
    kind: TypeId,
    value: Operand,
    yes: u32,
    no: u32,
) -> Pending<'m> {
    let cell = match value {
        Operand::Temp(cell) => cell,
        Operand::Number(_) => return b.goto(yes),
    };
    let inner = of_type(b, kind, cell, yes, no);
    let inner = b.seal(inner);
    choice(b, Relation::Equal, value, Operand::Number(0), yes, inner)
}

/// Goes to one block where a reference that isn't NIL is of a type, and else to another.
fn of_type<'m>(b: &mut Builder<'m, '_>, kind: TypeId, cell: u32, yes: u32, no: u32) -> Pending<'m> {
    match b.storage.node(b.storage.unveiled(kind)) {
        TypeNode::RefAny => b.goto(yes),
        TypeNode::Null => b.goto(no),
        TypeNode::Root => {
            let other = of_cell(b, cell, m3_lower_storage::THREAD_CELL, yes, no);
            let other = b.seal(other);
            of_number(b, kind, cell, yes, other)
        }
        _ => of_number(b, kind, cell, yes, no),
    }
}

fn of_number<'m>(
    b: &mut Builder<'m, '_>,
    kind: TypeId,
    cell: u32,
    yes: u32,
    no: u32,
) -> Pending<'m> {
    match b.storage.cells.number(b.storage.types, kind) {
        Some(number) => of_cell(b, cell, number, yes, no),
        None => b.goto(no),
    }
}

fn of_cell<'m>(b: &mut Builder<'m, '_>, cell: u32, number: u32, yes: u32, no: u32) -> Pending<'m> {
    let is_it = b.temp(Kind::Number);
    let choice = choice(
        b,
        Relation::NotEqual,
        Operand::Temp(is_it),
        Operand::Number(0),
        yes,
        no,
    );
    choice.after(MidOp::TypeTest {
        to: is_it,
        cell,
        tested: number,
    })
}
