use bumpalo::Bump;
use bumpalo::collections::into_bump_slice;
use m3_base::{NoMemory, Pos, rules};
use m3_check_assigning::nil_as;
use m3_check_state::{Checker, Thing, Valued};
use m3_check_types::{
    are_same, fits, is_boolean, is_integer, is_ordinal, is_procedure, is_subtype, share_base,
};
use m3_core::{Compared, CoreExpr, Operation, Operator, Relation};
use m3_types::{TypeId, TypeNode};

/// The operands of a row joined by its operators, which group to the left (rule 50). A value is
/// none where something in it was refused.
pub fn combined<'a>(
    checker: &mut Checker<'_, 'a>,
    pos: Pos,
    first: Option<Valued<'a>>,
    rest: &[m3_syntax::Operation<'a>],
    rights: &[Option<Valued<'a>>],
) -> Result<Thing<'a>, NoMemory> {
    let mut row = Row {
        first,
        rest: Vec::new(checker.arena),
        kind: kind_of(first),
    };
    add_all(checker, &mut row, rest, rights)?;
    row.finish(checker, pos)
}

fn kind_of(value: Option<Valued<'_>>) -> Option<TypeId> {
    Some(value?.kind)
}

fn add_all<'a>(
    checker: &mut Checker<'_, 'a>,
    row: &mut Row<'a>,
    rest: &[m3_syntax::Operation<'a>],
    rights: &[Option<Valued<'a>>],
) -> Result<(), NoMemory> {
    for (written, right) in rest.iter().zip(rights) {
        row.add(checker, written.operator, written.pos, *right)?;
    }
    Ok(())
}

/// A row of operands in the making: the first, the operators with their right operands, and the
/// type of what they give so far, which is none where something was refused.
#[derive(Drop)]
struct Row<'a> {
    first: Option<Valued<'a>>,
    rest: Vec<Operation<'a>, &'a Bump>,
    kind: Option<TypeId>,
}

impl<'a> Row<'a> {
    /// Adds an operator with its right operand (rule 50).
    fn add(
        &mut self,
        checker: &mut Checker<'_, 'a>,
        operator: m3_syntax::Operator,
        pos: Pos,
        right: Option<Valued<'a>>,
    ) -> Result<(), NoMemory> {
        let (Some(left), Some(right)) = (self.kind, right) else {
            self.kind = None;
            return Ok(());
        };
        match operation(checker, operator, left, right.kind)? {
            Some((operator, kind)) => {
                let right = self.fitted(checker, operator, left, &right)?;
                self.kind = Some(kind);
                self.rest.push(Operation {
                    operator,
                    pos,
                    right: right.core(),
                    kind,
                })?;
            }
            None => {
                self.kind = None;
                checker.note(pos, rules::OPERANDS_DO_NOT_FIT);
            }
        }
        Ok(())
    }

    /// The right operand of an operator: where procedures are compared, NIL on either side is one.
    fn fitted(
        &mut self,
        checker: &Checker<'_, 'a>,
        operator: Operator,
        left: TypeId,
        right: &Valued<'a>,
    ) -> Result<Valued<'a>, NoMemory> {
        let Operator::Compare(_, Compared::Procedures) = operator else {
            return Ok(*right);
        };
        if let (Some(first), true) = (self.first, self.rest.is_empty()) {
            self.first = Some(nil_as(checker, &first, right.kind)?);
        }
        nil_as(checker, right, left)
    }

    /// The whole, whose first token stands at a place.
    fn finish(self, checker: &Checker<'_, 'a>, pos: Pos) -> Result<Thing<'a>, NoMemory> {
        let Row { first, rest, kind } = self;
        let rest = into_bump_slice(rest);
        let (Some(first), Some(kind)) = (first, kind) else {
            return Ok(Thing::Bad);
        };
        let expr = CoreExpr::Operations {
            pos,
            first: first.core(),
            rest,
        };
        checker.value(expr, kind)
    }
}

/// What an operator does with operands of these types, and the type of what it gives; none where
/// they don't fit.
fn operation(
    checker: &Checker<'_, '_>,
    operator: m3_syntax::Operator,
    left: TypeId,
    right: TypeId,
) -> Result<Option<(Operator, TypeId)>, NoMemory> {
    match operator {
        m3_syntax::Operator::Or => Ok(logical(checker, Operator::Or, left, right)),
        m3_syntax::Operator::And => Ok(logical(checker, Operator::And, left, right)),
        m3_syntax::Operator::In => membership(checker, left, right),
        m3_syntax::Operator::Equal => equality(checker, Relation::Equal, left, right),
        m3_syntax::Operator::NotEqual => equality(checker, Relation::NotEqual, left, right),
        m3_syntax::Operator::Less => order(checker, Relation::Less, left, right),
        m3_syntax::Operator::LessEqual => order(checker, Relation::LessEqual, left, right),
        m3_syntax::Operator::Greater => order(checker, Relation::Greater, left, right),
        m3_syntax::Operator::GreaterEqual => order(checker, Relation::GreaterEqual, left, right),
        m3_syntax::Operator::Concatenate => concatenation(checker, left, right),
        m3_syntax::Operator::Plus
        | m3_syntax::Operator::Minus
        | m3_syntax::Operator::Times
        | m3_syntax::Operator::Slash
        | m3_syntax::Operator::Div
        | m3_syntax::Operator::Mod => arithmetic(checker, operator, left, right),
    }
}

fn logical(
    checker: &Checker<'_, '_>,
    operator: Operator,
    left: TypeId,
    right: TypeId,
) -> Option<(Operator, TypeId)> {
    if is_boolean(checker, left) && is_boolean(checker, right) {
        Some((operator, checker.declared.basic.boolean))
    } else {
        None
    }
}

fn membership(
    checker: &Checker<'_, '_>,
    left: TypeId,
    right: TypeId,
) -> Result<Option<(Operator, TypeId)>, NoMemory> {
    let TypeNode::SetOf(base) = checker.node(right) else {
        return Ok(None);
    };
    if share_base(checker, left, base)? {
        Ok(Some((Operator::In, checker.declared.basic.boolean)))
    } else {
        Ok(None)
    }
}

fn concatenation(
    checker: &Checker<'_, '_>,
    left: TypeId,
    right: TypeId,
) -> Result<Option<(Operator, TypeId)>, NoMemory> {
    let text = checker.declared.basic.text;
    if is_subtype(checker, left, text)? && is_subtype(checker, right, text)? {
        Ok(Some((Operator::Concatenate, text)))
    } else {
        Ok(None)
    }
}

fn are_sets(checker: &Checker<'_, '_>, left: TypeId, right: TypeId) -> Result<bool, NoMemory> {
    let left_is_set = matches!(checker.node(left), TypeNode::SetOf(_));
    let right_is_set = matches!(checker.node(right), TypeNode::SetOf(_));
    if left_is_set && right_is_set {
        are_same(checker, left, right)
    } else {
        Ok(false)
    }
}

fn arithmetic(
    checker: &Checker<'_, '_>,
    operator: m3_syntax::Operator,
    left: TypeId,
    right: TypeId,
) -> Result<Option<(Operator, TypeId)>, NoMemory> {
    let (found, kind) = if is_integer(checker, left) && is_integer(checker, right) {
        (on_integers(operator), checker.declared.basic.integer)
    } else if are_sets(checker, left, right)? {
        (on_sets(operator), left)
    } else {
        (None, left)
    };
    match found {
        Some(found) => Ok(Some((found, kind))),
        None => Ok(None),
    }
}

fn on_integers(operator: m3_syntax::Operator) -> Option<Operator> {
    match operator {
        m3_syntax::Operator::Plus => Some(Operator::Plus),
        m3_syntax::Operator::Minus => Some(Operator::Minus),
        m3_syntax::Operator::Times => Some(Operator::Times),
        m3_syntax::Operator::Div => Some(Operator::Div),
        m3_syntax::Operator::Mod => Some(Operator::Mod),
        _ => None,
    }
}

fn on_sets(operator: m3_syntax::Operator) -> Option<Operator> {
    match operator {
        m3_syntax::Operator::Plus => Some(Operator::Union),
        m3_syntax::Operator::Minus => Some(Operator::Difference),
        m3_syntax::Operator::Times => Some(Operator::Intersection),
        m3_syntax::Operator::Slash => Some(Operator::SymmetricDifference),
        _ => None,
    }
}

/// `=` and `#`, where one operand is assignable to the other.
fn equality(
    checker: &Checker<'_, '_>,
    relation: Relation,
    left: TypeId,
    right: TypeId,
) -> Result<Option<(Operator, TypeId)>, NoMemory> {
    if !fits(checker, left, right)? && !fits(checker, right, left)? {
        return Ok(None);
    }
    let operator = Operator::Compare(relation, compared(checker, left, right));
    Ok(Some((operator, checker.declared.basic.boolean)))
}

/// How values of two types are compared, where one is assignable to the other.
fn compared(checker: &Checker<'_, '_>, left: TypeId, right: TypeId) -> Compared {
    match checker.node(left) {
        TypeNode::SetOf(_) => Compared::Sets,
        TypeNode::FixedArray(_, _) | TypeNode::OpenArray(_) | TypeNode::Fields(_) => {
            Compared::Structures
        }
        TypeNode::Procedure(_, _, _) => Compared::Procedures,
        _ if is_ordinal(checker, left) => Compared::Ordinals,
        _ if is_procedure(checker, right) => Compared::Procedures,
        _ => Compared::References,
    }
}

/// The orders, on ordinals of one base and on sets of one type.
fn order(
    checker: &Checker<'_, '_>,
    relation: Relation,
    left: TypeId,
    right: TypeId,
) -> Result<Option<(Operator, TypeId)>, NoMemory> {
    let compared = if share_base(checker, left, right)? {
        Compared::Ordinals
    } else if are_sets(checker, left, right)? {
        Compared::Sets
    } else {
        return Ok(None);
    };
    let operator = Operator::Compare(relation, compared);
    Ok(Some((operator, checker.declared.basic.boolean)))
}
