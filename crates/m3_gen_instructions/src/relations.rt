use m3_isa::Op;
use m3_mid::{Operand, Relation};

/// A branch that is taken where its relation holds: BZ and BNZ look at the left operand alone.
#[derive(Clone, Copy)]
pub(crate) struct Branch {
    pub(crate) op: Op,
    pub(crate) left: Operand,
    pub(crate) right: Operand,
}

fn make_branch(op: Op, left: Operand, right: Operand) -> Option<Branch> {
    Some(Branch { op, left, right })
}

/// Equal or not, where one of the operands is 0.
fn zero_branch(op: Op, left: Operand, right: Operand) -> Option<Branch> {
    if right == Operand::Number(0) {
        make_branch(op, left, right)
    } else if left == Operand::Number(0) {
        make_branch(op, right, left)
    } else {
        None
    }
}

fn equal_branch(left: Operand, right: Operand, holds: bool) -> Option<Branch> {
    if holds {
        zero_branch(Op::Bz, left, right).or(make_branch(Op::Beq, left, right))
    } else {
        zero_branch(Op::Bnz, left, right)
    }
}

/// left <= right as a relation Less: with a number on one side there is the next number.
fn signed_at_most(left: Operand, right: Operand) -> Option<Branch> {
    if let Operand::Number(bound) = right
        && let Some(next) = bound.checked_add(1)
    {
        return make_branch(Op::Blt, left, Operand::Number(next));
    }
    if let Operand::Number(bound) = left
        && let Some(before) = bound.checked_sub(1)
    {
        return make_branch(Op::Blt, Operand::Number(before), right);
    }
    None
}

/// The same without a sign: -1 is the greatest word, and 0 the least. At most the greatest number is
/// what isn't negative.
fn unsigned_at_most(left: Operand, right: Operand) -> Option<Branch> {
    if right == Operand::Number(i64::MAX) {
        return make_branch(Op::Blt, Operand::Number(-1), left);
    }
    if let Operand::Number(bound) = right
        && bound != -1
    {
        return make_branch(Op::Bltu, left, Operand::Number(bound.wrapping_add(1)));
    }
    if let Operand::Number(bound) = left
        && bound != 0
    {
        return make_branch(Op::Bltu, Operand::Number(bound.wrapping_sub(1)), right);
    }
    None
}

/// The branch that is taken exactly where a relation holds, or exactly where it doesn't, if there
/// is one.
pub(crate) fn branch_for(
    relation: Relation,
    left: Operand,
    right: Operand,
    holds: bool,
) -> Option<Branch> {
    match relation {
        Relation::Equal => equal_branch(left, right, holds),
        Relation::NotEqual => equal_branch(left, right, !holds),
        Relation::Less if holds => make_branch(Op::Blt, left, right),
        Relation::Less => signed_at_most(right, left),
        Relation::LessEqual if holds => signed_at_most(left, right),
        Relation::LessEqual => make_branch(Op::Blt, right, left),
        Relation::LessUnsigned if holds => make_branch(Op::Bltu, left, right),
        Relation::LessUnsigned => unsigned_at_most(right, left),
        Relation::LessEqualUnsigned if holds => unsigned_at_most(left, right),
        Relation::LessEqualUnsigned if right == Operand::Number(i64::MAX) => {
            make_branch(Op::Blt, left, Operand::Number(0))
        }
        Relation::LessEqualUnsigned => make_branch(Op::Bltu, right, left),
    }
}
