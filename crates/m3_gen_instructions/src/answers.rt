use crate::emitter::Emitter;
use m3_base::NoMemory;
use m3_isa::Op;
use m3_mid::{Operand, Relation};

/// A comparison that one instruction makes.
#[derive(Clone, Copy)]
struct Test {
    op: Op,
    left: Operand,
    right: Operand,
    /// Whether the instruction gives the opposite.
    is_negated: bool,
}

fn make_test(op: Op, left: Operand, right: Operand, is_negated: bool) -> Test {
    Test {
        op,
        left,
        right,
        is_negated,
    }
}

/// left <= right: with a number on one side there is the next one, else it is the opposite of right
/// < left.
fn at_most(op: Op, left: Operand, right: Operand) -> Test {
    if let Operand::Number(bound) = right
        && let Some(next) = bound.checked_add(1)
        && (op == Op::Slt || bound != -1)
    {
        return make_test(op, left, Operand::Number(next), false);
    }
    make_test(op, right, left, true)
}

fn test_of(relation: Relation, left: Operand, right: Operand) -> Test {
    match relation {
        Relation::Equal => make_test(Op::Seq, left, right, false),
        Relation::NotEqual if right == Operand::Number(0) => make_test(
            Op::Sltu,
            right,
            left,
            false,
        ),
        Relation::NotEqual => make_test(Op::Seq, left, right, true),
        Relation::Less => make_test(Op::Slt, left, right, false),
        Relation::LessEqual => at_most(Op::Slt, left, right),
        Relation::LessUnsigned => make_test(Op::Sltu, left, right, false),
        Relation::LessEqualUnsigned => at_most(Op::Sltu, left, right),
    }
}

impl<'a> Emitter<'a> {
    /// Whether a relation holds, as 1 or 0.
    pub fn put_compare(
        &mut self,
        to: u32,
        relation: Relation,
        left: Operand,
        right: Operand,
    ) -> Result<(), NoMemory> {
        let test = test_of(relation, left, right);
        if !test.is_negated {
            return self.put_binary(test.op, to, test.left, test.right);
        }
        let b = self.operand(test.left)?;
        let c = self.operand(test.right)?;
        let opposite = self.scratch()?;
        self.put_abc(test.op, opposite, b, c)?;
        let one = self.number(1)?;
        self.put_abc(Op::Xor, opposite, opposite, one)?;
        self.give(to, opposite)
    }
}
