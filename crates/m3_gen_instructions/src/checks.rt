use crate::emitter::{Emitter, Target};
use crate::part::Places;
use crate::relations::{Branch, branch_for};
use m3_base::{FaultKind, NoMemory, Pos};
use m3_isa::{Instr, Op};
use m3_mid::{CheckedOperator, Operand, Relation};

/// The instruction of a checked operator, and the fault with which it jumps.
fn checked_op(operator: CheckedOperator) -> (Op, FaultKind) {
    match operator {
        CheckedOperator::Add => (Op::Addo, FaultKind::Overflow),
        CheckedOperator::Subtract => (Op::Subo, FaultKind::Overflow),
        CheckedOperator::Multiply => (Op::Mulo, FaultKind::Overflow),
        CheckedOperator::Div => (Op::Divf, FaultKind::Overflow),
        CheckedOperator::Mod => (Op::Modf, FaultKind::DivZero),
        CheckedOperator::DivUnsigned => (Op::Divu, FaultKind::DivZero),
        CheckedOperator::ModUnsigned => (Op::Modu, FaultKind::DivZero),
    }
}

impl<'a> Emitter<'a> {
    /// Where the run ends with a fault.
    pub fn fault(
        &mut self,
        kind: FaultKind,
        pos: Pos,
        places: &mut Places,
    ) -> Result<Target, NoMemory> {
        let place = places.number(pos.file, pos.line)?;
        self.stub(kind.number(), place)
    }

    /// A branch to a target.
    pub(crate) fn put_branch(&mut self, branch: Branch, target: Target) -> Result<(), NoMemory> {
        let a = self.operand(branch.left)?;
        let b = match branch.op {
            Op::Bz | Op::Bnz => 0,
            _ => self.operand(branch.right)?,
        };
        self.put_jump(
            Instr {
                op: branch.op,
                a,
                b,
                c: 0,
                imm: 0,
            },
            target,
        )
    }

    /// A branch over the next instruction.
    fn put_skip(&mut self, branch: Branch) -> Result<(), NoMemory> {
        let a = self.operand(branch.left)?;
        let b = match branch.op {
            Op::Bz | Op::Bnz => 0,
            _ => self.operand(branch.right)?,
        };
        let behind = self.here()?.saturating_add(2);
        let imm = i32::try_from(behind).unwrap_or(i32::MAX);
        self.put_imm(branch.op, a, b, imm)
    }

    /// The run ends with a fault.
    pub fn put_fault(
        &mut self,
        kind: FaultKind,
        pos: Pos,
        places: &mut Places,
    ) -> Result<(), NoMemory> {
        let place = places.number(pos.file, pos.line)?;
        self.put_word(Op::Fault, kind.number(), place)
    }

    /// Goes on where the relation holds.
    pub fn put_check(
        &mut self,
        relation: Relation,
        left: Operand,
        right: Operand,
        fault: (FaultKind, Pos),
        places: &mut Places,
    ) -> Result<(), NoMemory> {
        let (kind, pos) = fault;
        if let Some(branch) = branch_for(relation, left, right, false) {
            let target = self.fault(kind, pos, places)?;
            return self.put_branch(branch, target);
        }
        if let Some(branch) = branch_for(relation, left, right, true) {
            self.put_skip(branch)?;
        }
        self.put_fault(kind, pos, places)
    }

    /// A checked operator. DivZero comes before Overflow.
    pub fn put_checked(
        &mut self,
        to: u32,
        operator: CheckedOperator,
        operands: (Operand, Operand),
        pos: Pos,
        places: &mut Places,
    ) -> Result<(), NoMemory> {
        let (left, right) = operands;
        let (op, kind) = checked_op(operator);
        let b = self.operand(left)?;
        let c = self.operand(right)?;
        let may_be_zero = !matches!(right, Operand::Number(value) if value != 0);
        if op == Op::Divf && may_be_zero {
            let zero = self.fault(FaultKind::DivZero, pos, places)?;
            self.put_jump(
                Instr {
                    op: Op::Bz,
                    a: c,
                    b: 0,
                    c: 0,
                    imm: 0,
                },
                zero,
            )?;
        }
        let target = self.fault(kind, pos, places)?;
        let goal = self.goal(to)?;
        self.put_jump(
            Instr {
                op,
                a: goal.register,
                b,
                c,
                imm: 0,
            },
            target,
        )?;
        self.settle(goal)
    }
}
