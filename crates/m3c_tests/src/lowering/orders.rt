use m3_base::{FaultKind, NoMemory, Pos, fault_name};
use m3_mid::{Block, CheckedOperator, End, MidOp, Proc};
use std::alloc::Global;

/// The first fault of an operator.
fn fault_of(operator: CheckedOperator) -> FaultKind {
    match operator {
        CheckedOperator::Add | CheckedOperator::Subtract | CheckedOperator::Multiply => {
            FaultKind::Overflow
        }
        CheckedOperator::Div
        | CheckedOperator::Mod
        | CheckedOperator::DivUnsigned
        | CheckedOperator::ModUnsigned => FaultKind::DivZero,
    }
}

/// A list of tests in the making.
#[derive(Drop)]
struct Tests {
    alloc: Global,
    text: String,
    last: String,
}

impl Tests {
    /// Adds a test, unless it is the same as the one before.
    fn add(&mut self, test: &str) -> Result<(), NoMemory> {
        if self.last.as_str() == test {
            return Ok(());
        }
        self.last = String::from_str(self.alloc, test)?;
        if !self.text.is_empty() {
            self.text.push_str(", ")?;
        }
        self.text.push_str(test)?;
        Ok(())
    }

    fn add_fault(&mut self, kind: FaultKind, pos: Pos) -> Result<(), NoMemory> {
        let name = fault_name(kind);
        let (line, col) = (pos.line, pos.col);
        let test = format!(in self.alloc; "{name} {line}:{col}")?;
        self.add(test.as_str())
    }

    fn add_op(&mut self, op: &MidOp<'_>) -> Result<(), NoMemory> {
        match op {
            MidOp::Checked { operator, pos, .. } => self.add_fault(fault_of(*operator), *pos),
            MidOp::Check { fault, pos, .. } => self.add_fault(*fault, *pos),
            MidOp::Call { .. } => self.add("call"),
            MidOp::Make { .. } => self.add("new"),
            MidOp::Service { .. } => self.add("service"),
            MidOp::Point { .. } => self.add("point"),
            _ => Ok(()),
        }
    }

    fn add_block(&mut self, block: &Block<'_>) -> Result<(), NoMemory> {
        for op in block.ops {
            self.add_op(op)?;
        }
        if let End::FaultAt { kind, pos } = block.end {
            self.add_fault(kind, pos)?;
        }
        Ok(())
    }
}

/// What a procedure tests and which points it passes, in order, from its start up to its first
/// choice. What is repeated at once is told once.
pub fn tested(alloc: Global, p: &Proc<'_>) -> Result<String, NoMemory> {
    let mut tests = Tests {
        alloc,
        text: String::new(alloc),
        last: String::new(alloc),
    };
    let mut at = p.start;
    for _ in 0..p.blocks.len() {
        let Some(block) = p.blocks.get(at as usize) else {
            break;
        };
        tests.add_block(block)?;
        match block.end {
            End::Goto(next) => at = next,
            _ => break,
        }
    }
    Ok(tests.text)
}
