use crate::emitter::{Emitter, Target};
use crate::relations::{Branch, branch_for};
use m3_base::NoMemory;
use m3_isa::{Instr, Op};
use m3_mid::{Operand, Relation};

/// The blocks at which it goes on behind an If, and the block whose code follows.
#[derive(Clone, Copy)]
pub struct Fork {
    pub yes: u32,
    pub no: u32,
    pub next: Option<u32>,
}

impl<'a> Emitter<'a> {
    /// Goes on at a block.
    pub fn put_goto(&mut self, to: u32, next: Option<u32>) -> Result<(), NoMemory> {
        if next == Some(to) {
            return Ok(());
        }
        let jump = Instr {
            op: Op::Jmp,
            a: 0,
            b: 0,
            c: 0,
            imm: 0,
        };
        self.put_jump(jump, Target::Block(to))
    }

    /// Goes to one block by a branch, and else on at another.
    fn put_either(
        &mut self,
        branch: Branch,
        to: u32,
        other: u32,
        next: Option<u32>,
    ) -> Result<(), NoMemory> {
        self.put_branch(branch, Target::Block(to))?;
        self.put_goto(other, next)
    }

    /// Goes on at one of two blocks. Where one of them follows, one branch does, if there is one
    /// that is taken in the other case.
    pub fn put_if(
        &mut self,
        relation: Relation,
        left: Operand,
        right: Operand,
        fork: Fork,
    ) -> Result<(), NoMemory> {
        let next = fork.next;
        let yes = fork.yes;
        let no = fork.no;
        if yes == no {
            return self.put_goto(yes, next);
        }
        let to_no = branch_for(relation, left, right, false);
        if next == Some(yes)
            && let Some(branch) = to_no
        {
            return self.put_either(branch, no, yes, next);
        }
        if let Some(branch) = branch_for(relation, left, right, true) {
            return self.put_either(branch, yes, no, next);
        }
        match to_no {
            Some(branch) => self.put_either(branch, no, yes, next),
            None => self.put_goto(yes, next),
        }
    }
}
