//! The loops that count a variable.
use m3_base::{NoMemory, place_number};
use m3_flow::{Groups, Pair as Link, end_of, exits_of, is_call, ops_of, settings_of};
use m3_mid::{End, MidOp, Operand, Proc, WordOperator};
use std::alloc::Global;

/// A loop of more blocks is left as it is.
const WIDEST: usize = 200;

/// A procedure with a block of more operations is left as it is.
const LONGEST: usize = 2000;

/// A loop without calls that is entered from one block alone, and that one block alone leads back
/// to its head. The last operation of that one adds a number to a variable.
#[derive(Drop)]
pub struct Loop {
    /// The block from which it is entered.
    pub before: u32,
    /// The block that leads back to its head.
    pub turn: u32,
    pub index: u32,
    pub step: u64,
    /// The number with which the variable begins, where the block before says it.
    pub first: Option<u64>,
    pub blocks: Vec<u32>,
    /// Those that each turn passes, but the one at its end.
    pub passed: Vec<u32>,
    /// Those that a turn may pass more than once.
    pub repeated: Vec<u32>,
}

/// A variable, and what is added to it.
#[derive(Clone, Copy)]
struct Step {
    index: u32,
    by: u64,
}

/// What the last operation of a block adds to a variable.
fn step_of(ops: &[MidOp<'_>]) -> Option<Step> {
    match ops.last().copied() {
        Some(
            MidOp::Arith {
                to,
                operator: WordOperator::Add,
                left: Operand::Temp(left),
                right: Operand::Number(by),
            },
        ) if left == to => Some(Step {
            index: to,
            by: by.cast_unsigned(),
        }),
        _ => None,
    }
}

fn has_long_block(p: &Proc<'_>) -> bool {
    p.blocks.iter().any(|block| block.ops.len() > LONGEST)
}

fn has_call(ops: &[MidOp<'_>]) -> bool {
    ops.iter().any(|op| is_call(*op))
}

/// Whether a procedure may have such loops, and no block that is too long to be looked through.
pub fn may_count(p: &Proc<'_>) -> bool {
    !has_long_block(p)
        && p.blocks.iter().any(|block| matches!(block.end, End::Goto(_))
            && step_of(block.ops).is_some())
}

/// The search for the blocks of loops.
#[derive(Drop)]
struct Search {
    entries: Groups,
    /// By block the loop in which it was last found, and 1 more.
    marks: Vec<u32>,
    /// By block the walk back through a turn that last came to it, and how many of these there were.
    walked: Vec<u32>,
    walks: u32,
}

/// The blocks from which it goes on to each block.
fn entries_of(alloc: Global, p: &Proc<'_>) -> Result<Groups, NoMemory> {
    let mut links = Vec::new(alloc);
    for (block, content) in p.blocks.iter().enumerate() {
        let item = place_number(block)?;
        for exit in exits_of(content.end) {
            if let Some(group) = exit {
                links.push(Link { group, item })?;
            }
        }
    }
    Groups::of(alloc, p.blocks.len(), &links)
}

impl Search {
    /// Whether a block wasn't marked for this loop yet; it is now.
    fn mark(&mut self, block: u32, stamp: u32) -> bool {
        match self.marks.get_mut(block as usize) {
            Some(mark) => {
                let is_new = *mark != stamp;
                *mark = stamp;
                is_new
            }
            None => false,
        }
    }

    fn is_marked(&self, block: u32, stamp: u32) -> bool {
        self.marks.get(block as usize).copied() == Some(stamp)
    }

    /// The head, and the blocks from which one leads back to it without passing it; none where they
    /// are too many, or the procedure begins among them.
    fn blocks(
        &mut self,
        alloc: Global,
        p: &Proc<'_>,
        head: u32,
        turn: u32,
    ) -> Result<Option<Vec<u32>>, NoMemory> {
        let stamp = turn.saturating_add(1);
        let mut blocks = Vec::new(alloc);
        self.mark(head, stamp);
        blocks.push(head)?;
        if self.mark(turn, stamp) {
            blocks.push(turn)?;
        }
        for at in 0..WIDEST {
            let Some(block) = blocks.get(at).copied() else {
                return Ok(Some(blocks));
            };
            if block == p.start || has_call(ops_of(p, block)) {
                return Ok(None);
            }
            if block != head {
                self.follow(block, stamp, &mut blocks)?;
            }
        }
        Ok(None)
    }

    /// Adds the blocks before one.
    fn follow(&mut self, block: u32, stamp: u32, blocks: &mut Vec<u32>) -> Result<(), NoMemory> {
        for at in 0..self.entries.row(block).len() {
            if let Some(entry) = self.entries.row(block).get(at).copied()
                && self.mark(entry, stamp)
            {
                blocks.push(entry)?;
            }
        }
        Ok(())
    }

    /// Adds the blocks before one, to which this walk hasn't come yet. Gives whether the head is one.
    fn walk_back(
        &mut self,
        block: u32,
        head: u32,
        around: u32,
        open: &mut Vec<u32>,
    ) -> Result<bool, NoMemory> {
        let walks = self.walks;
        for at in 0..self.entries.row(block).len() {
            if let Some(entry) = self.entries.row(block).get(at).copied()
                && entry != around
                && let Some(walked) = self.walked.get_mut(entry as usize)
                && *walked != walks
            {
                if entry == head {
                    return Ok(true);
                }
                *walked = walks;
                open.push(entry)?;
            }
        }
        Ok(false)
    }

    /// Whether each way from the head of a loop to the end of its turn passes a block.
    fn is_passed(
        &mut self,
        alloc: Global,
        head: u32,
        turn: u32,
        block: u32,
    ) -> Result<bool, NoMemory> {
        if block == head {
            return Ok(true);
        }
        self.walks = self.walks.saturating_add(1);
        let mut open = Vec::new(alloc);
        open.push(turn)?;
        for _step in 0..WIDEST {
            let Some(before) = open.pop() else {
                return Ok(true);
            };
            if self.walk_back(before, head, block, &mut open)? {
                return Ok(false);
            }
        }
        Ok(false)
    }

    /// Whether a way leads from a block of a loop back to it without passing the loop's head.
    fn is_repeated(&mut self, alloc: Global, head: u32, block: u32) -> Result<bool, NoMemory> {
        if block == head {
            return Ok(false);
        }
        self.walks = self.walks.saturating_add(1);
        let mut open = Vec::new(alloc);
        open.push(block)?;
        for _step in 0..WIDEST {
            let Some(before) = open.pop() else {
                return Ok(false);
            };
            if self.walk_back(before, block, head, &mut open)? {
                return Ok(true);
            }
        }
        Ok(true)
    }

    /// The blocks of a loop that a turn may pass more than once.
    fn repeated(&mut self, alloc: Global, blocks: &[u32], head: u32) -> Result<Vec<u32>, NoMemory> {
        let mut repeated = Vec::new(alloc);
        for block in blocks {
            if self.is_repeated(alloc, head, *block)? {
                repeated.push(*block)?;
            }
        }
        Ok(repeated)
    }

    /// The blocks of a loop that each turn passes, but the one at its end.
    fn passed(
        &mut self,
        alloc: Global,
        blocks: &[u32],
        head: u32,
        turn: u32,
    ) -> Result<Vec<u32>, NoMemory> {
        let mut passed = Vec::new(alloc);
        for block in blocks {
            if *block != turn && self.is_passed(alloc, head, turn, *block)? {
                passed.push(*block)?;
            }
        }
        Ok(passed)
    }

    /// The one block outside from which a loop is entered, where none but the turn leads back.
    fn before(&self, head: u32, turn: u32) -> Option<u32> {
        let stamp = turn.saturating_add(1);
        let mut before = None;
        for entry in self.entries.row(head) {
            if self.is_marked(*entry, stamp) {
                if *entry != turn {
                    return None;
                }
            } else if before.is_none() {
                before = Some(*entry);
            } else {
                return None;
            }
        }
        before
    }
}

/// The number that a block puts into a temporary, where nothing behind that sets it.
fn number_in(ops: &[MidOp<'_>], temp: u32) -> Option<u64> {
    for op in ops.iter().rev() {
        if settings_of(*op).contains(&Some(temp)) {
            return match op {
                MidOp::Number { to: _, value } => Some(value.cast_unsigned()),
                _ => None,
            };
        }
    }
    None
}

/// The loops of a procedure that count a variable.
pub fn loops_of(alloc: Global, p: &Proc<'_>) -> Result<Vec<Loop>, NoMemory> {
    let mut search = Search {
        entries: entries_of(alloc, p)?,
        marks: vec![in alloc; 0u32; p.blocks.len()]?,
        walked: vec![in alloc; 0u32; p.blocks.len()]?,
        walks: 0,
    };
    let mut loops = Vec::new(alloc);
    for number in 0..p.blocks.len() {
        let turn = place_number(number)?;
        if let End::Goto(head) = end_of(p, turn)
            && let Some(step) = step_of(ops_of(p, turn))
            && let Some(blocks) = search.blocks(alloc, p, head, turn)?
            && let Some(before) = search.before(head, turn)
        {
            let passed = search.passed(alloc, &blocks, head, turn)?;
            let repeated = search.repeated(alloc, &blocks, head)?;
            loops.push(Loop {
                before,
                turn,
                index: step.index,
                step: step.by,
                first: number_in(ops_of(p, before), step.index),
                blocks,
                passed,
                repeated,
            })?;
        }
    }
    Ok(loops)
}
