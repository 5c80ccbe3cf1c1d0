use m3_base::{NoMemory, place_number};
use m3_flow::Order;
use m3_mid::{End, Proc};
use std::alloc::Global;

/// Where it goes on behind a block that does nothing.
fn passed_to(p: &Proc, block: u32) -> Option<u32> {
    let block = p.blocks.get(block as usize)?;
    match block.end {
        End::Goto(to) if block.ops.is_empty() => Some(to),
        _ => None,
    }
}

/// The block to which a jump to a block goes.
pub fn next_of(list: &[u32], block: u32) -> u32 {
    list.get(block as usize).copied().unwrap_or(block)
}

/// One pass over the blocks that do nothing; whether something changed.
fn pass_on(p: &Proc, order: &Order, targets: &mut Vec<u32>) -> bool {
    let mut has_changed = false;
    for block in order.blocks.iter().rev() {
        if let Some(to) = passed_to(p, *block) {
            let target = next_of(targets, to);
            if target != *block
                && let Some(item) = targets.get_mut(*block as usize)
                && *item != target
            {
                *item = target;
                has_changed = true;
            }
        }
    }
    has_changed
}

/// For each block the one to which a jump to it goes: itself, or the one that follows blocks which
/// do nothing.
pub fn targets_of(alloc: Global, p: &Proc, order: &Order) -> Result<Vec<u32>, NoMemory> {
    let mut targets = Vec::new(alloc);
    for at in 0..p.blocks.len() {
        targets.push(place_number(at)?)?;
    }
    // each pass goes on by a block at least, and a ring of blocks that do nothing has no point
    for _ in 0..p.blocks.len() {
        if !pass_on(p, order, &mut targets) {
            break;
        }
    }
    Ok(targets)
}

/// The blocks that get code, in their order: those that are reached and that no jump passes by.
pub fn laid_of(alloc: Global, order: &Order, targets: &[u32]) -> Result<Vec<u32>, NoMemory> {
    let mut laid = Vec::new(alloc);
    for block in order.blocks.iter().take(order.reached) {
        if next_of(targets, *block) == *block {
            laid.push(*block)?;
        }
    }
    Ok(laid)
}

/// How many ends of blocks name each block, through those that do nothing; the start once more.
pub fn entries_of(
    alloc: Global,
    p: &Proc,
    laid: &[u32],
    targets: &[u32],
) -> Result<Vec<u32>, NoMemory> {
    let mut entries = vec![in alloc; 0u32; p.blocks.len()]?;
    count_entry(&mut entries, next_of(targets, p.start));
    for number in laid {
        if let Some(block) = p.blocks.get(*number as usize) {
            for exit in m3_flow::exits_of(block.end) {
                if let Some(to) = exit {
                    count_entry(&mut entries, next_of(targets, to));
                }
            }
        }
    }
    Ok(entries)
}

fn count_entry(entries: &mut Vec<u32>, block: u32) {
    if let Some(count) = entries.get_mut(block as usize) {
        *count = count.saturating_add(1);
    }
}
