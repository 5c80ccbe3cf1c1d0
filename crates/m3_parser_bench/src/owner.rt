//! A function that owns units and lets them go on an early exit: its check measures what a crate
//! pays that holds trees.

ghost use Rattle.std.specs.Prelude.{◌≤◌, IfOk, length};

use m3_base::NoMemory;
use m3_syntax::Unit;
use std::alloc::Global;

/// How many of the units are safe. An `Err` is want of memory.
pub fn count_safe(alloc: Global, units: &[Unit<'_>]) -> Result<usize, NoMemory>
    ensures { IfOk result (λ count. count ≤ length units.now) }
{
    let mut safe = Vec::new(alloc);
    for unit in units {
        if !unit.is_unsafe {
            safe.push(*unit)?;
        }
    }
    Ok(safe.len())
}
