ghost use Rattle.std.specs.Prelude.{◌≡◌, ◌+◌, ◌-◌, ◌*◌, ◌<◌, ◌≤◌, ◌^◌, ◌++◌, ℕ, OnOk, All, map, length};
ghost use Rattle.m3_layout.specs.Pointers.{element_pointers};
ghost use Rattle.m3_layout.specs.Walking.{run_of};

use crate::walk::Run;
use m3_base::NoMemory;

/// Copies the pointers that a run names to the end of the list, for a value that begins at a word.
fn copy_once(offsets: &mut Vec<u64>, run: Run, at: u64) -> Result<(), NoMemory>
    requires ordered { run.start ≤ run.end }
    requires within { run.end ≤ length offsets.old.items }
    requires fits { All (λ p. (run.at ≤ p) × (p - run.at + at
        < 2 ^ 64)) (run_of offsets.old.items run) }
    ensures { OnOk result (offsets.new.items ≡ offsets.old.items
        ++ map (λ p. p - run.at + at) (run_of offsets.old.items run)) }
{
    for i in 0..run.end - run.start {
        let pointer = offsets[run.start + i];
        offsets.push(pointer - run.at + at)?;
    }
    Ok(())
}

/// Copies them so many times, for values of so many words that follow one another from a word on.
pub(crate) fn copy_run(
    offsets: &mut Vec<u64>,
    run: Run,
    words: u64,
    count: u128,
    at: u64,
) -> Result<(), NoMemory>
    requires ordered { run.start ≤ run.end }
    requires within { run.end ≤ length offsets.old.items }
    requires inside { All (λ p. (run.at ≤ p) × (p - run.at
        < words)) (run_of offsets.old.items run) }
    requires fits { at + count * words < 2 ^ 64 }
    ensures { OnOk result (offsets.new.items ≡
        offsets.old.items ++ element_pointers words (λ k. map (λ p. p - run.at + k)
        (run_of offsets.old.items run)) at count) }
{
    if run.start == run.end {
        return Ok(());
    }
    let mut next = at;
    for _copy in 0..count {
        copy_once(offsets, run, next)?;
        next += words;
    }
    Ok(())
}
