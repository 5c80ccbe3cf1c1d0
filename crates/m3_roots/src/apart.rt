//! The derived words of all frames of a thread, taken apart and put together again.
ghost use Rattle.std.specs.Prelude.{◌≤◌, ◌+◌, ◌++◌};
ghost use Rattle.m3_image_decoded.specs.Ready.{image_of};
ghost use Rattle.m3_roots.specs.RowMeaning.{HaveRows, derived_words};
ghost use Rattle.m3_roots.specs.TakingApart.{apart, together, Leaves};
ghost use Rattle.m3_roots.specs.Steps.{derived_listed};

use crate::bases::{put_row_together, take_row_apart};
use crate::walk::row_of;
use m3_heap::Steps;
use m3_image_decoded::Decoded;
use m3_run_frames::Frame;
use std::sync::ledger::Ledger;

/// Subtracts the bases of all derived words from them, from the newest frame to the oldest. False
/// comes exactly where a path is past its ways.
pub fn take_apart<L: Ledger>(
    image: &Decoded<'_>,
    frames: &[Frame],
    r: &mut [u64; 16],
    stack: &mut [u64],
    steps: &mut Steps<L>,
) -> bool
    ensures leaves { HaveRows (image_of image.now).program frames.now
        → Leaves result (apart (derived_words (image_of image.now).program frames.now)
        (r.old ++ stack.old)) (r.new ++ stack.new) }
    ensures cost { HaveRows (image_of image.now).program frames.now → steps.new ≤ steps.old
        + derived_listed (derived_words (image_of image.now).program frames.now) }
{
    for frame in frames {
        let Some(row) = row_of(image, frame) else {
            return false;
        };
        if !take_row_apart(&row, frame.first, r, stack, steps) {
            return false;
        }
    }
    true
}

/// Adds the bases of all derived words to them, from the oldest frame to the newest.
pub fn put_together<L: Ledger>(
    image: &Decoded<'_>,
    frames: &[Frame],
    r: &mut [u64; 16],
    stack: &mut [u64],
    steps: &mut Steps<L>,
) -> bool
    ensures leaves { HaveRows (image_of image.now).program frames.now
        → Leaves result (together (derived_words (image_of image.now).program frames.now)
        (r.old ++ stack.old)) (r.new ++ stack.new) }
    ensures cost { HaveRows (image_of image.now).program frames.now → steps.new ≤ steps.old
        + derived_listed (derived_words (image_of image.now).program frames.now) }
{
    let mut k = frames.len();
    while k > 0 {
        k -= 1;
        let frame = &frames[k];
        let Some(row) = row_of(image, frame) else {
            return false;
        };
        if !put_row_together(&row, frame.first, r, stack, steps) {
            return false;
        }
    }
    true
}
