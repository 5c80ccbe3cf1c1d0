//! What the rows of a thread's frames may list together: no word twice, no path and no first or
//! second word of a frame, and no derived word of a newer frame as the base of an older one.
ghost use Rattle.std.specs.Prelude.{◌≡◌, ◌≤◌, ◌<◌, ◌+◌, ◌^◌, ℕ, List, length, map, true, false};
ghost use Rattle.std.specs.List.{AllByRecursion};
ghost use Rattle.m3_tables.specs.Numbers.{word_in};
ghost use Rattle.m3_image_decoded.specs.Ready.{image_of};
ghost use Rattle.m3_run_frames.specs.declared.frame.Frame.{Frame as AFrame};
ghost use Rattle.m3_roots.specs.RowMeaning.{HaveRows, AreFramesAt, newest_arguments};
ghost use Rattle.m3_roots.specs.RowLists.{ListsFit};
ghost use Rattle.m3_roots.specs.Marking.{Lists, MarksAll};
ghost use Rattle.m3_roots.specs.RowActs.{frame_acts, acts_below, acts_of};

use crate::listing::{bar_all, list_numbers, list_row};
use crate::marks::{Mark, clear};
use crate::walk::row_of;
use m3_image_decoded::Decoded;
use m3_run_frames::Frame;

/// Marks what the row of a frame lists.
fn mark_frame(image: &Decoded<'_>, marks: &mut [Mark], frame: &Frame) -> bool
    ensures { frame.now.row < word_in (image_of image.now).program.tables
        → MarksAll marks.old marks.new (frame_acts (image_of image.now).program frame.now) result }
{
    let Some(row) = row_of(image, frame) else {
        return false;
    };
    let Some(tidy) = image.tidy_places(frame.row) else {
        return false;
    };
    bar_all(marks, frame.first, &row) && list_row(marks, frame.first, tidy, &row)
}

/// Marks what the rows of the frames list.
fn mark_frames(image: &Decoded<'_>, marks: &mut [Mark], frames: &[Frame]) -> bool
    ensures { HaveRows (image_of image.now).program frames.now
        → MarksAll marks.old marks.new (acts_below (image_of image.now).program frames.now) result }
{
    for frame in frames {
        if !mark_frame(image, marks, frame) {
            return false;
        }
    }
    true
}

/// Marks the arguments of the newest frame.
fn mark_arguments(image: &Decoded<'_>, marks: &mut [Mark], frames: &[Frame]) -> bool
    ensures { HaveRows (image_of image.now).program frames.now
        → MarksAll marks.old marks.new (map Lists
        (newest_arguments (image_of image.now).program frames.now)) result }
{
    let [newest, ..] = frames else {
        return true;
    };
    let Some(row) = row_of(image, newest) else {
        return false;
    };
    list_numbers(marks, newest.first, row.argument_places())
}

/// Marks what the rows of all frames list, and the arguments of the newest.
fn mark_all(image: &Decoded<'_>, marks: &mut [Mark], frames: &[Frame]) -> bool
    ensures { HaveRows (image_of image.now).program frames.now
        → MarksAll marks.old marks.new (acts_of (image_of image.now).program frames.now) result }
{
    mark_arguments(image, marks, frames) && mark_frames(image, marks, frames)
}

/// The later one of an end and that of a frame.
fn later_end(end: usize, frame: &Frame) -> usize
    ensures later { end ≤ result }
    ensures frame { (n : ℕ) → n < 2 ^ 64 → frame.now.first + frame.now.words ≤ n
        → frame.now.first + frame.now.words ≤ result }
    ensures within { (n : ℕ) → n < 2 ^ 64 → frame.now.first + frame.now.words ≤ n → end ≤ n
        → result ≤ n }
{
    end.max(frame.first.saturating_add(frame.words))
}

/// Where the words of all frames end.
fn end_of(frames: &[Frame]) -> usize
    ensures { (n : ℕ) → n < 2 ^ 64 → AllByRecursion (λ (f : AFrame). f.first + f.words ≤ n)
        frames.now
        → (result ≤ n) × AllByRecursion (λ (f : AFrame). f.first + f.words ≤ result) frames.now }
{
    let mut end = 0;
    for frame in frames {
        end = later_end(end, frame);
    }
    end
}

/// Whether what the rows of the frames of a stack list together is as it may be, where there is a
/// mark for each register and each word of the stack.
pub fn lists_fit(image: &Decoded<'_>, frames: &[Frame], marks: &mut [Mark]) -> bool
    ensures fit { (base fp pc : ℕ) (stack : List ℕ)
        → AreFramesAt (image_of image.now).program base stack fp pc frames.now
        → length stack + 16 ≤ length marks.old
        → result ≡ true → ListsFit (image_of image.now).program frames.now }
    ensures unfit { (base fp pc : ℕ) (stack : List ℕ)
        → AreFramesAt (image_of image.now).program base stack fp pc frames.now
        → length stack + 16 ≤ length marks.old
        → result ≡ false → ListsFit (image_of image.now).program frames.now → ⊥ }
{
    image.image().keeps_its_form();
    image.image().keeps_together();
    let count = marks.len();
    let end = end_of(frames).saturating_add(16).min(count);
    clear(marks, end);
    mark_all(image, marks, frames)
}
