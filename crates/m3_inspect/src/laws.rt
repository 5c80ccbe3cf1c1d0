//! What is shown doesn't hang on where cells lie.
ghost use Rattle.std.specs.Prelude.{◌≡◌, ℕ, List, None, length};
ghost use Rattle.m3_threads.specs.declared.status.Thread.{Thread};
ghost use Rattle.m3_threads.specs.All.{Everyone};
ghost use Rattle.m3_image_sections.specs.Parts.{Image};
ghost use Rattle.m3_image.specs.Images.{IsImage};
ghost use Rattle.m3_image.specs.Programs.{fault_of};
ghost use Rattle.m3_run_frames.specs.declared.frame.Frame.{Frame};
ghost use Rattle.m3_roots.specs.Collected.{Parts, Collected, StopsCollection, AreFrames, words_at};
ghost use Rattle.m3_inspect.specs.Listed.{AreListed, HaveRegisters, PlacesAreBelow};
ghost use Rattle.m3_inspect.specs.Shown.{Shown, IsShown, IsUnframed};

/// A collection changes nothing of what is shown, where each reference that is shown is a tidy word
/// or a pointer among the globals, and each ordinal is none of these and no derived word.
pub fn collections_change_no_view()
    ensures { (i : Image) (old new : Parts) (s : Shown) → fault_of i.program ≡ None
        → HaveRegisters old.all → AreListed i old.all
        → (StopsCollection i.program old → ⊥) → Collected i.program old new
        → IsShown i old.all old.globals s → IsShown i new.all new.globals s }
{}

/// Threads and globals show one thing alone.
pub fn views_are_one()
    ensures { (i : Image) (all : Everyone) (globals : List ℕ) (s u : Shown)
        → fault_of i.program ≡ None
        → IsShown i all globals s → IsShown i all globals u → u ≡ s }
{}

/// Each variable in scope has its place among the registers and the words of the stack of its
/// thread: no span of an image leads out of the frame of its procedure.
pub fn places_are_in_stacks()
    ensures { (i : Image) (all : Everyone) (t : Thread) (frames : List Frame) → IsImage i
        → length t.regs.r ≡ 16 → AreFrames i.program all t frames
        → PlacesAreBelow i (length (words_at all t)) frames }
{}

/// What is shown has all frames: there is no view where a thread hasn't its frames.
pub fn views_have_all_frames()
    ensures { (i : Image) (all : Everyone) (globals : List ℕ) (s : Shown) (number : ℕ)
        → IsShown i all globals s → IsUnframed i all number → ⊥ }
{}
