//! The frames of a thread, and what they show.
ghost use Rattle.std.specs.Prelude.{◌≡◌, ◌<◌, ◌++◌, List, map, IfOk, OnOk, MatchOption};
ghost use Rattle.m3_tables.specs.Numbers.{word_in};
ghost use Rattle.m3_image.specs.Views.{image_view};
ghost use Rattle.m3_image_decoded.specs.Ready.{image_of};
ghost use Rattle.m3_run_frames.specs.declared.frame.Frame.{Frame as AFrame};
ghost use Rattle.m3_roots.specs.RowMeaning.{HaveRows, AreFramesAt};
ghost use Rattle.m3_inspect.specs.Standing.{proc_number, instruction_of, proc_of_frame, held_in};
ghost use Rattle.m3_inspect.specs.Shown.{shown_frame, shown_vars, cells_after, shown_frames};
ghost use Rattle.m3_inspect.specs.Shown.{cells_after_frames};

use crate::locals::{Site, locals};
use crate::values::FrameView;
use indexmap::IndexSet;
use m3_base::{NoMemory, place_number};
use m3_image::ImageView;
use m3_image_decoded::Decoded;
use m3_isa::Regs;
use m3_run_frames::{Frame, frame_at, older_frame};
use std::alloc::Global;

/// The frames of a thread whose stack has its first word at an address, the newest first. None
/// exactly where one of them isn't as frames are.
pub(crate) fn frames_of(
    alloc: Global,
    image: &Decoded<'_>,
    base: u64,
    regs: &Regs,
    stack: &[u64],
) -> Result<Option<Vec<Frame>>, NoMemory>
    ensures { IfOk result (λ found. MatchOption found ((fs : List AFrame)
        → AreFramesAt (image_of image.now).program base stack.now regs.now.fp regs.now.pc fs → ⊥)
        (λ fs. AreFramesAt (image_of image.now).program base stack.now regs.now.fp regs.now.pc
        fs.items)) }
{
    image.image().keeps_its_form();
    if regs.fp < base || regs.fp - base > stack.len() as u64 {
        return Ok(None);
    }
    let first = (regs.fp - base) as usize;
    let Some(mut newer) = frame_at(image, stack, first, regs.pc) else {
        return Ok(None);
    };
    let mut frames = Vec::new(alloc);
    while newer.first > 0 {
        frames.push(newer)?;
        let Some(older) = older_frame(image, base, stack, &newer) else {
            return Ok(None);
        };
        newer = older;
    }
    frames.push(newer)?;
    Ok(Some(frames))
}

/// The instruction where a frame stands, which has a row.
fn instruction_of(image: &ImageView<'_>, frame: &Frame) -> u32
    ensures { frame.now.row < word_in (image_view image.now).program.tables
        → result ≡ instruction_of (image_view image.now) frame.now }
{
    let tables = image.tables();
    if frame.row >= tables.len() as usize {
        return 0;
    }
    match tables.at(frame.row as u32) {
        Some(row) => row.instruction(),
        None => 0,
    }
}

/// The number of the procedure that an instruction is in.
fn proc_number(image: &ImageView<'_>, instr: u32) -> Result<u32, NoMemory>
    ensures { IfOk result (λ n. n ≡ proc_number instr (image_view image.now).program.procs) }
{
    let mut number = 0;
    'procs: for proc in image.procs() {
        if u64::from(instr) < proc.end() {
            break;
        }
        number += 1;
    }
    place_number(number)
}

/// What a frame shows, over the words of its thread.
fn frame_view(
    alloc: Global,
    image: &ImageView<'_>,
    regs: &[u64; 16],
    stack: &[u64],
    frame: &Frame,
    cells: &mut IndexSet<u64>,
) -> Result<FrameView, NoMemory>
    ensures proc { frame.now.row < word_in (image_view image.now).program.tables
        → IfOk result (λ f. f.proc ≡ proc_of_frame (image_view image.now) frame.now) }
    ensures vars { frame.now.row < word_in (image_view image.now).program.tables
        → IfOk result (λ f. f.vars.items ≡ shown_vars cells.old.keys
        (held_in (image_view image.now) (regs.now ++ stack.now) frame.now)) }
    ensures cells { frame.now.row < word_in (image_view image.now).program.tables
        → OnOk result (cells.new.keys ≡ cells_after cells.old.keys
        (held_in (image_view image.now) (regs.now ++ stack.now) frame.now)) }
{
    let instr = instruction_of(image, frame);
    let proc = proc_number(image, instr)?;
    let site = Site {
        regs,
        stack,
        first: frame.first,
        instr,
    };
    let vars = locals(alloc, image, &site, cells)?;
    Ok(FrameView { proc, vars })
}

/// What the frames of a thread show, over its words.
pub(crate) fn frame_views(
    alloc: Global,
    image: &ImageView<'_>,
    regs: &[u64; 16],
    stack: &[u64],
    frames: &[Frame],
    cells: &mut IndexSet<u64>,
) -> Result<Vec<FrameView>, NoMemory>
    ensures frames { HaveRows (image_view image.now).program frames.now
        → IfOk result (λ fs. map shown_frame fs.items ≡ shown_frames (image_view image.now)
        (regs.now ++ stack.now) cells.old.keys frames.now) }
    ensures cells { HaveRows (image_view image.now).program frames.now
        → OnOk result (cells.new.keys ≡ cells_after_frames (image_view image.now)
        (regs.now ++ stack.now) cells.old.keys frames.now) }
{
    let mut views = Vec::new(alloc);
    for frame in frames {
        let shown = frame_view(alloc, image, regs, stack, frame, cells)?;
        views.push(shown)?;
    }
    Ok(views)
}
