//! What all threads and the globals show.
ghost use Rattle.std.specs.Prelude.{◌≡◌, ◌++◌, ℕ, ◌<◌, List, [], map, length, Some, IfOk};
ghost use Rattle.std.specs.Prelude.{OnOk, MatchOption, slice_get};
ghost use Rattle.m3_threads.specs.declared.status.Thread.{Thread};
ghost use Rattle.m3_threads.specs.All.{thread_named};
ghost use Rattle.m3_image_decoded.specs.Ready.{image_of};
ghost use Rattle.m3_run_frames.specs.declared.frame.Frame.{Frame as AFrame};
ghost use Rattle.m3_roots.specs.Collected.{AreFrames};
ghost use Rattle.m3_inspect.specs.Shown.{shown_thread, ShowsThread, ShowThreads, IsUnframed, Tries, Views};

use crate::frames::{frame_views, frames_of};
use crate::locals::globals;
use crate::values::{ThreadView, View};
use indexmap::IndexSet;
use m3_base::NoMemory;
use m3_image_decoded::Decoded;
use m3_threads::Threads;
use std::alloc::Global;

/// Why there is no view: a thread by its number, the lowest that has a frame that isn't as frames
/// are; or want of memory.
#[derive(Clone, Copy, Debug, PartialEq, Eq)]
pub enum ViewRefused {
    Frame(u64),
    NoMemory,
}

/// What a thread shows. None exactly where it hasn't its frames.
fn thread_view(
    alloc: Global,
    image: &Decoded<'_>,
    threads: &Threads,
    thread: u64,
    cells: &mut IndexSet<u64>,
) -> Result<Option<ThreadView>, NoMemory>
    ensures { (t : Thread) → thread_named threads.now thread ≡ Some t → t.number ≡ thread
        → IfOk result (λ found. MatchOption found ((frames : List AFrame)
        → AreFrames (image_of image.now).program threads.now t frames → ⊥)
        (λ v. ShowsThread (image_of image.now) threads.now t cells.old.keys (shown_thread v)
        cells.new.keys)) }
{
    let whole = image.image();
    whole.keeps_its_form();
    whole.keeps_together();
    let Some(base) = threads.stack_at(thread) else {
        return Ok(None);
    };
    let Some(regs) = threads.regs(thread) else {
        return Ok(None);
    };
    let Some(stack) = threads.words(thread) else {
        return Ok(None);
    };
    let Some(frames) = frames_of(alloc, image, base, regs, stack)? else {
        return Ok(None);
    };
    let frames = frame_views(alloc, whole, &regs.r, stack, &frames, cells)?;
    Ok(Some(ThreadView {
        number: thread,
        frames,
    }))
}

/// Adds what all threads show. It gives the lowest thread that hasn't its frames, if there is one.
fn put_threads(
    alloc: Global,
    image: &Decoded<'_>,
    threads: &Threads,
    cells: &mut IndexSet<u64>,
    views: &mut Vec<ThreadView>,
) -> Result<Option<u64>, NoMemory>
    requires { views.old.items ≡ [] }
    ensures { IfOk result (λ unframed. MatchOption unframed
        (ShowThreads (image_of image.now) threads.now cells.old.keys
        (length threads.now.threads) (map shown_thread views.new.items) cells.new.keys)
        (IsUnframed (image_of image.now) threads.now)) }
{
    for place in 0..64 {
        let Some(thread) = threads.number(place) else {
            return Ok(None);
        };
        let Some(view) = thread_view(alloc, image, threads, thread, cells)? else {
            return Ok(Some(thread));
        };
        views.push(view)?;
    }
    Ok(None)
}

/// What the globals and all threads show, or want of memory, or the lowest thread that hasn't its
/// frames.
fn try_view(
    alloc: Global,
    image: &Decoded<'_>,
    threads: &Threads,
    words: &[u64],
) -> Result<Result<View, u64>, NoMemory>
    ensures { IfOk result (λ r. Tries (image_of image.now) threads.now words.now r) }
{
    let mut cells = IndexSet::new(alloc);
    let globals = globals(alloc, image.image(), words, &mut cells)?;
    let mut views = Vec::new(alloc);
    match put_threads(alloc, image, threads, &mut cells, &mut views)? {
        Some(thread) => Ok(Err(thread)),
        None => Ok(Ok(View {
            globals,
            threads: views,
        })),
    }
}

/// What the globals and all threads of an image show.
pub fn view_of(
    alloc: Global,
    image: &Decoded<'_>,
    threads: &Threads,
    globals: &[u64],
) -> Result<View, ViewRefused>
    ensures { Views (image_of image.now) threads.now globals.now result }
{
    match try_view(alloc, image, threads, globals) {
        Ok(Ok(view)) => Ok(view),
        Ok(Err(thread)) => Err(ViewRefused::Frame(thread)),
        Err(NoMemory) => Err(ViewRefused::NoMemory),
    }
}
