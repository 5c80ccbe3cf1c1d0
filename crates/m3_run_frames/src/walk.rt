ghost use Rattle.std.specs.Prelude.{◌≡◌, ◌<◌, ◌^◌, ℕ, MatchOption};
ghost use Rattle.m3_image_decoded.specs.Ready.{image_of};
ghost use Rattle.m3_image.specs.Programs.{is_call};
ghost use Rattle.m3_run_frames.specs.Frames.{IsFrame, IsOlder, is_call_at};

use crate::frame::Frame;
use m3_image_decoded::Decoded;
use m3_isa::Op;

/// The frame that begins at a place of a stack and has an instruction. None exactly where the
/// instruction has no row, or the frame isn't wholly in the stack.
pub fn frame_at(image: &Decoded<'_>, stack: &[u64], first: usize, instr: u32) -> Option<Frame>
    ensures { MatchOption result ((f : Frame)
        → IsFrame (image_of image.now).program stack.now first instr f → ⊥)
        (λ f. IsFrame (image_of image.now).program stack.now first instr f) }
{
    image.image().keeps_together();
    let row = image.row(instr)?;
    let home = image.containing(instr)?;
    let words = home.frame as usize;
    if first > stack.len() || words > stack.len() - first {
        return None;
    }
    Some(Frame {
        first,
        words,
        row: row.number(),
    })
}

fn is_call(op: Op) -> bool
    ensures { result ≡ is_call op }
{
    matches!(op, Op::Call | Op::Callr | Op::Callm)
}

/// Whether a call stands at a place of the code.
fn is_call_at(image: &Decoded<'_>, pc: u32) -> bool
    ensures { result ≡ is_call_at (image_of image.now).program pc }
{
    match image.fetch(pc) {
        Some(i) => is_call(i.op),
        None => false,
    }
}

/// The frame below another one in a stack whose first address is `base`. None exactly where its
/// instruction is no call or has no row, or it isn't wholly in the stack, or doesn't begin below
/// the newer one.
pub fn older_frame(image: &Decoded<'_>, base: u64, stack: &[u64], newer: &Frame) -> Option<Frame>
    ensures { MatchOption result ((f : Frame)
        → IsOlder (image_of image.now).program base stack.now newer.now f → ⊥)
        (λ f. IsOlder (image_of image.now).program base stack.now newer.now f) }
{
    if newer.first >= stack.len() || stack.len() - newer.first < 2 {
        return None;
    }
    let back = stack[newer.first];
    let start = stack[newer.first + 1];
    if back == 0 || back > image.image().code_len() as u64 || start < base {
        return None;
    }
    let instr = (back - 1) as u32;
    let first = start - base;
    if first >= newer.first as u64 || !is_call_at(image, instr) {
        return None;
    }
    frame_at(image, stack, first as usize, instr)
}
