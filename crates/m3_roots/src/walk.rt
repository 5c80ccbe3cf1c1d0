ghost use Rattle.std.specs.Prelude.{◌≡◌, ◌<◌, ◌≤◌, false, List, length, vec_capacity, IfSome};
ghost use Rattle.std.specs.Prelude.{IfNone};
ghost use Rattle.std.specs.Bool.{OnTrue};
ghost use Rattle.m3_tables.specs.Numbers.{word_in};
ghost use Rattle.m3_tables.specs.Tables.{section_of_row, number_of_row};
ghost use Rattle.m3_image_decoded.specs.Ready.{image_of};
ghost use Rattle.m3_run_frames.specs.declared.frame.Frame.{Frame as AFrame};
ghost use Rattle.m3_roots.specs.RowMeaning.{AreFramesAt};

use m3_image_decoded::Decoded;
use m3_isa::Regs;
use m3_run_frames::{Frame, frame_at, older_frame};
use m3_tables::Row;

/// The row of a frame. None exactly where there is no row of its number.
pub fn row_of<'a>(image: &Decoded<'a>, frame: &Frame) -> Option<Row<'a>>
    ensures none { IfNone result (word_in (image_of image.now).program.tables ≤ frame.now.row) }
    ensures some { IfSome result (λ row. (section_of_row row ≡ (image_of image.now).program.tables)
        × (number_of_row row ≡ frame.now.row)) }
{
    let tables = image.image().tables();
    if frame.row >= tables.len() as usize {
        return None;
    }
    tables.at(frame.row as u32)
}

/// Lists the frames of a thread whose stack has its first word at an address, the newest first.
/// False comes exactly where one of them isn't as frames are, if there is room for as many as the
/// stack has words.
pub fn list_frames(
    image: &Decoded<'_>,
    base: u64,
    regs: &Regs,
    stack: &[u64],
    frames: &mut Vec<Frame>,
) -> bool
    ensures found { OnTrue result (AreFramesAt (image_of image.now).program base stack.now
        regs.now.fp regs.now.pc frames.new.items) }
    ensures none { length stack.now < vec_capacity frames.old → result ≡ false → (fs : List AFrame)
        → AreFramesAt (image_of image.now).program base stack.now regs.now.fp regs.now.pc fs → ⊥ }
    ensures room { vec_capacity frames.old ≤ vec_capacity frames.new }
{
    image.image().keeps_its_form();
    frames.clear();
    if regs.fp < base || regs.fp - base > stack.len() as u64 {
        return false;
    }
    let first = (regs.fp - base) as usize;
    let Some(mut newer) = frame_at(image, stack, first, regs.pc) else {
        return false;
    };
    while newer.first > 0 {
        if frames.push(newer).is_err() {
            return false;
        }
        let Some(older) = older_frame(image, base, stack, &newer) else {
            return false;
        };
        newer = older;
    }
    frames.push(newer).is_ok()
}
