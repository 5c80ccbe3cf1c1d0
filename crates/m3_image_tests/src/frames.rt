use crate::images::RICH;
use crate::reading::expect;
use m3_image::ImageView;
use m3_image_decoded::Decoded;
use m3_run_frames::{Frame, frame_at, older_frame};
use std::test::Fail;

/// A stack of 20 words from address 1000 on, in which procedure 0 called procedure 2 at instruction
/// 1: its frame begins at word 4, behind the body of procedure 0, and has instruction 2 to go back
/// to.
const STACK: [u64; 20] = [
    18446744073709551615,
    0,
    4294967296,
    0,
    2,
    1000,
    0,
    0,
    0,
    0,
    0,
    0,
    0,
    0,
    0,
    0,
    0,
    0,
    0,
    0,
];

/// The frame of procedure 2 at its first instruction.
const NEWEST: Frame = Frame {
    first: 4,
    words: 9,
    row: 3,
};

/// The frame of procedure 0 at its call.
const OLDEST: Frame = Frame {
    first: 0,
    words: 6,
    row: 1,
};

/// Places of the stack and instructions, and the frames that begin there at these.
static FRAMES: [(usize, u32, Option<Frame>, &str); 5] = [
    (4, 6, Some(NEWEST), "the newest frame"),
    (
        11,
        6,
        Some(Frame {
            first: 11,
            words: 9,
            row: 3,
        }),
        "up to the end of the stack",
    ),
    (12, 6, None, "past the stack"),
    (4, 7, None, "no point"),
    (4, 12, None, "past the code"),
];

/// Addresses at which the stack begins, and frames with those below them.
static OLDER: [(u64, Frame, Option<Frame>, &str); 4] = [
    (1000, NEWEST, Some(OLDEST), "the frame of the caller"),
    (1000, OLDEST, None, "the first"),
    (996, NEWEST, None, "not below"),
    (1001, NEWEST, None, "before the stack"),
];

#[test]
fn finds_frames(rt: HostRuntime) -> Result<(), Fail> {
    let Ok(view) = ImageView::read(&RICH) else {
        panic!(rt; "an image");
    };
    let image = Decoded::of(rt.alloc(), view)?;
    for (first, instruction, wanted, what) in &FRAMES {
        let found = frame_at(&image, &STACK, *first, *instruction);
        expect(&rt, found, *wanted, what);
    }
    for (base, newer, wanted, what) in &OLDER {
        let found = older_frame(&image, *base, &STACK, newer);
        expect(&rt, found, *wanted, what);
    }
    let mut no_call = STACK;
    no_call[4] = 1;
    let found = older_frame(&image, 1000, &no_call, &NEWEST);
    expect(&rt, found, None, &"POINT calls nothing");
    Ok(())
}
