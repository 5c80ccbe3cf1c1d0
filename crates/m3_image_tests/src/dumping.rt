use crate::images::RICH;
use crate::reading::expect;
use m3_image::ImageView;
use m3_image_decoded::Decoded;
use m3_image_dump::dump;
use std::test::Fail;

/// The text of the image with something in each section, worked out by hand from its bytes.
const RICH_TEXT: &str = "proc 0 body 4 frame 6
0 POINT 0 0 0 0
point T s5 A R D
1 CALL 0 0 0 2
point T s4 A s5 R D s3=+s4
2 JMP 0 0 0 0
3 ENDP 0 0 0 0
proc 1 body 3 frame 7
4 POINT 0 0 0 0
point T A R D
5 ENDT 1 0 0 0
proc 2 body 4 frame 9
6 NEW 0 0 0 2
point T r2 s8 A R D
7 CON 1 0 0 1
8 GLB 2 0 0 6
9 LDS 3 0 0 4
10 FAULT 2 0 0 1
11 RET 0 0 0 0
var 2 n ordinal 6:s8
var global A.g reference g5
";

/// An image of three points in procedure 0, of version 1. At the first r3 and slot 5 are tidy, slot
/// 4 is an argument, r9 is described by the caller, and r7 is derived by slot 3 in two ways: r3 and
/// slot 4 less slot 5, or nothing; the second is the same; at the third r3 is gone, and r1 and slot
/// 2 came.
const WAYS: [u8; 358] = [
    77, 51, 73, 77, 1, 0, 0, 0, // magic and version
    64, 0, 0, 0, // code
    47, 0, 0, 0, 0, 0, 0, 0, 47, 0, 0, 0, 0, 0, 0, 0, 47, 0, 0, 0, 0, 0, 0, 0, // three points
    17, 1, 2, 0, 254, 255, 255, 255, // ADDI r1 r2 -2
    2, 15, 0, 0, 0, 0, 0, 128, // LI r15 -2147483648
    50, 0, 0, 0, 0, 0, 0, 0, 47, 0, 0, 0, 0, 0, 0, 0, 50, 0, 0, 0, 0, 0, 0, 0, 32, 0, 0, 0, // procs
    0, 0, 0, 0, 6, 0, 0, 0, 3, 0, 0, 0, 6, 0, 0, 0, 6, 0, 0, 0, 2, 0, 0, 0, 3, 0, 0, 0, 7, 0, 0, 0,
    52, 0, 0, 0, // types
    2, 0, 0, 0, 255, 255, 255, 255, 0, 0, 0, 0, 0, 0, 0, 0, 0, 0, 0, 0, 0, 0, 0, 0, 0, 0, 0, 0,
    255, 255, 255, 255, 4, 0, 0, 0, 0, 0, 0, 0, 0, 0, 0, 0, 1, 0, 0, 0, 3, 0, 0, 0, 8, 0, 0, 0, // globals
    4, 0, 0, 0, 0, 0, 0, 0, 4, 0, 0, 0, // constants
    0, 0, 0, 0, 8, 0, 0, 0, // places
    0, 0, 0, 0, 0, 0, 0, 0, 4, 0, 0, 0, // exceptions
    0, 0, 0, 0, 146, 0, 0, 0, // tables
    4, 0, 0, 0, // four rows
    0, 0, 0, 0, 0, 0, 0, 0, 1, 0, 0, 0, 59, 0, 0, 0, 2, 0, 0, 0, 60, 0, 0, 0, 6, 0, 0, 0, 93, 0, 0,
    0, 0, 2, 0, 0, 0, 3, 0, 0, 0, 21, 0, 0, 0, 1, 0, 0, 0, 20, 0, 0, 0, 1, 0, 0, 0, 9, 0, 0, 0, // T, A, R
    1, 0, 0, 0, 7, 0, 0, 0, 19, 0, 0, 0, 2, 0, // r7 by slot 3 in two ways
    2, 1, 3, 0, 0, 0, 20, 0, 0, 0, 21, 0, 0, 0, 0, 0, // r3 and slot 4 less slot 5, or nothing
    2, // the same
    1, 1, 0, 0, 0, 3, 0, 0, 0, 2, 0, 0, 0, 1, 0, 0, 0, 18, 0, 0, 0, // less r3, with r1 and slot 2
    0, 0, 0, 0, 0, 0, 0, 0, 0, 0, 0, 0, // nothing else
    0, 0, 0, 0, 0, 0, 0, 0, 0, 0, 0, 0, 0, 0, 0, 0, 0,
];

const WAYS_TEXT: &str = "proc 0 body 3 frame 6
0 POINT 0 0 0 0
point T r3 s5 A s4 R r9 D r7?s3=+r3+s4-s5|
1 POINT 0 0 0 0
point T r3 s5 A s4 R r9 D r7?s3=+r3+s4-s5|
2 POINT 0 0 0 0
point T r1 s2 s5 A R D
3 ADDI 1 2 0 -2
4 LI 15 0 0 -2147483648
5 ENDP 0 0 0 0
proc 1 body 3 frame 7
6 POINT 0 0 0 0
point T A R D
7 ENDP 0 0 0 0
";

#[test]
fn prints_images(rt: HostRuntime) -> Result<(), Fail> {
    for (bytes, wanted) in [(RICH.as_slice(), RICH_TEXT), (WAYS.as_slice(), WAYS_TEXT)] {
        let view = match ImageView::read(bytes) {
            Ok(view) => view,
            Err(e) => panic!(rt; "refused: {e}"),
        };
        let image = Decoded::of(rt.alloc(), view)?;
        let text = dump(rt.alloc(), &image)?;
        expect(&rt, text.as_slice(), wanted.as_bytes(), &"the text");
    }
    Ok(())
}
