use crate::images::{RICH, SMALLEST, with_no_variables};
use m3_heap::Maps;
use m3_image::{ImageRefusal, ImageView, ProcPart};
use m3_isa::{Instr, Op};
use m3_tables::Location;
use std::alloc::Global;
use std::fmt::{Debug, Display};
use std::process::Abort;
use std::test::*;

/// What was found is what was wanted.
pub(crate) fn expect<T: PartialEq + Debug + Drop>(
    rt: &impl Abort,
    found: T,
    wanted: T,
    what: &impl Display,
) {
    assert_eq!(rt; found, wanted, "{what}");
}

#[test]
fn the_smallest_image(rt: HostRuntime) {
    let Ok(image) = ImageView::read(&SMALLEST) else {
        panic!(rt; "an image");
    };
    let counts = (image.version(), image.global_words(), image.tables().len());
    expect(&rt, counts, (1, 4, 2), &"version, global words and rows");
    let last = image.code(3).map(|i| i.op);
    expect(
        &rt,
        (last, image.code(4)),
        (Some(Op::Endp), None),
        &"the end of the code",
    );
    assert!(rt; image.variable(0).is_none() && image.proc(2).is_none() && image.shape(2).is_none());
    for length in 0..SMALLEST.len() {
        let found = ImageView::read(&SMALLEST[..length]).err();
        expect(&rt, found, Some(ImageRefusal::Short), &length);
    }
}

#[test]
fn a_ninth_section(rt: HostRuntime) {
    let one = with_no_variables(1);
    expect(
        &rt,
        ImageView::read(&one).err(),
        Some(ImageRefusal::Rest),
        &"in version 1",
    );
    let two = with_no_variables(2);
    assert!(rt; matches!(ImageView::read(&two), Ok(image) if image.version() == 2));
}

#[test]
fn a_code_section_of_33_bytes(rt: HostRuntime) {
    let mut image = [0; 235];
    for at in 0..235 {
        image[at] = if at < 44 {
            SMALLEST[at]
        } else {
            SMALLEST[at - 1]
        };
    }
    image[8] = 33;
    let found = ImageView::read(&image).err();
    expect(&rt, found, Some(ImageRefusal::Section(1)), &"33 bytes");
}

/// A change of some bytes of an image: the places with the new bytes, and the refusal.
type Change = (&'static [(usize, u8)], Option<ImageRefusal>);

/// What reading an image answers that has some bytes changed.
fn changed(
    alloc: Global,
    image: &[u8],
    bytes: &[(usize, u8)],
) -> Result<Option<ImageRefusal>, Fail> {
    let mut image = Vec::from_slice(alloc, image)?;
    for (at, value) in bytes {
        if let Some(byte) = image.get_mut(*at) {
            *byte = *value;
        }
    }
    Ok(ImageView::read(&image).err())
}

fn try_changes(
    rt: &impl Abort,
    alloc: Global,
    image: &[u8],
    changes: &[Change],
) -> Result<(), Fail> {
    for (row, (bytes, want)) in changes.iter().enumerate() {
        expect(rt, changed(alloc, image, bytes)?, *want, &row);
    }
    Ok(())
}

static OF_THE_SMALLEST: [Change; 63] = [
    (&[(0, 0)], Some(ImageRefusal::Magic)),
    (&[(3, 0x4e)], Some(ImageRefusal::Magic)),
    (&[(4, 9)], Some(ImageRefusal::Version)),
    (&[(4, 0)], Some(ImageRefusal::Version)),
    (&[(7, 1)], Some(ImageRefusal::Version)),
    (&[(4, 2)], Some(ImageRefusal::Short)),
    (&[(8, 33)], Some(ImageRefusal::Short)),
    // Procedures: the first instruction, the count, the body and the frame of each.
    (&[(48, 1)], Some(ImageRefusal::Section(2))),
    (&[(52, 0)], Some(ImageRefusal::Section(2))),
    (&[(56, 2)], Some(ImageRefusal::Section(2))),
    (&[(60, 2)], Some(ImageRefusal::Section(2))),
    (&[(72, 4)], Some(ImageRefusal::Section(2))),
    (&[(76, 6)], Some(ImageRefusal::Section(2))),
    (&[(56, 4), (60, 4)], None),
    // Those that need the code: its end, and points at the first instructions.
    (&[(68, 1)], Some(ImageRefusal::Section(2))),
    (&[(68, 3)], Some(ImageRefusal::Section(2))),
    (&[(12, 50)], Some(ImageRefusal::Section(2))),
    (&[(28, 50)], Some(ImageRefusal::Section(2))),
    // Types.
    (&[(84, 0)], Some(ImageRefusal::Section(3))),
    (&[(92, 1)], Some(ImageRefusal::Section(3))),
    (&[(96, 1)], Some(ImageRefusal::Section(3))),
    (&[(108, 2)], Some(ImageRefusal::Section(3))),
    (&[(112, 1)], Some(ImageRefusal::Section(3))),
    (&[(116, 5)], Some(ImageRefusal::Section(3))),
    (&[(120, 1)], Some(ImageRefusal::Section(3))),
    (&[(132, 2)], Some(ImageRefusal::Section(3))),
    (&[(112, 0), (113, 0), (114, 0), (115, 0)], None),
    (
        &[(112, 1), (113, 0), (114, 0), (115, 0)],
        Some(ImageRefusal::Section(3)),
    ),
    // Globals, constants, places and exceptions.
    (&[(140, 3)], Some(ImageRefusal::Section(4))),
    (&[(144, 1)], Some(ImageRefusal::Section(4))),
    (&[(152, 1)], Some(ImageRefusal::Section(5))),
    (&[(160, 1)], Some(ImageRefusal::Section(6))),
    (&[(164, 1)], Some(ImageRefusal::Section(6))),
    (&[(172, 1)], Some(ImageRefusal::Section(7))),
    // Instructions and targets.
    (&[(20, 99)], Some(ImageRefusal::Instruction(1))),
    (&[(20, 0)], Some(ImageRefusal::Instruction(1))),
    (&[(21, 1)], Some(ImageRefusal::Instruction(1))),
    (&[(20, 42)], None),
    (&[(20, 33), (24, 2)], Some(ImageRefusal::Target(1))),
    (&[(20, 33), (24, 1)], None),
    (&[(20, 7), (24, 128), (25, 132), (26, 30)], None),
    (&[(20, 7), (27, 255)], Some(ImageRefusal::Target(1))),
    (&[(20, 4)], Some(ImageRefusal::Target(1))),
    (&[(20, 5), (24, 3)], None),
    (&[(20, 5), (24, 4)], Some(ImageRefusal::Target(1))),
    (&[(20, 48)], Some(ImageRefusal::Target(1))),
    (&[(20, 44), (24, 1)], None),
    (&[(20, 44), (24, 2)], Some(ImageRefusal::Target(1))),
    (&[(20, 44), (27, 128)], Some(ImageRefusal::Target(1))),
    // Tables: the count, the directory, the rows, and the end.
    (&[(180, 3)], Some(ImageRefusal::Table(3))),
    (&[(180, 1)], Some(ImageRefusal::Table(1))),
    (&[(192, 1)], Some(ImageRefusal::Table(2))),
    (&[(20, 47)], Some(ImageRefusal::Table(2))),
    (&[(196, 18)], Some(ImageRefusal::Table(1))),
    (&[(200, 2)], Some(ImageRefusal::Table(0))),
    (&[(217, 3)], Some(ImageRefusal::Table(1))),
    (&[(217, 2)], Some(ImageRefusal::Table(2))),
    // Of several conditions the first.
    (&[(116, 5), (48, 1)], Some(ImageRefusal::Section(2))),
    (&[(116, 5), (20, 99)], Some(ImageRefusal::Section(3))),
    (
        &[(20, 99), (28, 99), (68, 1)],
        Some(ImageRefusal::Instruction(1)),
    ),
    (&[(68, 1), (20, 5), (24, 4)], Some(ImageRefusal::Section(2))),
    (&[(20, 5), (24, 4), (180, 3)], Some(ImageRefusal::Target(1))),
    (&[(192, 1), (200, 2)], Some(ImageRefusal::Table(2))),
];

static OF_THE_RICH: [Change; 34] = [
    // The call: a procedure that isn't there, and one before the first.
    (&[(24, 3)], Some(ImageRefusal::Target(1))),
    (&[(27, 128)], Some(ImageRefusal::Target(1))),
    // The jump, to the last instruction of its procedure and to the next procedure.
    (&[(32, 3)], None),
    (&[(32, 4)], Some(ImageRefusal::Target(2))),
    // NEW, CON, GLB and FAULT.
    (&[(64, 4)], Some(ImageRefusal::Target(6))),
    (&[(72, 2)], Some(ImageRefusal::Target(7))),
    (&[(80, 7)], Some(ImageRefusal::Target(8))),
    (&[(96, 2)], Some(ImageRefusal::Target(10))),
    (&[(93, 15)], None),
    (&[(93, 16)], Some(ImageRefusal::Target(10))),
    // A method of a procedure that isn't there, pointers that don't rise or lie outside, a
    // parent that isn't before its type, and an open type without a dimension.
    (&[(236, 4)], Some(ImageRefusal::Section(3))),
    (&[(252, 1)], Some(ImageRefusal::Section(3))),
    (&[(252, 3)], Some(ImageRefusal::Section(3))),
    (&[(260, 3)], Some(ImageRefusal::Section(3))),
    (&[(268, 0)], Some(ImageRefusal::Section(3))),
    (&[(280, 2)], Some(ImageRefusal::Section(3))),
    // Globals that are no words of their own, or don't rise.
    (&[(296, 3)], Some(ImageRefusal::Section(4))),
    (&[(300, 7)], Some(ImageRefusal::Section(4))),
    (&[(300, 5)], Some(ImageRefusal::Section(4))),
    // A place in a file that isn't there.
    (&[(348, 1)], Some(ImageRefusal::Section(6))),
    // A tidy slot past the frame, a derived word of the call in a register, and a slot of a
    // plain row.
    (&[(424, 22)], Some(ImageRefusal::Table(0))),
    (&[(469, 5)], Some(ImageRefusal::Table(1))),
    (&[(515, 25)], Some(ImageRefusal::Table(3))),
    (&[(441, 0), (489, 9)], Some(ImageRefusal::Table(1))),
    // Variables: procedure, word, form, span and place.
    (&[(539, 3)], Some(ImageRefusal::Section(9))),
    (&[(543, 1)], Some(ImageRefusal::Section(9))),
    (&[(552, 2)], Some(ImageRefusal::Section(9))),
    (&[(557, 7)], Some(ImageRefusal::Section(9))),
    (&[(557, 4)], Some(ImageRefusal::Section(9))),
    (&[(561, 15)], None),
    (&[(561, 25)], Some(ImageRefusal::Section(9))),
    (&[(569, 7)], Some(ImageRefusal::Section(9))),
    (&[(535, 1)], Some(ImageRefusal::Section(9))),
    (&[(535, 3)], Some(ImageRefusal::Section(9))),
];

#[test]
fn changed_images(rt: HostRuntime) -> Result<(), Fail> {
    try_changes(&rt, rt.alloc(), &SMALLEST, &OF_THE_SMALLEST)?;
    try_changes(&rt, rt.alloc(), &RICH, &OF_THE_RICH)
}

/// The parts of an image that has something in each section.
pub(crate) fn check_rich(rt: &impl Abort, image: &ImageView) {
    let load = Instr {
        op: Op::Lds,
        a: 3,
        b: 0,
        c: 0,
        imm: 4,
    };
    expect(
        rt,
        (image.code(9), image.code(12)),
        (Some(load), None),
        &"instructions",
    );
    let last = ProcPart {
        first: 6,
        count: 6,
        body: 4,
        frame: 9,
    };
    expect(
        rt,
        (image.proc(2), image.proc(3)),
        (Some(last), None),
        &"procedures",
    );
    let frame = image.containing(4).map(|proc| proc.frame);
    expect(
        rt,
        (frame, image.containing(12)),
        (Some(7), None),
        &"procedures of instructions",
    );
    let pointers = (image.global_pointer(1), image.global_pointer(2));
    expect(
        rt,
        (image.global_words(), pointers),
        (7, (Some(6), None)),
        &"globals",
    );
    let constants = (image.constant(0), image.constant(1), image.constant(2));
    expect(
        rt,
        constants,
        (Some(0x1122_3344_5566_7788), Some(9), None),
        &"constants",
    );
    expect(
        rt,
        (image.place(1), image.place(2)),
        (Some((0, 8)), None),
        &"places",
    );
    let files = (image.file(0), image.file(1));
    expect(rt, files, (Some(b"A.m3".as_slice()), None), &"files");
    let exceptions = (image.exception(0), image.exception(1));
    expect(
        rt,
        exceptions,
        (Some(b"A.E".as_slice()), None),
        &"exceptions",
    );
    check_types(rt, image);
    check_variables(rt, image);
}

fn check_types(rt: &impl Abort, image: &ImageView) {
    let (Some(fixed), Some(open), None) = (image.shape(2), image.shape(3), image.shape(4)) else {
        panic!(rt; "four types");
    };
    let found = (fixed.kind(), fixed.parent(), fixed.words(), fixed.dims());
    expect(rt, found, (0, u32::MAX, 3, 0), &"a fixed type");
    let methods = (fixed.method(0), fixed.method(1), fixed.method(2));
    expect(rt, methods, (Some(3), Some(0), None), &"its methods");
    let pointers = (fixed.pointer(1), fixed.pointer(2), open.pointer(0));
    expect(rt, pointers, (Some(2), None, Some(0)), &"pointers");
    let found = (open.kind(), open.parent(), open.words(), open.dims());
    expect(rt, found, (1, 2, 2, 1), &"an open type");
}

fn check_variables(rt: &impl Abort, image: &ImageView) {
    let (Some(n), Some(g), None) = (image.variable(0), image.variable(1), image.variable(2)) else {
        panic!(rt; "two variables");
    };
    expect(
        rt,
        (n.proc, n.word, n.form, n.name),
        (2, 0, 0, b"n".as_slice()),
        &"n",
    );
    expect(
        rt,
        (n.span(0), n.span(1)),
        (Some((6, Location::Slot(8))), None),
        &"its spans",
    );
    let found = (g.proc, g.word, g.form, g.name);
    expect(rt, found, (u32::MAX, 5, 1, b"A.g".as_slice()), &"A.g");
    expect(rt, g.span(0), None, &"its spans");
}

/// Types and their words, and which are pointers.
static POINTERS: [(u32, u64, bool); 11] = [
    (0, 1, false),
    (1, 3, true),
    (1, 2, false),
    (2, 0, false),
    (2, 1, true),
    (2, 2, true),
    (3, 1, false),
    (3, 2, true),
    (3, 3, false),
    (3, 4, true),
    (4, 1, false),
];

#[test]
fn what_a_rich_image_holds(rt: HostRuntime) {
    let Ok(image) = ImageView::read(&RICH) else {
        panic!(rt; "an image");
    };
    check_rich(&rt, &image);
    let Some(row) = image.tables().row(1) else {
        panic!(rt; "a row");
    };
    expect(&rt, row.tidy(Location::Slot(4)), true, &"slot 4");
    for (row, (kind, at, want)) in POINTERS.iter().enumerate() {
        expect(&rt, image.is_pointer(*kind, *at), *want, &row);
    }
}

static TEXTS: [(ImageRefusal, &str); 8] = [
    (ImageRefusal::Short, "short"),
    (ImageRefusal::Magic, "magic"),
    (ImageRefusal::Version, "version"),
    (ImageRefusal::Section(3), "section 3"),
    (ImageRefusal::Instruction(1), "instruction 1"),
    (ImageRefusal::Target(12), "target 12"),
    (ImageRefusal::Table(0), "table 0"),
    (ImageRefusal::Rest, "rest"),
];

#[test]
fn refusals_as_text(rt: HostRuntime) -> Result<(), Fail> {
    for (refusal, text) in &TEXTS {
        let printed = format!(in rt.alloc(); "{refusal}")?;
        expect(&rt, printed.as_str(), *text, refusal);
    }
    Ok(())
}
