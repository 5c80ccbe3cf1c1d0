ghost use Rattle.std.specs.Prelude.{◌≡◌, ◌≤◌, [], ◌∷◌, pos, length, map, IfOk, IfSome};
ghost use Rattle.std.specs.List.{AllByRecursion};
ghost use Rattle.m3_image_writer.specs.Image.{image_bytes};
ghost use Rattle.m3_image_writer.specs.Views.{cell_type, variable_of};
ghost use Rattle.m3_image_writer.specs.Parts.{AreNumbered, AreParts};

use crate::images::{SMALLEST, with_no_variables};
use crate::reading::{check_rich, expect};
use m3_base::{Bytes, NoMemory};
use m3_image::{ImageView, ProcPart};
use m3_image_writer::{GlobalPart, ImageParts, PlacePart, TypePart, VarPart, write_image};
use m3_isa::{Instr, Op};
use m3_tables::Location;
use std::alloc::Global;
use std::test::*;

/// Two rows that say nothing, at instructions 0 and 2.
const EMPTY_ROWS: [u8; 54] = [
    2, 0, 0, 0, 0, 0, 0, 0, 0, 0, 0, 0, 2, 0, 0, 0, 17, 0, 0, 0, 0, 0, 0, 0, 0, 0, 0, 0, 0, 0, 0,
    0, 0, 0, 0, 0, 0, 0, 0, 0, 0, 0, 0, 0, 0, 0, 0, 0, 0, 0, 0, 0, 0, 0,
];

/// An image with something of each kind. Its second row is a change and its third the same as the
/// second.
const RICH: [u8; 577] = [
    77, 51, 73, 77, 2, 0, 0, 0, // M3IM, version 2
    96, 0, 0, 0, // the code
    47, 0, 0, 0, 0, 0, 0, 0, 39, 0, 0, 0, 2, 0, 0, 0, 33, 0, 0, 0, 0, 0, 0, 0, 50, 0, 0, 0, 0, 0,
    0, 0, 47, 0, 0, 0, 0, 0, 0, 0, 51, 1, 0, 0, 0, 0, 0, 0, 45, 0, 0, 0, 2, 0, 0, 0, 4, 1, 0, 0, 1,
    0, 0, 0, 5, 2, 0, 0, 6, 0, 0, 0, 7, 3, 0, 0, 4, 0, 0, 0, 48, 2, 0, 0, 1, 0, 0, 0, 42, 0, 0, 0,
    0, 0, 0, 0, 48, 0, 0, 0, // the procedures
    0, 0, 0, 0, 4, 0, 0, 0, 4, 0, 0, 0, 6, 0, 0, 0, 4, 0, 0, 0, 2, 0, 0, 0, 3, 0, 0, 0, 7, 0, 0, 0,
    6, 0, 0, 0, 6, 0, 0, 0, 4, 0, 0, 0, 9, 0, 0, 0, 120, 0, 0, 0, // the types
    2, 0, 0, 0, 255, 255, 255, 255, 0, 0, 0, 0, 0, 0, 0, 0, 0, 0, 0, 0, 0, 0, 0, 0, 0, 0, 0, 0,
    255, 255, 255, 255, 4, 0, 0, 0, 0, 0, 0, 0, 0, 0, 0, 0, 1, 0, 0, 0, 3, 0, 0, 0, 0, 0, 0, 0,
    255, 255, 255, 255, 3, 0, 0, 0, 0, 0, 0, 0, 2, 0, 0, 0, 3, 0, 0, 0, 0, 0, 0, 0, 2, 0, 0, 0, 1,
    0, 0, 0, 2, 0, 0, 0, 1, 0, 0, 0, 2, 0, 0, 0, 2, 0, 0, 0, 1, 0, 0, 0, 0, 0, 0, 0, 1, 0, 0, 0, 0,
    0, 0, 0, 16, 0, 0, 0, // the globals
    7, 0, 0, 0, 2, 0, 0, 0, 5, 0, 0, 0, 6, 0, 0, 0, 20, 0, 0, 0, // the constants
    2, 0, 0, 0, 136, 119, 102, 85, 68, 51, 34, 17, 9, 0, 0, 0, 0, 0, 0, 0, 32, 0, 0, 0, // the places
    1, 0, 0, 0, 4, 0, 0, 0, 65, 46, 109, 51, 2, 0, 0, 0, 0, 0, 0, 0, 3, 0, 0, 0, 0, 0, 0, 0, 8, 0,
    0, 0, 11, 0, 0, 0, // the exceptions
    1, 0, 0, 0, 3, 0, 0, 0, 65, 46, 69, 140, 0, 0, 0, // the tables
    4, 0, 0, 0, 0, 0, 0, 0, 0, 0, 0, 0, 1, 0, 0, 0, 21, 0, 0, 0, 4, 0, 0, 0, 70, 0, 0, 0, 6, 0, 0,
    0, 71, 0, 0, 0, 0, 1, 0, 0, 0, 21, 0, 0, 0, 0, 0, 0, 0, 0, 0, 0, 0, 0, 0, 0, 0, 1, 1, 0, 0, 0,
    21, 0, 0, 0, 1, 0, 0, 0, 20, 0, 0, 0, 1, 0, 0, 0, 21, 0, 0, 0, 0, 0, 0, 0, 1, 0, 0, 0, 19, 0,
    0, 0, 255, 255, 255, 255, 1, 0, 1, 0, 20, 0, 0, 0, 2, 1, 1, 0, 0, 0, 20, 0, 0, 0, 2, 0, 0, 0,
    2, 0, 0, 0, 24, 0, 0, 0, 0, 0, 0, 0, 0, 0, 0, 0, 0, 0, 0, 0, 50, 0, 0, 0, // the variables
    2, 0, 0, 0, 2, 0, 0, 0, 0, 0, 0, 0, 1, 0, 0, 0, 110, 0, 1, 0, 0, 0, 6, 0, 0, 0, 24, 0, 0, 0,
    255, 255, 255, 255, 5, 0, 0, 0, 3, 0, 0, 0, 65, 46, 103, 1, 0, 0, 0, 0,
];

const RICH_ROWS: [u8; 140] = [
    4, 0, 0, 0, 0, 0, 0, 0, 0, 0, 0, 0, 1, 0, 0, 0, 21, 0, 0, 0, 4, 0, 0, 0, 70, 0, 0, 0, 6, 0, 0,
    0, 71, 0, 0, 0, // the directory
    0, 1, 0, 0, 0, 21, 0, 0, 0, 0, 0, 0, 0, 0, 0, 0, 0, 0, 0, 0, 0, // slot 5 is tidy
    1, 1, 0, 0, 0, 21, 0, 0, 0, 1, 0, 0, 0, 20, 0, 0, 0, 1, 0, 0, 0, 21, 0, 0, 0, 0, 0, 0, 0, 1, 0,
    0, 0, 19, 0, 0, 0, 255, 255, 255, 255, 1, 0, 1, 0, 20, 0, 0, 0, // slot 3 is derived from slot 4
    2, // the same
    1, 1, 0, 0, 0, 20, 0, 0, 0, 2, 0, 0, 0, 2, 0, 0, 0, 24, 0, 0, 0, 0, 0, 0, 0, 0, 0, 0, 0, 0, 0,
    0, 0,
];

fn instr(op: Op, a: u8, imm: i32) -> Instr
    ensures { result ≡ record { op = op; a = a; b = 0; c = 0; imm = imm } }
{
    Instr {
        op,
        a,
        b: 0,
        c: 0,
        imm,
    }
}

fn proc(first: u32, count: u32, body: u32, frame: u32) -> ProcPart
    ensures { result ≡ record { first = first; count = count; body = body; frame = frame } }
{
    ProcPart {
        first,
        count,
        body,
        frame,
    }
}

/// The type of texts.
fn texts(alloc: Global) -> TypePart
    ensures { cell_type result ≡ record { kind = 2; parent = 4294967295; words = 0; dims = 0; methods = []; pointers = [] } }
{
    TypePart {
        kind: 2,
        parent: u32::MAX,
        words: 0,
        dims: 0,
        methods: Vec::new(alloc),
        pointers: Vec::new(alloc),
    }
}

/// The type of the cells of threads.
fn threads(alloc: Global) -> Result<TypePart, NoMemory>
    ensures { IfOk result (λ t. cell_type t ≡ record { kind = 0; parent = 4294967295; words = 4; dims = 0; methods = []; pointers = 3 ∷ [] }) }
{
    Ok(TypePart {
        kind: 0,
        parent: u32::MAX,
        words: 4,
        dims: 0,
        methods: Vec::new(alloc),
        pointers: Vec::from_slice(alloc, &[3])?,
    })
}

fn smallest(alloc: Global, variables: Option<Vec<VarPart>>) -> Result<ImageParts, NoMemory>
    requires { IfSome variables (λ v. v.items ≡ []) }
    ensures form { IfOk result AreParts }
    ensures size { IfOk result (λ parts. length (image_bytes parts) ≤ 4294967295) }
{
    let point = instr(Op::Point, 0, 0);
    let end = instr(Op::Endp, 0, 0);
    let mut types = Vec::new(alloc);
    types.push(texts(alloc))?;
    types.push(threads(alloc)?)?;
    Ok(ImageParts {
        code: Vec::from_slice(alloc, &[point, end, point, end])?,
        procs: Vec::from_slice(alloc, &[proc(0, 2, 3, 3), proc(2, 2, 3, 7)])?,
        types,
        globals: GlobalPart {
            words: 4,
            pointers: Vec::new(alloc),
        },
        constants: Vec::new(alloc),
        places: PlacePart {
            files: Vec::new(alloc),
            places: Vec::new(alloc),
        },
        exceptions: Vec::new(alloc),
        tables: Vec::from_slice(alloc, &EMPTY_ROWS)?,
        variables,
    })
}

#[test]
fn the_smallest_image(rt: HostRuntime) {
    let alloc = rt.alloc();
    let Ok(first) = smallest(alloc, None) else {
        panic!(rt; "memory");
    };
    let Ok(bytes) = write_image(alloc, &first) else {
        panic!(rt; "memory");
    };
    expect(&rt, bytes.as_slice(), SMALLEST.as_slice(), &"in version 1");
}

#[test]
fn an_image_without_variables(rt: HostRuntime) {
    let alloc = rt.alloc();
    let Ok(second) = smallest(alloc, Some(Vec::new(alloc))) else {
        panic!(rt; "memory");
    };
    let Ok(bytes) = write_image(alloc, &second) else {
        panic!(rt; "memory");
    };
    let wanted = with_no_variables(2);
    expect(&rt, bytes.as_slice(), wanted.as_slice(), &"in version 2");
}

fn types_of_all_kinds(alloc: Global) -> Result<Vec<TypePart>, NoMemory>
    ensures { IfOk result (λ v. map cell_type v.items ≡
        record { kind = 2; parent = 4294967295; words = 0; dims = 0; methods = []; pointers = [] }
        ∷ record { kind = 0; parent = 4294967295; words = 4; dims = 0; methods = []; pointers = 3 ∷ [] }
        ∷ record { kind = 0; parent = 4294967295; words = 3; dims = 0; methods = 3 ∷ 0 ∷ []; pointers = 1 ∷ 2 ∷ [] }
        ∷ record { kind = 1; parent = 2; words = 2; dims = 1; methods = []; pointers = 0 ∷ [] } ∷ []) }
{
    let mut types = Vec::new(alloc);
    types.push(texts(alloc))?;
    types.push(threads(alloc)?)?;
    types.push(TypePart {
        kind: 0,
        parent: u32::MAX,
        words: 3,
        dims: 0,
        methods: Vec::from_slice(alloc, &[3, 0])?,
        pointers: Vec::from_slice(alloc, &[1, 2])?,
    })?;
    types.push(TypePart {
        kind: 1,
        parent: 2,
        words: 2,
        dims: 1,
        methods: Vec::new(alloc),
        pointers: Vec::from_slice(alloc, &[0])?,
    })?;
    Ok(types)
}

fn names(alloc: Global, name: &[u8]) -> Result<Vec<Bytes>, NoMemory>
    ensures { IfOk result (λ v. v.items ≡ name.now ∷ []) }
{
    let mut names = Vec::new(alloc);
    names.push(Bytes::of(alloc, name)?)?;
    Ok(names)
}

fn two_variables(alloc: Global) -> Result<Vec<VarPart>, NoMemory>
    ensures numbered { IfOk result (λ v. AllByRecursion AreNumbered v.items) }
    ensures views { IfOk result (λ v. map variable_of v.items ≡
        record { proc = 2; word = 0; name = 110 ∷ []; form = 0; spans = (6, 24) ∷ [] }
        ∷ record { proc = 4294967295; word = 5; name = 65 ∷ 46 ∷ 103 ∷ []; form = 1; spans = [] } ∷ []) }
{
    let mut variables = Vec::new(alloc);
    variables.push(VarPart {
        proc: 2,
        word: 0,
        name: Bytes::of(alloc, b"n")?,
        form: 0,
        spans: Vec::from_slice(alloc, &[(6, Location::Slot(8))])?,
    })?;
    variables.push(VarPart {
        proc: u32::MAX,
        word: 5,
        name: Bytes::of(alloc, b"A.g")?,
        form: 1,
        spans: Vec::new(alloc),
    })?;
    Ok(variables)
}

fn rich_code(alloc: Global) -> Result<Vec<Instr>, NoMemory>
    ensures { IfOk result (λ v. v.items ≡
        record { op = Op.Point; a = 0; b = 0; c = 0; imm = pos 0 }
        ∷ record { op = Op.Call; a = 0; b = 0; c = 0; imm = pos 2 }
        ∷ record { op = Op.Jmp; a = 0; b = 0; c = 0; imm = pos 0 }
        ∷ record { op = Op.Endp; a = 0; b = 0; c = 0; imm = pos 0 }
        ∷ record { op = Op.Point; a = 0; b = 0; c = 0; imm = pos 0 }
        ∷ record { op = Op.Endt; a = 1; b = 0; c = 0; imm = pos 0 }
        ∷ record { op = Op.New; a = 0; b = 0; c = 0; imm = pos 2 }
        ∷ record { op = Op.Con; a = 1; b = 0; c = 0; imm = pos 1 }
        ∷ record { op = Op.Glb; a = 2; b = 0; c = 0; imm = pos 6 }
        ∷ record { op = Op.Lds; a = 3; b = 0; c = 0; imm = pos 4 }
        ∷ record { op = Op.Fault; a = 2; b = 0; c = 0; imm = pos 1 }
        ∷ record { op = Op.Ret; a = 0; b = 0; c = 0; imm = pos 0 } ∷ []) }
{
    Ok(Vec::from_slice(
        alloc,
        &[
            instr(Op::Point, 0, 0),
            instr(Op::Call, 0, 2),
            instr(Op::Jmp, 0, 0),
            instr(Op::Endp, 0, 0),
            instr(Op::Point, 0, 0),
            instr(Op::Endt, 1, 0),
            instr(Op::New, 0, 2),
            instr(Op::Con, 1, 1),
            instr(Op::Glb, 2, 6),
            instr(Op::Lds, 3, 4),
            instr(Op::Fault, 2, 1),
            instr(Op::Ret, 0, 0),
        ],
    )?)
}

fn rich(alloc: Global) -> Result<ImageParts, NoMemory>
    ensures form { IfOk result AreParts }
    ensures size { IfOk result (λ parts. length (image_bytes parts) ≤ 4294967295) }
{
    Ok(ImageParts {
        code: rich_code(alloc)?,
        procs: Vec::from_slice(
            alloc,
            &[proc(0, 4, 4, 6), proc(4, 2, 3, 7), proc(6, 6, 4, 9)],
        )?,
        types: types_of_all_kinds(alloc)?,
        globals: GlobalPart {
            words: 7,
            pointers: Vec::from_slice(alloc, &[5, 6])?,
        },
        constants: Vec::from_slice(alloc, &[0x1122_3344_5566_7788, 9])?,
        places: PlacePart {
            files: names(alloc, b"A.m3")?,
            places: Vec::from_slice(alloc, &[(0, 3), (0, 8)])?,
        },
        exceptions: names(alloc, b"A.E")?,
        tables: Vec::from_slice(alloc, &RICH_ROWS)?,
        variables: Some(two_variables(alloc)?),
    })
}

#[test]
fn an_image_with_all_kinds_of_entries(rt: HostRuntime) {
    let Ok(parts) = rich(rt.alloc()) else {
        panic!(rt; "memory");
    };
    let Ok(bytes) = write_image(rt.alloc(), &parts) else {
        panic!(rt; "memory");
    };
    expect(&rt, bytes.as_slice(), RICH.as_slice(), &"the bytes");
    let Ok(image) = ImageView::read(&bytes) else {
        panic!(rt; "read again");
    };
    check_rich(&rt, &image);
    let Some(same) = image.tables().row(4) else {
        panic!(rt; "a row");
    };
    let found = (
        same.tidy(Location::Slot(4)),
        same.argument(Location::Slot(5)),
    );
    expect(&rt, found, (true, true), &"slots 4 and 5");
}
