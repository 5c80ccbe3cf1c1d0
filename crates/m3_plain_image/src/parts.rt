// The parts of an image, and its bytes.

ghost use Rattle.std.specs.Prelude.{◌≡◌, ◌≤◌, ◌+◌, ◌<◌, ◌^◌, [], ◌∷◌, length, map, vec_len, IfOk, IsOk, Ok};
ghost use Rattle.std.specs.List.{AllByRecursion};
ghost use Rattle.m3_isa.specs.declared.instructions.Instr.{Instr as InstrValue};
ghost use Rattle.m3_image_sections.specs.Ranges.{points_from};
ghost use Rattle.m3_tables_writer.specs.Plain.{plains_of};
ghost use Rattle.m3_tables_writer.specs.Writing.{table_bytes};
ghost use Rattle.m3_tables_writer.specs.Tabulates.{Tabulates};
ghost use Rattle.m3_image.specs.Images.{read_of};
ghost use Rattle.m3_image_writer.specs.Views.{cell_type, places_of, image_of};
ghost use Rattle.m3_plain.specs.Terms.{AreShallow, terms_of, all_nodes};
ghost use Rattle.m3_plain_image.specs.Code.{body_code, thread_code};
ghost use Rattle.m3_plain_image.specs.Image.{plain_image, plain_procs, plain_rows, text_type};
ghost use Rattle.m3_plain_image.specs.Image.{thread_type, empty_row, in_first_file, proc_of};

use crate::code::{Code, alone, body_of};
use m3_base::{Bytes, NoMemory};
use m3_image::ProcPart;
use m3_image_writer::{GlobalPart, ImageParts, PlacePart, TypePart, write_image};
use m3_isa::{Instr, Op};
use m3_plain::Plain;
use m3_tables_writer::{RowPlain, write_rows};
use std::alloc::Global;

// The most bytes of a file's name in an image, far above those of any name that a system has.
const MOST_NAME_BYTES: usize = 1 << 31;

/// The bytes of the image of a module of the plain form that puts these terms. Faults name the file
/// by this name; for one that no image has room for there is no memory.
pub fn plain_image(alloc: Global, name: &[u8], puts: &[Plain]) -> Result<Vec<u8>, NoMemory>
    requires few { all_nodes (terms_of puts.now) ≤ 2000 }
    requires shallow { AreShallow (terms_of puts.now) }
    ensures { IfOk result
        (λ image. read_of image.items ≡ Ok (plain_image name.now (terms_of puts.now))) }
{
    if name.len() > MOST_NAME_BYTES {
        return Err(NoMemory);
    }
    write_image(alloc, &parts_of(alloc, name, puts)?)
}

fn parts_of(alloc: Global, name: &[u8], puts: &[Plain]) -> Result<ImageParts, NoMemory>
    requires few { all_nodes (terms_of puts.now) ≤ 2000 }
    requires shallow { AreShallow (terms_of puts.now) }
    ensures image { IfOk result
        (λ parts. image_of parts ≡ plain_image name.now (terms_of puts.now)) }
    ensures rows { IsOk result → Tabulates (table_bytes (plain_rows (terms_of puts.now)))
        (plain_rows (terms_of puts.now)) }
{
    let Code {
        mut instructions,
        lines,
    } = body_of(alloc, puts)?;
    let count = instructions.len() as u32;
    instructions.extend_from_slice(&[alone(Op::Point), alone(Op::Endt)])?;
    let tables = write_rows(alloc, &rows_of(alloc, &instructions)?)?;
    Ok(ImageParts {
        code: instructions,
        procs: Vec::from_slice(alloc, &[proc(0, count, 3), proc(count, 2, 7)])?,
        types: types(alloc)?,
        globals: GlobalPart {
            words: 4,
            pointers: Vec::new(alloc),
        },
        constants: Vec::new(alloc),
        places: places(alloc, name, &lines)?,
        exceptions: Vec::new(alloc),
        tables,
        variables: Some(Vec::new(alloc)),
    })
}

// A procedure, whose callees' frames begin behind the three words that every frame has.
fn proc(first: u32, count: u32, frame: u32) -> ProcPart
    ensures { result ≡ proc_of first count frame }
{
    ProcPart {
        first,
        count,
        body: 3,
        frame,
    }
}

// The types that every image has: texts, and the cells of threads.
fn types(alloc: Global) -> Result<Vec<TypePart>, NoMemory>
    ensures { IfOk result (λ types. map cell_type types.items ≡ text_type ∷ thread_type ∷ []) }
{
    let mut types = Vec::new(alloc);
    types.push(TypePart {
        kind: 2,
        parent: u32::MAX,
        words: 0,
        dims: 0,
        methods: Vec::new(alloc),
        pointers: Vec::new(alloc),
    })?;
    types.push(TypePart {
        kind: 0,
        parent: u32::MAX,
        words: 4,
        dims: 0,
        methods: Vec::new(alloc),
        pointers: Vec::from_slice(alloc, &[3])?,
    })?;
    Ok(types)
}

// The one file, and the line of each fault in it.
fn places(alloc: Global, name: &[u8], lines: &[u32]) -> Result<PlacePart, NoMemory>
    ensures { IfOk result (λ part. places_of part
        ≡ record { files = name.now ∷ []; places = map in_first_file lines.now }) }
{
    let mut places = Vec::new(alloc);
    for line in lines {
        places.push((0, *line))?;
    }
    let mut files = Vec::new(alloc);
    files.push(Bytes::of(alloc, name)?)?;
    Ok(PlacePart { files, places })
}

// The rows of the points, at which no word is a pointer.
fn rows_of(alloc: Global, code: &[Instr]) -> Result<Vec<RowPlain>, NoMemory>
    requires { length code.now < 2 ^ 32 }
    ensures { IfOk result
        (λ rows. plains_of rows.items ≡ map empty_row (points_from 0 code.now)) }
{
    let mut rows = Vec::new(alloc);
    for (at, instruction) in code.iter().enumerate() {
        if instruction.op.is_point() {
            rows.push(row(alloc, at as u32))?;
        }
    }
    Ok(rows)
}

fn row(alloc: Global, instr: u32) -> RowPlain
    ensures { plains_of (result ∷ []) ≡ empty_row instr ∷ [] }
{
    RowPlain {
        instr,
        tidy: Vec::new(alloc),
        arguments: Vec::new(alloc),
        passed: Vec::new(alloc),
        derived: Vec::new(alloc),
    }
}
