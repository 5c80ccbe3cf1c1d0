use m3_base::Bytes;
use m3_image::ProcPart;
use m3_isa::Instr;
use m3_tables::Location;

/// A type of cells, numbered from 0. `kind` is 0 for cells of a fixed size, 1 for open arrays and 2
/// for texts. `parent` is the number of the supertype, a lower one, or 4294967295 for none. `words`
/// are those of a fixed cell, or of an element of an open array, which has `dims` dimensions. Each
/// method is the number of its procedure and 1, or 0 where there is none. `pointers` are the
/// offsets of the words that are pointers, rising.
#[derive(Drop)]
pub struct TypePart {
    pub kind: u32,
    pub parent: u32,
    pub words: u32,
    pub dims: u32,
    pub methods: Vec<u32>,
    pub pointers: Vec<u32>,
}

/// The words of all global variables, and the offsets of those that are pointers, rising.
#[derive(Drop)]
pub struct GlobalPart {
    pub words: u32,
    pub pointers: Vec<u32>,
}

/// The names of the source files, and the places that faults name: the number of a file, and a
/// line.
#[derive(Drop)]
pub struct PlacePart {
    pub files: Vec<Bytes>,
    pub places: Vec<(u32, u32)>,
}

/// A variable that can be shown: its procedure, or 4294967295 for a global one; the word of a
/// global, else 0; its name, of a global with its unit's name and a dot before it; its form, 0 for
/// an ordinal value and 1 for a reference; and where it is at each instruction at which it is in
/// scope, rising.
#[derive(Drop)]
pub struct VarPart {
    pub proc: u32,
    pub word: u32,
    pub name: Bytes,
    pub form: u8,
    pub spans: Vec<(u32, Location)>,
}

/// An image to be written: one list for each of its sections. `tables` are the bytes of the section
/// of the tables. An image with variables has version 2, one without them version 1.
#[derive(Drop)]
pub struct ImageParts {
    pub code: Vec<Instr>,
    pub procs: Vec<ProcPart>,
    pub types: Vec<TypePart>,
    pub globals: GlobalPart,
    pub constants: Vec<u64>,
    pub places: PlacePart,
    pub exceptions: Vec<Bytes>,
    pub tables: Vec<u8>,
    pub variables: Option<Vec<VarPart>>,
}
