use m3_tables::Location;

/// The bases of a derived word on one way: those that are added up to it, and those that are taken
/// away.
#[derive(Drop)]
pub struct Way {
    pub added: Vec<Location>,
    pub subtracted: Vec<Location>,
}

/// A derived word: a pointer into a cell or a difference of pointers, that a collector takes apart
/// into its bases before it moves cells and puts together afterwards (Diwan, Moss, Hudson, PLDI
/// 1992). Where it has more than one way, the word at `path` says which one holds, counted from 0.
#[derive(Drop)]
pub struct DerivedPlain {
    pub location: Location,
    pub path: Option<Location>,
    pub ways: Vec<Way>,
}

/// A row to be written: the instruction, the tidy pointers, the arguments by value of the call, the
/// formals that the caller's row describes, and the derived words, in the order in which bases are
/// subtracted.
#[derive(Drop)]
pub struct RowPlain {
    pub instr: u32,
    pub tidy: Vec<Location>,
    pub arguments: Vec<Location>,
    pub passed: Vec<Location>,
    pub derived: Vec<DerivedPlain>,
}
