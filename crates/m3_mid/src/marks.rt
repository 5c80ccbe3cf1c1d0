/// A variable that is shown at a point: its place among the procedure's shown variables, and where
/// its value is.
#[derive(Clone, Copy, PartialEq, Eq)]
pub struct Shown {
    pub var: u32,
    pub at: Held,
}

#[derive(Clone, Copy, PartialEq, Eq)]
pub enum Held {
    Temp(u32),
    Slot(u32),
}

/// A FOR: the block before it, the block whose Point ends its turn, the temporary of its variable
/// (0 where it has no reducible access), and its reducible accesses in the order of their places.
#[derive(Clone, Copy)]
pub struct ForMark<'a> {
    pub before: u32,
    pub turn: u32,
    pub index: u32,
    pub accesses: &'a [AccessMark],
}

/// An access to an element of an array that a FOR goes along: the operation that gives its address,
/// the temporary of the array variable, and the words of an element.
#[derive(Clone, Copy, PartialEq, Eq)]
pub struct AccessMark {
    pub block: u32,
    pub op: u32,
    pub array: u32,
    pub words: u64,
}
