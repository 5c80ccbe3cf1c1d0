/// A place in a source: the file by its number in command order, the line from 1, and the column
/// from 1, in bytes. Places are ordered by file, then line, then column.
#[derive(Clone, Copy, Debug, PartialEq, Eq, PartialOrd, Ord, Hash)]
pub struct Pos {
    pub file: u32,
    pub line: u32,
    pub col: u32,
}

/// A source file: its name and its bytes.
#[derive(Clone, Copy)]
pub struct Source<'a> {
    pub name: &'a [u8],
    pub text: &'a [u8],
}
