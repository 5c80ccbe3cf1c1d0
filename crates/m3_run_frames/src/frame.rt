/// A frame: the place in the stack where it begins, from 0, how many words it has, and its row.
#[derive(Clone, Copy, Debug, PartialEq, Eq)]
pub struct Frame {
    pub first: usize,
    pub words: usize,
    pub row: usize,
}
