/// What a variable holds: a number, NIL, or a cell by its number, from 1.
#[derive(Clone, Copy, Debug, PartialEq, Eq)]
pub enum Value {
    Number(i64),
    Nil,
    Cell(u64),
}

/// A variable by its number in the image, from 0, and what it holds.
#[derive(Clone, Copy, Debug, PartialEq, Eq)]
pub struct VarValue {
    pub var: u32,
    pub value: Value,
}

/// An activation: the number of its procedure in the image, and its variables in scope.
#[derive(Drop)]
pub struct FrameView {
    pub proc: u32,
    pub vars: Vec<VarValue>,
}

/// A thread by its number, and its activations, the newest first.
#[derive(Drop)]
pub struct ThreadView {
    pub number: u64,
    pub frames: Vec<FrameView>,
}

/// What a machine shows: its globals, and its threads in the order of their numbers.
#[derive(Drop)]
pub struct View {
    pub globals: Vec<VarValue>,
    pub threads: Vec<ThreadView>,
}
