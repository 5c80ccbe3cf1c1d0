/// What became of an instruction: it went, it jumped, its thread fell asleep, or it trapped with this
/// number.
#[derive(Clone, Copy, Debug, PartialEq, Eq)]
pub enum Done {
    Went,
    Jumped,
    Slept,
    Trapped(u32),
}

/// As many threads as are allowed have not ended.
#[derive(Clone, Copy, Debug, PartialEq, Eq)]
pub struct ThreadsFull;
