/// What became of an instruction: it went, it trapped with this number, or it isn't plain and
/// nothing was done.
#[derive(Clone, Copy, Debug, PartialEq, Eq)]
pub enum Step {
    Went,
    Trapped(u32),
    Other,
}
