/// Why a row of instructions ended: no instruction stands there, the machine has to look at what
/// comes next, or one trapped. Used says that it may go on.
#[derive(Clone, Copy, PartialEq, Eq)]
pub enum Halt {
    Used,
    Left,
    Other,
    Trapped(u32),
}
