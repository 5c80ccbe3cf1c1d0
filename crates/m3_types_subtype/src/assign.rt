/// Whether a value of one type may be assigned to a variable of another: as it is, with a check when
/// the program runs, or not at all.
#[derive(Clone, Copy, Debug, PartialEq, Eq)]
pub enum Assign {
    Yes,
    Checked,
    No,
}
