use m3_lower_state::Around;
use m3_types::TypeId;

/// Where the result of a procedure goes.
#[derive(Clone, Copy)]
pub enum Outcome {
    Nothing,
    /// One word, kept in a temporary where something runs between RETURN and the end.
    Word { temp: u32, kind: TypeId },
    /// The words of a value, at the address in a slot.
    Wide { slot: u32, kind: TypeId },
}

/// What RETURN does.
#[derive(Clone, Copy)]
pub enum Returning {
    /// It ends the procedure.
    Ends,
    /// It goes on at a block, and the result is kept.
    Passes(u32),
    /// It goes on at a block, which is an ELSE, or leads there: nobody gets the result.
    Drops(u32),
}

/// How a statement can be left otherwise than at its end.
#[derive(Clone, Copy)]
pub struct Exits {
    /// What is shown at points, and where an exception goes on.
    pub around: Around,
    /// Where EXIT goes on, None outside loops.
    pub exit: Option<u32>,
    pub returning: Returning,
    pub outcome: Outcome,
}

impl Exits {
    /// The same exits with other variables shown.
    pub fn showing(self, around: Around) -> Exits {
        Exits { around, ..self }
    }
}
