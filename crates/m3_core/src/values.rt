/// A constant of the program, by its place in the program's list of constants.
#[derive(Clone, Copy, PartialEq, Eq, PartialOrd, Ord, Hash)]
pub struct ValueId(pub u32);

/// The value of a constant. The constants that it is made of stand before it in the list.
#[derive(Clone, Copy)]
pub enum Value<'a> {
    /// The number of a value of an ordinal type.
    Number(i64),
    Nil,
    /// The cell of a text, by its place in the program's texts.
    Text(u32),
    /// A procedure of the outermost scope of a unit, by its number.
    Procedure(u32),
    /// The members of a set, by their numbers, rising.
    Set(&'a [i64]),
    /// The fields of a record, in order.
    Record(&'a [ValueId]),
    /// An array of the given number of elements: those listed, of which the last stands for all
    /// that follow it.
    Array(&'a [ValueId], u64),
}
