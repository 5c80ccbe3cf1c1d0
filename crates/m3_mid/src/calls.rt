use crate::ops::Operand;

/// What is called.
#[derive(Clone, Copy, PartialEq, Eq)]
pub enum Callee {
    /// A procedure of the outermost scope of a unit, by its number in the program.
    Outermost(u32),
    /// A procedure inside another, with the frame of the activation around it.
    Inner { procedure: u32, environment: u32 },
    /// A procedure value that isn't NIL: its number in the image and 1 more, and its environment.
    Value { code: u32, environment: u32 },
    /// A method of the object that is the first actual, by its place in the object's table. It
    /// isn't NIL.
    Method(u32),
}

/// What becomes the next words of the callee's formals.
#[derive(Clone, Copy, PartialEq, Eq)]
pub enum Actual {
    /// One word: a number or a tidy pointer.
    Word(Operand),
    /// The words of slots in a row: a record, an array, a set or a procedure by value.
    Slots { first: u32, count: u32 },
    /// Two words: an address by reference, and its base (0 where it has none), which is tidy.
    Reference { address: u32, base: Operand },
}

/// The temporaries that tell by which exception a call was left: its place in the program's list
/// and 1 more, or 0 where it returned; and its argument, as a number or as a tidy pointer, the
/// other being 0.
#[derive(Clone, Copy, PartialEq, Eq)]
pub struct Raised {
    pub exception: u32,
    pub number: u32,
    pub tidy: u32,
}

/// The services of the machine, by their operands and results. A text, a mutex, a condition, a
/// thread or a closure that is an operand isn't NIL.
#[derive(Clone, Copy, PartialEq, Eq)]
pub enum Service {
    /// Puts a text.
    Put,
    /// Puts a number in decimal.
    PutNumber,
    /// Puts a byte.
    PutByte,
    /// The next byte of the input; the fault Index where none is left.
    GetByte,
    /// Whether no byte of the input is left.
    EndOfInput,
    /// The new text of two texts behind one another.
    Concatenate,
    /// The new text of one byte.
    ByteText,
    /// The new text of a text from a start on, of at most as many bytes as are wanted.
    Subtext,
    /// A new thread that calls `apply` of a closure.
    Fork,
    /// The result of a thread that has ended; the fault JoinTwice where it was joined before.
    Join,
    Acquire,
    /// The fault NotHeld where the thread doesn't hold the mutex; so too Wait and AlertWait.
    Release,
    /// Waits for a condition with a mutex, which it lets go meanwhile.
    Wait,
    Signal,
    Broadcast,
    /// The cell of the thread itself.
    MySelf,
    Alert,
    TestAlert,
    AlertWait,
    AlertJoin,
}
