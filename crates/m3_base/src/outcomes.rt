ghost use Rattle.std.specs.Prelude.{◌≡◌};
ghost use Rattle.m3_base.specs.Faults.{number_of_fault, name_of_fault};

/// What a run may do and use: the points that it may pass, the words of one half of the heap, the
/// words of each thread's stack, and how many threads may not have ended.
#[derive(Clone, Copy, PartialEq, Eq)]
pub struct Options {
    pub points: u64,
    pub heap: u64,
    pub stack: u64,
    pub threads: u32,
}

/// One entry of a schedule: the thread that is to go, where it names one, and whether the heap is
/// collected before that.
#[derive(Clone, Copy, Debug, PartialEq, Eq)]
pub struct Entry {
    pub to: Option<u64>,
    pub collect: bool,
}

/// The checked run-time errors of Modula-3 (the report's sections on expressions and statements),
/// and those of the threads interface.
#[derive(Clone, Copy, PartialEq, Eq)]
pub enum FaultKind {
    Overflow,
    DivZero,
    Range,
    Index,
    Nil,
    Narrow,
    Shape,
    Subarray,
    Size,
    NoReturn,
    NoCase,
    NoTypecase,
    Raises,
    NestedProc,
    NotHeld,
    JoinTwice,
}

impl FaultKind {
    /// The number that stands for this kind in an image, from 0 in the order of the variants.
    pub fn number(self) -> u8
        ensures { result ≡ number_of_fault self }
    {
        self as u8
    }
}

/// How a run ended. A fault carries the numbers of its file and its line, an exception that nobody
/// handled its number, and a trap its own.
#[derive(Clone, Copy, PartialEq, Eq)]
pub enum Outcome {
    Done,
    Fault(FaultKind, u32, u32),
    Uncaught(u32),
    Deadlock,
    ThreadsFull,
    Spent,
    HeapFull,
    StackFull,
    Trap(u32),
}

/// The name of a kind of fault, as it stands in the program's report.
pub fn fault_name(kind: FaultKind) -> &'static str
    ensures { result.now ≡ name_of_fault kind }
{
    match kind {
        FaultKind::Overflow => "Overflow",
        FaultKind::DivZero => "DivZero",
        FaultKind::Range => "Range",
        FaultKind::Index => "Index",
        FaultKind::Nil => "Nil",
        FaultKind::Narrow => "Narrow",
        FaultKind::Shape => "Shape",
        FaultKind::Subarray => "Subarray",
        FaultKind::Size => "Size",
        FaultKind::NoReturn => "NoReturn",
        FaultKind::NoCase => "NoCase",
        FaultKind::NoTypecase => "NoTypecase",
        FaultKind::Raises => "Raises",
        FaultKind::NestedProc => "NestedProc",
        FaultKind::NotHeld => "NotHeld",
        FaultKind::JoinTwice => "JoinTwice",
    }
}
