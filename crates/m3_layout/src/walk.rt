use m3_types::TypeId;
use std::alloc::Global;
use std::collections::BTreeMap;

/// Where the pointers of a value of a type stand in a list: from `start` to `end`, for a value
/// whose first word has the number `at`.
#[derive(Clone, Copy)]
pub(crate) struct Run {
    pub(crate) start: usize,
    pub(crate) end: usize,
    pub(crate) at: u64,
}

/// A value that is gone through: its type, the number of its first word, and where its pointers
/// start in the list.
#[derive(Clone, Copy)]
pub(crate) struct Whole {
    pub(crate) kind: TypeId,
    pub(crate) at: u64,
    pub(crate) start: usize,
}

/// What is still to be told.
#[derive(Clone, Copy)]
pub(crate) enum Task {
    /// A value of the type, from the word on.
    OneValue(TypeId, u64),
    /// The fields of a record from the given one on, from the word on.
    FieldsFrom(Whole, usize, u64),
    /// So many elements of the type, from the word on.
    ElementsLeft(Whole, TypeId, u128, u64),
}

/// The list of pointers that is made. Records may be nested through names to any depth, so that
/// what is still to be told is a list of tasks, the next one last. Where the pointers of a value
/// stand is noted for each type, so that each type is gone through once and copied afterwards.
#[derive(Drop)]
pub(crate) struct Walk {
    pub(crate) offsets: Vec<u64>,
    pub(crate) tasks: Vec<Task>,
    pub(crate) runs: BTreeMap<u32, Run>,
}
