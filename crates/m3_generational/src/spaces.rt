use m3_heap::Half;
use std::snapshot::Snapshot;

/// The memory of a heap of generations: two halves for old cells, one of them in use, and a
/// nursery.
#[derive(Drop)]
pub struct Spaces {
    /// The half in use.
    pub here: Half,
    /// The other half, which a full collection fills.
    pub there: Half,
    /// Where young cells lie.
    pub nursery: Half,
    /// Whether the collection that is open keeps the old cells unasked.
    pub is_minor: bool,
    /// How many words of old cells it keeps so.
    pub tenured: u64,
    /// The half in use as that collection found it.
    pub found: Snapshot<Half>,
}
