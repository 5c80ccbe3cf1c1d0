use m3_flow::{Groups, LiveRange, LiveSets};

/// The places of a procedure at which each temporary is live, or is set for nobody.
#[derive(Drop)]
pub(crate) struct Extents {
    pub(crate) live: LiveSets,
    /// By temporary, the places at which it is set for nobody.
    pub(crate) lost: Groups,
    /// How many places there are.
    pub(crate) places: u32,
}

impl Extents {
    /// The stretches at which a temporary is live.
    pub(crate) fn ranges_of(&self, temp: u32) -> &[LiveRange] {
        self.live.ranges_of(temp)
    }

    /// The places at which a temporary is set for nobody.
    pub(crate) fn lost_at(&self, temp: u32) -> &[u32] {
        self.lost.row(temp)
    }
}
