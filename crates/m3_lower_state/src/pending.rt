use m3_mid::{End, MidOp};
use std::alloc::Global;

/// Code that isn't in a block yet. It grows at its front. Where memory runs out it isn't whole,
/// and the builder that gets it keeps that.
#[derive(Drop)]
pub struct Pending<'m> {
    /// The operations, the last one first.
    pub ops: Vec<MidOp<'m>>,
    pub end: End,
    pub is_whole: bool,
}

impl<'m> Pending<'m> {
    /// Code without operations.
    pub fn bare(alloc: Global, end: End) -> Pending<'m> {
        Pending {
            ops: Vec::new(alloc),
            end,
            is_whole: true,
        }
    }

    /// One more operation at the front.
    pub fn after(mut self, op: MidOp<'m>) -> Pending<'m> {
        if self.ops.push(op).is_err() {
            self.is_whole = false;
        }
        self
    }
}
