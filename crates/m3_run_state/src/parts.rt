ghost use Rattle.std.specs.Prelude.{◌≡◌, ◌≤◌, ◌+◌, ℕ, false, map, length, slice_get, vec_capacity};
ghost use Rattle.std.specs.Prelude.{Some};
ghost use Rattle.m3_image_sections.specs.Parts.{CellType};
ghost use Rattle.m3_image_sections.specs.Shapes.{shape_of};
ghost use Rattle.m3_image_decoded.specs.Ready.{image_of};
ghost use Rattle.m3_roots.specs.RoomSizes.{IsRoomFor};

use m3_heap::{Steps, Store};
use m3_image_decoded::Decoded;
use m3_roots::Room;
use m3_run_memory::Memory;
use std::sync::ledger::Ledger;

/// What a machine has: the image that it runs, the input, its words, the thread that went last, the
/// place in the input, how many points were passed, instructions executed and collections made, and
/// how many steps the collections took.
#[derive(Drop)]
pub struct Parts<'a, S: Store, L: Ledger> {
    pub image: Decoded<'a>,
    pub input: &'a [u8],
    pub memory: Memory<S>,
    pub room: Room,
    pub sizes: Vec<u64>,
    pub stack: u64,
    pub running: u64,
    pub taken: usize,
    pub points: u64,
    pub instructions: u128,
    pub collections: u64,
    // how many steps the collections took, by a ledger: nothing is counted when it runs
    pub steps: Steps<L>,
    // how many forks, waits and ends were carried out at most
    pub made: u64,
    // a collection ended in trap 9, and what it left isn't looked at any more
    pub stuck: bool,
    pub ghost small: { stack ≤ 1048576 },
    pub ghost counted: { memory.threads.forks + memory.threads.waits ≤ made },
    pub ghost words: { length memory.outside.globals.items
        ≡ (image_of image).program.globals.words },
    pub ghost loaded: { memory.outside.constants.items ≡ (image_of image).program.constants },
    pub ghost roomy: { IsRoomFor stack room },
    pub ghost sized: { (n : ℕ) (form : CellType)
        → slice_get (image_of image).program.types n ≡ Some form → form.dims ≤ vec_capacity sizes },
    pub ghost fitting: { stuck ≡ false → ∥ S.fits memory.outside.heap.store
        (map shape_of (image_of image).program.types) ∥₁ },
}
