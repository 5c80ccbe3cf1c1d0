ghost use Rattle.std.specs.Prelude.{◌≡◌, ℕ, true, false, map, length};
ghost use Rattle.std.specs.Bool.{OnTrue, OnFalse};
ghost use Rattle.m3_heap.specs.Heap.{SameSizes};
ghost use Rattle.m3_image_sections.specs.Shapes.{shape_of};
ghost use Rattle.m3_image_decoded.specs.Ready.{image_of};
ghost use Rattle.m3_roots.specs.RoomSizes.{IsRoomFor};
ghost use Rattle.m3_roots.specs.Collected.{Collected, StopsCollection};
ghost use Rattle.m3_roots.specs.Steps.{StepsAtMost};
ghost use Rattle.m3_run_meaning.specs.Collecting.{Collects, Spoils};
ghost use Rattle.m3_run_state.specs.Seen.{state_of, program_of, parts_in, rest_of, IsGoing};

use crate::parts::Parts;
use m3_heap::{Steps, Store};
use m3_image_decoded::Decoded;
use m3_roots::{Room, collect};
use m3_run_memory::Outside;
use m3_threads::Threads;
use std::sync::ledger::Ledger;

/// A collection over the threads and the memory outside their stacks, whose steps are counted. False
/// comes exactly where it ends in trap 9.
fn collect_by<S: Store, L: Ledger>(
    outside: &mut Outside<S>,
    threads: &mut Threads,
    image: &Decoded<'_>,
    room: &mut Room,
    steps: &mut Steps<L>,
) -> bool
    requires fitting { ∥ S.fits outside.old.heap.store
        (map shape_of (image_of image.now).program.types) ∥₁ }
    requires words { length outside.old.globals.items ≡ (image_of image.now).program.globals.words }
    ensures fitting { result ≡ true → ∥ S.fits outside.new.heap.store
        (map shape_of (image_of image.now).program.types) ∥₁ }
    ensures collected { IsRoomFor threads.old.stack room.old
        → OnTrue result (Collected (image_of image.now).program
        (parts_in threads.old outside.old) (parts_in threads.new outside.new)) }
    ensures whole { IsRoomFor threads.old.stack room.old
        → OnTrue result (StopsCollection (image_of image.now).program
        (parts_in threads.old outside.old) → ⊥) }
    ensures stopped { IsRoomFor threads.old.stack room.old
        → OnFalse result (StopsCollection (image_of image.now).program
        (parts_in threads.old outside.old)) }
    ensures cost { IsRoomFor threads.old.stack room.old → OnTrue result
        ((collected : Collected (image_of image.now).program
        (parts_in threads.old outside.old) (parts_in threads.new outside.new))
        → StepsAtMost (image_of image.now).program collected.walks
        (S.heap outside.old.heap.store) (S.heap outside.new.heap.store) steps.old steps.new) }
    ensures sizes { SameSizes (S.heap outside.old.heap.store) (S.heap outside.new.heap.store) }
    ensures room { (stack : ℕ) → IsRoomFor stack room.old → IsRoomFor stack room.new }
    ensures words { length outside.new.globals.items ≡ length outside.old.globals.items }
    ensures constants { outside.new.constants.items ≡ outside.old.constants.items }
    ensures forks { threads.new.forks ≡ threads.old.forks }
    ensures waits { threads.new.waits ≡ threads.old.waits }
{
    collect(
        threads,
        &mut outside.globals,
        &mut outside.heap.store,
        image,
        room,
        steps,
    )
}

impl<'a, S: Store, L: Ledger> Parts<'a, S, L> {
    /// Collects the heap. False comes exactly where that has to stop, in trap 9; or where an
    /// earlier collection did.
    pub fn collect(&mut self) -> bool
        ensures rest { rest_of self.new ≡ record (rest_of self.old) { stuck = self.new.stuck } }
        ensures sizes { self.new.sizes.items ≡ self.old.sizes.items }
        ensures going { result ≡ true → self.new.stuck ≡ self.old.stuck }
        ensures good { result ≡ true → IsGoing self.old
            → Collects (program_of self.old) (state_of self.old) (state_of self.new) }
        ensures bad { result ≡ false → IsGoing self.old
            → Spoils (program_of self.old) (state_of self.old) (state_of self.new) }
    {
        if self.stuck {
            return false;
        }
        let done = collect_by(
            &mut self.memory.outside,
            &mut self.memory.threads,
            &self.image,
            &mut self.room,
            &mut self.steps,
        );
        self.stuck = !done;
        if done {
            self.collections = self.collections.saturating_add(1);
        }
        done
    }
}
