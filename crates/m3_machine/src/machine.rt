use m3_heap::Store;
use m3_run_state::Parts;
use std::sync::ledger::Ledger;

/// A machine that runs an image: its words, the thread that went last, the place in the input, and
/// how many points were passed, instructions executed and collections made.
#[derive(Drop)]
pub struct Machine<'a, S: Store, L: Ledger> {
    pub(crate) parts: Parts<'a, S, L>,
}
