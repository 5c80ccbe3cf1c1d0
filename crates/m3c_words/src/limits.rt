//! What a run may do and use.
ghost use Rattle.std.specs.Prelude.{◌≤◌, ◌<◌, ◌^◌};

/// What a run may do and use: points that it may pass, words of one half of the heap and of each
/// thread's stack, threads that have not ended, and whether the heap is one of generations.
#[derive(Clone, Copy)]
pub struct Limits {
    pub points: u64,
    pub heap: u64,
    pub stack: u64,
    pub threads: u32,
    pub young: bool,
    pub ghost points_fit: { points < 2 ^ 63 },
    pub ghost heap_fits: { (64 ≤ heap) × (heap ≤ 67108864) },
    pub ghost stack_fits: { (1024 ≤ stack) × (stack ≤ 1048576) },
    pub ghost threads_fit: { (1 ≤ threads) × (threads ≤ 64) },
}
