use m3_heap::Maps;

/// The kinds of cells.
pub const LINK: u32 = 0;

pub const NODE: u32 = 1;

pub const ARRAY: u32 = 2;

pub const NUMBER: u32 = 3;

/// Which words of these cells are pointers.
#[derive(Clone, Copy)]
pub struct Layouts;

impl Maps for Layouts {
    ghost use Rattle.m3_heap_bench.specs.Layouts.{layouts};

    ghost shapes = { λ _. layouts };

    fn is_pointer(&self, kind: u32, at: u64) -> bool {
        match kind {
            0 => at == 1,
            1 => at == 1 || at == 2,
            2 => at > 1,
            _ => false,
        }
    }
}
