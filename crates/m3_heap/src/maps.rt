ghost use Rattle.std.specs.Prelude.{◌≡◌, List};
ghost use Rattle.m3_heap.specs.Shapes.{Shape, is_pointer_of};

/// What tells a collection which words of a cell are pointers.
pub trait Maps {
    /// The types of cells by their number: form, dimensions, words and pointer offsets of each.
    ghost shapes: { Self → List Shape };

    /// Whether word `at` of a cell of this kind is a pointer. In a cell of an open type the offsets
    /// repeat from word dimensions + 1 on, once for each element, so its sizes aren't needed.
    fn is_pointer(&self, kind: u32, at: u64) -> bool
        ensures { result ≡ is_pointer_of (shapes self.now) kind at };
}
