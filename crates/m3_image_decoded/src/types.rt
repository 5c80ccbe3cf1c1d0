//! The types of an image by their numbers, with a test of pointers and of ancestors.
ghost use Rattle.std.specs.Prelude.{◌≡◌, ◌<◌, ◌≤◌, ℕ, false, IsTrue, slice_index_or};
ghost use Rattle.std.specs.List.{list_all};
ghost use Rattle.m3_tables.specs.Numbers.{rises};
ghost use Rattle.m3_tables.specs.Sections.{is_between};
ghost use Rattle.m3_heap.specs.Shapes.{is_listed};
ghost use Rattle.m3_image_sections.specs.PartViews.{type_of};

use m3_image::TypeView;

/// How many of a cell's first offsets are tested by a table.
const LOW: usize = 64;

/// A type of cells whose pointers are found at once.
#[derive(Clone, Copy)]
pub(crate) struct ReadyType<'a> {
    pub(crate) view: TypeView<'a>,
    low: [bool; 64],
    ghost rise: { IsTrue (rises (type_of view).pointers) },
    ghost below: { IsTrue (list_all (is_between 0 (type_of view).words) (type_of view).pointers) },
    ghost told: { (k : ℕ) → k < 64
        → slice_index_or low k false ≡ is_listed (type_of view).pointers k },
}

impl<'a> ReadyType<'a> {
    ghost use Rattle.std.specs.Prelude.{Some};
    ghost use Rattle.m3_heap.specs.Shapes.{is_pointer_in};
    ghost use Rattle.m3_image_sections.specs.Shapes.{shape_of};
    ghost use Rattle.m3_image_decoded.specs.Ancestors.{parent_in};

    /// A type whose pointers rise and lie below its words.
    pub(crate) fn of(view: TypeView<'a>) -> ReadyType<'a>
        requires rise { IsTrue (rises (type_of view).pointers) }
        requires below { IsTrue
            (list_all (is_between 0 (type_of view).words) (type_of view).pointers) }
        ensures { type_of result.view ≡ type_of view.entry }
    {
        let mut low = [false; 64];
        for k in 0..LOW {
            low[k] = view.points_at(k as u64);
        }
        ReadyType { view, low }
    }

    /// The number of the parent, where there is one.
    pub(crate) fn parent(&self) -> Option<u32>
        ensures { result ≡ parent_in (type_of self.now.view) }
    {
        match self.view.parent() {
            u32::MAX => None,
            parent => Some(parent),
        }
    }

    /// Whether an offset is one of the pointers.
    fn points_at(&self, offset: u64) -> bool
        ensures { result ≡ is_listed (type_of self.now.view).pointers offset }
    {
        if offset < 64 {
            self.low[offset as usize]
        } else {
            self.view.points_at(offset)
        }
    }

    /// Whether word `at` of a cell of this type is a pointer. In an open cell the offsets repeat
    /// for each element, from behind the header and the sizes on.
    pub(crate) fn is_pointer(&self, at: u64) -> bool
        ensures { result ≡ is_pointer_in (Some (shape_of (type_of self.now.view))) at }
    {
        let sizes = self.view.dims() as u64;
        match self.view.kind() {
            0 => self.points_at(at),
            1 => {
                at > sizes
                    && self.view.words() > 0
                    && self.points_at((at - (sizes + 1)) % self.view.words() as u64)
            }
            _ => false,
        }
    }
}
