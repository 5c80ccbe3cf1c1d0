//! The types of cells of an image, and which words the globals have.
ghost use Rattle.std.specs.Prelude.{◌≡◌, ◌<◌, ◌^◌, length};
ghost use Rattle.std.specs.Option.{option_map};
ghost use Rattle.std.specs.List.{list_all};
ghost use Rattle.m3_tables.specs.Sections.{is_between};
ghost use Rattle.m3_tables.specs.Views.{numbers_of};

use crate::procs::Procs;
use crate::refusal::ImageRefusal;
use m3_tables::{Numbers, list_at, word_at};

/// The number that stands for no parent of a type, and for no procedure of a variable.
pub const NONE: u32 = u32::MAX;

/// A type of cells, as it stands in the bytes of an image.
#[derive(Clone, Copy)]
pub struct TypeView<'a> {
    kind: u32,
    parent: u32,
    words: u32,
    dims: u32,
    methods: Numbers<'a>,
    pointers: Numbers<'a>,
}

/// Types one after the other, as far as the bytes hold them.
#[derive(Clone, Copy)]
pub struct Types<'a> {
    pub bytes: &'a [u8],
    ghost small: { length bytes.now < 2 ^ 32 },
}

/// How many words the globals have, and which of them are pointers.
#[derive(Clone, Copy)]
pub struct Globals<'a> {
    pub words: u32,
    pub pointers: Numbers<'a>,
}

/// Whether each of some offsets is from the lowest on and below a limit.
fn are_between(offsets: Numbers<'_>, lowest: u32, limit: u32) -> bool
    ensures { result ≡ list_all (is_between lowest limit) (numbers_of offsets.entry) }
{
    for offset in offsets {
        if offset < lowest || offset >= limit {
            return false;
        }
    }
    true
}

impl<'a> TypeView<'a> {
    ghost use Rattle.std.specs.Prelude.{nat_le, Some, IsTrue};
    ghost use Rattle.m3_tables.specs.Numbers.{rises};
    ghost use Rattle.m3_heap.specs.Shapes.{is_listed, is_pointer_in};
    ghost use Rattle.m3_image_sections.specs.Shapes.{shape_of};
    ghost use Rattle.std.specs.List.{slice_get};
    ghost use Rattle.m3_image_sections.specs.Parts.{type_at};
    ghost use Rattle.m3_image_sections.specs.Forms.{layout_fits, parent_fits, number_fits, is_three_alone, type_fits};
    ghost use Rattle.m3_image_sections.specs.PartViews.{type_of};

    /// The form of the type's cells: 0 fixed, 1 open, 2 text.
    pub fn kind(&self) -> u32
        ensures { result ≡ (type_of self.now).kind }
    {
        self.kind
    }

    /// The number of the parent, or the greatest number of 32 bits where there is none.
    pub fn parent(&self) -> u32
        ensures { result ≡ (type_of self.now).parent }
    {
        self.parent
    }

    /// The words of a fixed cell, its header included, or of an open cell's element; 0 for texts.
    pub fn words(&self) -> u32
        ensures { result ≡ (type_of self.now).words }
    {
        self.words
    }

    /// How many open dimensions a cell has; 0 unless the type is open.
    pub fn dims(&self) -> u32
        ensures { result ≡ (type_of self.now).dims }
    {
        self.dims
    }

    /// A method: the number of its procedure and 1, or 0 for NIL. None exactly past the type's methods.
    pub fn method(&self, n: u32) -> Option<u32>
        ensures { result ≡ slice_get (type_of self.now).methods n }
    {
        self.methods.get(n as usize)
    }

    /// The offset of a pointer: of a fixed cell from its header, and of an open one in each element. None
    /// exactly past the type's pointers.
    pub fn pointer(&self, n: u32) -> Option<u32>
        ensures { result ≡ slice_get (type_of self.now).pointers n }
    {
        self.pointers.get(n as usize)
    }

    /// The methods, one after the other.
    pub fn methods(&self) -> Numbers<'a>
        ensures { numbers_of result ≡ (type_of self.now).methods }
    {
        self.methods
    }

    /// The offsets of the pointers, which rise.
    pub fn pointers(&self) -> Numbers<'a>
        ensures { numbers_of result ≡ (type_of self.now).pointers }
    {
        self.pointers
    }

    /// Whether an offset is one of the pointers, which are all below the words.
    #[tactic(auto, using(crate::proofs::ShapeLemmas::has_listed, crate::proofs::ShapeLemmas::not_listed))]
    pub fn points_at(&self, offset: u64) -> bool
        requires rise { IsTrue (rises (type_of self.now).pointers) }
        requires below { IsTrue (list_all (is_between 0 (type_of self.now).words) (type_of self.now).pointers) }
        ensures { result ≡ is_listed (type_of self.now).pointers offset }
    {
        offset < self.words as u64 && self.pointers.has(offset as u32)
    }

    /// Whether word `at` of a cell of this type is a pointer. In an open cell the offsets repeat for each
    /// element, from behind the header and the sizes on.
    pub fn is_pointer(&self, at: u64) -> bool
        requires rise { IsTrue (rises (type_of self.now).pointers) }
        requires below { IsTrue (list_all (is_between 0 (type_of self.now).words) (type_of self.now).pointers) }
        ensures { result ≡ is_pointer_in (Some (shape_of (type_of self.now))) at }
    {
        let sizes = self.dims as u64;
        match self.kind {
            0 => self.points_at(at),
            1 => {
                at > sizes
                    && self.words > 0
                    && self.points_at((at - (sizes + 1)) % self.words as u64)
            }
            _ => false,
        }
    }

    /// A type, and the bytes after it.
    #[tactic(auto, unfolding(crate::specs::Parts::type_at))]
    pub fn at(bytes: &'a [u8]) -> Option<(TypeView<'a>, &'a [u8])>
        ensures { option_map (λ x. (type_of x.0, x.1.now)) result ≡ type_at bytes.now }
    {
        let (kind, rest) = word_at(bytes)?;
        let (parent, rest) = word_at(rest)?;
        let (words, rest) = word_at(rest)?;
        let (dims, rest) = word_at(rest)?;
        let (methods, rest) = list_at(rest)?;
        let (pointers, rest) = list_at(rest)?;
        let found = TypeView {
            kind,
            parent,
            words,
            dims,
            methods,
            pointers,
        };
        Some((found, rest))
    }

    /// Whether the words, the dimensions and the pointers are as the kind has them.
    fn layout_fits(&self) -> bool
        ensures { result ≡ layout_fits (type_of self.now) }
    {
        match self.kind {
            0 => self.dims == 0 && self.words > 0 && are_between(self.pointers, 1, self.words),
            1 => self.dims > 0 && are_between(self.pointers, 0, self.words),
            2 => self.dims == 0 && self.words == 0 && self.pointers.is_empty(),
            _ => false,
        }
    }

    fn parent_fits(&self, number: u32) -> bool
        ensures { result ≡ parent_fits number (type_of self.now).parent }
    {
        self.parent == NONE || self.parent < number
    }

    /// Whether each method is 0 or one of so many procedures.
    fn methods_fit(&self, procs: usize) -> bool
        ensures { result ≡ list_all (λ m. nat_le m procs) (type_of self.now).methods }
    {
        for method in self.methods {
            if method as usize > procs {
                return false;
            }
        }
        true
    }

    /// Whether word 3 alone is a pointer.
    fn points_at_three(&self) -> bool
        ensures { result ≡ is_three_alone (type_of self.now).pointers }
    {
        self.pointers.get(0) == Some(3) && self.pointers.get(1).is_none()
    }

    /// Whether the type may have this number: 0 is the one text, and 1 the type of threads.
    fn number_fits(&self, number: u32) -> bool
        ensures { result ≡ number_fits number (type_of self.now) }
    {
        match number {
            0 => self.kind == 2,
            1 => self.kind == 0 && self.words == 4 && self.points_at_three(),
            _ => self.kind != 2,
        }
    }

    /// Whether this is a good type of a number, where there are so many procedures.
    fn fits(&self, procs: usize, number: u32) -> bool
        ensures { result ≡ type_fits procs number (type_of self.now) }
    {
        self.parent_fits(number)
            && self.methods_fit(procs)
            && self.pointers.rises()
            && self.layout_fits()
            && self.number_fits(number)
    }
}

impl<'a> Iterator for Types<'a> {
    type Item = TypeView<'a>;

    ghost use Rattle.std.specs.Iterator.{YieldsFirstBy, item_count};
    ghost use Rattle.m3_image_sections.specs.PartViews.{type_of, types_of};

    ghost next_gives = { YieldsFirstBy type_of types_of };

    ghost remaining = { item_count types_of };

    fn next(&mut self) -> Option<TypeView<'a>> {
        let (first, rest) = TypeView::at(self.bytes)?;
        *self = Types { bytes: rest };
        Some(first)
    }
}

impl<'a> Types<'a> {
    ghost use Rattle.std.specs.Prelude.{Some, IfOk, IsTrue};
    ghost use Rattle.std.specs.List.{slice_get};
    ghost use Rattle.m3_image_sections.specs.Parts.{types_at};
    ghost use Rattle.m3_image_sections.specs.Forms.{types_fit_from, types_fit};
    ghost use Rattle.m3_image_sections.specs.Reading.{seen, whole};
    ghost use Rattle.m3_image_sections.specs.PartViews.{type_of, types_of, procs_of};

    /// The types of a section, and the bytes after them.
    #[tactic(auto, unfolding(crate::specs::Parts::types_at, crate::specs::Fields::all_at))]
    pub fn at(section: &'a [u8]) -> (Types<'a>, &'a [u8])
        requires { length section.now < 2 ^ 32 }
        ensures { Some (types_of result.0, result.1.now) ≡ types_at section.now }
    {
        let mut rest = section;
        while let Some((_, after)) = TypeView::at(rest) {
            rest = after;
        }
        (Types { bytes: section }, rest)
    }

    /// How many types there are. It goes over all of them.
    pub fn len(&self) -> u32
        ensures { result ≡ length (types_of self.now) }
    {
        let mut count = 0;
        for _ in *self {
            count += 1;
        }
        count
    }

    /// The type of a number, from 0. None exactly past the last.
    pub fn get(&self, number: u32) -> Option<TypeView<'a>>
        ensures { option_map type_of result ≡ slice_get (types_of self.now) number }
    {
        let mut types = *self;
        for _ in 0..number {
            types.next()?;
        }
        types.next()
    }

    /// Whether each type is good by its number.
    fn each_fits(&self, procs: usize) -> bool
        ensures { result ≡ types_fit_from procs 0 (types_of self.now) }
    {
        let mut number = 0;
        for found in *self {
            if !found.fits(procs, number) {
                return false;
            }
            number += 1;
        }
        true
    }

    /// Whether the types have the form that the section must have, where there are so many procedures.
    pub fn fit(&self, procs: usize) -> bool
        ensures { result ≡ types_fit procs (types_of self.now) }
    {
        self.len() >= 2 && self.each_fits(procs)
    }

    /// The types of a section that holds nothing else, where they have their form beside the procedures.
    #[tactic(auto, using(crate::proofs::ListLemmas::length_each))]
    pub fn of(section: &'a [u8], procs: Procs<'_>) -> Result<Types<'a>, ImageRefusal>
        requires { length section.now < 2 ^ 32 }
        ensures value { seen types_of result ≡ whole 3 (types_fit (length (procs_of procs.entry))) (types_at section.now) }
        ensures fit { IfOk result (λ t. IsTrue (types_fit (length (procs_of procs.entry)) (types_of t))) }
    {
        let (types, rest) = Types::at(section);
        if rest.is_empty() && types.fit(procs.count) {
            Ok(types)
        } else {
            Err(ImageRefusal::Section(3))
        }
    }
}

impl<'a> Globals<'a> {
    ghost use Rattle.std.specs.Prelude.{IfOk, IsTrue};
    ghost use Rattle.m3_image_sections.specs.Parts.{globals_at};
    ghost use Rattle.m3_image_sections.specs.Forms.{globals_fit};
    ghost use Rattle.m3_image_sections.specs.Reading.{seen, whole};
    ghost use Rattle.m3_image_sections.specs.PartViews.{globals_of};

    /// What a section says of the globals, and the bytes after that.
    #[tactic(auto, unfolding(crate::specs::Parts::globals_at))]
    pub fn at(section: &'a [u8]) -> Option<(Globals<'a>, &'a [u8])>
        ensures { option_map (λ x. (globals_of x.0, x.1.now)) result ≡ globals_at section.now }
    {
        let (words, rest) = word_at(section)?;
        let (pointers, rest) = list_at(rest)?;
        Some((Globals { words, pointers }, rest))
    }

    /// Whether they have the form that the section must have.
    pub fn fit(&self) -> bool
        ensures { result ≡ globals_fit (globals_of self.now) }
    {
        self.words >= 4 && self.pointers.rises() && are_between(self.pointers, 4, self.words)
    }

    /// What a section that holds nothing else says of the globals, where it has its form.
    pub fn of(section: &'a [u8]) -> Result<Globals<'a>, ImageRefusal>
        ensures value { seen globals_of result ≡ whole 4 globals_fit (globals_at section.now) }
        ensures fit { IfOk result (λ g. IsTrue (globals_fit (globals_of g))) }
    {
        match Globals::at(section) {
            Some((globals, rest)) if rest.is_empty() && globals.fit() => Ok(globals),
            _ => Err(ImageRefusal::Section(4)),
        }
    }
}
