//! A program whose sections have their form, each by itself.
ghost use Rattle.std.specs.Prelude.{◌≡◌, IsTrue, length};
ghost use Rattle.m3_image_sections.specs.Forms.{procs_fit, types_fit, globals_fit, places_fit};
ghost use Rattle.m3_image_sections.specs.PartViews.{names_of, pairs_of, procs_of, types_of, globals_of};

use m3_image_sections::{Code, Globals, ImageRefusal, Longs, Names, Pairs, Procs, Sections, Types};

/// All that is carried out.
#[derive(Clone, Copy)]
pub(crate) struct Program<'a> {
    pub(crate) code: Code<'a>,
    pub(crate) procs: Procs<'a>,
    pub(crate) types: Types<'a>,
    pub(crate) globals: Globals<'a>,
    pub(crate) constants: Longs<'a>,
    pub(crate) files: Names<'a>,
    pub(crate) places: Pairs<'a>,
    pub(crate) exceptions: Names<'a>,
    pub(crate) tables: &'a [u8],
    ghost procs_kept: { IsTrue (procs_fit (procs_of procs)) },
    ghost types_kept: { IsTrue (types_fit (length (procs_of procs)) (types_of types)) },
    ghost globals_kept: { IsTrue (globals_fit (globals_of globals)) },
    ghost places_kept: { IsTrue (places_fit (record { files = names_of files; places = pairs_of places })) },
}

/// The names of files, and the places in them.
#[derive(Clone, Copy)]
pub(crate) struct Places<'a> {
    pub(crate) files: Names<'a>,
    pub(crate) places: Pairs<'a>,
    ghost held: { length (names_of files) ≡ files.count },
}

impl<'a> Places<'a> {
    ghost use Rattle.std.specs.Option.{option_map};
    ghost use Rattle.m3_image_sections.specs.Parts.{places_at};
    ghost use Rattle.m3_image_sections.specs.Reading.{seen, whole};
    ghost use Rattle.std.specs.Prelude.{nat_lt, IfOk};
    ghost use Rattle.m3_image.specs.ProgramViews.{places_of};

    /// The files and places at the front of a section, and the bytes after them.
    #[tactic(auto, unfolding(m3_image_sections::specs::Parts::places_at))]
    fn at(section: &'a [u8]) -> Option<(Places<'a>, &'a [u8])>
        ensures { option_map (λ x. (places_of x.0, x.1.now)) result ≡ places_at section.now }
    {
        let (files, rest) = Names::at(section)?;
        let (places, rest) = Pairs::at(rest)?;
        Some((Places { files, places }, rest))
    }

    fn has_file(&self, file: u32) -> bool
        ensures { result ≡ nat_lt file (length (names_of self.now.files)) }
    {
        file < self.files.count
    }

    /// Whether each place is in a file that is there.
    fn fit(&self) -> bool
        ensures { result ≡ places_fit (places_of self.now) }
    {
        for (file, _) in self.places {
            if !self.has_file(file) {
                return false;
            }
        }
        true
    }

    /// The files and places of a section that holds nothing else.
    fn of(section: &'a [u8]) -> Result<Places<'a>, ImageRefusal>
        ensures value { seen places_of result ≡ whole 6 places_fit (places_at section.now) }
        ensures fit { IfOk result (λ p. IsTrue (places_fit (places_of p))) }
    {
        match Places::at(section) {
            Some((places, rest)) if rest.is_empty() && places.fit() => Ok(places),
            _ => Err(ImageRefusal::Section(6)),
        }
    }
}

impl<'a> Program<'a> {
    ghost use Rattle.m3_image_sections.specs.Parts.{constants_at, names_at};
    ghost use Rattle.m3_image_sections.specs.Reading.{whole, any, seen};
    ghost use Rattle.m3_image.specs.Images.{program_of};
    ghost use Rattle.m3_image.specs.Programs.{begins_with_point, procs_suit};
    ghost use Rattle.m3_image_sections.specs.PartViews.{longs_of};
    ghost use Rattle.m3_image_sections.specs.SectionViews.{sections_view};
    ghost use Rattle.m3_image.specs.ProgramViews.{program_view};

    /// The constants of a section that holds nothing else.
    fn constants_in(section: &'a [u8]) -> Result<Longs<'a>, ImageRefusal>
        ensures { seen longs_of result ≡ whole 5 any (constants_at section.now) }
    {
        match Longs::at(section) {
            Some((constants, rest)) if rest.is_empty() => Ok(constants),
            _ => Err(ImageRefusal::Section(5)),
        }
    }

    /// The exceptions' names of a section that holds nothing else.
    fn exceptions_in(section: &'a [u8]) -> Result<Names<'a>, ImageRefusal>
        ensures { seen names_of result ≡ whole 7 any (names_at section.now) }
    {
        match Names::at(section) {
            Some((exceptions, rest)) if rest.is_empty() => Ok(exceptions),
            _ => Err(ImageRefusal::Section(7)),
        }
    }

    /// The program of an image's sections, where each has its form: the second to the seventh, and then the code.
    #[tactic(auto, unfolding(crate::specs::Images::program_of))]
    pub(crate) fn of(sections: &Sections<'a>) -> Result<Program<'a>, ImageRefusal>
        ensures { seen program_view result ≡ program_of (sections_view sections.now) }
    {
        let procs = Procs::of(sections.procs)?;
        let types = Types::of(sections.types, procs)?;
        let globals = Globals::of(sections.globals)?;
        let constants = Program::constants_in(sections.constants)?;
        let Places { files, places } = Places::of(sections.places)?;
        let exceptions = Program::exceptions_in(sections.exceptions)?;
        let code = Code::of(sections.code)?;
        Ok(Program {
            code,
            procs,
            types,
            globals,
            constants,
            files,
            places,
            exceptions,
            tables: sections.tables,
        })
    }

    /// Whether a procedure is there and begins with a point instruction.
    fn begins_with_point(&self, number: u32) -> bool
        ensures { result ≡ begins_with_point (program_view self.now) number }
    {
        match self.procs.get(number) {
            Some(proc) => self.code.is_point_at(proc.first),
            None => false,
        }
    }

    /// Whether the procedures have all of the code, and those that threads begin with begin with points.
    #[tactic(auto, unfolding(crate::specs::Programs::procs_suit))]
    pub(crate) fn procs_suit(&self) -> bool
        ensures { result ≡ procs_suit (program_view self.now) }
    {
        self.procs.end() == self.code.len() as u64
            && self.begins_with_point(0)
            && self.begins_with_point(1)
    }
}
