ghost use Rattle.std.specs.Prelude.{◌≡◌, None, IsTrue};
ghost use Rattle.std.specs.List.{list_all};
ghost use Rattle.m3_tables.specs.Numbers.{word_in};
ghost use Rattle.m3_tables.specs.Tables.{section_of, row_count};
ghost use Rattle.m3_image.specs.Programs.{fault_of, variable_fits};
ghost use Rattle.m3_image_sections.specs.PartViews.{variables_list};
ghost use Rattle.m3_image.specs.ProgramViews.{program_view};

use crate::program::Program;
use m3_heap::Maps;
use m3_image_sections::{
    ImageRefusal, Names, ProcPart, Procs, Sections, TypeView, Types, VarView, Variables,
};
use m3_isa::Instr;
use m3_tables::{Numbers, TableView};

/// An image, as it stands in its bytes. A view takes no memory.
#[derive(Clone, Copy)]
pub struct ImageView<'a> {
    version: u32,
    program: Program<'a>,
    tables: TableView<'a>,
    variables: Variables<'a>,
    ghost tabled: { section_of tables ≡ program.tables.now },
    ghost counted: { row_count tables ≡ word_in program.tables.now },
    ghost sound: { fault_of (program_view program) ≡ None },
    ghost shown: { IsTrue (list_all (variable_fits (program_view program)) (variables_list variables)) },
}

impl<'a> ImageView<'a> {
    ghost use Rattle.std.specs.Option.{option_map};
    ghost use Rattle.std.specs.List.{slice_get};
    ghost use Rattle.std.specs.Prelude.{IfSome};
    ghost use Rattle.m3_isa.specs.Instructions.{IsInstruction};
    ghost use Rattle.m3_image_sections.specs.Reading.{seen};
    ghost use Rattle.m3_image.specs.Images.{read_of, IsImage};
    ghost use Rattle.m3_image_sections.specs.Ranges.{containing};
    ghost use Rattle.m3_image.specs.Sound.{IsSoundProgram};
    ghost use Rattle.std.specs.Prelude.{◌≤◌, IfNone, length};
    ghost use Rattle.m3_tables.specs.Views.{numbers_of};
    ghost use Rattle.m3_image.specs.Views.{image_view};
    ghost use Rattle.m3_image_sections.specs.PartViews.{type_of, types_of, procs_of, names_of, variable_of};

    /// The image that bytes are. The error is the first condition that the bytes meet, in the order in which the
    /// conditions are tested.
    #[tactic(auto, unfolding(crate::specs::Images::read_of))]
    pub fn read(bytes: &'a [u8]) -> Result<ImageView<'a>, ImageRefusal>
        ensures { seen image_view result ≡ read_of bytes.now }
    {
        let sections = Sections::of(bytes)?;
        let program = Program::of(&sections)?;
        let tables = program.sound()?;
        let variables = program.variables(sections.variables)?;
        Ok(ImageView {
            version: sections.version,
            program,
            tables,
            variables,
        })
    }

    /// What every image keeps: it holds of each view, however it was come by.
    pub fn keeps_its_form(&self)
        ensures { IsImage (image_view self.now) }
    {}

    /// What the code, the procedures and the rows of every image keep beside each other: the procedures have all of
    /// the code, each jump stays in its procedure, and each row's places are in the frame of its procedure.
    #[tactic(auto, using(crate::proofs::SoundLemmas::sound_program))]
    pub fn keeps_together(&self)
        ensures { IsSoundProgram (image_view self.now).program }
    {}

    /// The version, 1 or 2.
    pub fn version(&self) -> u32
        ensures { result ≡ (image_view self.now).version }
    {
        self.version
    }

    /// The instruction of a number, from 0. None exactly past the code.
    pub fn code(&self, n: u32) -> Option<Instr>
        ensures value { result ≡ slice_get (image_view self.now).program.code n }
        ensures good { IfSome result (λ i. IsInstruction i) }
    {
        self.program.code.get(n)
    }

    /// How many instructions there are.
    pub fn code_len(&self) -> u32
        ensures { result ≡ length (image_view self.now).program.code }
    {
        self.program.code.len()
    }

    /// The procedures, one after the other.
    pub fn procs(&self) -> Procs<'a>
        ensures { procs_of result ≡ (image_view self.now).program.procs }
    {
        self.program.procs
    }

    /// How many procedures there are.
    pub fn proc_count(&self) -> usize
        ensures { result ≡ length (image_view self.now).program.procs }
    {
        self.program.procs.len()
    }

    /// How many constants there are.
    pub fn constant_count(&self) -> usize
        ensures { result ≡ length (image_view self.now).program.constants }
    {
        self.program.constants.len()
    }

    /// How many places there are.
    pub fn place_count(&self) -> usize
        ensures { result ≡ length (image_view self.now).program.places }
    {
        self.program.places.len()
    }

    /// The types, one after the other.
    pub fn types(&self) -> Types<'a>
        ensures { types_of result ≡ (image_view self.now).program.types }
    {
        self.program.types
    }

    /// The names of the files, one after the other.
    pub fn files(&self) -> Names<'a>
        ensures { names_of result ≡ (image_view self.now).program.files }
    {
        self.program.files
    }

    /// The names of the exceptions, one after the other, each with its unit before it.
    pub fn exceptions(&self) -> Names<'a>
        ensures { names_of result ≡ (image_view self.now).program.exceptions }
    {
        self.program.exceptions
    }

    /// The numbers of the global words that are pointers, which rise.
    pub fn global_pointers(&self) -> Numbers<'a>
        ensures { numbers_of result ≡ (image_view self.now).program.globals.pointers }
    {
        self.program.globals.pointers
    }

    /// The shown variables, one after the other; none in version 1.
    pub fn variables(&self) -> Variables<'a>
        ensures { variables_list result ≡ (image_view self.now).variables }
    {
        self.variables
    }

    /// The procedure of a number, from 0. None exactly past the last.
    pub fn proc(&self, n: u32) -> Option<ProcPart>
        ensures { result ≡ slice_get (image_view self.now).program.procs n }
    {
        self.program.procs.get(n)
    }

    /// The procedure that an instruction is in. None exactly past the code.
    pub fn containing(&self, instr: u32) -> Option<ProcPart>
        ensures value { result ≡ containing (image_view self.now).program.procs instr }
        ensures all { IfNone result (length (image_view self.now).program.code ≤ instr) }
    {
        self.program.procs.containing(instr)
    }

    /// The type of a number, from 0. None exactly past the last. It goes over the types before it.
    pub fn shape(&self, n: u32) -> Option<TypeView<'a>>
        ensures { option_map type_of result ≡ slice_get (image_view self.now).program.types n }
    {
        self.program.types.get(n)
    }

    /// How many words the globals have, from 4 on.
    pub fn global_words(&self) -> u32
        ensures { result ≡ (image_view self.now).program.globals.words }
    {
        self.program.globals.words
    }

    /// The number of a global word that is a pointer. None exactly past the last.
    pub fn global_pointer(&self, n: u32) -> Option<u32>
        ensures { result ≡ slice_get (image_view self.now).program.globals.pointers n }
    {
        self.program.globals.pointers.get(n as usize)
    }

    /// The constant of a number, from 0. None exactly past the last.
    pub fn constant(&self, n: u32) -> Option<u64>
        ensures { result ≡ slice_get (image_view self.now).program.constants n }
    {
        self.program.constants.get(n)
    }

    /// The name of a file. None exactly past the last.
    pub fn file(&self, n: u32) -> Option<&'a [u8]>
        ensures { option_map (λ x. x.now) result ≡ slice_get (image_view self.now).program.files n }
    {
        self.program.files.get(n)
    }

    /// A place in the sources: the number of its file, and the line. None exactly past the last.
    pub fn place(&self, n: u32) -> Option<(u32, u32)>
        ensures { result ≡ slice_get (image_view self.now).program.places n }
    {
        self.program.places.get(n)
    }

    /// The name of an exception, with its unit before it. None exactly past the last.
    pub fn exception(&self, n: u32) -> Option<&'a [u8]>
        ensures { option_map (λ x. x.now) result ≡ slice_get (image_view self.now).program.exceptions n }
    {
        self.program.exceptions.get(n)
    }

    /// The tables of the point instructions.
    pub fn tables(&self) -> TableView<'a>
        ensures section { section_of result ≡ (image_view self.now).program.tables }
        ensures rows { row_count result ≡ word_in (image_view self.now).program.tables }
    {
        self.tables
    }

    /// The shown variable of a number, from 0. None exactly past the last, and always in version 1.
    pub fn variable(&self, n: u32) -> Option<VarView<'a>>
        ensures { option_map variable_of result ≡ slice_get (image_view self.now).variables n }
    {
        self.variables.get(n)
    }
}

impl<'a> Maps for ImageView<'a> {
    ghost use Rattle.std.specs.Prelude.{map};
    ghost use Rattle.m3_image.specs.Views.{image_view};
    ghost use Rattle.m3_image_sections.specs.Shapes.{shape_of};

    ghost shapes = { λ v. map shape_of (image_view v).program.types };

    fn is_pointer(&self, kind: u32, at: u64) -> bool {
        match self.shape(kind) {
            Some(shape) => shape.is_pointer(at),
            None => false,
        }
    }
}
