//! The tables of an image beside its code and its procedures.
ghost use Rattle.std.specs.Prelude.{◌≡◌};
ghost use Rattle.m3_image.specs.Programs.{is_call};

use crate::program::Program;
use m3_image_sections::ImageRefusal;
use m3_isa::Op;
use m3_tables::{Row, TableFront, TableView, word};

/// Whether an operation calls a procedure.
fn is_call(op: Op) -> bool
    ensures { result ≡ is_call op }
{
    matches!(op, Op::Call | Op::Callr | Op::Callm)
}

impl<'a> Program<'a> {
    ghost use Rattle.m3_image.specs.Programs.{fault_of};
    ghost use Rattle.std.specs.Prelude.{◌<◌, ◌==◌, false, is_none, IsTrue, None, Some, MatchResult};
    ghost use Rattle.std.specs.Option.{option_map_or};
    ghost use Rattle.m3_tables.specs.Numbers.{word_in};
    ghost use Rattle.m3_tables.specs.Sections.{directory_fault, listed_in};
    ghost use Rattle.m3_tables.specs.Tables.{section_of, row_count, section_of_row, number_of_row, IsFront};
    ghost use Rattle.m3_image.specs.Programs.{lists_points, row_suits, tables_fault};
    ghost use Rattle.m3_image_sections.specs.Ranges.{first_failing};
    ghost use Rattle.m3_image.specs.Views.{program_view};

    /// Whether the directory has an instruction as its row of a number.
    fn lists(&self, row: u32, instr: u32) -> bool
        ensures { result ≡ option_map_or (λ n. n == instr) (listed_in self.now.tables.now row) false }
    {
        match TableView::listed_instruction(self.tables, row) {
            Some(listed) => listed == instr,
            None => false,
        }
    }

    /// Whether the directory has no row of a number.
    fn ends_before(&self, row: u32) -> bool
        ensures { result ≡ is_none (listed_in self.now.tables.now row) }
    {
        TableView::listed_instruction(self.tables, row).is_none()
    }

    /// Whether the directory has the point instructions, in the order of the code.
    #[tactic(auto, unfolding(crate::specs::Programs::lists_points))]
    fn lists_points(&self) -> bool
        requires { directory_fault self.now.tables.now ≡ None }
        ensures { result ≡ lists_points (program_view self.now) }
    {
        let mut row = 0;
        let count = self.code.len();
        for pc in 0..count {
            if !self.code.is_point_at(pc) {
                continue;
            }
            if !self.lists(row, pc) {
                return false;
            }
            row += 1;
        }
        self.ends_before(row)
    }

    /// Whether a row's slots are in its frame, and the row of a call leaves the registers to the callee.
    fn row_suits(&self, row: Row<'a>) -> bool
        requires { section_of_row row ≡ self.now.tables.now }
        ensures { result ≡ row_suits (program_view self.now) (number_of_row row.entry) }
    {
        let instr = row.instruction();
        let (Some(proc), Some(i)) = (self.procs.containing(instr), self.code.get(instr)) else {
            return false;
        };
        row.is_within(proc.frame) && (!is_call(i.op) || row.spares_registers())
    }

    /// Whether the row of a number suits the code and the frames.
    fn suits_at(&self, rows: TableView<'a>, n: u32) -> bool
        requires section { section_of rows ≡ self.now.tables.now }
        requires row { n < row_count rows }
        ensures { result ≡ row_suits (program_view self.now) n }
    {
        match rows.at(n) {
            Some(row) => self.row_suits(row),
            None => true,
        }
    }

    /// The first of some rows that doesn't suit the code and the frames.
    fn first_unsuited(&self, rows: TableView<'a>) -> Option<u32>
        requires { section_of rows ≡ self.now.tables.now }
        ensures { result ≡ first_failing (row_suits (program_view self.now)) (row_count rows.entry) }
    {
        let count = rows.len();
        for n in 0..count {
            if !self.suits_at(rows, n) {
                return Some(n);
            }
        }
        None
    }

    /// The rows, where each is good and suits the code and the frames. The error is the number of the first that
    /// doesn't, or of the rows where bytes follow them.
    fn sound_rows(&self, front: TableFront<'a>) -> Result<TableView<'a>, u32>
        requires directory { directory_fault self.now.tables.now ≡ None }
        requires points { IsTrue (lists_points (program_view self.now)) }
        requires front { IsFront self.now.tables.now front }
        ensures { MatchResult result (λ t. (tables_fault (program_view self.now) ≡ None) × (section_of t ≡ self.now.tables.now) × (row_count t ≡ word_in self.now.tables.now)) (λ n. tables_fault (program_view self.now) ≡ Some n) }
    {
        match self.first_unsuited(front.rows).or(front.fault) {
            Some(n) => Err(n),
            None => Ok(front.rows),
        }
    }

    /// The tables. The error is the first bad row, or the number of rows where the directory or the end is bad.
    #[tactic(auto, unfolding(crate::specs::Programs::tables_fault), using(crate::proofs::RowLemmas::holds_count))]
    fn tables(&self) -> Result<TableView<'a>, u32>
        ensures { MatchResult result (λ t. (tables_fault (program_view self.now) ≡ None) × (section_of t ≡ self.now.tables.now) × (row_count t ≡ word_in self.now.tables.now)) (λ n. tables_fault (program_view self.now) ≡ Some n) }
    {
        match TableView::front(self.tables) {
            Err(n) => Err(n),
            Ok(front) => {
                if self.lists_points() {
                    self.sound_rows(front)
                } else {
                    Err(word(self.tables))
                }
            }
        }
    }

    /// The tables, where what the sections say of each other is right: the procedures of the code, the targets of
    /// its instructions, and the tables.
    #[tactic(auto, unfolding(crate::specs::Programs::fault_of))]
    pub(crate) fn sound(&self) -> Result<TableView<'a>, ImageRefusal>
        ensures { MatchResult result (λ t. (fault_of (program_view self.now) ≡ None) × (section_of t ≡ self.now.tables.now) × (row_count t ≡ word_in self.now.tables.now)) (λ e. fault_of (program_view self.now) ≡ Some e) }
    {
        if !self.procs_suit() {
            return Err(ImageRefusal::Section(2));
        }
        if let Some(pc) = self.first_bad_target() {
            return Err(ImageRefusal::Target(pc));
        }
        match self.tables() {
            Ok(tables) => Ok(tables),
            Err(n) => Err(ImageRefusal::Table(n)),
        }
    }
}
