ghost use Rattle.std.specs.Prelude.{◌≡◌, ◌<◌, ◌≤◌, ℕ, IsTrue};
ghost use Rattle.m3_tables.specs.Numbers.{word_in};
ghost use Rattle.m3_tables.specs.Sections.{is_good};

use crate::numbers::word;
use crate::row::Row;
use crate::section::Section;

/// The rows of an image's tables, as they stand in the bytes of their section. A view takes no memory.
#[derive(Clone, Copy)]
pub struct TableView<'a> {
    section: Section<'a>,
    rows: u32,
    ghost within: { rows ≤ word_in section.bytes.now },
    ghost good: { (k : ℕ) → k < rows → IsTrue (is_good section.bytes.now k) },
}

/// The rows of a section before the first bad one, and what is wrong behind them.
#[derive(Clone, Copy)]
pub struct TableFront<'a> {
    pub rows: TableView<'a>,
    /// The number of the first bad row, or the count of rows where only bytes after the last row are
    /// too many.
    pub fault: Option<u32>,
}

impl<'a> TableView<'a> {
    ghost use Rattle.std.specs.Prelude.{◌≢◌, ◌↔◌, None, Some, IfSome, IfNone, MatchResult, unwrap_or};
    ghost use Rattle.m3_tables.specs.Sections.{directory_fault, first_bad, end_fault, first_fault, fault_of, instruction_in, listed_in};
    ghost use Rattle.m3_tables.specs.Tables.{section_of, row_count, section_of_row, number_of_row, IsFront};

    /// The rows before the first bad one. The error is what is wrong with the directory: the count of rows,
    /// where the bytes don't hold it, or 0, where they don't hold the count.
    pub fn front(bytes: &'a [u8]) -> Result<TableFront<'a>, u32>
        ensures { MatchResult result (λ front. (directory_fault bytes.now ≡ None) × IsFront bytes.now front) (λ n. directory_fault bytes.now ≡ Some n) }
    {
        if bytes.len() < 4 {
            return Err(0);
        }
        let count = word(bytes);
        if bytes.len() < 4 + 8 * count as usize {
            return Err(count);
        }
        let section = Section { bytes };
        let front = match section.first_bad() {
            Some(row) => TableFront {
                rows: TableView { section, rows: row },
                fault: Some(row),
            },
            None => TableFront {
                rows: TableView {
                    section,
                    rows: count,
                },
                fault: if section.ends() { None } else { Some(count) },
            },
        };
        Ok(front)
    }

    /// The rows of a section. The error is the number of the first bad row, or the count of rows where the
    /// bytes don't hold the directory (0 where they don't hold the count) or go on after the last row. A row
    /// is bad if its instruction isn't above that of the row before, if it doesn't begin where the row before
    /// ends, or if its bytes break the form of a row.
    #[tactic(auto, unfolding(crate::specs::Sections::fault_of))]
    pub fn read(bytes: &'a [u8]) -> Result<TableView<'a>, u32>
        ensures { MatchResult result (λ t. (fault_of bytes.now ≡ None) × (section_of t ≡ bytes.now) × (row_count t ≡ word_in bytes.now)) (λ n. fault_of bytes.now ≡ Some n) }
    {
        match TableView::front(bytes) {
            Err(fault) => Err(fault),
            Ok(front) => match front.fault {
                Some(fault) => Err(fault),
                None => Ok(front.rows),
            },
        }
    }

    /// How many rows there are.
    pub fn len(&self) -> u32
        ensures { result ≡ row_count self.now }
    {
        self.rows
    }

    pub fn is_empty(&self) -> bool
        ensures { IsTrue result ↔ (row_count self.now ≡ 0) }
    {
        self.rows == 0
    }

    /// The row of a number, from 0 in the order of the code. None exactly past the last.
    pub fn at(&self, number: u32) -> Option<Row<'a>>
        ensures none { IfNone result (row_count self.now ≤ number) }
        ensures some { IfSome result (λ r. (number < row_count self.now) × (section_of_row r ≡ section_of self.now) × (number_of_row r ≡ number)) }
    {
        if number < self.rows {
            Some(Row::of(self.section, number as usize))
        } else {
            None
        }
    }

    /// The row of an instruction. None exactly where no row has that instruction.
    pub fn row(&self, instr: u32) -> Option<Row<'a>>
        ensures none { IfNone result ((k : ℕ) → k < row_count self.now → instruction_in (section_of self.now) k ≢ instr) }
        ensures some { IfSome result (λ r. (number_of_row r < row_count self.now) × (section_of_row r ≡ section_of self.now) × (instruction_in (section_of self.now) (number_of_row r) ≡ instr)) }
    {
        let mut low = 0;
        let mut high = self.rows as usize;
        while low < high {
            let middle = low + (high - low) / 2;
            let found = self.section.instruction(middle);
            if found == instr {
                return Some(Row::of(self.section, middle));
            }
            if found < instr {
                low = middle + 1;
            } else {
                high = middle;
            }
        }
        None
    }

    /// The instruction that a section's directory gives for a row, from 0, whatever the rows say. None exactly
    /// where the bytes don't hold the directory, and past its last row.
    pub fn listed_instruction(bytes: &[u8], row: u32) -> Option<u32>
        ensures { result ≡ listed_in bytes.now row }
    {
        if bytes.len() < 4 {
            return None;
        }
        let count = word(bytes);
        if bytes.len() < 4 + 8 * count as usize || row >= count {
            return None;
        }
        let section = Section { bytes };
        Some(section.instruction(row as usize))
    }
}
