use m3_gen_instructions::goes_to_imm;
use m3_isa::Instr;
use m3_tables::Location;
use m3_tables_writer::RowPlain;

/// Where a variable is shown at an instruction.
#[derive(Clone, Copy)]
pub struct SpanPart {
    pub var: u32,
    pub instr: u32,
    pub location: Location,
}

/// The code of a procedure, the rows of its points, and what is shown at them. Instructions are
/// counted from the procedure's first one.
#[derive(Drop)]
pub struct Part {
    pub code: Vec<Instr>,
    pub rows: Vec<RowPlain>,
    pub spans: Vec<SpanPart>,
}

impl Part {
    /// Counts all instructions from another first one: that which comes so many further.
    pub fn move_by(&mut self, first: u32) {
        let by = i32::try_from(first).unwrap_or(i32::MAX);
        for instr in self.code.iter_mut() {
            if goes_to_imm(instr.op) {
                instr.imm = instr.imm.saturating_add(by);
            }
        }
        for row in self.rows.iter_mut() {
            row.instr = row.instr.saturating_add(first);
        }
        for span in self.spans.iter_mut() {
            span.instr = span.instr.saturating_add(first);
        }
    }
}
