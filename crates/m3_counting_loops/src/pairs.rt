//! The proof that the procedure that was written has the same run.
use crate::findings::Findings;
use m3_base::{NoMemory, place_number};
use m3_flow::Groups;
use m3_same_forms::{Pair, Setting};
use std::alloc::Global;

impl<'a> Findings<'a> {
    /// What the pointers hold where a block begins.
    fn settings(&self, alloc: Global, row: &[u32]) -> Result<Vec<Setting>, NoMemory> {
        let mut settings = Vec::new(alloc);
        for number in row {
            if let Some(pointer) = self.pointers.get(*number as usize) {
                settings.push(Setting {
                    temp: pointer.temp,
                    value: pointer.value.copy(alloc)?,
                })?;
            }
        }
        Ok(settings)
    }

    /// At the number of each block its pair.
    pub(crate) fn pairs(&self, alloc: Global, blocks: usize) -> Result<Vec<Pair>, NoMemory> {
        let rows = Groups::of(alloc, blocks, &self.holding)?;
        let mut pairs = Vec::new(alloc);
        for number in 0..blocks {
            let number = place_number(number)?;
            pairs.push(Pair {
                left: number,
                right: number,
                left_settings: Vec::new(alloc),
                settings: self.settings(alloc, rows.row(number))?,
                knowns: Vec::new(alloc),
            })?;
        }
        Ok(pairs)
    }
}
