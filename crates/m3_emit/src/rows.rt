use crate::calls::Passed;
use crate::part::SpanPart;
use crate::writer::Writer;
use m3_base::{NoMemory, gap};
use m3_derive::{Base, Derivation, RowPlan, WayPlan};
use m3_flow::shown_at;
use m3_gen_instructions::word_of;
use m3_mid::{Held, MidOp};
use m3_tables::Location;
use m3_tables_writer::{DerivedPlain, RowPlain, Way};
use std::alloc::Global;

/// Places, rising and each once.
fn in_order(alloc: Global, mut places: Vec<Location>) -> Result<Vec<Location>, NoMemory> {
    places.sort()?;
    let mut once = Vec::new(alloc);
    let mut last = None;
    for place in places.iter() {
        if last != Some(*place) {
            once.push(*place)?;
            last = Some(*place);
        }
    }
    Ok(once)
}

/// The places of words of the frame.
fn places_of_words(alloc: Global, words: &[u32]) -> Result<Vec<Location>, NoMemory> {
    let mut places = Vec::new(alloc);
    for word in words {
        places.push(Location::Slot(*word))?;
    }
    in_order(alloc, places)
}

impl<'a> Writer<'a> {
    fn tidy_places(&self, row: &RowPlan<'a>) -> Result<Vec<Location>, NoMemory> {
        let mut places = Vec::new(self.emitter.alloc);
        for word in &self.tidy_words {
            places.push(Location::Slot(*word))?;
        }
        for temp in row.tidy {
            places.push(self.emitter.place_of(*temp))?;
        }
        in_order(self.emitter.alloc, places)
    }

    fn argument_places(&self, listed: &[u8], passed: &Passed) -> Result<Vec<Location>, NoMemory> {
        let mut places = Vec::new(self.emitter.alloc);
        for register in listed {
            places.push(Location::Register(*register))?;
        }
        for word in &passed.tidy {
            places.push(Location::Slot(*word))?;
        }
        in_order(self.emitter.alloc, places)
    }

    fn base_place(&self, base: Base) -> Location {
        match base {
            Base::Temp(temp) => self.emitter.place_of(temp),
            Base::Slot(slot) => Location::Slot(word_of(slot)),
        }
    }

    fn base_places(&self, bases: &[Base]) -> Result<Vec<Location>, NoMemory> {
        let mut places = Vec::new(self.emitter.alloc);
        for base in bases {
            places.push(self.base_place(*base))?;
        }
        Ok(places)
    }

    fn way(&self, way: WayPlan<'a>) -> Result<Way, NoMemory> {
        let added = self.base_places(way.added)?;
        let subtracted = self.base_places(way.subtracted)?;
        Ok(Way { added, subtracted })
    }

    fn derived_place(
        &self,
        location: Location,
        derivation: Derivation<'a>,
    ) -> Result<DerivedPlain, NoMemory> {
        let mut ways = Vec::new(self.emitter.alloc);
        for way in derivation.ways {
            let way = self.way(*way)?;
            ways.push(way)?;
        }
        let path = match derivation.path {
            None => None,
            Some(path) => Some(self.emitter.place_of(path)),
        };
        Ok(DerivedPlain {
            location,
            path,
            ways,
        })
    }

    fn derivation(&self, temp: u32) -> Result<Derivation<'a>, NoMemory> {
        let placed = self.emitter.placed;
        let derivations = placed.derived.derivations;
        derivations.get(temp as usize).copied().ok_or(gap())
    }

    fn derived_places(
        &self,
        row: &RowPlan<'a>,
        passed: &Passed,
    ) -> Result<Vec<DerivedPlain>, NoMemory> {
        let mut places = Vec::new(self.emitter.alloc);
        for temp in row.derived {
            let place = self.derived_place(self.emitter.place_of(*temp), self.derivation(*temp)?)?;
            places.push(place)?;
        }
        for (word, temp) in &passed.derived {
            let place = self.derived_place(Location::Slot(*word), self.derivation(*temp)?)?;
            places.push(place)?;
        }
        Ok(places)
    }

    fn add_spans(&mut self, op: MidOp, instr: u32) -> Result<(), NoMemory> {
        for shown in shown_at(op) {
            let location = match shown.at {
                Held::Temp(temp) => self.emitter.place_of(temp),
                Held::Slot(slot) => Location::Slot(word_of(slot)),
            };
            self.spans.push(SpanPart {
                var: shown.var,
                instr,
                location,
            })?;
        }
        Ok(())
    }

    /// The row of the point that is the next instruction, and what is shown there. `listed` are the
    /// registers without a temporary that hold tidy operands.
    pub(crate) fn add_row(
        &mut self,
        op: MidOp,
        listed: &[u8],
        passed: &Passed,
    ) -> Result<(), NoMemory> {
        let instr = self.emitter.here()?;
        let placed = self.emitter.placed;
        let rows = placed.derived.rows;
        let row = rows.get(self.row).copied().ok_or(gap())?;
        self.row = self.row.saturating_add(1);
        let tidy = self.tidy_places(&row)?;
        let arguments = self.argument_places(listed, passed)?;
        let own = places_of_words(self.emitter.alloc, &self.passed_words)?;
        let derived = self.derived_places(&row, passed)?;
        self.rows.push(RowPlain {
            instr,
            tidy,
            arguments,
            passed: own,
            derived,
        })?;
        self.add_spans(op, instr)
    }
}
