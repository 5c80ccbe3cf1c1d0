use crate::fields::{put_count, put_list, put_word};
use crate::sections::number_of;
use m3_base::{NoMemory, gap};
use m3_tables::Location;
use m3_tables_writer::{DerivedPlain, RowPlain, Way};
use std::alloc::Global;

/// What a row says of the places: the numbers of the tidy ones, rising, and the bytes of the rest.
#[derive(Drop)]
struct Told {
    tidy: Vec<u32>,
    rest: Vec<u8>,
}

/// The section of the tables, in the making.
#[derive(Drop)]
struct Draft {
    /// How many rows there are, and for each its instruction and where it begins in the body.
    directory: Vec<u8>,
    body: Vec<u8>,
    /// What the last row told.
    last: Told,
}

/// The section of the tables with these rows: each sixteenth row tells all its tidy places, another
/// row that says the same as the one before is a single byte, and any other tells the change.
pub fn table_section(alloc: Global, rows: &[RowPlain]) -> Result<Vec<u8>, NoMemory> {
    let mut draft = Draft {
        directory: Vec::new(alloc),
        body: Vec::new(alloc),
        last: Told {
            tidy: Vec::new(alloc),
            rest: Vec::new(alloc),
        },
    };
    draft.put_rows(alloc, rows)?;
    let Draft {
        mut directory,
        body,
        last: _,
    } = draft;
    directory.extend_from_slice(&body)?;
    Ok(directory)
}

impl Draft {
    fn put_rows(&mut self, alloc: Global, rows: &[RowPlain]) -> Result<(), NoMemory> {
        put_count(&mut self.directory, rows.len())?;
        for (number, row) in rows.iter().enumerate() {
            put_word(&mut self.directory, row.instr)?;
            put_count(&mut self.directory, self.body.len())?;
            let told = told_by(alloc, row)?;
            if number % 16 == 0 {
                self.put_whole(&told)?;
            } else {
                self.put_after(alloc, &told)?;
            }
            self.last = told;
        }
        Ok(())
    }

    fn put_whole(&mut self, told: &Told) -> Result<(), NoMemory> {
        self.body.push(0)?;
        put_list(&mut self.body, &told.tidy)?;
        self.body.extend_from_slice(&told.rest)?;
        Ok(())
    }

    /// A row after another.
    fn put_after(&mut self, alloc: Global, told: &Told) -> Result<(), NoMemory> {
        if self.last.tidy.as_slice() == told.tidy.as_slice()
            && self.last.rest.as_slice() == told.rest.as_slice()
        {
            self.body.push(2)?;
            return Ok(());
        }
        let removed = missing(alloc, &self.last.tidy, &told.tidy)?;
        let added = missing(alloc, &told.tidy, &self.last.tidy)?;
        self.body.push(1)?;
        put_list(&mut self.body, &removed)?;
        put_list(&mut self.body, &added)?;
        self.body.extend_from_slice(&told.rest)?;
        Ok(())
    }
}

/// Those of some numbers that aren't among others, which rise.
fn missing(alloc: Global, numbers: &[u32], others: &[u32]) -> Result<Vec<u32>, NoMemory> {
    let mut found = Vec::new(alloc);
    for number in numbers {
        if !has(others, *number) {
            found.push(*number)?;
        }
    }
    Ok(found)
}

/// Whether a number is among others, which rise.
fn has(numbers: &[u32], wanted: u32) -> bool {
    let mut low = 0usize;
    let mut high = numbers.len();
    for _ in 0..numbers.len() {
        let middle = low.saturating_add(high.saturating_sub(low) / 2);
        match numbers.get(middle) {
            Some(number) if *number == wanted => return true,
            Some(number) if *number < wanted => low = middle.saturating_add(1),
            _ => high = middle,
        }
        if low >= high {
            return false;
        }
    }
    false
}

fn told_by(alloc: Global, row: &RowPlain) -> Result<Told, NoMemory> {
    let mut told = Told {
        tidy: Vec::new(alloc),
        rest: Vec::new(alloc),
    };
    for place in &row.tidy {
        told.tidy.push(number_of(*place)?)?;
    }
    put_rest(&mut told.rest, row)?;
    Ok(told)
}

/// All of a row but its tidy places.
fn put_rest(out: &mut Vec<u8>, row: &RowPlain) -> Result<(), NoMemory> {
    put_count(out, row.arguments.len())?;
    put_places(out, &row.arguments)?;
    put_count(out, row.passed.len())?;
    put_places(out, &row.passed)?;
    put_count(out, row.derived.len())?;
    for entry in &row.derived {
        put_entry(out, entry)?;
    }
    Ok(())
}

fn put_places(out: &mut Vec<u8>, places: &[Location]) -> Result<(), NoMemory> {
    for place in places {
        put_word(out, number_of(*place)?)?;
    }
    Ok(())
}

fn put_entry(out: &mut Vec<u8>, entry: &DerivedPlain) -> Result<(), NoMemory> {
    put_word(out, number_of(entry.location)?)?;
    let path = match entry.path {
        Some(path) => number_of(path)?,
        None => u32::MAX,
    };
    put_word(out, path)?;
    put_half_count(out, entry.ways.len())?;
    for way in &entry.ways {
        put_way(out, way)?;
    }
    Ok(())
}

fn put_way(out: &mut Vec<u8>, way: &Way) -> Result<(), NoMemory> {
    put_byte_count(out, way.added.len())?;
    put_byte_count(out, way.subtracted.len())?;
    put_places(out, &way.added)?;
    put_places(out, &way.subtracted)
}

fn put_half_count(out: &mut Vec<u8>, count: usize) -> Result<(), NoMemory> {
    match u16::try_from(count) {
        Ok(count) => {
            out.extend_from_slice(&count.to_le_bytes())?;
            Ok(())
        }
        // m3_gen_bases keeps an address with more ways in no temporary
        Err(_) => Err(gap()),
    }
}

fn put_byte_count(out: &mut Vec<u8>, count: usize) -> Result<(), NoMemory> {
    match u8::try_from(count) {
        Ok(count) => {
            out.push(count)?;
            Ok(())
        }
        // m3_gen_bases keeps an address with more bases in no temporary
        Err(_) => Err(gap()),
    }
}
