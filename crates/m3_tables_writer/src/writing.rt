//! Rows as bytes.
ghost use Rattle.std.specs.Prelude.{◌≡◌, ◌≤◌, ◌<◌, ◌^◌, ◌++◌, ◌∷◌, length, map, OnOk, IfOk, IfSome};
ghost use Rattle.std.specs.Prelude.{IsTrue, None};
ghost use Rattle.std.specs.Option.{option_map};
ghost use Rattle.std.specs.List.{flat_map, AllByRecursion};
ghost use Rattle.m3_tables.specs.Numbers.{rises, has};
ghost use Rattle.m3_tables_writer.specs.Plain.{place_number, place_numbers, bases_plain};
ghost use Rattle.m3_tables_writer.specs.Plain.{entry_plain, contents_plain, plain_of, plains_of};
ghost use Rattle.m3_tables_writer.specs.Plain.{IsWay, IsDerived, IsRow};
ghost use Rattle.m3_tables_writer.specs.Writing.{word_bytes, half_bytes, list_bytes, bases_bytes};
ghost use Rattle.m3_tables_writer.specs.Writing.{entry_bytes, contents_bytes, ground_bytes};
ghost use Rattle.m3_tables_writer.specs.Writing.{change_bytes, after_bytes, row_bytes};
ghost use Rattle.m3_tables_writer.specs.Writing.{directory_bytes, body_bytes, table_bytes};
ghost use Rattle.m3_tables_writer.specs.Tabulates.{Tabulates};

use crate::comparing::{missing_places, number, same_rows};
use crate::plain::{DerivedPlain, RowPlain, Way};
use byteorder::{ByteOrder, LittleEndian};
use m3_base::NoMemory;
use m3_tables::Location;
use std::alloc::Global;

#[tactic(auto, unfolding(crate::specs::Writing::word_bytes))]
fn put_word(out: &mut Vec<u8>, word: u32) -> Result<(), NoMemory>
    ensures { OnOk result (out.new.items ≡ out.old.items ++ word_bytes word) }
{
    let mut bytes = [0; 4];
    LittleEndian::write_u32(&mut bytes, word);
    out.extend_from_slice(&bytes)?;
    Ok(())
}

#[tactic(auto, unfolding(crate::specs::Writing::half_bytes))]
fn put_half(out: &mut Vec<u8>, half: u16) -> Result<(), NoMemory>
    ensures { OnOk result (out.new.items ≡ out.old.items ++ half_bytes half) }
{
    let mut bytes = [0; 2];
    LittleEndian::write_u16(&mut bytes, half);
    out.extend_from_slice(&bytes)?;
    Ok(())
}

/// The numbers of places, one after the other.
fn put_places(out: &mut Vec<u8>, places: &[Location]) -> Result<(), NoMemory>
    ensures { OnOk result (out.new.items ≡ out.old.items ++ flat_map word_bytes
        (place_numbers places.now)) }
{
    for place in places {
        put_word(out, number(*place))?;
    }
    Ok(())
}

/// A list of places behind its count.
#[tactic(auto, unfolding(crate::specs::Writing::list_bytes))]
fn put_list(out: &mut Vec<u8>, places: &[Location]) -> Result<(), NoMemory>
    requires { length (list_bytes (place_numbers places.now)) < 2 ^ 32 }
    ensures { OnOk result (out.new.items ≡ out.old.items ++ list_bytes (place_numbers places.now)) }
{
    put_word(out, places.len() as u32)?;
    put_places(out, places)
}

#[tactic(auto, unfolding(crate::specs::Writing::bases_bytes))]
fn put_way(out: &mut Vec<u8>, way: &Way) -> Result<(), NoMemory>
    requires { IsWay way.now }
    ensures { OnOk result (out.new.items ≡ out.old.items ++ bases_bytes (bases_plain way.now)) }
{
    out.push(way.added.len() as u8)?;
    out.push(way.subtracted.len() as u8)?;
    put_places(out, &way.added)?;
    put_places(out, &way.subtracted)
}

fn put_ways(out: &mut Vec<u8>, ways: &[Way]) -> Result<(), NoMemory>
    requires { AllByRecursion IsWay ways.now }
    ensures { OnOk result (out.new.items ≡ out.old.items ++ flat_map bases_bytes
        (map bases_plain ways.now)) }
{
    for way in ways {
        put_way(out, way)?;
    }
    Ok(())
}

#[tactic(auto, unfolding(crate::specs::Writing::entry_bytes))]
fn put_entry(out: &mut Vec<u8>, entry: &DerivedPlain) -> Result<(), NoMemory>
    requires { IsDerived entry.now }
    ensures { OnOk result (out.new.items ≡ out.old.items ++ entry_bytes (entry_plain entry.now)) }
{
    put_word(out, number(entry.location))?;
    let path = match entry.path {
        Some(path) => number(path),
        None => u32::MAX,
    };
    put_word(out, path)?;
    put_half(out, entry.ways.len() as u16)?;
    put_ways(out, &entry.ways)
}

fn put_entries(out: &mut Vec<u8>, entries: &[DerivedPlain]) -> Result<(), NoMemory>
    requires { AllByRecursion IsDerived entries.now }
    ensures { OnOk result (out.new.items ≡ out.old.items ++ flat_map entry_bytes
        (map entry_plain entries.now)) }
{
    for entry in entries {
        put_entry(out, entry)?;
    }
    Ok(())
}

/// All of a row but its tidy places.
#[tactic(auto, unfolding(crate::specs::Writing::contents_bytes))]
fn put_contents(out: &mut Vec<u8>, row: &RowPlain) -> Result<(), NoMemory>
    requires row { IsRow row.now }
    requires size { length (contents_bytes (contents_plain row.now)) < 2 ^ 32 }
    ensures { OnOk result (out.new.items ≡ out.old.items ++ contents_bytes
        (contents_plain row.now)) }
{
    put_list(out, &row.arguments)?;
    put_list(out, &row.passed)?;
    put_word(out, row.derived.len() as u32)?;
    put_entries(out, &row.derived)
}

#[tactic(auto, unfolding(crate::specs::Writing::ground_bytes))]
fn put_ground(out: &mut Vec<u8>, row: &RowPlain) -> Result<(), NoMemory>
    requires row { IsRow row.now }
    requires size { length (ground_bytes (plain_of row.now)) < 2 ^ 32 }
    ensures { OnOk result (out.new.items ≡ out.old.items ++ ground_bytes (plain_of row.now)) }
{
    out.push(0)?;
    put_list(out, &row.tidy)?;
    put_contents(out, row)
}

#[tactic(auto, unfolding(crate::specs::Writing::change_bytes))]
fn put_change(
    alloc: Global,
    out: &mut Vec<u8>,
    before: &RowPlain,
    row: &RowPlain,
) -> Result<(), NoMemory>
    requires before { IsRow before.now }
    requires row { IsRow row.now }
    requires size { length (change_bytes (plain_of before.now) (plain_of row.now)) < 2 ^ 32 }
    ensures { OnOk result (out.new.items ≡ out.old.items ++ change_bytes (plain_of before.now)
        (plain_of row.now)) }
{
    let removed = missing_places(alloc, &before.tidy, &row.tidy)?;
    let added = missing_places(alloc, &row.tidy, &before.tidy)?;
    out.push(1)?;
    put_list(out, &removed)?;
    put_list(out, &added)?;
    put_contents(out, row)
}

fn put_after(
    alloc: Global,
    out: &mut Vec<u8>,
    before: Option<&RowPlain>,
    row: &RowPlain,
) -> Result<(), NoMemory>
    requires before { IfSome before (λ b. IsRow b.now) }
    requires row { IsRow row.now }
    requires size { length (after_bytes (option_map (λ b. plain_of b.now) before)
        (plain_of row.now)) < 2 ^ 32 }
    ensures { OnOk result (out.new.items ≡ out.old.items ++ after_bytes
        (option_map (λ b. plain_of b.now) before.entry) (plain_of row.now)) }
{
    match before {
        None => put_ground(out, row),
        Some(before) => {
            if same_rows(before, row) {
                out.push(2)?;
                Ok(())
            } else {
                put_change(alloc, out, before, row)
            }
        }
    }
}

#[tactic(auto, unfolding(crate::specs::Writing::row_bytes))]
fn put_row(
    alloc: Global,
    out: &mut Vec<u8>,
    number: usize,
    before: Option<&RowPlain>,
    row: &RowPlain,
) -> Result<(), NoMemory>
    requires before { IfSome before (λ b. IsRow b.now) }
    requires row { IsRow row.now }
    requires size { length (row_bytes number (option_map (λ b. plain_of b.now) before)
        (plain_of row.now)) < 2 ^ 32 }
    ensures { OnOk result (out.new.items ≡ out.old.items ++ row_bytes number
        (option_map (λ b. plain_of b.now) before.entry) (plain_of row.now)) }
{
    if number % 16 == 0 {
        put_ground(out, row)
    } else {
        put_after(alloc, out, before, row)
    }
}

fn instruction(row: &RowPlain) -> u32
    ensures { result ≡ row.now.instr }
{
    row.instr
}

/// The section of the tables with these rows. Each sixteenth row tells all its tidy places, another
/// row that says the same as the one before is a single byte, and any other tells the change.
pub fn write_rows(alloc: Global, rows: &[RowPlain]) -> Result<Vec<u8>, NoMemory>
    requires form { AllByRecursion IsRow rows.now }
    requires rising { IsTrue (rises (map (λ r. r.instr) rows.now)) }
    requires size { length (table_bytes (plains_of rows.now)) ≤ 4294967295 }

    // Which form each row gets, and the bytes of it.
    ensures bytes { IfOk result (λ v. v.items ≡ table_bytes (plains_of rows.now)) }
    // What is written is read again as the same rows.
    ensures read_again { IfOk result (λ v. Tabulates v.items (plains_of rows.now)) }
{
    let mut out = Vec::new(alloc);
    let mut body = Vec::new(alloc);
    put_word(&mut out, rows.len() as u32)?;
    let mut before = None;
    for (number, row) in rows.iter().enumerate() {
        put_word(&mut out, instruction(row))?;
        put_word(&mut out, body.len() as u32)?;
        put_row(alloc, &mut body, number, before, row)?;
        before = Some(row);
    }
    out.extend_from_slice(&body)?;
    Ok(out)
}
