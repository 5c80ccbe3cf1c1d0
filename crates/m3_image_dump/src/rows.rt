//! The rows of points.
ghost use Rattle.std.specs.Prelude.{◌≡◌, ◌++◌, OnOk, IfOk};
ghost use Rattle.std.specs.List.{flat_map};
ghost use Rattle.m3_tables.specs.Views.{entry_of, bases_of, numbers_of};
ghost use Rattle.m3_tables.specs.Tables.{section_of_row, number_of_row};
ghost use Rattle.m3_tables.specs.Sections.{contents_in};
ghost use Rattle.m3_image_decoded.specs.Ready.{image_of};
ghost use Rattle.m3_image_dump.specs.Texts.{place_text, place_word, way_text, ways_text, path_text};
ghost use Rattle.m3_image_dump.specs.Texts.{entry_word, row_line, InOrder, Adds, RowText};

use crate::words::{put, put_place, put_place_word, put_places};
use m3_base::NoMemory;
use m3_image_decoded::Decoded;
use m3_tables::{Derivation, Numbers, Row, WayView};
use std::alloc::Global;

/// The line of an instruction's row, where it has one.
pub(crate) fn put_row_at(
    alloc: Global,
    text: &mut Vec<u8>,
    image: &Decoded<'_>,
    pc: u32,
) -> Result<(), NoMemory>
    ensures { OnOk result (Adds (RowText (image_of image.now).program.tables pc) text.old.items
        text.new.items) }
{
    let Some(row) = image.row(pc) else {
        return Ok(());
    };
    let Some(places) = image.tidy_places(row.number()) else {
        return Ok(());
    };
    let tidy = in_order(alloc, places)?;
    put_row(text, &tidy, &row)
}

/// Places in rising order.
fn in_order(alloc: Global, places: &[u32]) -> Result<Vec<u32>, NoMemory>
    ensures { IfOk result (λ v. InOrder places.now v.items) }
{
    let mut rising = Vec::from_slice(alloc, places)?;
    rising.sort()?;
    Ok(rising)
}

fn put_row(text: &mut Vec<u8>, tidy: &[u32], row: &Row<'_>) -> Result<(), NoMemory>
    ensures { OnOk result (text.new.items ≡ text.old.items ++ row_line tidy.now
        (contents_in (section_of_row row.now) (number_of_row row.now))) }
{
    put(text, b"point T")?;
    put_tidy(text, tidy)?;
    put(text, b" A")?;
    put_places(text, row.argument_places())?;
    put(text, b" R")?;
    put_places(text, row.passed_places())?;
    put(text, b" D")?;
    put_entries(text, row)?;
    put(text, b"\n")
}

fn put_tidy(text: &mut Vec<u8>, tidy: &[u32]) -> Result<(), NoMemory>
    ensures { OnOk result (text.new.items ≡ text.old.items ++ flat_map place_word tidy.now) }
{
    'tidy: for place in tidy {
        put_place_word(text, *place)?;
    }
    Ok(())
}

/// The derived words of a row.
fn put_entries(text: &mut Vec<u8>, row: &Row<'_>) -> Result<(), NoMemory>
    ensures { OnOk result (text.new.items ≡ text.old.items ++ flat_map entry_word
        (contents_in (section_of_row row.now) (number_of_row row.now)).derived) }
{
    'entries: for entry in row.derivations() {
        put_entry(text, &entry)?;
    }
    Ok(())
}

/// A derived word: its place, the place of the number that picks its way, and its ways.
fn put_entry(text: &mut Vec<u8>, entry: &Derivation<'_>) -> Result<(), NoMemory>
    ensures { OnOk result (text.new.items ≡ text.old.items ++ entry_word (entry_of entry.now)) }
{
    put_place_word(text, entry.place_number())?;
    put_path(text, entry.path_number())?;
    put(text, b"=")?;
    put_ways(text, entry)
}

fn put_path(text: &mut Vec<u8>, path: Option<u32>) -> Result<(), NoMemory>
    ensures { OnOk result (text.new.items ≡ text.old.items ++ path_text path) }
{
    let Some(place) = path else {
        return Ok(());
    };
    put(text, b"?")?;
    put_place(text, place)
}

/// The first way, and then each other way behind a bar.
fn put_ways(text: &mut Vec<u8>, entry: &Derivation<'_>) -> Result<(), NoMemory>
    ensures { OnOk result (text.new.items ≡ text.old.items ++ ways_text (entry_of entry.now).ways) }
{
    let mut ways = entry.every_way();
    let Some(first) = ways.next() else {
        return Ok(());
    };
    put_way(text, &first)?;
    'ways: for way in ways {
        put(text, b"|")?;
        put_way(text, &way)?;
    }
    Ok(())
}

/// The bases of a way, each behind its sign.
fn put_way(text: &mut Vec<u8>, way: &WayView<'_>) -> Result<(), NoMemory>
    ensures { OnOk result (text.new.items ≡ text.old.items ++ way_text (bases_of way.now)) }
{
    put_bases(text, b"+", way.added)?;
    put_bases(text, b"-", way.subtracted)
}

fn put_bases(text: &mut Vec<u8>, sign: &[u8], bases: Numbers<'_>) -> Result<(), NoMemory>
    ensures { OnOk result (text.new.items ≡ text.old.items ++ flat_map
        (λ l. sign.now ++ place_text l) (numbers_of bases.entry)) }
{
    'bases: for base in bases {
        put(text, sign)?;
        put_place(text, base)?;
    }
    Ok(())
}
