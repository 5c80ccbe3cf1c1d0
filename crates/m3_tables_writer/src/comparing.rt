//! Whether two rows are the same, and which places one has and the other lacks.
ghost use Rattle.std.specs.Prelude.{◌≡◌, ◌==◌, length, map, nat_eq, IfOk, IsTrue};
ghost use Rattle.std.specs.Cmp.Lexicographic.{pointwise};
ghost use Rattle.m3_tables.specs.Numbers.{rises, has};
ghost use Rattle.m3_tables_writer.specs.Plain.{place_number, place_numbers, bases_plain};
ghost use Rattle.m3_tables_writer.specs.Plain.{entry_plain, plain_of};
ghost use Rattle.m3_tables_writer.specs.Writing.{missing, same_bases, same_path, same_entry};
ghost use Rattle.m3_tables_writer.specs.Writing.{same_row};

use crate::plain::{DerivedPlain, RowPlain, Way};
use m3_base::NoMemory;
use m3_tables::Location;
use std::alloc::Global;

/// The number of a place, or 0 where it has none.
pub(crate) fn number(place: Location) -> u32
    ensures { result ≡ place_number place }
{
    place.number().unwrap_or(0)
}

fn same_places(a: &[Location], b: &[Location]) -> bool
    ensures { result ≡ pointwise nat_eq (place_numbers a.now) (place_numbers b.now) }
{
    let mut a = a;
    let mut b = b;
    loop {
        match (a, b) {
            ([], []) => return true,
            ([x, xs @ ..], [y, ys @ ..]) => {
                if number(*x) != number(*y) {
                    return false;
                }
                a = xs;
                b = ys;
            }
            _ => return false,
        }
    }
}

fn same_ways(a: &[Way], b: &[Way]) -> bool
    ensures { result ≡ pointwise same_bases (map bases_plain a.now) (map bases_plain b.now) }
{
    let mut a = a;
    let mut b = b;
    loop {
        match (a, b) {
            ([], []) => return true,
            ([x, xs @ ..], [y, ys @ ..]) => {
                if !same_places(&x.added, &y.added) || !same_places(&x.subtracted, &y.subtracted) {
                    return false;
                }
                a = xs;
                b = ys;
            }
            _ => return false,
        }
    }
}

fn same_paths(a: &DerivedPlain, b: &DerivedPlain) -> bool
    ensures { result ≡ same_path (entry_plain a.now).path (entry_plain b.now).path }
{
    match (a.path, b.path) {
        (None, None) => true,
        (Some(p), Some(q)) => number(p) == number(q),
        _ => false,
    }
}

fn same_entries(a: &[DerivedPlain], b: &[DerivedPlain]) -> bool
    ensures { result ≡ pointwise same_entry (map entry_plain a.now) (map entry_plain b.now) }
{
    let mut a = a;
    let mut b = b;
    loop {
        match (a, b) {
            ([], []) => return true,
            ([x, xs @ ..], [y, ys @ ..]) => {
                if number(x.location) != number(y.location)
                    || !same_paths(x, y)
                    || !same_ways(&x.ways, &y.ways)
                {
                    return false;
                }
                a = xs;
                b = ys;
            }
            _ => return false,
        }
    }
}

/// Whether two rows say the same of all places.
pub(crate) fn same_rows(a: &RowPlain, b: &RowPlain) -> bool
    ensures { result ≡ same_row (plain_of a.now) (plain_of b.now) }
{
    same_places(&a.tidy, &b.tidy)
        && same_places(&a.arguments, &b.arguments)
        && same_places(&a.passed, &b.passed)
        && same_entries(&a.derived, &b.derived)
}

/// Whether a number is that of a place in a list that rises.
fn has_number(places: &[Location], wanted: u32) -> bool
    requires { IsTrue (rises (place_numbers places.now)) }
    ensures { result ≡ has (place_numbers places.now) wanted }
{
    let mut low = 0;
    let mut high = places.len();
    while low < high {
        let middle = low + (high - low) / 2;
        let found = number(places[middle]);
        if found == wanted {
            return true;
        }
        if found < wanted {
            low = middle + 1;
        } else {
            high = middle;
        }
    }
    false
}

/// Those of some places that aren't among others, which rise.
pub(crate) fn missing_places(
    alloc: Global,
    places: &[Location],
    others: &[Location],
) -> Result<Vec<Location>, NoMemory>
    requires { IsTrue (rises (place_numbers others.now)) }
    ensures { IfOk result (λ v. place_numbers v.items
        ≡ missing (place_numbers places.now) (place_numbers others.now)) }
{
    let mut found = Vec::new(alloc);
    for place in places {
        if !has_number(others, number(*place)) {
            found.push(*place)?;
        }
    }
    Ok(found)
}
