ghost use Rattle.std.specs.Prelude.{◌≡◌, ◌≤◌, [], ◌∷◌, map, length, IfOk, IsTrue};
ghost use Rattle.std.specs.List.{AllByRecursion};
ghost use Rattle.m3_tables.specs.Numbers.{rises};
ghost use Rattle.m3_tables_writer.specs.Plain.{tidy_plain, contents_plain, plains_of, IsRow};
ghost use Rattle.m3_tables_writer.specs.Writing.{table_bytes};
ghost use Rattle.m3_tables.specs.Rows.{nothing};

use m3_base::NoMemory;
use m3_tables::{Location, TableView};
use m3_tables_writer::{RowPlain, write_rows};
use std::alloc::Global;
use std::fmt::{Debug, Display};
use std::process::Abort;
use std::test::*;

/// What was found is what was wanted.
fn expect<T: PartialEq + Debug + Drop>(rt: &impl Abort, found: T, wanted: T, what: &impl Display) {
    assert_eq!(rt; found, wanted, "{what}");
}

/// Two rows that say nothing, at instructions 0 and 2.
const EMPTY: [u8; 54] = [
    2, 0, 0, 0, 0, 0, 0, 0, 0, 0, 0, 0, 2, 0, 0, 0, 17, 0, 0, 0, 0, 0, 0, 0, 0, 0, 0, 0, 0, 0, 0,
    0, 0, 0, 0, 0, 0, 0, 0, 0, 0, 0, 0, 0, 0, 0, 0, 0, 0, 0, 0, 0, 0, 0,
];

/// Row 0 at instruction 4: r1 and slot 0 are tidy, r2 is an argument, slot 3 is passed. r5 is
/// derived by the number in r6: r1 less r7, or slot 0; r7 is derived from slot 3. Row 1 at
/// instruction 9 takes r1 away and brings r3, and has r4 derived from r3.
const RICH: [u8; 140] = [
    2, 0, 0, 0, 4, 0, 0, 0, 0, 0, 0, 0, 9, 0, 0, 0, 75, 0, 0, 0, // the directory
    0, 2, 0, 0, 0, 1, 0, 0, 0, 16, 0, 0, 0, // tidy, from 20 on
    1, 0, 0, 0, 2, 0, 0, 0, 1, 0, 0, 0, 19, 0, 0, 0, // arguments and passed
    2, 0, 0, 0, 5, 0, 0, 0, 6, 0, 0, 0, 2, 0, // r5, by r6, of two ways
    1, 1, 1, 0, 0, 0, 7, 0, 0, 0, 1, 0, 16, 0, 0, 0, // r1 less r7, and slot 0
    7, 0, 0, 0, 255, 255, 255, 255, 1, 0, 1, 0, 19, 0, 0, 0, // r7 is slot 3
    1, 1, 0, 0, 0, 1, 0, 0, 0, 1, 0, 0, 0, 3, 0, 0, 0, // the change, from 95 on
    0, 0, 0, 0, 0, 0, 0, 0, 1, 0, 0, 0, 4, 0, 0, 0, 255, 255, 255, 255, 1, 0, 1, 0, 3, 0, 0, 0,
];

/// A place, the byte that is put there, and the number of the row that is refused.
type Change = (usize, u8, u32);

static OF_EMPTY: [Change; 7] = [
    (0, 1, 0),
    (12, 0, 1),
    (16, 18, 1),
    (20, 1, 0),
    (20, 2, 0),
    (37, 1, 1),
    (37, 3, 1),
];

#[test]
fn rows_without_anything(rt: HostRuntime) {
    let Ok(table) = TableView::read(&EMPTY) else {
        panic!(rt; "two rows");
    };
    expect(
        &rt,
        (table.len(), table.is_empty()),
        (2, false),
        &"two rows",
    );
    assert!(rt; table.at(1).is_some_and(|row| row.spares_registers()) && table.at(2).is_none());
    assert!(rt; table.row(0).is_some() && table.row(1).is_none() && table.row(2).is_some());
    for length in 0..54 {
        let want = match length {
            0..=3 => 0,
            4..=19 => 2,
            20..=36 => 0,
            _ => 1,
        };
        expect(
            &rt,
            TableView::read(&EMPTY[..length]).err(),
            Some(want),
            &length,
        );
    }
    for (row, (at, value, want)) in OF_EMPTY.iter().enumerate() {
        let mut bytes = EMPTY;
        if let Some(byte) = bytes.get_mut(*at) {
            *byte = *value;
        }
        expect(&rt, TableView::read(&bytes).err(), Some(*want), &row);
    }
}
/// Places, and whether they are tidy in the first row and in the second.
static TIDY: [(Location, bool, bool); 5] = [
    (Location::Register(1), true, false),
    (Location::Slot(0), true, true),
    (Location::Register(3), false, true),
    (Location::Slot(3), false, false),
    (Location::Register(16), false, false),
];

#[test]
fn what_rows_say(rt: HostRuntime) {
    let Ok(table) = TableView::read(&RICH) else {
        panic!(rt; "two rows");
    };
    let (Some(first), Some(second)) = (table.row(4), table.row(9)) else {
        panic!(rt; "rows at 4 and 9");
    };
    assert!(rt; first.is_within(4) && !first.is_within(3) && !first.spares_registers());
    assert!(rt; second.is_within(1) && !second.is_within(0) && second.instruction() == 9);
    let listed = (
        TableView::listed_instruction(&RICH, 1),
        TableView::listed_instruction(&RICH, 2),
    );
    expect(&rt, listed, (Some(9), None), &"listed instructions");
    for (row, (place, at_first, at_second)) in TIDY.iter().enumerate() {
        let found = (first.tidy(*place), second.tidy(*place));
        expect(&rt, found, (*at_first, *at_second), &row);
    }
    let r = Location::Register;
    let slot = Location::Slot;
    assert!(rt; first.argument(r(2)) && !first.argument(r(1)) && !second.argument(r(2)));
    assert!(rt; first.passed(slot(3)) && !first.passed(r(2)) && !second.passed(slot(3)));
}

/// Ways, whether a base is added, its number in the way, and the base.
static BASES: [(u16, bool, u8, Option<Location>); 6] = [
    (0, true, 0, Some(Location::Register(1))),
    (0, true, 1, None),
    (0, false, 0, Some(Location::Register(7))),
    (1, true, 0, Some(Location::Slot(0))),
    (1, false, 0, None),
    (2, true, 0, None),
];

#[test]
fn derived_words(rt: HostRuntime) {
    let Ok(table) = TableView::read(&RICH) else {
        panic!(rt; "two rows");
    };
    let (Some(first), Some(second)) = (table.row(4), table.row(9)) else {
        panic!(rt; "rows at 4 and 9");
    };
    let (Some(split), Some(plain)) = (first.derived(0), first.derived(1)) else {
        panic!(rt; "two derived words");
    };
    assert!(rt; first.derived(2).is_none() && second.derived(1).is_none());
    let found = (split.location(), split.path(), split.ways());
    let path = Some(Location::Register(6));
    expect(&rt, found, (Location::Register(5), path, 2), &"r5");
    let found = (plain.location(), plain.path(), plain.ways());
    expect(&rt, found, (Location::Register(7), None, 1), &"r7");
    for (row, (way, added, n, want)) in BASES.iter().enumerate() {
        expect(&rt, split.base(*way, *added, *n), *want, &row);
    }
}

/// Changes of the rich table, with what they make of it.
static OF_RICH: [(Change, &str); 15] = [
    ((20, 1, 0), "a change without a row before"),
    ((29, 1, 0), "tidy places that don't rise"),
    ((37, 1, 0), "an argument that is tidy"),
    ((45, 2, 0), "a formal that is an argument"),
    ((53, 16, 0), "a derived word at a tidy place"),
    ((57, 7, 0), "a path at a derived word"),
    ((57, 2, 0), "a path at an argument"),
    ((79, 5, 0), "two derived words at one place"),
    ((87, 2, 0), "two ways without a path"),
    ((69, 8, 0), "a base that isn't there"),
    ((91, 7, 0), "a base that is the word itself"),
    ((95, 0, 2), "bytes after the last row"),
    ((100, 2, 1), "a change that removes what isn't there"),
    ((108, 16, 1), "a change that adds what is there"),
    ((136, 1, 1), "a base that is no longer there"),
];

#[test]
fn bad_rows(rt: HostRuntime) {
    for ((at, value, want), what) in &OF_RICH {
        let mut bytes = RICH;
        if let Some(byte) = bytes.get_mut(*at) {
            *byte = *value;
        }
        expect(&rt, TableView::read(&bytes).err(), Some(*want), what);
        assert!(rt;
            matches!(TableView::front(&bytes), Ok(front)
                if front.rows.len() == *want && front.fault == Some(*want)),
            "{what}"
        );
    }
}

/// A row at an instruction, with r3 and slot 2 tidy.
fn row_at(alloc: Global, instr: u32) -> Result<RowPlain, NoMemory>
    ensures form { IfOk result IsRow }
    ensures instr { IfOk result (λ row. row.instr ≡ instr) }
    ensures tidy { IfOk result (λ row. tidy_plain row ≡ 3 ∷ 18 ∷ []) }
    ensures rest { IfOk result (λ row. contents_plain row ≡ nothing) }
{
    Ok(RowPlain {
        instr,
        tidy: Vec::from_slice(alloc, &[Location::Register(3), Location::Slot(2)])?,
        arguments: Vec::new(alloc),
        passed: Vec::new(alloc),
        derived: Vec::new(alloc),
    })
}

/// Rows at the instructions 0, 2 and so on.
fn forty_rows(alloc: Global) -> Result<Vec<RowPlain>, NoMemory>
    ensures form { IfOk result (λ rows. AllByRecursion IsRow rows.items) }
    ensures rising { IfOk result (λ rows. IsTrue (rises (map (λ r. r.instr) rows.items))) }
    ensures size { IfOk result (λ rows. length (table_bytes (plains_of rows.items)) ≤ 4294967295) }
{
    let mut rows = Vec::new(alloc);
    for n in 0..40 {
        rows.push(row_at(alloc, 2 * n)?)?;
    }
    Ok(rows)
}

#[test]
fn forty_equal_rows(rt: HostRuntime) {
    let Ok(rows) = forty_rows(rt.alloc()) else {
        panic!(rt; "memory");
    };
    let Ok(bytes) = write_rows(rt.alloc(), &rows) else {
        panic!(rt; "memory");
    };
    // A count, forty pairs of four bytes each, three rows of 25 bytes and 37 of one.
    expect(&rt, bytes.len(), 436, &"how many bytes");
    for n in 0..40 {
        let start = 324 + n + 24 * ((n + 15) / 16);
        let kind = if n % 16 == 0 { 0 } else { 2 };
        expect(&rt, bytes.get(start).copied(), Some(kind), &n);
    }
    check_forty(&rt, &bytes);
}

/// The rows say what they are made of.
fn check_forty(rt: &impl Abort, bytes: &[u8]) {
    let Ok(table) = TableView::read(bytes) else {
        panic!(rt; "read again");
    };
    expect(rt, table.len(), 40, &"how many rows");
    for n in 0..40 {
        let Some(row) = table.row(2 * n) else {
            panic!(rt; "a row");
        };
        assert!(rt; row.tidy(Location::Register(3)) && row.tidy(Location::Slot(2)));
        assert!(rt; !row.tidy(Location::Register(2)) && row.derived(0).is_none());
        assert!(rt; table.row(2 * n + 1).is_none());
    }
}
