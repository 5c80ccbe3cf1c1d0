use crate::commands::answers::{NO_FAILURE, answer_of, shelf_with, text_of};
use m3_test_tables::Tally;
use std::alloc::Global;
use std::io;

/// A sum over an array, whose reference is live over the ends of both loops.
const SUM: &[u8] = b"MODULE Main; IMPORT IO;
TYPE A = REF ARRAY [1000000..1000009] OF INTEGER;
PROCEDURE Sum(): INTEGER =
  VAR a := NEW(A); s: INTEGER := 0;
  BEGIN
    FOR i := 1000000 TO 1000009 DO a[i] := i - 999999 END;
    FOR i := FIRST(a^) TO LAST(a^) DO INC(s, a[i]) END;
    RETURN s
  END Sum;
BEGIN IO.PutInt(Sum()) END Main.";

/// One call passes an element of either of two arrays by reference.
const ARMS: &[u8] = b"MODULE Main; IMPORT IO;
TYPE A = REF ARRAY [0..3] OF INTEGER;
VAR a := NEW(A); b := NEW(A);
PROCEDURE P(VAR x: INTEGER) =
  VAR d := NEW(A); BEGIN d[0] := 1; INC(x, d[0]) END P;
PROCEDURE Q(c: BOOLEAN) =
  VAR i := 2; BEGIN IF c THEN P(a[i]) ELSE P(b[i]) END END Q;
BEGIN
  Q(TRUE); Q(FALSE); Q(FALSE);
  IO.PutInt(a[2]); IO.PutChar(' '); IO.PutInt(b[2])
END Main.";

/// A product of two arrays, elements of which are as wide.
const DOT: &[u8] = b"MODULE Main; IMPORT IO;
TYPE A = REF ARRAY [1..5] OF INTEGER;
PROCEDURE Dot(): INTEGER =
  VAR a := NEW(A); b := NEW(A); s: INTEGER := 0;
  BEGIN
    FOR i := 1 TO 5 DO a[i] := i; b[i] := 2 * i END;
    FOR i := 1 TO 5 DO INC(s, a[i] * b[i]) END;
    RETURN s
  END Dot;
BEGIN IO.PutInt(Dot()) END Main.";

/// Two fields of one element, and fields of elements of two arrays.
const FIELDS: &[u8] = b"MODULE Main;
TYPE A = REF ARRAY OF RECORD x, y, z: INTEGER END;
PROCEDURE S(a, b: A; i: INTEGER): INTEGER = BEGIN RETURN a[i].x + a[i].y END S;
PROCEDURE T(a, b: A; i: INTEGER): INTEGER = BEGIN RETURN a[i].x + b[i].y END T;
BEGIN EVAL S(NIL, NIL, 0) + T(NIL, NIL, 0) END Main.";

/// Tries what `dump` shows of the code that is built.
pub fn try_dumps(rt: &(impl Print + AllocGlobal)) -> io::Result<()> {
    let mut tally = Tally::new();
    let dump = dumped(rt.alloc(), SUM)?;
    let rows = turns(rt.alloc(), dump.as_str(), "proc 2 ")?;
    let is_right = rows.iter().any(|row| row.split_once(" r").is_some());
    tally.count(
        rt,
        "a reference in a register at the end of a turn",
        is_right,
    )?;
    let is_right = rows.iter().any(|row| moves_along(row));
    tally.count(rt, "an address that moves along", is_right)?;
    let rows = turns(rt.alloc(), dump.as_str(), "proc 0 ")?;
    tally.count(rt, "no turn where no loop is", rows.is_empty())?;
    let dump = dumped(rt.alloc(), DOT)?;
    let rows = turns(rt.alloc(), dump.as_str(), "proc 2 ")?;
    let is_right = rows.len() == 2 && rows.iter().all(|row| has_two_bases(row));
    tally.count(rt, "a difference of two references in both loops", is_right)?;
    let dump = dumped(rt.alloc(), ARMS)?;
    let is_right = has_two_ways(dump.as_str(), "proc 3 ");
    tally.count(rt, "one call for both arms, with two origins", is_right)?;
    let dump = dumped(rt.alloc(), FIELDS)?;
    let is_right = length_of(dump.as_str(), "proc 2 ") < length_of(dump.as_str(), "proc 3 ");
    tally.count(rt, "one address for two fields", is_right)?;
    tally.sum_up(rt, "dumps")
}

/// What `dump` shows of the image of a program.
fn dumped(alloc: Global, text: &[u8]) -> io::Result<String> {
    let mut shelf = shelf_with(alloc, "Main.m3", text)?;
    answer_of(alloc, "build a.img Main.m3", &mut shelf, NO_FAILURE)?;
    let answer = answer_of(alloc, "dump a.img", &mut shelf, NO_FAILURE)?;
    Ok(text_of(alloc, answer.out.bytes())?)
}

/// Whether a row lists a derived word with a base that is added.
fn moves_along(row: &str) -> bool {
    match row.split_once(" D ") {
        Some((_, derived)) => derived.split_once("=+").is_some(),
        None => false,
    }
}

/// Whether a row has an entry with one base that is added and one that is taken away.
fn has_two_bases(row: &str) -> bool {
    row.split(' ').any(|entry| match entry.split_once("=+") {
        Some((_, bases)) => bases.split_once("-").is_some() && bases.split_once("+").is_none(),
        None => false,
    })
}

/// The rows of the POINTs of a procedure, by the lines of a dump from the procedure's own on.
fn turns<'d>(alloc: Global, dump: &'d str, head: &str) -> io::Result<Vec<&'d str>> {
    let mut rows = Vec::new(alloc);
    let mut is_inside = false;
    let mut is_behind_point = false;
    for line in dump.lines() {
        if line.starts_with("proc ") {
            is_inside = line.starts_with(head);
        }
        if is_inside && is_behind_point && line.starts_with("point ") {
            rows.push(line)?;
        }
        is_behind_point = line.split(' ').nth(1) == Some("POINT");
    }
    Ok(rows)
}

/// Whether a row of a procedure has an entry with two ways, told apart by a path variable.
fn has_two_ways(dump: &str, head: &str) -> bool {
    let mut is_inside = false;
    for line in dump.lines() {
        if line.starts_with("proc ") {
            is_inside = line.starts_with(head);
        }
        let is_row = is_inside && line.starts_with("point ");
        if is_row && line.split(' ').any(is_entry_of_two_ways) {
            return true;
        }
    }
    false
}

fn is_entry_of_two_ways(entry: &str) -> bool {
    match entry.split_once("?") {
        Some((_, ways)) => ways.split_once("|").is_some(),
        None => false,
    }
}

/// How many lines of a dump a procedure has.
fn length_of(dump: &str, head: &str) -> usize {
    let mut is_inside = false;
    let mut length = 0usize;
    for line in dump.lines() {
        if line.starts_with("proc ") {
            is_inside = line.starts_with(head);
        }
        if is_inside {
            length = length.saturating_add(1);
        }
    }
    length
}
