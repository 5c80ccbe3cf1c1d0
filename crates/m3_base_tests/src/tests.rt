use m3_base::{
    Bytes, Entry, FaultKind, NoMemory, ScheduleRefusal, fault_name, gap, read_schedule, rule_text,
};
use std::fmt::{Debug, Display};
use std::process::Abort;
use std::test::Fail;

/// What was found is what was wanted.
fn expect<T: PartialEq + Debug + Drop>(rt: &impl Abort, found: T, wanted: T, what: &impl Display) {
    assert_eq!(rt; found, wanted, "{what}");
}

static RULES: [(u16, Option<&str>); 7] = [
    (1, Some("bad byte")),
    (18, Some("too many tokens in all")),
    (19, None),
    (51, Some("not assignable")),
    (69, None),
    (95, Some("program too large")),
    (99, None),
];

#[test]
fn names_rules_and_faults(rt: HostRuntime) {
    for (rule, text) in &RULES {
        expect(&rt, rule_text(*rule), *text, rule);
    }
    let fault = (
        fault_name(FaultKind::NestedProc),
        FaultKind::JoinTwice.number(),
    );
    expect(&rt, fault, ("NestedProc", 15), &"faults");
    expect(&rt, gap(), NoMemory, &"a gap");
}

#[test]
fn copies_bytes(rt: HostRuntime) -> Result<(), Fail> {
    let bytes = Bytes::of(rt.alloc(), b"abc")?;
    expect(&rt, bytes.as_slice(), b"abc", &"bytes");
    Ok(())
}

/// Texts with their entries.
static TEXTS: [(&[u8], &[Entry]); 3] = [
    (
        b"-\ng\n0\n7 g\n18446744073709551615\n10 g",
        &[
            Entry {
                to: None,
                collect: false,
            },
            Entry {
                to: None,
                collect: true,
            },
            Entry {
                to: Some(0),
                collect: false,
            },
            Entry {
                to: Some(7),
                collect: true,
            },
            Entry {
                to: Some(18446744073709551615),
                collect: false,
            },
            Entry {
                to: Some(10),
                collect: true,
            },
        ],
    ),
    (b"", &[]),
    (
        b"-\n",
        &[Entry {
            to: None,
            collect: false,
        }],
    ),
];

#[test]
fn reads_entries(rt: HostRuntime) -> Result<(), Fail> {
    for (row, (text, wanted)) in TEXTS.iter().enumerate() {
        let found = read_schedule(rt.alloc(), text)?;
        expect(&rt, found.as_slice(), *wanted, &row);
    }
    Ok(())
}

/// Texts with the number of their first bad line.
static BAD_LINES: [(&[u8], u32); 15] = [
    (b"\n", 1),
    (b"-\n\n-\n", 2),
    (b" g", 1),
    (b"00", 1),
    (b"1\n01\nx", 2),
    (b"1  g", 1),
    (b"1 g ", 1),
    (b"g g", 1),
    (b"- g", 1),
    (b"+1", 1),
    (b"-1", 1),
    (b"--", 1),
    (b"-\n-\r\n-", 2),
    (b"18446744073709551615\n18446744073709551616\n", 2),
    (b"99999999999999999999999999999999999999999x", 1),
];

#[test]
fn refuses_the_first_bad_line(rt: HostRuntime) {
    for (row, (text, line)) in BAD_LINES.iter().enumerate() {
        let found = read_schedule(rt.alloc(), text).err();
        expect(&rt, found, Some(ScheduleRefusal::BadLine(*line)), &row);
    }
}

/// So many lines of `-`, and then a line.
fn long_text(rt: &HostRuntime, lines: u32, last: &[u8]) -> Result<Vec<u8>, Fail> {
    let mut text = Vec::new(rt.alloc());
    for _ in 0..lines {
        text.extend_from_slice(b"-\n")?;
    }
    text.extend_from_slice(last)?;
    Ok(text)
}

/// So many lines, a last one, and the refusal.
static LONG_TEXTS: [(u32, &[u8], ScheduleRefusal); 4] = [
    (1_000_000, b"-", ScheduleRefusal::TooMany),
    (1_000_000, b"x\nx", ScheduleRefusal::TooMany),
    (1_000_000, b"\n", ScheduleRefusal::TooMany),
    (999_999, b"x\n-\n", ScheduleRefusal::BadLine(1_000_000)),
];

#[test]
fn a_million_lines(rt: HostRuntime) -> Result<(), Fail> {
    let most = long_text(&rt, 999_999, b"5 g")?;
    let entries = read_schedule(rt.alloc(), &most)?;
    let found = (entries.len(), entries.as_slice().last().copied());
    expect(
        &rt,
        found,
        (
            1_000_000,
            Some(Entry {
                to: Some(5),
                collect: true,
            }),
        ),
        &"a million",
    );
    for (row, (lines, last, wanted)) in LONG_TEXTS.iter().enumerate() {
        let text = long_text(&rt, *lines, last)?;
        let found = read_schedule(rt.alloc(), &text).err();
        expect(&rt, found, Some(*wanted), &row);
    }
    Ok(())
}

static REFUSALS: [(ScheduleRefusal, &str); 3] = [
    (ScheduleRefusal::BadLine(17), "line 17"),
    (ScheduleRefusal::TooMany, "too many"),
    (ScheduleRefusal::NoMemory, "out of memory"),
];

#[test]
fn prints_refusals(rt: HostRuntime) -> Result<(), Fail> {
    for (refusal, text) in &REFUSALS {
        let printed = format!(in rt.alloc(); "{refusal}")?;
        expect(&rt, printed.as_str(), *text, refusal);
    }
    Ok(())
}
