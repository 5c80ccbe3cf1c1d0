//! The ranges of options, and the numbers in them.
ghost use Rattle.std.specs.Prelude.{◌≡◌, ◌≤◌, ◌==◌, IfSome, option_and_then, slice_index};
ghost use Rattle.std.specs.Option.{option_map};
ghost use Rattle.clap.specs.Walk.{first_of};
ghost use Rattle.m3c_words.specs.Orders.{bounds_of};
ghost use Rattle.m3c_words.specs.Asked.{at_in, bounds_by, limit_of, number_of, points_in};
ghost use Rattle.m3c_words.specs.Asked.{rows_in, within};

use crate::limits::Limits;
use clap::ArgMatches;

/// The smallest value of an option, its largest, and the one that it has where it isn't given.
#[derive(Clone, Copy)]
struct Range {
    least: u64,
    most: u64,
    usual: u64,
}

const POINTS: Range = Range {
    least: 0,
    most: 9_223_372_036_854_775_807,
    usual: 1_000_000_000,
};

const HEAP: Range = Range {
    least: 64,
    most: 67_108_864,
    usual: 1_048_576,
};

const STACK: Range = Range {
    least: 1_024,
    most: 1_048_576,
    usual: 65_536,
};

const THREADS: Range = Range {
    least: 1,
    most: 64,
    usual: 8,
};

/// Whether a word begins with a plus sign.
fn has_plus(word: &str) -> bool
    ensures { result ≡ (slice_index word.now 0 == 43) }
{
    matches!(word.as_bytes(), [b'+', ..])
}

/// The number that decimal digits say. None exactly where they are none, or another byte is among
/// them, or the number is past 64 bits.
pub fn number_in(word: &str) -> Option<u64>
    ensures { result ≡ number_of word.now }
{
    // `parse` takes a sign.
    if has_plus(word) {
        return None;
    }
    word.parse().ok()
}

/// The number that decimal digits say. None exactly where they say none in the range.
fn number_within(digits: &str, range: Range) -> Option<u64>
    ensures value { result ≡ option_and_then (within range.least range.most)
        (number_of digits.now) }
    ensures within { IfSome result (λ n. (range.least ≤ n) × (n ≤ range.most)) }
{
    let value = number_in(digits)?;
    if range.least <= value && value <= range.most {
        Some(value)
    } else {
        None
    }
}

/// The value of an option. None exactly where it is given and no number in its range.
#[tactic(auto, using(crate::proofs::Found::first_in_rows))]
fn value_of(matches: &ArgMatches<'_>, name: &str, range: Range) -> Option<u64>
    requires usual { (range.least ≤ range.usual) × (range.usual ≤ range.most) }
    ensures value { result ≡ limit_of range.least range.most range.usual
        (first_of name.now (rows_in matches.now)) }
    ensures within { IfSome result (λ n. (range.least ≤ n) × (n ≤ range.most)) }
{
    match matches.get_str(name) {
        Some(digits) => number_within(digits, range),
        None => Some(range.usual),
    }
}

/// The points that a run may pass. None exactly where the option says no number in its range.
pub fn points_of(matches: &ArgMatches<'_>) -> Option<u64>
    ensures value { result ≡ points_in (rows_in matches.now) }
    ensures within { IfSome result (λ n. n ≤ 9223372036854775807) }
{
    value_of(matches, "points", POINTS)
}

/// The points after which a run is looked at. None exactly where no option says them by a number in
/// their range.
#[tactic(auto, using(crate::proofs::Found::first_in_rows))]
pub fn at_of(matches: &ArgMatches<'_>) -> Option<u64>
    ensures value { result ≡ at_in (rows_in matches.now) }
    ensures within { IfSome result (λ n. n ≤ 9223372036854775807) }
{
    number_within(matches.get_str("at")?, POINTS)
}

/// The limits that options give a run of so many points. None exactly where one of them is no
/// number in its range.
#[tactic(auto, using(crate::proofs::Found::first_in_rows))]
pub fn limits_of(matches: &ArgMatches<'_>, points: u64) -> Option<Limits>
    requires { points ≤ 9223372036854775807 }
    ensures { option_map bounds_of result ≡ bounds_by points (rows_in matches.now) }
{
    let heap = value_of(matches, "heap", HEAP)?;
    let stack = value_of(matches, "stack", STACK)?;
    let threads = value_of(matches, "threads", THREADS)?;
    Some(Limits {
        points,
        heap,
        stack,
        threads: threads as u32,
        young: matches.get_str("young").is_some(),
    })
}
