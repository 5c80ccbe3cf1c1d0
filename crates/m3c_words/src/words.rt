//! The commands and their words.
ghost use Rattle.std.specs.Prelude.{◌≡◌, ◌≤◌, ◌↔◌, ◌&&◌, IfOk, IsTrue, length, map, nat_le};
ghost use Rattle.std.specs.List.{list_all};
ghost use Rattle.std.specs.Option.{option_map};
ghost use Rattle.clap.specs.Walk.{first_of};
ghost use Rattle.clap.specs.Values.{kind_of};
ghost use Rattle.m3c_words.specs.Orders.{name_of, options_of, order_of};
ghost use Rattle.m3c_words.specs.Asked.{asked, bench_in, build_in, dump_in, exec_in, run_in};
ghost use Rattle.m3c_words.specs.Asked.{files_in, given_name, is_named, most_files, word_in};
ghost use Rattle.m3c_words.specs.Asked.{inspect_in, options_at, options_by, options_in};
ghost use Rattle.m3c_words.specs.Asked.{order_in, rows_in};

use crate::grammar::whole_command;
use crate::limits::Limits;
use crate::ranges::{at_of, limits_of, number_in, points_of};
use clap::error::ErrorKind;
use clap::{ArgMatches, Error};
use m3_base::NoMemory;
use std::alloc::Global;

/// The most FILE words of a command.
pub const MOST_FILES: usize = 256;

/// What the words ask for.
#[derive(Drop)]
pub enum Request<'a> {
    Build {
        image: &'a str,
        files: Vec<&'a str>,
    },
    Run {
        image: &'a str,
        options: RunOptions<'a>,
    },
    Exec {
        files: Vec<&'a str>,
        options: RunOptions<'a>,
    },
    Dump {
        image: &'a str,
    },
    Bench {
        number: u64,
    },
    /// The points of the options are those after which the image is looked at.
    Inspect {
        image: &'a str,
        options: RunOptions<'a>,
    },
}

/// The options of a run: the files of switches and of input where they are named, and the limits.
#[derive(Clone, Copy)]
pub struct RunOptions<'a> {
    pub switches: Option<&'a str>,
    pub input: Option<&'a str>,
    pub limits: Limits,
}

/// The name that an option gives, if it is given. None exactly where the name is empty.
#[tactic(auto, using(crate::proofs::Found::first_in_rows))]
fn given_name<'a>(matches: &ArgMatches<'a>, option: &str) -> Option<Option<&'a str>>
    ensures { option_map name_of result ≡ given_name (first_of option.now (rows_in matches.now)) }
{
    match matches.get_str(option) {
        Some("") => None,
        name => Some(name),
    }
}

/// A word that must stand there, and isn't empty.
#[tactic(auto, using(crate::proofs::Found::first_in_rows))]
fn word_of<'a>(matches: &ArgMatches<'a>, id: &str) -> Option<&'a str>
    ensures { name_of result ≡ word_in id.now (rows_in matches.now) }
{
    let word = matches.get_str(id)?;
    if word.is_empty() { None } else { Some(word) }
}

/// Whether none of some words is empty.
fn are_named(words: &[&str]) -> bool
    ensures { result ≡ list_all (λ word. is_named word.now) words.now }
{
    words.iter().all(|word| !word.is_empty())
}

/// Whether some words can be the names of the FILEs.
fn are_files(words: &[&str]) -> bool
    ensures { result ≡ (nat_le (length words.now) most_files
        && list_all (λ word. is_named word.now) words.now) }
{
    words.len() <= MOST_FILES && are_named(words)
}

/// The FILE words. None exactly where there are too many, or one is empty.
fn files_of<'a>(alloc: Global, matches: &ArgMatches<'a>) -> Result<Option<Vec<&'a str>>, NoMemory>
    ensures { IfOk result (λ files. option_map (λ names. map (λ w. w.now) names.items) files
        ≡ files_in (rows_in matches.now)) }
{
    let Some(words) = matches.get_strs("FILE") else {
        return Ok(None);
    };
    if !are_files(words) {
        return Ok(None);
    }
    Ok(Some(Vec::from_slice(alloc, words)?))
}

/// The options of a run of so many points. None exactly where one isn't in its range, or a name is
/// empty.
fn options_by<'a>(matches: &ArgMatches<'a>, points: u64) -> Option<RunOptions<'a>>
    requires { points ≤ 9223372036854775807 }
    ensures { option_map options_of result ≡ options_by points (rows_in matches.now) }
{
    Some(RunOptions {
        switches: given_name(matches, "switches")?,
        input: given_name(matches, "input")?,
        limits: limits_of(matches, points)?,
    })
}

/// The options of `run` and `exec`. None exactly where one isn't in its range, or a name is empty.
fn run_options<'a>(matches: &ArgMatches<'a>) -> Option<RunOptions<'a>>
    ensures { option_map options_of result ≡ options_in (rows_in matches.now) }
{
    options_by(matches, points_of(matches)?)
}

/// The options of `inspect`. None exactly where `--at` isn't given, one isn't in its range, or a
/// name is empty.
fn inspect_options<'a>(matches: &ArgMatches<'a>) -> Option<RunOptions<'a>>
    ensures { option_map options_of result ≡ options_at (rows_in matches.now) }
{
    options_by(matches, at_of(matches)?)
}

fn build_request<'a>(
    alloc: Global,
    matches: &ArgMatches<'a>,
) -> Result<Option<Request<'a>>, NoMemory>
    ensures { IfOk result (λ request. option_map order_of request
        ≡ build_in (rows_in matches.now)) }
{
    match (word_of(matches, "IMAGE"), files_of(alloc, matches)?) {
        (Some(image), Some(files)) => Ok(Some(Request::Build { image, files })),
        _ => Ok(None),
    }
}

fn exec_request<'a>(
    alloc: Global,
    matches: &ArgMatches<'a>,
) -> Result<Option<Request<'a>>, NoMemory>
    ensures { IfOk result (λ request. option_map order_of request
        ≡ exec_in (rows_in matches.now)) }
{
    match (files_of(alloc, matches)?, run_options(matches)) {
        (Some(files), Some(options)) => Ok(Some(Request::Exec { files, options })),
        _ => Ok(None),
    }
}

fn run_request<'a>(matches: &ArgMatches<'a>) -> Option<Request<'a>>
    ensures { option_map order_of result ≡ run_in (rows_in matches.now) }
{
    Some(Request::Run {
        image: word_of(matches, "IMAGE")?,
        options: run_options(matches)?,
    })
}

fn dump_request<'a>(matches: &ArgMatches<'a>) -> Option<Request<'a>>
    ensures { option_map order_of result ≡ dump_in (rows_in matches.now) }
{
    Some(Request::Dump {
        image: word_of(matches, "IMAGE")?,
    })
}

#[tactic(auto, using(crate::proofs::Found::first_in_rows))]
fn bench_request<'a>(matches: &ArgMatches<'a>) -> Option<Request<'a>>
    ensures { option_map order_of result ≡ bench_in (rows_in matches.now) }
{
    Some(Request::Bench {
        number: number_in(matches.get_str("N")?)?,
    })
}

fn inspect_request<'a>(matches: &ArgMatches<'a>) -> Option<Request<'a>>
    ensures { option_map order_of result ≡ inspect_in (rows_in matches.now) }
{
    Some(Request::Inspect {
        image: word_of(matches, "IMAGE")?,
        options: inspect_options(matches)?,
    })
}

/// What a command asks for with what was found of its words and options.
fn request_of<'a>(
    alloc: Global,
    command: &str,
    matches: &ArgMatches<'a>,
) -> Result<Option<Request<'a>>, NoMemory>
    ensures { IfOk result (λ request. option_map order_of request
        ≡ order_in command.now (rows_in matches.now)) }
{
    match command {
        "build" => build_request(alloc, matches),
        "run" => Ok(run_request(matches)),
        "exec" => exec_request(alloc, matches),
        "dump" => Ok(dump_request(matches)),
        "bench" => Ok(bench_request(matches)),
        "inspect" => Ok(inspect_request(matches)),
        _ => Ok(None),
    }
}

fn is_want_of_memory(error: &Error) -> bool
    ensures { IsTrue result ↔ (kind_of error.now ≡ ErrorKind.OutOfMemory) }
{
    matches!(error.kind(), ErrorKind::OutOfMemory)
}

/// What the words ask for, which are those of the command line without the program's name. None
/// exactly where they are no command line, an option or a number is out of its range, a name is
/// empty, or there are more than `MOST_FILES` FILE words.
pub fn read_words<'a>(alloc: Global, words: &'a [&'a str]) -> Result<Option<Request<'a>>, NoMemory>
    ensures { IfOk result (λ request. option_map order_of request
        ≡ asked (map (λ w. w.now) words.entry.now)) }
{
    match whole_command(alloc)?.try_get_matches_from(words) {
        Ok(matches) => match matches.subcommand() {
            Some((command, found)) => request_of(alloc, command, found),
            None => Ok(None),
        },
        Err(error) => {
            if is_want_of_memory(&error) {
                Err(NoMemory)
            } else {
                Ok(None)
            }
        }
    }
}
