//! The commands.
ghost use Rattle.std.specs.Prelude.{◌≡◌, false, [], is_some, length, map};
ghost use Rattle.m3c_words.specs.Orders.{name_of};
ghost use Rattle.m3c_image_commands.specs.Statuses.{LacksMemory, LacksOutput};
ghost use Rattle.m3c_image_commands.specs.Statuses.{putting, shelving};
ghost use Rattle.m3c_image_commands.specs.Reports.{setting_of};
ghost use Rattle.m3_base.specs.Schedules.{IsSchedule};
ghost use Rattle.m3c_image_commands.specs.ImageCommands.{on_input};
ghost use Rattle.m3c_source_commands.specs.Judging.{OfSome};
ghost use Rattle.m3c_source_commands.specs.SourceCommands.{Builds, Execs, ExecsTexts, IsOfNumber};
ghost use Rattle.m3c_source_commands.specs.SourceCommands.{Stores};
ghost use Rattle.m3c_source_commands.specs.Texts.{names_of, texts_of};
ghost use Rattle.m3c_source_commands.specs.Orders.{Fulfils, Commands, bench_setting, order_of};

use crate::checking::Checks;
use crate::imaging::{compile_files, compile_into};
use crate::sources::{Sources, fetch_sources, views_of_bytes};
use m3_ports::{Shelf, ShelfFault, Sink};
use m3_workload::make;
use m3c_image_commands::{
    Answer, Refusal, Run, RunFiles, dump_image, fetch_run_files, run_bytes, run_image, tell,
};
use m3c_inspect_command::inspect_image;
use m3c_words::{Limits, Request, RunOptions, read_words};
use std::alloc::Global;

/// Stores an image.
fn store_image<F: Shelf>(
    alloc: Global,
    name: &str,
    shelf: &mut F,
    image: &[u8],
) -> Result<Answer, Refusal<'static>>
    ensures { Stores (shelving F.Shelf shelf.old shelf.new) name.now image.now result }
{
    match shelf.store(alloc, name, image) {
        Ok(()) => Ok(Answer::silent(alloc)),
        Err(fault) => Err(store_refusal(fault)),
    }
}

/// The refusal of a store that failed so.
fn store_refusal(fault: ShelfFault) -> Refusal<'static>
    ensures no_memory { fault ≡ ShelfFault.NoMemory → LacksMemory result }
    ensures others { (fault ≡ ShelfFault.NoMemory → ⊥) → LacksOutput result }
{
    match fault {
        ShelfFault::NoMemory => Refusal::NO_MEMORY,
        _ => Refusal::WRITE_FAULT,
    }
}

/// `build IMAGE FILE..`: stores the image of a program.
fn build_files<'a, C: Checks, F: Shelf>(
    alloc: Global,
    name: &'a str,
    files: &[&'a str],
    shelf: &mut F,
    image: &mut Vec<u8>,
) -> Result<Answer, Refusal<'a>>
    ensures { Builds C.judges (shelving F.Shelf shelf.old shelf.new) name.now
        (map (λ n. n.now) files.entry.now) image.new.items result }
{
    let sources = fetch_sources(alloc, shelf, files)?;
    match compile_files::<C>(alloc, &sources, b"", image) {
        Ok(_) => store_image(alloc, name, shelf, image),
        Err(answer) => answer,
    }
}

/// `exec FILE..`: runs a program from memory.
fn exec_files<'a, C: Checks, F: Shelf, O: Sink>(
    alloc: Global,
    files: &[&'a str],
    options: RunOptions<'a>,
    shelf: &mut F,
    out: &mut O,
    image: &mut Vec<u8>,
) -> Result<Answer, Refusal<'a>>
    ensures { Execs C.judges (shelving F.Shelf shelf.old shelf.new) (putting O.Sink out.old out.new)
        (map (λ n. n.now) files.entry.now) (name_of options.entry.switches)
        (name_of options.entry.input) (setting_of options.entry.limits) image.new.items result }
{
    let sources = match fetch_sources(alloc, shelf, files) {
        Ok(sources) => sources,
        Err(refusal) => return Err(refusal),
    };
    let given = match fetch_run_files(alloc, shelf, options) {
        Ok(given) => given,
        Err(refusal) => return Err(refusal),
    };
    exec_sources::<C, O>(alloc, &sources, &given, options, out, image)
}

/// Runs a program whose files were fetched, with those of its options. The bytes of its image go to
/// `image`.
fn exec_sources<'a, C: Checks, O: Sink>(
    alloc: Global,
    sources: &Sources<'a>,
    given: &RunFiles,
    options: RunOptions<'a>,
    out: &mut O,
    image: &mut Vec<u8>,
) -> Result<Answer, Refusal<'static>>
    requires { length (texts_of sources.now) ≡ length (names_of sources.now) }
    ensures { ExecsTexts C.judges (names_of sources.now) (texts_of sources.now) image.new.items
        given.now.switches.items (IsSchedule given.now.switches.items)
        (on_input (setting_of options.entry.limits) given.now.input.items)
        (is_some options.entry.switches) (putting O.Sink out.old out.new) result }
{
    match compile_files::<C>(alloc, sources, &given.switches, image) {
        Ok(schedule) => {
            let run = Run {
                limits: options.limits,
                schedule: &schedule,
                input: &given.input,
                tells_collections: options.switches.is_some(),
            };
            run_bytes(alloc, image, run, out)
        }
        Err(answer) => answer,
    }
}

/// `bench N`: runs the workload of a number.
fn bench<C: Checks, O: Sink>(
    alloc: Global,
    number: u64,
    out: &mut O,
    image: &mut Vec<u8>,
) -> Result<Answer, Refusal<'static>>
    ensures { ExecsTexts (OfSome C.judges) [] [] image.new.items [] (IsOfNumber number)
        bench_setting false (putting O.Sink out.old out.new) result }
{
    let Ok(workload) = make(alloc, number) else {
        return Err(Refusal::NO_MEMORY);
    };
    let Ok(views) = views_of_bytes(alloc, &workload.names, &workload.texts) else {
        return Err(Refusal::NO_MEMORY);
    };
    // The workload breaks no rule, so no line names a file of it.
    match compile_into::<C>(alloc, &[], &views, b"", image) {
        Ok(_) => {
            let run = Run {
                limits: Limits::of_bench(),
                schedule: &workload.schedule,
                input: b"",
                tells_collections: false,
            };
            run_bytes(alloc, image, run, out)
        }
        Err(answer) => answer,
    }
}

fn carry_out<'a, C: Checks, F: Shelf, O: Sink>(
    alloc: Global,
    request: &Request<'a>,
    shelf: &mut F,
    out: &mut O,
    image: &mut Vec<u8>,
) -> Result<Answer, Refusal<'a>>
    requires { image.old.items ≡ [] }
    ensures { Fulfils C.judges (order_of request.entry.now) (shelving F.Shelf shelf.old shelf.new)
        (putting O.Sink out.old out.new) image.new.items result }
{
    match request {
        Request::Build { image: name, files } => build_files::<C, F>(
            alloc, *name, files, shelf, image,
        ),
        Request::Run {
            image: name,
            options,
        } => run_image(alloc, *name, *options, shelf, out, image),
        Request::Exec { files, options } => {
            exec_files::<C, F, O>(alloc, files, *options, shelf, out, image)
        }
        Request::Dump { image: name } => dump_image(alloc, *name, shelf, out, image),
        Request::Bench { number } => bench::<C, O>(alloc, *number, out, image),
        Request::Inspect {
            image: name,
            options,
        } => inspect_image(alloc, *name, *options, shelf, out, image),
    }
}

/// Carries out the command that some words say, without the program's name, by a checker: output
/// goes to `out`, one line to `err`, and the bytes of the image that was built, run, dumped or
/// inspected to `image`, which is to be empty before. Gives the status.
pub fn command<C: Checks, F: Shelf, O: Sink, E: Sink>(
    alloc: Global,
    words: &[&str],
    shelf: &mut F,
    out: &mut O,
    err: &mut E,
    image: &mut Vec<u8>,
) -> u8
    requires { image.old.items ≡ [] }
    ensures { Commands C.judges (map (λ word. word.now) words.entry.now)
        (shelving F.Shelf shelf.old shelf.new) (putting O.Sink out.old out.new)
        (putting E.Sink err.old err.new) image.new.items result }
{
    match read_words(alloc, words) {
        Ok(Some(request)) => {
            let answer = carry_out::<C, F, O>(alloc, &request, shelf, out, image);
            tell(err, answer)
        }
        Ok(None) => tell(err, Err(Refusal::USAGE)),
        Err(_) => tell(err, Err(Refusal::NO_MEMORY)),
    }
}
