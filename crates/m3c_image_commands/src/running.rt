ghost use Rattle.std.specs.Prelude.{◌≡◌, [], IfOk, IfErr, OnOk, IsOk, IsErr, is_some};
ghost use Rattle.m3_base.specs.Schedules.{IsSchedule};
ghost use Rattle.m3_image_sections.specs.Reading.{seen};
ghost use Rattle.m3_image.specs.Images.{read_of};
ghost use Rattle.m3_image.specs.Views.{image_view};
ghost use Rattle.m3c_image_commands.specs.Refusals.{RefusesImage, RefusesSchedule};
ghost use Rattle.m3c_image_commands.specs.Statuses.{Fetches, IsGiven, IsRead, Only};
ghost use Rattle.m3c_image_commands.specs.Statuses.{image_cap, putting, shelving};
ghost use Rattle.m3c_image_commands.specs.Reports.{setting_of};
ghost use Rattle.m3c_image_commands.specs.ImageCommands.{Ends, OfRun, Runs, RunsBytes};
ghost use Rattle.m3c_image_commands.specs.ImageCommands.{RunsImage, setting_of_run};
ghost use Rattle.m3c_words.specs.Orders.{name_of};

use crate::answers::{Answer, Refusal};
use crate::fetching::{RunFiles, fetch, fetch_run_files};
use crate::heaps::FirstHeap;
use crate::line::{LINE_ROOM, answer_of, longest_name};
use crate::refusals::{bad_line, image_line, refuse, too_many};
use m3_base::{Entry, ScheduleRefusal, read_schedule};
use m3_generational::Generational;
use m3_heap::{SemiSpace, Steps};
use m3_image::ImageView;
use m3_machine::{Machine, Stacks};
use m3_ports::{Shelf, Sink};
use m3c_words::{Limits, RunOptions};
use std::alloc::Global;
use std::marker::Brand;
use std::sync::ledger::{Blank, Ledger};

// The most bytes of an image.
const IMAGE_CAP: u64 = 4_294_967_295;

/// How an image is to run: within which limits, by which schedule and on which input, and whether
/// the line tells its collections.
#[derive(Clone, Copy)]
pub struct Run<'a> {
    pub limits: Limits,
    pub schedule: &'a [Entry],
    pub input: &'a [u8],
    pub tells_collections: bool,
}

/// The image of some bytes, or the line that refuses them.
pub fn read_image<'a>(
    alloc: Global,
    bytes: &'a [u8],
) -> Result<ImageView<'a>, Result<Answer, Refusal<'static>>>
    ensures ok { IfOk result (λ v. read_of bytes.now ≡ Ok (image_view v)) }
    ensures err { IfErr result (λ e. RefusesImage bytes.now e × IsErr (read_of bytes.now)) }
{
    match ImageView::read(bytes) {
        Ok(image) => Ok(image),
        Err(refusal) => Err(refuse(8, image_line(alloc, refusal))),
    }
}

/// The schedule that the lines of a switch file say, or what the command answers where they say
/// none.
pub fn schedule_of(
    alloc: Global,
    switches: &[u8],
) -> Result<Vec<Entry>, Result<Answer, Refusal<'static>>>
    ensures ok { IfOk result (λ entries. IsSchedule switches.now entries.items) }
    ensures err { IfErr result (RefusesSchedule switches.now) }
{
    match read_schedule(alloc, switches) {
        Ok(schedule) => Ok(schedule),
        Err(ScheduleRefusal::NoMemory) => Err(Err(Refusal::NO_MEMORY)),
        Err(ScheduleRefusal::BadLine(number)) => Err(refuse(9, bad_line(alloc, number))),
        Err(ScheduleRefusal::TooMany) => Err(refuse(9, too_many(alloc))),
    }
}

/// Runs an image over such a heap, and says how that ended. All memory is taken before the first
/// instruction. The steps of its collections are counted by a ledger of its own.
fn run_by<S: FirstHeap, O: Sink, L: Ledger>(
    alloc: Global,
    image: ImageView<'_>,
    run: Run<'_>,
    out: &mut O,
    blank: Blank,
) -> Result<Answer, Refusal<'static>>
    requires name { blank.name ≡ L.name }
    requires parts { blank.parts ≡ L.parts }
    requires whole { blank.parts ≡ 1 }
    requires heap { run.limits.young ≡ S.young }
    ensures { Ends (image_view image.entry) (setting_of_run run.entry)
        run.entry.tells_collections (putting O.Sink out.old out.new) result }
{
    let room = longest_name(&image) + LINE_ROOM;
    let Ok(line) = Vec::with_capacity(alloc, room) else {
        return Err(Refusal::NO_MEMORY);
    };
    let Ok(store) = S::make(alloc, run.limits.heap) else {
        return Err(Refusal::NO_MEMORY);
    };
    let limits = run.limits;
    let stacks = Stacks {
        count: limits.threads,
        words: limits.stack,
    };
    let steps = Steps::<L>::new(blank);
    let made = Machine::new(alloc, image, run.input, store, stacks, steps);
    let Ok(mut machine) = made else {
        return Err(Refusal::NO_MEMORY);
    };
    match machine.run(run.schedule, limits.points, out) {
        Ok(outcome) => {
            let tells = run.tells_collections;
            Ok(answer_of(line, &image, &machine, outcome, tells))
        }
        Err(_) => Err(Refusal::WRITE_FAULT),
    }
}

/// Runs an image, and says how that ended.
fn run_view<O: Sink>(
    alloc: Global,
    image: ImageView<'_>,
    run: Run<'_>,
    out: &mut O,
) -> Result<Answer, Refusal<'static>>
    ensures { Ends (image_view image.entry) (setting_of_run run.entry)
        run.entry.tells_collections (putting O.Sink out.old out.new) result }
{
    if run.limits.young {
        run_by::<Generational, O, Brand>(alloc, image, run, out, Blank::new(1))
    } else {
        run_by::<SemiSpace, O, Brand>(alloc, image, run, out, Blank::new(1))
    }
}

/// Runs the image of some bytes, and says how that ended, or why they are no image.
pub fn run_bytes<O: Sink>(
    alloc: Global,
    bytes: &[u8],
    run: Run<'_>,
    out: &mut O,
) -> Result<Answer, Refusal<'static>>
    ensures { RunsImage bytes.now (setting_of_run run.entry) run.entry.tells_collections
        (putting O.Sink out.old out.new) result }
{
    match read_image(alloc, bytes) {
        Ok(image) => run_view(alloc, image, run, out),
        Err(answer) => answer,
    }
}

/// Reads an image and a schedule, and runs the one by the other.
fn run_fetched<O: Sink>(
    alloc: Global,
    bytes: &[u8],
    switches: &[u8],
    run: Run<'_>,
    out: &mut O,
) -> Result<Answer, Refusal<'static>>
    ensures { RunsBytes bytes.now switches.now (setting_of_run run.entry)
        run.entry.tells_collections (putting O.Sink out.old out.new) result }
{
    let image = match read_image(alloc, bytes) {
        Ok(image) => image,
        Err(answer) => return answer,
    };
    match schedule_of(alloc, switches) {
        Ok(schedule) => {
            let run = Run {
                schedule: &schedule,
                ..run
            };
            run_view(alloc, image, run, out)
        }
        Err(answer) => answer,
    }
}

/// `run IMAGE`: fetches the image, the switches and the input, and runs. The bytes of the image go
/// to `image`, which is to be empty before.
pub fn run_image<'a, F: Shelf, O: Sink>(
    alloc: Global,
    name: &'a str,
    options: RunOptions<'a>,
    shelf: &mut F,
    out: &mut O,
    image: &mut Vec<u8>,
) -> Result<Answer, Refusal<'a>>
    requires { image.old.items ≡ [] }
    ensures { Runs (shelving F.Shelf shelf.old shelf.new) (putting O.Sink out.old out.new) name.now
        (name_of options.entry.switches) (name_of options.entry.input)
        (setting_of options.entry.limits) image.new.items result }
{
    let files = match fetch_all(alloc, name, options, shelf, image) {
        Ok(files) => files,
        Err(refusal) => return Err(refusal),
    };
    let run = Run {
        limits: options.limits,
        schedule: &[],
        input: &files.input,
        tells_collections: options.switches.is_some(),
    };
    run_fetched(alloc, image, &files.switches, run, out)
}

/// Fetches an image into an empty list, and then the files of a run's options.
pub fn fetch_all<'a, F: Shelf>(
    alloc: Global,
    name: &'a str,
    options: RunOptions<'a>,
    shelf: &mut F,
    image: &mut Vec<u8>,
) -> Result<RunFiles, Refusal<'a>>
    requires { image.old.items ≡ [] }
    ensures fetches { Fetches (shelving F.Shelf shelf.old shelf.new)
        (OfRun (F.held shelf.old) name.now (name_of options.entry.switches)
        (name_of options.entry.input)) result }
    ensures image { OnOk result (IsRead (F.held shelf.old) name.now image_cap image.new.items) }
    ensures switches { IfOk result (λ files. IsGiven (F.held shelf.old)
        (name_of options.entry.switches) files.switches.items) }
    ensures input { IfOk result (λ files. IsGiven (F.held shelf.old)
        (name_of options.entry.input) files.input.items) }
{
    match fetch_image(alloc, name, shelf, image) {
        Ok(()) => fetch_run_files(alloc, shelf, options),
        Err(refusal) => Err(refusal),
    }
}

/// Fetches an image into an empty list.
pub fn fetch_image<'a, F: Shelf>(
    alloc: Global,
    name: &'a str,
    shelf: &mut F,
    image: &mut Vec<u8>,
) -> Result<(), Refusal<'a>>
    requires { image.old.items ≡ [] }
    ensures fetches { Fetches (shelving F.Shelf shelf.old shelf.new)
        (Only name.now image_cap) result }
    ensures image { OnOk result (IsRead (F.held shelf.old) name.now image_cap image.new.items) }
{
    fetch(alloc, shelf, name, IMAGE_CAP, image)
}
