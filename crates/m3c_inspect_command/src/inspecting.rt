ghost use Rattle.std.specs.Prelude.{◌≡◌, ◌+◌, ◌≤◌, [], IfOk, IfErr, OnOk, vec_len, vec_capacity};
ghost use Rattle.std.specs.Prelude.{codes, MatchResult};
ghost use Rattle.m3_image.specs.Views.{image_view};
ghost use Rattle.m3_image_decoded.specs.Ready.{image_of};
ghost use Rattle.m3_inspect.specs.Shown.{shown_of};
ghost use Rattle.m3_inspect.specs.Texts.{text_of};
ghost use Rattle.m3_run_state.specs.Seen.{state_of};
ghost use Rattle.m3c_image_commands.specs.Reports.{setting_of, longest_name};
ghost use Rattle.m3c_image_commands.specs.ImageCommands.{setting_of_run};
ghost use Rattle.m3c_image_commands.specs.Statuses.{Took, putting, shelving};
ghost use Rattle.m3c_inspect_command.specs.Inspecting.{Inspects, InspectsBytes, InspectsView};
ghost use Rattle.m3c_inspect_command.specs.Inspecting.{PutsText, Shows, is_spent};
ghost use Rattle.m3c_words.specs.Orders.{name_of};

use m3_base::Outcome;
use m3_generational::Generational;
use m3_heap::{SemiSpace, Steps};
use m3_image::ImageView;
use m3_inspect::{Quiet, View, ViewRefused, text, view};
use m3_machine::{Machine, Stacks};
use m3_ports::{Shelf, Sink};
use m3c_image_commands::{
    Answer, FirstHeap, LINE_ROOM, Refusal, Run, answer_of, counted_answer, fetch_all, longest_name,
    read_image, schedule_of,
};
use m3c_words::RunOptions;
use std::alloc::Global;
use std::marker::Brand;
use std::sync::ledger::{Blank, Ledger};

/// Puts the text of a view, and gives the answer that is ready.
fn put_view<O: Sink>(
    alloc: Global,
    image: &ImageView<'_>,
    view: &View,
    answer: Answer,
    out: &mut O,
) -> Result<Answer, Refusal<'static>>
    ensures { PutsText (text_of (image_view image.now) (shown_of view.now)) answer
        (putting O.Sink out.old out.new) result }
{
    let Ok(text) = text(alloc, view, image) else {
        return Err(Refusal::NO_MEMORY);
    };
    match out.put(&text) {
        Ok(()) => Ok(answer),
        Err(_) => Err(Refusal::WRITE_FAULT),
    }
}

/// Puts what a machine shows whose run used up its points. A thread that hasn't its frames is told
/// as trap 9.
fn show<S: FirstHeap, L: Ledger, O: Sink>(
    alloc: Global,
    mut line: Vec<u8>,
    image: &ImageView<'_>,
    machine: &Machine<'_, S, L>,
    tells: bool,
    out: &mut O,
) -> Result<Answer, Refusal<'static>>
    requires empty { line.items ≡ [] }
    requires room { longest_name (image_view image.now) + 320 ≤ vec_capacity line }
    requires image { image_of machine.now.parts.image ≡ image_view image.now }
    ensures { Shows (image_view image.now) S.young tells (state_of machine.now.parts)
        (putting O.Sink out.old out.new) result }
{
    match view(alloc, machine) {
        Ok(view) => {
            let Ok(()) = line.extend_from_slice(b"inspected") else {
                return Err(Refusal::NO_MEMORY);
            };
            let answer = counted_answer(line, 0, machine, tells);
            put_view(alloc, image, &view, answer, out)
        }
        Err(ViewRefused::Frame(_)) => {
            let trap = Outcome::Trap(9);
            Ok(answer_of(line, image, machine, trap, tells))
        }
        Err(ViewRefused::NoMemory) => Err(Refusal::NO_MEMORY),
    }
}

/// Whether a run ended since it used up its points.
fn is_spent(outcome: Outcome) -> bool
    ensures { result ≡ is_spent outcome }
{
    matches!(outcome, Outcome::Spent)
}

/// Runs an image over such a heap for the points of its limits, and puts what it shows then. The
/// steps of its collections are counted by a ledger of its own.
fn inspect_by<S: FirstHeap, O: Sink, L: Ledger>(
    alloc: Global,
    image: ImageView<'_>,
    run: Run<'_>,
    out: &mut O,
    blank: Blank,
) -> Result<Answer, Refusal<'static>>
    requires name { blank.name ≡ L.name }
    requires parts { blank.parts ≡ L.parts }
    requires whole { blank.parts ≡ 1 }
    requires heap { run.limits.young ≡ S.young }
    ensures { InspectsView (image_view image.entry) (setting_of_run run.entry)
        run.entry.tells_collections (putting O.Sink out.old out.new) result }
{
    let room = longest_name(&image) + LINE_ROOM;
    let Ok(line) = Vec::with_capacity(alloc, room) else {
        return Err(Refusal::NO_MEMORY);
    };
    let Ok(store) = S::make(alloc, run.limits.heap) else {
        return Err(Refusal::NO_MEMORY);
    };
    let limits = run.limits;
    let tells = run.tells_collections;
    let stacks = Stacks {
        count: limits.threads,
        words: limits.stack,
    };
    let steps = Steps::<L>::new(blank);
    let made = Machine::new(alloc, image, run.input, store, stacks, steps);
    let Ok(mut machine) = made else {
        return Err(Refusal::NO_MEMORY);
    };
    let Ok(outcome) = machine.run(run.schedule, limits.points, &mut Quiet) else {
        unreachable!()
    };
    if is_spent(outcome) {
        show(alloc, line, &image, &machine, tells, out)
    } else {
        Ok(answer_of(line, &image, &machine, outcome, tells))
    }
}

/// Runs an image for the points of its limits, and puts what it shows then.
fn inspect_view<O: Sink>(
    alloc: Global,
    image: ImageView<'_>,
    run: Run<'_>,
    out: &mut O,
) -> Result<Answer, Refusal<'static>>
    ensures { InspectsView (image_view image.entry) (setting_of_run run.entry)
        run.entry.tells_collections (putting O.Sink out.old out.new) result }
{
    if run.limits.young {
        inspect_by::<Generational, O, Brand>(alloc, image, run, out, Blank::new(1))
    } else {
        inspect_by::<SemiSpace, O, Brand>(alloc, image, run, out, Blank::new(1))
    }
}

/// Reads an image and a schedule, runs the one by the other, and puts what it shows then.
fn inspect_fetched<O: Sink>(
    alloc: Global,
    bytes: &[u8],
    switches: &[u8],
    run: Run<'_>,
    out: &mut O,
) -> Result<Answer, Refusal<'static>>
    ensures { InspectsBytes bytes.now switches.now (setting_of_run run.entry)
        run.entry.tells_collections (putting O.Sink out.old out.new) result }
{
    let image = match read_image(alloc, bytes) {
        Ok(image) => image,
        Err(answer) => return answer,
    };
    match schedule_of(alloc, switches) {
        Ok(schedule) => {
            let run = Run {
                schedule: &schedule,
                ..run
            };
            inspect_view(alloc, image, run, out)
        }
        Err(answer) => answer,
    }
}

/// `inspect IMAGE --at K`: fetches the image, the switches and the input, runs for the points of
/// the options' limits, which are K, and puts what the machine shows then. The bytes of the image go
/// to `image`, which is to be empty before.
pub fn inspect_image<'a, F: Shelf, O: Sink>(
    alloc: Global,
    name: &'a str,
    options: RunOptions<'a>,
    shelf: &mut F,
    out: &mut O,
    image: &mut Vec<u8>,
) -> Result<Answer, Refusal<'a>>
    requires { image.old.items ≡ [] }
    ensures { Inspects (shelving F.Shelf shelf.old shelf.new) (putting O.Sink out.old out.new)
        name.now (name_of options.entry.switches) (name_of options.entry.input)
        (setting_of options.entry.limits) image.new.items result }
{
    let files = match fetch_all(alloc, name, options, shelf, image) {
        Ok(files) => files,
        Err(refusal) => return Err(refusal),
    };
    let run = Run {
        limits: options.limits,
        schedule: &[],
        input: &files.input,
        tells_collections: options.switches.is_some(),
    };
    inspect_fetched(alloc, image, &files.switches, run, out)
}
