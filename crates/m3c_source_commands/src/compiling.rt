//! From sources to the bytes of an image.
ghost use Rattle.std.specs.Prelude.{◌≡◌, ◌<◌, ◌++◌, true, None, length, map, All, IfOk};
ghost use Rattle.std.specs.Prelude.{IfErr, IsOk, OnOk, codes, decimal};
ghost use Rattle.m3_base.specs.Schedules.{IsSchedule};
ghost use Rattle.m3_image.specs.Images.{read_of};
ghost use Rattle.m3c_source_commands.specs.Judging.{names_in, texts_in};
ghost use Rattle.m3c_source_commands.specs.SourceCommands.{IsLineOf, RefusesRule, RefusesSources};
ghost use Rattle.m3c_source_commands.specs.SourceCommands.{TellsRefused, rule_line};

use crate::checking::Checks;
use bumpalo::Bump;
use bumpalo::collections::into_bump_slice;
use m3_base::{Entry, NoMemory, Refusal as Broken, Refused, Source, gap, rule_text};
use m3_build::build;
use m3_core::Core;
use m3c_image_commands::{Answer, Refusal, push_number, schedule_of};
use std::alloc::{AllocError, Global};

/// What a command goes on with, or what it answers.
pub type Step<'r, T> = Result<T, Result<Answer, Refusal<'r>>>;

/// Adds a place in a file: its name, a line and a column.
fn push_place(line: &mut Vec<u8>, name: &str, at: u32, column: u32) -> Result<(), AllocError>
    ensures { OnOk result (line.new.items ≡ line.old.items
        ++ (name.now ++ codes ":" ++ decimal at ++ codes ":" ++ decimal column)) }
{
    line.extend_from_slice(name.as_bytes())?;
    line.extend_from_slice(b":")?;
    push_number(line, at)?;
    line.extend_from_slice(b":")?;
    push_number(line, column)
}

/// Adds a rule: its number and its text.
fn push_rule(line: &mut Vec<u8>, rule: u16, text: &str) -> Result<(), AllocError>
    ensures { OnOk result (line.new.items ≡ line.old.items
        ++ (codes ": rule " ++ decimal rule ++ codes " " ++ text.now ++ codes "\n")) }
{
    line.extend_from_slice(b": rule ")?;
    push_number(line, u32::from(rule))?;
    line.extend_from_slice(b" ")?;
    line.extend_from_slice(text.as_bytes())?;
    Ok(line.extend_from_slice(b"\n")?)
}

/// The line of a broken rule, at its place in a file of this name.
fn rule_line(alloc: Global, name: &str, broken: Broken, text: &str) -> Result<Vec<u8>, AllocError>
    ensures { IfOk result (λ line. line.items
        ≡ rule_line name.now broken.pos.line broken.pos.col broken.rule text.now) }
{
    let mut line = Vec::new(alloc);
    push_place(&mut line, name, broken.pos.line, broken.pos.col)?;
    push_rule(&mut line, broken.rule, text)?;
    Ok(line)
}

/// The line of a broken rule of files of these names.
fn line_of(alloc: Global, names: &[&str], broken: Broken) -> Result<Vec<u8>, NoMemory>
    ensures { IfOk result (λ line. IsLineOf (map (λ n. n.now) names.now) broken line.items) }
{
    let Some(name) = names.get(broken.pos.file as usize) else {
        return Err(gap());
    };
    let Some(text) = rule_text(broken.rule) else {
        return Err(gap());
    };
    Ok(rule_line(alloc, *name, broken, text)?)
}

/// What is answered where the checker refused sources so.
fn refuse(alloc: Global, names: &[&str], refused: Refused) -> Result<Answer, Refusal<'static>>
    ensures { TellsRefused (map (λ n. n.now) names.now) refused result }
{
    match refused {
        Refused::NoMemory => Err(Refusal::NO_MEMORY),
        Refused::Rule(broken) => match line_of(alloc, names, broken) {
            Ok(line) => Ok(Answer { status: 1, line }),
            Err(_) => Err(Refusal::NO_MEMORY),
        },
    }
}

/// Whether each text is shorter than the checker wants, as every file is that was fetched within
/// its cap.
fn are_short(sources: &[Source<'_>]) -> bool
    ensures { result ≡ true → All (λ source. length source.text.now < 4294967295) sources.now }
{
    sources
        .iter()
        .all(|source| source.text.len() < 4_294_967_295)
}

/// A copy of a source in the arena.
fn copy_of<'a>(arena: &'a Bump, source: &Source<'_>) -> Result<Source<'a>, NoMemory>
    ensures name { IfOk result (λ copy. copy.name.now ≡ source.now.name.now) }
    ensures text { IfOk result (λ copy. copy.text.now ≡ source.now.text.now) }
{
    let name = &*arena.try_alloc_slice_copy(source.name)?;
    let text = &*arena.try_alloc_slice_copy(source.text)?;
    Ok(Source { name, text })
}

/// Copies of some sources in the arena: the trees in it borrow their texts.
fn copies<'a>(
    alloc: Global,
    arena: &'a Bump,
    sources: &[Source<'_>],
) -> Result<Vec<Source<'a>>, NoMemory>
    ensures names { IfOk result (λ copies. names_in copies.items ≡ names_in sources.now) }
    ensures texts { IfOk result (λ copies. texts_in copies.items ≡ texts_in sources.now) }
{
    let mut copies = Vec::new(alloc);
    for source in sources {
        copies.push(copy_of(arena, source)?)?;
    }
    Ok(copies)
}

/// The image of a checked program, which goes to the arena.
fn image_of<'a>(alloc: Global, arena: &'a Bump, core: Core<'a>) -> Result<Vec<u8>, NoMemory>
    ensures { IfOk result (λ image. IsOk (read_of image.items)) }
{
    let mut kept = Vec::new(arena);
    kept.push(core)?;
    match into_bump_slice(kept) {
        [core, ..] => build(alloc, arena, core),
        [] => Err(NoMemory),
    }
}

/// The checked program of some sources, or what is answered where they break a rule. The names are
/// those that a line has for them.
fn checked<'a, C: Checks>(
    alloc: Global,
    arena: &'a Bump,
    names: &[&str],
    sources: &[Source<'_>],
) -> Step<'static, Core<'a>>
    ensures accepted { IfOk result
        (λ core. C.judges (names_in sources.now) (texts_in sources.now) None) }
    ensures refused { IfErr result
        (RefusesRule (C.judges (names_in sources.now) (texts_in sources.now))
        (map (λ n. n.now) names.now)) }
{
    let Ok(copies) = copies(alloc, arena, sources) else {
        return Err(Err(Refusal::NO_MEMORY));
    };
    if !are_short(&copies) {
        return Err(Err(Refusal::NO_MEMORY));
    }
    match C::check(alloc, arena, copies.as_slice()) {
        Ok(core) => Ok(core),
        Err(refused) => Err(refuse(alloc, names, refused)),
    }
}

/// The image of a program, and the schedule of a switch file, whose lines are read once the sources
/// are accepted. The names are those that a line has for the sources.
pub fn compile<C: Checks>(
    alloc: Global,
    names: &[&str],
    sources: &[Source<'_>],
    switches: &[u8],
) -> Step<'static, (Vec<u8>, Vec<Entry>)>
    ensures accepted { IfOk result
        (λ built. C.judges (names_in sources.now) (texts_in sources.now) None) }
    ensures image { IfOk result (λ built. IsOk (read_of built.0.items)) }
    ensures schedule { IfOk result (λ built. IsSchedule switches.now built.1.items) }
    ensures err { IfErr result
        (RefusesSources (C.judges (names_in sources.now) (texts_in sources.now))
        (map (λ n. n.now) names.now) switches.now) }
{
    let owner = Bump::new(alloc);
    let arena = &owner;
    let core = checked::<C>(alloc, arena, names, sources)?;
    let schedule = schedule_of(alloc, switches)?;
    match image_of(alloc, arena, core) {
        Ok(image) => Ok((image, schedule)),
        Err(_) => Err(Err(Refusal::NO_MEMORY)),
    }
}
