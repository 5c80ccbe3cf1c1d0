//! The image of FILEs: that of one text in the plain form comes from the generator that is proved,
//! that of all others from the compiler.
ghost use Rattle.std.specs.Prelude.{◌≡◌, ◌≤◌, None, Ok, length, map, IfOk, IfErr, IsOk, IsErrOf};
ghost use Rattle.m3_base.specs.Schedules.{IsSchedule};
ghost use Rattle.m3_image.specs.Images.{read_of};
ghost use Rattle.m3_plain.specs.Terms.{AreShallow, all_nodes, terms_of};
ghost use Rattle.m3_plain_image.specs.Image.{plain_image};
ghost use Rattle.m3c_image_commands.specs.Refusals.{RefusesSchedule};
ghost use Rattle.m3c_source_commands.specs.Judging.{names_in, texts_in};
ghost use Rattle.m3c_source_commands.specs.SourceCommands.{IsImageOf, IsNotPlain, IsPlainProgram};
ghost use Rattle.m3c_source_commands.specs.SourceCommands.{RefusesFiles, RefusesSources};
ghost use Rattle.m3c_source_commands.specs.Texts.{names_of, texts_of};

use crate::checking::Checks;
use crate::compiling::{Step, compile};
use crate::sources::{Sources, views_of};
use m3_base::{Entry, Source};
use m3_plain::{Plain, PlainRefused, read_plain};
use m3_plain_image::plain_image;
use m3c_image_commands::{Refusal, schedule_of};
use std::alloc::Global;

/// The name of the only FILE and what its text puts, which is in the plain form. `NotBuilt` exactly
/// where there are more FILEs, or the text isn't in it.
fn read_only<'a>(
    alloc: Global,
    sources: &Sources<'a>,
) -> Result<(&'a str, Vec<Plain>), PlainRefused>
    ensures plain { IfOk result (λ found. IsPlainProgram (names_of sources.now)
        (texts_of sources.now) found.0.now (terms_of found.1.items)) }
    ensures few { IfOk result (λ found. all_nodes (terms_of found.1.items) ≤ 2000) }
    ensures shallow { IfOk result (λ found. AreShallow (terms_of found.1.items)) }
    ensures not_built { IsErrOf result PlainRefused.NotBuilt
        → IsNotPlain (names_of sources.now) (texts_of sources.now) }
{
    match (sources.names.as_slice(), sources.texts.as_slice()) {
        ([name], [text]) => match read_plain(alloc, text) {
            Ok(puts) => Ok((*name, puts)),
            Err(refused) => Err(refused),
        },
        _ => Err(PlainRefused::NotBuilt),
    }
}

/// Puts the bytes of the image of a text in the plain form into `image`, and gives the schedule of
/// a switch file.
fn compile_plain(
    alloc: Global,
    name: &str,
    puts: &[Plain],
    switches: &[u8],
    image: &mut Vec<u8>,
) -> Step<'static, Vec<Entry>>
    requires few { all_nodes (terms_of puts.now) ≤ 2000 }
    requires shallow { AreShallow (terms_of puts.now) }
    ensures ok { IsOk result
        → read_of image.new.items ≡ Ok (plain_image name.now (terms_of puts.now)) }
    ensures schedule { IfOk result (λ entries. IsSchedule switches.now entries.items) }
    ensures err { IfErr result (RefusesSchedule switches.now) }
{
    let schedule = schedule_of(alloc, switches)?;
    match plain_image(alloc, name.as_bytes(), puts) {
        Ok(bytes) => {
            *image = bytes;
            Ok(schedule)
        }
        Err(_) => Err(Err(Refusal::NO_MEMORY)),
    }
}

/// Puts the bytes of the image of sources into `image`, as the compiler makes it, and gives the
/// schedule of a switch file.
pub fn compile_into<C: Checks>(
    alloc: Global,
    names: &[&str],
    sources: &[Source<'_>],
    switches: &[u8],
    image: &mut Vec<u8>,
) -> Step<'static, Vec<Entry>>
    ensures accepted { IfOk result
        (λ entries. C.judges (names_in sources.now) (texts_in sources.now) None) }
    ensures ok { IfOk result (λ entries. IsOk (read_of image.new.items)) }
    ensures schedule { IfOk result (λ entries. IsSchedule switches.now entries.items) }
    ensures err { IfErr result
        (RefusesSources (C.judges (names_in sources.now) (texts_in sources.now))
        (map (λ n. n.now) names.now) switches.now) }
{
    let (bytes, schedule) = compile::<C>(alloc, names, sources, switches)?;
    *image = bytes;
    Ok(schedule)
}

/// Puts the bytes of the image of FILEs into `image`, and gives the schedule of a switch file,
/// whose lines are read once the FILEs are accepted.
pub fn compile_files<'a, C: Checks>(
    alloc: Global,
    sources: &Sources<'a>,
    switches: &[u8],
    image: &mut Vec<u8>,
) -> Step<'static, Vec<Entry>>
    requires { length (texts_of sources.now) ≡ length (names_of sources.now) }
    ensures ok { IsOk result
        → IsImageOf C.judges (names_of sources.now) (texts_of sources.now) image.new.items }
    ensures schedule { IfOk result (λ entries. IsSchedule switches.now entries.items) }
    ensures err { IfErr result
        (RefusesFiles C.judges (names_of sources.now) (texts_of sources.now) switches.now) }
{
    match read_only(alloc, sources) {
        Ok((name, puts)) => compile_plain(alloc, name, &puts, switches, image),
        Err(PlainRefused::NotBuilt) => {
            let Ok(views) = views_of(alloc, sources) else {
                return Err(Err(Refusal::NO_MEMORY));
            };
            compile_into::<C>(alloc, &sources.names, &views, switches, image)
        }
        Err(PlainRefused::NoMemory) => Err(Err(Refusal::NO_MEMORY)),
    }
}
