//! The FILEs of a command.
ghost use Rattle.std.specs.Prelude.{◌≡◌, [], ◌∷◌, ◌++◌, OnOk, IfOk, length, map, min};
ghost use Rattle.m3c_image_commands.specs.Statuses.{Fetches, Only, shelving};
ghost use Rattle.m3c_source_commands.specs.Judging.{names_in, texts_in};
ghost use Rattle.m3c_source_commands.specs.SourceCommands.{AreTextsOf, OfFiles, source_cap};
ghost use Rattle.m3c_source_commands.specs.Texts.{names_of, texts_of, IsNext};

use m3_base::{Bytes, NoMemory, Source};
use m3_ports::Shelf;
use m3c_image_commands::{Refusal, fetch};
use std::alloc::Global;

// The most bytes of one FILE.
const SOURCE_CAP: u64 = 1_048_576;

// The most bytes of all FILEs.
const SOURCES_CAP: u64 = 8_388_608;

/// The names and texts of a program's files, in the order of the command.
#[derive(Drop)]
pub struct Sources<'a> {
    pub names: Vec<&'a str>,
    pub texts: Vec<Vec<u8>>,
}

impl<'a> Sources<'a> {
    /// No file yet.
    pub fn new(alloc: Global) -> Sources<'a>
        ensures names { result.names.items ≡ [] }
        ensures texts { result.texts.items ≡ [] }
    {
        Sources {
            names: Vec::new(alloc),
            texts: Vec::new(alloc),
        }
    }

    /// Adds a file behind the others.
    pub fn add(&mut self, name: &'a str, text: Vec<u8>) -> Result<(), NoMemory>
        ensures names { OnOk result (self.new.names.items ≡ self.old.names.items
            ++ name.entry ∷ []) }
        ensures texts { OnOk result (self.new.texts.items ≡ self.old.texts.items ++ text ∷ []) }
    {
        self.names.push(name)?;
        self.texts.push(text)?;
        Ok(())
    }
}

/// Fetches a FILE behind the others, within its cap and what is left for all, and gives what is
/// left then.
fn fetch_next<'a, F: Shelf>(
    alloc: Global,
    shelf: &mut F,
    name: &'a str,
    left: u64,
    sources: &mut Sources<'a>,
) -> Result<u64, Refusal<'a>>
    ensures fetches { Fetches (shelving F.Shelf shelf.old shelf.new)
        (Only name.now (min left source_cap)) result }
    ensures read { IfOk result
        (IsNext (F.held shelf.old) name.now left (texts_of sources.old) (texts_of sources.new)) }
    ensures named { OnOk result (names_of sources.new ≡ names_of sources.old ++ name.now ∷ []) }
{
    let mut text = Vec::new(alloc);
    fetch(alloc, shelf, name, left.min(SOURCE_CAP), &mut text)?;
    let rest = left.saturating_sub(text.len() as u64);
    match sources.add(name, text) {
        Ok(()) => Ok(rest),
        Err(_) => Err(Refusal::NO_MEMORY),
    }
}

/// Fetches the FILEs in their order, each within its cap and what is left for all.
pub fn fetch_sources<'a, F: Shelf>(
    alloc: Global,
    shelf: &mut F,
    files: &[&'a str],
) -> Result<Sources<'a>, Refusal<'a>>
    ensures fetches { Fetches (shelving F.Shelf shelf.old shelf.new)
        (OfFiles (F.held shelf.old) (map (λ n. n.now) files.entry.now)) result }
    ensures read { IfOk result (λ sources.
        AreTextsOf (F.held shelf.old) (map (λ n. n.now) files.entry.now) (texts_of sources)) }
    ensures named { IfOk result (λ sources. names_of sources ≡ map (λ n. n.now) files.entry.now) }
    ensures even { IfOk result (λ sources.
        length (texts_of sources) ≡ length (names_of sources)) }
{
    let mut sources = Sources::new(alloc);
    let mut left = SOURCES_CAP;
    'files: for place in 0..files.len() {
        let Some(name) = files.get(place) else {
            unreachable!();
        };
        match fetch_next(alloc, shelf, *name, left, &mut sources) {
            Ok(rest) => left = rest,
            Err(refusal) => return Err(refusal),
        }
    }
    Ok(sources)
}

/// A file as the checker takes it.
fn view_of<'s>(name: &'s str, text: &'s [u8]) -> Source<'s>
    ensures name { result.name.now ≡ name.now }
    ensures text { result.text.now ≡ text.now }
{
    Source {
        name: name.as_bytes(),
        text,
    }
}

/// The files as the checker takes them, each with its own text.
pub fn views_of<'s>(alloc: Global, sources: &'s Sources<'s>) -> Result<Vec<Source<'s>>, NoMemory>
    requires { length (texts_of sources.now) ≡ length (names_of sources.now) }
    ensures names { IfOk result (λ views. names_in views.items ≡ names_of sources.now) }
    ensures texts { IfOk result (λ views. texts_in views.items ≡ texts_of sources.now) }
{
    let mut views = Vec::new(alloc);
    'files: for (place, name) in sources.names.iter().enumerate() {
        views.push(view_of(name, &sources.texts[place]))?;
    }
    Ok(views)
}

/// The same of files that the program made itself.
pub fn views_of_bytes<'s>(
    alloc: Global,
    names: &'s [Bytes],
    texts: &'s [Bytes],
) -> Result<Vec<Source<'s>>, NoMemory> {
    let mut views = Vec::new(alloc);
    for (name, text) in names.iter().zip(texts) {
        views.push(Source {
            name: name.as_slice(),
            text: text.as_slice(),
        })?;
    }
    Ok(views)
}
