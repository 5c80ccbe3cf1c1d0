use m3_base::NoMemory;
use m3_ports::{MemShelf, MemSink, Shelf};
use m3c_image_commands::{run_image, tell};
use m3c_words::{Request, RunOptions, read_words};
use std::alloc::{AllocError, Global};

/// The status and the line on err of `run` of an image, and behind ` / ` its output where there is
/// one; with more words, and with the entries of a switch file, which have commas between them.
pub fn answer_of_run(
    alloc: Global,
    image: &[u8],
    entries: Option<&str>,
    words: &str,
) -> Result<String, AllocError> {
    match answer(alloc, image, entries, words) {
        Ok(answer) => Ok(answer),
        Err(NoMemory) => String::from_str(alloc, "out of memory"),
    }
}

fn answer(
    alloc: Global,
    image: &[u8],
    entries: Option<&str>,
    words: &str,
) -> Result<String, NoMemory> {
    let Some(mut shelf) = shelf_with(alloc, image, entries.unwrap_or("none"))? else {
        return Ok(String::from_str(alloc, "not stored")?);
    };
    let words = words_of(alloc, words, entries.is_some())?;
    match read_words(alloc, words.as_slice()) {
        Ok(
            Some(
                Request::Run {
                    image: name,
                    options,
                },
            ),
        ) => run(alloc, name, options, &mut shelf),
        _ => Ok(String::from_str(alloc, "no words of run")?),
    }
}

/// A shelf with the image, a switch file and an input; none where it doesn't take them.
fn shelf_with(alloc: Global, image: &[u8], entries: &str) -> Result<Option<MemShelf>, NoMemory> {
    let lines = switches(alloc, entries)?;
    let mut shelf = MemShelf::new(alloc)?;
    let is_stored = shelf.store(alloc, "a.img", image).is_ok()
        && shelf.store(alloc, "switches", lines.as_slice()).is_ok()
        && shelf.store(alloc, "in", b"xyz").is_ok();
    if is_stored { Ok(Some(shelf)) } else { Ok(None) }
}

/// The lines of a switch file.
fn switches(alloc: Global, entries: &str) -> Result<Vec<u8>, AllocError> {
    let mut lines = Vec::new(alloc);
    for entry in entries.split(",") {
        if entry != "none" {
            lines.extend_from_slice(entry.as_bytes())?;
            lines.push(b'\n')?;
        }
    }
    Ok(lines)
}

/// The words of a command line.
fn words_of<'t>(alloc: Global, more: &'t str, switched: bool) -> Result<Vec<&'t str>, AllocError> {
    let mut words = Vec::new(alloc);
    words.push("run")?;
    words.push("a.img")?;
    for word in more.split(" ") {
        words.push(word)?;
    }
    if switched {
        words.push("--switches=switches")?;
    }
    Ok(words)
}

fn run<'w>(
    alloc: Global,
    name: &'w str,
    options: RunOptions<'w>,
    shelf: &mut MemShelf,
) -> Result<String, NoMemory> {
    let mut out = MemSink::with_room(alloc, 4096)?;
    let mut err = MemSink::with_room(alloc, 4096)?;
    let mut image = Vec::new(alloc);
    let answer = run_image(alloc, name, options, shelf, &mut out, &mut image);
    let status = tell(&mut err, answer);
    let mut all = format!(in alloc; "{status} ")?;
    add_text(&mut all, err.bytes())?;
    if !out.bytes().is_empty() {
        all.push_str(" / ")?;
        add_text(&mut all, out.bytes())?;
    }
    Ok(all)
}

/// Adds bytes to a text, but line feeds.
fn add_text(text: &mut String, bytes: &[u8]) -> Result<(), AllocError> {
    for byte in bytes {
        if *byte != b'\n' {
            text.push(char::from(*byte))?;
        }
    }
    Ok(())
}
