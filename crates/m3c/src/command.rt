// The command: its words, its files and its answer.

ghost use Rattle.std.specs.Prelude.{◌≡◌, [], ◌⊎◌, None, map, string_bytes, IfOk};
ghost use Rattle.m3c_image_commands.specs.Statuses.{putting, shelving};
ghost use Rattle.m3c.specs.Command.{Promises, call_of, file_of};

use m3_base::NoMemory;
use m3_ports::{Shelf, Sink};
use m3c_image_commands::{Refusal, tell};
use m3c_source_commands::{Checker, command};
use std::alloc::Global;

/// Carries out the command that the words give, without the program's name, and gives its status.
///
/// The commands are `build IMAGE FILE..`, `run IMAGE`, `exec FILE..`, `dump IMAGE`, `bench N` and
/// `inspect IMAGE --at K`. Output goes to `out`, one line to `err`, and the bytes of the image that
/// was built, run, dumped or inspected to `image`. The image of one FILE with a text in the plain
/// form comes from the generator that is proved. No such status but 4 comes where a sink failed.
pub fn m3c<F: Shelf, O: Sink, E: Sink>(
    alloc: Global,
    words: Vec<String>,
    shelf: &mut F,
    out: &mut O,
    err: &mut E,
    image: &mut Vec<u8>,
) -> u8
    requires { image.old.items ≡ [] }
    ensures promises { Promises (call_of (map string_bytes words.items)
        (shelving F.Shelf shelf.old shelf.new) (putting O.Sink out.old out.new)
        (putting E.Sink err.old err.new) image.new.items) result }
    ensures held { (file_of (map string_bytes words.items) ≡ None) ⊎
        (F.held shelf.new ≡ F.held shelf.old) }
{
    match texts_of(alloc, &words) {
        Ok(texts) => command::<Checker, F, O, E>(alloc, &texts, shelf, out, err, image),
        Err(NoMemory) => tell(err, Err(Refusal::NO_MEMORY)),
    }
}

// The words as the commands take them.
fn texts_of<'w>(alloc: Global, words: &'w [String]) -> Result<Vec<&'w str>, NoMemory>
    ensures { IfOk result
        (λ texts. map (λ text. text.now) texts.items ≡ map string_bytes words.now) }
{
    let mut texts = Vec::new(alloc);
    for word in words {
        texts.push(word.as_str())?;
    }
    Ok(texts)
}
