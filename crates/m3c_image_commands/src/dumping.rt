ghost use Rattle.std.specs.Prelude.{◌≡◌, ℕ, List, [], Ok};
ghost use Rattle.m3_image.specs.Images.{read_of};
ghost use Rattle.m3_image.specs.Views.{image_view};
ghost use Rattle.m3c_image_commands.specs.Statuses.{putting, shelving};
ghost use Rattle.m3c_image_commands.specs.ImageCommands.{Dumps, DumpsBytes};

use crate::answers::{Answer, Refusal};
use crate::running::{fetch_image, read_image};
use m3_image::ImageView;
use m3_image_decoded::Decoded;
use m3_image_dump::dump;
use m3_ports::{Shelf, Sink};
use std::alloc::Global;

/// The text of an image, put on out.
fn dump_view<O: Sink>(
    alloc: Global,
    image: ImageView<'_>,
    out: &mut O,
) -> Result<Answer, Refusal<'static>>
    ensures { (bytes : List ℕ) → read_of bytes ≡ Ok (image_view image.entry)
        → DumpsBytes bytes (putting O.Sink out.old out.new) result }
{
    let Ok(decoded) = Decoded::of(alloc, image) else {
        return Err(Refusal::NO_MEMORY);
    };
    let Ok(text) = dump(alloc, &decoded) else {
        return Err(Refusal::NO_MEMORY);
    };
    match out.put(&text) {
        Ok(()) => Ok(Answer::silent(alloc)),
        Err(_) => Err(Refusal::WRITE_FAULT),
    }
}

/// The text of the image that some bytes are, put on out.
fn dump_bytes<O: Sink>(alloc: Global, bytes: &[u8], out: &mut O) -> Result<Answer, Refusal<'static>>
    ensures { DumpsBytes bytes.now (putting O.Sink out.old out.new) result }
{
    match read_image(alloc, bytes) {
        Ok(view) => dump_view(alloc, view, out),
        Err(answer) => answer,
    }
}

/// `dump IMAGE`: fetches the image, and puts its text on out. The bytes of the image go to `image`,
/// which is to be empty before.
pub fn dump_image<'a, F: Shelf, O: Sink>(
    alloc: Global,
    name: &'a str,
    shelf: &mut F,
    out: &mut O,
    image: &mut Vec<u8>,
) -> Result<Answer, Refusal<'a>>
    requires { image.old.items ≡ [] }
    ensures { Dumps (shelving F.Shelf shelf.old shelf.new) (putting O.Sink out.old out.new) name.now
        image.new.items result }
{
    match fetch_image(alloc, name, shelf, image) {
        Ok(()) => dump_bytes(alloc, image, out),
        Err(refusal) => Err(refusal),
    }
}
