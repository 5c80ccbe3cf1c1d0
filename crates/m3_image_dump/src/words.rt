//! The words that a line is made of, each added to a text that grows.
ghost use Rattle.std.specs.Prelude.{◌≡◌, ◌++◌, codes, decimal, OnOk};
ghost use Rattle.std.specs.Fmt.{signed_decimal};
ghost use Rattle.std.specs.List.{flat_map};
ghost use Rattle.m3_tables.specs.Views.{numbers_of};
ghost use Rattle.m3_image_dump.specs.Texts.{number_word, place_text, place_word};

use itoa::Buffer;
use m3_base::NoMemory;
use m3_tables::Numbers;

pub(crate) fn put(text: &mut Vec<u8>, part: &[u8]) -> Result<(), NoMemory>
    ensures { OnOk result (text.new.items ≡ text.old.items ++ part.now) }
{
    text.extend_from_slice(part)?;
    Ok(())
}

pub(crate) fn put_number(text: &mut Vec<u8>, n: u64) -> Result<(), NoMemory>
    ensures { OnOk result (text.new.items ≡ text.old.items ++ decimal n) }
{
    let mut buffer = Buffer::new();
    put(text, buffer.format(n).as_bytes())
}

/// A signed number behind a space.
pub(crate) fn put_signed_word(text: &mut Vec<u8>, n: i32) -> Result<(), NoMemory>
    ensures { OnOk result (text.new.items ≡ text.old.items ++ (codes " " ++ signed_decimal n)) }
{
    put(text, b" ")?;
    let mut buffer = Buffer::new();
    put(text, buffer.format(n).as_bytes())
}

/// A number behind a space.
pub(crate) fn put_number_word(text: &mut Vec<u8>, n: u64) -> Result<(), NoMemory>
    ensures { OnOk result (text.new.items ≡ text.old.items ++ number_word n) }
{
    put(text, b" ")?;
    put_number(text, n)
}

/// The place that a number stands for: a register, or a slot of the frame.
pub(crate) fn put_place(text: &mut Vec<u8>, place: u32) -> Result<(), NoMemory>
    ensures { OnOk result (text.new.items ≡ text.old.items ++ place_text place) }
{
    if place < 16 {
        put(text, b"r")?;
        put_number(text, place as u64)
    } else {
        put(text, b"s")?;
        put_number(text, place as u64 - 16)
    }
}

/// A place behind a space.
pub(crate) fn put_place_word(text: &mut Vec<u8>, place: u32) -> Result<(), NoMemory>
    ensures { OnOk result (text.new.items ≡ text.old.items ++ place_word place) }
{
    put(text, b" ")?;
    put_place(text, place)
}

/// Places, each behind a space.
pub(crate) fn put_places(text: &mut Vec<u8>, places: Numbers<'_>) -> Result<(), NoMemory>
    ensures { OnOk result (text.new.items ≡ text.old.items ++ flat_map place_word
        (numbers_of places.entry)) }
{
    'places: for place in places {
        put_place_word(text, place)?;
    }
    Ok(())
}
