//! The fields of a section: numbers with the lowest byte first, and lists and texts behind their
//! counts.
ghost use Rattle.std.specs.Prelude.{◌≡◌, ◌<◌, ◌^◌, ◌++◌, length, OnOk};
ghost use Rattle.std.specs.List.{flat_map, AllByRecursion};
ghost use Rattle.m3_tables_writer.specs.Writing.{word_bytes, list_bytes};
ghost use Rattle.m3_tables.specs.Fields.{list_at};
ghost use Rattle.m3_image_writer.specs.Again.{Reads};
ghost use Rattle.m3_image_writer.specs.Fields.{long_bytes, text_bytes};

use byteorder::{ByteOrder, LittleEndian};
use m3_base::{Bytes, NoMemory};

#[tactic(auto, unfolding(m3_tables_writer::specs::Writing::word_bytes))]
pub(crate) fn put_word(out: &mut Vec<u8>, word: u32) -> Result<(), NoMemory>
    ensures { OnOk result (out.new.items ≡ out.old.items ++ word_bytes word) }
{
    let mut bytes = [0; 4];
    LittleEndian::write_u32(&mut bytes, word);
    out.extend_from_slice(&bytes)?;
    Ok(())
}

#[tactic(auto, unfolding(crate::specs::Fields::long_bytes))]
pub(crate) fn put_long(out: &mut Vec<u8>, long: u64) -> Result<(), NoMemory>
    ensures { OnOk result (out.new.items ≡ out.old.items ++ long_bytes long) }
{
    let mut bytes = [0; 8];
    LittleEndian::write_u64(&mut bytes, long);
    out.extend_from_slice(&bytes)?;
    Ok(())
}

fn put_words(out: &mut Vec<u8>, words: &[u32]) -> Result<(), NoMemory>
    ensures { OnOk result (out.new.items ≡ out.old.items ++ flat_map word_bytes words.now) }
{
    for word in words {
        put_word(out, *word)?;
    }
    Ok(())
}

/// A list of numbers behind its count.
#[tactic(auto, unfolding(m3_tables_writer::specs::Writing::list_bytes))]
pub(crate) fn put_list(out: &mut Vec<u8>, words: &[u32]) -> Result<(), NoMemory>
    requires { length (list_bytes words.now) < 2 ^ 32 }
    ensures again { OnOk result (Reads list_at (list_bytes words.now) words.now) }
    ensures bytes { OnOk result (out.new.items ≡ out.old.items ++ list_bytes words.now) }
{
    put_word(out, words.len() as u32)?;
    put_words(out, words)
}

/// Bytes behind their length: a text, or a section.
#[tactic(auto, unfolding(crate::specs::Fields::text_bytes))]
pub(crate) fn put_text(out: &mut Vec<u8>, text: &[u8]) -> Result<(), NoMemory>
    requires { length text.now < 2 ^ 32 }
    ensures { OnOk result (out.new.items ≡ out.old.items ++ text_bytes text.now) }
{
    put_word(out, text.len() as u32)?;
    out.extend_from_slice(text)?;
    Ok(())
}

/// Texts one after the other, each behind its length.
pub(crate) fn put_texts(out: &mut Vec<u8>, texts: &[Bytes]) -> Result<(), NoMemory>
    requires { AllByRecursion (λ text. length text < 2 ^ 32) texts.now }
    ensures { OnOk result (out.new.items ≡ out.old.items ++ flat_map text_bytes texts.now) }
{
    for text in texts {
        put_text(out, text.as_slice())?;
    }
    Ok(())
}
