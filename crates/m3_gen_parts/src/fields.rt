use m3_base::{Bytes, NoMemory, place_number};

pub(crate) fn put_word(out: &mut Vec<u8>, word: u32) -> Result<(), NoMemory> {
    out.extend_from_slice(&word.to_le_bytes())?;
    Ok(())
}

/// How many items follow.
pub(crate) fn put_count(out: &mut Vec<u8>, count: usize) -> Result<(), NoMemory> {
    put_word(out, place_number(count)?)
}

/// Numbers behind their count.
pub(crate) fn put_list(out: &mut Vec<u8>, words: &[u32]) -> Result<(), NoMemory> {
    put_count(out, words.len())?;
    for word in words {
        put_word(out, *word)?;
    }
    Ok(())
}

/// Bytes behind their length: a text, or a section.
pub(crate) fn put_text(out: &mut Vec<u8>, text: &[u8]) -> Result<(), NoMemory> {
    put_count(out, text.len())?;
    out.extend_from_slice(text)?;
    Ok(())
}

/// Texts behind their count, each behind its length.
pub(crate) fn put_texts(out: &mut Vec<u8>, texts: &[Bytes]) -> Result<(), NoMemory> {
    put_count(out, texts.len())?;
    for text in texts {
        put_text(out, text.as_slice())?;
    }
    Ok(())
}
