use m3_base::NoMemory;
use std::alloc::Global;

/// The bytes that constant texts may have beside the literals: those of a single text that is
/// written out, and those of all texts of an image together.
pub const LONGEST_TEXT: u64 = 1 << 27;

/// A text of a program: each is one cell of its own.
#[derive(Clone, Copy)]
pub enum Text<'a> {
    /// A text literal.
    Literal(&'a [u8]),
    /// A constant text whose bytes were written out.
    Made(&'a [u8]),
    /// The bytes of two texts, one behind the other. They stand before it in the list, and neither
    /// is empty.
    Joined { left: u32, right: u32, length: u64 },
}

/// How many bytes a text has, of which more than 2^64 - 1 count as these.
pub fn length_of(texts: &[Text<'_>], text: u32) -> u64 {
    match texts.get(text as usize) {
        Some(Text::Literal(bytes)) | Some(Text::Made(bytes)) => bytes.len() as u64,
        Some(Text::Joined { length, .. }) => *length,
        None => 0,
    }
}

/// A new text with the bytes of two, one behind the other. It takes constant time, so a row of n
/// texts costs n whatever their lengths.
pub fn joined_text<'a>(texts: &[Text<'a>], left: u32, right: u32) -> Text<'a> {
    let before = length_of(texts, left);
    let behind = length_of(texts, right);
    if before == 0 {
        return like(texts, right);
    }
    if behind == 0 {
        return like(texts, left);
    }
    Text::Joined {
        left,
        right,
        length: before.saturating_add(behind),
    }
}

/// A new text with the bytes of another.
fn like<'a>(texts: &[Text<'a>], text: u32) -> Text<'a> {
    match texts.get(text as usize) {
        Some(Text::Literal(bytes)) => Text::Made(*bytes),
        Some(other) => *other,
        None => Text::Made(&[]),
    }
}

/// The bytes of a text; one of more than `LONGEST_TEXT` is want of memory.
pub fn bytes_of(alloc: Global, texts: &[Text<'_>], text: u32) -> Result<Vec<u8>, NoMemory> {
    if length_of(texts, text) > LONGEST_TEXT {
        return Err(NoMemory);
    }
    let mut bytes = Vec::new(alloc);
    let mut rest = Vec::new(alloc);
    rest.push(text)?;
    'texts: for _ in 0..u64::MAX {
        let Some(next) = rest.pop() else {
            break 'texts;
        };
        match texts.get(next as usize) {
            Some(Text::Literal(piece)) | Some(Text::Made(piece)) => {
                bytes.extend_from_slice(piece)?;
            }
            Some(Text::Joined { left, right, .. }) => {
                rest.push(*right)?;
                rest.push(*left)?;
            }
            None => {}
        }
    }
    Ok(bytes)
}
