use bumpalo::Bump;
use bumpalo::collections::into_bump_slice;
use m3_base::NoMemory;

/// The byte that a letter behind a backslash stands for.
fn lettered(letter: u8) -> u8 {
    match letter {
        b'n' => b'\n',
        b't' => b'\t',
        b'r' => b'\r',
        b'f' => 12,
        other => other,
    }
}

/// The value of three octal digits.
fn octal(first: u8, second: u8, third: u8) -> Option<u8> {
    if !(b'0'..=b'3').contains(&first)
        || !(b'0'..=b'7').contains(&second)
        || !(b'0'..=b'7').contains(&third)
    {
        return None;
    }
    Some((first - b'0') * 64 + (second - b'0') * 8 + (third - b'0'))
}

/// The bytes that a text literal stands for, of its spelling with marks and escapes.
pub fn spelled<'a>(arena: &'a Bump, text: &[u8]) -> Result<&'a [u8], NoMemory> {
    let mut row = Vec::new(arena);
    let mut rest = match text {
        [b'"', inner @ ..] => inner,
        other => other,
    };
    'bytes: for _ in 0..text.len() {
        match rest {
            [] | [b'"', ..] => break 'bytes,
            [b'\\', first, second, third, ..] if octal(*first, *second, *third).is_some() => {
                row.push(octal(*first, *second, *third).unwrap_or(0))?;
                rest = &rest[4..];
            }
            [b'\\', letter, ..] => {
                row.push(lettered(*letter))?;
                rest = &rest[2..];
            }
            [byte, ..] => {
                row.push(*byte)?;
                rest = &rest[1..];
            }
        }
    }
    Ok(into_bump_slice(row))
}
