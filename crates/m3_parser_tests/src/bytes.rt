use crate::answers::answer_to;
use crate::cases::Tally;
use std::io;

/// Tries each byte as a whole file, and shows those that come out otherwise.
pub fn try_bytes(rt: &(impl Print + AllocGlobal)) -> io::Result<Tally> {
    let mut tally = Tally {
        cases: 0,
        differing: 0,
    };
    for byte in 0..=255u8 {
        let found = answer_to(rt.alloc(), &[byte], false)?;
        let is_right = found.as_slice() == answer_to_byte(byte).as_bytes();
        tally.count(is_right);
        if !is_right {
            println!(rt; "the byte {byte} comes out otherwise")?;
        }
    }
    Ok(tally)
}

/// What a file of one byte gives: nothing but white space is too short, a token that begins no unit
/// is unexpected, and the rest is no token.
fn answer_to_byte(byte: u8) -> &'static str {
    match byte {
        b'\n' => "! 11 2:1",
        9 | 11..=13 | b' ' => "! 11 1:2",
        b'\'' => "! 6 1:1",
        b'"' => "! 4 1:1",
        b'a'..=b'z' | b'A'..=b'Z' | b'0'..=b'9' => "! 10 1:1",
        b'+' | b'-' | b'*' | b'/' | b'=' | b'#' | b'<' | b'>' | b'&' | b'^' | b'.' | b',' => {
            "! 10 1:1"
        }
        b';' | b':' | b'|' | b'(' | b')' | b'[' | b']' | b'{' | b'}' => "! 10 1:1",
        _ => "! 1 1:1",
    }
}
