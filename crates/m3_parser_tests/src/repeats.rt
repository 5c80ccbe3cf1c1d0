use std::alloc::{AllocError, Global};

/// A text with each `N:piece` between backquotes replaced by N times the piece.
pub fn expanded(alloc: Global, text: &str) -> Result<String, AllocError> {
    let mut whole = String::new(alloc);
    for (number, piece) in text.split('`').enumerate() {
        if number % 2 == 0 {
            whole.push_str(piece)?;
        } else {
            repeat(piece, &mut whole)?;
        }
    }
    Ok(whole)
}

fn repeat(piece: &str, whole: &mut String) -> Result<(), AllocError> {
    let (times, piece) = piece.split_once(':').unwrap_or(("1", piece));
    let times = times.parse::<u32>().unwrap_or(1);
    for _ in 0..times {
        whole.push_str(piece)?;
    }
    Ok(())
}
