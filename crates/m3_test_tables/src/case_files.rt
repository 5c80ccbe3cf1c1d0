use std::alloc::{AllocError, Global};

/// A file of a case.
#[derive(Drop)]
pub struct CaseFile {
    pub name: String,
    pub text: String,
}

/// The files of a case. Each `N:piece` between two `~` is N times the piece, and then so is each
/// between two backquotes. In the copies of a piece `$` stands for the number of the copy, from 0
/// on, and `%` for the next number. A file whose name ends in ` * N` stands N times, with such
/// numbers in its name and its text.
pub fn files_of(alloc: Global, body: &str) -> Result<Vec<CaseFile>, AllocError> {
    let mut files = Vec::new(alloc);
    for part in body.split("\n--- ").skip(1) {
        let (name, text) = part.split_once("\n").unwrap_or((part, ""));
        let inner = expanded(alloc, text, '~')?;
        let whole = expanded(alloc, inner.as_str(), '`')?;
        add_files(alloc, &mut files, name, whole)?;
    }
    Ok(files)
}

/// Adds a file as often as its name says.
fn add_files(
    alloc: Global,
    files: &mut Vec<CaseFile>,
    name: &str,
    text: String,
) -> Result<(), AllocError> {
    match name.split_once(" * ") {
        Some((name, times)) => {
            let times = times.parse::<u32>().unwrap_or(1);
            add_numbered_files(alloc, files, name, text.as_str(), times)
        }
        None => {
            let name = String::from_str(alloc, name)?;
            files.push(CaseFile { name, text })?;
            Ok(())
        }
    }
}

fn add_numbered_files(
    alloc: Global,
    files: &mut Vec<CaseFile>,
    name: &str,
    text: &str,
    times: u32,
) -> Result<(), AllocError> {
    for number in 0..times {
        let mut own_name = String::new(alloc);
        add_numbered(alloc, &mut own_name, name, number)?;
        let mut own_text = String::new(alloc);
        add_numbered(alloc, &mut own_text, text, number)?;
        files.push(CaseFile {
            name: own_name,
            text: own_text,
        })?;
    }
    Ok(())
}

/// A text with the copies of each piece between two such marks.
fn expanded(alloc: Global, text: &str, mark: char) -> Result<String, AllocError> {
    let mut whole = String::new(alloc);
    for (place, piece) in text.split(mark).enumerate() {
        if place % 2 == 0 {
            whole.push_str(piece)?;
        } else {
            add_copies(alloc, &mut whole, piece)?;
        }
    }
    Ok(whole)
}

/// Adds the copies of a piece behind their number and a colon.
fn add_copies(alloc: Global, whole: &mut String, piece: &str) -> Result<(), AllocError> {
    let (times, piece) = piece.split_once(":").unwrap_or(("1", piece));
    for number in 0..times.parse::<u32>().unwrap_or(1) {
        add_numbered(alloc, whole, piece, number)?;
    }
    Ok(())
}

/// Adds the copy of a piece that has this number.
fn add_numbered(
    alloc: Global,
    whole: &mut String,
    piece: &str,
    number: u32,
) -> Result<(), AllocError> {
    let next = number.saturating_add(1);
    let own_digits = format!(in alloc; "{number}")?;
    let next_digits = format!(in alloc; "{next}")?;
    for letter in piece.chars() {
        match letter {
            '$' => whole.push_str(own_digits.as_str())?,
            '%' => whole.push_str(next_digits.as_str())?,
            _ => whole.push(letter)?,
        }
    }
    Ok(())
}
