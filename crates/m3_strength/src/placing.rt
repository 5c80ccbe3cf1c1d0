//! Which addresses of a loop move along.
use m3_base::NoMemory;
use m3_counting_loops::{Access, Findings, Loop};

/// Lets a pointer stand in the place of an address. Gives whether one does.
fn place(findings: &mut Findings<'_>, counted: &Loop, access: &Access) -> Result<bool, NoMemory> {
    let mut stand = findings.near(access)?;
    if stand.is_none() && findings.add_pointer(counted, access)? {
        stand = findings.near(access)?;
    }
    findings.put(access, stand);
    Ok(stand.is_some())
}

/// Finds pointers for the addresses of a block, from the last to the first, so that it is known which
/// of them are needed no more.
fn place_all(
    findings: &mut Findings<'_>,
    counted: &Loop,
    accesses: &mut Vec<Access>,
) -> Result<(), NoMemory> {
    for _access in 0..accesses.len() {
        if let Some(access) = accesses.pop()
            && findings.is_for_words(&access)
            && (findings.words(&access) == 0 || place(findings, counted, &access)?)
        {
            findings.drop_step(&access);
        }
    }
    Ok(())
}

/// Looks through the blocks of a loop that each turn passes: for the others a pointer would move in
/// vain.
pub(crate) fn add_loop(findings: &mut Findings<'_>, counted: &Loop) -> Result<(), NoMemory> {
    if findings.enter(counted)? {
        for block in &counted.passed {
            let mut accesses = findings.look(counted, *block)?;
            place_all(findings, counted, &mut accesses)?;
        }
    }
    Ok(())
}
