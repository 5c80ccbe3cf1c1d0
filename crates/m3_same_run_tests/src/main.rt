//! Tries the check of two runs on pairs of small procedures. A case of pairs.txt has a title behind
//! `== `, the blocks of the left procedure and of the right one, as `m3_mid_text` shows them, and
//! the proof, with a line `---` between any two of them, and behind `>>> ` whether it is accepted.
//! All of this is worked out by hand. A procedure that isn't shown again as it is written, or a
//! proof that can't be read, gives `not read`.
#![tactic(auto)]

mod operations;
mod procedures;
mod proofs;
mod words;

use bumpalo::Bump;
use m3_mid::Proc;
use m3_mid_text::Text;
use m3_same_run::have_same_run;
use m3_test_tables::Tally;
use procedures::procedure_of;
use proofs::{common_of, proof_of};
use std::alloc::{AllocError, Global};
use std::rt::Files;
use std::{fs, io};

/// Whether the blocks of a procedure are shown by this text.
fn is_shown(alloc: Global, proc: &Proc<'_>, text: &str) -> Result<bool, AllocError> {
    let shown = format!(in alloc; "{}", Text(proc.blocks))?;
    Ok(shown.as_str().strip_suffix("\n") == Some(text))
}

/// What the check says of two procedures and a proof.
fn judged(
    alloc: Global,
    left_text: &str,
    right_text: &str,
    proof_text: &str,
) -> Result<&'static str, AllocError> {
    let owner = Bump::new(alloc);
    let arena = &owner;
    let left = procedure_of(arena, 8, left_text)?;
    let right = procedure_of(arena, 10, right_text)?;
    let is_left = is_shown(alloc, &left, left_text)?;
    let is_right = is_shown(alloc, &right, right_text)?;
    let common = common_of(alloc, 8, proof_text)?;
    let Some(proof) = proof_of(alloc, proof_text)? else {
        return Ok("not read");
    };
    if !(is_left && is_right) {
        return Ok("not read");
    }
    if have_same_run(alloc, &left, &right, &common, &proof)? {
        Ok("accepted")
    } else {
        Ok("refused")
    }
}

/// Tries a case.
fn try_case(rt: &(impl Print + AllocGlobal), tally: &mut Tally, case: &str) -> io::Result<()> {
    let (body, rest) = case.split_once("\n>>> ").unwrap_or((case, ""));
    let wanted = rest.lines().next().unwrap_or("");
    let (title, body) = body.split_once("\n").unwrap_or((body, ""));
    let mut parts = body.split("\n---\n");
    let left = parts.next().unwrap_or("");
    let right = parts.next().unwrap_or("");
    let proof = parts.next().unwrap_or("");
    let got = judged(rt.alloc(), left, right, proof)?;
    tally.tell(rt, title, got, wanted)
}

fn main(rt: HostRuntime) -> io::Result<()> {
    let content = fs::read_to_string(&rt, "pairs.txt")?;
    let mut tally = Tally::new();
    for case in content.as_str().split("\n== ").skip(1) {
        try_case(&rt, &mut tally, case)?;
    }
    tally.sum_up(&rt, "pairs.txt")
}
