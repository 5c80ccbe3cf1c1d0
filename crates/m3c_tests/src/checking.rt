use bumpalo::Bump;
use m3_base::Source;
use m3_checker::check;
use m3_test_tables::{Trial, copies, refused_text, try_file, try_pieces};
use std::alloc::{AllocError, Global};
use std::rt::Files;
use std::{fs, io};

/// The module in which the pieces of a table are tried.
const PRELUDE: &str = "checking/prelude.txt";

/// Tries the checker. A case gives `ok` or the least refusal.
struct Checking;

impl Trial for Checking {
    fn answer(
        &self,
        alloc: Global,
        sources: &[Source<'_>],
        _wanted: &str,
    ) -> Result<String, AllocError> {
        // Trees borrow the arena, so the texts stand in it too.
        let owner = Bump::new(alloc);
        let arena = &owner;
        let copies = copies(alloc, arena, sources)?;
        match check(alloc, arena, copies.as_slice()) {
            Ok(_) => String::from_str(alloc, "ok"),
            Err(refused) => refused_text(alloc, sources, &refused),
        }
    }
}

/// Tries the checker on a table: on whole programs where its name ends in `programs.txt`, else on
/// pieces in the prelude.
pub fn try_checking(rt: &(impl Print + Files + AllocGlobal), name: &str) -> io::Result<()> {
    if name.ends_with("programs.txt") {
        return try_file(rt, &Checking, name);
    }
    let prelude = fs::read_to_string(rt, PRELUDE)?;
    let content = fs::read_to_string(rt, name)?;
    let tally = try_pieces(rt, &Checking, prelude.as_str(), content.as_str())?;
    tally.sum_up(rt, name)
}
