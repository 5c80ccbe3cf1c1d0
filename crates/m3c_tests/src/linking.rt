mod questions;

use bumpalo::Bump;
use m3_base::Source;
use m3_link_program::read_program;
use m3_test_tables::{Trial, copies, refused_text};
use questions::answer_of_program;
use std::alloc::{AllocError, Global};

/// Tries what reads and links the files of a program: rules of units, generics and names, scopes,
/// numbers of tokens. A case gives `ok`; the least refusal as `FILE:LINE:COLUMN: rule N`; `order`
/// and the places of the modules in the order of their bodies; `units` and their number; or `at`,
/// the place of a name, and the place of its declaration or `none`.
pub struct Linking;

impl Trial for Linking {
    fn answer(
        &self,
        alloc: Global,
        sources: &[Source<'_>],
        wanted: &str,
    ) -> Result<String, AllocError> {
        // Trees borrow the arena, so the texts stand in it too.
        let owner = Bump::new(alloc);
        let arena = &owner;
        let copies = copies(alloc, arena, sources)?;
        match read_program(alloc, arena, copies.as_slice()) {
            Ok(linked) => answer_of_program(alloc, sources, &linked.program, wanted),
            Err(refused) => refused_text(alloc, sources, &refused),
        }
    }
}
