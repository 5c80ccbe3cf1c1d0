//! Puts procedures as text that have each operation and each end of a block once.
#![tactic(auto)]

mod calls;
mod words;

use bumpalo::Bump;
use calls::print_calls;
use std::io;
use words::print_words;

fn main(rt: HostRuntime) -> io::Result<()> {
    let arena = Bump::new(rt.alloc());
    print_words(&rt, &arena)?;
    print_calls(&rt, &arena)
}
