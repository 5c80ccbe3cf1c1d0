//! Tries the lexer and the parser on tables of cases, which it reads: texts with the trees or the
//! broken rules that they are to give. Each table stands behind `@@` and its name, and `bytes` is
//! the table of each byte as a whole file. Cases that come out otherwise are shown.
#![tactic(auto)]

use bytes::try_bytes;
use cases::{Tally, try_cases};
use std::io;
use std::io::Read;

mod answers;
mod bytes;
mod cases;
mod declarations;
mod expressions;
mod frames;
mod repeats;
mod sheets;
mod statements;
mod types;
mod units;

/// Tries a table.
fn try_one(rt: &(impl Print + AllocGlobal), name: &str, table: &str) -> io::Result<Tally> {
    if name == "bytes" {
        try_bytes(rt)
    } else {
        try_cases(rt, name, table)
    }
}

fn run(rt: &(impl Print + AllocGlobal), tables: &str) -> io::Result<()> {
    for table in tables.split("@@ ").skip(1) {
        let (name, table) = table.split_once('\n').unwrap_or((table, ""));
        let Tally { cases, differing } = try_one(rt, name, table)?;
        println!(rt; "{name}: {cases} cases, {differing} come out otherwise")?;
    }
    Ok(())
}

fn main(rt: HostRuntime) -> io::Result<()> {
    let tables = io::read_to_string(rt.alloc(), rt.reader())?;
    run(&rt, tables.as_str())
}
