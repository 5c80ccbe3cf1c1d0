//! Where a program's files come from and where its output goes: shelves and sinks, in memory and
//! over the system's files and streams.
#![tactic(auto)]

mod file_shelf;
mod memory_shelf;
mod memory_sink;
mod replace;
mod shelves;
mod sinks;
mod std_sink;

pub use file_shelf::FileShelf;
pub use memory_shelf::MemShelf;
pub use memory_sink::MemSink;
pub use shelves::{Shelf, ShelfFault};
pub use sinks::{Sink, SinkFailed};
pub use std_sink::StdSink;
