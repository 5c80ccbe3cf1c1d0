//! The commands over images: `run IMAGE` and `dump IMAGE`; and what every command needs to answer.
#![tactic(auto)]

mod answers;
mod dumping;
mod fetching;
mod heaps;
mod line;
mod refusals;
mod running;

pub use answers::{Answer, Refusal, tell};
pub use dumping::dump_image;
pub use fetching::{RunFiles, fetch, fetch_run_files};
pub use heaps::FirstHeap;
pub use line::{LINE_ROOM, answer_of, counted_answer, longest_name};
pub use refusals::push_number;
pub use running::{Run, fetch_all, read_image, run_bytes, run_image, schedule_of};
