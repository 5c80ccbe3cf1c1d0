//! The instructions of operations without a point, over registers and words of the frame.
#![tactic(auto)]

mod answers;
mod branches;
mod checks;
mod emitter;
mod operands;
mod part;
mod plain;
mod relations;

pub use branches::Fork;
pub use emitter::{Content, Contents, Demand, Emitter, FIRST, Fold, NOTHING, Target, imm_of, meet};
pub use operands::Goal;
pub use part::{Links, Places, goes_to_imm};
pub use plain::word_of;
