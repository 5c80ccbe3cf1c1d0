//! What flows through the blocks of a procedure: in which order they lie best in memory, and which
//! temporaries are live where.
#![tactic(auto)]

mod chains;
mod graph;
mod groups;
mod live;
mod operations;
mod order;
mod ranges;

pub use graph::end_of;
pub use groups::{Groups, Pair};
pub use live::{LiveRange, LiveSets, RowUse, live_at, live_with, uses_of};
pub use operations::{
    actuals_of, end_operands, exits_of, is_call, is_point, operands_of, ops_of, service_operands,
    settings_of, shown_at, temp_of,
};
pub use order::{Order, block_order};
