//! What stands between a command and its standard streams: output is gathered into large pieces,
//! and the line about the run waits until the output before it has gone.
#![tactic(auto)]

mod gathered;
mod kept;

pub use gathered::Gathered;
pub use kept::Kept;
