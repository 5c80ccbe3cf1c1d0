//! Variables and the steps that lead on from them: in temporaries, in slots of the own frame or an
//! outer one, and through aliases.
#![tactic(auto)]

mod aliases;
mod frames;
mod sources;
mod steps;
mod variables;

pub use aliases::{alias_in_temps, emit_alias, plan_alias};
pub use frames::environment_of;
pub use sources::{move_words, ready, source, words_in};
pub use steps::{
    emit_keep, emit_read, emit_reference, kind_before, kind_of_base, kind_of_step, plan_step,
};
pub use variables::{emit_local, plan_local};
