//! What middle code means: `specs/Meaning.antt` says what each operation and each end of a block
//! does, `specs/Runs.antt` what a procedure's run is for a list of answers at its points. The
//! lowering, the passes over middle code, `m3_derive`, `m3_alloc` and `m3_emit` are to be proved
//! against it. The functions give what operators and relations make of two numbers.
#![tactic(auto)]

mod laws;
mod numbers;

pub use laws::{
    elements_of_arrays, every_layout, fault_in_place, more_answers, one_after_the_other, one_arm,
    one_run, own_words, proper_states, same_where_defined, step_by_step, stop_by_stop,
    sums_of_words, times_of_words, words_of_numbers,
};
pub use numbers::{checked_value, is_related, operator_value};
