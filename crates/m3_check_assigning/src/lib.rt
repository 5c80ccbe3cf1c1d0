//! Chains of selectors in the making, what an operand is as a value or as a place (rules 52, 53 and
//! 61), and values that are assigned, returned or given to something, with the checks that they
//! need (rules 51 and 67).
#![tactic(auto)]

mod assigning;
mod chains;

pub use assigning::{assigned, converted, judge_all, judge_given, nil_as, value_given, with_check};
pub use chains::{
    chain_from, chain_of, chain_thing, finished, finished_place, is_writable, new_chain,
    parenthesized, placed_chain, read_chain, value_of, with_step,
};
