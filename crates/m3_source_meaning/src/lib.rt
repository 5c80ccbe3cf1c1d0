//! What a checked program means: the value of each expression, the effect of each statement, and
//! the run of the whole. These are definitions alone.
#![tactic(auto)]
