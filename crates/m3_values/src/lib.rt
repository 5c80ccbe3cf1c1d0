//! What a running program has to do with: values, variables and places, the store, and how values
//! are read, written, compared and computed with. These are definitions alone.
#![tactic(auto)]
