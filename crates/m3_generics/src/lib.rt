//! Generic units: each instance gets the text of its generic (the report, section 2.5.5).
#![tactic(auto)]

mod instances;
mod tables;

pub use instances::expand;
