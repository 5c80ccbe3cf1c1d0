//! Two procedures of middle code side by side: their words as sums of the same symbols, what an
//! operation does by such sums, which answers are known, and what of two operations is the same.
#![tactic(auto)]

mod facts;
mod forms;
mod points;
mod same;
mod see;
mod seen;
mod side;

pub use facts::{asks, copied, holds, is_form, is_lasting, is_other, known, remaining};
pub use forms::{Form, Known, Pair, Query, Setting, Symbol, Tag, Term, same_symbol};
pub use points::Sides;
pub use same::{
    same_checked, same_deed, same_fault, same_place, same_relation, same_slots, same_tag,
};
pub use seen::{Deed, Seen};
pub use side::Side;
