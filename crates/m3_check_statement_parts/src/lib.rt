//! The heads of statements, which are checked before the statements that stand in one, what each
//! procedure begins with, and the statements and procedures that checked parts become.
#![tactic(auto)]

mod branches;
mod branching;
mod enclosing;
mod entering;
mod leaving;
mod looping;
mod names;

pub use branches::{condition, handler, ranges, tested, type_head};
pub use branching::{
    add_arm, add_case, add_handler, add_type_branch, put_case, put_if, put_try, put_type_case,
};
pub use enclosing::{put_finally, put_leaf, put_lock, put_with};
pub use entering::{enter, initial, locals};
pub use leaving::{leave, put_block};
pub use looping::{put_for, put_loop, put_repeat, put_while};
pub use names::{bindings, counted, mutex};
