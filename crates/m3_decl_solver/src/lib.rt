//! Does all tasks (`m3_decl_tasks`): each is done, or what it lacks is done first, over an explicit
//! stack, and then the task once more, so nothing but the nesting of one expression is recursive.
//! A task that needs itself is refused (rule 46).
#![tactic(auto)]

mod promises;
mod settling;
mod soundness;

pub use promises::is_kept;
pub use settling::settle_all;
pub use soundness::tell_unsound;
