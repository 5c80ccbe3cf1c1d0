//! Scopes and the ways out of them: what is shown at points, where exceptions, EXIT and RETURN go
//! on, and which slots are cleared on the way.
#![tactic(auto)]

mod exits;
mod finishing;
mod landings;
mod procs;
mod scopes;

pub use exits::{Exits, Outcome, Returning};
pub use finishing::{
    EXITED, NORMALLY, RAISED, RETURNED, dispatch, forget_raised, left_as, move_raised, overriding,
};
pub use landings::{SlotRange, clear_inside, clear_range, clear_variables, slots_inside};
pub use procs::{declare, ending, exits_of, first_moves, global_place, is_reference_word};
pub use scopes::{defaults, place_of, showing, type_of};
