//! What the declarations of a program declare: types, constants, and where each stands in the
//! text; the members of types by their names.
#![tactic(auto)]

mod declared;
mod families;
mod kinds;
mod members;

pub use declared::{Basic, Constant, Declared};
pub use families::{Family, family_of};
pub use kinds::{field_kind, method_kind};
pub use members::{Found, Member, Members};
