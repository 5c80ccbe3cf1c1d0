//! What the names of a program stand for: entities, the scopes around a place of a text, and what
//! linking finds out about the units of a program (the report, sections 2.4 and 2.5).
#![tactic(auto)]

mod declarations;
mod entities;
mod linker;
mod predeclared;
mod program;
mod scopes;

pub use declarations::Declaration;
pub use entities::{Entity, EntityId, EntityKind};
pub use linker::Linker;
pub use predeclared::{Predeclared, predeclared_names};
pub use program::{Binds, Linked, Program, Revealed, UnitInfo};
pub use scopes::{Scopes, Visible};
