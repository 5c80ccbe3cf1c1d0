//! The checked tree of a program: names are resolved to places, each node has its type, defaults
//! are filled in, each dereference, conversion and check is a node, and LOCK is written out.
#![tactic(auto)]

mod calls;
mod chains;
mod exprs;
mod program;
mod stmts;
mod texts;
mod values;

pub use calls::{Actual, BuiltinCall, Routine};
pub use chains::{Base, Chain, Step};
pub use exprs::{
    ArrayLimit, Binding, Compared, Conversion, CoreExpr, FieldValue, Operation, Operator, Prefix,
    PrefixOperator, Relation, SetElement,
};
pub use program::{Core, ExcDef, ProcDef, Role, VarDef, VarKind};
pub use stmts::{
    Arm, Bound, CaseBranch, CoreStmt, Else, Handler, LabelRange, TypeBranch, WithBinding,
};
pub use texts::{LONGEST_TEXT, Text, bytes_of, joined_text, length_of};
pub use values::{Value, ValueId};
