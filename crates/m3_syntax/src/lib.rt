//! The tokens and the trees of Modula-3.
#![tactic(auto)]

mod expressions;
mod names;
mod statements;
mod tokens;
mod units;

pub use expressions::{
    Actual, Brand, Element, Expr, Field, Formal, Init, Method, ObjectPart, Operation, Operator,
    Override, PrefixSign, Selector, Signature, TypeExp,
};
pub use names::{Mode, Name, Qualid, Raises, TypeName};
pub use statements::{
    Arm, Binding, Block, CaseBranch, ConstDecl, Decl, Else, ExceptionDecl, Handler, Label,
    ProcedureBody, Revelation, Stmt, TypeBranch, TypeDecl, VarDecl,
};
pub use tokens::{Lexed, Sign, Token, TokenKind, Word};
pub use units::{Import, ImportItem, Kept, Unit, UnitKind};
